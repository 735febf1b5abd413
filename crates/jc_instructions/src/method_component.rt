//! The code of packages.
ghost use Rattle.std.specs.Prelude.{◌≡◌, ◌<◌, ◌^◌, length};
ghost use Rattle.jc_instructions.specs.MethodComponent.{method_component_of};

use jc_linker::linked::Linked;

// How many bytes a component has at most.
const MOST_BYTES: usize = 65535;

/// The bytes of a package's Method component, in which places are counted; none where there is no such
/// package.
#[tactic(auto, using(std::proofs::lemmas::List::take_min), unfolding(crate::specs::MethodComponent::method_component_of))]
pub fn method_component_of(package_number: u8, linked: &Linked) -> &[u8]
    ensures text { result.now ≡ method_component_of linked.entry.now package_number }
    ensures short { length result.now < 2 ^ 16 }
{
    let text = linked.code_at(package_number, 0);
    &text[..MOST_BYTES.min(text.len())]
}
