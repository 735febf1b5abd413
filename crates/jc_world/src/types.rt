//! Classes that entries of a constant pool name, and of what an object is an instance.
ghost use Rattle.std.specs.Prelude.{◌≡◌};
ghost use Rattle.jc_world.specs.Types.{class_of, class_named, is_object_class, is_a};

use crate::objects::is_instance;
use jc_heap::Facts;
use jc_linker::linked::Linked;
use jc_linker::target::Target;
use jc_platform::names::PlatformClass;
use jc_transient::ClassWord;

// The class or interface of a target, if the target is one.
fn class_of(target: &Target) -> Option<ClassWord>
    ensures { result ≡ class_of target.now }
{
    match target {
        Target::Class(class) => Some(*class),
        _ => None,
    }
}

/// The class or interface that an entry of a package's pool names, if it names one.
#[tactic(auto, unfolding(crate::specs::Types::class_named))]
pub fn class_named(linked: &Linked, package_number: u8, index: u16) -> Option<ClassWord>
    ensures { result ≡ class_named linked.now package_number index }
{
    class_of(linked.target_at(package_number, index)?)
}

/// Whether the class is `Object`.
#[inline(always)]
pub fn is_object_class(class: ClassWord, linked: &Linked) -> bool
    ensures { result ≡ is_object_class linked.now class }
{
    class == linked.platform().class_word(PlatformClass::Object)
}

/// Whether an object with this header is an instance of a class or an interface. Arrays are instances of `Object`.
#[inline(always)]
#[tactic(auto, using(crate::proofs::Below::below_same), unfolding(crate::specs::Types::is_a))]
pub fn is_a(facts: Facts, class: ClassWord, linked: &Linked) -> bool
    ensures { result ≡ is_a linked.now facts class }
{
    if is_instance(facts.kind) {
        facts.class() == class || linked.is_below(facts.class(), class)
    } else {
        is_object_class(class, linked)
    }
}
