//! Calls on instances that belong to the owner for whom code runs, of methods whose headers have two bytes: nothing else is asked, and no owner is
//! switched.
ghost use Rattle.std.specs.Prelude.{◌≡◌, ◌<◌, ◌^◌, ℕ, false, true, length, Some, None, Ok, IfSome};
ghost use Rattle.jc_cap.specs.declared.pool.VirtualToken.{VirtualToken};
ghost use Rattle.jc_firewall.specs.declared.access.Access.{Access};
ghost use Rattle.jc_firewall.specs.declared.decide.Decision.TheVariants.{Allow};
ghost use Rattle.jc_frames.specs.Header.{header_in};
ghost use Rattle.jc_linker.specs.Values.{Packages};
ghost use Rattle.jc_linker.specs.declared.target.Method.TheVariants.{Code};
ghost use Rattle.jc_world.specs.Contexts.{firewall_decision};
ghost use Rattle.jc_world.specs.Objects.{is_instance};
ghost use Rattle.jc_instructions.specs.Invoke.{call_of, call_of_code, header_of, invokeinterface, invokespecial, invokevirtual, receiver_of};
ghost use Rattle.jc_instructions.specs.MethodComponent.{method_component_of};

use jc_frames::{Cell, Frames, Header};
use jc_heap::Facts;
use jc_instructions::enter::Callee;
use jc_instructions::known_calls::CodeCall;
use jc_instructions::method_component::method_component_of;
use jc_linker::linked::Linked;
use jc_linker::target::Method;
use jc_memory::Memory;
use jc_transient::ClassWord;
use jc_words::WordStore;
use jc_world::contexts::is_own;
use jc_world::objects::is_instance;

/// What the header of a method says that begins at a place of a Method component, where it has two bytes and the method is not abstract; nothing of
/// other headers.
#[inline(always)]
#[tactic(auto, unfolding(jc_frames::specs::Header::header_in), using(crate::proofs::OwnCalls::not_abstract))]
pub(crate) fn short_header_at(component: &[u8], place: u16) -> Option<Header>
    requires { length component.now < 2 ^ 16 }
    ensures { IfSome result (λ header. header_in component.now place ≡ Some header) }
{
    let at = usize::from(place);
    let second = *component.get(at + 1)?;
    let first = component[at];
    if first >= 64 {
        return None;
    }
    Some(Header {
        is_abstract: false,
        arguments: second / 16,
        locals: second % 16,
        limit: first % 16,
        place: (at + 2) as u16,
    })
}

/// The Method component of a package, where this is the code that runs: that of the same package is not looked up.
#[inline(always)]
pub(crate) fn component_of<'a>(
    package_number: u8,
    code: &'a [u8],
    frames: &Frames,
    linked: &'a Linked,
) -> &'a [u8]
    requires short { length code.now < 2 ^ 16 }
    requires runs { code.now
        ≡ method_component_of linked.now frames.now.current.origin.package_number }
    ensures text { result.now ≡ method_component_of linked.entry.now package_number }
    ensures short { length result.now < 2 ^ 16 }
{
    if package_number == frames.origin().package_number {
        code
    } else {
        method_component_of(package_number, linked)
    }
}

// The header of the receiver of a method with this many arguments, where it is an instance that belongs to the owner for whom code runs.
#[inline(always)]
#[tactic(auto, unfolding(jc_instructions::specs::Invoke::receiver_of, jc_world::specs::Objects::object_at))]
fn own_receiver<S: WordStore>(arguments: u8, frames: &Frames, memory: &Memory<S>) -> Option<Facts>
    requires up { memory.now.heap.down ≡ false }
    ensures receiver { IfSome result (λ f. receiver_of arguments frames.now.current.stack
        memory.now ≡ Ok f) }
    ensures instance { IfSome result (λ f. is_instance f.kind ≡ true) }
    ensures free { IfSome result (λ f. (access : Access) (p : Packages)
        → firewall_decision access p memory.now f ≡ Allow) }
{
    if arguments == 0 {
        return None;
    }
    let Cell::Reference(receiver) = frames.peek(arguments - 1)? else {
        return None;
    };
    if receiver.is_null() || memory.header(receiver).is_none() {
        return None;
    }
    // Its header is read after this, so that what is not asked of it is not decoded.
    let facts = memory.facts(receiver);
    if !is_instance(facts.kind) || !is_own(facts, memory) {
        return None;
    }
    Some(facts)
}

// What the header of a method in bytecode says, in the Method component of its package, if a virtual call runs it whose entry names it: where the
// receiver is an instance of the very class that the entry names, and belongs to the owner for whom code runs. Else nothing.
#[inline(always)]
#[tactic(auto, unfolding(jc_instructions::specs::Invoke::invokevirtual, jc_instructions::specs::Invoke::arguments_of, jc_instructions::specs::Parameters::fits), using(crate::proofs::OwnCalls::method_itself, jc_world::proofs::Below::below_same))]
fn header_of_virtual<S: WordStore>(
    class: ClassWord,
    offset: u16,
    component: &[u8],
    frames: &Frames,
    memory: &Memory<S>,
) -> Option<Header>
    requires up { memory.now.heap.down ≡ false }
    requires short { length component.now < 2 ^ 16 }
    ensures chosen { IfSome result (λ header. (p : Packages) (number : ℕ) (token : VirtualToken)
        → component.now ≡ method_component_of p number
        → invokevirtual class token (Code number offset) p frames.now.current.stack memory.now
        ≡ Ok (call_of (Code number offset) header.arguments None)) }
    ensures header { IfSome result (λ header. header_in component.now offset ≡ Some header) }
{
    let header = short_header_at(component, offset)?;
    let receiver = own_receiver(header.arguments, frames, memory)?;
    if receiver.class() != class {
        return None;
    }
    Some(header)
}

/// The method in bytecode that a virtual call runs whose entry names this one in bytecode, where the receiver is an instance of the very class that the
/// entry names, and belongs to the owner for whom code runs. Else nothing.
#[inline(always)]
#[tactic(auto, unfolding(jc_instructions::specs::Invoke::header_of))]
pub(crate) fn select_own_code<S: WordStore>(
    class: ClassWord,
    package_number: u8,
    offset: u16,
    code: &[u8],
    frames: &Frames,
    memory: &Memory<S>,
    linked: &Linked,
) -> Option<CodeCall>
    requires up { memory.now.heap.down ≡ false }
    requires short { length code.now < 2 ^ 16 }
    requires runs { code.now
        ≡ method_component_of linked.now frames.now.current.origin.package_number }
    ensures chosen { IfSome result (λ r. (token : VirtualToken) → invokevirtual class token
        (Code package_number offset) linked.now frames.now.current.stack memory.now
        ≡ Ok (call_of_code r.callee)) }
    ensures header { IfSome result (λ r. header_of linked.now
        (Code r.callee.package_number r.callee.offset) ≡ Some r.header) }
{
    let component = component_of(package_number, code, frames, linked);
    let header = header_of_virtual(class, offset, component, frames, memory)?;
    Some(CodeCall {
        callee: Callee {
            package_number,
            offset,
            arguments: header.arguments,
            switches_to: None,
        },
        header,
    })
}

/// The same of a call of a constructor or a private method, whose entry may name no class: then on any instance that belongs to this owner.
#[inline(always)]
#[tactic(auto, unfolding(jc_instructions::specs::Invoke::invokespecial, jc_instructions::specs::Invoke::arguments_of, jc_instructions::specs::Invoke::header_of, jc_instructions::specs::Parameters::fits), using(jc_world::proofs::Below::below_same))]
pub(crate) fn select_own_special<S: WordStore>(
    class: Option<ClassWord>,
    package_number: u8,
    offset: u16,
    frames: &Frames,
    memory: &Memory<S>,
    linked: &Linked,
) -> Option<CodeCall>
    requires up { memory.now.heap.down ≡ false }
    ensures chosen { IfSome result (λ r. invokespecial class (Code package_number offset)
        linked.now frames.now.current.stack memory.now ≡ Ok (call_of_code r.callee)) }
    ensures header { IfSome result (λ r. header_of linked.now
        (Code r.callee.package_number r.callee.offset) ≡ Some r.header) }
{
    let header = short_header_at(method_component_of(package_number, linked), offset)?;
    let receiver = own_receiver(header.arguments, frames, memory)?;
    if let Some(class) = class {
        if receiver.class() != class {
            return None;
        }
    }
    Some(CodeCall {
        callee: Callee {
            package_number,
            offset,
            arguments: header.arguments,
            switches_to: None,
        },
        header,
    })
}

/// The same of a call of an interface's method by token, on any instance that belongs to this owner.
#[inline(always)]
#[tactic(auto, unfolding(jc_instructions::specs::Invoke::invokeinterface, jc_instructions::specs::Invoke::header_of, jc_instructions::specs::Parameters::fits), using(jc_instructions::proofs::Implementing::not_implemented))]
pub(crate) fn select_own_implementation<S: WordStore>(
    interface: ClassWord,
    arguments: u8,
    token: u8,
    code: &[u8],
    frames: &Frames,
    memory: &Memory<S>,
    linked: &Linked,
) -> Option<CodeCall>
    requires up { memory.now.heap.down ≡ false }
    requires short { length code.now < 2 ^ 16 }
    requires runs { code.now
        ≡ method_component_of linked.now frames.now.current.origin.package_number }
    ensures chosen { IfSome result (λ r. invokeinterface interface arguments token linked.now
        frames.now.current.stack memory.now ≡ Ok (call_of_code r.callee)) }
    ensures header { IfSome result (λ r. header_of linked.now
        (Code r.callee.package_number r.callee.offset) ≡ Some r.header) }
{
    let receiver = own_receiver(arguments, frames, memory)?;
    let found = linked.interface_method_at(receiver.class(), interface, token)?;
    let Method::Code {
        package_number,
        offset,
    } = found
    else {
        return None;
    };
    let component = component_of(package_number, code, frames, linked);
    let header = short_header_at(component, offset)?;
    Some(CodeCall {
        callee: Callee {
            package_number,
            offset,
            arguments,
            switches_to: None,
        },
        header,
    })
}
