//! Which method a call runs, and for whom.
ghost use Rattle.std.specs.Prelude.{◌≡◌, false, true, IfSome, Some, None, Ok, option_copied};
ghost use Rattle.std.specs.Option.{option_map};
ghost use Rattle.jc_heap.specs.Heap.{facts};
ghost use Rattle.jc_linker.specs.Classes.{is_below};
ghost use Rattle.jc_linker.specs.Methods.{interface_method_at, method_below};
ghost use Rattle.jc_linker.specs.declared.target.Method.TheVariants.{Code, Native};
ghost use Rattle.jc_cap.specs.declared.pool.VirtualToken.{VirtualToken};
ghost use Rattle.jc_firewall.specs.declared.access.Access.TheVariants.{VirtualCall};
ghost use Rattle.jc_firewall.specs.declared.decide.Decision.TheVariants.{Switch};
ghost use Rattle.jc_world.specs.Answers.{and_then};
ghost use Rattle.jc_world.specs.Contexts.{firewall_decision};
ghost use Rattle.jc_world.specs.Objects.{check_or_fault, some_or_fault};
ghost use Rattle.jc_platform.specs.Signatures.{argument_cells};
ghost use Rattle.jc_instructions.specs.Invoke.{arguments_of, invokeinterface, invokespecial, invokestatic, invokevirtual, call_of, method_selection};
ghost use Rattle.jc_instructions.specs.Invoke.{static_selection, class_of, fits_at_null, found_call, special_on, virtual_on, header_of, interface_access, interface_by, is_native_constructor};
ghost use Rattle.jc_instructions.specs.Invoke.{is_null_on, is_of_any, call_decision, receiver_of, receiver_on, special_by, virtual_by, virtual_selection, with_header};

use crate::method_component::method_component_of;
use crate::parameters::fits;
use jc_cap::pool::VirtualToken;
use jc_firewall::access::Access;
use jc_firewall::decide::Decision;
use jc_frames::instr::InvokeOp;
use jc_frames::{Cell, Exception, FrameExit, Frames, Header, Outcome, header_at};
use jc_heap::Facts;
use jc_linker::linked::Linked;
use jc_linker::target::{Method, Target};
use jc_memory::Memory;
use jc_platform::names::PlatformClass;
use jc_transient::{ClassWord, Owner, Ref};
use jc_words::WordStore;
use jc_world::contexts::{allow, firewall_decision, is_own};
use jc_world::objects::{is_instance, object};

/// A call whose method was found.
#[derive(Clone, Copy)]
pub struct MethodCall {
    pub method: Method,
    /// How many cells its arguments have.
    pub arguments: u8,
    /// The owner that is active while it runs, where that is another one than the caller's.
    pub switches_to: Option<Owner>,
}

/// A call, and what the header of its method says, if that is in bytecode and its header is not cut.
#[derive(Clone, Copy)]
pub struct SelectedCall {
    pub call: MethodCall,
    pub header: Option<Header>,
}

impl MethodCall {
    // A call in the caller's context.
    #[inline(always)]
    const fn of(method: Method, arguments: u8) -> MethodCall
        ensures { result ≡ call_of method arguments None }
    {
        MethodCall {
            method,
            arguments,
            switches_to: None,
        }
    }
}

// It holds, or a code fault.
#[inline(always)]
const fn check(holds: bool) -> Result<(), FrameExit>
    ensures { result ≡ check_or_fault holds }
{
    if holds {
        Ok(())
    } else {
        Err(FrameExit::End(Outcome::Fault))
    }
}

// What the header of a method in bytecode says, if it is not cut.
#[tactic(auto, unfolding(crate::specs::Invoke::header_of))]
#[inline(always)]
fn header_of(method: Method, linked: &Linked) -> Option<Header>
    ensures { result ≡ header_of linked.now method }
{
    match method {
        Method::Code {
            package_number,
            offset,
        } => header_at(method_component_of(package_number, linked), offset),
        Method::Native(_) => None,
    }
}

// How many cells the arguments of a method have, and its header; none where its header is cut.
#[tactic(auto, unfolding(crate::specs::Invoke::arguments_of, crate::specs::Invoke::header_of))]
#[inline(always)]
fn arguments_of(method: Method, linked: &Linked) -> Option<(u8, Option<Header>)>
    ensures count { option_map (λ r. r.0) result ≡ arguments_of linked.now method }
    ensures header { IfSome result (λ r. r.1 ≡ header_of linked.now method) }
{
    match method {
        Method::Code { .. } => {
            let header = header_of(method, linked)?;
            Some((header.arguments, Some(header)))
        }
        Method::Native(method) => Some((method.argument_cells(), None)),
    }
}

// The two are one method in bytecode.
#[inline(always)]
fn is_same(one: Method, other: Method) -> bool
    ensures { result ≡ true → one ≡ other }
{
    match (one, other) {
        (
            Method::Code {
                package_number,
                offset,
            },
            Method::Code {
                package_number: number,
                offset: place,
            },
        ) => package_number == number && offset == place,
        _ => false,
    }
}

// The header of a method, where that of another one is known.
#[inline(always)]
fn header_by(
    found: Method,
    method: Method,
    header: Option<Header>,
    linked: &Linked,
) -> Option<Header>
    requires { header ≡ header_of linked.now method }
    ensures { result ≡ header_of linked.now found }
{
    if is_same(found, method) {
        header
    } else {
        header_of(found, linked)
    }
}

// The reference below the other arguments, of which there are this many with it.
#[inline(always)]
pub(crate) fn receiver_on(arguments: u8, frames: &Frames) -> Option<Ref>
    ensures { result ≡ receiver_on arguments frames.now.current.stack }
{
    if arguments == 0 {
        return None;
    }
    match frames.peek(arguments - 1)? {
        Cell::Reference(receiver) => Some(receiver),
        _ => None,
    }
}

// The header of the receiver of a method with this many arguments.
#[tactic(auto, unfolding(crate::specs::Invoke::receiver_of))]
#[inline(always)]
fn receiver_of<S: WordStore>(
    arguments: u8,
    frames: &Frames,
    memory: &Memory<S>,
) -> Result<Facts, FrameExit>
    requires up { memory.now.heap.down ≡ false }
    ensures { result ≡ receiver_of arguments frames.now.current.stack memory.now }
{
    let receiver = receiver_on(arguments, frames).ok_or(FrameExit::End(Outcome::Fault))?;
    object(receiver, memory)
}

fn is_null_on(arguments: u8, frames: &Frames) -> bool
    ensures { result ≡ is_null_on arguments frames.now.current.stack }
{
    match receiver_on(arguments, frames) {
        Some(receiver) => receiver.is_null(),
        None => false,
    }
}

// After a null receiver the arguments have the kinds that the method of the entry wants.
fn fits_at_null<S: WordStore>(
    arguments: u8,
    method: Method,
    frames: &Frames,
    memory: &Memory<S>,
    linked: &Linked,
) -> bool
    requires up { memory.now.heap.down ≡ false }
    ensures { result ≡ fits_at_null arguments method linked.now frames.now.current.stack
        memory.now }
{
    !is_null_on(arguments, frames) || fits(method, frames, memory, linked)
}

// An object's class. Arrays are instances of `Object`.
#[inline(always)]
pub(crate) fn class_of(facts: Facts, linked: &Linked) -> ClassWord
    ensures { result ≡ class_of linked.now facts }
{
    if is_instance(facts.kind) {
        facts.class()
    } else {
        linked.platform().class_word(PlatformClass::Object)
    }
}

// The class is the other, below it, or implements it.
#[tactic(auto, using(jc_world::proofs::Below::below_same))]
#[inline(always)]
pub(crate) fn is_below(own: ClassWord, class: ClassWord, linked: &Linked) -> bool
    ensures { result ≡ is_below linked.now own class }
{
    own == class || linked.is_below(own, class)
}

// What the firewall says of a call on an object.
#[inline(always)]
fn call_decision(
    decision: Decision,
    facts: Facts,
    method: Method,
    arguments: u8,
) -> Result<MethodCall, FrameExit>
    ensures { result ≡ call_decision decision facts method arguments }
{
    match decision {
        Decision::Allow => Ok(MethodCall::of(method, arguments)),
        Decision::Switch(_) => Ok(MethodCall {
            method,
            arguments,
            switches_to: Some(Owner::of(facts.owner())),
        }),
        Decision::Deny(_) => Err(FrameExit::Throw(Exception::SecurityException)),
    }
}

// The virtual method that a call runs on an instance of a class, and its header, where the header of the entry's is known.
#[tactic(auto, using(crate::proofs::Same::method_itself))]
#[inline(always)]
fn virtual_method(
    own: ClassWord,
    class: ClassWord,
    token: VirtualToken,
    method: Method,
    header: Option<Header>,
    linked: &Linked,
) -> Option<(Method, Option<Header>)>
    requires { header ≡ header_of linked.now method }
    ensures method { option_map (λ r. r.0) result
        ≡ method_below linked.now own class token method }
    ensures header { IfSome result (λ r. r.1 ≡ header_of linked.now r.0) }
{
    if own == class {
        return Some((method, header));
    }
    let found = linked.method_below(own, class, token, method)?;
    Some((found, header_by(found, method, header, linked)))
}

// A method that was found, where the arguments have the kinds that it wants, as the firewall decides.
#[inline(always)]
fn found_call<S: WordStore>(
    decision: Decision,
    found: SelectedCall,
    facts: Facts,
    frames: &Frames,
    memory: &Memory<S>,
    linked: &Linked,
) -> Result<SelectedCall, FrameExit>
    requires up { memory.now.heap.down ≡ false }
    requires header { found.header ≡ header_of linked.now found.call.method }
    ensures { result ≡ with_header linked.now (found_call decision found.call.method
        found.call.arguments linked.now frames.now.current.stack memory.now facts) }
{
    let MethodCall {
        method,
        arguments,
        ..
    } = found.call;
    check(fits(method, frames, memory, linked))?;
    let call = call_decision(decision, facts, method, arguments)?;
    Ok(SelectedCall {
        call,
        header: found.header,
    })
}

// The method that a virtual call selects on a receiver with this header, where the entry names the method of this call.
#[inline(always)]
fn virtual_on<S: WordStore>(
    class: ClassWord,
    token: VirtualToken,
    named: SelectedCall,
    facts: Facts,
    frames: &Frames,
    memory: &Memory<S>,
    linked: &Linked,
) -> Result<SelectedCall, FrameExit>
    requires up { memory.now.heap.down ≡ false }
    requires header { named.header ≡ header_of linked.now named.call.method }
    ensures { result ≡ with_header linked.now (virtual_on class token named.call.method
        named.call.arguments linked.now frames.now.current.stack memory.now facts) }
{
    let own = class_of(facts, linked);
    check(is_below(own, class, linked))?;
    let method = named.call.method;
    let (found, header) = virtual_method(own, class, token, method, named.header, linked).ok_or(
        FrameExit::End(Outcome::Fault),
    )?;
    let call = MethodCall::of(found, named.call.arguments);
    let decision = firewall_decision(Access::VirtualCall, facts, memory, linked);
    let found = SelectedCall { call, header };
    found_call(decision, found, facts, frames, memory, linked)
}

// `invokevirtual`: selects the method by the receiver's class.
#[tactic(auto, unfolding(crate::specs::Invoke::invokevirtual))]
fn invokevirtual<C, S: WordStore>(
    class: ClassWord,
    token: VirtualToken,
    method: Method,
    frames: &Frames,
    memory: &Memory<S>,
    linked: &Linked,
) -> Result<SelectedCall, FrameExit>
    requires up { memory.now.heap.down ≡ false }
    ensures { result ≡ with_header linked.now (invokevirtual class token method linked.now
        frames.now.current.stack memory.now) }
{
    let (arguments, header) = arguments_of(method, linked).ok_or(FrameExit::End(Outcome::Fault))?;
    check(fits_at_null(arguments, method, frames, memory, linked))?;
    let facts = receiver_of(arguments, frames, memory)?;
    let call = MethodCall::of(method, arguments);
    let named = SelectedCall { call, header };
    virtual_on(class, token, named, facts, frames, memory, linked)
}

// The receiver is of the class, where one is asked for.
fn is_of_any(facts: Facts, class: Option<ClassWord>, linked: &Linked) -> bool
    ensures { result ≡ is_of_any linked.now facts class }
{
    match class {
        None => true,
        Some(class) => linked.is_below(class_of(facts, linked), class),
    }
}

// The method that an entry names, on a receiver with this header.
#[inline(always)]
fn special_on<S: WordStore>(
    class: Option<ClassWord>,
    named: SelectedCall,
    facts: Facts,
    frames: &Frames,
    memory: &Memory<S>,
    linked: &Linked,
) -> Result<SelectedCall, FrameExit>
    requires up { memory.now.heap.down ≡ false }
    requires header { named.header ≡ header_of linked.now named.call.method }
    requires own { named.call.switches_to ≡ None }
    ensures { result ≡ with_header linked.now (special_on class named.call.method
        named.call.arguments linked.now frames.now.current.stack memory.now facts) }
{
    check(is_of_any(facts, class, linked))?;
    check(fits(named.call.method, frames, memory, linked))?;
    allow(Access::InstanceField, facts, memory, linked)?;
    Ok(named)
}

// `invokespecial`: selects the method that the entry names: a constructor, a private method, or one of a
// superclass.
#[tactic(auto, unfolding(crate::specs::Invoke::invokespecial))]
fn invokespecial<S: WordStore>(
    class: Option<ClassWord>,
    method: Method,
    frames: &Frames,
    memory: &Memory<S>,
    linked: &Linked,
) -> Result<SelectedCall, FrameExit>
    requires up { memory.now.heap.down ≡ false }
    ensures { result ≡ with_header linked.now (invokespecial class method linked.now
        frames.now.current.stack memory.now) }
{
    let (arguments, header) = arguments_of(method, linked).ok_or(FrameExit::End(Outcome::Fault))?;
    check(fits_at_null(arguments, method, frames, memory, linked))?;
    let facts = receiver_of(arguments, frames, memory)?;
    let call = MethodCall::of(method, arguments);
    let named = SelectedCall { call, header };
    special_on(class, named, facts, frames, memory, linked)
}

#[inline(always)]
fn is_native_constructor(method: Method) -> bool
    ensures { result ≡ is_native_constructor method }
{
    match method {
        Method::Code { .. } => false,
        Method::Native(method) => method.is_constructor(),
    }
}

// `invokestatic`: selects the static method that the entry names.
#[tactic(auto, unfolding(crate::specs::Invoke::invokestatic))]
#[inline(always)]
fn invokestatic(method: Method, linked: &Linked) -> Result<SelectedCall, FrameExit>
    ensures { result ≡ with_header linked.now (invokestatic method linked.now) }
{
    check(!is_native_constructor(method))?;
    let (arguments, header) = arguments_of(method, linked).ok_or(FrameExit::End(Outcome::Fault))?;
    let call = MethodCall::of(method, arguments);
    Ok(SelectedCall { call, header })
}

// A call of an interface's method, as the firewall sees it.
pub(crate) fn interface_access(interface: ClassWord, linked: &Linked) -> Access
    ensures { result ≡ interface_access linked.now interface }
{
    if linked.is_shareable(interface) {
        Access::ShareableInterfaceCall
    } else {
        Access::StandardInterfaceCall
    }
}

// What the firewall says of a call of an interface's method. Whether the interface is shareable matters only where the object
// belongs to another owner.
#[inline(always)]
fn interface_decision<S: WordStore>(
    interface: ClassWord,
    facts: Facts,
    memory: &Memory<S>,
    linked: &Linked,
) -> Decision
    requires up { memory.now.heap.down ≡ false }
    ensures { result ≡ firewall_decision (interface_access linked.now interface) linked.now
        memory.now facts }
{
    if is_own(facts, memory) {
        return Decision::Allow;
    }
    firewall_decision(interface_access(interface, linked), facts, memory, linked)
}

// The method of a class that implements an interface's. A class that has one is below the interface.
#[tactic(auto, using(crate::proofs::Implementing::not_implemented))]
#[inline(always)]
fn implementation(
    own: ClassWord,
    interface: ClassWord,
    token: u8,
    linked: &Linked,
) -> Result<Method, FrameExit>
    ensures { result ≡ and_then (check_or_fault (is_below linked.now own interface))
        (λ u. some_or_fault (interface_method_at linked.now own interface token)) }
{
    linked
        .interface_method_at(own, interface, token)
        .ok_or(FrameExit::End(Outcome::Fault))
}

// `invokeinterface`: selects the method of the receiver's class that implements an interface's.
#[tactic(auto, unfolding(crate::specs::Invoke::invokeinterface))]
fn invokeinterface<S: WordStore>(
    interface: ClassWord,
    arguments: u8,
    token: u8,
    frames: &Frames,
    memory: &Memory<S>,
    linked: &Linked,
) -> Result<SelectedCall, FrameExit>
    requires up { memory.now.heap.down ≡ false }
    ensures { result ≡ with_header linked.now (invokeinterface interface arguments token linked.now
        frames.now.current.stack memory.now) }
{
    let facts = receiver_of(arguments, frames, memory)?;
    let found = implementation(class_of(facts, linked), interface, token, linked)?;
    let decision = interface_decision(interface, facts, memory, linked);
    let call = MethodCall::of(found, arguments);
    let header = header_of(found, linked);
    let found = SelectedCall { call, header };
    found_call(decision, found, facts, frames, memory, linked)
}

// Which method a static call runs, and what its header says.
#[inline(always)]
fn select_static_method(
    index: u16,
    frames: &Frames,
    linked: &Linked,
) -> Result<SelectedCall, FrameExit>
    ensures { result ≡ with_header linked.now (static_selection index linked.now frames.now) }
{
    match linked.target_at(frames.origin().package_number, index) {
        Some(Target::StaticMethod { class: _, method }) => invokestatic(*method, linked),
        _ => Err(FrameExit::End(Outcome::Fault)),
    }
}

// The virtual method that an entry names.
#[inline(always)]
fn virtual_by<C, S: WordStore>(
    entry: Option<&Target>,
    frames: &Frames,
    memory: &Memory<S>,
    linked: &Linked,
) -> Result<SelectedCall, FrameExit>
    requires up { memory.now.heap.down ≡ false }
    ensures { result ≡ with_header linked.now (virtual_by
        (option_copied entry.entry) linked.now frames.now.current.stack memory.now) }
{
    match entry {
        Some(
            Target::VirtualMethod {
                class,
                token,
                method,
            },
        ) => invokevirtual::<C, S>(*class, *token, *method, frames, memory, linked),
        _ => Err(FrameExit::End(Outcome::Fault)),
    }
}

// The constructor, the private method or the method of a superclass that an entry names.
#[inline(never)]
fn special_by<S: WordStore>(
    entry: Option<&Target>,
    frames: &Frames,
    memory: &Memory<S>,
    linked: &Linked,
) -> Result<SelectedCall, FrameExit>
    requires up { memory.now.heap.down ≡ false }
    ensures { result ≡ with_header linked.now (special_by
        (option_copied entry.entry) linked.now frames.now.current.stack memory.now) }
{
    match entry {
        Some(Target::StaticMethod { class, method }) => {
            invokespecial(*class, *method, frames, memory, linked)
        }
        Some(Target::SuperMethod { class, method }) => {
            invokespecial(Some(*class), *method, frames, memory, linked)
        }
        _ => Err(FrameExit::End(Outcome::Fault)),
    }
}

// The method with a token of the interface that an entry names.
#[inline(never)]
fn interface_by<S: WordStore>(
    entry: Option<&Target>,
    arguments: u8,
    token: u8,
    frames: &Frames,
    memory: &Memory<S>,
    linked: &Linked,
) -> Result<SelectedCall, FrameExit>
    requires up { memory.now.heap.down ≡ false }
    ensures { result ≡ with_header linked.now (interface_by
        (option_copied entry.entry) arguments token linked.now frames.now.current.stack
        memory.now) }
{
    match entry {
        Some(Target::Class(class)) => {
            invokeinterface(*class, arguments, token, frames, memory, linked)
        }
        _ => Err(FrameExit::End(Outcome::Fault)),
    }
}

// Which method a virtual call runs, and what its header says. `C` says whose copy it is.
#[inline(always)]
fn select_virtual_method<C, S: WordStore>(
    index: u16,
    frames: &Frames,
    memory: &Memory<S>,
    linked: &Linked,
) -> Result<SelectedCall, FrameExit>
    requires up { memory.now.heap.down ≡ false }
    ensures { result ≡ with_header linked.now (virtual_selection index linked.now frames.now
        memory.now) }
{
    let entry = linked.target_at(frames.origin().package_number, index);
    virtual_by::<C, S>(entry, frames, memory, linked)
}

/// Which method a call runs, with how many arguments, and for whom; and what the method's header says.
///
/// A code fault where the entry of the constant pool is another one, where the receiver is no reference
/// or no instance of the class that the entry names, where its class has no such method, or where an
/// argument of a method of the platform is of another kind; else a null receiver throws, and then a
/// refused access does. `C` says whose copy it is: the one of whoever carries calls out stands in line.
#[tactic(auto, unfolding(crate::specs::Invoke::method_selection))]
#[inline(always)]
pub fn select_method<C, S: WordStore>(
    invoke: InvokeOp,
    frames: &Frames,
    memory: &Memory<S>,
    linked: &Linked,
) -> Result<SelectedCall, FrameExit>
    requires up { memory.now.heap.down ≡ false }
    ensures { result ≡ with_header linked.now (method_selection invoke linked.now frames.now
        memory.now) }
{
    let number = frames.origin().package_number;
    // What is called out of line hands its answer over in memory of its own, so that the others need none.
    match invoke {
        InvokeOp::Virtual(index) => { select_virtual_method::<C, S>(index, frames, memory, linked) }
        InvokeOp::Special(index) => {
            let special = special_by(linked.target_at(number, index), frames, memory, linked)?;
            Ok(special)
        }
        InvokeOp::Static(index) => select_static_method(index, frames, linked),
        InvokeOp::Interface {
            arguments,
            index,
            token,
        } => {
            let entry = linked.target_at(number, index);
            let selected = interface_by(entry, arguments, token, frames, memory, linked)?;
            Ok(selected)
        }
    }
}
