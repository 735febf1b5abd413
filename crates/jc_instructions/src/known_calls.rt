//! Calls whose method is known at once: no receiver is null, no rule refuses the call, and no header is cut.
ghost use Rattle.std.specs.Prelude.{◌≡◌, false, true, IfSome, Some, None, Ok};
ghost use Rattle.jc_heap.specs.Heap.{IsObject, facts};
ghost use Rattle.jc_linker.specs.Classes.{is_below};
ghost use Rattle.jc_linker.specs.Methods.{method_below};
ghost use Rattle.jc_linker.specs.declared.target.Method.TheVariants.{Code, Native};
ghost use Rattle.jc_cap.specs.declared.pool.VirtualToken.{VirtualToken};
ghost use Rattle.jc_linker.specs.Values.{Packages};
ghost use Rattle.jc_firewall.specs.declared.access.Access.TheVariants.{VirtualCall};
ghost use Rattle.jc_firewall.specs.declared.decide.Decision.TheVariants.{Switch};
ghost use Rattle.jc_firewall.specs.declared.subject.Context.TheVariants.{Jcre};
ghost use Rattle.jc_world.specs.Contexts.{firewall_decision};
ghost use Rattle.jc_frames.specs.Calls.{arguments_on};
ghost use Rattle.jc_platform.specs.Signatures.{argument_cells};
ghost use Rattle.jc_instructions.specs.Invoke.{ChoosesOfPlatform, IsFoundAt, IsFoundCode, IsSwitchedTo, Names, arguments_of, call_of, call_of_code, invokeinterface, invokevirtual};
ghost use Rattle.jc_instructions.specs.Invoke.{class_of, header_of, interface_access, is_null_on};
ghost use Rattle.jc_instructions.specs.Invoke.{receiver_of, receiver_on, virtual_by};

use crate::at_once::names_object;
use crate::enter::Callee;
use crate::invoke::{class_of, interface_access, receiver_on};
use crate::method_component::method_component_of;
use crate::parameters::{fits, native_fits};
use jc_cap::pool::VirtualToken;
use jc_firewall::access::Access;
use jc_firewall::decide::Decision;
use jc_frames::{Cell, Frames, Header, header_at};
use jc_heap::Facts;
use jc_linker::linked::Linked;
use jc_linker::target::{Method, Target};
use jc_memory::Memory;
use jc_platform::names::PlatformMethod;
use jc_transient::{ClassWord, ClearEvent, Owner, Ref};
use jc_words::WordStore;
use jc_world::contexts::{firewall_decision, is_own};
use jc_world::objects::object;

// The method of the platform that a virtual call finds on an instance of a class below the one that its entry names with this method, if it
// is one that takes as many cells.
#[inline(never)]
fn found_below(
    own: ClassWord,
    class: ClassWord,
    token: VirtualToken,
    method: PlatformMethod,
    linked: &Linked,
) -> Option<PlatformMethod>
    ensures { IfSome result (IsFoundAt linked.now own class token method) }
{
    if !linked.is_below(own, class) {
        return None;
    }
    match linked.method_below(own, class, token, Method::Native(method)) {
        Some(Method::Native(found)) if found.argument_cells() == method.argument_cells() => {
            Some(found)
        }
        _ => None,
    }
}

// The same in line: its answer has memory of its own.
#[inline(always)]
fn other_found_below(
    own: ClassWord,
    class: ClassWord,
    token: VirtualToken,
    method: PlatformMethod,
    linked: &Linked,
) -> Option<PlatformMethod>
    ensures { IfSome result (IsFoundAt linked.now own class token method) }
{
    found_below(own, class, token, method, linked)
}

// Whether a call on an instance of the first class is known at once to run the method that its entry names: that class is the entry's, or has
// inherited the method from it. `false` says nothing.
#[tactic(auto, using(crate::proofs::Same::method_itself, jc_world::proofs::Below::below_same, jc_linker::proofs::Inheriting::inherited_below, jc_linker::proofs::Inheriting::inherited_found))]
#[inline(always)]
fn finds_named(
    own: ClassWord,
    class: ClassWord,
    token: VirtualToken,
    method: PlatformMethod,
    linked: &Linked,
) -> bool
    ensures { result ≡ true → IsFoundAt linked.now own class token method method }
{
    if class == own {
        return true;
    }
    match token {
        VirtualToken::Public(token) => linked.inherits_at_once(own, class, token),
        VirtualToken::PackageVisible(_) => false,
    }
}

// The same where the class may be the one that the entry names.
#[tactic(auto, using(crate::proofs::Same::method_itself, jc_world::proofs::Below::below_same, jc_linker::proofs::Inheriting::inherited_below, jc_linker::proofs::Inheriting::inherited_found))]
#[inline(always)]
fn found_at(
    own: ClassWord,
    class: ClassWord,
    token: VirtualToken,
    method: PlatformMethod,
    linked: &Linked,
) -> Option<PlatformMethod>
    ensures { IfSome result (IsFoundAt linked.now own class token method) }
{
    if class == own {
        return Some(method);
    }
    if let VirtualToken::Public(token) = token {
        if linked.inherits_method(own, class, token) {
            return Some(method);
        }
    }
    other_found_below(own, class, token, method, linked)
}

// An object of the runtime environment that no deselection clears, while code of an applet or a package runs: a virtual call goes on in the
// runtime environment's context.
#[tactic(auto, using(jc_world::proofs::Services::switched))]
#[inline(always)]
fn is_service<S: WordStore>(facts: Facts, memory: &Memory<S>) -> bool
    ensures { (p : Packages) → result ≡ true
        → firewall_decision VirtualCall p memory.now facts ≡ Switch Jcre }
{
    let runs_for_runtime = match memory.registers().active {
        Owner::Runtime => true,
        _ => false,
    };
    let is_cleared = match facts.event {
        Some(ClearEvent::Deselect) => true,
        _ => false,
    };
    !runs_for_runtime && facts.owner().0 == 0 && !is_cleared
}

// The owner for whom a virtual call on an object with this header runs, where that is another one than the caller's, if the object is the caller's or a
// service; else nothing.
#[inline(always)]
fn near_owner<S: WordStore>(header: Facts, memory: &Memory<S>) -> Option<Option<Owner>>
    ensures { (p : Packages) → IfSome result (IsSwitchedTo VirtualCall p memory.now header) }
{
    if is_own(header, memory) {
        return Some(None);
    }
    if is_service(header, memory) {
        return Some(Some(Owner::of(header.owner())));
    }
    None
}

// The owner for whom a virtual call on an object with this header runs, where that is another one than the caller's; nothing where a rule
// refuses the call.
#[inline(always)]
fn native_owner<S: WordStore>(
    header: Facts,
    receiver: Ref,
    memory: &Memory<S>,
    linked: &Linked,
) -> Option<Option<Owner>>
    requires up { memory.now.heap.down ≡ false }
    requires there { IsObject memory.now.heap.now receiver }
    requires header { header ≡ facts memory.now.heap.now receiver }
    ensures { IfSome result (IsSwitchedTo VirtualCall linked.now memory.now header) }
{
    if is_own(header, memory) {
        return Some(None);
    }
    if is_service(header, memory) {
        return Some(Some(Owner::of(header.owner())));
    }
    switched_owner(Access::VirtualCall, receiver, memory, linked)
}

// The arguments of a call that has this many, and the first of them, which is a reference: the receiver.
#[tactic(auto, using(crate::proofs::Receivers::first_received))]
#[inline(always)]
fn arguments_with_receiver(count: u8, frames: &Frames) -> Option<(&[Cell], Ref)>
    ensures arguments { IfSome result (λ r. arguments_on count frames.entry.now.current.stack
        ≡ Some r.0.now) }
    ensures receiver { IfSome result (λ r. receiver_on count frames.entry.now.current.stack
        ≡ Some r.1) }
{
    let arguments = frames.arguments(count)?;
    match arguments.first() {
        Some(Cell::Reference(receiver)) => Some((arguments, *receiver)),
        _ => None,
    }
}

// The method of the platform that a virtual call runs whose entry names one with this many cells, where the arguments are of the kinds that
// it wants and no rule refuses the call; else nothing.
#[tactic(auto, unfolding(crate::specs::Invoke::invokevirtual, crate::specs::Invoke::arguments_of, crate::specs::Invoke::receiver_of, crate::specs::Parameters::fits))]
#[inline(always)]
fn virtual_of_platform<'f, S: WordStore>(
    class: ClassWord,
    token: VirtualToken,
    method: PlatformMethod,
    count: u8,
    frames: &'f Frames,
    memory: &Memory<S>,
    linked: &Linked,
) -> Option<(PlatformMethod, &'f [Cell])>
    requires up { memory.now.heap.down ≡ false }
    requires cells { count ≡ argument_cells method }
    ensures chosen { IfSome result (λ r. ChoosesOfPlatform (invokevirtual class token
        (Native method) linked.now frames.entry.now.current.stack memory.now) r.0) }
    ensures cells { IfSome result (λ r. argument_cells r.0 ≡ count) }
    ensures arguments { IfSome result (λ r. arguments_on count frames.entry.now.current.stack
        ≡ Some r.1.now) }
{
    let Some((arguments, receiver)) = arguments_with_receiver(count, frames) else {
        return None;
    };
    if receiver.is_null() {
        return None;
    }
    // Its header is read once it is known to be there: what is not asked of it is not decoded.
    object(receiver, memory).ok()?;
    let facts = memory.facts(receiver);
    let found = found_at(class_of(facts, linked), class, token, method, linked)?;
    if !native_fits(found, frames, memory, linked) {
        return None;
    }
    let _owner = native_owner(facts, receiver, memory, linked)?;
    Some((found, arguments))
}

// The arguments of a virtual call whose entry names a method of the platform with this many cells, where it runs this very method on an object that
// is the caller's or a service, and where that is known without a call out of line; else nothing.
#[tactic(auto, unfolding(crate::specs::Invoke::invokevirtual, crate::specs::Invoke::arguments_of, crate::specs::Invoke::receiver_of, crate::specs::Parameters::fits))]
#[inline(always)]
fn named_of_platform<'f, S: WordStore>(
    class: ClassWord,
    token: VirtualToken,
    method: PlatformMethod,
    count: u8,
    frames: &'f Frames,
    memory: &Memory<S>,
    linked: &Linked,
) -> Option<&'f [Cell]>
    requires up { memory.now.heap.down ≡ false }
    requires cells { count ≡ argument_cells method }
    ensures chosen { IfSome result (λ r. ChoosesOfPlatform (invokevirtual class token
        (Native method) linked.now frames.entry.now.current.stack memory.now) method) }
    ensures arguments { IfSome result (λ r. arguments_on count frames.entry.now.current.stack
        ≡ Some r.now) }
{
    let Some((arguments, receiver)) = arguments_with_receiver(count, frames) else {
        return None;
    };
    if !names_object(receiver, memory) {
        return None;
    }
    let facts = memory.facts(receiver);
    if !finds_named(class_of(facts, linked), class, token, method, linked) {
        return None;
    }
    if !native_fits(method, frames, memory, linked) {
        return None;
    }
    let _owner = near_owner(facts, memory)?;
    Some(arguments)
}

/// How many cells the arguments of a method of the platform have, which this entry names, and these, where a virtual call by the entry runs this very
/// method and no more has to be asked than of most calls; else nothing.
#[inline(always)]
pub fn named_arguments<'f, S: WordStore>(
    method: PlatformMethod,
    entry: &Target,
    frames: &'f Frames,
    memory: &Memory<S>,
    linked: &Linked,
) -> Option<(u8, &'f [Cell])>
    requires up { memory.now.heap.down ≡ false }
    requires named { Names method entry.now }
    ensures chosen { IfSome result (λ r. ChoosesOfPlatform (virtual_by
        (Some entry.now) linked.now frames.entry.now.current.stack memory.now) method) }
    ensures cells { IfSome result (λ r. r.0 ≡ argument_cells method) }
    ensures arguments { IfSome result (λ r. arguments_on r.0 frames.entry.now.current.stack
        ≡ Some r.1.now) }
{
    match entry {
        Target::VirtualMethod {
            class,
            token,
            method: Method::Native(_),
        } => {
            let count = method.argument_cells();
            let known = named_of_platform(*class, *token, method, count, frames, memory, linked);
            let Some(arguments) = known else {
                return None;
            };
            Some((count, arguments))
        }
        _ => unreachable!(),
    }
}

/// The method of the platform that a virtual call by this entry runs, how many cells its arguments have, and these, where that is known at once;
/// else, and of other entries, nothing.
#[inline(always)]
pub fn method_of_platform<'f, S: WordStore>(
    entry: &Target,
    frames: &'f Frames,
    memory: &Memory<S>,
    linked: &Linked,
) -> Option<(PlatformMethod, u8, &'f [Cell])>
    requires up { memory.now.heap.down ≡ false }
    ensures chosen { IfSome result (λ r. ChoosesOfPlatform (virtual_by
        (Some entry.now) linked.now frames.entry.now.current.stack memory.now) r.0) }
    ensures cells { IfSome result (λ r. r.1 ≡ argument_cells r.0) }
    ensures arguments { IfSome result (λ r. arguments_on r.1 frames.entry.now.current.stack
        ≡ Some r.2.now) }
{
    match entry {
        Target::VirtualMethod {
            class,
            token,
            method: Method::Native(method),
        } => {
            let count = method.argument_cells();
            let known = virtual_of_platform(*class, *token, *method, count, frames, memory, linked);
            let Some((found, arguments)) = known else {
                return None;
            };
            Some((found, count, arguments))
        }
        _ => None,
    }
}

/// A virtual call of a method in bytecode, and what the header of the method says that it runs.
#[derive(Clone, Copy)]
pub struct CodeCall {
    pub callee: Callee,
    pub header: Header,
}

/// A method in bytecode, and what its header says.
#[derive(Clone, Copy)]
pub struct CodeMethod {
    pub package_number: u8,
    pub offset: u16,
    pub header: Header,
}

impl CodeCall {
    // A call of a method with this many arguments, which runs for this owner, or for the caller's.
    #[inline(always)]
    const fn of(method: CodeMethod, arguments: u8, switches_to: Option<Owner>) -> CodeCall
        ensures call { call_of_code result.callee
            ≡ call_of (Code method.package_number method.offset) arguments switches_to }
        ensures header { result.header ≡ method.header }
    {
        CodeCall {
            callee: Callee {
                package_number: method.package_number,
                offset: method.offset,
                arguments,
                switches_to,
            },
            header: method.header,
        }
    }
}

// The method that was found, if it is one in bytecode whose header is not cut.
#[tactic(auto, unfolding(crate::specs::Invoke::header_of))]
#[inline(always)]
fn code_method(found: Option<Method>, linked: &Linked) -> Option<CodeMethod>
    ensures method { IfSome result (λ m. found ≡ Some (Code m.package_number m.offset)) }
    ensures header { IfSome result (λ m. header_of linked.now (Code m.package_number m.offset)
        ≡ Some m.header) }
{
    match found {
        Some(
            Method::Code {
                package_number,
                offset,
            },
        ) => {
            let header = header_at(method_component_of(package_number, linked), offset)?;
            Some(CodeMethod {
                package_number,
                offset,
                header,
            })
        }
        _ => None,
    }
}

// The method in bytecode that a virtual call finds on an instance of a class below the one that its entry names with this method, if it is
// one whose header is not cut.
#[inline(never)]
fn overriding(
    own: ClassWord,
    class: ClassWord,
    token: VirtualToken,
    method: Method,
    linked: &Linked,
) -> Option<CodeMethod>
    ensures { IfSome result (IsFoundCode linked.now own class token method) }
{
    if !linked.is_below(own, class) {
        return None;
    }
    code_method(linked.method_below(own, class, token, method), linked)
}

// The same where the class may be the one that the entry names, whose method is this one.
#[tactic(auto, using(crate::proofs::Same::method_itself, jc_world::proofs::Below::below_same), unfolding(crate::specs::Invoke::header_of))]
#[inline(always)]
fn overriding_or_own(
    own: ClassWord,
    class: ClassWord,
    token: VirtualToken,
    method: CodeMethod,
    linked: &Linked,
) -> Option<CodeMethod>
    requires { header_of linked.now (Code method.package_number method.offset)
        ≡ Some method.header }
    ensures { IfSome result (IsFoundCode linked.now own class token
        (Code method.package_number method.offset)) }
{
    if class == own {
        return Some(method);
    }
    let named = Method::Code {
        package_number: method.package_number,
        offset: method.offset,
    };
    overriding(own, class, token, named, linked)
}

// The owner for whom a method runs that an access calls on an object, where that is another one than the caller's; nothing where a rule refuses the
// call. It reads the header again, so that nobody has to keep it for it.
#[inline(never)]
fn switched_owner<S: WordStore>(
    access: Access,
    receiver: Ref,
    memory: &Memory<S>,
    linked: &Linked,
) -> Option<Option<Owner>>
    requires up { memory.now.heap.down ≡ false }
    requires there { IsObject memory.now.heap.now receiver }
    ensures { IfSome result (IsSwitchedTo access linked.now memory.now
        (facts memory.now.heap.now receiver)) }
{
    let facts = memory.facts(receiver);
    match firewall_decision(access, facts, memory, linked) {
        Decision::Allow => Some(None),
        Decision::Switch(_) => Some(Some(Owner::of(facts.owner()))),
        _ => None,
    }
}

// The same of a virtual call on an object with this header, where the caller may be its owner.
#[inline(always)]
fn virtual_owner<S: WordStore>(
    header: Facts,
    receiver: Ref,
    memory: &Memory<S>,
    linked: &Linked,
) -> Option<Option<Owner>>
    requires up { memory.now.heap.down ≡ false }
    requires there { IsObject memory.now.heap.now receiver }
    requires header { header ≡ facts memory.now.heap.now receiver }
    ensures { IfSome result (IsSwitchedTo VirtualCall linked.now memory.now header) }
{
    if is_own(header, memory) {
        return Some(None);
    }
    switched_owner(Access::VirtualCall, receiver, memory, linked)
}

// The same of a call of an interface's method.
#[inline(always)]
fn interface_owner<S: WordStore>(
    interface: ClassWord,
    header: Facts,
    receiver: Ref,
    memory: &Memory<S>,
    linked: &Linked,
) -> Option<Option<Owner>>
    requires up { memory.now.heap.down ≡ false }
    requires there { IsObject memory.now.heap.now receiver }
    requires header { header ≡ facts memory.now.heap.now receiver }
    ensures { IfSome result (IsSwitchedTo (interface_access linked.now interface) linked.now
        memory.now header) }
{
    if is_own(header, memory) {
        return Some(None);
    }
    switched_owner(
        interface_access(interface, linked),
        receiver,
        memory,
        linked,
    )
}

// The receiver of a call with this many arguments, and its header, where it is an object.
#[tactic(auto, unfolding(crate::specs::Invoke::receiver_of))]
#[inline(always)]
fn known_receiver<S: WordStore>(
    arguments: u8,
    frames: &Frames,
    memory: &Memory<S>,
) -> Option<(Ref, Facts)>
    requires up { memory.now.heap.down ≡ false }
    ensures present { IfSome result (λ r. is_null_on arguments frames.now.current.stack ≡ false) }
    ensures header { IfSome result (λ r. receiver_of arguments frames.now.current.stack memory.now
        ≡ Ok r.1) }
    ensures there { IfSome result (λ r. IsObject memory.now.heap.now r.0
        × (r.1 ≡ facts memory.now.heap.now r.0)) }
{
    let receiver = receiver_on(arguments, frames)?;
    if receiver.is_null() {
        return None;
    }
    let facts = object(receiver, memory).ok()?;
    Some((receiver, facts))
}

/// The method in bytecode that a virtual call runs whose entry names this one in bytecode, with how many arguments, and for whom, where that is
/// known at once: no receiver is null, no rule refuses the call, and no header is cut. Else nothing.
#[tactic(auto, unfolding(crate::specs::Invoke::invokevirtual, crate::specs::Invoke::arguments_of, crate::specs::Invoke::receiver_of, crate::specs::Invoke::header_of, crate::specs::Parameters::fits))]
#[inline(always)]
pub fn select_code<S: WordStore>(
    class: ClassWord,
    token: VirtualToken,
    package_number: u8,
    offset: u16,
    frames: &Frames,
    memory: &Memory<S>,
    linked: &Linked,
) -> Option<CodeCall>
    requires up { memory.now.heap.down ≡ false }
    ensures chosen { IfSome result (λ r. invokevirtual class token (Code package_number offset)
        linked.now frames.now.current.stack memory.now ≡ Ok (call_of_code r.callee)) }
    ensures header { IfSome result (λ r. header_of linked.now
        (Code r.callee.package_number r.callee.offset) ≡ Some r.header) }
{
    let header = header_at(method_component_of(package_number, linked), offset)?;
    let arguments = header.arguments;
    let (receiver, facts) = known_receiver(arguments, frames, memory)?;
    let named = CodeMethod {
        package_number,
        offset,
        header,
    };
    let found = overriding_or_own(class_of(facts, linked), class, token, named, linked)?;
    let switches_to = virtual_owner(facts, receiver, memory, linked)?;
    Some(CodeCall::of(found, arguments, switches_to))
}

/// The same of a call of an interface's method by token.
#[tactic(auto, unfolding(crate::specs::Invoke::invokeinterface, crate::specs::Invoke::receiver_of, crate::specs::Parameters::fits))]
#[inline(always)]
pub fn select_interface_code<S: WordStore>(
    interface: ClassWord,
    arguments: u8,
    token: u8,
    frames: &Frames,
    memory: &Memory<S>,
    linked: &Linked,
) -> Option<CodeCall>
    requires up { memory.now.heap.down ≡ false }
    ensures chosen { IfSome result (λ r. invokeinterface interface arguments token linked.now
        frames.now.current.stack memory.now ≡ Ok (call_of_code r.callee)) }
    ensures header { IfSome result (λ r. header_of linked.now
        (Code r.callee.package_number r.callee.offset) ≡ Some r.header) }
{
    let (receiver, facts) = known_receiver(arguments, frames, memory)?;
    let found = linked.interface_method_at(class_of(facts, linked), interface, token);
    let found = code_method(found, linked)?;
    let switches_to = interface_owner(interface, facts, receiver, memory, linked)?;
    Some(CodeCall::of(found, arguments, switches_to))
}
