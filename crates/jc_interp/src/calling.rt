//! Calls: methods of the platform are carried out at once, those in bytecode get a frame.
ghost use Rattle.std.specs.Prelude.{◌≡◌, ◌<◌, ◌^◌, false, length, IfSome, Some, Ok};
ghost use Rattle.jc_frames.specs.declared.instr.InvokeOp.TheVariants.{Special, Static, Virtual};
ghost use Rattle.jc_frames.specs.declared.method.CallKind.TheVariants.{Instruction};
ghost use Rattle.jc_linker.specs.declared.target.Method.TheVariants.{Code, Native};
ghost use Rattle.jc_platform.specs.declared.names.PlatformMethod.TheVariants.{Apdus, Exceptions, System, Utilities};
ghost use Rattle.jc_platform.specs.declared.names.ApdusMethod.TheVariants.{ApduSetOutgoingAndSend};
ghost use Rattle.jc_platform.specs.declared.names.ExceptionsMethod.TheVariants.{IsoExceptionThrowIt};
ghost use Rattle.jc_platform.specs.declared.names.SystemMethod.TheVariants.{JcSystemBeginTransaction, JcSystemCommitTransaction};
ghost use Rattle.jc_platform.specs.declared.names.UtilitiesMethod.TheVariants.{UtilSetShort};
ghost use Rattle.jc_linker.specs.Lookups.{target_at};
ghost use Rattle.jc_memory.specs.Programs.{Executes};
ghost use Rattle.jc_world.specs.Instructions.{after_instruction};
ghost use Rattle.jc_instructions.specs.Invoke.{Names, call_of_code, header_of, method_selection};
ghost use Rattle.jc_instructions.specs.MethodComponent.{method_component_of};
ghost use Rattle.jc_interp.specs.Calling.{after_native_return, ended, invoke_instruction, invoke_selected, native_invoke, static_invoke};
ghost use Rattle.jc_interp.specs.RunningCode.{IsRunningCode};

use crate::calls_at_once::{static_at_once, virtual_at_once};
use crate::natives::{call_native, call_other};
use crate::own_calls::{
    component_of, select_own_code, select_own_implementation, select_own_special, short_header_at,
};
use jc_frames::instr::InvokeOp;
use jc_frames::{CallKind, Cell, Frames, Outcome, header_at};
use jc_instructions::enter::{CallSite, Callee, enter};
use jc_instructions::invoke::{SelectedCall, select_method};
use jc_instructions::known_calls::{
    CodeCall, method_of_platform, named_arguments, select_code, select_interface_code,
};
use jc_instructions::method_component::method_component_of;
use jc_instructions::server_call::call_server;
use jc_linker::linked::Linked;
use jc_linker::target::{Method, Target};
use jc_memory::Memory;
use jc_platform::names::{
    ApdusMethod, ExceptionsMethod, PlatformMethod, SystemMethod, UtilitiesMethod,
};
use jc_words::WordStore;
use jc_world::{NativeResult, StepExit};

// The frames go on with what a method of the platform answered, whose arguments were taken, out of line.
#[inline(never)]
fn answer<S: WordStore>(
    answer: NativeResult,
    place: u16,
    frames: &mut Frames,
    memory: &mut Memory<S>,
    linked: &Linked,
) -> Result<(), StepExit>
    requires up { memory.old.heap.down ≡ false }
    ensures { Executes (after_native_return answer place linked.now frames.old memory.old)
        memory.old (after_instruction result frames.new memory.new) }
{
    match answer {
        NativeResult::ReturnVoid => Ok(()),
        NativeResult::ReturnValue(cell) => {
            frames.try_push(cell)?;
            Ok(())
        }
        NativeResult::CallServer(asked) => call_server(&asked, place, frames, memory, linked),
        NativeResult::Aborted => {
            frames.null_dead(memory.top());
            Ok(())
        }
    }
}

// Whether code goes on after an instruction that ended so; where it does not, the exit is left in its room.
#[inline(always)]
fn goes_on(end: Result<(), StepExit>, exit: &mut StepExit) -> bool
    ensures { ended result exit.new ≡ end }
{
    match end {
        Ok(()) => true,
        Err(stop) => {
            *exit = stop;
            false
        }
    }
}

// The same after what a method of the platform answered, whose arguments were taken. What most methods answer stays in line.
#[inline(always)]
fn goes_on_after<S: WordStore>(
    answered: NativeResult,
    place: u16,
    frames: &mut Frames,
    memory: &mut Memory<S>,
    linked: &Linked,
    exit: &mut StepExit,
) -> bool
    requires up { memory.old.heap.down ≡ false }
    ensures { Executes (after_native_return answered place linked.now frames.old memory.old)
        memory.old (after_instruction (ended result exit.new) frames.new memory.new) }
{
    match answered {
        NativeResult::ReturnVoid => true,
        NativeResult::ReturnValue(cell) => match frames.try_push(cell) {
            Ok(()) => true,
            Err(fault) => {
                *exit = StepExit::from(fault);
                false
            }
        },
        other => goes_on(answer(other, place, frames, memory, linked), exit),
    }
}

// Carries out a method of the platform with this many cells as arguments, which may be others than it takes, called by the instruction at a place.
#[tactic(auto, using(jc_memory::proofs::ProgramLemmas::in_two_calls), unfolding(crate::specs::Calling::native_invoke))]
#[inline(never)]
fn invoke_native<S: WordStore>(
    method: PlatformMethod,
    count: u8,
    place: u16,
    frames: &mut Frames,
    memory: &mut Memory<S>,
    linked: &Linked,
) -> Result<(), StepExit>
    requires up { memory.old.heap.down ≡ false }
    ensures { Executes (native_invoke method count place linked.now frames.old memory.old)
        memory.old (after_instruction result frames.new memory.new) }
{
    if count != method.argument_cells() {
        return Err(StepExit::End(Outcome::Fault));
    }
    let Some(arguments) = frames.arguments(count) else {
        return Err(StepExit::End(Outcome::Fault));
    };
    let answered = call_other(method, arguments, memory, linked)?;
    frames.discard(count);
    answer(answered, place, frames, memory, linked)
}

// Where a call by the instruction at a place comes from.
#[inline(always)]
const fn called_at(place: u16) -> CallSite
    ensures { result ≡ record { place = place; kind = Instruction } }
{
    CallSite {
        place,
        kind: CallKind::Instruction,
    }
}

// A call by the instruction at a place, whose method was chosen.
#[tactic(auto, unfolding(jc_instructions::specs::Invoke::header_of, jc_instructions::specs::Enter::method_entry))]
#[inline(always)]
fn invoke_selected<S: WordStore>(
    chosen: SelectedCall,
    place: u16,
    frames: &mut Frames,
    memory: &mut Memory<S>,
    linked: &Linked,
) -> Result<(), StepExit>
    requires up { memory.old.heap.down ≡ false }
    requires header { chosen.header ≡ header_of linked.now chosen.call.method }
    ensures { Executes (invoke_selected chosen.call.method chosen.call place linked.now frames.old
        memory.old) memory.old (after_instruction result frames.new memory.new) }
{
    let SelectedCall { call, header } = chosen;
    match call.method {
        Method::Code {
            package_number,
            offset,
        } => {
            let callee = Callee {
                package_number,
                offset,
                arguments: call.arguments,
                switches_to: call.switches_to,
            };
            enter(header, callee, called_at(place), frames, memory)
        }
        Method::Native(method) => {
            invoke_native(method, call.arguments, place, frames, memory, linked)
        }
    }
}

// The method in bytecode that a call of an interface's method runs, where it is known at once; nothing of other calls.
#[tactic(auto, unfolding(jc_instructions::specs::Invoke::method_selection))]
#[inline(always)]
fn select_by_interface<S: WordStore>(
    invoke: InvokeOp,
    frames: &Frames,
    memory: &Memory<S>,
    linked: &Linked,
) -> Option<CodeCall>
    requires up { memory.now.heap.down ≡ false }
    ensures chosen { IfSome result (λ r. method_selection invoke linked.now frames.now memory.now
        ≡ Ok (call_of_code r.callee)) }
    ensures header { IfSome result (λ r. header_of linked.now
        (Code r.callee.package_number r.callee.offset) ≡ Some r.header) }
{
    let InvokeOp::Interface {
        arguments,
        index,
        token,
    } = invoke
    else {
        return None;
    };
    match linked.target_at(frames.origin().package_number, index) {
        Some(Target::Class(interface)) => {
            select_interface_code(*interface, arguments, token, frames, memory, linked)
        }
        _ => None,
    }
}

// A call by the instruction at a place, out of line: it needs memory for what the choice of its method hands over.
#[tactic(auto, unfolding(crate::specs::Calling::invoke_instruction, jc_instructions::specs::Invoke::header_of, jc_instructions::specs::Enter::method_entry))]
#[inline(never)]
fn invoke_other<S: WordStore>(
    invoke: InvokeOp,
    place: u16,
    frames: &mut Frames,
    memory: &mut Memory<S>,
    linked: &Linked,
) -> Result<(), StepExit>
    requires up { memory.old.heap.down ≡ false }
    ensures { Executes (invoke_instruction invoke place linked.now frames.old memory.old) memory.old
        (after_instruction result frames.new memory.new) }
{
    if let Some(call) = select_by_interface(invoke, frames, memory, linked) {
        return enter(
            Some(call.header),
            call.callee,
            called_at(place),
            frames,
            memory,
        );
    }
    let chosen = select_method::<InvokeOp, S>(invoke, frames, memory, linked)?;
    invoke_selected(chosen, place, frames, memory, linked)
}

// A virtual call by the instruction at a place whose method is not known at once. What is handed over has memory of its own.
#[inline(always)]
fn invoke_unknown<S: WordStore>(
    index: u16,
    place: u16,
    frames: &mut Frames,
    memory: &mut Memory<S>,
    linked: &Linked,
) -> Result<(), StepExit>
    requires up { memory.old.heap.down ≡ false }
    ensures { Executes (invoke_instruction (Virtual index) place linked.now frames.old memory.old)
        memory.old (after_instruction result frames.new memory.new) }
{
    invoke_other(InvokeOp::Virtual(index), place, frames, memory, linked)
}

// A virtual call by the instruction at a place whose entry names a method of the platform, out of line. Where the one that it runs is known at once,
// no more is asked.
#[tactic(auto, using(jc_memory::proofs::ProgramLemmas::in_two_calls), unfolding(crate::specs::Calling::invoke_instruction, crate::specs::Calling::native_invoke, jc_instructions::specs::Invoke::method_selection))]
#[inline(never)]
fn call_other_of_platform<S: WordStore>(
    entry: &Target,
    index: u16,
    place: u16,
    frames: &mut Frames,
    memory: &mut Memory<S>,
    linked: &Linked,
) -> Result<(), StepExit>
    requires up { memory.old.heap.down ≡ false }
    requires entry { Some entry.now ≡ target_at linked.now frames.old.current.origin.package_number
        index }
    ensures { Executes (invoke_instruction (Virtual index) place linked.now frames.old memory.old)
        memory.old (after_instruction result frames.new memory.new) }
{
    let Some((method, cells, arguments)) = method_of_platform(entry, frames, memory, linked) else {
        return invoke_unknown(index, place, frames, memory, linked);
    };
    let answered = call_other(method, arguments, memory, linked)?;
    frames.discard(cells);
    answer(answered, place, frames, memory, linked)
}

// The same in line: its answer has memory of its own.
#[inline(always)]
fn invoke_other_of_platform<S: WordStore>(
    entry: &Target,
    index: u16,
    place: u16,
    frames: &mut Frames,
    memory: &mut Memory<S>,
    linked: &Linked,
) -> Result<(), StepExit>
    requires up { memory.old.heap.down ≡ false }
    requires entry { Some entry.now ≡ target_at linked.now frames.old.current.origin.package_number
        index }
    ensures { Executes (invoke_instruction (Virtual index) place linked.now frames.old memory.old)
        memory.old (after_instruction result frames.new memory.new) }
{
    call_other_of_platform(entry, index, place, frames, memory, linked)
}

// The same, where most calls run the very method that the entry names: of these nothing else is asked. Where code goes on, it leaves by a way of its
// own, which hands on nothing of an exit.
#[tactic(auto, using(jc_memory::proofs::ProgramLemmas::in_two_calls), unfolding(crate::specs::Calling::invoke_instruction, crate::specs::Calling::native_invoke, jc_instructions::specs::Invoke::method_selection))]
#[inline(always)]
fn invoke_named<S: WordStore>(
    method: PlatformMethod,
    entry: &Target,
    index: u16,
    place: u16,
    frames: &mut Frames,
    memory: &mut Memory<S>,
    linked: &Linked,
) -> Result<(), StepExit>
    requires up { memory.old.heap.down ≡ false }
    requires entry { Some entry.now ≡ target_at linked.now frames.old.current.origin.package_number
        index }
    requires named { Names method entry.now }
    ensures { Executes (invoke_instruction (Virtual index) place linked.now frames.old memory.old)
        memory.old (after_instruction result frames.new memory.new) }
{
    let known = named_arguments(method, entry, frames, memory, linked);
    let Some((cells, arguments)) = known else {
        return invoke_other_of_platform(entry, index, place, frames, memory, linked);
    };
    let answered = call_native(method, arguments, memory, linked)?;
    frames.discard(cells);
    match answered {
        NativeResult::ReturnVoid => return Ok(()),
        NativeResult::ReturnValue(cell) => {
            frames.try_push(cell)?;
            return Ok(());
        }
        other => answer(other, place, frames, memory, linked),
    }
}

// The same of `APDU.setOutgoingAndSend`, whose row is known when this is compiled.
#[inline(never)]
fn invoke_set_outgoing_and_send<S: WordStore>(
    entry: &Target,
    index: u16,
    place: u16,
    frames: &mut Frames,
    memory: &mut Memory<S>,
    linked: &Linked,
) -> Result<(), StepExit>
    requires up { memory.old.heap.down ≡ false }
    requires entry { Some entry.now ≡ target_at linked.now frames.old.current.origin.package_number
        index }
    requires named { Names (Apdus ApduSetOutgoingAndSend) entry.now }
    ensures { Executes (invoke_instruction (Virtual index) place linked.now frames.old memory.old)
        memory.old (after_instruction result frames.new memory.new) }
{
    let method = PlatformMethod::Apdus(ApdusMethod::ApduSetOutgoingAndSend);
    invoke_named(method, entry, index, place, frames, memory, linked)
}

// The same of any method.
#[inline(never)]
fn invoke_of_platform<S: WordStore>(
    method: PlatformMethod,
    entry: &Target,
    index: u16,
    place: u16,
    frames: &mut Frames,
    memory: &mut Memory<S>,
    linked: &Linked,
) -> Result<(), StepExit>
    requires up { memory.old.heap.down ≡ false }
    requires entry { Some entry.now ≡ target_at linked.now frames.old.current.origin.package_number
        index }
    requires named { Names method entry.now }
    ensures { Executes (invoke_instruction (Virtual index) place linked.now frames.old memory.old)
        memory.old (after_instruction result frames.new memory.new) }
{
    invoke_named(method, entry, index, place, frames, memory, linked)
}

// A static call of a method in bytecode by the instruction at a place, out of line: any header.
#[tactic(auto, unfolding(jc_instructions::specs::Invoke::invokestatic, jc_instructions::specs::Invoke::arguments_of, jc_instructions::specs::Enter::method_entry))]
#[inline(never)]
fn invoke_static_any<S: WordStore>(
    package_number: u8,
    offset: u16,
    place: u16,
    frames: &mut Frames,
    memory: &mut Memory<S>,
    linked: &Linked,
) -> Result<(), StepExit>
    ensures { Executes (static_invoke (Code package_number offset) place linked.now frames.old
        memory.old) memory.old (after_instruction result frames.new memory.new) }
{
    let Some(header) = header_at(method_component_of(package_number, linked), offset) else {
        return Err(StepExit::End(Outcome::Fault));
    };
    let callee = Callee {
        package_number,
        offset,
        arguments: header.arguments,
        switches_to: None,
    };
    enter(Some(header), callee, called_at(place), frames, memory)
}

// The same in line: its answer has memory of its own.
#[inline(always)]
fn call_static_any<S: WordStore>(
    package_number: u8,
    offset: u16,
    place: u16,
    frames: &mut Frames,
    memory: &mut Memory<S>,
    linked: &Linked,
) -> Result<(), StepExit>
    ensures { Executes (static_invoke (Code package_number offset) place linked.now frames.old
        memory.old) memory.old (after_instruction result frames.new memory.new) }
{
    invoke_static_any(package_number, offset, place, frames, memory, linked)?;
    Ok(())
}

// A static call of a method in bytecode by the instruction at a place. Where the header has two bytes, it is taken apart here.
#[tactic(auto, unfolding(jc_instructions::specs::Invoke::invokestatic, jc_instructions::specs::Invoke::arguments_of, jc_instructions::specs::Enter::method_entry))]
#[inline(always)]
fn invoke_static_code<S: WordStore>(
    package_number: u8,
    offset: u16,
    place: u16,
    code: &[u8],
    frames: &mut Frames,
    memory: &mut Memory<S>,
    linked: &Linked,
) -> Result<(), StepExit>
    requires short { length code.now < 2 ^ 16 }
    requires runs { code.now
        ≡ method_component_of linked.now frames.old.current.origin.package_number }
    ensures { Executes (static_invoke (Code package_number offset) place linked.now frames.old
        memory.old) memory.old (after_instruction result frames.new memory.new) }
{
    let component = component_of(package_number, code, frames, linked);
    let Some(header) = short_header_at(component, offset) else {
        return call_static_any(package_number, offset, place, frames, memory, linked);
    };
    let callee = Callee {
        package_number,
        offset,
        arguments: header.arguments,
        switches_to: None,
    };
    enter(Some(header), callee, called_at(place), frames, memory)
}

// Whether code goes on after a static call of a method of the platform.
#[tactic(auto, using(jc_memory::proofs::ProgramLemmas::in_two_calls), unfolding(crate::specs::Calling::native_invoke, jc_instructions::specs::Invoke::invokestatic, jc_instructions::specs::Invoke::arguments_of))]
#[inline(always)]
fn goes_on_after_static<S: WordStore>(
    method: PlatformMethod,
    place: u16,
    frames: &mut Frames,
    memory: &mut Memory<S>,
    linked: &Linked,
    exit: &mut StepExit,
) -> bool
    requires up { memory.old.heap.down ≡ false }
    ensures { Executes (static_invoke (Native method) place linked.now frames.old memory.old)
        memory.old (after_instruction (ended result exit.new) frames.new memory.new) }
{
    if method.is_constructor() {
        *exit = StepExit::End(Outcome::Fault);
        return false;
    }
    let cells = method.argument_cells();
    let Some(arguments) = frames.arguments(cells) else {
        *exit = StepExit::End(Outcome::Fault);
        return false;
    };
    match call_native(method, arguments, memory, linked) {
        Ok(answered) => {
            frames.discard(cells);
            goes_on_after(answered, place, frames, memory, linked, exit)
        }
        Err(stop) => {
            *exit = stop;
            false
        }
    }
}

// The same of `Util.setShort`, out of line: its row is known when this is compiled.
#[inline(never)]
fn goes_on_after_set_short<S: WordStore>(
    place: u16,
    frames: &mut Frames,
    memory: &mut Memory<S>,
    linked: &Linked,
    exit: &mut StepExit,
) -> bool
    requires up { memory.old.heap.down ≡ false }
    ensures { Executes (static_invoke (Native (Utilities UtilSetShort)) place linked.now frames.old memory.old)
        memory.old (after_instruction (ended result exit.new) frames.new memory.new) }
{
    let method = PlatformMethod::Utilities(UtilitiesMethod::UtilSetShort);
    goes_on_after_static(method, place, frames, memory, linked, exit)
}

// The same of `JCSystem.beginTransaction`.
#[inline(never)]
fn goes_on_after_begin<S: WordStore>(
    place: u16,
    frames: &mut Frames,
    memory: &mut Memory<S>,
    linked: &Linked,
    exit: &mut StepExit,
) -> bool
    requires up { memory.old.heap.down ≡ false }
    ensures { Executes (static_invoke (Native (System JcSystemBeginTransaction)) place linked.now frames.old memory.old)
        memory.old (after_instruction (ended result exit.new) frames.new memory.new) }
{
    let method = PlatformMethod::System(SystemMethod::JcSystemBeginTransaction);
    goes_on_after_static(method, place, frames, memory, linked, exit)
}

// The same of `JCSystem.commitTransaction`.
#[inline(never)]
fn goes_on_after_commit<S: WordStore>(
    place: u16,
    frames: &mut Frames,
    memory: &mut Memory<S>,
    linked: &Linked,
    exit: &mut StepExit,
) -> bool
    requires up { memory.old.heap.down ≡ false }
    ensures { Executes (static_invoke (Native (System JcSystemCommitTransaction)) place linked.now frames.old memory.old)
        memory.old (after_instruction (ended result exit.new) frames.new memory.new) }
{
    let method = PlatformMethod::System(SystemMethod::JcSystemCommitTransaction);
    goes_on_after_static(method, place, frames, memory, linked, exit)
}

// The same of `ISOException.throwIt`.
#[inline(never)]
fn goes_on_after_throw_it<S: WordStore>(
    place: u16,
    frames: &mut Frames,
    memory: &mut Memory<S>,
    linked: &Linked,
    exit: &mut StepExit,
) -> bool
    requires up { memory.old.heap.down ≡ false }
    ensures { Executes (static_invoke (Native (Exceptions IsoExceptionThrowIt)) place linked.now frames.old memory.old)
        memory.old (after_instruction (ended result exit.new) frames.new memory.new) }
{
    let method = PlatformMethod::Exceptions(ExceptionsMethod::IsoExceptionThrowIt);
    goes_on_after_static(method, place, frames, memory, linked, exit)
}

// The same of any method.
#[inline(never)]
fn goes_on_after_other_static<S: WordStore>(
    method: PlatformMethod,
    place: u16,
    frames: &mut Frames,
    memory: &mut Memory<S>,
    linked: &Linked,
    exit: &mut StepExit,
) -> bool
    requires up { memory.old.heap.down ≡ false }
    ensures { Executes (static_invoke (Native method) place linked.now frames.old memory.old)
        memory.old (after_instruction (ended result exit.new) frames.new memory.new) }
{
    goes_on_after_static(method, place, frames, memory, linked, exit)
}

// The same. The methods that commands call most have ways of their own.
#[inline(always)]
fn goes_on_after_any_static<S: WordStore>(
    method: PlatformMethod,
    place: u16,
    frames: &mut Frames,
    memory: &mut Memory<S>,
    linked: &Linked,
    exit: &mut StepExit,
) -> bool
    requires up { memory.old.heap.down ≡ false }
    ensures { Executes (static_invoke (Native method) place linked.now frames.old memory.old)
        memory.old (after_instruction (ended result exit.new) frames.new memory.new) }
{
    match method {
        PlatformMethod::Utilities(UtilitiesMethod::UtilSetShort) => {
            goes_on_after_set_short(place, frames, memory, linked, exit)
        }
        PlatformMethod::System(SystemMethod::JcSystemBeginTransaction) => {
            goes_on_after_begin(place, frames, memory, linked, exit)
        }
        PlatformMethod::System(SystemMethod::JcSystemCommitTransaction) => {
            goes_on_after_commit(place, frames, memory, linked, exit)
        }
        PlatformMethod::Exceptions(ExceptionsMethod::IsoExceptionThrowIt) => {
            goes_on_after_throw_it(place, frames, memory, linked, exit)
        }
        other => goes_on_after_other_static(other, place, frames, memory, linked, exit),
    }
}

// The same in line.
#[inline(always)]
fn call_static_native<S: WordStore>(
    method: PlatformMethod,
    place: u16,
    frames: &mut Frames,
    memory: &mut Memory<S>,
    linked: &Linked,
) -> Result<(), StepExit>
    requires up { memory.old.heap.down ≡ false }
    ensures { Executes (static_invoke (Native method) place linked.now frames.old memory.old)
        memory.old (after_instruction result frames.new memory.new) }
{
    if static_at_once(method, place, frames, memory, linked) {
        return Ok(());
    }
    let mut exit = StepExit::Down;
    if goes_on_after_any_static(method, place, frames, memory, linked, &mut exit) {
        return Ok(());
    }
    Err(exit)
}

// A static call by the instruction at a place.
#[tactic(auto, using(crate::proofs::RunningCode::has_pool), unfolding(crate::specs::Calling::invoke_instruction, jc_instructions::specs::Invoke::method_selection))]
#[inline(always)]
fn invoke_static<S: WordStore>(
    index: u16,
    place: u16,
    code: &[u8],
    frames: &mut Frames,
    memory: &mut Memory<S>,
    linked: &Linked,
) -> Result<(), StepExit>
    requires up { memory.old.heap.down ≡ false }
    requires short { length code.now < 2 ^ 16 }
    requires runs { IsRunningCode code.now linked.now frames.old }
    ensures { Executes (invoke_instruction (Static index) place linked.now frames.old memory.old)
        memory.old (after_instruction result frames.new memory.new) }
{
    match linked.target_at(frames.origin().package_number, index) {
        Some(
            Target::StaticMethod {
                class: _,
                method: Method::Code {
                    package_number,
                    offset,
                },
            },
        ) => invoke_static_code(
            *package_number,
            *offset,
            place,
            code,
            frames,
            memory,
            linked,
        ),
        Some(
            Target::StaticMethod {
                class: _,
                method: Method::Native(method),
            },
        ) => call_static_native(*method, place, frames, memory, linked),
        _ => Err(StepExit::End(Outcome::Fault)),
    }
}

// A virtual call by the instruction at a place whose entry names a method in bytecode, out of line. Where the one that it runs is known
// at once, no more is asked.
#[tactic(auto, unfolding(crate::specs::Calling::invoke_instruction, jc_instructions::specs::Invoke::method_selection, jc_instructions::specs::Invoke::header_of, jc_instructions::specs::Enter::method_entry))]
#[inline(never)]
fn invoke_virtual_other<S: WordStore>(
    entry: &Target,
    index: u16,
    place: u16,
    frames: &mut Frames,
    memory: &mut Memory<S>,
    linked: &Linked,
) -> Result<(), StepExit>
    requires up { memory.old.heap.down ≡ false }
    requires entry { Some entry.now ≡ target_at linked.now frames.old.current.origin.package_number
        index }
    ensures { Executes (invoke_instruction (Virtual index) place linked.now frames.old memory.old)
        memory.old (after_instruction result frames.new memory.new) }
{
    if let Target::VirtualMethod {
        class,
        token,
        method: Method::Code {
            package_number,
            offset,
        },
    } = entry
    {
        let chosen = select_code(
            *class,
            *token,
            *package_number,
            *offset,
            frames,
            memory,
            linked,
        );
        if let Some(call) = chosen {
            return enter(
                Some(call.header),
                call.callee,
                called_at(place),
                frames,
                memory,
            );
        }
    }
    invoke_unknown(index, place, frames, memory, linked)
}

// The same in line, where most calls are on own instances of the very class that the entry names: of these nothing else is asked.
#[tactic(auto, unfolding(crate::specs::Calling::invoke_instruction, jc_instructions::specs::Invoke::method_selection, jc_instructions::specs::Invoke::header_of, jc_instructions::specs::Enter::method_entry))]
#[inline(always)]
fn invoke_virtual_code<S: WordStore>(
    entry: &Target,
    index: u16,
    place: u16,
    code: &[u8],
    frames: &mut Frames,
    memory: &mut Memory<S>,
    linked: &Linked,
) -> Result<(), StepExit>
    requires up { memory.old.heap.down ≡ false }
    requires short { length code.now < 2 ^ 16 }
    requires runs { code.now
        ≡ method_component_of linked.now frames.old.current.origin.package_number }
    requires entry { Some entry.now ≡ target_at linked.now frames.old.current.origin.package_number
        index }
    ensures { Executes (invoke_instruction (Virtual index) place linked.now frames.old memory.old)
        memory.old (after_instruction result frames.new memory.new) }
{
    if let Target::VirtualMethod {
        class,
        token: _,
        method: Method::Code {
            package_number,
            offset,
        },
    } = entry
    {
        let chosen = select_own_code(
            *class,
            *package_number,
            *offset,
            code,
            frames,
            memory,
            linked,
        );
        if let Some(call) = chosen {
            return enter(
                Some(call.header),
                call.callee,
                called_at(place),
                frames,
                memory,
            );
        }
    }
    invoke_virtual_other(entry, index, place, frames, memory, linked)
}

// A virtual call by the instruction at a place, whose entry names a method of the platform. The methods that commands call most have ways of their
// own.
#[inline(always)]
fn call_virtual_native<S: WordStore>(
    method: PlatformMethod,
    entry: &Target,
    index: u16,
    place: u16,
    frames: &mut Frames,
    memory: &mut Memory<S>,
    linked: &Linked,
) -> Result<(), StepExit>
    requires up { memory.old.heap.down ≡ false }
    requires entry { Some entry.now ≡ target_at linked.now frames.old.current.origin.package_number
        index }
    requires named { Names method entry.now }
    ensures { Executes (invoke_instruction (Virtual index) place linked.now frames.old memory.old)
        memory.old (after_instruction result frames.new memory.new) }
{
    if virtual_at_once(method, entry, frames, memory, linked) {
        return Ok(());
    }
    match method {
        PlatformMethod::Apdus(ApdusMethod::ApduSetOutgoingAndSend) => {
            invoke_set_outgoing_and_send(entry, index, place, frames, memory, linked)
        }
        other => invoke_of_platform(other, entry, index, place, frames, memory, linked),
    }
}

// A virtual call by the instruction at a place.
#[tactic(auto, using(crate::proofs::RunningCode::has_pool), unfolding(crate::specs::Calling::invoke_instruction, jc_instructions::specs::Invoke::method_selection))]
#[inline(always)]
fn invoke_virtual<S: WordStore>(
    index: u16,
    place: u16,
    code: &[u8],
    frames: &mut Frames,
    memory: &mut Memory<S>,
    linked: &Linked,
) -> Result<(), StepExit>
    requires up { memory.old.heap.down ≡ false }
    requires short { length code.now < 2 ^ 16 }
    requires runs { IsRunningCode code.now linked.now frames.old }
    ensures { Executes (invoke_instruction (Virtual index) place linked.now frames.old memory.old)
        memory.old (after_instruction result frames.new memory.new) }
{
    let Some(entry) = linked.target_at(frames.origin().package_number, index) else {
        return Err(StepExit::End(Outcome::Fault));
    };
    match entry {
        Target::VirtualMethod {
            method: Method::Native(method),
            ..
        } => call_virtual_native(*method, entry, index, place, frames, memory, linked),
        _ => invoke_virtual_code(entry, index, place, code, frames, memory, linked),
    }
}

// A call of a constructor, of a private method or of a method of a superclass by the instruction at a place, out of line. On an own instance of the
// very class that the entry names nothing else is asked.
#[tactic(auto, unfolding(crate::specs::Calling::invoke_instruction, jc_instructions::specs::Invoke::method_selection, jc_instructions::specs::Invoke::header_of, jc_instructions::specs::Enter::method_entry))]
#[inline(never)]
fn invoke_special_code<S: WordStore>(
    index: u16,
    place: u16,
    frames: &mut Frames,
    memory: &mut Memory<S>,
    linked: &Linked,
) -> Result<(), StepExit>
    requires up { memory.old.heap.down ≡ false }
    ensures { Executes (invoke_instruction (Special index) place linked.now frames.old memory.old)
        memory.old (after_instruction result frames.new memory.new) }
{
    let entry = linked.target_at(frames.origin().package_number, index);
    if let Some(
        Target::StaticMethod {
            class,
            method: Method::Code {
                package_number,
                offset,
            },
        },
    ) = entry
    {
        let chosen = select_own_special(*class, *package_number, *offset, frames, memory, linked);
        if let Some(call) = chosen {
            return enter(
                Some(call.header),
                call.callee,
                called_at(place),
                frames,
                memory,
            );
        }
    }
    invoke_other(InvokeOp::Special(index), place, frames, memory, linked)
}

// The same in line.
#[inline(always)]
fn invoke_special<S: WordStore>(
    index: u16,
    place: u16,
    frames: &mut Frames,
    memory: &mut Memory<S>,
    linked: &Linked,
) -> Result<(), StepExit>
    requires up { memory.old.heap.down ≡ false }
    ensures { Executes (invoke_instruction (Special index) place linked.now frames.old memory.old)
        memory.old (after_instruction result frames.new memory.new) }
{
    invoke_special_code(index, place, frames, memory, linked)
}

// A call of an interface's method. On an own instance nothing else is asked.
#[tactic(auto, using(crate::proofs::RunningCode::has_pool), unfolding(crate::specs::Calling::invoke_instruction, jc_instructions::specs::Invoke::method_selection, jc_instructions::specs::Invoke::header_of, jc_instructions::specs::Enter::method_entry))]
#[inline(always)]
fn invoke_interface<S: WordStore>(
    invoke: InvokeOp,
    place: u16,
    code: &[u8],
    frames: &mut Frames,
    memory: &mut Memory<S>,
    linked: &Linked,
) -> Result<(), StepExit>
    requires up { memory.old.heap.down ≡ false }
    requires short { length code.now < 2 ^ 16 }
    requires runs { IsRunningCode code.now linked.now frames.old }
    ensures { Executes (invoke_instruction invoke place linked.now frames.old memory.old) memory.old
        (after_instruction result frames.new memory.new) }
{
    let InvokeOp::Interface {
        arguments,
        index,
        token,
    } = invoke
    else {
        return invoke_other(invoke, place, frames, memory, linked);
    };
    let interface = linked.target_at(frames.origin().package_number, index);
    if let Some(Target::Class(interface)) = interface {
        let chosen = select_own_implementation(
            *interface, arguments, token, code, frames, memory, linked,
        );
        if let Some(call) = chosen {
            return enter(
                Some(call.header),
                call.callee,
                called_at(place),
                frames,
                memory,
            );
        }
    }
    invoke_other(invoke, place, frames, memory, linked)
}

/// A call by the instruction at a place. Static calls of methods in bytecode stay in line, and so do virtual calls and calls of interfaces' methods
/// on own instances; what comes after the choice of any other method needs memory for what the choice hands over, and stands out of line.
#[inline(always)]
pub(crate) fn invoke_instruction<S: WordStore>(
    invoke: InvokeOp,
    place: u16,
    code: &[u8],
    frames: &mut Frames,
    memory: &mut Memory<S>,
    linked: &Linked,
) -> Result<(), StepExit>
    requires up { memory.old.heap.down ≡ false }
    requires short { length code.now < 2 ^ 16 }
    requires runs { IsRunningCode code.now linked.now frames.old }
    ensures { Executes (invoke_instruction invoke place linked.now frames.old memory.old) memory.old
        (after_instruction result frames.new memory.new) }
{
    match invoke {
        InvokeOp::Static(index) => invoke_static(index, place, code, frames, memory, linked),
        InvokeOp::Virtual(index) => invoke_virtual(index, place, code, frames, memory, linked),
        InvokeOp::Special(index) => invoke_special(index, place, frames, memory, linked),
        InvokeOp::Interface { .. } => invoke_interface(invoke, place, code, frames, memory, linked),
    }
}
