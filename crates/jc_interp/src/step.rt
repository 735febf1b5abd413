//! What is left of a step where frames alone do not go on, and the exception that it throws.
ghost use Rattle.std.specs.Prelude.{◌≡◌, ◌<◌, ◌^◌, ◌==◌, false, length, if◌then◌else◌, Ok, Err};
ghost use Rattle.jc_frames.specs.declared.instr.Instr.TheVariants.{Return};
ghost use Rattle.jc_instructions.specs.ArrayCreation.{newarray, anewarray};
ghost use Rattle.jc_instructions.specs.MethodReturn.{method_return};
ghost use Rattle.jc_frames.specs.declared.outcome.Outcome.TheVariants.{Fault};
ghost use Rattle.jc_frames.specs.declared.exceptions.Exception.{Exception};
ghost use Rattle.jc_world.specs.declared.step_exit.StepExit.TheVariants.{End, Throw};
ghost use Rattle.jc_memory.specs.Programs.{Executes, bind};
ghost use Rattle.jc_world.specs.Instructions.{after_instruction};
ghost use Rattle.jc_interp.specs.declared.frames_only.FramesExit.TheVariants.{Exit};
ghost use Rattle.jc_interp.specs.Calling.{invoke_instruction};
ghost use Rattle.jc_interp.specs.RunningCode.{IsRunningCode};
ghost use Rattle.jc_interp.specs.Step.{code_of, if_had, object_instruction, throw_from};
ghost use Rattle.jc_interp.specs.PausedSteps.{EndsStep, IsOther, WhereNeeded, step_rest, memory_instruction, paused_rest};

use crate::calling::invoke_instruction;
use crate::frames_only::{FramesExit, PausedStep};
use jc_frames::instr::{ArrayOp, Instr, InvokeOp, ObjectOp, PrimitiveArray, ReturnOp};
use jc_frames::{FrameExit, Frames, Outcome};
use jc_instructions::method_component::method_component_of;
use jc_instructions::method_return::return_to_caller;
use jc_instructions::throw::{athrow, throw};
use jc_instructions::{
    anewarray, array_load, array_store, arraylength, checkcast, field_instruction, instanceof,
    new_instance, newarray,
};
use jc_linker::linked::Linked;
use jc_memory::Memory;
use jc_words::WordStore;
use jc_world::StepExit;

// The code in which places of a package's methods are counted.
pub(crate) fn code_of<'a>(lent: &'a [u8], package_number: u8, linked: &'a Linked) -> &'a [u8]
    requires { length lent.now < 2 ^ 16 }
    ensures code { result.now ≡ code_of lent.entry.now linked.entry.now package_number }
    ensures short { length result.now < 2 ^ 16 }
{
    if package_number == 0 {
        lent
    } else {
        method_component_of(package_number, linked)
    }
}

// Makes, throws or tests an object.
#[inline(never)]
fn object_instruction<S: WordStore>(
    operation: ObjectOp,
    place: u16,
    frames: &mut Frames,
    memory: &mut Memory<S>,
    linked: &Linked,
) -> Result<(), StepExit>
    requires up { memory.old.heap.down ≡ false }
    ensures { Executes (object_instruction operation place linked.now frames.old memory.old)
        memory.old (after_instruction result frames.new memory.new) }
{
    match operation {
        ObjectOp::New(index) => new_instance(index, frames, memory, linked),
        ObjectOp::Athrow => athrow(place, frames, memory, linked),
        ObjectOp::CheckCast(tested) => checkcast(tested, frames, memory, linked),
        ObjectOp::InstanceOf(tested) => instanceof(tested, frames, memory, linked),
    }
}

// The same in line: its answer has memory of its own.
#[inline(always)]
fn make_or_test<S: WordStore>(
    operation: ObjectOp,
    place: u16,
    frames: &mut Frames,
    memory: &mut Memory<S>,
    linked: &Linked,
) -> Result<(), StepExit>
    requires up { memory.old.heap.down ≡ false }
    ensures { Executes (object_instruction operation place linked.now frames.old memory.old)
        memory.old (after_instruction result frames.new memory.new) }
{
    object_instruction(operation, place, frames, memory, linked)?;
    Ok(())
}

// Code that was lent has no such instruction.
#[inline(always)]
fn in_package(frames: &Frames) -> Result<(), StepExit>
    ensures { result ≡ (if frames.now.current.origin.package_number == 0 then Err (End Fault) else
        Ok tt) }
{
    if frames.origin().package_number == 0 {
        return Err(StepExit::End(Outcome::Fault));
    }
    Ok(())
}

// Ends the method, if the code has the instruction: code that was lent returns no reference.
#[inline(always)]
fn return_if_had<S: WordStore>(
    how: ReturnOp,
    frames: &mut Frames,
    memory: &mut Memory<S>,
) -> Result<(), StepExit>
    ensures { Executes (if_had (Return how) frames.old (method_return how frames.old memory.old))
        memory.old (after_instruction result frames.new memory.new) }
{
    if let ReturnOp::Areturn = how {
        in_package(frames)?;
    }
    return_to_caller(how, frames, memory)
}

// `newarray`: the answer of the call out of line has memory of its own.
#[inline(always)]
fn make_array<S: WordStore>(
    of_type: PrimitiveArray,
    frames: &mut Frames,
    memory: &mut Memory<S>,
) -> Result<(), StepExit>
    requires up { memory.old.heap.down ≡ false }
    ensures { Executes (newarray of_type frames.old memory.old) memory.old
        (after_instruction result frames.new memory.new) }
{
    newarray(of_type, frames, memory)?;
    Ok(())
}

// `anewarray`, likewise.
#[inline(always)]
fn make_reference_array<S: WordStore>(
    index: u16,
    frames: &mut Frames,
    memory: &mut Memory<S>,
    linked: &Linked,
) -> Result<(), StepExit>
    requires up { memory.old.heap.down ≡ false }
    ensures { Executes (anewarray index linked.now frames.old memory.old) memory.old
        (after_instruction result frames.new memory.new) }
{
    anewarray(index, frames, memory, linked)?;
    Ok(())
}

// Carries out an instruction at a place that is neither a return nor a call, after which the next one stands, if the code has it. What frames
// alone carry out does not come here. A package has what fields name, so of those in code that was lent there is nothing to ask; each
// instruction on arrays is an arm of its own, so that it is distinguished from the others only once, and so that no decoded instruction is kept
// in memory.
#[tactic(auto, unfolding(jc_instructions::specs::ArrayOps::array_instruction))]
#[inline(always)]
fn execute<S: WordStore>(
    instr: &Instr,
    place: u16,
    frames: &mut Frames,
    memory: &mut Memory<S>,
    linked: &Linked,
) -> Result<(), StepExit>
    requires up { memory.old.heap.down ≡ false }
    requires other { IsOther instr.now }
    ensures { Executes (if_had instr.now frames.old (memory_instruction instr.now place linked.now
        frames.old memory.old)) memory.old (after_instruction result frames.new memory.new) }
{
    match instr {
        Instr::Field(field) => field_instruction(*field, frames, memory, linked),
        Instr::Array(ArrayOp::Load(of_type)) => {
            in_package(frames)?;
            array_load(*of_type, frames, memory, linked)
        }
        Instr::Array(ArrayOp::Store(of_type)) => {
            in_package(frames)?;
            array_store(*of_type, frames, memory, linked)
        }
        Instr::Array(ArrayOp::NewArray(of_type)) => {
            in_package(frames)?;
            make_array(*of_type, frames, memory)
        }
        Instr::Array(ArrayOp::ANewArray(index)) => {
            in_package(frames)?;
            make_reference_array(*index, frames, memory, linked)
        }
        Instr::Array(ArrayOp::ArrayLength) => {
            in_package(frames)?;
            arraylength(frames, memory, linked)
        }
        Instr::Object(operation) => {
            in_package(frames)?;
            make_or_test(*operation, place, frames, memory, linked)
        }
        Instr::Return(_) | Instr::Invoke(_) => unreachable!(),
        _ => Err(StepExit::End(Outcome::Fault)),
    }
}

// Throws what an instruction at a place throws; any other exit stays. It is one call for all exits, out of line, so that an instruction that
// goes on keeps no room for one. Where code goes on, it leaves by a way of its own, which hands on nothing of an exit.
#[inline(never)]
fn throw_at<S: WordStore>(
    exit: StepExit,
    place: u16,
    frames: &mut Frames,
    memory: &mut Memory<S>,
    linked: &Linked,
) -> Result<(), StepExit>
    requires up { (e : Exception) → exit ≡ Throw e → memory.old.heap.down ≡ false }
    ensures { EndsStep (after_instruction (Err exit) frames.old memory.old) place linked.now
        (after_instruction result frames.new memory.new) }
{
    match exit {
        StepExit::Throw(exception) => {
            frames.clear_stack();
            let ended = throw(exception, place, frames, memory, linked);
            if ended.is_err() {
                return ended;
            }
            Ok(())
        }
        other => Err(other),
    }
}

// The same in line: what it is given and what it answers have memory of their own.
#[inline(always)]
fn throw_exit<S: WordStore>(
    exit: StepExit,
    place: u16,
    frames: &mut Frames,
    memory: &mut Memory<S>,
    linked: &Linked,
) -> Result<(), StepExit>
    requires up { (e : Exception) → exit ≡ Throw e → memory.old.heap.down ≡ false }
    ensures { EndsStep (after_instruction (Err exit) frames.old memory.old) place linked.now
        (after_instruction result frames.new memory.new) }
{
    throw_at(exit, place, frames, memory, linked)?;
    Ok(())
}

// A call by the instruction at a place, and what it throws is thrown.
#[tactic(auto, using(jc_memory::proofs::ProgramLemmas::in_two_calls, crate::proofs::StepEnds::ended_step))]
#[inline(always)]
fn finish_call<S: WordStore>(
    call: InvokeOp,
    place: u16,
    code: &[u8],
    frames: &mut Frames,
    memory: &mut Memory<S>,
    linked: &Linked,
) -> Result<(), StepExit>
    requires up { memory.old.heap.down ≡ false }
    requires short { length code.now < 2 ^ 16 }
    requires runs { IsRunningCode code.now linked.now frames.old }
    ensures { Executes (bind (invoke_instruction call place linked.now frames.old memory.old)
        memory.old (λ next v. throw_from place linked.now next v)) memory.old
        (after_instruction result frames.new memory.new) }
{
    match invoke_instruction(call, place, code, frames, memory, linked) {
        Ok(()) => Ok(()),
        Err(exit) => throw_exit(exit, place, frames, memory, linked),
    }
}

// The same of an instruction that ended so. What is handed over by memory has a function of its own in line, so that it is blanked on this way only.
#[inline(always)]
fn throw_ended<S: WordStore>(
    ended: Result<(), StepExit>,
    place: u16,
    frames: &mut Frames,
    memory: &mut Memory<S>,
    linked: &Linked,
) -> Result<(), StepExit>
    requires up { (e : Exception) → ended ≡ Err (Throw e) → memory.old.heap.down ≡ false }
    ensures { EndsStep (after_instruction ended frames.old memory.old) place linked.now
        (after_instruction result frames.new memory.new) }
{
    match ended {
        Ok(()) => Ok(()),
        Err(exit) => {
            throw_at(exit, place, frames, memory, linked)?;
            Ok(())
        }
    }
}

// The same where frames alone did not go on. Code faults have a way of their own, so that the loop of all instructions keeps nothing ready for them.
#[inline(always)]
fn throw_stop<S: WordStore>(
    stop: &FrameExit,
    place: u16,
    frames: &mut Frames,
    memory: &mut Memory<S>,
    linked: &Linked,
) -> Result<(), StepExit>
    requires up { memory.old.heap.down ≡ false }
    ensures { Executes (step_rest (record { why = Exit stop.now; place = place }) linked.now
        frames.old memory.old) memory.old (after_instruction result frames.new memory.new) }
{
    if let FrameExit::End(Outcome::Fault) = stop {
        let fault = Err(StepExit::End(Outcome::Fault));
        return throw_ended(fault, place, frames, memory, linked);
    }
    throw_ended(Err(StepExit::from(*stop)), place, frames, memory, linked)
}

/// Does what is left of a step of this code at a pause, and throws what it throws. The end of a method throws nothing, so it takes no way out of
/// line. Returns and calls have ways of their own, so that they need no memory for what others throw.
#[tactic(auto, using(jc_memory::proofs::ProgramLemmas::in_two_calls, crate::proofs::StepEnds::ended_step))]
#[inline(always)]
pub(crate) fn finish<S: WordStore>(
    pause: &PausedStep,
    code: &[u8],
    frames: &mut Frames,
    memory: &mut Memory<S>,
    linked: &Linked,
) -> Result<(), StepExit>
    requires up { memory.old.heap.down ≡ false }
    requires short { length code.now < 2 ^ 16 }
    requires runs { WhereNeeded pause.now.why (IsRunningCode code.now linked.now frames.old) }
    ensures { Executes (step_rest pause.now linked.now frames.old memory.old) memory.old
        (after_instruction result frames.new memory.new) }
{
    match &pause.why {
        FramesExit::Exit(stop) => throw_stop(stop, pause.place, frames, memory, linked),
        FramesExit::Needs(instr) => match instr {
            Instr::Return(how) => return_if_had(*how, frames, memory),
            Instr::Invoke(call) => finish_call(*call, pause.place, code, frames, memory, linked),
            _ => {
                let ended = execute(instr, pause.place, frames, memory, linked);
                if ended.is_ok() {
                    return Ok(());
                }
                throw_ended(ended, pause.place, frames, memory, linked)
            }
        },
    }
}
