//! Returns: `areturn`, `sreturn`, `return`.
ghost use Rattle.std.specs.Prelude.{◌≡◌};
ghost use Rattle.jc_frames.specs.Calls.{frames_after_return};
ghost use Rattle.jc_memory.specs.Programs.{Executes};
ghost use Rattle.jc_world.specs.Instructions.{after_instruction};
ghost use Rattle.jc_instructions.specs.MethodReturn.{method_return, return_to_caller};

use jc_frames::instr::ReturnOp;
use jc_frames::{Cell, Frames, Outcome};
use jc_memory::Memory;
use jc_words::WordStore;
use jc_world::StepExit;

// The caller goes on with a value, or the run ends with it.
#[inline(always)]
fn hand_over<S: WordStore>(
    value: Option<Cell>,
    frames: &mut Frames,
    memory: &mut Memory<S>,
) -> Result<(), StepExit>
    ensures { Executes (return_to_caller value (frames_after_return frames.old.callers) memory.old)
        memory.old (after_instruction result frames.new memory.new) }
{
    let Some(resume) = frames.leave() else {
        return Err(StepExit::End(Outcome::of_value(value)));
    };
    let call = resume.call;
    memory.set_owners(resume.active, resume.previous);
    frames.receive(call, value)?;
    Ok(())
}

/// `areturn`, `sreturn`, `return`: ends the method with the value on top, if the instruction has one: its
/// caller goes on with it, for whom it ran before, or the run ends with it where nothing called the method.
#[tactic(auto, unfolding(crate::specs::MethodReturn::method_return))]
#[inline(always)]
pub fn return_to_caller<S: WordStore>(
    how: ReturnOp,
    frames: &mut Frames,
    memory: &mut Memory<S>,
) -> Result<(), StepExit>
    ensures { Executes (method_return how frames.old memory.old) memory.old
        (after_instruction result frames.new memory.new) }
{
    match how {
        ReturnOp::Return => hand_over(None, frames, memory),
        // The short is not taken off first, since all cells of the frame go.
        ReturnOp::Sreturn => match frames.peek(0) {
            Some(Cell::Short(value)) => hand_over(Some(Cell::Short(value)), frames, memory),
            _ => Err(StepExit::End(Outcome::Fault)),
        },
        ReturnOp::Areturn => {
            let value = frames.pop_reference()?;
            hand_over(Some(Cell::Reference(value)), frames, memory)
        }
    }
}
