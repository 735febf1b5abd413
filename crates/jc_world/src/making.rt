//! New objects.
ghost use Rattle.std.specs.Prelude.{◌≡◌, ◌<◌, false, length};
ghost use Rattle.jc_memory.specs.Programs.{Executes};
ghost use Rattle.jc_world.specs.Instructions.{after_instruction};
ghost use Rattle.jc_world.specs.Making.{new_on_top};

use crate::StepExit;
use jc_frames::{Cell, Frames};
use jc_memory::{Memory, NewObject};
use jc_words::WordStore;

/// Puts a new object on the stack. Throws where the heap has no space or the transaction no room for it.
#[tactic(auto, unfolding(crate::specs::Making::new_on_top))]
pub fn push_new<S: WordStore>(
    object: NewObject,
    frames: &mut Frames,
    memory: &mut Memory<S>,
) -> Result<(), StepExit>
    requires up { memory.old.heap.down ≡ false }
    requires room { length frames.old.current.stack < frames.old.current.limit }
    ensures { Executes (new_on_top object frames.old memory.old) memory.old
        (after_instruction result frames.new memory.new) }
{
    let reference = memory.make(object)?;
    frames.push(Cell::Reference(reference));
    Ok(())
}
