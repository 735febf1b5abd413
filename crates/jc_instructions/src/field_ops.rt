//! Instructions on fields.
ghost use Rattle.std.specs.Prelude.{◌≡◌, false};
ghost use Rattle.jc_memory.specs.Programs.{Executes};
ghost use Rattle.jc_world.specs.Instructions.{after_instruction};
ghost use Rattle.jc_instructions.specs.FieldOps.{field_instruction};

use crate::fields::{getfield, getfield_this, putfield, putfield_this};
use crate::static_fields::{getstatic, putstatic};
use jc_frames::Frames;
use jc_frames::instr::FieldOp;
use jc_linker::linked::Linked;
use jc_memory::Memory;
use jc_words::WordStore;
use jc_world::StepExit;

/// Reads or writes a field. Throws where the object is null, where the firewall refuses the access or the reference
/// that is to be stored, and where the transaction has no room; a code fault where the pool's entry names no such field,
/// where the object has it not, and where the stack's cells have other kinds or are too many.
#[tactic(auto, unfolding(crate::specs::FieldOps::field_instruction))]
pub fn field_instruction<S: WordStore>(
    field: FieldOp,
    frames: &mut Frames,
    memory: &mut Memory<S>,
    linked: &Linked,
) -> Result<(), StepExit>
    requires { memory.old.heap.down ≡ false }
    ensures { Executes (field_instruction field linked.now frames.old memory.old) memory.old
        (after_instruction result frames.new memory.new) }
{
    match field {
        FieldOp::GetStatic(of_type, index) => getstatic(of_type, index, frames, memory, linked),
        FieldOp::PutStatic(of_type, index) => putstatic(of_type, index, frames, memory, linked),
        FieldOp::GetField(of_type, index) => getfield(of_type, index, frames, memory, linked),
        FieldOp::PutField(of_type, index) => putfield(of_type, index, frames, memory, linked),
        FieldOp::GetFieldThis(of_type, index) => getfield_this(
            of_type, index, frames, memory, linked,
        ),
        FieldOp::PutFieldThis(of_type, index) => putfield_this(
            of_type, index, frames, memory, linked,
        ),
    }
}
