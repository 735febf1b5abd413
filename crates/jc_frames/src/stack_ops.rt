//! The stack's order: `pop`, `pop2`, `dup`, `dup2`, `dup_x`, `swap_x`.
ghost use Rattle.std.specs.Prelude.{◌≡◌};
ghost use Rattle.jc_frames.specs.Table.{HasListedOperands};
ghost use Rattle.jc_frames.specs.Frames.{in_frame, unless_fault};
ghost use Rattle.jc_frames.specs.StackOps.{stack_instruction};

use crate::instr::{Instr, StackOp};
use crate::{CodeFault, Frames};

/// `pop`, `pop2`, `dup`, `dup2`, `dup_x`, `swap_x`: reorders the stack.
#[inline(always)]
pub fn stack_instruction(stack: StackOp, frames: &mut Frames) -> Result<(), CodeFault>
    requires { HasListedOperands (Instr.Stack stack) }
    ensures { unless_fault result frames.new ≡ in_frame frames.old
        (stack_instruction stack frames.old.current) }
{
    match stack {
        StackOp::Pop => {
            frames.pop()?;
            Ok(())
        }
        StackOp::Pop2 => {
            frames.pop()?;
            frames.pop()?;
            Ok(())
        }
        StackOp::Dup => frames.copy(1, 0),
        StackOp::Dup2 => frames.copy(2, 0),
        StackOp::DupX { count, depth } => frames.copy(count, depth),
        StackOp::SwapX { count, below } => frames.exchange(count, below),
    }
}
