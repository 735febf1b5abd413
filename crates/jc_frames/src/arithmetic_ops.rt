//! Arithmetic: `sadd` to `sxor`, `sneg`, `s2b`.
ghost use Rattle.std.specs.Prelude.{◌≡◌};
ghost use Rattle.jc_frames.specs.Frames.{next_of, in_frame};
ghost use Rattle.jc_frames.specs.ArithmeticOps.{arithmetic_instruction};

use crate::instr::ArithmeticOp;
use crate::{Cell, Exception, FrameExit, Frames, short};

/// `sadd`, `ssub`, `smul`, `sdiv`, `srem`, `sneg`, `sshl`, `sshr`, `sushr`, `sand`, `sor`, `sxor`, `s2b`:
/// computes on the shorts on top; a division by 0 throws.
#[inline(always)]
pub fn arithmetic_instruction(
    arithmetic: ArithmeticOp,
    frames: &mut Frames,
) -> Result<(), FrameExit>
    ensures { next_of result frames.new ≡ in_frame frames.old
        (arithmetic_instruction arithmetic frames.old.current) }
{
    let answer = match arithmetic {
        ArithmeticOp::Two(operation) => {
            let (x, y) = frames.pop_two_shorts()?;
            match short::compute(operation, x, y) {
                Some(answer) => answer,
                None => return Err(FrameExit::Throw(Exception::ArithmeticException)),
            }
        }
        ArithmeticOp::Negate => short::negate(frames.pop_short()?),
        ArithmeticOp::S2b => short::to_byte(frames.pop_short()?),
    };
    frames.push(Cell::Short(answer));
    Ok(())
}
