//! Locals: `aload`, `sload`, `astore`, `sstore`, `sinc` and their other forms.
ghost use Rattle.std.specs.Prelude.{◌≡◌};
ghost use Rattle.jc_frames.specs.Frames.{in_frame, unless_fault};
ghost use Rattle.jc_frames.specs.LocalOps.{local_instruction};

use crate::instr::LocalOp;
use crate::{Cell, CodeFault, Frames, short};

/// `aload`, `sload`, `aload_0`, `aload_1`, `aload_2`, `aload_3`, `sload_0`, `sload_1`, `sload_2`, `sload_3`,
/// `astore`, `sstore`, `astore_0`, `astore_1`, `astore_2`, `astore_3`, `sstore_0`, `sstore_1`, `sstore_2`,
/// `sstore_3`, `sinc`, `sinc_w`: reads, writes or increments a local.
#[inline(always)]
pub fn local_instruction(local: LocalOp, frames: &mut Frames) -> Result<(), CodeFault>
    ensures { unless_fault result frames.new ≡ in_frame frames.old
        (local_instruction local frames.old.current) }
{
    match local {
        LocalOp::Aload(n) => {
            let r = frames.local_reference(n)?;
            frames.try_push(Cell::Reference(r))
        }
        LocalOp::Sload(n) => {
            let x = frames.local_short(n)?;
            frames.try_push(Cell::Short(x))
        }
        LocalOp::Astore(n) => {
            let cell = frames.pop_storable()?;
            frames.store(n, cell)
        }
        LocalOp::Sstore(n) => {
            let x = frames.pop_short()?;
            frames.store(n, Cell::Short(x))
        }
        LocalOp::Sinc(n, by) => {
            let x = frames.local_short(n)?;
            frames.store(n, Cell::Short(short::add(x, by)))
        }
    }
}
