//! Constants: `aconst_null`, `sconst_m1` to `sconst_5`, `bspush`, `sspush`.
ghost use Rattle.std.specs.Prelude.{◌≡◌};
ghost use Rattle.jc_frames.specs.Frames.{in_frame, unless_fault};
ghost use Rattle.jc_frames.specs.ConstantOps.{constant_instruction};

use crate::instr::ConstantOp;
use crate::{Cell, CodeFault, Frames};
use jc_transient::Ref;

/// `aconst_null`, `sconst_m1`, `sconst_0`, `sconst_1`, `sconst_2`, `sconst_3`, `sconst_4`, `sconst_5`,
/// `bspush`, `sspush`: pushes a constant.
#[inline(always)]
pub fn constant_instruction(constant: ConstantOp, frames: &mut Frames) -> Result<(), CodeFault>
    ensures { unless_fault result frames.new ≡ in_frame frames.old
        (constant_instruction constant frames.old.current) }
{
    match constant {
        ConstantOp::Null => frames.try_push(Cell::Reference(Ref::null())),
        ConstantOp::Number(v) => frames.try_push(Cell::Short(v)),
    }
}
