//! Arguments of a call.
ghost use Rattle.std.specs.Prelude.{◌≡◌};
ghost use Rattle.jc_frames.specs.Cell.{result_or_none};
ghost use Rattle.jc_world.specs.Objects.{short_argument, reference_argument};

use jc_frames::{Cell, CodeFault};
use jc_transient::Ref;

/// The short at a place among the arguments.
#[inline(always)]
pub fn short_argument(args: &[Cell], place: usize) -> Result<i16, CodeFault>
    ensures { result_or_none result ≡ short_argument args.now place }
{
    match args.get(place).copied().ok_or(CodeFault)? {
        Cell::Short(value) => Ok(value),
        _ => Err(CodeFault),
    }
}

/// The reference at a place among the arguments.
#[inline(always)]
pub fn reference_argument(args: &[Cell], place: usize) -> Result<Ref, CodeFault>
    ensures { result_or_none result ≡ reference_argument args.now place }
{
    match args.get(place).copied().ok_or(CodeFault)? {
        Cell::Reference(reference) => Ok(reference),
        _ => Err(CodeFault),
    }
}
