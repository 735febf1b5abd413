//! What methods return.
ghost use Rattle.std.specs.Prelude.{◌≡◌};
ghost use Rattle.jc_world.specs.Answers.{bool_value, short_value};

use crate::NativeResult;
use jc_frames::Cell;

/// A number, as a method returns it.
pub fn short(value: i16) -> NativeResult
    ensures { result ≡ short_value value }
{
    NativeResult::ReturnValue(Cell::Short(value))
}

/// A boolean, as a method returns it.
pub fn boolean(value: bool) -> NativeResult
    ensures { result ≡ bool_value value }
{
    NativeResult::ReturnValue(Cell::Short(i16::from(value)))
}
