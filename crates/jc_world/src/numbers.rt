//! Numbers as arguments.
ghost use Rattle.std.specs.Prelude.{◌≡◌};
ghost use Rattle.jc_world.specs.Numbers.{not_negative};

/// The number; `None` where it is negative.
#[inline(always)]
pub fn not_negative(number: i16) -> Option<u16>
    ensures { result ≡ not_negative number }
{
    if number < 0 {
        None
    } else {
        Some(number.cast_unsigned())
    }
}
