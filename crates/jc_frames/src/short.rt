//! The operations on shorts.
ghost use Rattle.std.specs.Prelude.{◌≡◌, pos, ◌+ℤ◌, ◌*ℤ◌, ◌^◌, ◌<◌, ◌≤◌};
ghost use Rattle.std.specs.Int.{w16, w32, int_wrap};
ghost use Rattle.jc_frames.specs.Short.{wrap, answer_of, negate, low_byte, compare, low_five, as_32_bits};

use crate::instr::{BinaryOp, Comparison};

/// What an operation answers, or `None` where it divides by 0.
///
/// Sums, differences, products and shifts wrap at 16 bits. A quotient is rounded toward zero, and that of
/// -32768 by -1 is -32768; a remainder has the sign of `x`. A shift is by the low five bits of `y`, of `x`
/// sign-extended to 32 bits.
#[tactic(auto, using(std::proofs::lemmas::Int::wraps))]
#[inline(always)]
pub fn compute(operation: BinaryOp, x: i16, y: i16) -> Option<i16>
    ensures { result ≡ answer_of operation x y }
{
    match operation {
        BinaryOp::Add => Some(add(x, y)),
        BinaryOp::Subtract => Some(x.wrapping_sub(y)),
        BinaryOp::Multiply => Some(x.wrapping_mul(y)),
        BinaryOp::Divide => if y == 0 {
            None
        } else {
            Some(x.wrapping_div(y))
        },
        BinaryOp::Remainder => if y == 0 {
            None
        } else {
            Some(x.wrapping_rem(y))
        },
        BinaryOp::ShiftLeft => Some(shift_left(x, shift_of(y))),
        BinaryOp::ShiftRight => Some((i32::from(x) >> shift_of(y)) as i16),
        BinaryOp::ShiftRightUnsigned => {
            Some(low_short(i64::from(i32::from(x).cast_unsigned() >> shift_of(y))))
        }
        BinaryOp::And => Some(x & y),
        BinaryOp::Or => Some(x | y),
        BinaryOp::Xor => Some(x ^ y),
    }
}

/// The sum, wrapped at 16 bits.
#[tactic(auto, using(std::proofs::lemmas::Int::wraps))]
#[inline]
pub fn add(x: i16, y: i16) -> i16
    ensures { result ≡ wrap (x +ℤ y) }
{
    x.wrapping_add(y)
}

#[inline]
fn shift_left(x: i16, by: u32) -> i16
    requires { by < 32 }
    ensures { result ≡ int_wrap w16 (x *ℤ pos (2 ^ by)) }
{
    low_short(i64::from(x) * i64::from(1u32 << by))
}

// The low five bits.
#[inline]
fn shift_of(y: i16) -> u32
    ensures value { result ≡ low_five y }
    ensures bound { result < 32 }
{
    i32::from(y).rem_euclid(32) as u32
}

// The low 16 bits, with their sign.
#[inline]
fn low_short(z: i64) -> i16
    ensures { result ≡ int_wrap w16 z }
{
    (z.rem_euclid(0x1_0000) as u16).cast_signed()
}

/// The negative, wrapped at 16 bits: that of -32768 is itself.
#[tactic(auto, using(std::proofs::lemmas::Int::wraps))]
#[inline]
pub fn negate(x: i16) -> i16
    ensures { result ≡ negate x }
{
    x.wrapping_neg()
}

/// The low byte, with its sign.
#[inline]
pub fn to_byte(x: i16) -> i16
    ensures { result ≡ low_byte x }
{
    i16::from((x.rem_euclid(0x100) as u8).cast_signed())
}

/// Whether `x` and `y` compare so.
#[inline]
pub fn compare(comparison: Comparison, x: i16, y: i16) -> bool
    ensures { result ≡ compare comparison x y }
{
    match comparison {
        Comparison::Equal => x == y,
        Comparison::NotEqual => x != y,
        Comparison::Less => x < y,
        Comparison::GreaterOrEqual => x >= y,
        Comparison::Greater => x > y,
        Comparison::LessOrEqual => x <= y,
    }
}
