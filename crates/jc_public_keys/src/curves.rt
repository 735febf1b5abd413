//! Curves that bytes describe, whatever these are.
ghost use Rattle.std.specs.Prelude.{◌≡◌, ◌≤◌, IfSome, MatchOption, false, length, true};
ghost use Rattle.jc_numbers.specs.Numbers.{number_of_bytes};
ghost use Rattle.jc_curves.specs.Curves.{AreShort};
ghost use Rattle.jc_public_keys.specs.CurveBytes.{AreNumbersOf, IsCurveOf, bits_of, bytes_of, curve_numbers, is_curve};

use jc_curves::curves::{Curve, MOST_BYTES, Parameters};
use jc_numbers::bytes::from_bytes;
use jc_numbers::comparison::bit_length;

// How many limbs hold a number of a curve.
const MOST_LIMBS: usize = 17;

// The curve that parameters with this p describe, where no byte of 0 stands before it.
fn curve_with(field: &[u8], parameters: &Parameters) -> Option<Curve>
    requires short { AreShort parameters.now }
    requires field { field.now ≡ parameters.now.field.now }
    ensures { MatchOption result (is_curve (bytes_of parameters.now) ≡ false)
        (λ c. IsCurveOf parameters.now c × (is_curve (bytes_of parameters.now) ≡ true)) }
{
    if field.is_empty() || field[0] == 0 {
        return None;
    }
    match Curve::new(parameters) {
        Ok(curve) => Some(curve),
        Err(_) => None,
    }
}

// The curve that parameters describe.
pub(crate) fn curve_of(parameters: &Parameters) -> Option<Curve>
    requires { AreShort parameters.now }
    ensures { MatchOption result (is_curve (bytes_of parameters.now) ≡ false)
        (λ c. IsCurveOf parameters.now c × (is_curve (bytes_of parameters.now) ≡ true)) }
{
    curve_with(parameters.field, parameters)
}

// The same with the cofactor 1, whatever that of the parameters is.
pub(crate) fn curve_with_numbers(parameters: &Parameters) -> Option<Curve>
    requires { AreShort parameters.now }
    ensures curve { result ≡ curve_numbers (bytes_of parameters.now) }
    ensures numbers { IfSome result (AreNumbersOf (bytes_of parameters.now)) }
{
    let simple = Parameters {
        field: parameters.field,
        a: parameters.a,
        b: parameters.b,
        generator: parameters.generator,
        order: parameters.order,
        cofactor: 1,
    };
    curve_of(&simple)
}

// How many bits a number has.
pub(crate) fn bits_of(number: &[u8]) -> usize
    requires { length number.now ≤ MOST_BYTES }
    ensures { result ≡ bits_of (number_of_bytes number.now) }
{
    let mut limbs = [0; MOST_LIMBS];
    from_bytes(&mut limbs, number);
    bit_length(&limbs)
}
