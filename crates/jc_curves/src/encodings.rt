//! Points as bytes (SEC 1, 2.3.3 and 2.3.4), uncompressed: 04, x and y.

ghost use Rattle.std.specs.Prelude.{◌≡◌, ◌≤◌, ◌+◌, ◌*◌, ◌^◌, ◌↔◌, ℕ, IsTrue, MatchOption, length};
ghost use Rattle.jc_numbers.specs.Numbers.{value};
ghost use Rattle.jc_curves.specs.Curves.{IsEncodedPoint, IsPoint};
ghost use Rattle.jc_curves.specs.Elements.{IsElement, residue_of};
ghost use Rattle.jc_curves.specs.Points.{IsOnCurve};
ghost use Rattle.jc_curves.specs.PointValues.{AreAffine};

use crate::curves::element_of_bytes;
use crate::elements::{Element, difference, is_zero, product, residue, sum};
use crate::jacobian::Affine;
use crate::residues::write;
use jc_numbers::moduli::Modulus;

/// The first byte of an uncompressed point.
pub(crate) const UNCOMPRESSED: u8 = 0x04;

// Whether y² = x³ + a x + b.
fn is_on_curve(field: &Modulus, a: &Element, b: &Element, point: &Affine) -> bool
    requires a { IsElement field.now a.now.limbs }
    requires b { IsElement field.now b.now.limbs }
    requires point { AreAffine field.now point.now }
    ensures { IsTrue result ↔ IsOnCurve (value field.now) (residue_of field.now a.now.limbs) (residue_of field.now b.now.limbs)
        (residue_of field.now point.now.x.limbs) (residue_of field.now point.now.y.limbs) }
{
    let square = product(field, &point.x, &point.x);
    let cubic = sum(field, &product(field, &sum(field, &square, a), &point.x), b);
    is_zero(
        field,
        &difference(field, &product(field, &point.y, &point.y), &cubic),
    )
}

// A point that is given by bytes, where it is on the curve.
pub(crate) fn decoded(
    field: &Modulus,
    a: &Element,
    b: &Element,
    size: usize,
    bytes: &[u8],
) -> Option<Affine>
    requires size { size ≤ 66 }
    requires a { IsElement field.now a.now.limbs }
    requires b { IsElement field.now b.now.limbs }
    ensures { MatchOption result ((x y : ℕ) → ¬ (IsPoint (value field.now) (residue_of field.now a.now.limbs)
        (residue_of field.now b.now.limbs) size x y bytes.now))
        (λ q. AreAffine field.now q × IsPoint (value field.now) (residue_of field.now a.now.limbs)
        (residue_of field.now b.now.limbs) size (residue_of field.now q.x.limbs) (residue_of field.now q.y.limbs) bytes.now) }
{
    if bytes.len() != 1 + 2 * size || bytes[0] != UNCOMPRESSED {
        return None;
    }
    let Some(x) = element_of_bytes(field, &bytes[1..1 + size]) else {
        return None;
    };
    let Some(y) = element_of_bytes(field, &bytes[1 + size..]) else {
        return None;
    };
    let point = Affine { x, y };
    if is_on_curve(field, a, b, &point) {
        Some(point)
    } else {
        None
    }
}

// Writes a point.
pub(crate) fn encode(field: &Modulus, point: &Affine, to: &mut [u8], size: usize)
    requires point { AreAffine field.now point.now }
    requires to { length to.old ≡ 1 + 2 * size }
    requires fits { value field.now ≤ 256 ^ size }
    ensures { IsEncodedPoint size (residue_of field.now point.now.x.limbs) (residue_of field.now point.now.y.limbs) to.new }
{
    to[0] = UNCOMPRESSED;
    write(&mut to[1..1 + size], &residue(field, &point.x));
    write(&mut to[1 + size..], &residue(field, &point.y));
}
