//! Multiples of points, as bytes.

ghost use Rattle.std.specs.Prelude.{◌≡◌, ◌≤◌, ◌<◌, ◌+◌, ◌*◌, ◌^◌, ◌↔◌, ℕ, IsTrue, MatchResult, length};
ghost use Rattle.jc_numbers.specs.Numbers.{number_of_bytes, value};
ghost use Rattle.jc_curves.specs.Calls.{HasNoCoordinates, IsBelowOrder, IsPublicKey, IsWrittenMultiple, RefusesMultiple, RefusesPublicKey};
ghost use Rattle.jc_curves.specs.Curves.{IsEncodedPoint, octets};
ghost use Rattle.jc_curves.specs.Elements.{IsElement, residue_of};
ghost use Rattle.jc_curves.specs.Points.{At, IsTheMultiple};
ghost use Rattle.jc_curves.specs.PointValues.{AreAffine, point_at};

use crate::curves::Curve;
use crate::elements::Element;
use crate::encodings::{decoded, encode};
use crate::jacobian::Affine;
use crate::multiples::{self, CurvePoint};
use crate::residues::{Number, is_below, number_of};
use jc_numbers::comparison::is_zero;
use jc_numbers::moduli::Modulus;

/// Why a point is not computed.
#[derive(Clone, Copy, Debug, PartialEq, Eq)]
pub enum PointRefusal {
    /// The private key is 0, or not below n.
    PrivateKey,
    /// The bytes are not 04, x and y of a point of the curve.
    NotAPoint,
    /// The multiple is the point at infinity, which has no coordinates.
    Infinity,
    /// A denominator has no inverse modulo p: p is no prime.
    NotAField,
}

// The coordinates of a multiple.
pub(crate) fn finite_multiple(
    field: &Modulus,
    a: &Element,
    scalar: &[u32],
    point: &Affine,
) -> Result<Affine, PointRefusal>
    requires a { IsElement field.now a.now.limbs }
    requires scalar { length scalar.now < 2 ^ 32 }
    requires point { AreAffine field.now point.now }
    ensures { MatchResult result
        (λ at. AreAffine field.now at × IsTheMultiple (value field.now) (residue_of field.now a.now.limbs) (value scalar.now)
        (point_at field.now point.now) (point_at field.now at))
        (HasNoCoordinates (value field.now) (residue_of field.now a.now.limbs) (value scalar.now)
        (point_at field.now point.now)) }
{
    match multiples::multiple(field, a, scalar, point) {
        None => Err(PointRefusal::NotAField),
        Some(CurvePoint::Infinity) => Err(PointRefusal::Infinity),
        Some(CurvePoint::At(at)) => Ok(at),
    }
}

// Writes the multiple of a point: 04, x and y.
fn write_multiple(
    field: &Modulus,
    a: &Element,
    scalar: &Number,
    point: &Affine,
    to: &mut [u8],
    size: usize,
) -> Result<(), PointRefusal>
    requires a { IsElement field.now a.now.limbs }
    requires point { AreAffine field.now point.now }
    requires to { length to.old ≡ 1 + 2 * size }
    requires fits { value field.now ≤ 256 ^ size }
    ensures { MatchResult result
        (λ _. (u : ℕ) × (v : ℕ) × IsTheMultiple (value field.now) (residue_of field.now a.now.limbs) (value scalar.now.limbs)
        (point_at field.now point.now) (At u v) × IsEncodedPoint size u v to.new)
        (HasNoCoordinates (value field.now) (residue_of field.now a.now.limbs) (value scalar.now.limbs)
        (point_at field.now point.now)) }
{
    let at = finite_multiple(field, a, &scalar.limbs, point)?;
    encode(field, &at, to, size);
    Ok(())
}

/// Writes the multiple of a point by a number of at most 66 bytes: 04, x and y.
pub fn multiple(
    curve: &Curve,
    scalar: &[u8],
    point: &[u8],
    to: &mut [u8],
) -> Result<(), PointRefusal>
    requires scalar { length scalar.now ≤ 66 }
    requires to { length to.old ≡ 1 + 2 * octets curve.now.p_bits }
    ensures { MatchResult result (λ _. IsWrittenMultiple curve.now (number_of_bytes scalar.now) point.now to.new)
        (RefusesMultiple curve.now (number_of_bytes scalar.now) point.now) }
{
    let size = curve.field_length();
    let Some(point) = decoded(&curve.field, &curve.a, &curve.b, size, point) else {
        return Err(PointRefusal::NotAPoint);
    };
    write_multiple(&curve.field, &curve.a, &number_of(scalar), &point, to, size)
}

/// Writes the public key of a private one: the multiple of the base point by it.
pub fn public_point(curve: &Curve, private: &[u8], to: &mut [u8]) -> Result<(), PointRefusal>
    requires private { length private.now ≤ 66 }
    requires to { length to.old ≡ 1 + 2 * octets curve.now.p_bits }
    ensures { MatchResult result (λ _. IsPublicKey curve.now (number_of_bytes private.now) to.new)
        (RefusesPublicKey curve.now (number_of_bytes private.now)) }
{
    let key = number_of(private);
    if !is_in_order(curve, &key) {
        return Err(PointRefusal::PrivateKey);
    }
    let size = curve.field_length();
    write_multiple(&curve.field, &curve.a, &key, &curve.generator, to, size)
}

// Whether a number is from 1 to n - 1.
pub(crate) fn is_in_order(curve: &Curve, number: &Number) -> bool
    ensures { IsTrue result ↔ IsBelowOrder curve.now (value number.now.limbs) }
{
    !is_zero(&number.limbs) && is_below(number, &curve.order)
}
