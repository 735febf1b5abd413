//! Multiples of points, by the binary method.

ghost use Rattle.std.specs.Prelude.{ℕ, ◌<◌, ◌≤◌, ◌^◌, IfSome, MatchOption, length};
ghost use Rattle.jc_numbers.specs.Moduli.{IsModulus};
ghost use Rattle.jc_numbers.specs.Numbers.{IsBitLength, value};
ghost use Rattle.jc_curves.specs.Elements.{IsElement, residue_of};
ghost use Rattle.jc_curves.specs.Jacobian.{IsAtInfinity, StandsFor};
ghost use Rattle.jc_curves.specs.Points.{IsMultiple, IsSum, IsTheMultiple, IsTheSum, Point};
ghost use Rattle.jc_curves.specs.PointValues.{AreAffine, AreElements, AreOfCurve, StandsForMultiple, TakesBit, coordinates, point_at, point_of};

use crate::elements::{Element, element_of, inverse, product};
use crate::jacobian::{Affine, Jacobian, add, double};
use crate::residues::{MOST_NUMBER_LIMBS, Number};
use jc_numbers::comparison::{bit, bit_length};
use jc_numbers::moduli::Modulus;

/// A point of a curve.
#[derive(Clone, Copy)]
pub(crate) enum CurvePoint {
    Infinity,
    At(Affine),
}

// The point at infinity, with a Z of 1.
fn infinity(field: &Modulus) -> Jacobian
    requires field { IsModulus field.now }
    requires few { length field.now ≤ 17 }
    ensures elements { AreElements field.now result }
    ensures infinite { IsAtInfinity (value field.now) (coordinates field.now result) }
{
    let mut limbs = [0; MOST_NUMBER_LIMBS];
    limbs[0] = 1;
    let one = element_of(field, &Number { limbs });
    Jacobian {
        x: one,
        y: one,
        z: one,
        infinite: true,
    }
}

// Doubles a point, and adds another where the bit is 1.
fn take_bit(field: &Modulus, a: &Element, sum: &Jacobian, bit: u32, point: &Affine) -> Jacobian
    requires a { IsElement field.now a.now.limbs }
    requires sum { AreElements field.now sum.now }
    requires bit { bit < 2 }
    requires point { AreAffine field.now point.now }
    ensures elements { AreElements field.now result }
    ensures bit { TakesBit (value field.now) (residue_of field.now a.now.limbs) (coordinates field.now sum.now) bit
        (point_at field.now point.now) (coordinates field.now result) }
{
    let twice = double(field, a, sum);
    if bit == 0 {
        return twice;
    }
    add(field, a, &twice, point)
}

// The multiple of a point by a number, in Jacobian coordinates.
fn sum_by_bits(field: &Modulus, a: &Element, scalar: &[u32], point: &Affine) -> Jacobian
    requires a { IsElement field.now a.now.limbs }
    requires scalar { length scalar.now < 2 ^ 32 }
    requires point { AreAffine field.now point.now }
    ensures elements { AreElements field.now result }
    ensures multiple { (bits : ℕ) × IsBitLength (value scalar.now) bits × StandsForMultiple (value field.now)
        (residue_of field.now a.now.limbs) (value scalar.now) bits (point_at field.now point.now) (coordinates field.now result) }
{
    let mut sum = infinity(field);
    let count = bit_length(scalar);
    'bits: for i in (0..count).rev() {
        sum = take_bit(field, a, &sum, bit(scalar, i), point);
    }
    sum
}

// The point that Jacobian coordinates stand for, or nothing where Z has no inverse.
fn affine(field: &Modulus, point: &Jacobian) -> Option<CurvePoint>
    requires { AreElements field.now point.now }
    ensures elements { IfSome result (AreOfCurve field.now) }
    ensures point { MatchOption result ((r : Point) → ¬ (StandsFor (value field.now) (coordinates field.now point.now) r))
        (λ at. StandsFor (value field.now) (coordinates field.now point.now) (point_of field.now at)) }
{
    let Some(inverse) = inverse(field, &point.z) else {
        return None;
    };
    if point.infinite {
        return Some(CurvePoint::Infinity);
    }
    let square = product(field, &inverse, &inverse);
    let cube = product(field, &square, &inverse);
    Some(CurvePoint::At(Affine {
        x: product(field, &point.x, &square),
        y: product(field, &point.y, &cube),
    }))
}

/// The multiple of a point by a number, or nothing where a denominator has no inverse.
pub(crate) fn multiple(
    field: &Modulus,
    a: &Element,
    scalar: &[u32],
    point: &Affine,
) -> Option<CurvePoint>
    requires a { IsElement field.now a.now.limbs }
    requires scalar { length scalar.now < 2 ^ 32 }
    requires point { AreAffine field.now point.now }
    ensures elements { IfSome result (AreOfCurve field.now) }
    ensures multiple { MatchOption result ((r : Point) → ¬ (IsMultiple (value field.now) (residue_of field.now a.now.limbs)
        (value scalar.now) (point_at field.now point.now) r))
        (λ at. IsTheMultiple (value field.now) (residue_of field.now a.now.limbs) (value scalar.now)
        (point_at field.now point.now) (point_of field.now at)) }
{
    affine(field, &sum_by_bits(field, a, scalar, point))
}

/// The sum of two points, or nothing where a denominator has no inverse.
pub(crate) fn sum(
    field: &Modulus,
    a: &Element,
    left: &CurvePoint,
    right: &CurvePoint,
) -> Option<CurvePoint>
    requires a { IsElement field.now a.now.limbs }
    requires left { AreOfCurve field.now left.now }
    requires right { AreOfCurve field.now right.now }
    ensures elements { IfSome result (AreOfCurve field.now) }
    ensures sum { MatchOption result ((r : Point) → ¬ (IsSum (value field.now) (residue_of field.now a.now.limbs)
        (point_of field.now left.now) (point_of field.now right.now) r))
        (λ at. IsTheSum (value field.now) (residue_of field.now a.now.limbs) (point_of field.now left.now)
        (point_of field.now right.now) (point_of field.now at)) }
{
    let CurvePoint::At(left) = left else {
        return Some(*right);
    };
    let CurvePoint::At(right) = right else {
        return Some(CurvePoint::At(*left));
    };
    let start = add(field, a, &infinity(field), left);
    affine(field, &add(field, a, &start, right))
}
