//! Points in Jacobian coordinates: doublings, and additions of affine points.

ghost use Rattle.std.specs.Prelude.{◌≡◌, ◌+◌, ◌*◌, ◌%◌, false, true};
ghost use Rattle.jc_numbers.specs.Numbers.{value};
ghost use Rattle.jc_curves.specs.Elements.{IsElement, residue_of};
ghost use Rattle.jc_curves.specs.Jacobian.{AddsPoint, AreDifferences, Doubles, IsAdded, IsDoubled, IsPlaced, IsTangentSlope};
ghost use Rattle.jc_curves.specs.PointValues.{AreAffine, AreElements, coordinates, point_at};

use crate::elements::{Element, difference, is_zero, product, sum, twice};
use jc_numbers::moduli::Modulus;

/// A point that is not at infinity.
#[derive(Clone, Copy)]
pub(crate) struct Affine {
    pub(crate) x: Element,
    pub(crate) y: Element,
}

/// A point in Jacobian coordinates, or the point at infinity, which has a Z too.
#[derive(Clone, Copy)]
pub(crate) struct Jacobian {
    pub(crate) x: Element,
    pub(crate) y: Element,
    pub(crate) z: Element,
    pub(crate) infinite: bool,
}

// The differences of a point and one that is added to it.
#[derive(Clone, Copy)]
struct Differences {
    x: Element,
    y: Element,
}

// 3 X² + a Z⁴.
fn tangent(field: &Modulus, a: &Element, point: &Jacobian) -> Element
    requires a { IsElement field.now a.now.limbs }
    requires point { AreElements field.now point.now }
    ensures element { IsElement field.now result.limbs }
    ensures slope { IsTangentSlope (value field.now) (residue_of field.now a.now.limbs) (coordinates field.now point.now)
        (residue_of field.now result.limbs) }
{
    let square = product(field, &point.x, &point.x);
    let double = twice(field, &square);
    let three = sum(field, &square, &double);
    let z_square = product(field, &point.z, &point.z);
    let z_fourth = product(field, &z_square, &z_square);
    let last = product(field, a, &z_fourth);
    sum(field, &three, &last)
}

// The y of a line's point: slope (start_x - x) - start_y.
fn on_line(
    field: &Modulus,
    slope: &Element,
    start_x: &Element,
    start_y: &Element,
    x: &Element,
) -> Element
    requires slope { IsElement field.now slope.now.limbs }
    requires start_x { IsElement field.now start_x.now.limbs }
    requires start_y { IsElement field.now start_y.now.limbs }
    requires x { IsElement field.now x.now.limbs }
    ensures element { IsElement field.now result.limbs }
    ensures y { (residue_of field.now result.limbs + residue_of field.now slope.now.limbs * residue_of field.now x.now.limbs
        + residue_of field.now start_y.now.limbs) % value field.now
        ≡ (residue_of field.now slope.now.limbs * residue_of field.now start_x.now.limbs) % value field.now }
{
    let along = difference(field, start_x, x);
    let rise = product(field, slope, &along);
    difference(field, &rise, start_y)
}

// 4 X Y², of the square of Y.
fn middle_of(field: &Modulus, point: &Jacobian, square: &Element) -> Element
    requires point { AreElements field.now point.now }
    requires square { IsElement field.now square.now.limbs }
    ensures element { IsElement field.now result.limbs }
    ensures middle { residue_of field.now result.limbs % value field.now
        ≡ (4 * (residue_of field.now point.now.x.limbs * residue_of field.now square.now.limbs)) % value field.now }
{
    let along = product(field, &point.x, square);
    let double = twice(field, &along);
    twice(field, &double)
}

// Eight times the square of an element.
fn eight_squares(field: &Modulus, square: &Element) -> Element
    requires { IsElement field.now square.now.limbs }
    ensures element { IsElement field.now result.limbs }
    ensures eight { residue_of field.now result.limbs % value field.now
        ≡ (8 * (residue_of field.now square.now.limbs * residue_of field.now square.now.limbs)) % value field.now }
{
    let fourth = product(field, square, square);
    let double = twice(field, &fourth);
    let quadruple = twice(field, &double);
    twice(field, &quadruple)
}

// Twice a point of which y is not 0.
fn doubled(field: &Modulus, a: &Element, point: &Jacobian) -> Jacobian
    requires a { IsElement field.now a.now.limbs }
    requires point { AreElements field.now point.now }
    ensures elements { AreElements field.now result }
    ensures doubled { IsDoubled (value field.now) (residue_of field.now a.now.limbs) (coordinates field.now point.now)
        (coordinates field.now result) }
{
    let slope = tangent(field, a, point);
    let square = product(field, &point.y, &point.y);
    let middle = middle_of(field, point, &square);
    let last = eight_squares(field, &square);
    let both = twice(field, &middle);
    let slope_square = product(field, &slope, &slope);
    let x = difference(field, &slope_square, &both);
    let along = product(field, &point.y, &point.z);
    Jacobian {
        x,
        y: on_line(field, &slope, &middle, &last, &x),
        z: twice(field, &along),
        infinite: false,
    }
}

// The point at infinity, with the Z of another point.
fn made_infinite(point: &Jacobian) -> Jacobian
    ensures { result ≡ record point.now { infinite = true } }
{
    Jacobian {
        infinite: true,
        x: point.x,
        y: point.y,
        z: point.z,
    }
}

/// Twice a point.
pub(crate) fn double(field: &Modulus, a: &Element, point: &Jacobian) -> Jacobian
    requires a { IsElement field.now a.now.limbs }
    requires point { AreElements field.now point.now }
    ensures elements { AreElements field.now result }
    ensures doubled { Doubles (value field.now) (residue_of field.now a.now.limbs) (coordinates field.now point.now)
        (coordinates field.now result) }
{
    if point.infinite {
        return made_infinite(point);
    }
    if is_zero(field, &point.y) {
        return made_infinite(point);
    }
    doubled(field, a, point)
}

// An affine point in Jacobian coordinates of this Z.
fn placed(field: &Modulus, point: &Affine, z: &Element) -> Jacobian
    requires point { AreAffine field.now point.now }
    requires z { IsElement field.now z.now.limbs }
    ensures elements { AreElements field.now result }
    ensures placed { IsPlaced (value field.now) (residue_of field.now z.now.limbs) (residue_of field.now point.now.x.limbs)
        (residue_of field.now point.now.y.limbs) (coordinates field.now result) }
{
    let square = product(field, z, z);
    let cube = product(field, &square, z);
    Jacobian {
        x: product(field, &point.x, &square),
        y: product(field, &point.y, &cube),
        z: *z,
        infinite: false,
    }
}

// x Z² - X and y Z³ - Y.
fn differences_to(field: &Modulus, point: &Jacobian, other: &Affine) -> Differences
    requires point { AreElements field.now point.now }
    requires other { AreAffine field.now other.now }
    ensures x { IsElement field.now result.x.limbs }
    ensures y { IsElement field.now result.y.limbs }
    ensures differences { AreDifferences (value field.now) (coordinates field.now point.now) (residue_of field.now other.now.x.limbs)
        (residue_of field.now other.now.y.limbs) (residue_of field.now result.x.limbs) (residue_of field.now result.y.limbs) }
{
    let square = product(field, &point.z, &point.z);
    let cube = product(field, &square, &point.z);
    let other_x = product(field, &other.x, &square);
    let other_y = product(field, &other.y, &cube);
    Differences {
        x: difference(field, &other_x, &point.x),
        y: difference(field, &other_y, &point.y),
    }
}

// The sum of a point and one that is neither the same nor the opposite.
fn added(field: &Modulus, point: &Jacobian, by: &Differences) -> Jacobian
    requires point { AreElements field.now point.now }
    requires x { IsElement field.now by.now.x.limbs }
    requires y { IsElement field.now by.now.y.limbs }
    ensures elements { AreElements field.now result }
    ensures added { IsAdded (value field.now) (coordinates field.now point.now) (residue_of field.now by.now.x.limbs)
        (residue_of field.now by.now.y.limbs) (coordinates field.now result) }
{
    let square = product(field, &by.x, &by.x);
    let cube = product(field, &square, &by.x);
    let start_x = product(field, &point.x, &square);
    let start_y = product(field, &point.y, &cube);
    let double = twice(field, &start_x);
    let ends = sum(field, &cube, &double);
    let slope_square = product(field, &by.y, &by.y);
    let x = difference(field, &slope_square, &ends);
    Jacobian {
        x,
        y: on_line(field, &by.y, &start_x, &start_y, &x),
        z: product(field, &point.z, &by.x),
        infinite: false,
    }
}

// The sum of a point that is not at infinity and another.
fn add_finite(field: &Modulus, a: &Element, point: &Jacobian, other: &Affine) -> Jacobian
    requires a { IsElement field.now a.now.limbs }
    requires point { AreElements field.now point.now }
    requires other { AreAffine field.now other.now }
    requires finite { point.now.infinite ≡ false }
    ensures elements { AreElements field.now result }
    ensures added { AddsPoint (value field.now) (residue_of field.now a.now.limbs) (coordinates field.now point.now)
        (point_at field.now other.now) (coordinates field.now result) }
{
    let by = differences_to(field, point, other);
    if is_zero(field, &by.x) {
        if is_zero(field, &by.y) {
            return double(field, a, point);
        }
        let other_y = sum(field, &by.y, &point.y);
        let total = sum(field, &other_y, &point.y);
        if is_zero(field, &total) {
            return made_infinite(point);
        }
    }
    added(field, point, &by)
}

/// The sum of a point and an affine point.
pub(crate) fn add(field: &Modulus, a: &Element, point: &Jacobian, other: &Affine) -> Jacobian
    requires a { IsElement field.now a.now.limbs }
    requires point { AreElements field.now point.now }
    requires other { AreAffine field.now other.now }
    ensures elements { AreElements field.now result }
    ensures added { AddsPoint (value field.now) (residue_of field.now a.now.limbs) (coordinates field.now point.now)
        (point_at field.now other.now) (coordinates field.now result) }
{
    if point.infinite {
        return placed(field, other, &point.z);
    }
    add_finite(field, a, point, other)
}
