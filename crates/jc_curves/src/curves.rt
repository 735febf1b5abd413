//! Curves: the numbers that describe one, checked and prepared.

ghost use Rattle.std.specs.Prelude.{◌≡◌, ◌≤◌, ◌<◌, ◌↔◌, IsTrue, MatchOption, MatchResult, length};
ghost use Rattle.jc_numbers.specs.Moduli.{IsModulus};
ghost use Rattle.jc_numbers.specs.Numbers.{number_of_bytes, value};
ghost use Rattle.jc_curves.specs.Curves.{AreShort, DescribeNone, IsDescribedBy, IsFieldNumber, octets};
ghost use Rattle.jc_curves.specs.Elements.{IsElement, residue_of};

use crate::elements::{Element, element_of};
use crate::encodings::decoded;
use crate::jacobian::Affine;
use crate::residues::{Number, is_below, modulus, number_of};
use jc_numbers::comparison::bit_length;
use jc_numbers::moduli::Modulus;
use std::marker::Model;

/// How many bytes a number of a curve has at most: those of P-521 have 66.
pub const MOST_BYTES: usize = 66;

/// The numbers that describe a curve (SEC 1, 3.1.1), the highest byte first, each of at most 66 bytes.
#[derive(Clone, Copy)]
pub struct Parameters<'a> {
    /// The number p of elements of the field.
    pub field: &'a [u8],
    /// The coefficients of y² = x³ + a x + b.
    pub a: &'a [u8],
    pub b: &'a [u8],
    /// The base point G: 04, x and y, each in as many bytes as p has.
    pub generator: &'a [u8],
    /// The order n of the base point.
    pub order: &'a [u8],
    /// The cofactor h.
    pub cofactor: u32,
}

/// Why numbers describe no curve.
#[derive(Clone, Copy, Debug, PartialEq, Eq)]
pub enum CurveRefusal {
    /// A number has more than 66 bytes.
    Long,
    /// p is even, or at most 3.
    Field,
    /// a or b is not below p.
    Coefficient,
    /// G is not encoded as it must be, or is no point of the curve.
    Generator,
    /// n is even, or 1.
    Order,
}

/// A curve, prepared. Contracts see its numbers.
#[derive(Drop)]
pub struct Curve {
    pub(crate) field: Modulus,
    pub(crate) order: Modulus,
    pub(crate) a: Element,
    pub(crate) b: Element,
    pub(crate) generator: Affine,
    pub(crate) cofactor: u32,
    pub(crate) field_bits: usize,
    pub(crate) order_bits: usize,
}

impl Model for Curve {
    ghost use Rattle.jc_curves.specs.Curves.{CurveNumbers, IsPreparedCurve, numbers_of};

    ghost Value = { CurveNumbers };

    ghost view = { λ c. numbers_of c.field c.order c.a c.b c.generator c.cofactor c.field_bits c.order_bits };

    ghost invariant = { λ c. IsPreparedCurve c.field c.order c.a c.b c.generator c.field_bits c.order_bits };
}

// An element that is given by bytes, where it is below the modulus.
pub(crate) fn element_of_bytes(field: &Modulus, bytes: &[u8]) -> Option<Element>
    requires bytes { length bytes.now ≤ 66 }
    requires field { IsModulus field.now }
    requires few { length field.now ≤ 17 }
    ensures { MatchOption result (¬ (number_of_bytes bytes.now < value field.now))
        (λ a. IsElement field.now a.limbs × (residue_of field.now a.limbs ≡ number_of_bytes bytes.now)
        × (number_of_bytes bytes.now < value field.now)) }
{
    let residue = number_of(bytes);
    if is_below(&residue, field) {
        Some(element_of(field, &residue))
    } else {
        None
    }
}

// The field's modulus.
fn field_of(number: &Number) -> Option<Modulus>
    ensures { MatchOption result (¬ (IsFieldNumber (value number.now.limbs)))
        (λ m. IsModulus m × (value m ≡ value number.now.limbs) × (length m ≤ 17) × (3 < value m)) }
{
    if bit_length(&number.limbs) < 3 {
        return None;
    }
    modulus(number)
}

fn is_long(parameters: &Parameters) -> bool
    ensures { IsTrue result ↔ ¬ (AreShort parameters.now) }
{
    parameters.field.len() > MOST_BYTES
        || parameters.a.len() > MOST_BYTES
        || parameters.b.len() > MOST_BYTES
        || parameters.order.len() > MOST_BYTES
}

impl Curve {
    /// Takes a curve in. That p and n are primes, and that n is the order of G, is not tested.
    pub fn new(parameters: &Parameters) -> Result<Curve, CurveRefusal>
        ensures { MatchResult result (IsDescribedBy parameters.now) (DescribeNone parameters.now) }
    {
        if is_long(parameters) {
            return Err(CurveRefusal::Long);
        }
        let field_number = number_of(parameters.field);
        let Some(field) = field_of(&field_number) else {
            return Err(CurveRefusal::Field);
        };
        let Some(a) = element_of_bytes(&field, parameters.a) else {
            return Err(CurveRefusal::Coefficient);
        };
        let Some(b) = element_of_bytes(&field, parameters.b) else {
            return Err(CurveRefusal::Coefficient);
        };
        let field_bits = bit_length(&field_number.limbs);
        let Some(generator) = decoded(&field, &a, &b, field_bits.div_ceil(8), parameters.generator)
        else {
            return Err(CurveRefusal::Generator);
        };
        let order_number = number_of(parameters.order);
        let Some(order) = modulus(&order_number) else {
            return Err(CurveRefusal::Order);
        };
        Ok(Curve {
            field,
            order,
            a,
            b,
            generator,
            cofactor: parameters.cofactor,
            field_bits,
            order_bits: bit_length(&order_number.limbs),
        })
    }

    /// How many bytes a coordinate has: as many as p needs.
    pub fn field_length(&self) -> usize
        ensures length { result ≡ octets self.now.p_bits }
        ensures few { result ≤ MOST_BYTES }
    {
        self.field_bits.div_ceil(8)
    }

    /// How many bytes a private key, and each number of a signature, has: as many as n needs.
    pub fn order_length(&self) -> usize
        ensures length { result ≡ octets self.now.n_bits }
        ensures few { result ≤ MOST_BYTES }
    {
        self.order_bits.div_ceil(8)
    }
}
