//! Diffie and Hellman's key agreement (SEC 1, 3.3): the shared secret is the x of a multiple of the other's public key.

ghost use Rattle.std.specs.Prelude.{◌≡◌, ◌≤◌, ◌<◌, ◌^◌, ℕ, MatchResult, length};
ghost use Rattle.jc_numbers.specs.Numbers.{number_of_bytes, value};
ghost use Rattle.jc_curves.specs.Calls.{HasNoCoordinates, IsSharedSecret, RefusesSecret};
ghost use Rattle.jc_curves.specs.Curves.{octets};
ghost use Rattle.jc_curves.specs.Elements.{IsElement, residue_of};
ghost use Rattle.jc_curves.specs.Points.{At, IsTheMultiple};
ghost use Rattle.jc_curves.specs.PointValues.{AreAffine, point_at};

use crate::curves::Curve;
use crate::elements::{Element, residue};
use crate::encodings::decoded;
use crate::jacobian::Affine;
use crate::points::{PointRefusal, finite_multiple, is_in_order};
use crate::residues::{MOST_NUMBER_LIMBS, number_of, write};
use jc_numbers::moduli::Modulus;
use jc_numbers::products::multiply;

// Writes the x of a multiple.
fn write_x(
    field: &Modulus,
    a: &Element,
    scalar: &[u32],
    point: &Affine,
    to: &mut [u8],
) -> Result<(), PointRefusal>
    requires a { IsElement field.now a.now.limbs }
    requires scalar { length scalar.now < 2 ^ 32 }
    requires point { AreAffine field.now point.now }
    requires fits { value field.now ≤ 256 ^ length to.old }
    ensures { MatchResult result
        (λ _. (u : ℕ) × (v : ℕ) × IsTheMultiple (value field.now) (residue_of field.now a.now.limbs) (value scalar.now)
        (point_at field.now point.now) (At u v) × (number_of_bytes to.new ≡ u))
        (HasNoCoordinates (value field.now) (residue_of field.now a.now.limbs) (value scalar.now)
        (point_at field.now point.now)) }
{
    let at = finite_multiple(field, a, scalar, point)?;
    write(to, &residue(field, &at.x));
    Ok(())
}

// The shared secret by the private key times a factor.
fn agree_by(
    curve: &Curve,
    private: &[u8],
    factor: u32,
    public: &[u8],
    to: &mut [u8],
) -> Result<(), PointRefusal>
    requires private { length private.now ≤ 66 }
    requires to { length to.old ≡ octets curve.now.p_bits }
    ensures { MatchResult result (λ _. IsSharedSecret curve.now (number_of_bytes private.now) factor public.now to.new)
        (RefusesSecret curve.now (number_of_bytes private.now) factor public.now) }
{
    let key = number_of(private);
    if !is_in_order(curve, &key) {
        return Err(PointRefusal::PrivateKey);
    }
    let Some(point) = decoded(&curve.field, &curve.a, &curve.b, to.len(), public) else {
        return Err(PointRefusal::NotAPoint);
    };
    let mut scalar = [0; MOST_NUMBER_LIMBS + 1];
    multiply(&mut scalar, &key.limbs, &[factor]);
    write_x(&curve.field, &curve.a, &scalar, &point, to)
}

/// Writes the shared secret of a private key and another's public one (SEC 1, 3.3.1), in as many bytes as p needs.
pub fn agree(
    curve: &Curve,
    private: &[u8],
    public: &[u8],
    to: &mut [u8],
) -> Result<(), PointRefusal>
    requires private { length private.now ≤ 66 }
    requires to { length to.old ≡ octets curve.now.p_bits }
    ensures { MatchResult result (λ _. IsSharedSecret curve.now (number_of_bytes private.now) 1 public.now to.new)
        (RefusesSecret curve.now (number_of_bytes private.now) 1 public.now) }
{
    agree_by(curve, private, 1, public, to)
}

/// Writes the shared secret with the cofactor (SEC 1, 3.3.2): of the multiple by the private key times the cofactor.
pub fn agree_by_cofactor(
    curve: &Curve,
    private: &[u8],
    public: &[u8],
    to: &mut [u8],
) -> Result<(), PointRefusal>
    requires private { length private.now ≤ 66 }
    requires to { length to.old ≡ octets curve.now.p_bits }
    ensures { MatchResult result (λ _. IsSharedSecret curve.now (number_of_bytes private.now) curve.now.h public.now to.new)
        (RefusesSecret curve.now (number_of_bytes private.now) curve.now.h public.now) }
{
    agree_by(curve, private, curve.cofactor, public, to)
}
