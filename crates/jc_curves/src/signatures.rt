//! ECDSA (SEC 1, 4.1; FIPS 186-4, 6).

ghost use Rattle.std.specs.Prelude.{◌≡◌, ◌≤◌, ◌<◌, ◌+◌, ◌*◌, ◌%◌, ◌↔◌, ℕ, IfSome, IsTrue, MatchOption, MatchResult, length};
ghost use Rattle.jc_numbers.specs.Inverses.{HasInverse, IsInverse};
ghost use Rattle.jc_numbers.specs.Moduli.{IsModulus};
ghost use Rattle.jc_numbers.specs.Numbers.{number_of_bytes, value};
ghost use Rattle.jc_curves.specs.Calls.{AreFactors, AreVerifiable, HasX, IsBelowOrder, IsPointOf, IsSignature, IsSumOfMultiples, IsTheSumOfMultiples, IsVerified, RefusesSignature, digest_number};
ghost use Rattle.jc_curves.specs.Curves.{octets};
ghost use Rattle.jc_curves.specs.Elements.{IsElement, residue_of};
ghost use Rattle.jc_curves.specs.Points.{At, IsMultiple, IsTheMultiple, Point};
ghost use Rattle.jc_curves.specs.PointValues.{AreAffine, AreOfCurve, point_at, point_of};

use crate::curves::Curve;
use crate::elements::{Element, element_of, inverse, product, residue, sum};
use crate::encodings::decoded;
use crate::jacobian::Affine;
use crate::multiples::{CurvePoint, multiple, sum as sum_of_points};
use crate::points::{finite_multiple, is_in_order};
use crate::residues::{Number, halved, number_of, reduced, write};
use jc_numbers::comparison::{compare, is_zero};
use jc_numbers::moduli::Modulus;

/// Why a message is not signed.
#[derive(Clone, Copy, Debug, PartialEq, Eq)]
pub enum SignatureRefusal {
    /// The private key is 0, or not below n.
    PrivateKey,
    /// The number k of a signature is 0, not below n, or one by which r or s would be 0, or for which there is no s: take another.
    Nonce,
}

// r and s.
#[derive(Clone, Copy)]
struct Signature {
    r: Number,
    s: Number,
}

// What the points of a verification are multiplied by, and what x has to be.
#[derive(Clone, Copy)]
struct Factors {
    generator: Number,
    key: Number,
    r: Number,
}

// The number of a digest: its leftmost bits, as many as n has.
fn number_of_digest(digest: &[u8], bits: usize) -> Number
    requires { bits ≤ 528 }
    ensures { value result.limbs ≡ digest_number bits digest.now }
{
    let size = bits.div_ceil(8);
    if digest.len() < size {
        return number_of(digest);
    }
    let front = number_of(&digest[..size]);
    halved(&front, (8 * size - bits) as u32)
}

// A number as an element modulo n.
fn in_order(order: &Modulus, number: &Number) -> Element
    requires order { IsModulus order.now }
    requires few { length order.now ≤ 17 }
    ensures element { IsElement order.now result.limbs }
    ensures residue { residue_of order.now result.limbs ≡ value number.now.limbs % value order.now }
{
    element_of(order, &reduced(number, order))
}

// The product of a number and an element modulo n.
fn product_in_order(order: &Modulus, number: &Number, by: &Element) -> Number
    requires by { IsElement order.now by.now.limbs }
    ensures { value result.limbs ≡ (value number.now.limbs * residue_of order.now by.now.limbs) % value order.now }
{
    let element = in_order(order, number);
    residue(order, &product(order, &element, by))
}

// e + r d modulo n.
fn signed_sum(order: &Modulus, key: &Number, e: &Number, r: &Number) -> Element
    requires order { IsModulus order.now }
    requires few { length order.now ≤ 17 }
    ensures element { IsElement order.now result.limbs }
    ensures sum { residue_of order.now result.limbs % value order.now
        ≡ (value e.now.limbs + value r.now.limbs * value key.now.limbs) % value order.now }
{
    let r_element = in_order(order, r);
    let key_element = in_order(order, key);
    let along = product(order, &r_element, &key_element);
    let e_element = in_order(order, e);
    sum(order, &e_element, &along)
}

// (e + r d) / k modulo n, where k has an inverse.
fn proof_number(order: &Modulus, key: &Number, e: &Number, k: &Number, r: &Number) -> Option<Number>
    requires order { IsModulus order.now }
    requires few { length order.now ≤ 17 }
    ensures { MatchOption result (¬ (HasInverse (value order.now) (value k.now.limbs)))
        (λ s. (inverse : ℕ) × IsInverse (value order.now) (value k.now.limbs) inverse
        × (value s.limbs ≡ (inverse * (value e.now.limbs + value r.now.limbs * value key.now.limbs)) % value order.now)) }
{
    let k_element = in_order(order, k);
    let Some(inverse) = inverse(order, &k_element) else {
        return None;
    };
    let sum = signed_sum(order, key, e, r);
    Some(residue(order, &product(order, &inverse, &sum)))
}

// x modulo n.
fn x_in_order(field: &Modulus, order: &Modulus, point: &Affine) -> Number
    requires point { AreAffine field.now point.now }
    requires order { IsModulus order.now }
    requires few { length order.now ≤ 17 }
    ensures { value result.limbs ≡ residue_of field.now point.now.x.limbs % value order.now }
{
    reduced(&residue(field, &point.x), order)
}

// The x of k G modulo n, where it is there and not 0.
fn r_number(curve: &Curve, k: &Number) -> Option<Number>
    ensures { MatchOption result
        ((x y : ℕ) → IsMultiple curve.now.p curve.now.a (value k.now.limbs) (At curve.now.x curve.now.y) (At x y) → x % curve.now.n ≡ 0)
        (λ r. (0 < value r.limbs) × (x : ℕ) × (y : ℕ)
        × IsTheMultiple curve.now.p curve.now.a (value k.now.limbs) (At curve.now.x curve.now.y) (At x y)
        × (value r.limbs ≡ x % curve.now.n)) }
{
    let Ok(at) = finite_multiple(&curve.field, &curve.a, &k.limbs, &curve.generator) else {
        return None;
    };
    let r = x_in_order(&curve.field, &curve.order, &at);
    if is_zero(&r.limbs) {
        return None;
    }
    Some(r)
}

// The signature of a digest by a number k, where there is one.
fn signature_by(curve: &Curve, key: &Number, e: &Number, k: &Number) -> Option<Signature>
    ensures { MatchOption result
        ((r s : ℕ) → ¬ (IsSignature curve.now (value key.now.limbs) (value e.now.limbs) (value k.now.limbs) r s))
        (λ signed. IsSignature curve.now (value key.now.limbs) (value e.now.limbs) (value k.now.limbs)
        (value signed.r.limbs) (value signed.s.limbs)
        × (value signed.r.limbs < curve.now.n) × (value signed.s.limbs < curve.now.n)) }
{
    let Some(r) = r_number(curve, k) else {
        return None;
    };
    let Some(s) = proof_number(&curve.order, key, e, k, &r) else {
        return None;
    };
    if is_zero(&s.limbs) {
        return None;
    }
    Some(Signature { r, s })
}

/// Writes the signature of a digest under a private key, by a number k that the caller draws from 1 to n - 1 and uses once:
/// r and s, each in as many bytes as n needs.
pub fn sign(
    curve: &Curve,
    private: &[u8],
    digest: &[u8],
    nonce: &[u8],
    r: &mut [u8],
    s: &mut [u8],
) -> Result<(), SignatureRefusal>
    requires private { length private.now ≤ 66 }
    requires nonce { length nonce.now ≤ 66 }
    requires r { length r.old ≡ octets curve.now.n_bits }
    requires s { length s.old ≡ octets curve.now.n_bits }
    ensures { MatchResult result
        (λ _. IsBelowOrder curve.now (number_of_bytes private.now) × IsBelowOrder curve.now (number_of_bytes nonce.now)
        × IsSignature curve.now (number_of_bytes private.now) (digest_number curve.now.n_bits digest.now)
        (number_of_bytes nonce.now) (number_of_bytes r.new) (number_of_bytes s.new))
        (RefusesSignature curve.now (number_of_bytes private.now) (digest_number curve.now.n_bits digest.now)
        (number_of_bytes nonce.now)) }
{
    let key = number_of(private);
    if !is_in_order(curve, &key) {
        return Err(SignatureRefusal::PrivateKey);
    }
    let k = number_of(nonce);
    if !is_in_order(curve, &k) {
        return Err(SignatureRefusal::Nonce);
    }
    let e = number_of_digest(digest, curve.order_bits);
    let Some(signature) = signature_by(curve, &key, &e, &k) else {
        return Err(SignatureRefusal::Nonce);
    };
    write(r, &signature.r);
    write(s, &signature.s);
    Ok(())
}

// (e / s, r / s) modulo n, where s has an inverse.
fn factors_of(order: &Modulus, e: &Number, signature: &Signature) -> Option<Factors>
    requires order { IsModulus order.now }
    requires few { length order.now ≤ 17 }
    ensures { MatchOption result (¬ HasInverse (value order.now) (value signature.now.s.limbs))
        (λ f. AreFactors (value order.now) (value e.now.limbs) (value signature.now.r.limbs) (value signature.now.s.limbs)
        (value f.generator.limbs) (value f.key.limbs) × (value f.r.limbs ≡ value signature.now.r.limbs)) }
{
    let s_element = in_order(order, &signature.s);
    let Some(inverse) = inverse(order, &s_element) else {
        return None;
    };
    Some(Factors {
        generator: product_in_order(order, e, &inverse),
        key: product_in_order(order, &signature.r, &inverse),
        r: signature.r,
    })
}

// The same of r and s that are given by bytes, where they are from 1 to n - 1.
fn checked_factors(curve: &Curve, digest: &[u8], r: &[u8], s: &[u8]) -> Option<Factors>
    requires r { length r.now ≤ 66 }
    requires s { length s.now ≤ 66 }
    ensures { MatchOption result
        (¬ (AreVerifiable curve.now (number_of_bytes r.now) (number_of_bytes s.now)))
        (λ f. IsBelowOrder curve.now (number_of_bytes r.now) × IsBelowOrder curve.now (number_of_bytes s.now)
        × AreFactors curve.now.n (digest_number curve.now.n_bits digest.now) (number_of_bytes r.now) (number_of_bytes s.now)
        (value f.generator.limbs) (value f.key.limbs) × (value f.r.limbs ≡ number_of_bytes r.now)) }
{
    let signature = Signature {
        r: number_of(r),
        s: number_of(s),
    };
    if !is_in_order(curve, &signature.r) {
        return None;
    }
    if !is_in_order(curve, &signature.s) {
        return None;
    }
    let e = number_of_digest(digest, curve.order_bits);
    factors_of(&curve.order, &e, &signature)
}

// The point u G + v Q.
fn sum_of_multiples(
    field: &Modulus,
    a: &Element,
    factors: &Factors,
    generator: &Affine,
    key: &Affine,
) -> Option<CurvePoint>
    requires a { IsElement field.now a.now.limbs }
    requires generator { AreAffine field.now generator.now }
    requires key { AreAffine field.now key.now }
    ensures elements { IfSome result (AreOfCurve field.now) }
    ensures sum { MatchOption result
        ((t : Point) → ¬ (IsSumOfMultiples (value field.now) (residue_of field.now a.now.limbs) (value factors.now.generator.limbs)
        (point_at field.now generator.now) (value factors.now.key.limbs) (point_at field.now key.now) t))
        (λ at. IsTheSumOfMultiples (value field.now) (residue_of field.now a.now.limbs) (value factors.now.generator.limbs)
        (point_at field.now generator.now) (value factors.now.key.limbs) (point_at field.now key.now) (point_of field.now at)) }
{
    let Some(left) = multiple(field, a, &factors.generator.limbs, generator) else {
        return None;
    };
    let Some(right) = multiple(field, a, &factors.key.limbs, key) else {
        return None;
    };
    sum_of_points(field, a, &left, &right)
}

// Whether the x of a point, modulo n, is a number.
fn has_x(field: &Modulus, order: &Modulus, point: &CurvePoint, number: &Number) -> bool
    requires point { AreOfCurve field.now point.now }
    requires order { IsModulus order.now }
    requires few { length order.now ≤ 17 }
    ensures { IsTrue result ↔ HasX (value order.now) (point_of field.now point.now) (value number.now.limbs) }
{
    match point {
        CurvePoint::Infinity => false,
        CurvePoint::At(at) => {
            let x = x_in_order(field, order, at);
            compare(&x.limbs, &number.limbs).is_eq()
        }
    }
}

/// Reports whether r and s are a signature of a digest under a public key.
pub fn verify(curve: &Curve, public: &[u8], digest: &[u8], r: &[u8], s: &[u8]) -> bool
    requires r { length r.now ≤ 66 }
    requires s { length s.now ≤ 66 }
    ensures { IsTrue result ↔ (x : ℕ) × (y : ℕ) × IsPointOf curve.now x y public.now
        × IsVerified curve.now x y (digest_number curve.now.n_bits digest.now) (number_of_bytes r.now) (number_of_bytes s.now) }
{
    let size = curve.field_length();
    let Some(key) = decoded(&curve.field, &curve.a, &curve.b, size, public) else {
        return false;
    };
    let Some(factors) = checked_factors(curve, digest, r, s) else {
        return false;
    };
    let Some(point) = sum_of_multiples(&curve.field, &curve.a, &factors, &curve.generator, &key)
    else {
        return false;
    };
    has_x(&curve.field, &curve.order, &point, &factors.r)
}
