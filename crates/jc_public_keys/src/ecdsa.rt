//! ECDSA under keys by their bytes: signatures of a message's digest, in DER.
ghost use Rattle.std.specs.Prelude.{◌≡◌, ◌≤◌, ◌<◌, IfSome, option_map, length, slice_index, take};
ghost use Rattle.jc_numbers.specs.Numbers.{IsBitLength, number_of_bytes};
ghost use Rattle.jc_curves.specs.Curves.{AreShort, octets};
ghost use Rattle.jc_public_keys.specs.CurveBytes.{AreNumbersOf, bytes_of};
ghost use Rattle.jc_public_keys.specs.Ecdsa.{ecdsa_signature, is_ecdsa_signature, signed_at, signed_by, verified_on};
ghost use Rattle.jc_public_keys.specs.RandomNumbers.{first_try};

use crate::curves::{bits_of, curve_with_numbers};
use crate::random::MOST_SEED;
use crate::random_numbers::{TRIES, put_random_bits};
use jc_curves::curves::{Curve, MOST_BYTES, Parameters};
use jc_curves::der;
use jc_curves::signatures::{sign, verify};
use jc_rsa::bytes::MOST_ENCODING;

/// How many bytes a signature has at most.
pub const MOST_SIGNATURE: usize = der::MOST_ENCODING;

// Writes the signature of a digest by a number k, and returns how many bytes it has.
fn put_signed(
    curve: &Curve,
    private: &[u8],
    digest: &[u8],
    k: &[u8],
    to: &mut [u8],
) -> Option<usize>
    requires field { 1 < curve.now.p }
    requires order { 1 < curve.now.n }
    requires private { length private.now ≤ MOST_BYTES }
    requires k { length k.now ≤ MOST_BYTES }
    requires room { MOST_SIGNATURE ≤ length to.old }
    ensures end { IfSome result (λ n. n ≤ MOST_SIGNATURE) }
    ensures signature { option_map (λ n. take n to.new) result
        ≡ signed_by curve.now (number_of_bytes private.now) digest.now (number_of_bytes k.now) }
{
    let size = curve.order_length();
    let mut r_buffer = [0; MOST_BYTES];
    let mut s_buffer = [0; MOST_BYTES];
    let r = &mut r_buffer[..size];
    let s = &mut s_buffer[..size];
    match sign(curve, private, digest, k, r, s) {
        Ok(()) => Some(der::encode(r, s, to)),
        Err(_) => None,
    }
}

// The same by number t of a seed.
fn put_signed_at(
    curve: &Curve,
    bits: usize,
    private: &[u8],
    digest: &[u8],
    seed: &[u8],
    t: u8,
    to: &mut [u8],
) -> Option<usize>
    requires field { 1 < curve.now.p }
    requires order { 1 < curve.now.n }
    requires bits { bits ≡ curve.now.n_bits }
    requires some { 0 < bits }
    requires private { length private.now ≤ MOST_BYTES }
    requires digest { length digest.now ≤ MOST_ENCODING }
    requires seed { length seed.now < MOST_SEED }
    requires room { MOST_SIGNATURE ≤ length to.old }
    ensures end { IfSome result (λ n. n ≤ MOST_SIGNATURE) }
    ensures signature { option_map (λ n. take n to.new) result
        ≡ signed_at curve.now (number_of_bytes private.now) digest.now seed.now t }
{
    let mut buffer = [0; MOST_BYTES];
    let k = &mut buffer[..curve.order_length()];
    put_random_bits(bits, seed, digest, t, k);
    put_signed(curve, private, digest, k, to)
}

// The first signature of all tries.
fn put_first_signed(
    curve: &Curve,
    bits: usize,
    private: &[u8],
    digest: &[u8],
    seed: &[u8],
    to: &mut [u8],
) -> Option<usize>
    requires field { 1 < curve.now.p }
    requires order { 1 < curve.now.n }
    requires bits { bits ≡ curve.now.n_bits }
    requires some { 0 < bits }
    requires private { length private.now ≤ MOST_BYTES }
    requires digest { length digest.now ≤ MOST_ENCODING }
    requires seed { length seed.now < MOST_SEED }
    requires room { MOST_SIGNATURE ≤ length to.old }
    ensures end { IfSome result (λ n. n ≤ MOST_SIGNATURE) }
    ensures signature { option_map (λ n. take n to.new) result
        ≡ first_try (signed_at curve.now (number_of_bytes private.now) digest.now seed.now) }
{
    'numbers: for t in 0..TRIES {
        if let Some(size) = put_signed_at(curve, bits, private, digest, seed, t, to) {
            return Some(size);
        }
    }
    None
}

/// Writes the signature of a digest under a private key, and returns how many bytes it has, or nothing where there is none: where the parameters
/// describe no curve, or the private key is not from 1 to n - 1. The number that it is made with comes from the seed and the digest.
pub fn put_signature(
    parameters: &Parameters,
    private: &[u8],
    digest: &[u8],
    seed: &[u8],
    to: &mut [u8],
) -> Option<usize>
    requires short { AreShort parameters.now }
    requires private { length private.now ≤ MOST_BYTES }
    requires digest { length digest.now ≤ MOST_ENCODING }
    requires seed { length seed.now < MOST_SEED }
    requires room { MOST_SIGNATURE ≤ length to.old }
    ensures end { IfSome result (λ n. n ≤ MOST_SIGNATURE) }
    ensures signature { option_map (λ n. take n to.new) result
        ≡ ecdsa_signature (bytes_of parameters.now) private.now digest.now seed.now }
{
    let Some(curve) = curve_with_numbers(parameters) else {
        return None;
    };
    put_first_signed(&curve, bits_of(parameters.order), private, digest, seed, to)
}

// A number without the zeros before it.
fn significant(bytes: &[u8]) -> &[u8]
    ensures number { number_of_bytes result.now ≡ number_of_bytes bytes.now }
    ensures first { 0 < length result.now → 0 < slice_index result.now 0 }
{
    'zeros: for i in 0..bytes.len() {
        if bytes[i] != 0 {
            return &bytes[i..];
        }
    }
    &bytes[bytes.len()..]
}

// Whether bytes are a signature of a digest under a public key of a curve.
fn is_signature_on(curve: &Curve, public: &[u8], digest: &[u8], signature: &[u8]) -> bool
    requires field { 1 < curve.now.p }
    requires order { 1 < curve.now.n }
    requires bits { IsBitLength curve.now.n curve.now.n_bits }
    ensures { result ≡ verified_on public.now digest.now signature.now curve.now }
{
    let Some(numbers) = der::decode(signature) else {
        return false;
    };
    let r = significant(numbers.r);
    let s = significant(numbers.s);
    let most = curve.order_length();
    if r.len() > most || s.len() > most {
        return false;
    }
    verify(curve, public, digest, r, s)
}

/// Reports whether bytes are a signature of a digest under a public key.
pub fn is_signature(parameters: &Parameters, public: &[u8], digest: &[u8], signature: &[u8]) -> bool
    requires { AreShort parameters.now }
    ensures { result
        ≡ is_ecdsa_signature (bytes_of parameters.now) public.now digest.now signature.now }
{
    match curve_with_numbers(parameters) {
        Some(curve) => is_signature_on(&curve, public, digest, signature),
        None => false,
    }
}
