//! Keys on a curve, by bytes: the public key of a private one, and key pairs of a seed.
ghost use Rattle.std.specs.Prelude.{◌≡◌, ◌≤◌, [], ◌<◌, ◌+◌, ◌*◌, None, Some, if◌then◌else◌, length};
ghost use Rattle.jc_numbers.specs.Numbers.{IsBitLength, number_of_bytes};
ghost use Rattle.jc_curves.specs.Curves.{AreShort, octets};
ghost use Rattle.jc_public_keys.specs.CurveBytes.{bits_of, bytes_of};
ghost use Rattle.jc_public_keys.specs.CurveKeys.{key_pair_of, pair_at, public_on};
ghost use Rattle.jc_public_keys.specs.RandomNumbers.{first_try, random_bits};
ghost use Rattle.jc_public_keys.specs.Rsa.{bytes_of_number};

use crate::curves::{bits_of, curve_with_numbers};
use crate::random::MOST_SEED;
use crate::random_numbers::{TRIES, put_random_bits};
use jc_curves::curves::{Curve, MOST_BYTES, Parameters};
use jc_curves::points::public_point;

// Writes the public key of a private one. It returns false where there is none.
fn put_public_on(curve: &Curve, private: &[u8], to: &mut [u8]) -> bool
    requires field { 1 < curve.now.p }
    requires private { length private.now ≤ MOST_BYTES }
    requires room { length to.old ≡ 1 + 2 * octets curve.now.p_bits }
    ensures { (if result then Some to.new else None) ≡ public_on curve.now (number_of_bytes private.now) }
{
    match public_point(curve, private, to) {
        Ok(()) => true,
        Err(_) => false,
    }
}

// Writes number t of a seed after zeros.
fn put_private_at(bits: usize, seed: &[u8], t: u8, to: &mut [u8])
    requires bits { 0 < bits }
    requires seed { length seed.now < MOST_SEED }
    requires few { length to.old ≤ MOST_BYTES }
    requires room { octets bits ≤ length to.old }
    ensures number { number_of_bytes to.new ≡ number_of_bytes (random_bits bits seed.now [] t) }
    ensures bytes { to.new
        ≡ bytes_of_number (length to.old) (number_of_bytes (random_bits bits seed.now [] t)) }
{
    let size = to.len() - bits.div_ceil(8);
    let (front, rest) = to.split_at_mut(size);
    front.copy_from_slice(&[0; MOST_BYTES][..size]);
    put_random_bits(bits, seed, &[], t, rest);
}

// Writes the key pair of number t of a seed. It returns false where there is none.
fn put_pair_at(
    curve: &Curve,
    bits: usize,
    seed: &[u8],
    t: u8,
    private: &mut [u8],
    public: &mut [u8],
) -> bool
    requires field { 1 < curve.now.p }
    requires bits { bits ≡ curve.now.n_bits }
    requires some { 0 < bits }
    requires seed { length seed.now < MOST_SEED }
    requires few { length private.old ≤ MOST_BYTES }
    requires room { octets bits ≤ length private.old }
    requires public { length public.old ≡ 1 + 2 * octets curve.now.p_bits }
    ensures { (if result then Some (record { private = private.new; public = public.new }) else None)
        ≡ pair_at (length private.old) curve.now seed.now t }
{
    put_private_at(bits, seed, t, private);
    put_public_on(curve, private, public)
}

// The first key pair of all tries.
fn put_first_pair(
    curve: &Curve,
    bits: usize,
    seed: &[u8],
    private: &mut [u8],
    public: &mut [u8],
) -> bool
    requires field { 1 < curve.now.p }
    requires bits { bits ≡ curve.now.n_bits }
    requires some { 0 < bits }
    requires seed { length seed.now < MOST_SEED }
    requires few { length private.old ≤ MOST_BYTES }
    requires room { octets bits ≤ length private.old }
    requires public { length public.old ≡ 1 + 2 * octets curve.now.p_bits }
    ensures { (if result then Some (record { private = private.new; public = public.new }) else None)
        ≡ first_try (pair_at (length private.old) curve.now seed.now) }
{
    'numbers: for t in 0..TRIES {
        if put_pair_at(curve, bits, seed, t, private, public) {
            return true;
        }
    }
    false
}

// The same, with as many bytes for the private key as the order is given by.
fn put_pair_on(
    curve: &Curve,
    order: &[u8],
    seed: &[u8],
    private: &mut [u8],
    public: &mut [u8],
) -> bool
    requires field { 1 < curve.now.p }
    requires above { 1 < curve.now.n }
    requires order { curve.now.n ≡ number_of_bytes order.now }
    requires bits { curve.now.n_bits ≡ bits_of curve.now.n }
    requires counted { IsBitLength curve.now.n curve.now.n_bits }
    requires few { length order.now ≤ MOST_BYTES }
    requires seed { length seed.now < MOST_SEED }
    requires private { length private.old ≡ length order.now }
    requires public { length public.old ≡ 1 + 2 * octets curve.now.p_bits }
    ensures { (if result then Some (record { private = private.new; public = public.new }) else None)
        ≡ first_try (pair_at (length private.old) curve.now seed.now) }
{
    put_first_pair(curve, bits_of(order), seed, private, public)
}

/// Writes the key pair of a seed: the private key in as many bytes as n is given by, and the public one: 04, x and y, each in as many bytes as p is
/// given by. It returns false where the parameters describe no curve, and where no number of all tries is a private key.
pub fn put_key_pair(
    parameters: &Parameters,
    seed: &[u8],
    private: &mut [u8],
    public: &mut [u8],
) -> bool
    requires short { AreShort parameters.now }
    requires seed { length seed.now < MOST_SEED }
    requires private { length private.old ≡ length parameters.now.order.now }
    requires public { length public.old ≡ 1 + 2 * length parameters.now.field.now }
    ensures { (if result then Some (record { private = private.new; public = public.new }) else None)
        ≡ key_pair_of (bytes_of parameters.now) seed.now }
{
    match curve_with_numbers(parameters) {
        Some(curve) => put_pair_on(&curve, parameters.order, seed, private, public),
        None => false,
    }
}
