//! Key pairs from a seed (RFC 8017, 3).

ghost use Rattle.std.specs.Prelude.{◌≡◌, ◌≤◌, ◌<◌, ◌+◌, ◌-◌, ◌*◌, ◌^◌, ◌↔◌, ℕ, List, IsTrue, IsFalse, IfSome, MatchOption, length};
ghost use Rattle.jc_numbers.specs.Inverses.{HasInverse};
ghost use Rattle.jc_numbers.specs.Numbers.{number_of_bytes, value};
ghost use Rattle.jc_rsa.specs.KeyPair.{ArePrimesOf, HasNoneTaken, IsFirstTaken, IsInverseBelow, IsTaken, PrimesGive, candidate};

use crate::bytes::{MOST_ENCODING, put};
use crate::mgf1::put_mask;
use crate::numbers::{decrement, limbs_for, modulus_of, put_inverse};
use crate::primes::is_probable_prime;
use jc_digests::kept::HashAlgorithm;
use jc_numbers::bytes::{from_bytes, to_bytes};
use jc_numbers::moduli::MOST_LIMBS;
use jc_numbers::products::multiply;

/// How many bytes a seed has.
pub const SEED: usize = 32;

/// The fewest bytes of a prime: those of a modulus of 512 bits.
pub const FEWEST_OF_PRIME: usize = 32;

/// The most bytes of a prime: those of a modulus of 4,096 bits.
pub const MOST_OF_PRIME: usize = 256;

// The most limbs of a prime.
const MOST_PRIME_LIMBS: usize = 64;

// How many candidates are tried for each prime.
const MOST_CANDIDATES: u32 = 16384;

// The bases of the test of Miller and Rabin. FIPS 186-4, tables C.2 and C.3, ask for at most seven rounds for primes of 512 bits and
// more, by random bases; here the candidates are random, and the bases are not.
const BASES: [u8; 8] = [2, 3, 5, 7, 11, 13, 17, 19];

/// Why there is no key pair.
#[derive(Clone, Copy)]
pub enum KeyPairError {
    /// The public exponent is even or below 3.
    ExponentNotUsable,
    /// Among the candidates of the seed there are not two primes.
    NoPrimesFound,
}

// Writes a candidate of a seed.
fn put_candidate(seed: &[u8; SEED], number: u32, to: &mut [u8])
    requires some { FEWEST_OF_PRIME ≤ length to.old }
    requires few { length to.old ≤ MOST_OF_PRIME }
    ensures { to.new ≡ candidate seed.now (length to.old) number }
{
    let mut numbered = [0; SEED + 4];
    let end = put(&mut numbered, 0, seed);
    put(&mut numbered, end, &number.to_be_bytes());
    put_mask(HashAlgorithm::Sha256, &numbered, to);
    let last = to.len() - 1;
    to[0] |= 0xc0;
    to[last] |= 0x01;
}

// Writes a number less 1.
fn put_less_one(to: &mut [u32], prime: &[u8])
    requires few { length to.old ≤ MOST_LIMBS }
    requires room { length prime.now ≤ 4 * length to.old }
    requires some { 0 < number_of_bytes prime.now }
    ensures { value to.new ≡ number_of_bytes prime.now - 1 }
{
    from_bytes(to, prime);
    decrement(to);
}

// Writes the inverse of a number modulo one of limbs, and reports whether there is one.
fn put_inverse_bytes(to: &mut [u8], a: &[u8], modulus: &[u32]) -> bool
    requires a { length a.now ≤ MOST_ENCODING }
    requires few { length modulus.now ≤ MOST_LIMBS }
    requires modulus { 1 < value modulus.now }
    requires fits { value modulus.now ≤ 256 ^ length to.old }
    ensures told { IsTrue result ↔ HasInverse (value modulus.now) (number_of_bytes a.now) }
    ensures inverse { IsTrue result
        → IsInverseBelow (value modulus.now) (number_of_bytes a.now) (number_of_bytes to.new) }
{
    let mut buffer = [0; MOST_LIMBS];
    let inverse = &mut buffer[..modulus.len()];
    let there = put_inverse(inverse, a, modulus);
    to_bytes(to, inverse);
    there
}

/// Writes the modulus, p q.
pub fn put_modulus(to: &mut [u8], p: &[u8], q: &[u8])
    requires p { length p.now ≤ MOST_OF_PRIME }
    requires q { length q.now ≤ MOST_OF_PRIME }
    requires room { length to.old ≡ length p.now + length q.now }
    ensures { number_of_bytes to.new ≡ number_of_bytes p.now * number_of_bytes q.now }
{
    let mut p_limbs = [0; MOST_PRIME_LIMBS];
    from_bytes(&mut p_limbs, p);
    let mut q_limbs = [0; MOST_PRIME_LIMBS];
    from_bytes(&mut q_limbs, q);
    let mut product = [0; MOST_LIMBS];
    multiply(&mut product, &p_limbs, &q_limbs);
    to_bytes(to, &product);
}

/// Writes the private exponent, the inverse of the public one modulo (p - 1) (q - 1), and reports whether there is one.
pub fn put_private_exponent(to: &mut [u8], exponent: &[u8], p: &[u8], q: &[u8]) -> bool
    requires exponent { length exponent.now ≤ MOST_ENCODING }
    requires p { (length p.now ≤ MOST_OF_PRIME) × (2 < number_of_bytes p.now) }
    requires q { (length q.now ≤ MOST_OF_PRIME) × (2 < number_of_bytes q.now) }
    requires room { length to.old ≡ length p.now + length q.now }
    ensures told { IsTrue result
        ↔ HasInverse ((number_of_bytes p.now - 1) * (number_of_bytes q.now - 1)) (number_of_bytes exponent.now) }
    ensures inverse { IsTrue result
        → IsInverseBelow ((number_of_bytes p.now - 1) * (number_of_bytes q.now - 1)) (number_of_bytes exponent.now)
        (number_of_bytes to.new) }
{
    let mut p_less_one = [0; MOST_PRIME_LIMBS];
    put_less_one(&mut p_less_one, p);
    let mut q_less_one = [0; MOST_PRIME_LIMBS];
    put_less_one(&mut q_less_one, q);
    let mut product = [0; MOST_LIMBS];
    multiply(&mut product, &p_less_one, &q_less_one);
    put_inverse_bytes(to, exponent, &product)
}

/// Writes dP or dQ, the inverse of the public exponent modulo a prime less 1, and reports whether there is one.
pub fn put_crt_exponent(to: &mut [u8], exponent: &[u8], prime: &[u8]) -> bool
    requires exponent { length exponent.now ≤ MOST_ENCODING }
    requires prime { (length prime.now ≤ MOST_ENCODING) × (2 < number_of_bytes prime.now) }
    requires room { length to.old ≡ length prime.now }
    ensures told { IsTrue result ↔ HasInverse (number_of_bytes prime.now - 1) (number_of_bytes exponent.now) }
    ensures inverse { IsTrue result
        → IsInverseBelow (number_of_bytes prime.now - 1) (number_of_bytes exponent.now) (number_of_bytes to.new) }
{
    let mut buffer = [0; MOST_LIMBS];
    let modulus = &mut buffer[..limbs_for(prime)];
    put_less_one(modulus, prime);
    put_inverse_bytes(to, exponent, modulus)
}

/// Writes qInv, the inverse of q modulo p, and reports whether there is one.
pub fn put_coefficient(to: &mut [u8], p: &[u8], q: &[u8]) -> bool
    requires p { (length p.now ≤ MOST_ENCODING) × (1 < number_of_bytes p.now) }
    requires q { length q.now ≤ MOST_ENCODING }
    requires room { length to.old ≡ length p.now }
    ensures told { IsTrue result ↔ HasInverse (number_of_bytes p.now) (number_of_bytes q.now) }
    ensures inverse { IsTrue result → IsInverseBelow (number_of_bytes p.now) (number_of_bytes q.now) (number_of_bytes to.new) }
{
    let mut buffer = [0; MOST_LIMBS];
    let modulus = &mut buffer[..limbs_for(p)];
    from_bytes(modulus, p);
    put_inverse_bytes(to, q, modulus)
}

// Reports whether a candidate is taken.
fn is_taken(candidate: &[u8], exponent: &[u8]) -> bool
    requires candidate { length candidate.now ≤ MOST_ENCODING }
    requires exponent { length exponent.now ≤ MOST_ENCODING }
    ensures { IsTrue result ↔ IsTaken (number_of_bytes exponent.now) (number_of_bytes candidate.now) }
{
    if !is_probable_prime(candidate, &BASES) {
        return false;
    }
    let mut room = [0; MOST_ENCODING];
    put_crt_exponent(&mut room[..candidate.len()], exponent, candidate)
}

// Writes the first candidate from a number on that is taken, and returns its number.
fn find_prime(seed: &[u8; SEED], start: u32, exponent: &[u8], to: &mut [u8]) -> Option<u32>
    requires start { start ≤ MOST_CANDIDATES }
    requires exponent { length exponent.now ≤ MOST_ENCODING }
    requires some { FEWEST_OF_PRIME ≤ length to.old }
    requires few { length to.old ≤ MOST_OF_PRIME }
    ensures found { MatchOption result (HasNoneTaken seed.now (number_of_bytes exponent.now) (length to.old) start)
        (IsFirstTaken seed.now (number_of_bytes exponent.now) (length to.old) start) }
    ensures written { IfSome result (λ i. to.new ≡ candidate seed.now (length to.old) i) }
{
    'candidates: for i in start..start + MOST_CANDIDATES {
        put_candidate(seed, i, to);
        if is_taken(to, exponent) {
            return Some(i);
        }
    }
    None
}

// Writes the first two candidates that are taken, and reports whether they are the primes of the seed: whether there are two, which differ.
fn put_first_two(seed: &[u8; SEED], exponent: &[u8], first: &mut [u8], second: &mut [u8]) -> bool
    requires exponent { length exponent.now ≤ MOST_ENCODING }
    requires some { FEWEST_OF_PRIME ≤ length first.old }
    requires few { length first.old ≤ MOST_OF_PRIME }
    requires same { length second.old ≡ length first.old }
    ensures primes { IsTrue result
        → ArePrimesOf seed.now (number_of_bytes exponent.now) (length first.old) first.new second.new }
    ensures none { IsFalse result → (p q : List ℕ)
        → ¬ (ArePrimesOf seed.now (number_of_bytes exponent.now) (length first.old) p q) }
{
    let Some(number) = find_prime(seed, 0, exponent, first) else {
        return false;
    };
    let Some(_next) = find_prime(seed, number + 1, exponent, second) else {
        return false;
    };
    let mut room = [0; MOST_OF_PRIME];
    if !put_coefficient(&mut room[..first.len()], first, second) {
        return false;
    }
    true
}

/// Writes two primes p and q of a seed for a public exponent, of as many bytes as the rooms: the first two candidates that are
/// taken. After an error the bytes are as they were.
pub fn find_primes(
    seed: &[u8; SEED],
    exponent: &[u8],
    p: &mut [u8],
    q: &mut [u8],
) -> Result<(), KeyPairError>
    requires exponent { length exponent.now ≤ MOST_ENCODING }
    requires some { FEWEST_OF_PRIME ≤ length p.old }
    requires few { length p.old ≤ MOST_OF_PRIME }
    requires same { length q.old ≡ length p.old }
    ensures { PrimesGive seed.now (number_of_bytes exponent.now) p.old q.old p.new q.new result }
{
    if modulus_of(exponent).is_none() {
        return Err(KeyPairError::ExponentNotUsable);
    }
    let mut first_buffer = [0; MOST_OF_PRIME];
    let first = &mut first_buffer[..p.len()];
    let mut second_buffer = [0; MOST_OF_PRIME];
    let second = &mut second_buffer[..p.len()];
    if !put_first_two(seed, exponent, first, second) {
        return Err(KeyPairError::NoPrimesFound);
    }
    p.copy_from_slice(first);
    q.copy_from_slice(second);
    Ok(())
}
