//! RSA key pairs of a seed, by bytes.
ghost use Rattle.std.specs.Prelude.{◌≡◌, ◌≤◌, ◌*◌, None, Some, IsFalse, if◌then◌else◌, length};
ghost use Rattle.jc_public_keys.specs.RsaKeys.{parts_in, rsa_pair_of};

use jc_rsa::bytes::MOST_ENCODING;
use jc_rsa::key_pair::{
    FEWEST_OF_PRIME, MOST_OF_PRIME, SEED, find_primes, put_coefficient, put_crt_exponent,
    put_modulus, put_private_exponent,
};

/// How many bytes the parts of a key pair have at most: those of a modulus of 4,096 bits. A caller may keep room for all on its stack.
pub const MOST_PARTS: usize = 9 * MOST_OF_PRIME;

/// Writes the key pair of a seed for a public exponent, with primes of this many bytes: p, q, dP, dQ and qInv, of as many bytes, and the modulus
/// and the private exponent, of twice as many, one after another. It returns false where there is none: where the exponent is even or below
/// 3, or the candidates of the seed do not have two primes for it. Then the bytes are as they were.
pub fn put_rsa_pair(seed: &[u8; SEED], exponent: &[u8], size: usize, to: &mut [u8]) -> bool
    requires exponent { length exponent.now ≤ MOST_ENCODING }
    requires some { FEWEST_OF_PRIME ≤ size }
    requires few { size ≤ MOST_OF_PRIME }
    requires room { length to.old ≡ 9 * size }
    ensures pair { (if result then Some (parts_in size to.new) else None)
        ≡ rsa_pair_of seed.now exponent.now size }
    ensures otherwise { IsFalse result → to.new ≡ to.old }
{
    let (p, rest) = to.split_at_mut(size);
    let (q, rest) = rest.split_at_mut(size);
    if find_primes(seed, exponent, p, q).is_err() {
        return false;
    }
    let (dp, rest) = rest.split_at_mut(size);
    let (dq, rest) = rest.split_at_mut(size);
    let (q_inverse, rest) = rest.split_at_mut(size);
    let (modulus, private_exponent) = rest.split_at_mut(2 * size);
    put_crt_exponent(dp, exponent, p);
    put_crt_exponent(dq, exponent, q);
    put_coefficient(q_inverse, p, q);
    put_modulus(modulus, p, q);
    put_private_exponent(private_exponent, exponent, p, q);
    true
}
