//! MGF1 (RFC 8017, B.2.1).

ghost use Rattle.std.specs.Prelude.{◌≡◌, ◌≤◌, ◌+◌, ◌-◌, ◌++◌, length, min, take};
ghost use Rattle.std.specs.Int.{to_be_bytes, w32};
ghost use Rattle.jc_digests.specs.Kept.{digest_size};
ghost use Rattle.jc_rsa.specs.Bytes.{xor};
ghost use Rattle.jc_rsa.specs.Hashing.{digest_of};
ghost use Rattle.jc_rsa.specs.Mgf1.{mgf1};

use crate::bytes::{MOST_ENCODING, put, xor};
use crate::hashing::{MOST_DIGEST, put_digest};
use jc_digests::kept::HashAlgorithm;

// Writes a block of the mask from a place on, as far as there is room, and returns the place after it.
fn put_block(
    algorithm: HashAlgorithm,
    seed: &[u8],
    counter: u32,
    to: &mut [u8],
    start: usize,
) -> usize
    requires { start ≤ length to.old }
    ensures end { result ≡ min (start + digest_size algorithm) (length to.old) }
    ensures written { take result to.new ≡ take start to.old ++ take (length to.old - start)
        (digest_of algorithm (seed.now ++ to_be_bytes w32 counter)) }
{
    let mut buffer = [0; MOST_DIGEST];
    let block = &mut buffer[..algorithm.digest_size()];
    put_digest(algorithm, seed, &counter.to_be_bytes(), block);
    let count = block.len().min(to.len() - start);
    put(to, start, &block[..count])
}

/// Writes the mask that a seed gives: as many of its bytes as there is room for.
pub fn put_mask(algorithm: HashAlgorithm, seed: &[u8], to: &mut [u8])
    requires { length to.old ≤ MOST_ENCODING }
    ensures { to.new ≡ mgf1 algorithm seed.now (length to.old) }
{
    let size = algorithm.digest_size();
    let count = to.len().div_ceil(size);
    'parts: for i in 0..count {
        put_block(algorithm, seed, i as u32, to, i * size);
    }
}

// Exclusive-or with the mask that a seed gives.
pub(crate) fn mask(algorithm: HashAlgorithm, seed: &[u8], to: &mut [u8])
    requires { length to.old ≤ MOST_ENCODING }
    ensures { to.new ≡ xor to.old (mgf1 algorithm seed.now (length to.old)) }
{
    let mut buffer = [0; MOST_ENCODING];
    let mask = &mut buffer[..to.len()];
    put_mask(algorithm, seed, mask);
    xor(to, mask);
}
