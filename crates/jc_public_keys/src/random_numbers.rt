//! Numbers of random bytes.
ghost use Rattle.std.specs.Prelude.{◌≡◌, ◌≤◌, ◌<◌, ◌+◌, [], ◌∷◌, ◌++◌, length};
ghost use Rattle.jc_curves.specs.Curves.{octets};
ghost use Rattle.jc_rsa.specs.EmsaPss.{cleared};
ghost use Rattle.jc_public_keys.specs.Random.{random_bytes};
ghost use Rattle.jc_public_keys.specs.RandomNumbers.{random_bits};

use crate::random::{MOST_SEED, put_random};
use jc_rsa::bytes::MOST_ENCODING;

/// How many numbers are tried until one can be used.
pub(crate) const TRIES: u8 = 64;

// The leftmost bits of the first byte become zeros.
fn clear(bytes: &mut [u8], spare: u32)
    requires spare { spare < 8 }
    requires some { 1 ≤ length bytes.old }
    ensures { bytes.new ≡ cleared spare bytes.old }
{
    bytes[0] &= 0xff >> spare;
}

// Writes random bytes of a seed, a number and a message.
fn put_bytes(seed: &[u8], message: &[u8], number: u8, to: &mut [u8])
    requires seed { length seed.now < MOST_SEED }
    requires message { length message.now ≤ MOST_ENCODING }
    requires few { length to.old ≤ MOST_ENCODING }
    ensures { to.new ≡ random_bytes (seed.now ++ number ∷ []) message.now (length to.old) }
{
    let mut buffer = [0; MOST_SEED];
    let source = &mut buffer[..seed.len() + 1];
    source[..seed.len()].copy_from_slice(seed);
    source[seed.len()..].copy_from_slice(&[number]);
    put_random(source, message, to);
}

// Writes number t of a seed and a message: this many random bits.
pub(crate) fn put_random_bits(bits: usize, seed: &[u8], message: &[u8], t: u8, to: &mut [u8])
    requires bits { 0 < bits }
    requires seed { length seed.now < MOST_SEED }
    requires message { length message.now ≤ MOST_ENCODING }
    requires few { length to.old ≤ MOST_ENCODING }
    requires room { length to.old ≡ octets bits }
    ensures { to.new ≡ random_bits bits seed.now message.now t }
{
    put_bytes(seed, message, t, to);
    clear(to, (8 * to.len() - bits) as u32);
}
