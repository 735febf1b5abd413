//! Random bytes, which are a function of a seed and a message.
ghost use Rattle.std.specs.Prelude.{◌≡◌, ◌≤◌, length};
ghost use Rattle.jc_public_keys.specs.Random.{random_bytes};

use jc_digests::kept::HashAlgorithm;
use jc_rsa::bytes::MOST_ENCODING;
use jc_rsa::mgf1::put_mask;

/// How many bytes a seed has at most.
pub const MOST_SEED: usize = 128;

// How many bytes a seed and a message have at most.
const MOST_SOURCE: usize = MOST_SEED + MOST_ENCODING;

/// Writes random bytes of a seed and a message: SHA-256 of the seed, the message and a number, for one number after another.
pub fn put_random(seed: &[u8], message: &[u8], to: &mut [u8])
    requires seed { length seed.now ≤ MOST_SEED }
    requires message { length message.now ≤ MOST_ENCODING }
    requires few { length to.old ≤ MOST_ENCODING }
    ensures { to.new ≡ random_bytes seed.now message.now (length to.old) }
{
    let mut buffer = [0; MOST_SOURCE];
    let source = &mut buffer[..seed.len() + message.len()];
    source[..seed.len()].copy_from_slice(seed);
    source[seed.len()..].copy_from_slice(message);
    put_mask(HashAlgorithm::Sha256, source, to);
}
