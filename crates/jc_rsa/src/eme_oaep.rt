//! EME-OAEP (RFC 8017, 7.1) with an empty label, and MGF1 over the same hash function.

ghost use Rattle.std.specs.Prelude.{◌≡◌, ◌≤◌, ◌+◌, ◌*◌, ◌↔◌, ℕ, IfSome, IsTrue, List, MatchOption, drop, length};
ghost use Rattle.jc_digests.specs.Kept.{digest_size};
ghost use Rattle.jc_rsa.specs.EmeOaep.{IsDataBlock, IsOaep, data_block, masked, oaep};

use crate::bytes::{MOST_ENCODING, first_other, put, put_repeated, same};
use crate::hashing::{MOST_DIGEST, put_digest};
use crate::mgf1::mask;
use jc_digests::kept::HashAlgorithm;

// Writes DB: the digest of the empty label, zeros, the byte 01, and the message.
fn put_data_block(algorithm: HashAlgorithm, message: &[u8], to: &mut [u8])
    requires { length message.now + digest_size algorithm + 1 ≤ length to.old }
    ensures { to.new ≡ data_block algorithm message.now (length to.old) }
{
    let mut buffer = [0; MOST_DIGEST];
    let label = &mut buffer[..algorithm.digest_size()];
    put_digest(algorithm, &[], &[], label);
    let start = put(to, 0, label);
    let padding = to.len() - message.len() - label.len() - 1;
    let end = put_repeated(to, start, padding, 0x00);
    let after = put(to, end, &[0x01]);
    put(to, after, message);
}

// Writes 00, the masked seed, and the masked DB.
fn put_masked(algorithm: HashAlgorithm, seed: &[u8], block: &mut [u8], to: &mut [u8])
    requires seed { length seed.now ≡ digest_size algorithm }
    requires few { length block.old ≤ MOST_ENCODING }
    requires room { 1 + length seed.now + length block.old ≡ length to.old }
    ensures { to.new ≡ masked algorithm seed.now block.old }
{
    mask(algorithm, seed, block);
    let mut buffer = [0; MOST_DIGEST];
    let masked_seed = &mut buffer[..seed.len()];
    masked_seed.copy_from_slice(seed);
    mask(algorithm, block, masked_seed);
    let start = put(to, 0, &[0x00]);
    let end = put(to, start, masked_seed);
    put(to, end, block);
}

// Writes an encoding, whose DB is made in a buffer.
fn put_encoding(
    algorithm: HashAlgorithm,
    message: &[u8],
    seed: &[u8],
    block: &mut [u8],
    to: &mut [u8],
)
    requires seed { length seed.now ≡ digest_size algorithm }
    requires few { length block.old ≤ MOST_ENCODING }
    requires fits { length message.now + digest_size algorithm + 1 ≤ length block.old }
    requires room { 1 + length seed.now + length block.old ≡ length to.old }
    ensures { to.new ≡ oaep algorithm seed.now message.now (length to.old) }
{
    put_data_block(algorithm, message, block);
    put_masked(algorithm, seed, block, to);
}

/// Writes the encoding of a message under a seed, which is random bytes.
pub fn encode(algorithm: HashAlgorithm, message: &[u8], seed: &[u8], to: &mut [u8])
    requires seed { length seed.now ≡ digest_size algorithm }
    requires few { length to.old ≤ MOST_ENCODING }
    requires room { length message.now + 2 * digest_size algorithm + 2 ≤ length to.old }
    ensures { to.new ≡ oaep algorithm seed.now message.now (length to.old) }
{
    let mut buffer = [0; MOST_ENCODING];
    let block = &mut buffer[..to.len() - seed.len() - 1];
    put_encoding(algorithm, message, seed, block, to);
}

// Whether this is the DB of a message.
fn is_data_block(algorithm: HashAlgorithm, message: &[u8], block: &[u8]) -> bool
    requires few { length block.now ≤ MOST_ENCODING }
    requires fits { length message.now + digest_size algorithm + 1 ≤ length block.now }
    ensures { IsTrue result ↔ (block.now ≡ data_block algorithm message.now (length block.now)) }
{
    let mut buffer = [0; MOST_ENCODING];
    let expected = &mut buffer[..block.len()];
    put_data_block(algorithm, message, expected);
    same(expected, block)
}

// The place where the message of a DB begins, or nothing where it is no DB.
fn message_start(algorithm: HashAlgorithm, block: &[u8]) -> Option<usize>
    requires { length block.now ≤ MOST_ENCODING }
    ensures within { IfSome result (λ start. start ≤ length block.now) }
    ensures cases { MatchOption result
        ((message : List ℕ) → ¬ (IsDataBlock algorithm message block.now))
        (λ start. IsDataBlock algorithm (drop start block.now) block.now) }
{
    let Some(end) = first_other(block, algorithm.digest_size(), 0x00) else {
        return None;
    };
    if is_data_block(algorithm, &block[end + 1..], block) {
        Some(end + 1)
    } else {
        None
    }
}

/// Takes the masks off an encoding, and returns the place where its message begins, or nothing where it is no encoding.
pub fn decode(algorithm: HashAlgorithm, encoding: &mut [u8]) -> Option<usize>
    requires { length encoding.old ≤ MOST_ENCODING }
    ensures { MatchOption result ((message : List ℕ) → ¬ (IsOaep algorithm message encoding.old))
        (λ start. IsOaep algorithm (drop start encoding.new) encoding.old) }
{
    let size = algorithm.digest_size();
    if encoding.len() < 2 * size + 2 || encoding[0] != 0x00 {
        return None;
    }
    let mut buffer = [0; MOST_DIGEST];
    let seed = &mut buffer[..size];
    seed.copy_from_slice(&encoding[1..size + 1]);
    let block = &mut encoding[size + 1..];
    mask(algorithm, block, seed);
    mask(algorithm, seed, block);
    match message_start(algorithm, block) {
        Some(start) => Some(size + 1 + start),
        None => None,
    }
}
