//! EMSA-PSS (RFC 8017, 9.1) with MGF1 over the same hash function.
//!
//! An encoding has one bit less than the modulus. `spare` is the number of bits of its first byte that it does not use: 1 where the
//! modulus is of whole bytes.

ghost use Rattle.std.specs.Prelude.{◌≡◌, ◌≤◌, ◌<◌, ◌+◌, ◌-◌, ◌++◌, ◌↔◌, IsTrue, drop, length, replicate};
ghost use Rattle.jc_digests.specs.Kept.{digest_size};
ghost use Rattle.jc_rsa.specs.EmsaPss.{IsPss, cleared, pss, salt_block, salted_digest, sealed};

use crate::bytes::{MOST_ENCODING, put, put_repeated, same};
use crate::hashing::{MOST_DIGEST, put_digest};
use crate::mgf1::mask;
use jc_digests::kept::HashAlgorithm;

// Writes eight zeros and a digest.
fn put_zeros_and_digest(digest: &[u8], to: &mut [u8])
    requires { length to.old ≡ 8 + length digest.now }
    ensures { to.new ≡ replicate 8 0 ++ digest.now }
{
    let start = put_repeated(to, 0, 8, 0x00);
    put(to, start, digest);
}

// Writes H: the digest of eight zeros, of the message's digest, and of the salt.
fn put_salted_digest(algorithm: HashAlgorithm, digest: &[u8], salt: &[u8], to: &mut [u8])
    requires digest { length digest.now ≡ digest_size algorithm }
    requires room { length to.old ≡ digest_size algorithm }
    ensures { to.new ≡ salted_digest algorithm digest.now salt.now }
{
    let mut buffer = [0; 8 + MOST_DIGEST];
    let first = &mut buffer[..8 + digest.len()];
    put_zeros_and_digest(digest, first);
    put_digest(algorithm, first, salt, to);
}

// Writes DB: zeros, the byte 01, and the salt.
fn put_salt_block(salt: &[u8], to: &mut [u8])
    requires { length salt.now + 1 ≤ length to.old }
    ensures { to.new ≡ salt_block salt.now (length to.old) }
{
    let padding = to.len() - salt.len() - 1;
    let end = put_repeated(to, 0, padding, 0x00);
    let after = put(to, end, &[0x01]);
    put(to, after, salt);
}

// The leftmost bits of the first byte become zeros.
fn clear(bytes: &mut [u8], spare: u32)
    requires spare { spare < 8 }
    requires some { 1 ≤ length bytes.old }
    ensures { bytes.new ≡ cleared spare bytes.old }
{
    bytes[0] &= 0xff >> spare;
}

// Writes the masked DB, H, and BC.
fn put_sealed(algorithm: HashAlgorithm, hash: &[u8], block: &mut [u8], spare: u32, to: &mut [u8])
    requires spare { spare < 8 }
    requires some { 1 ≤ length block.old }
    requires few { length block.old ≤ MOST_ENCODING }
    requires room { length block.old + length hash.now + 1 ≡ length to.old }
    ensures { to.new ≡ sealed algorithm hash.now block.old spare }
{
    mask(algorithm, hash, block);
    clear(block, spare);
    let start = put(to, 0, block);
    let end = put(to, start, hash);
    put(to, end, &[0xbc]);
}

// Writes an encoding, whose DB is made in a buffer.
fn put_encoding(
    algorithm: HashAlgorithm,
    hash: &[u8],
    salt: &[u8],
    spare: u32,
    block: &mut [u8],
    to: &mut [u8],
)
    requires hash { length hash.now ≡ digest_size algorithm }
    requires spare { spare < 8 }
    requires few { length block.old ≤ MOST_ENCODING }
    requires fits { length salt.now + 1 ≤ length block.old }
    requires room { length block.old + length hash.now + 1 ≡ length to.old }
    ensures { to.new ≡ sealed algorithm hash.now
        (salt_block salt.now (length to.old - digest_size algorithm - 1)) spare }
{
    put_salt_block(salt, block);
    put_sealed(algorithm, hash, block, spare, to);
}

/// Writes the encoding of a message's digest with a salt, which is random bytes.
pub fn encode(algorithm: HashAlgorithm, digest: &[u8], salt: &[u8], spare: u32, to: &mut [u8])
    requires digest { length digest.now ≡ digest_size algorithm }
    requires spare { spare < 8 }
    requires few { length to.old ≤ MOST_ENCODING }
    requires room { digest_size algorithm + length salt.now + 2 ≤ length to.old }
    ensures { to.new ≡ pss algorithm digest.now salt.now spare (length to.old) }
{
    let mut hash_buffer = [0; MOST_DIGEST];
    let hash = &mut hash_buffer[..algorithm.digest_size()];
    put_salted_digest(algorithm, digest, salt, hash);
    let mut buffer = [0; MOST_ENCODING];
    let block = &mut buffer[..to.len() - hash.len() - 1];
    put_encoding(algorithm, hash, salt, spare, block, to);
}

// Whether an encoding is of this digest with this salt.
fn has_salt(
    algorithm: HashAlgorithm,
    digest: &[u8],
    salt: &[u8],
    spare: u32,
    encoding: &[u8],
) -> bool
    requires digest { length digest.now ≡ digest_size algorithm }
    requires spare { spare < 8 }
    requires few { length encoding.now ≤ MOST_ENCODING }
    requires room { digest_size algorithm + length salt.now + 2 ≤ length encoding.now }
    ensures { IsTrue result ↔ (encoding.now
        ≡ pss algorithm digest.now salt.now spare (length encoding.now)) }
{
    let mut buffer = [0; MOST_ENCODING];
    let expected = &mut buffer[..encoding.len()];
    encode(algorithm, digest, salt, spare, expected);
    same(expected, encoding)
}

// The same, with the salt that a DB without its mask ends by.
fn has_last_salt(
    algorithm: HashAlgorithm,
    digest: &[u8],
    block: &[u8],
    salt_size: usize,
    spare: u32,
    encoding: &[u8],
) -> bool
    requires digest { length digest.now ≡ digest_size algorithm }
    requires spare { spare < 8 }
    requires few { length encoding.now ≤ MOST_ENCODING }
    requires salt { salt_size ≤ length block.now }
    requires room { digest_size algorithm + salt_size + 2 ≤ length encoding.now }
    ensures { IsTrue result ↔ (encoding.now ≡ pss algorithm digest.now
        (drop (length block.now - salt_size) block.now) spare (length encoding.now)) }
{
    let salt = &block[block.len() - salt_size..];
    has_salt(algorithm, digest, salt, spare, encoding)
}

/// Whether an encoding is of this digest, with a salt of `salt_size` bytes.
pub fn verify(
    algorithm: HashAlgorithm,
    digest: &[u8],
    salt_size: usize,
    spare: u32,
    encoding: &[u8],
) -> bool
    requires digest { length digest.now ≡ digest_size algorithm }
    requires spare { spare < 8 }
    requires few { length encoding.now ≤ MOST_ENCODING }
    ensures { IsTrue result ↔ IsPss algorithm digest.now salt_size spare encoding.now }
{
    let overhead = algorithm.digest_size() + 2;
    if encoding.len() < overhead || encoding.len() - overhead < salt_size {
        return false;
    }
    let end = encoding.len() - overhead + 1;
    let hash = &encoding[end..encoding.len() - 1];
    let mut buffer = [0; MOST_ENCODING];
    let block = &mut buffer[..end];
    block.copy_from_slice(&encoding[..end]);
    mask(algorithm, hash, block);
    has_last_salt(algorithm, digest, block, salt_size, spare, encoding)
}
