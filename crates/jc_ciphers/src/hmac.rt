//! HMAC over any digest (RFC 2104).

ghost use Rattle.std.specs.Prelude.{◌≡◌, ◌≤◌, ◌-◌, ◌++◌, ℕ, List, [], length, replicate};
ghost use Rattle.jc_ciphers.specs.Macs.{IsKeyed, hmac, key_block, marked};

use crate::bytes::{clear_from, put};
use jc_digests::digest::Digest;

/// A message under a key: what goes into the inner digest and into the outer one.
#[derive(Drop)]
pub struct Hmac<D: Digest> {
    /// The inner digest, of the key and the message.
    pub inner: D,

    /// The outer digest, of the key alone.
    pub outer: D,
}

pub(crate) fn mark(to: &mut [u8], key: &[u8], pad: u8)
    requires { length to.old ≡ length key.now }
    ensures { to.new ≡ marked key.now pad (length key.now) }
{
    'bytes: for i in 0..key.len() {
        to[i] = key[i] ^ pad;
    }
}

// Bytes and zeros.
pub(crate) fn put_padded(to: &mut [u8], bytes: &[u8])
    requires { length bytes.now ≤ length to.old }
    ensures { to.new ≡ bytes.now ++ replicate (length to.old - length bytes.now) 0 }
{
    put(to, 0, bytes);
    clear_from(to, bytes.len());
}

// A key, or its digest if it is longer than a block, and zeros.
fn key_block<D: Digest>(key: &[u8], to: &mut [u8])
    requires block { length to.old ≡ D.block_size }
    requires fits { D.block_size ≤ 128 }
    requires size { D.size ≤ D.block_size }
    ensures { to.new ≡ key_block D.digest D.block_size key.now }
{
    if key.len() <= to.len() {
        put_padded(to, key);
        return;
    }
    let mut digest = D::new();
    digest.update(key);
    let mut bytes = [0; 128];
    let bytes = &mut bytes[..D::size()];
    digest.finish(bytes);
    put_padded(to, bytes);
}

// The digest of a marked key, and of what follows.
fn begun<D: Digest>(block: &[u8], pad: u8) -> D
    requires block { length block.now ≡ D.block_size }
    requires fits { length block.now ≤ 128 }
    ensures { D.holds result (marked block.now pad D.block_size) }
{
    let mut bytes = [0; 128];
    let bytes = &mut bytes[..block.len()];
    mark(bytes, block, pad);
    let mut digest = D::new();
    digest.update(bytes);
    digest
}

impl<D: Digest> Hmac<D> {
    /// The empty message under a key.
    pub fn new(key: &[u8]) -> Hmac<D>
        requires fits { D.block_size ≤ 128 }
        requires size { D.size ≤ D.block_size }
        ensures { IsKeyed D.holds D.digest D.block_size result.inner result.outer key.now [] }
    {
        let mut block = [0; 128];
        let block = &mut block[..D::block_size()];
        key_block::<D>(key, block);
        Hmac {
            inner: begun(block, 0x36),
            outer: begun(block, 0x5c),
        }
    }

    /// Adds a piece to the message.
    pub fn update(&mut self, piece: &[u8])
        ensures { (key m : List ℕ) → IsKeyed D.holds D.digest D.block_size self.old.inner self.old.outer key m
            → IsKeyed D.holds D.digest D.block_size self.new.inner self.new.outer key (m ++ piece.now) }
    {
        self.inner.update(piece);
    }

    /// Writes the code of the message.
    pub fn finish(self, to: &mut [u8])
        requires { length to.old ≡ D.size }
        ensures { (key m : List ℕ) → IsKeyed D.holds D.digest D.block_size self.inner self.outer key m
            → to.new ≡ hmac D.digest D.block_size key m }
    {
        let mut outer = self.outer;
        self.inner.finish(to);
        outer.update(to);
        outer.finish(to);
    }
}
