//! HMAC whose state stands as bytes between two pieces of a message: the state of its inner digest. Zeros are the state of no message.

ghost use Rattle.std.specs.Prelude.{◌≡◌, ◌==◌, length};
ghost use Rattle.jc_digests.specs.Kept.{block_size, digest_size, form_of, length_in, state_size};
ghost use Rattle.jc_ciphers.specs.Kept.Hmac.{digest_of_whole, hmac_of_state, hmac_state_after, inner_state, keyed_state};
ghost use Rattle.jc_ciphers.specs.Macs.{key_block};

use crate::hmac::{mark, put_padded};
use jc_digests::kept::{HashAlgorithm, MOST_HASH, MOST_STATE, put_digest_of, update_state};

// How many bytes the longest block has.
const MOST_BLOCK: usize = 128;

// Whether a state has taken in nothing.
fn is_empty(algorithm: HashAlgorithm, state: &[u8]) -> bool
    requires { length state.now ≡ state_size algorithm }
    ensures { result ≡ (length_in (form_of algorithm) state.now == 0) }
{
    let at = state.len() - 8;
    let count = u64::from_be_bytes([
        state[at],
        state[at + 1],
        state[at + 2],
        state[at + 3],
        state[at + 4],
        state[at + 5],
        state[at + 6],
        state[at + 7],
    ]);
    count == 0
}

// Writes the digest of a message.
fn put_digest(algorithm: HashAlgorithm, message: &[u8], to: &mut [u8])
    requires { length to.old ≡ digest_size algorithm }
    ensures { to.new ≡ digest_of_whole algorithm message.now }
{
    let mut buffer = [0; MOST_STATE];
    let state = &mut buffer[..algorithm.state_size()];
    update_state(algorithm, state, message);
    put_digest_of(algorithm, state, to);
}

// Writes a key, or its digest if it is longer than a block, and zeros.
#[tactic(auto, using(crate::proofs::DigestSizes::digest_few, crate::proofs::DigestSizes::digest_fits))]
fn put_key_block(algorithm: HashAlgorithm, key: &[u8], to: &mut [u8])
    requires { length to.old ≡ block_size algorithm }
    ensures { to.new ≡ key_block (digest_of_whole algorithm) (block_size algorithm) key.now }
{
    if key.len() <= to.len() {
        put_padded(to, key);
        return;
    }
    let mut buffer = [0; MOST_HASH];
    let digest = &mut buffer[..algorithm.digest_size()];
    put_digest(algorithm, key, digest);
    put_padded(to, digest);
}

// Writes the state of a digest that has taken in a marked key.
#[tactic(auto, using(crate::proofs::DigestSizes::block_few))]
fn put_keyed_state(algorithm: HashAlgorithm, key: &[u8], pad: u8, state: &mut [u8])
    requires { length state.old ≡ state_size algorithm }
    ensures { state.new ≡ keyed_state algorithm key.now pad }
{
    let mut buffer = [0; MOST_BLOCK];
    let block = &mut buffer[..algorithm.block_size()];
    put_key_block(algorithm, key, block);
    let mut buffer = [0; MOST_BLOCK];
    let marked = &mut buffer[..block.len()];
    mark(marked, block, pad);
    state.fill(0);
    update_state(algorithm, state, marked);
}

/// Takes a piece of a message under a key into a state.
pub fn update_hmac(algorithm: HashAlgorithm, key: &[u8], state: &mut [u8], piece: &[u8])
    requires { length state.old ≡ state_size algorithm }
    ensures { state.new ≡ hmac_state_after algorithm key.now state.old piece.now }
{
    if is_empty(algorithm, state) {
        put_keyed_state(algorithm, key, 0x36, state);
    }
    update_state(algorithm, state, piece);
}

/// Writes the code, under a key, of the message that a state has taken in and that ends by a piece.
pub fn put_hmac_of(algorithm: HashAlgorithm, key: &[u8], state: &[u8], piece: &[u8], to: &mut [u8])
    requires state { length state.now ≡ state_size algorithm }
    requires code { length to.old ≡ digest_size algorithm }
    ensures { to.new ≡ hmac_of_state algorithm key.now state.now piece.now }
{
    let mut buffer = [0; MOST_STATE];
    let state_after = &mut buffer[..algorithm.state_size()];
    state_after.copy_from_slice(state);
    update_hmac(algorithm, key, state_after, piece);
    put_digest_of(algorithm, state_after, to);
    put_keyed_state(algorithm, key, 0x5c, state_after);
    update_state(algorithm, state_after, to);
    put_digest_of(algorithm, state_after, to);
}
