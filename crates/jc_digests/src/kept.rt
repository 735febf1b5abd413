//! Digests whose state stands as bytes between two pieces of a message: the hash value of the whole blocks, the open block, and the length
//! of the message. Zeros are the state of no message.

ghost use Rattle.std.specs.Prelude.{◌≡◌, ◌≤◌, ◌<◌, ◌+◌, ◌-◌, ◌++◌, ℕ, List, length, replicate, take};
ghost use Rattle.std.specs.Int.{to_be_bytes, w64};
ghost use Rattle.jc_digests.specs.Kept.{HashForm, after_blocks, block_size, digest_of_state, digest_size, form_of, hash_in, hash_size, last_hash, length_in, md_5, next_state, sha_1, sha_256, sha_512, state_after, state_from, state_size, whole_blocks};
ghost use Rattle.jc_digests.specs.Pieces.{closed};

use crate::absorbing::{close, put, put_words_32, put_words_32_low_first, put_words_64, take_in};
use crate::constants::{
    INITIAL_HASH_128, INITIAL_HASH_160, INITIAL_HASH_224, INITIAL_HASH_256, INITIAL_HASH_384,
    INITIAL_HASH_512,
};
use crate::md_5::{Words128, length_field};
use crate::sha_1::Words160;
use crate::sha_256::Words32;
use crate::sha_512::Words64;
use crate::{md_5, sha_256, sha_512};

/// The hash functions.
#[derive(Clone, Copy)]
pub enum HashAlgorithm {
    Md5,
    Sha1,
    Sha224,
    Sha256,
    Sha384,
    Sha512,
}

/// How many bytes the longest state has.
pub const MOST_STATE: usize = 200;

/// How many bytes the longest hash value has.
pub const MOST_HASH: usize = 64;

// How many bytes the longest block has.
const MOST_BLOCK: usize = 128;

impl HashAlgorithm {
    /// How many bytes a digest has.
    pub fn digest_size(self) -> usize
        ensures { result ≡ digest_size self }
    {
        match self {
            HashAlgorithm::Md5 => 16,
            HashAlgorithm::Sha1 => 20,
            HashAlgorithm::Sha224 => 28,
            HashAlgorithm::Sha256 => 32,
            HashAlgorithm::Sha384 => 48,
            HashAlgorithm::Sha512 => 64,
        }
    }

    /// How many bytes a hash value has.
    pub fn hash_size(self) -> usize
        ensures { result ≡ hash_size self }
    {
        match self {
            HashAlgorithm::Md5 => 16,
            HashAlgorithm::Sha1 => 20,
            HashAlgorithm::Sha224 | HashAlgorithm::Sha256 => 32,
            HashAlgorithm::Sha384 | HashAlgorithm::Sha512 => 64,
        }
    }

    /// How many bytes a block has.
    pub fn block_size(self) -> usize
        ensures { result ≡ block_size self }
    {
        match self {
            HashAlgorithm::Md5
            | HashAlgorithm::Sha1
            | HashAlgorithm::Sha224
            | HashAlgorithm::Sha256 => 64,
            HashAlgorithm::Sha384 | HashAlgorithm::Sha512 => 128,
        }
    }

    /// How many bytes a state has.
    pub fn state_size(self) -> usize
        ensures size { result ≡ state_size self }
        ensures few { result ≤ MOST_STATE }
    {
        match self {
            HashAlgorithm::Md5 => 88,
            HashAlgorithm::Sha1 => 92,
            HashAlgorithm::Sha224 | HashAlgorithm::Sha256 => 104,
            HashAlgorithm::Sha384 | HashAlgorithm::Sha512 => 200,
        }
    }
}

// A hash value that stands as bytes between two pieces.
trait KeptHash: Copy {
    // The words of the hash value.
    ghost words: { Self → List ℕ };

    // How blocks are taken in, and how bytes say it.
    ghost form: { HashForm };

    // How many bytes the hash value has.
    fn width() -> usize
        ensures size { result ≡ form.width }
        ensures few { form.width ≤ MOST_HASH };

    // How many bytes a block has.
    fn block() -> usize
        ensures size { result ≡ form.block }
        ensures few { form.block ≤ MOST_BLOCK }
        ensures some { 0 < form.block };

    // The hash value of the first bytes.
    fn of_bytes(state: &[u8]) -> Self
        requires { form.width ≤ length state.now }
        ensures { words result ≡ form.value state.now };

    // The hash value by its bytes.
    fn put_bytes(&self, to: &mut [u8])
        requires { length to.old ≡ form.width }
        ensures { to.new ≡ form.bytes (words self.now) };

    // Takes in a piece after the first bytes of the open block; gives how many bytes of it there are then.
    fn take_in(&mut self, block: &mut [u8], used: usize, piece: &[u8]) -> usize
        requires block { length block.old ≡ form.block }
        requires used { used < form.block }
        ensures hash { words self.new ≡ whole_blocks form (words self.old)
            (take used block.old ++ piece.now) }
        ensures rest { take result block.new ≡ after_blocks form (take used block.old ++ piece.now) }
        ensures within { result < form.block };

    // Takes in the padding of a message of this length, of which the first bytes of the open block are the last.
    fn close(&mut self, block: &mut [u8], used: usize, count: u64)
        requires block { length block.old ≡ form.block }
        requires used { used < form.block }
        ensures { words self.new ≡ closed form.compressed form.block (words self.old)
            (take used block.old) (form.field count) };
}

impl KeptHash for Words128 {
    ghost words = { λ h. h.words };

    ghost form = { md_5 };

    fn width() -> usize {
        16
    }

    fn block() -> usize {
        64
    }

    fn of_bytes(state: &[u8]) -> Words128 {
        Words128 {
            words: [
                md_5::word_at(state, 0),
                md_5::word_at(state, 4),
                md_5::word_at(state, 8),
                md_5::word_at(state, 12),
            ],
        }
    }

    fn put_bytes(&self, to: &mut [u8]) {
        put_words_32_low_first(&self.words, 4, to);
    }

    fn take_in(&mut self, block: &mut [u8], used: usize, piece: &[u8]) -> usize {
        take_in(self, block, used, piece)
    }

    fn close(&mut self, block: &mut [u8], used: usize, count: u64) {
        close(self, block, used, &length_field(count));
    }
}

impl KeptHash for Words160 {
    ghost words = { λ h. h.words };

    ghost form = { sha_1 };

    fn width() -> usize {
        20
    }

    fn block() -> usize {
        64
    }

    fn of_bytes(state: &[u8]) -> Words160 {
        Words160 {
            words: [
                sha_256::word_at(state, 0),
                sha_256::word_at(state, 4),
                sha_256::word_at(state, 8),
                sha_256::word_at(state, 12),
                sha_256::word_at(state, 16),
            ],
        }
    }

    fn put_bytes(&self, to: &mut [u8]) {
        put_words_32(&self.words, 5, to);
    }

    fn take_in(&mut self, block: &mut [u8], used: usize, piece: &[u8]) -> usize {
        take_in(self, block, used, piece)
    }

    fn close(&mut self, block: &mut [u8], used: usize, count: u64) {
        close(self, block, used, &count.wrapping_mul(8).to_be_bytes());
    }
}

impl KeptHash for Words32 {
    ghost words = { λ h. h.words };

    ghost form = { sha_256 };

    fn width() -> usize {
        32
    }

    fn block() -> usize {
        64
    }

    fn of_bytes(state: &[u8]) -> Words32 {
        Words32 {
            words: [
                sha_256::word_at(state, 0),
                sha_256::word_at(state, 4),
                sha_256::word_at(state, 8),
                sha_256::word_at(state, 12),
                sha_256::word_at(state, 16),
                sha_256::word_at(state, 20),
                sha_256::word_at(state, 24),
                sha_256::word_at(state, 28),
            ],
        }
    }

    fn put_bytes(&self, to: &mut [u8]) {
        put_words_32(&self.words, 8, to);
    }

    fn take_in(&mut self, block: &mut [u8], used: usize, piece: &[u8]) -> usize {
        take_in(self, block, used, piece)
    }

    fn close(&mut self, block: &mut [u8], used: usize, count: u64) {
        close(self, block, used, &count.wrapping_mul(8).to_be_bytes());
    }
}

impl KeptHash for Words64 {
    ghost words = { λ h. h.words };

    ghost form = { sha_512 };

    fn width() -> usize {
        64
    }

    fn block() -> usize {
        128
    }

    fn of_bytes(state: &[u8]) -> Words64 {
        Words64 {
            words: [
                sha_512::word_at(state, 0),
                sha_512::word_at(state, 8),
                sha_512::word_at(state, 16),
                sha_512::word_at(state, 24),
                sha_512::word_at(state, 32),
                sha_512::word_at(state, 40),
                sha_512::word_at(state, 48),
                sha_512::word_at(state, 56),
            ],
        }
    }

    fn put_bytes(&self, to: &mut [u8]) {
        put_words_64(&self.words, 8, to);
    }

    fn take_in(&mut self, block: &mut [u8], used: usize, piece: &[u8]) -> usize {
        take_in(self, block, used, piece)
    }

    fn close(&mut self, block: &mut [u8], used: usize, count: u64) {
        close(
            self,
            block,
            used,
            &u128::from(count).wrapping_mul(8).to_be_bytes(),
        );
    }
}

// ---- states, whatever the hash function

// The hash value that a state says: the initial one, where nothing came.
fn hash_in<H: KeptHash>(initial: H, count: u64, state: &[u8]) -> H
    requires whole { H.form.width ≤ length state.now }
    requires count { count ≡ length_in H.form state.now }
    ensures { H.words result ≡ hash_in H.form (H.words initial) state.now }
{
    if count == 0 {
        initial
    } else {
        H::of_bytes(state)
    }
}

// The bytes of a block after the first ones become zeros.
fn clear(block: &mut [u8], used: usize)
    requires { used ≤ length block.old }
    ensures { block.new ≡ take used block.old ++ replicate (length block.old - used) 0 }
{
    block[used..].fill(0);
}

// A state by its three parts.
fn put_parts(hash: &[u8], block: &[u8], count: u64, state: &mut [u8])
    requires { length state.old ≡ length hash.now + length block.now + 8 }
    ensures { state.new ≡ hash.now ++ block.now ++ to_be_bytes w64 count }
{
    put(state, 0, hash);
    put(state, hash.len(), block);
    put(state, hash.len() + block.len(), &count.to_be_bytes());
}

// The state of a hash value, of an open block, and of a length.
fn put_state<H: KeptHash>(hash: H, block: &[u8], count: u64, state: &mut [u8])
    requires block { length block.now ≡ H.form.block }
    requires whole { length state.old ≡ H.form.width + H.form.block + 8 }
    ensures { state.new ≡ H.form.bytes (H.words hash) ++ block.now ++ to_be_bytes w64 count }
{
    let mut buffer = [0; MOST_HASH];
    let value = &mut buffer[..H::width()];
    hash.put_bytes(value);
    put_parts(value, block, count, state);
}

// Takes in a piece.
#[tactic(auto, unfolding(crate::specs::Kept::next_state))]
fn next_state<H: KeptHash>(initial: H, state: &mut [u8], piece: &[u8])
    requires { length state.old ≡ H.form.width + H.form.block + 8 }
    ensures { state.new ≡ next_state H.form (H.words initial) state.old piece.now }
{
    let width = H::width();
    let size = H::block();
    let count = sha_512::word_at(state, width + size);
    let mut hash = hash_in(initial, count, state);
    let mut buffer = [0; MOST_BLOCK];
    let block = &mut buffer[..size];
    block.copy_from_slice(&state[width..width + size]);
    let used = hash.take_in(block, (count % size as u64) as usize, piece);
    clear(block, used);
    put_state(hash, block, count.wrapping_add(piece.len() as u64), state);
}

// The hash value of a message with its padding.
#[tactic(auto, unfolding(crate::specs::Kept::last_hash))]
fn last_hash<H: KeptHash>(initial: H, state: &[u8]) -> H
    requires { length state.now ≡ H.form.width + H.form.block + 8 }
    ensures { H.words result ≡ last_hash H.form (H.words initial) state.now }
{
    let width = H::width();
    let size = H::block();
    let count = sha_512::word_at(state, width + size);
    let mut hash = hash_in(initial, count, state);
    let mut buffer = [0; MOST_BLOCK];
    let block = &mut buffer[..size];
    block.copy_from_slice(&state[width..width + size]);
    hash.close(block, (count % size as u64) as usize, count);
    hash
}

// The first bytes of that.
fn put_digest<H: KeptHash>(initial: H, state: &[u8], to: &mut [u8])
    requires whole { length state.now ≡ H.form.width + H.form.block + 8 }
    requires few { length to.old ≤ H.form.width }
    ensures { to.new ≡ take (length to.old)
        (H.form.bytes (last_hash H.form (H.words initial) state.now)) }
{
    let hash = last_hash(initial, state);
    let mut buffer = [0; MOST_HASH];
    let value = &mut buffer[..H::width()];
    hash.put_bytes(value);
    to.copy_from_slice(&value[..to.len()]);
}

// ---- the hash functions

const MD5: Words128 = Words128 {
    words: INITIAL_HASH_128,
};

const SHA_1: Words160 = Words160 {
    words: INITIAL_HASH_160,
};

const SHA_224: Words32 = Words32 {
    words: INITIAL_HASH_224,
};

const SHA_256: Words32 = Words32 {
    words: INITIAL_HASH_256,
};

const SHA_384: Words64 = Words64 {
    words: INITIAL_HASH_384,
};

const SHA_512: Words64 = Words64 {
    words: INITIAL_HASH_512,
};

/// Takes a piece of a message into a state.
pub fn update_state(algorithm: HashAlgorithm, state: &mut [u8], piece: &[u8])
    requires { length state.old ≡ state_size algorithm }
    ensures { state.new ≡ state_after algorithm state.old piece.now }
{
    match algorithm {
        HashAlgorithm::Md5 => next_state(MD5, state, piece),
        HashAlgorithm::Sha1 => next_state(SHA_1, state, piece),
        HashAlgorithm::Sha224 => next_state(SHA_224, state, piece),
        HashAlgorithm::Sha256 => next_state(SHA_256, state, piece),
        HashAlgorithm::Sha384 => next_state(SHA_384, state, piece),
        HashAlgorithm::Sha512 => next_state(SHA_512, state, piece),
    }
}

/// Writes the digest of the message that a state has taken in.
pub fn put_digest_of(algorithm: HashAlgorithm, state: &[u8], to: &mut [u8])
    requires state { length state.now ≡ state_size algorithm }
    requires digest { length to.old ≡ digest_size algorithm }
    ensures { to.new ≡ digest_of_state algorithm state.now }
{
    match algorithm {
        HashAlgorithm::Md5 => put_digest(MD5, state, to),
        HashAlgorithm::Sha1 => put_digest(SHA_1, state, to),
        HashAlgorithm::Sha224 => put_digest(SHA_224, state, to),
        HashAlgorithm::Sha256 => put_digest(SHA_256, state, to),
        HashAlgorithm::Sha384 => put_digest(SHA_384, state, to),
        HashAlgorithm::Sha512 => put_digest(SHA_512, state, to),
    }
}

/// Writes the state of a message of which the hash value of its whole blocks is given, and which has no other bytes.
pub fn begin_state(algorithm: HashAlgorithm, hash: &[u8], count: u64, state: &mut [u8])
    requires hash { length hash.now ≡ hash_size algorithm }
    requires state { length state.old ≡ state_size algorithm }
    ensures { state.new ≡ state_from algorithm hash.now count }
{
    let zeros = [0; MOST_BLOCK];
    put_parts(hash, &zeros[..algorithm.block_size()], count, state);
}
