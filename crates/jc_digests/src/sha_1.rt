//! SHA-1 (FIPS 180-4).

ghost use Rattle.std.specs.Prelude.{◌≡◌, ◌≤◌, ◌+◌, ◌^◌, ℕ, List, length};
ghost use Rattle.sha1.specs.Sha1.{compress, initial_hash, next_word, round, round_constant, round_fn, rounds, schedule, sha1, word_at};
ghost use Rattle.jc_digests.specs.Pieces.{Holds};

use crate::absorbing::{Compression, close_64, put_words_32, update_64};
use crate::constants::INITIAL_HASH_160;
use crate::digest::Digest;

// f of the round `t`.
#[inline(always)]
fn round_fn(t: usize, x: u32, y: u32, z: u32) -> u32
    ensures { result ≡ round_fn t x y z }
{
    if t < 20 {
        (x & y) ^ (!x & z)
    } else if t < 40 {
        x ^ y ^ z
    } else if t < 60 {
        (x & y) ^ (x & z) ^ (y & z)
    } else {
        x ^ y ^ z
    }
}

// K of the round `t`.
#[inline(always)]
fn round_constant(t: usize) -> u32
    ensures { result ≡ round_constant t }
{
    if t < 20 {
        0x5a827999
    } else if t < 40 {
        0x6ed9eba1
    } else if t < 60 {
        0x8f1bbcdc
    } else {
        0xca62c1d6
    }
}

fn word_at(block: &[u8], i: usize) -> u32
    requires { i + 4 ≤ length block.now }
    ensures { result ≡ word_at block.now i }
{
    u32::from_be_bytes([block[i], block[i + 1], block[i + 2], block[i + 3]])
}

// The word that follows `words`, of which there are at least 16.
fn next_word(words: &[u32]) -> u32
    requires { 16 ≤ length words.now }
    ensures { result ≡ next_word words.now (length words.now) }
{
    let t = words.len();
    (words[t - 3] ^ words[t - 8] ^ words[t - 14] ^ words[t - 16]).rotate_left(1)
}

// Writes the words of all rounds.
fn schedule(block: &[u8], words: &mut [u32])
    requires block { length block.now ≡ 64 }
    requires words { length words.old ≡ 80 }
    ensures { words.new ≡ schedule block.now 64 }
{
    'first: for i in 0..16 {
        words[i] = word_at(block, 4 * i);
    }
    'next: for t in 16..80 {
        words[t] = next_word(&words[..t]);
    }
}

#[inline(always)]
fn round(v: [u32; 5], f: u32, k: u32, word: u32) -> [u32; 5]
    ensures { result ≡ round v f k word }
{
    let [a, b, c, d, e] = v;
    let next = a
        .rotate_left(5)
        .wrapping_add(f)
        .wrapping_add(e)
        .wrapping_add(k)
        .wrapping_add(word);
    [next, a, b.rotate_left(30), c, d]
}

// Takes the working variables after the rounds before `from` through those before `to`.
#[inline(always)]
fn rounds(v: [u32; 5], words: &[u32; 80], from: usize, to: usize) -> [u32; 5]
    requires order { from ≤ to }
    requires within { to ≤ 80 }
    ensures { (h : List ℕ) → v ≡ rounds h words.now from → result ≡ rounds h words.now to }
{
    let mut v = v;
    'rounds: for t in from..to {
        v = round(
            v,
            round_fn(t, v[1], v[2], v[3]),
            round_constant(t),
            words[t],
        );
    }
    v
}

/// A hash value.
#[derive(Clone, Copy)]
pub struct Words160 {
    /// Its five words.
    pub words: [u32; 5],
}

impl Compression for Words160 {
    ghost words = { λ h. h.words };

    ghost compressed = { compress };

    ghost size = { 64 };

    fn compress(&mut self, block: &[u8]) {
        let mut words = [0; 80];
        schedule(block, &mut words);
        let v = rounds(self.words, &words, 0, 20);
        let v = rounds(v, &words, 20, 40);
        let v = rounds(v, &words, 40, 60);
        let v = rounds(v, &words, 60, 80);
        self.words = [
            self.words[0].wrapping_add(v[0]),
            self.words[1].wrapping_add(v[1]),
            self.words[2].wrapping_add(v[2]),
            self.words[3].wrapping_add(v[3]),
            self.words[4].wrapping_add(v[4]),
        ];
    }
}

/// A message under SHA-1, as its caller keeps it.
#[derive(Drop)]
pub struct Sha1 {
    /// The hash value of its whole blocks.
    pub hash: Words160,

    /// The bytes of its open block, and then any.
    pub block: [u8; 64],

    /// Its length in bytes, modulo 2^64.
    pub count: u64,
}

impl Digest for Sha1 {
    ghost digest = { sha1 };

    ghost holds = { λ s m. Holds compress 64 (2 ^ 64) initial_hash s.hash.words s.block s.count m };

    ghost size = { 20 };

    ghost block_size = { 64 };

    fn size() -> usize {
        20
    }

    fn block_size() -> usize {
        64
    }

    fn new() -> Sha1 {
        Sha1 {
            hash: Words160 {
                words: INITIAL_HASH_160,
            },
            block: [0; 64],
            count: 0,
        }
    }

    fn update(&mut self, piece: &[u8]) {
        update_64(&mut self.hash, &mut self.block, &mut self.count, piece);
    }

    fn finish(mut self, to: &mut [u8]) {
        let field = self.count.wrapping_mul(8).to_be_bytes();
        close_64(&mut self.hash, &mut self.block, self.count, &field);
        put_words_32(&self.hash.words, 5, to);
    }
}
