//! DES on a block, with the key's schedule made once.

ghost use Rattle.std.specs.Prelude.{◌≡◌, ◌<◌, ◌+◌, ◌*◌, List, ℕ, slice_index};
ghost use Rattle.jc_ciphers.specs.Des.{crypted, decrypted, encrypted, mangled, place_of, schedule};
ghost use Rattle.jc_ciphers.specs.DesNumbers.{AreBits, IsBits, number_of, sixes, box_entry, nibble_table, source, wide_bit};
ghost use Rattle.jc_ciphers.specs.DesTables.{final_permutation, initial_permutation};

use crate::des_schedule::round_keys;
use crate::des_tables::{FINAL, INITIAL, SUBSTITUTED};

/// A key with its round keys, six bits a byte.
#[derive(Drop)]
pub struct Des {
    key: [u8; 8],
    keys: [u8; 128],
    ghost scheduled: { keys ≡ sixes (schedule key 16) },
}

// The bits of `x` in the order of a permutation, by its table.
#[inline(always)]
fn permuted(table: &[u64; 256], x: u64) -> u64
    ensures { (f : ℕ → ℕ) (p : List ℕ) → AreBits f → x ≡ number_of f 64 → table.now ≡ nibble_table p
        → ((j : ℕ) → j < 64 → source p j < 64) → result ≡ number_of (λ j. f (source p j)) 64 }
{
    let mut to = 0;
    'nibbles: for i in 0..16 {
        to ^= table[16 * i + ((x >> (60 - 4 * i)) % 16) as usize];
    }
    to
}

// The last bit, all bits and the first one again: eight windows of six bits, four apart, are E.
#[inline(always)]
fn wide(right: u32) -> u64
    ensures { (f : ℕ → ℕ) → AreBits f → right ≡ number_of f 32
        → result ≡ number_of (wide_bit f) 34 }
{
    let right = u64::from(right);
    right % 2 * 0x2_0000_0000 + right * 2 + right / 0x8000_0000
}

// What S-box `n` and P make of six bits.
#[tactic(auto, using(crate::proofs::DesGatherings::substituted_at))]
#[inline(always)]
fn substituted(n: usize, six: usize) -> u32
    requires number { n < 8 }
    requires bits { six < 64 }
    ensures { result ≡ box_entry (64 * n + six) }
{
    SUBSTITUTED[64 * n + six]
}

// f (R, K) with the round key `n`.
#[inline(always)]
fn mangled(right: u32, keys: &[u8; 128], n: usize) -> u32
    requires { n < 16 }
    ensures { (half bits : List ℕ) → IsBits half → IsBits bits → right ≡ number_of (slice_index half) 32
        → keys.now ≡ sixes bits → result ≡ number_of (slice_index (mangled half bits n)) 32 }
{
    let wide = wide(right);
    let mut mixed = 0;
    'boxes: for i in 0..8 {
        let six = ((wide >> (28 - 4 * i)) as usize ^ usize::from(keys[8 * n + i])) % 64;
        mixed ^= substituted(i, six);
    }
    mixed
}

// Which round key the round `n` has.
#[inline(always)]
fn place_of(backwards: bool, n: usize) -> usize
    requires { n < 16 }
    ensures place { result ≡ place_of backwards n }
    ensures within { result < 16 }
{
    if backwards { 15 - n } else { n }
}

// IP, by its table.
#[tactic(auto, using(crate::proofs::DesGatherings::initial_is))]
#[inline(always)]
fn initial() -> &'static [u64; 256]
    ensures { result.now ≡ nibble_table initial_permutation }
{
    &INITIAL
}

// The permutation that undoes it, by its table.
#[tactic(auto, using(crate::proofs::DesGatherings::final_is))]
#[inline(always)]
fn undoing() -> &'static [u64; 256]
    ensures { result.now ≡ nibble_table final_permutation }
{
    &FINAL
}

fn crypted(keys: &[u8; 128], block: &[u8; 8], backwards: bool) -> [u8; 8]
    ensures { (bits : List ℕ) → IsBits bits → keys.now ≡ sixes bits
        → result ≡ crypted backwards bits block.now }
{
    let halves = permuted(initial(), u64::from_be_bytes(*block));
    let mut left = (halves / 0x1_0000_0000) as u32;
    let mut right = (halves % 0x1_0000_0000) as u32;
    'rounds: for n in 0..16 {
        let next = left ^ mangled(right, keys, place_of(backwards, n));
        left = right;
        right = next;
    }
    let swapped = u64::from(right) * 0x1_0000_0000 + u64::from(left);
    permuted(undoing(), swapped).to_be_bytes()
}

impl Des {
    ghost use Rattle.jc_ciphers.specs.DesKeys.{key_of};

    /// Makes the schedule of a key, whose parity bits do not count.
    pub fn new(key: &[u8; 8]) -> Des
        ensures { key_of result ≡ key.now }
    {
        Des {
            key: *key,
            keys: round_keys(key),
        }
    }

    /// Enciphers a block.
    pub fn encrypt(&self, block: &[u8; 8]) -> [u8; 8]
        ensures { result ≡ encrypted (key_of self.now) block.now }
    {
        crypted(&self.keys, block, false)
    }

    /// Deciphers a block.
    pub fn decrypt(&self, block: &[u8; 8]) -> [u8; 8]
        ensures { result ≡ decrypted (key_of self.now) block.now }
    {
        crypted(&self.keys, block, true)
    }
}
