//! AES on a block, with the key's schedule made once.

ghost use Rattle.std.specs.Prelude.{◌≡◌, ◌≤◌, ◌<◌, ◌+◌, ◌-◌, ◌*◌, ◌/◌, ◌^◌, length, take, ◌++◌};
ghost use Rattle.jc_ciphers.specs.AesPlace.{IsPlace};
ghost use Rattle.jc_ciphers.specs.Aes.{IsKeyLength, IsRoundCount, cipher_with, decrypted, encrypted, inv_cipher_with, mixed_word, next_word, schedule, word_before};

use crate::aes_field::sub_byte;
use crate::aes_place::{Place, next_place};
use crate::aes_rounds::{
    add_round_key, inv_mix_columns, inv_shift_and_sub, sub_and_shift, sub_shift_and_mix,
};

// x ^ (i - 1) at place i, from 1 on.
const ROUND_CONSTANTS: [u8; 11] = [
    0x01, 0x01, 0x02, 0x04, 0x08, 0x10, 0x20, 0x40, 0x80, 0x1b, 0x36,
];

/// A key with its schedule.
#[derive(Drop)]
pub struct Aes {
    key: [u8; 32],
    words: [u8; 240],
    rounds: usize,
    ghost some: { 10 ≤ rounds },
    ghost fits: { rounds ≤ 14 },
    ghost sized: { length (take (4 * (rounds - 6)) key) / 4 + 6 ≡ rounds },
    ghost scheduled: { take (16 * (rounds + 1)) words
        ≡ schedule (take (4 * (rounds - 6)) key) (4 * (rounds + 1)) },
}

// What is added to the word a key's length before one: of the word right before that, where that stands.
#[tactic(auto, using(crate::proofs::AesTables::round_constants_at, crate::proofs::AesProducts::xor_zero))]
fn mixed_word(before: [u8; 4], key_words: usize, place: &Place) -> [u8; 4]
    requires turns { place.now.turn ≤ 10 }
    ensures { result ≡ mixed_word key_words before place.now.turn place.now.rest }
{
    if place.rest == 0 {
        [
            sub_byte(before[1]) ^ ROUND_CONSTANTS[place.turn],
            sub_byte(before[2]),
            sub_byte(before[3]),
            sub_byte(before[0]),
        ]
    } else if key_words > 6 && place.rest == 4 {
        [
            sub_byte(before[0]),
            sub_byte(before[1]),
            sub_byte(before[2]),
            sub_byte(before[3]),
        ]
    } else {
        before
    }
}

// Word `i` of the schedule, after the word before it.
fn next_word(key: &[u8], w: &[u8], i: usize, place: &Place, before: [u8; 4]) -> [u8; 4]
    requires key { IsKeyLength (length key.now) }
    requires within { i < length key.now + 28 }
    requires long { length w.now ≡ 4 * i }
    requires place { IsPlace (length key.now / 4) i place.now }
    requires before { before ≡ word_before w.now i }
    ensures { result ≡ next_word key.now w.now i }
{
    let key_words = key.len() / 4;
    if i < key_words {
        [key[4 * i], key[4 * i + 1], key[4 * i + 2], key[4 * i + 3]]
    } else {
        let old = 4 * (i - key_words);
        let mixed = mixed_word(before, key_words, place);
        [
            w[old] ^ mixed[0],
            w[old + 1] ^ mixed[1],
            w[old + 2] ^ mixed[2],
            w[old + 3] ^ mixed[3],
        ]
    }
}

// The words end by this one.
#[tactic(auto, using(crate::proofs::AesPlaces::four_put))]
fn put_word(words: &mut [u8], at: usize, word: [u8; 4])
    requires { at + 4 ≤ length words.old }
    ensures { take (at + 4) words.new ≡ take at words.old ++ word }
{
    words[at] = word[0];
    words[at + 1] = word[1];
    words[at + 2] = word[2];
    words[at + 3] = word[3];
}

fn cipher_with(w: &[u8], count: usize, block: &[u8; 16]) -> [u8; 16]
    requires count { IsRoundCount count }
    requires long { 16 * (count + 1) ≤ length w.now }
    ensures { result ≡ cipher_with w.now count block.now }
{
    let mut s = add_round_key(block, w, 0);
    'round: for i in 0..count - 1 {
        s = add_round_key(&sub_shift_and_mix(&s), w, i + 1);
    }
    add_round_key(&sub_and_shift(&s), w, count)
}

fn inv_cipher_with(w: &[u8], count: usize, block: &[u8; 16]) -> [u8; 16]
    requires count { IsRoundCount count }
    requires long { 16 * (count + 1) ≤ length w.now }
    ensures { result ≡ inv_cipher_with w.now count block.now }
{
    let mut s = add_round_key(block, w, count);
    'round: for i in 0..count - 1 {
        s = inv_mix_columns(&add_round_key(&inv_shift_and_sub(&s), w, count - (i + 1)));
    }
    add_round_key(&inv_shift_and_sub(&s), w, 0)
}

// The bytes begin with the key.
fn put_key(bytes: &mut [u8; 32], key: &[u8])
    requires { length key.now ≤ 32 }
    ensures { take (length key.now) bytes.new ≡ key.now }
{
    bytes[..key.len()].copy_from_slice(key);
}

// The words of a key's schedule, and then any.
fn expanded(key: &[u8], rounds: usize) -> [u8; 240]
    requires key { IsKeyLength (length key.now) }
    requires rounds { rounds ≡ length key.now / 4 + 6 }
    ensures { take (16 * (rounds + 1)) result ≡ schedule key.now (4 * (rounds + 1)) }
{
    let mut words = [0; 240];
    let mut place = Place { turn: 0, rest: 0 };
    let mut before = [0; 4];
    'expansion: for i in 0..4 * (rounds + 1) {
        let word = next_word(key, &words[..4 * i], i, &place, before);
        put_word(&mut words, 4 * i, word);
        before = word;
        place = next_place(place, i, key.len() / 4);
    }
    words
}

impl Aes {
    ghost use Rattle.jc_ciphers.specs.AesKeys.{key_of};

    /// Makes the schedule of a key of 16, 24 or 32 bytes.
    pub fn new(key: &[u8]) -> Aes
        requires { IsKeyLength (length key.now) }
        ensures { key_of result ≡ key.now }
    {
        let rounds = key.len() / 4 + 6;
        let words = expanded(key, rounds);
        let mut bytes = [0; 32];
        put_key(&mut bytes, key);
        Aes {
            key: bytes,
            words,
            rounds,
        }
    }

    /// Enciphers a block.
    pub fn encrypt(&self, block: &[u8; 16]) -> [u8; 16]
        ensures { result ≡ encrypted (key_of self.now) block.now }
    {
        cipher_with(&self.words[..16 * (self.rounds + 1)], self.rounds, block)
    }

    /// Deciphers a block.
    pub fn decrypt(&self, block: &[u8; 16]) -> [u8; 16]
        ensures { result ≡ decrypted (key_of self.now) block.now }
    {
        inv_cipher_with(&self.words[..16 * (self.rounds + 1)], self.rounds, block)
    }
}
