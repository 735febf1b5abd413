//! The key schedule: bits a byte each, and at the end six bits a byte.

ghost use Rattle.std.specs.Prelude.{◌≡◌, ◌≤◌, ◌<◌, ◌+◌, length, slice_index, take, ◌++◌};
ghost use Rattle.jc_ciphers.specs.Des.{schedule, shifted};
ghost use Rattle.jc_ciphers.specs.DesNumbers.{sixes};
ghost use Rattle.jc_ciphers.specs.DesTables.{key_choice_1, key_choice_2, shifts};

use crate::des_bits::{bits_of, select};
use crate::des_tables::{KEY_CHOICE_1, KEY_CHOICE_2, SHIFTS};

fn shifted(halves: &[u8; 56], s: u8) -> [u8; 56]
    ensures { result ≡ shifted halves.now s }
{
    let mut to = [0; 56];
    'bits: for i in 0..56 {
        to[i] = halves[i / 28 * 28 + (i % 28 + usize::from(s)) % 28];
    }
    to
}

// How far the halves turn before round key `n`.
fn shift(n: usize) -> u8
    requires { n < 16 }
    ensures { result ≡ slice_index shifts n }
{
    SHIFTS[n]
}

// The round keys end by this one.
fn put_key(keys: &mut [u8], at: usize, key: &[u8; 48])
    requires { at + 48 ≤ length keys.old }
    ensures { take (at + 48) keys.new ≡ take at keys.old ++ key.now }
{
    keys[at..at + 48].copy_from_slice(key);
}

// The bits of all round keys.
fn schedule(key: &[u8; 8]) -> [u8; 768]
    ensures { result ≡ schedule key.now 16 }
{
    let mut halves = [0; 56];
    select(&KEY_CHOICE_1, &bits_of(key), 64, &mut halves);
    let mut keys = [0; 768];
    'keys: for n in 0..16 {
        halves = shifted(&halves, shift(n));
        let mut round_key = [0; 48];
        select(&KEY_CHOICE_2, &halves, 56, &mut round_key);
        put_key(&mut keys, 48 * n, &round_key);
    }
    keys
}

fn sixes(bits: &[u8; 768]) -> [u8; 128]
    ensures { result ≡ sixes bits.now }
{
    let mut to = [0; 128];
    'sixes: for i in 0..128 {
        to[i] = 32 * (bits[6 * i] % 2)
            + 16 * (bits[6 * i + 1] % 2)
            + 8 * (bits[6 * i + 2] % 2)
            + 4 * (bits[6 * i + 3] % 2)
            + 2 * (bits[6 * i + 4] % 2)
            + bits[6 * i + 5] % 2;
    }
    to
}

// All round keys, six bits a byte.
pub(crate) fn round_keys(key: &[u8; 8]) -> [u8; 128]
    ensures { result ≡ sixes (schedule key.now 16) }
{
    sixes(&schedule(key))
}
