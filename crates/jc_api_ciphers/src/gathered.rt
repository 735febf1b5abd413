//! Bytes that are gathered in a state: two bytes, how many there are, and room for as many as the longest modulus has.
ghost use Rattle.std.specs.Prelude.{◌≡◌, ◌≤◌, ◌+◌, ◌++◌, false, length, take};
ghost use Rattle.jc_world.specs.Arrays.{IsInArray, bytes_in};
ghost use Rattle.jc_api.specs.Changing.{IsState};
ghost use Rattle.jc_api_ciphers.specs.Cipher.Kinds.{rsa_shorts};
ghost use Rattle.jc_api_ciphers.specs.Gathered.{gathered, gathered_in, state_of};
ghost use Rattle.jc_api_keys.specs.Shorts.{shorts_of};

use crate::cipher::kinds::{RSA_SHORTS, RSA_STATE};
use jc_api_keys::receivers::{read, read_state};
use jc_api_keys::shorts::put_shorts_of;
use jc_memory::Memory;
use jc_rsa::bytes::MOST_ENCODING;
use jc_words::WordStore;
use jc_world::Stretch;

// Writes what came, by the bytes of a state, and returns how many bytes that is.
fn put_gathered(bytes: &[u8], to: &mut [u8]) -> usize
    requires bytes { length bytes.now ≡ RSA_STATE }
    requires room { length to.old ≡ MOST_ENCODING }
    ensures gathered { take result to.new ≡ gathered_in bytes.now }
    ensures few { result ≤ MOST_ENCODING }
{
    let count = (usize::from(bytes[0]) * 256 + usize::from(bytes[1])).min(MOST_ENCODING);
    to[..count].copy_from_slice(&bytes[2..2 + count]);
    count
}

/// Writes what came, and returns how many bytes that is.
pub(crate) fn read_gathered<S: WordStore>(
    state: Stretch,
    memory: &Memory<S>,
    to: &mut [u8],
) -> usize
    requires up { memory.now.heap.down ≡ false }
    requires there { IsState memory.now state }
    requires all { state.count ≡ rsa_shorts }
    requires room { length to.old ≡ MOST_ENCODING }
    ensures gathered { take result to.new ≡ gathered memory.now state }
    ensures few { result ≤ MOST_ENCODING }
{
    let mut words = [0; RSA_SHORTS];
    let mut bytes = [0; RSA_STATE];
    read_state(state, memory, &mut words, &mut bytes);
    put_gathered(&bytes, to)
}

/// Writes elements after as many bytes as stand there.
pub(crate) fn put_piece<S: WordStore>(
    count: usize,
    piece: Stretch,
    memory: &Memory<S>,
    to: &mut [u8],
)
    requires up { memory.now.heap.down ≡ false }
    requires piece { IsInArray memory.now piece }
    requires room { count + piece.count ≤ length to.old }
    ensures { take (count + piece.count) to.new ≡ take count to.old ++ bytes_in memory.now piece }
{
    read(piece, memory, &mut to[count..count + piece.count as usize]);
}

// Writes the bytes of a state that says that this came.
fn put_state(all: &[u8], to: &mut [u8])
    requires all { length all.now ≤ MOST_ENCODING }
    requires room { length to.old ≡ RSA_STATE }
    ensures { to.new ≡ state_of all.now }
{
    let (count, bytes) = to.split_at_mut(2);
    count.copy_from_slice(&(all.len() as u16).to_be_bytes());
    let (first, rest) = bytes.split_at_mut(all.len());
    first.copy_from_slice(all);
    rest.fill(0);
}

/// Writes the shorts of a state that says that this came.
pub(crate) fn put_gathered_words(all: &[u8], to: &mut [u16])
    requires all { length all.now ≤ MOST_ENCODING }
    requires room { length to.old ≡ RSA_SHORTS }
    ensures { to.new ≡ shorts_of (state_of all.now) }
{
    let mut bytes = [0; RSA_STATE];
    put_state(all, &mut bytes);
    put_shorts_of(&bytes, to);
}
