//! The state of a message under a hash function, between two calls: shorts in an array.
ghost use Rattle.std.specs.Prelude.{◌≡◌, ◌≤◌, ◌*◌, false, length};
ghost use Rattle.jc_digests.specs.Kept.{digest_of_state, digest_size, state_after};
ghost use Rattle.jc_world.specs.Arrays.{IsInArray};
ghost use Rattle.jc_api_keys.specs.DigestStates.{IsRunning, bytes_after, digest_shorts};
ghost use Rattle.jc_api_keys.specs.Receivers.{bytes_of_state};
ghost use Rattle.jc_api_keys.specs.Shorts.{shorts_of};

use crate::receivers::{read, read_state};
use crate::shorts::put_shorts_of;
use jc_api::{MOST_ELEMENTS, SMALL_PIECE};
use jc_digests::kept::{HashAlgorithm, MOST_STATE, put_digest_of, update_state};
use jc_memory::Memory;
use jc_words::WordStore;
use jc_world::Stretch;

/// How many shorts the longest state has.
pub const MOST_SHORTS: usize = MOST_STATE / 2;

/// A message under a hash function: the cells of its state.
#[derive(Clone, Copy)]
pub struct RunningDigest {
    pub algorithm: HashAlgorithm,
    pub state: Stretch,
}

/// How many shorts a state has.
pub fn digest_shorts(algorithm: HashAlgorithm) -> u16
    ensures { result ≡ digest_shorts algorithm }
{
    (algorithm.state_size() / 2) as u16
}

// The bytes of the state once a piece follows.
fn next_bytes<S: WordStore>(own: &RunningDigest, piece: &[u8], memory: &Memory<S>, bytes: &mut [u8])
    requires up { memory.now.heap.down ≡ false }
    requires own { IsRunning memory.now own.now }
    requires all { length bytes.old ≡ 2 * digest_shorts own.now.algorithm }
    ensures { bytes.new ≡ state_after own.now.algorithm (bytes_of_state memory.now own.now.state) piece.now }
{
    let mut buffer = [0; MOST_SHORTS];
    let words = &mut buffer[..own.state.count as usize];
    read_state(own.state, memory, words, bytes);
    update_state(own.algorithm, bytes, piece);
}

// The bytes of the state once elements follow, at most this many.
#[inline(never)]
fn next_most<const MOST: usize, S: WordStore>(
    own: &RunningDigest,
    piece: Stretch,
    memory: &Memory<S>,
    bytes: &mut [u8],
)
    requires up { memory.now.heap.down ≡ false }
    requires own { IsRunning memory.now own.now }
    requires piece { IsInArray memory.now piece }
    requires few { piece.count ≤ MOST }
    requires most { MOST ≤ MOST_ELEMENTS }
    requires all { length bytes.old ≡ 2 * digest_shorts own.now.algorithm }
    ensures { bytes.new ≡ bytes_after memory.now own.now piece }
{
    let mut buffer = [0; MOST];
    let given = &mut buffer[..piece.count as usize];
    read(piece, memory, given);
    next_bytes(own, given, memory, bytes);
}

/// Writes the bytes of the state once elements follow.
pub fn put_next<S: WordStore>(
    own: &RunningDigest,
    piece: Stretch,
    memory: &Memory<S>,
    bytes: &mut [u8],
)
    requires up { memory.now.heap.down ≡ false }
    requires own { IsRunning memory.now own.now }
    requires piece { IsInArray memory.now piece }
    requires few { piece.count ≤ MOST_ELEMENTS }
    requires all { length bytes.old ≡ 2 * digest_shorts own.now.algorithm }
    ensures { bytes.new ≡ bytes_after memory.now own.now piece }
{
    if piece.count as usize <= SMALL_PIECE {
        next_most::<SMALL_PIECE, S>(own, piece, memory, bytes);
    } else {
        next_most::<MOST_ELEMENTS, S>(own, piece, memory, bytes);
    }
}

/// Writes the shorts of the state once elements follow.
pub fn put_next_words<S: WordStore>(
    own: &RunningDigest,
    piece: Stretch,
    memory: &Memory<S>,
    to: &mut [u16],
)
    requires up { memory.now.heap.down ≡ false }
    requires own { IsRunning memory.now own.now }
    requires piece { IsInArray memory.now piece }
    requires few { piece.count ≤ MOST_ELEMENTS }
    requires all { length to.old ≡ digest_shorts own.now.algorithm }
    ensures { to.new ≡ shorts_of (bytes_after memory.now own.now piece) }
{
    let mut state = [0; MOST_STATE];
    let bytes = &mut state[..2 * to.len()];
    put_next(own, piece, memory, bytes);
    put_shorts_of(bytes, to);
}

/// Writes the digest of the message with these elements.
pub fn digest<S: WordStore>(own: &RunningDigest, piece: Stretch, memory: &Memory<S>, to: &mut [u8])
    requires up { memory.now.heap.down ≡ false }
    requires own { IsRunning memory.now own.now }
    requires piece { IsInArray memory.now piece }
    requires few { piece.count ≤ MOST_ELEMENTS }
    requires all { length to.old ≡ digest_size own.now.algorithm }
    ensures { to.new ≡ digest_of_state own.now.algorithm (bytes_after memory.now own.now piece) }
{
    let mut state = [0; MOST_STATE];
    let bytes = &mut state[..2 * own.state.count as usize];
    put_next(own, piece, memory, bytes);
    put_digest_of(own.algorithm, bytes, to);
}
