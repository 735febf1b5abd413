//! What becomes of a checksum.
ghost use Rattle.std.specs.Prelude.{◌≡◌, ◌≤◌, false, pos, replicate, take, Some, None, Ok};
ghost use Rattle.jc_memory.specs.Cells.{words_at};
ghost use Rattle.jc_memory.specs.Programs.{Executes};
ghost use Rattle.jc_world.specs.Arrays.{IsInArray};
ghost use Rattle.jc_world.specs.NativeCalls.{after_call};
ghost use Rattle.jc_api.specs.Arguments.{AreAsked};
ghost use Rattle.jc_api.specs.Changing.{changes, changes_and_puts, changing_call};
ghost use Rattle.jc_api_crypto.specs.Checksum.{IsRunning, begins_with, checksum_shorts, checksum_size, next_16, next_32, shorts_after, words_after};
ghost use Rattle.jc_api_keys.specs.Shorts.{bytes_of_shorts};

use crate::checksum::{ChecksumAlgorithm, RunningChecksum, checksum_shorts};
use jc_api::{MOST_ELEMENTS, SMALL_PIECE, StateWords, change_state, change_state_and_put};
use jc_api_keys::exceptions::ILLEGAL_VALUE;
use jc_api_keys::receivers::read;
use jc_api_keys::shorts::{put_bytes_of, put_shorts_of};
use jc_digests::checksums::{update_16, update_32};
use jc_linker::linked::Linked;
use jc_memory::Memory;
use jc_words::WordStore;
use jc_world::{NativeResult, StepExit, Stretch};

// How many shorts the longest checksum has.
const MOST_SHORTS: usize = 2;

// The checksum of 16 bits once a piece follows.
fn next_16(checksum: u16, piece: &[u8]) -> u16
    ensures { result ≡ next_16 checksum piece.now }
{
    u16::MAX - update_16(u16::MAX - checksum, piece)
}

// The checksum of 32 bits once a piece follows.
fn next_32(checksum: u32, piece: &[u8]) -> u32
    ensures { result ≡ next_32 checksum piece.now }
{
    u32::MAX - update_32(u32::MAX - checksum, piece)
}

// The shorts of a checksum once a piece follows; a zero comes after that of 16 bits.
fn shorts_after(
    algorithm: ChecksumAlgorithm,
    words: [u16; MOST_SHORTS],
    piece: &[u8],
) -> [u16; MOST_SHORTS]
    ensures { take (checksum_shorts algorithm) result
        ≡ shorts_after algorithm (take (checksum_shorts algorithm) words) piece.now }
{
    let [high, low] = words;
    match algorithm {
        ChecksumAlgorithm::Crc16 => [next_16(high, piece), 0],
        ChecksumAlgorithm::Crc32 => {
            let next = next_32(u32::from(high) * 65536 + u32::from(low), piece);
            [(next / 65536) as u16, (next % 65536) as u16]
        }
    }
}

// The shorts of a checksum, and then zeros.
fn shorts_of<S: WordStore>(own: &RunningChecksum, memory: &Memory<S>) -> [u16; MOST_SHORTS]
    requires up { memory.now.heap.down ≡ false }
    requires own { IsRunning memory.now own.now }
    ensures { take (checksum_shorts own.now.algorithm) result
        ≡ words_at memory.now own.now.state.array own.now.state.start own.now.state.count }
{
    let state = own.state;
    let mut shorts = [0; MOST_SHORTS];
    let words = &mut shorts[..state.count as usize];
    memory.words(state.array, state.start, words);
    shorts
}

// The shorts of a checksum once elements follow, of which there are at most this many.
#[inline(never)]
fn words_after_most<const MOST: usize, S: WordStore>(
    own: &RunningChecksum,
    piece: Stretch,
    memory: &Memory<S>,
) -> [u16; MOST_SHORTS]
    requires up { memory.now.heap.down ≡ false }
    requires own { IsRunning memory.now own.now }
    requires piece { IsInArray memory.now piece }
    requires few { piece.count ≤ MOST }
    requires most { MOST ≤ MOST_ELEMENTS }
    ensures { take (checksum_shorts own.now.algorithm) result ≡ words_after memory.now own.now piece }
{
    let mut buffer = [0; MOST];
    let given = &mut buffer[..piece.count as usize];
    read(piece, memory, given);
    shorts_after(own.algorithm, shorts_of(own, memory), given)
}

// The shorts of a checksum once elements follow.
fn words_after<S: WordStore>(
    own: &RunningChecksum,
    piece: Stretch,
    memory: &Memory<S>,
) -> [u16; MOST_SHORTS]
    requires up { memory.now.heap.down ≡ false }
    requires own { IsRunning memory.now own.now }
    requires piece { IsInArray memory.now piece }
    requires few { piece.count ≤ MOST_ELEMENTS }
    ensures { take (checksum_shorts own.now.algorithm) result ≡ words_after memory.now own.now piece }
{
    if piece.count as usize <= SMALL_PIECE {
        return words_after_most::<SMALL_PIECE, S>(own, piece, memory);
    }
    words_after_most::<MOST_ELEMENTS, S>(own, piece, memory)
}

/// The elements follow.
pub(crate) fn update<S: WordStore>(
    own: &RunningChecksum,
    piece: Stretch,
    memory: &mut Memory<S>,
    linked: &Linked,
) -> Result<NativeResult, StepExit>
    requires up { memory.old.heap.down ≡ false }
    requires own { IsRunning memory.old own.now }
    requires piece { IsInArray memory.old piece }
    requires few { piece.count ≤ MOST_ELEMENTS }
    ensures { Executes (changing_call (Ok (changes own.now.state.array 0 (words_after memory.old own.now piece) None))
        linked.now memory.old) memory.old (after_call result memory.new) }
{
    let next = words_after(own, piece, memory);
    let words = &next[..usize::from(checksum_shorts(own.algorithm))];
    let state = StateWords {
        array: own.state.array,
        start: 0,
        words,
    };
    change_state(state, None, memory, linked)
}

// What `doFinal` returns.
fn checksum_answer(algorithm: ChecksumAlgorithm) -> Option<i16>
    ensures { result ≡ Some (pos (checksum_size algorithm)) }
{
    match algorithm {
        ChecksumAlgorithm::Crc16 => Some(2),
        ChecksumAlgorithm::Crc32 => Some(4),
    }
}

/// The checksum is put once these elements follow, and begins again with 0.
pub(crate) fn finish<S: WordStore>(
    own: &RunningChecksum,
    piece: Stretch,
    to: Stretch,
    memory: &mut Memory<S>,
    linked: &Linked,
) -> Result<NativeResult, StepExit>
    requires up { memory.old.heap.down ≡ false }
    requires own { IsRunning memory.old own.now }
    requires piece { IsInArray memory.old piece }
    requires few { piece.count ≤ MOST_ELEMENTS }
    requires to { IsInArray memory.old to }
    requires asked { AreAsked linked.now memory.old to }
    requires all { to.count ≡ checksum_size own.now.algorithm }
    ensures { Executes (changing_call (Ok (changes_and_puts own.now.state.array 0
        (replicate (checksum_shorts own.now.algorithm) 0) to (bytes_of_shorts (words_after memory.old own.now piece))
        (Some (pos (checksum_size own.now.algorithm))))) linked.now memory.old)
        memory.old (after_call result memory.new) }
{
    let count = usize::from(checksum_shorts(own.algorithm));
    let last = words_after(own, piece, memory);
    let mut buffer = [0; 2 * MOST_SHORTS];
    let bytes = &mut buffer[..2 * count];
    put_bytes_of(&last[..count], bytes);
    let zeros = [0; MOST_SHORTS];
    let answer = checksum_answer(own.algorithm);
    let state = StateWords {
        array: own.state.array,
        start: 0,
        words: &zeros[..count],
    };
    change_state_and_put(state, to, bytes, answer, memory, linked)
}

/// The checksum is set to that of elements, of which there are as many as it has bytes.
pub(crate) fn begin<S: WordStore>(
    own: &RunningChecksum,
    e: Stretch,
    memory: &mut Memory<S>,
    linked: &Linked,
) -> Result<NativeResult, StepExit>
    requires up { memory.old.heap.down ≡ false }
    requires there { IsInArray memory.old e }
    ensures { Executes (changing_call (begins_with memory.old own.now e) linked.now memory.old)
        memory.old (after_call result memory.new) }
{
    let count = usize::from(checksum_shorts(own.algorithm));
    if e.count as usize != 2 * count {
        return Err(StepExit::Throw(ILLEGAL_VALUE));
    }
    let mut buffer = [0; 2 * MOST_SHORTS];
    let bytes = &mut buffer[..2 * count];
    read(e, memory, bytes);
    let mut shorts = [0; MOST_SHORTS];
    let words = &mut shorts[..count];
    put_shorts_of(bytes, words);
    let state = StateWords {
        array: own.state.array,
        start: 0,
        words,
    };
    change_state(state, None, memory, linked)
}
