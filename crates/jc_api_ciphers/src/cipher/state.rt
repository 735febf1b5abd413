//! What becomes of a message under a cipher.
ghost use Rattle.std.specs.Prelude.{◌≡◌, ◌≤◌, ◌<◌, ◌*◌, ◌+◌, ◌/◌, false, length, take, IfSome, Some};
ghost use Rattle.std.specs.Option.{option_map};
ghost use Rattle.jc_memory.specs.Programs.{Executes};
ghost use Rattle.jc_ciphers.specs.Kept.Conversion.{conversion_after, conversion_end, conversion_output};
ghost use Rattle.jc_ciphers.specs.Kept.{block_size};
ghost use Rattle.jc_world.specs.Arrays.{IsInArray, bytes_in};
ghost use Rattle.jc_world.specs.NativeCalls.{after_call};
ghost use Rattle.jc_api.specs.Changing.{changing_call};
ghost use Rattle.jc_api_ciphers.specs.Cipher.Block.{IsRunning, bytes_after, cipher_shorts, ends_with, goes_on, last_output, output_after, vector_of};
ghost use Rattle.jc_api_ciphers.specs.Outputs.{puts_output};
ghost use Rattle.jc_api_keys.specs.Receivers.{bytes_of_state};
ghost use Rattle.jc_api_keys.specs.Shorts.{shorts_of};

use crate::cipher::block::{RunningCipher, cipher_shorts};
use crate::initialized::{MOST_VECTOR, read_vector};
use crate::outputs::put_output;
use jc_api::{MOST_ELEMENTS, SMALL_PIECE};
use jc_api_keys::exceptions::ILLEGAL_USE;
use jc_api_keys::receivers::{read, read_state};
use jc_api_keys::shorts::put_shorts_of;
use jc_ciphers::kept::MOST_STATE;
use jc_ciphers::kept::conversion::{finish_conversion, update_conversion};
use jc_frames::Cell;
use jc_linker::linked::Linked;
use jc_memory::Memory;
use jc_words::WordStore;
use jc_world::{NativeResult, StepExit, Stretch};

// How many shorts the longest state has.
const MOST_SHORTS: usize = MOST_STATE / 2;

// How many bytes the longest key has.
const MOST_CIPHER_KEY: usize = 32;

// How many bytes more than came are written at most: those of an open block, and a padding.
const MOST_MORE: usize = 32;

// The same for a small piece, and for as many bytes as a call names.
const SMALL_ROOM: usize = SMALL_PIECE + MOST_MORE;

const MOST_ROOM: usize = MOST_ELEMENTS + MOST_MORE;

// Reads the key, the vector and the state of a message.
fn read_all<S: WordStore>(
    own: &RunningCipher,
    memory: &Memory<S>,
    key: &mut [u8],
    vector: &mut [u8],
    state: &mut [u8],
)
    requires up { memory.now.heap.down ≡ false }
    requires own { IsRunning memory.now own.now }
    requires key { length key.old ≡ own.now.key.count }
    requires vector { length vector.old ≡ block_size own.now.conversion.algorithm }
    requires state { length state.old ≡ 2 * own.now.state.count }
    ensures key { key.new ≡ bytes_in memory.now own.now.key }
    ensures vector { vector.new ≡ vector_of memory.now own.now }
    ensures state { state.new ≡ bytes_of_state memory.now own.now.state }
{
    read(own.key, memory, key);
    read_vector(own.own, memory, vector);
    let mut buffer = [0; MOST_SHORTS];
    let words = &mut buffer[..own.state.count as usize];
    read_state(own.state, memory, words, state);
}

// Converts a piece that follows: writes what is converted, and leaves the bytes of the next state.
fn convert<S: WordStore>(
    own: &RunningCipher,
    piece: &[u8],
    memory: &Memory<S>,
    state: &mut [u8],
    to: &mut [u8],
) -> usize
    requires up { memory.now.heap.down ≡ false }
    requires own { IsRunning memory.now own.now }
    requires all { length state.old ≡ 2 * own.now.state.count }
    requires room { length piece.now + MOST_MORE ≤ length to.old }
    ensures state { state.new ≡ conversion_after own.now.conversion (bytes_in memory.now own.now.key)
        (vector_of memory.now own.now) (bytes_of_state memory.now own.now.state) piece.now }
    ensures output { take result to.new ≡ conversion_output own.now.conversion
        (bytes_in memory.now own.now.key) (vector_of memory.now own.now)
        (bytes_of_state memory.now own.now.state) piece.now }
    ensures within { result ≤ length to.old }
{
    let mut key_bytes = [0; MOST_CIPHER_KEY];
    let key = &mut key_bytes[..own.key.count as usize];
    let mut vector_bytes = [0; MOST_VECTOR];
    let vector = &mut vector_bytes[..own.conversion.algorithm.block_size()];
    read_all(own, memory, key, vector, state);
    update_conversion(&own.conversion, key, vector, state, piece, to)
}

// Converts the last piece, and writes what is converted, if the message may end so.
fn convert_last<S: WordStore>(
    own: &RunningCipher,
    piece: &[u8],
    memory: &Memory<S>,
    to: &mut [u8],
) -> Option<usize>
    requires up { memory.now.heap.down ≡ false }
    requires own { IsRunning memory.now own.now }
    requires room { length piece.now + MOST_MORE ≤ length to.old }
    ensures ended { option_map (λ n. take n to.new) result ≡ conversion_end own.now.conversion
        (bytes_in memory.now own.now.key) (vector_of memory.now own.now)
        (bytes_of_state memory.now own.now.state) piece.now }
    ensures within { IfSome result (λ n. n ≤ length to.new) }
{
    let mut key_bytes = [0; MOST_CIPHER_KEY];
    let key = &mut key_bytes[..own.key.count as usize];
    let mut vector_bytes = [0; MOST_VECTOR];
    let vector = &mut vector_bytes[..own.conversion.algorithm.block_size()];
    let mut state_bytes = [0; MOST_STATE];
    let state = &mut state_bytes[..2 * own.state.count as usize];
    read_all(own, memory, key, vector, state);
    finish_conversion(&own.conversion, key, vector, state, piece, to)
}

// Puts bytes into as many elements, and sets the state to that of these bytes.
fn put_output_and_state<S: WordStore>(
    own: &RunningCipher,
    state: &[u8],
    bytes: &[u8],
    args: &[Cell],
    memory: &mut Memory<S>,
    linked: &Linked,
) -> Result<NativeResult, StepExit>
    requires up { memory.old.heap.down ≡ false }
    requires state { length state.now ≤ MOST_STATE }
    requires even { length state.now ≡ 2 * (length state.now / 2) }
    requires few { length bytes.now < 65536 }
    ensures { Executes (changing_call (puts_output own.now.state.array (shorts_of state.now) bytes.now args.now linked.now memory.old)
        linked.now memory.old) memory.old (after_call result memory.new) }
{
    let mut buffer = [0; MOST_SHORTS];
    let words = &mut buffer[..state.len() / 2];
    put_shorts_of(state, words);
    put_output(own.state.array, words, bytes, args, memory, linked)
}

// A piece of at most this many bytes follows.
#[inline(never)]
fn go_on_most<const MOST: usize, const ROOM: usize, S: WordStore>(
    own: &RunningCipher,
    piece: Stretch,
    args: &[Cell],
    memory: &mut Memory<S>,
    linked: &Linked,
) -> Result<NativeResult, StepExit>
    requires up { memory.old.heap.down ≡ false }
    requires own { IsRunning memory.old own.now }
    requires piece { IsInArray memory.old piece }
    requires few { piece.count ≤ MOST }
    requires room { MOST + MOST_MORE ≤ ROOM }
    requires most { ROOM < 65536 }
    ensures { Executes (changing_call (goes_on own.now piece args.now linked.now memory.old)
        linked.now memory.old) memory.old (after_call result memory.new) }
{
    let mut buffer = [0; MOST];
    let given = &mut buffer[..piece.count as usize];
    read(piece, memory, given);
    let mut state_bytes = [0; MOST_STATE];
    let state = &mut state_bytes[..2 * own.state.count as usize];
    let mut output = [0; ROOM];
    let count = convert(own, given, memory, state, &mut output);
    put_output_and_state(own, state, &output[..count], args, memory, linked)
}

/// A piece follows: puts what is converted then, and sets the state.
pub(crate) fn go_on<S: WordStore>(
    own: &RunningCipher,
    piece: Stretch,
    args: &[Cell],
    memory: &mut Memory<S>,
    linked: &Linked,
) -> Result<NativeResult, StepExit>
    requires up { memory.old.heap.down ≡ false }
    requires own { IsRunning memory.old own.now }
    requires piece { IsInArray memory.old piece }
    requires few { piece.count ≤ MOST_ELEMENTS }
    ensures { Executes (changing_call (goes_on own.now piece args.now linked.now memory.old)
        linked.now memory.old) memory.old (after_call result memory.new) }
{
    if piece.count as usize <= SMALL_PIECE {
        return go_on_most::<SMALL_PIECE, SMALL_ROOM, S>(own, piece, args, memory, linked);
    }
    go_on_most::<MOST_ELEMENTS, MOST_ROOM, S>(own, piece, args, memory, linked)
}

// Puts the last bytes, and nothing came from now on.
fn put_last<S: WordStore>(
    own: &RunningCipher,
    bytes: &[u8],
    args: &[Cell],
    memory: &mut Memory<S>,
    linked: &Linked,
) -> Result<NativeResult, StepExit>
    requires up { memory.old.heap.down ≡ false }
    requires few { length bytes.now < 65536 }
    ensures { Executes (changing_call (ends_with own.now args.now linked.now memory.old (Some bytes.now))
        linked.now memory.old) memory.old (after_call result memory.new) }
{
    let zeros = [0; MOST_SHORTS];
    let words = &zeros[..cipher_shorts(own.conversion.algorithm) as usize];
    put_output(own.state.array, words, bytes, args, memory, linked)
}

// The message ends with a piece of at most this many bytes.
#[inline(never)]
fn end_most<const MOST: usize, const ROOM: usize, S: WordStore>(
    own: &RunningCipher,
    piece: Stretch,
    args: &[Cell],
    memory: &mut Memory<S>,
    linked: &Linked,
) -> Result<NativeResult, StepExit>
    requires up { memory.old.heap.down ≡ false }
    requires own { IsRunning memory.old own.now }
    requires piece { IsInArray memory.old piece }
    requires few { piece.count ≤ MOST }
    requires room { MOST + MOST_MORE ≤ ROOM }
    requires most { ROOM < 65536 }
    ensures { Executes (changing_call (ends_with own.now args.now linked.now memory.old
        (last_output memory.old own.now piece)) linked.now memory.old)
        memory.old (after_call result memory.new) }
{
    let mut buffer = [0; MOST];
    let given = &mut buffer[..piece.count as usize];
    read(piece, memory, given);
    let mut output = [0; ROOM];
    match convert_last(own, given, memory, &mut output) {
        Some(count) => put_last(own, &output[..count], args, memory, linked),
        None => Err(StepExit::Throw(ILLEGAL_USE)),
    }
}

/// The message ends with a piece: puts the last bytes, and nothing came from now on. ILLEGAL_USE where it cannot end so.
pub(crate) fn end<S: WordStore>(
    own: &RunningCipher,
    piece: Stretch,
    args: &[Cell],
    memory: &mut Memory<S>,
    linked: &Linked,
) -> Result<NativeResult, StepExit>
    requires up { memory.old.heap.down ≡ false }
    requires own { IsRunning memory.old own.now }
    requires piece { IsInArray memory.old piece }
    requires few { piece.count ≤ MOST_ELEMENTS }
    ensures { Executes (changing_call (ends_with own.now args.now linked.now memory.old
        (last_output memory.old own.now piece)) linked.now memory.old)
        memory.old (after_call result memory.new) }
{
    if piece.count as usize <= SMALL_PIECE {
        return end_most::<SMALL_PIECE, SMALL_ROOM, S>(own, piece, args, memory, linked);
    }
    end_most::<MOST_ELEMENTS, MOST_ROOM, S>(own, piece, args, memory, linked)
}
