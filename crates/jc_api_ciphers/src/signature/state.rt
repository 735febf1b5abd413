//! What becomes of a message that is to be signed.
ghost use Rattle.std.specs.Prelude.{◌≡◌, ◌≤◌, ◌*◌, ◌/◌, ◌&&◌, ◌==◌, false, length, pos, if◌then◌else◌, Ok, Some, None};
ghost use Rattle.std.specs.Str.{bytes_eq};
ghost use Rattle.jc_memory.specs.Programs.{Executes};
ghost use Rattle.jc_world.specs.Arrays.{IsInArray, bytes_in};
ghost use Rattle.jc_world.specs.NativeCalls.{after_call};
ghost use Rattle.jc_api.specs.Arguments.{AreAsked};
ghost use Rattle.jc_api.specs.Changing.{changes, changes_and_puts, changing_call};
ghost use Rattle.jc_api_keys.specs.Receivers.{bytes_of_state};
ghost use Rattle.jc_api_ciphers.specs.Signature.Codes.{IsRunning, bytes_after, goes_on, is_signature, nothing_came, signature_of_state, signature_with, signs, state_after, state_bytes, vector_of, vector_size, verifies};
ghost use Rattle.jc_api_ciphers.specs.Signature.Algorithms.{signature_size};

use crate::initialized::{MOST_VECTOR, read_vector};
use crate::signature::algorithms::SignatureAlgorithm;
use crate::signature::code::{RunningSignature, signature_shorts, vector_size};
use crate::signature::codes::{put_signature_of, take_in};
use jc_api::{MOST_ELEMENTS, SMALL_PIECE, StateWords, change_state, change_state_and_put};
use jc_api_keys::digest_states::MOST_SHORTS;
use jc_api_keys::exceptions::ILLEGAL_USE;
use jc_api_keys::key_objects::contents::MOST_KEY;
use jc_api_keys::receivers::{read, read_state};
use jc_api_keys::shorts::put_shorts_of;
use jc_digests::kept::{MOST_HASH, MOST_STATE};
use jc_linker::linked::Linked;
use jc_memory::Memory;
use jc_words::WordStore;
use jc_world::{NativeResult, StepExit, Stretch};

// Reads the key, the vector and the state of a message.
fn read_all<S: WordStore>(
    own: &RunningSignature,
    memory: &Memory<S>,
    key: &mut [u8],
    vector: &mut [u8],
    state: &mut [u8],
)
    requires up { memory.now.heap.down ≡ false }
    requires own { IsRunning memory.now own.now }
    requires key { length key.old ≡ own.now.key.count }
    requires vector { length vector.old ≡ vector_size own.now.algorithm }
    requires few { length vector.old ≤ MOST_VECTOR }
    requires even { length vector.old ≡ 2 * (length vector.old / 2) }
    requires state { length state.old ≡ 2 * own.now.state.count }
    ensures key { key.new ≡ bytes_in memory.now own.now.key }
    ensures vector { vector.new ≡ vector_of memory.now own.now }
    ensures state { state.new ≡ bytes_of_state memory.now own.now.state }
{
    read(own.key, memory, key);
    read_vector(own.own, memory, vector);
    let mut buffer = [0; MOST_SHORTS];
    let words = &mut buffer[..own.state.count as usize];
    read_state(own.state, memory, words, state);
}

// The bytes of the state once a piece follows.
fn next_bytes<S: WordStore>(
    own: &RunningSignature,
    piece: &[u8],
    memory: &Memory<S>,
    bytes: &mut [u8],
)
    requires up { memory.now.heap.down ≡ false }
    requires own { IsRunning memory.now own.now }
    requires all { length bytes.old ≡ 2 * own.now.state.count }
    ensures { bytes.new ≡ state_after own.now.algorithm (bytes_in memory.now own.now.key)
        (vector_of memory.now own.now) (bytes_of_state memory.now own.now.state) piece.now }
{
    let mut key_bytes = [0; MOST_KEY];
    let key = &mut key_bytes[..own.key.count as usize];
    let mut vector_bytes = [0; MOST_VECTOR];
    let vector = &mut vector_bytes[..vector_size(own.algorithm)];
    read_all(own, memory, key, vector, bytes);
    take_in(own.algorithm, key, vector, bytes, piece);
}

// Writes the signature of the message with a last piece, if it may end so.
fn put_signature<S: WordStore>(
    own: &RunningSignature,
    piece: &[u8],
    memory: &Memory<S>,
    to: &mut [u8],
) -> bool
    requires up { memory.now.heap.down ≡ false }
    requires own { IsRunning memory.now own.now }
    requires all { length to.old ≡ signature_size own.now.algorithm }
    ensures { (if result then Some to.new else None) ≡ signature_of_state own.now.algorithm
        (bytes_in memory.now own.now.key) (vector_of memory.now own.now)
        (bytes_of_state memory.now own.now.state) piece.now }
{
    let mut key_bytes = [0; MOST_KEY];
    let key = &mut key_bytes[..own.key.count as usize];
    let mut vector_bytes = [0; MOST_VECTOR];
    let vector = &mut vector_bytes[..vector_size(own.algorithm)];
    let mut state_bytes = [0; MOST_STATE];
    let state = &mut state_bytes[..2 * own.state.count as usize];
    read_all(own, memory, key, vector, state);
    put_signature_of(own.algorithm, key, vector, state, piece, to)
}

// Sets the state to that of these bytes.
fn set_bytes<S: WordStore>(
    own: &RunningSignature,
    bytes: &[u8],
    memory: &mut Memory<S>,
    linked: &Linked,
) -> Result<NativeResult, StepExit>
    requires up { memory.old.heap.down ≡ false }
    requires few { length bytes.now ≤ MOST_STATE }
    requires even { length bytes.now ≡ 2 * (length bytes.now / 2) }
    ensures { Executes (changing_call (Ok (goes_on own.now bytes.now)) linked.now memory.old)
        memory.old (after_call result memory.new) }
{
    let mut buffer = [0; MOST_SHORTS];
    let words = &mut buffer[..bytes.len() / 2];
    put_shorts_of(bytes, words);
    let state = StateWords {
        array: own.state.array,
        start: 0,
        words,
    };
    change_state(state, None, memory, linked)
}

// A piece follows, of at most this many bytes.
#[inline(never)]
fn update_most<const MOST: usize, S: WordStore>(
    own: &RunningSignature,
    piece: Stretch,
    memory: &mut Memory<S>,
    linked: &Linked,
) -> Result<NativeResult, StepExit>
    requires up { memory.old.heap.down ≡ false }
    requires own { IsRunning memory.old own.now }
    requires piece { IsInArray memory.old piece }
    requires few { piece.count ≤ MOST }
    requires most { MOST ≤ MOST_ELEMENTS }
    ensures { Executes (changing_call (Ok (goes_on own.now (bytes_after memory.old own.now piece)))
        linked.now memory.old) memory.old (after_call result memory.new) }
{
    let mut buffer = [0; MOST];
    let given = &mut buffer[..piece.count as usize];
    read(piece, memory, given);
    let mut state = [0; MOST_STATE];
    let bytes = &mut state[..2 * own.state.count as usize];
    next_bytes(own, given, memory, bytes);
    set_bytes(own, bytes, memory, linked)
}

/// The elements follow the message.
pub(crate) fn update<S: WordStore>(
    own: &RunningSignature,
    piece: Stretch,
    memory: &mut Memory<S>,
    linked: &Linked,
) -> Result<NativeResult, StepExit>
    requires up { memory.old.heap.down ≡ false }
    requires own { IsRunning memory.old own.now }
    requires piece { IsInArray memory.old piece }
    requires few { piece.count ≤ MOST_ELEMENTS }
    ensures { Executes (changing_call (Ok (goes_on own.now (bytes_after memory.old own.now piece)))
        linked.now memory.old) memory.old (after_call result memory.new) }
{
    if piece.count as usize <= SMALL_PIECE {
        return update_most::<SMALL_PIECE, S>(own, piece, memory, linked);
    }
    update_most::<MOST_ELEMENTS, S>(own, piece, memory, linked)
}

// The signature of the message with a last piece, of at most this many bytes.
#[inline(never)]
fn signature_most<const MOST: usize, S: WordStore>(
    own: &RunningSignature,
    piece: Stretch,
    memory: &Memory<S>,
    to: &mut [u8],
) -> bool
    requires up { memory.now.heap.down ≡ false }
    requires own { IsRunning memory.now own.now }
    requires piece { IsInArray memory.now piece }
    requires few { piece.count ≤ MOST }
    requires most { MOST ≤ MOST_ELEMENTS }
    requires all { length to.old ≡ signature_size own.now.algorithm }
    ensures { (if result then Some to.new else None) ≡ signature_with memory.now own.now piece }
{
    let mut buffer = [0; MOST];
    let given = &mut buffer[..piece.count as usize];
    read(piece, memory, given);
    put_signature(own, given, memory, to)
}

// The signature of the message with these elements, if it may end so.
fn signature<S: WordStore>(
    own: &RunningSignature,
    piece: Stretch,
    memory: &Memory<S>,
    to: &mut [u8],
) -> bool
    requires up { memory.now.heap.down ≡ false }
    requires own { IsRunning memory.now own.now }
    requires piece { IsInArray memory.now piece }
    requires few { piece.count ≤ MOST_ELEMENTS }
    requires all { length to.old ≡ signature_size own.now.algorithm }
    ensures { (if result then Some to.new else None) ≡ signature_with memory.now own.now piece }
{
    if piece.count as usize <= SMALL_PIECE {
        return signature_most::<SMALL_PIECE, S>(own, piece, memory, to);
    }
    signature_most::<MOST_ELEMENTS, S>(own, piece, memory, to)
}

// What `sign` returns.
fn signature_answer(algorithm: SignatureAlgorithm) -> Option<i16>
    ensures { result ≡ Some (pos (signature_size algorithm)) }
{
    Some(algorithm.size() as i16)
}

// A signature is put, and what came is forgotten.
fn put_and_forget<S: WordStore>(
    own: &RunningSignature,
    to: Stretch,
    signature: &[u8],
    memory: &mut Memory<S>,
    linked: &Linked,
) -> Result<NativeResult, StepExit>
    requires up { memory.old.heap.down ≡ false }
    requires to { IsInArray memory.old to }
    requires asked { AreAsked linked.now memory.old to }
    requires all { to.count ≡ length signature.now }
    ensures { Executes (changing_call (signs own.now to (Some signature.now)) linked.now memory.old)
        memory.old (after_call result memory.new) }
{
    let answer = signature_answer(own.algorithm);
    let zeros = [0; MOST_SHORTS];
    let words = &zeros[..signature_shorts(own.algorithm) as usize];
    let state = StateWords {
        array: own.state.array,
        start: 0,
        words,
    };
    change_state_and_put(state, to, signature, answer, memory, linked)
}

/// The message ends with these elements: its signature is put, and what came is forgotten. ILLEGAL_USE where it cannot end so.
pub(crate) fn sign<S: WordStore>(
    own: &RunningSignature,
    piece: Stretch,
    to: Stretch,
    memory: &mut Memory<S>,
    linked: &Linked,
) -> Result<NativeResult, StepExit>
    requires up { memory.old.heap.down ≡ false }
    requires own { IsRunning memory.old own.now }
    requires piece { IsInArray memory.old piece }
    requires few { piece.count ≤ MOST_ELEMENTS }
    requires to { IsInArray memory.old to }
    requires asked { AreAsked linked.now memory.old to }
    requires all { to.count ≡ signature_size own.now.algorithm }
    ensures { Executes (changing_call (signs own.now to (signature_with memory.old own.now piece))
        linked.now memory.old) memory.old (after_call result memory.new) }
{
    let mut buffer = [0; MOST_HASH];
    let bytes = &mut buffer[..own.algorithm.size()];
    if signature(own, piece, memory, bytes) {
        put_and_forget(own, to, bytes, memory, linked)
    } else {
        Err(StepExit::Throw(ILLEGAL_USE))
    }
}

// These are the same bytes.
fn is_same(bytes: &[u8], others: &[u8]) -> bool
    ensures { result ≡ bytes_eq bytes.now others.now }
{
    bytes == others
}

// These elements are the signature.
fn is_signature<S: WordStore>(e: Stretch, signature: &[u8], memory: &Memory<S>) -> bool
    requires up { memory.now.heap.down ≡ false }
    requires there { IsInArray memory.now e }
    requires few { length signature.now ≤ MOST_HASH }
    ensures { result ≡ is_signature memory.now e signature.now }
{
    if e.count as usize != signature.len() {
        return false;
    }
    let mut buffer = [0; MOST_HASH];
    let given = &mut buffer[..e.count as usize];
    read(e, memory, given);
    is_same(given, signature)
}

// What came is forgotten, and whether a signature is the one given is returned.
fn forget_and_tell<S: WordStore>(
    own: &RunningSignature,
    same: bool,
    memory: &mut Memory<S>,
    linked: &Linked,
) -> Result<NativeResult, StepExit>
    requires up { memory.old.heap.down ≡ false }
    ensures { Executes (changing_call (Ok (changes own.now.state.array 0 (nothing_came own.now)
        (Some (if same then pos 1 else pos 0)))) linked.now memory.old)
        memory.old (after_call result memory.new) }
{
    let zeros = [0; MOST_SHORTS];
    let words = &zeros[..signature_shorts(own.algorithm) as usize];
    let state = StateWords {
        array: own.state.array,
        start: 0,
        words,
    };
    change_state(state, Some(i16::from(same)), memory, linked)
}

/// The message ends with these elements: whether others are its signature is returned, and what came is forgotten. ILLEGAL_USE where it
/// cannot end so.
pub(crate) fn verify<S: WordStore>(
    own: &RunningSignature,
    piece: Stretch,
    given: Stretch,
    memory: &mut Memory<S>,
    linked: &Linked,
) -> Result<NativeResult, StepExit>
    requires up { memory.old.heap.down ≡ false }
    requires own { IsRunning memory.old own.now }
    requires piece { IsInArray memory.old piece }
    requires few { piece.count ≤ MOST_ELEMENTS }
    requires given { IsInArray memory.old given }
    ensures { Executes (changing_call (verifies memory.old own.now given
        (signature_with memory.old own.now piece)) linked.now memory.old)
        memory.old (after_call result memory.new) }
{
    let mut buffer = [0; MOST_HASH];
    let bytes = &mut buffer[..own.algorithm.size()];
    if signature(own, piece, memory, bytes) {
        let same = is_signature(given, bytes, memory);
        forget_and_tell(own, same, memory, linked)
    } else {
        Err(StepExit::Throw(ILLEGAL_USE))
    }
}
