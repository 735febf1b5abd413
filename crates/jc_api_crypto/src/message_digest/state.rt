//! What becomes of the state of a message.
ghost use Rattle.std.specs.Prelude.{◌≡◌, ◌≤◌, ◌*◌, false, length, replicate, Some, pos, Ok};
ghost use Rattle.jc_memory.specs.Programs.{Executes};
ghost use Rattle.jc_digests.specs.Kept.{digest_of_state, digest_size};
ghost use Rattle.jc_world.specs.Arrays.{IsInArray};
ghost use Rattle.jc_world.specs.NativeCalls.{after_call};
ghost use Rattle.jc_api.specs.Arguments.{AreAsked};
ghost use Rattle.jc_api.specs.Changing.{changes_and_puts, changing_call};
ghost use Rattle.jc_api_crypto.specs.MessageDigest.{nothing_came, sets_state};
ghost use Rattle.jc_api_keys.specs.DigestStates.{IsRunning, bytes_after, digest_shorts};
ghost use Rattle.jc_api_keys.specs.Shorts.{shorts_of};

use crate::message_digest::digest_length;
use jc_api::{MOST_ELEMENTS, StateWords, change_state, change_state_and_put};
use jc_api_keys::digest_states::{MOST_SHORTS, RunningDigest, digest, digest_shorts, put_next};
use jc_api_keys::shorts::put_shorts_of;
use jc_digests::kept::{HashAlgorithm, MOST_HASH, MOST_STATE};
use jc_linker::linked::Linked;
use jc_memory::Memory;
use jc_words::WordStore;
use jc_world::{NativeResult, StepExit, Stretch};

/// Sets the state to that of these bytes.
pub(crate) fn set_bytes<S: WordStore>(
    own: &RunningDigest,
    bytes: &[u8],
    memory: &mut Memory<S>,
    linked: &Linked,
) -> Result<NativeResult, StepExit>
    requires up { memory.old.heap.down ≡ false }
    requires all { length bytes.now ≡ 2 * digest_shorts own.now.algorithm }
    ensures { Executes (changing_call (Ok (sets_state own.now (shorts_of bytes.now))) linked.now memory.old)
        memory.old (after_call result memory.new) }
{
    let mut buffer = [0; MOST_SHORTS];
    let words = &mut buffer[..bytes.len() / 2];
    put_shorts_of(bytes, words);
    let state = StateWords {
        array: own.state.array,
        start: 0,
        words,
    };
    change_state(state, None, memory, linked)
}

/// The elements follow the message.
pub(crate) fn update<S: WordStore>(
    own: &RunningDigest,
    piece: Stretch,
    memory: &mut Memory<S>,
    linked: &Linked,
) -> Result<NativeResult, StepExit>
    requires up { memory.old.heap.down ≡ false }
    requires own { IsRunning memory.old own.now }
    requires piece { IsInArray memory.old piece }
    requires few { piece.count ≤ MOST_ELEMENTS }
    ensures { Executes (changing_call (Ok (sets_state own.now (shorts_of (bytes_after memory.old own.now piece))))
        linked.now memory.old) memory.old (after_call result memory.new) }
{
    let mut state = [0; MOST_STATE];
    let bytes = &mut state[..2 * own.state.count as usize];
    put_next(own, piece, memory, bytes);
    set_bytes(own, bytes, memory, linked)
}

// What `doFinal` returns.
fn digest_answer(algorithm: HashAlgorithm) -> Option<i16>
    ensures { result ≡ Some (pos (digest_size algorithm)) }
{
    Some(digest_length(algorithm))
}

// A digest is put, and what came is forgotten.
fn put_and_forget<S: WordStore>(
    own: &RunningDigest,
    to: Stretch,
    digest: &[u8],
    memory: &mut Memory<S>,
    linked: &Linked,
) -> Result<NativeResult, StepExit>
    requires up { memory.old.heap.down ≡ false }
    requires to { IsInArray memory.old to }
    requires asked { AreAsked linked.now memory.old to }
    requires all { to.count ≡ length digest.now }
    ensures { Executes (changing_call (Ok (changes_and_puts own.now.state.array 0 (nothing_came own.now)
        to digest.now (Some (pos (digest_size own.now.algorithm))))) linked.now memory.old)
        memory.old (after_call result memory.new) }
{
    let answer = digest_answer(own.algorithm);
    let zeros = [0; MOST_SHORTS];
    let words = &zeros[..digest_shorts(own.algorithm) as usize];
    let state = StateWords {
        array: own.state.array,
        start: 0,
        words,
    };
    change_state_and_put(state, to, digest, answer, memory, linked)
}

/// The digest of the message with these elements is put, and what came is forgotten.
pub(crate) fn finish<S: WordStore>(
    own: &RunningDigest,
    piece: Stretch,
    to: Stretch,
    memory: &mut Memory<S>,
    linked: &Linked,
) -> Result<NativeResult, StepExit>
    requires up { memory.old.heap.down ≡ false }
    requires own { IsRunning memory.old own.now }
    requires piece { IsInArray memory.old piece }
    requires few { piece.count ≤ MOST_ELEMENTS }
    requires to { IsInArray memory.old to }
    requires asked { AreAsked linked.now memory.old to }
    requires all { to.count ≡ digest_size own.now.algorithm }
    ensures { Executes (changing_call (Ok (changes_and_puts own.now.state.array 0 (nothing_came own.now) to
        (digest_of_state own.now.algorithm (bytes_after memory.old own.now piece))
        (Some (pos (digest_size own.now.algorithm))))) linked.now memory.old)
        memory.old (after_call result memory.new) }
{
    let mut buffer = [0; MOST_HASH];
    let bytes = &mut buffer[..own.algorithm.digest_size()];
    digest(own, piece, memory, bytes);
    put_and_forget(own, to, bytes, memory, linked)
}

// The shorts of a state to which nothing came, of as many as the longest has.
fn nothing_came<'a>(own: &RunningDigest, zeros: &'a [u16]) -> &'a [u16]
    requires zeros { zeros.now ≡ replicate MOST_SHORTS 0 }
    ensures words { result.now ≡ nothing_came own.now }
    ensures few { length result.now ≤ MOST_SHORTS }
{
    &zeros[..digest_shorts(own.algorithm) as usize]
}

/// What came is forgotten.
pub(crate) fn forget<S: WordStore>(
    own: &RunningDigest,
    memory: &mut Memory<S>,
    linked: &Linked,
) -> Result<NativeResult, StepExit>
    requires up { memory.old.heap.down ≡ false }
    ensures { Executes (changing_call (Ok (sets_state own.now (nothing_came own.now))) linked.now memory.old)
        memory.old (after_call result memory.new) }
{
    let zeros = [0; MOST_SHORTS];
    let state = StateWords {
        array: own.state.array,
        start: 0,
        words: nothing_came(own, &zeros),
    };
    change_state(state, None, memory, linked)
}
