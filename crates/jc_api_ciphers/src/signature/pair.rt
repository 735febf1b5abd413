//! Signatures under a key of a pair: the calls of their objects.

pub(crate) mod ecdsa;
mod kept;
pub(crate) mod keys;
pub mod parts;
pub(crate) mod signing;

ghost use Rattle.std.specs.Prelude.{◌≡◌, ◌≤◌, ◌<◌, false, length, replicate, take, IfOk, IfSome, Ok};
ghost use Rattle.std.specs.Option.{option_map};
ghost use Rattle.jc_digests.specs.Kept.{digest_size};
ghost use Rattle.jc_memory.specs.Programs.{Executes};
ghost use Rattle.jc_world.specs.Arrays.{IsInArray};
ghost use Rattle.jc_world.specs.NativeCalls.{after_call};
ghost use Rattle.jc_api.specs.Changing.{changing_call};
ghost use Rattle.jc_api.specs.Exits.{plainly};
ghost use Rattle.jc_api.specs.Forms.{reading_call};
ghost use Rattle.jc_api.specs.Initializing.{initializing_call};
ghost use Rattle.jc_api_ciphers.specs.Signature.Pair.Kept.{first_bytes};
ghost use Rattle.jc_api_ciphers.specs.Signature.Pair.Signing.{IsRunningPair, is_signature_of, signature_of};
ghost use Rattle.jc_api_ciphers.specs.Signature.Pair.{digest_with, goes_on, longest_signature, nothing_to_sign, pair_get_length, pair_init, pair_init_with_vector, pair_sign, pair_update, pair_verify, puts_signature, running_pair, signs, tells_if_signed, verifies};

use crate::initialized::{KeyedEngine, MOST_SHORTS, Setup, set_up, taken_mode};
use crate::outputs::put_output;
use crate::signature::pair::kept::{put_first_bytes, put_kept_words};
use crate::signature::pair::keys::{kept_pair_key, pair_parts, taken_pair_key};
use crate::signature::pair::parts::Parts;
use crate::signature::pair::signing::{MOST_SIGNATURE, is_signature, put_signature};
use crate::signature::pair_algorithms::PairSignature;
use crate::signature::purpose::{Purpose, initialized_for};
use jc_api::{MOST_ELEMENTS, StateWords, change_state, counted_of, state_at};
use jc_api_keys::digest_states::{RunningDigest, digest, digest_shorts, put_next_words};
use jc_api_keys::exceptions::ILLEGAL_VALUE;
use jc_digests::kept::MOST_HASH;
use jc_frames::{Cell, FrameExit};
use jc_linker::linked::Linked;
use jc_memory::Memory;
use jc_platform::names::PlatformClass;
use jc_rsa::bytes::MOST_ENCODING;
use jc_transient::Ref;
use jc_words::WordStore;
use jc_world::{NativeResult, StepExit, Stretch, short};

/// A message that is to be signed under a private key, or whose signature is to be verified under a public one.
#[derive(Clone, Copy)]
pub struct RunningPair {
    pub algorithm: PairSignature,
    /// The message.
    pub digest: RunningDigest,
    /// The cells in which its first bytes are kept, where its signature is made of them.
    pub kept: Stretch,
    /// The key object.
    pub key: Ref,
    /// How many bytes the size of the key has.
    pub size: u16,
    pub parts: Parts,
}

/// `init` by a key and a mode: sets them; nothing came.
#[tactic(auto, unfolding(crate::specs::Signature::Pair::pair_init))]
pub(crate) fn init_pair<S: WordStore>(
    algorithm: PairSignature,
    own: &KeyedEngine,
    args: &[Cell],
    memory: &mut Memory<S>,
    linked: &Linked,
) -> Result<NativeResult, StepExit>
    requires up { memory.old.heap.down ≡ false }
    ensures { Executes (initializing_call (pair_init algorithm own.now args.now linked.now memory.old)
        args.now linked.now memory.old) memory.old (after_call result memory.new) }
{
    let mode = taken_mode(args)?;
    let key = taken_pair_key(algorithm, mode, args, memory, linked)?;
    let _parts = pair_parts(&key, memory)?;
    let setup = Setup {
        class: PlatformClass::Signature,
        shorts: algorithm.shorts(),
        vector: &[],
    };
    set_up(own, mode, setup, args, memory, linked)
}

/// `init` with a vector, which no such signature takes: it throws ILLEGAL_VALUE after the key, the mode and the vector's elements.
#[tactic(auto, unfolding(crate::specs::Signature::Pair::pair_init_with_vector))]
pub(crate) fn init_pair_with_vector<S: WordStore>(
    algorithm: PairSignature,
    args: &[Cell],
    memory: &mut Memory<S>,
    linked: &Linked,
) -> Result<NativeResult, StepExit>
    requires up { memory.old.heap.down ≡ false }
    ensures { Executes (initializing_call (pair_init_with_vector algorithm args.now linked.now memory.old)
        args.now linked.now memory.old) memory.old (after_call result memory.new) }
{
    let mode = taken_mode(args)?;
    let _key = taken_pair_key(algorithm, mode, args, memory, linked)?;
    let _vector = counted_of(3, args, memory, linked)?;
    Err(StepExit::Throw(ILLEGAL_VALUE))
}

// The message under an object with a signature.
#[tactic(auto, unfolding(crate::specs::Signature::Pair::running_pair))]
fn running_pair<S: WordStore>(
    purpose: Purpose,
    algorithm: PairSignature,
    own: &KeyedEngine,
    memory: &Memory<S>,
    linked: &Linked,
) -> Result<RunningPair, FrameExit>
    requires up { memory.now.heap.down ≡ false }
    ensures running { result ≡ running_pair purpose algorithm own.now linked.now memory.now }
    ensures there { IfOk result (IsRunningPair memory.now) }
    ensures plain { plainly result ≡ result }
{
    let hash = algorithm.hash();
    let shorts = digest_shorts(hash);
    let state = state_at(own.array, 0, shorts, memory, linked)?;
    let kept = state_at(own.array, shorts, algorithm.kept_shorts(), memory, linked)?;
    initialized_for(purpose, own.mode)?;
    let key = kept_pair_key(algorithm, own, memory, linked)?;
    let parts = pair_parts(&key, memory)?;
    Ok(RunningPair {
        algorithm,
        digest: RunningDigest {
            algorithm: hash,
            state,
        },
        kept,
        key: key.key.own,
        size: key.size,
        parts,
    })
}

// How many bytes a signature under a key of this size has at most.
fn longest_signature(algorithm: PairSignature, size: u16) -> u16
    requires few { size ≤ 512 }
    ensures longest { result ≡ longest_signature algorithm size }
    ensures few { result < 2048 }
{
    match algorithm {
        PairSignature::Rsa(_, _) | PairSignature::Iso9796 => size,
        PairSignature::Ecdsa(_) => {
            let contents = 2 * (size + 3);
            if contents < 128 {
                contents + 2
            } else {
                contents + 3
            }
        }
    }
}

/// `getLength`: returns how many bytes a signature has, at most where they differ.
#[tactic(auto, unfolding(crate::specs::Signature::Pair::pair_get_length))]
pub(crate) fn get_length_of_pair<S: WordStore>(
    algorithm: PairSignature,
    own: &KeyedEngine,
    memory: &Memory<S>,
    linked: &Linked,
) -> Result<NativeResult, StepExit>
    requires up { memory.now.heap.down ≡ false }
    ensures { Executes (reading_call (pair_get_length algorithm own.now linked.now memory.now)
        linked.now memory.now) memory.now (after_call result memory.now) }
{
    let run = running_pair(Purpose::Either, algorithm, own, memory, linked)?;
    Ok(short(longest_signature(algorithm, run.size) as i16))
}

// Some elements follow the message.
fn go_on<S: WordStore>(
    own: &RunningPair,
    piece: Stretch,
    memory: &mut Memory<S>,
    linked: &Linked,
) -> Result<NativeResult, StepExit>
    requires up { memory.old.heap.down ≡ false }
    requires own { IsRunningPair memory.old own.now }
    requires piece { IsInArray memory.old piece }
    requires few { piece.count ≤ MOST_ELEMENTS }
    ensures { Executes (changing_call (Ok (goes_on memory.old own.now piece)) linked.now memory.old)
        memory.old (after_call result memory.new) }
{
    let mut buffer = [0; MOST_SHORTS];
    let words = &mut buffer[..own.algorithm.shorts() as usize];
    let (first, rest) = words.split_at_mut(digest_shorts(own.digest.algorithm) as usize);
    put_kept_words(own, &piece, memory, rest);
    put_next_words(&own.digest, piece, memory, first);
    let state = StateWords {
        array: own.digest.state.array,
        start: 0,
        words,
    };
    change_state(state, None, memory, linked)
}

/// `update`: the bytes follow the message.
#[tactic(auto, unfolding(crate::specs::Signature::Pair::pair_update))]
pub(crate) fn update_by_pair<S: WordStore>(
    algorithm: PairSignature,
    own: &KeyedEngine,
    args: &[Cell],
    memory: &mut Memory<S>,
    linked: &Linked,
) -> Result<NativeResult, StepExit>
    requires up { memory.old.heap.down ≡ false }
    ensures { Executes (changing_call (pair_update algorithm own.now args.now linked.now memory.old)
        linked.now memory.old) memory.old (after_call result memory.new) }
{
    let run = running_pair(Purpose::Either, algorithm, own, memory, linked)?;
    let piece = counted_of(1, args, memory, linked)?;
    go_on(&run, piece, memory, linked)
}

// The shorts of a state to which nothing came, of as many as the longest has.
fn nothing_to_sign<'a>(own: &RunningPair, zeros: &'a [u16]) -> &'a [u16]
    requires zeros { zeros.now ≡ replicate MOST_SHORTS 0 }
    ensures words { result.now ≡ nothing_to_sign own.now }
    ensures few { length result.now ≤ MOST_SHORTS }
{
    &zeros[..own.algorithm.shorts() as usize]
}

// Puts a signature; what came is forgotten.
fn put_and_forget<S: WordStore>(
    own: &RunningPair,
    signature: &[u8],
    args: &[Cell],
    memory: &mut Memory<S>,
    linked: &Linked,
) -> Result<NativeResult, StepExit>
    requires up { memory.old.heap.down ≡ false }
    requires few { length signature.now ≤ MOST_SIGNATURE }
    ensures { Executes (changing_call (puts_signature own.now signature.now args.now linked.now memory.old)
        linked.now memory.old) memory.old (after_call result memory.new) }
{
    let zeros = [0; MOST_SHORTS];
    let words = nothing_to_sign(own, &zeros);
    put_output(
        own.digest.state.array,
        words,
        signature,
        args,
        memory,
        linked,
    )
}

// Writes the signature of the message with these elements, and returns how many bytes it has, if there is one.
fn sign_message<S: WordStore>(
    own: &RunningPair,
    piece: Stretch,
    memory: &Memory<S>,
    linked: &Linked,
    to: &mut [u8],
) -> Option<usize>
    requires up { memory.now.heap.down ≡ false }
    requires own { IsRunningPair memory.now own.now }
    requires piece { IsInArray memory.now piece }
    requires few { piece.count ≤ MOST_ELEMENTS }
    requires room { length to.old ≡ MOST_SIGNATURE }
    ensures signature { option_map (λ n. take n to.new) result
        ≡ signature_of linked.now memory.now own.now (first_bytes own.now.algorithm memory.now own.now piece)
        (digest_with memory.now own.now piece) }
    ensures within { IfSome result (λ n. n ≤ MOST_SIGNATURE) }
{
    let mut first_buffer = [0; MOST_ENCODING];
    let count = put_first_bytes(own, &piece, memory, &mut first_buffer);
    let mut buffer = [0; MOST_HASH];
    let bytes = &mut buffer[..own.digest.algorithm.digest_size()];
    digest(&own.digest, piece, memory, bytes);
    put_signature(own, &first_buffer[..count], bytes, memory, linked, to)
}

// The message ends with these elements: its signature is put, and what came is forgotten. ILLEGAL_VALUE where the key makes none.
fn sign<S: WordStore>(
    own: &RunningPair,
    piece: Stretch,
    args: &[Cell],
    memory: &mut Memory<S>,
    linked: &Linked,
) -> Result<NativeResult, StepExit>
    requires up { memory.old.heap.down ≡ false }
    requires own { IsRunningPair memory.old own.now }
    requires piece { IsInArray memory.old piece }
    requires few { piece.count ≤ MOST_ELEMENTS }
    ensures { Executes (changing_call (signs own.now piece args.now linked.now memory.old)
        linked.now memory.old) memory.old (after_call result memory.new) }
{
    let mut buffer = [0; MOST_SIGNATURE];
    match sign_message(own, piece, memory, linked, &mut buffer) {
        Some(count) => put_and_forget(own, &buffer[..count], args, memory, linked),
        None => Err(StepExit::Throw(ILLEGAL_VALUE)),
    }
}

/// `sign`: the message ends with these bytes; puts its signature, and returns its length. Where the key makes none it throws ILLEGAL_VALUE.
#[tactic(auto, unfolding(crate::specs::Signature::Pair::pair_sign))]
pub(crate) fn sign_by_pair<S: WordStore>(
    algorithm: PairSignature,
    own: &KeyedEngine,
    args: &[Cell],
    memory: &mut Memory<S>,
    linked: &Linked,
) -> Result<NativeResult, StepExit>
    requires up { memory.old.heap.down ≡ false }
    ensures { Executes (changing_call (pair_sign algorithm own.now args.now linked.now memory.old)
        linked.now memory.old) memory.old (after_call result memory.new) }
{
    let run = running_pair(Purpose::Signing, algorithm, own, memory, linked)?;
    let piece = counted_of(1, args, memory, linked)?;
    sign(&run, piece, args, memory, linked)
}

// Elements are a signature of the message with others.
fn is_signed<S: WordStore>(
    own: &RunningPair,
    piece: Stretch,
    given: Stretch,
    memory: &Memory<S>,
) -> bool
    requires up { memory.now.heap.down ≡ false }
    requires own { IsRunningPair memory.now own.now }
    requires piece { IsInArray memory.now piece }
    requires few { piece.count ≤ MOST_ELEMENTS }
    requires given { IsInArray memory.now given }
    ensures { result ≡ is_signature_of memory.now own.now (first_bytes own.now.algorithm memory.now own.now piece)
        (digest_with memory.now own.now piece) given }
{
    let mut first_buffer = [0; MOST_ENCODING];
    let count = put_first_bytes(own, &piece, memory, &mut first_buffer);
    let mut buffer = [0; MOST_HASH];
    let bytes = &mut buffer[..own.digest.algorithm.digest_size()];
    digest(&own.digest, piece, memory, bytes);
    is_signature(own, &first_buffer[..count], bytes, given, memory)
}

// Whether there is a signature is returned, and what came is forgotten.
fn forget_and_tell<S: WordStore>(
    own: &RunningPair,
    signed: bool,
    memory: &mut Memory<S>,
    linked: &Linked,
) -> Result<NativeResult, StepExit>
    requires up { memory.old.heap.down ≡ false }
    ensures { Executes (changing_call (Ok (tells_if_signed own.now signed)) linked.now memory.old)
        memory.old (after_call result memory.new) }
{
    let zeros = [0; MOST_SHORTS];
    let words = nothing_to_sign(own, &zeros);
    let state = StateWords {
        array: own.digest.state.array,
        start: 0,
        words,
    };
    change_state(state, Some(i16::from(signed)), memory, linked)
}

// The message ends with these elements: whether others are a signature of it is returned, and what came is forgotten.
fn verify<S: WordStore>(
    own: &RunningPair,
    piece: Stretch,
    given: Stretch,
    memory: &mut Memory<S>,
    linked: &Linked,
) -> Result<NativeResult, StepExit>
    requires up { memory.old.heap.down ≡ false }
    requires own { IsRunningPair memory.old own.now }
    requires piece { IsInArray memory.old piece }
    requires few { piece.count ≤ MOST_ELEMENTS }
    requires given { IsInArray memory.old given }
    ensures { Executes (changing_call (Ok (verifies memory.old own.now piece given)) linked.now memory.old)
        memory.old (after_call result memory.new) }
{
    let signed = is_signed(own, piece, given, memory);
    forget_and_tell(own, signed, memory, linked)
}

/// `verify`: the message ends with these bytes; returns whether others are a signature of it.
#[tactic(auto, unfolding(crate::specs::Signature::Pair::pair_verify))]
pub(crate) fn verify_by_pair<S: WordStore>(
    algorithm: PairSignature,
    own: &KeyedEngine,
    args: &[Cell],
    memory: &mut Memory<S>,
    linked: &Linked,
) -> Result<NativeResult, StepExit>
    requires up { memory.old.heap.down ≡ false }
    ensures { Executes (changing_call (pair_verify algorithm own.now args.now linked.now memory.old)
        linked.now memory.old) memory.old (after_call result memory.new) }
{
    let run = running_pair(Purpose::Verifying, algorithm, own, memory, linked)?;
    let piece = counted_of(1, args, memory, linked)?;
    let given = counted_of(4, args, memory, linked)?;
    verify(&run, piece, given, memory, linked)
}
