//! What becomes of a message under RSA.
ghost use Rattle.std.specs.Prelude.{◌≡◌, ◌≤◌, ◌+◌, ◌++◌, [], false, length, take, if◌then◌else◌, IfSome, Some, None};
ghost use Rattle.std.specs.Option.{option_and_then, option_map};
ghost use Rattle.jc_memory.specs.Programs.{Executes};
ghost use Rattle.jc_world.specs.Arrays.{IsInArray, bytes_in};
ghost use Rattle.jc_world.specs.NativeCalls.{after_call};
ghost use Rattle.jc_api.specs.Changing.{changing_call};
ghost use Rattle.jc_api_ciphers.specs.Gathered.{state_of};
ghost use Rattle.jc_api_ciphers.specs.Outputs.{puts_output};
ghost use Rattle.jc_api_ciphers.specs.Signature.Pair.Signing.{AreParts, HasSize, key_power, seed_of};
ghost use Rattle.jc_api_ciphers.specs.Cipher.Rsa.Encodings.{message_in, private_form, public_form};
ghost use Rattle.jc_api_ciphers.specs.Cipher.Rsa.{IsRunningRsa, converted, converted_by, ends, gathers, message_with};
ghost use Rattle.jc_api_keys.specs.Shorts.{shorts_of};

use crate::cipher::kinds::RSA_SHORTS;
use crate::cipher::rsa::encodings::{put_message_in, put_private_form, put_public_form};
use crate::cipher::rsa::{RunningRsa, Way};
use crate::gathered::{put_gathered_words, put_piece, read_gathered};
use crate::outputs::put_output;
use crate::signature::pair::parts::Parts;
use crate::signature::pair::signing::{SEED, put_key_power, put_seed};
use jc_api_keys::exceptions::ILLEGAL_USE;
use jc_frames::Cell;
use jc_linker::linked::Linked;
use jc_memory::Memory;
use jc_rsa::bytes::MOST_ENCODING;
use jc_words::WordStore;
use jc_world::{NativeResult, StepExit, Stretch};

// Writes what came and some elements, and returns how many bytes that is, if they are no more than the modulus has.
fn put_message<S: WordStore>(
    own: &RunningRsa,
    piece: Stretch,
    memory: &Memory<S>,
    to: &mut [u8],
) -> Option<usize>
    requires up { memory.now.heap.down ≡ false }
    requires own { IsRunningRsa memory.now own.now }
    requires piece { IsInArray memory.now piece }
    requires room { length to.old ≡ MOST_ENCODING }
    ensures message { option_map (λ n. take n to.new) result ≡ message_with memory.now own.now piece }
    ensures within { IfSome result (λ n. n ≤ MOST_ENCODING) }
{
    let count = read_gathered(own.state, memory, to);
    let end = count + piece.count as usize;
    if end > own.size as usize {
        return None;
    }
    put_piece(count, piece, memory, to);
    Some(end)
}

// Sets the state to one that says that this came; nothing is put.
fn keep<S: WordStore>(
    own: &RunningRsa,
    all: &[u8],
    args: &[Cell],
    memory: &mut Memory<S>,
    linked: &Linked,
) -> Result<NativeResult, StepExit>
    requires up { memory.old.heap.down ≡ false }
    requires all { length all.now ≤ MOST_ENCODING }
    ensures { Executes (changing_call (puts_output own.now.state.array (shorts_of (state_of all.now)) [] args.now
        linked.now memory.old) linked.now memory.old) memory.old (after_call result memory.new) }
{
    let mut words = [0; RSA_SHORTS];
    put_gathered_words(all, &mut words);
    put_output(own.state.array, &words, &[], args, memory, linked)
}

/// Some elements follow the message. ILLEGAL_USE where that is longer than a modulus then.
pub(crate) fn gather<S: WordStore>(
    own: &RunningRsa,
    piece: Stretch,
    args: &[Cell],
    memory: &mut Memory<S>,
    linked: &Linked,
) -> Result<NativeResult, StepExit>
    requires up { memory.old.heap.down ≡ false }
    requires own { IsRunningRsa memory.old own.now }
    requires piece { IsInArray memory.old piece }
    ensures { Executes (changing_call (gathers own.now (message_with memory.old own.now piece) args.now linked.now
        memory.old) linked.now memory.old) memory.old (after_call result memory.new) }
{
    let mut buffer = [0; MOST_ENCODING];
    match put_message(own, piece, memory, &mut buffer) {
        Some(count) => keep(own, &buffer[..count], args, memory, linked),
        None => Err(StepExit::Throw(ILLEGAL_USE)),
    }
}

// Writes the power of a representative, and returns how many bytes it has, if there is one.
fn put_power<S: WordStore>(
    parts: &Parts,
    representative: &[u8],
    memory: &Memory<S>,
    to: &mut [u8],
) -> Option<usize>
    requires up { memory.now.heap.down ≡ false }
    requires parts { AreParts memory.now parts.now }
    requires size { HasSize (length representative.now) parts.now }
    requires few { length representative.now ≤ MOST_ENCODING }
    requires room { length to.old ≡ MOST_ENCODING }
    ensures power { option_map (λ n. take n to.new) result ≡ key_power memory.now parts.now representative.now }
    ensures within { IfSome result (λ n. n ≤ MOST_ENCODING) }
{
    let count = representative.len();
    if put_key_power(parts, representative, memory, &mut to[..count]) {
        Some(count)
    } else {
        None
    }
}

// Writes the message that is deciphered and decoded, and returns how many bytes it has, if there is one.
fn put_deciphered<S: WordStore>(
    own: &RunningRsa,
    all: &[u8],
    memory: &Memory<S>,
    to: &mut [u8],
) -> Option<usize>
    requires up { memory.now.heap.down ≡ false }
    requires own { IsRunningRsa memory.now own.now }
    requires all { length all.now ≡ own.now.size }
    requires room { length to.old ≡ MOST_ENCODING }
    ensures message { option_map (λ n. take n to.new) result
        ≡ option_and_then (message_in own.now.padding) (key_power memory.now own.now.parts all.now) }
    ensures within { IfSome result (λ n. n ≤ MOST_ENCODING) }
{
    let mut buffer = [0; MOST_ENCODING];
    let encoding = &mut buffer[..all.len()];
    if !put_key_power(&own.parts, all, memory, encoding) {
        return None;
    }
    put_message_in(own.padding, encoding, to)
}

// Writes a message enciphered under a public key, and returns how many bytes that is, if it may be.
fn put_for_public_key<S: WordStore>(
    own: &RunningRsa,
    all: &[u8],
    memory: &Memory<S>,
    linked: &Linked,
    to: &mut [u8],
) -> Option<usize>
    requires up { memory.now.heap.down ≡ false }
    requires own { IsRunningRsa memory.now own.now }
    requires all { length all.now ≤ MOST_ENCODING }
    requires room { length to.old ≡ MOST_ENCODING }
    ensures message { option_map (λ n. take n to.new) result ≡ option_and_then (key_power memory.now own.now.parts)
        (public_form own.now.padding all.now (seed_of linked.now own.now.key) own.now.size) }
    ensures within { IfSome result (λ n. n ≤ MOST_ENCODING) }
{
    let mut seed = [0; SEED];
    put_seed(own.key, linked, &mut seed);
    let mut buffer = [0; MOST_ENCODING];
    let representative = &mut buffer[..own.size as usize];
    if !put_public_form(own.padding, all, &seed, representative) {
        return None;
    }
    put_power(&own.parts, representative, memory, to)
}

// The same under a private key.
fn put_for_private_key<S: WordStore>(
    own: &RunningRsa,
    all: &[u8],
    memory: &Memory<S>,
    to: &mut [u8],
) -> Option<usize>
    requires up { memory.now.heap.down ≡ false }
    requires own { IsRunningRsa memory.now own.now }
    requires room { length to.old ≡ MOST_ENCODING }
    ensures message { option_map (λ n. take n to.new) result ≡ option_and_then (key_power memory.now own.now.parts)
        (private_form own.now.padding all.now own.now.size) }
    ensures within { IfSome result (λ n. n ≤ MOST_ENCODING) }
{
    let mut buffer = [0; MOST_ENCODING];
    let representative = &mut buffer[..own.size as usize];
    if !put_private_form(own.padding, all, representative) {
        return None;
    }
    put_power(&own.parts, representative, memory, to)
}

// Writes what becomes of a message, and returns how many bytes that is, if something does.
fn convert<S: WordStore>(
    own: &RunningRsa,
    all: &[u8],
    memory: &Memory<S>,
    linked: &Linked,
    to: &mut [u8],
) -> Option<usize>
    requires up { memory.now.heap.down ≡ false }
    requires own { IsRunningRsa memory.now own.now }
    requires all { length all.now ≤ MOST_ENCODING }
    requires room { length to.old ≡ MOST_ENCODING }
    ensures message { option_map (λ n. take n to.new) result ≡ converted_by own.now.way linked.now memory.now own.now all.now }
    ensures within { IfSome result (λ n. n ≤ MOST_ENCODING) }
{
    match own.way {
        Way::ForPublic => put_for_public_key(own, all, memory, linked, to),
        Way::ForPrivate => put_for_private_key(own, all, memory, to),
        Way::Decipher => {
            if all.len() != own.size as usize {
                return None;
            }
            put_deciphered(own, all, memory, to)
        }
    }
}

// Writes what becomes of the message with some elements, and returns how many bytes that is, if something does.
fn convert_whole<S: WordStore>(
    own: &RunningRsa,
    piece: Stretch,
    memory: &Memory<S>,
    linked: &Linked,
    to: &mut [u8],
) -> Option<usize>
    requires up { memory.now.heap.down ≡ false }
    requires own { IsRunningRsa memory.now own.now }
    requires piece { IsInArray memory.now piece }
    requires room { length to.old ≡ MOST_ENCODING }
    ensures message { option_map (λ n. take n to.new) result
        ≡ converted linked.now memory.now own.now (message_with memory.now own.now piece) }
    ensures within { IfSome result (λ n. n ≤ MOST_ENCODING) }
{
    let mut buffer = [0; MOST_ENCODING];
    match put_message(own, piece, memory, &mut buffer) {
        Some(count) => convert(own, &buffer[..count], memory, linked, to),
        None => None,
    }
}

// Puts what became of a message; what came is forgotten.
fn put_and_forget<S: WordStore>(
    own: &RunningRsa,
    bytes: &[u8],
    args: &[Cell],
    memory: &mut Memory<S>,
    linked: &Linked,
) -> Result<NativeResult, StepExit>
    requires up { memory.old.heap.down ≡ false }
    requires few { length bytes.now ≤ MOST_ENCODING }
    ensures { Executes (changing_call (ends own.now (Some bytes.now) args.now linked.now memory.old) linked.now memory.old)
        memory.old (after_call result memory.new) }
{
    put_output(
        own.state.array,
        &[0; RSA_SHORTS],
        bytes,
        args,
        memory,
        linked,
    )
}

/// The message ends with some elements: what becomes of it is put, and what came is forgotten. ILLEGAL_USE where nothing becomes of it.
pub(crate) fn end<S: WordStore>(
    own: &RunningRsa,
    piece: Stretch,
    args: &[Cell],
    memory: &mut Memory<S>,
    linked: &Linked,
) -> Result<NativeResult, StepExit>
    requires up { memory.old.heap.down ≡ false }
    requires own { IsRunningRsa memory.old own.now }
    requires piece { IsInArray memory.old piece }
    ensures { Executes (changing_call (ends own.now (converted linked.now memory.old own.now
        (message_with memory.old own.now piece)) args.now linked.now memory.old) linked.now memory.old)
        memory.old (after_call result memory.new) }
{
    let mut buffer = [0; MOST_ENCODING];
    match convert_whole(own, piece, memory, linked, &mut buffer) {
        Some(count) => put_and_forget(own, &buffer[..count], args, memory, linked),
        None => Err(StepExit::Throw(ILLEGAL_USE)),
    }
}
