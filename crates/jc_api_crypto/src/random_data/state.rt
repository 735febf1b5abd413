//! What becomes of an object that gives random bytes.
ghost use Rattle.std.specs.Prelude.{◌≡◌, ◌≤◌, ◌<◌, ◌++◌, ℤ, false, Option, Some, None, Ok};
ghost use Rattle.sha2.specs.Sha256.{sha256};
ghost use Rattle.jc_memory.specs.Programs.{Executes};
ghost use Rattle.jc_world.specs.Arrays.{IsInArray, bytes_in};
ghost use Rattle.jc_world.specs.NativeCalls.{after_call};
ghost use Rattle.jc_api.specs.Arguments.{AreAsked};
ghost use Rattle.jc_api.specs.Changing.{changes, changing_call};
ghost use Rattle.jc_api_crypto.specs.RandomData.{IsRunning, counter_of, counter_shorts, draws, mixed_of, mixed_shorts, next_number, source_of};
ghost use Rattle.jc_api_keys.specs.Shorts.{first_shorts};

use crate::random_data::RunningRandom;
use crate::random_data::source::{MIXED_SIZE, Source, put_random};
use jc_api::{MOST_ELEMENTS, SMALL_PIECE, StateWords, change_state, change_state_and_put};
use jc_api_keys::exceptions::ILLEGAL_VALUE;
use jc_api_keys::receivers::read;
use jc_api_keys::shorts::{put_bytes_of, put_shorts_of};
use jc_digests::digest::digest_of_pieces;
use jc_digests::sha_256::Sha256;
use jc_linker::linked::Linked;
use jc_memory::Memory;
use jc_words::WordStore;
use jc_world::{NativeResult, StepExit, Stretch};

// How many shorts of a state are the next number, and how many follow it.
const COUNTER_SHORTS: usize = 2;

const MIXED_SHORTS: usize = 16;

// The next number.
fn counter_of<S: WordStore>(own: &RunningRandom, memory: &Memory<S>) -> u32
    requires up { memory.now.heap.down ≡ false }
    requires own { IsRunning memory.now own.now }
    ensures { result ≡ counter_of memory.now own.now }
{
    let mut words = [0; COUNTER_SHORTS];
    memory.words(own.state.array, 0, &mut words);
    let [high, low] = words;
    u32::from(high) * 65536 + u32::from(low)
}

// What `setSeed` mixed.
fn mixed_of<S: WordStore>(own: &RunningRandom, memory: &Memory<S>) -> [u8; MIXED_SIZE]
    requires up { memory.now.heap.down ≡ false }
    requires own { IsRunning memory.now own.now }
    ensures { result ≡ mixed_of memory.now own.now }
{
    let mut words = [0; MIXED_SHORTS];
    memory.words(own.state.array, COUNTER_SHORTS as u16, &mut words);
    let mut mixed = [0; MIXED_SIZE];
    put_bytes_of(&words, &mut mixed);
    mixed
}

// Where its bytes come from.
fn source_of<S: WordStore>(own: &RunningRandom, memory: &Memory<S>, linked: &Linked) -> Source
    requires up { memory.now.heap.down ≡ false }
    requires own { IsRunning memory.now own.now }
    ensures { result ≡ source_of linked.now memory.now own.now }
{
    Source {
        seed: *linked.platform().table().random(),
        object: own.own.address(),
        mixed: mixed_of(own, memory),
    }
}

// The number after those that this many bytes use.
fn next_number(number: u32, count: u16) -> u32
    ensures { result ≡ next_number number count }
{
    number.wrapping_add((u32::from(count) + 31) / 32)
}

// Fills elements, of which there are at most this many.
#[inline(never)]
fn draw_most<const MOST: usize, S: WordStore>(
    own: &RunningRandom,
    e: Stretch,
    answer: Option<i16>,
    memory: &mut Memory<S>,
    linked: &Linked,
) -> Result<NativeResult, StepExit>
    requires up { memory.old.heap.down ≡ false }
    requires own { IsRunning memory.old own.now }
    requires there { IsInArray memory.old e }
    requires asked { AreAsked linked.now memory.old e }
    requires some { 0 < e.count }
    requires few { e.count ≤ MOST }
    requires most { MOST ≤ MOST_ELEMENTS }
    ensures { Executes (changing_call (draws linked.now memory.old own.now e answer) linked.now memory.old)
        memory.old (after_call result memory.new) }
{
    let number = counter_of(own, memory);
    let source = source_of(own, memory, linked);
    let mut buffer = [0; MOST];
    let bytes = &mut buffer[..e.count as usize];
    put_random(&source, number, bytes);
    let next = next_number(number, e.count);
    let words = [(next / 65536) as u16, (next % 65536) as u16];
    let state = StateWords {
        array: own.state.array,
        start: 0,
        words: &words,
    };
    change_state_and_put(state, e, bytes, answer, memory, linked)
}

/// Fills elements with random bytes, and returns a number or nothing.
pub(crate) fn draw<S: WordStore>(
    own: &RunningRandom,
    e: Stretch,
    answer: Option<i16>,
    memory: &mut Memory<S>,
    linked: &Linked,
) -> Result<NativeResult, StepExit>
    requires up { memory.old.heap.down ≡ false }
    requires own { IsRunning memory.old own.now }
    requires there { IsInArray memory.old e }
    requires asked { AreAsked linked.now memory.old e }
    requires few { e.count ≤ MOST_ELEMENTS }
    ensures { Executes (changing_call (draws linked.now memory.old own.now e answer) linked.now memory.old)
        memory.old (after_call result memory.new) }
{
    if e.count == 0 {
        return Err(StepExit::Throw(ILLEGAL_VALUE));
    }
    if e.count as usize <= SMALL_PIECE {
        return draw_most::<SMALL_PIECE, S>(own, e, answer, memory, linked);
    }
    draw_most::<MOST_ELEMENTS, S>(own, e, answer, memory, linked)
}

// Mixes in elements, of which there are at most this many.
#[inline(never)]
fn mix_most<const MOST: usize, S: WordStore>(
    own: &RunningRandom,
    e: Stretch,
    memory: &mut Memory<S>,
    linked: &Linked,
) -> Result<NativeResult, StepExit>
    requires up { memory.old.heap.down ≡ false }
    requires own { IsRunning memory.old own.now }
    requires there { IsInArray memory.old e }
    requires few { e.count ≤ MOST }
    requires most { MOST ≤ MOST_ELEMENTS }
    ensures { Executes (changing_call (Ok (changes own.now.state.array counter_shorts
        (first_shorts (sha256 (mixed_of memory.old own.now ++ bytes_in memory.old e)) mixed_shorts) None))
        linked.now memory.old) memory.old (after_call result memory.new) }
{
    let mut buffer = [0; MOST];
    let given = &mut buffer[..e.count as usize];
    read(e, memory, given);
    let mixed = mixed_of(own, memory);
    let mut digest = [0; MIXED_SIZE];
    digest_of_pieces::<Sha256>(&mixed, given, &mut digest);
    let mut words = [0; MIXED_SHORTS];
    put_shorts_of(&digest, &mut words);
    let state = StateWords {
        array: own.state.array,
        start: COUNTER_SHORTS as u16,
        words: &words,
    };
    change_state(state, None, memory, linked)
}

/// Mixes in elements.
pub(crate) fn mix<S: WordStore>(
    own: &RunningRandom,
    e: Stretch,
    memory: &mut Memory<S>,
    linked: &Linked,
) -> Result<NativeResult, StepExit>
    requires up { memory.old.heap.down ≡ false }
    requires own { IsRunning memory.old own.now }
    requires there { IsInArray memory.old e }
    requires few { e.count ≤ MOST_ELEMENTS }
    ensures { Executes (changing_call (Ok (changes own.now.state.array counter_shorts
        (first_shorts (sha256 (mixed_of memory.old own.now ++ bytes_in memory.old e)) mixed_shorts) None))
        linked.now memory.old) memory.old (after_call result memory.new) }
{
    if e.count as usize <= SMALL_PIECE {
        return mix_most::<SMALL_PIECE, S>(own, e, memory, linked);
    }
    mix_most::<MOST_ELEMENTS, S>(own, e, memory, linked)
}
