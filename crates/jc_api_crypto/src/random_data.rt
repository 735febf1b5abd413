//! `RandomData` (API specification). The bytes are a function of the platform table, of the object, of what was drawn since the last reset, and of
//! what `setSeed` was given.

pub mod source;
pub(crate) mod state;

ghost use Rattle.std.specs.Prelude.{◌≡◌, ◌<◌, ◌+◌, false, IfOk, Some};
ghost use Rattle.std.specs.Int.{cast_signed, w16};
ghost use Rattle.jc_memory.specs.Programs.{Executes};
ghost use Rattle.jc_world.specs.NativeCalls.{after_call};
ghost use Rattle.jc_api.specs.Changing.{changing_call};
ghost use Rattle.jc_api.specs.Exits.{plainly};
ghost use Rattle.jc_api.specs.Factory.{factory_call};
ghost use Rattle.jc_api.specs.Forms.{reading_call};
ghost use Rattle.jc_api_crypto.specs.RandomData.{IsRunning, is_random_algorithm, random_data_generate_data, random_data_get_algorithm, random_data_get_instance, random_data_next_bytes, random_data_set_seed, running_random};

use crate::random_data::state::{draw, mix};
use jc_api::{NewEngine, StateKind, counted_of, make_engine, state_at};
use jc_api_keys::exceptions::NO_SUCH_ALGORITHM;
use jc_api_keys::receivers::receiver_of;
use jc_frames::{Cell, FrameExit};
use jc_linker::linked::Linked;
use jc_memory::Memory;
use jc_platform::names::PlatformClass;
use jc_transient::{ClearEvent, Ref};
use jc_words::WordStore;
use jc_world::arguments::short_argument;
use jc_world::{NativeResult, StepExit, Stretch, short};

/// An object that gives random bytes: the cells of its state.
#[derive(Clone, Copy)]
pub struct RunningRandom {
    pub own: Ref,
    pub state: Stretch,
}

// How many shorts a state has.
const RANDOM_SHORTS: u16 = 18;

// There is an algorithm of this number.
fn is_random_algorithm(number: i16) -> bool
    ensures { result ≡ is_random_algorithm number }
{
    1 <= number && number <= 6
}

// The receiver, and the cells of its state.
#[tactic(auto, unfolding(crate::specs::RandomData::running_random))]
fn running_random<S: WordStore>(
    args: &[Cell],
    memory: &Memory<S>,
    linked: &Linked,
) -> Result<RunningRandom, FrameExit>
    requires up { memory.now.heap.down ≡ false }
    ensures running { result ≡ running_random args.now linked.now memory.now }
    ensures there { IfOk result (IsRunning memory.now) }
    ensures plain { plainly result ≡ result }
{
    let own = receiver_of(PlatformClass::RandomData, args, memory, linked)?;
    let state = state_at(own.array, 0, RANDOM_SHORTS, memory, linked)?;
    Ok(RunningRandom {
        own: own.own,
        state,
    })
}

// The new object that is asked for.
#[tactic(auto, unfolding(crate::specs::RandomData::random_data_get_instance))]
fn new_random(args: &[Cell]) -> Result<NewEngine, FrameExit>
    ensures new { result ≡ random_data_get_instance args.now }
    ensures plain { plainly result ≡ result }
{
    let number = short_argument(args, 0)?;
    if is_random_algorithm(number) {
        Ok(NewEngine {
            class: PlatformClass::RandomData,
            number,
            elements: StateKind::Shorts,
            event: Some(ClearEvent::Reset),
            state: RANDOM_SHORTS,
        })
    } else {
        Err(FrameExit::Throw(NO_SUCH_ALGORITHM))
    }
}

/// `RandomData.getInstance`: makes an object with the algorithm of a number.
pub(crate) fn random_data_get_instance<S: WordStore>(
    args: &[Cell],
    memory: &mut Memory<S>,
    linked: &Linked,
) -> Result<NativeResult, StepExit>
    requires up { memory.old.heap.down ≡ false }
    ensures { Executes (factory_call (random_data_get_instance args.now) linked.now memory.old)
        memory.old (after_call result memory.new) }
{
    let engine = new_random(args)?;
    make_engine(engine, memory, linked)
}

/// `RandomData.getAlgorithm`: returns the number of the algorithm.
#[tactic(auto, unfolding(crate::specs::RandomData::random_data_get_algorithm))]
pub(crate) fn random_data_get_algorithm<S: WordStore>(
    args: &[Cell],
    memory: &Memory<S>,
    linked: &Linked,
) -> Result<NativeResult, StepExit>
    requires up { memory.now.heap.down ≡ false }
    ensures { Executes (reading_call (random_data_get_algorithm args.now linked.now memory.now)
        linked.now memory.now) memory.now (after_call result memory.now) }
{
    let own = receiver_of(PlatformClass::RandomData, args, memory, linked)?;
    Ok(short(own.number))
}

/// `RandomData.generateData`: fills elements with random bytes.
#[tactic(auto, unfolding(crate::specs::RandomData::random_data_generate_data))]
pub(crate) fn random_data_generate_data<S: WordStore>(
    args: &[Cell],
    memory: &mut Memory<S>,
    linked: &Linked,
) -> Result<NativeResult, StepExit>
    requires up { memory.old.heap.down ≡ false }
    ensures { Executes (changing_call (random_data_generate_data args.now linked.now memory.old)
        linked.now memory.old) memory.old (after_call result memory.new) }
{
    let own = running_random(args, memory, linked)?;
    let e = counted_of(1, args, memory, linked)?;
    draw(&own, e, None, memory, linked)
}

// What `nextBytes` returns.
fn index_after(elements: &Stretch) -> Option<i16>
    requires { elements.now.start + elements.now.count < 65536 }
    ensures { result ≡ Some (cast_signed w16 (elements.now.start + elements.now.count)) }
{
    Some((elements.start + elements.count).cast_signed())
}

/// `RandomData.nextBytes`: the same; returns the index after the last one.
#[tactic(auto, unfolding(crate::specs::RandomData::random_data_next_bytes))]
pub(crate) fn random_data_next_bytes<S: WordStore>(
    args: &[Cell],
    memory: &mut Memory<S>,
    linked: &Linked,
) -> Result<NativeResult, StepExit>
    requires up { memory.old.heap.down ≡ false }
    ensures { Executes (changing_call (random_data_next_bytes args.now linked.now memory.old)
        linked.now memory.old) memory.old (after_call result memory.new) }
{
    let own = running_random(args, memory, linked)?;
    let e = counted_of(1, args, memory, linked)?;
    let answer = index_after(&e);
    draw(&own, e, answer, memory, linked)
}

/// `RandomData.setSeed`: mixes bytes in.
#[tactic(auto, unfolding(crate::specs::RandomData::random_data_set_seed))]
pub(crate) fn random_data_set_seed<S: WordStore>(
    args: &[Cell],
    memory: &mut Memory<S>,
    linked: &Linked,
) -> Result<NativeResult, StepExit>
    requires up { memory.old.heap.down ≡ false }
    ensures { Executes (changing_call (random_data_set_seed args.now linked.now memory.old)
        linked.now memory.old) memory.old (after_call result memory.new) }
{
    let own = running_random(args, memory, linked)?;
    let e = counted_of(1, args, memory, linked)?;
    mix(&own, e, memory, linked)
}
