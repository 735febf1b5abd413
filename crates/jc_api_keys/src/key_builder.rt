//! `KeyBuilder` (API specification).
ghost use Rattle.std.specs.Prelude.{◌≡◌, false};
ghost use Rattle.jc_memory.specs.Programs.{Executes};
ghost use Rattle.jc_world.specs.NativeCalls.{after_call};
ghost use Rattle.jc_api.specs.Exits.{plainly};
ghost use Rattle.jc_api.specs.Factory.{factory_call, is_in_table};
ghost use Rattle.jc_api_keys.specs.KeyBuilder.{allowed_with, data_named, if_in_table, key_builder_build_key, key_if_allowed, key_named};
ghost use Rattle.jc_api_keys.specs.KeyTypes.{key_class, key_type_named};

use crate::exceptions::NO_SUCH_ALGORITHM;
use crate::key_parts::data_length;
use crate::key_types::{KeyKind, KeyType, capacity_named, key_class, key_type_named, size_named};
use jc_api::{NewEngine, StateKind, allow_making, make_engine};
use jc_frames::{Cell, FrameExit};
use jc_linker::linked::Linked;
use jc_memory::Memory;
use jc_transient::ClearEvent;
use jc_words::WordStore;
use jc_world::arguments::short_argument;
use jc_world::{NativeResult, StepExit};

// How many bytes the data of a key of a length have.
fn data_named(kind: KeyKind, length: i16) -> Option<u16>
    ensures { result ≡ data_named kind length }
{
    match kind {
        KeyKind::Secret(algorithm) => Some(capacity_named(algorithm, length)? + 1),
        KeyKind::OfPair(key) => Some(data_length(key, size_named(key, length)?)),
    }
}

// The platform table has the class of a type.
fn is_in_table(named: KeyType, linked: &Linked) -> bool
    ensures { result ≡ is_in_table (key_class named.kind) linked.now }
{
    let class = key_class(named.kind);
    linked.platform().table().token_of_class(class).is_some()
}

// The type of a number, of which the platform table has the class.
fn type_in_table(number: i16, linked: &Linked) -> Option<KeyType>
    ensures { result ≡ if_in_table linked.now (key_type_named number) }
{
    let named = key_type_named(number)?;
    if is_in_table(named, linked) {
        Some(named)
    } else {
        None
    }
}

// The code that runs may make what this event clears.
fn allow_event<S: WordStore>(event: Option<ClearEvent>, memory: &Memory<S>) -> Result<(), FrameExit>
    requires up { memory.now.heap.down ≡ false }
    ensures allowed { result ≡ allowed_with event memory.now }
    ensures plain { plainly result ≡ result }
{
    match event {
        None => Ok(()),
        Some(event) => allow_making(event, memory),
    }
}

// A new key object, where the code that runs may make it.
fn key_if_allowed<S: WordStore>(
    number: i16,
    named: KeyType,
    length: u16,
    encrypts: i16,
    memory: &Memory<S>,
) -> Result<NewEngine, FrameExit>
    requires up { memory.now.heap.down ≡ false }
    ensures new { result ≡ key_if_allowed number named length encrypts memory.now }
    ensures plain { plainly result ≡ result }
{
    if encrypts != 0 {
        return Err(FrameExit::Throw(NO_SUCH_ALGORITHM));
    }
    allow_event(named.event, memory)?;
    Ok(NewEngine {
        class: key_class(named.kind),
        number,
        elements: StateKind::Bytes,
        event: named.event,
        state: length,
    })
}

/// The new key object of a type and a length, which is not set. A type or a length that is none throws NO_SUCH_ALGORITHM, as do a type whose class
/// the platform table lacks, and keys that encrypt keys; then what the code that runs may not make throws.
#[tactic(auto, unfolding(crate::specs::KeyBuilder::key_named))]
pub fn key_named<S: WordStore>(
    number: i16,
    length: i16,
    encrypts: i16,
    memory: &Memory<S>,
    linked: &Linked,
) -> Result<NewEngine, FrameExit>
    requires up { memory.now.heap.down ≡ false }
    ensures new { result ≡ key_named number length encrypts linked.now memory.now }
    ensures plain { plainly result ≡ result }
{
    let Some(named) = type_in_table(number, linked) else {
        return Err(FrameExit::Throw(NO_SUCH_ALGORITHM));
    };
    let Some(long) = data_named(named.kind, length) else {
        return Err(FrameExit::Throw(NO_SUCH_ALGORITHM));
    };
    key_if_allowed(number, named, long, encrypts, memory)
}

// The new key object that is asked for.
#[tactic(auto, unfolding(crate::specs::KeyBuilder::key_builder_build_key))]
fn requested_key<S: WordStore>(
    args: &[Cell],
    memory: &Memory<S>,
    linked: &Linked,
) -> Result<NewEngine, FrameExit>
    requires up { memory.now.heap.down ≡ false }
    ensures new { result ≡ key_builder_build_key args.now linked.now memory.now }
    ensures plain { plainly result ≡ result }
{
    let number = short_argument(args, 0)?;
    let length = short_argument(args, 1)?;
    let encrypts = short_argument(args, 2)?;
    key_named(number, length, encrypts, memory, linked)
}

/// `KeyBuilder.buildKey`: makes a key object of a type and a length, which is not set.
pub(crate) fn key_builder_build_key<S: WordStore>(
    args: &[Cell],
    memory: &mut Memory<S>,
    linked: &Linked,
) -> Result<NativeResult, StepExit>
    requires up { memory.old.heap.down ≡ false }
    ensures { Executes (factory_call (key_builder_build_key args.now linked.now memory.old) linked.now
        memory.old) memory.old (after_call result memory.new) }
{
    let key = requested_key(args, memory, linked)?;
    make_engine(key, memory, linked)
}
