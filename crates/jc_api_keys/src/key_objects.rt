//! The calls of key objects (API specification): `Key`, `DESKey`, `AESKey` and `HMACKey`.

pub mod arguments;
pub mod contents;
pub mod parts;

ghost use Rattle.std.specs.Prelude.{◌≡◌, ◌≤◌, ◌+◌, false, IfOk};
ghost use Rattle.jc_memory.specs.Programs.{Executes};
ghost use Rattle.jc_world.specs.Arrays.{IsInArray};
ghost use Rattle.jc_world.specs.NativeCalls.{after_call};
ghost use Rattle.jc_api.specs.Exits.{plainly};
ghost use Rattle.jc_api.specs.Forms.{reading_call};
ghost use Rattle.jc_api_keys.specs.KeyObjects.{hmac_key_object_set_key, key_object_clear_key, key_object_get_key, key_object_get_size, key_object_get_type};
ghost use Rattle.jc_api_keys.specs.KeyObjects.{is_key_set, key_bits, key_object_is_initialized, key_object_set_key, sets_if_fitting};
ghost use Rattle.jc_api_keys.specs.KeyObjects.Contents.{IsKey};

use crate::exceptions::ILLEGAL_VALUE;
use crate::key_objects::contents::{
    Key, MOST_KEY, clear, key_elements, put_bytes, receiver_key, receiver_secret, set_key,
};
use crate::key_objects::parts::all_parts;
use crate::key_parts::{MOST_DATA, size_of};
use crate::key_types::{KeyKind, bits_of};
use crate::receivers::receiver_of;
use jc_api::{counted_of, elements_at};
use jc_frames::{Cell, FrameExit, Outcome};
use jc_linker::linked::Linked;
use jc_memory::Memory;
use jc_platform::names::PlatformClass;
use jc_words::WordStore;
use jc_world::arguments::{reference_argument, short_argument};
use jc_world::{NativeResult, StepExit, Stretch, boolean, short};

/// `Key.getType`: returns the number of its type.
#[tactic(auto, unfolding(crate::specs::KeyObjects::key_object_get_type))]
pub(crate) fn key_object_get_type<S: WordStore>(
    args: &[Cell],
    memory: &Memory<S>,
    linked: &Linked,
) -> Result<NativeResult, StepExit>
    requires up { memory.now.heap.down ≡ false }
    ensures { Executes (reading_call (key_object_get_type args.now linked.now memory.now)
        linked.now memory.now) memory.now (after_call result memory.now) }
{
    let own = receiver_of(PlatformClass::KeyObject, args, memory, linked)?;
    Ok(short(own.number))
}

// How many bits a key has, an HMAC key at most.
fn key_bits(key: &Key, kind: KeyKind) -> Result<u16, FrameExit>
    requires few { key.now.elements.count ≤ MOST_DATA }
    ensures bits { result ≡ key_bits key.now kind }
    ensures few { IfOk result (λ bits. bits ≤ 32767) }
    ensures plain { plainly result ≡ result }
{
    match kind {
        KeyKind::Secret(_) => Ok(8 * key.capacity()),
        KeyKind::OfPair(pair) => match size_of(pair, key.elements.count) {
            Some(size) => Ok(bits_of(size)),
            None => Err(FrameExit::End(Outcome::Fault)),
        },
    }
}

/// `Key.getSize`: returns how many bits the key has, an HMAC key at most.
#[tactic(auto, unfolding(crate::specs::KeyObjects::key_object_get_size))]
pub(crate) fn key_object_get_size<S: WordStore>(
    args: &[Cell],
    memory: &Memory<S>,
    linked: &Linked,
) -> Result<NativeResult, StepExit>
    requires up { memory.now.heap.down ≡ false }
    ensures { Executes (reading_call (key_object_get_size args.now linked.now memory.now)
        linked.now memory.now) memory.now (after_call result memory.now) }
{
    let key = receiver_key(PlatformClass::KeyObject, args, memory, linked)?;
    let Some(kind) = key.kind() else {
        return Err(StepExit::End(Outcome::Fault));
    };
    let bits = key_bits(&key, kind)?;
    Ok(short(bits as i16))
}

// A key is set.
fn is_key_set<S: WordStore>(key: &Key, kind: KeyKind, memory: &Memory<S>) -> bool
    requires up { memory.now.heap.down ≡ false }
    requires key { IsKey memory.now key.now }
    ensures { result ≡ is_key_set memory.now key.now kind }
{
    match kind {
        KeyKind::Secret(_) => key.length(memory) != 0,
        KeyKind::OfPair(pair) => all_parts(key, pair, memory).is_ok(),
    }
}

/// `Key.isInitialized`: returns whether the key is set.
#[tactic(auto, unfolding(crate::specs::KeyObjects::key_object_is_initialized))]
pub(crate) fn key_object_is_initialized<S: WordStore>(
    args: &[Cell],
    memory: &Memory<S>,
    linked: &Linked,
) -> Result<NativeResult, StepExit>
    requires up { memory.now.heap.down ≡ false }
    ensures { Executes (reading_call (key_object_is_initialized args.now linked.now memory.now)
        linked.now memory.now) memory.now (after_call result memory.now) }
{
    let key = receiver_key(PlatformClass::KeyObject, args, memory, linked)?;
    let Some(kind) = key.kind() else {
        return Err(StepExit::End(Outcome::Fault));
    };
    Ok(boolean(is_key_set(&key, kind, memory)))
}

/// `Key.clearKey`: sets all its data to 0, so that the key is not set: of a secret key as one change, else for good.
#[tactic(auto, unfolding(crate::specs::KeyObjects::key_object_clear_key))]
pub(crate) fn key_object_clear_key<S: WordStore>(
    args: &[Cell],
    memory: &mut Memory<S>,
    linked: &Linked,
) -> Result<NativeResult, StepExit>
    requires up { memory.old.heap.down ≡ false }
    ensures { Executes (reading_call (key_object_clear_key args.now linked.now memory.old)
        linked.now memory.old) memory.old (after_call result memory.new) }
{
    let key = receiver_key(PlatformClass::KeyObject, args, memory, linked)?;
    clear(&key, memory, linked)
}

/// `DESKey.getKey`, `AESKey.getKey`, `HMACKey.getKey`: puts the bytes of the key, as one change; returns their number.
#[tactic(auto, unfolding(crate::specs::KeyObjects::key_object_get_key))]
pub(crate) fn key_object_get_key<S: WordStore>(
    args: &[Cell],
    memory: &mut Memory<S>,
    linked: &Linked,
) -> Result<NativeResult, StepExit>
    requires up { memory.old.heap.down ≡ false }
    ensures { Executes (reading_call (key_object_get_key args.now linked.now memory.old)
        linked.now memory.old) memory.old (after_call result memory.new) }
{
    let key = receiver_secret(PlatformClass::KeyObject, args, memory, linked)?;
    let array = reference_argument(args, 1)?;
    let start = short_argument(args, 2)?;
    let from = key_elements(&key, memory)?;
    put_bytes(array, start, from, memory, linked)
}

/// `DESKey.setKey`, `AESKey.setKey`: sets the key to as many elements as it has bytes, as one change.
#[tactic(auto, unfolding(crate::specs::KeyObjects::key_object_set_key))]
pub(crate) fn key_object_set_key<S: WordStore>(
    args: &[Cell],
    memory: &mut Memory<S>,
    linked: &Linked,
) -> Result<NativeResult, StepExit>
    requires up { memory.old.heap.down ≡ false }
    ensures { Executes (reading_call (key_object_set_key args.now linked.now memory.old)
        linked.now memory.old) memory.old (after_call result memory.new) }
{
    let key = receiver_secret(PlatformClass::KeyObject, args, memory, linked)?;
    let array = reference_argument(args, 1)?;
    let start = short_argument(args, 2)?;
    let from = elements_at(array, start, key.capacity() as i16, memory, linked)?;
    set_key(&key, from, memory, linked)
}

// Sets an HMAC key to some elements, of which there are no more than it may have.
fn set_if_fitting<S: WordStore>(
    key: &Key,
    from: Stretch,
    memory: &mut Memory<S>,
    linked: &Linked,
) -> Result<NativeResult, StepExit>
    requires up { memory.old.heap.down ≡ false }
    requires few { key.now.elements.count ≤ MOST_KEY + 1 }
    requires from { IsInArray memory.old from }
    ensures { Executes (reading_call (sets_if_fitting memory.old key.now from) linked.now memory.old)
        memory.old (after_call result memory.new) }
{
    if 1 <= from.count && from.count <= key.capacity() {
        set_key(key, from, memory, linked)
    } else {
        Err(StepExit::Throw(ILLEGAL_VALUE))
    }
}

/// `HMACKey.setKey`: sets the key to some elements, as one change. None, or more than the key may have, throw ILLEGAL_VALUE.
#[tactic(auto, unfolding(crate::specs::KeyObjects::hmac_key_object_set_key))]
pub(crate) fn hmac_key_object_set_key<S: WordStore>(
    args: &[Cell],
    memory: &mut Memory<S>,
    linked: &Linked,
) -> Result<NativeResult, StepExit>
    requires up { memory.old.heap.down ≡ false }
    ensures { Executes (reading_call (hmac_key_object_set_key args.now linked.now memory.old)
        linked.now memory.old) memory.old (after_call result memory.new) }
{
    let key = receiver_secret(PlatformClass::HmacKeyObject, args, memory, linked)?;
    let from = counted_of(1, args, memory, linked)?;
    set_if_fitting(&key, from, memory, linked)
}
