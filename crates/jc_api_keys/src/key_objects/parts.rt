//! Keys of pairs as calls find them: where their parts stand, and what they are.
ghost use Rattle.std.specs.Int.{to_be_bytes, w16};
ghost use Rattle.std.specs.Prelude.{◌≡◌, ◌≤◌, ◌+◌, ◌++◌, false, length, IfOk};
ghost use Rattle.jc_memory.specs.Programs.{Executes};
ghost use Rattle.jc_world.specs.Arrays.{IsInArray, bytes_in};
ghost use Rattle.jc_world.specs.NativeCalls.{after_call};
ghost use Rattle.jc_api.specs.Exits.{plainly};
ghost use Rattle.jc_api.specs.Forms.{reading_call};
ghost use Rattle.jc_api_keys.specs.KeyObjects.Contents.{IsKey};
ghost use Rattle.jc_api_keys.specs.KeyObjects.Parts.{all_parts, are_set, curve_parts, fits_part, is_allowed, get_part, set_part, key_part, number_at};
ghost use Rattle.jc_api_keys.specs.KeyObjects.Parts.{part_if_set, part_place, sets_if_allowed};
ghost use Rattle.jc_api_keys.specs.KeyParts.{crt_parts, rsa_parts};

use crate::exceptions::{ILLEGAL_VALUE, UNINITIALIZED_KEY};
use crate::key_objects::contents::{Key, put_bytes, receiver_key, set_at};
use crate::key_parts::{
    KeyPart, MOST_DATA, MOST_SIZE, has_part, holder_of, place_of, room_of, size_of,
};
use crate::key_types::{PairKey, pair_key_named};
use crate::receivers::read;
use jc_api::counted_of;
use jc_frames::{Cell, FrameExit, Outcome};
use jc_linker::linked::Linked;
use jc_memory::Memory;
use jc_words::WordStore;
use jc_world::arguments::{reference_argument, short_argument};
use jc_world::{NativeResult, StepExit, Stretch};

/// The elements in which a part of a key stands, the two bytes of its length first. What is no key of a pair, has data that are of none, or has
/// no such part, is a code fault.
#[tactic(auto, unfolding(crate::specs::KeyObjects::Parts::part_place))]
pub(crate) fn part_place(key: &Key, part: KeyPart) -> Result<Stretch, FrameExit>
    requires few { key.now.elements.count ≤ MOST_DATA }
    ensures place { result ≡ part_place key.now part }
    ensures array { IfOk result (λ e. e.array ≡ key.now.elements.array) }
    ensures within { IfOk result (λ e. e.start + e.count ≤ key.now.elements.count) }
    ensures some { IfOk result (λ e. 2 ≤ e.count) }
    ensures few { IfOk result (λ e. e.count ≤ MOST_SIZE + 2) }
    ensures plain { plainly result ≡ result }
{
    let Some(pair) = pair_key_named(key.number) else {
        return Err(FrameExit::End(Outcome::Fault));
    };
    let Some(size) = size_of(pair, key.elements.count) else {
        return Err(FrameExit::End(Outcome::Fault));
    };
    if !has_part(pair, part) {
        return Err(FrameExit::End(Outcome::Fault));
    }
    Ok(Stretch {
        array: key.elements.array,
        start: place_of(part, size),
        count: 2 + room_of(part, size),
    })
}

/// The number that the first two of some elements are, the first one high.
pub(crate) fn number_at<S: WordStore>(e: &Stretch, memory: &Memory<S>) -> u16
    requires up { memory.now.heap.down ≡ false }
    requires there { IsInArray memory.now e.now }
    requires two { 2 ≤ e.now.count }
    ensures { result ≡ number_at memory.now e.now }
{
    u16::from(memory.byte(e.array, e.start)) * 256 + u16::from(memory.byte(e.array, e.start + 1))
}

// The elements that are the part that stands in some elements.
fn part_if_set<S: WordStore>(place: &Stretch, memory: &Memory<S>) -> Result<Stretch, FrameExit>
    requires up { memory.now.heap.down ≡ false }
    requires there { IsInArray memory.now place.now }
    requires two { 2 ≤ place.now.count }
    requires few { place.now.count ≤ MOST_SIZE + 2 }
    ensures part { result ≡ part_if_set place.now (number_at memory.now place.now) }
    ensures there { IfOk result (IsInArray memory.now) }
    ensures some { IfOk result (λ e. 1 ≤ e.count) }
    ensures few { IfOk result (λ e. e.count ≤ MOST_SIZE) }
    ensures plain { plainly result ≡ result }
{
    let count = number_at(place, memory);
    if count == 0 {
        return Err(FrameExit::Throw(UNINITIALIZED_KEY));
    }
    if count > place.count - 2 {
        return Err(FrameExit::End(Outcome::Fault));
    }
    Ok(Stretch {
        array: place.array,
        start: place.start + 2,
        count,
    })
}

/// The elements that are a part of a key. One that is not set throws UNINITIALIZED_KEY; a key that has no such part is a code fault, as is a part that is
/// longer than its room.
#[tactic(auto, unfolding(crate::specs::KeyObjects::Parts::key_part))]
pub fn key_part<S: WordStore>(
    key: &Key,
    part: KeyPart,
    memory: &Memory<S>,
) -> Result<Stretch, FrameExit>
    requires up { memory.now.heap.down ≡ false }
    requires key { IsKey memory.now key.now }
    ensures part { result ≡ key_part memory.now key.now part }
    ensures there { IfOk result (IsInArray memory.now) }
    ensures some { IfOk result (λ e. 1 ≤ e.count) }
    ensures few { IfOk result (λ e. e.count ≤ MOST_SIZE) }
    ensures plain { plainly result ≡ result }
{
    let place = part_place(key, part)?;
    part_if_set(&place, memory)
}

// The parts of an RSA key are set.
#[tactic(auto, unfolding(crate::specs::KeyObjects::Parts::are_set))]
fn rsa_is_set<S: WordStore>(key: &Key, memory: &Memory<S>) -> Result<(), FrameExit>
    requires up { memory.now.heap.down ≡ false }
    requires key { IsKey memory.now key.now }
    ensures set { result ≡ are_set memory.now key.now rsa_parts }
    ensures plain { plainly result ≡ result }
{
    key_part(key, KeyPart::Modulus, memory)?;
    key_part(key, KeyPart::Exponent, memory)?;
    Ok(())
}

// The parts of an RSA key by its primes are set.
#[tactic(auto, unfolding(crate::specs::KeyObjects::Parts::are_set))]
fn crt_is_set<S: WordStore>(key: &Key, memory: &Memory<S>) -> Result<(), FrameExit>
    requires up { memory.now.heap.down ≡ false }
    requires key { IsKey memory.now key.now }
    ensures set { result ≡ are_set memory.now key.now crt_parts }
    ensures plain { plainly result ≡ result }
{
    key_part(key, KeyPart::P, memory)?;
    key_part(key, KeyPart::Q, memory)?;
    key_part(key, KeyPart::Pq, memory)?;
    key_part(key, KeyPart::Dp1, memory)?;
    key_part(key, KeyPart::Dq1, memory)?;
    Ok(())
}

/// The domain parameters of a key are set, or UNINITIALIZED_KEY is thrown; the cofactor may be left out.
#[tactic(auto, unfolding(crate::specs::KeyObjects::Parts::are_set))]
pub fn curve_is_set<S: WordStore>(key: &Key, memory: &Memory<S>) -> Result<(), FrameExit>
    requires up { memory.now.heap.down ≡ false }
    requires key { IsKey memory.now key.now }
    ensures set { result ≡ are_set memory.now key.now curve_parts }
    ensures plain { plainly result ≡ result }
{
    key_part(key, KeyPart::Field, memory)?;
    key_part(key, KeyPart::A, memory)?;
    key_part(key, KeyPart::B, memory)?;
    key_part(key, KeyPart::G, memory)?;
    key_part(key, KeyPart::R, memory)?;
    Ok(())
}

/// All parts of a key but the cofactor are set, or UNINITIALIZED_KEY is thrown.
#[tactic(auto, unfolding(crate::specs::KeyObjects::Parts::are_set, crate::specs::KeyObjects::Parts::all_parts))]
pub fn all_parts<S: WordStore>(
    key: &Key,
    pair: PairKey,
    memory: &Memory<S>,
) -> Result<(), FrameExit>
    requires up { memory.now.heap.down ≡ false }
    requires key { IsKey memory.now key.now }
    ensures set { result ≡ all_parts memory.now key.now pair }
    ensures plain { plainly result ≡ result }
{
    match pair {
        PairKey::RsaPublic | PairKey::RsaPrivate => rsa_is_set(key, memory),
        PairKey::RsaCrtPrivate => crt_is_set(key, memory),
        PairKey::EcPublic => {
            curve_is_set(key, memory)?;
            key_part(key, KeyPart::W, memory)?;
            Ok(())
        }
        PairKey::EcPrivate => {
            curve_is_set(key, memory)?;
            key_part(key, KeyPart::S, memory)?;
            Ok(())
        }
    }
}

// A part may be bytes with this first byte, that fill its room or not.
fn is_allowed(part: KeyPart, fills: bool, first: u8) -> bool
    ensures { result ≡ is_allowed part fills first }
{
    match part {
        KeyPart::Modulus => fills && first >= 128,
        KeyPart::Field => fills,
        KeyPart::G | KeyPart::W => fills && first == 4,
        _ => true,
    }
}

// A part that stands in some elements may be those.
fn fits_part<S: WordStore>(
    part: KeyPart,
    place: &Stretch,
    from: &Stretch,
    memory: &Memory<S>,
) -> bool
    requires up { memory.now.heap.down ≡ false }
    requires from { IsInArray memory.now from.now }
    requires some { 2 ≤ place.now.count }
    ensures { result ≡ fits_part memory.now part place.now from.now }
{
    if from.count == 0 || from.count > place.count - 2 {
        return false;
    }
    let first = memory.byte(from.array, from.start);
    is_allowed(part, from.count == place.count - 2, first)
}

// Writes the bytes of a part after their number.
fn put_part_of<S: WordStore>(from: Stretch, memory: &Memory<S>, to: &mut [u8])
    requires up { memory.now.heap.down ≡ false }
    requires from { IsInArray memory.now from }
    requires all { length to.old ≡ 2 + from.count }
    ensures { to.new ≡ to_be_bytes w16 from.count ++ bytes_in memory.now from }
{
    let (count, bytes) = to.split_at_mut(2);
    count.copy_from_slice(&from.count.to_be_bytes());
    read(from, memory, bytes);
}

// Sets a part that stands in some elements to those, as one change. What the part may not be throws ILLEGAL_VALUE.
fn set_if_allowed<S: WordStore>(
    part: KeyPart,
    place: Stretch,
    from: Stretch,
    memory: &mut Memory<S>,
    linked: &Linked,
) -> Result<NativeResult, StepExit>
    requires up { memory.old.heap.down ≡ false }
    requires from { IsInArray memory.old from }
    requires some { 2 ≤ place.count }
    requires few { place.count ≤ MOST_SIZE + 2 }
    requires starts { place.start ≤ 32767 }
    ensures { Executes (reading_call (sets_if_allowed memory.old part place from) linked.now memory.old)
        memory.old (after_call result memory.new) }
{
    if !fits_part(part, &place, &from, memory) {
        return Err(StepExit::Throw(ILLEGAL_VALUE));
    }
    let mut buffer = [0; MOST_SIZE + 2];
    let bytes = &mut buffer[..from.count as usize + 2];
    put_part_of(from, memory, bytes);
    set_at(place.array, place.start, bytes, memory, linked)
}

/// A setter: sets a part of a key to some elements, as one change. What the part may not be throws ILLEGAL_VALUE.
#[tactic(auto, unfolding(crate::specs::KeyObjects::Parts::set_part))]
pub(crate) fn set_part<S: WordStore>(
    part: KeyPart,
    args: &[Cell],
    memory: &mut Memory<S>,
    linked: &Linked,
) -> Result<NativeResult, StepExit>
    requires up { memory.old.heap.down ≡ false }
    ensures { Executes (reading_call (set_part part args.now linked.now memory.old)
        linked.now memory.old) memory.old (after_call result memory.new) }
{
    let key = receiver_key(holder_of(part), args, memory, linked)?;
    let place = part_place(&key, part)?;
    let from = counted_of(1, args, memory, linked)?;
    set_if_allowed(part, place, from, memory, linked)
}

/// A getter: puts the bytes of a part of a key, as one change; returns their number.
#[tactic(auto, unfolding(crate::specs::KeyObjects::Parts::get_part))]
pub(crate) fn get_part<S: WordStore>(
    part: KeyPart,
    args: &[Cell],
    memory: &mut Memory<S>,
    linked: &Linked,
) -> Result<NativeResult, StepExit>
    requires up { memory.old.heap.down ≡ false }
    ensures { Executes (reading_call (get_part part args.now linked.now memory.old)
        linked.now memory.old) memory.old (after_call result memory.new) }
{
    let key = receiver_key(holder_of(part), args, memory, linked)?;
    let array = reference_argument(args, 1)?;
    let start = short_argument(args, 2)?;
    let from = key_part(&key, part, memory)?;
    put_bytes(array, start, from, memory, linked)
}
