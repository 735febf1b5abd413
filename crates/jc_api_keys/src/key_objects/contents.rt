//! Key objects as calls find them: their type, and their data.
ghost use Rattle.std.specs.Prelude.{◌≡◌, ◌≤◌, ◌+◌, ◌∷◌, true, false, length, replicate, IfOk, Ok};
ghost use Rattle.jc_memory.specs.Programs.{Executes};
ghost use Rattle.jc_world.specs.Arrays.{IsInArray, bytes_in};
ghost use Rattle.jc_world.specs.NativeCalls.{after_call, return_value};
ghost use Rattle.jc_world.specs.declared.native_result.NativeResult.TheVariants.{ReturnVoid};
ghost use Rattle.jc_api.specs.Exits.{plainly};
ghost use Rattle.jc_api.specs.Forms.{put_then, reading_call};
ghost use Rattle.jc_api_keys.specs.KeyObjects.Contents.{IsKey, capacity, clears, if_secret, key_data, key_elements, key_length, key_of, kind_of, puts_bytes};
ghost use Rattle.jc_api_keys.specs.KeyObjects.Contents.{receiver_key, receiver_secret, sets_at, sets_data, sets_for_good, sets_key};

use crate::exceptions::UNINITIALIZED_KEY;
use crate::key_parts::{MOST_DATA, MOST_SIZE};
use crate::key_types::{KeyKind, key_type_named};
use crate::receivers::{Receiver, read, receiver_of};
use jc_api::elements_at;
use jc_frames::{Cell, FrameExit, Outcome};
use jc_linker::linked::Linked;
use jc_memory::Memory;
use jc_platform::names::PlatformClass;
use jc_transient::Ref;
use jc_words::WordStore;
use jc_world::{NativeResult, StepExit, Stretch, put, short};

/// How many bytes a secret key has at most.
pub const MOST_KEY: usize = 128;

/// A key object.
#[derive(Clone, Copy)]
pub struct Key {
    pub own: Ref,
    /// The number of its type.
    pub number: i16,
    /// All elements of its data: of a secret key how many bytes it has, 0 where it is not set, and then the key; of a key of a pair its parts.
    pub elements: Stretch,
}

impl Key {
    /// What the key is, by its type.
    pub fn kind(&self) -> Option<KeyKind>
        ensures { result ≡ kind_of self.now }
    {
        Some(key_type_named(self.number)?.kind)
    }

    /// How many bytes a secret key has, an HMAC key at most.
    pub fn capacity(&self) -> u16
        ensures { result ≡ capacity self.now }
    {
        self.elements.count.saturating_sub(1)
    }

    /// How many bytes a secret key has, 0 where it is not set.
    pub fn length<S: WordStore>(&self, memory: &Memory<S>) -> u8
        requires up { memory.now.heap.down ≡ false }
        requires key { IsKey memory.now self.now }
        ensures { result ≡ key_length memory.now self.now }
    {
        memory.byte(self.elements.array, 0)
    }
}

// All elements of the data of a key. An array of another kind, an empty one, or one longer than the longest data is a code fault.
#[tactic(auto, unfolding(crate::specs::KeyObjects::Contents::key_data))]
fn key_data<S: WordStore>(
    array: Ref,
    memory: &Memory<S>,
    linked: &Linked,
) -> Result<Stretch, FrameExit>
    requires up { memory.now.heap.down ≡ false }
    ensures elements { result ≡ key_data linked.now memory.now array }
    ensures there { IfOk result (IsInArray memory.now) }
    ensures some { IfOk result (λ e. 1 ≤ e.count) }
    ensures few { IfOk result (λ e. e.count ≤ MOST_DATA) }
    ensures plain { plainly result ≡ result }
{
    let Some(facts) = memory.header(array) else {
        return Err(FrameExit::End(Outcome::Fault));
    };
    if 1 <= facts.length && facts.length <= MOST_DATA as u16 {
        elements_at(array, 0, facts.length as i16, memory, linked)
    } else {
        Err(FrameExit::End(Outcome::Fault))
    }
}

/// The key object of which this is what its cells say.
pub(crate) fn key_of<S: WordStore>(
    own: &Receiver,
    memory: &Memory<S>,
    linked: &Linked,
) -> Result<Key, FrameExit>
    requires up { memory.now.heap.down ≡ false }
    ensures key { result ≡ key_of linked.now memory.now own.now }
    ensures there { IfOk result (IsKey memory.now) }
    ensures plain { plainly result ≡ result }
{
    let elements = key_data(own.array, memory, linked)?;
    Ok(Key {
        own: own.own,
        number: own.number,
        elements,
    })
}

/// The key object that is called, of this class.
#[tactic(auto, unfolding(crate::specs::KeyObjects::Contents::receiver_key))]
pub(crate) fn receiver_key<S: WordStore>(
    class: PlatformClass,
    args: &[Cell],
    memory: &Memory<S>,
    linked: &Linked,
) -> Result<Key, FrameExit>
    requires up { memory.now.heap.down ≡ false }
    ensures key { result ≡ receiver_key class args.now linked.now memory.now }
    ensures there { IfOk result (IsKey memory.now) }
    ensures plain { plainly result ≡ result }
{
    let own = receiver_of(class, args, memory, linked)?;
    key_of(&own, memory, linked)
}

/// A secret key, or a code fault.
fn if_secret(key: Key) -> Result<Key, FrameExit>
    ensures key { result ≡ if_secret key }
    ensures few { IfOk result (λ k. k.elements.count ≤ MOST_KEY + 1) }
    ensures plain { plainly result ≡ result }
{
    match key.kind() {
        Some(KeyKind::Secret(_)) if key.elements.count <= MOST_KEY as u16 + 1 => Ok(key),
        _ => Err(FrameExit::End(Outcome::Fault)),
    }
}

/// The secret key that is called, of this class.
pub(crate) fn receiver_secret<S: WordStore>(
    class: PlatformClass,
    args: &[Cell],
    memory: &Memory<S>,
    linked: &Linked,
) -> Result<Key, FrameExit>
    requires up { memory.now.heap.down ≡ false }
    ensures key { result ≡ receiver_secret class args.now linked.now memory.now }
    ensures there { IfOk result (IsKey memory.now) }
    ensures few { IfOk result (λ k. k.elements.count ≤ MOST_KEY + 1) }
    ensures plain { plainly result ≡ result }
{
    let key = receiver_key(class, args, memory, linked)?;
    if_secret(key)
}

/// The elements that are a secret key. UNINITIALIZED_KEY where it is not set; one that is longer than its data is a code fault.
pub fn key_elements<S: WordStore>(key: &Key, memory: &Memory<S>) -> Result<Stretch, FrameExit>
    requires up { memory.now.heap.down ≡ false }
    requires key { IsKey memory.now key.now }
    ensures elements { result ≡ key_elements memory.now key.now }
    ensures there { IfOk result (IsInArray memory.now) }
    ensures some { IfOk result (λ e. 1 ≤ e.count) }
    ensures few { IfOk result (λ e. e.count ≤ MOST_KEY) }
    ensures plain { plainly result ≡ result }
{
    let count = u16::from(key.length(memory));
    if count == 0 {
        return Err(FrameExit::Throw(UNINITIALIZED_KEY));
    }
    if count > key.capacity() || count > MOST_KEY as u16 {
        return Err(FrameExit::End(Outcome::Fault));
    }
    Ok(Stretch {
        array: key.elements.array,
        start: 1,
        count,
    })
}

/// Sets bytes of the data of a key from a place on, as one change.
pub(crate) fn set_at<S: WordStore>(
    array: Ref,
    start: u16,
    bytes: &[u8],
    memory: &mut Memory<S>,
    linked: &Linked,
) -> Result<NativeResult, StepExit>
    requires up { memory.old.heap.down ≡ false }
    requires starts { start ≤ 32767 }
    requires few { length bytes.now ≤ MOST_DATA }
    ensures { Executes (reading_call (Ok (sets_at array start bytes.now)) linked.now memory.old)
        memory.old (after_call result memory.new) }
{
    let to = elements_at(array, start as i16, bytes.len() as i16, memory, linked)?;
    put(memory, to, bytes)?;
    Ok(NativeResult::ReturnVoid)
}

/// Sets the first bytes of the data of a key, as one change.
pub(crate) fn set_data<S: WordStore>(
    key: &Key,
    bytes: &[u8],
    memory: &mut Memory<S>,
    linked: &Linked,
) -> Result<NativeResult, StepExit>
    requires up { memory.old.heap.down ≡ false }
    requires few { length bytes.now ≤ MOST_DATA }
    ensures { Executes (reading_call (Ok (sets_data key.now bytes.now)) linked.now memory.old)
        memory.old (after_call result memory.new) }
{
    set_at(key.elements.array, 0, bytes, memory, linked)
}

/// Puts elements of the data of a key into an array from a place on, as one change; returns their number.
pub(crate) fn put_bytes<S: WordStore>(
    array: Ref,
    start: i16,
    from: Stretch,
    memory: &mut Memory<S>,
    linked: &Linked,
) -> Result<NativeResult, StepExit>
    requires up { memory.old.heap.down ≡ false }
    requires from { IsInArray memory.old from }
    requires few { from.count ≤ MOST_SIZE }
    ensures { Executes (reading_call (Ok (puts_bytes array start (bytes_in memory.old from))) linked.now
        memory.old) memory.old (after_call result memory.new) }
{
    let mut buffer = [0; MOST_SIZE];
    let bytes = &mut buffer[..from.count as usize];
    read(from, memory, bytes);
    let count = bytes.len() as i16;
    let to = elements_at(array, start, count, memory, linked)?;
    put(memory, to, bytes)?;
    Ok(short(count))
}

// Writes the data of a key that is what these elements are.
fn put_data_of<S: WordStore>(from: Stretch, memory: &Memory<S>, to: &mut [u8])
    requires up { memory.now.heap.down ≡ false }
    requires from { IsInArray memory.now from }
    requires few { from.count ≤ MOST_KEY }
    requires all { length to.old ≡ from.count + 1 }
    ensures { to.new ≡ from.count ∷ bytes_in memory.now from }
{
    if let Some((length, key)) = to.split_first_mut() {
        *length = from.count as u8;
        read(from, memory, key);
    }
}

/// Sets a key to what these elements are, as one change.
pub(crate) fn set_key<S: WordStore>(
    key: &Key,
    from: Stretch,
    memory: &mut Memory<S>,
    linked: &Linked,
) -> Result<NativeResult, StepExit>
    requires up { memory.old.heap.down ≡ false }
    requires from { IsInArray memory.old from }
    requires few { from.count ≤ MOST_KEY }
    ensures { Executes (reading_call (Ok (sets_key memory.old key.now from)) linked.now memory.old)
        memory.old (after_call result memory.new) }
{
    let mut buffer = [0; MOST_KEY + 1];
    let bytes = &mut buffer[..from.count as usize + 1];
    put_data_of(from, memory, bytes);
    set_data(key, bytes, memory, linked)
}

// Sets all data of a key to 0, as one change.
fn clear_data<S: WordStore>(
    key: &Key,
    memory: &mut Memory<S>,
    linked: &Linked,
) -> Result<NativeResult, StepExit>
    requires up { memory.old.heap.down ≡ false }
    requires few { key.now.elements.count ≤ MOST_DATA }
    ensures { Executes (reading_call (Ok (sets_data key.now (replicate key.now.elements.count 0))) linked.now
        memory.old) memory.old (after_call result memory.new) }
{
    let zeros = [0; MOST_DATA];
    set_data(key, &zeros[..key.elements.count as usize], memory, linked)
}

// Puts bytes into elements one after another, each for good.
#[tactic(auto, using(jc_memory::proofs::ProgramLemmas::in_two_steps))]
fn put_for_good<S: WordStore>(
    memory: &mut Memory<S>,
    to: Stretch,
    bytes: &[u8],
) -> Result<NativeResult, StepExit>
    requires up { memory.old.heap.down ≡ false }
    requires there { IsInArray memory.old to }
    requires all { length bytes.now ≡ to.count }
    ensures { Executes (put_then true bytes.now memory.old to (return_value ReturnVoid)) memory.old
        (after_call result memory.new) }
{
    memory.set_bytes_nonatomic(to.array, to.start, bytes)?;
    Ok(NativeResult::ReturnVoid)
}

// Sets the first bytes of the data of a key, one after another, each for good.
fn set_for_good<S: WordStore>(
    key: &Key,
    bytes: &[u8],
    memory: &mut Memory<S>,
    linked: &Linked,
) -> Result<NativeResult, StepExit>
    requires up { memory.old.heap.down ≡ false }
    requires few { length bytes.now ≤ MOST_DATA }
    ensures { Executes (reading_call (Ok (sets_for_good key.now bytes.now)) linked.now memory.old)
        memory.old (after_call result memory.new) }
{
    let to = elements_at(key.elements.array, 0, bytes.len() as i16, memory, linked)?;
    put_for_good(memory, to, bytes)
}

// Sets all data of a key to 0, one byte after another from the first on, each for good.
fn clear_for_good<S: WordStore>(
    key: &Key,
    memory: &mut Memory<S>,
    linked: &Linked,
) -> Result<NativeResult, StepExit>
    requires up { memory.old.heap.down ≡ false }
    requires few { key.now.elements.count ≤ MOST_DATA }
    ensures { Executes (reading_call (Ok (sets_for_good key.now (replicate key.now.elements.count 0))) linked.now
        memory.old) memory.old (after_call result memory.new) }
{
    let zeros = [0; MOST_DATA];
    set_for_good(key, &zeros[..key.elements.count as usize], memory, linked)
}

/// Sets all data of a key to 0: of a secret key as one change, else for good.
pub(crate) fn clear<S: WordStore>(
    key: &Key,
    memory: &mut Memory<S>,
    linked: &Linked,
) -> Result<NativeResult, StepExit>
    requires up { memory.old.heap.down ≡ false }
    requires few { key.now.elements.count ≤ MOST_DATA }
    ensures { Executes (reading_call (Ok (clears key.now)) linked.now memory.old) memory.old
        (after_call result memory.new) }
{
    match key.kind() {
        Some(KeyKind::Secret(_)) => clear_data(key, memory, linked),
        _ => clear_for_good(key, memory, linked),
    }
}
