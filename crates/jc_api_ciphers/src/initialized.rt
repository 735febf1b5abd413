//! Objects of the platform with an algorithm and a key: what their cells say, and how they are initialized.
ghost use Rattle.std.specs.Prelude.{◌≡◌, ◌≤◌, ◌*◌, ◌+◌, ◌/◌, ◌∷◌, false, length, map, replicate, IfOk, Ok};
ghost use Rattle.std.specs.Int.{cast_unsigned, w16};
ghost use Rattle.jc_memory.specs.Programs.{Executes};
ghost use Rattle.jc_world.specs.NativeCalls.{after_call};
ghost use Rattle.jc_world.specs.Objects.{check_or_fault};
ghost use Rattle.jc_api.specs.Initializing.{initializing_call};
ghost use Rattle.jc_api.specs.declared.initializing.FieldValue.TheVariants.{Argument, Word};
ghost use Rattle.jc_world.specs.Arrays.{IsInArray};
ghost use Rattle.jc_world.specs.Instances.{IsInstanceWith, instance_at};
ghost use Rattle.jc_api.specs.Exits.{plainly};
ghost use Rattle.jc_api_ciphers.specs.Initialized.{engine_of, initializes, is_for, is_mode, kept_key, key_init, keyed_cells, taken_key, taken_mode, taken_vector, takes_kind, takes_type, takes_vector, values_given, vector_at, vector_init, vector_words};
ghost use Rattle.jc_api_keys.specs.KeyTypes.{key_type_named};
ghost use Rattle.jc_api_keys.specs.KeyObjects.Contents.{IsKey};

use jc_api::{FieldValue, Fields, MOST_FIELDS, counted_of, initialize};
use jc_api_keys::exceptions::ILLEGAL_VALUE;
use jc_api_keys::key_objects::arguments::{key_argument, key_at};
use jc_api_keys::key_objects::contents::{Key, MOST_KEY, key_elements};
use jc_api_keys::key_types::{KeyAlgorithm, KeyKind, key_type_named};
use jc_api_keys::receivers::read;
use jc_api_keys::shorts::{put_bytes_of, put_shorts_of};
use jc_frames::{Cell, FrameExit, Outcome};
use jc_heap::Facts;
use jc_linker::linked::Linked;
use jc_memory::Memory;
use jc_platform::names::PlatformClass;
use jc_transient::Ref;
use jc_words::WordStore;
use jc_world::arguments::{reference_argument, short_argument};
use jc_world::objects::is_instance_of;
use jc_world::{NativeResult, StepExit, Stretch, instance};

// How many cells such an object has.
const KEYED_CELLS: u16 = 12;

const KEY_CELL: u16 = 2;

const MODE_CELL: u16 = 3;

const VECTOR_CELL: u16 = 4;

/// How many cells its vector has.
pub(crate) const VECTOR_CELLS: usize = 8;

/// How many bytes the longest vector has.
pub(crate) const MOST_VECTOR: usize = 16;

/// How many shorts the longest state has, that of a signature by ISO/IEC 9796-2.
pub(crate) const MOST_SHORTS: usize = 303;

/// What the cells of an object with an algorithm and a key say.
#[derive(Clone, Copy)]
pub struct KeyedEngine {
    pub own: Ref,
    /// The number of its algorithm.
    pub number: i16,
    /// The array of its state.
    pub array: Ref,
    /// Its key, null before it is initialized.
    pub key: Ref,
    /// Its mode, 0 before it is initialized.
    pub mode: i16,
}

/// To what an object with an algorithm and a key is initialized, besides its mode.
#[derive(Clone, Copy)]
pub(crate) struct Setup<'a> {
    pub(crate) class: PlatformClass,
    /// How many shorts its state has.
    pub(crate) shorts: u16,
    pub(crate) vector: &'a [u8],
}

/// What an algorithm requires.
#[derive(Clone, Copy)]
pub struct Requirements {
    /// Whose keys it takes.
    pub keys: KeyAlgorithm,
    /// How many bytes its vector has, 0 where it takes none.
    pub vector: u16,
    /// How many shorts its state has.
    pub state: u16,
}

// The header of an instance with as many cells. Null throws, and anything else is a code fault.
fn keyed_instance<S: WordStore>(own: Ref, memory: &Memory<S>) -> Result<Facts, FrameExit>
    requires up { memory.now.heap.down ≡ false }
    ensures header { result ≡ instance_at memory.now own keyed_cells }
    ensures there { IfOk result (λ facts. IsInstanceWith memory.now own keyed_cells) }
    ensures plain { plainly result ≡ result }
{
    instance(own, KEYED_CELLS, memory)
}

/// The receiver of a call. Null throws, and anything but an instance of the class is a code fault.
#[tactic(auto, unfolding(crate::specs::Initialized::engine_of))]
pub(crate) fn engine_of<S: WordStore>(
    class: PlatformClass,
    args: &[Cell],
    memory: &Memory<S>,
    linked: &Linked,
) -> Result<KeyedEngine, FrameExit>
    requires up { memory.now.heap.down ≡ false }
    ensures engine { result ≡ engine_of class args.now linked.now memory.now }
    ensures there { IfOk result (λ e. IsInstanceWith memory.now e.own keyed_cells) }
    ensures plain { plainly result ≡ result }
{
    let own = reference_argument(args, 0)?;
    let facts = keyed_instance(own, memory)?;
    let class = linked.platform().class_word(class);
    if !is_instance_of(facts, class, linked) {
        return Err(FrameExit::End(Outcome::Fault));
    }
    Ok(KeyedEngine {
        own,
        number: memory.short(own, 0),
        array: memory.reference(own, 1),
        key: memory.reference(own, KEY_CELL),
        mode: memory.short(own, MODE_CELL),
    })
}

/// Reads the first bytes of the vector.
pub(crate) fn read_vector<S: WordStore>(own: Ref, memory: &Memory<S>, bytes: &mut [u8])
    requires up { memory.now.heap.down ≡ false }
    requires there { IsInstanceWith memory.now own keyed_cells }
    requires few { length bytes.old ≤ MOST_VECTOR }
    requires even { length bytes.old ≡ 2 * (length bytes.old / 2) }
    ensures { bytes.new ≡ vector_at memory.now own (length bytes.old) }
{
    let mut buffer = [0; VECTOR_CELLS];
    let words = &mut buffer[..bytes.len() / 2];
    memory.words(own, VECTOR_CELL, words);
    put_bytes_of(words, bytes);
}

// Keys of a type are for an algorithm.
fn is_for(algorithm: KeyAlgorithm, other: KeyAlgorithm) -> bool
    ensures { result ≡ is_for algorithm other }
{
    match (algorithm, other) {
        (KeyAlgorithm::Des, KeyAlgorithm::Des) => true,
        (KeyAlgorithm::Aes, KeyAlgorithm::Aes) => true,
        (KeyAlgorithm::Hmac, KeyAlgorithm::Hmac) => true,
        _ => false,
    }
}

// Keys are secret ones for an algorithm.
fn takes_kind(algorithm: KeyAlgorithm, kind: KeyKind) -> bool
    ensures { result ≡ takes_kind algorithm kind }
{
    match kind {
        KeyKind::Secret(other) => is_for(algorithm, other),
        KeyKind::OfPair(_) => false,
    }
}

// It is the number of a type of such keys.
fn takes_type(algorithm: KeyAlgorithm, number: i16) -> bool
    ensures { result ≡ takes_type algorithm (key_type_named number) }
{
    match key_type_named(number) {
        Some(named) => takes_kind(algorithm, named.kind),
        None => false,
    }
}

// It is the number of a mode.
pub(crate) fn is_mode(number: i16) -> bool
    ensures { result ≡ is_mode number }
{
    number == 1 || number == 2
}

// A vector of this many bytes is allowed.
fn takes_vector(needs: Requirements, count: u16) -> bool
    ensures { result ≡ takes_vector needs count }
{
    count != 0 && count == needs.vector
}

// The key after the receiver, of a type that the algorithm takes.
#[tactic(auto, unfolding(crate::specs::Initialized::taken_key))]
fn taken_key<S: WordStore>(
    needs: Requirements,
    args: &[Cell],
    memory: &Memory<S>,
    linked: &Linked,
) -> Result<Key, FrameExit>
    requires up { memory.now.heap.down ≡ false }
    ensures key { result ≡ taken_key needs args.now linked.now memory.now }
    ensures there { IfOk result (IsKey memory.now) }
    ensures plain { plainly result ≡ result }
{
    let key = key_argument(1, args, memory, linked)?;
    if takes_type(needs.keys, key.number) {
        Ok(key)
    } else {
        Err(FrameExit::Throw(ILLEGAL_VALUE))
    }
}

/// The mode after it.
pub(crate) fn taken_mode(args: &[Cell]) -> Result<i16, FrameExit>
    ensures mode { result ≡ taken_mode args.now }
    ensures plain { plainly result ≡ result }
{
    let mode = short_argument(args, 2)?;
    if is_mode(mode) {
        Ok(mode)
    } else {
        Err(FrameExit::Throw(ILLEGAL_VALUE))
    }
}

// The elements after it that are the vector.
#[tactic(auto, unfolding(crate::specs::Initialized::taken_vector))]
fn taken_vector<S: WordStore>(
    needs: Requirements,
    args: &[Cell],
    memory: &Memory<S>,
    linked: &Linked,
) -> Result<Stretch, FrameExit>
    requires up { memory.now.heap.down ≡ false }
    ensures vector { result ≡ taken_vector needs args.now linked.now memory.now }
    ensures there { IfOk result (IsInArray memory.now) }
    ensures few { IfOk result (λ e. e.count ≡ needs.vector) }
    ensures plain { plainly result ≡ result }
{
    let e = counted_of(3, args, memory, linked)?;
    if takes_vector(needs, e.count) {
        Ok(e)
    } else {
        Err(FrameExit::Throw(ILLEGAL_VALUE))
    }
}

// Writes the words of the cells of a vector.
fn put_vector(vector: &[u8], words: &mut [u16])
    requires few { length vector.now ≤ MOST_VECTOR }
    requires all { length words.old ≡ VECTOR_CELLS }
    ensures { words.new ≡ vector_words vector.now }
{
    let mut bytes = [0; MOST_VECTOR];
    bytes[..vector.len()].copy_from_slice(vector);
    put_shorts_of(&bytes, words);
}

// Writes words as values.
fn put_words(words: &[u16], values: &mut [FieldValue])
    requires { length values.old ≡ length words.now }
    ensures { values.new ≡ map Word words.now }
{
    'words: for i in 0..words.len() {
        values[i] = FieldValue::Word(words[i]);
    }
}

// Writes the values of the cells from the key on: the first argument, a mode, and the words of a vector.
fn put_values(mode: i16, words: &[u16], values: &mut [FieldValue])
    requires { length values.old ≡ length words.now + 2 }
    ensures { values.new ≡ Argument 1 ∷ Word (cast_unsigned w16 mode) ∷ map Word words.now }
{
    if let Some((key, values)) = values.split_first_mut() {
        *key = FieldValue::Argument(1);
        if let Some((first, values)) = values.split_first_mut() {
            *first = FieldValue::Word(mode.cast_unsigned());
            put_words(words, values);
        }
    }
}

/// Sets key, mode and vector, then the state to that of no message.
pub(crate) fn set_up<S: WordStore>(
    own: &KeyedEngine,
    mode: i16,
    setup: Setup<'_>,
    args: &[Cell],
    memory: &mut Memory<S>,
    linked: &Linked,
) -> Result<NativeResult, StepExit>
    requires up { memory.old.heap.down ≡ false }
    requires few { length setup.vector.now ≤ MOST_VECTOR }
    requires state { setup.shorts ≤ MOST_SHORTS }
    ensures { Executes (initializing_call (Ok (initializes setup.entry.class setup.entry.shorts
        own.now mode setup.entry.vector.now)) args.now linked.now memory.old)
        memory.old (after_call result memory.new) }
{
    let mut words = [0; VECTOR_CELLS];
    put_vector(setup.vector, &mut words);
    let mut values = [FieldValue::Word(0); MOST_FIELDS];
    put_values(mode, &words, &mut values);
    let zeros = [0; MOST_SHORTS];
    let fields = Fields {
        class: setup.class,
        start: KEY_CELL,
        values: &values,
        array: own.array,
        words: &zeros[..setup.shorts as usize],
    };
    initialize(fields, args, memory, linked)
}

/// Initializes an object of a class, of which this is what its cells say, by a key and a mode; its vector is zeros.
#[tactic(auto, unfolding(crate::specs::Initialized::key_init))]
pub(crate) fn init<S: WordStore>(
    class: PlatformClass,
    needs: Requirements,
    own: &KeyedEngine,
    args: &[Cell],
    memory: &mut Memory<S>,
    linked: &Linked,
) -> Result<NativeResult, StepExit>
    requires up { memory.old.heap.down ≡ false }
    requires state { needs.state ≤ MOST_SHORTS }
    ensures { Executes (initializing_call (key_init class needs own.now args.now linked.now memory.old) args.now
        linked.now memory.old) memory.old (after_call result memory.new) }
{
    let key = taken_key(needs, args, memory, linked)?;
    let mode = taken_mode(args)?;
    let _elements = key_elements(&key, memory)?;
    let setup = Setup {
        class,
        shorts: needs.state,
        vector: &[],
    };
    set_up(own, mode, setup, args, memory, linked)
}

/// The same with a vector.
#[tactic(auto, unfolding(crate::specs::Initialized::vector_init))]
pub(crate) fn init_with_vector<S: WordStore>(
    class: PlatformClass,
    needs: Requirements,
    own: &KeyedEngine,
    args: &[Cell],
    memory: &mut Memory<S>,
    linked: &Linked,
) -> Result<NativeResult, StepExit>
    requires up { memory.old.heap.down ≡ false }
    requires vector { needs.vector ≤ MOST_VECTOR }
    requires state { needs.state ≤ MOST_SHORTS }
    ensures { Executes (initializing_call (vector_init class needs own.now args.now linked.now memory.old) args.now
        linked.now memory.old) memory.old (after_call result memory.new) }
{
    let key = taken_key(needs, args, memory, linked)?;
    let mode = taken_mode(args)?;
    let vector = taken_vector(needs, args, memory, linked)?;
    let _elements = key_elements(&key, memory)?;
    let mut buffer = [0; MOST_VECTOR];
    let bytes = &mut buffer[..vector.count as usize];
    read(vector, memory, bytes);
    let setup = Setup {
        class,
        shorts: needs.state,
        vector: bytes,
    };
    set_up(own, mode, setup, args, memory, linked)
}

/// It is so, or a code fault.
pub(crate) fn check(holds: bool) -> Result<(), FrameExit>
    ensures checked { result ≡ check_or_fault holds }
    ensures plain { plainly result ≡ result }
{
    if holds {
        Ok(())
    } else {
        Err(FrameExit::End(Outcome::Fault))
    }
}

/// The elements that are the key which an engine has kept. One of a type that the algorithm does not take is a code fault, and one that is not set
/// throws UNINITIALIZED_KEY.
#[tactic(auto, unfolding(crate::specs::Initialized::kept_key))]
pub(crate) fn kept_key<S: WordStore>(
    needs: Requirements,
    own: &KeyedEngine,
    memory: &Memory<S>,
    linked: &Linked,
) -> Result<Stretch, FrameExit>
    requires up { memory.now.heap.down ≡ false }
    ensures key { result ≡ kept_key needs own.now linked.now memory.now }
    ensures there { IfOk result (IsInArray memory.now) }
    ensures few { IfOk result (λ e. e.count ≤ MOST_KEY) }
    ensures plain { plainly result ≡ result }
{
    let key = key_at(own.key, memory, linked)?;
    check(takes_type(needs.keys, key.number))?;
    key_elements(&key, memory)
}
