//! What a PIN is.
ghost use Rattle.std.specs.Prelude.{◌≡◌, false};
ghost use Rattle.std.specs.Bool.{OnTrue};
ghost use Rattle.jc_heap.specs.declared.object.Kind.TheVariants.{Instance, ByteArray};
ghost use Rattle.jc_transient.specs.State.{flag_of};
ghost use Rattle.jc_memory.specs.Cells.{header_at};
ghost use Rattle.jc_environment.specs.Pins.{is_persistent_with, is_pin, record_of, IsPersistentWith, IsPin, cell_count};

use jc_heap::Kind;
use jc_memory::Memory;
use jc_transient::Ref;
use jc_words::WordStore;

/// The cells of an `OwnerPIN`, in their order: how many tries there are after the value was given.
pub(crate) const LIMIT: u16 = 0;

/// How many bytes a value may have.
pub(crate) const MAXIMUM: u16 = 1;

/// How many tries are left.
pub(crate) const COUNTER: u16 = 2;

/// How many bytes the value has; none before the first update.
pub(crate) const LENGTH: u16 = 3;

/// The array that begins with the value.
pub(crate) const VALUE: u16 = 4;

/// How many cells there are.
const CELL_COUNT: u16 = 5;

/// The record of a PIN: the cells of an `OwnerPIN`, in their order.
#[derive(Clone, Copy)]
pub struct PinRecord {
    /// How many tries there are after the value was given.
    pub limit: u16,
    /// How many bytes a value may have.
    pub maximum: u16,
    /// How many tries are left.
    pub tries: u16,
    /// How many bytes the value has; none before the first update.
    pub length: u16,
    /// The array that begins with the value.
    pub value: Ref,
}

// The reference names a persistent object of this kind with `cells` cells.
fn is_persistent_with<S: WordStore>(
    memory: &Memory<S>,
    kind: Kind,
    cells: u16,
    reference: Ref,
) -> bool
    requires up { memory.now.heap.down ≡ false }
    ensures test { result ≡ is_persistent_with kind cells (header_at memory.now reference) }
    ensures so { OnTrue result (IsPersistentWith memory.now kind cells reference) }
{
    match memory.header(reference) {
        Some(facts) => facts.kind == kind && facts.event.is_none() && facts.length >= cells,
        None => false,
    }
}

/// Whether a reference names a PIN: a persistent instance with the cells of the record, a value that is no
/// longer than the maximum, and an array of as many bytes.
#[tactic(auto, unfolding(crate::specs::Pins::is_pin))]
pub fn is_pin<S: WordStore>(memory: &Memory<S>, reference: Ref) -> bool
    requires up { memory.now.heap.down ≡ false }
    ensures test { result ≡ is_pin memory.now reference }
    ensures so { OnTrue result (IsPin memory.now reference) }
{
    if !is_persistent_with(memory, Kind::Instance, CELL_COUNT, reference) {
        return false;
    }
    let pin = record(memory, reference);
    if pin.length > pin.maximum {
        return false;
    }
    pin.maximum == 0 || is_persistent_with(memory, Kind::ByteArray, pin.maximum, pin.value)
}

/// The record of a PIN.
pub fn record<S: WordStore>(memory: &Memory<S>, pin: Ref) -> PinRecord
    requires up { memory.now.heap.down ≡ false }
    requires itself { IsPersistentWith memory.now Instance cell_count pin }
    ensures { result ≡ record_of memory.now pin }
{
    let mut cells = [0; 5];
    memory.words(pin, LIMIT, &mut cells);
    let [limit, maximum, tries, length, value] = cells;
    PinRecord {
        limit,
        maximum,
        tries,
        length,
        value: Ref::at(value),
    }
}

/// How many tries are left.
pub fn tries<S: WordStore>(memory: &Memory<S>, pin: Ref) -> u16
    requires up { memory.now.heap.down ≡ false }
    requires itself { IsPersistentWith memory.now Instance cell_count pin }
    ensures { result ≡ (record_of memory.now pin).tries }
{
    record(memory, pin).tries
}

/// Whether the value was given, and nothing has taken that back.
pub fn is_validated<S: WordStore>(memory: &Memory<S>, pin: Ref) -> bool
    ensures { result ≡ flag_of memory.now.ram pin }
{
    memory.flag(pin)
}
