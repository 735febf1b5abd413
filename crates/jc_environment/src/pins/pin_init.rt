//! A PIN is set up.
ghost use Rattle.std.specs.Prelude.{◌≡◌, false};
ghost use Rattle.jc_heap.specs.declared.object.Kind.TheVariants.{Instance};
ghost use Rattle.jc_memory.specs.Programs.{Executes};
ghost use Rattle.jc_heap.specs.Completions.{after_step};
ghost use Rattle.jc_memory.specs.CommitCapacity.{lacks_capacity, places_update};
ghost use Rattle.jc_environment.specs.Pins.{IsPersistentWith, cell_count, limit_cell};
ghost use Rattle.jc_environment.specs.Pins.Updates.{after_pin};
ghost use Rattle.jc_heap.specs.Touch.{touched_cells};
ghost use Rattle.jc_environment.specs.Pins.PinInit.{first_record, touched_by_init, pin_init};

use crate::pins::pin::{COUNTER, LENGTH, LIMIT, MAXIMUM, VALUE};
use crate::pins::updates::PinRefusal;
use jc_heap::{Kind, Place, Touch};
use jc_memory::{
    Memory, NewObject, has_space, lacks_capacity, make_within_capacity, write_within_capacity,
};
use jc_transient::{NO_CLASS, Ref};
use jc_words::{StoreDown, WordStore};

// The words that are changed where a PIN is set up: the heap's end, for the array of values, and its cells.
fn touched_by_init(pin: Ref) -> [Touch; 6]
    ensures { result ≡ touched_by_init pin }
{
    [
        Touch::HeapEnd,
        Touch::Place(Place::Cell(pin, LIMIT)),
        Touch::Place(Place::Cell(pin, MAXIMUM)),
        Touch::Place(Place::Cell(pin, COUNTER)),
        Touch::Place(Place::Cell(pin, LENGTH)),
        Touch::Place(Place::Cell(pin, VALUE)),
    ]
}

// Sets the cells of a PIN as one change.
fn set_record<S: WordStore>(
    memory: &mut Memory<S>,
    pin: Ref,
    limit: u16,
    maximum: u16,
    value: Ref,
) -> Result<(), StoreDown>
    requires up { memory.old.heap.down ≡ false }
    requires itself { IsPersistentWith memory.old Instance cell_count pin }
    requires room { lacks_capacity memory.old (touched_cells pin limit_cell cell_count) ≡ false }
    ensures { Executes (places_update (first_record pin limit maximum value)) memory.old
        (after_step result memory.new) }
{
    let changes = [
        (Place::Cell(pin, LIMIT), limit),
        (Place::Cell(pin, MAXIMUM), maximum),
        (Place::Cell(pin, COUNTER), limit),
        (Place::Cell(pin, LENGTH), 0),
        (Place::Cell(pin, VALUE), value.address()),
    ];
    write_within_capacity(memory, &changes)
}

/// Sets a PIN up: makes an array for values of up to `maximum` bytes, which belongs to whom the code runs for, and sets its
/// cells, with all tries and no value. The flag is taken away. Refused, before anything is written: no space for
/// the array; no room in the transaction for all of it.
#[tactic(auto, unfolding(crate::specs::Pins::PinInit::pin_init))]
pub fn init<S: WordStore>(
    memory: &mut Memory<S>,
    pin: Ref,
    limit: u16,
    maximum: u16,
) -> Result<(), PinRefusal>
    requires up { memory.old.heap.down ≡ false }
    requires itself { IsPersistentWith memory.old Instance cell_count pin }
    ensures { Executes (pin_init memory.old pin limit maximum) memory.old
        (after_pin result memory.new) }
{
    if !has_space(memory, Kind::ByteArray, maximum) {
        return Err(PinRefusal::HeapFull);
    }
    if lacks_capacity(memory, &touched_by_init(pin)) {
        return Err(PinRefusal::CommitFull);
    }
    let owner = memory.registers().active;
    let array = NewObject {
        kind: Kind::ByteArray,
        event: None,
        class: NO_CLASS,
        owner,
        length: maximum,
    };
    let value = make_within_capacity(memory, array)?;
    set_record(memory, pin, limit, maximum, value)?;
    memory.set_flag(pin, false);
    Ok(())
}
