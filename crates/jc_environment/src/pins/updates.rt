//! A PIN gets another value.
ghost use Rattle.std.specs.Prelude.{◌≡◌, ◌<◌, ◌≤◌, false, length};
ghost use Rattle.jc_memory.specs.Programs.{Executes};
ghost use Rattle.jc_heap.specs.Completions.{after_change};
ghost use Rattle.jc_memory.specs.Changes.{places_write};
ghost use Rattle.jc_environment.specs.Pins.{IsPin, record_of};
ghost use Rattle.jc_environment.specs.Pins.Updates.{after_pin, changes_of_update, pin_update};

use crate::pins::pin::{COUNTER, LENGTH, record};
use jc_heap::{ChangeRefusal, Place};
use jc_memory::Memory;
use jc_transient::Ref;
use jc_words::{StoreDown, WordStore};

/// Why a PIN is not changed.
#[derive(Clone, Copy)]
pub enum PinRefusal {
    /// The store refused a write. Only a power up follows.
    StoreDown,
    /// The transaction has no room for the change.
    CommitFull,
    /// The value is longer than the maximum.
    IllegalValue,
    /// There is no space for the value.
    HeapFull,
}

impl From<ChangeRefusal> for PinRefusal {
    ghost use Rattle.std.specs.Prelude.{◌≡◌};
    ghost use Rattle.jc_environment.specs.Pins.Updates.{pin_refusal_of};

    ghost from_gives = { λ r p. p ≡ pin_refusal_of r };

    fn from(refusal: ChangeRefusal) -> Self {
        match refusal {
            ChangeRefusal::StoreDown => PinRefusal::StoreDown,
            ChangeRefusal::CommitFull => PinRefusal::CommitFull,
        }
    }
}

impl From<StoreDown> for PinRefusal {
    ghost use Rattle.std.specs.Prelude.{◌≡◌};
    ghost use Rattle.jc_environment.specs.declared.pins.updates.PinRefusal.TheVariants as refusal;

    ghost from_gives = { λ _ p. p ≡ refusal.StoreDown };

    fn from(_: StoreDown) -> Self {
        PinRefusal::StoreDown
    }
}

// Sets the value, its length and all tries as one change.
fn set_value<S: WordStore>(
    memory: &mut Memory<S>,
    pin: Ref,
    bytes: &[u8],
) -> Result<(), ChangeRefusal>
    requires up { memory.old.heap.down ≡ false }
    requires pin { IsPin memory.old pin }
    requires within { length bytes.now ≤ (record_of memory.old pin).maximum }
    requires few { length bytes.now < 65536 }
    ensures { Executes (places_write memory.old (changes_of_update
        (record_of memory.old pin) pin bytes.now)) memory.old (after_change result memory.new) }
{
    let kept = record(memory, pin);
    let rest = [
        (Place::Cell(pin, LENGTH), bytes.len() as u16),
        (Place::Cell(pin, COUNTER), kept.limit),
    ];
    memory.write_bytes_and_places(kept.value, 0, bytes, &rest)
}

/// Gives a PIN another value, by one change with the length and all tries, and takes the flag away, which no abort
/// brings back. Refused: a value above the maximum; one for which the transaction has no room.
#[tactic(auto, unfolding(crate::specs::Pins::Updates::pin_update))]
pub fn update<S: WordStore>(
    memory: &mut Memory<S>,
    pin: Ref,
    bytes: &[u8],
) -> Result<(), PinRefusal>
    requires up { memory.old.heap.down ≡ false }
    requires pin { IsPin memory.old pin }
    ensures { Executes (pin_update memory.old pin bytes.now) memory.old
        (after_pin result memory.new) }
{
    if bytes.len() > record(memory, pin).maximum as usize {
        return Err(PinRefusal::IllegalValue);
    }
    set_value(memory, pin, bytes)?;
    memory.set_flag(pin, false);
    Ok(())
}
