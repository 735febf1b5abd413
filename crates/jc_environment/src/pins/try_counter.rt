//! The tries of a PIN.
ghost use Rattle.std.specs.Prelude.{◌≡◌, false, OnOk};
ghost use Rattle.jc_memory.specs.Changes.{nonatomic_write};
ghost use Rattle.jc_memory.specs.Programs.{Executes};
ghost use Rattle.jc_heap.specs.Completions.{after_step};
ghost use Rattle.jc_environment.specs.Pins.{IsPin, counter_cell};

use crate::pins::pin::COUNTER;
use jc_memory::Memory;
use jc_transient::Ref;
use jc_words::{StoreDown, WordStore};

/// Sets how many tries are left, which no abort takes back.
#[inline(always)]
pub(crate) fn set_tries<S: WordStore>(
    memory: &mut Memory<S>,
    pin: Ref,
    left: u16,
) -> Result<(), StoreDown>
    requires up { memory.old.heap.down ≡ false }
    requires pin { IsPin memory.old pin }
    ensures set { Executes (nonatomic_write pin counter_cell left) memory.old
        (after_step result memory.new) }
    ensures pin { OnOk result (IsPin memory.new pin) }
{
    memory.nonatomic_write(pin, COUNTER, left)?;
    Ok(())
}
