//! A PIN is reset.
ghost use Rattle.std.specs.Prelude.{◌≡◌, false};
ghost use Rattle.jc_memory.specs.Programs.{Executes};
ghost use Rattle.jc_heap.specs.Completions.{after_step};
ghost use Rattle.jc_environment.specs.Pins.{IsPin};
ghost use Rattle.jc_environment.specs.Pins.Resets.{pin_unblock, pin_reset};

use crate::pins::pin::record;
use crate::pins::try_counter::set_tries;
use jc_memory::Memory;
use jc_transient::Ref;
use jc_words::{StoreDown, WordStore};

/// Takes the flag away and gives all tries back, which no abort takes away.
pub fn reset_and_unblock<S: WordStore>(memory: &mut Memory<S>, pin: Ref) -> Result<(), StoreDown>
    requires up { memory.old.heap.down ≡ false }
    requires pin { IsPin memory.old pin }
    ensures { Executes (pin_unblock memory.old pin) memory.old (after_step result memory.new) }
{
    let limit = record(memory, pin).limit;
    memory.set_flag(pin, false);
    set_tries(memory, pin, limit)
}

/// The same, where the value was given. Else it does nothing.
#[tactic(auto, unfolding(crate::specs::Pins::Resets::pin_reset))]
pub fn reset<S: WordStore>(memory: &mut Memory<S>, pin: Ref) -> Result<(), StoreDown>
    requires up { memory.old.heap.down ≡ false }
    requires pin { IsPin memory.old pin }
    ensures { Executes (pin_reset memory.old pin) memory.old (after_step result memory.new) }
{
    if memory.flag(pin) {
        reset_and_unblock(memory, pin)
    } else {
        Ok(())
    }
}
