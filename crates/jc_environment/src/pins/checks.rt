//! A PIN is checked.
ghost use Rattle.std.specs.Prelude.{◌≡◌, false, length};
ghost use Rattle.std.specs.Str.{bytes_eq};
ghost use Rattle.std.specs.Option.{option_copied};
ghost use Rattle.jc_heap.specs.declared.object.Kind.TheVariants.{ByteArray};
ghost use Rattle.jc_memory.specs.Cells.{bytes_at};
ghost use Rattle.jc_memory.specs.Programs.{Executes};
ghost use Rattle.jc_heap.specs.Completions.{after_step};
ghost use Rattle.jc_environment.specs.Pins.{IsPersistentWith, IsPin};
ghost use Rattle.jc_environment.specs.Pins.Checks.{is_value, comparison, pin_check};

use crate::pins::pin::record;
use crate::pins::try_counter::set_tries;
use jc_memory::Memory;
use jc_transient::Ref;
use jc_words::{StoreDown, WordStore};

// Whether an array begins with these bytes. It reads all of them, wherever the first one differs.
fn begins_with<S: WordStore>(memory: &Memory<S>, array: Ref, bytes: &[u8]) -> bool
    requires up { memory.now.heap.down ≡ false }
    requires array { IsPersistentWith memory.now ByteArray (length bytes.now) array }
    ensures { result ≡ bytes_eq bytes.now (bytes_at memory.now array 0 (length bytes.now)) }
{
    // It has no more cells than a word can say.
    let _header = memory.facts(array);
    let mut same = true;
    for k in 0..bytes.len() {
        same &= bytes[k] == memory.byte(array, k as u16);
    }
    same
}

// Whether these bytes are the value of a PIN.
fn is_value<S: WordStore>(memory: &Memory<S>, pin: Ref, bytes: &[u8]) -> bool
    requires up { memory.now.heap.down ≡ false }
    requires pin { IsPin memory.now pin }
    ensures { result ≡ is_value memory.now pin bytes.now }
{
    let pin = record(memory, pin);
    if bytes.is_empty() || bytes.len() != pin.length as usize {
        return false;
    }
    begins_with(memory, pin.value, bytes)
}

// Compares, once a try was taken.
fn compare<S: WordStore>(
    memory: &mut Memory<S>,
    pin: Ref,
    guess: Option<&[u8]>,
) -> Result<bool, StoreDown>
    requires up { memory.old.heap.down ≡ false }
    requires pin { IsPin memory.old pin }
    ensures { Executes (comparison memory.old pin (option_copied guess.entry)) memory.old
        (after_step result memory.new) }
{
    let Some(bytes) = guess else {
        return Ok(false);
    };
    if !is_value(memory, pin, bytes) {
        return Ok(false);
    }
    let limit = record(memory, pin).limit;
    set_tries(memory, pin, limit)?;
    memory.set_flag(pin, true);
    Ok(true)
}

/// Compares bytes with the value of a PIN; `None` stands for arguments that are bad, which no value equals. First the
/// flag is taken away and a try is counted, before anything that the card does shows the comparison; no abort gives it
/// back. The value gives all tries back, and sets the flag. Without a try left nothing is done.
#[tactic(auto, unfolding(crate::specs::Pins::Checks::pin_check))]
pub fn check<S: WordStore>(
    memory: &mut Memory<S>,
    pin: Ref,
    guess: Option<&[u8]>,
) -> Result<bool, StoreDown>
    requires up { memory.old.heap.down ≡ false }
    requires pin { IsPin memory.old pin }
    ensures { Executes (pin_check memory.old pin (option_copied guess.entry)) memory.old
        (after_step result memory.new) }
{
    let tries = record(memory, pin).tries;
    if tries == 0 {
        return Ok(false);
    }
    memory.set_flag(pin, false);
    set_tries(memory, pin, tries - 1)?;
    compare(memory, pin, guess)
}
