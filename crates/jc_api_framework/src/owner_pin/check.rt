//! `owner_pin_check` of `OwnerPIN`.
ghost use Rattle.std.specs.Prelude.{◌≡◌, ◌≤◌, false, Some, IfOk};
ghost use Rattle.jc_memory.specs.Programs.{Executes};
ghost use Rattle.jc_heap.specs.Completions.{after_step};
ghost use Rattle.jc_world.specs.NativeCalls.{after_call};
ghost use Rattle.jc_environment.specs.Pins.Checks.{pin_check};
ghost use Rattle.jc_environment.specs.Pins.{IsPin};
ghost use Rattle.jc_world.specs.Arrays.{IsInArray, bytes_in};
ghost use Rattle.jc_api_framework.specs.OwnerPin.{pin_comparison, owner_pin_check};

use crate::owner_pin::receiver;
use jc_api::{MOST_ELEMENTS, SMALL_PIECE, argument_bytes, array_arguments};
use jc_environment::pins::tries;
use jc_frames::{Cell, FrameExit};
use jc_linker::linked::Linked;
use jc_memory::Memory;
use jc_transient::Ref;
use jc_words::{StoreDown, WordStore};
use jc_world::{NativeResult, StepExit, Stretch};

// Compares at most this many bytes of an array with the value, once a try was counted.
#[inline(never)]
fn compare_most<const MOST: usize, S: WordStore>(
    memory: &mut Memory<S>,
    pin: Ref,
    bytes: Stretch,
) -> Result<bool, StoreDown>
    requires up { memory.old.heap.down ≡ false }
    requires pin { IsPin memory.old pin }
    requires bytes { IsInArray memory.old bytes }
    requires few { bytes.count ≤ MOST }
    requires most { MOST ≤ MOST_ELEMENTS }
    ensures { Executes (pin_check memory.old pin (Some (bytes_in memory.old bytes))) memory.old
        (after_step result memory.new) }
{
    let mut buffer = [0; MOST];
    let guess = &mut buffer[..bytes.count as usize];
    memory.bytes(bytes.array, bytes.start, guess);
    jc_environment::pins::check(memory, pin, Some(guess))
}

// Compares bytes of an array with the value, once a try was counted.
fn compare_bytes<S: WordStore>(
    memory: &mut Memory<S>,
    pin: Ref,
    bytes: Stretch,
) -> Result<bool, StoreDown>
    requires up { memory.old.heap.down ≡ false }
    requires pin { IsPin memory.old pin }
    requires bytes { IsInArray memory.old bytes }
    requires few { bytes.count ≤ MOST_ELEMENTS }
    ensures { Executes (pin_check memory.old pin (Some (bytes_in memory.old bytes))) memory.old
        (after_step result memory.new) }
{
    if bytes.count as usize <= SMALL_PIECE {
        return compare_most::<SMALL_PIECE, S>(memory, pin, bytes);
    }
    compare_most::<MOST_ELEMENTS, S>(memory, pin, bytes)
}

// Compares, where a try is left; bad arguments throw once it was counted.
#[tactic(auto, unfolding(crate::specs::OwnerPin::pin_comparison))]
fn pin_comparison<S: WordStore>(
    memory: &mut Memory<S>,
    pin: Ref,
    bytes: Result<Stretch, FrameExit>,
) -> Result<NativeResult, StepExit>
    requires up { memory.old.heap.down ≡ false }
    requires pin { IsPin memory.old pin }
    requires bytes { IfOk bytes (IsInArray memory.old) }
    requires few { IfOk bytes (λ e. e.count ≤ MOST_ELEMENTS) }
    ensures { Executes (pin_comparison memory.old pin bytes) memory.old
        (after_call result memory.new) }
{
    if tries(memory, pin) == 0 {
        return Ok(NativeResult::ReturnValue(Cell::Short(0)));
    }
    match bytes {
        Ok(bytes) => {
            let same = compare_bytes(memory, pin, bytes)?;
            Ok(NativeResult::ReturnValue(Cell::Short(i16::from(same))))
        }
        Err(stop) => {
            jc_environment::pins::check(memory, pin, None)?;
            Err(StepExit::from(stop))
        }
    }
}

/// `OwnerPIN.check`: returns false where no try is left. Else counts a try before anything is compared, and bad
/// arguments throw after that.
#[tactic(auto, unfolding(crate::specs::OwnerPin::owner_pin_check))]
pub(crate) fn owner_pin_check<S: WordStore>(
    args: &[Cell],
    memory: &mut Memory<S>,
    linked: &Linked,
) -> Result<NativeResult, StepExit>
    requires up { memory.old.heap.down ≡ false }
    ensures { Executes (owner_pin_check args.now linked.now memory.old) memory.old
        (after_call result memory.new) }
{
    let pin = receiver(args, memory)?;
    let given = array_arguments(1, args, memory)?;
    let bytes = argument_bytes(&given, memory, linked);
    pin_comparison(memory, pin, bytes)
}
