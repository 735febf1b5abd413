//! `<init>` and `update` of `OwnerPIN`.
ghost use Rattle.std.specs.Prelude.{◌≡◌, ◌≤◌, false};
ghost use Rattle.jc_memory.specs.Programs.{Executes};
ghost use Rattle.jc_world.specs.NativeCalls.{after_call};
ghost use Rattle.jc_environment.specs.Pins.{IsPin};
ghost use Rattle.jc_environment.specs.Pins.PinInit.{pin_init};
ghost use Rattle.jc_environment.specs.Pins.Updates.{after_pin, pin_update};
ghost use Rattle.jc_world.specs.Arrays.{IsInArray, bytes_in};
ghost use Rattle.jc_api_framework.specs.OwnerPin.{answer_of, at_least_1, changed_or_thrown, is_own_value, owner_pin_init, owner_pin_update};

use crate::owner_pin::receiver;
use jc_api::{MOST_ELEMENTS, SMALL_PIECE, counted_of};
use jc_environment::pins::{PinRefusal, init, record, update};
use jc_frames::reasons::{BUFFER_FULL, ILLEGAL_PIN_VALUE, NO_RESOURCE};
use jc_frames::{Cell, Exception, FrameExit};
use jc_linker::linked::Linked;
use jc_memory::Memory;
use jc_transient::{Owner, Ref};
use jc_words::WordStore;
use jc_world::arguments::short_argument;
use jc_world::contexts::context_of;
use jc_world::{NativeResult, StepExit, Stretch};

// A limit or a maximum: none below 1.
fn at_least_1(number: i16) -> Result<u16, FrameExit>
    ensures { result ≡ at_least_1 number }
{
    if number < 1 {
        return Err(FrameExit::Throw(ILLEGAL_PIN_VALUE));
    }
    Ok(number.cast_unsigned())
}

// The array in which a PIN keeps its value belongs to the context of the PIN, as it does for each PIN that code made; an
// image of another maker may name another's, which nobody is to set by way of a PIN. A PIN of which the maximum is 0 may have none.
fn is_own_value<S: WordStore>(pin: Ref, memory: &Memory<S>) -> Result<(), FrameExit>
    requires up { memory.now.heap.down ≡ false }
    requires pin { IsPin memory.now pin }
    ensures { result ≡ is_own_value memory.now pin }
{
    let Some(value) = memory.header(record(memory, pin).value) else {
        return Ok(());
    };
    let context = context_of(Owner::of(memory.facts(pin).owner()), memory);
    if context_of(Owner::of(value.owner()), memory).is(context) {
        Ok(())
    } else {
        Err(FrameExit::Throw(Exception::SecurityException))
    }
}

// What a call answers that changes a PIN.
fn answer_of(change: Result<(), PinRefusal>) -> Result<NativeResult, StepExit>
    ensures { result ≡ answer_of change }
{
    match change {
        Ok(()) => Ok(NativeResult::ReturnVoid),
        Err(PinRefusal::StoreDown) => Err(StepExit::Down),
        Err(PinRefusal::CommitFull) => Err(StepExit::Throw(BUFFER_FULL)),
        Err(PinRefusal::IllegalValue) => Err(StepExit::Throw(ILLEGAL_PIN_VALUE)),
        Err(PinRefusal::HeapFull) => Err(StepExit::Throw(NO_RESOURCE)),
    }
}

// Sets a PIN up with this limit and this maximum.
fn set_up<S: WordStore>(
    memory: &mut Memory<S>,
    pin: Ref,
    limit: u16,
    maximum: u16,
) -> Result<NativeResult, StepExit>
    requires up { memory.old.heap.down ≡ false }
    requires pin { IsPin memory.old pin }
    ensures { Executes (changed_or_thrown (pin_init memory.old pin limit maximum) memory.old)
        memory.old (after_call result memory.new) }
{
    answer_of(init(memory, pin, limit, maximum))
}

/// `OwnerPIN.<init>`: sets a PIN up with a try limit and a maximum length.
#[tactic(auto, unfolding(crate::specs::OwnerPin::owner_pin_init))]
pub(crate) fn owner_pin_init<S: WordStore>(
    args: &[Cell],
    memory: &mut Memory<S>,
) -> Result<NativeResult, StepExit>
    requires up { memory.old.heap.down ≡ false }
    ensures { Executes (owner_pin_init args.now memory.old) memory.old
        (after_call result memory.new) }
{
    let pin = receiver(args, memory)?;
    let limit = short_argument(args, 1)?;
    let maximum = short_argument(args, 2)?;
    let limit = at_least_1(limit)?;
    let maximum = at_least_1(maximum)?;
    set_up(memory, pin, limit, maximum)
}

// Gives a PIN at most this many bytes of an array as its value.
#[inline(never)]
fn set_most<const MOST: usize, S: WordStore>(
    memory: &mut Memory<S>,
    pin: Ref,
    bytes: Stretch,
) -> Result<(), PinRefusal>
    requires up { memory.old.heap.down ≡ false }
    requires pin { IsPin memory.old pin }
    requires bytes { IsInArray memory.old bytes }
    requires few { bytes.count ≤ MOST }
    requires most { MOST ≤ MOST_ELEMENTS }
    ensures { Executes (pin_update memory.old pin (bytes_in memory.old bytes)) memory.old
        (after_pin result memory.new) }
{
    let mut buffer = [0; MOST];
    let value = &mut buffer[..bytes.count as usize];
    memory.bytes(bytes.array, bytes.start, value);
    update(memory, pin, value)
}

// Gives a PIN bytes of an array as its value.
fn set_bytes<S: WordStore>(
    memory: &mut Memory<S>,
    pin: Ref,
    bytes: Stretch,
) -> Result<(), PinRefusal>
    requires up { memory.old.heap.down ≡ false }
    requires pin { IsPin memory.old pin }
    requires bytes { IsInArray memory.old bytes }
    requires few { bytes.count ≤ MOST_ELEMENTS }
    ensures { Executes (pin_update memory.old pin (bytes_in memory.old bytes)) memory.old
        (after_pin result memory.new) }
{
    if bytes.count as usize <= SMALL_PIECE {
        return set_most::<SMALL_PIECE, S>(memory, pin, bytes);
    }
    set_most::<MOST_ELEMENTS, S>(memory, pin, bytes)
}

// The same, as a call answers it.
fn set_named<S: WordStore>(
    memory: &mut Memory<S>,
    pin: Ref,
    bytes: Stretch,
) -> Result<NativeResult, StepExit>
    requires up { memory.old.heap.down ≡ false }
    requires pin { IsPin memory.old pin }
    requires bytes { IsInArray memory.old bytes }
    requires few { bytes.count ≤ MOST_ELEMENTS }
    ensures { Executes (changed_or_thrown (pin_update memory.old pin (bytes_in memory.old bytes))
        memory.old) memory.old (after_call result memory.new) }
{
    answer_of(set_bytes(memory, pin, bytes))
}

/// `OwnerPIN.update`: sets value and length and gives all tries back, as one change. The value is in an array
/// of the PIN's own context.
#[tactic(auto, unfolding(crate::specs::OwnerPin::owner_pin_update))]
pub(crate) fn owner_pin_update<S: WordStore>(
    args: &[Cell],
    memory: &mut Memory<S>,
    linked: &Linked,
) -> Result<NativeResult, StepExit>
    requires up { memory.old.heap.down ≡ false }
    ensures { Executes (owner_pin_update args.now linked.now memory.old) memory.old
        (after_call result memory.new) }
{
    let pin = receiver(args, memory)?;
    let bytes = counted_of(1, args, memory, linked)?;
    is_own_value(pin, memory)?;
    set_named(memory, pin, bytes)
}
