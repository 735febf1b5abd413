//! `OwnerPIN` (API specification).

pub(crate) mod check;
pub(crate) mod update;

ghost use Rattle.std.specs.Prelude.{◌≡◌, false, IfOk};
ghost use Rattle.jc_frames.specs.Cell.{result_or_none};
ghost use Rattle.jc_memory.specs.Programs.{Executes};
ghost use Rattle.jc_environment.specs.Pins.{IsPin};
ghost use Rattle.jc_world.specs.NativeCalls.{after_call};
ghost use Rattle.jc_api_framework.specs.OwnerPin.{pin_call, owner_pin_get_tries_remaining, owner_pin_is_validated, owner_pin_reset, owner_pin_reset_and_unblock};
ghost use Rattle.jc_api_framework.specs.OwnerPin.{owner_pin_set_validated_flag, receiver};

use crate::owner_pin::check::owner_pin_check;
use crate::owner_pin::update::{owner_pin_init, owner_pin_update};
use jc_environment::pins::{is_pin, is_validated, tries};
use jc_frames::{Cell, CodeFault, Outcome};
use jc_linker::linked::Linked;
use jc_memory::Memory;
use jc_platform::names::PinsMethod;
use jc_transient::Ref;
use jc_words::WordStore;
use jc_world::arguments::{reference_argument, short_argument};
use jc_world::{NativeResult, StepExit};

/// The PIN that is called. An instance whose cells are none of a PIN is a code fault.
pub(crate) fn receiver<S: WordStore>(args: &[Cell], memory: &Memory<S>) -> Result<Ref, CodeFault>
    requires up { memory.now.heap.down ≡ false }
    ensures pin { result_or_none result ≡ receiver memory.now args.now }
    ensures there { IfOk result (IsPin memory.now) }
{
    let pin = reference_argument(args, 0)?;
    if !is_pin(memory, pin) {
        return Err(CodeFault);
    }
    Ok(pin)
}

// `OwnerPIN.reset`: takes the validated flag away and gives all tries back, where the flag was set.
#[tactic(auto, unfolding(crate::specs::OwnerPin::owner_pin_reset))]
fn owner_pin_reset<S: WordStore>(
    args: &[Cell],
    memory: &mut Memory<S>,
) -> Result<NativeResult, StepExit>
    requires up { memory.old.heap.down ≡ false }
    ensures { Executes (owner_pin_reset args.now memory.old) memory.old
        (after_call result memory.new) }
{
    let pin = receiver(args, memory)?;
    jc_environment::pins::reset(memory, pin)?;
    Ok(NativeResult::ReturnVoid)
}

// `OwnerPIN.resetAndUnblock`: takes the validated flag away and gives all tries back.
#[tactic(auto, unfolding(crate::specs::OwnerPin::owner_pin_reset_and_unblock))]
fn owner_pin_reset_and_unblock<S: WordStore>(
    args: &[Cell],
    memory: &mut Memory<S>,
) -> Result<NativeResult, StepExit>
    requires up { memory.old.heap.down ≡ false }
    ensures { Executes (owner_pin_reset_and_unblock args.now memory.old) memory.old
        (after_call result memory.new) }
{
    let pin = receiver(args, memory)?;
    jc_environment::pins::reset_and_unblock(memory, pin)?;
    Ok(NativeResult::ReturnVoid)
}

// `OwnerPIN.getTriesRemaining`: returns the tries left.
#[tactic(auto, unfolding(crate::specs::OwnerPin::owner_pin_get_tries_remaining))]
fn owner_pin_get_tries_remaining<S: WordStore>(
    args: &[Cell],
    memory: &Memory<S>,
) -> Result<NativeResult, StepExit>
    requires up { memory.now.heap.down ≡ false }
    ensures { Executes (owner_pin_get_tries_remaining args.now memory.now) memory.now
        (after_call result memory.now) }
{
    let pin = receiver(args, memory)?;
    Ok(NativeResult::ReturnValue(Cell::Short(tries(memory, pin).cast_signed())))
}

// `OwnerPIN.isValidated`, `OwnerPIN.getValidatedFlag`: returns the validated flag.
#[tactic(auto, unfolding(crate::specs::OwnerPin::owner_pin_is_validated))]
fn owner_pin_is_validated<S: WordStore>(
    args: &[Cell],
    memory: &Memory<S>,
) -> Result<NativeResult, StepExit>
    requires up { memory.now.heap.down ≡ false }
    ensures { Executes (owner_pin_is_validated args.now memory.now) memory.now
        (after_call result memory.now) }
{
    let pin = receiver(args, memory)?;
    Ok(NativeResult::ReturnValue(Cell::Short(i16::from(is_validated(memory, pin)))))
}

// `OwnerPIN.setValidatedFlag`: sets the validated flag, or takes it away.
#[tactic(auto, unfolding(crate::specs::OwnerPin::owner_pin_set_validated_flag))]
fn owner_pin_set_validated_flag<S: WordStore>(
    args: &[Cell],
    memory: &mut Memory<S>,
) -> Result<NativeResult, StepExit>
    requires up { memory.old.heap.down ≡ false }
    ensures { Executes (owner_pin_set_validated_flag args.now memory.old) memory.old
        (after_call result memory.new) }
{
    let pin = receiver(args, memory)?;
    let value = short_argument(args, 1)?;
    memory.set_flag(pin, value != 0);
    Ok(NativeResult::ReturnVoid)
}

/// A call of a method of `OwnerPIN`; one of the interface `PIN`, which has no code, is a code fault.
#[tactic(auto, unfolding(crate::specs::OwnerPin::pin_call))]
#[inline(never)]
pub fn call_pin<S: WordStore>(
    method: PinsMethod,
    args: &[Cell],
    memory: &mut Memory<S>,
    linked: &Linked,
) -> Result<NativeResult, StepExit>
    requires up { memory.old.heap.down ≡ false }
    ensures { Executes (pin_call method args.now linked.now memory.old) memory.old
        (after_call result memory.new) }
{
    match method {
        PinsMethod::OwnerPinInit => owner_pin_init(args, memory),
        PinsMethod::OwnerPinCheck => owner_pin_check(args, memory, linked),
        PinsMethod::OwnerPinGetTriesRemaining => owner_pin_get_tries_remaining(args, memory),
        PinsMethod::OwnerPinIsValidated | PinsMethod::OwnerPinGetValidatedFlag => {
            owner_pin_is_validated(args, memory)
        }
        PinsMethod::OwnerPinSetValidatedFlag => owner_pin_set_validated_flag(args, memory),
        PinsMethod::OwnerPinReset => owner_pin_reset(args, memory),
        PinsMethod::OwnerPinResetAndUnblock => owner_pin_reset_and_unblock(args, memory),
        PinsMethod::OwnerPinUpdate => owner_pin_update(args, memory, linked),
        PinsMethod::PinCheck
        | PinsMethod::PinGetTriesRemaining
        | PinsMethod::PinIsValidated
        | PinsMethod::PinReset => Err(StepExit::End(Outcome::Fault)),
    }
}
