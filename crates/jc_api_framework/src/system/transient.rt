//! Transient arrays.
ghost use Rattle.std.specs.Prelude.{◌≡◌, false, pos};
ghost use Rattle.jc_heap.specs.Object.{event_number};
ghost use Rattle.jc_memory.specs.Programs.{Executes};
ghost use Rattle.jc_world.specs.NativeCalls.{after_call};
ghost use Rattle.jc_api.specs.NewArrays.{class_for};
ghost use Rattle.jc_api_framework.specs.System.Transient.{event_named, requested_array, jc_system_make_transient_array};
ghost use Rattle.jc_api_framework.specs.System.Transient.{jc_system_is_transient};

use jc_api::allow_making;
use jc_frames::reasons::ILLEGAL_VALUE;
use jc_frames::{Cell, Exception, FrameExit, Outcome};
use jc_heap::Kind;
use jc_linker::linked::Linked;
use jc_memory::{Memory, NewObject};
use jc_platform::names::PlatformClass;
use jc_transient::{ClassWord, ClearEvent, NO_CLASS};
use jc_words::WordStore;
use jc_world::arguments::{reference_argument, short_argument};
use jc_world::{NativeResult, StepExit, not_negative, short};

// CLEAR_ON_RESET or CLEAR_ON_DESELECT by its number; ILLEGAL_VALUE for another.
pub(crate) fn event_named(number: i16) -> Result<ClearEvent, FrameExit>
    ensures { result ≡ event_named number }
{
    if number == 1 {
        Ok(ClearEvent::Reset)
    } else if number == 2 {
        Ok(ClearEvent::Deselect)
    } else {
        Err(FrameExit::Throw(ILLEGAL_VALUE))
    }
}

// The class word of a new array: `Object` for references, none for numbers.
fn class_for(kind: Kind, linked: &Linked) -> ClassWord
    ensures { result ≡ class_for kind linked.now }
{
    match kind {
        Kind::ReferenceArray => linked.platform().class_word(PlatformClass::Object),
        _ => NO_CLASS,
    }
}

// The array that is asked for.
#[tactic(auto, unfolding(crate::specs::System::Transient::requested_array))]
fn requested_array<S: WordStore>(
    kind: Kind,
    count: i16,
    event: i16,
    memory: &Memory<S>,
    linked: &Linked,
) -> Result<NewObject, FrameExit>
    requires up { memory.now.heap.down ≡ false }
    ensures { result ≡ requested_array kind count event linked.now memory.now }
{
    let Some(length) = not_negative(count) else {
        return Err(FrameExit::Throw(Exception::NegativeArraySizeException));
    };
    let named = event_named(event)?;
    allow_making(named, memory)?;
    Ok(NewObject {
        kind,
        event: Some(named),
        class: class_for(kind, linked),
        owner: memory.registers().active,
        length,
    })
}

/// `JCSystem.makeTransientBooleanArray`, `JCSystem.makeTransientByteArray`, `JCSystem.makeTransientShortArray`,
/// `JCSystem.makeTransientObjectArray`: makes a transient array. It throws by the length, then by the event,
/// then where it may not be made.
#[tactic(auto, unfolding(crate::specs::System::Transient::jc_system_make_transient_array))]
pub(crate) fn jc_system_make_transient_array<S: WordStore>(
    kind: Kind,
    args: &[Cell],
    memory: &mut Memory<S>,
    linked: &Linked,
) -> Result<NativeResult, StepExit>
    requires up { memory.old.heap.down ≡ false }
    ensures { Executes (jc_system_make_transient_array kind args.now linked.now memory.old)
        memory.old (after_call result memory.new) }
{
    let count = short_argument(args, 0)?;
    let event = short_argument(args, 1)?;
    let object = requested_array(kind, count, event, memory, linked)?;
    let array = memory.make(object)?;
    Ok(NativeResult::ReturnValue(Cell::Reference(array)))
}

// The number that `isTransient` returns for an event.
fn event_number(event: Option<ClearEvent>) -> i16
    ensures { result ≡ pos (event_number event) }
{
    match event {
        None => 0,
        Some(ClearEvent::Reset) => 1,
        Some(ClearEvent::Deselect) => 2,
    }
}

/// `JCSystem.isTransient`: returns NOT_A_TRANSIENT_OBJECT, CLEAR_ON_RESET or CLEAR_ON_DESELECT.
#[tactic(auto, unfolding(crate::specs::System::Transient::jc_system_is_transient))]
pub(crate) fn jc_system_is_transient<S: WordStore>(
    args: &[Cell],
    memory: &Memory<S>,
) -> Result<NativeResult, StepExit>
    requires up { memory.now.heap.down ≡ false }
    ensures { Executes (jc_system_is_transient args.now memory.now) memory.now
        (after_call result memory.now) }
{
    let object = reference_argument(args, 0)?;
    if object.is_null() {
        return Ok(short(0));
    }
    match memory.header(object) {
        Some(facts) => Ok(short(event_number(facts.event))),
        None => Err(StepExit::End(Outcome::Fault)),
    }
}
