//! Exceptions that carry a reason (API specification).
ghost use Rattle.std.specs.Prelude.{◌≡◌, false};
ghost use Rattle.jc_memory.specs.Programs.{Executes};
ghost use Rattle.jc_world.specs.NativeCalls.{after_call};
ghost use Rattle.jc_api_framework.specs.Exceptions.{exception_by, exception_call, exception_get_reason, exception_set_no_reason, exception_set_reason};
ghost use Rattle.jc_api_framework.specs.Exceptions.{exception_throw_it, of_class};

use jc_frames::{Cell, Exception, Outcome};
use jc_memory::Memory;
use jc_platform::kinds::Receiver;
use jc_platform::names::{ExceptionsMethod, PlatformClass, PlatformMethod};
use jc_transient::CellValue;
use jc_words::WordStore;
use jc_world::arguments::{reference_argument, short_argument};
use jc_world::{NativeResult, StepExit, instance, short};

// The constructors of exceptions, `CardException.setReason`, `CardRuntimeException.setReason`: sets the reason of an exception.
#[tactic(auto, unfolding(crate::specs::Exceptions::exception_set_reason))]
fn exception_set_reason<S: WordStore>(
    args: &[Cell],
    memory: &mut Memory<S>,
) -> Result<NativeResult, StepExit>
    requires up { memory.old.heap.down ≡ false }
    ensures { Executes (exception_set_reason args.now memory.old) memory.old
        (after_call result memory.new) }
{
    let own = reference_argument(args, 0)?;
    let reason = short_argument(args, 1)?;
    let _facts = instance(own, 1, memory)?;
    memory.set(own, 0, CellValue::Short(reason))?;
    Ok(NativeResult::ReturnVoid)
}

// `UserException.<init>` without a reason: the reason is 0.
#[tactic(auto, unfolding(crate::specs::Exceptions::exception_set_no_reason))]
fn exception_set_no_reason<S: WordStore>(
    args: &[Cell],
    memory: &mut Memory<S>,
) -> Result<NativeResult, StepExit>
    requires up { memory.old.heap.down ≡ false }
    ensures { Executes (exception_set_no_reason args.now memory.old) memory.old
        (after_call result memory.new) }
{
    let own = reference_argument(args, 0)?;
    let _facts = instance(own, 1, memory)?;
    memory.set(own, 0, CellValue::Short(0))?;
    Ok(NativeResult::ReturnVoid)
}

// `CardException.getReason`, `CardRuntimeException.getReason`: returns the reason.
#[tactic(auto, unfolding(crate::specs::Exceptions::exception_get_reason))]
fn exception_get_reason<S: WordStore>(
    args: &[Cell],
    memory: &Memory<S>,
) -> Result<NativeResult, StepExit>
    requires up { memory.now.heap.down ≡ false }
    ensures { Executes (exception_get_reason args.now memory.now) memory.now
        (after_call result memory.now) }
{
    let own = reference_argument(args, 0)?;
    let _facts = instance(own, 1, memory)?;
    Ok(short(memory.short(own, 0)))
}

// The exception of a class, with this reason.
#[inline(always)]
fn exception_of(class: PlatformClass, reason: i16) -> Exception
    ensures { result ≡ of_class class reason }
{
    match class {
        PlatformClass::CardException => Exception::CardException(reason),
        PlatformClass::CardRuntimeException => Exception::CardRuntimeException(reason),
        PlatformClass::IsoException => Exception::ISOException(reason),
        PlatformClass::PinException => Exception::PINException(reason),
        PlatformClass::SystemException => Exception::SystemException(reason),
        PlatformClass::TransactionException => Exception::TransactionException(reason),
        PlatformClass::ApduException => Exception::APDUException(reason),
        PlatformClass::UserException => Exception::UserException(reason),
        _ => Exception::Further { class, reason },
    }
}

// `throwIt` of each of these classes: throws the runtime environment's own instance with this reason.
#[tactic(auto, unfolding(crate::specs::Exceptions::exception_throw_it))]
#[inline(always)]
fn exception_throw_it<S: WordStore>(
    class: PlatformClass,
    args: &[Cell],
    memory: &Memory<S>,
) -> Result<NativeResult, StepExit>
    ensures { Executes (exception_throw_it class args.now) memory.now
        (after_call result memory.now) }
{
    let reason = short_argument(args, 0)?;
    Err(StepExit::Throw(exception_of(class, reason)))
}

// A call of a method of an exception, by what it does with its receiver, its class, and whether it is given a reason.
#[inline(always)]
fn call_by_row<S: WordStore>(
    receiver: Receiver,
    class: PlatformClass,
    given: bool,
    args: &[Cell],
    memory: &mut Memory<S>,
) -> Result<NativeResult, StepExit>
    requires up { memory.old.heap.down ≡ false }
    ensures { Executes (exception_by receiver class given args.now memory.old) memory.old
        (after_call result memory.new) }
{
    match receiver {
        Receiver::Absent => exception_throw_it(class, args, memory),
        Receiver::Kept => exception_get_reason(args, memory),
        Receiver::Registered => Err(StepExit::End(Outcome::Fault)),
        Receiver::Changed => {
            if given {
                exception_set_reason(args, memory)
            } else {
                exception_set_no_reason(args, memory)
            }
        }
    }
}

/// A call of a method of an exception with a reason: its row says what it does, so a new exception needs nothing here.
#[tactic(auto, unfolding(crate::specs::Exceptions::exception_call))]
#[inline(always)]
pub fn call_exception<S: WordStore>(
    method: ExceptionsMethod,
    args: &[Cell],
    memory: &mut Memory<S>,
) -> Result<NativeResult, StepExit>
    requires up { memory.old.heap.down ≡ false }
    ensures { Executes (exception_call method args.now memory.old) memory.old
        (after_call result memory.new) }
{
    let method = PlatformMethod::Exceptions(method);
    let given = method.argument_cells() == 2;
    call_by_row(method.receiver(), method.class(), given, args, memory)
}
