//! Constructors, and `equals` of `Object` (API specification).
ghost use Rattle.jc_memory.specs.Programs.{Executes};
ghost use Rattle.jc_world.specs.NativeCalls.{after_call};
ghost use Rattle.jc_api_framework.specs.Objects.{object_equals, object_call};

use jc_frames::Cell;
use jc_memory::Memory;
use jc_platform::names::ObjectsMethod;
use jc_words::WordStore;
use jc_world::arguments::reference_argument;
use jc_world::{NativeResult, StepExit, boolean};

// `Object.equals`: whether the two references are equal.
#[tactic(auto, unfolding(crate::specs::Objects::object_equals))]
fn object_equals<S: WordStore>(args: &[Cell], memory: &Memory<S>) -> Result<NativeResult, StepExit>
    ensures { Executes (object_equals args.now) memory.now (after_call result memory.now) }
{
    let own = reference_argument(args, 0)?;
    let other = reference_argument(args, 1)?;
    Ok(boolean(own.address() == other.address()))
}

/// `Object.<init>`, `Throwable.<init>`, `Exception.<init>`, `RuntimeException.<init>`,
/// `IndexOutOfBoundsException.<init>`, `ArithmeticException.<init>`, `ArrayIndexOutOfBoundsException.<init>`,
/// `ArrayStoreException.<init>`, `ClassCastException.<init>`, `NegativeArraySizeException.<init>`,
/// `NullPointerException.<init>`, `SecurityException.<init>`: does nothing; `Object.equals` is answered here too.
#[tactic(auto, unfolding(crate::specs::Objects::object_call))]
pub fn call_object<S: WordStore>(
    method: ObjectsMethod,
    args: &[Cell],
    memory: &Memory<S>,
) -> Result<NativeResult, StepExit>
    ensures { Executes (object_call method args.now) memory.now (after_call result memory.now) }
{
    match method {
        ObjectsMethod::ObjectEquals => object_equals(args, memory),
        ObjectsMethod::ObjectInit
        | ObjectsMethod::ThrowableInit
        | ObjectsMethod::ExceptionInit
        | ObjectsMethod::RuntimeExceptionInit
        | ObjectsMethod::IndexOutOfBoundsExceptionInit
        | ObjectsMethod::ArithmeticExceptionInit
        | ObjectsMethod::ArrayIndexOutOfBoundsExceptionInit
        | ObjectsMethod::ArrayStoreExceptionInit
        | ObjectsMethod::ClassCastExceptionInit
        | ObjectsMethod::NegativeArraySizeExceptionInit
        | ObjectsMethod::NullPointerExceptionInit
        | ObjectsMethod::SecurityExceptionInit => Ok(NativeResult::ReturnVoid),
    }
}
