//! Exceptions: whose instance is thrown, and which frame goes on with it.
ghost use Rattle.std.specs.Prelude.{◌≡◌, false};
ghost use Rattle.jc_environment.specs.Objects.{own_place};
ghost use Rattle.jc_frames.specs.Exceptions.{class_of_exception};
ghost use Rattle.jc_platform.specs.Tokens.{Tokens};
ghost use Rattle.jc_frames.specs.Frames.{unless_fault};
ghost use Rattle.jc_memory.specs.Programs.{Executes};
ghost use Rattle.jc_world.specs.Instructions.{after_instruction};
ghost use Rattle.jc_instructions.specs.Throw.{has_reason_cell, handler_entry, athrow, callers_unwind, exception_throw, object_unwind, unwind};
ghost use Rattle.jc_instructions.specs.Throw.{HasVariant, with_reason};

use crate::catch::{HandlerResult, catch_in_method};
use crate::notes::note_exception;
use jc_environment::own_place;
use jc_firewall::access::Access;
use jc_frames::{CallKind, Cell, CodeFault, Exception, Frames, Outcome};
use jc_heap::Facts;
use jc_linker::linked::Linked;
use jc_memory::{FaultKind, Memory};
use jc_platform::names::PlatformClass;
use jc_platform::table::Table;
use jc_transient::{CellValue, ClassWord, Ref};
use jc_words::WordStore;
use jc_world::StepExit;
use jc_world::contexts::allow;
use jc_world::objects::{is_instance, is_instance_of, object};

// A handler goes on with the exception alone on its stack.
fn handle(thrown: Ref, target: u16, frames: &mut Frames) -> Result<(), CodeFault>
    ensures { unless_fault result frames.new ≡ handler_entry thrown target frames.old.callers
        frames.old.current }
{
    frames.clear_stack();
    frames.set_place(target);
    frames.try_push(Cell::Reference(thrown))
}

// An exception of this class is thrown in the callers, the nearest first, since nothing catches it in the frame that runs.
#[inline(never)]
fn unwind_callers<S: WordStore>(
    class: ClassWord,
    thrown: Ref,
    frames: &mut Frames,
    memory: &mut Memory<S>,
    linked: &Linked,
) -> Result<(), StepExit>
    ensures { Executes (callers_unwind linked.now class thrown frames.old.callers memory.old)
        memory.old (after_instruction result frames.new memory.new) }
{
    let Some(resume) = frames.leave() else {
        return Err(StepExit::End(Outcome::Thrown(thrown)));
    };
    let call = resume.call;
    let place = resume.place;
    memory.set_owners(resume.active, resume.previous);
    if let CallKind::ShareableRequest = call {
        memory.notes().forget();
        frames.try_push(Cell::Reference(Ref::null()))?;
        return Ok(());
    }
    match catch_in_method(class, &frames.origin(), place, linked) {
        HandlerResult::Caught(target) => {
            memory.notes().forget();
            handle(thrown, target, frames)?;
            Ok(())
        }
        HandlerResult::CodeFault => Err(StepExit::End(Outcome::Fault)),
        HandlerResult::NotCaught => unwind_callers(class, thrown, frames, memory, linked),
    }
}

// An exception of this class is thrown by the instruction at a place of the frame that runs.
#[tactic(auto, unfolding(crate::specs::Throw::unwind))]
#[inline(always)]
fn unwind<S: WordStore>(
    class: ClassWord,
    thrown: Ref,
    place: u16,
    frames: &mut Frames,
    memory: &mut Memory<S>,
    linked: &Linked,
) -> Result<(), StepExit>
    ensures { Executes (unwind linked.now class thrown place frames.old memory.old) memory.old
        (after_instruction result frames.new memory.new) }
{
    match catch_in_method(class, &frames.origin(), place, linked) {
        HandlerResult::Caught(target) => {
            memory.notes().forget();
            handle(thrown, target, frames)?;
            Ok(())
        }
        HandlerResult::CodeFault => Err(StepExit::End(Outcome::Fault)),
        HandlerResult::NotCaught => unwind_callers(class, thrown, frames, memory, linked),
    }
}

// An object is thrown by the instruction at a place.
#[tactic(auto, unfolding(crate::specs::Throw::object_unwind))]
#[inline(always)]
fn throw_object<S: WordStore>(
    thrown: Ref,
    place: u16,
    frames: &mut Frames,
    memory: &mut Memory<S>,
    linked: &Linked,
) -> Result<(), StepExit>
    requires up { memory.old.heap.down ≡ false }
    ensures { Executes (object_unwind thrown place linked.now frames.old memory.old) memory.old
        (after_instruction result frames.new memory.new) }
{
    if memory.notes().are_kept() {
        note_exception(thrown, place, frames, memory, linked);
    }
    match memory.header(thrown) {
        Some(facts) => unwind(facts.class(), thrown, place, frames, memory, linked),
        None => Err(StepExit::End(Outcome::Fault)),
    }
}

/// `athrow`: throws the object on top, by the instruction at a place. A code fault where it is no instance of a
/// class below `Throwable`.
#[tactic(auto, unfolding(crate::specs::Throw::athrow))]
pub fn athrow<S: WordStore>(
    place: u16,
    frames: &mut Frames,
    memory: &mut Memory<S>,
    linked: &Linked,
) -> Result<(), StepExit>
    requires up { memory.old.heap.down ≡ false }
    ensures { Executes (athrow place linked.now frames.old memory.old) memory.old
        (after_instruction result frames.new memory.new) }
{
    let thrown = frames.pop_reference()?;
    let facts = object(thrown, memory)?;
    let throwable = linked.platform().class_word(PlatformClass::Throwable);
    if !is_instance_of(facts, throwable, linked) {
        memory.notes().fault(FaultKind::WrongClass);
        return Err(StepExit::End(Outcome::Fault));
    }
    allow(Access::Throw, facts, memory, linked)?;
    throw_object(thrown, place, frames, memory, linked)
}

// A transient instance with a cell.
fn has_reason_cell(facts: Facts) -> bool
    ensures { result ≡ has_reason_cell facts }
{
    is_instance(facts.kind) && facts.event.is_some() && facts.length > 0
}

// Throws an instance of the runtime environment, with its reason.
fn throw_with<S: WordStore>(
    reason: Option<i16>,
    thrown: Ref,
    place: u16,
    frames: &mut Frames,
    memory: &mut Memory<S>,
    linked: &Linked,
) -> Result<(), StepExit>
    requires up { memory.old.heap.down ≡ false }
    ensures { Executes (with_reason reason thrown place linked.now frames.old memory.old) memory.old
        (after_instruction result frames.new memory.new) }
{
    if let Some(reason) = reason {
        let Some(facts) = memory.header(thrown) else {
            return Err(StepExit::End(Outcome::Fault));
        };
        if !has_reason_cell(facts) {
            return Err(StepExit::End(Outcome::Fault));
        }
        memory.set(thrown, 0, CellValue::Short(reason))?;
    }
    throw_object(thrown, place, frames, memory, linked)
}

// The number of the runtime environment's own instance of the class of an exception that has a variant, among the objects with which the heap
// begins: it is the variant's number too, so that no arm has code.
#[tactic(auto, unfolding(jc_environment::specs::Objects::own_place, jc_environment::specs::Objects::fixed_objects, jc_environment::specs::Objects::first_objects,))]
#[inline(always)]
fn own_number_of_variant(exception: Exception) -> usize
    requires variant { HasVariant exception }
    ensures { (t : Tokens) → result ≡ own_place t (class_of_exception exception) }
{
    match exception {
        Exception::ArithmeticException => 0,
        Exception::ArrayIndexOutOfBoundsException => 1,
        Exception::ArrayStoreException => 2,
        Exception::ClassCastException => 3,
        Exception::NegativeArraySizeException => 4,
        Exception::NullPointerException => 5,
        Exception::SecurityException => 6,
        Exception::CardException(_) => 7,
        Exception::CardRuntimeException(_) => 8,
        Exception::ISOException(_) => 9,
        Exception::PINException(_) => 10,
        Exception::SystemException(_) => 11,
        Exception::TransactionException(_) => 12,
        Exception::APDUException(_) => 13,
        Exception::UserException(_) => 14,
        Exception::Further { .. } => unreachable!(),
    }
}

// The same of any exception.
#[inline(always)]
fn own_number(exception: Exception, table: &Table) -> usize
    ensures { result ≡ own_place table.now (class_of_exception exception) }
{
    if let Exception::Further { class, .. } = exception {
        return own_place(table, class);
    }
    own_number_of_variant(exception)
}

/// The runtime environment throws its own instance of an exception's class, with its reason, by the instruction at a
/// place. A class that the table lacks is a code fault.
#[tactic(auto, unfolding(crate::specs::Throw::exception_throw))]
pub fn throw<S: WordStore>(
    exception: Exception,
    place: u16,
    frames: &mut Frames,
    memory: &mut Memory<S>,
    linked: &Linked,
) -> Result<(), StepExit>
    requires up { memory.old.heap.down ≡ false }
    ensures { Executes (exception_throw exception place linked.now frames.old memory.old) memory.old
        (after_instruction result frames.new memory.new) }
{
    let number = own_number(exception, linked.platform().table());
    let thrown = memory.fixed(number);
    throw_with(exception.reason(), thrown, place, frames, memory, linked)
}
