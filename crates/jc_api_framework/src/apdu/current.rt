//! The command of the code that runs.
ghost use Rattle.std.specs.Prelude.{◌≡◌, false};
ghost use Rattle.jc_frames.specs.Cell.{result_or_none};
ghost use Rattle.jc_memory.specs.Programs.{Executes};
ghost use Rattle.jc_world.specs.NativeCalls.{after_call};
ghost use Rattle.jc_api_framework.specs.Apdu.Current.{apdu_object, has_command, has_process, is_select, is_selection, names_somebody};
ghost use Rattle.jc_api_framework.specs.Apdu.{apdu_get_current_apdu, apdu_get_current_apdu_buffer};

use crate::apdu::buffer::buffer;
use jc_environment::{APDU_OBJECT, applet_with_aid};
use jc_frames::{Cell, CodeFault, Exception};
use jc_memory::{Installation, Memory, data_of};
use jc_transient::Ref;
use jc_words::WordStore;
use jc_world::contexts::{context_of, selected_context};
use jc_world::{NativeResult, StepExit};

// The AID by which the manager is selected.
const MANAGER_AID: [u8; 6] = [0xF0, 0x4A, 0x43, 0x4D, 0x47, 0x52];

// The header of a SELECT by an AID.
const SELECT: [u8; 4] = [0x00, 0xA4, 0x04, 0x00];

// Whether it is a SELECT by an AID.
fn is_select(command: &[u8]) -> bool
    ensures { result ≡ is_select command.now }
{
    if command.len() < 4 {
        return false;
    }
    let header = &command[..4];
    header == SELECT.as_slice() && !data_of(command).is_empty()
}

// Whether these bytes are the AID of the manager or of an applet.
fn names_somebody<S: WordStore>(aid: &[u8], memory: &Memory<S>) -> bool
    requires up { memory.now.heap.down ≡ false }
    ensures { result ≡ names_somebody memory.now aid.now }
{
    aid == MANAGER_AID.as_slice() || applet_with_aid(memory, aid).is_some()
}

// Whether the command selects the manager or an applet.
fn is_selection<S: WordStore>(memory: &Memory<S>) -> bool
    requires up { memory.now.heap.down ≡ false }
    ensures { result ≡ is_selection memory.now }
{
    let command = memory.command();
    is_select(command) && names_somebody(data_of(command), memory)
}

// Whether `process` of the selected applet runs.
fn has_process<S: WordStore>(memory: &Memory<S>) -> bool
    requires up { memory.now.heap.down ≡ false }
    ensures { result ≡ has_process memory.now }
{
    let registers = memory.registers();
    if registers.selected.is_none() {
        return false;
    }
    match registers.installation {
        Installation::Idle => registers.selecting || !is_selection(memory),
        _ => false,
    }
}

// Whether `process` of the selected applet runs, in the applet's own context.
#[tactic(auto, unfolding(crate::specs::Apdu::Current::has_command))]
fn has_command<S: WordStore>(memory: &Memory<S>) -> bool
    requires up { memory.now.heap.down ≡ false }
    ensures { result ≡ has_command memory.now }
{
    if !has_process(memory) {
        return false;
    }
    let active = context_of(memory.registers().active, memory);
    active.is(selected_context(memory))
}

// The APDU object. A heap without one is a code fault.
#[tactic(auto, unfolding(crate::specs::Apdu::Current::apdu_object))]
fn apdu_object<S: WordStore>(memory: &Memory<S>) -> Result<Ref, CodeFault>
    requires up { memory.now.heap.down ≡ false }
    ensures { result_or_none result ≡ apdu_object memory.now }
{
    let object = memory.fixed(APDU_OBJECT);
    memory.header(object).ok_or(CodeFault)?;
    Ok(object)
}

/// `APDU.getCurrentAPDU`: returns the APDU object, within `process` of the selected applet.
#[tactic(auto, unfolding(crate::specs::Apdu::apdu_get_current_apdu))]
pub(crate) fn apdu_get_current_apdu<S: WordStore>(
    memory: &Memory<S>,
) -> Result<NativeResult, StepExit>
    requires up { memory.now.heap.down ≡ false }
    ensures { Executes (apdu_get_current_apdu memory.now) memory.now
        (after_call result memory.now) }
{
    if !has_command(memory) {
        return Err(StepExit::Throw(Exception::SecurityException));
    }
    let object = apdu_object(memory)?;
    Ok(NativeResult::ReturnValue(Cell::Reference(object)))
}

/// `APDU.getCurrentAPDUBuffer`: returns the APDU buffer, within `process` of the selected applet.
#[tactic(auto, unfolding(crate::specs::Apdu::apdu_get_current_apdu_buffer))]
pub(crate) fn apdu_get_current_apdu_buffer<S: WordStore>(
    memory: &Memory<S>,
) -> Result<NativeResult, StepExit>
    requires up { memory.now.heap.down ≡ false }
    ensures { Executes (apdu_get_current_apdu_buffer memory.now) memory.now
        (after_call result memory.now) }
{
    if !has_command(memory) {
        return Err(StepExit::Throw(Exception::SecurityException));
    }
    let buffer = buffer(memory)?;
    Ok(NativeResult::ReturnValue(Cell::Reference(buffer)))
}
