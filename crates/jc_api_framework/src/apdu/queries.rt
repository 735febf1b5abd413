//! What code may ask of a command and of its answer.
ghost use Rattle.std.specs.Prelude.{◌≡◌, false};
ghost use Rattle.jc_memory.specs.Programs.{Executes};
ghost use Rattle.jc_world.specs.NativeCalls.{after_call};
ghost use Rattle.jc_api_framework.specs.Apdu.{phase_of};
ghost use Rattle.jc_api_framework.specs.Apdu.Queries.{apdu_get_current_state, apdu_get_incoming_length, apdu_get_offset_cdata, by_protocol, state_number, state_of_answer, state_of_data};
ghost use Rattle.jc_api_framework.specs.Apdu.Queries.{while_received};

use jc_frames::reasons::ILLEGAL_USE;
use jc_memory::{ApduPhase, Memory, data_of, data_offset};
use jc_words::WordStore;
use jc_world::{NativeResult, StepExit, short};

// What is answered while data are received.
fn while_received<S: WordStore>(memory: &Memory<S>, answer: i16) -> Result<NativeResult, StepExit>
    ensures { Executes (while_received (phase_of memory.now) answer) memory.now
        (after_call result memory.now) }
{
    match memory.registers().apdu.phase {
        ApduPhase::Received(_) => Ok(short(answer)),
        _ => Err(StepExit::Throw(ILLEGAL_USE)),
    }
}

/// `APDU.getIncomingLength`: returns how many bytes of data the command has, modulo 2^16, once some were received.
pub(crate) fn apdu_get_incoming_length<S: WordStore>(
    memory: &Memory<S>,
) -> Result<NativeResult, StepExit>
    ensures { Executes (apdu_get_incoming_length memory.now (phase_of memory.now)) memory.now
        (after_call result memory.now) }
{
    let length = data_of(memory.command()).len() as u16;
    while_received(memory, length.cast_signed())
}

/// `APDU.getOffsetCdata`: returns where they begin in the buffer, once some were received.
pub(crate) fn apdu_get_offset_cdata<S: WordStore>(
    memory: &Memory<S>,
) -> Result<NativeResult, StepExit>
    ensures { Executes (apdu_get_offset_cdata memory.now (phase_of memory.now)) memory.now
        (after_call result memory.now) }
{
    let offset = data_offset(memory.command());
    while_received(memory, offset as i16)
}

// How far the answer has come, when this many bytes were sent and this many are left.
fn state_of_answer(sent: usize, left: u16) -> i16
    ensures { result ≡ state_of_answer sent left }
{
    if sent == 0 {
        4
    } else if left == 0 {
        6
    } else {
        5
    }
}

// How far the data of a command have come, of which `count` bytes were received.
fn state_of_data(command: &[u8], count: u16) -> i16
    ensures { result ≡ state_of_data command.now count }
{
    if usize::from(count) < data_of(command).len() {
        1
    } else {
        2
    }
}

// How far a command has come, when this many bytes were sent.
fn state_number(command: &[u8], phase: ApduPhase, sent: usize) -> i16
    ensures { result ≡ state_number command.now phase sent }
{
    match phase {
        ApduPhase::Waiting => 0,
        ApduPhase::Received(count) => state_of_data(command, count),
        ApduPhase::Outgoing(_) => 3,
        ApduPhase::Sending(left) => state_of_answer(sent, left),
    }
}

/// `APDU.getCurrentState`: returns how far the command has come.
pub(crate) fn apdu_get_current_state<S: WordStore>(
    memory: &Memory<S>,
) -> Result<NativeResult, StepExit>
    ensures { Executes (apdu_get_current_state memory.now (phase_of memory.now)) memory.now
        (after_call result memory.now) }
{
    let phase = memory.registers().apdu.phase;
    Ok(short(state_number(memory.command(), phase, memory.sent().len())))
}

/// The first answer where the protocol is T=1, as of an image that takes commands in the extended form, and the second where it is T=0.
pub(crate) fn by_protocol<S: WordStore>(
    one: i16,
    zero: i16,
    memory: &Memory<S>,
) -> Result<NativeResult, StepExit>
    requires up { memory.now.heap.down ≡ false }
    ensures { Executes (by_protocol memory.now one zero) memory.now
        (after_call result memory.now) }
{
    let answer = if memory.takes_extended_length() {
        one
    } else {
        zero
    };
    Ok(short(answer))
}
