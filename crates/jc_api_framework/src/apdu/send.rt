//! The answer's data are sent.
ghost use Rattle.std.specs.Prelude.{◌≡◌, ◌≤◌, ◌+◌, false, IfOk, length};
ghost use Rattle.jc_memory.specs.declared.registers.ApduPhase.TheVariants.{Outgoing, Sending};
ghost use Rattle.jc_memory.specs.Programs.{Executes};
ghost use Rattle.jc_world.specs.Objects.{short_argument};
ghost use Rattle.jc_world.specs.NativeCalls.{after_call, if_some};
ghost use Rattle.jc_api_framework.specs.Apdu.{apdu_set_outgoing_and_send, apdu_send_bytes, send_in_phase, expected_of, is_too_much, length_of, most_unchained, set_length_in_phase, set_outgoing_in_phase};
ghost use Rattle.jc_api_framework.specs.Apdu.{apdu_set_outgoing_length, apdu_set_outgoing, apdu_set_outgoing_no_chaining, phase_of, piece_of, buffer_piece};

use crate::apdu::buffer::{buffer, buffer_length};
use crate::apdu::phase::set_phase;
use jc_frames::reasons::{BAD_LENGTH, BUFFER_BOUNDS, ILLEGAL_USE};
use jc_frames::{Cell, FrameExit};
use jc_memory::{ApduPhase, MOST_SENT, MOST_SHORT, Memory, most_answer};
use jc_words::WordStore;
use jc_world::arguments::short_argument;
use jc_world::{NativeResult, StepExit};

// How many bytes are sent in one block of T=1 at most, without the status word.
const MOST_IN_BLOCK: u16 = 252;

/// Bytes of the buffer, from one on.
#[derive(Clone, Copy)]
pub(crate) struct Piece {
    pub start: u16,
    pub count: u16,
}

// How many bytes the command expects, 32767 at most; as many as an answer to it has at most where it says 0 or nothing.
fn expected_of<S: WordStore>(memory: &Memory<S>) -> u16
    ensures { result ≡ expected_of memory.now }
{
    match memory.registers().apdu.expected {
        0 => most_answer(memory.command()),
        expected => expected.min(MOST_SENT as u16),
    }
}

// Begins to send, once, at most this many bytes.
#[inline(always)]
fn set_outgoing<S: WordStore>(most: u16, memory: &mut Memory<S>) -> Result<NativeResult, StepExit>
    ensures { Executes (set_outgoing_in_phase memory.old (phase_of memory.old) most) memory.old
        (after_call result memory.new) }
{
    match memory.registers().apdu.phase {
        ApduPhase::Waiting | ApduPhase::Received(_) => {
            let expected = expected_of(memory);
            set_phase(memory, ApduPhase::Outgoing(most));
            Ok(NativeResult::ReturnValue(Cell::Short(expected.cast_signed())))
        }
        _ => Err(StepExit::Throw(ILLEGAL_USE)),
    }
}

/// `APDU.setOutgoing`: begins to send, once; returns how many bytes the command expects.
#[tactic(auto, unfolding(crate::specs::Apdu::apdu_set_outgoing))]
#[inline(always)]
pub(crate) fn apdu_set_outgoing<S: WordStore>(
    memory: &mut Memory<S>,
) -> Result<NativeResult, StepExit>
    ensures { Executes (apdu_set_outgoing memory.old) memory.old (after_call result memory.new) }
{
    let most = most_answer(memory.command());
    set_outgoing(most, memory)
}

// How many bytes may be sent in one block.
fn most_unchained<S: WordStore>(memory: &Memory<S>) -> u16
    requires up { memory.now.heap.down ≡ false }
    ensures { result ≡ most_unchained memory.now }
{
    if memory.takes_extended_length() {
        MOST_IN_BLOCK
    } else {
        MOST_SHORT as u16
    }
}

/// `APDU.setOutgoingNoChaining`: the same, where what is sent has to fit into one block.
#[tactic(auto, unfolding(crate::specs::Apdu::apdu_set_outgoing_no_chaining))]
pub(crate) fn apdu_set_outgoing_no_chaining<S: WordStore>(
    memory: &mut Memory<S>,
) -> Result<NativeResult, StepExit>
    requires up { memory.old.heap.down ≡ false }
    ensures { Executes (apdu_set_outgoing_no_chaining memory.old) memory.old
        (after_call result memory.new) }
{
    let most = most_unchained(memory);
    set_outgoing(most, memory)
}

// How many bytes are going to be sent, of which there may be at most that number.
fn length_of(most: u16, count: i16) -> Result<u16, FrameExit>
    ensures { result ≡ length_of most count }
{
    if count < 0 {
        return Err(FrameExit::Throw(BAD_LENGTH));
    }
    let count = count.cast_unsigned();
    if count > most {
        return Err(FrameExit::Throw(BAD_LENGTH));
    }
    Ok(count)
}

// Says how many bytes are going to be sent, of which there may be at most that number.
#[inline(always)]
fn set_length<S: WordStore>(
    most: u16,
    count: i16,
    memory: &mut Memory<S>,
) -> Result<NativeResult, StepExit>
    ensures { Executes (set_length_in_phase memory.old (Outgoing most) count) memory.old
        (after_call result memory.new) }
{
    let count = length_of(most, count)?;
    set_phase(memory, ApduPhase::Sending(count));
    Ok(NativeResult::ReturnVoid)
}

/// `APDU.setOutgoingLength`: says how many bytes are going to be sent; once, after `setOutgoing`.
#[tactic(auto, unfolding(crate::specs::Apdu::apdu_set_outgoing_length))]
pub(crate) fn apdu_set_outgoing_length<S: WordStore>(
    count: i16,
    memory: &mut Memory<S>,
) -> Result<NativeResult, StepExit>
    ensures { Executes (apdu_set_outgoing_length count memory.old) memory.old
        (after_call result memory.new) }
{
    match memory.registers().apdu.phase {
        ApduPhase::Outgoing(most) => set_length(most, count, memory),
        _ => Err(StepExit::Throw(ILLEGAL_USE)),
    }
}

/// Whether these are more bytes than are left, or than an answer has.
pub(crate) fn is_too_much<S: WordStore>(memory: &Memory<S>, left: u16, count: i16) -> bool
    ensures { result ≡ is_too_much memory.now left count }
{
    if count < 0 {
        return false;
    }
    let count = count.cast_unsigned();
    count > left || memory.sent().len() + count as usize > MOST_SENT
}

// This many bytes of a buffer of this size, from one on.
fn buffer_piece(size: u16, start: i16, count: i16) -> Result<Piece, FrameExit>
    ensures { result ≡ buffer_piece size start count }
{
    if start < 0 || count < 0 {
        return Err(FrameExit::Throw(BUFFER_BOUNDS));
    }
    let (start, count) = (start.cast_unsigned(), count.cast_unsigned());
    if start + count > size {
        return Err(FrameExit::Throw(BUFFER_BOUNDS));
    }
    Ok(Piece { start, count })
}

// What may be sent of a buffer of this size, where this many bytes are left.
#[tactic(auto, unfolding(crate::specs::Apdu::piece_of))]
#[inline(always)]
fn piece_of<S: WordStore>(
    size: u16,
    start: i16,
    count: i16,
    left: u16,
    memory: &Memory<S>,
) -> Result<Piece, FrameExit>
    ensures piece { result ≡ piece_of memory.now size left start count }
    ensures within { IfOk result (λ piece. piece.start + piece.count ≤ size) }
    ensures left { IfOk result (λ piece. piece.count ≤ left) }
    ensures few { IfOk result (λ piece. length memory.now.sent + piece.count ≤ MOST_SENT) }
{
    if is_too_much(memory, left, count) {
        return Err(FrameExit::Throw(ILLEGAL_USE));
    }
    buffer_piece(size, start, count)
}

// Sends bytes of the buffer, while this many are left.
#[inline(always)]
fn send_in_phase<S: WordStore>(
    start: i16,
    count: i16,
    left: u16,
    memory: &mut Memory<S>,
) -> Result<NativeResult, StepExit>
    requires up { memory.old.heap.down ≡ false }
    ensures { Executes (send_in_phase memory.old (Sending left) start count) memory.old
        (after_call result memory.new) }
{
    let buffer = buffer(memory)?;
    let size = buffer_length(buffer, memory);
    let piece = piece_of(size, start, count, left, memory)?;
    memory.send_elements(buffer, piece.start, piece.count);
    set_phase(memory, ApduPhase::Sending(left - piece.count));
    Ok(NativeResult::ReturnVoid)
}

/// `APDU.sendBytes`: sends bytes of the buffer, after `setOutgoingLength`.
#[tactic(auto, unfolding(crate::specs::Apdu::apdu_send_bytes))]
#[inline(always)]
pub(crate) fn apdu_send_bytes<S: WordStore>(
    start: i16,
    count: i16,
    memory: &mut Memory<S>,
) -> Result<NativeResult, StepExit>
    requires up { memory.old.heap.down ≡ false }
    ensures { Executes (apdu_send_bytes start count memory.old) memory.old
        (after_call result memory.new) }
{
    match memory.registers().apdu.phase {
        ApduPhase::Sending(left) => send_in_phase(start, count, left, memory),
        _ => Err(StepExit::Throw(ILLEGAL_USE)),
    }
}

// `setOutgoing`, `setOutgoingLength` and `sendBytes` in a row.
#[tactic(auto, unfolding(crate::specs::Apdu::apdu_set_outgoing_and_send))]
#[inline(always)]
fn set_outgoing_and_send<S: WordStore>(
    start: i16,
    count: i16,
    memory: &mut Memory<S>,
) -> Result<NativeResult, StepExit>
    requires up { memory.old.heap.down ≡ false }
    ensures { Executes (apdu_set_outgoing_and_send start count memory.old) memory.old
        (after_call result memory.new) }
{
    apdu_set_outgoing(memory)?;
    apdu_set_outgoing_length(count, memory)?;
    apdu_send_bytes(start, count, memory)
}

/// `APDU.setOutgoingAndSend`: `setOutgoing`, `setOutgoingLength` and `sendBytes` in a row. What passed before
/// one of them throws stays.
#[inline(never)]
pub fn apdu_set_outgoing_and_send<S: WordStore>(
    args: &[Cell],
    memory: &mut Memory<S>,
) -> Result<NativeResult, StepExit>
    requires up { memory.old.heap.down ≡ false }
    ensures { Executes (if_some (short_argument args.now 1) (λ start. if_some
        (short_argument args.now 2) (λ count. apdu_set_outgoing_and_send start count memory.old)))
        memory.old (after_call result memory.new) }
{
    let start = short_argument(args, 1)?;
    let count = short_argument(args, 2)?;
    set_outgoing_and_send(start, count, memory)
}
