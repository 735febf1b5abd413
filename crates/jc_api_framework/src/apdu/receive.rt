//! The command's data are received.
ghost use Rattle.std.specs.Prelude.{◌≡◌, ◌+◌, ◌-◌, ◌≤◌, false, length};
ghost use Rattle.jc_memory.specs.declared.registers.ApduPhase.TheVariants.{Received, Waiting};
ghost use Rattle.jc_memory.specs.Programs.{Executes};
ghost use Rattle.jc_world.specs.Objects.{short_argument};
ghost use Rattle.jc_world.specs.NativeCalls.{after_call, if_some};
ghost use Rattle.jc_api_framework.specs.Apdu.Buffer.{IsBuffer, buffer_length};
ghost use Rattle.jc_api_framework.specs.Apdu.{apdu_receive_bytes, apdu_set_incoming_and_receive, next_piece, receive_at, receive_from, receive_more, receive_in_phase, receive_piece};

use crate::apdu::buffer::{buffer, buffer_length};
use crate::apdu::phase::set_phase;
use arrayvec::ArrayVec;
use jc_api::{MOST_ELEMENTS, SMALL_PIECE};
use jc_frames::Cell;
use jc_frames::reasons::{BUFFER_BOUNDS, ILLEGAL_USE};
use jc_memory::{ApduPhase, Memory, data_of, data_offset};
use jc_transient::Ref;
use jc_words::WordStore;
use jc_world::arguments::short_argument;
use jc_world::{NativeResult, StepExit};

// The next of a command's data, of which `count` were received, as many as a buffer of this size takes from a place on.
fn next_piece(command: &[u8], count: u16, size: u16, at: u16) -> &[u8]
    requires { at ≤ size }
    ensures piece { result.now ≡ next_piece command.entry.now count size at }
    ensures within { at + length result.now ≤ size }
    ensures few { count + length result.now ≤ 65535 }
{
    let data = data_of(command);
    let rest = &data[usize::from(count).min(data.len())..];
    &rest[..usize::from(size - at).min(rest.len())]
}

// Receives this piece of the data, before which `count` bytes were received.
fn receive_piece<S: WordStore>(
    piece: &[u8],
    memory: &mut Memory<S>,
    buffer: Ref,
    count: u16,
    at: u16,
) -> Result<NativeResult, StepExit>
    requires up { memory.old.heap.down ≡ false }
    requires buffer { IsBuffer memory.old buffer }
    requires within { at + length piece.now ≤ buffer_length memory.old buffer }
    requires few { count + length piece.now ≤ 65535 }
    ensures { Executes (receive_piece memory.old buffer count at piece.now) memory.old
        (after_call result memory.new) }
{
    memory.set_bytes(buffer, at, piece)?;
    let received = piece.len() as u16;
    set_phase(memory, ApduPhase::Received(count + received));
    Ok(NativeResult::ReturnValue(Cell::Short(received.cast_signed())))
}

// Receives a piece of the data, which has at most this many bytes.
#[inline(never)]
fn receive_most<const MOST: usize, S: WordStore>(
    memory: &mut Memory<S>,
    buffer: Ref,
    count: u16,
    at: u16,
) -> Result<NativeResult, StepExit>
    requires up { memory.old.heap.down ≡ false }
    requires buffer { IsBuffer memory.old buffer }
    requires place { at ≤ buffer_length memory.old buffer }
    requires few { length (next_piece memory.old.command count (buffer_length memory.old buffer) at) ≤ MOST }
    requires most { MOST ≤ MOST_ELEMENTS }
    ensures { Executes (receive_at memory.old buffer count at) memory.old
        (after_call result memory.new) }
{
    let size = buffer_length(buffer, memory);
    let mut piece = ArrayVec::<u8, MOST>::new();
    let _ = piece.try_extend_from_slice(next_piece(memory.command(), count, size, at));
    receive_piece(piece.as_slice(), memory, buffer, count, at)
}

// Receives the next piece of the data, of which `count` bytes were received, into the buffer from a place on.
fn receive_at<S: WordStore>(
    memory: &mut Memory<S>,
    buffer: Ref,
    count: u16,
    at: u16,
) -> Result<NativeResult, StepExit>
    requires up { memory.old.heap.down ≡ false }
    requires buffer { IsBuffer memory.old buffer }
    requires place { at ≤ buffer_length memory.old buffer }
    ensures { Executes (receive_at memory.old buffer count at) memory.old
        (after_call result memory.new) }
{
    let size = buffer_length(buffer, memory);
    if next_piece(memory.command(), count, size, at).len() <= SMALL_PIECE {
        return receive_most::<SMALL_PIECE, S>(memory, buffer, count, at);
    }
    receive_most::<MOST_ELEMENTS, S>(memory, buffer, count, at)
}

// `setIncomingAndReceive` while nothing but the header was received.
fn receive_first<S: WordStore>(memory: &mut Memory<S>) -> Result<NativeResult, StepExit>
    requires up { memory.old.heap.down ≡ false }
    ensures { Executes (receive_in_phase memory.old Waiting) memory.old
        (after_call result memory.new) }
{
    let buffer = buffer(memory)?;
    let at = data_offset(memory.command()) as u16;
    receive_at(memory, buffer, 0, at)
}

/// `APDU.setIncomingAndReceive`: puts the first of the command's data into the buffer, as many as have room, and returns their number, once
/// and before anything is sent.
#[tactic(auto, unfolding(crate::specs::Apdu::apdu_set_incoming_and_receive))]
#[inline(never)]
pub(crate) fn apdu_set_incoming_and_receive<S: WordStore>(
    memory: &mut Memory<S>,
) -> Result<NativeResult, StepExit>
    requires up { memory.old.heap.down ≡ false }
    ensures { Executes (apdu_set_incoming_and_receive memory.old) memory.old
        (after_call result memory.new) }
{
    match memory.registers().apdu.phase {
        ApduPhase::Waiting => receive_first(memory),
        _ => Err(StepExit::Throw(ILLEGAL_USE)),
    }
}

// Receives the next piece into the buffer from a place on, where the buffer has this place.
fn receive_from<S: WordStore>(
    memory: &mut Memory<S>,
    count: u16,
    at: i16,
) -> Result<NativeResult, StepExit>
    requires up { memory.old.heap.down ≡ false }
    ensures { Executes (receive_from memory.old count at) memory.old
        (after_call result memory.new) }
{
    if at < 0 {
        return Err(StepExit::Throw(BUFFER_BOUNDS));
    }
    let at = at.cast_unsigned();
    let buffer = buffer(memory)?;
    if buffer_length(buffer, memory) <= at {
        return Err(StepExit::Throw(BUFFER_BOUNDS));
    }
    receive_at(memory, buffer, count, at)
}

// `receiveBytes` where `count` bytes of the data were received.
fn receive_more<S: WordStore>(
    memory: &mut Memory<S>,
    count: u16,
    at: i16,
) -> Result<NativeResult, StepExit>
    requires up { memory.old.heap.down ≡ false }
    ensures { Executes (receive_more memory.old (Received count) at) memory.old
        (after_call result memory.new) }
{
    if data_of(memory.command()).len() <= usize::from(count) {
        return Ok(NativeResult::ReturnValue(Cell::Short(0)));
    }
    receive_from(memory, count, at)
}

/// `APDU.receiveBytes`: puts the next of the command's data into the buffer from a place on, as many as have room, and returns their number: 0
/// where all were received.
#[tactic(auto, unfolding(crate::specs::Apdu::apdu_receive_bytes))]
#[inline(never)]
pub(crate) fn apdu_receive_bytes<S: WordStore>(
    args: &[Cell],
    memory: &mut Memory<S>,
) -> Result<NativeResult, StepExit>
    requires up { memory.old.heap.down ≡ false }
    ensures { Executes (if_some (short_argument args.now 1) (λ at. apdu_receive_bytes at memory.old))
        memory.old (after_call result memory.new) }
{
    let at = short_argument(args, 1)?;
    match memory.registers().apdu.phase {
        ApduPhase::Received(count) => receive_more(memory, count, at),
        _ => Err(StepExit::Throw(ILLEGAL_USE)),
    }
}
