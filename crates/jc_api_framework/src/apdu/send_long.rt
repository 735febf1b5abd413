//! Elements of any array of bytes are sent.
ghost use Rattle.std.specs.Prelude.{◌≡◌, ◌≤◌, false};
ghost use Rattle.jc_memory.specs.declared.registers.ApduPhase.TheVariants.{Sending};
ghost use Rattle.jc_memory.specs.Programs.{Executes};
ghost use Rattle.jc_world.specs.Arrays.{IsInArray};
ghost use Rattle.jc_world.specs.NativeCalls.{after_call};
ghost use Rattle.jc_api_framework.specs.Apdu.{apdu_send_bytes_long, phase_of, send_elements_in_phase};

use crate::apdu::phase::set_phase;
use crate::apdu::send::is_too_much;
use jc_api::{MOST_ELEMENTS, counted_of};
use jc_frames::Cell;
use jc_frames::reasons::ILLEGAL_USE;
use jc_linker::linked::Linked;
use jc_memory::{ApduPhase, Memory};
use jc_words::WordStore;
use jc_world::{NativeResult, StepExit, Stretch};

// Sends elements of an array of bytes, while this many are left.
fn send_while_left<S: WordStore>(
    elements: Stretch,
    left: u16,
    memory: &mut Memory<S>,
) -> Result<NativeResult, StepExit>
    requires up { memory.old.heap.down ≡ false }
    requires there { IsInArray memory.old elements }
    requires few { elements.count ≤ MOST_ELEMENTS }
    ensures { Executes (send_elements_in_phase memory.old (Sending left) elements) memory.old
        (after_call result memory.new) }
{
    let count = elements.count;
    if is_too_much(memory, left, count.cast_signed()) {
        return Err(StepExit::Throw(ILLEGAL_USE));
    }
    memory.send_elements(elements.array, elements.start, count);
    set_phase(memory, ApduPhase::Sending(left - count));
    Ok(NativeResult::ReturnVoid)
}

// Sends elements of an array of bytes, after `setOutgoingLength`.
fn send_in_phase<S: WordStore>(
    elements: Stretch,
    memory: &mut Memory<S>,
) -> Result<NativeResult, StepExit>
    requires up { memory.old.heap.down ≡ false }
    requires there { IsInArray memory.old elements }
    requires few { elements.count ≤ MOST_ELEMENTS }
    ensures { Executes (send_elements_in_phase memory.old (phase_of memory.old) elements)
        memory.old (after_call result memory.new) }
{
    match memory.registers().apdu.phase {
        ApduPhase::Sending(left) => send_while_left(elements, left, memory),
        _ => Err(StepExit::Throw(ILLEGAL_USE)),
    }
}

/// `APDU.sendBytesLong`: sends elements of an array of bytes, after `setOutgoingLength`.
#[tactic(auto, unfolding(crate::specs::Apdu::apdu_send_bytes_long))]
#[inline(never)]
pub(crate) fn apdu_send_bytes_long<S: WordStore>(
    args: &[Cell],
    memory: &mut Memory<S>,
    linked: &Linked,
) -> Result<NativeResult, StepExit>
    requires up { memory.old.heap.down ≡ false }
    ensures { Executes (apdu_send_bytes_long args.now linked.now memory.old) memory.old
        (after_call result memory.new) }
{
    let elements = counted_of(1, args, memory, linked)?;
    send_in_phase(elements, memory)
}
