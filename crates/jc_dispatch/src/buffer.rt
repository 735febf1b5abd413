//! The APDU buffer as the runtime environment fills it.
ghost use Rattle.std.specs.Prelude.{◌≡◌, ◌≤◌, false, length};
ghost use Rattle.jc_transient.specs.State.{buffer_size};
ghost use Rattle.jc_memory.specs.Programs.{Executes};
ghost use Rattle.jc_heap.specs.Completions.{Completed};
ghost use Rattle.jc_dispatch.specs.Select.{header_of};
ghost use Rattle.jc_dispatch.specs.Buffer.{apdu_buffer, apdu_object, buffer_fill, is_buffer};

use jc_environment::{APDU_BUFFER, APDU_OBJECT};
use jc_heap::{Facts, Kind};
use jc_memory::{Memory, header_length};
use jc_transient::{BUFFER_CELLS, Ref};
use jc_words::WordStore;

pub(crate) fn apdu_object<S: WordStore>(memory: &Memory<S>) -> Ref
    ensures { result ≡ apdu_object memory.now }
{
    memory.fixed(APDU_OBJECT)
}

pub(crate) fn apdu_buffer<S: WordStore>(memory: &Memory<S>) -> Ref
    ensures { result ≡ apdu_buffer memory.now }
{
    memory.fixed(APDU_BUFFER)
}

// A transient array of bytes with room for any command in the short form.
fn is_buffer(facts: Facts) -> bool
    ensures { result ≡ is_buffer facts }
{
    let of_bytes = match facts.kind {
        Kind::ByteArray => true,
        _ => false,
    };
    of_bytes && facts.event.is_some() && facts.length >= BUFFER_CELLS
}

/// The buffer holds these bytes and zeros after them.
#[tactic(auto, unfolding(crate::specs::Buffer::buffer_fill))]
#[inline(always)]
pub(crate) fn fill<S: WordStore>(bytes: &[u8], memory: &mut Memory<S>)
    requires up { memory.old.heap.down ≡ false }
    requires few { length bytes.now ≤ buffer_size }
    ensures { Executes (buffer_fill memory.old bytes.now) memory.old (Completed tt memory.new) }
{
    let buffer = apdu_buffer(memory);
    let Some(facts) = memory.header(buffer) else {
        return;
    };
    let Some(event) = facts.event else {
        return;
    };
    if is_buffer(facts) {
        let zeros = facts.length - bytes.len() as u16;
        memory.fill(buffer, event, bytes, zeros);
    }
}

/// The buffer holds the bytes of the command before its data, and zeros after them.
#[tactic(auto, unfolding(crate::specs::Buffer::buffer_fill))]
#[inline(always)]
pub(crate) fn fill_header<S: WordStore>(memory: &mut Memory<S>)
    requires up { memory.old.heap.down ≡ false }
    ensures { Executes (buffer_fill memory.old (header_of memory.old.command)) memory.old
        (Completed tt memory.new) }
{
    let buffer = apdu_buffer(memory);
    let Some(facts) = memory.header(buffer) else {
        return;
    };
    let Some(event) = facts.event else {
        return;
    };
    if is_buffer(facts) {
        let command = memory.command();
        let count = command.len().min(header_length(command)) as u16;
        memory.fill_from_command(buffer, event, count, facts.length - count);
    }
}
