//! The APDU buffer.
ghost use Rattle.std.specs.Prelude.{◌≡◌, false, IfOk};
ghost use Rattle.jc_frames.specs.Cell.{result_or_none};
ghost use Rattle.jc_api_framework.specs.Apdu.Buffer.{buffer_length, buffer_of, IsBuffer};

use jc_environment::APDU_BUFFER;
use jc_frames::CodeFault;
use jc_heap::Kind;
use jc_memory::Memory;
use jc_transient::{BUFFER_CELLS, MOST_BUFFER, Ref};
use jc_words::WordStore;

/// The APDU buffer. A heap that does not begin with one is a code fault.
#[tactic(auto, unfolding(crate::specs::Apdu::Buffer::buffer_of))]
#[inline(always)]
pub fn buffer<S: WordStore>(memory: &Memory<S>) -> Result<Ref, CodeFault>
    requires up { memory.now.heap.down ≡ false }
    ensures buffer { result_or_none result ≡ buffer_of memory.now }
    ensures there { IfOk result (IsBuffer memory.now) }
{
    let buffer = memory.fixed(APDU_BUFFER);
    let facts = memory.header(buffer).ok_or(CodeFault)?;
    let length = facts.length;
    match facts.kind {
        Kind::ByteArray if BUFFER_CELLS <= length && length <= MOST_BUFFER => Ok(buffer),
        _ => Err(CodeFault),
    }
}

/// How many bytes it has.
pub(crate) fn buffer_length<S: WordStore>(buffer: Ref, memory: &Memory<S>) -> u16
    requires up { memory.now.heap.down ≡ false }
    requires buffer { IsBuffer memory.now buffer }
    ensures { result ≡ buffer_length memory.now buffer }
{
    memory.facts(buffer).length
}
