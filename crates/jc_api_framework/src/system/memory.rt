//! `JCSystem.getAvailableMemory`.
ghost use Rattle.std.specs.Prelude.{◌≡◌, false};
ghost use Rattle.jc_memory.specs.Programs.{Executes};
ghost use Rattle.jc_world.specs.NativeCalls.{after_call};
ghost use Rattle.jc_api_framework.specs.System.Memory.{available_bytes, shorts_of_count};
ghost use Rattle.jc_api_framework.specs.System.Memory.{jc_system_get_available_memory, jc_system_get_available_memory_shorts};

use crate::system::transient::event_named;
use jc_api::two_shorts_of;
use jc_frames::{Cell, FrameExit};
use jc_linker::linked::Linked;
use jc_memory::Memory;
use jc_words::WordStore;
use jc_world::arguments::short_argument;
use jc_world::{NativeResult, StepExit, short};

// The number of persistent memory among the types of memory. An area has the number of the event that clears it.
const PERSISTENT: i16 = 0;

// How many bytes of a type of memory new objects can take.
fn available_bytes<S: WordStore>(kind: i16, memory: &Memory<S>) -> Result<u32, FrameExit>
    requires up { memory.now.heap.down ≡ false }
    ensures { result ≡ available_bytes memory.now kind }
{
    if kind == PERSISTENT {
        return Ok(2 * u32::from(memory.heap().free_words()));
    }
    let event = event_named(kind)?;
    Ok(u32::from(memory.heap().free_cells(event)))
}

/// `JCSystem.getAvailableMemory(byte)`: returns how many bytes of a type of memory new objects can take, at most 32767;
/// throws ILLEGAL_VALUE for another type.
#[tactic(auto, unfolding(crate::specs::System::Memory::jc_system_get_available_memory))]
pub(crate) fn jc_system_get_available_memory<S: WordStore>(
    args: &[Cell],
    memory: &Memory<S>,
) -> Result<NativeResult, StepExit>
    requires up { memory.now.heap.down ≡ false }
    ensures { Executes (jc_system_get_available_memory args.now memory.now) memory.now
        (after_call result memory.now) }
{
    let kind = short_argument(args, 0)?;
    let count = available_bytes(kind, memory)?;
    Ok(short(count.min(32767) as i16))
}

// A count of 32 bits as two shorts, the high one first.
fn shorts_of_count(count: u32) -> [u16; 2]
    ensures { result ≡ shorts_of_count count }
{
    [(count / 65536) as u16, (count % 65536) as u16]
}

/// `JCSystem.getAvailableMemory(short[], short, byte)`: sets two elements, as one change, to how many bytes of a type of
/// memory new objects can take; throws for null, then by the firewall, then for elements outside, then ILLEGAL_VALUE
/// for another type.
#[tactic(auto, unfolding(crate::specs::System::Memory::jc_system_get_available_memory_shorts))]
pub(crate) fn jc_system_get_available_memory_shorts<S: WordStore>(
    args: &[Cell],
    memory: &mut Memory<S>,
    linked: &Linked,
) -> Result<NativeResult, StepExit>
    requires up { memory.old.heap.down ≡ false }
    ensures { Executes (jc_system_get_available_memory_shorts args.now linked.now memory.old) memory.old
        (after_call result memory.new) }
{
    let kind = short_argument(args, 2)?;
    let two = two_shorts_of(args, memory, linked)?;
    let count = available_bytes(kind, memory)?;
    memory.set_run(two.array, two.start, &shorts_of_count(count))?;
    Ok(NativeResult::ReturnVoid)
}
