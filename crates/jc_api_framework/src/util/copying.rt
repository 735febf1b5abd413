//! Copying between arrays of bytes.
ghost use Rattle.std.specs.Prelude.{◌≡◌, ◌≤◌, false};
ghost use Rattle.jc_memory.specs.Programs.{Executes};
ghost use Rattle.jc_world.specs.Answers.{returns_short};
ghost use Rattle.jc_world.specs.Arrays.{IsInArray, bytes_in};
ghost use Rattle.jc_world.specs.NativeCalls.{after_call};
ghost use Rattle.jc_api.specs.Forms.{put_then};
ghost use Rattle.jc_api_framework.specs.Util.{end_of};

use crate::util::storing::store;
use jc_api::{MOST_ELEMENTS, SMALL_PIECE};
use jc_memory::Memory;
use jc_transient::USUAL_CELLS;
use jc_words::WordStore;
use jc_world::{NativeResult, StepExit, Stretch};

// How many elements a transient array usually has at most.
const USUAL_TRANSIENT: usize = USUAL_CELLS as usize;

// Copies at most this many bytes.
#[inline(never)]
fn copy_most<const MOST: usize, S: WordStore>(
    memory: &mut Memory<S>,
    from: Stretch,
    to: Stretch,
    lasting: bool,
) -> Result<NativeResult, StepExit>
    requires up { memory.old.heap.down ≡ false }
    requires from { IsInArray memory.old from }
    requires to { IsInArray memory.old to }
    requires all { from.count ≡ to.count }
    requires few { from.count ≤ MOST }
    requires most { MOST ≤ MOST_ELEMENTS }
    ensures { Executes (put_then lasting (bytes_in memory.old from) memory.old to
        (returns_short (end_of to))) memory.old (after_call result memory.new) }
{
    let mut buffer = [0; MOST];
    let bytes = &mut buffer[..from.count as usize];
    memory.bytes(from.array, from.start, bytes);
    store(memory, to, bytes, lasting)
}

/// Copies bytes as if they were first copied elsewhere: as one change, or one after another and each for good; returns the
/// index after the last one written.
pub(crate) fn copy<S: WordStore>(
    memory: &mut Memory<S>,
    from: Stretch,
    to: Stretch,
    lasting: bool,
) -> Result<NativeResult, StepExit>
    requires up { memory.old.heap.down ≡ false }
    requires from { IsInArray memory.old from }
    requires to { IsInArray memory.old to }
    requires all { from.count ≡ to.count }
    requires few { from.count ≤ MOST_ELEMENTS }
    ensures { Executes (put_then lasting (bytes_in memory.old from) memory.old to
        (returns_short (end_of to))) memory.old (after_call result memory.new) }
{
    let count = from.count as usize;
    if count <= SMALL_PIECE {
        return copy_most::<SMALL_PIECE, S>(memory, from, to, lasting);
    }
    if count <= USUAL_TRANSIENT {
        return copy_most::<USUAL_TRANSIENT, S>(memory, from, to, lasting);
    }
    copy_most::<MOST_ELEMENTS, S>(memory, from, to, lasting)
}
