//! Filling arrays of bytes.
ghost use Rattle.std.specs.Prelude.{◌≡◌, ◌≤◌, false, replicate};
ghost use Rattle.jc_memory.specs.Programs.{Executes};
ghost use Rattle.jc_world.specs.Answers.{returns_short};
ghost use Rattle.jc_world.specs.Arrays.{IsInArray};
ghost use Rattle.jc_world.specs.NativeCalls.{after_call};
ghost use Rattle.jc_api.specs.Forms.{put_then};
ghost use Rattle.jc_api_framework.specs.Util.{end_of};

use crate::util::storing::store;
use jc_api::{MOST_ELEMENTS, SMALL_PIECE};
use jc_memory::Memory;
use jc_words::WordStore;
use jc_world::{NativeResult, StepExit, Stretch};

// Sets at most this many elements to a byte.
#[inline(never)]
fn fill_most<const MOST: usize, S: WordStore>(
    memory: &mut Memory<S>,
    to: Stretch,
    value: u8,
    lasting: bool,
) -> Result<NativeResult, StepExit>
    requires up { memory.old.heap.down ≡ false }
    requires to { IsInArray memory.old to }
    requires few { to.count ≤ MOST }
    requires most { MOST ≤ MOST_ELEMENTS }
    ensures { Executes (put_then lasting (replicate to.count value) memory.old to
        (returns_short (end_of to))) memory.old (after_call result memory.new) }
{
    let bytes = [value; MOST];
    store(memory, to, &bytes[..to.count as usize], lasting)
}

/// Sets elements to a byte: as one change, or one after another and each for good; returns the index after the last one.
pub(crate) fn fill<S: WordStore>(
    memory: &mut Memory<S>,
    to: Stretch,
    value: u8,
    lasting: bool,
) -> Result<NativeResult, StepExit>
    requires up { memory.old.heap.down ≡ false }
    requires to { IsInArray memory.old to }
    requires few { to.count ≤ MOST_ELEMENTS }
    ensures { Executes (put_then lasting (replicate to.count value) memory.old to
        (returns_short (end_of to))) memory.old (after_call result memory.new) }
{
    if to.count as usize <= SMALL_PIECE {
        return fill_most::<SMALL_PIECE, S>(memory, to, value, lasting);
    }
    fill_most::<MOST_ELEMENTS, S>(memory, to, value, lasting)
}
