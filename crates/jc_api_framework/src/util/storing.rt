//! Bytes that calls of `Util` put into arrays.
ghost use Rattle.std.specs.Prelude.{◌≡◌, false, length};
ghost use Rattle.jc_memory.specs.Changes.{nonatomic_store};
ghost use Rattle.jc_memory.specs.Programs.{Executes, bind};
ghost use Rattle.jc_world.specs.Answers.{returns_short};
ghost use Rattle.jc_world.specs.Arrays.{IsInArray};
ghost use Rattle.jc_world.specs.NativeCalls.{after_call};
ghost use Rattle.jc_api.specs.Forms.{put_then};
ghost use Rattle.jc_api_framework.specs.Util.{end_of};

use crate::util::end_of;
use jc_memory::Memory;
use jc_words::WordStore;
use jc_world::{NativeResult, StepExit, Stretch, put, short};

// Puts bytes into elements one after another, each for good; returns the index after the last one.
fn store_for_good<S: WordStore>(
    memory: &mut Memory<S>,
    to: Stretch,
    bytes: &[u8],
) -> Result<NativeResult, StepExit>
    requires up { memory.old.heap.down ≡ false }
    requires there { IsInArray memory.old to }
    requires all { length bytes.now ≡ to.count }
    ensures { Executes (bind (nonatomic_store memory.old to.array to.start bytes.now) memory.old
        (λ u v. returns_short (end_of to))) memory.old (after_call result memory.new) }
{
    memory.set_bytes_nonatomic(to.array, to.start, bytes)?;
    Ok(short(end_of(&to)))
}

/// Puts bytes into elements, as one change, or one after another and each for good; returns the index after the last one.
pub(crate) fn store<S: WordStore>(
    memory: &mut Memory<S>,
    to: Stretch,
    bytes: &[u8],
    lasting: bool,
) -> Result<NativeResult, StepExit>
    requires up { memory.old.heap.down ≡ false }
    requires there { IsInArray memory.old to }
    requires all { length bytes.now ≡ to.count }
    ensures { Executes (put_then lasting bytes.now memory.old to (returns_short (end_of to)))
        memory.old (after_call result memory.new) }
{
    if lasting {
        return store_for_good(memory, to, bytes);
    }
    put(memory, to, bytes)?;
    Ok(short(end_of(&to)))
}
