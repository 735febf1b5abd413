//! Arrays of shorts as arguments.
ghost use Rattle.std.specs.Prelude.{◌≡◌, Some, false, IfOk};
ghost use Rattle.jc_world.specs.Arrays.{within};
ghost use Rattle.jc_world.specs.Numbers.{not_negative};
ghost use Rattle.jc_api.specs.Arguments.{IsInShorts, IsShortsArgument, shorts_argument, two_shorts_of};

use jc_firewall::access::Access;
use jc_frames::{Cell, Exception, FrameExit, Outcome};
use jc_heap::{Facts, Kind};
use jc_linker::linked::Linked;
use jc_memory::Memory;
use jc_transient::Ref;
use jc_words::WordStore;
use jc_world::arguments::{reference_argument, short_argument};
use jc_world::contexts::allow;
use jc_world::{Stretch, not_negative};

// The header of the array of shorts that a reference argument names, and none for null.
#[tactic(auto, unfolding(crate::specs::Arguments::shorts_argument))]
fn shorts_argument<S: WordStore>(array: Ref, memory: &Memory<S>) -> Result<Option<Facts>, FrameExit>
    requires up { memory.now.heap.down ≡ false }
    ensures header { result ≡ shorts_argument memory.now array }
    ensures there { IfOk result (IsShortsArgument memory.now array) }
{
    if array.is_null() {
        return Ok(None);
    }
    let Some(facts) = memory.header(array) else {
        return Err(FrameExit::End(Outcome::Fault));
    };
    match facts.kind {
        Kind::ShortArray => Ok(Some(facts)),
        _ => Err(FrameExit::End(Outcome::Fault)),
    }
}

// What elements outside an array throw.
const OUTSIDE: FrameExit = FrameExit::Throw(Exception::ArrayIndexOutOfBoundsException);

// Two elements of an array of this length, from one on.
fn two_within(array: Ref, length: u16, start: i16) -> Result<Stretch, FrameExit>
    ensures { result ≡ within array length (not_negative start) (Some 2) }
{
    let Some(start) = not_negative(start) else {
        return Err(OUTSIDE);
    };
    if start + 2 <= length {
        Ok(Stretch {
            array,
            start,
            count: 2,
        })
    } else {
        Err(OUTSIDE)
    }
}

/// The two elements of an array of shorts by an offset, the first arguments: its kind, then null, the firewall and the
/// bounds.
#[tactic(auto, unfolding(jc_world::specs::Arrays::elements_of))]
pub fn two_shorts_of<S: WordStore>(
    args: &[Cell],
    memory: &Memory<S>,
    linked: &Linked,
) -> Result<Stretch, FrameExit>
    requires up { memory.now.heap.down ≡ false }
    ensures two { result ≡ two_shorts_of args.now linked.now memory.now }
    ensures there { IfOk result (IsInShorts memory.now) }
    ensures count { IfOk result (λ e. e.count ≡ 2) }
{
    let array = reference_argument(args, 0)?;
    let start = short_argument(args, 1)?;
    let Some(facts) = shorts_argument(array, memory)? else {
        return Err(FrameExit::Throw(Exception::NullPointerException));
    };
    allow(Access::ArrayElement, facts, memory, linked)?;
    two_within(array, facts.length, start)
}
