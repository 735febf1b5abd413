//! The two arrays of a copy or a comparison.
ghost use Rattle.std.specs.Prelude.{◌≡◌, ◌≤◌, false, IfOk};
ghost use Rattle.jc_world.specs.Arrays.{IsInArray};
ghost use Rattle.jc_api.specs.Exits.{plainly};
ghost use Rattle.jc_api_framework.specs.Util.{Fits, named_pair};

use jc_api::{MOST_ELEMENTS, Pair, pair_arguments, pair_of};
use jc_frames::{Cell, FrameExit};
use jc_linker::linked::Linked;
use jc_memory::Memory;
use jc_words::WordStore;

/// The elements of both arrays that a call names, as many of the one as of the other.
#[inline(always)]
#[tactic(auto, unfolding(crate::specs::Util::named_pair))]
pub(crate) fn named_pair<S: WordStore>(
    args: &[Cell],
    memory: &Memory<S>,
    linked: &Linked,
) -> Result<Pair, FrameExit>
    requires up { memory.now.heap.down ≡ false }
    ensures pair { result ≡ named_pair args.now linked.now memory.now }
    ensures from { IfOk result (λ a. IsInArray memory.now a.from) }
    ensures to { IfOk result (λ a. IsInArray memory.now a.to) }
    ensures count { IfOk result (λ a. a.from.count ≡ a.to.count) }
    ensures few { IfOk result (λ a. a.from.count ≤ MOST_ELEMENTS) }
    ensures fits { IfOk result (Fits linked.now memory.now) }
    ensures plain { plainly result ≡ result }
{
    let named = pair_arguments(args)?;
    pair_of(named, memory, linked)
}
