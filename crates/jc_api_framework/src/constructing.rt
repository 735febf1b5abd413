//! A form of calls: constructors that set the first cells of the object that they are called on.
ghost use Rattle.std.specs.Prelude.{◌≡◌, ◌<◌, false, length, Ok};
ghost use Rattle.jc_memory.specs.Programs.{Executes};
ghost use Rattle.jc_world.specs.Instances.{instance_at};
ghost use Rattle.jc_world.specs.NativeCalls.{after_call};
ghost use Rattle.jc_api.specs.Exits.{plainly};
ghost use Rattle.jc_api_framework.specs.Constructing.{constructing_call};

use jc_frames::{Cell, FrameExit};
use jc_heap::Facts;
use jc_memory::Memory;
use jc_transient::Ref;
use jc_words::WordStore;
use jc_world::arguments::reference_argument;
use jc_world::{NativeResult, StepExit, instance};

/// The header of a constructor's receiver, which is an instance with `cells` cells. Null throws, and anything else is a code fault.
pub(crate) fn new_instance<S: WordStore>(
    own: Ref,
    cells: u16,
    memory: &Memory<S>,
) -> Result<Facts, FrameExit>
    requires up { memory.now.heap.down ≡ false }
    ensures header { result ≡ instance_at memory.now own cells }
    ensures plain { plainly result ≡ result }
{
    instance(own, cells, memory)
}

/// Sets the first cells of a constructor's receiver to these words, as one change. Null throws; anything but an instance with as many
/// cells is a code fault. Where the transaction has no room for the cells it throws, and nothing is done.
pub(crate) fn construct<S: WordStore>(
    words: &[u16],
    args: &[Cell],
    memory: &mut Memory<S>,
) -> Result<NativeResult, StepExit>
    requires up { memory.old.heap.down ≡ false }
    requires few { length words.now < 65536 }
    ensures { Executes (constructing_call (Ok words.now) args.now memory.old) memory.old
        (after_call result memory.new) }
{
    let own = reference_argument(args, 0)?;
    let _facts = instance(own, words.len() as u16, memory)?;
    memory.set_run(own, 0, words)?;
    Ok(NativeResult::ReturnVoid)
}
