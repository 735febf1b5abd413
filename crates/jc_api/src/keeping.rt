//! Form 6 of calls: the reference in a cell of the receiver is returned.
ghost use Rattle.std.specs.Prelude.{◌≡◌, ◌+◌, ◌<◌, false, IfOk};
ghost use Rattle.jc_memory.specs.Programs.{Executes};
ghost use Rattle.jc_world.specs.Instances.{IsInstanceWith};
ghost use Rattle.jc_world.specs.NativeCalls.{after_call};
ghost use Rattle.jc_api.specs.Exits.{plainly};
ghost use Rattle.jc_api.specs.Initializing.{instance_called};
ghost use Rattle.jc_api.specs.Keeping.{IsPersistentInstance, if_persistent, keeping_call, persistent_called};

use crate::initializing::instance_called;
use jc_frames::{Cell, FrameExit, Outcome};
use jc_linker::linked::Linked;
use jc_memory::Memory;
use jc_platform::names::PlatformClass;
use jc_transient::Ref;
use jc_words::WordStore;
use jc_world::{NativeResult, StepExit};

// The receiver of a call, an instance of the class with this many cells. Null throws, and anything else is a code fault.
fn receiver_called<S: WordStore>(
    class: PlatformClass,
    cells: u16,
    args: &[Cell],
    memory: &Memory<S>,
    linked: &Linked,
) -> Result<Ref, FrameExit>
    requires up { memory.now.heap.down ≡ false }
    ensures receiver { result ≡ instance_called class cells args.now linked.now memory.now }
    ensures there { IfOk result (λ own. IsInstanceWith memory.now own cells) }
    ensures plain { plainly result ≡ result }
{
    instance_called(class, cells, args, memory, linked)
}

// An instance with this many cells, if it is persistent.
fn if_persistent<S: WordStore>(own: Ref, cells: u16, memory: &Memory<S>) -> Result<Ref, FrameExit>
    requires up { memory.now.heap.down ≡ false }
    requires there { IsInstanceWith memory.now own cells }
    ensures own { result ≡ if_persistent memory.now own }
    ensures there { IfOk result (λ r. IsPersistentInstance memory.now r cells) }
    ensures plain { plainly result ≡ result }
{
    if memory.facts(own).event.is_none() {
        Ok(own)
    } else {
        Err(FrameExit::End(Outcome::Fault))
    }
}

/// The receiver of a call, a persistent instance of the class with this many cells. Null throws, and anything else is a code fault.
#[tactic(auto, unfolding(crate::specs::Keeping::persistent_called))]
pub fn persistent_called<S: WordStore>(
    class: PlatformClass,
    cells: u16,
    args: &[Cell],
    memory: &Memory<S>,
    linked: &Linked,
) -> Result<Ref, FrameExit>
    requires up { memory.now.heap.down ≡ false }
    ensures receiver { result ≡ persistent_called class cells args.now linked.now memory.now }
    ensures there { IfOk result (λ own. IsPersistentInstance memory.now own cells) }
    ensures plain { plainly result ≡ result }
{
    let own = receiver_called(class, cells, args, memory, linked)?;
    if_persistent(own, cells, memory)
}

/// Returns the reference in a cell of the receiver of a call, a persistent instance of the class. Null throws, and anything else is a code
/// fault.
pub fn kept_reference<S: WordStore>(
    class: PlatformClass,
    i: u16,
    args: &[Cell],
    memory: &Memory<S>,
    linked: &Linked,
) -> Result<NativeResult, StepExit>
    requires up { memory.now.heap.down ≡ false }
    requires cell { i + 1 < 65536 }
    ensures { Executes (keeping_call class i args.now linked.now memory.now) memory.now
        (after_call result memory.now) }
{
    let own = persistent_called(class, i + 1, args, memory, linked)?;
    let reference = memory.reference(own, i);
    Ok(NativeResult::ReturnValue(Cell::Reference(reference)))
}
