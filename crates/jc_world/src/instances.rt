//! Instances of the platform's classes as arguments.
ghost use Rattle.std.specs.Prelude.{◌≡◌, false, IfOk};
ghost use Rattle.jc_world.specs.Instances.{instance_at, IsInstanceWith};

use crate::objects::object;
use jc_frames::{FrameExit, Outcome};
use jc_heap::{Facts, Kind};
use jc_memory::{FaultKind, Memory};
use jc_transient::Ref;
use jc_words::WordStore;

/// The header of the instance with this many cells that a reference names. Null throws, and anything else is
/// a code fault.
#[tactic(auto, unfolding(crate::specs::Instances::instance_at))]
pub fn instance<S: WordStore>(
    reference: Ref,
    cells: u16,
    memory: &Memory<S>,
) -> Result<Facts, FrameExit>
    requires up { memory.now.heap.down ≡ false }
    ensures header { result ≡ instance_at memory.now reference cells }
    ensures there { IfOk result (λ facts. IsInstanceWith memory.now reference cells) }
{
    let facts = object(reference, memory)?;
    match facts.kind {
        Kind::Instance if cells <= facts.length => Ok(facts),
        _ => {
            memory.notes().fault(FaultKind::WrongClass);
            Err(FrameExit::End(Outcome::Fault))
        }
    }
}
