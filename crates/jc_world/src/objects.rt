//! Objects that references name.
ghost use Rattle.std.specs.Prelude.{◌≡◌, false, IfOk};
ghost use Rattle.jc_heap.specs.Heap.{IsObject};
ghost use Rattle.jc_memory.specs.Cells.{IsHeaderOf};
ghost use Rattle.jc_world.specs.Objects.{object_at, is_instance, is_instance_of, storable_of};

use crate::contexts::allow;
use jc_firewall::access::Access;
use jc_frames::{Exception, FrameExit, Outcome};
use jc_heap::{Facts, Kind};
use jc_linker::linked::Linked;
use jc_memory::{FaultKind, Memory};
use jc_transient::{ClassWord, Ref};
use jc_words::WordStore;

/// The header of the object that a reference names. Null throws; a reference to nothing is a code fault.
#[inline(always)]
#[tactic(auto, unfolding(crate::specs::Objects::object_at))]
pub fn object<S: WordStore>(reference: Ref, memory: &Memory<S>) -> Result<Facts, FrameExit>
    requires up { memory.now.heap.down ≡ false }
    ensures header { result ≡ object_at memory.now reference }
    ensures there { IfOk result (λ facts. IsObject memory.now.heap.now reference
        × IsHeaderOf memory.now reference facts) }
{
    if reference.is_null() {
        return Err(FrameExit::Throw(Exception::NullPointerException));
    }
    match memory.header(reference) {
        Some(facts) => Ok(facts),
        None => {
            memory.notes().fault(FaultKind::NoObject);
            Err(FrameExit::End(Outcome::Fault))
        }
    }
}

/// Whether an object with this header is no array.
#[inline(always)]
pub const fn is_instance(kind: Kind) -> bool
    ensures { result ≡ is_instance kind }
{
    match kind {
        Kind::Instance => true,
        _ => false,
    }
}

/// Whether an object with this header is an instance of the class, of one below it, or of one that
/// implements it.
#[inline(always)]
#[tactic(auto, using(crate::proofs::Below::below_same))]
pub fn is_instance_of(facts: Facts, class: ClassWord, linked: &Linked) -> bool
    ensures { result ≡ is_instance_of linked.now facts class }
{
    is_instance(facts.kind) && (facts.class() == class || linked.is_below(facts.class(), class))
}

/// Whether the firewall lets a reference be stored: null may be. A reference to nothing is a code fault.
#[inline(always)]
#[tactic(auto, unfolding(crate::specs::Objects::storable_of))]
pub fn allow_store<S: WordStore>(
    reference: Ref,
    memory: &Memory<S>,
    linked: &Linked,
) -> Result<(), FrameExit>
    requires up { memory.now.heap.down ≡ false }
    ensures { result ≡ storable_of linked.now memory.now reference }
{
    if reference.is_null() {
        return Ok(());
    }
    match memory.header(reference) {
        Some(facts) => allow(Access::StoreReference, facts, memory, linked),
        None => {
            memory.notes().fault(FaultKind::NoObject);
            Err(FrameExit::End(Outcome::Fault))
        }
    }
}
