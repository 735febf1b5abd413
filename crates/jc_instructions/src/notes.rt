//! Notes of exceptions, and of the frames that stood as a run was kept from going on.
ghost use Rattle.std.specs.Prelude.{◌≡◌, false};
ghost use Rattle.jc_heap.specs.Heap.{IsObject};
ghost use Rattle.jc_memory.specs.Cells.{IsHeaderOf};

use jc_frames::{Frames, Origin};
use jc_heap::Facts;
use jc_linker::linked::Linked;
use jc_memory::{Cause, MOST_SPOTS, Memory, Notes, Spot};
use jc_platform::names::PlatformClass;
use jc_transient::Ref;
use jc_words::WordStore;
use jc_world::objects::is_instance_of;

/// Where a method's frame stands.
pub fn spot_of(origin: Origin, place: u16) -> Spot {
    Spot {
        package_number: origin.package_number,
        method: origin.method,
        place,
    }
}

/// Notes the frames, the one that runs with its instruction at a place first.
pub fn note_frames(place: u16, frames: &Frames, notes: &Notes) {
    notes.spot(spot_of(frames.origin(), place));
    for number in 0..MOST_SPOTS {
        let Some(site) = frames.call_site(number) else {
            return;
        };
        notes.spot(spot_of(site.origin, site.place));
    }
}

// Whether exceptions of a class carry a reason.
fn has_reason(facts: Facts, linked: &Linked) -> bool {
    let platform = linked.platform();
    let checked = platform.class_word(PlatformClass::CardException);
    let unchecked = platform.class_word(PlatformClass::CardRuntimeException);
    facts.length > 0
        && (is_instance_of(facts, checked, linked) || is_instance_of(facts, unchecked, linked))
}

// The reason of an exception whose class has one.
fn reason_of<S: WordStore>(
    thrown: Ref,
    facts: Facts,
    memory: &Memory<S>,
    linked: &Linked,
) -> Option<i16>
    requires up { memory.now.heap.down ≡ false }
    requires there { IsObject memory.now.heap.now thrown }
    requires header { IsHeaderOf memory.now thrown facts }
{
    if facts.length > 0 && has_reason(facts, linked) {
        Some(memory.short(thrown, 0))
    } else {
        None
    }
}

/// Notes that an exception is thrown by the instruction at a place.
#[cold]
#[inline(never)]
pub(crate) fn note_exception<S: WordStore>(
    thrown: Ref,
    place: u16,
    frames: &Frames,
    memory: &Memory<S>,
    linked: &Linked,
)
    requires up { memory.now.heap.down ≡ false }
{
    let Some(facts) = memory.header(thrown) else {
        return;
    };
    let reason = reason_of(thrown, facts, memory, linked);
    let notes = memory.notes();
    notes.cause(Cause::Exception(facts.class(), reason));
    note_frames(place, frames, notes);
}
