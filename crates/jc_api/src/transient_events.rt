//! The events that clear transient arrays, as new arrays of the code that runs may have them.
ghost use Rattle.std.specs.Prelude.{◌≡◌, false};
ghost use Rattle.jc_api.specs.Exits.{plainly};
ghost use Rattle.jc_api.specs.TransientEvents.{allowed_event};

use jc_firewall::access::Access;
use jc_firewall::decide::{Decision, decide};
use jc_firewall::subject::{Designation, Subject};
use jc_frames::FrameExit;
use jc_frames::reasons::ILLEGAL_TRANSIENT;
use jc_memory::Memory;
use jc_transient::ClearEvent;
use jc_words::WordStore;
use jc_world::contexts::{context_of, selected_context};

/// Whether the code that runs may use an array with this event, and so may make it; else ILLEGAL_TRANSIENT is thrown.
pub fn allow_making<S: WordStore>(event: ClearEvent, memory: &Memory<S>) -> Result<(), FrameExit>
    requires up { memory.now.heap.down ≡ false }
    ensures allowed { result ≡ allowed_event event memory.now }
    ensures plain { plainly result ≡ result }
{
    match event {
        ClearEvent::Reset => return Ok(()),
        ClearEvent::Deselect => {}
    }
    let active = context_of(memory.registers().active, memory);
    let selected = selected_context(memory);
    let own = Subject {
        owner: active,
        designation: Designation::Ordinary,
        has_shareable_interface: false,
        is_clear_on_deselect: true,
    };
    match decide(Access::ArrayElement, active, selected, own) {
        Decision::Allow => Ok(()),
        Decision::Switch(_) => Ok(()),
        Decision::Deny(_) => Err(FrameExit::Throw(ILLEGAL_TRANSIENT)),
    }
}
