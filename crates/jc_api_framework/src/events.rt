//! `MultiSelectable` and `AppletEvent`: interfaces that classes of applets implement (API specification).
ghost use Rattle.std.specs.Prelude.{◌≡◌};
ghost use Rattle.jc_memory.specs.Programs.{Executes};
ghost use Rattle.jc_world.specs.NativeCalls.{after_call};
ghost use Rattle.jc_api_framework.specs.Events.{event_call};

use jc_frames::Outcome;
use jc_memory::Memory;
use jc_platform::names::EventsMethod;
use jc_words::WordStore;
use jc_world::{NativeResult, StepExit};

/// A call of a method of an interface that the platform calls and no class of its own has: a code fault.
#[tactic(auto, unfolding(crate::specs::Events::event_call))]
pub fn call_event<S: WordStore>(
    method: EventsMethod,
    memory: &Memory<S>,
) -> Result<NativeResult, StepExit>
    ensures { Executes (event_call method) memory.now (after_call result memory.now) }
{
    match method {
        EventsMethod::MultiSelectableSelect
        | EventsMethod::MultiSelectableDeselect
        | EventsMethod::AppletEventUninstall => Err(StepExit::End(Outcome::Fault)),
    }
}
