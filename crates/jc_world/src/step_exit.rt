//! Why code does not go on.
ghost use Rattle.std.specs.Prelude.{◌≡◌};

use jc_frames::reasons::{BUFFER_FULL, NO_RESOURCE, NO_TRANSIENT_SPACE};
use jc_frames::{CodeFault, Exception, FrameExit, Outcome};
use jc_heap::{ChangeRefusal, HeapRefusal};
use jc_words::StoreDown;

/// Why code does not go on with its next instruction.
#[derive(Clone, Copy)]
pub enum StepExit {
    /// The runtime environment throws.
    Throw(Exception),
    /// The run ends.
    End(Outcome),
    /// The store refused a write. Only a power up follows.
    Down,
}

impl From<FrameExit> for StepExit {
    ghost use Rattle.std.specs.Prelude.{◌≡◌};
    ghost use Rattle.jc_world.specs.StepExit.{exit_of_frames};

    ghost from_gives = { λ s b. b ≡ exit_of_frames s };

    fn from(stop: FrameExit) -> Self {
        match stop {
            FrameExit::Throw(exception) => StepExit::Throw(exception),
            FrameExit::End(outcome) => StepExit::End(outcome),
        }
    }
}

impl From<CodeFault> for StepExit {
    ghost use Rattle.std.specs.Prelude.{◌≡◌};
    ghost use Rattle.jc_world.specs.declared.step_exit.StepExit.TheVariants.{End};
    ghost use Rattle.jc_frames.specs.declared.outcome.Outcome.TheVariants.{Fault};

    ghost from_gives = { λ _ b. b ≡ End Fault };

    fn from(_: CodeFault) -> Self {
        StepExit::End(Outcome::Fault)
    }
}

impl From<ChangeRefusal> for StepExit {
    ghost use Rattle.std.specs.Prelude.{◌≡◌};
    ghost use Rattle.jc_world.specs.StepExit.{exit_of_change};

    ghost from_gives = { λ r b. b ≡ exit_of_change r };

    fn from(refusal: ChangeRefusal) -> Self {
        match refusal {
            ChangeRefusal::StoreDown => StepExit::Down,
            ChangeRefusal::CommitFull => StepExit::Throw(BUFFER_FULL),
        }
    }
}

impl From<HeapRefusal> for StepExit {
    ghost use Rattle.std.specs.Prelude.{◌≡◌};
    ghost use Rattle.jc_world.specs.StepExit.{exit_of_creation};

    ghost from_gives = { λ r b. b ≡ exit_of_creation r };

    fn from(refusal: HeapRefusal) -> Self {
        match refusal {
            HeapRefusal::StoreDown => StepExit::Down,
            HeapRefusal::CommitFull => StepExit::Throw(BUFFER_FULL),
            HeapRefusal::HeapFull => StepExit::Throw(NO_RESOURCE),
            HeapRefusal::NoTransientSpace => StepExit::Throw(NO_TRANSIENT_SPACE),
        }
    }
}

impl From<StoreDown> for StepExit {
    ghost use Rattle.std.specs.Prelude.{◌≡◌};
    ghost use Rattle.jc_world.specs.declared.step_exit.StepExit.TheVariants.{Down};

    ghost from_gives = { λ _ b. b ≡ Down };

    fn from(_: StoreDown) -> Self {
        StepExit::Down
    }
}
