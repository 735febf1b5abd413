//! Why a command of a script was not swept.
ghost use Rattle.std.specs.Prelude.{◌≡◌};
ghost use Rattle.jcard_sweeps.specs.Faults.{told_run_fault};
ghost use Rattle.jcard_sweeps.specs.declared.sweep_fault.TearFault.TheVariants.{NoMemory};

use crate::runs::RunFault;
use jc_card::power_up::PowerFault;
use jcard_script::script::ScriptFault;
use std::alloc::AllocError;

/// What a command leaves is no whole image.
pub const DAMAGED: TearFault = TearFault::Probe(ScriptFault::PowerFault(PowerFault::BadPackage));

/// Why a command was not cut after each number of its writes.
#[derive(Clone, Copy, Drop)]
pub enum TearFault {
    NoMemory,
    /// The script, up to the command, was not carried out to its end.
    Script(ScriptFault),
    /// Nor was a recovery after it, or the probe.
    Probe(ScriptFault),
    /// The script cut the power itself, and the card is down at the command.
    Down,
    /// The command makes more writes than are counted.
    TooManyCuts,
}

impl From<AllocError> for TearFault {
    ghost from_gives = { λ _ fault. fault ≡ NoMemory };

    fn from(_: AllocError) -> Self {
        TearFault::NoMemory
    }
}

impl From<RunFault> for TearFault {
    ghost from_gives = { λ cause fault. fault ≡ told_run_fault cause };

    fn from(cause: RunFault) -> Self {
        match cause {
            RunFault::NoMemory => TearFault::NoMemory,
            RunFault::Script(fault) => TearFault::Script(fault),
        }
    }
}
