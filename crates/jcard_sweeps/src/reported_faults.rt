//! What is reported where commands were not cut.
ghost use Rattle.std.specs.Prelude.{◌≡◌, Err, false};
ghost use Rattle.jcard_files.specs.Fault.{is_unwritten};
ghost use Rattle.jcard_sweeps.specs.ReportedFaults.{IsFaultInMemory, IsProbeFaultInMemory, IsTearFault};
ghost use Rattle.jcard_sweeps.specs.Faults.{told_run_fault};

use crate::runs::RunFault;
use crate::script_fault::{Names, power_up_fault};
use crate::sweep_fault::TearFault;
use jcard_files::fault::Fault;
use jcard_script::script::ScriptFault;

/// What it means that a command was not cut.
pub fn tear_fault<'n>(names: Names<'n>, cause: TearFault) -> Fault<'n>
    ensures told { IsTearFault names.entry.image.now cause result }
    ensures unwritten { is_unwritten (Err result) ≡ false }
{
    match cause {
        TearFault::NoMemory => Fault::NoMemory,
        TearFault::Script(fault) => tear_script_fault(names, fault),
        TearFault::Probe(fault) => tear_probe_fault(names, fault),
        TearFault::Down => Fault::Down,
        TearFault::TooManyCuts => Fault::TooManyCuts,
    }
}

/// What it means that a script was not carried out in memory, where a text is read and written as long as there is memory.
#[tactic(auto, using(crate::proofs::PowerUpFaults::unpowered_unwritten))]
pub fn tear_script_fault<'n>(names: Names<'n>, fault: ScriptFault) -> Fault<'n>
    ensures told { IsFaultInMemory names.entry.image.now fault result }
    ensures unwritten { is_unwritten (Err result) ≡ false }
{
    match fault {
        ScriptFault::ReadFailed | ScriptFault::WriteFailed => Fault::NoMemory,
        ScriptFault::BadLine(n) => Fault::BadCommand(n),
        ScriptFault::TooLong => Fault::ScriptTooLong,
        ScriptFault::PowerFault(cause) => power_up_fault(names.image, cause),
    }
}

/// What it means that the lines of a probe were not.
pub fn tear_probe_fault<'n>(names: Names<'n>, fault: ScriptFault) -> Fault<'n>
    ensures told { IsProbeFaultInMemory names.entry.image.now fault result }
    ensures unwritten { is_unwritten (Err result) ≡ false }
{
    match fault {
        ScriptFault::BadLine(n) => Fault::BadProbeCommand(n),
        ScriptFault::TooLong => Fault::ProbeTooLong,
        ScriptFault::ReadFailed | ScriptFault::WriteFailed | ScriptFault::PowerFault(_) => {
            tear_script_fault(names, fault)
        }
    }
}

/// What it means that the whole script was not carried out.
pub(crate) fn run_fault<'n>(names: Names<'n>, cause: RunFault) -> Fault<'n>
    ensures told { IsTearFault names.entry.image.now (told_run_fault cause) result }
    ensures unwritten { is_unwritten (Err result) ≡ false }
{
    match cause {
        RunFault::NoMemory => Fault::NoMemory,
        RunFault::Script(fault) => tear_script_fault(names, fault),
    }
}
