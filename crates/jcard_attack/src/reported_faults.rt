//! What is reported where commands were not attacked.
ghost use Rattle.std.specs.Prelude.{◌≡◌, Err, false};
ghost use Rattle.jcard_files.specs.Fault.{is_unwritten};
ghost use Rattle.jcard_attack.specs.ReportedFaults.{IsAttackFault};

use crate::aftermaths::AttackFault;
use jcard_files::fault::Fault;
use jcard_sweeps::reported_faults::{tear_probe_fault, tear_script_fault};
use jcard_sweeps::script_fault::Names;

/// What it means that a command was not attacked.
pub(crate) fn attack_fault<'n>(names: Names<'n>, cause: AttackFault) -> Fault<'n>
    ensures told { IsAttackFault names.entry.image.now cause result }
    ensures unwritten { is_unwritten (Err result) ≡ false }
{
    match cause {
        AttackFault::NoMemory => Fault::NoMemory,
        AttackFault::Script(fault) => tear_script_fault(names, fault),
        AttackFault::Probe(fault) => tear_probe_fault(names, fault),
        AttackFault::Down => Fault::Down,
        AttackFault::TooManyInstructions => Fault::TooManyInstructions,
    }
}
