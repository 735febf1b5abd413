//! Writing the report of faults.
ghost use Rattle.jcard_files.specs.Effects.{Writes};
ghost use Rattle.jcard_attack.specs.Output.{IsAttackTold};

use jcard_files::fault::Fault;
use jcard_texts::streams::{TextOut, write_all};

/// Writes a report of faults, and ends as it says: whether one was accepted.
pub(crate) fn write_attack<'n, W: TextOut>(
    report: &[u8],
    is_accepted: bool,
    out: &mut W,
) -> Result<(), Fault<'n>>
    ensures { Writes W.contents W.failures out.old out.new result (IsAttackTold report.now is_accepted) }
{
    match write_all(out, report) {
        Ok(()) if is_accepted => Err(Fault::FaultAccepted),
        Ok(()) => Ok(()),
        Err(_) => Err(Fault::WriteFailed),
    }
}
