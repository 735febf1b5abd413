//! Writing the report of cuts.
ghost use Rattle.jcard_files.specs.Effects.{Writes};
ghost use Rattle.jcard_sweeps.specs.Output.{IsReportTold};

use jcard_files::fault::Fault;
use jcard_texts::streams::{TextOut, write_all};

/// Writes a report, and ends as it says: whole, where each cut was all or nothing and no recovery made a difference.
pub fn write_report<'n, W: TextOut>(
    report: &[u8],
    is_whole: bool,
    out: &mut W,
) -> Result<(), Fault<'n>>
    ensures { Writes W.contents W.failures out.old out.new result (IsReportTold report.now is_whole) }
{
    match write_all(out, report) {
        Ok(()) if is_whole => Ok(()),
        Ok(()) => Err(Fault::NotAllOrNothing),
        Err(_) => Err(Fault::WriteFailed),
    }
}
