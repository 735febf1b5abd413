//! Joining the texts of all parts of a sweep, which have cuts of one command, or commands of a script.
ghost use Rattle.std.specs.Prelude.{◌≡◌, ◌<◌, Err, false, length};
ghost use Rattle.jcard_files.specs.Effects.{Writes};
ghost use Rattle.jcard_files.specs.Fault.{is_unwritten};
ghost use Rattle.jcard_sweeps.specs.Join.{AreBodiesJoinedTo, AreJoinedBy, AreSharesJoinedTo, told_join_fault, told_share_fault};
ghost use Rattle.jcard_sweeps.specs.Texts.{texts_of};

use crate::output::write_report;
use jcard_files::fault::Fault;
use jcard_outcomes::command_shares::join_shares;
use jcard_outcomes::join::join;
use jcard_outcomes::join_fault::JoinFault;
use jcard_outcomes::recoveries::Depth;
use jcard_outcomes::sweep_kind::SweepKind;
use jcard_texts::streams::TextOut;
use std::alloc::Global;

/// Joins these texts, which have no heads, of the parts of such a sweep, and writes the report.
pub fn join_bodies<'n, W: TextOut>(
    alloc: Global,
    kind: SweepKind,
    texts: &[&[u8]],
    out: &mut W,
) -> Result<(), Fault<'n>>
    requires { 0 < length texts.now }
    ensures { Writes W.contents W.failures out.old out.new result
        (AreJoinedBy kind (texts_of texts.now)) }
{
    match kind {
        SweepKind::Cuts(depth) => join_cuts(alloc, depth, texts, out),
        SweepKind::Commands => join_commands(alloc, texts, out),
    }
}

// Joins the texts of parts that have commands of a script.
fn join_commands<'n, W: TextOut>(
    alloc: Global,
    texts: &[&[u8]],
    out: &mut W,
) -> Result<(), Fault<'n>>
    ensures { Writes W.contents W.failures out.old out.new result
        (AreSharesJoinedTo (texts_of texts.now)) }
{
    match join_shares(alloc, texts) {
        Ok(joined) => write_report(&joined.text, joined.is_all_or_nothing, out),
        Err(cause) => Err(share_fault(cause)),
    }
}

// Joins the texts of parts that have cuts of one command, after each of which this many recoveries were cut.
fn join_cuts<'n, W: TextOut>(
    alloc: Global,
    depth: Depth,
    texts: &[&[u8]],
    out: &mut W,
) -> Result<(), Fault<'n>>
    requires { 0 < length texts.now }
    ensures { Writes W.contents W.failures out.old out.new result
        (AreBodiesJoinedTo depth (texts_of texts.now)) }
{
    match join(alloc, depth, texts) {
        Ok(joined) => write_report(&joined.text, joined.is_all_or_nothing, out),
        Err(cause) => Err(join_fault(cause)),
    }
}

/// What it means that texts are not all shares of the commands of a script.
pub fn share_fault<'n>(cause: JoinFault) -> Fault<'n>
    ensures told { result ≡ told_share_fault cause }
    ensures unwritten { is_unwritten (Err result) ≡ false }
{
    match cause {
        JoinFault::NoMemory => Fault::NoMemory,
        JoinFault::Missing(number) => Fault::ShareMissing(number),
        JoinFault::Twice(number) => Fault::ShareTwice(number),
        JoinFault::BadLine(number) | JoinFault::OtherSweep(number) => Fault::BadShare(number),
    }
}

// What it means that texts are not the parts of a sweep.
fn join_fault<'n>(cause: JoinFault) -> Fault<'n>
    ensures told { result ≡ told_join_fault cause }
    ensures unwritten { is_unwritten (Err result) ≡ false }
{
    match cause {
        JoinFault::NoMemory => Fault::NoMemory,
        JoinFault::Missing(number) => Fault::CutMissing(number),
        JoinFault::Twice(number) => Fault::CutTwice(number),
        JoinFault::BadLine(number) => Fault::BadCut(number),
        JoinFault::OtherSweep(number) => Fault::OtherSweep(number),
    }
}
