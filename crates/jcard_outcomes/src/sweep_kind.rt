//! What the name of a sweep says after its checksum.
ghost use Rattle.std.specs.Prelude.{◌≡◌, ◌++◌, drop, OnOk};
ghost use Rattle.jcard_outcomes.specs.SweepKind.{kind_of, mark_of, marked};

use crate::recoveries::Depth;
use crate::rows::is_same;
use std::alloc::AllocError;

// How many digits the checksum has with which a name begins.
const CHECKSUM_DIGITS: usize = 40;

/// What the parts of a sweep have.
#[derive(Clone, Copy, Drop)]
pub enum SweepKind {
    /// Cuts of one command, with this many recoveries cut after each.
    Cuts(Depth),
    /// Commands of a script.
    Commands,
}

/// What the name of a sweep says.
pub fn kind_of(name: &[u8]) -> SweepKind
    ensures { result ≡ kind_of name.now }
{
    if name.len() < CHECKSUM_DIGITS {
        return SweepKind::Cuts(Depth::Zero);
    }
    marked(&name[CHECKSUM_DIGITS..])
}

// The sweep that has this mark.
fn marked(mark: &[u8]) -> SweepKind
    ensures { result ≡ marked mark.now }
{
    if is_same(mark, b" each") {
        return SweepKind::Commands;
    }
    if is_same(mark, b" recovery 1") {
        return SweepKind::Cuts(Depth::One);
    }
    if is_same(mark, b" recovery 2") {
        return SweepKind::Cuts(Depth::Two);
    }
    if is_same(mark, b" recovery 3") {
        return SweepKind::Cuts(Depth::Three);
    }
    SweepKind::Cuts(Depth::Zero)
}

/// Writes what a name says of such a sweep after its checksum.
pub fn push_mark(name: &mut Vec<u8>, kind: SweepKind) -> Result<(), AllocError>
    ensures { OnOk result (name.new.items ≡ name.old.items ++ mark_of kind) }
{
    name.extend_from_slice(mark_of(kind))
}

fn mark_of(kind: SweepKind) -> &'static [u8]
    ensures { result.now ≡ mark_of kind }
{
    match kind {
        SweepKind::Cuts(Depth::Zero) => b"",
        SweepKind::Cuts(Depth::One) => b" recovery 1",
        SweepKind::Cuts(Depth::Two) => b" recovery 2",
        SweepKind::Cuts(Depth::Three) => b" recovery 3",
        SweepKind::Commands => b" each",
    }
}
