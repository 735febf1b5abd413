//! Runs of words at or above the top, which have no meaning until the top moves.
ghost use Rattle.std.specs.Prelude.{◌+◌, ◌++◌, length, replicate, OnOk, OnErr};
ghost use Rattle.jc_heap.specs.Fresh.{IsFree, KeepsBelow, Fills, IsTornFresh};

use jc_commit::Journal;
use jc_words::{StoreDown, WordStore};

// Writes words from an address on.
pub(crate) fn write_run<S: WordStore>(
    journal: &mut Journal<S>,
    at: u16,
    words: &[u16],
) -> Result<(), StoreDown>
    requires { IsFree at (length words.now) journal.old }
    ensures below { KeepsBelow at journal.old journal.new }
    ensures done { OnOk result (Fills at words.now journal.old journal.new) }
    ensures stopped { OnErr result (IsTornFresh (length words.now) journal.old journal.new) }
{
    for (k, word) in words.iter().enumerate() {
        journal.write_fresh(at + k as u16, *word)?;
    }
    Ok(())
}

// Writes `count` zeros from an address on.
pub(crate) fn write_zeros<S: WordStore>(
    journal: &mut Journal<S>,
    at: u16,
    count: u16,
) -> Result<(), StoreDown>
    requires { IsFree at count journal.old }
    ensures below { KeepsBelow at journal.old journal.new }
    ensures done { OnOk result (Fills at (replicate count 0) journal.old journal.new) }
    ensures stopped { OnErr result (IsTornFresh count journal.old journal.new) }
{
    for k in 0..count {
        journal.write_fresh(at + k, 0)?;
    }
    Ok(())
}

// Writes the words of a header and `zeros` zeros after them.
pub(crate) fn write_record<S: WordStore>(
    journal: &mut Journal<S>,
    at: u16,
    header: &[u16],
    zeros: u16,
) -> Result<(), StoreDown>
    requires { IsFree at (length header.now + zeros) journal.old }
    ensures below { KeepsBelow at journal.old journal.new }
    ensures done { OnOk result (Fills at (header.now ++ replicate zeros 0) journal.old
        journal.new) }
    ensures stopped { OnErr result (IsTornFresh (length header.now + zeros) journal.old journal.new) }
{
    write_run(journal, at, header)?;
    write_zeros(journal, at + header.len() as u16, zeros)?;
    Ok(())
}
