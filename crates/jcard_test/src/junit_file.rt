//! The file of the report for build servers.
ghost use Rattle.std.specs.Prelude.{◌≡◌, false};
ghost use Rattle.jcard_files.specs.Effects.{UsesFiles};
ghost use Rattle.jcard_files.specs.Fault.{is_unwritten};
ghost use Rattle.jcard_test.specs.JunitFile.{IsBegun, IsKept, IsReportWritten, ended_by, verdict};
ghost use Rattle.jcard_test.specs.Sources.{name_of};

use jcard_files::disk::Disk;
use jcard_files::fault::Fault;
use jcard_files::operand::Operand;
use jcard_outcomes::junit::junit;
use jcard_outcomes::row_report::failed;
use jcard_outcomes::tested::Tested;
use std::alloc::AllocError;

/// The file of the report for build servers, if one is named, and the files that it is not to replace.
#[derive(Clone, Copy, Drop)]
pub(crate) struct JunitFile<'n, 'o> {
    pub(crate) name: Option<&'n str>,
    pub(crate) spared: &'o [Operand<'o>],
}

/// Empties the file, if one is named, so that one that is not to be written is refused before a row is answered.
pub(crate) fn begin_junit<'n, D: Disk>(
    disk: &mut D,
    file: JunitFile<'n, '_>,
) -> Result<(), Fault<'n>>
    ensures begun { UsesFiles D.does disk.old disk.new result
        (IsBegun file.entry.spared.now (name_of file.entry.name)) }
    ensures unwritten { is_unwritten result ≡ false }
{
    match file.name {
        Some(name) => disk.write_text(name, file.spared, b""),
        None => Ok(()),
    }
}

/// Writes the report over these, if a file is named for it, and says whether all rows passed.
pub(crate) fn keep_junit<'n, D: Disk>(
    disk: &mut D,
    tested: &[Tested],
    file: JunitFile<'n, '_>,
) -> Result<(), Fault<'n>>
    ensures kept { UsesFiles D.does disk.old disk.new result
        (IsKept file.entry.spared.now (name_of file.entry.name) tested.now) }
    ensures unwritten { is_unwritten result ≡ false }
{
    match file.name {
        Some(name) => ended_by(
            write_report(disk, tested, name, file.spared),
            verdict(tested),
        ),
        None => verdict(tested),
    }
}

// Writes the report over these to the file with this name, unless it is one of those.
fn write_report<'n, D: Disk>(
    disk: &mut D,
    tested: &[Tested],
    name: &'n str,
    spared: &[Operand],
) -> Result<(), Fault<'n>>
    ensures written { UsesFiles D.does disk.old disk.new result
        (IsReportWritten spared.now name.now tested.now) }
    ensures unwritten { is_unwritten result ≡ false }
{
    match junit(disk.alloc(), tested) {
        Ok(text) => disk.write_text(name, spared, &text),
        Err(AllocError) => Err(Fault::NoMemory),
    }
}

// The end of something that was done, and then of more.
fn ended_by<'n>(done: Result<(), Fault<'n>>, more: Result<(), Fault<'n>>) -> Result<(), Fault<'n>>
    ensures { result ≡ ended_by done.entry more.entry }
{
    done?;
    more
}

// Whether no row failed.
fn verdict<'n>(tested: &[Tested]) -> Result<(), Fault<'n>>
    ensures ended { result ≡ verdict tested.now }
    ensures unwritten { is_unwritten result ≡ false }
{
    if failed(tested) == 0 {
        return Ok(());
    }
    Err(Fault::RowsFailed)
}
