//! All files of rows of a command, which are read before one is written.
ghost use Rattle.std.specs.Prelude.{◌≡◌, ◌++◌, ◌∷◌, [], List, All, MatchResult, IfErr, OnOk};
ghost use Rattle.jcard_files.specs.FileDeeds.{FileDeed};
ghost use Rattle.jcard_test.specs.Sources.{IsReading, ReadsNoted, names_of, paths_of, paths_read};
ghost use Rattle.jcard_test.specs.Tests.{AreFilesRead, AreNoFileLines, IsFileRead, IsOneUnread};
ghost use Rattle.jcard_test.specs.declared.rows_file.NamedFile.{NamedFile};

use crate::rows_file::{NamedFile, file_of};
use crate::sources::Source;
use jcard_files::disk::Disk;
use jcard_files::fault::Fault;

/// The files of rows with these names, and each file that was read for them.
#[derive(Drop)]
pub(crate) struct FilesRead<'a, 'n> {
    pub(crate) names: &'a [&'n str],
    pub(crate) files: Vec<NamedFile<'n>>,
    pub(crate) sources: Vec<Source>,
}

/// The files with these names, with what they include and the platform tables that they name.
pub(crate) fn files_read<'a, 'n, D: Disk>(
    disk: &mut D,
    names: &'a [&'n str],
) -> Result<FilesRead<'a, 'n>, Fault<'n>>
    ensures { (deeds : List FileDeed) × D.does disk.old deeds disk.new × All IsReading deeds
        × MatchResult result (λ read. (read.names.now ≡ names.now)
        × AreFilesRead (names_of names.now) read.files.items deeds
        × (paths_of read.sources.items ≡ paths_read deeds))
        (λ fault. IsOneUnread (names_of names.now) fault deeds) }
{
    let mut sources = Vec::new(disk.alloc());
    let files = named_files(disk, names, &mut sources)?;
    Ok(FilesRead {
        names,
        files,
        sources,
    })
}

// The files with these names.
fn named_files<'n, D: Disk>(
    disk: &mut D,
    names: &[&'n str],
    sources: &mut Vec<Source>,
) -> Result<Vec<NamedFile<'n>>, Fault<'n>>
    ensures { ReadsNoted D.does disk.old disk.new sources.old.items sources.new.items result
        (λ files. AreFilesRead (names_of names.now) files.items)
        (IsOneUnread (names_of names.now)) }
{
    let mut files = Vec::new(disk.alloc());
    for name in names {
        add_named_file(disk, *name, &mut files, sources)?;
    }
    Ok(files)
}

// Adds the file with this name.
fn add_named_file<'n, D: Disk>(
    disk: &mut D,
    name: &'n str,
    files: &mut Vec<NamedFile<'n>>,
    sources: &mut Vec<Source>,
) -> Result<(), Fault<'n>>
    ensures { ReadsNoted D.does disk.old disk.new sources.old.items sources.new.items result
        (λ _ deeds. (file : NamedFile) × IsFileRead name.now file deeds
        × (files.new.items ≡ files.old.items ++ file ∷ [])) (AreNoFileLines name.now) }
{
    let file = file_of(disk, name, sources)?;
    push_file(files, NamedFile { name, file })
}

fn push_file<'n>(files: &mut Vec<NamedFile<'n>>, file: NamedFile<'n>) -> Result<(), Fault<'n>>
    ensures pushed { OnOk result (files.new.items ≡ files.old.items ++ file.entry ∷ []) }
    ensures refused { IfErr result (λ fault. fault ≡ Fault.NoMemory) }
{
    match files.push(file) {
        Ok(()) => Ok(()),
        Err(_) => Err(Fault::NoMemory),
    }
}
