//! A run whose words ask for more than its answers.
ghost use Rattle.std.specs.Prelude.{◌≡◌, Err, false, IfErr};
ghost use Rattle.jcard_arguments.specs.CommandLine.{text_of};
ghost use Rattle.jcard_files.specs.Effects.{ReadsFiles, UsesFiles};
ghost use Rattle.jcard_files.specs.Fault.{is_unwritten};
ghost use Rattle.jcard_commands.specs.RunOptions.{AreNamesRead, AreNamesUnread, AreOperands, IsCoverBegun, IsCovered, IsCoverWritten, ended_by};

use jcard_files::disk::Disk;
use jcard_files::fault::{Fault, FileKind};
use jcard_files::operand::Operand;
use jcard_files::reading::script_of;
use jcard_why::covers::Cover;
use std::alloc::AllocError;

/// The lines of the map with this name, if there is one.
pub(crate) fn names_of<'n, D: Disk>(
    disk: &mut D,
    map: Option<&'n str>,
) -> Result<Vec<u8>, Fault<'n>>
    ensures read { ReadsFiles D.does disk.old disk.new result
        (λ _. AreNamesRead (text_of map.entry)) (AreNamesUnread (text_of map.entry)) }
    ensures unwritten { IfErr result (λ fault. is_unwritten (Err fault) ≡ false) }
{
    match map {
        Some(file) => script_of(disk, file),
        None => Ok(Vec::new(disk.alloc())),
    }
}

/// Empties the file with this name, if there is one, before a run that reads these files, so that a file that is not to be written is refused
/// before anything runs.
pub(crate) fn begin_cover<'n, D: Disk>(
    disk: &mut D,
    file: Option<&'n str>,
    operands: &[Operand],
) -> Result<(), Fault<'n>>
    ensures begun { UsesFiles D.does disk.old disk.new result
        (IsCoverBegun operands.now (text_of file.entry)) }
    ensures unwritten { is_unwritten result ≡ false }
{
    match file {
        Some(file) => disk.write_text(file, operands, b""),
        None => Ok(()),
    }
}

/// Writes how often instructions were carried out to the file with this name, if there is one, after a run that read these files and ended so.
pub(crate) fn keep_cover<'n, D: Disk>(
    disk: &mut D,
    cover: &Cover,
    file: Option<&'n str>,
    operands: &[Operand],
    ran: Result<(), Fault<'n>>,
) -> Result<(), Fault<'n>>
    ensures kept { UsesFiles D.does disk.old disk.new result
        (IsCovered operands.now (text_of file.entry) ran.entry) }
    ensures unwritten { is_unwritten result ≡ is_unwritten ran.entry }
{
    match file {
        Some(file) => ended_by(ran, write_cover(disk, cover, file, operands)),
        None => ran,
    }
}

fn write_cover<'n, D: Disk>(
    disk: &mut D,
    cover: &Cover,
    file: &'n str,
    operands: &[Operand],
) -> Result<(), Fault<'n>>
    ensures written { UsesFiles D.does disk.old disk.new result
        (IsCoverWritten operands.now file.now) }
    ensures unwritten { is_unwritten result ≡ false }
{
    match cover.text() {
        Ok(text) => disk.write_text(file, operands, &text),
        Err(AllocError) => Err(Fault::NoMemory),
    }
}

// The end of a run after which something was done: its fault, or that of what was done.
fn ended_by<'n>(ran: Result<(), Fault<'n>>, done: Result<(), Fault<'n>>) -> Result<(), Fault<'n>>
    ensures { result ≡ ended_by ran.entry done.entry }
{
    ran?;
    done
}

/// The files that a run reads: the image, the script, and the map, or else the script once more.
pub(crate) fn operands_of<'n>(
    image: &'n str,
    script: &'n str,
    map: Option<&'n str>,
) -> [Operand<'n>; 3]
    ensures { AreOperands image.now script.now (text_of map.entry) result }
{
    let image = Operand {
        name: image,
        kind: FileKind::Image,
    };
    let script = Operand {
        name: script,
        kind: FileKind::Script,
    };
    match map {
        Some(name) => [
            image,
            script,
            Operand {
                name,
                kind: FileKind::Map,
            },
        ],
        None => [image, script, script],
    }
}
