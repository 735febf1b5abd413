//! The lines of files of rows.
ghost use Rattle.std.specs.Prelude.{◌≡◌, ◌<◌, ◌++◌, ◌∷◌, [], OnOk, List, length, ◌≤◌, IfOk, IfErr};
ghost use Rattle.std.specs.String.{string_bytes};
ghost use Rattle.jcard_files.specs.Effects.{ReadsFiles};
ghost use Rattle.jcard_files.specs.FileDeeds.{FileDeed};
ghost use Rattle.jcard_files.specs.Reading.{IsRead};
ghost use Rattle.jcard_test.specs.Sources.{AreNoted, ReadsNoted};
ghost use Rattle.jcard_test.specs.Tests.{AreIncluded, AreNoFileLines, IsFile, IsFileBehind, IsFileOf, IsFilePlace, IsIncludeFault, IsNoRowsText, IsNoText, IsNotIncluded, IsPlace, IsRowsText, IsTableBeside, table_of};
ghost use Rattle.jcard_test.specs.TextLines.{IsLineOf, IsUnrolled};
ghost use Rattle.jcard_test.specs.declared.numbered_line.Numbered.{Numbered};

use crate::line::{Line, read_line};
use crate::lines::{add_lines, beside, unroll};
use crate::named_table::named_table;
use crate::numbered_line::Numbered;
use crate::sources::{Source, note};
use crate::table_line::TableLine;
use jcard_files::disk::Disk;
use jcard_files::fault::{Fault, FileKind};
use jcard_files::reading::{script_of, text_of};
use jcard_script::script::BOUND;
use std::alloc::{AllocError, Global};

/// A file of rows: the text of the platform table that it names, and its lines.
#[derive(Drop)]
pub(crate) struct RowFile {
    pub(crate) table: Option<Vec<u8>>,
    pub(crate) lines: Vec<Numbered>,
}

/// A file of rows that was read, by its name.
#[derive(Drop)]
pub(crate) struct NamedFile<'n> {
    pub(crate) name: &'n str,
    pub(crate) file: RowFile,
}

/// The file of rows with this name: its lines, those of loops as often as they stand there, with the lines of each file that it includes in
/// the place of the line that names it. Such a file stands in the same folder, and has rows and comments alone; so does the platform table
/// that the first line can name. Each file is noted before it is read.
pub(crate) fn file_of<'n, D: Disk>(
    disk: &mut D,
    name: &'n str,
    sources: &mut Vec<Source>,
) -> Result<RowFile, Fault<'n>>
    ensures { ReadsNoted D.does disk.old disk.new sources.old.items sources.new.items result
        (λ file. IsFile name.now (table_of file) file.lines.items) (AreNoFileLines name.now) }
{
    let text = rows_text(disk, name, sources)?;
    unrolled(disk, name, text.as_str(), sources)
}

// The file with this name that has this text.
fn unrolled<'n, D: Disk>(
    disk: &mut D,
    name: &'n str,
    text: &str,
    sources: &mut Vec<Source>,
) -> Result<RowFile, Fault<'n>>
    ensures { ReadsNoted D.does disk.old disk.new sources.old.items sources.new.items result
        (λ file deeds. (own : List Numbered) × IsUnrolled text.now own
        × IsFileOf name.now own (table_of file) file.lines.items deeds)
        (λ fault _. IsNotIncluded name.now fault) }
{
    match unroll(disk.alloc(), text) {
        Ok(lines) => of_lines(disk, name, &lines, sources),
        Err(AllocError) => Err(Fault::NoMemory),
    }
}

// The file with this name that has these lines.
fn of_lines<'n, D: Disk>(
    disk: &mut D,
    name: &'n str,
    own: &[Numbered],
    sources: &mut Vec<Source>,
) -> Result<RowFile, Fault<'n>>
    ensures { ReadsNoted D.does disk.old disk.new sources.old.items sources.new.items result
        (λ file. IsFileOf name.now own.now (table_of file) file.lines.items)
        (λ fault _. IsNotIncluded name.now fault) }
{
    if let Some(line) = named_table(own) {
        return with_table(disk, name, line, sources);
    }
    let lines = with_included(disk, name, own, sources)?;
    Ok(RowFile { table: None, lines })
}

// The file with this name, one of whose lines names that platform table.
fn with_table<'n, D: Disk>(
    disk: &mut D,
    name: &'n str,
    line: TableLine,
    sources: &mut Vec<Source>,
) -> Result<RowFile, Fault<'n>>
    ensures { ReadsNoted D.does disk.old disk.new sources.old.items sources.new.items result
        (λ file. IsFileBehind name.now line.entry (table_of file) file.lines.items)
        (λ fault _. IsNotIncluded name.now fault) }
{
    let table = table_beside(disk, name, line.name, line.number, sources)?;
    let lines = with_included(disk, name, line.rest, sources)?;
    Ok(RowFile {
        table: Some(table),
        lines,
    })
}

// The text of the platform table that the line of this number in the file with this name names.
fn table_beside<'n, D: Disk>(
    disk: &mut D,
    name: &'n str,
    file: &str,
    number: usize,
    sources: &mut Vec<Source>,
) -> Result<Vec<u8>, Fault<'n>>
    ensures { ReadsNoted D.does disk.old disk.new sources.old.items sources.new.items result
        (λ text. IsTableBeside name.now file.now text.items)
        (λ fault _. IsNotIncluded name.now fault) }
{
    let Ok(table) = beside(disk.alloc(), name, file) else {
        return Err(Fault::NoMemory);
    };
    match table_text(disk, table.as_str(), sources) {
        Ok(text) => Ok(text),
        Err(fault) => Err(include_fault(name, number, fault)),
    }
}

// These lines of the file with this name, with those of the files that it includes.
fn with_included<'n, D: Disk>(
    disk: &mut D,
    name: &'n str,
    own: &[Numbered],
    sources: &mut Vec<Source>,
) -> Result<Vec<Numbered>, Fault<'n>>
    ensures { ReadsNoted D.does disk.old disk.new sources.old.items sources.new.items result
        (λ lines. AreIncluded name.now own.now lines.items)
        (λ fault _. IsNotIncluded name.now fault) }
{
    let mut lines = Vec::new(disk.alloc());
    for line in own {
        add_line(disk, name, line, &mut lines, sources)?;
    }
    Ok(lines)
}

// Adds a line of the file with this name; or, where it includes a file, the lines of that.
fn add_line<'n, D: Disk>(
    disk: &mut D,
    name: &'n str,
    line: &Numbered,
    lines: &mut Vec<Numbered>,
    sources: &mut Vec<Source>,
) -> Result<(), Fault<'n>>
    ensures { ReadsNoted D.does disk.old disk.new sources.old.items sources.new.items result
        (λ _ deeds. (here : List Numbered) × IsPlace name.now line.now here deeds
        × (lines.new.items ≡ lines.old.items ++ here)) (λ fault _. IsNotIncluded name.now fault) }
{
    if let Line::Include(file) = read_line(line.text.as_str()) {
        return add_file(disk, name, file, line.number, lines, sources);
    }
    match add_copy(disk.alloc(), line, lines) {
        Ok(()) => Ok(()),
        Err(AllocError) => Err(Fault::NoMemory),
    }
}

// Adds a line as it stands.
fn add_copy(alloc: Global, line: &Numbered, lines: &mut Vec<Numbered>) -> Result<(), AllocError>
    ensures { OnOk result ((same : Numbered)
        × IsLineOf line.now.number (string_bytes line.now.text) same
        × (lines.new.items ≡ lines.old.items ++ same ∷ [])) }
{
    lines.push(copy_of(alloc, line)?)?;
    Ok(())
}

fn copy_of(alloc: Global, line: &Numbered) -> Result<Numbered, AllocError>
    ensures { IfOk result (λ same. IsLineOf line.now.number (string_bytes line.now.text) same) }
{
    Ok(Numbered {
        number: line.number,
        text: String::from_str(alloc, line.text.as_str())?,
    })
}

// Adds the lines of a file that the line of this number in the file with this name includes.
fn add_file<'n, D: Disk>(
    disk: &mut D,
    name: &'n str,
    file: &str,
    number: usize,
    lines: &mut Vec<Numbered>,
    sources: &mut Vec<Source>,
) -> Result<(), Fault<'n>>
    requires { 0 < number }
    ensures { ReadsNoted D.does disk.old disk.new sources.old.items sources.new.items result
        (λ _ deeds. (here : List Numbered) × IsFilePlace name.now file.now number here deeds
        × (lines.new.items ≡ lines.old.items ++ here)) (λ fault _. IsNotIncluded name.now fault) }
{
    let Ok(path) = beside(disk.alloc(), name, file) else {
        return Err(Fault::NoMemory);
    };
    match rows_text(disk, path.as_str(), sources) {
        Ok(text) => match add_lines(disk.alloc(), text.as_str(), number, lines) {
            Ok(()) => Ok(()),
            Err(AllocError) => Err(Fault::NoMemory),
        },
        Err(fault) => Err(include_fault(name, number, fault)),
    }
}

// What it means that a file is not read that the line of this number in the file with this name includes.
fn include_fault<'n>(name: &'n str, number: usize, fault: Fault) -> Fault<'n>
    ensures untested { IsNotIncluded name.now result }
    ensures told { IsIncludeFault name.now number fault.entry result }
{
    match fault {
        Fault::NoMemory => Fault::NoMemory,
        _ => Fault::CannotInclude(name, number),
    }
}

// The text in the file with this name, which is noted before it is read.
fn rows_text<'n, D: Disk>(
    disk: &mut D,
    name: &'n str,
    sources: &mut Vec<Source>,
) -> Result<String, Fault<'n>>
    ensures { ReadsNoted D.does disk.old disk.new sources.old.items sources.new.items result
        (λ text. IsRowsText name.now (string_bytes text)) (AreNoFileLines name.now) }
{
    match note(disk.alloc(), name, FileKind::Rows, sources) {
        Ok(()) => read_rows(disk, name),
        Err(AllocError) => Err(Fault::NoMemory),
    }
}

// The platform table in the file with this name, which is noted before it is read.
fn table_text<'n, D: Disk>(
    disk: &mut D,
    name: &'n str,
    sources: &mut Vec<Source>,
) -> Result<Vec<u8>, Fault<'n>>
    ensures { (deeds : List FileDeed) × D.does disk.old deeds disk.new
        × AreNoted sources.old.items sources.new.items deeds
        × IfOk result (λ text. IsRead name.now text.items deeds) }
{
    match note(disk.alloc(), name, FileKind::Table, sources) {
        Ok(()) => text_of(disk, name),
        Err(AllocError) => Err(Fault::NoMemory),
    }
}

// What is read from the file with this name.
fn read_rows<'n, D: Disk>(disk: &mut D, name: &'n str) -> Result<String, Fault<'n>>
    ensures { ReadsFiles D.does disk.old disk.new result
        (λ text. IsRowsText name.now (string_bytes text)) (IsNoRowsText name.now) }
{
    let bytes = script_of(disk, name)?;
    text_of_bytes(name, bytes)
}

// These bytes of the file with this name as a text, which has no more than are read of a script.
fn text_of_bytes(name: &str, bytes: Vec<u8>) -> Result<String, Fault<'_>>
    ensures text { IfOk result (λ text. (string_bytes text ≡ bytes.items)
        × (length bytes.items ≤ 16777216)) }
    ensures refused { IfErr result (λ fault. IsNoText name.now bytes.items fault) }
{
    if bytes.len() > BOUND {
        return Err(Fault::ScriptTooLong);
    }
    match String::from_utf8(bytes) {
        Ok(text) => Ok(text),
        Err(_) => Err(Fault::CannotRead(name)),
    }
}
