//! The files that the command reads, and is not to write over.
ghost use Rattle.std.specs.Prelude.{◌≡◌, ◌++◌, ◌∷◌, [], map, IfOk, OnErr, OnOk};
ghost use Rattle.jcard_test.specs.Sources.{files_named, name_of, names_in, names_of, paths_of};
ghost use Rattle.jcard_test.specs.Tests.{operands_named, rows_operand};

use jcard_files::fault::FileKind;
use jcard_files::operand::Operand;
use std::alloc::{AllocError, Global};

/// A file that the command reads, by its path, and what it is to the command.
#[derive(Drop)]
pub(crate) struct Source {
    pub(crate) path: String,
    pub(crate) kind: FileKind,
}

/// Notes a file that is to be read.
pub(crate) fn note(
    alloc: Global,
    path: &str,
    kind: FileKind,
    sources: &mut Vec<Source>,
) -> Result<(), AllocError>
    ensures noted { OnOk result (paths_of sources.new.items
        ≡ paths_of sources.old.items ++ path.now ∷ []) }
    ensures unnoted { OnErr result (sources.new.items ≡ sources.old.items) }
{
    let path = String::from_str(alloc, path)?;
    sources.push(Source { path, kind })?;
    Ok(())
}

/// The files that a command names, which are files of rows and a platform table, if there is one; and those that were noted.
#[tactic(auto, using(crate::proofs::RowTests::names_of_named))]
pub(crate) fn spared<'a>(
    alloc: Global,
    files: &[&'a str],
    table: Option<&'a str>,
    sources: &'a [Source],
) -> Result<Vec<Operand<'a>>, AllocError>
    ensures { IfOk result (λ operands. names_in operands.items
        ≡ files_named (names_of files.now) (name_of table.entry) ++ paths_of sources.entry.now) }
{
    let mut operands = named(alloc, files, table)?;
    add_sources(sources, &mut operands)?;
    Ok(operands)
}

// The files that a command names.
fn named<'a>(
    alloc: Global,
    files: &[&'a str],
    table: Option<&'a str>,
) -> Result<Vec<Operand<'a>>, AllocError>
    ensures { IfOk result (λ operands. operands.items ≡ operands_named files.now table.entry) }
{
    let mut operands = row_files(alloc, files)?;
    if let Some(name) = table {
        operands.push(Operand {
            name,
            kind: FileKind::Table,
        })?;
    }
    Ok(operands)
}

// These files, which are files of rows.
fn row_files<'a>(alloc: Global, files: &[&'a str]) -> Result<Vec<Operand<'a>>, AllocError>
    ensures { IfOk result (λ operands. operands.items ≡ map rows_operand files.now) }
{
    files
        .iter()
        .map(|name| Operand {
            name: *name,
            kind: FileKind::Rows,
        })
        .collect(alloc)
}

// Adds the files that were noted.
fn add_sources<'a>(sources: &'a [Source], operands: &mut Vec<Operand<'a>>) -> Result<(), AllocError>
    ensures { OnOk result (names_in operands.new.items
        ≡ names_in operands.old.items ++ paths_of sources.entry.now) }
{
    for source in sources {
        operands.push(Operand {
            name: source.path.as_str(),
            kind: source.kind,
        })?;
    }
    Ok(())
}
