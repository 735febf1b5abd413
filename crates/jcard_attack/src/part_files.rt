//! `jcard tear --join` and `jcard attack --join`: joining the texts of all parts of a sweep, which have cuts or faults of one command, or commands of
//! a script.
ghost use Rattle.std.specs.Prelude.{◌≡◌, ◌<◌, map, length};
ghost use Rattle.jcard_files.specs.Effects.{Does, Writes};
ghost use Rattle.jcard_attack.specs.PartFiles.{AreFaultsJoinedTo, AreLinesJoinedTo, AreNamedJoined, IsJoinedTo, IsJoining};
ghost use Rattle.jcard_sweeps.specs.Texts.{texts_of};

use crate::join::join_lines;
use crate::names::is_of_faults;
use crate::output::write_attack;
use jcard_files::disk::Disk;
use jcard_files::fault::Fault;
use jcard_outcomes::command_shares::join_shares;
use jcard_outcomes::sweep_head::bodies_of;
use jcard_outcomes::sweep_kind::kind_of;
use jcard_sweeps::join::{join_bodies, share_fault};
use jcard_sweeps::part_texts::{head_fault, texts_of};
use jcard_texts::streams::TextOut;
use std::alloc::Global;

/// Joins the texts in the files with these names, which state the parts of a sweep, in any order, to what one run reports of it.
pub fn join_files<'n, D: Disk, W: TextOut>(
    disk: &mut D,
    files: &[&'n str],
    out: &mut W,
) -> Result<(), Fault<'n>>
    requires { 0 < length files.now }
    ensures { Does D.does W.contents W.failures disk.old disk.new out.old out.new result
        (IsJoining (texts_of files.now)) }
{
    let texts = texts_of(disk, files)?;
    join_texts(disk.alloc(), files, &texts, out)
}

// Joins the texts of the files with these names, and writes the report.
fn join_texts<'n, W: TextOut>(
    alloc: Global,
    files: &[&'n str],
    texts: &[Vec<u8>],
    out: &mut W,
) -> Result<(), Fault<'n>>
    requires some { 0 < length texts.now }
    requires all { length files.now ≡ length texts.now }
    ensures { Writes W.contents W.failures out.old out.new result
        (IsJoinedTo (texts_of files.now) (map (λ t. t.items) texts.now)) }
{
    match bodies_of(alloc, texts) {
        Ok(bodies) => join_named(alloc, bodies.name, &bodies.texts, out),
        Err(cause) => Err(head_fault(files, texts, cause)),
    }
}

// Joins these texts, which have no heads, of the parts of the sweep with this name, and writes the report.
fn join_named<'n, W: TextOut>(
    alloc: Global,
    name: &[u8],
    texts: &[&[u8]],
    out: &mut W,
) -> Result<(), Fault<'n>>
    requires { 0 < length texts.now }
    ensures { Writes W.contents W.failures out.old out.new result
        (AreNamedJoined name.now (texts_of texts.now)) }
{
    if is_of_faults(name) {
        return join_faults(alloc, texts, out);
    }
    join_bodies(alloc, kind_of(name), texts, out)
}

// Joins the texts of parts that have faults of one command.
fn join_faults<'n, W: TextOut>(alloc: Global, texts: &[&[u8]], out: &mut W) -> Result<(), Fault<'n>>
    requires { 0 < length texts.now }
    ensures { Writes W.contents W.failures out.old out.new result
        (AreFaultsJoinedTo (texts_of texts.now)) }
{
    match join_shares(alloc, texts) {
        Ok(joined) => report_lines(alloc, &joined.text, texts.len(), out),
        Err(cause) => Err(share_fault(cause)),
    }
}

// Joins the lines of this many parts, one after the other.
fn report_lines<'n, W: TextOut>(
    alloc: Global,
    lines: &[u8],
    parts: usize,
    out: &mut W,
) -> Result<(), Fault<'n>>
    requires { 0 < parts }
    ensures { Writes W.contents W.failures out.old out.new result
        (AreLinesJoinedTo parts lines.now) }
{
    match join_lines(alloc, lines, parts) {
        Ok(joined) => write_attack(&joined.text, joined.is_accepted, out),
        Err(cause) => Err(share_fault(cause)),
    }
}
