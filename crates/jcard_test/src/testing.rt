//! `jcard test`: rows of files, answered by cards in memory.
ghost use Rattle.std.specs.Prelude.{◌≡◌, ◌++◌, ◌∷◌, [], IfErr, IfOk, MatchResult, OnOk, unwrap_or};
ghost use Rattle.jcard_files.specs.Effects.{Does, Writes};
ghost use Rattle.jcard_test.specs.Sources.{name_of, names_of, paths_of};
ghost use Rattle.jcard_test.specs.Tests.{AreAnswered, AreTested, IsOutcome, IsPlanFor, IsReported, IsTest, IsTestBeside, IsTestBy, IsTestOfRead, IsTestOn, IsTested, IsTold, IsUnanswered, IsUntested, table_of};
ghost use Rattle.jcard_outcomes.specs.declared.tested.Tested.{Tested};

use crate::answering::outcome_of;
use crate::cards::cards_of;
use crate::files_read::{FilesRead, files_read};
use crate::junit_file::{JunitFile, begin_junit, keep_junit};
use crate::numbered_line::Numbered;
use crate::plan::Plan;
use crate::planning::plan_of;
use crate::remarks::remark_on;
use crate::request::Asked;
use crate::rows_file::{NamedFile, RowFile};
use crate::sources::spared;
use crate::timer::Timer;
use jcard_files::disk::Disk;
use jcard_files::fault::Fault;
use jcard_files::remarks::Remarks;
use jcard_files::table_remarks::remark_on_table;
use jcard_outcomes::card_rows::CardRows;
use jcard_outcomes::row_report::report_of_rows;
use jcard_outcomes::tested::Tested;
use jcard_texts::streams::{TextOut, write_all};
use std::alloc::{AllocError, Global};

/// `jcard test`: says for each of these files how many of its rows hold, or the first that is not answered as it says, and how many
/// passed and failed in all. The cards are new ones in memory, as they are asked for, or as a file says. After it the report for build
/// servers is written to the file that is named for it, if there is one, unless the command reads that file. It is emptied once all files are
/// read, before any row is answered, so that one that is not to be written is refused then. Where a row that failed has no form, or a table is
/// none, it is remarked why.
pub fn test_files<'n, D: Disk, W: TextOut, T: Timer + Remarks>(
    disk: &mut D,
    files: &[&'n str],
    asked: Asked<'n>,
    out: &mut W,
    timer: &mut T,
) -> Result<(), Fault<'n>>
    ensures { Does D.does W.contents W.failures disk.old disk.new out.old out.new result
        (IsTest (names_of files.now) asked.entry) }
{
    let plan = plan_of(disk, asked)?;
    test_by(disk, files, &plan, asked, out, timer)
}

// Does so with cards as they are planned: all files are read before one is written.
fn test_by<'n, D: Disk, W: TextOut, T: Timer + Remarks>(
    disk: &mut D,
    names: &[&'n str],
    plan: &Plan,
    asked: Asked<'n>,
    out: &mut W,
    timer: &mut T,
) -> Result<(), Fault<'n>>
    ensures { Does D.does W.contents W.failures disk.old disk.new out.old out.new result
        (IsTestBy plan.now (names_of names.now) asked.entry) }
{
    let read = files_read(disk, names)?;
    test_read(disk, &read, plan, asked, out, timer)
}

// Does so with files that were read: the report for build servers replaces none of them.
fn test_read<'n, D: Disk, W: TextOut, T: Timer + Remarks>(
    disk: &mut D,
    read: &FilesRead<'_, 'n>,
    plan: &Plan,
    asked: Asked<'n>,
    out: &mut W,
    timer: &mut T,
) -> Result<(), Fault<'n>>
    ensures { Does D.does W.contents W.failures disk.old disk.new out.old out.new result
        (IsTestOfRead plan.now (names_of read.now.names.now) read.now.files.items
        (paths_of read.now.sources.items) asked.entry) }
{
    let Ok(operands) = spared(disk.alloc(), read.names, asked.table, &read.sources) else {
        return Err(Fault::NoMemory);
    };
    let junit = JunitFile {
        name: asked.junit,
        spared: &operands,
    };
    test_beside(disk, &read.files, plan, junit, out, timer)
}

// Empties the file of the report for build servers, and then answers the rows.
fn test_beside<'n, D: Disk, W: TextOut, T: Timer + Remarks>(
    disk: &mut D,
    files: &[NamedFile<'n>],
    plan: &Plan,
    junit: JunitFile<'n, '_>,
    out: &mut W,
    timer: &mut T,
) -> Result<(), Fault<'n>>
    ensures { Does D.does W.contents W.failures disk.old disk.new out.old out.new result
        (IsTestBeside plan.now files.now junit.entry.spared.now (name_of junit.entry.name)) }
{
    begin_junit(disk, junit)?;
    test_on(disk, files, plan, junit, out, timer)
}

// Answers the rows, and writes the reports.
fn test_on<'n, D: Disk, W: TextOut, T: Timer + Remarks>(
    disk: &mut D,
    files: &[NamedFile<'n>],
    plan: &Plan,
    junit: JunitFile<'n, '_>,
    out: &mut W,
    timer: &mut T,
) -> Result<(), Fault<'n>>
    ensures { Does D.does W.contents W.failures disk.old disk.new out.old out.new result
        (IsTestOn plan.now files.now junit.entry.spared.now (name_of junit.entry.name)) }
{
    let tested = tested_files(disk.alloc(), files, plan, timer)?;
    remark_on(disk.alloc(), &tested, timer);
    tell_tested(disk, &tested, junit, out)
}

// What comes of the rows of these files.
fn tested_files<'n, T: Timer + Remarks>(
    alloc: Global,
    files: &[NamedFile<'n>],
    plan: &Plan,
    timer: &mut T,
) -> Result<Vec<Tested<'n>>, Fault<'n>>
    ensures { MatchResult result (λ tested. AreTested plan.now files.now tested.items)
        (λ fault. IsUntested fault) }
{
    let mut tested = Vec::new(alloc);
    for file in files {
        add_tested(alloc, file, plan, timer, &mut tested)?;
    }
    Ok(tested)
}

// Adds what comes of the rows of a file.
fn add_tested<'n, T: Timer + Remarks>(
    alloc: Global,
    file: &NamedFile<'n>,
    plan: &Plan,
    timer: &mut T,
    tested: &mut Vec<Tested<'n>>,
) -> Result<(), Fault<'n>>
    ensures { MatchResult result (λ _. (one : Tested) × IsTested plan.now file.now one
        × (tested.new.items ≡ tested.old.items ++ one ∷ [])) (λ fault. IsUntested fault) }
{
    let one = tested_file(alloc, file, plan, timer)?;
    push_tested(tested, one)
}

fn push_tested<'n>(tested: &mut Vec<Tested<'n>>, one: Tested<'n>) -> Result<(), Fault<'n>>
    ensures pushed { OnOk result (tested.new.items ≡ tested.old.items ++ one.entry ∷ []) }
    ensures refused { IfErr result (λ fault. fault ≡ Fault.NoMemory) }
{
    match tested.push(one) {
        Ok(()) => Ok(()),
        Err(_) => Err(Fault::NoMemory),
    }
}

// What comes of the rows of a file: its cards have the platform table that it names.
fn tested_file<'n, T: Timer + Remarks>(
    alloc: Global,
    named: &NamedFile<'n>,
    plan: &Plan,
    timer: &mut T,
) -> Result<Tested<'n>, Fault<'n>>
    ensures { MatchResult result (λ tested. IsTested plan.now named.now tested)
        (λ fault. IsUntested fault) }
{
    match plan_for(alloc, plan, &named.file) {
        Ok(own) => tested_by(alloc, named.name, &named.file.lines, &own, timer),
        Err(AllocError) => Err(Fault::NoMemory),
    }
}

// The plan for the cards of a file.
fn plan_for(alloc: Global, plan: &Plan, file: &RowFile) -> Result<Plan, AllocError>
    ensures { IfOk result (λ own. IsPlanFor plan.now (table_of file.now) own) }
{
    Ok(Plan {
        table: Vec::from_slice(alloc, table_for(plan, file))?,
        extent: plan.extent,
        budget: plan.budget,
    })
}

// The platform table of the cards of a file: that which it names, or else the one that is planned.
fn table_for<'a>(plan: &'a Plan, file: &'a RowFile) -> &'a [u8]
    ensures { result.now ≡ unwrap_or (table_of file.entry.now) plan.entry.now.table.items }
{
    match &file.table {
        Some(table) => table.as_slice(),
        None => plan.table.as_slice(),
    }
}

// What comes of the rows that these lines of the file with this name make. Where their platform table is none, it is remarked why.
fn tested_by<'n, T: Timer + Remarks>(
    alloc: Global,
    name: &'n str,
    lines: &[Numbered],
    plan: &Plan,
    timer: &mut T,
) -> Result<Tested<'n>, Fault<'n>>
    ensures { MatchResult result (λ tested. (tested.name.now ≡ name.now)
        × AreAnswered plan.now lines.now tested) (λ fault. IsUntested fault) }
{
    match tested_lines(alloc, name, lines, plan, timer) {
        Ok(tested) => Ok(tested),
        Err(fault) => {
            remark_on_table(alloc, &plan.table, timer);
            Err(fault)
        }
    }
}

// What comes of them.
fn tested_lines<'n, T: Timer>(
    alloc: Global,
    name: &'n str,
    lines: &[Numbered],
    plan: &Plan,
    timer: &T,
) -> Result<Tested<'n>, Fault<'n>>
    ensures { MatchResult result (λ tested. (tested.name.now ≡ name.now)
        × AreAnswered plan.now lines.now tested) (λ fault. IsUntested fault) }
{
    match cards_of(alloc, plan.extent.count, lines) {
        Ok(cards) => tested_cards(alloc, name, cards, plan, timer),
        Err(AllocError) => Err(Fault::NoMemory),
    }
}

// What comes of the rows of these cards.
fn tested_cards<'n, T: Timer>(
    alloc: Global,
    name: &'n str,
    cards: Vec<CardRows>,
    plan: &Plan,
    timer: &T,
) -> Result<Tested<'n>, Fault<'n>>
    ensures { MatchResult result (λ tested. (tested.name.now ≡ name.now)
        × (tested.cards.items ≡ cards.items) × IsOutcome plan.now cards.items tested.outcome)
        (λ fault. IsUnanswered plan.now fault) }
{
    let mut times = Vec::new(alloc);
    let outcome = outcome_of(alloc, plan, &cards, timer, &mut times)?;
    Ok(Tested {
        name,
        cards,
        times,
        outcome,
    })
}

// Writes the report, and then that for build servers.
fn tell_tested<'n, D: Disk, W: TextOut>(
    disk: &mut D,
    tested: &[Tested],
    junit: JunitFile<'n, '_>,
    out: &mut W,
) -> Result<(), Fault<'n>>
    ensures { Does D.does W.contents W.failures disk.old disk.new out.old out.new result
        (IsTold junit.entry.spared.now (name_of junit.entry.name) tested.now) }
{
    tell(disk.alloc(), tested, out)?;
    keep_junit(disk, tested, junit)
}

// Writes the report.
fn tell<'n, W: TextOut>(alloc: Global, tested: &[Tested], out: &mut W) -> Result<(), Fault<'n>>
    ensures { Writes W.contents W.failures out.old out.new result (IsReported tested.now) }
{
    let Ok(text) = report_of_rows(alloc, tested) else {
        return Err(Fault::NoMemory);
    };
    match write_all(out, &text) {
        Ok(()) => Ok(()),
        Err(_) => Err(Fault::WriteFailed),
    }
}
