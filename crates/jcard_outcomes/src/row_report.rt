//! What is reported of files of rows: a line for each, and how many rows passed and failed.
ghost use Rattle.std.specs.Prelude.{◌≡◌, ◌++◌, min, IfOk, OnOk};
ghost use Rattle.jcard_outcomes.specs.RowReport.{failed_of, failure_text, hold_text, holds_text, is_failed, lines_text, passed_in, passed_of, report_text, row_text, rows_text, tested_text, told_text, total_text};

use crate::tested::{Failure, Outcome, Tested};
use jcard_texts::numbers::push_number;
use std::alloc::{AllocError, Global};

/// The text that says what came of files: a line for each, and one for all.
pub fn report_of_rows(alloc: Global, tested: &[Tested]) -> Result<Vec<u8>, AllocError>
    ensures { IfOk result (λ text. text.items ≡ report_text tested.now) }
{
    let mut text = Vec::new(alloc);
    push_lines(&mut text, tested)?;
    push_total(&mut text, passed(tested), failed(tested))?;
    Ok(text)
}

/// How many files have no row, or one that is not answered as it says.
pub fn failed(tested: &[Tested]) -> usize
    ensures { result ≡ failed_of tested.now }
{
    tested
        .iter()
        .filter(|file| is_failed(&file.outcome))
        .count()
}

/// Whether a file failed.
pub(crate) fn is_failed(outcome: &Outcome) -> bool
    ensures { result ≡ is_failed outcome.now }
{
    matches!(outcome, Outcome::Failed(_) | Outcome::NoRow)
}

// How many rows hold, up to the first of each file that does not.
fn passed(tested: &[Tested]) -> usize
    ensures { result ≡ min (passed_of tested.now) usize.MAX }
{
    let mut passed = 0usize;
    for file in tested {
        passed = passed.saturating_add(passed_in(&file.outcome));
    }
    passed
}

fn passed_in(outcome: &Outcome) -> usize
    ensures { result ≡ passed_in outcome.now }
{
    match outcome {
        Outcome::NoRow => 0,
        Outcome::Held(rows) => *rows,
        Outcome::Failed(failure) => failure.passed,
    }
}

// Writes the lines of all files after a text.
fn push_lines(text: &mut Vec<u8>, tested: &[Tested]) -> Result<(), AllocError>
    ensures { OnOk result (text.new.items ≡ text.old.items ++ lines_text tested.now) }
{
    for file in tested {
        push_tested(text, file)?;
    }
    Ok(())
}

// Writes the line of a file.
fn push_tested(text: &mut Vec<u8>, file: &Tested) -> Result<(), AllocError>
    ensures { OnOk result (text.new.items ≡ text.old.items ++ tested_text file.now) }
{
    text.extend_from_slice(file.name.as_bytes())?;
    match &file.outcome {
        Outcome::NoRow => text.extend_from_slice(b": there is no row\n"),
        Outcome::Held(rows) => push_held(text, *rows),
        Outcome::Failed(failure) => push_failure(text, failure),
    }
}

// Writes that all rows hold.
fn push_held(text: &mut Vec<u8>, rows: usize) -> Result<(), AllocError>
    ensures { OnOk result (text.new.items ≡ text.old.items ++ holds_text rows) }
{
    text.extend_from_slice(b": ")?;
    push_rows(text, rows)
}

fn push_rows(text: &mut Vec<u8>, rows: usize) -> Result<(), AllocError>
    ensures { OnOk result (text.new.items ≡ text.old.items ++ rows_text rows) }
{
    push_number(text, rows)?;
    push_hold(text, rows == 1)
}

fn push_hold(text: &mut Vec<u8>, is_one: bool) -> Result<(), AllocError>
    ensures { OnOk result (text.new.items ≡ text.old.items ++ hold_text is_one) }
{
    if is_one {
        return text.extend_from_slice(b" row holds\n");
    }
    text.extend_from_slice(b" rows hold\n")
}

// Writes which row is not answered as it says.
fn push_failure(text: &mut Vec<u8>, failure: &Failure) -> Result<(), AllocError>
    ensures { OnOk result (text.new.items ≡ text.old.items ++ failure_text failure.now) }
{
    text.extend_from_slice(b" line ")?;
    push_number(text, failure.number)?;
    push_row(text, failure.command.as_bytes(), failure.wanted.as_bytes())?;
    push_told(text, &failure.told)
}

// Writes a row.
fn push_row(text: &mut Vec<u8>, command: &[u8], wanted: &[u8]) -> Result<(), AllocError>
    ensures { OnOk result (text.new.items ≡ text.old.items ++ row_text command.now wanted.now) }
{
    text.extend_from_slice(b": ")?;
    text.extend_from_slice(command)?;
    text.extend_from_slice(b" = ")?;
    text.extend_from_slice(wanted)
}

// Writes what was reported in place of what is wanted.
fn push_told(text: &mut Vec<u8>, told: &[u8]) -> Result<(), AllocError>
    ensures { OnOk result (text.new.items ≡ text.old.items ++ told_text told.now) }
{
    if told.is_empty() {
        return text.extend_from_slice(b", but is not answered\n");
    }
    text.extend_from_slice(b", but is ")?;
    text.extend_from_slice(told)?;
    text.extend_from_slice(b"\n")
}

// Writes how many rows passed and failed.
fn push_total(text: &mut Vec<u8>, passed: usize, failed: usize) -> Result<(), AllocError>
    ensures { OnOk result (text.new.items ≡ text.old.items ++ total_text passed failed) }
{
    push_number(text, passed)?;
    text.extend_from_slice(b" passed, ")?;
    push_number(text, failed)?;
    text.extend_from_slice(b" failed\n")
}
