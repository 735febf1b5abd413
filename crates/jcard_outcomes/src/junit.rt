//! What is reported of files of rows to build servers: XML in which each file is a test suite, and each row of it a test case.
ghost use Rattle.std.specs.Prelude.{◌≡◌, ◌++◌, IfOk, OnOk};
ghost use Rattle.jcard_outcomes.specs.Junit.{cards_cases, case_text, cases_text, failed_in, failure_text, head_text, is_behind, junit_text, name_text, no_row_text, row_case, row_text, rows_cases, suite_text, suites_text, test_count, time_at, told_text, verdict_text};

use crate::row::Row;
use crate::row_report::is_failed;
use crate::tested::{Failure, Outcome, Tested};
use jcard_texts::escapes::push_escaped;
use jcard_texts::numbers::push_number;
use jcard_texts::seconds::push_seconds;
use std::alloc::{AllocError, Global};

/// The XML text that says what came of files: a test suite for each, with a test case for each of its rows and the time that it took. The
/// first row that is not answered as it says is a failure, and those after it are no test cases.
pub fn junit(alloc: Global, tested: &[Tested]) -> Result<Vec<u8>, AllocError>
    ensures { IfOk result (λ text. text.items ≡ junit_text tested.now) }
{
    let mut text = Vec::new(alloc);
    text.extend_from_slice(
        b"<?xml version=\"1.0\" encoding=\"UTF-8\"?>\n<testsuites name=\"jcard\">\n",
    )?;
    push_suites(&mut text, tested)?;
    text.extend_from_slice(b"</testsuites>\n")?;
    Ok(text)
}

// Writes the suites of all files after a text.
fn push_suites(text: &mut Vec<u8>, tested: &[Tested]) -> Result<(), AllocError>
    ensures { OnOk result (text.new.items ≡ text.old.items ++ suites_text tested.now) }
{
    for file in tested {
        push_suite(text, file)?;
    }
    Ok(())
}

fn push_suite(text: &mut Vec<u8>, file: &Tested) -> Result<(), AllocError>
    ensures { OnOk result (text.new.items ≡ text.old.items ++ suite_text file.now) }
{
    push_head(text, file)?;
    push_cases(text, file)?;
    text.extend_from_slice(b"</testsuite>\n")
}

// Writes how many test cases a suite has, and how many of them failed.
fn push_head(text: &mut Vec<u8>, file: &Tested) -> Result<(), AllocError>
    ensures { OnOk result (text.new.items ≡ text.old.items ++ head_text file.now) }
{
    text.extend_from_slice(b"<testsuite name=\"")?;
    push_escaped(text, file.name.as_bytes())?;
    text.extend_from_slice(b"\" tests=\"")?;
    push_number(text, test_count(&file.outcome))?;
    text.extend_from_slice(b"\" failures=\"")?;
    push_number(text, failed_in(&file.outcome))?;
    text.extend_from_slice(b"\">\n")?;
    Ok(())
}

// How many test cases a file has: one, if it has no row.
fn test_count(outcome: &Outcome) -> usize
    ensures { result ≡ test_count outcome.now }
{
    match outcome {
        Outcome::NoRow => 1,
        Outcome::Held(rows) => *rows,
        Outcome::Failed(failure) => failure.passed.saturating_add(1),
    }
}

fn failed_in(outcome: &Outcome) -> usize
    ensures { result ≡ failed_in outcome.now }
{
    if is_failed(outcome) { 1 } else { 0 }
}

fn push_cases(text: &mut Vec<u8>, file: &Tested) -> Result<(), AllocError>
    ensures { OnOk result (text.new.items ≡ text.old.items ++ cases_text file.now) }
{
    match file.outcome {
        Outcome::NoRow => push_no_row(text, file.name),
        _ => push_cards(text, file),
    }
}

// Writes the test case of a file without a row.
fn push_no_row(text: &mut Vec<u8>, name: &str) -> Result<(), AllocError>
    ensures { OnOk result (text.new.items ≡ text.old.items ++ no_row_text name.now) }
{
    push_name(text, name)?;
    text.extend_from_slice(
        b"no row\" time=\"0.000000\"><failure message=\"there is no row\"/></testcase>\n",
    )
}

// Writes the beginning of a test case, up to its name.
fn push_name(text: &mut Vec<u8>, file: &str) -> Result<(), AllocError>
    ensures { OnOk result (text.new.items ≡ text.old.items ++ name_text file.now) }
{
    text.extend_from_slice(b"<testcase classname=\"")?;
    push_escaped(text, file.as_bytes())?;
    text.extend_from_slice(b"\" name=\"")
}

// Writes the test cases of the rows of a file.
fn push_cards(text: &mut Vec<u8>, file: &Tested) -> Result<(), AllocError>
    ensures { OnOk result (text.new.items ≡ text.old.items
        ++ cards_cases file.now 0 file.now.cards.items) }
{
    let mut first = 0usize;
    for card in &file.cards {
        push_rows(text, file, first, &card.rows)?;
        first = first.saturating_add(card.rows.as_slice().len());
    }
    Ok(())
}

// Writes the test cases of these rows, before which this many stand in the file.
fn push_rows(
    text: &mut Vec<u8>,
    file: &Tested,
    first: usize,
    rows: &[Row],
) -> Result<(), AllocError>
    ensures { OnOk result (text.new.items ≡ text.old.items ++ rows_cases file.now first 0 rows.now) }
{
    for (k, row) in rows.iter().enumerate() {
        push_case(text, file, first.saturating_add(k), row)?;
    }
    Ok(())
}

// Writes the test case of a row at its place among those of a file, if it does not stand after the one that failed.
fn push_case(text: &mut Vec<u8>, file: &Tested, place: usize, row: &Row) -> Result<(), AllocError>
    ensures { OnOk result (text.new.items ≡ text.old.items ++ case_text file.now place row.now) }
{
    if is_behind(&file.outcome, place) {
        return Ok(());
    }
    push_row_case(text, file, place, row)
}

// Whether a place is after the row that failed.
fn is_behind(outcome: &Outcome, place: usize) -> bool
    ensures { result ≡ is_behind outcome.now place }
{
    match outcome {
        Outcome::Failed(failure) => failure.passed < place,
        _ => false,
    }
}

fn push_row_case(
    text: &mut Vec<u8>,
    file: &Tested,
    place: usize,
    row: &Row,
) -> Result<(), AllocError>
    ensures { OnOk result (text.new.items ≡ text.old.items ++ row_case file.now place row.now) }
{
    push_name(text, file.name)?;
    push_row(text, row)?;
    text.extend_from_slice(b"\" time=\"")?;
    push_seconds(text, time_at(&file.times, place))?;
    text.extend_from_slice(b"\"")?;
    push_verdict(text, &file.outcome, place)
}

// Writes what a test case is called: the number of its line, and what it says.
fn push_row(text: &mut Vec<u8>, row: &Row) -> Result<(), AllocError>
    ensures { OnOk result (text.new.items ≡ text.old.items
        ++ row_text row.now) }
{
    text.extend_from_slice(b"line ")?;
    push_number(text, row.number)?;
    text.extend_from_slice(b": ")?;
    push_escaped(text, row.command.as_bytes())
}

// The time at this place, or none.
fn time_at(times: &[u64], place: usize) -> u64
    ensures { result ≡ time_at times.now place }
{
    match times.get(place) {
        Some(time) => *time,
        None => 0,
    }
}

// Writes what came of a row: it holds, or failed.
fn push_verdict(text: &mut Vec<u8>, outcome: &Outcome, place: usize) -> Result<(), AllocError>
    ensures { OnOk result (text.new.items ≡ text.old.items ++ verdict_text outcome.now place) }
{
    match outcome {
        Outcome::Failed(failure) if place == failure.passed => push_failure(text, failure),
        _ => text.extend_from_slice(b"/>\n"),
    }
}

fn push_failure(text: &mut Vec<u8>, failure: &Failure) -> Result<(), AllocError>
    ensures { OnOk result (text.new.items ≡ text.old.items ++ failure_text failure.now) }
{
    text.extend_from_slice(b"><failure message=\"line ")?;
    push_number(text, failure.number)?;
    text.extend_from_slice(b": ")?;
    push_escaped(text, failure.command.as_bytes())?;
    text.extend_from_slice(b" = ")?;
    push_escaped(text, failure.wanted.as_bytes())?;
    push_told(text, &failure.told)?;
    text.extend_from_slice(b"\"/></testcase>\n")?;
    Ok(())
}

fn push_told(text: &mut Vec<u8>, told: &[u8]) -> Result<(), AllocError>
    ensures { OnOk result (text.new.items ≡ text.old.items ++ told_text told.now) }
{
    if told.is_empty() {
        return text.extend_from_slice(b", but is not answered");
    }
    text.extend_from_slice(b", but is ")?;
    push_escaped(text, told)
}
