//! The rows: what cuts left, one row for those that follow one another and left the same.
ghost use Rattle.std.specs.Prelude.{◌≡◌, ◌++◌, IfOk, OnOk, ◌==◌, codes, decimal};
ghost use Rattle.std.specs.Str.{bytes_eq};
ghost use Rattle.jcard_outcomes.specs.Report.{changed_text, ended, in_line, labelled, lost_text, numbers_text, outcome_text, row_text, rows_from, rows_text, standing_text, words_lost_text};

use crate::heaps::Difference;
use crate::standing::{Cut, Standing};
use jcard_texts::numbers::push_number;
use std::alloc::{AllocError, Global};

/// Writes the rows of all cuts after a text.
pub(crate) fn push_rows(alloc: Global, text: &mut Vec<u8>, cuts: &[Cut]) -> Result<(), AllocError>
    ensures { OnOk result (text.new.items ≡ text.old.items ++ rows_text cuts.now) }
{
    let Some((cut, more)) = cuts.split_first() else {
        return Ok(());
    };
    let outcome = outcome_of(alloc, cut)?;
    push_rows_from(alloc, text, outcome, more)
}

// Writes the rows from the first on, whose first cut left this.
fn push_rows_from(
    alloc: Global,
    text: &mut Vec<u8>,
    mut outcome: Vec<u8>,
    more: &[Cut],
) -> Result<(), AllocError>
    ensures { OnOk result (text.new.items ≡ text.old.items
        ++ rows_from 0 0 outcome.items more.now) }
{
    let mut first = 0;
    let mut last = 0;
    for cut in more {
        let next = outcome_of(alloc, cut)?;
        if !is_same(&outcome, &next) {
            push_row(text, first, last, &outcome)?;
            first = last + 1;
            outcome = next;
        }
        last += 1;
    }
    push_row(text, first, last, &outcome)
}

/// Whether two texts are the same.
pub fn is_same(outcome: &[u8], next: &[u8]) -> bool
    ensures { result ≡ bytes_eq outcome.now next.now }
{
    outcome == next
}

// What a row reports of a cut.
#[tactic(auto, unfolding(crate::specs::Report::outcome_text))]
fn outcome_of(alloc: Global, cut: &Cut) -> Result<Vec<u8>, AllocError>
    ensures { IfOk result (λ text. text.items ≡ outcome_text cut.now) }
{
    let mut text = Vec::new(alloc);
    push_in_line(&mut text, &cut.answers)?;
    push_standing(&mut text, cut.standing)?;
    push_lost(&mut text, cut.lost)?;
    Ok(text)
}

// Writes how many words are lost, if any are.
fn push_lost(text: &mut Vec<u8>, lost: u16) -> Result<(), AllocError>
    ensures { OnOk result (text.new.items ≡ text.old.items ++ lost_text lost) }
{
    if lost == 0 {
        return Ok(());
    }
    text.extend_from_slice(b", ")?;
    push_words_lost(text, lost)
}

/// Writes a text and a line feed.
pub(crate) fn push_ending(text: &mut Vec<u8>, told: &[u8]) -> Result<(), AllocError>
    ensures { OnOk result (text.new.items ≡ text.old.items ++ (told.now ++ codes "\n")) }
{
    text.extend_from_slice(told)?;
    text.extend_from_slice(b"\n")
}

/// Writes this many words that are lost.
pub(crate) fn push_words_lost(text: &mut Vec<u8>, lost: u16) -> Result<(), AllocError>
    ensures { OnOk result (text.new.items ≡ text.old.items ++ words_lost_text lost) }
{
    push_number(text, usize::from(lost))?;
    text.extend_from_slice(b" words lost")
}

// Writes the row of the cuts with these numbers, which left this.
fn push_row(text: &mut Vec<u8>, first: usize, last: usize, outcome: &[u8]) -> Result<(), AllocError>
    ensures { OnOk result (text.new.items ≡ text.old.items ++ row_text first last outcome.now) }
{
    text.extend_from_slice(b"cut after ")?;
    push_numbers(text, first, last)?;
    push_ended(text, outcome)
}

/// Writes what a row says after its numbers.
pub fn push_ended(text: &mut Vec<u8>, outcome: &[u8]) -> Result<(), AllocError>
    ensures { OnOk result (text.new.items ≡ text.old.items ++ ended outcome.now) }
{
    text.extend_from_slice(b": ")?;
    text.extend_from_slice(outcome)?;
    text.extend_from_slice(b"\n")
}

/// Writes a number, or the first and the last of several.
pub fn push_numbers(text: &mut Vec<u8>, first: usize, last: usize) -> Result<(), AllocError>
    ensures { OnOk result (text.new.items ≡ text.old.items ++ numbers_text first last) }
{
    push_number(text, first)?;
    if first == last {
        return Ok(());
    }
    text.extend_from_slice(b"..")?;
    push_number(text, last)
}

/// Writes answers in one line, each with a space after it.
pub fn push_in_line(text: &mut Vec<u8>, answers: &[u8]) -> Result<(), AllocError>
    ensures { OnOk result (text.new.items ≡ text.old.items ++ in_line answers.now) }
{
    for byte in answers {
        text.push(if *byte == b'\n' { b' ' } else { *byte })?;
    }
    Ok(())
}

/// Writes how a standing is reported.
pub fn push_standing(text: &mut Vec<u8>, standing: Standing) -> Result<(), AllocError>
    ensures { OnOk result (text.new.items ≡ text.old.items ++ standing_text standing) }
{
    match standing {
        Standing::Before => text.extend_from_slice(b"as before"),
        Standing::BeforeButTries => text.extend_from_slice(b"as before but for PIN tries"),
        Standing::After => text.extend_from_slice(b"as after"),
        Standing::AfterButTries => text.extend_from_slice(b"as after but for PIN tries"),
        Standing::Answers => text.extend_from_slice(b"with other answers"),
        Standing::Changed(difference) => push_difference(text, difference),
        Standing::ChangedByCalls(difference) => push_by_calls(text, difference),
    }
}

fn push_by_calls(text: &mut Vec<u8>, difference: Difference) -> Result<(), AllocError>
    ensures { OnOk result (text.new.items ≡ text.old.items
        ++ standing_text (Standing.ChangedByCalls difference)) }
{
    push_difference(text, difference)?;
    text.extend_from_slice(b" by non-atomic calls")
}

fn push_difference(text: &mut Vec<u8>, difference: Difference) -> Result<(), AllocError>
    ensures { OnOk result (text.new.items ≡ text.old.items ++ changed_text difference) }
{
    push_labelled(text, b"changed: word ", difference.address)?;
    push_labelled(text, b" was ", difference.before)?;
    push_labelled(text, b" and is ", difference.now)
}

// Writes a word after what it is.
fn push_labelled(text: &mut Vec<u8>, label: &[u8], word: u16) -> Result<(), AllocError>
    ensures { OnOk result (text.new.items ≡ text.old.items ++ labelled label.now word) }
{
    text.extend_from_slice(label)?;
    push_number(text, usize::from(word))
}
