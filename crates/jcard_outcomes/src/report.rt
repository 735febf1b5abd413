//! The report: rows, the command that is not cut, and the verdict.
ghost use Rattle.std.specs.Prelude.{◌≡◌, ◌++◌, codes, IfOk, OnOk};
ghost use Rattle.jcard_outcomes.specs.Report.{ended, in_line, report_text, rows_text, uncut_text};

use crate::recoveries::{Depth, push_recoveries};
use crate::rows::{push_ended, push_in_line, push_rows};
use crate::standing::{Cut, Left};
use crate::verdict::push_verdict;
use std::alloc::{AllocError, Global};

/// A command that was cut after each number of its writes, from none on: what was before it, its answer where it is not cut,
/// what it then leaves, what each cut left, and how many recoveries were cut after each.
#[derive(Drop)]
pub struct Sweep {
    pub before: Left,
    pub answer: Vec<u8>,
    pub after: Left,
    pub cuts: Vec<Cut>,
    pub depth: Depth,
}

/// The text that says what the cuts left.
pub fn report(alloc: Global, sweep: &Sweep) -> Result<Vec<u8>, AllocError>
    ensures { IfOk result (λ text. text.items ≡ report_text sweep.now) }
{
    let mut text = Vec::new(alloc);
    push_told_rows(alloc, &mut text, sweep)?;
    push_verdict(&mut text, &sweep.answer, &sweep.cuts)?;
    push_recoveries(&mut text, sweep.depth, &sweep.cuts)?;
    Ok(text)
}

/// Writes the rows of a command, and of it where it is not cut.
pub(crate) fn push_told_rows(
    alloc: Global,
    text: &mut Vec<u8>,
    sweep: &Sweep,
) -> Result<(), AllocError>
    ensures { OnOk result (text.new.items ≡ text.old.items ++ (rows_text sweep.now.cuts.items
        ++ uncut_text sweep.now.answer.items sweep.now.after.answers.items)) }
{
    push_rows(alloc, text, &sweep.cuts)?;
    let outcome = uncut_outcome(alloc, &sweep.after.answers)?;
    push_uncut(text, &sweep.answer, &outcome)
}

// What a row reports of the command that is not cut.
fn uncut_outcome(alloc: Global, answers: &[u8]) -> Result<Vec<u8>, AllocError>
    ensures { IfOk result (λ text. text.items ≡ in_line answers.now ++ codes "as after") }
{
    let mut text = Vec::new(alloc);
    push_in_line(&mut text, answers)?;
    text.extend_from_slice(b"as after")?;
    Ok(text)
}

fn push_uncut(text: &mut Vec<u8>, answer: &[u8], outcome: &[u8]) -> Result<(), AllocError>
    ensures { OnOk result (text.new.items ≡ text.old.items
        ++ codes "no cut, answer " ++ answer.now ++ ended outcome.now) }
{
    text.extend_from_slice(b"no cut, answer ")?;
    text.extend_from_slice(answer)?;
    push_ended(text, outcome)
}
