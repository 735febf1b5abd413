//! The commands of a script, each with the verdict over its cuts.
ghost use Rattle.std.specs.Prelude.{◌≡◌, ◌++◌, ◌↔◌, true, All, IsTrue, IfOk, OnOk, codes};
ghost use Rattle.jcard_outcomes.specs.Report.{is_whole_outcome, line_answer_text, line_command_text, line_recoveries_text, line_rows_text};
ghost use Rattle.jcard_outcomes.specs.Report.{line_verdict_text, swept_text, verdicts_text};

use crate::recoveries::{Depth, push_recoveries};
use crate::report::{Sweep, push_told_rows};
use crate::standing::Cut;
use crate::verdict::{is_all_or_nothing, push_verdict};
use jcard_texts::numbers::push_number;
use std::alloc::{AllocError, Global};

/// What became of a command of a script.
#[derive(Drop)]
pub enum LineOutcome {
    /// It was cut after each number of its writes.
    Swept(Sweep),
    /// It was not cut: a `stop` of the script had cut the power, and the card is down at it.
    Down,
}

/// A command of a script: the number of its line, its text, and what became of it.
#[derive(Drop)]
pub struct LineSweep {
    pub number: usize,
    pub command: Vec<u8>,
    pub outcome: LineOutcome,
}

/// The text of the verdicts, a line for each command, or the rows of each before its verdict.
pub fn verdicts(alloc: Global, sweeps: &[LineSweep], rows: bool) -> Result<Vec<u8>, AllocError>
    ensures { IfOk result (λ text. text.items ≡ verdicts_text rows sweeps.now) }
{
    let mut text = Vec::new(alloc);
    for sweep in sweeps {
        push_line_verdict(alloc, &mut text, sweep, rows)?;
    }
    Ok(text)
}

/// Whether the cuts of each command were all or nothing.
pub fn are_all_or_nothing(sweeps: &[LineSweep]) -> bool
    ensures { IsTrue result ↔ All (λ s. is_whole_outcome s.outcome ≡ true) sweeps.now }
{
    sweeps.iter().all(|sweep| is_whole(&sweep.outcome))
}

fn is_whole(outcome: &LineOutcome) -> bool
    ensures { result ≡ is_whole_outcome outcome.now }
{
    match outcome {
        LineOutcome::Swept(sweep) => is_all_or_nothing(&sweep.cuts),
        LineOutcome::Down => true,
    }
}

#[tactic(auto, unfolding(crate::specs::Report::line_verdict_text))]
fn push_line_verdict(
    alloc: Global,
    text: &mut Vec<u8>,
    sweep: &LineSweep,
    rows: bool,
) -> Result<(), AllocError>
    ensures { OnOk result (text.new.items ≡ text.old.items ++ line_verdict_text rows sweep.now) }
{
    match &sweep.outcome {
        LineOutcome::Swept(swept) => {
            push_swept_line(alloc, text, sweep.number, &sweep.command, swept, rows)
        }
        LineOutcome::Down => push_down_line(text, sweep.number, &sweep.command),
    }
}

fn push_swept_line(
    alloc: Global,
    text: &mut Vec<u8>,
    number: usize,
    command: &[u8],
    sweep: &Sweep,
    rows: bool,
) -> Result<(), AllocError>
    ensures { OnOk result (text.new.items ≡ text.old.items ++ (line_rows_text rows sweep.now
        ++ swept_text (line_answer_text number command.now sweep.now.answer.items) sweep.now)) }
{
    push_line_rows(alloc, text, sweep, rows)?;
    let head = line_head(alloc, number, command, &sweep.answer)?;
    push_swept(text, &head, sweep)
}

// Writes the rows of a command, where they are asked for.
fn push_line_rows(
    alloc: Global,
    text: &mut Vec<u8>,
    sweep: &Sweep,
    rows: bool,
) -> Result<(), AllocError>
    ensures { OnOk result (text.new.items ≡ text.old.items ++ line_rows_text rows sweep.now) }
{
    if rows {
        return push_told_rows(alloc, text, sweep);
    }
    Ok(())
}

/// A command in a line and its answer, before what is reported of it.
pub fn line_head(
    alloc: Global,
    number: usize,
    command: &[u8],
    answer: &[u8],
) -> Result<Vec<u8>, AllocError>
    ensures { IfOk result (λ head. head.items ≡ line_answer_text number command.now answer.now) }
{
    let mut head = Vec::new(alloc);
    push_line_command(&mut head, number, command)?;
    head.extend_from_slice(b" = ")?;
    head.extend_from_slice(answer)?;
    head.extend_from_slice(b": ")?;
    Ok(head)
}

fn push_swept(text: &mut Vec<u8>, head: &[u8], sweep: &Sweep) -> Result<(), AllocError>
    ensures { OnOk result (text.new.items ≡ text.old.items ++ swept_text head.now sweep.now) }
{
    text.extend_from_slice(head)?;
    push_verdict(text, &sweep.answer, &sweep.cuts)?;
    push_line_recoveries(text, sweep.depth, head, &sweep.cuts)
}

fn push_line_recoveries(
    text: &mut Vec<u8>,
    depth: Depth,
    head: &[u8],
    cuts: &[Cut],
) -> Result<(), AllocError>
    ensures { OnOk result (text.new.items ≡ text.old.items
        ++ line_recoveries_text depth head.now cuts.now) }
{
    if depth == Depth::Zero {
        return Ok(());
    }
    text.extend_from_slice(head)?;
    push_recoveries(text, depth, cuts)
}

/// Writes that the card is down at a command in a line.
pub fn push_down_line(text: &mut Vec<u8>, number: usize, command: &[u8]) -> Result<(), AllocError>
    ensures { OnOk result (text.new.items ≡ text.old.items
        ++ (line_command_text number command.now
        ++ codes ": the card is down at the command\n")) }
{
    push_line_command(text, number, command)?;
    text.extend_from_slice(b": the card is down at the command\n")
}

fn push_line_command(text: &mut Vec<u8>, number: usize, command: &[u8]) -> Result<(), AllocError>
    ensures { OnOk result (text.new.items ≡ text.old.items
        ++ line_command_text number command.now) }
{
    text.extend_from_slice(b"line ")?;
    push_number(text, number)?;
    text.extend_from_slice(b": ")?;
    text.extend_from_slice(command)
}
