//! A fault in words, as rows and parts report it.
ghost use Rattle.std.specs.Prelude.{◌≡◌, [], IfOk, map};
ghost use Rattle.std.specs.List.{slice_index_or};
ghost use Rattle.jcard_attack.specs.Report.{fault_told, is_told_in_full, kind_text, model_name, outcome_text, place_of, second_end, told_by, told_in};

use crate::outcomes::{Outcome, Struck};
use jc_card::planned_fault::SecondFault;
use jc_interp::attacks::FaultModel;
use jcard_outcomes::rows::{push_in_line, push_standing};
use jcard_texts::numbers::push_number;
use std::alloc::{AllocError, Global};

/// A fault in words: its model, the number of its instruction, the second fault where there is one, what came of it, and what is reported of
/// the instruction, where that is reported.
#[derive(Clone, Copy, Drop)]
pub(crate) struct ToldFault<'a> {
    pub(crate) model: &'a [u8],
    pub(crate) number: &'a [u8],
    pub(crate) second: &'a [u8],
    pub(crate) told: &'a [u8],
    pub(crate) place: &'a [u8],
}

/// The words of a fault that was tried.
#[derive(Drop)]
pub(crate) struct FaultTexts<'a> {
    model: &'a [u8],
    number: Vec<u8>,
    second: Vec<u8>,
    told: Vec<u8>,
    place: &'a [u8],
}

/// The words of a fault of a command of whose instructions this is reported.
pub(crate) fn texts_of<'a>(
    alloc: Global,
    struck: &Struck,
    instructions: &'a [Vec<u8>],
) -> Result<FaultTexts<'a>, AllocError>
    ensures { IfOk result (λ texts. told_in texts
        ≡ fault_told (map (λ line. line.items) instructions.now) struck.now) }
{
    let mut number = Vec::new(alloc);
    push_number(&mut number, struck.fault.instruction as usize)?;
    let second = second_text(alloc, struck.fault.second)?;
    let told = outcome_text(alloc, struck)?;
    Ok(FaultTexts {
        model: model_name(struck.fault.model),
        number,
        second,
        told,
        place: place_of(struck, instructions),
    })
}

/// These words, lent.
pub(crate) fn lent<'a>(texts: &'a FaultTexts<'_>) -> ToldFault<'a>
    ensures { told_by result ≡ told_in texts.now }
{
    ToldFault {
        model: texts.model,
        number: &texts.number,
        second: &texts.second,
        told: &texts.told,
        place: texts.place,
    }
}

// What is reported of the instruction of a fault, where that is reported.
fn place_of<'a>(struck: &Struck, instructions: &'a [Vec<u8>]) -> &'a [u8]
    ensures { result.now ≡ place_of (map (λ line. line.items) instructions.now) struck.now }
{
    if !is_told_in_full(struck.outcome) {
        return b"";
    }
    line_at(instructions, struck.fault.instruction as usize)
}

// The line at this place, or none.
fn line_at(lines: &[Vec<u8>], place: usize) -> &[u8]
    ensures { result.now ≡ slice_index_or (map (λ line. line.items) lines.now) place [] }
{
    if place < lines.len() {
        return &lines[place];
    }
    b""
}

// Whether the instructions of faults that came to this are reported.
const fn is_told_in_full(outcome: Outcome) -> bool
    ensures { result ≡ is_told_in_full outcome }
{
    matches!(outcome, Outcome::Accepted | Outcome::Silent)
}

// What a row says of what a fault came to.
#[tactic(auto, unfolding(crate::specs::Report::outcome_text))]
fn outcome_text(alloc: Global, struck: &Struck) -> Result<Vec<u8>, AllocError>
    ensures { IfOk result (λ text. text.items ≡ outcome_text struck.now) }
{
    let mut text = Vec::from_slice(alloc, kind_text(struck.outcome))?;
    if matches!(struck.outcome, Outcome::Undisturbed) {
        return Ok(text);
    }
    text.extend_from_slice(b", answer ")?;
    text.extend_from_slice(&struck.answer)?;
    text.extend_from_slice(b": ")?;
    push_in_line(&mut text, &struck.answers)?;
    push_standing(&mut text, struck.standing)?;
    Ok(text)
}

fn kind_text(outcome: Outcome) -> &'static [u8]
    ensures { result.now ≡ kind_text outcome }
{
    match outcome {
        Outcome::Undisturbed => b"as without a fault",
        Outcome::Silent => b"CHANGED IN SILENCE",
        Outcome::Accepted => b"ACCEPTED",
        Outcome::Other => b"another answer",
        Outcome::BrokenOff => b"broken off",
        Outcome::Refused => b"refused",
        Outcome::Cut => b"cut",
    }
}

/// The name of a model.
pub(crate) const fn model_name(model: FaultModel) -> &'static [u8]
    ensures { result.now ≡ model_name model }
{
    match model {
        FaultModel::Skip => b"skip",
        FaultModel::Turn => b"turn",
        FaultModel::Zero => b"zero",
    }
}

/// The second fault of a kind, where it has one.
pub(crate) fn second_text(alloc: Global, second: Option<SecondFault>) -> Result<Vec<u8>, AllocError>
    ensures { IfOk result (λ text. text.items ≡ second_end second) }
{
    let mut text = Vec::new(alloc);
    let Some(second) = second else {
        return Ok(text);
    };
    text.extend_from_slice(b", then ")?;
    text.extend_from_slice(model_name(second.model))?;
    text.extend_from_slice(b" ")?;
    push_number(&mut text, second.number as usize)?;
    text.extend_from_slice(b" later")?;
    Ok(text)
}
