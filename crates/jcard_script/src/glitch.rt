//! Lines `glitch K MODEL`, `glitch K MODEL N MODEL` and `glitch none`.
ghost use Rattle.std.specs.Prelude.{◌≡◌, ◌<◌, IfSome, MatchOption, false, length, true};
ghost use Rattle.std.specs.Str.{all_ascii_digits};
ghost use Rattle.std.specs.Str.Parse.{digits_value};
ghost use Rattle.jcard_script.specs.Line.{IsAsked};
ghost use Rattle.jcard_script.specs.Script.{fault_named, faults_named, first_length, first_space, glitch_form_of, is_instruction_number, model_named, model_word, second_named};

use crate::line::LineRequest;
use jc_card::planned_fault::{PlannedFault, SecondFault};
use jc_interp::attacks::FaultModel;

/// How many bytes the word for a model has, with the space before it.
const MODEL: usize = 5;

/// The most digits of the number of an instruction.
const DIGITS: usize = 10;

/// What a line asks for of which this stands after `glitch `.
pub(crate) fn glitch_asked<'a>(text: &[u8]) -> LineRequest<'a>
    ensures { IsAsked result (glitch_form_of text.now) }
{
    if text == b"none".as_slice() {
        return LineRequest::PlanFault(None);
    }
    match faults_named(text) {
        Some(fault) => LineRequest::PlanFault(Some(fault)),
        None => LineRequest::Refused,
    }
}

// What `K MODEL`, or `K MODEL N MODEL`, plans.
#[tactic(auto, unfolding(crate::specs::Script::faults_named))]
fn faults_named(text: &[u8]) -> Option<PlannedFault>
    ensures { result ≡ faults_named text.now }
{
    let end = first_length(text);
    let (instruction, model) = fault_named(&text[..end])?;
    let second = second_named(&text[end..])?;
    Some(PlannedFault {
        instruction,
        model,
        second,
    })
}

// How many bytes `K MODEL` has at the front of a text, as far as there are as many.
fn first_length(text: &[u8]) -> usize
    ensures { result ≡ first_length text.now }
{
    let digits = first_space(text).unwrap_or(text.len());
    (digits + MODEL).min(text.len())
}

// The place of the first space.
fn first_space(text: &[u8]) -> Option<usize>
    ensures place { result ≡ first_space text.now }
    ensures within { IfSome result (λ i. i < length text.now) }
{
    text.iter().position(|byte| *byte == b' ')
}

// The fault that `K MODEL` is.
fn fault_named(text: &[u8]) -> Option<(u32, FaultModel)>
    ensures { result ≡ fault_named text.now }
{
    let split = text.len().saturating_sub(MODEL);
    let model = model_named(&text[split..])?;
    let number = instruction_number(&text[..split])?;
    Some((number, model))
}

// The second fault that ` N MODEL` is, or that no text plans none.
fn second_named(text: &[u8]) -> Option<Option<SecondFault>>
    ensures { result ≡ second_named text.now }
{
    let Some((space, rest)) = text.split_first() else {
        return Some(None);
    };
    if *space != b' ' {
        return None;
    }
    let (number, model) = fault_named(rest)?;
    if number == 0 {
        return None;
    }
    Some(Some(SecondFault { number, model }))
}

// What a fault does, by the word for it and the space before that.
fn model_named(text: &[u8]) -> Option<FaultModel>
    ensures { result ≡ model_named text.now }
{
    if text == b" skip".as_slice() {
        return Some(FaultModel::Skip);
    }
    if text == b" turn".as_slice() {
        return Some(FaultModel::Turn);
    }
    if text == b" zero".as_slice() {
        return Some(FaultModel::Zero);
    }
    None
}

/// The word for what a fault does, and the space before it.
pub(crate) const fn model_word(model: FaultModel) -> &'static [u8]
    ensures { result.now ≡ model_word model }
{
    match model {
        FaultModel::Skip => b" skip",
        FaultModel::Turn => b" turn",
        FaultModel::Zero => b" zero",
    }
}

// The number that these digits spell, which is one of an instruction.
fn instruction_number(digits: &[u8]) -> Option<u32>
    ensures { MatchOption result (is_instruction_number digits.now ≡ false)
        (λ number. (is_instruction_number digits.now ≡ true) × (number ≡ digits_value 10 digits.now)) }
{
    if digits.len() > DIGITS || !are_digits(digits) {
        return None;
    }
    match str::from_utf8(digits) {
        Ok(text) => text.parse::<u32>().ok(),
        Err(_) => None,
    }
}

// Whether each byte is a decimal digit.
fn are_digits(bytes: &[u8]) -> bool
    ensures { result ≡ all_ascii_digits bytes.now }
{
    for byte in bytes {
        if !byte.is_ascii_digit() {
            return false;
        }
    }
    true
}
