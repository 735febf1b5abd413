//! The text of a part of a sweep, with a line for each of its cuts.
ghost use Rattle.std.specs.Prelude.{◌≡◌, ◌++◌, ◌∷◌, ◌+◌, ◌*◌, ◌<◌, ◌^◌, codes, decimal, length, IfOk, MatchOption, OnOk};
ghost use Rattle.jcard_outcomes.specs.Part.{IsShareText, difference_told, head_text, is_one_way, line_start, line_text, lines_text, numbered, part_text, recovered_told, told_cut, told_left, told_uncut};
ghost use Rattle.jcard_outcomes.specs.declared.part.Share.{Share as AShare};

use crate::line::{cut_once, word_of};
use crate::recoveries::Recoveries;
use crate::report::Sweep;
use crate::rows::{push_ending, push_in_line, push_standing, push_words_lost};
use crate::standing::Cut;
use itoa::Buffer;
use jcard_texts::numbers::push_number;
use std::alloc::{AllocError, Global};

/// A part of a sweep: a command that was cut after `first` writes and each `step`-th number after it, up to the first of these
/// that does not cut it.
#[derive(Drop)]
pub struct Part {
    pub first: usize,
    pub step: usize,
    /// The name of the sweep, without a line feed.
    pub name: Vec<u8>,
    pub sweep: Sweep,
}

/// Part I of N of a sweep: how many writes its first cut lets pass, which is I - 1, and N.
#[derive(Clone, Copy, Drop)]
pub struct Share {
    pub first: u16,
    pub step: u16,
}

/// The part that the text `I/N` says, with I from 1 to N.
pub fn share_of(text: &[u8]) -> Option<Share>
    ensures { MatchOption result ((share : AShare) → IsShareText text.now share → ⊥)
        (λ share. IsShareText text.now share) }
{
    let Some((digits, rest)) = cut_once(text, b'/') else {
        return None;
    };
    let Some(rank) = word_of(digits) else {
        return None;
    };
    let Some(step) = word_of(rest) else {
        return None;
    };
    if rank == 0 {
        return None;
    }
    if rank > step {
        return None;
    }
    Some(Share {
        first: rank - 1,
        step,
    })
}

/// The lines that say of which sweep a part is, what its cuts left, and where they end.
#[tactic(auto, unfolding(crate::specs::Part::part_text))]
pub fn part_lines(alloc: Global, part: &Part) -> Result<Vec<u8>, AllocError>
    requires { part.now.first + part.now.step * length part.now.sweep.cuts.items < 2 ^ 64 }
    ensures { IfOk result (λ text. text.items ≡ part_text part.now) }
{
    let sweep = &part.sweep;
    let mut text = Vec::new(alloc);
    push_head(&mut text, &part.name)?;
    let uncut = uncut_told(alloc, &sweep.answer, &sweep.after.answers)?;
    push_lines(alloc, &mut text, part.first, part.step, &sweep.cuts, &uncut)?;
    Ok(text)
}

/// Writes the head of the text of a part.
pub(crate) fn push_head(text: &mut Vec<u8>, name: &[u8]) -> Result<(), AllocError>
    ensures { OnOk result (text.new.items ≡ text.old.items ++ head_text name.now) }
{
    text.extend_from_slice(b"sweep ")?;
    text.extend_from_slice(name)?;
    text.extend_from_slice(b"\n")
}

// Writes the lines of these cuts, and of the number that does not cut.
fn push_lines(
    alloc: Global,
    text: &mut Vec<u8>,
    first: usize,
    step: usize,
    cuts: &[Cut],
    uncut: &[u8],
) -> Result<(), AllocError>
    requires { first + step * length cuts.now < 2 ^ 64 }
    ensures { OnOk result (text.new.items ≡ text.old.items
        ++ lines_text first step cuts.now uncut.now) }
{
    let mut number = first;
    for cut in cuts {
        let told = cut_told(alloc, cut)?;
        push_line(text, number, &told)?;
        number += step;
    }
    push_line(text, number, uncut)
}

// Writes the line about this number.
fn push_line(text: &mut Vec<u8>, number: usize, told: &[u8]) -> Result<(), AllocError>
    ensures { OnOk result (text.new.items ≡ text.old.items ++ line_text number told.now) }
{
    push_line_start(text, number)?;
    push_ending(text, told)
}

/// Writes how the line begins about a cut after this number of writes.
pub(crate) fn push_line_start(text: &mut Vec<u8>, number: usize) -> Result<(), AllocError>
    ensures { OnOk result (text.new.items ≡ text.old.items ++ line_start number) }
{
    push_numbered(text, b"cut after ", number)
}

/// Writes how a line begins about this number of what the label says.
#[tactic(auto, unfolding(crate::specs::Part::numbered))]
pub(crate) fn push_numbered(
    text: &mut Vec<u8>,
    label: &[u8],
    number: usize,
) -> Result<(), AllocError>
    ensures { OnOk result (text.new.items ≡ text.old.items ++ numbered label.now number) }
{
    text.extend_from_slice(label)?;
    push_number(text, number)?;
    text.extend_from_slice(b": ")
}

fn cut_told(alloc: Global, cut: &Cut) -> Result<Vec<u8>, AllocError>
    ensures { IfOk result (λ text. text.items ≡ told_cut cut.now) }
{
    let mut text = Vec::new(alloc);
    push_recovered(&mut text, cut.recoveries)?;
    push_left(&mut text, cut)?;
    Ok(text)
}

// Writes what is reported of recoveries, unless they were tried in one way, which made no difference.
fn push_recovered(text: &mut Vec<u8>, recoveries: Recoveries) -> Result<(), AllocError>
    ensures { OnOk result (text.new.items ≡ text.old.items ++ recovered_told recoveries) }
{
    if is_one_way(recoveries) {
        return Ok(());
    }
    push_some(text, recoveries)
}

fn is_one_way(recoveries: Recoveries) -> bool
    ensures { result ≡ is_one_way recoveries }
{
    recoveries.ways == 1 && recoveries.difference.is_none()
}

fn push_some(text: &mut Vec<u8>, recoveries: Recoveries) -> Result<(), AllocError>
    ensures { OnOk result (text.new.items ≡ text.old.items
        ++ (codes "recoveries " ++ (decimal recoveries.ways ++ 32 ∷ (difference_told recoveries.difference ++ 44 ∷ codes " ")))) }
{
    push_ways(text, recoveries.ways)?;
    push_difference(text, recoveries.difference)?;
    text.extend_from_slice(b", ")?;
    Ok(())
}

fn push_ways(text: &mut Vec<u8>, ways: u64) -> Result<(), AllocError>
    ensures { OnOk result (text.new.items ≡ text.old.items
        ++ (codes "recoveries " ++ decimal ways ++ codes " ")) }
{
    text.extend_from_slice(b"recoveries ")?;
    push_count(text, ways)?;
    text.extend_from_slice(b" ")?;
    Ok(())
}

fn push_count(text: &mut Vec<u8>, count: u64) -> Result<(), AllocError>
    ensures { OnOk result (text.new.items ≡ text.old.items ++ decimal count) }
{
    let mut digits = Buffer::new();
    text.extend_from_slice(digits.format(count).as_bytes())
}

fn push_difference(text: &mut Vec<u8>, difference: Option<u16>) -> Result<(), AllocError>
    ensures { OnOk result (text.new.items ≡ text.old.items ++ difference_told difference) }
{
    match difference {
        Some(writes) => push_number(text, usize::from(writes)),
        None => text.extend_from_slice(b"alike"),
    }
}

#[tactic(auto, unfolding(crate::specs::Part::told_left))]
fn push_left(text: &mut Vec<u8>, cut: &Cut) -> Result<(), AllocError>
    ensures { OnOk result (text.new.items ≡ text.old.items ++ told_left cut.now) }
{
    push_standing(text, cut.standing)?;
    text.extend_from_slice(b", ")?;
    push_words_lost(text, cut.lost)?;
    text.extend_from_slice(b", answers ")?;
    push_in_line(text, &cut.answers)
}

#[tactic(auto, unfolding(crate::specs::Part::told_uncut))]
fn uncut_told(alloc: Global, answer: &[u8], answers: &[u8]) -> Result<Vec<u8>, AllocError>
    ensures { IfOk result (λ text. text.items ≡ told_uncut answer.now answers.now) }
{
    let mut text = Vec::from_slice(alloc, b"no cut, answer ")?;
    text.extend_from_slice(answer)?;
    text.extend_from_slice(b": ")?;
    push_in_line(&mut text, answers)?;
    text.extend_from_slice(b"as after")?;
    Ok(text)
}
