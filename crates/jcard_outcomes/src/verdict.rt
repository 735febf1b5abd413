//! The verdict over all cuts of a command.
ghost use Rattle.std.specs.Prelude.{◌≡◌, ◌++◌, ◌==◌, ◌||◌, IfOk, OnOk, is_none, max, option_map, if◌then◌else◌};
ghost use Rattle.jcard_outcomes.specs.Report.{any_but_tries, are_whole, broken_by_calls, broken_told, broken_text, claim_text, count_before, cuts_text, first_broken, is_after, is_before, is_but_tries, is_by_calls};
ghost use Rattle.jcard_outcomes.specs.Report.{is_refused, is_refused_at_once, most_lost_from, most_lost_text, no_write_text, shares_text, verdict_text, whole_text};

use crate::recoveries::first_difference;
use crate::rows::{is_same, push_ending, push_words_lost};
use crate::standing::{Cut, Standing};
use jcard_texts::numbers::push_number;
use std::alloc::{AllocError, Global};

/// Whether each cut left what was before the command or what it leaves where it is not cut, and no recovery made a difference.
pub fn is_all_or_nothing(cuts: &[Cut]) -> bool
    ensures { result ≡ are_whole cuts.now }
{
    is_each_whole(cuts) && first_difference(cuts).is_none()
}

// Whether each cut left what was before the command or what it leaves where it is not cut.
fn is_each_whole(cuts: &[Cut]) -> bool
    ensures { result ≡ is_none (first_broken 0 cuts.now) }
{
    first_broken(cuts).is_none()
}

/// Writes the verdict over a command with this answer after a text.
pub(crate) fn push_verdict(
    text: &mut Vec<u8>,
    answer: &[u8],
    cuts: &[Cut],
) -> Result<(), AllocError>
    ensures { OnOk result (text.new.items ≡ text.old.items ++ verdict_text answer.now cuts.now) }
{
    if is_refused_at_once(answer, cuts) {
        return push_no_write(text, answer);
    }
    match first_broken(cuts) {
        Some(number) => push_broken(text, is_broken_by_calls(cuts), number),
        None => push_whole(
            text,
            cuts.len(),
            count_before(cuts),
            any_but_tries(cuts),
            most_lost(cuts),
        ),
    }
}

// Whether a command with this answer was refused, and made no write that could be cut.
fn is_refused_at_once(answer: &[u8], cuts: &[Cut]) -> bool
    ensures { result ≡ is_refused_at_once answer.now cuts.now }
{
    cuts.is_empty() && is_refused(answer)
}

// Whether the status word of an answer is neither 9000 nor 61xx.
fn is_refused(answer: &[u8]) -> bool
    ensures { result ≡ is_refused answer.now }
{
    let status = &answer[answer.len().saturating_sub(4)..];
    !(is_same(status, b"9000") || status.starts_with(b"61"))
}

fn push_no_write(text: &mut Vec<u8>, answer: &[u8]) -> Result<(), AllocError>
    ensures { OnOk result (text.new.items ≡ text.old.items ++ no_write_text answer.now) }
{
    text.extend_from_slice(b"no write: answered ")?;
    push_ending(text, answer)
}

/// What is reported, without a line feed, where a cut left something else; none where each left what was before or what comes after.
pub fn broken(alloc: Global, cuts: &[Cut]) -> Result<Option<Vec<u8>>, AllocError>
    ensures { IfOk result (λ found. option_map (λ text. text.items) found
        ≡ option_map (broken_told (broken_by_calls cuts.now)) (first_broken 0 cuts.now)) }
{
    let Some(number) = first_broken(cuts) else {
        return Ok(None);
    };
    let mut text = Vec::new(alloc);
    push_broken_told(&mut text, is_broken_by_calls(cuts), number)?;
    Ok(Some(text))
}

fn push_broken(text: &mut Vec<u8>, by_calls: bool, number: usize) -> Result<(), AllocError>
    ensures { OnOk result (text.new.items ≡ text.old.items ++ broken_text by_calls number) }
{
    push_broken_told(text, by_calls, number)?;
    text.extend_from_slice(b"\n")
}

fn push_broken_told(text: &mut Vec<u8>, by_calls: bool, number: usize) -> Result<(), AllocError>
    ensures { OnOk result (text.new.items ≡ text.old.items ++ broken_told by_calls number) }
{
    text.extend_from_slice(b"NOT all or nothing: first at cut ")?;
    push_number(text, number)?;
    push_either(text, by_calls, b", by non-atomic calls", b"")
}

fn push_whole(
    text: &mut Vec<u8>,
    total: usize,
    before: usize,
    tries: bool,
    lost: u16,
) -> Result<(), AllocError>
    ensures { OnOk result (text.new.items ≡ text.old.items ++ whole_text total before tries lost) }
{
    push_claim(text, tries)?;
    push_cuts(text, total)?;
    push_shares(text, total, before)?;
    push_most_lost(text, lost)
}

fn push_most_lost(text: &mut Vec<u8>, lost: u16) -> Result<(), AllocError>
    ensures { OnOk result (text.new.items ≡ text.old.items ++ most_lost_text lost) }
{
    if lost == 0 {
        return text.extend_from_slice(b"\n");
    }
    text.extend_from_slice(b", at most ")?;
    push_words_lost(text, lost)?;
    text.extend_from_slice(b"\n")
}

fn push_claim(text: &mut Vec<u8>, tries: bool) -> Result<(), AllocError>
    ensures { OnOk result (text.new.items ≡ text.old.items ++ claim_text tries) }
{
    text.extend_from_slice(b"all or nothing")?;
    push_either(text, tries, b" but for PIN tries: ", b": ")
}

fn push_cuts(text: &mut Vec<u8>, total: usize) -> Result<(), AllocError>
    ensures { OnOk result (text.new.items ≡ text.old.items ++ cuts_text total) }
{
    push_number(text, total)?;
    push_either(text, total == 1, b" cut, ", b" cuts, ")
}

/// Writes one of two texts after a text.
pub fn push_either(
    text: &mut Vec<u8>,
    is_first: bool,
    first: &[u8],
    second: &[u8],
) -> Result<(), AllocError>
    ensures { OnOk result (text.new.items ≡ text.old.items
        ++ (if is_first then first.now else second.now)) }
{
    text.extend_from_slice(if is_first { first } else { second })
}

fn push_shares(text: &mut Vec<u8>, total: usize, before: usize) -> Result<(), AllocError>
    ensures { OnOk result (text.new.items ≡ text.old.items ++ shares_text total before) }
{
    if before == total {
        return text.extend_from_slice(b"each as before");
    }
    if before == 0 {
        return text.extend_from_slice(b"each as after");
    }
    push_number(text, before)?;
    text.extend_from_slice(b" as before, the others as after")
}

// The first cut that left something else.
fn first_broken(cuts: &[Cut]) -> Option<usize>
    ensures { result ≡ first_broken 0 cuts.now }
{
    for (number, cut) in cuts.iter().enumerate() {
        if !is_whole(cut.standing) {
            return Some(number);
        }
    }
    None
}

// Whether of the first cut that left something else each word that is not as before was written by non-atomic calls.
fn is_broken_by_calls(cuts: &[Cut]) -> bool
    ensures { result ≡ broken_by_calls cuts.now }
{
    for cut in cuts {
        if !is_whole(cut.standing) {
            return is_by_calls(cut.standing);
        }
    }
    false
}

// How many cuts left what was before.
fn count_before(cuts: &[Cut]) -> usize
    ensures { result ≡ count_before cuts.now }
{
    let mut count = 0;
    for cut in cuts {
        if is_before(cut.standing) {
            count += 1;
        }
    }
    count
}

fn any_but_tries(cuts: &[Cut]) -> bool
    ensures { result ≡ any_but_tries cuts.now }
{
    for cut in cuts {
        if is_but_tries(cut.standing) {
            return true;
        }
    }
    false
}

// The most words that a cut lost.
fn most_lost(cuts: &[Cut]) -> u16
    ensures { result ≡ most_lost_from 0 cuts.now }
{
    let mut most = 0;
    for cut in cuts {
        most = larger(most, cut.lost);
    }
    most
}

fn larger(a: u16, b: u16) -> u16
    ensures { result ≡ max a b }
{
    if a < b { b } else { a }
}

// Whether a cut left what was before or what comes after.
fn is_whole(standing: Standing) -> bool
    ensures { result ≡ (is_before standing || is_after standing) }
{
    is_before(standing) || is_after(standing)
}

fn is_before(standing: Standing) -> bool
    ensures { result ≡ is_before standing }
{
    matches!(standing, Standing::Before | Standing::BeforeButTries)
}

fn is_after(standing: Standing) -> bool
    ensures { result ≡ is_after standing }
{
    matches!(standing, Standing::After | Standing::AfterButTries)
}

fn is_by_calls(standing: Standing) -> bool
    ensures { result ≡ is_by_calls standing }
{
    matches!(standing, Standing::ChangedByCalls(_))
}

fn is_but_tries(standing: Standing) -> bool
    ensures { result ≡ is_but_tries standing }
{
    matches!(standing, Standing::BeforeButTries | Standing::AfterButTries)
}
