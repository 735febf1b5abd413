//! Putting the texts of parts into the order of the numbers with which they begin.
ghost use Rattle.std.specs.Prelude.{◌≡◌, ◌++◌, ◌∷◌, ◌<◌, ◌≤◌, ◌^◌, [], ℕ, List, map, length, slice_index_or, IfErr, IfOk, MatchOption, MatchResult, OnOk};
ghost use Rattle.std.specs.Bool.{MatchBool};
ghost use Rattle.std.specs.Borrow.{Bor};
ghost use Rattle.jcard_outcomes.specs.Order.{AreInOrder, AreUnplaced, IsOnlyAt, IsUnplaced};

use crate::join_fault::JoinFault;
use crate::line::after;
use crate::part::push_numbered;
use std::alloc::Global;

/// The texts that begin with lines about all numbers of what this label says, from the first number, 0, on.
pub(crate) fn in_order<'a>(
    alloc: Global,
    label: &[u8],
    texts: &[&'a [u8]],
) -> Result<Vec<&'a [u8]>, JoinFault>
    ensures placed { MatchResult result
        (λ ordered. AreInOrder label.now (map (λ (t : Bor (List ℕ)). t.now) texts.now)
        (map (λ (t : Bor (List ℕ)). t.now) ordered.items))
        (λ fault. AreUnplaced label.now (map (λ (t : Bor (List ℕ)). t.now) texts.now) fault) }
    ensures few { length texts.now < 2 ^ 64 }
{
    let count = texts.len();
    let mut ordered = Vec::new(alloc);
    for number in 0..count {
        let place = only_at(alloc, label, texts, number)?;
        push_text(&mut ordered, text_at(texts, place))?;
    }
    Ok(ordered)
}

// The place of the only text that begins with the line about this number.
fn only_at(alloc: Global, label: &[u8], texts: &[&[u8]], number: usize) -> Result<usize, JoinFault>
    ensures { MatchResult result
        (λ place. IsOnlyAt label.now (map (λ (t : Bor (List ℕ)). t.now) texts.now) number place)
        (λ fault. IsUnplaced label.now (map (λ (t : Bor (List ℕ)). t.now) texts.now) number fault) }
{
    let mut start = Vec::new(alloc);
    push_numbered(&mut start, label, number)?;
    let Some(place) = first_with(texts, &start, 0) else {
        return Err(JoinFault::Missing(number));
    };
    match first_with(texts, &start, place + 1) {
        Some(_another) => Err(JoinFault::Twice(number)),
        None => Ok(place),
    }
}

// The place of the first text, from this one on, that begins so.
fn first_with(texts: &[&[u8]], start: &[u8], from: usize) -> Option<usize>
    ensures { MatchOption result ((j : ℕ) (rest : List ℕ) → from ≤ j → j < length texts.now
        → slice_index_or (map (λ (t : Bor (List ℕ)). t.now) texts.now) j [] ≡ start.now ++ rest → ⊥)
        (λ i. (from ≤ i) × (i < length texts.now) × (rest : List ℕ)
        × (slice_index_or (map (λ (t : Bor (List ℕ)). t.now) texts.now) i [] ≡ start.now ++ rest)
        × ((j : ℕ) (more : List ℕ) → from ≤ j → j < i
        → slice_index_or (map (λ (t : Bor (List ℕ)). t.now) texts.now) j [] ≡ start.now ++ more → ⊥)) }
{
    for place in from..texts.len() {
        if begins(text_at(texts, place), start) {
            return Some(place);
        }
    }
    None
}

fn begins(text: &[u8], start: &[u8]) -> bool
    ensures { MatchBool result ((rest : List ℕ) × (text.now ≡ start.now ++ rest))
        ((rest : List ℕ) → text.now ≡ start.now ++ rest → ⊥) }
{
    match after(text, start) {
        Some(_rest) => true,
        None => false,
    }
}

/// The text at a place.
pub(crate) fn text_at<'a>(texts: &[&'a [u8]], place: usize) -> &'a [u8]
    requires { place < length texts.now }
    ensures { result.now ≡ slice_index_or (map (λ (t : Bor (List ℕ)). t.now) texts.now) place [] }
{
    texts[place]
}

/// Puts a text after others.
pub(crate) fn push_text<'a>(texts: &mut Vec<&'a [u8]>, text: &'a [u8]) -> Result<(), JoinFault>
    ensures pushed { OnOk result (map (λ (t : Bor (List ℕ)). t.now) texts.new.items
        ≡ map (λ (t : Bor (List ℕ)). t.now) texts.old.items ++ text.entry.now ∷ []) }
    ensures refused { IfErr result (λ fault. fault ≡ JoinFault.NoMemory) }
{
    match texts.push(text) {
        Ok(()) => Ok(()),
        Err(_) => Err(JoinFault::NoMemory),
    }
}
