//! Shares of the commands of a script, so that several runs cut them: what the text of each says, and joining all of them.
ghost use Rattle.std.specs.Prelude.{◌≡◌, ◌++◌, ◌∷◌, ◌<◌, ◌&&◌, ℕ, List, Bool, [], codes, decimal, map, length, slice_index_or, IfErr, IfOk, MatchOption, MatchResult, OnOk};
ghost use Rattle.std.specs.Bool.{MatchBool};
ghost use Rattle.std.specs.Borrow.{Bor};
ghost use Rattle.jcard_outcomes.specs.CommandShares.{AreNoShares, AreShares, AreSharesJoined, IsNoShare, IsOfMore, share_start, share_text, whole_told};
ghost use Rattle.jcard_outcomes.specs.Part.{head_text};

use crate::join::Joined;
use crate::join_fault::JoinFault;
use crate::line::{after, cut_once, word_of};
use crate::order::in_order;
use crate::part::{Share, push_head, push_numbered};
use jcard_texts::numbers::push_number;
use std::alloc::{AllocError, Global};

/// The text of a share of the commands of a script: of which sweep it is, which share, whether the cuts of each of its commands were
/// all or nothing, and the verdicts over these.
pub fn share_lines(
    alloc: Global,
    name: &[u8],
    share: Share,
    is_whole: bool,
    verdicts: &[u8],
) -> Result<Vec<u8>, AllocError>
    ensures { IfOk result (λ text. text.items
        ≡ head_text name.now ++ share_text share.first share.step is_whole verdicts.now) }
{
    let mut text = Vec::new(alloc);
    push_head(&mut text, name)?;
    push_share_start(&mut text, usize::from(share.first), usize::from(share.step))?;
    push_told(&mut text, is_whole, verdicts)?;
    Ok(text)
}

// Writes how the first line of share `number` of `count` begins.
fn push_share_start(text: &mut Vec<u8>, number: usize, count: usize) -> Result<(), AllocError>
    ensures { OnOk result (text.new.items ≡ text.old.items ++ share_start number count) }
{
    push_numbered(text, b"share ", number)?;
    text.extend_from_slice(b"of ")?;
    push_number(text, count)?;
    text.extend_from_slice(b",")
}

// Writes the end of that line, and the verdicts.
fn push_told(text: &mut Vec<u8>, is_whole: bool, verdicts: &[u8]) -> Result<(), AllocError>
    ensures { OnOk result (text.new.items ≡ text.old.items
        ++ (whole_told is_whole ++ verdicts.now)) }
{
    text.extend_from_slice(whole_told(is_whole))?;
    text.extend_from_slice(verdicts)
}

fn whole_told(is_whole: bool) -> &'static [u8]
    ensures { result.now ≡ whole_told is_whole }
{
    if is_whole {
        b" all or nothing\n"
    } else {
        b" NOT all or nothing\n"
    }
}

/// Joins what the texts of all shares say after their heads, in any order, to what one run reports of all commands.
pub fn join_shares(alloc: Global, texts: &[&[u8]]) -> Result<Joined, JoinFault>
    ensures { MatchResult result
        (λ joined. AreSharesJoined (map (λ (t : Bor (List ℕ)). t.now) texts.now) joined)
        (λ fault. AreNoShares (map (λ (t : Bor (List ℕ)). t.now) texts.now) fault) }
{
    let ordered = in_order(alloc, b"share ", texts)?;
    shares_in_order(alloc, &ordered)
}

// Joins them, from the first share on.
fn shares_in_order(alloc: Global, texts: &[&[u8]]) -> Result<Joined, JoinFault>
    ensures joined { IfOk result (λ joined. AreShares 0 (length texts.now)
        (map (λ (t : Bor (List ℕ)). t.now) texts.now) joined.text.items joined.is_all_or_nothing) }
    ensures fault { IfErr result (λ fault. (k : ℕ) × (k < length texts.now)
        × IsNoShare k (length texts.now)
        (slice_index_or (map (λ (t : Bor (List ℕ)). t.now) texts.now) k []) fault) }
{
    let mut text = Vec::new(alloc);
    let mut is_all_or_nothing = true;
    for (number, share) in texts.iter().enumerate() {
        let (is_whole, verdicts) = told_by(alloc, share, number, texts.len())?;
        text.extend_from_slice(verdicts)?;
        is_all_or_nothing = both(is_all_or_nothing, is_whole);
    }
    Ok(Joined {
        text,
        is_all_or_nothing,
    })
}

fn both(one: bool, other: bool) -> bool
    ensures { result ≡ (one && other) }
{
    one && other
}

// What the text of share `number` of `count` says.
fn told_by<'a>(
    alloc: Global,
    text: &'a [u8],
    number: usize,
    count: usize,
) -> Result<(bool, &'a [u8]), JoinFault>
    ensures { MatchResult result (λ told. text.now ≡ share_text number count told.0 told.1.now)
        (λ fault. IsNoShare number count text.now fault) }
{
    let mut start = Vec::new(alloc);
    push_share_start(&mut start, number, count)?;
    if let Some(rest) = after(text, &start) {
        if let Some(told) = verdicts_in(rest) {
            return Ok(told);
        }
    }
    if is_of_more(alloc, text, number, count)? {
        return Err(JoinFault::Missing(count));
    }
    Err(JoinFault::BadLine(number))
}

// Whether the cuts were all or nothing, and the verdicts.
fn verdicts_in(text: &[u8]) -> Option<(bool, &[u8])>
    ensures { MatchOption result
        ((whole : Bool) (verdicts : List ℕ) → text.now ≡ whole_told whole ++ verdicts → ⊥)
        (λ told. text.now ≡ whole_told told.0 ++ told.1.now) }
{
    if let Some(verdicts) = after(text, b" all or nothing\n") {
        return Some((true, verdicts));
    }
    match after(text, b" NOT all or nothing\n") {
        Some(verdicts) => Some((false, verdicts)),
        None => None,
    }
}

// Whether a text is that of share `number` of more than `count`.
fn is_of_more(alloc: Global, text: &[u8], number: usize, count: usize) -> Result<bool, AllocError>
    ensures { IfOk result (λ more. MatchBool more (IsOfMore number count text.now)
        (IsOfMore number count text.now → ⊥)) }
{
    let mut start = Vec::new(alloc);
    push_numbered(&mut start, b"share ", number)?;
    let Some(rest) = after(text, &start) else {
        return Ok(false);
    };
    Ok(tells_more(rest, count))
}

// Whether a first line goes on with a count of shares that is more than this.
fn tells_more(rest: &[u8], count: usize) -> bool
    ensures { MatchBool result
        ((m : ℕ) × (more : List ℕ) × (count < m) × (m < 65536) × (rest.now ≡ codes "of " ++ (decimal m ++ 44 ∷ more)))
        ((m : ℕ) (more : List ℕ) → count < m → m < 65536 → rest.now ≡ codes "of " ++ (decimal m ++ 44 ∷ more) → ⊥) }
{
    let Some(rest) = after(rest, b"of ") else {
        return false;
    };
    let Some((digits, _rest)) = cut_once(rest, b',') else {
        return false;
    };
    let Some(shares) = word_of(digits) else {
        return false;
    };
    if usize::from(shares) > count {
        return true;
    }
    false
}
