//! Joining the texts of all parts of a sweep to its report.
ghost use Rattle.std.specs.Prelude.{◌≡◌, ◌++◌, ◌∷◌, ◌<◌, ◌≤◌, ◌↔◌, [], ℕ, List, All, map, drop, replicate, false, length, slice_index_or, IsTrue, IfOk, IfErr, OnOk, MatchOption, MatchResult};
ghost use Rattle.std.specs.Bool.{MatchBool};
ghost use Rattle.std.specs.Borrow.{Bor};
ghost use Rattle.jcard_outcomes.specs.Join.{AreBodiesInOrder, AreBodiesOf, AreJoined, AreJoinedInOrder, AreOrdered, AreTold, IsAnswerTold, IsHeadFault};
ghost use Rattle.jcard_outcomes.specs.Join.{IsJoinFault, IsJoinOf, IsJoinOfCuts, IsNextFault, IsNextLine, IsNoCut, IsNoEnd, IsNoReport, IsReportOf, IsTellable, IsUncutTold, IsUnjoined, TellCuts, joined_text};
ghost use Rattle.jcard_outcomes.specs.Part.{has, line_start, told_cut};
ghost use Rattle.jcard_outcomes.specs.Report.{are_whole, report_text};
ghost use Rattle.jcard_outcomes.specs.declared.report.Sweep.{Sweep as ASweep};
ghost use Rattle.jcard_outcomes.specs.declared.standing.Cut.{Cut as ACut};

use crate::join_fault::JoinFault;
use crate::line::{after, cut_of, cut_once};
use crate::order::{in_order, push_text, text_at};
use crate::part::push_line_start;
use crate::recoveries::{Depth, push_recoveries};
use crate::rows::{is_same, push_rows};
use crate::standing::Cut;
use crate::verdict::{is_all_or_nothing, push_verdict};
use std::alloc::{AllocError, Global};

/// The report of a sweep, and whether each of its cuts was all or nothing, and no recovery made a difference.
#[derive(Drop)]
pub struct Joined {
    pub text: Vec<u8>,
    pub is_all_or_nothing: bool,
}

/// Joins what the texts of all parts of a sweep say after their heads, in any order, to what one run reports of it. Recoveries were cut
/// as deep as this.
pub fn join(alloc: Global, depth: Depth, texts: &[&[u8]]) -> Result<Joined, JoinFault>
    requires { 0 < length texts.now }
    ensures joined { MatchResult result
        (λ joined. AreJoined depth (map (λ (t : Bor (List ℕ)). t.now) texts.now) joined)
        (λ fault. IsJoinFault (map (λ (t : Bor (List ℕ)). t.now) texts.now) fault) }
    ensures parts { (sweep : ASweep) → IsTellable depth sweep
        → AreBodiesOf sweep (map (λ (t : Bor (List ℕ)). t.now) texts.now) → MatchResult result (λ joined. (joined.text.items ≡ report_text sweep)
        × (joined.is_all_or_nothing ≡ are_whole sweep.cuts.items))
        (λ fault. fault ≡ JoinFault.NoMemory) }
{
    let ordered = in_order(alloc, b"cut after ", texts)?;
    joined_in_order(alloc, depth, &ordered)
}

// Joins them, from the first part on.
fn joined_in_order(alloc: Global, depth: Depth, texts: &[&[u8]]) -> Result<Joined, JoinFault>
    requires { 0 < length texts.now }
    ensures joined { MatchResult result
        (λ joined. AreJoinedInOrder depth (map (λ (t : Bor (List ℕ)). t.now) texts.now) joined)
        (λ fault. IsUnjoined (map (λ (t : Bor (List ℕ)). t.now) texts.now) fault) }
    ensures parts { (sweep : ASweep) → IsTellable depth sweep
        → AreBodiesInOrder sweep (map (λ (t : Bor (List ℕ)). t.now) texts.now) → MatchResult result (λ joined. (joined.text.items ≡ report_text sweep)
        × (joined.is_all_or_nothing ≡ are_whole sweep.cuts.items))
        (λ fault. fault ≡ JoinFault.NoMemory) }
{
    let lines = ordered(alloc, texts)?;
    joined_lines(alloc, depth, &lines, texts.len())
}

// Joins the lines of this many parts.
fn joined_lines(
    alloc: Global,
    depth: Depth,
    lines: &[&[u8]],
    parts: usize,
) -> Result<Joined, JoinFault>
    requires some { 0 < parts }
    requires plain { All (λ t. has 10 t ≡ false) (map (λ (t : Bor (List ℕ)). t.now) lines.now) }
    ensures { IsJoinOf depth parts (map (λ (t : Bor (List ℕ)). t.now) lines.now) result }
{
    let cuts = cuts_of(alloc, lines)?;
    joined_cuts(alloc, depth, lines, &cuts, parts)
}

// Joins the lines of this many parts, which report these cuts.
fn joined_cuts(
    alloc: Global,
    depth: Depth,
    lines: &[&[u8]],
    cuts: &[Cut],
    parts: usize,
) -> Result<Joined, JoinFault>
    requires some { 0 < parts }
    requires told { TellCuts (map (λ (t : Bor (List ℕ)). t.now) lines.now) cuts.now }
    requires within { length cuts.now ≤ length lines.now }
    ensures { IsJoinOfCuts depth parts (map (λ (t : Bor (List ℕ)). t.now) lines.now) cuts.now result }
{
    let uncut = uncut_of(lines, cuts.len(), parts)?;
    joined_report(alloc, depth, cuts, uncut)
}

fn joined_report(
    alloc: Global,
    depth: Depth,
    cuts: &[Cut],
    uncut: &[u8],
) -> Result<Joined, JoinFault>
    ensures { MatchResult result (λ joined. IsReportOf depth cuts.now uncut.now joined)
        (λ fault. IsNoReport cuts.now uncut.now fault) }
{
    let Some(answer) = answer_of(uncut) else {
        return Err(JoinFault::BadLine(cuts.len()));
    };
    let text = joined_text(alloc, depth, cuts, answer, uncut)?;
    Ok(Joined {
        text,
        is_all_or_nothing: is_all_or_nothing(cuts),
    })
}

// The answer that is reported of the command that is not cut; none where its line has no form.
fn answer_of(uncut: &[u8]) -> Option<&[u8]>
    ensures { MatchOption result ((answer : List ℕ) → IsAnswerTold answer uncut.now → ⊥)
        (λ answer. IsAnswerTold answer.now uncut.now) }
{
    let Some(rest) = after(uncut, b"no cut, answer ") else {
        return None;
    };
    match cut_once(rest, b':') {
        Some((answer, _rest)) => Some(answer),
        None => None,
    }
}

// What the lines of all parts say, in the order of their numbers.
fn ordered<'a>(alloc: Global, texts: &[&'a [u8]]) -> Result<Vec<&'a [u8]>, JoinFault>
    requires { 0 < length texts.now }
    ensures read { IfOk result (λ lines. AreOrdered (map (λ (t : Bor (List ℕ)). t.now) texts.now)
        (map (λ (t : Bor (List ℕ)). t.now) lines.items)) }
    ensures fault { IfErr result (λ fault. IsNextFault (map (λ (t : Bor (List ℕ)). t.now) texts.now)
        fault) }
    ensures whole { (lines : List (List ℕ)) → AreOrdered (map (λ (t : Bor (List ℕ)). t.now) texts.now) lines
        → MatchResult result (λ r. map (λ (t : Bor (List ℕ)). t.now) r.items ≡ lines)
        (λ fault. fault ≡ JoinFault.NoMemory) }
{
    let mut rests = Vec::from_slice(alloc, texts)?;
    let mut lines = Vec::new(alloc);
    read_lines(alloc, &mut rests, &mut lines)?;
    Ok(lines)
}

// Reads what the lines of all parts say.
fn read_lines<'a>(
    alloc: Global,
    rests: &mut Vec<&'a [u8]>,
    lines: &mut Vec<&'a [u8]>,
) -> Result<(), JoinFault>
    requires some { 0 < length rests.old.items }
    requires none { lines.old.items ≡ [] }
    ensures read { IfOk result (λ _. AreOrdered (map (λ (t : Bor (List ℕ)). t.now) rests.old.items)
        (map (λ (t : Bor (List ℕ)). t.now) lines.new.items)) }
    ensures fault { IfErr result (λ fault. IsNextFault (map (λ (t : Bor (List ℕ)). t.now) rests.old.items)
        fault) }
    ensures whole { (all : List (List ℕ)) → AreOrdered (map (λ (t : Bor (List ℕ)). t.now) rests.old.items) all
        → MatchResult result (λ _. map (λ (t : Bor (List ℕ)). t.now) lines.new.items ≡ all)
        (λ fault. fault ≡ JoinFault.NoMemory) }
{
    for number in 0..usize::MAX {
        match next_line(alloc, rests, number)? {
            Some(told) => push_text(lines, told)?,
            None => return ended(rests, number),
        }
    }
    // There is no memory for this many lines.
    Err(JoinFault::NoMemory)
}

// Whether nothing is left after the lines before this one.
fn ended(rests: &[&[u8]], number: usize) -> Result<(), JoinFault>
    ensures whole { IfOk result (λ _. All (λ t. t.now ≡ []) rests.now) }
    ensures missing { IfErr result (λ fault. (fault ≡ JoinFault.Missing number)
        × (All (λ t. t.now ≡ []) rests.now → ⊥)) }
{
    if are_empty(rests) {
        return Ok(());
    }
    Err(JoinFault::Missing(number))
}

// Reads the line about this many writes from the text that has it; none where that text is read whole.
fn next_line<'a>(
    alloc: Global,
    rests: &mut Vec<&'a [u8]>,
    number: usize,
) -> Result<Option<&'a [u8]>, JoinFault>
    requires { 0 < length rests.old.items }
    ensures { IsNextLine number (map (λ (t : Bor (List ℕ)). t.now) rests.old.items)
        (map (λ (t : Bor (List ℕ)). t.now) rests.new.items) result }
{
    let parts = rests.len();
    let place = number % parts;
    let rest = text_at(rests, place);
    if rest.is_empty() {
        return Ok(None);
    }
    let Some((told, more)) = line_at(alloc, rest, number)? else {
        return Err(head_fault(alloc, rest, number, parts));
    };
    rests[place] = more;
    Ok(Some(told))
}

// What the line about this many writes says, with which a text begins, and what follows it.
fn line_at<'a>(
    alloc: Global,
    text: &'a [u8],
    number: usize,
) -> Result<Option<(&'a [u8], &'a [u8])>, AllocError>
    ensures { IfOk result (λ found. MatchOption found
        ((told rest : List ℕ) → text.now ≡ line_start number ++ (told ++ 10 ∷ rest) → ⊥)
        (λ r. (text.now ≡ line_start number ++ (r.0.now ++ 10 ∷ r.1.now)) × (has 10 r.0.now ≡ false))) }
{
    let mut start = Vec::new(alloc);
    push_line_start(&mut start, number)?;
    let Some(rest) = after(text, &start) else {
        return Ok(None);
    };
    Ok(cut_once(rest, b'\n'))
}

// Why a text does not begin with the line about this many writes: the one before it stands there again, or that line is missing.
fn head_fault(alloc: Global, text: &[u8], number: usize, parts: usize) -> JoinFault
    ensures { IsHeadFault parts number text.now result }
{
    if number < parts {
        return JoinFault::Missing(number);
    }
    match line_at(alloc, text, number - parts) {
        Ok(Some(_)) => JoinFault::Twice(number - parts),
        Ok(None) => JoinFault::Missing(number),
        Err(AllocError) => JoinFault::NoMemory,
    }
}

fn are_empty(rests: &[&[u8]]) -> bool
    ensures { IsTrue result ↔ All (λ t. t.now ≡ []) rests.now }
{
    rests.iter().all(|rest| rest.is_empty())
}

// The cuts that lines report, up to the first that reports none.
fn cuts_of(alloc: Global, lines: &[&[u8]]) -> Result<Vec<Cut>, JoinFault>
    requires { All (λ t. has 10 t ≡ false) (map (λ (t : Bor (List ℕ)). t.now) lines.now) }
    ensures told { IfOk result (λ cuts. TellCuts (map (λ (t : Bor (List ℕ)). t.now) lines.now)
        cuts.items) }
    ensures fault { IfErr result (λ fault. IsNoCut (map (λ (t : Bor (List ℕ)). t.now) lines.now) fault) }
    ensures whole { (cuts : List ACut) (uncut : List ℕ) (parts : ℕ)
        → AreTold cuts uncut parts (map (λ (t : Bor (List ℕ)). t.now) lines.now)
        → MatchResult result (λ r. map told_cut r.items ≡ map told_cut cuts)
        (λ fault. fault ≡ JoinFault.NoMemory) }
{
    let mut cuts = Vec::new(alloc);
    push_cuts(alloc, lines, &mut cuts)?;
    Ok(cuts)
}

fn push_cuts(alloc: Global, lines: &[&[u8]], cuts: &mut Vec<Cut>) -> Result<(), JoinFault>
    requires plain { All (λ t. has 10 t ≡ false) (map (λ (t : Bor (List ℕ)). t.now) lines.now) }
    requires none { cuts.old.items ≡ [] }
    ensures told { IfOk result (λ _. TellCuts (map (λ (t : Bor (List ℕ)). t.now) lines.now)
        cuts.new.items) }
    ensures fault { IfErr result (λ fault. IsNoCut (map (λ (t : Bor (List ℕ)). t.now) lines.now) fault) }
    ensures whole { (all : List ACut) (uncut : List ℕ) (parts : ℕ)
        → AreTold all uncut parts (map (λ (t : Bor (List ℕ)). t.now) lines.now)
        → MatchResult result (λ _. map told_cut cuts.new.items ≡ map told_cut all)
        (λ fault. fault ≡ JoinFault.NoMemory) }
{
    for (number, told) in lines.iter().enumerate() {
        if is_uncut(told) {
            return Ok(());
        }
        match cut_of(alloc, told)? {
            Some(cut) => push_cut(cuts, cut)?,
            None => return Err(JoinFault::BadLine(number)),
        }
    }
    Ok(())
}

fn push_cut(cuts: &mut Vec<Cut>, cut: Cut) -> Result<(), JoinFault>
    ensures pushed { OnOk result (cuts.new.items ≡ cuts.old.items ++ cut ∷ []) }
    ensures refused { IfErr result (λ fault. fault ≡ JoinFault.NoMemory) }
{
    match cuts.push(cut) {
        Ok(()) => Ok(()),
        Err(_) => Err(JoinFault::NoMemory),
    }
}

// Whether a line reports a number that does not cut.
fn is_uncut(told: &[u8]) -> bool
    ensures { MatchBool result (IsUncutTold told.now) (IsUncutTold told.now → ⊥) }
{
    match after(told, b"no cut, answer ") {
        Some(_rest) => true,
        None => false,
    }
}

// What the lines after this many cuts say: as many as there are parts, and all the same.
fn uncut_of<'a>(lines: &[&'a [u8]], count: usize, parts: usize) -> Result<&'a [u8], JoinFault>
    requires some { 0 < parts }
    requires within { count ≤ length lines.now }
    ensures { MatchResult result
        (λ uncut. drop count (map (λ (t : Bor (List ℕ)). t.now) lines.now) ≡ replicate parts uncut.now)
        (λ fault. IsNoEnd parts count (map (λ (t : Bor (List ℕ)). t.now) lines.now) fault) }
{
    let total = lines.len();
    let ends = &lines[count..];
    if ends.len() < parts {
        return Err(JoinFault::Missing(total));
    }
    let uncut = ends[0];
    for (place, told) in ends.iter().enumerate() {
        if place >= parts || !is_same(told, uncut) {
            return Err(JoinFault::OtherSweep(count + place));
        }
    }
    Ok(uncut)
}

// The report of these cuts and of recoveries as deep as this, with this line of the command that is not cut, which states this answer.
fn joined_text(
    alloc: Global,
    depth: Depth,
    cuts: &[Cut],
    answer: &[u8],
    uncut: &[u8],
) -> Result<Vec<u8>, AllocError>
    ensures { IfOk result (λ text. text.items ≡ joined_text depth cuts.now answer.now uncut.now) }
{
    let mut text = Vec::new(alloc);
    push_rows(alloc, &mut text, cuts)?;
    text.extend_from_slice(uncut)?;
    text.extend_from_slice(b"\n")?;
    push_verdict(&mut text, answer, cuts)?;
    push_recoveries(&mut text, depth, cuts)?;
    Ok(text)
}
