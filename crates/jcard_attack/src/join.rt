//! Joining the lines of all parts of the faults of a command to the report.
ghost use Rattle.std.specs.Prelude.{◌≡◌, ◌++◌, ◌<◌, ◌≤◌, [], List, ℕ, true, false, IfOk, MatchOption, MatchResult, OnOk, is_some, length, map, option_map, replicate, slice_get};
ghost use Rattle.std.specs.Borrow.{Bor};
ghost use Rattle.jcard_attack.specs.PartLines.{AreNoLines, AreReadTo, IsJoined, IsMore, IsNoMore, IsNoReport, IsReport, IsReportOf, IsTellable, IsUnjoined};
ghost use Rattle.jcard_attack.specs.PartLines.{accepted_told, first_name, name_told, shares_text, silence_told, tells, told_accepted, told_as, verdict_told};
ghost use Rattle.jcard_attack.specs.Report.{any_accepted, report_text, told_by};
ghost use Rattle.jcard_attack.specs.declared.outcomes.AttackSweep.{AttackSweep as AnAttackSweep};

use crate::fault_text::ToldFault;
use crate::part_lines::{cut_once, fault_of, has_tab};
use crate::rows::push_told_rows;
use crate::verdict::{lent, push_accepted, push_silence};
use jcard_outcomes::join_fault::JoinFault;
use jcard_outcomes::rows::is_same;
use std::alloc::{AllocError, Global};

/// The report of a command with faults, and whether one of them was accepted.
#[derive(Drop)]
pub struct JoinedAttack {
    pub text: Vec<u8>,
    pub is_accepted: bool,
}

// What lines of parts state: their faults, and at the end of each part the command without one.
#[derive(Drop)]
struct ReadLines<'a> {
    faults: Vec<ToldFault<'a>>,
    ends: Vec<&'a [u8]>,
}

/// Joins the lines of this many parts, one after the other, to what one run reports of all faults.
pub fn join_lines(alloc: Global, text: &[u8], parts: usize) -> Result<JoinedAttack, JoinFault>
    requires { 0 < parts }
    ensures joined { MatchResult result (IsJoined parts text.now) (IsUnjoined parts text.now) }
    ensures whole { (s : AnAttackSweep) → IsTellable s → text.now ≡ shares_text s parts parts
        → MatchResult result (λ joined. (joined.text.items ≡ report_text s)
        × (joined.is_accepted ≡ any_accepted s.strikes.items)) (λ fault. fault ≡ JoinFault.NoMemory) }
{
    joined(alloc, text, parts)
}

// The same, of which only this is said.
fn joined(alloc: Global, text: &[u8], parts: usize) -> Result<JoinedAttack, JoinFault>
    requires { 0 < parts }
    ensures { MatchResult result (IsJoined parts text.now) (IsUnjoined parts text.now) }
{
    let lines = read(alloc, text)?;
    joined_lines(alloc, &lines, parts)
}

// The report of these lines of this many parts.
fn joined_lines(
    alloc: Global,
    lines: &ReadLines<'_>,
    parts: usize,
) -> Result<JoinedAttack, JoinFault>
    requires { 0 < parts }
    ensures { MatchResult result (IsReport parts lines.now) (IsNoReport parts lines.now) }
{
    match end_of(&lines.ends, parts) {
        Ok(undisturbed) => joined_report(alloc, &lines.faults, undisturbed),
        Err(place) => Err(JoinFault::BadLine(place)),
    }
}

// The report of these faults, with this of the command without one.
fn joined_report(
    alloc: Global,
    faults: &[ToldFault],
    undisturbed: &[u8],
) -> Result<JoinedAttack, JoinFault>
    ensures { MatchResult result (IsReportOf (map told_by faults.now) undisturbed.now)
        (λ fault. fault ≡ JoinFault.NoMemory) }
{
    let mut text = Vec::new(alloc);
    push_told_rows(alloc, &mut text, faults)?;
    text.extend_from_slice(undisturbed)?;
    text.extend_from_slice(b"\n")?;
    let is_accepted = push_verdict(alloc, &mut text, faults)?;
    Ok(JoinedAttack { text, is_accepted })
}

// Writes the verdict over these faults; whether one of them was accepted.
fn push_verdict(alloc: Global, text: &mut Vec<u8>, faults: &[ToldFault]) -> Result<bool, AllocError>
    ensures { IfOk result (λ is_accepted. (text.new.items ≡ text.old.items ++ verdict_told (map told_by faults.now))
        × (is_accepted ≡ is_some (slice_get (told_accepted (map told_by faults.now)) 0))) }
{
    let is_accepted = push_told_accepted(alloc, text, faults)?;
    push_told_silent(alloc, text, faults)?;
    text.extend_from_slice(b"\n")?;
    Ok(is_accepted)
}

// Writes how many of these faults were accepted, and the first; whether one was.
fn push_told_accepted(
    alloc: Global,
    text: &mut Vec<u8>,
    faults: &[ToldFault],
) -> Result<bool, AllocError>
    ensures { IfOk result (λ is_accepted. (text.new.items ≡ text.old.items ++ accepted_told (map told_by faults.now))
        × (is_accepted ≡ is_some (slice_get (told_accepted (map told_by faults.now)) 0))) }
{
    let accepted = told_as(alloc, b"ACCEPTED", faults)?;
    let first = first_name(alloc, &accepted)?;
    push_accepted(text, faults.len(), accepted.len(), lent(&first))?;
    Ok(first.is_some())
}

// Writes how many of these faults changed something in silence, and the first.
fn push_told_silent(
    alloc: Global,
    text: &mut Vec<u8>,
    faults: &[ToldFault],
) -> Result<(), AllocError>
    ensures { OnOk result (text.new.items ≡ text.old.items ++ silence_told (map told_by faults.now)) }
{
    let silent = told_as(alloc, b"CHANGED IN SILENCE", faults)?;
    let first = first_name(alloc, &silent)?;
    push_silence(text, silent.len(), lent(&first))
}

// The faults of which what came begins with these words.
fn told_as<'a>(
    alloc: Global,
    words: &[u8],
    faults: &[ToldFault<'a>],
) -> Result<Vec<ToldFault<'a>>, AllocError>
    ensures { IfOk result (λ some. map told_by some.items ≡ told_as words.now (map told_by faults.now)) }
{
    let mut some = Vec::new(alloc);
    for fault in faults {
        if tells(words, *fault) {
            some.push(*fault)?;
        }
    }
    Ok(some)
}

// Whether what came of a fault begins with these words.
fn tells(words: &[u8], fault: ToldFault) -> bool
    ensures { result ≡ tells words.now (told_by fault.entry) }
{
    is_same(&fault.told[..words.len().min(fault.told.len())], words)
}

// The name of the first of these faults, if there is one.
fn first_name(alloc: Global, faults: &[ToldFault]) -> Result<Option<Vec<u8>>, AllocError>
    ensures { IfOk result (λ name. option_map (λ text. text.items) name ≡ first_name (map told_by faults.now)) }
{
    let Some((first, _others)) = faults.split_first() else {
        return Ok(None);
    };
    let name = name_told(alloc, *first)?;
    Ok(Some(name))
}

// A fault by its name.
fn name_told(alloc: Global, fault: ToldFault) -> Result<Vec<u8>, AllocError>
    ensures { IfOk result (λ name. name.items ≡ name_told (told_by fault.entry)) }
{
    let mut name = Vec::from_slice(alloc, fault.model)?;
    name.extend_from_slice(b" ")?;
    name.extend_from_slice(fault.number)?;
    name.extend_from_slice(fault.second)?;
    Ok(name)
}

// What each of this many parts states of the command without a fault; or the number of the end that is another, one too many or one that is
// missing.
fn end_of<'a>(ends: &[&'a [u8]], parts: usize) -> Result<&'a [u8], usize>
    requires { 0 < parts }
    ensures { MatchResult result
        (λ undisturbed. map (λ (t : Bor (List ℕ)). t.now) ends.now ≡ replicate parts undisturbed.now)
        (λ place. (place ≤ length ends.now)
        × ((undisturbed : List ℕ) → map (λ (t : Bor (List ℕ)). t.now) ends.now ≡ replicate parts undisturbed → ⊥)) }
{
    if ends.len() < parts {
        return Err(ends.len());
    }
    let undisturbed = ends[0];
    for (place, end) in ends.iter().enumerate() {
        if place >= parts || !is_same(end, undisturbed) {
            return Err(place);
        }
    }
    Ok(undisturbed)
}

// What the lines of a text state.
fn read(alloc: Global, text: &[u8]) -> Result<ReadLines<'_>, JoinFault>
    ensures { MatchResult result (AreReadTo text.now []) (AreNoLines text.now) }
{
    let mut lines = ReadLines {
        faults: Vec::new(alloc),
        ends: Vec::new(alloc),
    };
    let mut rest = text;
    while let Some((line, more)) = cut_once(rest, b'\n') {
        push_read(&mut lines, line)?;
        rest = more;
    }
    if rest.is_empty() {
        return Ok(lines);
    }
    Err(JoinFault::BadLine(lines.ends.len()))
}

// Adds what a line states.
fn push_read<'a>(lines: &mut ReadLines<'a>, line: &'a [u8]) -> Result<(), JoinFault>
    ensures { MatchResult result (λ _. IsMore lines.old lines.new line.now)
        (IsNoMore lines.old line.now) }
{
    if !has_tab(line) {
        return pushed(lines.ends.push(line).is_ok());
    }
    match fault_of(line) {
        Some(fault) => pushed(lines.faults.push(fault).is_ok()),
        None => Err(JoinFault::BadLine(lines.ends.len())),
    }
}

// What was pushed, or memory was refused.
fn pushed(is_pushed: bool) -> Result<(), JoinFault>
    ensures { MatchResult result (λ _. is_pushed ≡ true) (λ fault. (is_pushed ≡ false) × (fault ≡ JoinFault.NoMemory)) }
{
    if is_pushed {
        return Ok(());
    }
    Err(JoinFault::NoMemory)
}
