//! Cutting the power within a command, after each number of its word writes.
ghost use Rattle.std.specs.Prelude.{◌≡◌, ◌<◌, ◌+◌, ◌*◌, ◌++◌, ◌∷◌, ℕ, true, List, [], None, length, IfOk, IfSome, MatchOption, MatchResult};
ghost use Rattle.jcard_sweeps.specs.declared.sweep_fault.TearFault.TheVariants.{NoMemory};
ghost use Rattle.jcard_tear.specs.Faults.{IsUncutFor};
ghost use Rattle.jcard_tear.specs.KeptCard.{IsKeptCut, IsKeptFor, IsKnown, IsLastCut, IsReportedAt, IsShort};
ghost use Rattle.jcard_sweeps.specs.declared.command.Command.{Command as CommandText};
ghost use Rattle.jcard_tear.specs.Sweep.{AreCuts, IsCutAt, IsToldAs, IsUncutAt, cut_script};
ghost use Rattle.jcard_sweeps.specs.Report.{AreOfImage};

use crate::kept_card::{KeptCut, cut_copy, kept_for};
use crate::last_cut::{LastCut, reported_cut};
use crate::recoveries::recoveries;
use crate::sweep::{left_by_probe, probe_fault};
use itoa::Buffer;
use jc_objects::image_objects::ImageObjects;
use jcard_outcomes::part::Share;
use jcard_outcomes::recoveries::Recoveries;
use jcard_outcomes::standing::{Cut, Left, lost_of, standing_of};
use jcard_sweeps::at_command::AtCommand;
use jcard_sweeps::command::{Behind, Command};
use jcard_sweeps::progress::Progress;
use jcard_sweeps::report::told;
use jcard_sweeps::runs::run_copy;
use jcard_sweeps::sweep_fault::TearFault;
use std::alloc::{AllocError, Global};

/// The most cuts of a command.
const MOST: u16 = 65_535;

/// What follows each cut of a command in a line of a script.
#[derive(Clone, Copy, Drop)]
pub struct FollowUp<'a> {
    /// The lines of a probe; where none are given, the SELECT of the applet that is selected before the command.
    pub probe: Option<&'a [u8]>,
    /// What else comes.
    pub behind: Behind,
}

/// What the cuts of a command are compared with, and by which objects they are reported.
#[derive(Clone, Copy, Drop)]
pub(crate) struct Baseline<'a> {
    /// What was before the command.
    pub(crate) before: &'a Left,
    /// Whether it is known of a card that powers up over the words of before that it gives the answers of before.
    pub(crate) is_known: bool,
    /// What the command leaves where it is not cut.
    pub(crate) after: &'a Left,
    /// The words with the tries of OwnerPINs, which no comparison looks at.
    pub(crate) spared: &'a [u16],
    /// Those words, and the ones that non-atomic calls of the command write.
    pub(crate) lenient: &'a [u16],
    /// The objects that stood before the command, where it is reported which of their cells changed.
    pub(crate) objects: &'a Option<ImageObjects>,
}

/// What all cuts of a command share.
#[derive(Drop)]
pub(crate) struct Shared<'a> {
    /// The words of the image.
    pub(crate) words: &'a [u16],
    /// The command that is cut.
    pub(crate) command: Command<'a>,
    /// The card at the command, where it is kept.
    pub(crate) card: Option<AtCommand>,
    /// What they are compared with.
    pub(crate) baseline: Baseline<'a>,
}

/// What the cuts in a part left, from its first on, up to the number of writes with which the command is not cut.
pub(crate) fn cut_all<P: Progress>(
    alloc: Global,
    words: &[u16],
    command: Command,
    baseline: Baseline,
    share: Share,
    progress: &mut P,
) -> Result<Vec<Cut>, TearFault>
    requires short { length words.now < 65536 }
    requires whole { AreOfImage baseline.objects.now }
    requires known { baseline.is_known ≡ true → IsKnown command baseline.before.now }
    ensures cut { MatchResult result
        (λ cuts. AreCuts words.now command.entry baseline.entry share.first share.step cuts.items
        × IsUncutAt words.now command.entry (share.first + share.step * length cuts.items))
        (λ fault. IsUncutFor words.now command.entry share.step fault) }
    ensures below { IfOk result (λ cuts. share.first + share.step * length cuts.items < 65536) }
{
    let shared = Shared {
        words,
        command,
        card: kept_for(alloc, words, command),
        baseline,
    };
    let cuts = cuts_of(alloc, &shared, share, progress);
    // Of its store less is let go than of the card.
    if let Some(kept) = shared.card {
        let _store = kept.begun.into_store();
    }
    cuts
}

// What the cuts in a part left. What all share is the caller's.
fn cuts_of<P: Progress>(
    alloc: Global,
    shared: &Shared<'_>,
    share: Share,
    progress: &mut P,
) -> Result<Vec<Cut>, TearFault>
    requires short { length shared.now.words.now < 65536 }
    requires whole { AreOfImage shared.now.baseline.objects.now }
    requires card { IfSome shared.now.card (λ card. IsKeptFor shared.now.words.now shared.now.command card) }
    requires known { shared.now.baseline.is_known ≡ true
        → IsKnown shared.now.command shared.now.baseline.before.now }
    ensures cut { MatchResult result
        (λ cuts. AreCuts shared.now.words.now shared.now.command shared.now.baseline share.first share.step cuts.items
        × IsUncutAt shared.now.words.now shared.now.command (share.first + share.step * length cuts.items))
        (λ fault. IsUncutFor shared.now.words.now shared.now.command share.step fault) }
    ensures below { IfOk result (λ cuts. share.first + share.step * length cuts.items < 65536) }
{
    let mut last = None;
    let mut cuts = Vec::new(alloc);
    push_cuts(alloc, shared, share, &mut last, &mut cuts, progress)?;
    Ok(cuts)
}

// Adds what these cuts left. What is let go at the end is the caller's, so that this has nothing to let go.
fn push_cuts<P: Progress>(
    alloc: Global,
    shared: &Shared<'_>,
    share: Share,
    last: &mut Option<LastCut>,
    cuts: &mut Vec<Cut>,
    progress: &mut P,
) -> Result<(), TearFault>
    requires short { length shared.now.words.now < 65536 }
    requires whole { AreOfImage shared.now.baseline.objects.now }
    requires card { IfSome shared.now.card (λ card. IsKeptFor shared.now.words.now shared.now.command card) }
    requires known { shared.now.baseline.is_known ≡ true
        → IsKnown shared.now.command shared.now.baseline.before.now }
    requires first { last.old ≡ None }
    requires none { cuts.old.items ≡ [] }
    ensures cut { MatchResult result
        (λ _. AreCuts shared.now.words.now shared.now.command shared.now.baseline share.first share.step cuts.new.items
        × IsUncutAt shared.now.words.now shared.now.command (share.first + share.step * length cuts.new.items))
        (λ fault. IsUncutFor shared.now.words.now shared.now.command share.step fault) }
    ensures below { IfOk result (λ _. share.first + share.step * length cuts.new.items < 65536) }
{
    let mut number = share.first;
    for _place in 0..MOST {
        progress.tell_cut(number);
        let Some(cut) = next_cut(alloc, number, shared, last)? else {
            return Ok(());
        };
        push_cut(cuts, cut)?;
        let Some(next) = number.checked_add(share.step) else {
            return Err(TearFault::TooManyCuts);
        };
        number = next;
    }
    Err(TearFault::TooManyCuts)
}

// What is reported of a cut of the command after this many writes; none where it is not cut. What was reported last may be reported
// again.
fn next_cut(
    alloc: Global,
    number: u16,
    shared: &Shared<'_>,
    last: &mut Option<LastCut>,
) -> Result<Option<Cut>, TearFault>
    requires short { length shared.now.words.now < 65536 }
    requires whole { AreOfImage shared.now.baseline.objects.now }
    requires card { IfSome shared.now.card (λ card. IsKeptFor shared.now.words.now shared.now.command card) }
    requires known { shared.now.baseline.is_known ≡ true
        → IsKnown shared.now.command shared.now.baseline.before.now }
    requires last { IfSome last.old (λ reported. IsLastCut shared.now reported) }
    ensures small { number < 65536 }
    ensures last { IfSome last.new (λ reported. IsLastCut shared.now reported) }
    ensures cut { MatchResult result
        (λ cut. MatchOption cut (IsUncutAt shared.now.words.now shared.now.command number)
        (λ cut. IsReportedAt shared.now number cut))
        (λ fault. (step : ℕ) → IsUncutFor shared.now.words.now shared.now.command step fault) }
{
    match cut_of_card(alloc, number, shared) {
        Some(KeptCut::Uncut) => Ok(None),
        Some(KeptCut::Left(found)) => Ok(Some(reported_cut(alloc, shared, found, last)?)),
        None => cut_anew(alloc, number, shared),
    }
}

// What came of a cut of a copy of the card at the command, if it is kept and can be copied.
fn cut_of_card(alloc: Global, number: u16, shared: &Shared<'_>) -> Option<KeptCut>
    ensures cut { IfSome result (λ cut. (words : List ℕ) (c : CommandText)
        → IfSome shared.now.card (IsKeptFor words c) → IsKeptCut words c number cut) }
    ensures short { IfSome result IsShort }
{
    match &shared.card {
        Some(card) => cut_copy(alloc, card, number),
        None => None,
    }
}

// What is reported of a cut for which the script is carried out from its first line on; none where the command is not cut.
fn cut_anew(alloc: Global, number: u16, shared: &Shared<'_>) -> Result<Option<Cut>, TearFault>
    requires short { length shared.now.words.now < 65536 }
    requires whole { AreOfImage shared.now.baseline.objects.now }
    ensures { MatchResult result
        (λ cut. MatchOption cut (IsUncutAt shared.now.words.now shared.now.command number)
        (λ cut. IsReportedAt shared.now number cut))
        (λ fault. (step : ℕ) → IsUncutFor shared.now.words.now shared.now.command step fault) }
{
    let Some((left, recoveries)) = cut_at(alloc, shared.words, shared.command, number)? else {
        return Ok(None);
    };
    let cut = told_cut(alloc, &shared.baseline, &left, recoveries)?;
    Ok(Some(cut))
}

/// What is reported of a cut that left this, and after which recoveries were like this.
pub(crate) fn told_cut(
    alloc: Global,
    baseline: &Baseline<'_>,
    left: &Left,
    recoveries: Recoveries,
) -> Result<Cut, AllocError>
    requires { AreOfImage baseline.now.objects.now }
    ensures told { IfOk result (λ cut. IsToldAs baseline.now left.now cut) }
    ensures recoveries { IfOk result (λ cut. cut.recoveries ≡ recoveries) }
{
    let answers = told(alloc, baseline.objects, left)?;
    let standing = standing_of(
        baseline.spared,
        baseline.lenient,
        baseline.before,
        baseline.after,
        &left.words,
        &left.answers,
    );
    let lost = lost_of(standing, baseline.before, &left.words);
    Ok(Cut {
        standing,
        lost,
        answers,
        recoveries,
    })
}

fn push_cut(cuts: &mut Vec<Cut>, cut: Cut) -> Result<(), TearFault>
    ensures { MatchResult result (λ _. cuts.new.items ≡ cuts.old.items ++ cut ∷ [])
        (λ fault. fault ≡ NoMemory) }
{
    match cuts.push(cut) {
        Ok(()) => Ok(()),
        Err(_) => Err(TearFault::NoMemory),
    }
}

// What is left of a command that is cut after this many writes, and what recoveries were like that were cut after it; none where it
// is not cut.
fn cut_at(
    alloc: Global,
    words: &[u16],
    command: Command,
    number: u16,
) -> Result<Option<(Left, Recoveries)>, TearFault>
    requires { length words.now < 65536 }
    ensures { MatchResult result (λ cut. MatchOption cut (IsUncutAt words.now command.entry number)
        (λ found. IsCutAt words.now command.entry number found.0 found.1))
        (λ fault. (step : ℕ) → IsUncutFor words.now command.entry step fault) }
{
    let script = cut_script(alloc, command, number)?;
    let ran = run_copy(alloc, words, &script, command.behind.instructions)?;
    if !ran.is_down {
        return Ok(None);
    }
    let torn = Vec::from_slice(alloc, &ran.words)?;
    let left = left_by_probe(alloc, ran.words, command.probe, command.behind.instructions)?;
    match recoveries(
        alloc,
        &torn,
        command.probe,
        command.behind.instructions,
        command.behind.depth,
        &left,
    ) {
        Ok(recoveries) => Ok(Some((left, recoveries))),
        Err(fault) => Err(probe_fault(fault)),
    }
}

// The script up to the command, with the power cut after this many of its writes.
fn cut_script(alloc: Global, command: Command, number: u16) -> Result<Vec<u8>, AllocError>
    ensures { IfOk result (λ script. script.items ≡ cut_script command.entry number) }
{
    let mut digits = Buffer::new();
    let mut script = Vec::from_slice(alloc, command.before)?;
    script.extend_from_slice(b"stop ")?;
    script.extend_from_slice(digits.format(number).as_bytes())?;
    script.extend_from_slice(b"\n")?;
    script.extend_from_slice(command.line)?;
    Ok(script)
}
