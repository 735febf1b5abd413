//! A command that is cut after each number of its writes, beside what was before it and what it leaves.
ghost use Rattle.std.specs.Prelude.{◌≡◌, ◌<◌, ◌+◌, ◌*◌, ◌++◌, ℕ, length, vec_len, IfOk, IfSome, IsTrue, MatchResult};
ghost use Rattle.jcard_tear.specs.KeptCard.{HasAnswered, IsKnown};
ghost use Rattle.jcard_tear.specs.Sweep.{IsBegun, IsDone, IsSwept, IsSweptBy};
ghost use Rattle.jcard_sweeps.specs.Runs.{IsLeft, IsRecovered};
ghost use Rattle.jcard_sweeps.specs.Faults.{IsImageFault, IsProbeFault};
ghost use Rattle.jcard_sweeps.specs.Report.{AreObjectsAsked, AreOfImage};
ghost use Rattle.jcard_tear.specs.Faults.{IsUncutFor, told_probe_fault};
ghost use Rattle.jc_objects.specs.Pins.{AreTriesIn};

use crate::answers::answers_over;
use crate::cuts::{Baseline, cut_all};
use crate::recoveries::are_equal;
use jc_objects::image_objects::ImageObjects;
use jc_objects::pins::try_words;
use jc_packages::fault::ReadFault;
use jcard_outcomes::part::Share;
use jcard_outcomes::report::Sweep;
use jcard_outcomes::standing::Left;
use jcard_sweeps::command::Command;
use jcard_sweeps::last_line::last_line;
use jcard_sweeps::progress::Progress;
use jcard_sweeps::report::{left_told, objects_asked};
use jcard_sweeps::runs::{RunFault, left, recovered, run_copy, run_told};
use jcard_sweeps::sweep_fault::{DAMAGED, TearFault};
use std::alloc::{AllocError, Global};

// Which words no comparison of cuts looks at, which are compared leniently, and which objects stood before, where they are asked for.
#[derive(Drop)]
struct Measure {
    spared: Vec<u16>,
    lenient: Vec<u16>,
    objects: Option<ImageObjects>,
}

/// Carries out the script up to the command on a card of a copy of these words, and then cuts the command after each number
/// of its writes, each time on a card of a copy of its own. After each cut comes a reset, and then the probe; and as many
/// recoveries as the command says are cut before a reset that is not. The tries of OwnerPINs do not count in a comparison. Where
/// the command asks for objects, the cells that changed since before it are reported after the answers. Each cut is reported as it is made.
pub fn tear<P: Progress>(
    alloc: Global,
    words: &[u16],
    command: Command,
    progress: &mut P,
) -> Result<Sweep, TearFault>
    requires { length words.now < 65536 }
    ensures { MatchResult result (IsSwept words.now command.entry)
        (IsUncutFor words.now command.entry 1) }
{
    let whole = Share { first: 0, step: 1 };
    tear_share(alloc, words, command, whole, progress)
}

/// The same with the cuts in a part of them alone.
pub(crate) fn tear_share<P: Progress>(
    alloc: Global,
    words: &[u16],
    command: Command,
    share: Share,
    progress: &mut P,
) -> Result<Sweep, TearFault>
    requires { length words.now < 65536 }
    ensures swept { MatchResult result (IsSweptBy words.now command.entry share.first share.step)
        (IsUncutFor words.now command.entry share.step) }
    ensures below { IfOk result (λ sweep. share.first + share.step * length sweep.cuts.items < 65536) }
{
    let (answer, after, by_calls) = done(alloc, words, command, progress)?;
    let (before, is_known) = begun(alloc, words, command)?;
    progress.tell_image(&before.words);
    let measure = measure_of(alloc, command.behind.objects, &before, &after, &by_calls)?;
    let baseline = Baseline {
        before: &before,
        is_known,
        after: &after,
        spared: &measure.spared,
        lenient: &measure.lenient,
        objects: &measure.objects,
    };
    let cuts = cut_all(alloc, words, command, baseline, share, progress)?;
    let after = left_told(alloc, &measure.objects, after)?;
    Ok(Sweep {
        before,
        answer,
        after,
        cuts,
        depth: command.behind.depth,
    })
}

// How the cuts are measured of a command that leaves this, and whose non-atomic calls write these words.
fn measure_of(
    alloc: Global,
    objects: bool,
    before: &Left,
    after: &Left,
    by_calls: &[u16],
) -> Result<Measure, TearFault>
    ensures measured { MatchResult result (λ m. AreTriesIn after.now.words.items m.spared.items
        × (m.lenient.items ≡ m.spared.items ++ by_calls.now) × AreObjectsAsked objects before.now m.objects)
        (λ fault. IsImageFault fault) }
    ensures whole { IfOk result (λ m. AreOfImage m.objects) }
{
    let spared = tries_in(alloc, after)?;
    let lenient = joined(alloc, &spared, by_calls)?;
    let objects = objects_asked(alloc, objects, before)?;
    Ok(Measure {
        spared,
        lenient,
        objects,
    })
}

// These words, and those.
fn joined(alloc: Global, these: &[u16], those: &[u16]) -> Result<Vec<u16>, AllocError>
    ensures { IfOk result (λ joined. joined.items ≡ these.now ++ those.now) }
{
    let mut joined = Vec::from_slice(alloc, these)?;
    joined.extend_from_slice(those)?;
    Ok(joined)
}

// The answer of a command that is not cut, what it leaves, and which words its non-atomic calls write. What makes its writes is reported.
fn done<P: Progress>(
    alloc: Global,
    words: &[u16],
    command: Command,
    progress: &mut P,
) -> Result<(Vec<u8>, Left, Vec<u16>), TearFault>
    requires { length words.now < 65536 }
    ensures { MatchResult result (λ r. IsDone words.now command.entry r.0.items r.1)
        (λ fault. (step : ℕ) → IsUncutFor words.now command.entry step fault) }
{
    let mut script = Vec::from_slice(alloc, command.before)?;
    script.extend_from_slice(command.line)?;
    let watched = run_told(
        alloc,
        words,
        &script,
        command.behind.instructions,
        progress.names(),
    )?;
    progress.tell_writes(watched.told);
    let ran = watched.ran;
    if ran.is_down {
        return Err(TearFault::Down);
    }
    let answer = Vec::from_slice(alloc, last_line(&ran.text))?;
    let left = left_by_probe(alloc, ran.words, command.probe, command.behind.instructions)?;
    Ok((answer, left, watched.by_calls))
}

// What is left by the lines before a command; and whether a reset then finds the words as they were left, so that the answers are known of a
// card that powers up over them.
fn begun(alloc: Global, words: &[u16], command: Command) -> Result<(Left, bool), TearFault>
    requires { length words.now < 65536 }
    ensures { MatchResult result (λ r. IsBegun words.now command.entry r.0
        × (IsTrue r.1 → IsKnown command.entry r.0))
        (λ fault. (step : ℕ) → IsUncutFor words.now command.entry step fault) }
{
    let ran = run_copy(alloc, words, command.before, command.behind.instructions)?;
    left_known(alloc, ran.words, command.probe, command.behind.instructions)
}

// What a reset finds and the probe is answered; and whether it is known of a card that powers up over the words that it finds.
fn left_known(
    alloc: Global,
    words: Vec<u16>,
    probe: &[u8],
    budget: u32,
) -> Result<(Left, bool), TearFault>
    requires { vec_len words < 65536 }
    ensures { MatchResult result (λ r. IsLeft budget words.items probe.now r.0
        × (IsTrue r.1 → IsRecovered r.0.words.items × HasAnswered budget probe.now r.0))
        (λ fault. IsProbeFault budget probe.now fault) }
{
    if let Some(left) = left_standing(alloc, &words, probe, budget) {
        return Ok((left, true));
    }
    let left = left_by_probe(alloc, words, probe, budget)?;
    Ok((left, false))
}

// The same of words that a reset leaves as they are, if a card powers up over them.
fn left_standing(alloc: Global, words: &[u16], probe: &[u8], budget: u32) -> Option<Left>
    requires { length words.now < 65536 }
    ensures left { IfSome result (λ left. IsLeft budget words.now probe.now left) }
    ensures known { IfSome result (λ left. IsRecovered left.words.items × HasAnswered budget probe.now left) }
{
    let Ok(copy) = Vec::from_slice(alloc, words) else {
        return None;
    };
    let Ok(found) = recovered(copy) else {
        return None;
    };
    if !are_equal(&found, words) {
        return None;
    }
    let answers = answers_over(alloc, &found, probe, budget)?;
    Some(Left {
        words: found,
        answers,
    })
}

// What a reset finds and the probe is answered; what is wrong then is wrong with the probe.
pub(crate) fn left_by_probe(
    alloc: Global,
    words: Vec<u16>,
    probe: &[u8],
    budget: u32,
) -> Result<Left, TearFault>
    requires { vec_len words < 65536 }
    ensures { MatchResult result (λ left. IsLeft budget words.items probe.now left)
        (λ fault. IsProbeFault budget probe.now fault) }
{
    match left(alloc, words, probe, budget) {
        Ok(left) => Ok(left),
        Err(fault) => Err(probe_fault(fault)),
    }
}

// What it means that a recovery, or the probe after it, was not carried out to its end.
pub(crate) fn probe_fault(fault: RunFault) -> TearFault
    ensures { result ≡ told_probe_fault fault }
{
    match fault {
        RunFault::NoMemory => TearFault::NoMemory,
        RunFault::Script(fault) => TearFault::Probe(fault),
    }
}

// The words with the tries of the OwnerPINs in what is left.
fn tries_in(alloc: Global, left: &Left) -> Result<Vec<u16>, TearFault>
    ensures { MatchResult result (λ tries. AreTriesIn left.now.words.items tries.items)
        (λ fault. IsImageFault fault) }
{
    let copy = Vec::from_slice(alloc, &left.words)?;
    match try_words(alloc, copy) {
        Ok(tries) => Ok(tries),
        Err(ReadFault::NoMemory) => Err(TearFault::NoMemory),
        Err(ReadFault::Damaged) => Err(DAMAGED),
    }
}
