//! What is reported of a cut, and again of the cuts after it that leave the same heap.
ghost use Rattle.std.specs.Prelude.{◌≡◌, ◌<◌, true, length, vec_len, IsTrue, IfOk, IfSome, MatchResult};
ghost use Rattle.jc_commit.specs.Image.{plain_of};
ghost use Rattle.jcard_sweeps.specs.Faults.{IsProbeFault};
ghost use Rattle.jcard_tear.specs.KeptCard.{GivesAnswers, HasAnswered, HoldOneHeap, IsKnown, IsLastCut, IsReportedAlike, none_cut};
ghost use Rattle.jcard_tear.specs.Sweep.{IsToldAs};
ghost use Rattle.jcard_sweeps.specs.Runs.{IsRecovered};
ghost use Rattle.jcard_sweeps.specs.Report.{AreOfImage};

use crate::alike::{are_alike, hold_one_heap};
use crate::answers::{answers_over, image_answers, known_of};
use crate::cuts::{Baseline, Shared, told_cut};
use crate::moved_image::{moved, stands_for};
use crate::sweep::probe_fault;
use jc_card::powered_image::PoweredImage;
use jc_packages::known::KnownPackages;
use jcard_outcomes::recoveries::Recoveries;
use jcard_outcomes::standing::{Cut, Left};
use jcard_sweeps::runs::run_copy;
use jcard_sweeps::sweep_fault::TearFault;
use std::alloc::{AllocError, Global};

/// What is left after a recovery, and what is reported of a cut that left it.
#[derive(Drop)]
pub(crate) struct LastCut {
    pub(crate) left: Left,
    pub(crate) cut: Cut,
    gathered: Gathered,
}

/// The number of the read of an image at which its table and its packages are kept for the reads after it.
const KNOWN_AFTER: u32 = 3;

/// What the cuts up to one found out for those after it.
#[derive(Drop)]
pub(crate) struct Gathered {
    // The image over which the probe was asked last.
    image: Option<PoweredImage>,
    // How many were read, and the table and the packages of the third one that was.
    reads: u32,
    packages: Option<KnownPackages>,
}

impl Gathered {
    // Before the first cut.
    fn nothing() -> Gathered {
        Gathered {
            image: None,
            reads: 0,
            packages: None,
        }
    }

    // The image of these words, by the one before it or by what is known of packages. Nothing where there is none.
    fn image_of(&mut self, alloc: Global, words: &[u16]) -> Option<PoweredImage>
        requires { length words.now < 65536 }
        ensures { IfSome result (λ image. HoldOneHeap image words.now × IsRecovered image) }
    {
        if let Some(last) = self.image.take() {
            if let Some(image) = moved(last, words) {
                return Some(image);
            }
        }
        self.reads = self.reads.saturating_add(1);
        if self.reads == KNOWN_AFTER {
            self.packages = known_of(alloc, words);
        }
        read_image(alloc, words, &self.packages)
    }
}

// The image of these words, which is read.
fn read_image(alloc: Global, words: &[u16], known: &Option<KnownPackages>) -> Option<PoweredImage>
    requires { length words.now < 65536 }
    ensures { IfSome result (λ image. HoldOneHeap image words.now × IsRecovered image) }
{
    let Ok(copy) = Vec::from_slice(alloc, words) else {
        return None;
    };
    let image = PoweredImage::read(alloc, copy, known)?;
    if !stands_for(&image, words) {
        return None;
    }
    Some(image)
}

/// What is reported of a cut after which a recovery left these words: the same as of the cut before it, if they hold the same heap.
pub(crate) fn reported_cut(
    alloc: Global,
    shared: &Shared<'_>,
    found: Vec<u16>,
    last: &mut Option<LastCut>,
) -> Result<Cut, TearFault>
    requires whole { AreOfImage shared.now.baseline.objects.now }
    requires short { vec_len found < 65536 }
    requires recovered { IsRecovered found.items }
    requires known { shared.now.baseline.is_known ≡ true
        → IsKnown shared.now.command shared.now.baseline.before.now }
    requires last { IfSome last.old (λ reported. IsLastCut shared.now reported) }
    ensures last { IfSome last.new (λ reported. IsLastCut shared.now reported) }
    ensures cut { MatchResult result (λ cut. IsReportedAlike shared.now (plain_of found.items) cut)
        (λ fault. IsProbeFault shared.now.command.behind.instructions shared.now.command.probe.now fault) }
{
    let reported = next_reported(alloc, shared, found, last.take())?;
    let cut = copy_of_cut(alloc, &reported.cut)?;
    *last = Some(reported);
    Ok(cut)
}

// What is left, and what is reported of it: the answers are those of the cut before, if that left the same heap. Where objects are asked for and no
// word is another, the whole report is the same.
fn next_reported(
    alloc: Global,
    shared: &Shared<'_>,
    found: Vec<u16>,
    last: Option<LastCut>,
) -> Result<LastCut, TearFault>
    requires whole { AreOfImage shared.now.baseline.objects.now }
    requires short { vec_len found < 65536 }
    requires recovered { IsRecovered found.items }
    requires known { shared.now.baseline.is_known ≡ true
        → IsKnown shared.now.command shared.now.baseline.before.now }
    requires last { IfSome last (λ reported. IsLastCut shared.now reported) }
    ensures { MatchResult result (λ reported. IsLastCut shared.now reported
        × (plain_of reported.left.words.items ≡ plain_of found.items))
        (λ fault. IsProbeFault shared.now.command.behind.instructions shared.now.command.probe.now fault) }
{
    let Some(reported) = last else {
        return first_reported(alloc, shared, found, Gathered::nothing());
    };
    if shared.baseline.objects.is_some() && are_alike(&reported.left.words, &found) {
        return Ok(reported);
    }
    let LastCut {
        left,
        cut: _,
        gathered,
    } = reported;
    if hold_one_heap(&left.words, &found) {
        return answered_again(alloc, shared, found, left, gathered);
    }
    first_reported(alloc, shared, found, gathered)
}

// What is left, and what is reported of it, where it holds the heap of these words, which a recovery leaves as they are, so that their answers are
// its own.
fn answered_again(
    alloc: Global,
    shared: &Shared<'_>,
    found: Vec<u16>,
    last: Left,
    gathered: Gathered,
) -> Result<LastCut, TearFault>
    requires whole { AreOfImage shared.now.baseline.objects.now }
    requires recovered { IsRecovered found.items }
    requires last { IsKnown shared.now.command last }
    requires one { HoldOneHeap last.words.items found.items }
    ensures { MatchResult result (λ reported. IsLastCut shared.now reported
        × (plain_of reported.left.words.items ≡ plain_of found.items))
        (λ fault. IsProbeFault shared.now.command.behind.instructions shared.now.command.probe.now fault) }
{
    let left = Left {
        words: found,
        answers: last.answers,
    };
    let reported = reported_of(alloc, &shared.baseline, left, gathered)?;
    Ok(reported)
}

// What is left, and what is reported of it, where that is not as of the cut before.
fn first_reported(
    alloc: Global,
    shared: &Shared<'_>,
    found: Vec<u16>,
    gathered: Gathered,
) -> Result<LastCut, TearFault>
    requires whole { AreOfImage shared.now.baseline.objects.now }
    requires short { vec_len found < 65536 }
    requires recovered { IsRecovered found.items }
    requires known { shared.now.baseline.is_known ≡ true
        → IsKnown shared.now.command shared.now.baseline.before.now }
    ensures { MatchResult result (λ reported. IsLastCut shared.now reported
        × (plain_of reported.left.words.items ≡ plain_of found.items))
        (λ fault. IsProbeFault shared.now.command.behind.instructions shared.now.command.probe.now fault) }
{
    let mut gathered = gathered;
    let left = first_left(alloc, shared, found, &mut gathered)?;
    let reported = reported_of(alloc, &shared.baseline, left, gathered)?;
    Ok(reported)
}

// What is left, and what is reported of it.
fn reported_of(
    alloc: Global,
    baseline: &Baseline<'_>,
    left: Left,
    gathered: Gathered,
) -> Result<LastCut, AllocError>
    requires { AreOfImage baseline.now.objects.now }
    ensures left { IfOk result (λ reported. reported.left ≡ left) }
    ensures told { IfOk result (λ reported. IsToldAs baseline.now left reported.cut) }
    ensures recoveries { IfOk result (λ reported. reported.cut.recoveries ≡ none_cut) }
{
    let none_cut = Recoveries {
        ways: 1,
        difference: None,
    };
    let cut = told_cut(alloc, baseline, &left, none_cut)?;
    Ok(LastCut {
        left,
        cut,
        gathered,
    })
}

// What is left, and its answers: those of before the command, if they are known and it holds the same heap; else the probe is asked.
fn first_left(
    alloc: Global,
    shared: &Shared<'_>,
    found: Vec<u16>,
    gathered: &mut Gathered,
) -> Result<Left, TearFault>
    requires short { vec_len found < 65536 }
    requires recovered { IsRecovered found.items }
    requires known { shared.now.baseline.is_known ≡ true
        → IsKnown shared.now.command shared.now.baseline.before.now }
    ensures { MatchResult result (λ left. IsKnown shared.now.command left
        × (left.words.items ≡ found.items))
        (λ fault. IsProbeFault shared.now.command.behind.instructions shared.now.command.probe.now fault) }
{
    if is_as_before(&shared.baseline, &found) {
        let answers = Vec::from_slice(alloc, &shared.baseline.before.answers)?;
        return Ok(Left {
            words: found,
            answers,
        });
    }
    answered(
        alloc,
        found,
        shared.command.probe,
        shared.command.behind.instructions,
        gathered,
    )
}

// Whether these words hold the heap from before the command, whose answers are known.
fn is_as_before(baseline: &Baseline<'_>, found: &[u16]) -> bool
    requires { length found.now < 65536 }
    ensures known { IsTrue result → baseline.now.is_known ≡ true }
    ensures one { IsTrue result → HoldOneHeap baseline.now.before.now.words.items found.now }
{
    baseline.is_known && hold_one_heap(&baseline.before.words, found)
}

// What a card that powers up over these words, which a recovery leaves as they are, answers to the lines of a probe.
fn answered(
    alloc: Global,
    words: Vec<u16>,
    probe: &[u8],
    budget: u32,
    gathered: &mut Gathered,
) -> Result<Left, TearFault>
    requires short { vec_len words < 65536 }
    requires recovered { IsRecovered words.items }
    ensures { MatchResult result (λ left. (IsRecovered left.words.items × HasAnswered budget probe.now left)
        × (left.words.items ≡ words.items))
        (λ fault. IsProbeFault budget probe.now fault) }
{
    match answers_of(alloc, &words, probe, budget, gathered) {
        Some(answers) => Ok(Left { words, answers }),
        None => Err(unanswered(alloc, &words, probe, budget)),
    }
}

// What a card that powers up over these words, which a recovery leaves as they are, answers to the lines of a probe. Nothing where there is none.
fn answers_of(
    alloc: Global,
    words: &[u16],
    probe: &[u8],
    budget: u32,
    gathered: &mut Gathered,
) -> Option<Vec<u8>>
    requires short { length words.now < 65536 }
    requires recovered { IsRecovered words.now }
    ensures { IfSome result (λ answers. GivesAnswers budget words.now probe.now answers.items) }
{
    if let Some(answers) = answers_by_image(alloc, words, probe, budget, gathered) {
        return Some(answers);
    }
    answers_over(alloc, words, probe, budget)
}

// The same by the image of these words.
fn answers_by_image(
    alloc: Global,
    words: &[u16],
    probe: &[u8],
    budget: u32,
    gathered: &mut Gathered,
) -> Option<Vec<u8>>
    requires short { length words.now < 65536 }
    requires recovered { IsRecovered words.now }
    ensures { IfSome result (λ answers. GivesAnswers budget words.now probe.now answers.items) }
{
    let image = gathered.image_of(alloc, words)?;
    let answers = image_answers(alloc, &image, probe, budget);
    gathered.image = Some(image);
    answers
}

// Why the lines of a probe were not answered over these words. Where they are answered now, memory was refused before.
fn unanswered(alloc: Global, words: &[u16], probe: &[u8], budget: u32) -> TearFault
    requires { length words.now < 65536 }
    ensures { IsProbeFault budget probe.now result }
{
    match run_copy(alloc, words, probe, budget) {
        Ok(_ran) => TearFault::NoMemory,
        Err(fault) => probe_fault(fault),
    }
}

// A copy of what is reported of a cut.
fn copy_of_cut(alloc: Global, cut: &Cut) -> Result<Cut, AllocError>
    ensures standing { IfOk result (λ copy. copy.standing ≡ cut.now.standing) }
    ensures lost { IfOk result (λ copy. copy.lost ≡ cut.now.lost) }
    ensures answers { IfOk result (λ copy. copy.answers.items ≡ cut.now.answers.items) }
    ensures recoveries { IfOk result (λ copy. copy.recoveries ≡ cut.now.recoveries) }
{
    let answers = Vec::from_slice(alloc, &cut.answers)?;
    Ok(Cut {
        standing: cut.standing,
        lost: cut.lost,
        answers,
        recoveries: cut.recoveries,
    })
}
