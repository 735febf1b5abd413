//! How what a cut left stands beside what was there before the command, and beside what it leaves where it is not cut.
ghost use Rattle.std.specs.Prelude.{◌≡◌, IsTrue, IsSome, MatchOption};
ghost use Rattle.std.specs.Bool.{MatchBool};
ghost use Rattle.jcard_outcomes.specs.Heaps.{AgreeAtSpared, IsDifference, StandsAsBefore};
ghost use Rattle.jcard_outcomes.specs.Standing.{IsJudged, IsLikeness, IsStanding, lost_of, told_of_calls};

use crate::heaps::{
    Difference, agree_at_spared, are_equal, changed_since, is_as_after, words_above,
};
use crate::recoveries::Recoveries;

/// What a reset found, and what a probe was answered then.
#[derive(Drop)]
pub struct Left {
    pub words: Vec<u16>,
    pub answers: Vec<u8>,
}

/// What the power cut within a command left, what a probe was answered then, and whether recoveries that were cut made a
/// difference.
#[derive(Drop)]
pub struct Cut {
    pub standing: Standing,
    /// How many words were made that nothing names.
    pub lost: u16,
    /// The answers of the probe and, where objects are asked for, after them the cells that changed.
    pub answers: Vec<u8>,
    pub recoveries: Recoveries,
}

/// How what is left compares with one state of a card.
#[derive(Clone, Copy, Drop)]
pub(crate) enum Likeness {
    Same,
    /// The tries of PINs differ.
    ButTries,
    /// The heap is the same, and the answers differ.
    ButAnswers,
    Other,
}

/// How what is left compares with what was before and with what comes after.
#[derive(Clone, Copy, Drop)]
pub enum Standing {
    Before,
    /// As before, but for the tries of PINs.
    BeforeButTries,
    After,
    /// As after, but for the tries of PINs.
    AfterButTries,
    /// The heap is as before or as after, and the answers are not.
    Answers,
    /// The heap is neither: this word changed.
    Changed(Difference),
    /// The heap is neither: this word changed, and each that is not as before was written by non-atomic calls.
    ChangedByCalls(Difference),
}

/// How a heap and answers stand that a cut left. The words at the spared addresses do not count; those at the lenient ones are these and
/// what non-atomic calls of the command write.
pub fn standing_of(
    spared: &[u16],
    lenient: &[u16],
    before: &Left,
    after: &Left,
    heap: &[u16],
    answers: &[u8],
) -> Standing
    ensures { IsStanding spared.now lenient.now before.now after.now heap.now answers.now result }
{
    let changed = changed_since(spared, &before.words, heap);
    let is_after = is_as_after(spared, &after.words, heap);
    let like_before = compared(spared, before, changed.is_none(), heap, answers);
    let like_after = compared(spared, after, is_after, heap, answers);
    let judged = judge(changed, like_before, like_after);
    let by_calls = is_but_by_calls(spared, lenient, changed, &before.words, heap);
    told_of_calls(by_calls, judged)
}

// Whether what stood before stands. The words at the lenient addresses do not count; where they are those that are spared, it is known already.
fn is_but_by_calls(
    spared: &[u16],
    lenient: &[u16],
    changed: Option<Difference>,
    before: &[u16],
    heap: &[u16],
) -> bool
    requires { MatchOption changed (StandsAsBefore spared.now before.now heap.now)
        (λ d. IsDifference spared.now before.now heap.now d) }
    ensures { MatchBool result (StandsAsBefore lenient.now before.now heap.now)
        (StandsAsBefore lenient.now before.now heap.now → ⊥) }
{
    if are_equal(lenient, spared) {
        return changed.is_none();
    }
    is_as_before(lenient, before, heap)
}

// Whether what stood before stands. The words at the lenient addresses do not count.
fn is_as_before(lenient: &[u16], before: &[u16], heap: &[u16]) -> bool
    ensures { MatchBool result (StandsAsBefore lenient.now before.now heap.now)
        (StandsAsBefore lenient.now before.now heap.now → ⊥) }
{
    match changed_since(lenient, before, heap) {
        Some(_difference) => false,
        None => true,
    }
}

// A standing, where each word that is not as before was written by non-atomic calls, or not.
fn told_of_calls(by_calls: bool, judged: Standing) -> Standing
    ensures { result ≡ told_of_calls by_calls judged }
{
    match judged {
        Standing::Changed(difference) if by_calls => Standing::ChangedByCalls(difference),
        other => other,
    }
}

/// How many words of a heap that stands so are lost: they were made, and nothing names them.
pub fn lost_of(standing: Standing, before: &Left, heap: &[u16]) -> u16
    ensures { result ≡ lost_of standing before.now.words.items heap.now }
{
    match standing {
        Standing::Before | Standing::BeforeButTries => words_above(&before.words, heap),
        Standing::After
        | Standing::AfterButTries
        | Standing::Answers
        | Standing::Changed(_)
        | Standing::ChangedByCalls(_) => 0,
    }
}

// How a heap and answers compare with what is left of a state, in which the heap stands or not.
fn compared(spared: &[u16], left: &Left, stands: bool, heap: &[u16], answers: &[u8]) -> Likeness
    ensures { IsLikeness (IsTrue stands) (AgreeAtSpared spared.now left.now.words.items heap.now)
        (answers.now ≡ left.now.answers.items) result }
{
    if !stands {
        return Likeness::Other;
    }
    if !agree_at_spared(spared, &left.words, heap) {
        return Likeness::ButTries;
    }
    if answers == left.answers.as_slice() {
        return Likeness::Same;
    }
    Likeness::ButAnswers
}

// What the two comparisons say.
fn judge(changed: Option<Difference>, before: Likeness, after: Likeness) -> Standing
    requires { before ≡ Likeness.Other → IsSome changed }
    ensures { IsJudged changed before after result }
{
    match (before, after) {
        (Likeness::Same, _) => Standing::Before,
        (Likeness::ButTries, _) => Standing::BeforeButTries,
        (_, Likeness::Same) => Standing::After,
        (_, Likeness::ButTries) => Standing::AfterButTries,
        (Likeness::Other, Likeness::Other) => match changed {
            Some(difference) => Standing::Changed(difference),
            None => Standing::Answers,
        },
        (_, _) => Standing::Answers,
    }
}
