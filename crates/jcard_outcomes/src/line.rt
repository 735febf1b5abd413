//! Reading back what the line of a part reports of a cut.
ghost use Rattle.std.specs.Prelude.{◌≡◌, ◌++◌, ◌∷◌, ◌<◌, ◌^◌, ℕ, List, Some, false, codes, decimal, IfSome, MatchOption, IfOk};
ghost use Rattle.std.specs.Str.{bytes_eq};
ghost use Rattle.jcard_outcomes.specs.Part.{AreCounted, AreWords, IsCutOfWords, IsLeftOfWords, IsOfWords, IsReadCut, IsUnrecovered, cut_tail, difference_told};
ghost use Rattle.jcard_outcomes.specs.Part.{has, is_one_way, recovered_told, told_cut, told_left};
ghost use Rattle.jcard_outcomes.specs.Report.{changed_text, standing_text};
ghost use Rattle.jcard_outcomes.specs.declared.heaps.Difference.{Difference as ADifference};
ghost use Rattle.jcard_outcomes.specs.declared.recoveries.Recoveries.{Recoveries as ARecoveries};
ghost use Rattle.jcard_outcomes.specs.declared.standing.Cut.{Cut as ACut};
ghost use Rattle.jcard_outcomes.specs.declared.standing.Standing.{Standing as AStanding};

use crate::heaps::Difference;
use crate::recoveries::Recoveries;
use crate::rows::is_same;
use crate::standing::{Cut, Standing};
use itoa::Buffer;
use std::alloc::{AllocError, Global};

// Recoveries that were tried in one way, which made no difference, as where none is cut.
const ONE_WAY: Recoveries = Recoveries {
    ways: 1,
    difference: None,
};

/// The cut which a line reports this; none where it reports no cut.
pub(crate) fn cut_of(alloc: Global, told: &[u8]) -> Result<Option<Cut>, AllocError>
    requires { has 10 told.now ≡ false }
    ensures { IfOk result (λ found. MatchOption found
        ((c : ACut) → IsCutOfWords c → told.now ≡ told_cut c → ⊥)
        (λ c. (told.now ≡ told_cut c) × IsReadCut c)) }
{
    let Some((recoveries, left)) = recovered_of(told) else {
        return Ok(None);
    };
    cut_with(alloc, recoveries, left)
}

// The recoveries which a line reports, and what it says after them.
fn recovered_of(told: &[u8]) -> Option<(Recoveries, &[u8])>
    ensures { MatchOption result
        ((r : ARecoveries) (rest : List ℕ) → AreCounted r → IsUnrecovered rest → told.now ≡ recovered_told r ++ rest → ⊥)
        (λ p. (told.now ≡ recovered_told p.0 ++ p.1.now) × AreCounted p.0
        × ((r : ARecoveries) (rest : List ℕ) → AreCounted r → IsUnrecovered rest → told.now ≡ recovered_told r ++ rest → rest ≡ p.1.now)) }
{
    let Some(rest) = after(told, b"recoveries ") else {
        return Some((ONE_WAY, told));
    };
    let Some((digits, rest)) = cut_once(rest, b' ') else {
        return None;
    };
    let Some(ways) = count_of(digits) else {
        return None;
    };
    let Some((difference, rest)) = cut_once(rest, b',') else {
        return None;
    };
    let Some(recoveries) = recoveries_of(ways, difference) else {
        return None;
    };
    match after(rest, b" ") {
        Some(rest) => Some((recoveries, rest)),
        None => None,
    }
}

// The recoveries in this many ways whose difference is reported so.
fn recoveries_of(ways: u64, difference: &[u8]) -> Option<Recoveries>
    ensures { MatchOption result
        ((r : ARecoveries) → AreCounted r → r.ways ≡ ways → is_one_way r ≡ false → difference.now ≡ difference_told r.difference → ⊥)
        (λ r. (r.ways ≡ ways) × (difference.now ≡ difference_told r.difference) × (is_one_way r ≡ false)
        × IfSome r.difference (λ n. n < 65536)) }
{
    if is_same(difference, b"alike") {
        return alike_in(ways);
    }
    match word_of(difference) {
        Some(writes) => Some(Recoveries {
            ways,
            difference: Some(writes),
        }),
        None => None,
    }
}

// The recoveries in this many ways that made no difference; of one way a line says nothing.
fn alike_in(ways: u64) -> Option<Recoveries>
    ensures { MatchOption result (ways ≡ 1)
        (λ r. (r ≡ record { ways = ways; difference = None }) × (is_one_way r ≡ false)) }
{
    if ways == 1 {
        return None;
    }
    Some(Recoveries {
        ways,
        difference: None,
    })
}

// The cut of whose recoveries this was reported, and of what it left this.
fn cut_with(alloc: Global, recoveries: Recoveries, left: &[u8]) -> Result<Option<Cut>, AllocError>
    requires { has 10 left.now ≡ false }
    ensures { IfOk result (λ found. MatchOption found
        ((c : ACut) → IsLeftOfWords c → left.now ≡ told_left c → ⊥)
        (λ c. (left.now ≡ told_left c) × (has 44 (standing_text c.standing) ≡ false) × IsLeftOfWords c
        × (c.recoveries ≡ recoveries))) }
{
    let Some((standing, lost, answers)) = parts_of(left) else {
        return Ok(None);
    };
    let Some(standing) = standing_of(standing) else {
        return Ok(None);
    };
    let answers = Vec::from_slice(alloc, answers)?;
    Ok(Some(Cut {
        standing,
        lost,
        answers,
        recoveries,
    }))
}

// How it stands, how many words are lost, and the answers.
fn parts_of(told: &[u8]) -> Option<(&[u8], u16, &[u8])>
    ensures { MatchOption result
        ((standing answers : List ℕ) (lost : ℕ) → lost < 65536 → told.now ≡ standing ++ 44 ∷ cut_tail lost answers
        → has 44 standing ≡ false → ⊥)
        (λ r. (told.now ≡ r.0.now ++ 44 ∷ cut_tail r.1 r.2.now) × (has 44 r.0.now ≡ false)
        × (r.1 < 65536)) }
{
    let Some((standing, rest)) = cut_once(told, b',') else {
        return None;
    };
    let Some((lost, rest)) = labelled_word(rest, b" ") else {
        return None;
    };
    match after(rest, b"words lost, answers ") {
        Some(answers) => Some((standing, lost, answers)),
        None => None,
    }
}

// The standing that is reported so.
fn standing_of(text: &[u8]) -> Option<Standing>
    ensures { MatchOption result ((s : AStanding) → IsOfWords s → text.now ≡ standing_text s → ⊥)
        (λ s. (text.now ≡ standing_text s) × IsOfWords s) }
{
    if is_same(text, b"as before") {
        return Some(Standing::Before);
    }
    if is_same(text, b"as before but for PIN tries") {
        return Some(Standing::BeforeButTries);
    }
    if is_same(text, b"as after") {
        return Some(Standing::After);
    }
    if is_same(text, b"as after but for PIN tries") {
        return Some(Standing::AfterButTries);
    }
    if is_same(text, b"with other answers") {
        return Some(Standing::Answers);
    }
    changed_of(text)
}

// The standing with a word that changed that is reported so.
fn changed_of(text: &[u8]) -> Option<Standing>
    ensures { MatchOption result (((d : ADifference) → AreWords d → text.now ≡ changed_text d → ⊥)
        × ((d : ADifference) → AreWords d → text.now ≡ changed_text d ++ codes " by non-atomic calls" → ⊥))
        (λ s. (text.now ≡ standing_text s) × IsOfWords s) }
{
    let Some(front) = before_end(text, b" by non-atomic calls") else {
        return match difference_of(text) {
            Some(difference) => Some(Standing::Changed(difference)),
            None => None,
        };
    };
    match difference_of(front) {
        Some(difference) => Some(Standing::ChangedByCalls(difference)),
        None => None,
    }
}

// The difference that is reported so.
fn difference_of(text: &[u8]) -> Option<Difference>
    ensures { MatchOption result ((d : ADifference) → AreWords d → text.now ≡ changed_text d → ⊥)
        (λ d. (text.now ≡ changed_text d) × AreWords d) }
{
    let Some((address, rest)) = labelled_word(text, b"changed: word ") else {
        return None;
    };
    let Some((before, rest)) = labelled_word(rest, b"was ") else {
        return None;
    };
    let Some(digits) = after(rest, b"and is ") else {
        return None;
    };
    match word_of(digits) {
        Some(now) => Some(Difference {
            address,
            before,
            now,
        }),
        None => None,
    }
}

// The word after a label, up to a space, and what follows.
fn labelled_word<'a>(text: &'a [u8], label: &[u8]) -> Option<(u16, &'a [u8])>
    ensures { MatchOption result
        ((n : ℕ) (rest : List ℕ) → n < 65536 → text.now ≡ label.now ++ (decimal n ++ 32 ∷ rest) → ⊥)
        (λ r. (r.0 < 65536) × (text.now ≡ label.now ++ (decimal r.0 ++ 32 ∷ r.1.now))) }
{
    let Some(rest) = after(text, label) else {
        return None;
    };
    let Some((digits, rest)) = cut_once(rest, b' ') else {
        return None;
    };
    match word_of(digits) {
        Some(word) => Some((word, rest)),
        None => None,
    }
}

/// The word that these decimal digits write.
pub(crate) fn word_of(digits: &[u8]) -> Option<u16>
    ensures { MatchOption result ((n : ℕ) → n < 65536 → digits.now ≡ decimal n → ⊥)
        (λ n. digits.now ≡ decimal n) }
{
    let Some(word) = parsed(digits) else {
        return None;
    };
    if is_written(word, digits) {
        return Some(word);
    }
    None
}

fn parsed(digits: &[u8]) -> Option<u16>
    ensures { (n : ℕ) → n < 65536 → digits.now ≡ decimal n → result ≡ Some n }
{
    match str::from_utf8(digits) {
        Ok(text) => text.parse::<u16>().ok(),
        Err(_) => None,
    }
}

fn is_written(word: u16, digits: &[u8]) -> bool
    ensures { result ≡ bytes_eq (decimal word) digits.now }
{
    let mut printed = Buffer::new();
    is_same(printed.format(word).as_bytes(), digits)
}

// The count that these decimal digits write.
fn count_of(digits: &[u8]) -> Option<u64>
    ensures { MatchOption result ((n : ℕ) → n < 2 ^ 64 → digits.now ≡ decimal n → ⊥)
        (λ n. digits.now ≡ decimal n) }
{
    let Some(count) = parsed_count(digits) else {
        return None;
    };
    if is_count_written(count, digits) {
        return Some(count);
    }
    None
}

fn parsed_count(digits: &[u8]) -> Option<u64>
    ensures { (n : ℕ) → n < 2 ^ 64 → digits.now ≡ decimal n → result ≡ Some n }
{
    match str::from_utf8(digits) {
        Ok(text) => text.parse::<u64>().ok(),
        Err(_) => None,
    }
}

fn is_count_written(count: u64, digits: &[u8]) -> bool
    ensures { result ≡ bytes_eq (decimal count) digits.now }
{
    let mut printed = Buffer::new();
    is_same(printed.format(count).as_bytes(), digits)
}

/// What follows this beginning.
pub(crate) fn after<'a>(text: &'a [u8], beginning: &[u8]) -> Option<&'a [u8]>
    ensures { MatchOption result ((rest : List ℕ) → text.now ≡ beginning.now ++ rest → ⊥)
        (λ rest. text.now ≡ beginning.now ++ rest.now) }
{
    if text.len() < beginning.len() {
        return None;
    }
    let (front, rest) = text.split_at(beginning.len());
    if is_same(front, beginning) {
        return Some(rest);
    }
    None
}

// What stands before this end.
fn before_end<'a>(text: &'a [u8], end: &[u8]) -> Option<&'a [u8]>
    ensures { MatchOption result ((front : List ℕ) → text.now ≡ front ++ end.now → ⊥)
        (λ front. text.now ≡ front.now ++ end.now) }
{
    if text.len() < end.len() {
        return None;
    }
    let (front, rest) = text.split_at(text.len() - end.len());
    if is_same(rest, end) {
        return Some(front);
    }
    None
}

/// What stands before the first such byte, and what follows it.
pub(crate) fn cut_once(text: &[u8], separator: u8) -> Option<(&[u8], &[u8])>
    ensures { MatchOption result (has separator text.now ≡ false)
        (λ r. (text.now ≡ r.0.now ++ separator ∷ r.1.now) × (has separator r.0.now ≡ false)) }
{
    for (place, byte) in text.iter().enumerate() {
        if *byte == separator {
            return Some((&text[..place], &text[place + 1..]));
        }
    }
    None
}
