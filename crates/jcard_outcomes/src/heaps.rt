//! Comparing the heaps of two images, word by word.
ghost use Rattle.std.specs.Prelude.{◌≡◌, ◌≤◌, ◌<◌, ◌↔◌, ℕ, slice_index, true, IsTrue, MatchOption};
ghost use Rattle.jc_words.specs.Layout.{top_address};
ghost use Rattle.jcard_outcomes.specs.Heaps.{AgreeAtSpared, AgreeBetween, IsDifference, StandsAsAfter, StandsAsBefore, differ_at, words_above};

use jc_words::layout::{ADDRESSES, PACKAGES, RESET_END, TEXT_LENGTH, TOP};

/// How many words are compared at once.
const BLOCK: u16 = 256;

/// A word that has become another.
#[derive(Clone, Copy, Drop)]
pub struct Difference {
    pub address: u16,
    pub before: u16,
    pub now: u16,
}

/// Where what stood before does not stand any more; none where all of it does. The words at the spared addresses do not
/// count.
pub fn changed_since(spared: &[u16], before: &[u16], heap: &[u16]) -> Option<Difference>
    ensures { MatchOption result (StandsAsBefore spared.now before.now heap.now)
        (λ d. IsDifference spared.now before.now heap.now d) }
{
    let top = word_at(before, TOP);
    if let Some(address) = first_difference(spared, before, heap, PACKAGES, RESET_END) {
        return Some(difference_at(before, heap, address));
    }
    if let Some(address) = first_difference(spared, before, heap, ADDRESSES, top) {
        return Some(difference_at(before, heap, address));
    }
    if word_at(heap, TOP) < top {
        return Some(difference_at(before, heap, TOP));
    }
    None
}

/// Whether the heap is the one after. The words at the spared addresses do not count.
pub fn is_as_after(spared: &[u16], after: &[u16], heap: &[u16]) -> bool
    ensures { IsTrue result ↔ StandsAsAfter spared.now after.now heap.now }
{
    let top = word_at(after, TOP);
    first_difference(spared, after, heap, TOP, TEXT_LENGTH).is_none()
        && first_difference(spared, after, heap, ADDRESSES, top).is_none()
}

/// Whether two images have the same words at those of the spared addresses that lie below the top of the first.
pub fn agree_at_spared(spared: &[u16], a: &[u16], b: &[u16]) -> bool
    ensures { IsTrue result ↔ AgreeAtSpared spared.now a.now b.now }
{
    spared.iter().all(|address| agree_at(a, b, *address))
}

// Whether two images have the same word at an address, if it lies below the top of the first.
fn agree_at(a: &[u16], b: &[u16], address: u16) -> bool
    ensures { IsTrue result ↔ (address < slice_index a.now top_address
        → slice_index a.now address ≡ slice_index b.now address) }
{
    if address >= word_at(a, TOP) {
        return true;
    }
    word_at(a, address) == word_at(b, address)
}

/// How many words of a heap stand above those that stood before.
pub fn words_above(before: &[u16], heap: &[u16]) -> u16
    ensures { result ≡ words_above before.now heap.now }
{
    word_at(heap, TOP).saturating_sub(word_at(before, TOP))
}

// The word at an address, 0 past the end.
fn word_at(words: &[u16], address: u16) -> u16
    ensures { result ≡ slice_index words.now address }
{
    match words.get(usize::from(address)) {
        Some(word) => *word,
        None => 0,
    }
}

// The word that stood at an address, and the one that stands there.
fn difference_at(before: &[u16], heap: &[u16], address: u16) -> Difference
    ensures address { result.address ≡ address }
    ensures before { result.before ≡ slice_index before.now address }
    ensures now { result.now ≡ slice_index heap.now address }
{
    Difference {
        address,
        before: word_at(before, address),
        now: word_at(heap, address),
    }
}

// The first address, from `first` up to `end`, at which two images differ.
fn first_difference(spared: &[u16], a: &[u16], b: &[u16], first: u16, end: u16) -> Option<u16>
    ensures { MatchOption result (AgreeBetween first end spared.now a.now b.now)
        (λ i. (first ≤ i) × (i < end) × (differ_at spared.now a.now b.now i ≡ true)) }
{
    let mut from = first;
    while from < end {
        let to = block_end(from, end);
        if let Some(address) = difference_in_block(spared, a, b, from, to) {
            return Some(address);
        }
        from = to;
    }
    None
}

// Where a block of words ends that are compared at once.
fn block_end(from: u16, end: u16) -> u16
    requires { from < end }
    ensures some { from < result }
    ensures within { result ≤ end }
{
    if end - from > BLOCK {
        from + BLOCK
    } else {
        end
    }
}

// The first address in a block at which two images differ.
fn difference_in_block(spared: &[u16], a: &[u16], b: &[u16], from: u16, to: u16) -> Option<u16>
    ensures { MatchOption result (AgreeBetween from to spared.now a.now b.now)
        (λ i. (from ≤ i) × (i < to) × (differ_at spared.now a.now b.now i ≡ true)) }
{
    if have_same_words(a, b, usize::from(from), usize::from(to)) {
        return None;
    }
    for address in from..to {
        if word_at(a, address) != word_at(b, address) && !spared.contains(&address) {
            return Some(address);
        }
    }
    None
}

// Whether two images have all words of a block, and the same ones.
fn have_same_words(a: &[u16], b: &[u16], from: usize, to: usize) -> bool
    ensures { IsTrue result → (i : ℕ) → from ≤ i → i < to → slice_index a.now i ≡ slice_index b.now i }
{
    if from > to || to > a.len() || to > b.len() {
        return false;
    }
    are_equal(&a[from..to], &b[from..to])
}

/// Whether these words are those.
pub(crate) fn are_equal(a: &[u16], b: &[u16]) -> bool
    ensures { IsTrue result → a.now ≡ b.now }
{
    a == b
}
