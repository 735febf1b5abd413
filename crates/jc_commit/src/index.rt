//! The entries that count, in the order of the addresses that they name.
ghost use Rattle.std.specs.Prelude.{◌≡◌, ◌<◌, ◌≤◌, ◌+◌, ◌*◌, ◌^◌, ◌==◌, [], length, insert, IfSome, MatchResult};
ghost use Rattle.std.specs.List.{list_any};
ghost use Rattle.jc_words.specs.Layout.{most_capacity};
ghost use Rattle.jc_commit.specs.Entries.{AreDistinct};
ghost use Rattle.jc_commit.specs.EntryIndex.{named_by, IsIndexOf, StandsAt, IsGapFor};
ghost use Rattle.jc_commit.specs.Writing.{IsIndexed};

use arrayvec::ArrayVec;
use jc_words::layout::MOST_CAPACITY;
use jc_words::{Log, WordStore};

// How many entries there can be.
const MOST_ENTRIES: usize = MOST_CAPACITY as usize;

/// The numbers of entries.
pub(crate) type EntryIndex = ArrayVec<u16, MOST_ENTRIES>;

// The same numbers.
pub(crate) fn copy_of(numbers: &EntryIndex) -> EntryIndex
    ensures { result.items ≡ numbers.now.items }
{
    let mut copy = EntryIndex::new();
    match copy.try_extend_from_slice(numbers.as_slice()) {
        Ok(()) => copy,
        Err(_) => unreachable!(),
    }
}

// Takes all numbers away. Most transactions have one entry, which takes no call.
#[inline(always)]
pub(crate) fn clear(numbers: &mut EntryIndex)
    ensures { numbers.new.items ≡ [] }
{
    let _ = numbers.pop();
    if !numbers.is_empty() {
        numbers.clear();
    }
}

// The last place of the index, where an entry that names the address stands, or after which one would belong, if it is so: code mostly writes
// the words of an array in their order, and two bytes of each.
#[inline(always)]
pub(crate) fn find_at_last<S: WordStore>(
    store: &S,
    log: Log,
    n: u16,
    numbers: &[u16],
    address: u16,
) -> Option<Result<usize, usize>>
    requires few { n ≤ log.capacity }
    requires size { log.start + 2 * log.capacity ≤ length (S.words store.now) }
    requires small { log.start + 2 * log.capacity < 2 ^ 16 }
    requires index { IsIndexOf log (S.words store.now) n numbers.now }
    ensures { IfSome result (λ place. MatchResult place
        (λ i. StandsAt log (S.words store.now) numbers.now address i)
        (λ i. IsGapFor log (S.words store.now) numbers.now address i)) }
{
    let count = numbers.len();
    if count == 0 {
        return Some(Err(0));
    }
    let last = store.read(log.address_word(numbers[count - 1]));
    if last < address {
        return Some(Err(count));
    }
    if last == address {
        return Some(Ok(count - 1));
    }
    None
}

// The first place of the index, likewise.
#[inline(always)]
fn find_at_first<S: WordStore>(
    store: &S,
    log: Log,
    n: u16,
    numbers: &[u16],
    address: u16,
) -> Option<Result<usize, usize>>
    requires few { n ≤ log.capacity }
    requires size { log.start + 2 * log.capacity ≤ length (S.words store.now) }
    requires small { log.start + 2 * log.capacity < 2 ^ 16 }
    requires index { IsIndexOf log (S.words store.now) n numbers.now }
    ensures { IfSome result (λ place. MatchResult place
        (λ i. StandsAt log (S.words store.now) numbers.now address i)
        (λ i. IsGapFor log (S.words store.now) numbers.now address i)) }
{
    if numbers.is_empty() {
        return Some(Err(0));
    }
    let first = store.read(log.address_word(numbers[0]));
    if address < first {
        return Some(Err(0));
    }
    if first == address {
        return Some(Ok(0));
    }
    None
}

// Where in the index of the first n entries one stands that names the address, or where one would
// belong.
fn find_within<S: WordStore>(
    store: &S,
    log: Log,
    n: u16,
    numbers: &[u16],
    address: u16,
) -> Result<usize, usize>
    requires few { n ≤ log.capacity }
    requires size { log.start + 2 * log.capacity ≤ length (S.words store.now) }
    requires small { log.start + 2 * log.capacity < 2 ^ 16 }
    requires index { IsIndexOf log (S.words store.now) n numbers.now }
    ensures { MatchResult result (λ i. StandsAt log (S.words store.now) numbers.now address i)
        (λ i. IsGapFor log (S.words store.now) numbers.now address i) }
{
    let mut low = 0;
    let mut high = numbers.len();
    while low < high {
        let middle = low + (high - low) / 2;
        let there = store.read(log.address_word(numbers[middle]));
        if there == address {
            return Ok(middle);
        }
        if there < address {
            low = middle + 1;
        } else {
            high = middle;
        }
    }
    Err(low)
}

// The same, at the first place before the others.
#[inline(always)]
pub(crate) fn find_from_first<S: WordStore>(
    store: &S,
    log: Log,
    n: u16,
    numbers: &[u16],
    address: u16,
) -> Result<usize, usize>
    requires few { n ≤ log.capacity }
    requires size { log.start + 2 * log.capacity ≤ length (S.words store.now) }
    requires small { log.start + 2 * log.capacity < 2 ^ 16 }
    requires index { IsIndexOf log (S.words store.now) n numbers.now }
    ensures { MatchResult result (λ i. StandsAt log (S.words store.now) numbers.now address i)
        (λ i. IsGapFor log (S.words store.now) numbers.now address i) }
{
    if let Some(first) = find_at_first(store, log, n, numbers, address) {
        return first;
    }
    find_within(store, log, n, numbers, address)
}

// The same, at the last place before it.
#[inline(always)]
fn find<S: WordStore>(
    store: &S,
    log: Log,
    n: u16,
    numbers: &[u16],
    address: u16,
) -> Result<usize, usize>
    requires few { n ≤ log.capacity }
    requires size { log.start + 2 * log.capacity ≤ length (S.words store.now) }
    requires small { log.start + 2 * log.capacity < 2 ^ 16 }
    requires index { IsIndexOf log (S.words store.now) n numbers.now }
    ensures { MatchResult result (λ i. StandsAt log (S.words store.now) numbers.now address i)
        (λ i. IsGapFor log (S.words store.now) numbers.now address i) }
{
    if let Some(last) = find_at_last(store, log, n, numbers, address) {
        return last;
    }
    find_from_first(store, log, n, numbers, address)
}

// Whether one of the first n entries names the address.
pub(crate) fn is_named<S: WordStore>(
    store: &S,
    log: Log,
    n: u16,
    numbers: &[u16],
    address: u16,
) -> bool
    requires few { n ≤ log.capacity }
    requires size { log.start + 2 * log.capacity ≤ length (S.words store.now) }
    requires small { log.start + 2 * log.capacity < 2 ^ 16 }
    requires index { IsIndexOf log (S.words store.now) n numbers.now }
    ensures { result ≡ list_any (λ x. x == address) (named_by log (S.words store.now) n) }
{
    find(store, log, n, numbers, address).is_ok()
}

// Puts a number into the index: at its end without a move of others, as where code writes words in their order.
#[tactic(auto, using(std::proofs::lemmas::List::Edits::insert_end))]
#[inline(always)]
pub(crate) fn insert_at(numbers: &mut EntryIndex, place: usize, n: u16)
    requires within { place ≤ length numbers.old.items }
    requires room { length numbers.old.items < most_capacity }
    ensures { numbers.new.items ≡ insert numbers.old.items place n }
{
    if place == numbers.len() {
        numbers.push(n);
    } else {
        numbers.insert(place, n);
    }
}

// Puts entry n into the index of those before it, none of which names its address.
#[inline(always)]
fn add_entry<S: WordStore>(store: &S, log: Log, n: u16, numbers: &mut EntryIndex)
    requires stands { IsIndexed log (S.words store.now) n numbers.old.items }
    requires room { n < log.capacity }
    requires most { log.capacity ≤ most_capacity }
    requires distinct { AreDistinct (named_by log (S.words store.now) (n + 1)) }
    ensures { IsIndexOf log (S.words store.now) (n + 1) numbers.new.items }
{
    let slot = log.address_word(n);
    let address = store.read(slot);
    match find(store, log, n, numbers.as_slice(), address) {
        Ok(_) => unreachable!(),
        Err(place) => insert_at(numbers, place, n),
    }
}

// Puts the entries from `first` on, of n ones, into the index of those before them.
#[inline(always)]
pub(crate) fn add_entries<S: WordStore>(
    store: &S,
    log: Log,
    first: u16,
    n: u16,
    numbers: &mut EntryIndex,
)
    requires stands { IsIndexed log (S.words store.now) first numbers.old.items }
    requires order { first ≤ n }
    requires few { n ≤ log.capacity }
    requires most { log.capacity ≤ most_capacity }
    requires distinct { AreDistinct (named_by log (S.words store.now) n) }
    ensures { IsIndexOf log (S.words store.now) n numbers.new.items }
{
    for k in first..n {
        add_entry(store, log, k, numbers);
    }
}
