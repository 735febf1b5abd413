//! A change of one word in a transaction.
ghost use Rattle.std.specs.Prelude.{◌≡◌, ◌<◌, ◌≤◌, ◌+◌, ◌*◌, ◌^◌, [], ◌∷◌, false, length, nat_le, is_ok, is_some, if◌then◌else◌, OnOk, IfSome};
ghost use Rattle.jc_words.specs.Layout.{most_capacity};
ghost use Rattle.jc_commit.specs.Image.{count_of, limit_of, touched_of, IsPlace};
ghost use Rattle.jc_commit.specs.Keep.{is_taken_back, writes_inside};
ghost use Rattle.jc_commit.specs.EntryIndex.{IsIndexOf, IsPlaceFor};
ghost use Rattle.jc_commit.specs.Writing.{Wrote, HasLog, IsFreeFrom, MayBeWritten, KeepsTransaction, ChangesInside};

use crate::index::{EntryIndex, find_at_last, find_from_first, insert_at};
use crate::keep::write_through;
use jc_words::layout::COUNT;
use jc_words::{Log, StoreDown, WordStore};

// Where the index of the first n entries has to have one more before this address is written, where the last
// one says so.
#[inline(always)]
pub(crate) fn place_at_last<S: WordStore>(
    store: &S,
    log: Log,
    n: u16,
    numbers: &[u16],
    born: u16,
    address: u16,
) -> Option<Option<usize>>
    requires few { n ≤ log.capacity }
    requires size { log.start + 2 * log.capacity ≤ length (S.words store.now) }
    requires small { log.start + 2 * log.capacity < 2 ^ 16 }
    requires index { IsIndexOf log (S.words store.now) n numbers.now }
    ensures { IfSome result (λ place. IsPlaceFor log (S.words store.now) n numbers.now born address
        place) }
{
    if born <= address {
        return Some(None);
    }
    match find_at_last(store, log, n, numbers, address) {
        Some(Ok(_)) => Some(None),
        Some(Err(place)) => Some(Some(place)),
        None => None,
    }
}

// The same, wherever it is.
#[inline(always)]
pub(crate) fn place_for<S: WordStore>(
    store: &S,
    log: Log,
    n: u16,
    numbers: &[u16],
    born: u16,
    address: u16,
) -> Option<usize>
    requires few { n ≤ log.capacity }
    requires size { log.start + 2 * log.capacity ≤ length (S.words store.now) }
    requires small { log.start + 2 * log.capacity < 2 ^ 16 }
    requires index { IsIndexOf log (S.words store.now) n numbers.now }
    ensures { IsPlaceFor log (S.words store.now) n numbers.now born address result }
{
    if address >= born {
        return None;
    }
    match find_from_first(store, log, n, numbers, address) {
        Ok(_) => None,
        Err(place) => Some(place),
    }
}

// Whether there is room for the entry that the index has to have more, beside n ones.
#[inline(always)]
pub(crate) fn has_room_at(log: Log, n: u16, place: Option<usize>) -> bool
    requires { n ≤ log.capacity }
    ensures { result ≡ nat_le (n + (if is_some place then 1 else 0)) log.capacity }
{
    match place {
        None => true,
        Some(_) => n < log.capacity,
    }
}

// Puts an entry of the word after the first n ones, counts it, and then writes the word.
#[inline(always)]
fn keep_word<S: WordStore>(
    store: &mut S,
    log: Log,
    n: u16,
    born: u16,
    change: (u16, u16),
) -> Result<(), StoreDown>
    requires stands { HasLog log (S.words store.old) }
    requires count { (n ≡ count_of (S.words store.old)) × (n < log.capacity) }
    requires births { IsFreeFrom (S.words store.old) born }
    requires there { IsPlace (limit_of (S.words store.old)) change.0 }
    requires new { is_taken_back (touched_of (S.words store.old)) born change.0 ≡ false }
    ensures stays { KeepsTransaction (S.words store.old) (S.words store.new) }
    ensures changed { OnOk result (ChangesInside born (change ∷ []) (S.words store.old)
        (S.words store.new) (n + 1)) }
    ensures wrote { Wrote S.down S.passed S.refusals 4 (is_ok result) store.old store.new }
{
    let (address, _) = change;
    let entry = (address, store.read(address));
    store.write_four(log.address_word(n), entry, (COUNT, n + 1), change)?;
    Ok(())
}

// Writes the word, by the place in the index of the first n entries where one more has to stand before.
#[inline(always)]
pub(crate) fn write_at<S: WordStore>(
    store: &mut S,
    log: Log,
    n: u16,
    numbers: &mut EntryIndex,
    born: u16,
    place: Option<usize>,
    change: (u16, u16),
) -> Result<(), StoreDown>
    requires ready { MayBeWritten log (S.words store.old) n numbers.old.items born change.0 place }
    requires most { log.capacity ≤ most_capacity }
    requires room { n + (if is_some place then 1 else 0) ≤ log.capacity }
    ensures stays { KeepsTransaction (S.words store.old) (S.words store.new) }
    ensures changed { OnOk result (ChangesInside born (change ∷ []) (S.words store.old)
        (S.words store.new) (n + (if is_some place then 1 else 0))) }
    ensures index { OnOk result (IsIndexOf log (S.words store.new)
        (n + (if is_some place then 1 else 0)) numbers.new.items) }
    ensures wrote { Wrote S.down S.passed S.refusals
        (writes_inside 1 (if is_some place then 1 else 0)) (is_ok result) store.old store.new }
{
    let Some(place) = place else {
        return write_through(store, born, &[change]);
    };
    insert_at(numbers, place, n);
    keep_word(store, log, n, born, change)?;
    Ok(())
}
