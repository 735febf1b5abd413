//! Changes: a word's first old value in a transaction is kept, and none of a word born in it.
ghost use Rattle.std.specs.Prelude.{◌≡◌, ◌<◌, ◌≤◌, ◌+◌, ◌*◌, ◌^◌, ◌==◌, ℕ, [], ◌∷◌, nat_le, length, OnOk, OnErr, IfOk, slice_index_or, slice_set, filter, not, is_ok, if◌then◌else◌};
ghost use Rattle.jc_words.specs.Layout.{count_address, log_end};
ghost use Rattle.jc_commit.specs.Image.{count_of, entries, limit_of, plain_of, touched_of, with_words, IsGoodLog};
ghost use Rattle.jc_commit.specs.Entries.{ArePlaces, IsBeside, AreBeside, SameBefore};
ghost use Rattle.jc_commit.specs.Keep.{is_taken_back, writes_inside};
ghost use Rattle.jc_commit.specs.EntryIndex.{named_by, needing, with_entries, IsIndexOf, GoBack};
ghost use Rattle.jc_commit.specs.Runs.{entry_words, WritesWords};
ghost use Rattle.jc_commit.specs.Writing.{Wrote, HasLog, IsIndexed, IsFreeFrom, KeepsTransaction, ArePut, ChangesInside};

use crate::changes::{WordChanges, WordRun};
use crate::index::is_named;
use jc_words::layout::COUNT;
use jc_words::{LONGEST_RUN, Log, StoreDown, WordStore};

// Whether an abort takes back what is written at the address, with nothing more kept of it.
pub(crate) fn is_taken_back<S: WordStore>(
    store: &S,
    log: Log,
    n: u16,
    numbers: &[u16],
    born: u16,
    address: u16,
) -> bool
    requires few { n ≤ log.capacity }
    requires size { log.start + 2 * log.capacity ≤ length (S.words store.now) }
    requires small { log.start + 2 * log.capacity < 2 ^ 16 }
    requires index { IsIndexOf log (S.words store.now) n numbers.now }
    ensures { result ≡ is_taken_back (named_by log (S.words store.now) n) born address }
{
    if born <= address {
        return true;
    }
    is_named(store, log, n, numbers, address)
}

// How many of these changes have an old value to keep.
fn count_needing<S: WordStore, C: WordChanges>(
    store: &S,
    log: Log,
    n: u16,
    numbers: &[u16],
    born: u16,
    changes: &C,
) -> usize
    requires few { n ≤ log.capacity }
    requires size { log.start + 2 * log.capacity ≤ length (S.words store.now) }
    requires small { log.start + 2 * log.capacity < 2 ^ 16 }
    requires index { IsIndexOf log (S.words store.now) n numbers.now }
    ensures { result ≡ length (needing (named_by log (S.words store.now) n) born (C.changes changes.now)) }
{
    let mut needed = 0;
    for i in 0..changes.count() {
        let (address, _) = changes.change(i);
        if !is_taken_back(store, log, n, numbers, born, address) {
            needed += 1;
        }
    }
    needed
}

// Whether there is room for the old values that these changes have to keep, beside n entries. They are
// counted only where there may be too many.
pub(crate) fn has_room<S: WordStore, C: WordChanges>(
    store: &S,
    log: Log,
    n: u16,
    numbers: &[u16],
    born: u16,
    changes: &C,
) -> bool
    requires few { n ≤ log.capacity }
    requires size { log.start + 2 * log.capacity ≤ length (S.words store.now) }
    requires small { log.start + 2 * log.capacity < 2 ^ 16 }
    requires index { IsIndexOf log (S.words store.now) n numbers.now }
    ensures { result ≡ nat_le (n + length (needing (named_by log (S.words store.now) n) born
        (C.changes changes.now))) log.capacity }
{
    let room = (log.capacity - n) as usize;
    if changes.count() <= room {
        return true;
    }
    count_needing(store, log, n, numbers, born, changes) <= room
}

// How many of these addresses have an old value to keep.
pub(crate) fn count_new<S: WordStore>(
    store: &S,
    log: Log,
    n: u16,
    numbers: &[u16],
    born: u16,
    addresses: &[u16],
) -> usize
    requires few { n ≤ log.capacity }
    requires size { log.start + 2 * log.capacity ≤ length (S.words store.now) }
    requires small { log.start + 2 * log.capacity < 2 ^ 16 }
    requires index { IsIndexOf log (S.words store.now) n numbers.now }
    ensures { result ≡ length (filter (λ a. not (is_taken_back (named_by log (S.words store.now) n) born
        a)) addresses.now) }
{
    let mut needed = 0;
    for address in addresses {
        if !is_taken_back(store, log, n, numbers, born, *address) {
            needed += 1;
        }
    }
    needed
}

// Writes an entry: the address, and the word there as it is. The count stays.
#[inline(always)]
fn put_entry<S: WordStore>(store: &mut S, log: Log, k: u16, address: u16) -> Result<(), StoreDown>
    requires size { log.start + 2 * log.capacity ≤ length (S.words store.old) }
    requires small { log.start + 2 * log.capacity < 2 ^ 16 }
    requires few { k < log.capacity }
    requires place { IsBeside log (length (S.words store.old)) address }
    ensures words { OnOk result (S.words store.new ≡ with_entries log (S.words store.old) k
        ((address, 0) ∷ [])) }
    ensures same { SameBefore log k (S.words store.old) (S.words store.new) }
    ensures wrote { Wrote S.down S.passed S.refusals 2 (is_ok result) store.old store.new }
{
    let old = store.read(address);
    store.write_pair(log.address_word(k), address, old)?;
    Ok(())
}

// Puts an entry after the first k ones for a change whose word's old value has to be kept, by the index of
// the first n, and answers how many there are then.
#[inline(always)]
fn put_change<S: WordStore>(
    store: &mut S,
    log: Log,
    n: u16,
    numbers: &[u16],
    born: u16,
    k: u16,
    change: (u16, u16),
) -> Result<u16, StoreDown>
    requires stands { IsIndexed log (S.words store.old) n numbers.now }
    requires place { IsBeside log (length (S.words store.old)) change.0 }
    requires room { k + length (needing (named_by log (S.words store.old) n) born (change ∷ [])) ≤
        log.capacity }
    ensures put { IfOk result (λ m. ArePut log k (needing (named_by log (S.words store.old) n) born
        (change ∷ [])) (S.words store.old) (S.words store.new) m) }
    ensures same { SameBefore log k (S.words store.old) (S.words store.new) }
    ensures wrote { Wrote S.down S.passed S.refusals
        (2 * length (needing (named_by log (S.words store.old) n) born (change ∷ [])))
        (is_ok result) store.old store.new }
{
    let (address, _) = change;
    if is_taken_back(store, log, n, numbers, born, address) {
        return Ok(k);
    }
    put_entry(store, log, k, address)?;
    Ok(k + 1)
}

// The words of the entries that keep the values of a run's words.
#[inline(always)]
fn fill_entries<S: WordStore>(store: &S, run: &WordRun<'_>, out: &mut [u16])
    requires all { length out.old ≡ 2 * length run.now }
    requires there { (k : ℕ) → k < length run.now
        → (slice_index_or run.now k (0, 0)).0 < length (S.words store.now) }
    ensures { out.new ≡ entry_words (S.words store.now) run.now }
{
    for k in 0..run.count() {
        let (address, _) = run.change(k);
        out[2 * k] = address;
        out[2 * k + 1] = store.read(address);
    }
}

// Puts the first entries, one for each word of a run, and answers how many they are.
#[inline(never)]
fn put_run<S: WordStore>(store: &mut S, log: Log, run: &WordRun<'_>) -> Result<u16, StoreDown>
    requires size { log.start + 2 * log.capacity ≤ length (S.words store.old) }
    requires places { AreBeside log (length (S.words store.old)) run.now }
    requires room { length run.now ≤ log.capacity }
    ensures put { IfOk result (λ n. ArePut log 0 run.now (S.words store.old) (S.words store.new) n) }
    ensures same { SameBefore log 0 (S.words store.old) (S.words store.new) }
    ensures wrote { Wrote S.down S.passed S.refusals (2 * length run.now) (is_ok result) store.old
        store.new }
{
    let count = run.count();
    let mut room = [0; LONGEST_RUN];
    let words = &mut room[..2 * count];
    fill_entries(store, run, words);
    store.write_run(log.start, words)?;
    Ok(count as u16)
}

// Puts entries for the changes whose words' old values have to be kept, after the first ones, and answers
// how many there are then.
#[inline(always)]
fn put_needing<S: WordStore, C: WordChanges>(
    store: &mut S,
    log: Log,
    first: u16,
    numbers: &[u16],
    born: u16,
    changes: &C,
) -> Result<u16, StoreDown>
    requires stands { IsIndexed log (S.words store.old) first numbers.now }
    requires places { AreBeside log (length (S.words store.old)) (C.changes changes.now) }
    requires room { first + length (needing (named_by log (S.words store.old) first) born (C.changes changes.now)) ≤
        log.capacity }
    ensures put { IfOk result (λ n. ArePut log first
        (needing (named_by log (S.words store.old) first) born (C.changes changes.now))
        (S.words store.old) (S.words store.new) n) }
    ensures same { SameBefore log first (S.words store.old) (S.words store.new) }
    ensures wrote { Wrote S.down S.passed S.refusals
        (2 * length (needing (named_by log (S.words store.old) first) born (C.changes changes.now)))
        (is_ok result) store.old store.new }
{
    if first == 0 && born == u16::MAX {
        let _ = store.size(); // so that the proof knows that each address is below the largest number
        if let Some(run) = changes.as_run() {
            return put_run(store, log, &run);
        }
    }
    let mut k = first;
    for i in 0..changes.count() {
        k = put_change(store, log, first, numbers, born, k, changes.change(i))?;
    }
    Ok(k)
}

// Counts the entries, where there are more.
#[inline(always)]
fn count_entries<S: WordStore>(store: &mut S, before: u16, behind: u16) -> Result<(), StoreDown>
    requires size { log_end ≤ length (S.words store.old) }
    requires count { before ≡ count_of (S.words store.old) }
    ensures words { OnOk result (S.words store.new ≡ (if before ==
        behind then S.words store.old else slice_set (S.words store.old) count_address behind)) }
    ensures kept { OnErr result (S.words store.new ≡ S.words store.old) }
    ensures wrote { Wrote S.down S.passed S.refusals (if before == behind then 0 else 1)
        (is_ok result) store.old store.new }
{
    if before == behind {
        return Ok(());
    }
    store.write(COUNT, behind)?;
    Ok(())
}

// Writes words, one after the other.
#[inline(always)]
fn write_each<S: WordStore, C: WordChanges>(store: &mut S, changes: &C) -> Result<(), StoreDown>
    requires { (k : ℕ) → k < length (C.changes changes.now)
        → (slice_index_or (C.changes changes.now) k (0, 0)).0 < length (S.words store.old) }
    ensures { WritesWords S.words S.down S.passed S.refusals (C.changes changes.now) result store.old
        store.new }
{
    for i in 0..changes.count() {
        let (address, value) = changes.change(i);
        store.write(address, value)?;
    }
    Ok(())
}

// Writes words of which an abort takes each back.
#[inline(always)]
pub(crate) fn write_through<S: WordStore, C: WordChanges>(
    store: &mut S,
    born: u16,
    changes: &C,
) -> Result<(), StoreDown>
    requires good { IsGoodLog (S.words store.old) }
    requires places { ArePlaces (limit_of (S.words store.old)) (C.changes changes.now) }
    requires kept { GoBack (S.words store.old) born (C.changes changes.now) }
    requires births { IsFreeFrom (S.words store.old) born }
    ensures stays { KeepsTransaction (S.words store.old) (S.words store.new) }
    ensures entries { entries (S.words store.new) ≡ entries (S.words store.old) }
    ensures plain { OnOk result (plain_of (S.words store.new)
        ≡ with_words (plain_of (S.words store.old)) (C.changes changes.now)) }
    ensures wrote { Wrote S.down S.passed S.refusals (length (C.changes changes.now))
        (is_ok result) store.old store.new }
{
    if let Some(run) = changes.as_run() {
        return run.write(store);
    }
    write_each(store, changes)
}

// A change: puts entries for the words whose old values have to be kept, counts them, and then writes the
// words. Answers how many entries count then.
#[inline(always)]
pub(crate) fn keep_and_write<S: WordStore, C: WordChanges>(
    store: &mut S,
    log: Log,
    numbers: &[u16],
    born: u16,
    changes: &C,
) -> Result<u16, StoreDown>
    requires stands { HasLog log (S.words store.old) }
    requires index { IsIndexOf log (S.words store.old) (count_of (S.words store.old)) numbers.now }
    requires births { IsFreeFrom (S.words store.old) born }
    requires places { ArePlaces (limit_of (S.words store.old)) (C.changes changes.now) }
    requires room { count_of (S.words store.old) + length (needing (touched_of (S.words store.old)) born
        (C.changes changes.now)) ≤ log.capacity }
    // What a recovery leaves stays, below its top.
    ensures stays { KeepsTransaction (S.words store.old) (S.words store.new) }
    ensures changed { IfOk result (λ n. ChangesInside born (C.changes changes.now) (S.words store.old)
        (S.words store.new) n) }
    ensures wrote { Wrote S.down S.passed S.refusals (writes_inside (length (C.changes changes.now))
        (length (needing (touched_of (S.words store.old)) born (C.changes changes.now))))
        (is_ok result) store.old store.new }
{
    let first = store.read(COUNT);
    let behind = put_needing(store, log, first, numbers, born, changes)?;
    count_entries(store, first, behind)?;
    write_through(store, born, changes)?;
    Ok(behind)
}
