//! Recoveries of what a cut left, which are cut themselves, and what comes of the one after them.
ghost use Rattle.std.specs.Prelude.{◌≡◌, ◌≢◌, ◌≤◌, ◌<◌, ◌+◌, ◌*◌, ◌^◌, ◌↔◌, ℕ, false, length, slice_index, vec_len, IfErr, IfOk, IfSome, IsTrue, MatchBool, MatchOption, MatchResult, OnOk};
ghost use Rattle.jc_words.specs.Image.{IsLogAmong, log_of};
ghost use Rattle.jc_words.specs.Layout.{first_version, least_size, most_capacity, version_address};
ghost use Rattle.jc_commit.specs.Image.{IsGoodLog, address_at, count_of};
ghost use Rattle.jc_commit.specs.Replay.{replay_writes, torn_replay};
ghost use Rattle.jcard_outcomes.specs.Recoveries.{recoveries_of};
ghost use Rattle.jcard_sweeps.specs.Faults.{IsLeftFault, IsLogFault};
ghost use Rattle.jcard_tear.specs.Recoveries.{AreRecoveries, AreTheSame, ComesToAnother, ComesToTheSame, IsSameLeft, NamesEachOnce};
ghost use Rattle.jcard_sweeps.specs.Runs.{IsLeft};

use jc_commit::{Journal, OpenRefusal};
use jc_words::layout::{
    CAPACITY_WORD, COUNT, FIRST_VERSION, JOURNAL_WORD, LEAST_SIZE, VERSION_WORD,
};
use jc_words::{FuseStore, Log, MemStore};
use jcard_outcomes::recoveries::{Depth, Recoveries};
use jcard_outcomes::standing::Left;
use jcard_sweeps::runs::{BAD_LOG, RunFault, left, words_of};
use std::alloc::Global;

/// Cuts recoveries of these words, as many as this one after the other, and compares what the next one comes to with what
/// is left where none is cut. However many are cut, they leave what one of them leaves that is cut: each of these images is
/// tried once.
pub(crate) fn recoveries(
    alloc: Global,
    words: &[u16],
    probe: &[u8],
    budget: u32,
    depth: Depth,
    whole: &Left,
) -> Result<Recoveries, RunFault>
    requires small { length words.now < 65536 }
    requires left { IsLeft budget words.now probe.now whole.now }
    ensures { MatchResult result (λ found. AreRecoveries depth budget words.now probe.now whole.now found)
        (λ fault. IsLeftFault budget probe.now fault) }
{
    match depth {
        Depth::Zero => Ok(Recoveries {
            ways: 1,
            difference: None,
        }),
        Depth::One | Depth::Two | Depth::Three => {
            cut_deep(alloc, words, probe, budget, depth, whole)
        },
    }
}

// Cuts them.
fn cut_deep(
    alloc: Global,
    words: &[u16],
    probe: &[u8],
    budget: u32,
    depth: Depth,
    whole: &Left,
) -> Result<Recoveries, RunFault>
    requires small { length words.now < 65536 }
    requires left { IsLeft budget words.now probe.now whole.now }
    ensures { MatchResult result (λ found. AreRecoveries depth budget words.now probe.now whole.now found)
        (λ fault. IsLeftFault budget probe.now fault) }
{
    let writes = recovery_writes(words)?;
    let difference = first_difference(alloc, words, probe, budget, writes, whole)?;
    Ok(Recoveries {
        ways: ways(writes, depth),
        difference,
    })
}

// In how many ways recoveries of this many writes can be cut, one after the other.
fn ways(writes: u16, depth: Depth) -> u64
    ensures { result ≡ writes ^ recoveries_of depth }
{
    let writes = u64::from(writes);
    match depth {
        Depth::Zero => 1,
        Depth::One => writes,
        Depth::Two => writes * writes,
        Depth::Three => writes * writes * writes,
    }
}

// After how many of its writes a recovery has to be cut to make a difference.
fn first_difference(
    alloc: Global,
    words: &[u16],
    probe: &[u8],
    budget: u32,
    writes: u16,
    whole: &Left,
) -> Result<Option<u16>, RunFault>
    requires small { length words.now < 65536 }
    requires version { slice_index words.now version_address ≢ first_version }
    requires left { IsLeft budget words.now probe.now whole.now }
    ensures difference { IfOk result (λ found. MatchOption found
        (AreTheSame budget words.now probe.now whole.now writes)
        (λ n. (n < writes) × ComesToAnother budget (torn_replay n words.now) probe.now whole.now
        × AreTheSame budget words.now probe.now whole.now n)) }
    ensures good { OnOk result (0 < writes → IsGoodLog words.now) }
    ensures fault { IfErr result (λ fault. IsLeftFault budget probe.now fault) }
{
    let mut tried = Vec::from_slice(alloc, words)?;
    for number in 0..writes {
        let torn = cut_recovery(alloc, words, number)?;
        if !are_equal(&torn, &tried) {
            if !comes_to_the_same(alloc, &torn, probe, budget, whole)? {
                return Ok(Some(number));
            }
            tried = torn;
        }
    }
    Ok(None)
}

// The words that a recovery of these leaves which is cut after this many of its writes.
fn cut_recovery(alloc: Global, words: &[u16], number: u16) -> Result<Vec<u16>, RunFault>
    requires small { length words.now < 65536 }
    requires version { slice_index words.now version_address ≢ first_version }
    ensures torn { IfOk result (λ torn. torn.items ≡ torn_replay number words.now) }
    ensures good { OnOk result (IsGoodLog words.now) }
    ensures short { IfOk result (λ torn. vec_len torn < 65536) }
    ensures fault { IfErr result (λ fault. IsLogFault fault) }
{
    let copy = Vec::from_slice(alloc, words)?;
    let mut store = FuseStore::new(MemStore::of(copy));
    store.arm(u64::from(number));
    match Journal::open(store) {
        Err((OpenRefusal::StoreDown, store)) => Ok(words_of(store)),
        Ok(_) | Err((OpenRefusal::BadLog, _)) => Err(BAD_LOG),
    }
}

// Whether a recovery of these words, and the probe, come to the same as is left where no recovery is cut.
fn comes_to_the_same(
    alloc: Global,
    words: &[u16],
    probe: &[u8],
    budget: u32,
    whole: &Left,
) -> Result<bool, RunFault>
    requires { length words.now < 65536 }
    ensures { MatchResult result (λ same. MatchBool same (ComesToTheSame budget words.now probe.now whole.now)
        (ComesToAnother budget words.now probe.now whole.now))
        (λ fault. IsLeftFault budget probe.now fault) }
{
    let copy = Vec::from_slice(alloc, words)?;
    let found = left(alloc, copy, probe, budget)?;
    Ok(is_same(whole, &found))
}

fn is_same(a: &Left, b: &Left) -> bool
    ensures { IsTrue result ↔ IsSameLeft a.now b.now }
{
    a.words == b.words && a.answers == b.answers
}

pub(crate) fn are_equal(a: &[u16], b: &[u16]) -> bool
    ensures { IsTrue result → a.now ≡ b.now }
{
    a == b
}

// How many writes a recovery of these words makes: one for each entry that counts, and one for their count. A card that powered up
// leaves an image of the version that is written.
fn recovery_writes(words: &[u16]) -> Result<u16, RunFault>
    requires { length words.now < 65536 }
    ensures writes { IfOk result (λ n. n ≡ length (replay_writes words.now)) }
    ensures once { OnOk result (NamesEachOnce words.now) }
    ensures version { OnOk result (slice_index words.now version_address ≢ first_version) }
    ensures fault { IfErr result (λ fault. IsLogFault fault) }
{
    match entries(words) {
        Some(0) => Ok(0),
        Some(count) => Ok(count + 1),
        None => Err(BAD_LOG),
    }
}

// How many entries count; none where they are too many, or two of them name the same word.
fn entries(words: &[u16]) -> Option<u16>
    requires { length words.now < 65536 }
    ensures count { IfSome result (λ n. n ≡ count_of words.now) }
    ensures few { IfSome result (λ n. n ≤ most_capacity) }
    ensures once { IfSome result (λ _. NamesEachOnce words.now) }
    ensures version { IfSome result (λ _. slice_index words.now version_address ≢ first_version) }
{
    let log = journal_of(words)?;
    let count = words[usize::from(COUNT)];
    if count > log.capacity {
        return None;
    }
    for entry in 0..count {
        if is_named_before(words, log, entry) {
            return None;
        }
    }
    Some(count)
}

// Where the journal of these words stands; nothing where it cannot stand there, or where the version is the first.
#[tactic(auto, unfolding(jc_words::specs::Image::log_of))]
pub(crate) fn journal_of(words: &[u16]) -> Option<Log>
    requires { length words.now < 65536 }
    ensures log { IfSome result (λ log. log ≡ log_of words.now) }
    ensures fits { IfSome result (λ log. IsLogAmong (length words.now) log) }
    ensures size { IfSome result (λ _. least_size ≤ length words.now) }
    ensures version { IfSome result (λ _. slice_index words.now version_address ≢ first_version) }
{
    if words.len() < usize::from(LEAST_SIZE) {
        return None;
    }
    let version = words[usize::from(VERSION_WORD)];
    if version == FIRST_VERSION {
        return None;
    }
    let log = Log {
        version,
        start: words[usize::from(JOURNAL_WORD)],
        capacity: words[usize::from(CAPACITY_WORD)],
    };
    if log.fits(words.len() as u16) {
        Some(log)
    } else {
        None
    }
}

// Whether an entry before this one names the same word.
fn is_named_before(words: &[u16], log: Log, entry: u16) -> bool
    requires size { log.start + 2 * log.capacity ≤ length words.now }
    requires small { length words.now < 65536 }
    requires entry { entry < log.capacity }
    ensures { result ≡ false
        → (j : ℕ) → j < entry → address_at log words.now j ≢ address_at log words.now entry }
{
    let address = address_in(words, log, entry);
    for earlier in 0..entry {
        if address_in(words, log, earlier) == address {
            return true;
        }
    }
    false
}

// The address that an entry names.
fn address_in(words: &[u16], log: Log, entry: u16) -> u16
    requires size { log.start + 2 * log.capacity ≤ length words.now }
    requires small { length words.now < 65536 }
    requires entry { entry < log.capacity }
    ensures { result ≡ address_at log words.now entry }
{
    words[usize::from(log.address_word(entry))]
}
