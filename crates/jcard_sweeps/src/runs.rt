//! Running a script on a card in memory, and what a reset finds then.
ghost use Rattle.std.specs.Prelude.{◌≡◌, ◌<◌, length, vec_len, IfOk, IfSome, MatchResult, OnOk};
ghost use Rattle.jc_words.specs.Store.{FuseStoreValue};
ghost use Rattle.jcard_script.specs.Begun.{AnswersLines};
ghost use Rattle.jcard_sweeps.specs.declared.runs.RunFault.TheVariants.{NoMemory};
ghost use Rattle.jcard_sweeps.specs.Faults.{IsLeftFault, IsLogFault};
ghost use Rattle.jcard_sweeps.specs.Runs.{HasRun, IsCarriedThrough, IsLeft, IsRecovered, IsRunFault};
ghost use Rattle.jc_commit.specs.Image.{IsGoodLog, plain_of, recovered_of};
ghost use Rattle.jc_commit.specs.Migration.{migrated};

use crate::kept_text::KeptText;
use crate::watched_store::{WatchedStore, Watcher};
use jc_card::power_up::PowerFault;
use jc_commit::Journal;
use jc_words::{FuseStore, MemStore, WordStore};
use jcard_outcomes::standing::Left;
use jcard_script::begun::BegunScript;
use jcard_script::script::{ScriptFault, run_script_explained};
use jcard_texts::mem_text::MemText;
use std::alloc::{AllocError, Global};

/// The entries of a journal cannot be taken back, or two of them name the same word, as no transaction leaves them.
pub const BAD_LOG: RunFault = RunFault::Script(ScriptFault::PowerFault(PowerFault::BadLog));

/// What a script left: the words, whether the card is down, and what was printed.
#[derive(Drop)]
pub struct Ran {
    pub words: Vec<u16>,
    pub is_down: bool,
    pub text: Vec<u8>,
}

/// Why a script was not carried out to its end.
#[derive(Clone, Copy, Drop)]
pub enum RunFault {
    NoMemory,
    Script(ScriptFault),
}

impl From<AllocError> for RunFault {
    ghost from_gives = { λ _ fault. fault ≡ NoMemory };

    fn from(_: AllocError) -> Self {
        RunFault::NoMemory
    }
}

/// Carries out a script on the card of these words, with at most this many instructions a command. A watcher may ask which words its
/// non-atomic calls write.
pub(crate) fn run(
    alloc: Global,
    words: Vec<u16>,
    script: &[u8],
    budget: u32,
    watcher: &mut Watcher<'_>,
) -> Result<Ran, RunFault>
    requires { vec_len words < 65536 }
    ensures ran { MatchResult result (λ ran. HasRun budget words.items script.now ran)
        (λ fault. IsRunFault budget words.items script.now fault) }
    ensures short { IfOk result (λ ran. vec_len ran.words < 65536) }
{
    let mut reader = MemText::new(alloc, script, 0)?;
    let mut writer = KeptText::new(alloc);
    let watch = watcher.shared()?;
    let store = FuseStore::new(WatchedStore::of(words, watch));
    let (store, ended) = run_script_explained(
        alloc,
        store,
        budget,
        &mut reader,
        &mut writer,
        watcher,
    );
    match ended {
        Ok(()) => Ok(Ran {
            is_down: store.is_down(),
            words: watched_words(store),
            text: writer.into_bytes(),
        }),
        Err(ScriptFault::WriteFailed) => Err(RunFault::NoMemory),
        Err(fault) => Err(RunFault::Script(fault)),
    }
}

/// Carries out a script on the card of a copy of these words.
pub fn run_copy(alloc: Global, words: &[u16], script: &[u8], budget: u32) -> Result<Ran, RunFault>
    requires { length words.now < 65536 }
    ensures ran { MatchResult result (λ ran. HasRun budget words.now script.now ran)
        (λ fault. IsRunFault budget words.now script.now fault) }
    ensures short { IfOk result (λ ran. vec_len ran.words < 65536) }
{
    run_watched(alloc, words, script, budget, &mut Watcher::nobody())
}

/// The same with a watcher.
pub(crate) fn run_watched(
    alloc: Global,
    words: &[u16],
    script: &[u8],
    budget: u32,
    watcher: &mut Watcher<'_>,
) -> Result<Ran, RunFault>
    requires { length words.now < 65536 }
    ensures ran { MatchResult result (λ ran. HasRun budget words.now script.now ran)
        (λ fault. IsRunFault budget words.now script.now fault) }
    ensures short { IfOk result (λ ran. vec_len ran.words < 65536) }
{
    let copy = Vec::from_slice(alloc, words)?;
    run(alloc, copy, script, budget, watcher)
}

/// What a script left whose last command was watched: which words its non-atomic calls wrote, and what is reported of each of its word writes.
#[derive(Drop)]
pub struct WatchedRun {
    pub ran: Ran,
    pub by_calls: Vec<u16>,
    pub told: Vec<Vec<u8>>,
}

/// Carries out a script on the card of a copy of these words, and watches its last command. Where there are names, each of its word
/// writes is reported, with what they name.
pub fn run_told(
    alloc: Global,
    words: &[u16],
    script: &[u8],
    budget: u32,
    names: Option<&[u8]>,
) -> Result<WatchedRun, RunFault>
    requires { length words.now < 65536 }
    ensures ran { MatchResult result (λ watched. HasRun budget words.now script.now watched.ran)
        (λ fault. IsRunFault budget words.now script.now fault) }
    ensures short { IfOk result (λ watched. vec_len watched.ran.words < 65536) }
{
    let Ok(mut watcher) = Watcher::new(alloc, names) else {
        return Err(RunFault::NoMemory);
    };
    let ran = run_watched(alloc, words, script, budget, &mut watcher)?;
    let by_calls = watcher.words(alloc)?;
    let told = watcher.told().unwrap_or(Vec::new(alloc));
    Ok(WatchedRun {
        ran,
        by_calls,
        told,
    })
}

/// Carries out a whole script, to see whether that can be done.
pub fn carried_through(
    alloc: Global,
    words: &[u16],
    script: &[u8],
    budget: u32,
) -> Result<(), RunFault>
    requires { length words.now < 65536 }
    ensures { MatchResult result (λ _. IsCarriedThrough budget words.now script.now)
        (λ fault. IsRunFault budget words.now script.now fault) }
{
    run_copy(alloc, words, script, budget)?;
    Ok(())
}

/// What the lines of a probe are answered by this card. Nothing where memory is refused, or they do not come to their end.
pub fn probed(alloc: Global, card: BegunScript<MemStore>, probe: &[u8]) -> Option<Vec<u8>>
    ensures { IfSome result (λ answers. (last : FuseStoreValue) × AnswersLines card probe.now answers.items last) }
{
    let Ok(mut reader) = MemText::new(alloc, probe, 0) else {
        let _store = card.into_store(); // of which less is let go than of a card
        return None;
    };
    let mut writer = KeptText::new(alloc);
    let _last = card.answers(alloc, &mut reader, &mut writer)?;
    Some(writer.into_bytes())
}

/// What a power up over these words leaves, and what the lines of a probe are answered after it.
pub fn left(alloc: Global, words: Vec<u16>, probe: &[u8], budget: u32) -> Result<Left, RunFault>
    requires { vec_len words < 65536 }
    ensures { MatchResult result (λ left. IsLeft budget words.items probe.now left)
        (λ fault. IsLeftFault budget probe.now fault) }
{
    let copy = Vec::from_slice(alloc, &words)?;
    let found = recovered(copy)?;
    let probed = run(alloc, words, probe, budget, &mut Watcher::nobody())?;
    Ok(Left {
        words: found,
        answers: probed.text,
    })
}

/// The words that a recovery and a migration of these leave.
pub fn recovered(words: Vec<u16>) -> Result<Vec<u16>, RunFault>
    requires { vec_len words < 65536 }
    ensures heap { MatchResult result (λ found. plain_of found.items
        ≡ migrated 3 (recovered_of words.items)) (λ fault. IsLogFault fault) }
    ensures recovered { IfOk result (λ found. IsRecovered found.items) }
    ensures good { OnOk result (IsGoodLog words.items) }
    ensures short { IfOk result (λ found. vec_len found < 65536) }
{
    match Journal::open(MemStore::of(words)) {
        Ok(journal) => {
            let store = journal.into_store();
            let _size = store.size();
            Ok(store.into_words())
        }
        Err(_) => Err(BAD_LOG),
    }
}

/// The words of a store in memory, which itself refuses no write.
pub fn words_of(store: FuseStore<MemStore>) -> Vec<u16>
    ensures words { result.items ≡ store.words }
    ensures short { vec_len result < 65536 }
    ensures refuses_none { store.refusals.faults ≡ 0 }
{
    let _size = store.size();
    let below = store.into_store();
    below.into_words()
}

// The words of a store whose writes may be watched.
fn watched_words(store: FuseStore<WatchedStore>) -> Vec<u16>
    ensures words { result.items ≡ store.words }
    ensures short { vec_len result < 65536 }
{
    let _size = store.size();
    store.into_store().into_words()
}

/// The words of a store.
pub fn copied<S: WordStore>(alloc: Global, store: &S) -> Result<Vec<u16>, AllocError>
    ensures words { IfOk result (λ words. words.items ≡ S.words store.now) }
    ensures short { IfOk result (λ words. length words.items < 65536) }
{
    let size = store.size();
    let mut words = Vec::with_capacity(alloc, usize::from(size))?;
    for address in 0..size {
        words.push(store.read(address))?;
    }
    Ok(words)
}
