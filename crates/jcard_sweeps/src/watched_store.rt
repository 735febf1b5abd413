//! Stores in memory whose word writes may be watched.
ghost use Rattle.std.specs.Prelude.{◌≡◌, ◌<◌, ◌^◌, false, vec_len};
ghost use Rattle.jc_words.specs.Refusals.{no_refusals};

use jc_words::{MemStore, StoreDown, WordStore};
use jcard_script::expectations::Expectations;
use jcard_script::explainer::Explainer;
use jcard_why::covers::Cover;
use jcard_why::explanation::{TracedLines, Wanted};
use jcard_why::watches::Watch;
use std::alloc::{AllocError, Global};

/// A store in memory that notifies a watch, if there is one, of each word that is written.
#[derive(Drop)]
pub(crate) struct WatchedStore {
    store: MemStore,
    watch: Option<Watch>,
}

impl WatchedStore {
    /// A store of these words.
    pub(crate) fn of(words: Vec<u16>, watch: Option<Watch>) -> WatchedStore
        requires { vec_len words < 2 ^ 16 }
        ensures { result.store ≡ record { words = words.items; passed = 0 } }
    {
        WatchedStore {
            store: MemStore::of(words),
            watch,
        }
    }

    /// The words.
    pub(crate) fn into_words(self) -> Vec<u16>
        ensures { result.items ≡ self.store.words }
    {
        self.store.into_words()
    }
}

impl WordStore for WatchedStore {
    ghost words = { λ w. w.store.words };

    ghost down = { λ _. false };

    ghost passed = { λ w. w.store.passed };

    ghost refusals = { λ _. no_refusals };

    fn size(&self) -> u16 {
        self.store.size()
    }

    fn read(&self, i: u16) -> u16 {
        self.store.read(i)
    }

    fn write(&mut self, i: u16, v: u16) -> Result<(), StoreDown> {
        if let Some(watch) = &self.watch {
            watch.write(i);
        }
        self.store.write(i, v)
    }

    fn passed_writes(&self) -> u64 {
        self.store.passed_writes()
    }

    fn is_down(&self) -> bool {
        false
    }

    fn power_on(&mut self) {}
}

/// Somebody who asks which words non-atomic calls write, and perhaps which instruction makes each word write, if there is a watch.
#[derive(Drop)]
pub(crate) struct Watcher<'a> {
    watch: Option<Watch>,
    names: &'a [u8],
}

impl<'a> Watcher<'a> {
    /// Nobody asks.
    pub(crate) fn nobody() -> Watcher<'a> {
        Watcher {
            watch: None,
            names: b"",
        }
    }

    /// Somebody asks. Where there are names, each word write is reported, with what they name.
    pub(crate) fn new(alloc: Global, names: Option<&'a [u8]>) -> Result<Watcher<'a>, AllocError> {
        Ok(Watcher {
            watch: Some(Watch::new(alloc, names.is_some())?),
            names: names.unwrap_or(b""),
        })
    }

    /// The watch that a store reports its writes.
    pub(crate) fn shared(&self) -> Result<Option<Watch>, AllocError> {
        match &self.watch {
            Some(watch) => Ok(Some(watch.share()?)),
            None => Ok(None),
        }
    }

    /// The words that the non-atomic calls of the last command wrote.
    pub(crate) fn words(&self, alloc: Global) -> Result<Vec<u16>, AllocError> {
        match &self.watch {
            Some(watch) => watch.words(alloc),
            None => Ok(Vec::new(alloc)),
        }
    }

    /// What is reported of each word write of the last command.
    pub(crate) fn told(&self) -> Option<Vec<Vec<u8>>> {
        self.watch.as_ref()?.told()
    }
}

impl<'a> Explainer for Watcher<'a> {
    // Each instruction is noted, so that the one is known that writes.
    fn wanted(&self) -> Option<Wanted> {
        match &self.watch {
            Some(_) => Some(Wanted {
                why: false,
                trace: Some(TracedLines::Last(0)),
                cover: false,
                stops: false,
            }),
            None => None,
        }
    }

    fn map(&self) -> &[u8] {
        self.names
    }

    fn tell(&mut self, _text: &[u8]) {}

    fn cover(&mut self) -> Option<&mut Cover> {
        None
    }

    fn watch(&self) -> Option<&Watch> {
        self.watch.as_ref()
    }

    fn expectations(&mut self) -> Option<&mut Expectations> {
        None
    }

    fn remark(&mut self, _text: &[u8]) {}
}
