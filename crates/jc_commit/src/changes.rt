//! What one change writes.
ghost use Rattle.std.specs.Prelude.{◌≡◌, ◌<◌, ◌≤◌, ◌+◌, ℕ, List, length, slice_index_or, IfSome};
ghost use Rattle.jc_commit.specs.Runs.{run_words, WritesWords};

use jc_words::{LONGEST_RUN, StoreDown, WordStore};
use std::marker::Model;

/// Words that are to be written as one change, with their values. They may be made up as they are asked
/// for, so that no buffer bounds how many there are.
pub trait WordChanges {
    /// The addresses and the values, in the order in which they are written.
    ghost changes: { Self → List (ℕ × ℕ) };

    /// How many words there are.
    fn count(&self) -> usize
        ensures { result ≡ length (changes self.now) };

    /// The address and the value of one of them.
    fn change(&self, k: usize) -> (u16, u16)
        requires { k < length (changes self.now) }
        ensures { result ≡ slice_index_or (changes self.now) k (0, 0) };

    /// The same as a run, where it is one whose words are there.
    fn as_run(&self) -> Option<WordRun<'_>>
        ensures { IfSome result (λ run. run ≡ changes self.now) }
    {
        None
    }
}

/// How many words a run of changes has at most: an entry has two words, and a store takes the entries of all by one call.
pub const LONGEST_WORD_RUN: usize = LONGEST_RUN / 2;

/// Words that are to be written from an address on, one after the other.
#[derive(Drop)]
pub struct WordRun<'a> {
    first: u16,
    words: &'a [u16],
}

impl<'a> Model for WordRun<'a> {
    ghost use Rattle.std.specs.Prelude.{List, ℕ, length, ◌+◌, ◌<◌, ◌≤◌};
    ghost use Rattle.jc_commit.specs.Runs.{run_words};

    ghost Value = { List (ℕ × ℕ) };

    ghost view = { λ r. run_words r.first r.words.now };

    ghost invariant = { λ r. (0 < length r.words.now) × (r.first + length r.words.now ≤ 65536)
        × (length r.words.now ≤ 256) };
}

impl<'a> WordRun<'a> {
    /// These words from an address on.
    #[inline(always)]
    pub fn new(first: u16, words: &'a [u16]) -> Self
        requires some { 0 < length words.now }
        requires few { length words.now ≤ LONGEST_WORD_RUN }
        requires within { first + length words.now ≤ 65536 }
        ensures { result ≡ run_words first words.now }
    {
        WordRun { first, words }
    }

    /// Writes them.
    #[inline(always)]
    pub(crate) fn write<S: WordStore>(&self, store: &mut S) -> Result<(), StoreDown>
        requires { (k : ℕ) → k < length self.now
            → (slice_index_or self.now k (0, 0)).0 < length (S.words store.old) }
        ensures { WritesWords S.words S.down S.passed S.refusals self.now result store.old
            store.new }
    {
        match store.write_run(self.first, self.words) {
            Ok(()) => Ok(()),
            Err(_) => Err(StoreDown),
        }
    }
}

impl<'a> WordChanges for WordRun<'a> {
    ghost changes = { λ words. words };

    #[inline(always)]
    fn count(&self) -> usize
        ensures all { result ≡ length self.now }
        ensures few { result ≤ LONGEST_WORD_RUN }
    {
        let words = self.words;
        words.len()
    }

    #[inline(always)]
    fn change(&self, k: usize) -> (u16, u16) {
        let words = self.words;
        (self.first + k as u16, words[k])
    }

    #[inline(always)]
    fn as_run(&self) -> Option<WordRun<'_>> {
        Some(WordRun {
            first: self.first,
            words: self.words,
        })
    }
}

impl<const N: usize> WordChanges for [(u16, u16); N] {
    ghost use Rattle.std.specs.Prelude.{List, ℕ};

    ghost changes = { λ pairs. pairs };

    fn count(&self) -> usize {
        self.len()
    }

    fn change(&self, k: usize) -> (u16, u16) {
        self[k]
    }
}
