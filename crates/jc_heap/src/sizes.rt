//! How many cells the areas of transient objects have.
ghost use Rattle.std.specs.Prelude.{◌≡◌, ◌≤◌, ◌↔◌, IsTrue, false, length, slice_index};
ghost use Rattle.jc_words.specs.Layout.{top_address};
ghost use Rattle.jc_transient.specs.State.{AreSizes};
ghost use Rattle.jc_heap.specs.Image.{IsWellFormed, base, image};
ghost use Rattle.jc_heap.specs.Heap.{heap_of, area_limit, area_sizes, buffer_word, cells_word};

use crate::heap::Heap;
use crate::layout::{BUFFER_WORD, CELLS_WORD};
use jc_commit::Journal;
use jc_transient::{ClearEvent, RamSizes, are_sizes};
use jc_words::WordStore;

/// How many cells the two areas have, as the words say.
pub fn sizes_in<S: WordStore>(journal: &Journal<S>) -> RamSizes
    requires based { base (image journal.now.plain) ≤ slice_index journal.now.plain top_address }
    requires fits { slice_index journal.now.plain top_address ≤ length journal.now.plain }
    ensures { result ≡ area_sizes (heap_of journal.now.plain) }
{
    RamSizes::told(journal.read(CELLS_WORD), journal.read(BUFFER_WORD))
}

/// Whether the words say sizes that the areas may have.
pub fn has_sizes<S: WordStore>(journal: &Journal<S>) -> bool
    requires { IsWellFormed journal.now.plain }
    ensures { IsTrue result ↔ AreSizes (cells_word (heap_of journal.now.plain))
        (buffer_word (heap_of journal.now.plain)) }
{
    are_sizes(journal.read(CELLS_WORD), journal.read(BUFFER_WORD))
}

impl<S: WordStore> Heap<S> {
    /// How many cells the two areas have.
    pub fn area_sizes(&self) -> RamSizes
        requires { self.now.down ≡ false }
        ensures { result ≡ area_sizes self.now.now }
    {
        sizes_in(&self.journal)
    }

    // How many cells an event's area has.
    pub(crate) fn area_limit(&self, event: ClearEvent) -> u16
        requires { self.now.down ≡ false }
        ensures { result ≡ area_limit self.now.now event }
    {
        self.area_sizes().of(event)
    }
}
