//! Whether the words of a heap agree with one another.
ghost use Rattle.std.specs.Prelude.{ℕ, ◌≡◌, ◌≤◌, ◌<◌, ◌↔◌, IsTrue, false, length, slice_index_or};
ghost use Rattle.jc_words.specs.Layout.{most_packages, most_applets};
ghost use Rattle.jc_heap.specs.Image.{IsWellFormed};
ghost use Rattle.jc_heap.specs.Heap.{heap_of, is_allocated};
ghost use Rattle.jc_heap.specs.WholeHeap.{IsConsistent};
ghost use Rattle.jc_image.specs.Steps.{HasBounds};

use crate::marks::{mark_records, no_marks};
use crate::package_table::table_agrees;
use crate::references::are_references;
use jc_commit::Journal;
use jc_heap::sizes::has_sizes;
use jc_words::WordStore;
use jc_words::layout::{APPLETS, MOST_APPLETS, MOST_PACKAGES, PACKAGES};

// There is a place for each package and each applet.
fn counts_fit<S: WordStore>(journal: &Journal<S>) -> bool
    requires laid { IsWellFormed journal.now.plain }
    ensures { IsTrue result ↔ (((heap_of journal.now.plain).counts.0 ≤ most_packages)
        × ((heap_of journal.now.plain).counts.1 ≤ most_applets)) }
{
    let packages = journal.read(PACKAGES);
    let applets = journal.read(APPLETS);
    packages <= MOST_PACKAGES && applets <= MOST_APPLETS
}

// The words are a heap, and it is whole. Then all addresses at which something stands are marked.
pub(crate) fn is_consistent<S: WordStore>(journal: &Journal<S>, marks: &mut [bool]) -> bool
    requires bounds { HasBounds journal.now.plain }
    requires small { length journal.now.plain < 65536 }
    requires long { length marks.old ≡ 65536 }
    requires none { (r : ℕ) → slice_index_or marks.old r false ≡ false }
    ensures long { length marks.new ≡ 65536 }
    ensures exact { IsTrue result ↔ (IsWellFormed journal.now.plain
        × IsConsistent (heap_of journal.now.plain)) }
    ensures marks { IsTrue result → (r : ℕ) → slice_index_or marks.new r false
        ≡ is_allocated (heap_of journal.now.plain) r }
{
    let mut named = no_marks();
    if !mark_records(journal, marks, &mut named) {
        return false;
    }
    if !counts_fit(journal) {
        return false;
    }
    if !has_sizes(journal) {
        return false;
    }
    table_agrees(journal, marks) && are_references(journal, marks, &named)
}
