//! Whether the table of the packages' addresses agrees with the records.
ghost use Rattle.std.specs.Prelude.{ℕ, ◌≡◌, ◌<◌, ◌≤◌, ◌↔◌, IsTrue, true, false, length, slice_index, slice_index_or};
ghost use Rattle.jc_words.specs.Layout.{most_packages};
ghost use Rattle.jc_heap.specs.Image.{IsWellFormed};
ghost use Rattle.jc_heap.specs.Heap.{heap_of, heap_item_at, is_allocated};
ghost use Rattle.jc_heap.specs.Object.{is_object};
ghost use Rattle.jc_heap.specs.WholeHeap.{AreAllocated, AreRecords, AreDistinct};

use jc_commit::Journal;
use jc_words::WordStore;
use jc_words::layout::{ADDRESSES, PACKAGES};

// At each package's address something stands.
fn are_allocated<S: WordStore>(journal: &Journal<S>, marks: &[bool]) -> bool
    requires laid { IsWellFormed journal.now.plain }
    requires small { length journal.now.plain < 65536 }
    requires few { (heap_of journal.now.plain).counts.0 ≤ most_packages }
    requires long { length marks.now ≡ 65536 }
    requires marks { (r : ℕ) → slice_index_or marks.now r false
        ≡ is_allocated (heap_of journal.now.plain) r }
    ensures { IsTrue result ↔ AreAllocated (heap_of journal.now.plain)
        (heap_of journal.now.plain).packages }
{
    let count = journal.read(PACKAGES);
    for k in 0..count {
        if !marks[usize::from(journal.read(ADDRESSES + k))] {
            return false;
        }
    }
    true
}

// At each package's address, where something stands, a record has its two words at least.
fn are_records<S: WordStore>(journal: &Journal<S>) -> bool
    requires laid { IsWellFormed journal.now.plain }
    requires small { length journal.now.plain < 65536 }
    requires few { (heap_of journal.now.plain).counts.0 ≤ most_packages }
    requires met { AreAllocated (heap_of journal.now.plain) (heap_of journal.now.plain).packages }
    ensures { IsTrue result ↔ AreRecords (heap_of journal.now.plain)
        (heap_of journal.now.plain).packages }
{
    let count = journal.read(PACKAGES);
    for k in 0..count {
        let address = journal.read(ADDRESSES + k);
        if journal.read(address) < 2 {
            return false;
        }
    }
    true
}

// The address of a package is none of those before it.
fn is_new<S: WordStore>(journal: &Journal<S>, k: u16) -> bool
    requires laid { IsWellFormed journal.now.plain }
    requires there { k < length (heap_of journal.now.plain).packages }
    ensures { IsTrue result ↔ ((j : ℕ) → j < k → slice_index (heap_of journal.now.plain).packages j
        ≡ slice_index (heap_of journal.now.plain).packages k → ⊥) }
{
    let address = journal.read(ADDRESSES + k);
    for j in 0..k {
        if journal.read(ADDRESSES + j) == address {
            return false;
        }
    }
    true
}

// No package's address is repeated.
fn are_distinct<S: WordStore>(journal: &Journal<S>) -> bool
    requires laid { IsWellFormed journal.now.plain }
    requires few { (heap_of journal.now.plain).counts.0 ≤ most_packages }
    ensures { IsTrue result ↔ AreDistinct (heap_of journal.now.plain).packages }
{
    let count = journal.read(PACKAGES);
    for k in 0..count {
        if !is_new(journal, k) {
            return false;
        }
    }
    true
}

// Each package has a record of its own.
pub(crate) fn table_agrees<S: WordStore>(journal: &Journal<S>, marks: &[bool]) -> bool
    requires laid { IsWellFormed journal.now.plain }
    requires small { length journal.now.plain < 65536 }
    requires few { (heap_of journal.now.plain).counts.0 ≤ most_packages }
    requires long { length marks.now ≡ 65536 }
    requires marks { (r : ℕ) → slice_index_or marks.now r false
        ≡ is_allocated (heap_of journal.now.plain) r }
    ensures { IsTrue result ↔ (AreAllocated (heap_of journal.now.plain)
        (heap_of journal.now.plain).packages × AreRecords (heap_of journal.now.plain)
        (heap_of journal.now.plain).packages × AreDistinct (heap_of journal.now.plain).packages) }
{
    are_allocated(journal, marks) && are_records(journal) && are_distinct(journal)
}

// Takes the marks of the packages away, where something is marked wherever it stands: the objects' marks are left.
pub(crate) fn unmark_packages<S: WordStore>(journal: &Journal<S>, marks: &mut [bool])
    requires laid { IsWellFormed journal.now.plain }
    requires small { length journal.now.plain < 65536 }
    requires few { (heap_of journal.now.plain).counts.0 ≤ most_packages }
    requires long { length marks.old ≡ 65536 }
    requires marks { (r : ℕ) → slice_index_or marks.old r false
        ≡ is_allocated (heap_of journal.now.plain) r }
    ensures long { length marks.new ≡ 65536 }
    ensures objects { (r : ℕ) → slice_index_or marks.new r false
        ≡ is_object (heap_item_at (heap_of journal.now.plain) r) }
{
    let count = journal.read(PACKAGES);
    for k in 0..count {
        marks[usize::from(journal.read(ADDRESSES + k))] = false;
    }
}
