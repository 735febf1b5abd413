//! Whether the references in the arrays of references are those of objects.
ghost use Rattle.std.specs.Prelude.{ℕ, ◌≡◌, ◌<◌, ◌≤◌, ◌↔◌, IsTrue, IsFalse, false, length, slice_index, slice_index_or, true};
ghost use Rattle.jc_words.specs.Layout.{top_address, most_packages};
ghost use Rattle.jc_heap.specs.Image.{IsWellFormed, image, package_addresses, is_package};
ghost use Rattle.jc_heap.specs.Heap.{heap_of, is_allocated};
ghost use Rattle.jc_image.specs.Steps.{HasBounds, HasRecord, item_from, AreReferences};
ghost use Rattle.jc_heap.specs.Object.{kind_number};
ghost use Rattle.jc_heap.specs.declared.object.Kind.TheVariants.{ReferenceArray};
ghost use Rattle.jc_heap.specs.WholeHeap.{AreAllocated, HoldsReferences};

use crate::marks::ALL;
use jc_commit::Journal;
use jc_heap::layout::{HEADER, LENGTH, REFERENCES};
use jc_words::WordStore;
use jc_words::layout::{ADDRESSES, PACKAGES, TOP};

// The object at an address is a persistent array of references.
fn has_references<S: WordStore>(journal: &Journal<S>, at: u16) -> bool
    requires bounds { HasBounds journal.now.plain }
    requires small { length journal.now.plain < 65536 }
    requires here { HasRecord journal.now.plain at }
    ensures { IsTrue result ↔ (slice_index journal.now.plain at ≡ kind_number ReferenceArray) }
{
    journal.read(at) == REFERENCES
}

/// Marks the words in the cells of the object at an address, where it is a persistent array of references, up to the first
/// that is no address below the top. Whether there is none.
pub(crate) fn mark_named<S: WordStore>(
    journal: &Journal<S>,
    named: &mut [bool; ALL],
    at: u16,
    top: u16,
) -> bool
    requires bounds { HasBounds journal.now.plain }
    requires small { length journal.now.plain < 65536 }
    requires here { HasRecord journal.now.plain at }
    requires object { is_package (package_addresses (image journal.now.plain)) at ≡ false }
    requires is_top { top ≡ slice_index journal.now.plain top_address }
    ensures long { length named.new ≡ 65536 }
    ensures below { ((r : ℕ) → top ≤ r → slice_index_or named.old r false ≡ false)
        → (r : ℕ) → top ≤ r → slice_index_or named.new r false ≡ false }
    ensures held { IsTrue result → (AreReferences (heap_of journal.now.plain) named.new
        ↔ (AreReferences (heap_of journal.now.plain) named.old
        × HoldsReferences (heap_of journal.now.plain) (item_from journal.now.plain at))) }
    ensures outside { IsFalse result → HoldsReferences (heap_of journal.now.plain)
        (item_from journal.now.plain at) → ⊥ }
{
    if !has_references(journal, at) {
        return true;
    }
    let count = journal.read(at + LENGTH);
    for i in 0..count {
        let word = journal.read(at + HEADER + i);
        if word >= top {
            return false;
        }
        named[usize::from(word)] = true;
    }
    true
}

// No package's address is marked.
fn names_no_package<S: WordStore>(journal: &Journal<S>, named: &[bool; ALL]) -> bool
    requires laid { IsWellFormed journal.now.plain }
    requires small { length journal.now.plain < 65536 }
    requires few { (heap_of journal.now.plain).counts.0 ≤ most_packages }
    requires met { AreAllocated (heap_of journal.now.plain) (heap_of journal.now.plain).packages }
    ensures none { IsTrue result → (r : ℕ) → slice_index_or named.now r false ≡ true
        → is_package (package_addresses (image journal.now.plain)) r ≡ false }
    ensures some { IsFalse result → AreReferences (heap_of journal.now.plain) named.now → ⊥ }
{
    let count = journal.read(PACKAGES);
    for k in 0..count {
        if named[usize::from(journal.read(ADDRESSES + k))] {
            return false;
        }
    }
    true
}

// Below the top, each address that is marked among those that are named, but null, is marked among those where something
// stands.
fn all_met(marks: &[bool], named: &[bool; ALL], top: u16) -> bool
    requires { length marks.now ≡ 65536 }
    ensures { IsTrue result ↔ ((r : ℕ) → 0 < r → r < top → slice_index_or named.now r false ≡ true
        → slice_index_or marks.now r false ≡ true) }
{
    for r in 1..usize::from(top) {
        if named[r] && !marks[r] {
            return false;
        }
    }
    true
}

/// The words that are marked as named are references.
pub(crate) fn are_references<S: WordStore>(
    journal: &Journal<S>,
    marks: &[bool],
    named: &[bool; ALL],
) -> bool
    requires laid { IsWellFormed journal.now.plain }
    requires small { length journal.now.plain < 65536 }
    requires few { (heap_of journal.now.plain).counts.0 ≤ most_packages }
    requires met { AreAllocated (heap_of journal.now.plain) (heap_of journal.now.plain).packages }
    requires long { length marks.now ≡ 65536 }
    requires marks { (r : ℕ) → slice_index_or marks.now r false
        ≡ is_allocated (heap_of journal.now.plain) r }
    requires below { (r : ℕ) → slice_index journal.now.plain top_address ≤ r
        → slice_index_or named.now r false ≡ false }
    ensures { IsTrue result ↔ AreReferences (heap_of journal.now.plain) named.now }
{
    let top = journal.read(TOP);
    names_no_package(journal, named) && all_met(marks, named, top)
}
