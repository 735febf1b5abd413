//! Opening an image, and whether its heap is whole.
ghost use Rattle.std.specs.Prelude.{ℕ, ◌≡◌, ◌<◌, ◌≤◌, ◌↔◌, IsTrue, IsOk, IfOk, IfErr, true, false, length, slice_index, slice_index_or};
ghost use Rattle.jc_words.specs.Layout.{top_address, text_start, version, version_address};
ghost use Rattle.jc_commit.specs.Image.{IsGoodLog, count_of};
ghost use Rattle.jc_commit.specs.Journal.{Opens};
ghost use Rattle.jc_commit.specs.State.{resumed_journal};
ghost use Rattle.jc_heap.specs.Object.{is_object};
ghost use Rattle.jc_heap.specs.Image.{buffer_address, IsWellFormed, image, package_addresses, is_package};
ghost use Rattle.jc_heap.specs.Heap.{heap_view, heap_of, heap_item_at, is_allocated};
ghost use Rattle.jc_heap.specs.WholeHeap.{IsConsistent};
ghost use Rattle.jc_image.specs.Beginning.{HeapBeginsWith};
ghost use Rattle.jc_image.specs.Opening.{HoldsImage};
ghost use Rattle.jc_image.specs.Steps.{HasBounds};

use crate::beginning::begins_with;
use crate::consistency::is_consistent;
use crate::marks::no_marks;
use crate::package_table::unmark_packages;
use crate::words::ImageWords;
use jc_commit::{Journal, OpenRefusal};
use jc_heap::layout::BUFFER_WORD;
use jc_heap::{Facts, Heap};
use jc_words::WordStore;
use jc_words::layout::{ADDRESSES, MOST_PACKAGES, PACKAGES, TEXT_LENGTH, TEXT_START, TOP};
use std::marker::Model;

/// A recovered image whose heap is not checked yet.
#[derive(Drop)]
pub struct OpenImage<S: WordStore> {
    journal: Journal<S>,
    size: u16,
}

impl<S: WordStore> Model for OpenImage<S> {
    ghost use Rattle.jc_commit.specs.State.{State};
    ghost use Rattle.jc_image.specs.Opening.{IsOpen};

    ghost Value = { State };

    ghost view = { λ o. o.journal };

    ghost invariant = { λ o. IsOpen o.journal o.size };
}

// No package begins at or above the top.
fn packages_below<S: WordStore>(journal: &Journal<S>, top: u16) -> bool
    requires wide { text_start ≤ slice_index journal.now.plain top_address }
    requires fits { slice_index journal.now.plain top_address ≤ length journal.now.plain }
    requires small { length journal.now.plain < 65536 }
    ensures { IsTrue result ↔ ((a : ℕ) → top ≤ a → is_package
        (package_addresses (image journal.now.plain)) a ≡ false) }
{
    let count = journal.read(PACKAGES).min(MOST_PACKAGES);
    for k in 0..count {
        if journal.read(ADDRESSES + k) >= top {
            return false;
        }
    }
    true
}

// The top lies where a heap's may.
fn has_bounds<S: WordStore>(journal: &Journal<S>, size: u16) -> bool
    requires size { size ≡ length journal.now.plain }
    requires wide { text_start ≤ size }
    ensures { IsTrue result ↔ HasBounds journal.now.plain }
{
    let top = journal.read(TOP);
    let text = u32::from(journal.read(TEXT_LENGTH));
    if u32::from(top) < TEXT_START + (text + 1) / 2 || top > size {
        return false;
    }
    packages_below(journal, top)
}

// The words are a heap, and it is whole. Then all addresses at which something stands are marked.
fn is_heap<S: WordStore>(journal: &Journal<S>, size: u16, marks: &mut [bool]) -> bool
    requires size { size ≡ length journal.now.plain }
    requires wide { text_start ≤ size }
    requires long { length marks.old ≡ 65536 }
    requires none { (r : ℕ) → slice_index_or marks.old r false ≡ false }
    ensures long { length marks.new ≡ 65536 }
    ensures exact { IsTrue result ↔ (IsWellFormed journal.now.plain
        × IsConsistent (heap_of journal.now.plain)) }
    ensures marks { IsTrue result → (r : ℕ) → slice_index_or marks.new r false
        ≡ is_allocated (heap_of journal.now.plain) r }
{
    has_bounds(journal, size) && is_consistent(journal, marks)
}

impl<S: WordStore> OpenImage<S> {
    /// Opens a store, and first takes back what a loss of power left open. An image of the first
    /// version then becomes one of the version that is written.
    #[tactic(auto, using(crate::proofs::OpenImages::long_recovered))]
    pub fn open(store: S) -> Result<OpenImage<S>, (OpenRefusal, S)>
        ensures { Opens S.words S.down S.passed S.refusals store result }
    {
        let journal = Journal::open(store)?;
        let size = journal.limit();
        Ok(OpenImage { journal, size })
    }

    /// A recovered image, over a store as `into_store` gives it. Nothing is read or written.
    pub fn resume(store: S) -> OpenImage<S>
        requires up { S.down store ≡ false }
        requires good { IsGoodLog (S.words store) }
        requires current { slice_index (S.words store) version_address ≡ version }
        requires closed { count_of (S.words store) ≡ 0 }
        ensures { result ≡ resumed_journal (S.words store) (S.passed store) (S.refusals store) }
    {
        let journal = Journal::resume(store);
        let size = journal.limit();
        OpenImage { journal, size }
    }

    /// The word that says how many cells the APDU buffer has; 0 says as many as are usual.
    pub fn buffer_word(&self) -> u16
        ensures { result ≡ slice_index self.now.plain buffer_address }
    {
        self.journal.read(BUFFER_WORD)
    }

    /// Whether the heap is whole.
    pub fn is_whole(&self) -> bool
        ensures { IsTrue result ↔ (IsWellFormed self.now.plain × IsConsistent (heap_of self.now.plain)) }
    {
        let mut marks = no_marks();
        is_heap(&self.journal, self.size, &mut marks)
    }

    /// The store, with its recovered words.
    pub fn into_store(self) -> S
        ensures { HoldsImage (S.words result) (S.down result) (S.passed result)
            (S.refusals result) self }
    {
        let OpenImage { journal, size: _ } = self;
        journal.into_store()
    }

    /// The heap, where it is whole and its first objects have these headers; else the store, with its
    /// recovered words.
    pub fn check(self, first: &[Facts]) -> Result<Heap<S>, S>
        requires { self.down ≡ false }
        ensures exact { IsOk result ↔ (IsWellFormed self.plain × IsConsistent (heap_of self.plain)
            × HeapBeginsWith (heap_of self.plain) first.now) }
        ensures whole { IfOk result (λ h. IsConsistent h.now) }
        ensures heap { IfOk result (λ h. h ≡ heap_view self (length self.plain)) }
        ensures store { IfErr result (λ s. HoldsImage (S.words s) (S.down s) (S.passed s)
            (S.refusals s) self) }
    {
        let mut marks = no_marks();
        self.check_and_mark(first, &mut marks)
    }

    /// The same, and where it gives the heap it has marked the addresses at which objects stand, among marks of which
    /// none was set. The records are walked over once.
    pub fn check_and_mark(self, first: &[Facts], marks: &mut [bool]) -> Result<Heap<S>, S>
        requires up { self.down ≡ false }
        requires long { length marks.old ≡ 65536 }
        requires none { (r : ℕ) → slice_index_or marks.old r false ≡ false }
        ensures long { length marks.new ≡ 65536 }
        ensures exact { IsOk result ↔ (IsWellFormed self.plain × IsConsistent (heap_of self.plain)
            × HeapBeginsWith (heap_of self.plain) first.now) }
        ensures whole { IfOk result (λ h. IsConsistent h.now) }
        ensures heap { IfOk result (λ h. h ≡ heap_view self (length self.plain)) }
        ensures marks { IfOk result (λ h. (r : ℕ) → slice_index_or marks.new r false
            ≡ is_object (heap_item_at h.now r)) }
        ensures store { IfErr result (λ s. HoldsImage (S.words s) (S.down s) (S.passed s)
            (S.refusals s) self) }
    {
        let OpenImage { journal, size } = self;
        if !is_heap(&journal, size, marks) {
            return Err(journal.into_store());
        }
        if !begins_with(&journal, first) {
            return Err(journal.into_store());
        }
        unmark_packages(&journal, marks);
        Ok(Heap::of_journal(journal, size))
    }
}

// The words that a completed recovery leaves.
impl<S: WordStore> ImageWords for OpenImage<S> {
    ghost words = { λ o. o.plain };

    fn word_count(&self) -> u16 {
        self.size
    }

    fn word(&self, address: u16) -> u16 {
        self.journal.read(address)
    }
}
