//! Packages that were read of one image, for others with the same table text and the same records.
ghost use Rattle.std.specs.Prelude.{ℕ, List, ◌≡◌, ◌<◌, ◌≤◌, IsTrue, IfOk, IfSome, Some, drop, false, length, map, slice_index};
ghost use Rattle.jc_words.specs.Layout.{text_length_address};
ghost use Rattle.jc_heap.specs.Component.{record_of};
ghost use Rattle.jc_heap.specs.Heap.{heap_of};
ghost use Rattle.jc_heap.specs.Image.{text_words};
ghost use Rattle.jc_heap.specs.WholeHeap.{IsConsistent};
ghost use Rattle.jc_packages.specs.Known.{package_records};
ghost use Rattle.jc_packages.specs.Reading.{packages_of};
ghost use Rattle.jc_packages.specs.Tables.{HasTable};

use crate::reading::{read_packages, record_at};
use crate::tables::{are_text_words_of, has_text, table_of, text_words_of};
use jc_heap::Heap;
use jc_image::{ImageWords, OpenImage};
use jc_linker::linked::Linked;
use jc_platform::table::Table;
use jc_transient::Ref;
use jc_words::WordStore;
use jc_words::layout::TEXT_LENGTH;
use std::alloc::{AllocError, Global};
use std::marker::Model;
use std::rc::Rc;

/// The platform table and the linked packages of an image, beside the words that they were read of.
#[derive(Drop)]
pub struct KnownPackages {
    // How many bytes the table text has, and its words.
    size: u16,
    text: Vec<u16>,
    table: Table,
    records: Vec<Vec<u16>>,
    linked: Rc<Linked>,
}

impl Model for KnownPackages {
    ghost use Rattle.std.specs.Prelude.{map};
    ghost use Rattle.jc_packages.specs.Known.{AreKnown, KnownState};

    ghost Value = { KnownState };

    ghost view = { λ k. record {
      size = k.size;
      text = k.text.items;
      tokens = k.table;
      records = map (λ r. r.items) k.records.items;
      packages = k.linked.value;
    } };

    ghost invariant = { λ k. AreKnown (record {
      size = k.size;
      text = k.text.items;
      tokens = k.table;
      records = map (λ r. r.items) k.records.items;
      packages = k.linked.value;
    }) };
}

impl KnownPackages {
    /// Those of a recovered image. Nothing where it has none, or memory for them is refused.
    pub fn read<S: WordStore + Drop>(alloc: Global, image: OpenImage<S>) -> Option<KnownPackages>
        requires { image.down ≡ false }
        ensures size { IfSome result (λ known. known.size ≡ slice_index image.plain text_length_address) }
        ensures text { IfSome result (λ known. known.text ≡ text_words image.plain) }
        ensures records { IfSome result (λ known. known.records ≡ package_records (heap_of image.plain)) }
    {
        if !has_text(&image) {
            return None;
        }
        let size = image.word(TEXT_LENGTH);
        let Ok(text) = text_words_of(alloc, &image) else {
            return None;
        };
        let Ok(table) = table_of(alloc, &image) else {
            return None;
        };
        let Ok(heap) = image.check(&[]) else {
            return None;
        };
        let Ok(linked) = read_packages(alloc, table.platform(), &heap) else {
            return None;
        };
        let Ok(records) = records_of(alloc, &heap) else {
            return None;
        };
        let Ok(linked) = Rc::new(alloc, linked) else {
            return None;
        };
        Some(KnownPackages {
            size,
            text,
            table,
            records,
            linked,
        })
    }

    /// The platform table.
    pub fn table(&self) -> &Table
        ensures { result.now ≡ self.now.tokens }
    {
        &self.table
    }

    /// The linked packages, to be shared. Without memory for that, it answers the error.
    pub fn linked(&self) -> Result<Rc<Linked>, AllocError>
        ensures { IfOk result (λ linked. linked.value ≡ self.now.packages) }
    {
        self.linked.clone()
    }

    /// Whether an image has the table text, so that its table is this one.
    pub fn has_text_of<W: ImageWords>(&self, image: &W) -> bool
        ensures text { IsTrue result → (self.now.size ≡ slice_index (W.words image.now) text_length_address)
            × (self.now.text ≡ text_words (W.words image.now)) }
        ensures table { IsTrue result → HasTable (W.words image.now) self.now.tokens }
    {
        has_text(image)
            && image.word(TEXT_LENGTH) == self.size
            && are_text_words_of(image, self.text.as_slice())
    }

    /// Whether the packages of a heap have the same records, so that they are these.
    pub fn has_records_of<S: WordStore>(&self, heap: &Heap<S>) -> bool
        requires up { heap.now.down ≡ false }
        requires whole { IsConsistent heap.now.now }
        ensures records { IsTrue result → self.now.records ≡ package_records heap.now.now }
        ensures packages { IsTrue result → packages_of self.now.tokens heap.now.now
            ≡ Some self.now.packages }
    {
        are_records_from(heap, 0, self.records.as_slice())
    }
}

// The words of the record of a package.
fn record_words<S: WordStore>(
    alloc: Global,
    heap: &Heap<S>,
    at: Ref,
) -> Result<Vec<u16>, AllocError>
    requires up { heap.now.down ≡ false }
    requires there { 0 < length (record_of heap.now.now at) }
    ensures { IfOk result (λ words. words.items ≡ record_of heap.now.now at) }
{
    let count = heap.record_length(at);
    let mut words = Vec::with_capacity(alloc, usize::from(count))?;
    for j in 0..count {
        words.push(heap.record_word(at, j))?;
    }
    Ok(words)
}

// The words of the records of all packages, in order.
fn records_of<S: WordStore>(alloc: Global, heap: &Heap<S>) -> Result<Vec<Vec<u16>>, AllocError>
    requires up { heap.now.down ≡ false }
    requires whole { IsConsistent heap.now.now }
    ensures { IfOk result (λ records. map (λ r. r.items) records.items
        ≡ package_records heap.now.now) }
{
    let mut records = Vec::new(alloc);
    for k in 0..heap.packages() {
        let words = record_words(alloc, heap, record_at(heap, k))?;
        records.push(words)?;
    }
    Ok(records)
}

// Whether the words of a record are these, of which there are as many.
fn agrees<S: WordStore>(heap: &Heap<S>, at: Ref, words: &[u16], count: u16) -> bool
    requires up { heap.now.down ≡ false }
    requires long { length (record_of heap.now.now at) ≡ count }
    requires many { length words.now ≡ count }
    ensures { IsTrue result → (j : ℕ) → j < count → slice_index words.now j
        ≡ slice_index (record_of heap.now.now at) j }
{
    for j in 0..count {
        if heap.record_word(at, j) != words[usize::from(j)] {
            return false;
        }
    }
    true
}

// Whether the record of a package has these words.
fn is_record<S: WordStore>(heap: &Heap<S>, at: Ref, words: &[u16]) -> bool
    requires up { heap.now.down ≡ false }
    requires there { 0 < length (record_of heap.now.now at) }
    ensures { IsTrue result → words.now ≡ record_of heap.now.now at }
{
    let count = heap.record_length(at);
    if usize::from(count) != words.len() {
        return false;
    }
    agrees(heap, at, words, count)
}

// Whether the records of the packages from a place of the registry on have these words, in order, and there are no more.
fn are_records_from<S: WordStore>(heap: &Heap<S>, k: u16, records: &[Vec<u16>]) -> bool
    requires up { heap.now.down ≡ false }
    requires whole { IsConsistent heap.now.now }
    requires within { k ≤ length heap.now.now.packages }
    ensures { IsTrue result → map (λ r. r.items) records.now
        ≡ map (record_of heap.now.now) (drop k heap.now.now.packages) }
{
    let Some((first, more)) = records.split_first() else {
        return k == heap.packages();
    };
    if k >= heap.packages() {
        return false;
    }
    if !is_record(heap, record_at(heap, k), first) {
        return false;
    }
    are_records_from(heap, k + 1, more)
}
