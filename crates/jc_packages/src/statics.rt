//! Whether each package's record ends with its static image, whose references are null or objects.
ghost use Rattle.std.specs.Prelude.{ℕ, ◌≡◌, ◌<◌, ◌+◌, ◌↔◌, IsTrue, true, false, length, slice_index};
ghost use Rattle.jc_heap.specs.Component.{record_of};
ghost use Rattle.jc_heap.specs.WholeHeap.{IsConsistent};
ghost use Rattle.jc_linker.specs.Lookups.{statics_at};
ghost use Rattle.jc_packages.specs.Objects.{is_reference};
ghost use Rattle.jc_packages.specs.Sound.{HoldsStatics, package_record_at};

use crate::marked_heap::MarkedHeap;
use crate::values::is_reference;
use jc_linker::linked::Linked;
use jc_transient::Ref;
use jc_words::WordStore;

// A word of a record; 0 after the last one.
fn word_of<S: WordStore>(marked: &MarkedHeap<'_, S>, at: Ref, long: u16, j: u32) -> u16
    requires up { marked.now.down ≡ false }
    requires long { length (record_of marked.now.now at) ≡ long }
    ensures { result ≡ slice_index (record_of marked.now.now at) j }
{
    if j < u32::from(long) {
        marked.heap().record_word(at, j as u16)
    } else {
        0
    }
}

// This many words of a record, from one on, are null or objects.
fn are_references<S: WordStore>(marked: &MarkedHeap<'_, S>, at: Ref, begin: u16, count: u16) -> bool
    requires up { marked.now.down ≡ false }
    requires there { 0 < length (record_of marked.now.now at) }
    ensures { IsTrue result ↔ ((i : ℕ) → i < count → is_reference marked.now.now
        (slice_index (record_of marked.now.now at) (begin + i)) ≡ true) }
{
    let long = marked.heap().record_length(at);
    for i in 0..count {
        if !is_reference(
            marked,
            word_of(marked, at, long, u32::from(begin) + u32::from(i)),
        ) {
            return false;
        }
    }
    true
}

// The record ends with a static image of this many bytes that begins with this many references.
fn holds_statics<S: WordStore>(
    marked: &MarkedHeap<'_, S>,
    at: Ref,
    size: u16,
    references: u16,
) -> bool
    requires up { marked.now.down ≡ false }
    requires there { 0 < length (record_of marked.now.now at) }
    ensures { IsTrue result ↔ HoldsStatics marked.now.now (record_of marked.now.now at)
        (size, references) }
{
    let Some(begin) = marked.heap().statics(at) else {
        return false;
    };
    let words = (u32::from(size) + 1) / 2;
    if u32::from(begin) + words != u32::from(marked.heap().record_length(at)) {
        return false;
    }
    are_references(marked, at, begin, references)
}

// The record of the package at a place of the registry holds its static image.
fn holds_statics_at<S: WordStore>(marked: &MarkedHeap<'_, S>, linked: &Linked, k: u8) -> bool
    requires up { marked.now.down ≡ false }
    requires whole { IsConsistent marked.now.now }
    requires below { k < length marked.now.now.packages }
    requires few { k < 32 }
    ensures { IsTrue result ↔ HoldsStatics marked.now.now
        (package_record_at marked.now.now k) (statics_at linked.now (k + 1)) }
{
    let at = marked.heap().package_address(u16::from(k));
    let (size, references) = linked.statics_at(k + 1);
    holds_statics(marked, at, size, references)
}

/// The record of each package holds its static image.
pub(crate) fn hold_statics<S: WordStore>(marked: &MarkedHeap<'_, S>, linked: &Linked) -> bool
    requires up { marked.now.down ≡ false }
    requires whole { IsConsistent marked.now.now }
    requires linked { length linked.now.loaded ≡ length marked.now.now.packages }
    ensures { IsTrue result ↔ ((k : ℕ) → k < length marked.now.now.packages
        → HoldsStatics marked.now.now (package_record_at marked.now.now k)
        (statics_at linked.now (k + 1))) }
{
    for k in 0..linked.last() {
        if !holds_statics_at(marked, linked, k) {
            return false;
        }
    }
    true
}
