//! Reading the components of a package.
ghost use Rattle.std.specs.Prelude.{◌≡◌, ◌<◌, ◌≤◌, ◌+◌, ◌/◌, false, length, slice_index, take, drop, IfSome, Some, None};
ghost use Rattle.jc_words.specs.Layout.{text_start};
ghost use Rattle.jc_heap.specs.Packed.{packed_byte};
ghost use Rattle.jc_heap.specs.Component.{record_of, info_of, span_in, IsWithin, words_for};

use crate::heap::Heap;
use jc_commit::Journal;
use jc_transient::Ref;
use jc_words::WordStore;

/// Where the info of a component stands in its package's record.
#[derive(Clone, Copy)]
pub struct Span {
    /// The first word, counted from the record's first.
    pub at: u16,
    /// How many bytes there are, two in a word.
    pub size: u16,
}

// How many words hold n bytes.
pub(crate) fn words_for(bytes: u16) -> u32
    ensures { result ≡ words_for bytes }
{
    (u32::from(bytes) + 1) / 2
}

// The span of the component at an offset of a record of n words.
fn span_at<S: WordStore>(journal: &Journal<S>, base: u16, long: u16, at: u16) -> Option<Span>
    requires behind { text_start ≤ base }
    requires there { base + long ≤ length journal.now.plain }
    requires small { length journal.now.plain < 65536 }
    requires inside { at < long }
    ensures { let words = drop at (take long (drop base journal.now.plain)) in result
        ≡ span_in (at, take (2 + words_for (slice_index words 1)) words) }
{
    if long - at < 2 {
        return None;
    }
    let size = journal.read(base + at + 1);
    if 2 + words_for(size) > u32::from(long - at) {
        return None;
    }
    Some(Span { at: at + 2, size })
}

// The span of the component with a tag, in a record of n words.
fn find_info<S: WordStore>(journal: &Journal<S>, base: u16, long: u16, tag: u16) -> Option<Span>
    requires behind { text_start ≤ base }
    requires there { base + long ≤ length journal.now.plain }
    requires small { length journal.now.plain < 65536 }
    requires tag { 0 < tag }
    ensures { result ≡ info_of (take long (drop base journal.now.plain)) tag }
{
    let mut at = 1;
    while at < u32::from(long) {
        let word = journal.read(base + at as u16);
        if word == tag {
            return span_at(journal, base, long, at as u16);
        }
        if word == 0 || at + 1 == u32::from(long) {
            return None;
        }
        at += 2 + words_for(journal.read(base + at as u16 + 1));
    }
    None
}

impl<S: WordStore> Heap<S> {
    /// Where the info of a component of the package at an address stands; none, where there is no such component, or where
    /// the record ends before it does.
    pub fn component(&self, at: Ref, tag: u8) -> Option<Span>
        requires up { self.now.down ≡ false }
        requires package { 0 < length (record_of self.now.now at) }
        requires tag { 0 < tag }
        ensures exact { result ≡ info_of (record_of self.now.now at) tag }
        ensures within { IfSome result (λ s. IsWithin s (record_of self.now.now at)) }
    {
        let base = at.address();
        let long = self.journal.read(base).max(1);
        find_info(&self.journal, base, long, u16::from(tag))
    }

    /// A byte of a component's info.
    pub fn info_byte(&self, at: Ref, span: Span, i: u16) -> u8
        requires up { self.now.down ≡ false }
        requires within { IsWithin span (record_of self.now.now at) }
        requires byte { i < span.size }
        ensures { result ≡ packed_byte (drop span.at (record_of self.now.now at)) i }
    {
        let word = self.journal.read(at.address() + (span.at + i / 2));
        if i % 2 == 0 {
            return (word / 256) as u8;
        }
        (word % 256) as u8
    }
}
