//! The words of a package's record, whose last ones are its static image.
ghost use Rattle.std.specs.Prelude.{ℕ, ◌≡◌, ◌<◌, ◌≤◌, ◌+◌, false, length, slice_index, take, drop, IfSome};
ghost use Rattle.jc_words.specs.Layout.{text_start};
ghost use Rattle.jc_heap.specs.Component.{record_of, record_parts};
ghost use Rattle.jc_heap.specs.Statics.{image_from, statics_of, IsStatic};

use crate::heap::Heap;
use jc_commit::Journal;
use jc_transient::Ref;
use jc_words::WordStore;

// Where the static image begins, in a record of n words.
fn find_image<S: WordStore>(journal: &Journal<S>, base: u16, long: u16) -> Option<u16>
    requires behind { text_start ≤ base }
    requires there { base + long ≤ length journal.now.plain }
    requires small { length journal.now.plain < 65536 }
    ensures { result ≡ image_from (record_parts (take long (drop base journal.now.plain))) }
{
    let end = u32::from(base + long);
    let mut second = u32::from(base) + 2;
    while second < end {
        if journal.read(second as u16 - 1) == 0 {
            return Some(second as u16 - base);
        }
        second += (u32::from(journal.read(second as u16)) + 5) / 2;
    }
    if second == end && journal.read(second as u16 - 1) == 0 {
        return Some(second as u16 - base);
    }
    None
}

impl<S: WordStore> Heap<S> {
    /// Where the static image begins in the record of the package at an address: the offset of its first
    /// word; none, where the record has no component or ends before.
    pub fn statics(&self, at: Ref) -> Option<u16>
        requires up { self.now.down ≡ false }
        requires there { 0 < length (record_of self.now.now at) }
        ensures exact { result ≡ statics_of (record_of self.now.now at) }
        ensures within { IfSome result (λ o. o ≤ length (record_of self.now.now at)) }
        ensures image { IfSome result (λ o. (j : ℕ) → o ≤ j → j < length (record_of self.now.now at)
            → IsStatic (record_of self.now.now at) j) }
    {
        let base = at.address();
        let long = self.journal.read(base).max(1);
        if long == 1 {
            return None;
        }
        let first = self.journal.read(base + 1);
        if first == 0 {
            return None;
        }
        find_image(&self.journal, base, long)
    }

    /// How many words the record of the package at an address has. The static image is the last of them.
    pub fn record_length(&self, at: Ref) -> u16
        requires up { self.now.down ≡ false }
        requires there { 0 < length (record_of self.now.now at) }
        ensures { result ≡ length (record_of self.now.now at) }
    {
        self.journal.read(at.address()).max(1)
    }

    /// A word of a package's record.
    pub fn record_word(&self, at: Ref, j: u16) -> u16
        requires up { self.now.down ≡ false }
        requires word { j < length (record_of self.now.now at) }
        ensures { result ≡ slice_index (record_of self.now.now at) j }
    {
        self.journal.read(at.address() + j)
    }

    // The word of a static image's word.
    pub(crate) fn static_word(&self, at: Ref, j: u16) -> u16
        requires up { self.now.down ≡ false }
        requires word { IsStatic (record_of self.now.now at) j }
        ensures { result ≡ at + j }
    {
        let _ = &self.journal; // so that the proof knows what holds of every heap: records lie below its end
        at.address() + j
    }
}
