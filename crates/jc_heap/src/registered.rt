//! The packages of a heap by their places in the registry.
ghost use Rattle.std.specs.Prelude.{◌≡◌, ◌<◌, false, true, length, slice_index};
ghost use Rattle.jc_words.specs.Layout.{most_packages};
ghost use Rattle.jc_heap.specs.Heap.{is_allocated};
ghost use Rattle.jc_heap.specs.Component.{record_of};
ghost use Rattle.jc_heap.specs.WholeHeap.{IsConsistent};

use crate::heap::Heap;
use jc_transient::Ref;
use jc_words::WordStore;
use jc_words::layout::{ADDRESSES, MOST_PACKAGES, PACKAGES};

impl<S: WordStore> Heap<S> {
    /// How many packages there are.
    pub fn packages(&self) -> u16
        requires { self.now.down ≡ false }
        ensures exact { result ≡ length self.now.now.packages }
        ensures count { result < most_packages → self.now.now.counts.0 ≡ result }
    {
        self.journal.read(PACKAGES).min(MOST_PACKAGES)
    }

    /// Where the record of the package at a place of the registry begins, the first at 0. Its address alone is read: in a
    /// whole heap a record stands there.
    pub fn package_address(&self, k: u16) -> Ref
        requires up { self.now.down ≡ false }
        requires below { k < length self.now.now.packages }
        requires whole { IsConsistent self.now.now }
        ensures exact { result ≡ slice_index self.now.now.packages k }
        ensures there { is_allocated self.now.now result ≡ true }
        ensures record { 0 < length (record_of self.now.now result) }
    {
        Ref::at(self.journal.read(ADDRESSES + k))
    }
}
