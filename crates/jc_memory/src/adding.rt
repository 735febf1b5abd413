//! Packages and applets: where they stand, and new ones.
ghost use Rattle.std.specs.Prelude.{ℕ, ◌≡◌, ◌<◌, ◌≤◌, false, true, length, slice_index, IfSome};
ghost use Rattle.jc_words.specs.Layout.{most_packages, most_applets};
ghost use Rattle.jc_heap.specs.Heap.{is_allocated};
ghost use Rattle.jc_heap.specs.Component.{record_of};
ghost use Rattle.jc_heap.specs.Statics.{IsStatic, statics_of};
ghost use Rattle.jc_heap.specs.Package.{AreArrays, AreComponents, image_size, array_inits, parts};
ghost use Rattle.jc_memory.specs.Programs.{Executes};
ghost use Rattle.jc_heap.specs.Completions.{after_change, after_making};
ghost use Rattle.jc_memory.specs.Changes.{package_addition, applet_addition};

use crate::images::Images;
use crate::memory::Memory;
use jc_heap::{AppletEntry, ChangeRefusal, HeapRefusal, RecordComponent, StaticArray};
use jc_transient::Ref;
use jc_words::WordStore;

impl<S: WordStore> Memory<S> {
    /// Where the record of the package at a place of the registry begins, the first at 0. Its address alone is read.
    pub fn package_address(&self, k: u16) -> Ref
        requires up { self.now.heap.down ≡ false }
        requires below { k < length self.now.heap.now.packages }
        ensures exact { result ≡ slice_index self.now.heap.now.packages k }
        ensures there { is_allocated self.now.heap.now result ≡ true }
        ensures record { 0 < length (record_of self.now.heap.now result) }
    {
        self.heap.package_address(k)
    }

    /// Where the static image begins in the record of the package with this number, from 1: the offset of its first word; none, where
    /// the record has no component or ends before. Of most packages it is known without a walk over the record.
    #[inline(always)]
    pub fn statics(&self, number: u8, owner: Ref) -> Option<u16>
        requires up { self.now.heap.down ≡ false }
        requires there { 0 < length (record_of self.now.heap.now owner) }
        ensures exact { result ≡ statics_of (record_of self.now.heap.now owner) }
        ensures within { IfSome result (λ o. o ≤ length (record_of self.now.heap.now owner)) }
        ensures image { IfSome result (λ o. (j : ℕ) → o ≤ j
            → j < length (record_of self.now.heap.now owner)
            → IsStatic (record_of self.now.heap.now owner) j) }
    {
        match self.images.begin(number, owner) {
            Some(begin) => Some(begin),
            None => self.walk_to_statics(owner),
        }
    }

    // The same by a walk, out of line.
    #[inline(never)]
    fn walk_to_statics(&self, owner: Ref) -> Option<u16>
        requires up { self.now.heap.down ≡ false }
        requires there { 0 < length (record_of self.now.heap.now owner) }
        ensures { result ≡ statics_of (record_of self.now.heap.now owner) }
    {
        self.heap.statics(owner)
    }

    /// Adds a package: its record, its static image and its initialised arrays. The answer is where its
    /// record stands.
    pub fn add_package(
        &mut self,
        components: &[RecordComponent],
        arrays: &[StaticArray],
        image: &[u8],
    ) -> Result<Ref, HeapRefusal>
        requires up { self.old.heap.down ≡ false }
        requires few { self.old.heap.now.counts.0 < most_packages }
        requires components { AreComponents (parts components.now) }
        requires arrays { AreArrays (array_inits arrays.now) }
        requires image { image_size (array_inits arrays.now) image.now < 65536 }
        ensures { Executes (package_addition self.old (parts components.now)
            (array_inits arrays.now) image.now) self.old (after_making result self.new) }
    {
        self.images = Images::none();
        let package = self.heap.add_package(components, arrays, image)?;
        self.marks.clear();
        self.marks.scan(&self.heap);
        self.images = Images::of(&self.heap);
        Ok(package)
    }

    /// Registers an applet. The answer is how many there were before it.
    pub fn add_applet(&mut self, entry: AppletEntry) -> Result<u16, ChangeRefusal>
        requires up { self.old.heap.down ≡ false }
        requires few { self.old.heap.now.counts.1 < most_applets }
        ensures { Executes (applet_addition self.old entry) self.old
            (after_change result self.new) }
    {
        self.heap.add_applet(entry)
    }
}
