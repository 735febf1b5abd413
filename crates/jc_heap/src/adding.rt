//! New packages.
ghost use Rattle.std.specs.Prelude.{[], ◌∷◌, ◌≡◌, ◌<◌, ◌+◌, false, Err, OnOk, OnErr, IfOk};
ghost use Rattle.jc_words.specs.Layout.{most_packages};
ghost use Rattle.jc_heap.specs.Fresh.{IsFree, KeepsBelow, Fills, IsTornFresh};
ghost use Rattle.jc_heap.specs.Object.{APackage};
ghost use Rattle.jc_heap.specs.Moves.{AddPackage, PerformsMovesUnless, refusal_of_package};
ghost use Rattle.jc_heap.specs.Completions.{after_making};
ghost use Rattle.jc_heap.specs.Heap.{is_allocated, heap_item_at};
ghost use Rattle.jc_heap.specs.Package.{parts, array_inits, AreComponents, AreArrays, ArePackageParts, image_size, record_size, package_record, package_size, package_words};
ghost use Rattle.jc_heap.specs.Package.{add_package, AreArraysOfBytes};

use crate::heap::Heap;
use crate::package::{RecordComponent, StaticArray, size_of_arrays, size_of_record};
use crate::record::{write_arrays, write_package_record};
use crate::refusal::HeapRefusal;
use jc_commit::Journal;
use jc_transient::{OwnerWord, Ref};
use jc_words::layout::{ADDRESSES, PACKAGES, TOP};
use jc_words::{StoreDown, WordStore};

// The owner of the objects of package 0; there is none, since packages count from 1.
const FIRST_OWNER: u16 = 256;

// Writes a package with a number: its record, of n words, and its arrays.
fn write_package<S: WordStore>(
    journal: &mut Journal<S>,
    at: u16,
    size: u16,
    number: u16,
    components: &[RecordComponent],
    arrays: &[StaticArray],
    image: &[u8],
) -> Result<(), StoreDown>
    requires free { IsFree at (package_size (parts components.now)
        (array_inits arrays.now) image.now) journal.old }
    requires size { size ≡ record_size (parts components.now) (array_inits arrays.now) image.now }
    requires parts { ArePackageParts (parts components.now) (array_inits arrays.now) }
    requires number { number < 256 }
    ensures below { KeepsBelow at journal.old journal.new }
    ensures done { OnOk result (Fills at (package_words at number (parts components.now)
        (array_inits arrays.now) image.now) journal.old journal.new) }
    ensures bytes { OnOk result (AreArraysOfBytes (array_inits arrays.now)) }
    ensures stopped { OnErr result (IsTornFresh (package_size (parts components.now) (array_inits arrays.now) image.now) journal.old journal.new) }
{
    write_package_record(journal, at, size, components, arrays, image)?;
    write_arrays(journal, at + size, arrays, OwnerWord(FIRST_OWNER + number))?;
    Ok(())
}

impl<S: WordStore> Heap<S> {
    /// Adds a package: a record with its components and its static image, and its initialised arrays.
    /// The image's first words become the references to the arrays; `image` is what stands after them.
    pub fn add_package(
        &mut self,
        components: &[RecordComponent],
        arrays: &[StaticArray],
        image: &[u8],
    ) -> Result<Ref, HeapRefusal>
        requires up { self.old.down ≡ false }
        requires few { self.old.now.counts.0 < most_packages }
        requires components { AreComponents (parts components.now) }
        requires arrays { AreArrays (array_inits arrays.now) }
        requires image { image_size (array_inits arrays.now) image.now < 65536 }
        ensures moves { PerformsMovesUnless (refusal_of_package self.old (parts components.now)
            (array_inits arrays.now) image.now) self.old (after_making result self.new)
            (AddPackage (parts components.now) (array_inits arrays.now) image.now ∷ [])
            self.old.now.top }
        ensures record { IfOk result (λ r. heap_item_at self.new.now r ≡ APackage
            (package_record r (parts components.now) (array_inits arrays.now) image.now)) }
        ensures free { is_allocated self.old.now self.old.now.top ≡ false }
    {
        let top = self.journal.read(TOP);
        let size = size_of_record(components, arrays, image);
        let end = u32::from(top) + size + size_of_arrays(arrays);
        if end > u32::from(self.size) {
            return Err(HeapRefusal::HeapFull);
        }
        let count = self.journal.read(PACKAGES);
        let place = ADDRESSES + count;
        if !self.journal.fits(&[place, PACKAGES, TOP]) {
            return Err(HeapRefusal::CommitFull);
        }
        let number = count + 1;
        let written = write_package(
            &mut self.journal,
            top,
            size as u16,
            number,
            components,
            arrays,
            image,
        );
        let Ok(()) = written else {
            return Err(HeapRefusal::StoreDown);
        };
        // There is room for the three old values, so the store alone can refuse.
        let changes = [(place, top), (PACKAGES, number), (TOP, end as u16)];
        let Ok(()) = self.journal.write_all(&changes) else {
            return Err(HeapRefusal::StoreDown);
        };
        Ok(Ref::at(top))
    }
}
