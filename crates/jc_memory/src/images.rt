//! Where the static images of packages begin, as far as it is known without a walk over their records.
ghost use Rattle.std.specs.Prelude.{◌≡◌, [], false, IfSome, IfOk};
ghost use Rattle.jc_heap.specs.Heap.{HeapState};
ghost use Rattle.jc_heap.specs.WholeHeap.{IsConsistent};
ghost use Rattle.jc_memory.specs.Images.{AreImages, IsImage};

use crate::copying::copy_of;
use arrayvec::ArrayVec;
use jc_heap::Heap;
use jc_transient::Ref;
use jc_words::WordStore;
use std::alloc::AllocError;
use std::marker::Model;

/// Of how many packages it is kept.
const MOST_IMAGES: usize = 32;

/// Where the static image of a package begins.
#[derive(Clone, Copy, Default)]
pub struct KnownImage {
    /// The package's record.
    pub owner: u16,
    /// The offset of the image's first word in it.
    pub begin: u16,
}

/// The images of the first packages, in their order.
#[derive(Drop)]
pub(crate) struct Images {
    known: ArrayVec<KnownImage, MOST_IMAGES>,
}

impl Model for Images {
    ghost use Rattle.std.specs.Prelude.{List};
    ghost use Rattle.jc_memory.specs.declared.images.KnownImage.{KnownImage};

    ghost Value = { List KnownImage };

    ghost view = { λ i. i.known.items };
}

impl Images {
    /// None is known.
    pub(crate) fn none() -> Images
        ensures { result ≡ [] }
    {
        Images {
            known: ArrayVec::new(),
        }
    }

    /// The same images.
    pub(crate) fn copy(&self) -> Result<Images, AllocError>
        ensures { IfOk result (λ copy. copy ≡ self.now) }
    {
        let known = copy_of(&self.known)?;
        Ok(Images { known })
    }

    /// Those of a whole heap, if no transaction is open.
    #[tactic(auto, using(crate::proofs::KeptImages::image_settled))]
    pub(crate) fn of<S: WordStore>(heap: &Heap<S>) -> Images
        requires up { heap.now.down ≡ false }
        requires whole { IsConsistent heap.now.now }
        ensures { AreImages result heap.now.now heap.now.durable }
    {
        let mut images = Images::none();
        if heap.is_open() {
            return images;
        }
        let _ = heap.top(); // so that the proof knows: nothing stands at or above the heap's end
        for k in 0..heap.packages() {
            let owner = heap.package_address(k);
            let Some(begin) = heap.statics(owner) else {
                return images;
            };
            images.keep(owner, begin);
        }
        images
    }

    // Keeps one more, if there is room for it.
    #[tactic(auto, using(crate::proofs::KeptImages::images_more))]
    fn keep(&mut self, owner: Ref, begin: u16)
        ensures { (h d : HeapState) → AreImages self.old h d → IsImage h d owner begin
            → AreImages self.new h d }
    {
        let _ = self.known.try_push(KnownImage {
            owner: owner.address(),
            begin,
        });
    }

    /// Where the image begins of the package with this number, from 1, and with this record, if it is known.
    #[inline(always)]
    pub(crate) fn begin(&self, number: u8, owner: Ref) -> Option<u16>
        ensures { IfSome result (λ begin. (h d : HeapState) → AreImages self.now h d
            → IsImage h d owner begin) }
    {
        let image = self.known.get(usize::from(number.wrapping_sub(1)))?;
        if image.owner == owner.address() {
            Some(image.begin)
        } else {
            None
        }
    }
}
