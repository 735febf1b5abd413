//! The words of an image, its heap, and the platform whose classes its objects have.
ghost use Rattle.std.specs.Prelude.{◌≡◌, ◌/◌, ◌<◌, MatchResult, false, slice_index};
ghost use Rattle.jc_words.specs.Layout.{size_address};
ghost use Rattle.jc_heap.specs.Heap.{heap_of};
ghost use Rattle.jc_objects.specs.ImageObjects.{AreObjectsOf, IsNoImage, IsNotOpened, IsNotWhole, IsOpenedImage, IsWhole};

use jc_heap::Heap;
use jc_image::OpenImage;
use jc_packages::fault::ReadFault;
use jc_packages::tables::table_of;
use jc_platform::platform::Platform;
use jc_words::MemStore;
use jc_words::layout::SIZE_WORD;
use std::alloc::Global;

/// The words of an image as they stand, those that a completed recovery leaves, and its platform.
#[derive(Drop)]
pub struct ImageObjects {
    pub store: MemStore,
    pub recovered: OpenImage<MemStore>,
    pub platform: Platform,
}

/// The objects of an image whose words these are.
pub fn objects_of(alloc: Global, words: &[u16]) -> Result<ImageObjects, ReadFault>
    ensures { MatchResult result (λ objects. AreObjectsOf words.now objects)
        (λ fault. IsNoImage words.now fault) }
{
    let copy = Vec::from_slice(alloc, words)?;
    let recovered = opened(copy)?;
    let table = table_of(alloc, &recovered)?;
    if !recovered.is_whole() {
        return Err(ReadFault::Damaged);
    }
    let store = MemStore::of(Vec::from_slice(alloc, words)?);
    Ok(ImageObjects {
        store,
        recovered,
        platform: table.platform(),
    })
}

/// The recovered image of these words.
pub(crate) fn opened(words: Vec<u16>) -> Result<OpenImage<MemStore>, ReadFault>
    ensures { MatchResult result (λ image. IsOpenedImage words.items image)
        (λ fault. IsNotOpened words.items fault) }
{
    if usize::from(size_told(&words)) != words.len() {
        return Err(ReadFault::Damaged);
    }
    match OpenImage::open(MemStore::of(words)) {
        Ok(image) => Ok(image),
        Err(_) => Err(ReadFault::Damaged),
    }
}

// How many words an image says it has.
fn size_told(words: &[u16]) -> u16
    ensures { result ≡ slice_index words.now size_address }
{
    match words.get(SIZE_WORD as usize) {
        Some(word) => *word,
        None => 0,
    }
}

/// The platform and the heap of a recovered image.
pub(crate) fn whole_of(
    alloc: Global,
    image: OpenImage<MemStore>,
) -> Result<(Platform, Heap<MemStore>), ReadFault>
    requires { image.down ≡ false }
    ensures { MatchResult result (λ found. IsWhole image.plain found.0
        × (found.1.now ≡ heap_of image.plain) × (found.1.down ≡ false))
        (λ fault. IsNotWhole image.plain fault) }
{
    let table = table_of(alloc, &image)?;
    match image.check(&[]) {
        Ok(heap) => Ok((table.platform(), heap)),
        Err(_) => Err(ReadFault::Damaged),
    }
}
