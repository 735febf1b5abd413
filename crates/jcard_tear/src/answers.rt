//! What stands in the words of a card in memory, and what the card answers when it is powered up over them.
ghost use Rattle.std.specs.Prelude.{◌≡◌, ◌<◌, length, IfSome};
ghost use Rattle.jc_commit.specs.Image.{recovered_of};
ghost use Rattle.jc_commit.specs.Migration.{migrated};
ghost use Rattle.jc_heap.specs.Heap.{heap_of};
ghost use Rattle.jc_heap.specs.Image.{text_words};
ghost use Rattle.jc_packages.specs.Known.{package_records};
ghost use Rattle.jcard_tear.specs.KeptCard.{GivesAnswers};

use jc_card::powered_image::PoweredImage;
use jc_image::OpenImage;
use jc_packages::known::KnownPackages;
use jc_words::{FuseStore, MemStore};
use jcard_script::begun::{begin_over, begin_script};
use jcard_sweeps::runs::probed;
use std::alloc::Global;

/// What the lines of a probe are answered by a card that is powered up over a copy of these words. Nothing where there is none.
pub(crate) fn answers_over(
    alloc: Global,
    words: &[u16],
    probe: &[u8],
    budget: u32,
) -> Option<Vec<u8>>
    requires { length words.now < 65536 }
    ensures { IfSome result (λ answers. GivesAnswers budget words.now probe.now answers.items) }
{
    let Ok(copy) = Vec::from_slice(alloc, words) else {
        return None;
    };
    let store = FuseStore::new(MemStore::of(copy));
    let card = begin_script(alloc, store, budget, b"")?;
    probed(alloc, card, probe)
}

/// What the lines of a probe are answered by a card that has just powered up over an image. Nothing where there is none.
pub(crate) fn image_answers(
    alloc: Global,
    image: &PoweredImage,
    probe: &[u8],
    budget: u32,
) -> Option<Vec<u8>>
    ensures { IfSome result (λ answers. GivesAnswers budget image.now probe.now answers.items) }
{
    let card = begin_over(alloc, image, budget)?;
    probed(alloc, card, probe)
}

/// The table and the packages of these words, which a recovery leaves as they are. Nothing where they have none, or memory is refused.
pub(crate) fn known_of(alloc: Global, words: &[u16]) -> Option<KnownPackages>
    requires { length words.now < 65536 }
    ensures text { IfSome result (λ known. known.text ≡ text_words (migrated 3 (recovered_of words.now))) }
    ensures records { IfSome result (λ known. known.records
        ≡ package_records (heap_of (migrated 3 (recovered_of words.now)))) }
{
    let Ok(copy) = Vec::from_slice(alloc, words) else {
        return None;
    };
    match OpenImage::open(MemStore::of(copy)) {
        Ok(image) => KnownPackages::read(alloc, image),
        Err(_) => None,
    }
}
