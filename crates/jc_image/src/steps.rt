//! Steps over the records of a heap.
ghost use Rattle.std.specs.Prelude.{◌≡◌, ◌<◌, ◌≤◌, ◌+◌, ◌∷◌, IfNone, IfSome, length, slice_index};
ghost use Rattle.jc_words.specs.Layout.{top_address, text_start};
ghost use Rattle.jc_heap.specs.Image.{image, base};
ghost use Rattle.jc_image.specs.Steps.{HasBounds, HasRecord, items_from, item_from, size_from};

use jc_commit::Journal;
use jc_heap::walk::record_size;
use jc_words::WordStore;
use jc_words::layout::{TEXT_LENGTH, TEXT_START};

// Where the first record begins.
pub(crate) fn first_record<S: WordStore>(journal: &Journal<S>) -> u16
    requires bounds { HasBounds journal.now.plain }
    requires small { length journal.now.plain < 65536 }
    ensures { result ≡ base (image journal.now.plain) }
{
    let text = u32::from(journal.read(TEXT_LENGTH));
    (TEXT_START + (text + 1) / 2) as u16
}

// Where the record at an address ends; none, where that is above the top.
pub(crate) fn end_of_record<S: WordStore>(journal: &Journal<S>, at: u16, top: u16) -> Option<u16>
    requires bounds { HasBounds journal.now.plain }
    requires small { length journal.now.plain < 65536 }
    requires low { text_start ≤ at }
    requires inside { at < slice_index journal.now.plain top_address }
    requires is_top { top ≡ slice_index journal.now.plain top_address }
    ensures items { IfSome result (λ end. items_from journal.now.plain at
        ≡ (at, item_from journal.now.plain at) ∷ items_from journal.now.plain end) }
    ensures end { IfSome result (λ end. end ≡ at + size_from journal.now.plain at) }
    ensures here { IfSome result (λ _. HasRecord journal.now.plain at) }
    ensures cut { IfNone result (top < at + size_from journal.now.plain at) }
    ensures on { IfSome result (λ end. at < end) }
{
    let size = record_size(journal, at, top);
    if size > u32::from(top - at) {
        return None;
    }
    Some(at + size as u16)
}
