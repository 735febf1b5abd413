//! Whether the objects' transient cells fill their areas.
ghost use Rattle.std.specs.Prelude.{◌≡◌, ◌<◌, ◌≤◌, ◌+◌, ◌↔◌, IsTrue, IfSome, IfNone, Some, false, length};
ghost use Rattle.jc_transient.specs.declared.cell.ClearEvent.TheVariants.{Reset, Deselect};
ghost use Rattle.jc_heap.specs.Object.{event_number};
ghost use Rattle.jc_heap.specs.Image.{IsWellFormed, image, package_addresses, is_package};
ghost use Rattle.jc_heap.specs.Heap.{heap_of, area_end, area_limit, area_sizes};
ghost use Rattle.jc_image.specs.Steps.{HasBounds, HasRecord, item_from};
ghost use Rattle.jc_heap.specs.WholeHeap.{lies_in, cells_in, FitsAt};

use jc_commit::Journal;
use jc_heap::layout::{HEADER, LENGTH, area_word};
use jc_transient::{ClearEvent, RamSizes};
use jc_words::WordStore;

/// Where the next cells of each area begin.
#[derive(Clone, Copy)]
pub(crate) struct Places {
    pub(crate) reset: u16,
    pub(crate) deselect: u16,
}

// An event as a number of the image.
fn number_of(event: ClearEvent) -> u16
    ensures { result ≡ event_number (Some event) }
{
    match event {
        ClearEvent::Reset => 1,
        ClearEvent::Deselect => 2,
    }
}

// The cells of the object at an address lie in the event's area.
fn is_in_area<S: WordStore>(journal: &Journal<S>, at: u16, event: ClearEvent) -> bool
    requires bounds { HasBounds journal.now.plain }
    requires small { length journal.now.plain < 65536 }
    requires here { HasRecord journal.now.plain at }
    requires object { is_package (package_addresses (image journal.now.plain)) at ≡ false }
    ensures { result ≡ lies_in event (item_from journal.now.plain at) }
{
    journal.read(at) / 256 == number_of(event)
}

// The place after those cells of the object at an address; none, where they do not begin at the given
// place or do not end within the area, which has this many cells.
fn place_behind<S: WordStore>(
    journal: &Journal<S>,
    at: u16,
    event: ClearEvent,
    place: u16,
    size: u16,
) -> Option<u16>
    requires bounds { HasBounds journal.now.plain }
    requires small { length journal.now.plain < 65536 }
    requires here { HasRecord journal.now.plain at }
    requires object { is_package (package_addresses (image journal.now.plain)) at ≡ false }
    requires size { size ≡ area_limit (heap_of journal.now.plain) event }
    requires room { place ≤ size }
    ensures fits { IfSome result (λ _. FitsAt event (area_limit (heap_of journal.now.plain) event)
        place (item_from journal.now.plain at)) }
    ensures next { IfSome result (λ next. next ≡ place
        + cells_in event (item_from journal.now.plain at)) }
    ensures none { IfNone result (FitsAt event (area_limit (heap_of journal.now.plain) event)
        place (item_from journal.now.plain at) → ⊥) }
{
    if !is_in_area(journal, at, event) {
        return Some(place);
    }
    let begin = journal.read(at + HEADER);
    if begin != place {
        return None;
    }
    let length = journal.read(at + LENGTH);
    if length > size - place {
        return None;
    }
    Some(place + length)
}

/// The places after the cells of the object at an address; none, where they do not begin at the given
/// places or do not end within their area. The areas have these sizes.
pub(crate) fn places_behind<S: WordStore>(
    journal: &Journal<S>,
    at: u16,
    places: Places,
    sizes: RamSizes,
) -> Option<Places>
    requires bounds { HasBounds journal.now.plain }
    requires small { length journal.now.plain < 65536 }
    requires here { HasRecord journal.now.plain at }
    requires object { is_package (package_addresses (image journal.now.plain)) at ≡ false }
    requires sizes { sizes ≡ area_sizes (heap_of journal.now.plain) }
    requires room { (places.reset ≤ sizes.reset) × (places.deselect ≤ sizes.deselect) }
    ensures fits { IfSome result (λ _. FitsAt Reset (area_limit (heap_of journal.now.plain) Reset)
        places.reset (item_from journal.now.plain at)
        × FitsAt Deselect (area_limit (heap_of journal.now.plain) Deselect)
        places.deselect (item_from journal.now.plain at)) }
    ensures next { IfSome result (λ next. (next.reset ≡ places.reset
        + cells_in Reset (item_from journal.now.plain at)) × (next.deselect ≡ places.deselect
        + cells_in Deselect (item_from journal.now.plain at))) }
    ensures none { IfNone result (FitsAt Reset (area_limit (heap_of journal.now.plain) Reset)
        places.reset (item_from journal.now.plain at)
        → FitsAt Deselect (area_limit (heap_of journal.now.plain) Deselect)
        places.deselect (item_from journal.now.plain at) → ⊥) }
{
    let reset = place_behind(journal, at, ClearEvent::Reset, places.reset, sizes.reset)?;
    let deselect = place_behind(
        journal,
        at,
        ClearEvent::Deselect,
        places.deselect,
        sizes.deselect,
    )?;
    Some(Places { reset, deselect })
}

/// The event's area ends at this place.
pub(crate) fn ends_at<S: WordStore>(journal: &Journal<S>, event: ClearEvent, place: u16) -> bool
    requires laid { IsWellFormed journal.now.plain }
    ensures { IsTrue result ↔ (area_end (heap_of journal.now.plain) event ≡ place) }
{
    journal.read(area_word(event)) == place
}
