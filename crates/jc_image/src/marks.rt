//! The addresses at which the records of a heap begin, and what their cells name.
ghost use Rattle.std.specs.Prelude.{ℕ, ◌≡◌, ◌<◌, ◌≤◌, ◌+◌, ◌↔◌, IsTrue, IsFalse, IfSome, IfNone, false, length, slice_index, slice_index_or};
ghost use Rattle.jc_words.specs.Layout.{top_address};
ghost use Rattle.jc_transient.specs.declared.cell.ClearEvent.{ClearEvent};
ghost use Rattle.jc_transient.specs.declared.cell.ClearEvent.TheVariants.{Reset, Deselect};
ghost use Rattle.jc_heap.specs.Image.{IsWellFormed};
ghost use Rattle.jc_heap.specs.Heap.{heap_of, heap_item_at, is_allocated, area_limit, area_sizes};
ghost use Rattle.jc_heap.specs.WholeHeap.{FitsAt, HoldsReferences, IsFilledArea, cells_in};
ghost use Rattle.jc_image.specs.Steps.{HasBounds, HasRecord, item_from, AreReferences};

use crate::areas::{Places, ends_at, places_behind};
use crate::references::mark_named;
use crate::steps::{end_of_record, first_record};
use jc_commit::Journal;
use jc_heap::sizes::sizes_in;
use jc_heap::walk::begins_package;
use jc_transient::{ClearEvent, RamSizes};
use jc_words::WordStore;
use jc_words::layout::TOP;

// How many addresses there are.
pub(crate) const ALL: usize = 65536;

/// No address is marked.
#[inline(always)]
pub(crate) fn no_marks() -> [bool; ALL]
    ensures none { (r : ℕ) → slice_index_or result r false ≡ false }
    ensures long { length result ≡ 65536 }
{
    let marks = [false; ALL];
    marks
}

// Marks what the record at an address names. The places after its cells; none, where these are not at the given places
// of areas of these sizes, or what it names lies nowhere below the top.
fn visit<S: WordStore>(
    journal: &Journal<S>,
    named: &mut [bool; ALL],
    at: u16,
    top: u16,
    places: Places,
    sizes: RamSizes,
) -> Option<Places>
    requires bounds { HasBounds journal.now.plain }
    requires small { length journal.now.plain < 65536 }
    requires here { HasRecord journal.now.plain at }
    requires is_top { top ≡ slice_index journal.now.plain top_address }
    requires sizes { sizes ≡ area_sizes (heap_of journal.now.plain) }
    requires room { (places.reset ≤ sizes.reset) × (places.deselect ≤ sizes.deselect) }
    ensures long { length named.new ≡ 65536 }
    ensures fits { IfSome result (λ _. FitsAt Reset (area_limit (heap_of journal.now.plain) Reset)
        places.reset (item_from journal.now.plain at)
        × FitsAt Deselect (area_limit (heap_of journal.now.plain) Deselect)
        places.deselect (item_from journal.now.plain at)) }
    ensures next { IfSome result (λ next. (next.reset ≡ places.reset
        + cells_in Reset (item_from journal.now.plain at)) × (next.deselect ≡ places.deselect
        + cells_in Deselect (item_from journal.now.plain at))) }
    ensures below { ((r : ℕ) → top ≤ r → slice_index_or named.old r false ≡ false)
        → (r : ℕ) → top ≤ r → slice_index_or named.new r false ≡ false }
    ensures held { IfSome result (λ _. AreReferences (heap_of journal.now.plain) named.new
        ↔ (AreReferences (heap_of journal.now.plain) named.old
        × HoldsReferences (heap_of journal.now.plain) (item_from journal.now.plain at))) }
    ensures none { IfNone result (FitsAt Reset (area_limit (heap_of journal.now.plain) Reset)
        places.reset (item_from journal.now.plain at)
        → FitsAt Deselect (area_limit (heap_of journal.now.plain) Deselect)
        places.deselect (item_from journal.now.plain at)
        → HoldsReferences (heap_of journal.now.plain) (item_from journal.now.plain at) → ⊥) }
{
    if begins_package(journal, at) {
        return Some(places);
    }
    let next = places_behind(journal, at, places, sizes)?;
    if !mark_named(journal, named, at, top) {
        return None;
    }
    Some(next)
}

/// Marks the addresses at which records begin and those that arrays of references name, in one walk, up to the first record
/// that is wrong. Whether the records end where the table ends, the objects fill both areas, and name nothing at or above
/// the top.
pub(crate) fn mark_records<S: WordStore>(
    journal: &Journal<S>,
    marks: &mut [bool],
    named: &mut [bool; ALL],
) -> bool
    requires bounds { HasBounds journal.now.plain }
    requires small { length journal.now.plain < 65536 }
    requires long { length marks.old ≡ 65536 }
    requires none { (r : ℕ) → slice_index_or marks.old r false ≡ false }
    requires unnamed { (r : ℕ) → slice_index_or named.old r false ≡ false }
    ensures long { length marks.new ≡ 65536 }
    ensures laid { IsTrue result → IsWellFormed journal.now.plain }
    ensures marks { IsTrue result → (r : ℕ) → slice_index_or marks.new r false
        ≡ is_allocated (heap_of journal.now.plain) r }
    ensures below { IsTrue result → (r : ℕ) → slice_index journal.now.plain top_address ≤ r
        → slice_index_or named.new r false ≡ false }
    ensures held { IsTrue result → (AreReferences (heap_of journal.now.plain) named.new
        ↔ ((r : ℕ) → HoldsReferences (heap_of journal.now.plain)
        (heap_item_at (heap_of journal.now.plain) r))) }
    ensures filled { IsTrue result → (event : ClearEvent) → IsFilledArea
        (heap_of journal.now.plain) event }
    ensures broken { IsFalse result → IsWellFormed journal.now.plain
        → ((event : ClearEvent) → IsFilledArea (heap_of journal.now.plain) event)
        → ((r : ℕ) → HoldsReferences (heap_of journal.now.plain)
        (heap_item_at (heap_of journal.now.plain) r)) → ⊥ }
{
    let top = journal.read(TOP);
    let sizes = sizes_in(journal);
    let mut at = first_record(journal);
    let mut places = Places {
        reset: 0,
        deselect: 0,
    };
    while at < top {
        let Some(end) = end_of_record(journal, at, top) else {
            return false;
        };
        let Some(next) = visit(journal, named, at, top, places, sizes) else {
            return false;
        };
        marks[usize::from(at)] = true;
        places = next;
        at = end;
    }
    ends_at(journal, ClearEvent::Reset, places.reset)
        && ends_at(journal, ClearEvent::Deselect, places.deselect)
}
