//! Reading objects of the words of a journal.
ghost use Rattle.std.specs.Prelude.{◌≡◌, ◌<◌, ◌≤◌, ◌+◌, ◌/◌, ◌==◌, ◌↔◌, IsTrue, if◌then◌else◌, None, IfSome, length, slice_index};
ghost use Rattle.jc_words.specs.Layout.{text_start};
ghost use Rattle.jc_heap.specs.declared.object.Kind.TheVariants.{Instance};
ghost use Rattle.jc_heap.specs.Object.{header_size};
ghost use Rattle.jc_heap.specs.Image.{IsWellFormed};
ghost use Rattle.jc_heap.specs.Heap.{heap_of, cells, facts, IsObject, next_object};

use crate::layout::{HEADER, LENGTH};
use crate::object::{Facts, Kind, event_of_number, is_packed_header};
use crate::walk::first_object;
use jc_commit::Journal;
use jc_transient::Ref;
use jc_words::WordStore;
use jc_words::layout::{TEXT_LENGTH, TEXT_START};

// The first word of the header of a persistent instance.
const PERSISTENT_INSTANCE: u16 = 1;

// The word after a transient object's header, 0 where there is none.
#[inline(always)]
fn area_place<S: WordStore>(journal: &Journal<S>, at: u16, word: u16) -> u16
    requires behind { text_start ≤ at }
    requires there { (word / 256 ≡ 0 → ⊥) → at + header_size < length journal.now.plain }
    requires small { length journal.now.plain < 65536 }
    ensures { result ≡ (if word / 256 == 0 then 0 else slice_index journal.now.plain
        (at + header_size)) }
{
    if word / 256 == 0 {
        return 0;
    }
    journal.read_at(at as usize + HEADER as usize)
}

/// What the header of an object says.
#[inline(always)]
pub fn facts_at<S: WordStore>(journal: &Journal<S>, object: Ref) -> Facts
    requires laid { IsWellFormed journal.now.plain }
    requires small { length journal.now.plain < 65536 }
    requires there { IsObject (heap_of journal.now.plain) object }
    ensures facts { result ≡ facts (heap_of journal.now.plain) object }
    ensures cells { result.event ≡ None → length (cells (heap_of journal.now.plain) object)
        ≡ result.length }
{
    let at = object.address();
    let word = journal.read(at);
    let place = area_place(journal, at, word);
    let first = at as usize;
    Facts {
        kind: Kind::of(word % 256),
        event: event_of_number(word / 256),
        class: journal.read_at(first + 1),
        owner: journal.read_at(first + 2),
        length: journal.read_at(first + LENGTH as usize),
        place,
        packed: is_packed_header(word),
    }
}

/// Whether an object is persistent and no array: its header begins with this word alone.
#[inline(always)]
pub fn is_persistent_instance<S: WordStore>(journal: &Journal<S>, object: Ref) -> bool
    requires laid { IsWellFormed journal.now.plain }
    requires small { length journal.now.plain < 65536 }
    requires there { IsObject (heap_of journal.now.plain) object }
    ensures { IsTrue result ↔ (((facts (heap_of journal.now.plain) object).event ≡ None)
        × ((facts (heap_of journal.now.plain) object).kind ≡ Instance)) }
{
    journal.read(object.address()) == PERSISTENT_INSTANCE
}

/// The object after another one in the order of addresses, or the first one of all after null.
pub fn next_behind<S: WordStore>(journal: &Journal<S>, object: Ref) -> Option<Ref>
    requires laid { IsWellFormed journal.now.plain }
    requires small { length journal.now.plain < 65536 }
    requires there { (object ≡ 0 → ⊥) → IsObject (heap_of journal.now.plain) object }
    ensures next { result ≡ next_object (heap_of journal.now.plain) object }
    ensures object { IfSome result (λ q. IsObject (heap_of journal.now.plain) q) }
{
    if object.is_null() {
        let text = u32::from(journal.read(TEXT_LENGTH));
        let from = TEXT_START + (text + 1) / 2;
        return first_object(journal, from as u16, 0);
    }
    let at = object.address();
    first_object(journal, at, at)
}
