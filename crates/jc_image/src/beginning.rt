//! The objects with which a heap begins.
ghost use Rattle.std.specs.Prelude.{◌≡◌, ◌<◌, ◌↔◌, length, IsTrue};
ghost use Rattle.jc_heap.specs.Image.{IsWellFormed};
ghost use Rattle.jc_heap.specs.Heap.{heap_of, facts, IsObject};
ghost use Rattle.jc_image.specs.Beginning.{HeapBeginsWith, HeadersFollow};

use jc_commit::Journal;
use jc_heap::Facts;
use jc_heap::lookup::{facts_at, next_behind};
use jc_transient::Ref;
use jc_words::WordStore;

// Whether two headers say the same of what there is: the kind, what clears it, and whether two cells stand in a word.
fn is_same_kind(found: &Facts, expected: &Facts) -> bool
    ensures { IsTrue result ↔ ((found.now.kind ≡ expected.now.kind)
        × (found.now.event ≡ expected.now.event) × (found.now.packed ≡ expected.now.packed)) }
{
    found.kind == expected.kind && found.event == expected.event && found.packed == expected.packed
}

// Whether an object has this header.
fn has_header<S: WordStore>(journal: &Journal<S>, object: Ref, expected: &Facts) -> bool
    requires laid { IsWellFormed journal.now.plain }
    requires small { length journal.now.plain < 65536 }
    requires there { IsObject (heap_of journal.now.plain) object }
    ensures { IsTrue result ↔ (facts (heap_of journal.now.plain) object ≡ expected.now) }
{
    let found = facts_at(journal, object);
    is_same_kind(&found, expected)
        && found.class() == expected.class()
        && found.owner() == expected.owner()
        && found.length == expected.length
        && found.place == expected.place
}

// Whether objects with these headers stand after an object, one after another.
fn follows<S: WordStore>(journal: &Journal<S>, from: Ref, expected: &[Facts]) -> bool
    requires laid { IsWellFormed journal.now.plain }
    requires small { length journal.now.plain < 65536 }
    requires there { (from ≡ 0 → ⊥) → IsObject (heap_of journal.now.plain) from }
    ensures { IsTrue result ↔ HeadersFollow (heap_of journal.now.plain) from expected.now }
{
    let Some((first, more)) = expected.split_first() else {
        return true;
    };
    let Some(next) = next_behind(journal, from) else {
        return false;
    };
    if !has_header(journal, next, first) {
        return false;
    }
    follows(journal, next, more)
}

// Whether the first objects have these headers.
pub(crate) fn begins_with<S: WordStore>(journal: &Journal<S>, first: &[Facts]) -> bool
    requires laid { IsWellFormed journal.now.plain }
    requires small { length journal.now.plain < 65536 }
    ensures { IsTrue result ↔ HeapBeginsWith (heap_of journal.now.plain) first.now }
{
    follows(journal, Ref::null(), first)
}
