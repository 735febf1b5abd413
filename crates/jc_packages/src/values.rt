//! Whether what a persistent instance holds fits its class.
ghost use Rattle.std.specs.Prelude.{◌≡◌, ◌<◌, ◌↔◌, IsTrue, false, length, slice_index};
ghost use Rattle.jc_heap.specs.Heap.{cells, facts};
ghost use Rattle.jc_packages.specs.Objects.{HoldsReferences, HoldsValues, fits_aid, fits_pin, has_value, is_byte_array, is_reference};
ghost use Rattle.jc_linker.specs.Classes.{is_a};

use crate::marked_heap::MarkedHeap;
use jc_heap::{Facts, Kind};
use jc_linker::linked::Linked;
use jc_platform::names::PlatformClass;
use jc_transient::{ClassWord, Ref};
use jc_words::WordStore;

/// How many bytes an AID has at most.
pub(crate) const MOST_AID: u16 = 16;

/// The class is one of the platform, or below it.
pub(crate) fn is_a(linked: &Linked, class: ClassWord, of: PlatformClass) -> bool
    ensures { result ≡ is_a linked.now class of }
{
    linked.is_below(class, linked.platform().class_word(of))
}

/// The word is null or the address of an object.
pub(crate) fn is_reference<S: WordStore>(marked: &MarkedHeap<'_, S>, word: u16) -> bool
    ensures { result ≡ is_reference marked.now.now word }
{
    word == 0 || marked.is_object(word)
}

/// A cell of a persistent object with this many cells; 0 after the last one.
pub(crate) fn cell_of<S: WordStore>(
    marked: &MarkedHeap<'_, S>,
    object: Ref,
    long: u16,
    i: u16,
) -> u16
    requires up { marked.now.down ≡ false }
    requires long { length (cells marked.now.now object) ≡ long }
    ensures { result ≡ slice_index (cells marked.now.now object) i }
{
    if i < long {
        marked.heap().get(object, i)
    } else {
        0
    }
}

// It is a persistent array of this many bytes.
fn is_byte_array(facts: Facts, n: u16) -> bool
    ensures { result ≡ is_byte_array facts n }
{
    matches!(facts.kind, Kind::ByteArray) && facts.event.is_none() && facts.length == n
}

// There is no value where the maximum is 0, or else an array of this many bytes.
fn has_value<S: WordStore>(marked: &MarkedHeap<'_, S>, pin: Ref, long: u16) -> bool
    requires up { marked.now.down ≡ false }
    requires long { length (cells marked.now.now pin) ≡ long }
    ensures { result ≡ has_value marked.now.now (cells marked.now.now pin) }
{
    let maximum = cell_of(marked, pin, long, 1);
    let value = cell_of(marked, pin, long, 4);
    if value == 0 {
        return maximum == 0;
    }
    if !marked.is_object(value) {
        return false;
    }
    is_byte_array(marked.heap().facts(Ref::at(value)), maximum)
}

// An OwnerPIN has its value, which is not longer than the maximum.
fn fits_pin<S: WordStore>(
    marked: &MarkedHeap<'_, S>,
    linked: &Linked,
    object: Ref,
    class: ClassWord,
    long: u16,
) -> bool
    requires up { marked.now.down ≡ false }
    requires long { length (cells marked.now.now object) ≡ long }
    ensures { result ≡ fits_pin linked.now marked.now.now class
        (cells marked.now.now object) }
{
    if !is_a(linked, class, PlatformClass::OwnerPin) {
        return true;
    }
    cell_of(marked, object, long, 3) <= cell_of(marked, object, long, 1)
        && has_value(marked, object, long)
}

// An AID is not too long.
fn fits_aid<S: WordStore>(
    marked: &MarkedHeap<'_, S>,
    linked: &Linked,
    object: Ref,
    class: ClassWord,
    long: u16,
) -> bool
    requires up { marked.now.down ≡ false }
    requires long { length (cells marked.now.now object) ≡ long }
    ensures { result ≡ fits_aid linked.now class (cells marked.now.now object) }
{
    !is_a(linked, class, PlatformClass::Aid) || cell_of(marked, object, long, 0) <= MOST_AID
}

// The cells that hold references hold null or objects.
fn holds_references<S: WordStore>(
    marked: &MarkedHeap<'_, S>,
    linked: &Linked,
    object: Ref,
    class: ClassWord,
    long: u16,
) -> bool
    requires up { marked.now.down ≡ false }
    requires class { (facts marked.now.now object).class ≡ class }
    requires long { length (cells marked.now.now object) ≡ long }
    ensures { IsTrue result ↔ HoldsReferences linked.now marked.now.now object }
{
    for i in 0..long {
        if linked.reference_cell(class, i) && !is_reference(marked, marked.heap().get(object, i)) {
            return false;
        }
    }
    true
}

/// What a persistent instance holds fits its class.
pub(crate) fn holds_values<S: WordStore>(
    marked: &MarkedHeap<'_, S>,
    linked: &Linked,
    object: Ref,
    class: ClassWord,
    long: u16,
) -> bool
    requires up { marked.now.down ≡ false }
    requires class { (facts marked.now.now object).class ≡ class }
    requires long { length (cells marked.now.now object) ≡ long }
    ensures { IsTrue result ↔ HoldsValues linked.now marked.now.now object }
{
    holds_references(marked, linked, object, class, long)
        && fits_aid(marked, linked, object, class, long)
        && fits_pin(marked, linked, object, class, long)
}
