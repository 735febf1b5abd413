//! Whether each entry of the registry is that of an applet, and no AID stands there twice.
ghost use Rattle.std.specs.Prelude.{ℕ, ◌≡◌, ◌<◌, ◌≤◌, ◌↔◌, IsTrue, ◌&&◌, false, true, drop, length, slice_index};
ghost use Rattle.std.specs.List.{list_any};
ghost use Rattle.std.specs.Str.{bytes_eq};
ghost use Rattle.jc_words.specs.Layout.{most_applets};
ghost use Rattle.jc_heap.specs.RegistryLayout.{entry_length};
ghost use Rattle.jc_heap.specs.Heap.{cells, facts};
ghost use Rattle.jc_heap.specs.Packed.{packed_byte};
ghost use Rattle.jc_heap.specs.WholeHeap.{IsConsistent};
ghost use Rattle.jc_packages.specs.Objects.{is_instance, is_object_address};
ghost use Rattle.jc_linker.specs.Classes.{is_a};
ghost use Rattle.jc_packages.specs.Sound.{HasOwnAid, IsRegistered, aid_in, aid_of_entry, entry_word, holds_aid};

use crate::marked_heap::MarkedHeap;
use crate::objects::is_persistent_instance;
use crate::values::{MOST_AID, cell_of, is_a};
use arrayvec::ArrayVec;
use jc_heap::Kind;
use jc_heap::registry_layout::{ENTRY_AID, ENTRY_INSTANCE, ENTRY_PACKAGE, entry_start};
use jc_linker::linked::Linked;
use jc_platform::names::PlatformClass;
use jc_transient::Ref;
use jc_words::WordStore;
use jc_words::layout::MOST_APPLETS;

/// The most entries of the registry.
const MOST_ENTRIES: usize = MOST_APPLETS as usize;

/// How many bytes an AID has at least.
const LEAST_AID: u16 = 5;

// A word of the registry's entry at a place.
fn entry_word<S: WordStore>(marked: &MarkedHeap<'_, S>, a: u16, j: u16) -> u16
    requires up { marked.now.down ≡ false }
    requires few { a < most_applets }
    requires part { j < entry_length }
    ensures { result ≡ entry_word marked.now.now a j }
{
    marked.heap().registry(entry_start(a) + j)
}

// A persistent instance of AID stands there, with an AID of 5 to 16 bytes.
fn is_aid_object<S: WordStore>(marked: &MarkedHeap<'_, S>, linked: &Linked, word: u16) -> bool
    requires up { marked.now.down ≡ false }
    ensures { IsTrue result ↔ ((is_object_address marked.now.now word && holds_aid linked.now
        (facts marked.now.now word) (cells marked.now.now word)) ≡ true) }
{
    if !marked.is_object(word) {
        return false;
    }
    let object = Ref::at(word);
    let facts = marked.heap().facts(object);
    if !is_persistent_instance(facts) {
        return false;
    }
    let long = cell_of(marked, object, facts.length, 0);
    facts.class() == linked.platform().class_word(PlatformClass::Aid)
        && long >= LEAST_AID
        && long <= MOST_AID
}

// An instance of a class below Applet stands there.
fn is_applet_instance<S: WordStore>(marked: &MarkedHeap<'_, S>, linked: &Linked, word: u16) -> bool
    requires up { marked.now.down ≡ false }
    ensures { result ≡ (is_object_address marked.now.now word &&
        (is_instance (facts marked.now.now word).kind && is_a linked.now
        (facts marked.now.now word).class PlatformClass.Applet)) }
{
    if !marked.is_object(word) {
        return false;
    }
    let facts = marked.heap().facts(Ref::at(word));
    matches!(facts.kind, Kind::Instance) && is_a(linked, facts.class(), PlatformClass::Applet)
}

// The entry at a place has an AID object, a package and an instance.
fn is_registered<S: WordStore>(marked: &MarkedHeap<'_, S>, linked: &Linked, a: u16) -> bool
    requires up { marked.now.down ≡ false }
    requires few { a < most_applets }
    ensures { IsTrue result ↔ IsRegistered linked.now marked.now.now a }
{
    let package = entry_word(marked, a, ENTRY_PACKAGE);
    is_aid_object(marked, linked, entry_word(marked, a, ENTRY_AID))
        && package > 0
        && package <= marked.heap().packages()
        && is_applet_instance(marked, linked, entry_word(marked, a, ENTRY_INSTANCE))
}

/// Each entry of the registry has an AID object, a package and an instance.
pub(crate) fn are_registered<S: WordStore>(marked: &MarkedHeap<'_, S>, linked: &Linked) -> bool
    requires up { marked.now.down ≡ false }
    requires whole { IsConsistent marked.now.now }
    ensures { IsTrue result ↔ ((a : ℕ) → a < marked.now.now.counts.1
        → IsRegistered linked.now marked.now.now a) }
{
    for a in 0..marked.heap().applets() {
        if !is_registered(marked, linked, a) {
            return false;
        }
    }
    true
}

// A byte of an AID, of which two stand in a cell.
fn aid_byte<S: WordStore>(marked: &MarkedHeap<'_, S>, object: Ref, long: u16, i: u16) -> u8
    requires up { marked.now.down ≡ false }
    requires long { length (cells marked.now.now object) ≡ long }
    requires few { i < 16 }
    ensures { result ≡ packed_byte (drop 1 (cells marked.now.now object)) i }
{
    let word = cell_of(marked, object, long, 1 + i / 2);
    if i % 2 == 0 {
        (word / 256) as u8
    } else {
        (word % 256) as u8
    }
}

// The AID that an AID object's cells hold.
#[tactic(auto, unfolding(jc_heap::specs::Packed::bytes_of_packed))]
fn aid_in<S: WordStore>(marked: &MarkedHeap<'_, S>, object: Ref, long: u16) -> ArrayVec<u8, 16>
    requires up { marked.now.down ≡ false }
    requires long { length (cells marked.now.now object) ≡ long }
    requires few { slice_index (cells marked.now.now object) 0 ≤ 16 }
    ensures { result.items ≡ aid_in (cells marked.now.now object) }
{
    let mut bytes = ArrayVec::new();
    for i in 0..cell_of(marked, object, long, 0) {
        bytes.push(aid_byte(marked, object, long, i));
    }
    bytes
}

// The AID of the entry at a place.
fn aid_of_entry<S: WordStore>(
    marked: &MarkedHeap<'_, S>,
    linked: &Linked,
    a: u16,
) -> ArrayVec<u8, 16>
    requires up { marked.now.down ≡ false }
    requires few { a < most_applets }
    requires registered { IsRegistered linked.now marked.now.now a }
    ensures { result.items ≡ aid_of_entry marked.now.now a }
{
    let object = Ref::at(entry_word(marked, a, ENTRY_AID));
    let facts = marked.heap().facts(object);
    aid_in(marked, object, facts.length)
}

// One of these AIDs is this one.
fn stands_among(aid: &[u8], others: &[ArrayVec<u8, 16>]) -> bool
    ensures { result ≡ list_any (λ other. bytes_eq other.items aid.now) others.now }
{
    others.iter().any(|other| other.as_slice() == aid)
}

/// No two applets have one AID. Each AID is read once.
pub(crate) fn are_distinct<S: WordStore>(marked: &MarkedHeap<'_, S>, linked: &Linked) -> bool
    requires up { marked.now.down ≡ false }
    requires whole { IsConsistent marked.now.now }
    requires registered { (a : ℕ) → a < marked.now.now.counts.1
        → IsRegistered linked.now marked.now.now a }
    ensures { IsTrue result ↔ ((b : ℕ) → b < marked.now.now.counts.1
        → HasOwnAid marked.now.now b) }
{
    let mut before: ArrayVec<ArrayVec<u8, 16>, MOST_ENTRIES> = ArrayVec::new();
    for b in 0..marked.heap().applets() {
        let own = aid_of_entry(marked, linked, b);
        if stands_among(own.as_slice(), before.as_slice()) {
            return false;
        }
        before.push(own);
    }
    true
}
