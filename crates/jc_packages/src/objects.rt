//! Whether each object's class, owner and cells are there.
ghost use Rattle.std.specs.Prelude.{ℕ, List, ◌≡◌, ◌<◌, ◌↔◌, IfSome, IsTrue, false};
ghost use Rattle.jc_heap.specs.Heap.{heap_of, next_object, IsObject};
ghost use Rattle.jc_packages.specs.Objects.{IsSoundObject, fits_class, is_persistent_instance, is_owner};

use crate::marked_heap::MarkedHeap;
use crate::values::holds_values;
use jc_heap::{Facts, Kind};
use jc_linker::linked::Linked;
use jc_transient::{ClassWord, OwnerWord, Ref};
use jc_words::WordStore;

/// The number that the owner of the first package has, less one.
const PACKAGES: u16 = 256;

// The class fits what the header says beside it.
fn fits_class(linked: &Linked, kind: Kind, class: ClassWord, long: u16) -> bool
    ensures { result ≡ fits_class linked.now kind class long }
{
    match kind {
        Kind::Instance => {
            linked.is_class(class)
                && !linked.names_interface(class)
                && u32::from(long) == linked.size_of(class)
        }
        Kind::ReferenceArray => linked.is_class(class),
        Kind::BooleanArray | Kind::ByteArray | Kind::ShortArray => true,
    }
}

// The owner is there.
fn is_owner<S: WordStore>(marked: &MarkedHeap<'_, S>, owner: OwnerWord) -> bool
    requires up { marked.now.down ≡ false }
    ensures { result ≡ is_owner marked.now.now owner }
{
    let number = owner.0;
    number == 0
        || number <= marked.heap().applets()
        || number > PACKAGES && number - PACKAGES <= marked.heap().packages()
}

/// The header says that it is a persistent instance.
pub(crate) fn is_persistent_instance(facts: Facts) -> bool
    ensures { result ≡ is_persistent_instance facts }
{
    matches!(facts.kind, Kind::Instance) && facts.event.is_none()
}

/// The class, the owner and the cells of an object are there.
pub(crate) fn is_sound_object<S: WordStore>(
    marked: &MarkedHeap<'_, S>,
    linked: &Linked,
    object: Ref,
) -> bool
    requires up { marked.now.down ≡ false }
    requires there { IsObject marked.now.now object }
    ensures { IsTrue result ↔ IsSoundObject linked.now marked.now.now object }
{
    let facts = marked.heap().facts(object);
    if !fits_class(linked, facts.kind, facts.class(), facts.length) {
        return false;
    }
    if !is_owner(marked, facts.owner()) {
        return false;
    }
    if !is_persistent_instance(facts) {
        return true;
    }
    holds_values(marked, linked, object, facts.class(), facts.length)
}

// The object after this one, or the first one of all after null.
fn next_of<S: WordStore>(marked: &MarkedHeap<'_, S>, at: Ref) -> Option<Ref>
    requires up { marked.now.down ≡ false }
    requires there { (at ≡ 0 → ⊥) → IsObject marked.now.now at }
    ensures next { result ≡ next_object marked.now.now at }
    ensures object { IfSome result (IsObject marked.now.now) }
{
    marked.heap().next(at)
}

/// The class, the owner and the cells of each object after this one are there.
pub(crate) fn are_sound<S: WordStore>(marked: &MarkedHeap<'_, S>, linked: &Linked, own: Ref) -> bool
    requires up { marked.now.down ≡ false }
    requires words { (w : List ℕ) × (marked.now.now ≡ heap_of w) }
    requires own { (own ≡ 0 → ⊥) → IsObject marked.now.now own }
    ensures { IsTrue result ↔ ((r : ℕ) → own < r → IsObject marked.now.now r
        → IsSoundObject linked.now marked.now.now r) }
{
    let mut at = own;
    while let Some(object) = next_of(marked, at) {
        if !is_sound_object(marked, linked, object) {
            return false;
        }
        at = object;
    }
    true
}
