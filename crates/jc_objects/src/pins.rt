//! The words of an image with the tries that its OwnerPINs have left.
ghost use Rattle.std.specs.Prelude.{ℕ, List, ◌≡◌, IfOk, IfSome, OnOk, MatchResult, false};
ghost use Rattle.jc_heap.specs.Heap.{IsObject, heap_of, next_object};
ghost use Rattle.jc_objects.specs.Pins.{AreTriesIn, AreTryWords, is_pin, noted};
ghost use Rattle.jc_objects.specs.Legend.{HasNoPackages};
ghost use Rattle.jc_packages.specs.Objects.{is_persistent_instance};

use crate::image_objects::{opened, whole_of};
use jc_heap::{Facts, Heap, Kind};
use jc_linker::linked::Linked;
use jc_packages::fault::ReadFault;
use jc_packages::reading::read_packages;
use jc_platform::names::PlatformClass;
use jc_transient::Ref;
use jc_words::WordStore;
use std::alloc::{AllocError, Global};

/// Where an OwnerPIN has the word with the tries that are left: after a header of four words the third cell.
const TRIES: u32 = 6;

/// The addresses of the words with the tries that are left of the OwnerPINs which stand in an image, once it is recovered.
pub fn try_words(alloc: Global, words: Vec<u16>) -> Result<Vec<u16>, ReadFault>
    ensures { MatchResult result (λ found. AreTriesIn words.items found.items)
        (λ fault. HasNoPackages words.items fault) }
{
    let image = opened(words)?;
    let (platform, heap) = whole_of(alloc, image)?;
    let linked = read_packages(alloc, platform, &heap)?;
    let found = try_words_in(alloc, &linked, &heap)?;
    Ok(found)
}

// Those of a heap and its packages.
fn try_words_in<S: WordStore>(
    alloc: Global,
    linked: &Linked,
    heap: &Heap<S>,
) -> Result<Vec<u16>, AllocError>
    requires up { heap.now.down ≡ false }
    requires words { (w : List ℕ) × (heap.now.now ≡ heap_of w) }
    ensures { IfOk result (λ found. AreTryWords linked.now heap.now.now found.items) }
{
    let mut found = Vec::new(alloc);
    let mut at = Ref::null();
    while let Some(object) = next_of(heap, at) {
        note(linked, heap, object, &mut found)?;
        at = object;
    }
    Ok(found)
}

// The object after this one, or the first one of all after null.
fn next_of<S: WordStore>(heap: &Heap<S>, at: Ref) -> Option<Ref>
    requires up { heap.now.down ≡ false }
    requires there { (at ≡ 0 → ⊥) → IsObject heap.now.now at }
    ensures next { result ≡ next_object heap.now.now at }
    ensures object { IfSome result (IsObject heap.now.now) }
{
    heap.next(at)
}

// Adds the word of this object, if it is an OwnerPIN.
fn note<S: WordStore>(
    linked: &Linked,
    heap: &Heap<S>,
    object: Ref,
    found: &mut Vec<u16>,
) -> Result<(), AllocError>
    requires up { heap.now.down ≡ false }
    requires there { IsObject heap.now.now object }
    ensures { OnOk result (found.new.items
        ≡ noted linked.now heap.now.now object found.old.items) }
{
    if !is_pin(linked, heap, object) {
        return Ok(());
    }
    let word = u32::from(object.address()) + TRIES;
    if word >= 65_536 {
        return Ok(());
    }
    found.push(word as u16)?;
    Ok(())
}

// The object is an OwnerPIN.
fn is_pin<S: WordStore>(linked: &Linked, heap: &Heap<S>, object: Ref) -> bool
    requires up { heap.now.down ≡ false }
    requires there { IsObject heap.now.now object }
    ensures { result ≡ is_pin linked.now heap.now.now object }
{
    let facts = heap.facts(object);
    is_persistent_instance(facts)
        && linked.is_below(
            facts.class(),
            linked.platform().class_word(PlatformClass::OwnerPin),
        )
}

// The header says that it is a persistent instance.
fn is_persistent_instance(facts: Facts) -> bool
    ensures { result ≡ is_persistent_instance facts }
{
    matches!(facts.kind, Kind::Instance) && facts.event.is_none()
}
