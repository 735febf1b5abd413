//! Calls of several changes ask room for all of them before the first one. After that the store alone may refuse.

ghost use Rattle.std.specs.Prelude.{◌≡◌, ◌+◌, ◌<◌, ◌≤◌, false, true, None, List, [], ◌∷◌, ◌++◌, All, map, length, IfOk, OnOk};
ghost use Rattle.jc_words.specs.Layout.{least_capacity};
ghost use Rattle.jc_heap.specs.Object.{AnObject, new_object, is_packed};
ghost use Rattle.jc_heap.specs.Heap.{heap_item_at, facts, IsObject};
ghost use Rattle.jc_heap.specs.HeapLaws.{AreLegalValues};
ghost use Rattle.jc_heap.specs.Place.{AreThere, AreApart, ArePlain, places_of, applet_places};
ghost use Rattle.jc_heap.specs.declared.touch.Touch.{Touch};
ghost use Rattle.jc_heap.specs.declared.touch.Touch.TheVariants.{HeapEnd};
ghost use Rattle.jc_heap.specs.Touch.{CanTouch, touched_places, touched_cells, once_made};
ghost use Rattle.jc_words.specs.Layout.{most_applets};
ghost use Rattle.jc_memory.specs.Cells.{MayHaveAll};
ghost use Rattle.jc_transient.specs.Owners.{owner_number};
ghost use Rattle.jc_memory.specs.Programs.{Executes, Finish};
ghost use Rattle.jc_heap.specs.Completions.{after_step};
ghost use Rattle.jc_memory.specs.Making.{object_creation};
ghost use Rattle.jc_memory.specs.CommitCapacity.{has_space, lacks_capacity, applet_registration, cells_update, places_update, KeepsObjects, KeepsRest, StayPut};

use crate::{Memory, NewObject};
use jc_heap::{AppletEntry, Kind, Place, Touch};
use jc_transient::Ref;
use jc_words::{StoreDown, WordStore};

/// Whether there is space for a new persistent object of a kind, with n cells.
pub fn has_space<S: WordStore>(memory: &Memory<S>, kind: Kind, cells: u16) -> bool
    requires up { memory.now.heap.down ≡ false }
    ensures { result ≡ has_space memory.now kind cells }
{
    let has_space = memory.heap().has_space(kind, cells);
    if !has_space {
        memory.note_no_space(kind, cells);
    }
    has_space
}

/// Whether the open transaction has no room for changes of these words. Outside a transaction there is room for each change.
pub fn lacks_capacity<S: WordStore>(memory: &Memory<S>, touches: &[Touch]) -> bool
    requires up { memory.now.heap.down ≡ false }
    requires there { All (λ touch. CanTouch memory.now.heap touch) touches.now }
    ensures { result ≡ lacks_capacity memory.now touches.now }
{
    let lacks_capacity = memory.heap().is_open() && !memory.heap().fits(touches);
    if lacks_capacity {
        memory.note_full_transaction(memory.heap().cost(touches));
    }
    lacks_capacity
}

/// Makes a persistent object, for which there is space and room. All that was there stays as it was.
pub fn make_within_capacity<S: WordStore>(
    memory: &mut Memory<S>,
    object: NewObject,
) -> Result<Ref, StoreDown>
    requires up { memory.old.heap.down ≡ false }
    requires persistent { object.event ≡ None }
    requires space { has_space memory.old object.kind object.length ≡ true }
    requires room { lacks_capacity memory.old (HeapEnd ∷ []) ≡ false }
    ensures made { Executes (object_creation object Finish) memory.old
        (after_step result memory.new) }
    ensures new { IfOk result (λ r. heap_item_at memory.new.heap.now r
        ≡ AnObject (new_object object.kind object.class
        (owner_number object.owner) object.length)) }
    ensures kept { OnOk result (KeepsObjects memory.old.heap.now memory.new.heap.now) }
    ensures rest { OnOk result (KeepsRest memory.old memory.new) }
    ensures left { IfOk result (λ r. (more : List Touch) → StayPut memory.old object.kind more
        → lacks_capacity memory.old (HeapEnd ∷ more) ≡ false
        → lacks_capacity memory.new (map (once_made r) more) ≡ false) }
    ensures up { OnOk result (memory.new.heap.down ≡ false) }
{
    let _ = memory.commit_capacity(); // so that the proof knows: a transaction can keep as many as the least
    match memory.make(object) {
        Ok(made) => Ok(made),
        Err(_) => Err(StoreDown),
    }
}

/// Sets places that have words of their own as one change, for which there is room.
pub fn write_within_capacity<S: WordStore>(
    memory: &mut Memory<S>,
    changes: &[(Place, u16)],
) -> Result<(), StoreDown>
    requires up { memory.old.heap.down ≡ false }
    requires there { AreThere memory.old.heap.now changes.now }
    requires plain { ArePlain memory.old.heap.now (places_of changes.now) }
    requires apart { AreApart (places_of changes.now) }
    requires references { AreLegalValues memory.old.heap.now changes.now }
    requires few { length changes.now ≤ least_capacity }
    requires room { lacks_capacity memory.old (touched_places (places_of changes.now)) ≡ false }
    ensures made { Executes (places_update changes.now) memory.old
        (after_step result memory.new) }
    ensures left { OnOk result ((more : List Touch)
        → lacks_capacity memory.old (touched_places (places_of changes.now) ++ more)
        ≡ false → lacks_capacity memory.new more ≡ false) }
{
    let _ = memory.commit_capacity(); // so that the proof knows: a transaction can keep as many as the least
    match memory.write_all(changes) {
        Ok(()) => Ok(()),
        Err(_) => Err(StoreDown),
    }
}

/// Sets cells of a persistent object that have words of their own as one change, for which there is room.
pub fn set_within_capacity<S: WordStore>(
    memory: &mut Memory<S>,
    object: Ref,
    i: u16,
    words: &[u16],
) -> Result<(), StoreDown>
    requires up { memory.old.heap.down ≡ false }
    requires there { IsObject memory.old.heap.now object }
    requires persistent { (facts memory.old.heap.now object).event ≡ None }
    requires plain { is_packed (facts memory.old.heap.now object) ≡ false }
    requires cells { i + length words.now ≤ (facts memory.old.heap.now object).length }
    requires values { MayHaveAll memory.old object words.now }
    requires few { length words.now ≤ least_capacity }
    requires room { lacks_capacity memory.old (touched_cells object i (length words.now)) ≡ false }
    ensures made { Executes (cells_update object i words.now) memory.old
        (after_step result memory.new) }
    ensures left { OnOk result ((more : List Touch)
        → lacks_capacity memory.old (touched_cells object i (length words.now) ++ more) ≡ false
        → lacks_capacity memory.new more ≡ false) }
    ensures rest { OnOk result (KeepsRest memory.old memory.new) }
{
    let _ = memory.commit_capacity(); // so that the proof knows: a transaction can keep as many as the least
    match memory.set_run(object, i, words) {
        Ok(()) => Ok(()),
        Err(_) => Err(StoreDown),
    }
}

/// Registers an applet, for which there is room.
pub fn register_within_capacity<S: WordStore>(
    memory: &mut Memory<S>,
    entry: AppletEntry,
) -> Result<(), StoreDown>
    requires up { memory.old.heap.down ≡ false }
    requires few { memory.old.heap.now.counts.1 < most_applets }
    requires room { lacks_capacity memory.old
        (touched_places (applet_places memory.old.heap.now.counts.1)) ≡ false }
    ensures made { Executes (applet_registration memory.old.heap.now entry) memory.old
        (after_step result memory.new) }
    ensures left { OnOk result ((more : List Touch) → lacks_capacity memory.old
        (touched_places (applet_places memory.old.heap.now.counts.1) ++ more) ≡ false
        → lacks_capacity memory.new more ≡ false) }
{
    let _ = memory.commit_capacity(); // so that the proof knows: a transaction can keep as many as the least
    match memory.add_applet(entry) {
        Ok(_) => Ok(()),
        Err(_) => Err(StoreDown),
    }
}
