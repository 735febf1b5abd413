//! The objects that the runtime environment owns from an image's making on: made, and found again.
ghost use Rattle.std.specs.Prelude.{◌≡◌, ◌≤◌, ◌<◌, ◌+◌, ◌*◌, false, true, OnOk, OnErr, is_ok, if◌then◌else◌, length, [], ◌∷◌, ◌++◌};
ghost use Rattle.jc_words.specs.Refusals.{refused_once};
ghost use Rattle.jc_transient.specs.State.{buffer_told, most_buffer};
ghost use Rattle.jc_transient.specs.declared.cell.ClearEvent.TheVariants.{Reset};
ghost use Rattle.jc_heap.specs.Object.{transient_size};
ghost use Rattle.jc_heap.specs.Heap.{IsObject, area_end, area_limit, limit};
ghost use Rattle.jc_environment.specs.Objects.{cells_of_all, fixed_size, sized_objects};
ghost use Rattle.jc_card.specs.ProductImages.{objects_in};
ghost use Rattle.jc_card.specs.Fixed.{class_number_of, facts_of_fixed, fixed_facts, next_or_null, numbered, object_number, with_objects};

use arrayvec::ArrayVec;
use jc_environment::{FixedObject, MOST_OBJECTS, fixed_objects, sized_objects};
use jc_heap::{Facts, Heap};
use jc_image::ImageRoom;
use jc_memory::MOST_FIXED;
use jc_platform::names::PlatformClass;
use jc_platform::table::Table;
use jc_transient::{BUFFER_CELLS, ClassWord, ClearEvent, NO_CLASS, RUNTIME_ENVIRONMENT, Ref};
use jc_words::{StoreDown, WordStore};

/// How many cells the APDU buffer has, by the word that says it: 0 says as many as are usual.
pub(crate) const fn buffer_told(word: u16) -> u16
    ensures { result ≡ buffer_told word }
{
    if word == 0 { BUFFER_CELLS } else { word }
}

/// How many words the objects of images with this table take.
pub(crate) fn fixed_size(table: &Table) -> u32
    ensures size { result ≡ fixed_size table.now }
    ensures few { result ≤ 640 }
{
    let objects = fixed_objects(table);
    5 * objects.len() as u32
}

// What the header of an object says, whose first cell has this place.
fn facts_of(object: &FixedObject, table: &Table, place: u16) -> Facts
    ensures { result ≡ facts_of_fixed table.now object.now place }
{
    Facts::new(
        object.kind,
        Some(ClearEvent::Reset),
        class_number(table, object.class),
        RUNTIME_ENVIRONMENT,
        object.cells,
        place,
    )
}

fn class_number(table: &Table, class: Option<PlatformClass>) -> ClassWord
    ensures { result ≡ class_number_of table.now class }
{
    match class {
        Some(class) => table.class_word(class),
        None => NO_CLASS,
    }
}

/// What the headers of all of them say, where the APDU buffer has this number of cells.
pub(crate) fn fixed_headers(table: &Table, buffer: u16) -> ArrayVec<Facts, MOST_OBJECTS>
    requires { buffer ≤ most_buffer }
    ensures { result.items ≡ fixed_facts table.now 0 (sized_objects table.now buffer) }
{
    let objects = sized_objects(table, buffer);
    let mut headers = ArrayVec::new();
    add_headers(table, 0, objects.as_slice(), &mut headers);
    headers
}

// Adds what the headers of these say, whose cells stand one after another from a place on.
fn add_headers(
    table: &Table,
    place: u16,
    objects: &[FixedObject],
    headers: &mut ArrayVec<Facts, MOST_OBJECTS>,
)
    requires places { place + cells_of_all objects.now < 65536 }
    requires room { length headers.old.items + length objects.now ≤ 128 }
    ensures { headers.new.items ≡ headers.old.items ++ fixed_facts table.now place objects.now }
{
    let Some((first, more)) = objects.split_first() else {
        return;
    };
    headers.push(facts_of(first, table, place));
    add_headers(table, place + first.cells, more, headers);
}

/// Makes the objects of the runtime environment of an image that is to have this room, in a heap that has space for them, and no transient cells.
pub(crate) fn make_fixed<S: WordStore>(
    heap: &mut Heap<S>,
    table: &Table,
    room: ImageRoom,
) -> Result<(), StoreDown>
    requires up { heap.old.down ≡ false }
    requires outside { heap.old.begun ≡ false }
    requires settled { heap.old.durable ≡ heap.old.now }
    requires space { heap.old.now.top + fixed_size table.now ≤ limit heap.old }
    requires area { area_end heap.old.now Reset ≡ 0 }
    requires room { cells_of_all (objects_in room table.now) ≤ area_limit heap.old.now Reset }
    ensures made { OnOk result (heap.new.now ≡ with_objects table.now heap.old.now
        (objects_in room table.now)) }
    ensures size { heap.new.size ≡ heap.old.size }
    ensures up { OnOk result (heap.new.down ≡ false) }
    ensures outside { OnOk result (heap.new.begun ≡ false) }
    ensures settled { OnOk result (heap.new.durable ≡ heap.new.now) }
    ensures stopped { OnErr result (heap.new.down ≡ true) }
    ensures refusals { heap.new.refusals ≡ (if is_ok result then heap.old.refusals else
        refused_once heap.old.down heap.new.passed heap.old.refusals) }
    ensures head { heap.new.durable.head ≡ heap.old.durable.head }
{
    let objects = sized_objects(table, buffer_told(room.buffer));
    make_all(heap, table, objects.as_slice())
}

// Makes these objects after those that stand.
fn make_all<S: WordStore>(
    heap: &mut Heap<S>,
    table: &Table,
    objects: &[FixedObject],
) -> Result<(), StoreDown>
    requires up { heap.old.down ≡ false }
    requires outside { heap.old.begun ≡ false }
    requires settled { heap.old.durable ≡ heap.old.now }
    requires space { heap.old.now.top + transient_size * length objects.now ≤ limit heap.old }
    requires area { area_end heap.old.now Reset + cells_of_all objects.now
        ≤ area_limit heap.old.now Reset }
    ensures made { OnOk result (heap.new.now ≡ with_objects table.now heap.old.now objects.now) }
    ensures size { heap.new.size ≡ heap.old.size }
    ensures up { OnOk result (heap.new.down ≡ false) }
    ensures outside { OnOk result (heap.new.begun ≡ false) }
    ensures settled { OnOk result (heap.new.durable ≡ heap.new.now) }
    ensures stopped { OnErr result (heap.new.down ≡ true) }
    ensures refusals { heap.new.refusals ≡ (if is_ok result then heap.old.refusals else
        refused_once heap.old.down heap.new.passed heap.old.refusals) }
    ensures head { heap.new.durable.head ≡ heap.old.durable.head }
{
    let Some((first, more)) = objects.split_first() else {
        return Ok(());
    };
    make(heap, table, first)?;
    make_all(heap, table, more)
}

// Makes an object after those that stand.
fn make<S: WordStore>(
    heap: &mut Heap<S>,
    table: &Table,
    object: &FixedObject,
) -> Result<(), StoreDown>
    requires up { heap.old.down ≡ false }
    requires outside { heap.old.begun ≡ false }
    requires settled { heap.old.durable ≡ heap.old.now }
    requires space { heap.old.now.top + transient_size ≤ limit heap.old }
    requires area { area_end heap.old.now Reset + object.now.cells
        ≤ area_limit heap.old.now Reset }
    ensures made { OnOk result (heap.new.now ≡ with_objects table.now heap.old.now
        (object.now ∷ [])) }
    ensures up { OnOk result (heap.new.down ≡ false) }
    ensures outside { OnOk result (heap.new.begun ≡ false) }
    ensures settled { OnOk result (heap.new.durable ≡ heap.new.now) }
    ensures size { heap.new.size ≡ heap.old.size }
    ensures top { OnOk result (heap.new.now.top ≡ heap.old.now.top + transient_size) }
    ensures end { OnOk result (area_end heap.new.now Reset ≡ area_end heap.old.now Reset
        + object.now.cells) }
    ensures area { OnOk result (area_limit heap.new.now Reset ≡ area_limit heap.old.now Reset) }
    ensures stopped { OnErr result (heap.new.down ≡ true) }
    ensures refusals { heap.new.refusals ≡ (if is_ok result then heap.old.refusals else
        refused_once heap.old.down heap.new.passed heap.old.refusals) }
    ensures head { heap.new.durable.head ≡ heap.old.durable.head }
{
    let _ = heap.commit_capacity(); // so that the proof knows: there is room for two words
    let class = class_number(table, object.class);
    match heap.new_transient(
        object.kind,
        ClearEvent::Reset,
        class,
        RUNTIME_ENVIRONMENT,
        object.cells,
    ) {
        Ok(_) => Ok(()),
        // There is space and room, so the store alone can refuse.
        Err(_) => Err(StoreDown),
    }
}

/// The addresses of the first objects of a heap, as many as this says, in their order; and the last one; null, where there
/// are not this many.
pub(crate) fn first_objects<S: WordStore>(
    heap: &Heap<S>,
    count: usize,
) -> (ArrayVec<u16, MOST_FIXED>, Ref)
    requires up { heap.now.down ≡ false }
    requires few { count ≤ 32 }
    ensures all { result.0.items ≡ numbered heap.now.now count }
    ensures last { result.1 ≡ object_number heap.now.now count }
    ensures object { (result.1 ≡ 0 → ⊥) → IsObject heap.now.now result.1 }
{
    let mut fixed = ArrayVec::new();
    let mut at = Ref::null();
    for _ in 0..count {
        at = next_or_null(heap, at);
        fixed.push(at.address());
    }
    (fixed, at)
}

// The object after another one, or the first one of all after null; null, where there is none.
fn next_or_null<S: WordStore>(heap: &Heap<S>, object: Ref) -> Ref
    requires up { heap.now.down ≡ false }
    requires there { (object ≡ 0 → ⊥) → IsObject heap.now.now object }
    ensures next { result ≡ next_or_null heap.now.now object }
    ensures object { (result ≡ 0 → ⊥) → IsObject heap.now.now result }
{
    match heap.next(object) {
        Some(next) => next,
        None => Ref::null(),
    }
}
