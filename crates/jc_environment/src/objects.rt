//! The list of the runtime environment's own objects: those that each image has, and after them one instance for each further
//! exception whose class the table has.
ghost use Rattle.std.specs.Prelude.{◌≡◌, ◌≤◌, ◌+◌, ◌++◌, length, map};
ghost use Rattle.jc_transient.specs.State.{usual_cells};
ghost use Rattle.jc_environment.specs.Objects.{cells_of_all, first_objects, fixed_objects, is_first, is_further, is_of, own_instance, own_instances, own_place, place_among, sized, sized_objects};
ghost use Rattle.jc_platform.specs.Names.{classes};
ghost use Rattle.jc_platform.specs.RowValues.{class_value};

use arrayvec::ArrayVec;
use jc_heap::Kind;
use jc_platform::lookup::all_classes;
use jc_platform::names::PlatformClass;
use jc_platform::rows::ClassRow;
use jc_platform::table::Table;
use jc_transient::BUFFER_CELLS;

/// How many of them there are at most.
pub const MOST_OBJECTS: usize = 128;

/// The place of the APDU object among them, from 0.
pub const APDU_OBJECT: usize = 15;

/// The place of the APDU buffer.
pub const APDU_BUFFER: usize = 16;

/// An object that the runtime environment owns.
#[derive(Clone, Copy, Default)]
pub struct FixedObject {
    pub kind: Kind,
    /// The class of an instance; none of an array.
    pub class: Option<PlatformClass>,
    pub cells: u16,
}

// An instance of a class, with this number of cells.
macro_rules! instance {
    ($class:ident $cells:literal) => {
        FixedObject {
            kind: Kind::Instance,
            class: Some(PlatformClass::$class),
            cells: $cells,
        }
    };
}

// Those of each image, in their order.
const FIRST: [FixedObject; 17] = [
    instance!(ArithmeticException 0),
    instance!(ArrayIndexOutOfBoundsException 0),
    instance!(ArrayStoreException 0),
    instance!(ClassCastException 0),
    instance!(NegativeArraySizeException 0),
    instance!(NullPointerException 0),
    instance!(SecurityException 0),
    instance!(CardException 1),
    instance!(CardRuntimeException 1),
    instance!(IsoException 1),
    instance!(PinException 1),
    instance!(SystemException 1),
    instance!(TransactionException 1),
    instance!(ApduException 1),
    instance!(UserException 1),
    instance!(Apdu 0),
    FixedObject {
        kind: Kind::ByteArray,
        class: None,
        cells: BUFFER_CELLS,
    },
];

#[tactic(auto, unfolding(crate::specs::Objects::first_objects))]
fn first_objects() -> &'static [FixedObject]
    ensures all { result.now ≡ first_objects }
    ensures count { length result.now ≡ 17 }
{
    &FIRST
}

// Every class of the platform.
#[tactic(auto, unfolding(jc_platform::specs::Names::classes))]
fn classes() -> &'static [ClassRow]
    ensures all { map class_value result.now ≡ classes }
    ensures few { length result.now ≤ 111 }
{
    all_classes()
}

fn own_instance(class: PlatformClass) -> FixedObject
    ensures { result ≡ own_instance class }
{
    FixedObject {
        kind: Kind::Instance,
        class: Some(class),
        cells: u16::from(class.cells()),
    }
}

// Adds these objects.
fn add_all(objects: &[FixedObject], to: &mut ArrayVec<FixedObject, MOST_OBJECTS>)
    requires room { length to.old.items + length objects.now ≤ 128 }
    ensures { to.new.items ≡ to.old.items ++ objects.now }
{
    let Some((first, more)) = objects.split_first() else {
        return;
    };
    to.push(*first);
    add_all(more, to);
}

// Whether the class has an instance among those of each image.
#[tactic(auto, unfolding(crate::specs::Objects::is_first))]
fn is_first(class: PlatformClass) -> bool
    ensures { result ≡ is_first class }
{
    place_among(class, first_objects()) < 17
}

// Whether the runtime environment has an instance of a class in images with this table, after those of each image.
fn is_further(table: &Table, row: &ClassRow) -> bool
    ensures { result ≡ is_further table.now (class_value row.now) }
{
    row.thrown && !is_first(row.class) && table.token_of_class(row.class).is_some()
}

// Adds the instances of these classes, after those of each image.
fn add_instances(table: &Table, rows: &[ClassRow], to: &mut ArrayVec<FixedObject, MOST_OBJECTS>)
    requires room { length to.old.items + length rows.now ≤ 128 }
    ensures { to.new.items ≡ to.old.items ++ own_instances table.now (map class_value rows.now) }
{
    let Some((first, more)) = rows.split_first() else {
        return;
    };
    if !is_further(table, first) {
        add_instances(table, more, to);
        return;
    }
    to.push(own_instance(first.class));
    add_instances(table, more, to);
}

#[tactic(auto, unfolding(crate::specs::Objects::fixed_objects))]
fn listed(table: &Table) -> ArrayVec<FixedObject, MOST_OBJECTS>
    ensures { result.items ≡ fixed_objects table.now }
{
    let mut objects = ArrayVec::new();
    add_all(first_objects(), &mut objects);
    add_instances(table, classes(), &mut objects);
    objects
}

/// The objects of images with this table, in their order.
pub fn fixed_objects(table: &Table) -> ArrayVec<FixedObject, MOST_OBJECTS>
    ensures all { result.items ≡ fixed_objects table.now }
    ensures few { length result.items ≤ 32 }
    ensures cells { cells_of_all result.items ≤ usual_cells }
{
    listed(table)
}

// The object, with this number of cells if it is the buffer, the only array.
fn sized(object: &FixedObject, buffer: u16) -> FixedObject
    ensures { result ≡ sized buffer object.now }
{
    match object.class {
        Some(_) => *object,
        None => FixedObject {
            cells: buffer,
            ..*object
        },
    }
}

// Adds these objects, with a buffer of this number of cells.
fn add_sized(objects: &[FixedObject], buffer: u16, to: &mut ArrayVec<FixedObject, MOST_OBJECTS>)
    requires room { length to.old.items + length objects.now ≤ 128 }
    ensures { to.new.items ≡ to.old.items ++ map (sized buffer) objects.now }
{
    let Some((first, more)) = objects.split_first() else {
        return;
    };
    to.push(sized(first, buffer));
    add_sized(more, buffer, to);
}

/// The objects of images with this table and with an APDU buffer of this number of cells, in their order.
pub fn sized_objects(table: &Table, buffer: u16) -> ArrayVec<FixedObject, MOST_OBJECTS>
    ensures all { result.items ≡ sized_objects table.now buffer }
    ensures few { length result.items ≤ 32 }
    ensures cells { cells_of_all result.items ≤ usual_cells + buffer }
{
    let usual = fixed_objects(table);
    let mut objects = ArrayVec::new();
    add_sized(usual.as_slice(), buffer, &mut objects);
    objects
}

/// The place of the instance of a class among them, from 0; their number where there is none.
#[tactic(auto, unfolding(crate::specs::Objects::own_place))]
pub fn own_place(table: &Table, class: PlatformClass) -> usize
    ensures { result ≡ own_place table.now class }
{
    let objects = fixed_objects(table);
    place_among(class, objects.as_slice())
}

fn is_of(object: &FixedObject, class: PlatformClass) -> bool
    ensures { result ≡ is_of object.now class }
{
    match object.class {
        Some(of) => of.is(class),
        None => false,
    }
}

fn place_among(class: PlatformClass, objects: &[FixedObject]) -> usize
    ensures place { result ≡ place_among class objects.now }
    ensures bound { result ≤ length objects.now }
{
    let Some((first, more)) = objects.split_first() else {
        return 0;
    };
    if is_of(first, class) {
        return 0;
    }
    1 + place_among(class, more)
}
