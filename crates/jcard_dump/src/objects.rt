//! The lines of the objects.
ghost use Rattle.std.specs.Prelude.{◌≡◌, ◌<◌, ◌≤◌, ◌++◌, None, true, length, IfSome, OnOk};
ghost use Rattle.jc_words.specs.Layout.{text_start};
ghost use Rattle.jc_objects.specs.Records.{IsRecord, item_at};
ghost use Rattle.jcard_dump.specs.Fault.{Lists};
ghost use Rattle.jcard_dump.specs.Image.{IsObjectIn, cells_in};
ghost use Rattle.jcard_dump.specs.Objects.{aid_length, aid_text, applet_name, area_text, byte_text, cell_text, cells_text, contents_text, engine_text, field_text, header_text, is_aid, is_engine, is_engine_class, is_pin, item_text, keyed_engine_text, object_text, objects_lines, owner_text, package_name, pin_text, rest_text, value_text};

use crate::fault::ListFault;
use crate::image::{Image, PlacedObject};
use crate::keys::{push_key, push_not_shown};
use crate::texts::{push_hex, push_labelled, push_reference, push_short};
use jc_heap::{Facts, Kind};
use jc_image::{AppletName, PackageName, applet_at, package_at};
use jc_objects::class_texts::push_number;
use jc_objects::keys::is_key;
use jc_objects::legend::Legend;
use jc_platform::names::PlatformClass;
use jc_transient::{ClearEvent, OwnerWord};
use jc_words::WordStore;
use std::alloc::AllocError;

/// The first owner word that names a package.
const FIRST_PACKAGE: u16 = 256;

/// How many cells an OwnerPIN has.
const PIN_CELLS: u16 = 5;

/// How many cells an engine has; the last of them holds a reference.
const ENGINE_CELLS: u16 = 2;

const ENGINE_REFERENCE: u16 = 1;

/// How many cells an engine with a key has, a Cipher or a Signature, and the last of them that holds a reference.
const KEYED_ENGINE_CELLS: u16 = 12;

const KEYED_ENGINE_REFERENCE: u16 = 2;

/// How many cells an AID has.
const AID_CELLS: u16 = 9;

/// How many bytes an AID has at most.
const MOST_AID: u16 = 16;

/// Writes the line of each object, up to the first record that lacks words.
pub(crate) fn push_objects<S: WordStore>(
    text: &mut Vec<u8>,
    image: &Image<'_, S>,
) -> Result<(), ListFault>
    ensures { Lists text.old.items text.new.items (objects_lines image.now) result }
{
    let top = image.top();
    let mut at = image.first_record();
    while at < top {
        let Some(size) = image.record_size(at) else {
            return Err(ListFault::Unreadable);
        };
        push_item(text, image, at)?;
        at += size;
    }
    Ok(())
}

// Writes the line of what stands at an address, if it is an object that is listed.
fn push_item<S: WordStore>(
    text: &mut Vec<u8>,
    image: &Image<'_, S>,
    at: u16,
) -> Result<(), AllocError>
    requires { IsRecord image.now.words at }
    ensures { OnOk result (text.new.items ≡ text.old.items
        ++ item_text image.now (at, item_at image.now.words at)) }
{
    match image.object_at(at) {
        Some(object) if image.is_listed(object) => push_object(text, image, object),
        _ => Ok(()),
    }
}

/// Writes the line of an object.
pub(crate) fn push_object<S: WordStore>(
    text: &mut Vec<u8>,
    image: &Image<'_, S>,
    object: PlacedObject,
) -> Result<(), AllocError>
    requires { IsObjectIn image.now.words object }
    ensures { OnOk result (text.new.items ≡ text.old.items
        ++ object_text image.now object (cells_in image.now.words object)) }
{
    push_header(text, image, object)?;
    push_rest(text, image, object)?;
    text.extend_from_slice(b"\n")?;
    Ok(())
}

// Writes the address, the class, the owner and the length.
fn push_header<S: WordStore>(
    text: &mut Vec<u8>,
    image: &Image<'_, S>,
    object: PlacedObject,
) -> Result<(), AllocError>
    ensures { OnOk result (text.new.items ≡ text.old.items ++ header_text image.now object) }
{
    push_labelled(text, b"@", object.at, b" ")?;
    image.push_kind(text, object)?;
    text.extend_from_slice(b" of ")?;
    push_owner(text, image.store(), object.facts.owner())?;
    push_labelled(text, b", length ", object.facts.length, b"")
}

// Writes an owner.
fn push_owner<S: WordStore>(
    text: &mut Vec<u8>,
    store: &S,
    owner: OwnerWord,
) -> Result<(), AllocError>
    requires { text_start ≤ length (S.words store.now) }
    ensures { OnOk result (text.new.items ≡ text.old.items ++ owner_text (S.words store.now) owner) }
{
    let number = owner.0;
    if number == 0 {
        return text.extend_from_slice(b"environment");
    }
    if number < FIRST_PACKAGE {
        text.extend_from_slice(b"applet ")?;
        return push_applet_name(text, applet_at(store, number), number);
    }
    text.extend_from_slice(b"package ")?;
    let package = number - FIRST_PACKAGE;
    push_package_name(text, package_at(store, package), package)
}

// Writes the AID of an applet, or its number where none is known.
fn push_applet_name(
    text: &mut Vec<u8>,
    found: Option<AppletName>,
    number: u16,
) -> Result<(), AllocError>
    ensures { OnOk result (text.new.items ≡ text.old.items ++ applet_name found number) }
{
    match found {
        Some(named) => push_hex(text, named.aid()),
        None => push_number(text, number),
    }
}

// Writes the AID of a package, or its number where none is known.
fn push_package_name(
    text: &mut Vec<u8>,
    found: Option<PackageName>,
    number: u16,
) -> Result<(), AllocError>
    ensures { OnOk result (text.new.items ≡ text.old.items ++ package_name found number) }
{
    match found {
        Some(named) => push_hex(text, named.aid()),
        None => push_number(text, number),
    }
}

// Writes the cells of an object, or where they are.
fn push_rest<S: WordStore>(
    text: &mut Vec<u8>,
    image: &Image<'_, S>,
    object: PlacedObject,
) -> Result<(), AllocError>
    requires { IsObjectIn image.now.words object }
    ensures { OnOk result (text.new.items ≡ text.old.items
        ++ rest_text image.now object object.facts.event (cells_in image.now.words object)) }
{
    match object.facts.event {
        Some(event) => push_area(text, event, object.facts.place),
        None => push_contents(text, image, object),
    }
}

// Writes where the cells of a transient object are.
fn push_area(text: &mut Vec<u8>, event: ClearEvent, place: u16) -> Result<(), AllocError>
    ensures { OnOk result (text.new.items ≡ text.old.items ++ area_text event place) }
{
    match event {
        ClearEvent::Reset => push_labelled(text, b", reset area from ", place, b""),
        ClearEvent::Deselect => push_labelled(text, b", deselect area from ", place, b""),
    }
}

// Writes the cells of a persistent object.
fn push_contents<S: WordStore>(
    text: &mut Vec<u8>,
    image: &Image<'_, S>,
    object: PlacedObject,
) -> Result<(), AllocError>
    requires object { IsObjectIn image.now.words object }
    requires cells { length (cells_in image.now.words object) ≡ object.facts.length }
    ensures { OnOk result (text.new.items ≡ text.old.items
        ++ contents_text image.now object (cells_in image.now.words object)) }
{
    let legend = image.legend();
    if is_pin(legend, object.facts) {
        return push_pin(text, image, object);
    }
    if is_key(&legend.platform, object.facts) {
        return push_key(text, image, object);
    }
    if is_engine(legend, object.facts, ENGINE_CELLS, ENGINE_REFERENCE) {
        return push_engine(text, image, object);
    }
    if is_engine(
        legend,
        object.facts,
        KEYED_ENGINE_CELLS,
        KEYED_ENGINE_REFERENCE,
    ) {
        return push_keyed_engine(text, image, object);
    }
    if image.is_hidden(object) {
        return push_not_shown(text);
    }
    match aid_length(image, object) {
        Some(long) => push_aid(text, image, object, long),
        None => push_cells(text, image, object),
    }
}

// Whether an object is an OwnerPIN.
fn is_pin(legend: &Legend, facts: Facts) -> bool
    ensures { result ≡ is_pin legend.now facts }
{
    matches!(facts.kind, Kind::Instance)
        && facts.length == PIN_CELLS
        && facts.class() == legend.platform.class_word(PlatformClass::OwnerPin)
}

// Whether an object is an engine of a class with this many cells, of which this one is the last that holds a reference.
fn is_engine(legend: &Legend, facts: Facts, cells: u16, last: u16) -> bool
    ensures { result ≡ is_engine legend.now facts cells last }
{
    matches!(facts.kind, Kind::Instance)
        && facts.length == cells
        && is_engine_class(legend.platform.class_by_word(facts.class()), cells, last)
}

// Whether a class is one of engines: by its row its instances have this many cells, of which the second, which holds their
// state, and this one are references.
fn is_engine_class(found: Option<PlatformClass>, cells: u16, last: u16) -> bool
    ensures { result ≡ is_engine_class found cells last }
{
    match found {
        Some(class) => {
            u16::from(class.cells()) == cells
                && class.holds_reference(1)
                && class.holds_reference(last)
        }
        None => false,
    }
}

// How many bytes an AID has; none where an object is no AID, or has more than an AID can have.
fn aid_length<S: WordStore>(image: &Image<'_, S>, object: PlacedObject) -> Option<u16>
    requires object { IsObjectIn image.now.words object }
    requires cells { length (cells_in image.now.words object) ≡ object.facts.length }
    ensures length { result ≡ aid_length image.now.legend object.facts
        (cells_in image.now.words object) }
    ensures cells { IfSome result (λ long. (long ≤ 16)
        × (length (cells_in image.now.words object) ≡ 9)) }
{
    if !is_aid(image.legend(), object.facts) {
        return None;
    }
    let long = image.cell(object, 0);
    if long > MOST_AID {
        return None;
    }
    Some(long)
}

// Whether an object is an AID.
fn is_aid(legend: &Legend, facts: Facts) -> bool
    ensures aid { result ≡ is_aid legend.now facts }
    ensures cells { result ≡ true → facts.length ≡ 9 }
{
    matches!(facts.kind, Kind::Instance)
        && facts.length == AID_CELLS
        && facts.class() == legend.platform.class_word(PlatformClass::Aid)
}

// Writes the bytes of an AID, two of which stand in each cell after the first.
fn push_aid<S: WordStore>(
    text: &mut Vec<u8>,
    image: &Image<'_, S>,
    object: PlacedObject,
    long: u16,
) -> Result<(), AllocError>
    requires object { IsObjectIn image.now.words object }
    requires cells { length (cells_in image.now.words object) ≡ 9 }
    requires long { long ≤ 16 }
    ensures { OnOk result (text.new.items ≡ text.old.items
        ++ aid_text (cells_in image.now.words object) long) }
{
    text.extend_from_slice(b": ")?;
    for i in 0..long {
        push_byte(text, image.cell(object, 1 + i / 2), i)?;
    }
    Ok(())
}

// Writes the byte of an index, of the two in its word.
fn push_byte(text: &mut Vec<u8>, word: u16, i: u16) -> Result<(), AllocError>
    ensures { OnOk result (text.new.items ≡ text.old.items ++ byte_text word i) }
{
    if i % 2 == 0 {
        return push_hex(text, &[(word / 256) as u8]);
    }
    push_hex(text, &[(word % 256) as u8])
}

// Writes the cells of an object one after another.
fn push_cells<S: WordStore>(
    text: &mut Vec<u8>,
    image: &Image<'_, S>,
    object: PlacedObject,
) -> Result<(), AllocError>
    requires object { IsObjectIn image.now.words object }
    requires cells { length (cells_in image.now.words object) ≡ object.facts.length }
    ensures { OnOk result (text.new.items ≡ text.old.items
        ++ cells_text image.now.legend object.facts (cells_in image.now.words object)) }
{
    let legend = image.legend();
    text.extend_from_slice(b":")?;
    for i in 0..object.facts.length {
        push_cell(text, legend, object.facts, i, image.cell(object, i))?;
    }
    Ok(())
}

// Writes the fields of an OwnerPIN.
fn push_pin<S: WordStore>(
    text: &mut Vec<u8>,
    image: &Image<'_, S>,
    object: PlacedObject,
) -> Result<(), AllocError>
    requires object { IsObjectIn image.now.words object }
    requires cells { length (cells_in image.now.words object) ≡ 5 }
    ensures { OnOk result (text.new.items ≡ text.old.items
        ++ pin_text (cells_in image.now.words object)) }
{
    push_labelled(text, b": tries ", image.cell(object, 2), b" of ")?;
    push_labelled(text, b"", image.cell(object, 0), b", length ")?;
    push_labelled(text, b"", image.cell(object, 3), b" of ")?;
    push_labelled(text, b"", image.cell(object, 1), b", value ")?;
    push_reference(text, image.cell(object, 4))
}

// Writes the fields of an engine. Its state is transient, so in an image it holds nothing.
fn push_engine<S: WordStore>(
    text: &mut Vec<u8>,
    image: &Image<'_, S>,
    object: PlacedObject,
) -> Result<(), AllocError>
    requires object { IsObjectIn image.now.words object }
    requires cells { length (cells_in image.now.words object) ≡ 2 }
    ensures { OnOk result (text.new.items ≡ text.old.items
        ++ engine_text (cells_in image.now.words object)) }
{
    push_labelled(
        text,
        b": algorithm ",
        image.cell(object, 0),
        b", holds nothing, state ",
    )?;
    push_reference(text, image.cell(object, 1))
}

// Writes the fields of an engine with a key. Its state is transient, so in an image it holds nothing.
fn push_keyed_engine<S: WordStore>(
    text: &mut Vec<u8>,
    image: &Image<'_, S>,
    object: PlacedObject,
) -> Result<(), AllocError>
    requires object { IsObjectIn image.now.words object }
    requires cells { length (cells_in image.now.words object) ≡ 12 }
    ensures { OnOk result (text.new.items ≡ text.old.items
        ++ keyed_engine_text (cells_in image.now.words object)) }
{
    let algorithm = image.cell(object, 0);
    push_labelled(text, b": algorithm ", algorithm, b", key ")?;
    push_reference(text, image.cell(object, 2))?;
    let mode = image.cell(object, 3);
    push_labelled(text, b", mode ", mode, b", holds nothing, state ")?;
    push_reference(text, image.cell(object, 1))
}

// Writes a cell of an object.
fn push_cell(
    text: &mut Vec<u8>,
    legend: &Legend,
    facts: Facts,
    i: u16,
    cell: u16,
) -> Result<(), AllocError>
    ensures { OnOk result (text.new.items ≡ text.old.items ++ cell_text legend.now facts i cell) }
{
    text.extend_from_slice(b" ")?;
    push_value(text, legend, facts, i, cell)
}

/// Writes what stands in the cell with a number of an object.
pub(crate) fn push_value(
    text: &mut Vec<u8>,
    legend: &Legend,
    facts: Facts,
    i: u16,
    cell: u16,
) -> Result<(), AllocError>
    ensures { OnOk result (text.new.items ≡ text.old.items ++ value_text legend.now facts i cell) }
{
    match facts.kind {
        Kind::BooleanArray | Kind::ByteArray => push_hex(text, &[(cell % 256) as u8]),
        Kind::ReferenceArray => push_reference(text, cell),
        Kind::ShortArray => push_short(text, cell),
        Kind::Instance => push_field(text, legend.holds_reference(facts.class(), i), cell),
    }
}

// Writes what stands in a field: a reference or a short.
fn push_field(text: &mut Vec<u8>, is_reference: bool, cell: u16) -> Result<(), AllocError>
    ensures { OnOk result (text.new.items ≡ text.old.items ++ field_text is_reference cell) }
{
    if is_reference {
        return push_reference(text, cell);
    }
    push_short(text, cell)
}
