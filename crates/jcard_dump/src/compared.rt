//! The objects of two images, compared.
ghost use Rattle.std.specs.Prelude.{◌≡◌, ◌++◌, Some, None, IfOk, OnOk};
ghost use Rattle.jc_heap.specs.Object.{event_number, kind_number};
ghost use Rattle.jc_objects.specs.Places.{IsPlaceFor, IsStanding};
ghost use Rattle.jc_objects.specs.Records.{IsRecord, item_at};
ghost use Rattle.jcard_dump.specs.Compared.{alone_text, beside_text, change_line, change_text, changes_text, compared_lines, compared_text, heap_lines, is_same, kept_text, values_text};
ghost use Rattle.jcard_dump.specs.Fault.{Lists};
ghost use Rattle.jcard_dump.specs.Image.{IsObjectIn};
ghost use Rattle.jcard_dump.specs.Pairs.{lines_of};

use crate::fault::ListFault;
use crate::image::{Image, PlacedObject};
use crate::listing::Listing;
use crate::objects::{push_object, push_value};
use crate::pairs::{Side, listing_by, push_end};
use crate::texts::push_labelled;
use jc_heap::{Facts, Kind};
use jc_objects::places::Standing;
use jc_transient::ClearEvent;
use jc_words::WordStore;
use std::alloc::{AllocError, Global};

/// An image whose objects are compared with those of another one.
#[derive(Drop)]
struct Comparison<'a, S: WordStore> {
    /// Which of the two the image is.
    side: Side,
    image: &'a Image<'a, S>,
    other: &'a Image<'a, S>,
}

/// What stands in a cell of an object in the image and in the other one.
#[derive(Clone, Copy, Drop)]
struct Change {
    cell: u16,
    one: u16,
    other: u16,
}

/// Writes the cells that are not the same, and the objects that one image alone has, up to where one cannot be read.
pub(crate) fn push_heaps<S: WordStore>(
    text: &mut Vec<u8>,
    one: &Image<'_, S>,
    other: &Image<'_, S>,
) -> Result<(), ListFault>
    ensures { Lists text.old.items text.new.items (heap_lines one.now other.now) result }
{
    let first = Comparison {
        side: Side::One,
        image: one,
        other,
    };
    let second = Comparison {
        side: Side::Other,
        image: other,
        other: one,
    };
    let first = first.listing(*text.allocator())?;
    let second = second.listing(*text.allocator())?;
    push_texts(text, &first.text, &second.text)?;
    push_end(text, first.readable, second.readable)
}

// Writes two texts.
fn push_texts(text: &mut Vec<u8>, first: &[u8], second: &[u8]) -> Result<(), AllocError>
    ensures { OnOk result (text.new.items ≡ text.old.items ++ (first.now ++ second.now)) }
{
    text.extend_from_slice(first)?;
    text.extend_from_slice(second)
}

impl<S: WordStore> Comparison<'_, S> {
    // Lists what is reported of the image.
    fn listing(&self, alloc: Global) -> Result<Listing, AllocError>
        ensures { IfOk result (λ found. lines_of found
            ≡ compared_lines self.now.side self.now.image.now self.now.other.now) }
    {
        let mut text = Vec::new(alloc);
        let told = self.push_all(&mut text);
        listing_by(text, told)
    }

    // Writes it, up to the first record that lacks words.
    fn push_all(&self, text: &mut Vec<u8>) -> Result<(), ListFault>
        ensures { Lists text.old.items text.new.items
            (compared_lines self.now.side self.now.image.now self.now.other.now) result }
    {
        let top = self.image.top();
        let mut place = self.other.first_place();
        let mut at = self.image.first_record();
        while at < top {
            let Some(size) = self.image.record_size(at) else {
                return Err(ListFault::Unreadable);
            };
            self.push_item(text, &mut place, at)?;
            at += size;
        }
        Ok(())
    }

    // Writes what is reported of what stands at an address. The place is where the walk of the other image goes on.
    fn push_item(&self, text: &mut Vec<u8>, place: &mut u16, at: u16) -> Result<(), AllocError>
        requires record { IsRecord self.now.image.now.words at }
        requires place { IsPlaceFor self.now.other.now.words place.old at }
        ensures told { OnOk result (text.new.items ≡ text.old.items
            ++ compared_text self.now.side self.now.image.now self.now.other.now
            (at, item_at self.now.image.now.words at)) }
        ensures place { IsPlaceFor self.now.other.now.words place.new at }
    {
        match self.image.object_at(at) {
            Some(object) if self.image.is_listed(object) => {
                self.push_beside(text, object, self.other.standing_from(place, at))
            }
            _ => Ok(()),
        }
    }

    // Writes what is reported of an object, beside what begins at its address in the other image.
    fn push_beside(
        &self,
        text: &mut Vec<u8>,
        object: PlacedObject,
        standing: Standing,
    ) -> Result<(), AllocError>
        requires object { IsObjectIn self.now.image.now.words object }
        requires standing { IsStanding self.now.other.now.words object.at standing }
        ensures { OnOk result (text.new.items ≡ text.old.items
            ++ beside_text self.now.side self.now.image.now self.now.other.now object standing) }
    {
        match standing {
            Standing::Object(found) if is_same(object.facts, found) => {
                self.push_kept(text, object, found)
            }
            Standing::Unread => Ok(()),
            _ => self.push_alone(text, object),
        }
    }

    // Writes an object that one image alone has.
    fn push_alone(&self, text: &mut Vec<u8>, object: PlacedObject) -> Result<(), AllocError>
        requires { IsObjectIn self.now.image.now.words object }
        ensures { OnOk result (text.new.items ≡ text.old.items
            ++ alone_text self.now.side self.now.image.now object) }
    {
        text.extend_from_slice(self.side.sign())?;
        push_object(text, self.image, object)
    }

    // Writes the cells that are not the same of an object that both images have, for the first of them.
    fn push_kept(
        &self,
        text: &mut Vec<u8>,
        object: PlacedObject,
        found: Facts,
    ) -> Result<(), AllocError>
        requires object { IsObjectIn self.now.image.now.words object }
        requires found { IsStanding self.now.other.now.words object.at (Standing.Object found) }
        requires length { object.facts.length ≡ found.length }
        ensures { OnOk result (text.new.items ≡ text.old.items
            ++ kept_text self.now.side self.now.image.now self.now.other.now object found) }
    {
        match self.side {
            Side::One if object.facts.event.is_none() && found.event.is_none() => {
                self.push_changes(text, object, found)
            }
            _ => Ok(()),
        }
    }

    // Writes those of a persistent object.
    fn push_changes(
        &self,
        text: &mut Vec<u8>,
        object: PlacedObject,
        found: Facts,
    ) -> Result<(), AllocError>
        requires object { IsObjectIn self.now.image.now.words object }
        requires found { IsStanding self.now.other.now.words object.at (Standing.Object found) }
        requires length { object.facts.length ≡ found.length }
        requires persistent { (object.facts.event ≡ None) × (found.event ≡ None) }
        ensures { OnOk result (text.new.items ≡ text.old.items
            ++ changes_text self.now.image.now self.now.other.now object None None) }
    {
        let second = PlacedObject {
            at: object.at,
            facts: found,
        };
        for cell in 0..object.facts.length {
            let change = Change {
                cell,
                one: self.image.cell(object, cell),
                other: self.other.cell(second, cell),
            };
            push_change(text, self.image, object, change)?;
        }
        Ok(())
    }
}

// Whether two headers say the same.
fn is_same(facts: Facts, found: Facts) -> bool
    ensures { result ≡ is_same facts found }
{
    facts.length == found.length
        && kind_number(facts.kind) == kind_number(found.kind)
        && event_number(facts.event) == event_number(found.event)
        && facts.class() == found.class()
        && facts.owner() == found.owner()
        && facts.place == found.place
}

// A kind as a number of the image.
fn kind_number(kind: Kind) -> u16
    ensures { result ≡ kind_number kind }
{
    match kind {
        Kind::Instance => 1,
        Kind::BooleanArray => 2,
        Kind::ByteArray => 3,
        Kind::ShortArray => 4,
        Kind::ReferenceArray => 5,
    }
}

// What clears an object, as a number of the image.
fn event_number(event: Option<ClearEvent>) -> u16
    ensures { result ≡ event_number event }
{
    match event {
        None => 0,
        Some(ClearEvent::Reset) => 1,
        Some(ClearEvent::Deselect) => 2,
    }
}

// Writes a cell, if it is not the same.
fn push_change<S: WordStore>(
    text: &mut Vec<u8>,
    image: &Image<'_, S>,
    object: PlacedObject,
    change: Change,
) -> Result<(), AllocError>
    ensures { OnOk result (text.new.items ≡ text.old.items ++ change_text image.now object change) }
{
    if change.one == change.other {
        return Ok(());
    }
    push_change_line(text, image, object, change)
}

fn push_change_line<S: WordStore>(
    text: &mut Vec<u8>,
    image: &Image<'_, S>,
    object: PlacedObject,
    change: Change,
) -> Result<(), AllocError>
    ensures { OnOk result (text.new.items ≡ text.old.items ++ change_line image.now object change) }
{
    push_labelled(text, b"@", object.at, b" ")?;
    image.push_kind(text, object)?;
    push_labelled(text, b" [", change.cell, b"] ")?;
    push_values(text, image, object, change)?;
    text.extend_from_slice(b"\n")?;
    Ok(())
}

// Writes what stands in both cells, or that it is not shown.
fn push_values<S: WordStore>(
    text: &mut Vec<u8>,
    image: &Image<'_, S>,
    object: PlacedObject,
    change: Change,
) -> Result<(), AllocError>
    ensures { OnOk result (text.new.items ≡ text.old.items ++ values_text image.now object change) }
{
    if image.is_hidden(object) {
        return text.extend_from_slice(b"not shown");
    }
    let legend = image.legend();
    push_value(text, legend, object.facts, change.cell, change.one)?;
    text.extend_from_slice(b">")?;
    push_value(text, legend, object.facts, change.cell, change.other)
}
