//! Reads that are carried out at once, since no rule refuses them and nothing is thrown: of fields of own persistent objects, and of elements of
//! own arrays and of the runtime environment's. What is not read so is read in the usual way, with the same answer.
ghost use Rattle.std.specs.Prelude.{◌≡◌, false, true, Ok, IfSome};
ghost use Rattle.jc_heap.specs.Heap.{IsObject, facts};
ghost use Rattle.jc_linker.specs.Values.{Packages};
ghost use Rattle.jc_world.specs.Objects.{object_at};
ghost use Rattle.jc_world.specs.Values.{value_at};
ghost use Rattle.jc_instructions.specs.Fields.{field_cell, getfield, getfield_this};
ghost use Rattle.jc_instructions.specs.ArrayAccess.{array_load};
ghost use Rattle.jc_instructions.specs.AtOnce.{IsDoneAtOnce, IsReadOfField, IsReadOfElement};

use crate::array_elements::with_index;
use crate::field_names::{FieldOfClass, field_named};
use crate::known_values::known_value;
use crate::open_cells::{open_array, own_header};
use jc_frames::instr::ValueType;
use jc_frames::{Cell, Frames};
use jc_linker::linked::Linked;
use jc_memory::Memory;
use jc_transient::Ref;
use jc_words::WordStore;

/// A reference names an object that is known at once. Its header is read after this, so that what is not asked of it is not decoded.
#[inline(always)]
#[tactic(auto, unfolding(jc_world::specs::Objects::object_at))]
pub(crate) fn names_object<S: WordStore>(reference: Ref, memory: &Memory<S>) -> bool
    requires up { memory.now.heap.down ≡ false }
    ensures { result ≡ true → IsObject memory.now.heap.now reference
        × (object_at memory.now reference ≡ Ok (facts memory.now.heap.now reference)) }
{
    !reference.is_null() && memory.knows(reference)
}

// The value of a field in the object that a reference names, as it comes on the stack, where `own_header` finds its header.
#[inline(always)]
fn own_field_value<S: WordStore>(
    of_type: ValueType,
    field: FieldOfClass,
    reference: Ref,
    memory: &Memory<S>,
) -> Option<Cell>
    requires up { memory.now.heap.down ≡ false }
    ensures cell { IfSome result (λ value. (p : Packages)
        → field_cell field p memory.now reference ≡ Ok field.cell) }
    ensures value { IfSome result (λ value. value
        ≡ value_at of_type memory.now reference field.cell) }
{
    let cell = field.cell;
    let header = own_header(&field, reference, memory)?;
    Some(known_value(of_type, header, memory, reference, cell as u16))
}

// The same of the field that an entry of the pool of the package that runs names.
#[inline(always)]
#[tactic(auto, unfolding(crate::specs::Fields::field_read))]
fn named_field_value<S: WordStore>(
    of_type: ValueType,
    index: u16,
    reference: Ref,
    frames: &Frames,
    memory: &Memory<S>,
    linked: &Linked,
) -> Option<Cell>
    requires up { memory.now.heap.down ≡ false }
    ensures { IfSome result (IsReadOfField of_type index reference
        frames.now.current.origin.package_number linked.now memory.now) }
{
    let field = field_named(of_type, linked, frames.origin().package_number, index)?;
    own_field_value(of_type, field, reference, memory)
}

// Carries out `getfield` of a field of this type, if its object is such a one; says whether it did.
#[inline(always)]
#[tactic(auto, unfolding(crate::specs::Fields::getfield), using(crate::proofs::TopCells::reference_on_top, crate::proofs::TopCells::one_cell))]
fn getfield_of<S: WordStore>(
    of_type: ValueType,
    index: u16,
    frames: &mut Frames,
    memory: &Memory<S>,
    linked: &Linked,
) -> bool
    requires up { memory.now.heap.down ≡ false }
    ensures { IsDoneAtOnce result (getfield of_type index linked.now frames.old memory.now)
        frames.old frames.new }
{
    let Some(top) = frames.peek(0) else {
        return false;
    };
    let Cell::Reference(reference) = top else {
        return false;
    };
    let Some(value) = named_field_value(of_type, index, reference, frames, memory, linked) else {
        return false;
    };
    let _ = frames.room(); // so that the proof knows how high the stack may be
    frames.discard(1);
    frames.push(value);
    true
}

/// Carries out `getfield` of a field of this type, or does nothing; says whether it did. It is meant for persistent objects of the very class of the
/// field that belong to the owner for whom code runs; no answer depends on that. Each type is an arm of its own, so that it is asked once.
#[inline(always)]
pub fn getfield_at_once<S: WordStore>(
    of_type: ValueType,
    index: u16,
    frames: &mut Frames,
    memory: &Memory<S>,
    linked: &Linked,
) -> bool
    requires up { memory.now.heap.down ≡ false }
    ensures { IsDoneAtOnce result (getfield of_type index linked.now frames.old memory.now)
        frames.old frames.new }
{
    match of_type {
        ValueType::Reference => getfield_of(ValueType::Reference, index, frames, memory, linked),
        ValueType::Byte => getfield_of(ValueType::Byte, index, frames, memory, linked),
        ValueType::Short => getfield_of(ValueType::Short, index, frames, memory, linked),
    }
}

// Carries out `getfield_this` of a field of this type, if its object is such a one; says whether it did.
#[inline(always)]
#[tactic(auto, unfolding(crate::specs::Fields::getfield_this))]
fn getfield_this_of<S: WordStore>(
    of_type: ValueType,
    index: u16,
    frames: &mut Frames,
    memory: &Memory<S>,
    linked: &Linked,
) -> bool
    requires up { memory.now.heap.down ≡ false }
    ensures { IsDoneAtOnce result (getfield_this of_type index linked.now frames.old memory.now)
        frames.old frames.new }
{
    if !frames.has_room() {
        return false;
    }
    let Some(this) = frames.local(0) else {
        return false;
    };
    let Cell::Reference(reference) = this else {
        return false;
    };
    let Some(value) = named_field_value(of_type, index, reference, frames, memory, linked) else {
        return false;
    };
    frames.push(value);
    true
}

/// The same of `getfield_this`.
#[inline(always)]
pub fn getfield_this_at_once<S: WordStore>(
    of_type: ValueType,
    index: u16,
    frames: &mut Frames,
    memory: &Memory<S>,
    linked: &Linked,
) -> bool
    requires up { memory.now.heap.down ≡ false }
    ensures { IsDoneAtOnce result (getfield_this of_type index linked.now frames.old memory.now)
        frames.old frames.new }
{
    match of_type {
        ValueType::Reference => {
            getfield_this_of(ValueType::Reference, index, frames, memory, linked)
        }
        ValueType::Byte => getfield_this_of(ValueType::Byte, index, frames, memory, linked),
        ValueType::Short => getfield_this_of(ValueType::Short, index, frames, memory, linked),
    }
}

// The element with an index of the array that a reference names, as it comes on the stack, where the array belongs to the owner for whom code runs, or is
// one of the runtime environment's.
#[inline(always)]
#[tactic(auto, unfolding(crate::specs::ArrayAccess::element_read, crate::specs::ArrayElements::element_at, crate::specs::ArrayElements::array_at))]
fn known_element<S: WordStore>(
    of_type: ValueType,
    reference: Ref,
    index: i16,
    memory: &Memory<S>,
) -> Option<Cell>
    requires up { memory.now.heap.down ≡ false }
    ensures { IfSome result (λ value. (p : Packages)
        → IsReadOfElement of_type reference index p memory.now value) }
{
    let header = open_array(of_type, reference, memory)?;
    let element = with_index(header, index).ok()?;
    Some(known_value(of_type, header, memory, reference, element.index))
}

// Carries out an instruction that reads an element of this type, if the array is one of these; says whether it did.
#[inline(always)]
#[tactic(auto, unfolding(crate::specs::ArrayAccess::array_load), using(crate::proofs::TopCells::short_on_top, crate::proofs::TopCells::reference_below, crate::proofs::TopCells::two_cells))]
fn array_load_of<S: WordStore>(of_type: ValueType, frames: &mut Frames, memory: &Memory<S>) -> bool
    requires up { memory.now.heap.down ≡ false }
    ensures { (p : Packages) → IsDoneAtOnce result (array_load of_type p frames.old memory.now)
        frames.old frames.new }
{
    let Some(top) = frames.peek(0) else {
        return false;
    };
    let Cell::Short(index) = top else {
        return false;
    };
    let Some(below) = frames.peek(1) else {
        return false;
    };
    let Cell::Reference(reference) = below else {
        return false;
    };
    let Some(value) = known_element(of_type, reference, index, memory) else {
        return false;
    };
    let _ = frames.room(); // so that the proof knows how high the stack may be
    frames.discard(2);
    frames.push(value);
    true
}

/// Carries out `aaload`, `baload` or `saload`, or does nothing; says whether it did. It is meant for arrays that belong to the owner for whom code runs
/// or to the runtime environment; no answer depends on that. Each type of elements is an arm of its own, so that it is asked once.
#[inline(always)]
pub fn array_load_at_once<S: WordStore>(
    of_type: ValueType,
    frames: &mut Frames,
    memory: &Memory<S>,
) -> bool
    requires up { memory.now.heap.down ≡ false }
    ensures { (p : Packages) → IsDoneAtOnce result (array_load of_type p frames.old memory.now)
        frames.old frames.new }
{
    match of_type {
        ValueType::Reference => array_load_of(ValueType::Reference, frames, memory),
        ValueType::Byte => array_load_of(ValueType::Byte, frames, memory),
        ValueType::Short => array_load_of(ValueType::Short, frames, memory),
    }
}
