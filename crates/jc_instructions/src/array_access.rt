//! Reading and writing elements, and counting them.
ghost use Rattle.std.specs.Prelude.{◌≡◌, ◌<◌, false, length};
ghost use Rattle.jc_memory.specs.Programs.{Executes};
ghost use Rattle.jc_world.specs.Instructions.{after_instruction};
ghost use Rattle.jc_world.specs.Values.{IsValueOf};
ghost use Rattle.jc_instructions.specs.ArrayAccess.{element_read, element_write, array_load, array_store, arraylength};

use crate::array_elements::{array, element_value, with_index};
use crate::known_values::known_value;
use crate::open_cells::{is_number, open_array};
use jc_frames::instr::ValueType;
use jc_frames::{Cell, Frames};
use jc_linker::linked::Linked;
use jc_memory::Memory;
use jc_transient::{CellValue, Ref};
use jc_words::WordStore;
use jc_world::StepExit;
use jc_world::values::{keepable, pop_value};

// The element with this index of this array comes on the stack.
#[inline(always)]
#[tactic(auto, unfolding(crate::specs::ArrayAccess::element_read, crate::specs::ArrayElements::element_at))]
fn element_read<S: WordStore>(
    of_type: ValueType,
    reference: Ref,
    index: i16,
    frames: &mut Frames,
    memory: &Memory<S>,
    linked: &Linked,
) -> Result<(), StepExit>
    requires up { memory.now.heap.down ≡ false }
    requires room { length frames.old.current.stack < frames.old.current.limit }
    ensures { Executes (element_read of_type reference index linked.now frames.old memory.now)
        memory.now (after_instruction result frames.new memory.now) }
{
    let header = array(Some(of_type), reference, memory, linked)?;
    let element = with_index(header, index)?;
    frames.push(known_value(of_type, header, memory, reference, element.index));
    Ok(())
}

// Sets an element: the firewall is asked for the array and for what is stored, then the index and the value's
// type are tested.
#[inline(never)]
#[tactic(auto, unfolding(crate::specs::ArrayAccess::element_write))]
fn element_write_by_rules<S: WordStore>(
    of_type: ValueType,
    reference: Ref,
    index: i16,
    value: CellValue,
    frames: &Frames,
    memory: &mut Memory<S>,
    linked: &Linked,
) -> Result<(), StepExit>
    requires up { memory.old.heap.down ≡ false }
    requires value { IsValueOf of_type value }
    ensures { Executes (element_write of_type reference index value linked.now frames.now
        memory.old) memory.old (after_instruction result frames.now memory.new) }
{
    let facts = array(Some(of_type), reference, memory, linked)?;
    let value = keepable(value, memory, linked)?;
    let element = with_index(facts, index)?;
    let value = element_value(element.class, value, memory, linked)?;
    memory.set_known(reference, facts, element.index, value)?;
    Ok(())
}

// The same. Where a number is stored and no rule refuses it, none is asked.
#[inline(always)]
#[tactic(auto, unfolding(crate::specs::ArrayAccess::element_write))]
fn element_write<S: WordStore>(
    of_type: ValueType,
    reference: Ref,
    index: i16,
    value: CellValue,
    frames: &Frames,
    memory: &mut Memory<S>,
    linked: &Linked,
) -> Result<(), StepExit>
    requires up { memory.old.heap.down ≡ false }
    requires value { IsValueOf of_type value }
    ensures { Executes (element_write of_type reference index value linked.now frames.now
        memory.old) memory.old (after_instruction result frames.now memory.new) }
{
    if is_number(&value) {
        if let Some(header) = open_array(of_type, reference, memory) {
            if let Ok(element) = with_index(header, index) {
                memory.set_known(reference, header, element.index, value)?;
                return Ok(());
            }
        }
    }
    element_write_by_rules(of_type, reference, index, value, frames, memory, linked)
}

/// `aaload`, `baload`, `saload`: pushes the element with the index on top, of the array below it. Throws where the array is null, where the firewall
/// refuses the access, and where the index lies outside; a code fault where the stack's cells have other kinds, and where the object is no such array.
#[inline(always)]
#[tactic(auto, unfolding(crate::specs::ArrayAccess::array_load))]
pub fn array_load<S: WordStore>(
    of_type: ValueType,
    frames: &mut Frames,
    memory: &Memory<S>,
    linked: &Linked,
) -> Result<(), StepExit>
    requires { memory.now.heap.down ≡ false }
    ensures { Executes (array_load of_type linked.now frames.old memory.now) memory.now
        (after_instruction result frames.new memory.now) }
{
    let index = frames.pop_short()?;
    let reference = frames.pop_reference()?;
    element_read(of_type, reference, index, frames, memory, linked)
}

// `aastore`, `bastore` or `sastore`, by the type of elements.
#[inline(always)]
#[tactic(auto, unfolding(crate::specs::ArrayAccess::array_store))]
fn array_store_of<S: WordStore>(
    of_type: ValueType,
    frames: &mut Frames,
    memory: &mut Memory<S>,
    linked: &Linked,
) -> Result<(), StepExit>
    requires { memory.old.heap.down ≡ false }
    ensures { Executes (array_store of_type linked.now frames.old memory.old) memory.old
        (after_instruction result frames.new memory.new) }
{
    let value = pop_value(of_type, frames)?;
    let index = frames.pop_short()?;
    let reference = frames.pop_reference()?;
    element_write(of_type, reference, index, value, frames, memory, linked)
}

/// `aastore`, `bastore`, `sastore`: pops a value into an element. It throws and faults as `array_load`; it also throws where the firewall refuses the
/// reference that is to be stored, where the object that is to be stored has another type, and where there is no room.
/// Each type of elements is an arm of its own, so that it is asked once.
#[inline(always)]
pub fn array_store<S: WordStore>(
    of_type: ValueType,
    frames: &mut Frames,
    memory: &mut Memory<S>,
    linked: &Linked,
) -> Result<(), StepExit>
    requires { memory.old.heap.down ≡ false }
    ensures { Executes (array_store of_type linked.now frames.old memory.old) memory.old
        (after_instruction result frames.new memory.new) }
{
    match of_type {
        ValueType::Reference => array_store_of(ValueType::Reference, frames, memory, linked),
        ValueType::Byte => array_store_of(ValueType::Byte, frames, memory, linked),
        ValueType::Short => array_store_of(ValueType::Short, frames, memory, linked),
    }
}

/// `arraylength`: pushes the number of elements of the array on top. Throws where it is null, and where the firewall refuses the access; a code fault
/// where the top cell is no reference, and where the object is no array.
#[inline(always)]
#[tactic(auto, unfolding(crate::specs::ArrayAccess::arraylength))]
pub fn arraylength<S: WordStore>(
    frames: &mut Frames,
    memory: &Memory<S>,
    linked: &Linked,
) -> Result<(), StepExit>
    requires { memory.now.heap.down ≡ false }
    ensures { Executes (arraylength linked.now frames.old memory.now) memory.now
        (after_instruction result frames.new memory.now) }
{
    let reference = frames.pop_reference()?;
    let facts = array(None, reference, memory, linked)?;
    frames.push(Cell::Short(facts.length.cast_signed()));
    Ok(())
}
