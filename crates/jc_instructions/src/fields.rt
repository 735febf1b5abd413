//! Fields of objects: `getfield`, `putfield` and their other forms.
ghost use Rattle.std.specs.Prelude.{◌≡◌, ◌<◌, false, length, IfOk, MatchResult, Ok, Err};
ghost use Rattle.jc_heap.specs.declared.object.Kind.TheVariants.{Instance};
ghost use Rattle.jc_heap.specs.Heap.{IsObject, facts};
ghost use Rattle.jc_firewall.specs.declared.access.Access.TheVariants.{InstanceField};
ghost use Rattle.jc_world.specs.Contexts.{firewall_check};
ghost use Rattle.jc_memory.specs.Cells.{IsHeaderOf};
ghost use Rattle.jc_memory.specs.Programs.{Executes};
ghost use Rattle.jc_world.specs.Instructions.{after_instruction};
ghost use Rattle.jc_instructions.specs.Fields.{field_cell, field_read, field_write, write_of_field, getfield, putfield, getfield_this, putfield_this};

use crate::field_names::{FieldOfClass, field_named};
use crate::known_values::known_value;
use crate::open_cells::{is_kept_at_once, own_header};
use jc_firewall::access::Access;
use jc_frames::instr::ValueType;
use jc_frames::{CodeFault, FrameExit, Frames, Outcome};
use jc_heap::Facts;
use jc_linker::linked::Linked;
use jc_memory::{FaultKind, Memory};
use jc_transient::{CellValue, Ref};
use jc_words::WordStore;
use jc_world::StepExit;
use jc_world::contexts::{allow, is_own};
use jc_world::objects::{is_instance_of, object};
use jc_world::values::{keepable, pop_value};

// Whether a field of an object may be reached; a refused access throws. It reads the header again, so that nobody has to keep it for it.
#[inline(never)]
fn allow_field<S: WordStore>(
    reference: Ref,
    memory: &Memory<S>,
    linked: &Linked,
) -> Result<(), FrameExit>
    requires up { memory.now.heap.down ≡ false }
    requires there { IsObject memory.now.heap.now reference }
    ensures { result ≡ firewall_check InstanceField linked.now memory.now
        (facts memory.now.heap.now reference) }
{
    allow(
        Access::InstanceField,
        memory.facts(reference),
        memory,
        linked,
    )
}

// A cell of a field.
#[derive(Clone, Copy)]
struct FieldCell {
    // The header of its object.
    header: Facts,
    // Its index.
    index: u16,
}

// The cell of a field in the object that a reference names, as the code that runs may reach it.
#[inline(always)]
#[tactic(auto, unfolding(crate::specs::Fields::field_cell))]
fn field_cell<S: WordStore>(
    field: FieldOfClass,
    reference: Ref,
    memory: &Memory<S>,
    linked: &Linked,
) -> Result<FieldCell, FrameExit>
    requires { memory.now.heap.down ≡ false }
    ensures exact { MatchResult result
        (λ cell. field_cell field linked.now memory.now reference ≡ Ok cell.index)
        (λ stop. field_cell field linked.now memory.now reference ≡ Err stop) }
    ensures there { IfOk result (λ cell. IsObject memory.now.heap.now reference
        × IsHeaderOf memory.now reference cell.header × (cell.index < cell.header.length)
        × (cell.header.kind ≡ Instance)) }
{
    let facts = object(reference, memory)?;
    let here = is_instance_of(facts, field.class, linked);
    if !here || field.cell >= u32::from(facts.length) {
        memory.notes().fault(FaultKind::WrongClass);
        return Err(FrameExit::End(Outcome::Fault));
    }
    if !is_own(facts, memory) {
        allow_field(reference, memory, linked)?;
    }
    Ok(FieldCell {
        header: facts,
        index: field.cell as u16,
    })
}

// The field of this object comes on the stack.
#[inline(always)]
#[tactic(auto, unfolding(crate::specs::Fields::field_read))]
fn field_read<S: WordStore>(
    of_type: ValueType,
    index: u16,
    reference: Ref,
    frames: &mut Frames,
    memory: &Memory<S>,
    linked: &Linked,
) -> Result<(), StepExit>
    requires up { memory.now.heap.down ≡ false }
    requires room { length frames.old.current.stack < frames.old.current.limit }
    ensures { Executes (field_read of_type index reference linked.now frames.old memory.now)
        memory.now (after_instruction result frames.new memory.now) }
{
    let package_number = frames.origin().package_number;
    let field = field_named(of_type, linked, package_number, index).ok_or(CodeFault)?;
    let cell = field_cell(field, reference, memory, linked)?;
    frames.push(known_value(of_type, cell.header, memory, reference, cell.index));
    Ok(())
}

// The field of this object is set, as the rules on it say.
#[inline(never)]
#[tactic(auto, unfolding(crate::specs::Fields::field_write))]
fn field_write_by_rules<S: WordStore>(
    field: FieldOfClass,
    reference: Ref,
    value: CellValue,
    frames: &Frames,
    memory: &mut Memory<S>,
    linked: &Linked,
) -> Result<(), StepExit>
    requires up { memory.old.heap.down ≡ false }
    ensures { Executes (write_of_field field reference value linked.now frames.now memory.old)
        memory.old (after_instruction result frames.now memory.new) }
{
    let cell = field_cell(field, reference, memory, linked)?;
    let value = keepable(value, memory, linked)?;
    memory.set_known(reference, cell.header, cell.index, value)?;
    Ok(())
}

// The field of this object is set. Where no rule refuses it, none is asked.
#[inline(always)]
#[tactic(auto, unfolding(crate::specs::Fields::field_write))]
fn field_write<S: WordStore>(
    of_type: ValueType,
    index: u16,
    reference: Ref,
    value: CellValue,
    frames: &Frames,
    memory: &mut Memory<S>,
    linked: &Linked,
) -> Result<(), StepExit>
    requires up { memory.old.heap.down ≡ false }
    ensures { Executes (field_write of_type index reference value linked.now frames.now memory.old)
        memory.old (after_instruction result frames.now memory.new) }
{
    let package_number = frames.origin().package_number;
    let field = field_named(of_type, linked, package_number, index).ok_or(CodeFault)?;
    let cell = field.cell;
    if is_kept_at_once(&value, memory) {
        if let Some(header) = own_header(&field, reference, memory) {
            memory.set_known(reference, header, cell as u16, value)?;
            return Ok(());
        }
    }
    field_write_by_rules(field, reference, value, frames, memory, linked)
}

/// `getfield_a`, `getfield_b`, `getfield_s`, `getfield_a_w`, `getfield_b_w`, `getfield_s_w`: pushes a field of
/// the object on the stack.
#[inline(always)]
#[tactic(auto, unfolding(crate::specs::Fields::getfield))]
pub(crate) fn getfield<S: WordStore>(
    of_type: ValueType,
    index: u16,
    frames: &mut Frames,
    memory: &Memory<S>,
    linked: &Linked,
) -> Result<(), StepExit>
    requires up { memory.now.heap.down ≡ false }
    ensures { Executes (getfield of_type index linked.now frames.old memory.now) memory.now
        (after_instruction result frames.new memory.now) }
{
    let reference = frames.pop_reference()?;
    field_read(of_type, index, reference, frames, memory, linked)
}

// `putfield` of a field of this type.
#[inline(always)]
#[tactic(auto, unfolding(crate::specs::Fields::putfield))]
fn putfield_of<S: WordStore>(
    of_type: ValueType,
    index: u16,
    frames: &mut Frames,
    memory: &mut Memory<S>,
    linked: &Linked,
) -> Result<(), StepExit>
    requires up { memory.old.heap.down ≡ false }
    ensures { Executes (putfield of_type index linked.now frames.old memory.old) memory.old
        (after_instruction result frames.new memory.new) }
{
    let value = pop_value(of_type, frames)?;
    let reference = frames.pop_reference()?;
    field_write(of_type, index, reference, value, frames, memory, linked)
}

/// `putfield_a`, `putfield_b`, `putfield_s`, `putfield_a_w`, `putfield_b_w`, `putfield_s_w`: pops a value into
/// a field of the object on the stack. Each type is an arm of its own, so that it is asked once.
#[inline(always)]
pub(crate) fn putfield<S: WordStore>(
    of_type: ValueType,
    index: u16,
    frames: &mut Frames,
    memory: &mut Memory<S>,
    linked: &Linked,
) -> Result<(), StepExit>
    requires up { memory.old.heap.down ≡ false }
    ensures { Executes (putfield of_type index linked.now frames.old memory.old) memory.old
        (after_instruction result frames.new memory.new) }
{
    match of_type {
        ValueType::Reference => putfield_of(ValueType::Reference, index, frames, memory, linked),
        ValueType::Byte => putfield_of(ValueType::Byte, index, frames, memory, linked),
        ValueType::Short => putfield_of(ValueType::Short, index, frames, memory, linked),
    }
}

/// `getfield_a_this`, `getfield_b_this`, `getfield_s_this`: pushes a field of the object whose method runs,
/// which is in local 0.
#[inline(always)]
#[tactic(auto, unfolding(crate::specs::Fields::getfield_this))]
pub(crate) fn getfield_this<S: WordStore>(
    of_type: ValueType,
    index: u16,
    frames: &mut Frames,
    memory: &Memory<S>,
    linked: &Linked,
) -> Result<(), StepExit>
    requires up { memory.now.heap.down ≡ false }
    ensures { Executes (getfield_this of_type index linked.now frames.old memory.now) memory.now
        (after_instruction result frames.new memory.now) }
{
    if !frames.has_room() {
        return Err(StepExit::from(CodeFault));
    }
    let reference = frames.local_reference(0)?;
    field_read(of_type, index, reference, frames, memory, linked)
}

/// `putfield_a_this`, `putfield_b_this`, `putfield_s_this`: pops a value into a field of the object whose
/// method runs, which is in local 0.
#[inline(always)]
#[tactic(auto, unfolding(crate::specs::Fields::putfield_this))]
pub(crate) fn putfield_this<S: WordStore>(
    of_type: ValueType,
    index: u16,
    frames: &mut Frames,
    memory: &mut Memory<S>,
    linked: &Linked,
) -> Result<(), StepExit>
    requires up { memory.old.heap.down ≡ false }
    ensures { Executes (putfield_this of_type index linked.now frames.old memory.old) memory.old
        (after_instruction result frames.new memory.new) }
{
    let value = pop_value(of_type, frames)?;
    let reference = frames.local_reference(0)?;
    field_write(of_type, index, reference, value, frames, memory, linked)
}
