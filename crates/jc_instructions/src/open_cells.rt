//! Cells that code reaches at once, since no rule refuses it: fields of own persistent objects, and elements of own arrays and of the runtime
//! environment's.
ghost use Rattle.std.specs.Prelude.{ℕ, ◌≡◌, ◌<◌, false, true, Some, Ok, IfSome};
ghost use Rattle.jc_heap.specs.Heap.{IsObject};
ghost use Rattle.jc_memory.specs.Cells.{IsHeaderOf};
ghost use Rattle.jc_memory.specs.State.{MemoryState};
ghost use Rattle.jc_linker.specs.Values.{Packages};
ghost use Rattle.jc_firewall.specs.declared.access.Access.TheVariants.{ArrayElement};
ghost use Rattle.jc_firewall.specs.declared.decide.Decision.TheVariants.{Allow};
ghost use Rattle.jc_world.specs.Contexts.{firewall_decision};
ghost use Rattle.jc_world.specs.Objects.{is_instance};
ghost use Rattle.jc_world.specs.Values.{keepable};
ghost use Rattle.jc_instructions.specs.Fields.{field_cell};
ghost use Rattle.jc_instructions.specs.ArrayElements.{array_at, element_value, has_elements, Refers};
ghost use Rattle.jc_heap.specs.declared.object.Kind.TheVariants.{Instance};

use crate::array_elements::has_elements;
use crate::at_once::names_object;
use crate::field_names::FieldOfClass;
use jc_frames::instr::ValueType;
use jc_heap::Facts;
use jc_memory::Memory;
use jc_transient::{CellValue, ClearEvent, Ref};
use jc_words::WordStore;
use jc_world::contexts::is_own;

// The header of the object that a reference names, where the object is persistent, of the very class of a field, and belongs to the owner for whom
// code runs.
#[inline(always)]
#[tactic(auto, unfolding(crate::specs::Fields::field_cell), using(jc_world::proofs::Below::below_same))]
pub(crate) fn own_header<S: WordStore>(
    field: &FieldOfClass,
    reference: Ref,
    memory: &Memory<S>,
) -> Option<Facts>
    requires up { memory.now.heap.down ≡ false }
    ensures exact { IfSome result (λ header. (p : Packages)
        → field_cell field.now p memory.now reference ≡ Ok field.now.cell) }
    ensures there { IfSome result (λ header. IsObject memory.now.heap.now reference
        × IsHeaderOf memory.now reference header × (field.now.cell < header.length)
        × (header.kind ≡ Instance)) }
{
    if !names_object(reference, memory) || !memory.heap().is_persistent_instance(reference) {
        return None;
    }
    let FieldOfClass { class, cell } = *field;
    let header = memory.facts(reference);
    if header.class() != class || cell >= u32::from(header.length) {
        return None;
    }
    if !is_own(header, memory) {
        return None;
    }
    Some(header)
}

// Whether a value may be kept at once: a number, null, or an object of the owner for whom code runs.
#[inline(always)]
#[tactic(auto, unfolding(jc_world::specs::Objects::storable_of))]
pub(crate) fn is_kept_at_once<S: WordStore>(value: &CellValue, memory: &Memory<S>) -> bool
    requires up { memory.now.heap.down ≡ false }
    ensures { (p : Packages) → result ≡ true → keepable p memory.now value.now ≡ Ok value.now }
{
    match *value {
        CellValue::Short(_) => true,
        CellValue::Reference(reference) => {
            reference.is_null()
                || (memory.knows(reference) && is_own(memory.facts(reference), memory))
        }
    }
}

// An array with this header is one of the runtime environment's that no deselection clears: all reach its elements.
#[inline(always)]
#[tactic(auto, using(jc_world::proofs::Free::global_free), unfolding(jc_world::specs::Contexts::situation_of, jc_world::specs::Contexts::subject_of))]
const fn is_global(facts: Facts) -> bool
    ensures { (p : Packages) (m : MemoryState) → result ≡ true → is_instance facts.kind ≡ false
        → firewall_decision ArrayElement p m facts ≡ Allow }
{
    let is_cleared = match facts.event {
        Some(ClearEvent::Deselect) => true,
        _ => false,
    };
    facts.owner().0 == 0 && !is_cleared
}

// The header of the array that a reference names, where its elements are of this type, and it belongs to the owner for whom code runs or is one of the
// runtime environment's.
#[inline(always)]
#[tactic(auto, unfolding(crate::specs::ArrayElements::array_at))]
pub(crate) fn open_array<S: WordStore>(
    of_type: ValueType,
    reference: Ref,
    memory: &Memory<S>,
) -> Option<Facts>
    requires up { memory.now.heap.down ≡ false }
    ensures exact { IfSome result (λ f. (p : Packages)
        → array_at (Some of_type) p memory.now reference ≡ Ok f) }
    ensures there { IfSome result (λ f. IsObject memory.now.heap.now reference
        × IsHeaderOf memory.now reference f × (has_elements of_type f.kind ≡ true)) }
{
    if !names_object(reference, memory) {
        return None;
    }
    let header = memory.facts(reference);
    if !has_elements(of_type, header.kind) {
        return None;
    }
    if !is_global(header) && !is_own(header, memory) {
        return None;
    }
    Some(header)
}

// Whether a value is a number, which may be kept, and be an element of an array of numbers.
#[inline(always)]
#[tactic(auto, unfolding(crate::specs::ArrayElements::element_value))]
pub(crate) fn is_number(value: &CellValue) -> bool
    ensures kept { (p : Packages) (m : MemoryState) → result ≡ true
        → keepable p m value.now ≡ Ok value.now }
    ensures element { (p : Packages) (m : MemoryState) (class : ℕ) → result ≡ true
        → element_value p m class value.now ≡ Ok value.now }
    ensures refers { (m : MemoryState) → result ≡ true → Refers m value.now }
{
    match *value {
        CellValue::Short(_) => true,
        CellValue::Reference(_) => false,
    }
}
