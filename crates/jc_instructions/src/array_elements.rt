//! Elements of arrays, as the code that runs may reach them.
ghost use Rattle.std.specs.Prelude.{◌≡◌, ◌<◌, false, true, Some, IfOk, OnOk};
ghost use Rattle.jc_heap.specs.Heap.{IsObject};
ghost use Rattle.jc_memory.specs.Cells.{IsHeaderOf};
ghost use Rattle.jc_heap.specs.WholeHeap.{IsReference};
ghost use Rattle.jc_instructions.specs.ArrayElements.{has_elements, is_array, array_at, with_index, assignable_or_null, element_value, Refers};

use jc_firewall::access::Access;
use jc_frames::instr::ValueType;
use jc_frames::{Exception, FrameExit, Outcome};
use jc_heap::{Facts, Kind};
use jc_linker::linked::Linked;
use jc_memory::{FaultKind, Memory};
use jc_transient::{CellValue, ClassWord, Ref};
use jc_words::WordStore;
use jc_world::contexts::allow;
use jc_world::objects::{is_instance, object};
use jc_world::types::is_a;

/// An element of an array.
#[derive(Clone, Copy)]
pub struct Element {
    /// Its index.
    pub index: u16,
    /// The class of the array: that of the objects that it holds.
    pub class: ClassWord,
}

/// Whether an object's elements are of this type.
#[inline(always)]
pub(crate) fn has_elements(of_type: ValueType, kind: Kind) -> bool
    ensures { result ≡ has_elements of_type kind }
{
    match of_type {
        ValueType::Reference => match kind {
            Kind::ReferenceArray => true,
            _ => false,
        },
        ValueType::Byte => match kind {
            Kind::BooleanArray => true,
            Kind::ByteArray => true,
            _ => false,
        },
        ValueType::Short => match kind {
            Kind::ShortArray => true,
            _ => false,
        },
    }
}

// Whether it is an array with elements of this type, or any array.
#[inline(always)]
fn is_array(of_type: Option<ValueType>, kind: Kind) -> bool
    ensures { result ≡ is_array of_type kind }
{
    match of_type {
        None => !is_instance(kind),
        Some(of_type) => has_elements(of_type, kind),
    }
}

/// The array that a reference names, as the code that runs may reach it.
#[inline(always)]
#[tactic(auto, unfolding(crate::specs::ArrayElements::array_at))]
pub(crate) fn array<S: WordStore>(
    of_type: Option<ValueType>,
    reference: Ref,
    memory: &Memory<S>,
    linked: &Linked,
) -> Result<Facts, FrameExit>
    requires { memory.now.heap.down ≡ false }
    ensures exact { result ≡ array_at of_type linked.now memory.now reference }
    ensures there { IfOk result (λ f. IsObject memory.now.heap.now reference
        × IsHeaderOf memory.now reference f × (is_array of_type f.kind ≡ true)) }
{
    let facts = object(reference, memory)?;
    if !is_array(of_type, facts.kind) {
        memory.notes().fault(FaultKind::WrongClass);
        return Err(FrameExit::End(Outcome::Fault));
    }
    allow(Access::ArrayElement, facts, memory, linked)?;
    Ok(facts)
}

/// The element of an array with an index.
#[inline(always)]
pub(crate) fn with_index(facts: Facts, index: i16) -> Result<Element, FrameExit>
    ensures exact { result ≡ with_index facts index }
    ensures within { IfOk result (λ e. e.index < facts.length) }
{
    if index < 0 || index.cast_unsigned() >= facts.length {
        return Err(FrameExit::Throw(Exception::ArrayIndexOutOfBoundsException));
    }
    Ok(Element {
        index: index.cast_unsigned(),
        class: facts.class(),
    })
}

// Whether an object may be an element of an array of a class's instances: null may.
#[inline(always)]
#[tactic(auto, unfolding(crate::specs::ArrayElements::assignable_or_null))]
fn allow_element<S: WordStore>(
    class: ClassWord,
    reference: Ref,
    memory: &Memory<S>,
    linked: &Linked,
) -> Result<(), FrameExit>
    requires { memory.now.heap.down ≡ false }
    ensures exact { result ≡ assignable_or_null linked.now memory.now class reference }
    ensures refers { OnOk result (IsReference memory.now.heap.now reference) }
{
    if reference.is_null() {
        return Ok(());
    }
    let Some(facts) = memory.header(reference) else {
        memory.notes().fault(FaultKind::NoObject);
        return Err(FrameExit::End(Outcome::Fault));
    };
    if is_a(facts, class, linked) {
        Ok(())
    } else {
        Err(FrameExit::Throw(Exception::ArrayStoreException))
    }
}

/// The value, where it may be an element of an array of a class's instances, or of numbers.
#[inline(always)]
#[tactic(auto, unfolding(crate::specs::ArrayElements::element_value))]
pub(crate) fn element_value<S: WordStore>(
    class: ClassWord,
    value: CellValue,
    memory: &Memory<S>,
    linked: &Linked,
) -> Result<CellValue, FrameExit>
    requires { memory.now.heap.down ≡ false }
    ensures exact { result ≡ element_value linked.now memory.now class value }
    ensures same { IfOk result (λ v. (v ≡ value) × Refers memory.now v) }
{
    match value {
        CellValue::Short(number) => Ok(CellValue::Short(number)),
        CellValue::Reference(reference) => {
            allow_element(class, reference, memory, linked)?;
            Ok(CellValue::Reference(reference))
        }
    }
}
