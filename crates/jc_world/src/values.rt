//! Values of fields and of elements of arrays.
ghost use Rattle.std.specs.Prelude.{◌≡◌, ◌<◌, false, length, IfOk};
ghost use Rattle.jc_heap.specs.Heap.{IsObject, facts};
ghost use Rattle.jc_frames.specs.Cell.{popped};
ghost use Rattle.jc_frames.specs.Frames.{with_stack};
ghost use Rattle.jc_memory.specs.Cells.{word_of};
ghost use Rattle.jc_world.specs.Values.{IsValueOf, value_on, value_at, keepable};

use crate::objects::allow_store;
use jc_frames::instr::ValueType;
use jc_frames::{Cell, CodeFault, FrameExit, Frames};
use jc_linker::linked::Linked;
use jc_memory::Memory;
use jc_transient::{CellValue, Ref};
use jc_words::WordStore;

/// Takes the value of this type from the top of the stack, as it is kept: of a byte the low eight bits.
#[inline(always)]
pub fn pop_value(of_type: ValueType, frames: &mut Frames) -> Result<CellValue, CodeFault>
    ensures others { frames.new ≡ with_stack frames.old frames.new.current.stack }
    ensures taken { value_on of_type frames.old.current.stack
        ≡ popped result frames.new.current.stack }
    ensures typed { IfOk result (IsValueOf of_type) }
{
    match of_type {
        ValueType::Reference => Ok(CellValue::Reference(frames.pop_reference()?)),
        ValueType::Byte => {
            let low = frames.pop_short()?.cast_unsigned() % 256;
            Ok(CellValue::Short(low.cast_signed()))
        }
        ValueType::Short => Ok(CellValue::Short(frames.pop_short()?)),
    }
}

/// The value of this type in a cell of an object, as it comes on the stack: a byte with its sign.
#[inline(always)]
pub fn value_at<S: WordStore>(of_type: ValueType, memory: &Memory<S>, object: Ref, i: u16) -> Cell
    requires up { memory.now.heap.down ≡ false }
    requires there { IsObject memory.now.heap.now object }
    requires cell { i < (facts memory.now.heap.now object).length }
    ensures { result ≡ value_at of_type memory.now object i }
{
    match of_type {
        ValueType::Reference => Cell::Reference(memory.reference(object, i)),
        ValueType::Byte => Cell::Short(i16::from(memory.byte(object, i).cast_signed())),
        ValueType::Short => Cell::Short(memory.short(object, i)),
    }
}

/// A value that is to be kept: a reference where the firewall lets it be, a number always.
#[inline(always)]
pub fn keepable<S: WordStore>(
    value: CellValue,
    memory: &Memory<S>,
    linked: &Linked,
) -> Result<CellValue, FrameExit>
    requires up { memory.now.heap.down ≡ false }
    ensures { result ≡ keepable linked.now memory.now value }
{
    match value {
        CellValue::Short(number) => Ok(CellValue::Short(number)),
        CellValue::Reference(reference) => {
            allow_store(reference, memory, linked)?;
            Ok(CellValue::Reference(reference))
        }
    }
}

/// A value as a word: a number modulo 2^16, or a reference.
#[inline(always)]
pub fn word_of(value: CellValue) -> u16
    ensures { result ≡ word_of value }
{
    match value {
        CellValue::Short(number) => number.cast_unsigned(),
        CellValue::Reference(reference) => reference.address(),
    }
}
