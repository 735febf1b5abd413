//! Values in cells of objects whose headers are known.
ghost use Rattle.std.specs.Prelude.{◌≡◌, ◌<◌, false};
ghost use Rattle.std.specs.Int.{w16, cast_signed};
ghost use Rattle.jc_heap.specs.Heap.{IsObject};
ghost use Rattle.jc_memory.specs.Cells.{IsHeaderOf};
ghost use Rattle.jc_world.specs.Values.{value_at};
ghost use Rattle.jc_instructions.specs.KnownValues.{value_of_word};

use jc_frames::Cell;
use jc_frames::instr::ValueType;
use jc_heap::Facts;
use jc_memory::Memory;
use jc_transient::Ref;
use jc_words::WordStore;
use jc_world::values::value_at;

// The value of this type in a cell with this word, as it comes on the stack: a byte with its sign.
#[inline(always)]
fn value_of_word(of_type: ValueType, word: u16) -> Cell
    ensures { result ≡ value_of_word of_type word }
{
    match of_type {
        ValueType::Reference => Cell::Reference(Ref::at(word)),
        ValueType::Byte => Cell::Short(i16::from(((word % 256) as u8).cast_signed())),
        ValueType::Short => Cell::Short(word.cast_signed()),
    }
}

/// The value of this type in a cell of an object with this header, as it comes on the stack: a byte with its sign. Of a persistent one the header
/// is not read again.
#[inline(always)]
pub(crate) fn known_value<S: WordStore>(
    of_type: ValueType,
    header: Facts,
    memory: &Memory<S>,
    object: Ref,
    i: u16,
) -> Cell
    requires up { memory.now.heap.down ≡ false }
    requires there { IsObject memory.now.heap.now object }
    requires header { IsHeaderOf memory.now object header }
    requires cell { i < header.length }
    ensures { result ≡ value_at of_type memory.now object i }
{
    match header.event {
        None => value_of_word(of_type, memory.heap().get(object, i)),
        Some(_) => value_at(of_type, memory, object, i),
    }
}
