//! Static fields: `getstatic` and `putstatic`.
ghost use Rattle.std.specs.Prelude.{◌≡◌, ◌+◌, ◌<◌, ◌%◌, ◌==◌, false};
ghost use Rattle.jc_memory.specs.Programs.{Executes};
ghost use Rattle.jc_world.specs.Instructions.{after_instruction};
ghost use Rattle.jc_instructions.specs.StaticImages.{IsImageWord};
ghost use Rattle.jc_instructions.specs.StaticFields.{static_value, getstatic, image_word_write, image_byte_write, image_pair_write};
ghost use Rattle.jc_instructions.specs.StaticFields.{static_write, putstatic};

use crate::field_names::{FieldOfImage, static_named};
use crate::static_images::{
    ImageWord, image_byte, image_pair, image_word, next_word, place_of, with_byte, word_value,
};
use jc_frames::instr::ValueType;
use jc_frames::{Cell, CodeFault, Frames};
use jc_linker::linked::Linked;
use jc_memory::Memory;
use jc_transient::Ref;
use jc_words::WordStore;
use jc_world::StepExit;
use jc_world::values::{keepable, pop_value, word_of};

// The value of a static field, as it comes on the stack.
fn static_value<S: WordStore>(
    of_type: ValueType,
    memory: &Memory<S>,
    field: FieldOfImage,
) -> Option<Cell>
    requires { memory.now.heap.down ≡ false }
    ensures { result ≡ static_value of_type memory.now.heap.now field }
{
    let FieldOfImage {
        package_number,
        offset,
    } = field;
    match of_type {
        ValueType::Reference => {
            let address = image_pair(memory, package_number, offset)?;
            Some(Cell::Reference(Ref::at(address)))
        }
        ValueType::Byte => {
            let byte = image_byte(memory, package_number, u32::from(offset))?;
            Some(Cell::Short(i16::from(byte.cast_signed())))
        }
        ValueType::Short => {
            let word = image_pair(memory, package_number, offset)?;
            Some(Cell::Short(word.cast_signed()))
        }
    }
}

/// `getstatic_a`, `getstatic_b`, `getstatic_s`: pushes a static field.
#[tactic(auto, unfolding(crate::specs::StaticFields::getstatic))]
pub(crate) fn getstatic<S: WordStore>(
    of_type: ValueType,
    index: u16,
    frames: &mut Frames,
    memory: &Memory<S>,
    linked: &Linked,
) -> Result<(), StepExit>
    requires { memory.now.heap.down ≡ false }
    ensures { Executes (getstatic of_type index linked.now frames.old memory.now) memory.now
        (after_instruction result frames.new memory.now) }
{
    let package_number = frames.origin().package_number;
    let field = static_named(of_type, linked, package_number, index).ok_or(CodeFault)?;
    if !frames.has_room() {
        return Err(StepExit::from(CodeFault));
    }
    let value = static_value(of_type, memory, field).ok_or(CodeFault)?;
    frames.push(value);
    Ok(())
}

// A word of an image is set.
#[inline(always)]
fn set_word<S: WordStore>(
    word: &ImageWord,
    v: u16,
    frames: &Frames,
    memory: &mut Memory<S>,
) -> Result<(), StepExit>
    requires up { memory.old.heap.down ≡ false }
    requires there { IsImageWord memory.old.heap.now word.now }
    ensures { Executes (image_word_write word.now v frames.now memory.old) memory.old
        (after_instruction result frames.now memory.new) }
{
    memory.write(place_of(word), v)?;
    Ok(())
}

// A byte of a word is set.
fn set_byte<S: WordStore>(
    word: &ImageWord,
    offset: u16,
    byte: u8,
    frames: &Frames,
    memory: &mut Memory<S>,
) -> Result<(), StepExit>
    requires up { memory.old.heap.down ≡ false }
    requires there { IsImageWord memory.old.heap.now word.now }
    ensures { Executes (image_byte_write word.now offset byte frames.now memory.old) memory.old
        (after_instruction result frames.now memory.new) }
{
    let before = word_value(memory.heap(), word);
    let after = with_byte(before, u32::from(offset), byte);
    set_word(word, after, frames, memory)
}

// Two bytes are set: as one word, where they are one.
fn set_pair<S: WordStore>(
    word: &ImageWord,
    offset: u16,
    v: u16,
    frames: &Frames,
    memory: &mut Memory<S>,
) -> Result<(), StepExit>
    requires up { memory.old.heap.down ≡ false }
    requires there { IsImageWord memory.old.heap.now word.now }
    ensures { Executes (image_pair_write word.now offset v frames.now memory.old) memory.old
        (after_instruction result frames.now memory.new) }
{
    if offset % 2 == 0 {
        return set_word(word, v, frames, memory);
    }
    let behind = next_word(memory.heap(), word).ok_or(CodeFault)?;
    let at = u32::from(offset);
    let first = with_byte(word_value(memory.heap(), word), at, (v / 256) as u8);
    let second = with_byte(word_value(memory.heap(), &behind), at + 1, (v % 256) as u8);
    memory.write_all(&[(place_of(word), first), (place_of(&behind), second)])?;
    Ok(())
}

// A static field is set to this word.
#[tactic(auto, unfolding(crate::specs::StaticFields::static_write))]
#[inline(never)]
fn set_static<S: WordStore>(
    of_type: ValueType,
    field: FieldOfImage,
    v: u16,
    frames: &Frames,
    memory: &mut Memory<S>,
) -> Result<(), StepExit>
    requires { memory.old.heap.down ≡ false }
    ensures { Executes (static_write of_type field v frames.now memory.old) memory.old
        (after_instruction result frames.now memory.new) }
{
    let FieldOfImage {
        package_number,
        offset,
    } = field;
    let word = image_word(memory, package_number, offset / 2).ok_or(CodeFault)?;
    match of_type {
        ValueType::Byte => set_byte(&word, offset, (v % 256) as u8, frames, memory),
        _ => set_pair(&word, offset, v, frames, memory),
    }
}

/// `putstatic_a`, `putstatic_b`, `putstatic_s`: pops a value into a static field.
#[tactic(auto, unfolding(crate::specs::StaticFields::putstatic))]
pub(crate) fn putstatic<S: WordStore>(
    of_type: ValueType,
    index: u16,
    frames: &mut Frames,
    memory: &mut Memory<S>,
    linked: &Linked,
) -> Result<(), StepExit>
    requires { memory.old.heap.down ≡ false }
    ensures { Executes (putstatic of_type index linked.now frames.old memory.old) memory.old
        (after_instruction result frames.new memory.new) }
{
    let value = pop_value(of_type, frames)?;
    let package_number = frames.origin().package_number;
    let field = static_named(of_type, linked, package_number, index).ok_or(CodeFault)?;
    let value = keepable(value, memory, linked)?;
    set_static(of_type, field, word_of(value), frames, memory)
}
