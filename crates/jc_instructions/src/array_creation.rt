//! New arrays: `newarray` and `anewarray`.
ghost use Rattle.std.specs.Prelude.{◌≡◌, ◌<◌, false, length};
ghost use Rattle.jc_memory.specs.Programs.{Executes};
ghost use Rattle.jc_world.specs.Instructions.{after_instruction};
ghost use Rattle.jc_instructions.specs.ArrayCreation.{kind_of, array_creation, newarray, anewarray};

use jc_frames::instr::PrimitiveArray;
use jc_frames::{CodeFault, Exception, Frames};
use jc_heap::Kind;
use jc_linker::linked::Linked;
use jc_memory::{Memory, NewObject};
use jc_transient::{ClassWord, NO_CLASS};
use jc_words::WordStore;
use jc_world::StepExit;
use jc_world::making::push_new;
use jc_world::types::class_named;

// The kind of an array of these numbers.
fn kind_of(of_type: PrimitiveArray) -> Kind
    ensures { result ≡ kind_of of_type }
{
    match of_type {
        PrimitiveArray::Booleans => Kind::BooleanArray,
        PrimitiveArray::Bytes => Kind::ByteArray,
        PrimitiveArray::Shorts => Kind::ShortArray,
    }
}

// A new array of this many elements comes on the stack.
#[tactic(auto, unfolding(crate::specs::ArrayCreation::array_creation))]
fn make_array<S: WordStore>(
    kind: Kind,
    class: ClassWord,
    elements: i16,
    frames: &mut Frames,
    memory: &mut Memory<S>,
) -> Result<(), StepExit>
    requires up { memory.old.heap.down ≡ false }
    requires room { length frames.old.current.stack < frames.old.current.limit }
    ensures { Executes (array_creation kind class elements frames.old memory.old) memory.old
        (after_instruction result frames.new memory.new) }
{
    if elements < 0 {
        return Err(StepExit::Throw(Exception::NegativeArraySizeException));
    }
    let array = NewObject {
        kind,
        event: None,
        class,
        owner: memory.registers().active,
        length: elements.cast_unsigned(),
    };
    push_new(array, frames, memory)
}

/// `newarray`: makes an array of booleans, bytes or shorts. Throws where the length is negative, and where there is no space or no room; a code
/// fault where the length is no short.
#[tactic(auto, unfolding(crate::specs::ArrayCreation::newarray))]
#[inline(never)]
pub fn newarray<S: WordStore>(
    of_type: PrimitiveArray,
    frames: &mut Frames,
    memory: &mut Memory<S>,
) -> Result<(), StepExit>
    requires { memory.old.heap.down ≡ false }
    ensures { Executes (newarray of_type frames.old memory.old) memory.old
        (after_instruction result frames.new memory.new) }
{
    let length = frames.pop_short()?;
    make_array(kind_of(of_type), NO_CLASS, length, frames, memory)
}

/// `anewarray`: makes an array of references to instances of a class. It throws as `newarray`; a code fault where the length is no short, and where
/// the pool's entry names no class.
#[tactic(auto, unfolding(crate::specs::ArrayCreation::anewarray))]
#[inline(never)]
pub fn anewarray<S: WordStore>(
    index: u16,
    frames: &mut Frames,
    memory: &mut Memory<S>,
    linked: &Linked,
) -> Result<(), StepExit>
    requires { memory.old.heap.down ≡ false }
    ensures { Executes (anewarray index linked.now frames.old memory.old) memory.old
        (after_instruction result frames.new memory.new) }
{
    let length = frames.pop_short()?;
    let package_number = frames.origin().package_number;
    let class = class_named(linked, package_number, index).ok_or(CodeFault)?;
    make_array(Kind::ReferenceArray, class, length, frames, memory)
}
