//! New instances: `new`.
ghost use Rattle.std.specs.Prelude.{◌≡◌, false};
ghost use Rattle.jc_memory.specs.Programs.{Executes};
ghost use Rattle.jc_world.specs.Instructions.{after_instruction};
ghost use Rattle.jc_instructions.specs.ObjectCreation.{instantiable_class, cells_for, new_instance};

use jc_frames::reasons::NO_RESOURCE;
use jc_frames::{CodeFault, FrameExit, Frames};
use jc_heap::Kind;
use jc_linker::linked::Linked;
use jc_memory::{Memory, NewObject};
use jc_transient::ClassWord;
use jc_words::WordStore;
use jc_world::StepExit;
use jc_world::making::push_new;
use jc_world::types::class_named;

// The class that an entry of a package's pool names, if code may make instances of it.
#[tactic(auto, unfolding(crate::specs::ObjectCreation::instantiable_class))]
fn instantiable_class(linked: &Linked, package_number: u8, index: u16) -> Option<ClassWord>
    ensures { result ≡ instantiable_class linked.now package_number index }
{
    let class = class_named(linked, package_number, index)?;
    if linked.is_instantiable_class(class) {
        Some(class)
    } else {
        None
    }
}

// How many cells an instance gets.
fn cells_for(size: u32) -> Result<u16, FrameExit>
    ensures { result ≡ cells_for size }
{
    if size < 65536 {
        Ok(size as u16)
    } else {
        Err(FrameExit::Throw(NO_RESOURCE))
    }
}

/// `new`: makes an instance of the class that the pool's entry names. Throws where the heap has no space or the
/// transaction no room for it; a code fault where the stack has no room, or where the entry names no class that
/// code may make instances of.
#[tactic(auto, unfolding(crate::specs::ObjectCreation::new_instance))]
pub fn new_instance<S: WordStore>(
    index: u16,
    frames: &mut Frames,
    memory: &mut Memory<S>,
    linked: &Linked,
) -> Result<(), StepExit>
    requires { memory.old.heap.down ≡ false }
    ensures { Executes (new_instance index linked.now frames.old memory.old) memory.old
        (after_instruction result frames.new memory.new) }
{
    if !frames.has_room() {
        return Err(StepExit::from(CodeFault));
    }
    let package_number = frames.origin().package_number;
    let class = instantiable_class(linked, package_number, index).ok_or(CodeFault)?;
    let length = cells_for(linked.size_of(class))?;
    let instance = NewObject {
        kind: Kind::Instance,
        event: None,
        class,
        owner: memory.registers().active,
        length,
    };
    push_new(instance, frames, memory)
}
