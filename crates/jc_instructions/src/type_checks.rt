//! Tests of an object's type: `checkcast` and `instanceof`.
ghost use Rattle.std.specs.Prelude.{◌≡◌, false};
ghost use Rattle.jc_memory.specs.Programs.{Executes};
ghost use Rattle.jc_world.specs.Instructions.{after_instruction};
ghost use Rattle.jc_instructions.specs.TypeChecks.{type_test, checkcast, instanceof};

use crate::object_types::{ObjectType, access_to, is_of_type, type_named};
use jc_frames::instr::TestedType;
use jc_frames::{Cell, CodeFault, Exception, FrameExit, Frames};
use jc_linker::linked::Linked;
use jc_memory::Memory;
use jc_transient::Ref;
use jc_words::WordStore;
use jc_world::StepExit;
use jc_world::contexts::allow;
use jc_world::objects::object;

// Whether the object that a reference names is of a type; of null the answer is given.
#[tactic(auto, unfolding(crate::specs::TypeChecks::type_test))]
fn type_test<S: WordStore>(
    of_null: bool,
    object_type: &ObjectType,
    reference: Ref,
    memory: &Memory<S>,
    linked: &Linked,
) -> Result<bool, FrameExit>
    requires { memory.now.heap.down ≡ false }
    ensures { result ≡ type_test of_null object_type.now linked.now memory.now reference }
{
    if reference.is_null() {
        return Ok(of_null);
    }
    let facts = object(reference, memory)?;
    let access = access_to(linked, object_type);
    allow(access, facts, memory, linked)?;
    Ok(is_of_type(object_type, linked, facts))
}

/// `checkcast`: leaves the reference on the stack where its object is of the type; null stays. Throws where it
/// is not, or where the firewall refuses the test; a code fault where no reference is on the stack, or where
/// the pool's entry names no class.
#[tactic(auto, unfolding(crate::specs::TypeChecks::checkcast))]
pub fn checkcast<S: WordStore>(
    of_type: TestedType,
    frames: &mut Frames,
    memory: &Memory<S>,
    linked: &Linked,
) -> Result<(), StepExit>
    requires { memory.now.heap.down ≡ false }
    ensures { Executes (checkcast of_type linked.now frames.old memory.now) memory.now
        (after_instruction result frames.new memory.now) }
{
    let reference = frames.pop_reference()?;
    let package_number = frames.origin().package_number;
    let object_type = type_named(of_type, linked, package_number).ok_or(CodeFault)?;
    if !type_test(true, &object_type, reference, memory, linked)? {
        return Err(StepExit::Throw(Exception::ClassCastException));
    }
    frames.push(Cell::Reference(reference));
    Ok(())
}

/// `instanceof`: pushes 1 where the object is of the type, else 0; 0 for null. Throws where the firewall
/// refuses the test; a code fault where no reference is on the stack, or where the pool's entry names no class.
#[tactic(auto, unfolding(crate::specs::TypeChecks::instanceof))]
pub fn instanceof<S: WordStore>(
    of_type: TestedType,
    frames: &mut Frames,
    memory: &Memory<S>,
    linked: &Linked,
) -> Result<(), StepExit>
    requires { memory.now.heap.down ≡ false }
    ensures { Executes (instanceof of_type linked.now frames.old memory.now) memory.now
        (after_instruction result frames.new memory.now) }
{
    let reference = frames.pop_reference()?;
    let package_number = frames.origin().package_number;
    let object_type = type_named(of_type, linked, package_number).ok_or(CodeFault)?;
    let answer = type_test(false, &object_type, reference, memory, linked)?;
    frames.push(Cell::Short(i16::from(answer)));
    Ok(())
}
