//! Turns: instructions that need nothing but the frames, and reads that are done at once, are carried out one after the other, up to one that
//! needs more.
ghost use Rattle.std.specs.Prelude.{◌≡◌, ◌<◌, ◌+◌, ◌^◌, ◌==◌, not, ℕ, List, Option, false, length, IfErr, IfSome, OnOk};
ghost use Rattle.jc_frames.specs.Table.{HasListedOperands};
ghost use Rattle.jc_instructions.specs.AtOnce.{IsDoneAtOnce};
ghost use Rattle.jc_linker.specs.Values.{Packages};
ghost use Rattle.jc_memory.specs.State.{MemoryState};
ghost use Rattle.jc_interp.specs.declared.attacks.Attack.{Attack};
ghost use Rattle.jc_interp.specs.Attacks.{IsAway};
ghost use Rattle.jc_interp.specs.Step.{code_of, if_had, instruction_at, instruction_step, is_plain};
ghost use Rattle.jc_interp.specs.Run.{run_of};
ghost use Rattle.jc_interp.specs.PausedSteps.{after_part, after_frames_step, paused_rest, run_behind, WhereNeeded};

use jc_frames::arithmetic_ops::arithmetic_instruction;
use jc_frames::branch_ops::branch_instruction;
use jc_frames::constant_ops::constant_instruction;
use jc_frames::decode::decode;
use jc_frames::instr::{ArrayOp, FieldOp, Instr, ReturnOp};
use jc_frames::local_ops::local_instruction;
use jc_frames::stack_ops::stack_instruction;
use jc_frames::{CodeFault, FrameExit, Frames, Outcome};
use jc_instructions::at_once::{array_load_at_once, getfield_at_once, getfield_this_at_once};
use jc_linker::linked::Linked;
use jc_memory::Memory;
use jc_words::WordStore;

/// Why frames alone do not go on.
#[derive(Clone, Copy)]
pub(crate) enum FramesExit {
    /// The runtime environment throws, or the run ends.
    Exit(FrameExit),
    /// This instruction needs more than frames, or is one that code that was lent has not.
    Needs(Instr),
}

impl From<CodeFault> for FramesExit {
    ghost use Rattle.std.specs.Prelude.{◌≡◌};
    ghost use Rattle.jc_frames.specs.declared.outcome.FrameExit.TheVariants.{End};
    ghost use Rattle.jc_frames.specs.declared.outcome.Outcome.TheVariants.{Fault};
    ghost use Rattle.jc_interp.specs.declared.frames_only.FramesExit.TheVariants.{Exit};

    ghost from_gives = { λ _ why. why ≡ Exit (End Fault) };

    #[inline(always)]
    fn from(_: CodeFault) -> Self {
        FramesExit::Exit(FrameExit::End(Outcome::Fault))
    }
}

impl From<FrameExit> for FramesExit {
    ghost use Rattle.std.specs.Prelude.{◌≡◌};
    ghost use Rattle.jc_interp.specs.declared.frames_only.FramesExit.TheVariants.{Exit};

    ghost from_gives = { λ stop why. why ≡ Exit stop };

    #[inline(always)]
    fn from(stop: FrameExit) -> Self {
        FramesExit::Exit(stop)
    }
}

/// Where frames alone do not go on: why, and the place of an instruction, after which the next one stands.
#[derive(Clone, Copy)]
pub(crate) struct PausedStep {
    pub(crate) why: FramesExit,
    pub(crate) place: u16,
}

// Whether code that was lent has the instruction.
pub(crate) const fn is_plain(instr: Instr) -> bool
    ensures { result ≡ is_plain instr }
{
    match instr {
        Instr::Return(ReturnOp::Areturn)
        | Instr::Field(_)
        | Instr::Array(_)
        | Instr::Object(_)
        | Instr::Invoke(_) => false,
        _ => true,
    }
}

// `nop`: goes on. An instruction at a place, with the next one after it, is carried out here if it needs
// nothing but frames; else the exit says what it needs.
#[tactic(auto, unfolding(crate::specs::Step::instruction_at))]
#[inline(always)]
fn carry_out<C>(
    instr: Instr,
    code: &[u8],
    place: u16,
    frames: &mut Frames,
) -> Result<(), FramesExit>
    requires short { length code.now < 2 ^ 16 }
    requires at { place < length code.now }
    requires listed { HasListedOperands instr }
    ensures same { (p : Packages) (m : MemoryState) → after_part result place p frames.new m
        ≡ if_had instr frames.old (instruction_at instr code.now place p frames.old m) }
    ensures kept { IfErr result (λ why. WhereNeeded why (frames.new ≡ frames.old)) }
    ensures origin { OnOk result (frames.new.current.origin ≡ frames.old.current.origin) }
{
    match instr {
        Instr::Nop => {}
        Instr::Constant(constant) => constant_instruction(constant, frames)?,
        Instr::Local(local) => local_instruction(local, frames)?,
        Instr::Stack(stack) => stack_instruction(stack, frames)?,
        Instr::Arithmetic(arithmetic) => arithmetic_instruction(arithmetic, frames)?,
        Instr::Branch(to) => branch_instruction::<C>(to, code, usize::from(place), frames)?,
        Instr::Return(_)
        | Instr::Field(_)
        | Instr::Array(_)
        | Instr::Object(_)
        | Instr::Invoke(_) => return Err(FramesExit::Needs(instr)),
    }
    Ok(())
}

// Carries out the instruction at the frame's place, if it needs nothing but frames.
#[tactic(auto, unfolding(crate::specs::Step::instruction_step))]
#[inline(always)]
fn step_in_frames<C>(code: &[u8], frames: &mut Frames) -> Result<(), PausedStep>
    requires short { length code.now < 2 ^ 16 }
    ensures same { (p : Packages) (m : MemoryState) → after_frames_step result p frames.new m
        ≡ instruction_step code.now p frames.old m }
    ensures place { IfErr result (λ pause. pause.place ≡ frames.old.current.place) }
    ensures kept { IfErr result (λ pause. WhereNeeded pause.why
        (frames.new.current.origin ≡ frames.old.current.origin)) }
    ensures origin { OnOk result (frames.new.current.origin ≡ frames.old.current.origin) }
{
    let place = frames.place();
    let Some((instr, next)) = decode::<C>(code, usize::from(place)) else {
        return Err(PausedStep {
            place,
            why: FramesExit::from(CodeFault),
        });
    };
    frames.set_place(next as u16);
    match carry_out::<C>(instr, code, place, frames) {
        Ok(()) => Ok(()),
        Err(why) => Err(PausedStep { place, why }),
    }
}

// The code that runs is not lent.
#[inline(always)]
fn in_package(frames: &Frames) -> bool
    ensures { result ≡ not (frames.now.current.origin.package_number == 0) }
{
    frames.origin().package_number != 0
}

// Carries out what a pause needs, if it is a read that is done at once; says whether it did.
#[tactic(auto, unfolding(jc_instructions::specs::ArrayOps::array_instruction, jc_instructions::specs::FieldOps::field_instruction))]
#[inline(always)]
fn read_at_once<S: WordStore>(
    why: &FramesExit,
    frames: &mut Frames,
    memory: &Memory<S>,
    linked: &Linked,
) -> bool
    requires up { memory.now.heap.down ≡ false }
    ensures { (place : ℕ) → IsDoneAtOnce result (paused_rest why.now place linked.now frames.old
        memory.now) frames.old frames.new }
{
    match why {
        FramesExit::Needs(Instr::Field(FieldOp::GetField(of_type, index))) => {
            in_package(frames) && getfield_at_once(*of_type, *index, frames, memory, linked)
        }
        FramesExit::Needs(Instr::Field(FieldOp::GetFieldThis(of_type, index))) => {
            in_package(frames) && getfield_this_at_once(*of_type, *index, frames, memory, linked)
        }
        FramesExit::Needs(Instr::Array(ArrayOp::Load(of_type))) => {
            in_package(frames) && array_load_at_once(*of_type, frames, memory)
        }
        _ => false,
    }
}

/// Carries out instructions that need nothing but frames, and reads that are done at once, as many at most: `None` once they are used up, else
/// how many are left and where something else is to be done. No attack comes among them. `C` says whose copy it is: each is called at one place alone, and
/// stands in line there.
pub(crate) fn run_in_frames<C, S: WordStore>(
    code: &[u8],
    budget: u32,
    frames: &mut Frames,
    memory: &Memory<S>,
    linked: &Linked,
) -> Option<(u32, PausedStep)>
    requires up { memory.now.heap.down ≡ false }
    requires short { length code.now < 2 ^ 16 }
    ensures same { (attack : Option Attack) (more : ℕ) (lent : List ℕ)
        → IsAway attack (budget + more) more
        → code.now ≡ code_of lent linked.now frames.old.current.origin.package_number
        → run_of attack (budget + more) lent linked.now frames.old memory.now
        ≡ run_behind result attack more lent linked.now frames.new memory.now }
    ensures fewer { IfSome result (λ r. r.0 < budget) }
    ensures origin { IfSome result (λ r. WhereNeeded r.1.why
        (frames.new.current.origin ≡ frames.old.current.origin)) }
{
    let mut left = budget;
    while left > 0 {
        if let Err(pause) = step_in_frames::<C>(code, frames) {
            if !read_at_once(&pause.why, frames, memory, linked) {
                return Some((left - 1, pause));
            }
        }
        left -= 1;
    }
    None
}
