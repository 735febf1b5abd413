//! Attacks: a fault that comes before an instruction of a command, and another that may come after it.
ghost use Rattle.std.specs.Prelude.{◌≡◌, ◌<◌, ◌^◌, length};
ghost use Rattle.jc_frames.specs.Frames.{unless_fault};
ghost use Rattle.jc_interp.specs.Attacks.{faulted, later_attack, opposite, opposite_comparison, skipped, turned, undisturbed, zero_like, zeroed};

use jc_frames::branch_ops::branch_instruction;
use jc_frames::decode::decode;
use jc_frames::instr::{BranchOp, Comparison, Condition, Instr};
use jc_frames::{Cell, CodeFault, Frames};
use jc_transient::Ref;

/// What a fault does.
#[derive(Clone, Copy, PartialEq, Eq)]
pub enum FaultModel {
    /// The instruction that comes next is skipped.
    Skip,
    /// The conditional branch that comes next goes the other way.
    Turn,
    /// The value on top of the stack becomes 0, a reference null.
    Zero,
}

/// Another fault of a command, which comes once this many instructions were carried out after its first one.
#[derive(Clone, Copy)]
pub struct LaterFault {
    pub after: u32,
    pub model: FaultModel,
}

/// A fault that comes as this many of a command's instructions are left, and one that may come later.
#[derive(Clone, Copy)]
pub struct Attack {
    pub left: u32,
    pub model: FaultModel,
    pub later: Option<LaterFault>,
}

impl Attack {
    /// The later fault alone, if there is one.
    pub(crate) const fn later_attack(self) -> Option<Self>
        ensures { result ≡ later_attack self }
    {
        match self.later {
            None => None,
            Some(fault) => Some(Attack {
                left: self.left.saturating_sub(fault.after),
                model: fault.model,
                later: None,
            }),
        }
    }
}

/// How many instructions a command may still carry out, and the attack that may come among them.
#[derive(Clone, Copy)]
pub struct Budget {
    pub left: u32,
    pub attack: Option<Attack>,
}

impl Budget {
    /// This many instructions, and no attack.
    pub const fn undisturbed(left: u32) -> Self
        ensures { result ≡ undisturbed left }
    {
        Budget { left, attack: None }
    }

    /// What is left of it: this many instructions.
    #[inline(always)]
    pub const fn with_left(self, left: u32) -> Self
        ensures { result ≡ record self { left = left } }
    {
        Budget {
            left,
            attack: self.attack,
        }
    }
}

// The comparison that holds where this one does not.
const fn opposite_comparison(comparison: Comparison) -> Comparison
    ensures { result ≡ opposite_comparison comparison }
{
    match comparison {
        Comparison::Equal => Comparison::NotEqual,
        Comparison::NotEqual => Comparison::Equal,
        Comparison::Less => Comparison::GreaterOrEqual,
        Comparison::GreaterOrEqual => Comparison::Less,
        Comparison::Greater => Comparison::LessOrEqual,
        Comparison::LessOrEqual => Comparison::Greater,
    }
}

// The condition that holds where this one does not.
const fn opposite(condition: Condition) -> Condition
    ensures { result ≡ opposite condition }
{
    match condition {
        Condition::Zero(comparison) => Condition::Zero(opposite_comparison(comparison)),
        Condition::IsNull => Condition::NotNull,
        Condition::NotNull => Condition::IsNull,
        Condition::SameReference => Condition::OtherReference,
        Condition::OtherReference => Condition::SameReference,
        Condition::Shorts(comparison) => Condition::Shorts(opposite_comparison(comparison)),
    }
}

// The instruction that comes next is skipped.
fn skip(code: &[u8], frames: &mut Frames) -> Result<(), CodeFault>
    requires { length code.now < 2 ^ 16 }
    ensures { unless_fault result frames.new ≡ skipped code.now frames.old }
{
    let place = usize::from(frames.place());
    let (_, next) = decode::<FaultModel>(code, place).ok_or(CodeFault)?;
    frames.set_place(next as u16);
    Ok(())
}

// The conditional branch that comes next goes the other way; any other instruction is still to come.
fn turn(code: &[u8], frames: &mut Frames) -> Result<(), CodeFault>
    requires { length code.now < 2 ^ 16 }
    ensures { unless_fault result frames.new ≡ turned code.now frames.old }
{
    let place = usize::from(frames.place());
    let (instr, next) = decode::<Attack>(code, place).ok_or(CodeFault)?;
    if let Instr::Branch(BranchOp::If(condition, offset)) = instr {
        frames.set_place(next as u16);
        let other_way = BranchOp::If(opposite(condition), offset);
        return branch_instruction::<Attack>(other_way, code, place, frames);
    }
    Ok(())
}

// The short 0 for a short, and null for a reference; a return address stays.
fn zero_like(cell: Cell) -> Cell
    ensures { result ≡ zero_like cell }
{
    match cell {
        Cell::Short(_) => Cell::Short(0),
        Cell::Reference(_) => Cell::Reference(Ref::null()),
        Cell::ReturnAddress(place) => Cell::ReturnAddress(place),
    }
}

// The value on top of the stack becomes 0, where one is there.
fn zero(frames: &mut Frames)
    ensures { frames.new ≡ zeroed frames.old }
{
    if frames.peek(0).is_none() {
        return;
    }
    if let Ok(cell) = frames.pop() {
        frames.push(zero_like(cell));
    }
}

/// A fault comes: the frames that it leaves, or a code fault.
#[tactic(auto, unfolding(crate::specs::Attacks::faulted))]
#[cold]
#[inline(never)]
pub(crate) fn strike(model: FaultModel, code: &[u8], frames: &mut Frames) -> Result<(), CodeFault>
    requires { length code.now < 2 ^ 16 }
    ensures { unless_fault result frames.new ≡ faulted model code.now frames.old }
{
    match model {
        FaultModel::Skip => skip(code, frames),
        FaultModel::Turn => turn(code, frames),
        FaultModel::Zero => {
            zero(frames);
            Ok(())
        }
    }
}
