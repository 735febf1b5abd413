//! Branches: the conditional ones, `goto`, `jsr`, `ret`, `stableswitch`, `slookupswitch`.
ghost use Rattle.std.specs.Prelude.{◌≡◌, ◌+◌, ◌<◌, ◌^◌, length};
ghost use Rattle.jc_frames.specs.Cell.{result_or_none, popped};
ghost use Rattle.jc_frames.specs.Frames.{in_frame, unless_fault, with_stack};
ghost use Rattle.jc_frames.specs.BranchOps.{at_target, branch_instruction, branch_target, condition_on, table_offset, pair_offset};

use crate::instr::{BranchOp, Condition};
use crate::operands::s2_at;
use crate::{Cell, CodeFault, Frames, short};

/// `ifeq`, `ifne`, `iflt`, `ifge`, `ifgt`, `ifle`, `ifnull`, `ifnonnull`, `if_acmpeq`, `if_acmpne`,
/// `if_scmpeq`, `if_scmpne`, `if_scmplt`, `if_scmpge`, `if_scmpgt`, `if_scmple`, `ifeq_w`, `ifne_w`, `iflt_w`,
/// `ifge_w`, `ifgt_w`, `ifle_w`, `ifnull_w`, `ifnonnull_w`, `if_acmpeq_w`, `if_acmpne_w`, `if_scmpeq_w`,
/// `if_scmpne_w`, `if_scmplt_w`, `if_scmpge_w`, `if_scmpgt_w`, `if_scmple_w`, `goto`, `goto_w`, `jsr`, `ret`,
/// `stableswitch`, `slookupswitch`: goes on where a branch at `pc` leads, within the method that runs: from its
/// header to the end of the code. The next instruction was the one after the branch. `C` says whose copy it is, as of the decoder.
#[inline(always)]
pub fn branch_instruction<C>(
    branch: BranchOp,
    code: &[u8],
    pc: usize,
    frames: &mut Frames,
) -> Result<(), CodeFault>
    requires short { length code.now < 2 ^ 16 }
    requires at { pc < length code.now }
    ensures { unless_fault result frames.new ≡ in_frame frames.old
        (branch_instruction code.now pc branch frames.old.current) }
{
    let method = frames.origin().method;
    match branch {
        BranchOp::If(condition, offset) => {
            if condition_on(condition, frames)? {
                jump(branch_target(method, code, pc, offset), frames)?;
            }
            Ok(())
        }
        BranchOp::Goto(offset) => jump(branch_target(method, code, pc, offset), frames),
        BranchOp::Jsr(offset) => {
            let next = frames.place();
            frames.try_push(Cell::ReturnAddress(next))?;
            jump(branch_target(method, code, pc, offset), frames)
        }
        BranchOp::Ret(n) => {
            let target = frames.local_address(n)?;
            if target < method || usize::from(target) >= code.len() {
                return Err(CodeFault);
            }
            frames.set_place(target);
            Ok(())
        }
        BranchOp::Table {
            otherwise,
            low,
            high,
        } => {
            let key = frames.pop_short()?;
            let offset = table_offset(code, otherwise, low, high, pc + 7, key)?;
            jump(branch_target(method, code, pc, offset), frames)
        }
        BranchOp::Lookup { otherwise, count } => {
            let key = frames.pop_short()?;
            let offset = pair_offset(code, otherwise, count, pc + 5, key)?;
            jump(branch_target(method, code, pc, offset), frames)
        }
    }
}

// Goes on at a place, if there is one.
#[inline(always)]
fn jump(target: Result<u16, CodeFault>, frames: &mut Frames) -> Result<(), CodeFault>
    ensures { unless_fault result frames.new ≡ in_frame frames.old
        (at_target (result_or_none target) frames.old.current) }
{
    frames.set_place(target?);
    Ok(())
}

// The place that lies so far from a branch at `pc`, if the method has it, whose header begins at `method`.
#[inline(always)]
fn branch_target(method: u16, code: &[u8], pc: usize, offset: i16) -> Result<u16, CodeFault>
    requires short { length code.now < 2 ^ 16 }
    requires at { pc < length code.now }
    ensures { result_or_none result ≡ branch_target method code.now pc offset }
{
    let target = pc as i32 + i32::from(offset);
    if target < i32::from(method) || target >= code.len() as i32 {
        return Err(CodeFault);
    }
    Ok(target as u16)
}

// Whether the condition holds of the cells on top, which it takes.
#[inline(always)]
fn condition_on(condition: Condition, frames: &mut Frames) -> Result<bool, CodeFault>
    ensures others { frames.new ≡ with_stack frames.old frames.new.current.stack }
    ensures value { condition_on condition frames.old.current.stack
        ≡ popped result frames.new.current.stack }
{
    match condition {
        Condition::Zero(comparison) => Ok(short::compare(comparison, frames.pop_short()?, 0)),
        Condition::IsNull => Ok(frames.pop_reference()?.is_null()),
        Condition::NotNull => Ok(!frames.pop_reference()?.is_null()),
        Condition::SameReference => {
            let y = frames.pop_reference()?;
            let x = frames.pop_reference()?;
            Ok(x == y)
        }
        Condition::OtherReference => {
            let y = frames.pop_reference()?;
            let x = frames.pop_reference()?;
            Ok(x != y)
        }
        Condition::Shorts(comparison) => {
            let (x, y) = frames.pop_two_shorts()?;
            Ok(short::compare(comparison, x, y))
        }
    }
}

// What a `stableswitch` whose table begins at `table` has for a key.
fn table_offset(
    code: &[u8],
    otherwise: i16,
    low: i16,
    high: i16,
    table: usize,
    key: i16,
) -> Result<i16, CodeFault>
    requires { table < 2 ^ 17 }
    ensures { result_or_none result ≡ table_offset code.now otherwise low high table key }
{
    if key < low || high < key {
        return Ok(otherwise);
    }
    s2_at(code, table + 2 * usize::from(key.abs_diff(low))).ok_or(CodeFault)
}

// What a `slookupswitch` whose pairs begin at `table` has for a key.
#[tactic(auto, using(crate::proofs::Pairs::more))]
fn pair_offset(
    code: &[u8],
    otherwise: i16,
    count: u16,
    table: usize,
    key: i16,
) -> Result<i16, CodeFault>
    requires { table < 2 ^ 17 }
    ensures { result_or_none result ≡ pair_offset code.now otherwise count table key }
{
    let mut at = table;
    for _pair in 0..count {
        let first = s2_at(code, at).ok_or(CodeFault)?;
        if first == key {
            return s2_at(code, at + 2).ok_or(CodeFault);
        }
        at += 4;
    }
    Ok(otherwise)
}
