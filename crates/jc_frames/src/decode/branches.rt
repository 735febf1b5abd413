//! Branches: the conditional ones, `goto`, `jsr`, `ret`, `stableswitch`, `slookupswitch`.
ghost use Rattle.std.specs.Prelude.{IfSome, ◌≡◌, ◌≤◌, length};
ghost use Rattle.std.specs.Option.{option_and_then};
ghost use Rattle.jc_frames.specs.Table.{HasListedOperands, Form, form_in, instruction_with};
ghost use Rattle.jc_frames.specs.Rows.{from_branches, from_jumps, from_wide};

use crate::decode::arrays::decode_array;
use crate::decode::calls::decode_call;
use crate::instr::{BranchOp, Comparison, Condition, Instr};
use crate::operands::{s1_at, s2_at, u1_at, u2_at};

#[inline(always)]
pub(crate) fn decode_branch<C>(opcode: u8, code: &[u8], at: usize) -> Option<(Instr, usize)>
    requires { at ≤ length code.now }
    ensures value { result ≡ option_and_then (instruction_with code.now at)
        (form_in from_branches opcode) }
    ensures within { IfSome result (λ p. p.1 ≤ length code.now) }
    ensures listed { IfSome result (λ p. HasListedOperands p.0) }
{
    let condition = match opcode {
        0x60 => Condition::Zero(Comparison::Equal), // ifeq
        0x61 => Condition::Zero(Comparison::NotEqual), // ifne
        0x62 => Condition::Zero(Comparison::Less), // iflt
        0x63 => Condition::Zero(Comparison::GreaterOrEqual), // ifge
        0x64 => Condition::Zero(Comparison::Greater), // ifgt
        0x65 => Condition::Zero(Comparison::LessOrEqual), // ifle
        0x66 => Condition::IsNull, // ifnull
        0x67 => Condition::NotNull, // ifnonnull
        0x68 => Condition::SameReference, // if_acmpeq
        0x69 => Condition::OtherReference, // if_acmpne
        0x6A => Condition::Shorts(Comparison::Equal), // if_scmpeq
        0x6B => Condition::Shorts(Comparison::NotEqual), // if_scmpne
        0x6C => Condition::Shorts(Comparison::Less), // if_scmplt
        0x6D => Condition::Shorts(Comparison::GreaterOrEqual), // if_scmpge
        0x6E => Condition::Shorts(Comparison::Greater), // if_scmpgt
        0x6F => Condition::Shorts(Comparison::LessOrEqual), // if_scmple
        _ => return decode_call::<C>(opcode, code, at),
    };
    let offset = s1_at(code, at)?;
    Some((Instr::Branch(BranchOp::If(condition, offset)), at + 1))
}

#[inline(always)]
pub(crate) fn decode_wide_if<C>(opcode: u8, code: &[u8], at: usize) -> Option<(Instr, usize)>
    requires { at ≤ length code.now }
    ensures value { result ≡ option_and_then (instruction_with code.now at)
        (form_in from_wide opcode) }
    ensures within { IfSome result (λ p. p.1 ≤ length code.now) }
    ensures listed { IfSome result (λ p. HasListedOperands p.0) }
{
    let condition = match opcode {
        0x98 => Condition::Zero(Comparison::Equal), // ifeq_w
        0x99 => Condition::Zero(Comparison::NotEqual), // ifne_w
        0x9A => Condition::Zero(Comparison::Less), // iflt_w
        0x9B => Condition::Zero(Comparison::GreaterOrEqual), // ifge_w
        0x9C => Condition::Zero(Comparison::Greater), // ifgt_w
        0x9D => Condition::Zero(Comparison::LessOrEqual), // ifle_w
        0x9E => Condition::IsNull, // ifnull_w
        0x9F => Condition::NotNull, // ifnonnull_w
        0xA0 => Condition::SameReference, // if_acmpeq_w
        0xA1 => Condition::OtherReference, // if_acmpne_w
        0xA2 => Condition::Shorts(Comparison::Equal), // if_scmpeq_w
        0xA3 => Condition::Shorts(Comparison::NotEqual), // if_scmpne_w
        0xA4 => Condition::Shorts(Comparison::Less), // if_scmplt_w
        0xA5 => Condition::Shorts(Comparison::GreaterOrEqual), // if_scmpge_w
        0xA6 => Condition::Shorts(Comparison::Greater), // if_scmpgt_w
        0xA7 => Condition::Shorts(Comparison::LessOrEqual), // if_scmple_w
        _ => return None,
    };
    let offset = s2_at(code, at)?;
    Some((Instr::Branch(BranchOp::If(condition, offset)), at + 2))
}

#[inline(always)]
pub(crate) fn decode_jump<C>(opcode: u8, code: &[u8], at: usize) -> Option<(Instr, usize)>
    requires { at ≤ length code.now }
    ensures value { result ≡ option_and_then (instruction_with code.now at)
        (form_in from_jumps opcode) }
    ensures within { IfSome result (λ p. p.1 ≤ length code.now) }
    ensures listed { IfSome result (λ p. HasListedOperands p.0) }
{
    let (branch, next) = match opcode {
        0x70 => (BranchOp::Goto(s1_at(code, at)?), at + 1), // goto
        0xA8 => (BranchOp::Goto(s2_at(code, at)?), at + 2), // goto_w
        0x71 => (BranchOp::Jsr(s2_at(code, at)?), at + 2), // jsr
        0x72 => (BranchOp::Ret(u1_at(code, at)?), at + 1), // ret
        0x73 => return decode_table_switch::<C>(code, at), // stableswitch
        0x75 => return decode_lookup_switch::<C>(code, at), // slookupswitch
        _ => return decode_array::<C>(opcode, code, at),
    };
    Some((Instr::Branch(branch), next))
}

#[inline(always)]
fn decode_table_switch<C>(code: &[u8], at: usize) -> Option<(Instr, usize)>
    requires { at ≤ length code.now }
    ensures value { result ≡ instruction_with code.now at Form.TableSwitch }
    ensures within { IfSome result (λ p. p.1 ≤ length code.now) }
    ensures listed { IfSome result (λ p. HasListedOperands p.0) }
{
    let otherwise = s2_at(code, at)?;
    let low = s2_at(code, at + 2)?;
    let high = s2_at(code, at + 4)?;
    if high < low {
        return None;
    }
    let next = at + 6 + 2 * (usize::from(high.abs_diff(low)) + 1);
    let branch = BranchOp::Table {
        otherwise,
        low,
        high,
    };
    if next <= code.len() {
        Some((Instr::Branch(branch), next))
    } else {
        None
    }
}

#[inline(always)]
fn decode_lookup_switch<C>(code: &[u8], at: usize) -> Option<(Instr, usize)>
    requires { at ≤ length code.now }
    ensures value { result ≡ instruction_with code.now at Form.LookupSwitch }
    ensures within { IfSome result (λ p. p.1 ≤ length code.now) }
    ensures listed { IfSome result (λ p. HasListedOperands p.0) }
{
    let otherwise = s2_at(code, at)?;
    let count = u2_at(code, at + 2)?;
    let next = at + 4 + 4 * usize::from(count);
    let branch = BranchOp::Lookup { otherwise, count };
    if next <= code.len() {
        Some((Instr::Branch(branch), next))
    } else {
        None
    }
}
