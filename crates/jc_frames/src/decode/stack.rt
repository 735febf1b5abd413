//! The stack's order: `pop`, `pop2`, `dup`, `dup2`, `dup_x`, `swap_x`.
ghost use Rattle.std.specs.Prelude.{IfSome, ◌≡◌, ◌/◌, ◌%◌, ◌≤◌, length};
ghost use Rattle.std.specs.Option.{option_map, option_and_then};
ghost use Rattle.jc_frames.specs.Table.{HasListedOperands, can_duplicate_below, duplicate_below, form_in, instruction_with, swap};
ghost use Rattle.jc_frames.specs.Rows.{from_stack};

use crate::decode::branches::decode_branch;
use crate::instr::{Instr, StackOp};
use crate::operands::u1_at;

#[inline(always)]
pub(crate) fn decode_stack<C>(opcode: u8, code: &[u8], at: usize) -> Option<(Instr, usize)>
    requires { at ≤ length code.now }
    ensures value { result ≡ option_and_then (instruction_with code.now at)
        (form_in from_stack opcode) }
    ensures within { IfSome result (λ p. p.1 ≤ length code.now) }
    ensures listed { IfSome result (λ p. HasListedOperands p.0) }
{
    let (stack, next) = match opcode {
        0x3B => (StackOp::Pop, at), // pop
        0x3C => (StackOp::Pop2, at), // pop2
        0x3D => (StackOp::Dup, at), // dup
        0x3E => (StackOp::Dup2, at), // dup2
        0x3F => (duplicate_below_of(u1_at(code, at)?)?, at + 1), // dup_x
        0x40 => (swap_of(u1_at(code, at)?)?, at + 1), // swap_x
        _ => return decode_branch::<C>(opcode, code, at),
    };
    Some((Instr::Stack(stack), next))
}

// The operand of `dup_x`, if it is one: the high four bits are the count, the low four the depth.
#[inline(always)]
fn duplicate_below_of(halves: u8) -> Option<StackOp>
    ensures value { option_map (λ s. Instr.Stack s) result
        ≡ duplicate_below (halves / 16) (halves % 16) }
    ensures listed { IfSome result (λ s. HasListedOperands (Instr.Stack s)) }
{
    let count = halves / 16;
    let depth = halves % 16;
    if can_duplicate_below(count, depth) {
        Some(StackOp::DupX { count, depth })
    } else {
        None
    }
}

// `dup_x` takes this count and this depth.
#[inline(always)]
fn can_duplicate_below(count: u8, depth: u8) -> bool
    ensures { result ≡ can_duplicate_below count depth }
{
    matches!(count, 1..=4) && (depth == 0 || count <= depth && depth <= count + 4)
}

// The operand of `swap_x`, if it is one: the high four bits are the count, the low four the cells below.
#[inline(always)]
fn swap_of(halves: u8) -> Option<StackOp>
    ensures value { option_map (λ s. Instr.Stack s) result ≡ swap (halves / 16) (halves % 16) }
    ensures listed { IfSome result (λ s. HasListedOperands (Instr.Stack s)) }
{
    let count = halves / 16;
    let below = halves % 16;
    let listed = (1..=2).contains(&count) && (1..=2).contains(&below);
    if listed {
        Some(StackOp::SwapX { count, below })
    } else {
        None
    }
}
