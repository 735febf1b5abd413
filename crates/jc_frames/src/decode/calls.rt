//! Calls: `invokevirtual`, `invokespecial`, `invokestatic`, `invokeinterface`.
ghost use Rattle.std.specs.Prelude.{IfSome, ◌≡◌, ◌≤◌, length};
ghost use Rattle.std.specs.Option.{option_and_then};
ghost use Rattle.jc_frames.specs.Table.{Form, HasListedOperands, form_in, instruction_with};
ghost use Rattle.jc_frames.specs.Rows.{from_calls};

use crate::decode::returns::decode_return;
use crate::instr::{Instr, InvokeOp};
use crate::operands::{u1_at, u2_at};

#[inline(always)]
pub(crate) fn decode_call<C>(opcode: u8, code: &[u8], at: usize) -> Option<(Instr, usize)>
    requires { at ≤ length code.now }
    ensures value { result ≡ option_and_then (instruction_with code.now at)
        (form_in from_calls opcode) }
    ensures within { IfSome result (λ p. p.1 ≤ length code.now) }
    ensures listed { IfSome result (λ p. HasListedOperands p.0) }
{
    match opcode {
        0x8B => Some((Instr::Invoke(InvokeOp::Virtual(u2_at(code, at)?)), at + 2)), // invokevirtual
        0x8C => Some((Instr::Invoke(InvokeOp::Special(u2_at(code, at)?)), at + 2)), // invokespecial
        0x8D => Some((Instr::Invoke(InvokeOp::Static(u2_at(code, at)?)), at + 2)), // invokestatic
        0x8E => decode_interface_call::<C>(code, at), // invokeinterface
        _ => decode_return::<C>(opcode, code, at),
    }
}

#[inline(always)]
fn decode_interface_call<C>(code: &[u8], at: usize) -> Option<(Instr, usize)>
    requires { at ≤ length code.now }
    ensures value { result ≡ instruction_with code.now at
        (Form.U1U2U1 (λ arguments index token. Instr.Invoke
        (InvokeOp.Interface arguments index token))) }
    ensures within { IfSome result (λ p. p.1 ≤ length code.now) }
    ensures listed { IfSome result (λ p. HasListedOperands p.0) }
{
    let call = InvokeOp::Interface {
        arguments: u1_at(code, at)?,
        index: u2_at(code, at + 1)?,
        token: u1_at(code, at + 3)?,
    };
    Some((Instr::Invoke(call), at + 4))
}
