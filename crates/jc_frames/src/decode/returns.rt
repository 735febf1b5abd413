//! Returns: `areturn`, `sreturn`, `return`.
ghost use Rattle.std.specs.Prelude.{IfSome, ◌≡◌, ◌≤◌, length};
ghost use Rattle.std.specs.Option.{option_and_then};
ghost use Rattle.jc_frames.specs.Table.{HasListedOperands, form_in, instruction_with};
ghost use Rattle.jc_frames.specs.Rows.{from_returns};

use crate::decode::fields::decode_static_field;
use crate::instr::{Instr, ReturnOp};

#[inline(always)]
pub(crate) fn decode_return<C>(opcode: u8, code: &[u8], at: usize) -> Option<(Instr, usize)>
    requires { at ≤ length code.now }
    ensures value { result ≡ option_and_then (instruction_with code.now at)
        (form_in from_returns opcode) }
    ensures within { IfSome result (λ p. p.1 ≤ length code.now) }
    ensures listed { IfSome result (λ p. HasListedOperands p.0) }
{
    match opcode {
        0x77 => Some((Instr::Return(ReturnOp::Areturn), at)), // areturn
        0x78 => Some((Instr::Return(ReturnOp::Sreturn), at)), // sreturn
        0x7A => Some((Instr::Return(ReturnOp::Return), at)), // return
        _ => decode_static_field::<C>(opcode, code, at),
    }
}
