//! Constants: `nop`, `aconst_null`, `sconst_m1` to `sconst_5`, `bspush`, `sspush`.
ghost use Rattle.std.specs.Prelude.{IfSome, ◌≡◌, ◌≤◌, length};
ghost use Rattle.std.specs.Option.{option_and_then};
ghost use Rattle.jc_frames.specs.Table.{HasListedOperands, form_in, instruction_with, table};

use crate::decode::locals::decode_local;
use crate::instr::{ConstantOp, Instr};
use crate::operands::{s1_at, s2_at};

#[inline(always)]
pub(crate) fn decode_constant<C>(opcode: u8, code: &[u8], at: usize) -> Option<(Instr, usize)>
    requires { at ≤ length code.now }
    ensures value { result ≡ option_and_then (instruction_with code.now at) (form_in table opcode) }
    ensures within { IfSome result (λ p. p.1 ≤ length code.now) }
    ensures listed { IfSome result (λ p. HasListedOperands p.0) }
{
    match opcode {
        0x00 => Some((Instr::Nop, at)), // nop
        0x01 => Some((Instr::Constant(ConstantOp::Null), at)), // aconst_null
        0x02 => Some((Instr::Constant(ConstantOp::Number(-1)), at)), // sconst_m1
        0x03 => Some((Instr::Constant(ConstantOp::Number(0)), at)), // sconst_0
        0x04 => Some((Instr::Constant(ConstantOp::Number(1)), at)), // sconst_1
        0x05 => Some((Instr::Constant(ConstantOp::Number(2)), at)), // sconst_2
        0x06 => Some((Instr::Constant(ConstantOp::Number(3)), at)), // sconst_3
        0x07 => Some((Instr::Constant(ConstantOp::Number(4)), at)), // sconst_4
        0x08 => Some((Instr::Constant(ConstantOp::Number(5)), at)), // sconst_5
        0x10 => Some(( // bspush
            Instr::Constant(ConstantOp::Number(s1_at(code, at)?)),
            at + 1,
        )),
        0x11 => Some(( // sspush
            Instr::Constant(ConstantOp::Number(s2_at(code, at)?)),
            at + 2,
        )),
        _ => decode_local::<C>(opcode, code, at),
    }
}
