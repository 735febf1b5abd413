//! Arithmetic: `sadd` to `sxor`, `sneg`, `s2b`.
ghost use Rattle.std.specs.Prelude.{IfSome, ◌≡◌, ◌≤◌, length};
ghost use Rattle.std.specs.Option.{option_and_then};
ghost use Rattle.jc_frames.specs.Table.{HasListedOperands, form_in, instruction_with};
ghost use Rattle.jc_frames.specs.Rows.{from_arithmetic};

use crate::decode::branches::decode_jump;
use crate::instr::{ArithmeticOp, BinaryOp, Instr};

#[inline(always)]
pub(crate) fn decode_arithmetic<C>(opcode: u8, code: &[u8], at: usize) -> Option<(Instr, usize)>
    requires { at ≤ length code.now }
    ensures value { result ≡ option_and_then (instruction_with code.now at)
        (form_in from_arithmetic opcode) }
    ensures within { IfSome result (λ p. p.1 ≤ length code.now) }
    ensures listed { IfSome result (λ p. HasListedOperands p.0) }
{
    let operation = match opcode {
        0x41 => ArithmeticOp::Two(BinaryOp::Add), // sadd
        0x43 => ArithmeticOp::Two(BinaryOp::Subtract), // ssub
        0x45 => ArithmeticOp::Two(BinaryOp::Multiply), // smul
        0x47 => ArithmeticOp::Two(BinaryOp::Divide), // sdiv
        0x49 => ArithmeticOp::Two(BinaryOp::Remainder), // srem
        0x4B => ArithmeticOp::Negate, // sneg
        0x4D => ArithmeticOp::Two(BinaryOp::ShiftLeft), // sshl
        0x4F => ArithmeticOp::Two(BinaryOp::ShiftRight), // sshr
        0x51 => ArithmeticOp::Two(BinaryOp::ShiftRightUnsigned), // sushr
        0x53 => ArithmeticOp::Two(BinaryOp::And), // sand
        0x55 => ArithmeticOp::Two(BinaryOp::Or), // sor
        0x57 => ArithmeticOp::Two(BinaryOp::Xor), // sxor
        0x5B => ArithmeticOp::S2b, // s2b
        _ => return decode_jump::<C>(opcode, code, at),
    };
    Some((Instr::Arithmetic(operation), at))
}
