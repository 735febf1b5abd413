//! Locals: `aload`, `sload`, `astore`, `sstore` and their short forms, `sinc`, `sinc_w`.
ghost use Rattle.std.specs.Prelude.{IfSome, ◌≡◌, ◌≤◌, length};
ghost use Rattle.std.specs.Option.{option_and_then};
ghost use Rattle.jc_frames.specs.Table.{HasListedOperands, form_in, instruction_with};
ghost use Rattle.jc_frames.specs.Rows.{from_locals};

use crate::decode::stack::decode_stack;
use crate::instr::{Instr, LocalOp};
use crate::operands::{s1_at, s2_at, u1_at};

#[inline(always)]
pub(crate) fn decode_local<C>(opcode: u8, code: &[u8], at: usize) -> Option<(Instr, usize)>
    requires { at ≤ length code.now }
    ensures value { result ≡ option_and_then (instruction_with code.now at)
        (form_in from_locals opcode) }
    ensures within { IfSome result (λ p. p.1 ≤ length code.now) }
    ensures listed { IfSome result (λ p. HasListedOperands p.0) }
{
    let (local, next) = match opcode {
        0x15 => (LocalOp::Aload(u1_at(code, at)?), at + 1), // aload
        0x16 => (LocalOp::Sload(u1_at(code, at)?), at + 1), // sload
        0x18 => (LocalOp::Aload(0), at), // aload_0
        0x19 => (LocalOp::Aload(1), at), // aload_1
        0x1A => (LocalOp::Aload(2), at), // aload_2
        0x1B => (LocalOp::Aload(3), at), // aload_3
        0x1C => (LocalOp::Sload(0), at), // sload_0
        0x1D => (LocalOp::Sload(1), at), // sload_1
        0x1E => (LocalOp::Sload(2), at), // sload_2
        0x1F => (LocalOp::Sload(3), at), // sload_3
        0x28 => (LocalOp::Astore(u1_at(code, at)?), at + 1), // astore
        0x29 => (LocalOp::Sstore(u1_at(code, at)?), at + 1), // sstore
        0x2B => (LocalOp::Astore(0), at), // astore_0
        0x2C => (LocalOp::Astore(1), at), // astore_1
        0x2D => (LocalOp::Astore(2), at), // astore_2
        0x2E => (LocalOp::Astore(3), at), // astore_3
        0x2F => (LocalOp::Sstore(0), at), // sstore_0
        0x30 => (LocalOp::Sstore(1), at), // sstore_1
        0x31 => (LocalOp::Sstore(2), at), // sstore_2
        0x32 => (LocalOp::Sstore(3), at), // sstore_3
        0x59 => ( // sinc
            LocalOp::Sinc(u1_at(code, at)?, s1_at(code, at + 1)?),
            at + 2,
        ),
        0x96 => ( // sinc_w
            LocalOp::Sinc(u1_at(code, at)?, s2_at(code, at + 1)?),
            at + 3,
        ),
        _ => return decode_stack::<C>(opcode, code, at),
    };
    Some((Instr::Local(local), next))
}
