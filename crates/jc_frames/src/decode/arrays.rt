//! Arrays: `aaload` to `sastore`, `newarray`, `anewarray`, `arraylength`.
ghost use Rattle.std.specs.Prelude.{IfSome, ◌≡◌, ◌≤◌, length};
ghost use Rattle.std.specs.Option.{option_and_then};
ghost use Rattle.jc_frames.specs.Table.{HasListedOperands, form_in, primitive_array, instruction_with};
ghost use Rattle.jc_frames.specs.Rows.{from_arrays};

use crate::decode::objects::decode_object;
use crate::instr::{ArrayOp, Instr, PrimitiveArray, ValueType};
use crate::operands::{u1_at, u2_at};

#[inline(always)]
pub(crate) fn decode_array<C>(opcode: u8, code: &[u8], at: usize) -> Option<(Instr, usize)>
    requires { at ≤ length code.now }
    ensures value { result ≡ option_and_then (instruction_with code.now at)
        (form_in from_arrays opcode) }
    ensures within { IfSome result (λ p. p.1 ≤ length code.now) }
    ensures listed { IfSome result (λ p. HasListedOperands p.0) }
{
    let (operation, next) = match opcode {
        0x24 => (ArrayOp::Load(ValueType::Reference), at), // aaload
        0x25 => (ArrayOp::Load(ValueType::Byte), at), // baload
        0x26 => (ArrayOp::Load(ValueType::Short), at), // saload
        0x37 => (ArrayOp::Store(ValueType::Reference), at), // aastore
        0x38 => (ArrayOp::Store(ValueType::Byte), at), // bastore
        0x39 => (ArrayOp::Store(ValueType::Short), at), // sastore
        0x90 => ( // newarray
            ArrayOp::NewArray(primitive_array_of(u1_at(code, at)?)?),
            at + 1,
        ),
        0x91 => (ArrayOp::ANewArray(u2_at(code, at)?), at + 2), // anewarray
        0x92 => (ArrayOp::ArrayLength, at), // arraylength
        _ => return decode_object::<C>(opcode, code, at),
    };
    Some((Instr::Array(operation), next))
}

/// What `newarray` makes for an operand, if it is one.
#[inline(always)]
pub(crate) fn primitive_array_of(operand: u8) -> Option<PrimitiveArray>
    ensures { result ≡ primitive_array operand }
{
    match operand {
        10 => Some(PrimitiveArray::Booleans),
        11 => Some(PrimitiveArray::Bytes),
        12 => Some(PrimitiveArray::Shorts),
        _ => None,
    }
}
