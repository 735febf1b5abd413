//! Objects: `new`, `athrow`, `checkcast`, `instanceof`.
ghost use Rattle.std.specs.Prelude.{IfSome, ◌≡◌, ◌≤◌, length};
ghost use Rattle.std.specs.Option.{option_and_then};
ghost use Rattle.jc_frames.specs.Table.{HasListedOperands, form_in, instruction_with, type_operand};
ghost use Rattle.jc_frames.specs.Rows.{from_objects};

use crate::decode::arrays::primitive_array_of;
use crate::decode::branches::decode_wide_if;
use crate::instr::{Instr, ObjectOp, TestedType};
use crate::operands::{u1_at, u2_at};

#[inline(always)]
pub(crate) fn decode_object<C>(opcode: u8, code: &[u8], at: usize) -> Option<(Instr, usize)>
    requires { at ≤ length code.now }
    ensures value { result ≡ option_and_then (instruction_with code.now at)
        (form_in from_objects opcode) }
    ensures within { IfSome result (λ p. p.1 ≤ length code.now) }
    ensures listed { IfSome result (λ p. HasListedOperands p.0) }
{
    let (operation, next) = match opcode {
        0x8F => (ObjectOp::New(u2_at(code, at)?), at + 2), // new
        0x93 => (ObjectOp::Athrow, at), // athrow
        0x94 => ( // checkcast
            ObjectOp::CheckCast(tested_type_of(u1_at(code, at)?, u2_at(code, at + 1)?)?),
            at + 3,
        ),
        0x95 => ( // instanceof
            ObjectOp::InstanceOf(tested_type_of(u1_at(code, at)?, u2_at(code, at + 1)?)?),
            at + 3,
        ),
        _ => return decode_wide_if::<C>(opcode, code, at),
    };
    Some((Instr::Object(operation), next))
}

// The type that an operand and a pool index say, if there is one.
#[inline(always)]
fn tested_type_of(operand: u8, index: u16) -> Option<TestedType>
    ensures { result ≡ type_operand operand index }
{
    match operand {
        0 => Some(TestedType::OfClass(index)),
        14 => Some(TestedType::OfReferences(index)),
        _ => Some(TestedType::OfPrimitives(primitive_array_of(operand)?)),
    }
}
