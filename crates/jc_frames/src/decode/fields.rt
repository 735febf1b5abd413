//! Fields: `getstatic` and `putstatic`, `getfield` and `putfield` with their wide and `this` forms.
ghost use Rattle.std.specs.Prelude.{IfSome, ◌≡◌, ◌≤◌, length};
ghost use Rattle.std.specs.Option.{option_and_then};
ghost use Rattle.jc_frames.specs.Fields.{field_use};
ghost use Rattle.jc_frames.specs.Table.{Form, HasListedOperands, form_in, instruction_with};
ghost use Rattle.jc_frames.specs.Rows.{from_instance_fields, from_static_fields, from_wide_instance_fields};

use crate::decode::arithmetic::decode_arithmetic;
use crate::instr::ValueType::{Byte, Reference, Short};
use crate::instr::{FieldOp, Instr, ValueType};
use crate::operands::{u1_at, u2_at};

// How an instruction uses a field, and where it finds the object.
#[derive(Clone, Copy)]
pub(crate) enum Access {
    ReadStatic,
    WriteStatic,
    Read,
    Write,
    ReadThis,
    WriteThis,
}

impl Access {
    // The use of the field of this type that the pool's entry with this index names.
    #[inline(always)]
    fn of(self, value_type: ValueType, index: u16) -> FieldOp
        ensures { result ≡ field_use self value_type index }
    {
        match self {
            Access::ReadStatic => FieldOp::GetStatic(value_type, index),
            Access::WriteStatic => FieldOp::PutStatic(value_type, index),
            Access::Read => FieldOp::GetField(value_type, index),
            Access::Write => FieldOp::PutField(value_type, index),
            Access::ReadThis => FieldOp::GetFieldThis(value_type, index),
            Access::WriteThis => FieldOp::PutFieldThis(value_type, index),
        }
    }
}

// The use of a field whose index is the byte at `at`.
#[inline(always)]
fn of_one_byte(
    access: Access,
    value_type: ValueType,
    code: &[u8],
    at: usize,
) -> Option<(Instr, usize)>
    ensures value { result ≡ instruction_with code.now at
        (Form.U1 (λ index. Instr.Field (field_use access value_type index))) }
    ensures within { IfSome result (λ p. p.1 ≤ length code.now) }
    ensures listed { IfSome result (λ p. HasListedOperands p.0) }
{
    let index = u16::from(u1_at(code, at)?);
    Some((Instr::Field(access.of(value_type, index)), at + 1))
}

// The use of a field whose index are the two bytes from `at` on.
#[inline(always)]
fn of_two_bytes(
    access: Access,
    value_type: ValueType,
    code: &[u8],
    at: usize,
) -> Option<(Instr, usize)>
    ensures value { result ≡ instruction_with code.now at
        (Form.U2 (λ index. Instr.Field (field_use access value_type index))) }
    ensures within { IfSome result (λ p. p.1 ≤ length code.now) }
    ensures listed { IfSome result (λ p. HasListedOperands p.0) }
{
    let index = u2_at(code, at)?;
    Some((Instr::Field(access.of(value_type, index)), at + 2))
}

#[inline(always)]
pub(crate) fn decode_static_field<C>(opcode: u8, code: &[u8], at: usize) -> Option<(Instr, usize)>
    requires { at ≤ length code.now }
    ensures value { result ≡ option_and_then (instruction_with code.now at)
        (form_in from_static_fields opcode) }
    ensures within { IfSome result (λ p. p.1 ≤ length code.now) }
    ensures listed { IfSome result (λ p. HasListedOperands p.0) }
{
    match opcode {
        0x7B => of_two_bytes(Access::ReadStatic, Reference, code, at), // getstatic_a
        0x7C => of_two_bytes(Access::ReadStatic, Byte, code, at), // getstatic_b
        0x7D => of_two_bytes(Access::ReadStatic, Short, code, at), // getstatic_s
        0x7F => of_two_bytes(Access::WriteStatic, Reference, code, at), // putstatic_a
        0x80 => of_two_bytes(Access::WriteStatic, Byte, code, at), // putstatic_b
        0x81 => of_two_bytes(Access::WriteStatic, Short, code, at), // putstatic_s
        _ => decode_instance_field::<C>(opcode, code, at),
    }
}

#[inline(always)]
fn decode_instance_field<C>(opcode: u8, code: &[u8], at: usize) -> Option<(Instr, usize)>
    requires { at ≤ length code.now }
    ensures value { result ≡ option_and_then (instruction_with code.now at)
        (form_in from_instance_fields opcode) }
    ensures within { IfSome result (λ p. p.1 ≤ length code.now) }
    ensures listed { IfSome result (λ p. HasListedOperands p.0) }
{
    match opcode {
        0x83 => of_one_byte(Access::Read, Reference, code, at), // getfield_a
        0x84 => of_one_byte(Access::Read, Byte, code, at), // getfield_b
        0x85 => of_one_byte(Access::Read, Short, code, at), // getfield_s
        0x87 => of_one_byte(Access::Write, Reference, code, at), // putfield_a
        0x88 => of_one_byte(Access::Write, Byte, code, at), // putfield_b
        0x89 => of_one_byte(Access::Write, Short, code, at), // putfield_s
        0xAD => of_one_byte(Access::ReadThis, Reference, code, at), // getfield_a_this
        0xAE => of_one_byte(Access::ReadThis, Byte, code, at), // getfield_b_this
        0xAF => of_one_byte(Access::ReadThis, Short, code, at), // getfield_s_this
        0xB5 => of_one_byte(Access::WriteThis, Reference, code, at), // putfield_a_this
        0xB6 => of_one_byte(Access::WriteThis, Byte, code, at), // putfield_b_this
        0xB7 => of_one_byte(Access::WriteThis, Short, code, at), // putfield_s_this
        _ => decode_wide_instance_field::<C>(opcode, code, at),
    }
}

#[inline(always)]
fn decode_wide_instance_field<C>(opcode: u8, code: &[u8], at: usize) -> Option<(Instr, usize)>
    requires { at ≤ length code.now }
    ensures value { result ≡ option_and_then (instruction_with code.now at)
        (form_in from_wide_instance_fields opcode) }
    ensures within { IfSome result (λ p. p.1 ≤ length code.now) }
    ensures listed { IfSome result (λ p. HasListedOperands p.0) }
{
    match opcode {
        0xA9 => of_two_bytes(Access::Read, Reference, code, at), // getfield_a_w
        0xAA => of_two_bytes(Access::Read, Byte, code, at), // getfield_b_w
        0xAB => of_two_bytes(Access::Read, Short, code, at), // getfield_s_w
        0xB1 => of_two_bytes(Access::Write, Reference, code, at), // putfield_a_w
        0xB2 => of_two_bytes(Access::Write, Byte, code, at), // putfield_b_w
        0xB3 => of_two_bytes(Access::Write, Short, code, at), // putfield_s_w
        _ => decode_arithmetic::<C>(opcode, code, at),
    }
}
