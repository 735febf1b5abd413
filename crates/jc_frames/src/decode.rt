//! From the bytes of a method to an instruction.

mod arithmetic;
mod arrays;
mod branches;
mod calls;
mod constants;
mod fields;
mod locals;
mod objects;
mod returns;
mod stack;

ghost use Rattle.std.specs.Prelude.{IfSome, ◌≡◌, ◌<◌, ◌≤◌, length};
ghost use Rattle.jc_frames.specs.Table.{HasListedOperands, decode};

use crate::decode::constants::decode_constant;
use crate::instr::Instr;
use crate::operands::u1_at;

/// The instruction whose opcode stands at `pc`, and the place after its last byte.
///
/// `None` where the opcode or an operand is not listed in the instruction table (opcodes of the int
/// forms are not), or where the code ends before the instruction does. `C` says whose copy of the decoder it is: a copy that is
/// called at one place alone stands in line there.
#[inline(always)]
pub fn decode<C>(code: &[u8], pc: usize) -> Option<(Instr, usize)>
    ensures value { result ≡ decode code.now pc }
    ensures within { IfSome result (λ p. (pc < length code.now) × (p.1 ≤ length code.now)) }
    ensures listed { IfSome result (λ p. HasListedOperands p.0) }
{
    let opcode = u1_at(code, pc)?;
    let at = pc + 1;
    decode_constant::<C>(opcode, code, at)
}
