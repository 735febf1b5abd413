//! The mnemonics of instructions.
ghost use Rattle.std.specs.Prelude.{◌≡◌, MatchOption, None, Some};
ghost use Rattle.jcard_why.specs.Mnemonics.{branches_and_returns, constants_and_locals, fields_calls_and_objects, mnemonic, mnemonic_in, stack_and_arithmetic};

/// The mnemonic of an opcode; `None` where no instruction has it.
pub const fn mnemonic(opcode: u8) -> Option<&'static [u8]>
    ensures { MatchOption result (mnemonic opcode ≡ None)
        (λ name. mnemonic opcode ≡ Some name.now) }
{
    if let Some(name) = constant_or_local(opcode) {
        return Some(name);
    }
    if let Some(name) = stack_or_arithmetic(opcode) {
        return Some(name);
    }
    if let Some(name) = branch_or_return(opcode) {
        return Some(name);
    }
    field_call_or_object(opcode)
}

// The mnemonics of constants, and of loads and stores of locals and elements.
const fn constant_or_local(opcode: u8) -> Option<&'static [u8]>
    ensures { MatchOption result (mnemonic_in constants_and_locals opcode ≡ None)
        (λ name. mnemonic_in constants_and_locals opcode ≡ Some name.now) }
{
    match opcode {
        0x00 => Some(b"nop"),
        0x01 => Some(b"aconst_null"),
        0x02 => Some(b"sconst_m1"),
        0x03 => Some(b"sconst_0"),
        0x04 => Some(b"sconst_1"),
        0x05 => Some(b"sconst_2"),
        0x06 => Some(b"sconst_3"),
        0x07 => Some(b"sconst_4"),
        0x08 => Some(b"sconst_5"),
        0x10 => Some(b"bspush"),
        0x11 => Some(b"sspush"),
        0x15 => Some(b"aload"),
        0x16 => Some(b"sload"),
        0x18 => Some(b"aload_0"),
        0x19 => Some(b"aload_1"),
        0x1A => Some(b"aload_2"),
        0x1B => Some(b"aload_3"),
        0x1C => Some(b"sload_0"),
        0x1D => Some(b"sload_1"),
        0x1E => Some(b"sload_2"),
        0x1F => Some(b"sload_3"),
        0x24 => Some(b"aaload"),
        0x25 => Some(b"baload"),
        0x26 => Some(b"saload"),
        0x28 => Some(b"astore"),
        0x29 => Some(b"sstore"),
        0x2B => Some(b"astore_0"),
        0x2C => Some(b"astore_1"),
        0x2D => Some(b"astore_2"),
        0x2E => Some(b"astore_3"),
        0x2F => Some(b"sstore_0"),
        0x30 => Some(b"sstore_1"),
        0x31 => Some(b"sstore_2"),
        0x32 => Some(b"sstore_3"),
        0x37 => Some(b"aastore"),
        0x38 => Some(b"bastore"),
        0x39 => Some(b"sastore"),
        _ => None,
    }
}

// The mnemonics of changes of the stack, and of arithmetic.
const fn stack_or_arithmetic(opcode: u8) -> Option<&'static [u8]>
    ensures { MatchOption result (mnemonic_in stack_and_arithmetic opcode ≡ None)
        (λ name. mnemonic_in stack_and_arithmetic opcode ≡ Some name.now) }
{
    match opcode {
        0x3B => Some(b"pop"),
        0x3C => Some(b"pop2"),
        0x3D => Some(b"dup"),
        0x3E => Some(b"dup2"),
        0x3F => Some(b"dup_x"),
        0x40 => Some(b"swap_x"),
        0x41 => Some(b"sadd"),
        0x43 => Some(b"ssub"),
        0x45 => Some(b"smul"),
        0x47 => Some(b"sdiv"),
        0x49 => Some(b"srem"),
        0x4B => Some(b"sneg"),
        0x4D => Some(b"sshl"),
        0x4F => Some(b"sshr"),
        0x51 => Some(b"sushr"),
        0x53 => Some(b"sand"),
        0x55 => Some(b"sor"),
        0x57 => Some(b"sxor"),
        0x59 => Some(b"sinc"),
        0x5B => Some(b"s2b"),
        _ => None,
    }
}

// The mnemonics of branches and returns.
const fn branch_or_return(opcode: u8) -> Option<&'static [u8]>
    ensures { MatchOption result (mnemonic_in branches_and_returns opcode ≡ None)
        (λ name. mnemonic_in branches_and_returns opcode ≡ Some name.now) }
{
    match opcode {
        0x60 => Some(b"ifeq"),
        0x61 => Some(b"ifne"),
        0x62 => Some(b"iflt"),
        0x63 => Some(b"ifge"),
        0x64 => Some(b"ifgt"),
        0x65 => Some(b"ifle"),
        0x66 => Some(b"ifnull"),
        0x67 => Some(b"ifnonnull"),
        0x68 => Some(b"if_acmpeq"),
        0x69 => Some(b"if_acmpne"),
        0x6A => Some(b"if_scmpeq"),
        0x6B => Some(b"if_scmpne"),
        0x6C => Some(b"if_scmplt"),
        0x6D => Some(b"if_scmpge"),
        0x6E => Some(b"if_scmpgt"),
        0x6F => Some(b"if_scmple"),
        0x70 => Some(b"goto"),
        0x71 => Some(b"jsr"),
        0x72 => Some(b"ret"),
        0x73 => Some(b"stableswitch"),
        0x75 => Some(b"slookupswitch"),
        0x77 => Some(b"areturn"),
        0x78 => Some(b"sreturn"),
        0x7A => Some(b"return"),
        0x98 => Some(b"ifeq_w"),
        0x99 => Some(b"ifne_w"),
        0x9A => Some(b"iflt_w"),
        0x9B => Some(b"ifge_w"),
        0x9C => Some(b"ifgt_w"),
        0x9D => Some(b"ifle_w"),
        0x9E => Some(b"ifnull_w"),
        0x9F => Some(b"ifnonnull_w"),
        0xA0 => Some(b"if_acmpeq_w"),
        0xA1 => Some(b"if_acmpne_w"),
        0xA2 => Some(b"if_scmpeq_w"),
        0xA3 => Some(b"if_scmpne_w"),
        0xA4 => Some(b"if_scmplt_w"),
        0xA5 => Some(b"if_scmpge_w"),
        0xA6 => Some(b"if_scmpgt_w"),
        0xA7 => Some(b"if_scmple_w"),
        0xA8 => Some(b"goto_w"),
        _ => None,
    }
}

// The mnemonics of fields, calls, and what makes and looks at objects.
const fn field_call_or_object(opcode: u8) -> Option<&'static [u8]>
    ensures { MatchOption result (mnemonic_in fields_calls_and_objects opcode ≡ None)
        (λ name. mnemonic_in fields_calls_and_objects opcode ≡ Some name.now) }
{
    match opcode {
        0x7B => Some(b"getstatic_a"),
        0x7C => Some(b"getstatic_b"),
        0x7D => Some(b"getstatic_s"),
        0x7F => Some(b"putstatic_a"),
        0x80 => Some(b"putstatic_b"),
        0x81 => Some(b"putstatic_s"),
        0x83 => Some(b"getfield_a"),
        0x84 => Some(b"getfield_b"),
        0x85 => Some(b"getfield_s"),
        0x87 => Some(b"putfield_a"),
        0x88 => Some(b"putfield_b"),
        0x89 => Some(b"putfield_s"),
        0x8B => Some(b"invokevirtual"),
        0x8C => Some(b"invokespecial"),
        0x8D => Some(b"invokestatic"),
        0x8E => Some(b"invokeinterface"),
        0x8F => Some(b"new"),
        0x90 => Some(b"newarray"),
        0x91 => Some(b"anewarray"),
        0x92 => Some(b"arraylength"),
        0x93 => Some(b"athrow"),
        0x94 => Some(b"checkcast"),
        0x95 => Some(b"instanceof"),
        0x96 => Some(b"sinc_w"),
        0xA9 => Some(b"getfield_a_w"),
        0xAA => Some(b"getfield_b_w"),
        0xAB => Some(b"getfield_s_w"),
        0xAD => Some(b"getfield_a_this"),
        0xAE => Some(b"getfield_b_this"),
        0xAF => Some(b"getfield_s_this"),
        0xB1 => Some(b"putfield_a_w"),
        0xB2 => Some(b"putfield_b_w"),
        0xB3 => Some(b"putfield_s_w"),
        0xB5 => Some(b"putfield_a_this"),
        0xB6 => Some(b"putfield_b_this"),
        0xB7 => Some(b"putfield_s_this"),
        _ => None,
    }
}
