//! The operands of instructions: unsigned and signed numbers of one byte and of two.
ghost use Rattle.std.specs.Prelude.{IsSome, ◌≡◌, ◌+◌, ◌<◌, length};
ghost use Rattle.jc_frames.specs.Operands.{u1, s1, u2, s2};

/// The unsigned byte at `at`, if the code reaches so far.
#[inline]
pub fn u1_at(code: &[u8], at: usize) -> Option<u8>
    ensures value { result ≡ u1 code.now at }
    ensures within { IsSome result → at < length code.now }
{
    code.get(at).copied()
}

/// The signed byte at `at`, if the code reaches so far.
#[inline]
pub fn s1_at(code: &[u8], at: usize) -> Option<i16>
    ensures value { result ≡ s1 code.now at }
    ensures within { IsSome result → at < length code.now }
{
    let byte = *code.get(at)?;
    Some(i16::from(byte.cast_signed()))
}

/// The unsigned number of the two bytes from `at` on, the high one first, if the code reaches so far.
#[inline]
pub fn u2_at(code: &[u8], at: usize) -> Option<u16>
    ensures value { result ≡ u2 code.now at }
    ensures within { IsSome result → at + 1 < length code.now }
{
    let low = *code.get(at.checked_add(1)?)?; // the last first, so that the other needs no test
    Some(u16::from(code[at]) * 256 + u16::from(low))
}

/// The signed number of the two bytes from `at` on, the high one first, if the code reaches so far.
#[inline]
pub fn s2_at(code: &[u8], at: usize) -> Option<i16>
    ensures value { result ≡ s2 code.now at }
    ensures within { IsSome result → at + 1 < length code.now }
{
    Some(u2_at(code, at)?.cast_signed())
}
