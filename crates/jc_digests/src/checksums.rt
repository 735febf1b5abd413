//! The checksums CRC-16 (CCITT) and CRC-32 of ISO 3309, over a remainder that the caller keeps. Both begin with all ones, and end with the
//! remainder's complement.

ghost use Rattle.std.specs.Prelude.{◌≡◌};
ghost use Rattle.jc_digests.specs.Checksums.{bits_in, generator_16, generator_32, remainder};

use crate::constants::{REMAINDERS_16, REMAINDERS_32};

#[inline(always)]
fn remainder_16(byte: u8) -> u16
    ensures { result ≡ bits_in generator_16 0 byte 8 }
{
    REMAINDERS_16[byte as usize]
}

#[inline(always)]
#[tactic(auto, using(crate::proofs::Remainders::byte_by_low))]
fn byte_into_16(register: u16, byte: u8) -> u16
    ensures { result ≡ bits_in generator_16 register byte 8 }
{
    let low = (register ^ u16::from(byte)) % 256;
    register / 256 ^ remainder_16(low as u8)
}

#[inline(always)]
fn remainder_32(byte: u8) -> u32
    ensures { result ≡ bits_in generator_32 0 byte 8 }
{
    REMAINDERS_32[byte as usize]
}

#[inline(always)]
#[tactic(auto, using(crate::proofs::Remainders::byte_by_low))]
fn byte_into_32(register: u32, byte: u8) -> u32
    ensures { result ≡ bits_in generator_32 register byte 8 }
{
    let low = (register ^ u32::from(byte)) % 256;
    register / 256 ^ remainder_32(low as u8)
}

/// The remainder of CRC-16 once a piece follows.
pub fn update_16(register: u16, piece: &[u8]) -> u16
    ensures { result ≡ remainder generator_16 register piece.now }
{
    let mut next = register;
    for byte in piece {
        next = byte_into_16(next, *byte);
    }
    next
}

/// The remainder of CRC-32 once a piece follows.
pub fn update_32(register: u32, piece: &[u8]) -> u32
    ensures { result ≡ remainder generator_32 register piece.now }
{
    let mut next = register;
    for byte in piece {
        next = byte_into_32(next, *byte);
    }
    next
}
