//! The fields that components are made of. Each reader answers the value and the bytes after it.
ghost use Rattle.std.specs.Prelude.{◌≡◌};
ghost use Rattle.jc_cap.specs.Reading.{ParsesAs, u1_at, u2_at, run_at, aid_at};

use crate::fault::CapFault;
use byteorder::{BigEndian, ByteOrder};

/// One byte. Truncated where there is none.
pub fn u1(bytes: &[u8]) -> Result<(u8, &[u8]), CapFault>
    ensures { ParsesAs (λ x. (x.0, x.1.now)) result (u1_at bytes.now) }
{
    match bytes {
        [] => Err(CapFault::Truncated),
        [first, rest @ ..] => Ok((*first, rest)),
    }
}

/// Two bytes, the high one first. Truncated where there are fewer.
pub fn u2(bytes: &[u8]) -> Result<(u16, &[u8]), CapFault>
    ensures { ParsesAs (λ x. (x.0, x.1.now)) result (u2_at bytes.now) }
{
    match bytes {
        [_, _, rest @ ..] => Ok((BigEndian::read_u16(bytes), rest)),
        _ => Err(CapFault::Truncated),
    }
}

/// The next `count` bytes. Truncated where there are fewer.
pub fn run(count: usize, bytes: &[u8]) -> Result<(&[u8], &[u8]), CapFault>
    ensures { ParsesAs (λ x. (x.0.now, x.1.now)) result (run_at count bytes.now) }
{
    if bytes.len() < count {
        return Err(CapFault::Truncated);
    }
    Ok(bytes.split_at(count))
}

/// An AID after a byte with its length, 5 to 16. BadOffset for another length.
#[tactic(auto, unfolding(crate::specs::Reading::aid_at))]
pub fn aid(bytes: &[u8]) -> Result<(&[u8], &[u8]), CapFault>
    ensures { ParsesAs (λ x. (x.0.now, x.1.now)) result (aid_at bytes.now) }
{
    let (count, rest) = u1(bytes)?;
    if count < 5 {
        return Err(CapFault::BadOffset);
    }
    if count > 16 {
        return Err(CapFault::BadOffset);
    }
    run(count as usize, rest)
}
