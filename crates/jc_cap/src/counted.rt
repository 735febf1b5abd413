//! Counted parts, one after the other.
ghost use Rattle.std.specs.Prelude.{◌≡◌, ◌<◌, ℕ, List, Result};
ghost use Rattle.jc_cap.specs.declared.fault.CapFault.{CapFault};
ghost use Rattle.jc_cap.specs.Reading.{ParsesAs, many_at, rest_after};
ghost use Rattle.jc_cap.specs.Places.{IsList, IsAtPlace};

use crate::fault::CapFault;

/// What a counted list is made of.
pub trait Part {
    /// What one says.
    ghost Said: { Type 0 };
    /// Reading one.
    ghost at: { List ℕ → Result (Said × List ℕ) CapFault };

    /// The bytes after the first one.
    fn skip(bytes: &[u8]) -> Result<&[u8], CapFault>
        ensures { ParsesAs (λ x. x.now) result (rest_after (at bytes.now)) };
}

/// The bytes after as many as are counted.
pub fn skip_many<K: Part>(count: u16, bytes: &[u8]) -> Result<&[u8], CapFault>
    ensures { ParsesAs (λ x. x.now) result (rest_after (many_at K.at count bytes.now)) }
{
    let mut rest = bytes;
    for _ in 0..count {
        rest = K::skip(rest)?;
    }
    Ok(rest)
}

/// The bytes that begin with the one at a place, where the bytes begin with as many as are counted.
pub fn seek<K: Part>(index: u16, count: u16, bytes: &[u8]) -> &[u8]
    requires within { index < count }
    requires list { IsList K.at count bytes.now }
    ensures { IsAtPlace K.at index count bytes.now result.now }
{
    let mut rest = bytes;
    for _ in 0..index {
        match K::skip(rest) {
            Ok(next) => rest = next,
            Err(_) => unreachable!(),
        }
    }
    rest
}
