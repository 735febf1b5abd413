//! Lent lists of numbers.
ghost use Rattle.std.specs.Prelude.{◌≡◌, ◌<◌, length, Some, slice_get};
ghost use Rattle.jc_cap.specs.Reading.{ParsesAs, u2_at, many_at, list_or_empty};
ghost use Rattle.jc_cap.specs.Places.{IsList};

use crate::counted::skip_many;
use crate::fault::CapFault;
use crate::fields::u2;
use crate::parts::U2;
use std::marker::Model;

/// Numbers of two bytes, by their places. They are lent from a component.
#[derive(Drop)]
pub struct U2List<'a> {
    count: u16,
    bytes: &'a [u8],
}

impl<'a> Model for U2List<'a> {
    ghost use Rattle.std.specs.Prelude.{ℕ, List};
    ghost use Rattle.jc_cap.specs.Reading.{u2_at, many_at, list_or_empty};
    ghost use Rattle.jc_cap.specs.Places.{IsList};

    ghost Value = { List ℕ };

    ghost view = { λ a. list_or_empty (many_at u2_at a.count a.bytes.now) };

    ghost invariant = { λ a. IsList u2_at a.count a.bytes.now };
}

/// As many numbers of two bytes as are counted, and the bytes after them.
pub fn u2_list(count: u16, bytes: &[u8]) -> Result<(U2List<'_>, &[u8]), CapFault>
    ensures { ParsesAs (λ x. (x.0, x.1.now)) result (many_at u2_at count bytes.now) }
{
    let rest = skip_many::<U2>(count, bytes)?;
    Ok((U2List { count, bytes }, rest))
}

impl<'a> U2List<'a> {
    /// As many numbers as are counted, with which bytes begin that were read before.
    pub(crate) fn found_in(count: u16, bytes: &'a [u8]) -> U2List<'a>
        requires { IsList u2_at count bytes.now }
        ensures { result ≡ list_or_empty (many_at u2_at count bytes.now) }
    {
        U2List { count, bytes }
    }

    /// How many there are.
    pub fn count(&self) -> u16
        ensures { result ≡ length self.now }
    {
        self.count
    }

    /// The one at a place.
    pub fn get(&self, index: u16) -> u16
        requires { index < length self.now }
        ensures { slice_get self.now index ≡ Some result }
    {
        let (_, place) = self.bytes.split_at(index as usize * 2);
        match u2(place) {
            Ok((value, _)) => value,
            Err(_) => unreachable!(),
        }
    }
}
