//! The custom components that a Directory component names.
ghost use Rattle.std.specs.Prelude.{◌≡◌, ◌∷◌, [], ◌<◌, List, length, Some, None, Ok, MatchOption, slice_get};
ghost use Rattle.jc_cap.specs.Reading.{ParsesAs, rest_after, many_at, list_or_empty};
ghost use Rattle.jc_cap.specs.Places.{IsList};
ghost use Rattle.jc_cap.specs.Customs.{CustomNamed, custom_at};
ghost use Rattle.jc_cap.specs.ComponentViews.{custom_component};

use crate::counted::{Part, seek, skip_many};
use crate::fault::CapFault;
use crate::fields::{aid, u1, u2};
use crate::tags;
use std::marker::Model;

/// A custom component that the package says that it has.
#[derive(Clone, Copy, Drop)]
pub struct CustomComponent<'a> {
    /// `FIRST_CUSTOM` or above.
    pub tag: u8,
    pub size: u16,
    /// 5 to 16 bytes.
    pub aid: &'a [u8],
}

#[tactic(auto, unfolding(crate::specs::Customs::custom_at))]
fn custom_component(bytes: &[u8]) -> Result<(CustomComponent<'_>, &[u8]), CapFault>
    ensures { ParsesAs (λ x. (custom_component x.0, x.1.now)) result (custom_at bytes.now) }
{
    let (tag, rest) = u1(bytes)?;
    if tag < tags::FIRST_CUSTOM {
        return Err(CapFault::BadOffset);
    }
    let (size, rest) = u2(rest)?;
    let (aid, rest) = aid(rest)?;
    Ok((CustomComponent { tag, size, aid }, rest))
}

struct CustomPart;

impl Part for CustomPart {
    ghost use Rattle.jc_cap.specs.Customs.{CustomNamed, custom_at};

    ghost Said = { CustomNamed };

    ghost at = { custom_at };

    fn skip(bytes: &[u8]) -> Result<&[u8], CapFault> {
        let (_, rest) = custom_component(bytes)?;
        Ok(rest)
    }
}

/// The custom components that the package says that it has. They are lent from the component.
#[derive(Drop)]
pub struct CustomComponents<'a> {
    count: u8,
    bytes: &'a [u8],
}

impl<'a> Model for CustomComponents<'a> {
    ghost use Rattle.std.specs.Prelude.{List};
    ghost use Rattle.jc_cap.specs.Customs.{CustomNamed, custom_at};
    ghost use Rattle.jc_cap.specs.Reading.{many_at, list_or_empty};
    ghost use Rattle.jc_cap.specs.Places.{IsList};

    ghost Value = { List CustomNamed };

    ghost view = { λ a. list_or_empty (many_at custom_at a.count a.bytes.now) };

    ghost invariant = { λ a. IsList custom_at a.count a.bytes.now };
}

/// As many custom components as are counted.
pub(crate) fn custom_components(
    count: u8,
    bytes: &[u8],
) -> Result<(CustomComponents<'_>, &[u8]), CapFault>
    ensures { ParsesAs (λ x. (x.0, x.1.now)) result (many_at custom_at count bytes.now) }
{
    let rest = skip_many::<CustomPart>(count as u16, bytes)?;
    Ok((CustomComponents { count, bytes }, rest))
}

impl<'a> CustomComponents<'a> {
    /// As many custom components as are counted, with which bytes begin that were read before.
    pub(crate) fn found_in(count: u8, bytes: &'a [u8]) -> CustomComponents<'a>
        requires { IsList custom_at count bytes.now }
        ensures { result ≡ list_or_empty (many_at custom_at count bytes.now) }
    {
        CustomComponents { count, bytes }
    }

    /// How many there are.
    pub fn count(&self) -> u8
        ensures { result ≡ length self.now }
    {
        self.count
    }

    /// The first custom component, and the others.
    pub fn split_first(&self) -> Option<(CustomComponent<'a>, CustomComponents<'a>)>
        ensures { MatchOption result (self.now ≡ []) (λ x. self.now ≡ custom_component x.0 ∷ x.1) }
    {
        if self.count == 0 {
            return None;
        }
        match custom_component(self.bytes) {
            Ok((value, rest)) => Some((
                value,
                CustomComponents {
                    count: self.count - 1,
                    bytes: rest,
                },
            )),
            Err(_) => unreachable!(),
        }
    }

    /// The custom component of an entry. Those before it are passed over.
    pub fn get(&self, index: u8) -> CustomComponent<'a>
        requires { index < length self.now }
        ensures { slice_get self.now index ≡ Some (custom_component result) }
    {
        let place = seek::<CustomPart>(index as u16, self.count as u16, self.bytes);
        match custom_component(place) {
            Ok((value, _)) => value,
            Err(_) => unreachable!(),
        }
    }
}
