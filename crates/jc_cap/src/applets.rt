//! The Applet component.
ghost use Rattle.std.specs.Prelude.{◌≡◌, ◌∷◌, [], ◌<◌, List, length, Some, None, Ok, IfOk, MatchOption, slice_get};
ghost use Rattle.jc_cap.specs.Reading.{ParsesAs, rest_after, many_at, value_of_whole, IsReadable};
ghost use Rattle.jc_cap.specs.Applets.{AppletNamed, applet_at, applets_at, IsApplets};
ghost use Rattle.jc_cap.specs.ComponentViews.{applet_info};

use crate::counted::{Part, seek, skip_many};
use crate::fault::CapFault;
use crate::fields::{aid, u1, u2};
use std::marker::Model;

/// An applet of the package.
#[derive(Clone, Copy, Drop)]
pub struct AppletInfo<'a> {
    /// 5 to 16 bytes.
    pub aid: &'a [u8],
    /// Where its install method begins in the Method component's info.
    pub install_method_offset: u16,
}

#[tactic(auto, unfolding(crate::specs::Applets::applet_at))]
fn applet_info(bytes: &[u8]) -> Result<(AppletInfo<'_>, &[u8]), CapFault>
    ensures { ParsesAs (λ x. (applet_info x.0, x.1.now)) result (applet_at bytes.now) }
{
    let (aid, rest) = aid(bytes)?;
    let (install_method_offset, rest) = u2(rest)?;
    let info = AppletInfo {
        aid,
        install_method_offset,
    };
    Ok((info, rest))
}

struct AppletPart;

impl Part for AppletPart {
    ghost use Rattle.jc_cap.specs.Applets.{AppletNamed, applet_at};

    ghost Said = { AppletNamed };

    ghost at = { applet_at };

    fn skip(bytes: &[u8]) -> Result<&[u8], CapFault> {
        let (_, rest) = applet_info(bytes)?;
        Ok(rest)
    }
}

/// The applets of a package, in the order of their entries. They are lent from the component.
#[derive(Drop)]
pub struct Applets<'a> {
    count: u8,
    bytes: &'a [u8],
}

impl<'a> Model for Applets<'a> {
    ghost use Rattle.std.specs.Prelude.{List};
    ghost use Rattle.jc_cap.specs.Applets.{AppletNamed, applet_at};
    ghost use Rattle.jc_cap.specs.Reading.{many_at, list_or_empty};
    ghost use Rattle.jc_cap.specs.Places.{IsList};

    ghost Value = { List AppletNamed };

    ghost view = { λ a. list_or_empty (many_at applet_at a.count a.bytes.now) };

    ghost invariant = { λ a. IsList applet_at a.count a.bytes.now };
}

#[tactic(auto, unfolding(crate::specs::Applets::applets_at))]
fn applets_of(bytes: &[u8]) -> Result<(Applets<'_>, &[u8]), CapFault>
    ensures { ParsesAs (λ x. (x.0, x.1.now)) result (applets_at bytes.now) }
{
    let (count, bytes) = u1(bytes)?;
    let rest = skip_many::<AppletPart>(count as u16, bytes)?;
    Ok((Applets { count, bytes }, rest))
}

fn whole_applets(info: &[u8]) -> Result<Applets<'_>, CapFault>
    ensures { ParsesAs (λ y. y) result (value_of_whole (applets_at info.now)) }
{
    let (applets, rest) = applets_of(info)?;
    if !rest.is_empty() {
        return Err(CapFault::Trailing);
    }
    Ok(applets)
}

/// The applets in an info.
pub fn read_applets(info: &[u8]) -> Result<Applets<'_>, CapFault>
    // What is read stands in the info.
    ensures found { IfOk result (λ x. IsApplets x info.now) }
    // Applets that the info is are read.
    ensures only { (x : List AppletNamed) → IsApplets x info.now → ParsesAs (λ y. y) result (Ok x) }
    // Otherwise the fault is the first one from the left.
    ensures exact { ParsesAs (λ y. y) result (value_of_whole (applets_at info.now)) }
{
    whole_applets(info)
}

impl<'a> Applets<'a> {
    /// The applets in an info which was read before. They are found again without reading it.
    pub fn found_in(info: &'a [u8]) -> Applets<'a>
        requires { IsReadable (value_of_whole (applets_at info.now)) }
        ensures { value_of_whole (applets_at info.now) ≡ Ok result }
    {
        match u1(info) {
            Ok((count, bytes)) => Applets { count, bytes },
            Err(_) => unreachable!(),
        }
    }

    /// How many there are.
    pub fn count(&self) -> u8
        ensures { result ≡ length self.now }
    {
        self.count
    }

    /// The first applet, and the others.
    pub fn split_first(&self) -> Option<(AppletInfo<'a>, Applets<'a>)>
        ensures { MatchOption result (self.now ≡ []) (λ x. self.now ≡ applet_info x.0 ∷ x.1) }
    {
        if self.count == 0 {
            return None;
        }
        match applet_info(self.bytes) {
            Ok((value, rest)) => Some((
                value,
                Applets {
                    count: self.count - 1,
                    bytes: rest,
                },
            )),
            Err(_) => unreachable!(),
        }
    }

    /// The applet of an entry. Those before it are passed over.
    pub fn get(&self, index: u8) -> AppletInfo<'a>
        requires { index < length self.now }
        ensures { slice_get self.now index ≡ Some (applet_info result) }
    {
        let place = seek::<AppletPart>(index as u16, self.count as u16, self.bytes);
        match applet_info(place) {
            Ok((value, _)) => value,
            Err(_) => unreachable!(),
        }
    }
}
