//! The Import component.
ghost use Rattle.std.specs.Prelude.{◌≡◌, ◌∷◌, [], ◌<◌, List, length, Some, None, Ok, IfOk, MatchOption, slice_get};
ghost use Rattle.jc_cap.specs.Reading.{ParsesAs, many_at, value_of_whole, IsReadable};
ghost use Rattle.jc_cap.specs.Packages.{NamedPackage, package_at};
ghost use Rattle.jc_cap.specs.FieldViews.{package_info};
ghost use Rattle.jc_cap.specs.Imports.{imports_at, IsImports};

use crate::counted::{seek, skip_many};
use crate::fault::CapFault;
use crate::fields::u1;
use crate::packages::{PackageInfo, package_info};
use crate::parts::PackagePart;
use std::marker::Model;

/// The packages that a package imports, by their tokens. They are lent from the component.
#[derive(Drop)]
pub struct Imports<'a> {
    count: u8,
    bytes: &'a [u8],
}

impl<'a> Model for Imports<'a> {
    ghost use Rattle.std.specs.Prelude.{List};
    ghost use Rattle.jc_cap.specs.Packages.{NamedPackage, package_at};
    ghost use Rattle.jc_cap.specs.Reading.{many_at, list_or_empty};
    ghost use Rattle.jc_cap.specs.Places.{IsList};

    ghost Value = { List NamedPackage };

    ghost view = { λ a. list_or_empty (many_at package_at a.count a.bytes.now) };

    ghost invariant = { λ a. IsList package_at a.count a.bytes.now };
}

#[tactic(auto, unfolding(crate::specs::Imports::imports_at))]
fn imports_of(bytes: &[u8]) -> Result<(Imports<'_>, &[u8]), CapFault>
    ensures { ParsesAs (λ x. (x.0, x.1.now)) result (imports_at bytes.now) }
{
    let (count, bytes) = u1(bytes)?;
    let rest = skip_many::<PackagePart>(count as u16, bytes)?;
    Ok((Imports { count, bytes }, rest))
}

fn whole_imports(info: &[u8]) -> Result<Imports<'_>, CapFault>
    ensures { ParsesAs (λ y. y) result (value_of_whole (imports_at info.now)) }
{
    let (imports, rest) = imports_of(info)?;
    if !rest.is_empty() {
        return Err(CapFault::Trailing);
    }
    Ok(imports)
}

/// The imported packages in an info.
pub fn read_imports(info: &[u8]) -> Result<Imports<'_>, CapFault>
    // What is read stands in the info.
    ensures found { IfOk result (λ x. IsImports x info.now) }
    // Imports that the info is are read.
    ensures only { (x : List NamedPackage) → IsImports x info.now
        → ParsesAs (λ y. y) result (Ok x) }
    // Otherwise the fault is the first one from the left.
    ensures exact { ParsesAs (λ y. y) result (value_of_whole (imports_at info.now)) }
{
    whole_imports(info)
}

impl<'a> Imports<'a> {
    /// The packages in an info which was read before. They are found again without reading it.
    pub fn found_in(info: &'a [u8]) -> Imports<'a>
        requires { IsReadable (value_of_whole (imports_at info.now)) }
        ensures { value_of_whole (imports_at info.now) ≡ Ok result }
    {
        match u1(info) {
            Ok((count, bytes)) => Imports { count, bytes },
            Err(_) => unreachable!(),
        }
    }

    /// How many there are.
    pub fn count(&self) -> u8
        ensures { result ≡ length self.now }
    {
        self.count
    }

    /// The first package, and the others.
    pub fn split_first(&self) -> Option<(PackageInfo<'a>, Imports<'a>)>
        ensures { MatchOption result (self.now ≡ []) (λ x. self.now ≡ package_info x.0 ∷ x.1) }
    {
        if self.count == 0 {
            return None;
        }
        match package_info(self.bytes) {
            Ok((value, rest)) => Some((
                value,
                Imports {
                    count: self.count - 1,
                    bytes: rest,
                },
            )),
            Err(_) => unreachable!(),
        }
    }

    /// The package with this token. Those before it are passed over.
    pub fn get(&self, index: u8) -> PackageInfo<'a>
        requires { index < length self.now }
        ensures { slice_get self.now index ≡ Some (package_info result) }
    {
        let place = seek::<PackagePart>(index as u16, self.count as u16, self.bytes);
        match package_info(place) {
            Ok((value, _)) => value,
            Err(_) => unreachable!(),
        }
    }
}
