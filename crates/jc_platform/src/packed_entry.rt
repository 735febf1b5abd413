//! The entry of a row.

ghost use Rattle.std.specs.Prelude.{◌≡◌};
ghost use Rattle.jc_platform.specs.Packing.{byte_place, entry_of, place_of_class, place_of_method};
ghost use Rattle.jc_platform.specs.Numbers.{package_number};

use crate::lookup::{classes_of, methods_of};
use crate::names::{PlatformClass, PlatformMethod, PlatformPackage};
use crate::row::Row;

/// An entry of a packed table: its kind, and three bytes by the kind.
pub(crate) type Entry = [u8; 4];

/// The entry of a row, if it has one.
pub(crate) fn entry_of(row: Row) -> Option<Entry>
    ensures { result ≡ entry_of row }
{
    match row {
        Row::Extended => Some([0, 0, 0, 0]),
        Row::Random(_) => None,
        Row::Package(named, version) => {
            Some([1, package_number(named), version.major, version.minor])
        }
        Row::Class(class, token) => Some([2, place_of_class(class)?, token, 0]),
        Row::Method(method, token) => Some([3, place_of_method(method)?, token, 0]),
    }
}

/// The number of a package.
fn package_number(named: PlatformPackage) -> u8
    ensures { result ≡ package_number named }
{
    match named {
        PlatformPackage::JavaLang => 0,
        PlatformPackage::JavacardFramework => 1,
        PlatformPackage::JavacardxApdu => 2,
        PlatformPackage::JavacardSecurity => 3,
        PlatformPackage::JavacardxCrypto => 4,
    }
}

/// The place of a class among those of its package.
fn place_of_class(class: PlatformClass) -> Option<u8>
    ensures { result ≡ place_of_class class }
{
    let place = classes_of(class.home())
        .iter()
        .position(|row| row.class.is(class))?;
    byte_place(place)
}

/// The place of a method among those of its class.
fn place_of_method(method: PlatformMethod) -> Option<u8>
    ensures { result ≡ place_of_method method }
{
    let number = method.index();
    let place = methods_of(method.class())
        .iter()
        .position(|row| row.method.index() == number)?;
    byte_place(place)
}

/// A place, if one byte can tell it.
fn byte_place(place: usize) -> Option<u8>
    ensures { result ≡ byte_place place }
{
    u8::try_from(place).ok()
}
