//! Who owns objects, and for whom code runs.
ghost use Rattle.std.specs.Prelude.{◌≡◌};
ghost use Rattle.jc_transient.specs.Owners.{owner_number, owner_of};

use crate::header_words::{OwnerWord, RUNTIME_ENVIRONMENT};

/// An applet instance by its number in the registry, 1 to 64.
#[derive(Clone, Copy)]
pub struct AppletNumber(pub u8);

/// A package by its number.
#[derive(Clone, Copy)]
pub struct PackageNumber(pub u8);

/// Who owns objects, and for whom code runs.
#[derive(Clone, Copy, Default)]
pub enum Owner {
    /// The runtime environment.
    #[default]
    Runtime,
    /// An applet instance.
    Applet(AppletNumber),
    /// A package: it owns its initialised arrays.
    Package(PackageNumber),
}

impl Owner {
    /// The owner as an object header has it: 0, the number of the applet, or 256 and the number of
    /// the package.
    #[inline(always)]
    pub const fn number(self) -> OwnerWord
        ensures { result ≡ owner_number self }
    {
        match self {
            Owner::Runtime => RUNTIME_ENVIRONMENT,
            Owner::Applet(applet) => OwnerWord(applet.0 as u16),
            Owner::Package(package) => OwnerWord(256 + package.0 as u16),
        }
    }

    /// The owner that an object header names.
    #[inline(always)]
    pub const fn of(number: OwnerWord) -> Owner
        ensures { result ≡ owner_of number }
    {
        if number.0 == 0 {
            return Owner::Runtime;
        }
        if number.0 < 256 {
            return Owner::Applet(AppletNumber(number.0 as u8));
        }
        Owner::Package(PackageNumber((number.0 % 256) as u8))
    }
}
