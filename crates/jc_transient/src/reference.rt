//! Names of objects.
ghost use Rattle.std.specs.Prelude.{◌≡◌, ◌<◌, ◌^◌, ◌↔◌, IsTrue};

use std::marker::Model;

/// A reference: the word address of an object's header in the image. 0 is null. It is a name only:
/// the object need not be there.
#[derive(Clone, Copy, PartialEq, Eq)]
pub struct Ref(u16);

impl Model for Ref {
    ghost use Rattle.std.specs.Prelude.{ℕ};

    ghost Value = { ℕ };

    ghost view = { λ r. r.0 };

    ghost inverse = { λ n. record { 0 = n } };
}

impl Ref {
    /// The reference to no object.
    #[inline(always)]
    pub const fn null() -> Ref
        ensures { result ≡ 0 }
    {
        Ref(0)
    }

    /// The reference to the object at an address.
    #[inline(always)]
    pub const fn at(address: u16) -> Ref
        ensures { result ≡ address }
    {
        Ref(address)
    }

    /// The word address of the object; 0 for null.
    #[inline(always)]
    pub const fn address(self) -> u16
        ensures { result ≡ self }
    {
        self.0
    }

    /// Whether it refers to no object.
    #[inline(always)]
    pub const fn is_null(self) -> bool
        ensures { IsTrue result ↔ (self ≡ 0) }
    {
        self.address() == 0
    }
}
