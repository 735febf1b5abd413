//! What the rows of the platform's classes say of each.

ghost use Rattle.std.specs.Prelude.{◌≡◌};
ghost use Rattle.jc_platform.specs.NamePlaces.{home_of, name_of_class};
ghost use Rattle.jc_platform.specs.Hierarchy.{carries_reason, cells_of, holds_reference, implementation_of, interfaces_of, is_instantiable, is_interface};
ghost use Rattle.jc_platform.specs.Hierarchy.{is_reference, is_throwable, is_thrown, superclass_of};

use crate::kinds::{CellKind, ClassForm};
use crate::names::{PlatformClass, PlatformMethod, PlatformPackage};

impl PlatformClass {
    /// The package that it is in.
    pub fn home(self) -> PlatformPackage
        ensures { result ≡ home_of self }
    {
        self.row().home
    }

    /// Its name in platform tables.
    pub fn name(self) -> &'static [u8]
        ensures { result.now ≡ name_of_class self }
    {
        self.row().name
    }

    /// The superclass. `Object` and the interfaces have none.
    #[tactic(auto, unfolding(crate::specs::Hierarchy::superclass_of))]
    pub fn superclass(self) -> Option<PlatformClass>
        ensures { result ≡ superclass_of self }
    {
        self.row().superclass
    }

    /// The interfaces that the class implements itself, and those that these extend.
    #[tactic(auto, unfolding(crate::specs::Hierarchy::interfaces_of))]
    pub fn interfaces(self) -> &'static [PlatformClass]
        ensures { result.now ≡ interfaces_of self }
    {
        self.row().interfaces
    }

    /// It is an interface.
    #[tactic(auto, unfolding(crate::specs::Hierarchy::is_interface))]
    pub fn is_interface(self) -> bool
        ensures { result ≡ is_interface self }
    {
        match self.row().form {
            ClassForm::Interface => true,
            _ => false,
        }
    }

    /// Its instances can be thrown.
    #[tactic(auto, unfolding(crate::specs::Hierarchy::is_throwable))]
    pub fn is_throwable(self) -> bool
        ensures { result ≡ is_throwable self }
    {
        match self.row().form {
            ClassForm::Exception => true,
            _ => false,
        }
    }

    /// Code may make instances of it by `new`: it is no interface, nor one of `Applet`, `APDU`, `JCSystem`, `Util`,
    /// `KeyBuilder`, the engines and the classes of keys.
    #[tactic(auto, unfolding(crate::specs::Hierarchy::is_instantiable))]
    pub fn is_instantiable(self) -> bool
        ensures { result ≡ is_instantiable self }
    {
        self.row().instantiable
    }

    /// The runtime environment has an instance of its own, which it throws.
    #[tactic(auto, unfolding(crate::specs::Hierarchy::is_thrown))]
    pub fn is_thrown(self) -> bool
        ensures { result ≡ is_thrown self }
    {
        self.row().thrown
    }

    /// How many cells an instance has: an exception of the card has 1, its reason; an `AID` 9, its length and its
    /// bytes, two in a cell; an `OwnerPIN` 5, its limit, maximum size, tries, length and value; a digest, a checksum
    /// and random data 2, their algorithm and their state; a key 2, its type and its data; a `Cipher` and a `Signature`
    /// 12, their algorithm, state, key, mode and vector, two bytes in a cell; others have none.
    #[tactic(auto, unfolding(crate::specs::Hierarchy::cells_of))]
    pub fn cells(self) -> u8
        ensures { result ≡ cells_of self }
    {
        self.row().cells.kinds().len() as u8
    }

    /// This cell of an instance holds a reference: the fifth of an `OwnerPIN` does, the second of an engine or a key,
    /// and the third of a `Cipher` or a `Signature`.
    #[tactic(auto, unfolding(crate::specs::Hierarchy::holds_reference))]
    pub fn holds_reference(self, cell: u16) -> bool
        ensures { result ≡ holds_reference self cell }
    {
        is_reference(self.row().cells.kinds().get(usize::from(cell)).copied())
    }

    /// Its instances can be thrown, and carry a reason.
    #[tactic(auto, unfolding(crate::specs::Hierarchy::carries_reason))]
    pub fn carries_reason(self) -> bool
        ensures { result ≡ carries_reason self }
    {
        self.is_throwable() && self.cells() > 0
    }
}

// A cell of this kind holds a reference.
#[inline(always)]
fn is_reference(kind: Option<CellKind>) -> bool
    ensures { result ≡ is_reference kind }
{
    match kind {
        Some(CellKind::Reference) => true,
        _ => false,
    }
}

impl PlatformMethod {
    /// The method that carries out this method of an interface, as `OwnerPIN`'s `check` does that of `PIN`.
    #[tactic(auto, unfolding(crate::specs::Hierarchy::implementation_of))]
    pub fn implementation(self) -> Option<PlatformMethod>
        ensures { result ≡ implementation_of self }
    {
        self.row().implementation
    }
}
