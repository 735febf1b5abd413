//! What the rows of the platform's methods say of each.

ghost use Rattle.std.specs.Prelude.{◌≡◌};
ghost use Rattle.jc_platform.specs.NamePlaces.{class_of, kind_of_method, name_of_method};
ghost use Rattle.jc_platform.specs.Signatures.{answer_of, argument_cells, is_constructor, parameters_of, receiver_cells, receiver_of};

use crate::kinds::{Answer, ParameterKind, Receiver};
use crate::names::{MethodKind, PlatformClass, PlatformMethod};

impl PlatformMethod {
    /// The class or the interface that it is in.
    #[inline(always)]
    pub fn class(self) -> PlatformClass
        ensures { result ≡ class_of self }
    {
        self.row().class
    }

    /// Its kind.
    pub fn kind(self) -> MethodKind
        ensures { result ≡ kind_of_method self }
    {
        self.row().kind
    }

    /// Its name in platform tables.
    pub fn name(self) -> &'static [u8]
        ensures { result.now ≡ name_of_method self }
    {
        self.row().name
    }

    /// Its parameters after its receiver.
    #[tactic(auto, unfolding(crate::specs::Signatures::parameters_of))]
    #[inline(always)]
    pub fn parameters(self) -> &'static [ParameterKind]
        ensures { result.now ≡ parameters_of self }
    {
        self.row().parameters
    }

    /// What it returns.
    #[tactic(auto, unfolding(crate::specs::Signatures::answer_of))]
    pub fn answer(self) -> Answer
        ensures { result ≡ answer_of self }
    {
        self.row().answer
    }

    /// What it does with the object that it is called on.
    #[tactic(auto, unfolding(crate::specs::Signatures::receiver_of))]
    #[inline(always)]
    pub fn receiver(self) -> Receiver
        ensures { result ≡ receiver_of self }
    {
        self.row().receiver
    }

    /// How many cells its arguments have, its receiver among them.
    #[tactic(auto, unfolding(crate::specs::Signatures::argument_cells))]
    #[inline(always)]
    pub fn argument_cells(self) -> u8
        ensures { result ≡ argument_cells self }
    {
        let row = self.row();
        row.parameters.len() as u8 + row.receiver.cells()
    }

    /// It is a constructor: of the static methods, just they are called on an object.
    #[inline(always)]
    pub fn is_constructor(self) -> bool
        ensures { result ≡ is_constructor self }
    {
        let row = self.row();
        row.kind.is(MethodKind::Static) && row.receiver.cells() == 1
    }
}

impl Receiver {
    // How many cells it has among the arguments.
    #[inline(always)]
    const fn cells(self) -> u8
        ensures { result ≡ receiver_cells self }
    {
        match self {
            Receiver::Absent => 0,
            Receiver::Kept | Receiver::Registered | Receiver::Changed => 1,
        }
    }
}
