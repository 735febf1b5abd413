//! Why a listing ends early.
ghost use Rattle.std.specs.Prelude.{◌≡◌};
ghost use Rattle.jcard_dump.specs.Fault.{list_fault};
ghost use Rattle.jcard_dump.specs.declared.fault.ListFault.TheVariants.{NoMemory};

use jc_packages::fault::ReadFault;
use std::alloc::AllocError;

/// Why a listing ends early.
#[derive(Clone, Copy, Drop)]
pub enum ListFault {
    /// The words state no more.
    Unreadable,
    /// Memory was refused for the text.
    NoMemory,
}

impl From<AllocError> for ListFault {
    ghost from_gives = { λ _ fault. fault ≡ NoMemory };

    fn from(_: AllocError) -> Self {
        ListFault::NoMemory
    }
}

impl From<ReadFault> for ListFault {
    ghost from_gives = { λ cause fault. fault ≡ list_fault cause };

    fn from(cause: ReadFault) -> Self {
        match cause {
            ReadFault::Damaged => ListFault::Unreadable,
            ReadFault::NoMemory => ListFault::NoMemory,
        }
    }
}
