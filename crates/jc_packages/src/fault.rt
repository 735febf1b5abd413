//! Why what an image holds is not read.
ghost use Rattle.std.specs.Prelude.{◌≡◌};
ghost use Rattle.jc_packages.specs.declared.fault.ReadFault.TheVariants.{NoMemory};

use std::alloc::AllocError;

/// Why what an image holds is not read.
#[derive(Clone, Copy, Drop)]
pub enum ReadFault {
    /// It is damaged, or the words are no image.
    Damaged,
    /// Memory was refused.
    NoMemory,
}

impl From<AllocError> for ReadFault {
    ghost from_gives = { λ _ fault. fault ≡ NoMemory };

    fn from(_: AllocError) -> Self {
        ReadFault::NoMemory
    }
}
