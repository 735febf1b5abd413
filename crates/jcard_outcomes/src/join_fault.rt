//! Why texts are not the parts of a sweep.
ghost use Rattle.std.specs.Prelude.{◌≡◌};
ghost use Rattle.jcard_outcomes.specs.declared.join_fault.JoinFault.TheVariants.{NoMemory};

use std::alloc::AllocError;

/// Why texts are not the parts of a sweep.
#[derive(Clone, Copy, Drop)]
pub enum JoinFault {
    NoMemory,
    /// The line about this many writes is missing.
    Missing(usize),
    /// It stands twice.
    Twice(usize),
    /// It reports no cut.
    BadLine(usize),
    /// It is one of another sweep.
    OtherSweep(usize),
}

impl From<AllocError> for JoinFault {
    ghost from_gives = { λ _ fault. fault ≡ NoMemory };

    fn from(_: AllocError) -> Self {
        JoinFault::NoMemory
    }
}
