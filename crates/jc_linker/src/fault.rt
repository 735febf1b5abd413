//! Why a package is not linked.

use thiserror::Error;

/// Why a package is not linked.
#[derive(Clone, Copy, Debug, Error)]
pub enum LinkFault {
    /// A package that it imports is not there.
    #[error("an imported package is missing")]
    ImportMissing,
    /// A package that it imports has another version.
    #[error("an imported package has another version")]
    ImportVersion,
    /// The entry of the constant pool with this index does not resolve, or for 65535 what a class names is not there.
    #[error("entry {0} of the constant pool does not resolve")]
    Unresolved(u16),
    /// Memory was refused.
    #[error("no memory")]
    NoMemory,
}

impl From<std::alloc::AllocError> for LinkFault {
    ghost use Rattle.std.specs.Prelude.{◌≡◌};
    ghost use Rattle.jc_linker.specs.declared.fault.LinkFault.TheVariants.{NoMemory};

    ghost from_gives = { λ e f. f ≡ NoMemory };

    fn from(_refused: std::alloc::AllocError) -> Self {
        LinkFault::NoMemory
    }
}
