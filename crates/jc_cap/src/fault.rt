//! Why a component, or the components of a package, are refused.
ghost use Rattle.std.specs.Prelude.{◌≡◌};
ghost use Rattle.jc_cap.specs.Fault.{number};

use thiserror::Error;

/// The first mismatch, from left to right.
#[derive(Clone, Copy, Debug, Drop, Error)]
pub enum CapFault {
    #[error("the component ends too early")]
    Truncated,
    #[error("bytes stand after the component's end")]
    Trailing,
    #[error("the magic number is missing")]
    BadMagic,
    #[error("the version of the format is not known")]
    BadVersion,
    #[error("the package uses int")]
    UsesInt,
    #[error("the package has a remote interface")]
    Remote,
    #[error("the sizes disagree")]
    SizesDisagree,
    /// The tag of the component that is not there.
    #[error("component {0} is missing")]
    Missing(u8),
    /// The tag of the component that came a second time.
    #[error("component {0} came twice")]
    Repeated(u8),
    #[error("a value or an offset is not allowed")]
    BadOffset,
    #[error("memory ran out")]
    NoMemory,
}

impl CapFault {
    /// The number of the fault, 1 to 11, in the order in which they are declared.
    pub fn number(self) -> u8
        ensures { result ≡ number self }
    {
        match self {
            CapFault::Truncated => 1,
            CapFault::Trailing => 2,
            CapFault::BadMagic => 3,
            CapFault::BadVersion => 4,
            CapFault::UsesInt => 5,
            CapFault::Remote => 6,
            CapFault::SizesDisagree => 7,
            CapFault::Missing(_) => 8,
            CapFault::Repeated(_) => 9,
            CapFault::BadOffset => 10,
            CapFault::NoMemory => 11,
        }
    }
}
