//! Why a command of a load is refused.
use jc_cap::fault::CapFault;
use jc_linker::fault::LinkFault;
use thiserror::Error;

/// Why a command of a load is refused: a case for each status word that is answered, and for those of components and of
/// linking their fault. The refusals of a package stand in the order in which they are asked.
#[derive(Clone, Copy, Debug, Error)]
pub enum LoadRefusal {
    /// No load or no component is open, or one is that must not be.
    #[error("the command is out of turn")]
    OutOfSequence,
    /// No component has such a tag.
    #[error("no component has this tag")]
    UnknownTag,
    /// A component cannot be read or taken, or the components are no package.
    #[error("the components are no package")]
    BadComponents(CapFault),
    /// A package with its AID is there, perhaps one of the platform.
    #[error("a package with this AID is there")]
    AidTaken,
    /// There are as many packages as there can be.
    #[error("there are as many packages as there can be")]
    Full,
    /// The package does not link, or memory was refused.
    #[error("the package does not link")]
    LinkFailed(LinkFault),
    /// The heap has no space for the package.
    #[error("the heap has no space")]
    HeapFull,
}
