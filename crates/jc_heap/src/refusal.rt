//! Why a call of a heap is refused.
ghost use Rattle.std.specs.Prelude.{◌≡◌};
ghost use Rattle.jc_heap.specs.Refusal.{change_refusal, heap_refusal};
ghost use Rattle.jc_heap.specs.declared.refusal.HeapRefusal.TheVariants.{StoreDown};

use jc_commit::WriteRefusal;
use thiserror::Error;

/// Why a change was not made.
#[derive(Clone, Copy, Debug, PartialEq, Eq, Error)]
pub enum ChangeRefusal {
    /// The store refused a write. Only a power up follows.
    #[error("the store is down")]
    StoreDown,
    /// The transaction has no room for the change.
    #[error("the transaction has no room for the change")]
    CommitFull,
}

/// Why an object or a package was not made.
#[derive(Clone, Copy, Debug, Error)]
pub enum HeapRefusal {
    /// The store refused a write. Only a power up follows.
    #[error("the store is down")]
    StoreDown,
    /// The transaction has no room for the change.
    #[error("the transaction has no room for the change")]
    CommitFull,
    /// There is no space for the object.
    #[error("the heap is full")]
    HeapFull,
    /// There is no space in the area for the object's cells.
    #[error("the area of transient cells is full")]
    NoTransientSpace,
}

impl From<WriteRefusal> for ChangeRefusal {
    ghost from_gives = { λ r e. e ≡ change_refusal r };

    fn from(refusal: WriteRefusal) -> Self {
        match refusal {
            WriteRefusal::StoreDown => ChangeRefusal::StoreDown,
            WriteRefusal::Full => ChangeRefusal::CommitFull,
        }
    }
}

impl From<ChangeRefusal> for HeapRefusal {
    ghost from_gives = { λ r e. e ≡ heap_refusal r };

    fn from(refusal: ChangeRefusal) -> Self {
        match refusal {
            ChangeRefusal::StoreDown => HeapRefusal::StoreDown,
            ChangeRefusal::CommitFull => HeapRefusal::CommitFull,
        }
    }
}

impl From<jc_words::StoreDown> for HeapRefusal {
    ghost from_gives = { λ _ e. e ≡ StoreDown };

    fn from(_: jc_words::StoreDown) -> Self {
        HeapRefusal::StoreDown
    }
}
