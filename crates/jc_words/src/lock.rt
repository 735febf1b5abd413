//! Locks on whole files, by which programs keep out of each other's way.
ghost use Rattle.std.specs.Prelude.{Result};
ghost use Rattle.jc_words.specs.declared.lock.Lock.{Lock};
ghost use Rattle.jc_words.specs.declared.lock.LockFault.{LockFault};

use std::fs::{File, TryLockError};
use thiserror::Error;

/// How a file is locked until it is closed.
#[derive(Clone, Copy)]
pub enum Lock {
    /// Nobody else has it locked.
    Exclusive,
    /// Nobody else has it locked but in this way.
    Shared,
}

/// Why a file was not locked.
#[derive(Clone, Copy, Debug, Error)]
pub enum LockFault {
    #[error("another has the file locked")]
    InUse,
    #[error("the file cannot be locked")]
    CannotLock,
}

/// A file that can be locked.
pub trait LockFile {
    /// What is known of a file that answered so when it was to be locked so.
    ghost lock_gives: { Self → Lock → Result Unit LockFault → Type 0 };

    /// Locks the file, and does not wait for a lock of another.
    fn lock_at_once(&self, lock: Lock) -> Result<(), LockFault>
        ensures { lock_gives self.now lock result };
}

/// A file of the operating system does not say who has locked it.
impl LockFile for File {
    ghost lock_gives = { λ _ _ _. Unit {0} };

    fn lock_at_once(&self, lock: Lock) -> Result<(), LockFault> {
        let locked = match lock {
            Lock::Exclusive => self.try_lock(),
            Lock::Shared => self.try_lock_shared(),
        };
        match locked {
            Ok(()) => Ok(()),
            Err(TryLockError::WouldBlock) => Err(LockFault::InUse),
            Err(TryLockError::Error(_)) => Err(LockFault::CannotLock),
        }
    }
}
