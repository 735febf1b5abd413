//! Opening files by their paths.
ghost use Rattle.std.specs.Prelude.{List, Result, ℕ};
ghost use Rattle.jc_words.specs.declared.opening.NotOpened.{NotOpened};
ghost use Rattle.jc_words.specs.declared.opening.Opening.{Opening};

use std::fs::{File, Files};
use thiserror::Error;

/// How a file is opened. It then stands at its first byte.
#[derive(Clone, Copy)]
pub enum Opening {
    /// To read it alone.
    ToRead,
    /// To read and to write it.
    ToChange,
    /// To read and to write it. One is made where there is none; one that is there stays as it is.
    ToMake,
}

/// A file was not opened.
#[derive(Clone, Copy, Debug, Error)]
#[error("the file cannot be opened")]
pub struct NotOpened;

/// Files that can be opened by their paths.
pub trait OpenPath {
    /// A file that is open.
    type File;

    /// What is known where a file was to be opened by this path so, and that was answered.
    ghost open_gives: { Self → List ℕ → Opening → Result Self.File NotOpened → Type 0 };

    /// Opens the file that the path gives.
    fn open_path(&self, path: &str, how: Opening) -> Result<Self::File, NotOpened>
        ensures { open_gives self.now path.now how result };
}

/// The files of a runtime do not say which of them a path gives.
impl<R: Files> OpenPath for R {
    type File = R::File;

    ghost open_gives = { λ _ _ _ _. Unit {0} };

    fn open_path(&self, path: &str, how: Opening) -> Result<R::File, NotOpened> {
        let mut options = File::options();
        options.read(true);
        match how {
            Opening::ToRead => (),
            Opening::ToChange => {
                options.write(true);
            }
            Opening::ToMake => {
                options.write(true).create(true);
            }
        }
        match options.open(self, path) {
            Ok(file) => Ok(file),
            Err(_) => Err(NotOpened),
        }
    }
}
