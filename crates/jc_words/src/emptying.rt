//! Taking all bytes of a file away.
ghost use Rattle.std.specs.Prelude.{Result};
ghost use Rattle.jc_words.specs.declared.word_file.FileFailed.{FileFailed};

use crate::word_file::FileFailed;
use std::fs::File;
use std::io::{Seek, SeekFrom};

/// A file whose bytes can all be taken away.
pub trait EmptyFile {
    /// What is known of a file that was to be emptied, where that was answered and the file was then the other.
    ghost empties: { Self → Result Unit FileFailed → Self → Type 0 };

    /// Takes all bytes of the file away, and stands at its first byte then.
    fn empty_file(&mut self) -> Result<(), FileFailed>
        ensures { empties self.old result self.new };
}

/// A file of the operating system does not say what it holds.
impl EmptyFile for File {
    ghost empties = { λ _ _ _. Unit {0} };

    fn empty_file(&mut self) -> Result<(), FileFailed> {
        if self.set_len(0).is_err() || self.seek(SeekFrom::Start(0)).is_err() {
            return Err(FileFailed);
        }
        Ok(())
    }
}
