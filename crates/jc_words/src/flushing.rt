//! Handing on what was written to a file.
ghost use Rattle.std.specs.Prelude.{Result};
ghost use Rattle.jc_words.specs.declared.word_file.FileFailed.{FileFailed};

use crate::word_file::FileFailed;
use std::fs::File;
use std::io::Write;

/// A file that can hand on what was written to it.
pub trait FlushFile {
    /// What is known of a file that was to be flushed, where that was answered and the file was then the other.
    ghost flushes: { Self → Result Unit FileFailed → Self → Type 0 };

    /// Hands on all that was written to the file.
    fn flush_file(&mut self) -> Result<(), FileFailed>
        ensures { flushes self.old result self.new };
}

/// A file of the operating system does not say what was handed on.
impl FlushFile for File {
    ghost flushes = { λ _ _ _. Unit {0} };

    fn flush_file(&mut self) -> Result<(), FileFailed> {
        match self.flush() {
            Ok(()) => Ok(()),
            Err(_) => Err(FileFailed),
        }
    }
}
