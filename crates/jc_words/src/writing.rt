//! Writing bytes at a place of a file.
ghost use Rattle.std.specs.Prelude.{List, Result, ℕ};
ghost use Rattle.jc_words.specs.declared.word_file.FileFailed.{FileFailed};

use crate::word_file::FileFailed;
use std::fs::File;
use std::os::unix::fs::FileExt;

/// A file that bytes can be written to at a place, wherever it stands.
pub trait WriteAt {
    /// What is known of a file to which these bytes were to be written from byte number this on,
    /// where that was answered and the file was then the other.
    ghost writes: { Self → List ℕ → ℕ → Result Unit FileFailed → Self → Type 0 };

    /// Writes all bytes from byte number `place` on.
    fn write_bytes_at(&mut self, bytes: &[u8], place: u64) -> Result<(), FileFailed>
        ensures { writes self.old bytes.now place result self.new };
}

/// A file of the operating system does not say what it holds. The bytes are handed to it in one call,
/// as long as it takes them all.
impl WriteAt for File {
    ghost writes = { λ _ _ _ _ _. Unit {0} };

    fn write_bytes_at(&mut self, bytes: &[u8], place: u64) -> Result<(), FileFailed> {
        match self.write_all_at(bytes, place) {
            Ok(()) => Ok(()),
            Err(_) => Err(FileFailed),
        }
    }
}
