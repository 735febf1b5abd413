//! Files that are written anew.
ghost use Rattle.std.specs.Prelude.{◌≡◌, ◌↔◌, [], IsTrue, IfOk, IfSome, take};
ghost use Rattle.jc_words.specs.File.{IsEmptied, IsReplaced, image_head};

use crate::emptying::EmptyFile;
use crate::file::{FileLockFault, locked_file};
use crate::lock::{Lock, LockFile};
use crate::opening::{OpenPath, Opening};
use crate::word_file::{FileFailed, FileReadFault, read_front};
use std::alloc::Global;
use std::io::Read;

// The bytes with which each image begins: the magic word, and the high byte of a version.
const IMAGE_HEAD: [u8; 3] = [0x4A, 0x43, 0];

/// Why a file was not opened to be written anew. Its bytes are then as they were, but where it was not emptied.
pub enum ReplaceFault {
    /// It was not opened or not locked.
    NotHeld(FileLockFault),
    /// It was not read.
    NotRead(FileReadFault),
    /// It begins as an image.
    IsImage,
    /// Its bytes could not be taken away.
    NotEmptied,
}

/// Opens a file to write it anew. It is locked so that no other has it open, and only then looked at: one that begins as an
/// image is left as it is, and any other is emptied. It then stands at its first byte. A file is made where there is none.
pub fn open_to_replace<F: Read + LockFile + EmptyFile + Drop, R: OpenPath<File = F> + AllocGlobal>(
    rt: &R,
    path: &str,
) -> Result<F, ReplaceFault>
    ensures { IsReplaced (R.open_gives rt.now path.now Opening.ToMake) F.lock_gives F.remaining
        F.empties result }
{
    match locked_file(rt, path, Opening::ToMake, Lock::Exclusive) {
        Ok(file) => emptied(rt.alloc(), file),
        Err(cause) => Err(ReplaceFault::NotHeld(cause)),
    }
}

// A file that stands at its first byte, once it is emptied.
fn emptied<F: Read + EmptyFile + Drop>(alloc: Global, mut file: F) -> Result<F, ReplaceFault>
    ensures { IsEmptied F.remaining F.empties file result }
{
    let head = match head_of(alloc, &mut file) {
        Ok(head) => head,
        Err(fault) => return Err(ReplaceFault::NotRead(fault)),
    };
    if is_image_head(&head) {
        return Err(ReplaceFault::IsImage);
    }
    match file.empty_file() {
        Ok(()) => Ok(file),
        Err(FileFailed) => Err(ReplaceFault::NotEmptied),
    }
}

// Its first bytes, as many as an image's head has.
fn head_of<F: Read>(alloc: Global, file: &mut F) -> Result<Vec<u8>, FileReadFault>
    ensures { IfOk result (λ head. IfSome (F.remaining file.old)
        (λ bytes. head.items ≡ take 3 bytes)) }
{
    // Where the reader has no more than that, no room has to be made for it.
    let mut head = match Vec::with_capacity(alloc, IMAGE_HEAD.len() + 1) {
        Ok(head) => head,
        Err(_) => return Err(FileReadFault::NoMemory),
    };
    match read_front(file, IMAGE_HEAD.len() as u64, &mut head) {
        Ok(()) => Ok(head),
        Err(FileFailed) => Err(FileReadFault::CannotRead),
    }
}

// They are those of an image.
fn is_image_head(head: &[u8]) -> bool
    ensures { IsTrue result ↔ (head.now ≡ image_head) }
{
    head == IMAGE_HEAD.as_slice()
}
