//! A file in memory, which tells its bytes: what stores promise of such files is so of this one.
ghost use Rattle.std.specs.Prelude.{◌≡◌, ◌+◌, ◌*◌, ◌<◌, ◌≤◌, Some, IfSome, length, slice_set, take};
ghost use Rattle.jc_words.specs.File.{most_bytes, with_word};
ghost use Rattle.jc_words.specs.HeldWrites.{IsInStep};
ghost use Rattle.jc_words.specs.WordRuns.{bytes_with_run};

use jc_words::{FileFailed, FileReadFault, FileStore, WordFile};
use std::alloc::{AllocError, Global};

// A reading gives this number of bytes at most.
const READ_LIMIT: usize = 131_071;

/// A file of these bytes, of which no call fails.
#[derive(Drop)]
pub struct ByteFile {
    pub bytes: Vec<u8>,
}

impl ByteFile {
    // Sets word `i`, if it is there.
    fn set_word(&mut self, i: usize, v: u16)
        requires { i < 131072 }
        ensures { 2 * i + 1 < length self.old.bytes.items → self.new.bytes.items
            ≡ with_word i v self.old.bytes.items }
    {
        let at = 2 * i;
        if at + 1 < self.bytes.len() {
            self.bytes[at] = (v / 256) as u8;
            self.bytes[at + 1] = (v % 256) as u8;
        }
    }
}

// The bytes that a reading gives.
fn front(bytes: &[u8]) -> &[u8]
    ensures { result.now ≡ take most_bytes bytes.now }
{
    if bytes.len() <= READ_LIMIT {
        bytes
    } else {
        &bytes[..READ_LIMIT]
    }
}

impl WordFile for ByteFile {
    ghost use Rattle.std.specs.Prelude.{Some};

    ghost unread = { λ f. Some f.bytes.items };

    ghost bytes = { λ f. Some f.bytes.items };

    ghost failures = { λ _. 0 };

    fn read_bytes(&mut self, alloc: Global) -> Result<Vec<u8>, FileReadFault> {
        let mut read = Vec::new(alloc);
        match read.extend_from_slice(front(&self.bytes)) {
            Ok(()) => Ok(read),
            Err(AllocError) => Err(FileReadFault::NoMemory),
        }
    }

    fn put_word(&mut self, i: u16, v: u16) -> Result<(), FileFailed> {
        self.set_word(usize::from(i), v);
        Ok(())
    }

    fn put_pair(&mut self, i: u16, first: u16, second: u16) -> Result<(), FileFailed> {
        self.set_word(usize::from(i), first);
        self.set_word(usize::from(i) + 1, second);
        Ok(())
    }

    fn put_run(&mut self, i: u16, run: &[u16]) -> Result<(), FileFailed> {
        for k in 0..run.len() {
            self.set_word(usize::from(i) + k, run[k]);
        }
        Ok(())
    }
}

/// The file below a store over it has the store's words from the first, and so after each write that passes. Without memory for the words, or where
/// it has not the size of an image, it answers nothing.
pub fn a_store_begins_in_step(alloc: Global, file: ByteFile) -> Option<FileStore<ByteFile>>
    ensures { IfSome result (λ store. IsInStep (Some store.file.bytes.items) store.words store.held) }
{
    match FileStore::over(alloc, file) {
        Ok(store) => Some(store),
        Err(_) => None,
    }
}
