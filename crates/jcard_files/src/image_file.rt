//! An image of a disk in memory.
ghost use Rattle.std.specs.Prelude.{◌≡◌, ◌*◌, ◌⊎◌, false, length, IfOk, IfErr};
ghost use Rattle.jc_words.specs.File.{AreWordsOf, IsImageSize};
ghost use Rattle.jcard_files.specs.MemDisk.{image_after, zero_image};

use crate::closed_store::ClosedStore;
use crate::fault::{Damage, Fault};
use jc_words::{MemStore, WordStore, is_image_size, put_words, words_of_bytes};
use std::alloc::{AllocError, Global};
use std::marker::Model;

/// An image, by its name: its bytes, and how many words were written to it since it was made.
#[derive(Drop)]
pub struct ImageFile {
    name: String,
    bytes: Vec<u8>,
    writes: u64,
}

impl Model for ImageFile {
    ghost use Rattle.std.specs.String.{string_bytes};
    ghost use Rattle.jcard_files.specs.MemDisk.{ImageFileValue};

    ghost Value = { ImageFileValue };

    ghost view = { λ i. record {
      name = string_bytes i.name;
      bytes = i.bytes.items;
      writes = i.writes;
    } };
}

impl ImageFile {
    /// An image of n zero words.
    pub(crate) fn zeros(alloc: Global, name: &str, n: u16) -> Result<ImageFile, AllocError>
        ensures { IfOk result (λ image. image ≡ zero_image name.now n) }
    {
        Ok(ImageFile {
            name: String::from_str(alloc, name)?,
            bytes: vec![in alloc; 0u8; 2 * n as usize]?,
            writes: 0,
        })
    }

    /// The name.
    pub fn name(&self) -> &str
        ensures { result.now ≡ self.now.name }
    {
        self.name.as_str()
    }

    /// The bytes.
    pub fn bytes(&self) -> &[u8]
        ensures { result.now ≡ self.now.bytes }
    {
        self.bytes.as_slice()
    }

    /// How many words were written. At 2^64 - 1 the count stays.
    pub fn writes(&self) -> u64
        ensures { result ≡ self.now.writes }
    {
        self.writes
    }

    /// The store of its words.
    pub(crate) fn open<'n>(&self, alloc: Global) -> Result<MemStore, Fault<'n>>
        ensures size { IfOk result (λ store. IsImageSize (2 * length store.words)) }
        ensures words { IfOk result (λ store. AreWordsOf self.now.bytes store.words) }
        ensures none_passed { IfOk result (λ store. store.passed ≡ 0) }
        ensures refused { IfErr result (λ fault. (fault ≡ Fault.BadImage Damage.Size)
            ⊎ (fault ≡ Fault.NoMemory)) }
    {
        if !is_image_size(self.bytes.len()) {
            return Err(Fault::BadImage(Damage::Size));
        }
        match words_of_bytes(alloc, self.bytes.as_slice()) {
            Ok(words) => Ok(MemStore::of(words)),
            Err(AllocError) => Err(Fault::NoMemory),
        }
    }

    /// Takes the words of a store that is closed, if they are as many.
    pub(crate) fn close(&mut self, store: &ClosedStore<MemStore>)
        ensures { self.new ≡ image_after (record {
          words = store.now.store.words;
          down = false;
          passed = store.now.store.passed;
          refused = 0;
        }) self.old }
    {
        let words = store.store().words();
        if self.bytes.len() == 2 * words.len() {
            put_words(words, self.bytes.as_mut_slice());
            self.writes = self.writes.saturating_add(store.store().passed_writes());
        }
    }
}
