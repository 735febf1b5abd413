//! Bytes in a room that was asked for once.
ghost use Rattle.std.specs.Prelude.{◌≡◌, ◌≤◌, ◌+◌, [], ◌++◌, length, IfOk};

use std::alloc::{AllocError, Global};
use std::marker::Model;

/// At most `MOST` bytes. The room for them is asked for when it is made, so nothing that is kept in it later asks for memory. A contract
/// sees the bytes.
#[derive(Drop)]
pub struct Kept<const MOST: usize> {
    bytes: Vec<u8>,
}

impl<const MOST: usize> Model for Kept<MOST> {
    ghost use Rattle.std.specs.Prelude.{List, ℕ, ◌≤◌, length, vec_capacity};

    ghost Value = { List ℕ };

    ghost view = { λ k. k.bytes.items };

    ghost invariant = { λ k. (MOST ≤ vec_capacity k.bytes) × (length k.bytes.items ≤ MOST) };
}

impl<const MOST: usize> Kept<MOST> {
    /// A room in which nothing is kept. Without memory for it, it answers the error.
    pub fn new(alloc: Global) -> Result<Self, AllocError>
        ensures { IfOk result (λ kept. kept ≡ []) }
    {
        Ok(Kept {
            bytes: Vec::with_capacity(alloc, MOST)?,
        })
    }

    /// Another room with the same bytes. Without memory for it, it answers the error.
    pub fn copy(&self, alloc: Global) -> Result<Self, AllocError>
        ensures { IfOk result (λ copy. copy ≡ self.now) }
    {
        let mut copy = Kept::new(alloc)?;
        copy.append(self.as_slice());
        Ok(copy)
    }

    /// Nothing is kept any more.
    pub fn clear(&mut self)
        ensures { self.new ≡ [] }
    {
        self.bytes.clear();
    }

    /// These bytes are kept in place of the others.
    pub fn set(&mut self, bytes: &[u8])
        requires { length bytes.now ≤ MOST }
        ensures { self.new ≡ bytes.now }
    {
        if self.bytes.len() == bytes.len() {
            self.bytes.copy_from_slice(bytes);
        } else {
            self.clear();
            self.append(bytes);
        }
    }

    /// Keeps bytes after those that are kept already.
    #[inline(always)]
    pub fn append(&mut self, bytes: &[u8])
        requires { length self.old + length bytes.now ≤ MOST }
        ensures { self.new ≡ self.old ++ bytes.now }
    {
        let _ = self.bytes.extend_from_slice(bytes);
    }

    /// The bytes.
    pub fn as_slice(&self) -> &[u8]
        ensures bytes { result.now ≡ self.now }
        ensures few { length result.now ≤ MOST }
    {
        self.bytes.as_slice()
    }
}
