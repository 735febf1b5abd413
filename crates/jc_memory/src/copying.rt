//! Copies of a memory, and the fuse of its store.
ghost use Rattle.std.specs.Prelude.{◌≡◌, IfOk, [], false};
ghost use Rattle.jc_words.specs.Count.{saturating_count};
ghost use Rattle.jc_words.specs.Refusals.{with_fuse_at};

use crate::images::Images;
use crate::kept::Kept;
use crate::marks::Marks;
use crate::memory::{MOST_COMMAND, MOST_SENT, Memory, Rooms};
use arrayvec::ArrayVec;
use jc_transient::Ram;
use jc_words::{CopyStore, FuseStore, WordStore};
use std::alloc::{AllocError, Global};

impl<S: CopyStore> Memory<S> {
    /// Another memory over a copy of the store; both note in the same place. Without memory for it, it answers the error.
    pub fn copy(&self, alloc: Global) -> Result<Memory<S>, AllocError>
        ensures { IfOk result (λ copy. copy ≡ self.now) }
    {
        let fixed = copy_of(&self.fixed)?;
        let rooms = copy_of_rooms(alloc, &self.command, &self.sent)?;
        let (ram, marks, images) = copy_of_cells(alloc, &self.ram, &self.marks, &self.images)?;
        // It owns most, and nothing is refused after it.
        let heap = self.heap.copy(alloc)?;
        Ok(Memory {
            heap,
            ram,
            fixed,
            marks,
            images,
            registers: self.registers,
            command: rooms.command,
            sent: rooms.sent,
            notes: self.notes.share(),
        })
    }
}

// Other rooms with the same bytes.
fn copy_of_rooms(
    alloc: Global,
    command: &Kept<MOST_COMMAND>,
    sent: &Kept<MOST_SENT>,
) -> Result<Rooms, AllocError>
    ensures { IfOk result (λ copy. (copy.command ≡ command.now) × (copy.sent ≡ sent.now)) }
{
    let command = command.copy(alloc)?;
    let sent = sent.copy(alloc)?;
    Ok(Rooms { command, sent })
}

// The same transient contents, marks and static images.
fn copy_of_cells(
    alloc: Global,
    ram: &Ram,
    marks: &Marks,
    images: &Images,
) -> Result<(Ram, Marks, Images), AllocError>
    ensures { IfOk result (λ copy. (copy.0 ≡ ram.now) × (copy.1 ≡ marks.now)
        × (copy.2 ≡ images.now)) }
{
    let images = images.copy()?;
    let marks = marks.copy(alloc)?;
    let ram = ram.copy(alloc)?;
    Ok((ram, marks, images))
}

impl<S: WordStore> Memory<FuseStore<S>> {
    /// Arms the fuse of the store, while no transaction is open: `k` further writes pass, and the next is refused.
    pub fn arm(&mut self, k: u64)
        requires up { self.old.heap.down ≡ false }
        requires outside { self.old.heap.begun ≡ false }
        ensures armed { self.new ≡ record self.old {
          heap = record self.old.heap {
            refusals = with_fuse_at (saturating_count self.old.heap.passed k) self.old.heap.refusals;
          };
        } }
        ensures settled { self.old.heap.durable ≡ self.old.heap.now }
        ensures none { self.old.heap.touched ≡ [] }
    {
        self.heap.arm(k);
    }
}

// The same items.
pub(crate) fn copy_of<T: Copy + Default, const MOST: usize>(
    items: &ArrayVec<T, MOST>,
) -> Result<ArrayVec<T, MOST>, AllocError>
    ensures { IfOk result (λ copy. copy.items ≡ items.now.items) }
{
    let mut copy = ArrayVec::new();
    match copy.try_extend_from_slice(items.as_slice()) {
        Ok(()) => Ok(copy),
        Err(_) => Err(AllocError),
    }
}
