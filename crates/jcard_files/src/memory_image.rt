//! New images in memory.
ghost use Rattle.std.specs.Prelude.{◌≡◌, ◌≤◌, length, replicate};
ghost use Rattle.jc_words.specs.Image.{IsCapacity};
ghost use Rattle.jc_words.specs.Layout.{least_size};
ghost use Rattle.jc_transient.specs.State.{AreSizes};
ghost use Rattle.jcard_files.specs.NewImage.{IsLaidInMemory, IsNewImageInMemory, IsTable};

use crate::extent::Extent;
use crate::fault::Fault;
use crate::new_image::format_fault;
use jc_card::formatting::format;
use jc_image::ImageRoom;
use jc_words::MemStore;
use std::alloc::{AllocError, Global};

/// A new image in memory, of this extent, with the platform table of this text.
pub fn new_image<'a>(alloc: Global, extent: Extent, table: &[u8]) -> Result<MemStore, Fault<'a>>
    requires table { IsTable table.now }
    ensures { IsNewImageInMemory extent.count extent.room table.now result }
{
    match MemStore::new(alloc, extent.count) {
        Ok(store) => laid_in(store, extent.room, table),
        Err(AllocError) => Err(Fault::NoMemory),
    }
}

// The image of a store of zero words, for which no memory is asked.
fn laid_in<'a>(store: MemStore, room: ImageRoom, table: &[u8]) -> Result<MemStore, Fault<'a>>
    requires enough { least_size ≤ length store.words }
    requires zeros { store.words ≡ replicate (length store.words) 0 }
    requires journal { IsCapacity room.capacity }
    requires cells { AreSizes room.cells room.buffer }
    requires table { IsTable table.now }
    ensures { IsLaidInMemory (length store.words) room table.now result }
{
    let (store, made) = format(store, table, room);
    match made {
        // What it took to make the image does not count as writes of the card.
        Ok(()) => Ok(MemStore::of(store.into_words())),
        // The extent and the table are good, and a store in memory refuses no write: the table is too large.
        Err(cause) => Err(format_fault("memory", cause)),
    }
}
