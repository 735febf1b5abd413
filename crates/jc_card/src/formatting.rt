//! Making an image.
ghost use Rattle.std.specs.Prelude.{◌≡◌, ◌≢◌, ◌≤◌, ◌+◌, ◌⊎◌, true, false, length, slice_index, take, Ok, IfOk, IfErr};
ghost use Rattle.jc_words.specs.Refusals.{refused_once};
ghost use Rattle.jc_words.specs.Layout.{front_length, magic_address, magic, least_size};
ghost use Rattle.jc_words.specs.Image.{IsCapacity, heap_end};
ghost use Rattle.jc_transient.specs.State.{AreSizes};
ghost use Rattle.jc_image.specs.Laying.{first_free};
ghost use Rattle.jc_heap.specs.Heap.{heap_of};
ghost use Rattle.jc_commit.specs.Image.{recovered_of};
ghost use Rattle.jc_platform.specs.Table.{Reads};
ghost use Rattle.jc_environment.specs.Objects.{fixed_size};
ghost use Rattle.jc_card.specs.Formatting.{Formats};
ghost use Rattle.jc_card.specs.ProductImages.{IsMade, new_card_heap, new_front};

use crate::fixed::{fixed_size, make_fixed};
use jc_heap::Heap;
use jc_image::{ImageRoom, first_free, lay, seal};
use jc_platform::fault::TableFault;
use jc_platform::read::read_table;
use jc_platform::table::Table;
use jc_transient::are_sizes;
use jc_words::layout::LEAST_SIZE;
use jc_words::{Log, WordStore, is_capacity};
use thiserror::Error;

/// Why no image was made.
#[derive(Clone, Copy, Debug, Error)]
pub enum FormatFault {
    /// The store refused a write. It is as it was, or its first word is not the magic word.
    #[error("the store is down")]
    StoreDown,
    /// The store has less than 4096 words.
    #[error("an image has at least 4096 words")]
    BadSize,
    /// A journal cannot have this many entries.
    #[error("a journal has 16 to 1024 entries")]
    BadCapacity,
    /// The transient objects of each event cannot have this many cells, or the APDU buffer this many.
    #[error("the transient objects of each event have 2048 to 16384 cells")]
    BadCells,
    /// The text is no platform table: the number of its first bad line, or 0.
    #[error("line {0} of the table is bad")]
    BadTable(u16),
    /// The table and the objects of the runtime environment don't fit below the heap's end.
    #[error("the image is too small for the table")]
    TooSmall,
}

/// Makes an image of a store, that is to have this room: the platform table with
/// this text, the objects of the runtime environment, and last the magic word. So an image that was not made to its end has none.
pub fn format<S: WordStore>(store: S, text: &[u8], room: ImageRoom) -> (S, Result<(), FormatFault>)
    ensures { Formats S.words S.down S.passed S.refusals store room text.now result.0 result.1 }
{
    let size = store.size();
    if size < LEAST_SIZE {
        return (store, Err(FormatFault::BadSize));
    }
    if !is_capacity(room.capacity) {
        return (store, Err(FormatFault::BadCapacity));
    }
    if !are_sizes(room.cells, room.buffer) {
        return (store, Err(FormatFault::BadCells));
    }
    let table = match read_table(text) {
        Ok(table) => table,
        Err(TableFault::BadTable(line)) => return (store, Err(FormatFault::BadTable(line))),
    };
    let heap_end = Log::among(size, room.capacity).heap_end(size);
    if u32::from(heap_end) < first_free(text.len() as u16) + fixed_size(&table) {
        return (store, Err(FormatFault::TooSmall));
    }
    match make_image(store, text, room, &table) {
        Ok(store) => (store, Ok(())),
        Err(store) => (store, Err(FormatFault::StoreDown)),
    }
}

// Makes an image that fits. Where the store refuses a write it is given back.
fn make_image<S: WordStore>(store: S, text: &[u8], room: ImageRoom, table: &Table) -> Result<S, S>
    requires enough { least_size ≤ length (S.words store) }
    requires capacity { IsCapacity room.capacity }
    requires sizes { AreSizes room.cells room.buffer }
    requires fits { first_free (length text.now) + fixed_size table.now
        ≤ heap_end (length (S.words store)) room.capacity }
    requires reads { Reads text.now (Ok table.now) }
    ensures made { IfOk result (λ s. IsMade (S.words s)) }
    ensures heap { IfOk result (λ s. heap_of (recovered_of (S.words s))
        ≡ new_card_heap (length (S.words store)) room text.now table.now) }
    ensures front { IfOk result (λ s. take front_length (S.words s)
        ≡ new_front (length (S.words store)) room (length text.now) table.now) }
    ensures size { IfOk result (λ s. length (S.words s) ≡ length (S.words store)) }
    ensures up { IfOk result (λ s. S.down s ≡ false) }
    ensures none_refused { IfOk result (λ s. S.refusals s ≡ S.refusals store) }
    ensures size_kept { IfErr result (λ s. length (S.words s) ≡ length (S.words store)) }
    ensures refused { IfErr result (λ s. S.refusals s
        ≡ refused_once (S.down store) (S.passed s) (S.refusals store)) }
    ensures down { IfErr result (λ s. S.down s ≡ true) }
    ensures unmarked { IfErr result (λ s. (S.words s ≡ S.words store)
        ⊎ (slice_index (S.words s) magic_address ≢ magic)) }
{
    let mut heap = lay(store, text, room)?;
    let Ok(()) = make_fixed(&mut heap, table, room) else {
        return Err(heap.into_store());
    };
    seal(heap)
}
