//! Making an image.
ghost use Rattle.std.specs.Prelude.{ℕ, ◌≡◌, ◌≤◌, List, false, length, option_map, replicate};
ghost use Rattle.std.specs.Borrow.{Bor};
ghost use Rattle.jc_words.specs.Layout.{least_size};
ghost use Rattle.jc_words.specs.Image.{IsCapacity};
ghost use Rattle.jc_words.specs.Refusals.{no_refusals};
ghost use Rattle.jc_transient.specs.State.{AreSizes};
ghost use Rattle.jc_words.specs.Store.{store_value};
ghost use Rattle.jcard_files.specs.Effects.{UsesFiles};
ghost use Rattle.jcard_files.specs.NewImage.{IsFormatFault, IsLaid, IsMadeFrom, IsNew, IsTable};

use crate::closed_store::ClosedStore;
use crate::disk::Disk;
use crate::extent::Extent;
use crate::fault::Fault;
use crate::image_size::{ImageSize, extent_of};
use crate::remarks::Remarks;
use crate::table_remarks::remark_on_table;
use crate::usual_table::platform_of;
use jc_card::formatting::{FormatFault, format};
use jc_image::ImageRoom;
use jc_platform::fault::TableFault;
use jc_platform::read::read_table;
use jc_words::WordStore;

/// Makes an image with this name, as large as decimal numbers say, from the platform table in the file of the last name, or the
/// usual one. A file that is there is replaced, but only where the numbers and the table are good and nobody has it open. What is
/// wrong with the table goes to `remarks`.
pub fn make_image<'n, D: Disk, M: Remarks>(
    disk: &mut D,
    image: &'n str,
    size: ImageSize<'n>,
    table: Option<&'n str>,
    remarks: &mut M,
) -> Result<(), Fault<'n>>
    ensures { UsesFiles D.does disk.old disk.new result
        (IsNew image.now size.entry.words.now size.entry.journal.now
        (option_map (λ (name : Bor (List ℕ)). name.now) size.entry.cells)
        (option_map (λ (name : Bor (List ℕ)). name.now) size.entry.buffer)
        (option_map (λ (name : Bor (List ℕ)). name.now) table.entry)) }
{
    let extent = extent_of(size)?;
    let text = platform_of(disk, table)?;
    remark_on_table(disk.alloc(), &text, remarks);
    make_from(disk, image, extent, &text)
}

// Makes an image with this name, with this many words and this room, from this text.
fn make_from<'n, D: Disk>(
    disk: &mut D,
    image: &'n str,
    extent: Extent,
    text: &[u8],
) -> Result<(), Fault<'n>>
    ensures { UsesFiles D.does disk.old disk.new result (IsMadeFrom image.now extent text.now) }
{
    match read_table(text) {
        Ok(_) => (),
        Err(TableFault::BadTable(line)) => return Err(Fault::BadTable(line)),
    }
    let store = disk.make_image(image, extent.count)?;
    let (store, ended) = lay_image(store, image, text, extent.room);
    disk.close_image(image, ClosedStore::new(store));
    ended
}

// Makes the zero words of a store an image, for the file with this name, and gives the store back.
fn lay_image<'a, S: WordStore + Drop>(
    store: S,
    image: &'a str,
    text: &[u8],
    room: ImageRoom,
) -> (S, Result<(), Fault<'a>>)
    requires enough { least_size ≤ length (S.words store) }
    requires zeros { S.words store ≡ replicate (length (S.words store)) 0 }
    requires up { S.down store ≡ false }
    requires none_passed { S.passed store ≡ 0 }
    requires none_refused { S.refusals store ≡ no_refusals }
    requires journal { IsCapacity room.capacity }
    requires cells { AreSizes room.cells room.buffer }
    requires table { IsTable text.now }
    ensures { IsLaid image.now (length (S.words store)) room text.now result.1
        (store_value S.words S.down S.passed S.refusals result.0) }
{
    let (store, made) = format(store, text, room);
    match made {
        Ok(()) => (store, Ok(())),
        Err(cause) => (store, Err(format_fault(image, cause))),
    }
}

/// What it means that no image with this name was made of a store.
pub(crate) fn format_fault(image: &str, cause: FormatFault) -> Fault<'_>
    ensures { IsFormatFault image.now cause result }
{
    match cause {
        FormatFault::StoreDown => Fault::CannotWrite(image),
        FormatFault::BadSize => Fault::BadWords,
        FormatFault::BadCapacity => Fault::BadJournal,
        FormatFault::BadCells => Fault::BadTransient,
        FormatFault::BadTable(line) => Fault::BadTable(line),
        FormatFault::TooSmall => Fault::ImageTooSmall,
    }
}
