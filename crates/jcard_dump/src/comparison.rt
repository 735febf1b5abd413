//! Printing what is not the same in two images.
ghost use Rattle.std.specs.Prelude.{◌≡◌};
ghost use Rattle.jc_words.specs.Image.{HasSize};
ghost use Rattle.jcard_dump.specs.Inventory.{damage_of};
ghost use Rattle.jcard_files.specs.Effects.{Does, Writes};
ghost use Rattle.jcard_dump.specs.Comparison.{AreDifferencesTold, AreLinesOfBoth, AreToldBeside, IsBesideTold, IsComparison, IsRefusalTold};

use crate::differences::differences_of;
use crate::dump::write_listing;
use crate::pairs::Side;
use crate::shown::Shown;
use jc_card::inventory::Inventory;
use jc_words::{ImageFault, WordStore};
use jcard_files::closed_store::ClosedStore;
use jcard_files::disk::Disk;
use jcard_files::fault::{Damage, Fault};
use jcard_texts::streams::{TextOut, write_all};
use std::alloc::{AllocError, Global};

/// `jcard dump IMAGE --against OTHER`: prints what is not the same in two images, each of which is read alone. Nothing is recovered.
pub fn compare_images<'n, D: Disk, W: TextOut>(
    disk: &mut D,
    image: &'n str,
    other: &'n str,
    shown: Shown,
    out: &mut W,
) -> Result<(), Fault<'n>>
    ensures { Does D.does W.contents W.failures disk.old disk.new out.old out.new result
        (IsComparison image.now other.now shown) }
{
    let store = disk.open_image_to_read(image)?;
    let told = compare_with(disk, &store, other, shown, out);
    disk.close_image(image, ClosedStore::new(store));
    told
}

// Prints what is not the same in a store and in the image with this name.
fn compare_with<'n, D: Disk, W: TextOut>(
    disk: &mut D,
    store: &D::Image,
    other: &'n str,
    shown: Shown,
    out: &mut W,
) -> Result<(), Fault<'n>>
    ensures { Does D.does W.contents W.failures disk.old disk.new out.old out.new result
        (IsBesideTold (D.Image.words store.now) other.now shown) }
{
    let second = disk.open_image_to_read(other)?;
    let told = tell_differences(disk.alloc(), store, &second, shown, out);
    disk.close_image(other, ClosedStore::new(second));
    told
}

// Writes what is not the same in two stores, if both are images.
fn tell_differences<'a, S: WordStore, W: TextOut>(
    alloc: Global,
    store: &S,
    other: &S,
    shown: Shown,
    out: &mut W,
) -> Result<(), Fault<'a>>
    ensures { Writes W.contents W.failures out.old out.new result
        (AreDifferencesTold (S.words store.now) (S.words other.now) shown) }
{
    match Inventory::of(store) {
        Ok(_) => tell_beside(alloc, store, other, shown, out),
        Err(fault) => tell_no_image(Side::One, fault, out),
    }
}

// Writes what is not the same in an image and in another store, if that is one too.
fn tell_beside<'a, S: WordStore, W: TextOut>(
    alloc: Global,
    store: &S,
    other: &S,
    shown: Shown,
    out: &mut W,
) -> Result<(), Fault<'a>>
    requires { HasSize (S.words store.now) }
    ensures { Writes W.contents W.failures out.old out.new result
        (AreToldBeside (S.words store.now) (S.words other.now) shown) }
{
    match Inventory::of(other) {
        Ok(_) => tell_lines(alloc, store, other, shown, out),
        Err(fault) => tell_no_image(Side::Other, fault, out),
    }
}

// Writes that an image's first words are none.
fn tell_no_image<'a, W: TextOut>(
    side: Side,
    fault: ImageFault,
    out: &mut W,
) -> Result<(), Fault<'a>>
    ensures { Writes W.contents W.failures out.old out.new result (IsRefusalTold side fault) }
{
    match write_all(out, side.unread()) {
        Ok(()) => Err(Fault::BadImage(damage_by(fault))),
        Err(_) => Err(Fault::WriteFailed),
    }
}

// Writes the lines of what is not the same.
fn tell_lines<'a, S: WordStore, W: TextOut>(
    alloc: Global,
    store: &S,
    other: &S,
    shown: Shown,
    out: &mut W,
) -> Result<(), Fault<'a>>
    requires size { HasSize (S.words store.now) }
    requires other_size { HasSize (S.words other.now) }
    ensures { Writes W.contents W.failures out.old out.new result
        (AreLinesOfBoth (S.words store.now) (S.words other.now) shown) }
{
    match differences_of(alloc, store, other, shown) {
        Ok(listing) => write_listing(&listing, out),
        Err(AllocError) => Err(Fault::NoMemory),
    }
}

// The damage that a fault of the first words is.
fn damage_by(fault: ImageFault) -> Damage
    ensures { result ≡ damage_of fault }
{
    match fault {
        ImageFault::BadMagic => Damage::Magic,
        ImageFault::BadVersion => Damage::Version,
        ImageFault::BadSize => Damage::Size,
    }
}
