//! Printing what an image holds, object by object.
ghost use Rattle.std.specs.Prelude.{◌≡◌};
ghost use Rattle.jc_words.specs.Image.{HasSize};
ghost use Rattle.jcard_files.specs.Effects.{Does, Writes};
ghost use Rattle.jcard_dump.specs.Dump.{AreLinesTold, AreObjectsTold, IsListingTold, IsObjectsDump, end_of};

use crate::inventory::dump_store;
use crate::listing::{Listing, listing_of};
use crate::shown::Shown;
use jc_words::WordStore;
use jcard_files::closed_store::ClosedStore;
use jcard_files::disk::Disk;
use jcard_files::fault::{Damage, Fault};
use jcard_texts::streams::{TextOut, write_all};
use std::alloc::{AllocError, Global};

/// `jcard dump IMAGE --objects`: prints what `jcard dump` does, and then the heap's end, the journal's entries that count, the
/// packages' records, the applets' entries and the objects. Nothing is recovered.
pub fn dump_objects<'n, D: Disk, W: TextOut>(
    disk: &mut D,
    image: &'n str,
    shown: Shown,
    out: &mut W,
) -> Result<(), Fault<'n>>
    ensures { Does D.does W.contents W.failures disk.old disk.new out.old out.new result
        (IsObjectsDump image.now shown) }
{
    let store = disk.open_image_to_read(image)?;
    let told = tell_objects(disk.alloc(), &store, shown, out);
    disk.close_image(image, ClosedStore::new(store));
    told
}

// Writes what the words of a store hold.
fn tell_objects<'a, S: WordStore, W: TextOut>(
    alloc: Global,
    store: &S,
    shown: Shown,
    out: &mut W,
) -> Result<(), Fault<'a>>
    ensures { Writes W.contents W.failures out.old out.new result
        (AreObjectsTold (S.words store.now) shown) }
{
    dump_store(store, out)?;
    tell_listing(alloc, store, shown, out)
}

// Writes the listing.
fn tell_listing<'a, S: WordStore, W: TextOut>(
    alloc: Global,
    store: &S,
    shown: Shown,
    out: &mut W,
) -> Result<(), Fault<'a>>
    requires { HasSize (S.words store.now) }
    ensures { Writes W.contents W.failures out.old out.new result
        (IsListingTold (S.words store.now) shown) }
{
    match listing_of(alloc, store, shown) {
        Ok(listing) => write_listing(&listing, out),
        Err(AllocError) => Err(Fault::NoMemory),
    }
}

/// Writes these lines, and says whether there could be more.
pub(crate) fn write_listing<'a, W: TextOut>(listing: &Listing, out: &mut W) -> Result<(), Fault<'a>>
    ensures { Writes W.contents W.failures out.old out.new result
        (AreLinesTold (record {
          text = listing.now.text.items;
          readable = listing.now.readable;
        })) }
{
    match write_all(out, &listing.text) {
        Ok(()) => end_of(listing.readable),
        Err(_) => Err(Fault::WriteFailed),
    }
}

// How a listing ends whose lines were all written.
fn end_of(readable: bool) -> Result<(), Fault<'static>>
    ensures { result ≡ end_of readable }
{
    if !readable {
        return Err(Fault::BadImage(Damage::Package));
    }
    Ok(())
}
