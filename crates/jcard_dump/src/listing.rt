//! All that is listed of an image.
ghost use Rattle.std.specs.Prelude.{IfOk};
ghost use Rattle.jc_words.specs.Image.{HasSize};
ghost use Rattle.jc_objects.specs.Bounds.{IsBounded};
ghost use Rattle.jcard_dump.specs.Fault.{Lists};
ghost use Rattle.jcard_dump.specs.Listing.{IsListed, IsListing, image_lines, shown_lines, tables_lines};

use crate::applets::push_applets;
use crate::areas::push_areas;
use crate::entries::push_entries;
use crate::fault::ListFault;
use crate::image::Image;
use crate::objects::push_objects;
use crate::packages::push_packages;
use crate::shown::Shown;
use crate::table::legend_of;
use jc_objects::legend::Legend;
use jc_words::WordStore;
use std::alloc::{AllocError, Global};

/// The lines that list what an image holds, and whether all could be read.
#[derive(Drop)]
pub struct Listing {
    pub text: Vec<u8>,
    pub readable: bool,
}

/// Lists what the words of an image hold, as they stand.
pub fn listing_of<S: WordStore>(
    alloc: Global,
    store: &S,
    shown: Shown,
) -> Result<Listing, AllocError>
    requires { HasSize (S.words store.now) }
    ensures { IfOk result (λ found. IsListing (S.words store.now) shown (record {
      text = found.text.items;
      readable = found.readable;
    })) }
{
    let mut text = Vec::new(alloc);
    match push_listing(&mut text, store, shown) {
        Ok(()) => Ok(Listing {
            text,
            readable: true,
        }),
        Err(ListFault::Unreadable) => Ok(Listing {
            text,
            readable: false,
        }),
        Err(ListFault::NoMemory) => Err(AllocError),
    }
}

// Writes the lines.
fn push_listing<S: WordStore>(text: &mut Vec<u8>, store: &S, shown: Shown) -> Result<(), ListFault>
    requires { HasSize (S.words store.now) }
    ensures { IsListed (S.words store.now) shown text.old.items text.new.items result }
{
    push_areas(text, store)?;
    let legend = legend_of(*text.allocator(), store)?;
    let image = Image::new(&legend, store, shown.all);
    push_image(text, &image, shown.secrets)
}

// Writes the lines after the first one.
fn push_image<S: WordStore>(
    text: &mut Vec<u8>,
    image: &Image<'_, S>,
    secrets: bool,
) -> Result<(), ListFault>
    ensures { Lists text.old.items text.new.items (shown_lines image.now secrets) result }
{
    let keys = image.keys(*text.allocator(), secrets)?;
    push_contents(text, &image.hiding(&keys))
}

// Writes them without the bytes that the image hides.
fn push_contents<S: WordStore>(text: &mut Vec<u8>, image: &Image<'_, S>) -> Result<(), ListFault>
    ensures { Lists text.old.items text.new.items (image_lines image.now) result }
{
    push_tables(text, image.legend(), image.store())?;
    push_objects(text, image)
}

// Writes those before the objects.
fn push_tables<S: WordStore>(
    text: &mut Vec<u8>,
    legend: &Legend,
    store: &S,
) -> Result<(), ListFault>
    requires size { HasSize (S.words store.now) }
    requires bounds { IsBounded (S.words store.now) }
    ensures { Lists text.old.items text.new.items
        (tables_lines legend.now (S.words store.now)) result }
{
    push_entries(text, &legend.platform, store)?;
    push_packages(text, legend, store)?;
    push_applets(text, store)
}
