//! All that is not the same in two images.
ghost use Rattle.std.specs.Prelude.{◌≡◌, Err, Some, true, IfOk};
ghost use Rattle.jc_words.specs.Image.{HasSize};
ghost use Rattle.jc_objects.specs.Bounds.{IsBounded};
ghost use Rattle.jcard_dump.specs.InventoryLines.{line_if};
ghost use Rattle.jcard_dump.specs.Areas.{areas_line};
ghost use Rattle.jcard_dump.specs.Differences.{AreDifferences, AreToldTo, IsContentTold, area_lines, both_lines, content_lines, named_lines, placed_lines};
ghost use Rattle.jcard_dump.specs.Fault.{Lists};
ghost use Rattle.jcard_dump.specs.Listing.{IsLegendOf};
ghost use Rattle.jcard_dump.specs.Pairs.{end_lines, lines_of};

use crate::areas::push_areas;
use crate::compared::push_heaps;
use crate::fault::ListFault;
use crate::image::Image;
use crate::listing::Listing;
use crate::pairs::{listing_by, push_end, push_pair};
use crate::parts::{Part, push_part};
use crate::shown::Shown;
use crate::table::legend_of;
use jc_words::WordStore;
use std::alloc::{AllocError, Global};

/// Lists what is not the same in two images, as their words stand: the lines that one alone has, and the cells of objects that both
/// have. It ends at the first that cannot be read in one. The objects of the runtime environment are compared where all are
/// asked for.
pub fn differences_of<S: WordStore>(
    alloc: Global,
    store: &S,
    other: &S,
    shown: Shown,
) -> Result<Listing, AllocError>
    requires size { HasSize (S.words store.now) }
    requires other_size { HasSize (S.words other.now) }
    ensures { IfOk result (λ found. AreDifferences (S.words store.now) (S.words other.now) shown
        (lines_of found)) }
{
    let mut text = Vec::new(alloc);
    match push_differences(&mut text, store, other, shown) {
        Ok(()) => Ok(Listing {
            text,
            readable: true,
        }),
        Err(ListFault::Unreadable) => Ok(Listing {
            text,
            readable: false,
        }),
        Err(ListFault::NoMemory) => Err(AllocError),
    }
}

// Writes the lines.
fn push_differences<S: WordStore>(
    text: &mut Vec<u8>,
    store: &S,
    other: &S,
    shown: Shown,
) -> Result<(), ListFault>
    requires size { HasSize (S.words store.now) }
    requires other_size { HasSize (S.words other.now) }
    ensures { AreToldTo (S.words store.now) (S.words other.now) shown text.old.items text.new.items
        result }
{
    push_area_pair(text, store, other)?;
    push_content(text, store, other, shown)
}

// Writes the lines of the heaps' ends.
fn push_area_pair<S: WordStore>(text: &mut Vec<u8>, store: &S, other: &S) -> Result<(), ListFault>
    requires size { HasSize (S.words store.now) }
    requires other_size { HasSize (S.words other.now) }
    ensures { Lists text.old.items text.new.items
        (area_lines (S.words store.now) (S.words other.now)) result }
{
    let one = areas_of(*text.allocator(), store)?;
    let second = areas_of(*text.allocator(), other)?;
    push_pair(text, &one, &second)
}

// Lists the line of a heap's end.
fn areas_of<S: WordStore>(alloc: Global, store: &S) -> Result<Listing, AllocError>
    requires { HasSize (S.words store.now) }
    ensures { IfOk result (λ found. lines_of found ≡ line_if (areas_line (S.words store.now))) }
{
    let mut text = Vec::new(alloc);
    let told = push_areas(&mut text, store);
    listing_by(text, told)
}

// Writes the lines after those of the heaps' ends.
fn push_content<S: WordStore>(
    text: &mut Vec<u8>,
    store: &S,
    other: &S,
    shown: Shown,
) -> Result<(), ListFault>
    requires size { HasSize (S.words store.now) }
    requires bounds { IsBounded (S.words store.now) }
    requires other_size { HasSize (S.words other.now) }
    requires other_bounds { IsBounded (S.words other.now) }
    ensures { IsContentTold (S.words store.now) (S.words other.now) shown text.old.items
        text.new.items result }
{
    match legend_of(*text.allocator(), store) {
        Ok(legend) => {
            let image = Image::new(&legend, store, shown.all);
            push_beside_image(text, &image, other, shown.secrets)
        }
        Err(fault) => push_no_table(text, false, true, fault),
    }
}

// Writes them beside the first image.
fn push_beside_image<S: WordStore>(
    text: &mut Vec<u8>,
    image: &Image<'_, S>,
    other: &S,
    secrets: bool,
) -> Result<(), ListFault>
    requires legend { IsLegendOf image.now.words (Some image.now.legend) }
    requires other_size { HasSize (S.words other.now) }
    requires other_bounds { IsBounded (S.words other.now) }
    ensures { IsContentTold image.now.words (S.words other.now)
        (record { all = image.now.all; secrets = secrets }) text.old.items text.new.items result }
{
    match legend_of(*text.allocator(), other) {
        Ok(legend) => {
            let other = Image::new(&legend, other, image.all());
            push_both(text, image, &other, secrets)
        }
        Err(fault) => push_no_table(text, true, false, fault),
    }
}

// Writes which image has no table, unless memory was refused.
fn push_no_table(
    text: &mut Vec<u8>,
    one: bool,
    other: bool,
    fault: ListFault,
) -> Result<(), ListFault>
    ensures told { Lists text.old.items text.new.items (end_lines one other) result }
    ensures memory { fault ≡ ListFault.NoMemory → result ≡ Err ListFault.NoMemory }
{
    match fault {
        ListFault::Unreadable => push_end(text, one, other),
        ListFault::NoMemory => Err(ListFault::NoMemory),
    }
}

// Writes them for two images.
fn push_both<S: WordStore>(
    text: &mut Vec<u8>,
    one: &Image<'_, S>,
    other: &Image<'_, S>,
    secrets: bool,
) -> Result<(), ListFault>
    ensures { Lists text.old.items text.new.items (content_lines one.now other.now secrets) result }
{
    let mut keys = one.keys(*text.allocator(), secrets)?;
    let others = other.keys(*text.allocator(), secrets)?;
    keys.extend_from_slice(&others)?;
    push_lines(text, &one.hiding(&keys), &other.hiding(&keys))
}

// Writes them without the bytes that the images hide.
fn push_lines<S: WordStore>(
    text: &mut Vec<u8>,
    one: &Image<'_, S>,
    other: &Image<'_, S>,
) -> Result<(), ListFault>
    ensures { Lists text.old.items text.new.items (both_lines one.now other.now) result }
{
    push_named(text, one, other)?;
    push_placed(text, one, other)?;
    push_heaps(text, one, other)
}

// Writes the lines that name what is there.
fn push_named<S: WordStore>(
    text: &mut Vec<u8>,
    one: &Image<'_, S>,
    other: &Image<'_, S>,
) -> Result<(), ListFault>
    ensures { Lists text.old.items text.new.items (named_lines one.now other.now) result }
{
    push_part(text, Part::Sizes, one, other)?;
    push_part(text, Part::Packages, one, other)?;
    push_part(text, Part::Applets, one, other)
}

// Writes the lines that say where it stands.
fn push_placed<S: WordStore>(
    text: &mut Vec<u8>,
    one: &Image<'_, S>,
    other: &Image<'_, S>,
) -> Result<(), ListFault>
    ensures { Lists text.old.items text.new.items (placed_lines one.now other.now) result }
{
    push_part(text, Part::Entries, one, other)?;
    push_part(text, Part::Records, one, other)?;
    push_part(text, Part::Registrations, one, other)
}
