//! The numbered lines of two images, compared.
ghost use Rattle.std.specs.Prelude.{◌≡◌, ◌<◌, ◌+◌, ◌++◌, IfOk, OnOk};
ghost use Rattle.jc_words.specs.Image.{HasSize};
ghost use Rattle.jcard_dump.specs.Fault.{Lists};
ghost use Rattle.jcard_dump.specs.Pairs.{lines_of};
ghost use Rattle.jcard_dump.specs.Parts.{larger, line_among, pair_at, part_count, part_line, part_lines, size_text};

use crate::applets::push_applet_at;
use crate::entries::push_entry_at;
use crate::fault::ListFault;
use crate::image::Image;
use crate::listing::Listing;
use crate::names::{push_applet_name, push_package_name};
use crate::packages::push_package;
use crate::pairs::{listing_by, push_pair};
use crate::texts::push_labelled;
use jc_words::layout::{APPLETS, COUNT, PACKAGES};
use jc_words::{Log, WordStore};
use std::alloc::{AllocError, Global};

/// Lines of an image that are numbered from 1 on.
#[derive(Clone, Copy, Drop)]
pub(crate) enum Part {
    /// The counts of words and of the journal's entries.
    Sizes,
    /// The packages by their AIDs.
    Packages,
    /// The applets by their AIDs.
    Applets,
    /// The journal's entries that count.
    Entries,
    /// The packages' records.
    Records,
    /// The applets' entries in the registry.
    Registrations,
}

/// Writes those of these lines that are not the same in two images, up to the first that cannot be read.
pub(crate) fn push_part<S: WordStore>(
    text: &mut Vec<u8>,
    part: Part,
    one: &Image<'_, S>,
    other: &Image<'_, S>,
) -> Result<(), ListFault>
    ensures { Lists text.old.items text.new.items (part_lines part one.now other.now) result }
{
    let count = larger(part_count(part, one), part_count(part, other));
    for i in 0..count {
        push_pair_at(text, part, one, other, i)?;
    }
    Ok(())
}

fn larger(one: u16, other: u16) -> u16
    ensures { result ≡ larger one other }
{
    if one < other { other } else { one }
}

// How many lines there are.
fn part_count<S: WordStore>(part: Part, image: &Image<'_, S>) -> u16
    ensures { result ≡ part_count part image.now.words }
{
    let store = image.store();
    match part {
        Part::Sizes => 2,
        Part::Packages | Part::Records => store.read(PACKAGES),
        Part::Applets | Part::Registrations => store.read(APPLETS),
        Part::Entries => store.read(COUNT),
    }
}

// Writes the lines after this many others, if they are not the same.
fn push_pair_at<S: WordStore>(
    text: &mut Vec<u8>,
    part: Part,
    one: &Image<'_, S>,
    other: &Image<'_, S>,
    before: u16,
) -> Result<(), ListFault>
    requires { before < 65535 }
    ensures { Lists text.old.items text.new.items
        (pair_at part one.now other.now (before + 1)) result }
{
    let one_line = line_among(*text.allocator(), part, one, before)?;
    let other_line = line_among(*text.allocator(), part, other, before)?;
    push_pair(text, &one_line, &other_line)
}

// Lists the line after this many others; nothing after the last.
fn line_among<S: WordStore>(
    alloc: Global,
    part: Part,
    image: &Image<'_, S>,
    before: u16,
) -> Result<Listing, AllocError>
    requires { before < 65535 }
    ensures { IfOk result (λ found. lines_of found ≡ line_among part image.now (before + 1)) }
{
    let mut text = Vec::new(alloc);
    if before >= part_count(part, image) {
        return Ok(Listing {
            text,
            readable: true,
        });
    }
    let told = push_line(&mut text, part, image, before);
    listing_by(text, told)
}

// Writes the line after this many others.
fn push_line<S: WordStore>(
    text: &mut Vec<u8>,
    part: Part,
    image: &Image<'_, S>,
    before: u16,
) -> Result<(), ListFault>
    requires { before < 65535 }
    ensures { Lists text.old.items text.new.items (part_line part image.now (before + 1)) result }
{
    let legend = image.legend();
    let store = image.store();
    match part {
        Part::Sizes => {
            push_size(text, store, before + 1)?;
            Ok(())
        }
        Part::Packages => push_package_name(text, store, before + 1),
        Part::Applets => push_applet_name(text, store, before + 1),
        Part::Entries => push_entry_at(text, &legend.platform, store, before),
        Part::Records => push_package(text, legend, store, before),
        Part::Registrations => push_applet_at(text, store, before),
    }
}

// Writes how many words there are, or how many entries of the journal.
fn push_size<S: WordStore>(text: &mut Vec<u8>, store: &S, number: u16) -> Result<(), AllocError>
    requires { HasSize (S.words store.now) }
    ensures { OnOk result (text.new.items ≡ text.old.items ++ size_text (S.words store.now) number) }
{
    if number == 1 {
        return push_labelled(text, b"words ", store.size(), b"\n");
    }
    push_labelled(text, b"journal ", store.read(COUNT), b" of ")?;
    push_labelled(text, b"", Log::of(store).capacity, b"\n")
}
