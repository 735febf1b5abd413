//! Printing what an image holds.
ghost use Rattle.std.specs.Prelude.{◌≡◌, ◌≤◌, ◌++◌, is_err, length, MatchResult};
ghost use Rattle.jc_words.specs.Layout.{text_start};
ghost use Rattle.std.specs.Io.KnownBytes.{Appends};
ghost use Rattle.jcard_texts.specs.Texts.{AppendsCut};
ghost use Rattle.jc_words.specs.Count.{failures_after};
ghost use Rattle.jcard_files.specs.Effects.{Does, Writes};
ghost use Rattle.jcard_dump.specs.Inventory.{IsDump, IsTold, lines_of, sizes_of, told_listing_fault, damage_of};
ghost use Rattle.jcard_dump.specs.InventoryLines.{Tells, applet_text, count_line, journal_line, line, numbered_lines, package_text, then_lines};
ghost use Rattle.jcard_dump.specs.InventoryLines.{is_not_written};

use crate::inventory_lines::{ListingFault, write_applets, write_count, write_packages};
use itoa::Buffer;
use jc_card::inventory::Inventory;
use jc_words::{ImageFault, WordStore};
use jcard_files::closed_store::ClosedStore;
use jcard_files::disk::Disk;
use jcard_files::fault::{Damage, Fault};
use jcard_texts::streams::{TextOut, WriteFailed, write_parts};

/// A count and what stands before it in its line.
type Count<'a> = (&'a [u8], u16);

/// `jcard dump IMAGE`: prints what the image with this name holds: how many words, entries of its journal and of how many,
/// packages and applets, a line each, and then a line of each package and of each applet. Nothing is recovered.
pub fn dump_image<'n, D: Disk, W: TextOut>(
    disk: &mut D,
    image: &'n str,
    out: &mut W,
) -> Result<(), Fault<'n>>
    ensures { Does D.does W.contents W.failures disk.old disk.new out.old out.new result
        (IsDump image.now) }
{
    let store = disk.open_image_to_read(image)?;
    let told = dump_store(&store, out);
    disk.close_image(image, ClosedStore::new(store));
    told
}

/// Prints what the words of a store hold, as `jcard dump` does.
pub fn dump_store<'a, S: WordStore, W: TextOut>(store: &S, out: &mut W) -> Result<(), Fault<'a>>
    ensures { Writes W.contents W.failures out.old out.new result (IsTold (S.words store.now)) }
{
    match Inventory::of(store) {
        Ok(found) => match write_all_lines(store, found, out) {
            Ok(()) => Ok(()),
            Err(cause) => Err(listing_fault(cause)),
        },
        Err(fault) => Err(Fault::BadImage(damage_by(fault))),
    }
}

// Writes the lines of an inventory, then those of its packages and of its applets.
fn write_all_lines<S: WordStore, W: TextOut>(
    store: &S,
    found: Inventory,
    out: &mut W,
) -> Result<(), ListingFault>
    requires { text_start ≤ length (S.words store.now) }
    ensures text { Tells (W.contents out.old) (W.contents out.new)
        (then_lines (line (lines_of found)) (then_lines
        (numbered_lines (package_text (S.words store.now)) found.packages)
        (numbered_lines (applet_text (S.words store.now)) found.applets))) result }
    ensures writes { W.failures out.new ≡ failures_after (W.failures out.old)
        (is_not_written result) }
{
    write_inventory(found, out)?;
    write_packages(store, found.packages, out)?;
    write_applets(store, found.applets, out)
}

// What it means that not all lines were written.
fn listing_fault(cause: ListingFault) -> Fault<'static>
    ensures { result ≡ told_listing_fault cause }
{
    match cause {
        ListingFault::NotWritten => Fault::WriteFailed,
        ListingFault::Unreadable => Fault::BadImage(Damage::Package),
    }
}

// The damage that a fault of the first words is.
fn damage_by(fault: ImageFault) -> Damage
    ensures { result ≡ damage_of fault }
{
    match fault {
        ImageFault::BadMagic => Damage::Magic,
        ImageFault::BadVersion => Damage::Version,
        ImageFault::BadSize => Damage::Size,
    }
}

fn write_inventory<W: TextOut>(found: Inventory, out: &mut W) -> Result<(), WriteFailed>
    ensures text { MatchResult result
        (λ _. Appends (W.contents out.old) (W.contents out.new) (lines_of found))
        (λ _. AppendsCut (W.contents out.old) (W.contents out.new) (lines_of found)) }
    ensures count { W.failures out.new ≡ failures_after (W.failures out.old) (is_err result) }
{
    write_sizes(found, out)?;
    write_counts(
        out,
        (b"packages ", found.packages),
        (b"applets ", found.applets),
    )
}

// Writes how many words there are, and how many entries of the journal.
fn write_sizes<W: TextOut>(found: Inventory, out: &mut W) -> Result<(), WriteFailed>
    ensures text { MatchResult result
        (λ _. Appends (W.contents out.old) (W.contents out.new) (sizes_of found))
        (λ _. AppendsCut (W.contents out.old) (W.contents out.new) (sizes_of found)) }
    ensures count { W.failures out.new ≡ failures_after (W.failures out.old) (is_err result) }
{
    write_count(out, b"words ", found.words)?;
    write_journal(out, found.journal, found.capacity)
}

// Writes how many entries of the journal count, and how many there can be.
fn write_journal<W: TextOut>(out: &mut W, count: u16, capacity: u16) -> Result<(), WriteFailed>
    ensures text { MatchResult result
        (λ _. Appends (W.contents out.old) (W.contents out.new) (journal_line count capacity))
        (λ _. AppendsCut (W.contents out.old) (W.contents out.new) (journal_line count capacity)) }
    ensures count { W.failures out.new ≡ failures_after (W.failures out.old) (is_err result) }
{
    let mut digits = Buffer::new();
    write_parts(out, b"journal ", digits.format(count).as_bytes(), b" of ")?;
    write_count(out, b"", capacity)
}

// Writes the lines of two counts.
fn write_counts<W: TextOut>(out: &mut W, first: Count, second: Count) -> Result<(), WriteFailed>
    ensures text { MatchResult result
        (λ _. Appends (W.contents out.old) (W.contents out.new)
        (count_line first.entry.0.now first.entry.1 ++ count_line second.entry.0.now
        second.entry.1))
        (λ _. AppendsCut (W.contents out.old) (W.contents out.new)
        (count_line first.entry.0.now first.entry.1 ++ count_line second.entry.0.now
        second.entry.1)) }
    ensures count { W.failures out.new ≡ failures_after (W.failures out.old) (is_err result) }
{
    write_count(out, first.0, first.1)?;
    write_count(out, second.0, second.1)
}
