//! The lines of the journal's entries that count.
ghost use Rattle.std.specs.Prelude.{◌≡◌, ◌<◌, ◌≤◌, ◌+◌, ◌-◌, ◌++◌, length, Option, OnOk};
ghost use Rattle.jc_words.specs.Image.{HasSize, log_of};
ghost use Rattle.jc_words.specs.Layout.{text_start};
ghost use Rattle.jc_commit.specs.Image.{capacity_of, count_of};
ghost use Rattle.jc_objects.specs.Bounds.{IsBounded};
ghost use Rattle.jcard_dump.specs.Entries.{cell_text, entry_lines, entry_text, found_text};
ghost use Rattle.jcard_dump.specs.Fault.{Lists, each_line};
ghost use Rattle.jc_objects.specs.Changes.{value_text};

use crate::fault::ListFault;
use crate::texts::{push_labelled, push_word};
use jc_objects::class_texts::{push_kind, push_number};
use jc_objects::holders::{Holder, holder_of};
use jc_objects::records::is_packed;
use jc_platform::platform::Platform;
use jc_words::layout::COUNT;
use jc_words::{Log, WordStore};
use std::alloc::AllocError;

/// Writes the line of each entry of the journal that counts, up to the first for which the journal has no place.
pub(crate) fn push_entries<S: WordStore>(
    text: &mut Vec<u8>,
    platform: &Platform,
    store: &S,
) -> Result<(), ListFault>
    requires size { HasSize (S.words store.now) }
    requires bounds { IsBounded (S.words store.now) }
    ensures { Lists text.old.items text.new.items (each_line
        (entry_lines platform.now (S.words store.now)) (count_of (S.words store.now))) result }
{
    let count = store.read(COUNT);
    for i in 0..count {
        push_entry_at(text, platform, store, i)?;
    }
    Ok(())
}

/// Writes the line of the entry after this many others.
pub(crate) fn push_entry_at<S: WordStore>(
    text: &mut Vec<u8>,
    platform: &Platform,
    store: &S,
    before: u16,
) -> Result<(), ListFault>
    requires size { HasSize (S.words store.now) }
    requires bounds { IsBounded (S.words store.now) }
    requires number { before < 65535 }
    ensures { Lists text.old.items text.new.items
        (entry_lines platform.now (S.words store.now) (before + 1)) result }
{
    let log = Log::of(store);
    if before >= log.capacity {
        return Err(ListFault::Unreadable);
    }
    push_entry(text, platform, store, log, before)?;
    Ok(())
}

// Writes the line of this entry of a journal.
fn push_entry<S: WordStore>(
    text: &mut Vec<u8>,
    platform: &Platform,
    store: &S,
    log: Log,
    before: u16,
) -> Result<(), AllocError>
    requires size { HasSize (S.words store.now) }
    requires bounds { IsBounded (S.words store.now) }
    requires log { log ≡ log_of (S.words store.now) }
    requires entry { before < capacity_of (S.words store.now) }
    ensures { OnOk result (text.new.items ≡ text.old.items
        ++ entry_text platform.now (S.words store.now) (before + 1)) }
{
    let _ = store.size(); // so that the proof knows that there are fewer than 65,536 words
    let at = log.address_word(before);
    let address = store.read(at);
    push_labelled(text, b"entry ", before + 1, b": word ")?;
    push_labelled(text, b"", address, b" was ")?;
    push_found(
        text,
        platform,
        store,
        holder_of(store, address),
        store.read(at + 1),
    )
}

// Writes the old value, and the cell that stands in the word.
fn push_found<S: WordStore>(
    text: &mut Vec<u8>,
    platform: &Platform,
    store: &S,
    found: Option<Holder>,
    old: u16,
) -> Result<(), AllocError>
    requires { text_start ≤ length (S.words store.now) }
    ensures { OnOk result (text.new.items ≡ text.old.items
        ++ found_text platform.now (S.words store.now) found old) }
{
    match found {
        Some(holder) => push_cell(text, platform, store, holder, old),
        None => push_labelled(text, b"", old, b"\n"),
    }
}

// Writes the old value of a cell, and which it is.
fn push_cell<S: WordStore>(
    text: &mut Vec<u8>,
    platform: &Platform,
    store: &S,
    holder: Holder,
    old: u16,
) -> Result<(), AllocError>
    requires { text_start ≤ length (S.words store.now) }
    ensures { OnOk result (text.new.items ≡ text.old.items
        ++ cell_text platform.now (S.words store.now) holder old) }
{
    push_value(text, is_packed(holder.facts), old)?;
    push_labelled(text, b" @", holder.object, b" ")?;
    push_kind(
        *text.allocator(),
        text,
        platform,
        store,
        holder.facts.kind,
        holder.facts.class(),
    )?;
    push_labelled(text, b" [", holder.cell, b"]\n")
}

// Writes a word: two elements in hexadecimal, or a number.
fn push_value(text: &mut Vec<u8>, packed: bool, word: u16) -> Result<(), AllocError>
    ensures { OnOk result (text.new.items ≡ text.old.items ++ value_text packed word) }
{
    if packed {
        return push_word(text, word);
    }
    push_number(text, word)
}
