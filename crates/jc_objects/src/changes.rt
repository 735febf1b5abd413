//! What changed of the words of an image, by object and cell.
ghost use Rattle.std.specs.Prelude.{◌≡◌, ◌≤◌, ◌<◌, ◌-◌, ◌++◌, decimal, length, slice_index, OnOk};
ghost use Rattle.jc_words.specs.Layout.{text_start};
ghost use Rattle.jc_heap.specs.Image.{IsWellFormed};
ghost use Rattle.jc_objects.specs.Changes.{cell_text, change_text, changed_text, changes_text, value_text, values_text, word_text, words_text};

use crate::class_texts::{push_kind, push_number};
use crate::holders::{Holder, holder_of};
use crate::image_objects::ImageObjects;
use crate::records::is_packed;
use jc_words::layout::{ADDRESSES, TEXT_LENGTH, TOP};
use std::alloc::{AllocError, Global};

/// Writes what changed of an image since it had these objects after a text: a line for each of its words that is another one now.
pub fn push_changes(
    alloc: Global,
    text: &mut Vec<u8>,
    objects: &ImageObjects,
    now: &[u16],
) -> Result<(), AllocError>
    requires formed { IsWellFormed objects.now.recovered.plain }
    requires long { text_start ≤ length objects.now.store.words }
    ensures { OnOk result (text.new.items ≡ text.old.items ++ changes_text objects.now now.now) }
{
    let top = word_at(objects.store.words(), TOP);
    push_words(alloc, text, objects, now, TOP, TEXT_LENGTH)?;
    push_words(alloc, text, objects, now, ADDRESSES, top)
}

// Writes those of the words from `first` up to `end` that changed.
fn push_words(
    alloc: Global,
    text: &mut Vec<u8>,
    objects: &ImageObjects,
    now: &[u16],
    first: u16,
    end: u16,
) -> Result<(), AllocError>
    requires formed { IsWellFormed objects.now.recovered.plain }
    requires long { text_start ≤ length objects.now.store.words }
    ensures { OnOk result (text.new.items ≡ text.old.items
        ++ words_text objects.now now.now first (end - first)) }
{
    for address in first..end {
        push_word(alloc, text, objects, now, address)?;
    }
    Ok(())
}

// Writes the word at an address, if it changed.
fn push_word(
    alloc: Global,
    text: &mut Vec<u8>,
    objects: &ImageObjects,
    now: &[u16],
    address: u16,
) -> Result<(), AllocError>
    requires formed { IsWellFormed objects.now.recovered.plain }
    requires long { text_start ≤ length objects.now.store.words }
    ensures { OnOk result (text.new.items ≡ text.old.items
        ++ changed_text objects.now now.now address) }
{
    let old = word_at(objects.store.words(), address);
    let new = word_at(now, address);
    if old == new {
        return Ok(());
    }
    push_change(alloc, text, objects, address, old, new)
}

// Writes a word that changed.
fn push_change(
    alloc: Global,
    text: &mut Vec<u8>,
    objects: &ImageObjects,
    address: u16,
    old: u16,
    new: u16,
) -> Result<(), AllocError>
    requires formed { IsWellFormed objects.now.recovered.plain }
    requires long { text_start ≤ length objects.now.store.words }
    ensures { OnOk result (text.new.items ≡ text.old.items ++ change_text objects.now address old new) }
{
    match holder_of(&objects.recovered, address) {
        Some(found) => push_cell(alloc, text, objects, found, old, new),
        None => push_bare_word(alloc, text, address, old, new),
    }
}

// Writes a cell that changed.
fn push_cell(
    alloc: Global,
    text: &mut Vec<u8>,
    objects: &ImageObjects,
    found: Holder,
    old: u16,
    new: u16,
) -> Result<(), AllocError>
    requires long { text_start ≤ length objects.now.store.words }
    ensures { OnOk result (text.new.items ≡ text.old.items
        ++ cell_text objects.now found old new) }
{
    push_labelled(text, b"@", found.object, b" ")?;
    push_kind(
        alloc,
        text,
        &objects.platform,
        &objects.store,
        found.facts.kind,
        found.facts.class(),
    )?;
    push_labelled(text, b" [", found.cell, b"] ")?;
    push_values(alloc, text, is_packed(found.facts), old, new)
}

// Writes a word that holds no cell and that changed.
fn push_bare_word(
    alloc: Global,
    text: &mut Vec<u8>,
    address: u16,
    old: u16,
    new: u16,
) -> Result<(), AllocError>
    ensures { OnOk result (text.new.items ≡ text.old.items ++ word_text address old new) }
{
    push_labelled(text, b"word ", address, b" ")?;
    push_values(alloc, text, false, old, new)
}

// Writes a number between two texts.
fn push_labelled(
    text: &mut Vec<u8>,
    before: &[u8],
    number: u16,
    behind: &[u8],
) -> Result<(), AllocError>
    ensures { OnOk result (text.new.items ≡ text.old.items
        ++ (before.now ++ decimal number ++ behind.now)) }
{
    text.extend_from_slice(before)?;
    push_number(text, number)?;
    text.extend_from_slice(behind)
}

// Writes the word that was and the one that is.
fn push_values(
    alloc: Global,
    text: &mut Vec<u8>,
    packed: bool,
    old: u16,
    new: u16,
) -> Result<(), AllocError>
    ensures { OnOk result (text.new.items ≡ text.old.items ++ values_text packed old new) }
{
    push_value(alloc, text, packed, old)?;
    text.extend_from_slice(b">")?;
    push_value(alloc, text, packed, new)?;
    text.extend_from_slice(b"\n")
}

// Writes a word: two elements in hexadecimal, or a number.
fn push_value(alloc: Global, text: &mut Vec<u8>, packed: bool, word: u16) -> Result<(), AllocError>
    ensures { OnOk result (text.new.items ≡ text.old.items ++ value_text packed word) }
{
    if !packed {
        return push_number(text, word);
    }
    let elements = [(word / 256) as u8, (word % 256) as u8];
    let digits = hex::encode_upper(alloc, &elements)?;
    text.extend_from_slice(digits.as_bytes())
}

// The word at an address, 0 past the end.
fn word_at(words: &[u16], address: u16) -> u16
    ensures { result ≡ slice_index words.now address }
{
    match words.get(usize::from(address)) {
        Some(word) => *word,
        None => 0,
    }
}
