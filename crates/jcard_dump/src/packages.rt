//! The lines of the packages' records.
ghost use Rattle.std.specs.Prelude.{◌≡◌, ◌<◌, ◌≤◌, ◌+◌, ◌++◌, drop, length, slice_index, take, OnOk};
ghost use Rattle.jc_words.specs.Layout.{packages_address};
ghost use Rattle.jc_heap.specs.Component.{words_for};
ghost use Rattle.jc_objects.specs.Bounds.{IsBounded};
ghost use Rattle.jc_objects.specs.Records.{IsRecord, record_size, record_words};
ghost use Rattle.jcard_dump.specs.Fault.{Lists, each_line};
ghost use Rattle.jcard_dump.specs.Packages.{component_bytes, component_text, head_text, image_text, package_lines, parts_lines, record_at, record_from, record_lines, static_text};

use crate::fault::ListFault;
use crate::texts::{push_labelled, push_reference, push_word};
use jc_objects::bounds::first_record;
use jc_objects::class_texts::push_number;
use jc_objects::legend::Legend;
use jc_objects::records::whole_size;
use jc_words::WordStore;
use jc_words::layout::{ADDRESSES, MOST_PACKAGES, PACKAGES, TOP};
use std::alloc::AllocError;

/// Where a package's record begins, and how many words it has.
#[derive(Clone, Copy, Drop)]
struct Record {
    at: u16,
    size: u16,
}

/// Writes the line of each package's record, up to the first that cannot be read.
pub(crate) fn push_packages<S: WordStore>(
    text: &mut Vec<u8>,
    legend: &Legend,
    store: &S,
) -> Result<(), ListFault>
    requires { IsBounded (S.words store.now) }
    ensures { Lists text.old.items text.new.items (each_line
        (package_lines legend.now (S.words store.now))
        (slice_index (S.words store.now) packages_address)) result }
{
    let count = store.read(PACKAGES);
    for i in 0..count {
        push_package(text, legend, store, i)?;
    }
    Ok(())
}

/// Writes the line of the package after this many others.
pub(crate) fn push_package<S: WordStore>(
    text: &mut Vec<u8>,
    legend: &Legend,
    store: &S,
    before: u16,
) -> Result<(), ListFault>
    requires bounds { IsBounded (S.words store.now) }
    requires number { before < 65535 }
    ensures { Lists text.old.items text.new.items
        (package_lines legend.now (S.words store.now) (before + 1)) result }
{
    let Some(found) = record_at(store, before) else {
        return Err(ListFault::Unreadable);
    };
    push_record(text, legend, store, before + 1, found)
}

// Where the record of the package after this many others stands, if its words lie in the heap.
fn record_at<S: WordStore>(store: &S, before: u16) -> Option<Record>
    requires { IsBounded (S.words store.now) }
    ensures { result ≡ record_at (S.words store.now) before }
{
    if before >= MOST_PACKAGES {
        return None;
    }
    record_from(store, store.read(ADDRESSES + before))
}

// The record at an address.
fn record_from<S: WordStore>(store: &S, at: u16) -> Option<Record>
    requires { IsBounded (S.words store.now) }
    ensures { result ≡ record_from (S.words store.now) at }
{
    let top = store.read(TOP);
    if u32::from(at) < first_record(store) || at >= top {
        return None;
    }
    match whole_size(store, at, top) {
        Some(size) => Some(Record { at, size }),
        None => None,
    }
}

// Writes what a record has.
fn push_record<S: WordStore>(
    text: &mut Vec<u8>,
    legend: &Legend,
    store: &S,
    number: u16,
    found: Record,
) -> Result<(), ListFault>
    requires bounds { IsBounded (S.words store.now) }
    requires record { IsRecord (S.words store.now) found.at }
    requires size { found.size ≡ record_size (S.words store.now) found.at }
    ensures { Lists text.old.items text.new.items (record_lines legend.now (S.words store.now) number found) result }
{
    push_head(text, number, found)?;
    let told = push_parts(text, legend.static_references(number), store, found);
    text.extend_from_slice(b"\n")?;
    told
}

// Writes where a record stands, and its size.
fn push_head(text: &mut Vec<u8>, number: u16, found: Record) -> Result<(), AllocError>
    ensures { OnOk result (text.new.items ≡ text.old.items ++ head_text number found) }
{
    push_labelled(text, b"package ", number, b": ")?;
    push_labelled(text, b"@", found.at, b", ")?;
    push_labelled(text, b"", found.size, b" words, components")
}

// Writes the components of a record, and its static image, which begins with this many references.
fn push_parts<S: WordStore>(
    text: &mut Vec<u8>,
    references: u16,
    store: &S,
    found: Record,
) -> Result<(), ListFault>
    requires bounds { IsBounded (S.words store.now) }
    requires record { IsRecord (S.words store.now) found.at }
    requires size { found.size ≡ record_size (S.words store.now) found.at }
    ensures { Lists text.old.items text.new.items
        (parts_lines references (record_words (S.words store.now) found.at)) result }
{
    let _ = store.size(); // so that the proof knows that there are fewer than 65,536 words
    let mut offset = 1;
    while offset < found.size {
        let at = found.at + offset;
        let left = found.size - offset;
        let tag = store.read(at);
        if tag == 0 {
            push_image(text, references, store, at + 1, left - 1)?;
            return Ok(());
        }
        let Some(bytes) = component_bytes(store, at, left) else {
            return Err(ListFault::Unreadable);
        };
        push_component(text, tag, bytes)?;
        offset += 2 + words_for(bytes);
    }
    Ok(())
}

// How many bytes the component at an address has, where its words are among this many.
fn component_bytes<S: WordStore>(store: &S, at: u16, left: u16) -> Option<u16>
    requires { at + left ≤ length (S.words store.now) }
    ensures { result ≡ component_bytes (S.words store.now) at left }
{
    let _ = store.size(); // so that the proof knows that there are fewer than 65,536 words
    if left < 2 {
        return None;
    }
    let bytes = store.read(at + 1);
    if 2 + words_for(bytes) > left {
        return None;
    }
    Some(bytes)
}

// How many words hold this many bytes.
fn words_for(bytes: u16) -> u16
    ensures { result ≡ words_for bytes }
{
    bytes / 2 + bytes % 2
}

// Writes the tag and the size of a component.
fn push_component(text: &mut Vec<u8>, tag: u16, bytes: u16) -> Result<(), AllocError>
    ensures { OnOk result (text.new.items ≡ text.old.items ++ component_text tag bytes) }
{
    push_labelled(text, b" ", tag, b":")?;
    push_number(text, bytes)
}

// Writes this many words of a static image, from an address on, the first as references.
fn push_image<S: WordStore>(
    text: &mut Vec<u8>,
    references: u16,
    store: &S,
    at: u16,
    count: u16,
) -> Result<(), AllocError>
    requires { at + count ≤ length (S.words store.now) }
    ensures { OnOk result (text.new.items ≡ text.old.items
        ++ image_text references (take count (drop at (S.words store.now)))) }
{
    let _ = store.size(); // so that the proof knows that there are fewer than 65,536 words
    text.extend_from_slice(b", static image")?;
    for i in 0..count {
        push_static(text, i < references, store.read(at + i))?;
    }
    Ok(())
}

// Writes a word of a static image: a reference, or two bytes.
fn push_static(text: &mut Vec<u8>, is_reference: bool, word: u16) -> Result<(), AllocError>
    ensures { OnOk result (text.new.items ≡ text.old.items ++ static_text is_reference word) }
{
    text.extend_from_slice(b" ")?;
    if is_reference {
        return push_reference(text, word);
    }
    push_word(text, word)
}
