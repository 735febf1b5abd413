//! The records of a heap, one after another: objects, and packages.
ghost use Rattle.std.specs.Prelude.{◌≡◌, ◌<◌, ◌≤◌, ◌+◌, ◌/◌, ◌==◌, if◌then◌else◌, None, Some, false, true, length, slice_index, IfSome};
ghost use Rattle.jc_words.specs.Layout.{text_start, top_address};
ghost use Rattle.jc_heap.specs.Image.{image, is_package, package_addresses};
ghost use Rattle.jc_heap.specs.Object.{cells_of, event_of, header_size, is_header, is_packed, is_packed_header, kind_of, words_of_cells};
ghost use Rattle.jc_heap.specs.Packed.{byte_in};
ghost use Rattle.jc_objects.specs.Bounds.{IsBounded};
ghost use Rattle.jc_objects.specs.Records.{IsRecord, item_at, object_in, record_size, whole_size};

use jc_heap::layout::{HEADER, LENGTH, TRANSIENT};
use jc_heap::{Facts, Kind};
use jc_image::ImageWords;
use jc_transient::{ClassWord, ClearEvent, OwnerWord};
use jc_words::layout::{ADDRESSES, MOST_PACKAGES, PACKAGES};

// The size of a record that begins with no header: no image has that many words.
const NO_HEADER: u32 = 65540;

/// Whether a package's record begins at the address.
pub fn begins_package<W: ImageWords>(words: &W, at: u16) -> bool
    requires { IsBounded (W.words words.now) }
    ensures { result ≡ is_package (package_addresses (image (W.words words.now))) at }
{
    let _ = words.word_count(); // so that the proof knows that there are fewer than 65,536 words
    let count = words.word(PACKAGES).min(MOST_PACKAGES);
    for k in 0..count {
        if words.word(ADDRESSES + k) == at {
            return true;
        }
    }
    false
}

// What an object's kind is as a number of the image.
fn kind_of(number: u16) -> Kind
    ensures { result ≡ kind_of number }
{
    match number {
        2 | 6 => Kind::BooleanArray,
        3 | 7 => Kind::ByteArray,
        4 => Kind::ShortArray,
        5 => Kind::ReferenceArray,
        _ => Kind::Instance,
    }
}

// What clears an object, as a number of the image.
fn event_of(number: u16) -> Option<ClearEvent>
    ensures { result ≡ event_of number }
{
    match number {
        0 => None,
        1 => Some(ClearEvent::Reset),
        _ => Some(ClearEvent::Deselect),
    }
}

// The word is the first one of the header of an array of which two elements stand in a word.
fn is_packed_header(word: u16) -> bool
    ensures { result ≡ is_packed_header word }
{
    word == 6 || word == 7
}

// The word has a kind and an event, as the first one of a header.
fn begins_header(word: u16) -> bool
    ensures { result ≡ is_header word }
{
    let kind = word % 256;
    is_packed_header(word) || (kind > 0 && kind < 6 && word / 256 < 3)
}

// How many words hold n cells, where two stand in a word or not.
fn words_of_cells(packed: bool, length: u16) -> u32
    ensures { result ≡ words_of_cells packed length }
{
    if packed {
        return (u32::from(length) + 1) / 2;
    }
    u32::from(length)
}

// How many words the record at an address has: more than there can be, where it begins with no header.
fn record_size<W: ImageWords>(words: &W, at: u16, top: u16) -> u32
    requires bounds { IsBounded (W.words words.now) }
    requires low { text_start ≤ at }
    requires inside { at < top }
    requires is_top { top ≡ slice_index (W.words words.now) top_address }
    ensures { result ≡ record_size (W.words words.now) at }
{
    let word = words.word(at);
    if begins_package(words, at) {
        return u32::from(word).max(1);
    }
    if !begins_header(word) {
        return NO_HEADER;
    }
    if word / 256 != 0 {
        return u32::from(TRANSIENT);
    }
    if top - at < HEADER {
        return u32::from(HEADER);
    }
    u32::from(HEADER) + words_of_cells(is_packed_header(word), words.word(at + LENGTH))
}

/// How many words the record has that begins at an address after the first words; none where they do not all lie below the top.
pub fn whole_size<W: ImageWords>(words: &W, at: u16, top: u16) -> Option<u16>
    requires bounds { IsBounded (W.words words.now) }
    requires low { text_start ≤ at }
    requires inside { at < top }
    requires is_top { top ≡ slice_index (W.words words.now) top_address }
    ensures { result ≡ whole_size (W.words words.now) at }
{
    let size = record_size(words, at, top);
    if size > u32::from(top - at) {
        return None;
    }
    Some(size as u16)
}

// The word after a transient object's header, 0 where there is none.
fn area_place<W: ImageWords>(words: &W, at: u16, word: u16) -> u16
    requires low { text_start ≤ at }
    requires there { (word / 256 ≡ 0 → ⊥) → at + header_size < length (W.words words.now) }
    ensures { result ≡ (if word / 256 == 0 then 0 else slice_index (W.words words.now) (at + header_size)) }
{
    let _ = words.word_count(); // so that the proof knows that there are fewer than 65,536 words
    if word / 256 == 0 {
        return 0;
    }
    words.word(at + HEADER)
}

/// What the header of the object says whose record begins at an address; none, where it is a package's.
pub fn object_at<W: ImageWords>(words: &W, at: u16) -> Option<Facts>
    requires bounds { IsBounded (W.words words.now) }
    requires record { IsRecord (W.words words.now) at }
    ensures facts { result ≡ object_in (item_at (W.words words.now) at) }
    ensures cells { IfSome result (λ f. f.event ≡ None
        → length (cells_of (item_at (W.words words.now) at)) ≡ f.length) }
{
    let _ = words.word_count(); // so that the proof knows that there are fewer than 65,536 words
    if begins_package(words, at) {
        return None;
    }
    Some(facts_at(words, at))
}

// The same, where it is no package's.
fn facts_at<W: ImageWords>(words: &W, at: u16) -> Facts
    requires bounds { IsBounded (W.words words.now) }
    requires record { IsRecord (W.words words.now) at }
    requires object { is_package (package_addresses (image (W.words words.now))) at ≡ false }
    ensures { Some result ≡ object_in (item_at (W.words words.now) at) }
{
    let _ = words.word_count(); // so that the proof knows that there are fewer than 65,536 words
    let word = words.word(at);
    let place = area_place(words, at, word);
    let mut facts = Facts::new(
        kind_of(word % 256),
        event_of(word / 256),
        ClassWord(words.word(at + 1)),
        OwnerWord(words.word(at + 2)),
        words.word(at + LENGTH),
        place,
    );
    facts.packed = is_packed_header(word);
    facts
}

// The byte of an index in its word.
fn byte_in(word: u16, i: u16) -> u16
    ensures { result ≡ byte_in word i }
{
    if i % 2 == 0 {
        return word / 256;
    }
    word % 256
}

/// Whether two elements of an object with this header stand in a word.
pub fn is_packed(facts: Facts) -> bool
    ensures { result ≡ is_packed facts }
{
    matches!(facts.kind, Kind::BooleanArray | Kind::ByteArray) && facts.packed
}

/// A cell of the persistent object with this header whose record begins at an address.
pub fn cell_of<W: ImageWords>(words: &W, at: u16, facts: Facts, i: u16) -> u16
    requires bounds { IsBounded (W.words words.now) }
    requires record { IsRecord (W.words words.now) at }
    requires object { object_in (item_at (W.words words.now) at) ≡ Some facts }
    requires cell { i < length (cells_of (item_at (W.words words.now) at)) }
    ensures { result ≡ slice_index (cells_of (item_at (W.words words.now) at)) i }
{
    let _ = words.word_count(); // so that the proof knows that there are fewer than 65,536 words
    if is_packed(facts) {
        return byte_in(words.word(at + HEADER + i / 2), i);
    }
    words.word(at + HEADER + i)
}
