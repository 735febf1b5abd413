//! The walk over the heap's records.
ghost use Rattle.std.specs.Prelude.{◌≡◌, ◌<◌, ◌&&◌, nat_lt, not, map, ◌≤◌, ◌+◌, length, slice_index, drop};
ghost use Rattle.jc_words.specs.Layout.{top_address, text_start};
ghost use Rattle.jc_heap.specs.Image.{IsWellFormed, image, package_addresses, is_package, sizes};
ghost use Rattle.jc_heap.specs.Walk.{records_from, missing_words, has_entry};
ghost use Rattle.jc_heap.specs.Image.{item_entry};
ghost use Rattle.jc_heap.specs.Heap.{first_above};

use crate::layout::{HEADER, LENGTH, TRANSIENT};
use crate::object::{begins_header, is_packed_header, words_of_cells};
use jc_commit::Journal;
use jc_transient::Ref;
use jc_words::WordStore;
use jc_words::layout::{ADDRESSES, MOST_PACKAGES, PACKAGES, TEXT_LENGTH, TEXT_START, TOP};

// The size of a record that begins with no header: no image has that many words.
const NO_HEADER: u32 = 65540;

/// Whether a package's record begins at the address.
pub fn begins_package<S: WordStore>(journal: &Journal<S>, at: u16) -> bool
    requires wide { text_start ≤ slice_index journal.now.plain top_address }
    requires fits { slice_index journal.now.plain top_address ≤ length journal.now.plain }
    requires small { length journal.now.plain < 65536 }
    ensures { result ≡ is_package (package_addresses (image journal.now.plain)) at }
{
    let count = journal.read(PACKAGES).min(MOST_PACKAGES);
    for k in 0..count {
        if journal.read(ADDRESSES + k) == at {
            return true;
        }
    }
    false
}

/// How many words the record at an address has: more than there can be, where it begins with no header.
pub fn record_size<S: WordStore>(journal: &Journal<S>, at: u16, top: u16) -> u32
    requires wide { text_start ≤ slice_index journal.now.plain top_address }
    requires fits { slice_index journal.now.plain top_address ≤ length journal.now.plain }
    requires small { length journal.now.plain < 65536 }
    requires behind { text_start ≤ at }
    requires inside { at < slice_index journal.now.plain top_address }
    requires is_top { top ≡ slice_index journal.now.plain top_address }
    ensures { result ≡ sizes (package_addresses (image journal.now.plain)) at
        (drop at (image journal.now.plain)) + 1 }
{
    let word = journal.read(at);
    if begins_package(journal, at) {
        return u32::from(word).max(1);
    }
    if !begins_header(word) {
        return NO_HEADER;
    }
    if word / 256 != 0 {
        return u32::from(TRANSIENT);
    }
    if top - at < HEADER {
        return u32::from(HEADER);
    }
    u32::from(HEADER) + words_of_cells(is_packed_header(word), journal.read(at + LENGTH))
}

// An object begins at the address of a record, and it lies above the other address.
fn is_object_above<S: WordStore>(journal: &Journal<S>, at: u16, above: u16) -> bool
    requires wide { text_start ≤ slice_index journal.now.plain top_address }
    requires fits { slice_index journal.now.plain top_address ≤ length journal.now.plain }
    requires small { length journal.now.plain < 65536 }
    ensures { result ≡ (nat_lt above at && not (is_package
        (package_addresses (image journal.now.plain)) at)) }
{
    if at <= above {
        return false;
    }
    !begins_package(journal, at)
}

// The first object above an address, among the records from an address on.
pub(crate) fn first_object<S: WordStore>(journal: &Journal<S>, from: u16, above: u16) -> Option<Ref>
    requires laid { IsWellFormed journal.now.plain }
    requires small { length journal.now.plain < 65536 }
    requires low { text_start ≤ from }
    requires high { from ≤ slice_index journal.now.plain top_address }
    requires whole { missing_words (sizes (package_addresses (image journal.now.plain))) 0 from
        (drop from (image journal.now.plain)) ≡ 0 }
    ensures { result ≡ first_above (map (item_entry (package_addresses (image journal.now.plain)))
        (records_from (sizes (package_addresses (image journal.now.plain))) 0 from
        (drop from (image journal.now.plain)))) above }
{
    let top = journal.read(TOP);
    let mut at = from;
    while at < top {
        if is_object_above(journal, at, above) {
            return Some(Ref::at(at));
        }
        let size = record_size(journal, at, top);
        at += size as u16;
    }
    None
}

// A record begins at the address, among the records from another address on.
pub(crate) fn begins_record<S: WordStore>(journal: &Journal<S>, from: u16, address: u16) -> bool
    requires laid { IsWellFormed journal.now.plain }
    requires small { length journal.now.plain < 65536 }
    requires low { text_start ≤ from }
    requires high { from ≤ slice_index journal.now.plain top_address }
    requires whole { missing_words (sizes (package_addresses (image journal.now.plain))) 0 from
        (drop from (image journal.now.plain)) ≡ 0 }
    ensures { result ≡ has_entry (records_from (sizes (package_addresses (image journal.now.plain)))
        0 from (drop from (image journal.now.plain))) address }
{
    let top = journal.read(TOP);
    let mut at = from;
    while at < top {
        if at == address {
            return true;
        }
        let size = record_size(journal, at, top);
        at += size as u16;
    }
    false
}
