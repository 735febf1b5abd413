//! Which cell of which object stands in a word.
ghost use Rattle.std.specs.Prelude.{◌≡◌, ◌<◌};
ghost use Rattle.jc_objects.specs.Bounds.{IsBounded};
ghost use Rattle.jc_objects.specs.Holders.{cell_behind, holder_at, holder_in};
ghost use Rattle.jc_objects.specs.Records.{IsRecord, item_at, standing_items};

use crate::bounds::first_record;
use crate::records::{is_packed, object_at, whole_size};
use jc_heap::Facts;
use jc_heap::layout::HEADER;
use jc_image::ImageWords;
use jc_words::layout::TOP;

/// A cell of a persistent object, and what the object's header says. Of two elements that stand in a word it is the first.
#[derive(Clone, Copy)]
pub struct Holder {
    /// The address of the object.
    pub object: u16,
    pub cell: u16,
    pub facts: Facts,
}

/// The cell of a persistent object that stands in the word at an address; none where no cell does.
pub fn holder_of<W: ImageWords>(words: &W, address: u16) -> Option<Holder>
    requires { IsBounded (W.words words.now) }
    ensures { result ≡ holder_in (standing_items (W.words words.now)) address }
{
    let _ = words.word_count(); // so that the proof knows that there are fewer than 65,536 words
    let top = words.word(TOP);
    let mut at = first_record(words) as u16;
    while at < top {
        let Some(size) = whole_size(words, at, top) else {
            return None;
        };
        if let Some(found) = holder_at(words, at, address) {
            return Some(found);
        }
        at += size;
    }
    None
}

// The cell that stands in the word at an address, of what stands at another address.
fn holder_at<W: ImageWords>(words: &W, at: u16, address: u16) -> Option<Holder>
    requires bounds { IsBounded (W.words words.now) }
    requires record { IsRecord (W.words words.now) at }
    ensures { result ≡ holder_at (at, item_at (W.words words.now) at) address }
{
    let Some(facts) = object_at(words, at) else {
        return None;
    };
    let first = u32::from(at) + u32::from(HEADER);
    if facts.event.is_some() || u32::from(address) < first {
        return None;
    }
    let cell = cell_behind(facts, u32::from(address) - first);
    if cell >= u32::from(facts.length) {
        return None;
    }
    Some(Holder {
        object: at,
        cell: cell as u16,
        facts,
    })
}

// The cell that stands n words after a header.
fn cell_behind(facts: Facts, words: u32) -> u32
    requires { words < 65536 }
    ensures { result ≡ cell_behind facts words }
{
    if is_packed(facts) { 2 * words } else { words }
}
