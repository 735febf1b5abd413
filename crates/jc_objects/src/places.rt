//! Which object begins at an address.
ghost use Rattle.std.specs.Prelude.{ℕ, ◌≡◌};
ghost use Rattle.jc_objects.specs.Bounds.{IsBounded};
ghost use Rattle.jc_objects.specs.Records.{IsRecord, item_at};
ghost use Rattle.jc_objects.specs.Places.{IsPlaceFor, IsStanding, standing_at, standing_here};

use crate::bounds::first_record;
use crate::records::{object_at, whole_size};
use jc_heap::Facts;
use jc_image::ImageWords;
use jc_words::layout::TOP;

/// What begins at an address of a heap.
#[derive(Clone, Copy)]
pub enum Standing {
    /// An object with this header.
    Object(Facts),
    /// No object.
    Nothing,
    /// It cannot be read: a record that lacks words stands below the address, or there.
    Unread,
}

/// The place from which a walk finds what begins at any address.
pub fn first_place<W: ImageWords>(words: &W) -> u16
    requires { IsBounded (W.words words.now) }
    ensures { (address : ℕ) → IsPlaceFor (W.words words.now) result address }
{
    let _ = words.word_count(); // so that the proof knows that there are fewer than 65,536 words
    first_record(words) as u16
}

/// What begins at an address of the heap, by a walk from a place on, which is left as one for this address and those after it.
pub fn standing_from<W: ImageWords>(words: &W, place: &mut u16, address: u16) -> Standing
    requires bounds { IsBounded (W.words words.now) }
    requires place { IsPlaceFor (W.words words.now) place.old address }
    ensures standing { result ≡ standing_at (W.words words.now) address }
    ensures object { IsStanding (W.words words.now) address result }
    ensures place { IsPlaceFor (W.words words.now) place.new address }
{
    let _ = words.word_count(); // so that the proof knows that there are fewer than 65,536 words
    let top = words.word(TOP);
    while *place < top {
        let Some(size) = whole_size(words, *place, top) else {
            return Standing::Unread;
        };
        if address <= *place {
            return standing_here(words, *place, address);
        }
        *place += size;
    }
    Standing::Nothing
}

// The object whose record begins at one address, if that is the other one.
fn standing_here<W: ImageWords>(words: &W, at: u16, address: u16) -> Standing
    requires bounds { IsBounded (W.words words.now) }
    requires record { IsRecord (W.words words.now) at }
    ensures standing { result ≡ standing_here (at, item_at (W.words words.now) at) address }
    ensures object { IsStanding (W.words words.now) address result }
{
    if at != address {
        return Standing::Nothing;
    }
    match object_at(words, at) {
        Some(facts) => Standing::Object(facts),
        None => Standing::Nothing,
    }
}
