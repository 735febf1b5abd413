//! The image that a recovery left: the one before it, moved to its words, or else read anew.
ghost use Rattle.std.specs.Prelude.{◌<◌, ◌≤◌, length, IsTrue, IfSome};
ghost use Rattle.jcard_tear.specs.KeptCard.{HoldOneHeap};
ghost use Rattle.jcard_sweeps.specs.Runs.{IsRecovered};

use crate::alike::hold_one_heap;
use crate::recoveries::{are_equal, journal_of};
use jc_card::powered_image::PoweredImage;
use jc_words::layout::TOP;

/// The most words that an image is moved by.
const MOST: u16 = 64;

/// How many words are compared at once, and how often that is done at most.
const BLOCK: usize = 64;

const MOST_BLOCKS: u16 = 1_024;

/// The image moved to these words, which a recovery leaves as they are: they hold one heap. Nothing where they differ in many words, or in other
/// words than those of cells.
pub(crate) fn moved(image: PoweredImage, found: &[u16]) -> Option<PoweredImage>
    requires { length found.now < 65536 }
    ensures { IfSome result (λ image. HoldOneHeap image found.now × IsRecovered image) }
{
    let log = journal_of(found)?;
    let start = usize::from(log.start);
    let end = start + 2 * usize::from(log.capacity);
    let top = least(usize::from(found[usize::from(TOP)]), found.len());
    let image = moved_between(image, found, 0, least(top, start))?;
    let image = moved_between(image, found, end, top)?;
    if !stands_for(&image, found) {
        return None;
    }
    Some(image)
}

/// Whether the words of an image hold the heap of these.
pub(crate) fn stands_for(image: &PoweredImage, found: &[u16]) -> bool
    requires { length found.now < 65536 }
    ensures { IsTrue result → HoldOneHeap image.now found.now × IsRecovered image.now }
{
    hold_one_heap(image.words(), found)
}

// The lesser of two.
fn least(a: usize, b: usize) -> usize
    ensures first { result ≤ a }
    ensures second { result ≤ b }
{
    if a < b { a } else { b }
}

// The image moved to these words from one address up to another.
fn moved_between(image: PoweredImage, found: &[u16], from: usize, to: usize) -> Option<PoweredImage>
    requires to { to ≤ length found.now }
    requires small { length found.now < 65536 }
{
    let mut image = image;
    let mut at = from;
    for _turn in 0..MOST {
        let Some(address) = difference(image.words(), found, at, to) else {
            return Some(image);
        };
        image = image.with_word(address as u16, found[address])?;
        at = address + 1;
    }
    None
}

// The first address from one on and below another at which words differ, as far as there are words.
fn difference(a: &[u16], b: &[u16], from: usize, to: usize) -> Option<usize>
    requires { to ≤ length b.now }
    ensures { IfSome result (λ address. address < length b.now) }
{
    let to = least(to, a.len());
    let mut at = from;
    for _block in 0..MOST_BLOCKS {
        if at >= to {
            return None;
        }
        let end = if to - at < BLOCK { to } else { at + BLOCK };
        if !are_equal(&a[at..end], &b[at..end]) {
            return difference_in(a, b, at, end);
        }
        at = end;
    }
    None
}

// The same in a block.
fn difference_in(a: &[u16], b: &[u16], from: usize, to: usize) -> Option<usize>
    requires a { to ≤ length a.now }
    requires b { to ≤ length b.now }
    ensures { IfSome result (λ address. address < length b.now) }
{
    for address in from..to {
        if a[address] != b[address] {
            return Some(address);
        }
    }
    None
}
