//! Images of the same heap.
ghost use Rattle.std.specs.Prelude.{◌≡◌, ◌<◌, ◌≤◌, ◌-◌, ◌⊎◌, length, take, drop, IsTrue};
ghost use Rattle.jc_words.specs.Layout.{front_length};
ghost use Rattle.jc_commit.specs.Image.{plain_of};
ghost use Rattle.jcard_tear.specs.KeptCard.{HoldOneHeap};

use crate::recoveries::{are_equal, journal_of};
use jc_words::layout::{FRONT_LENGTH, TOP};

/// Whether the words of two images are the same but for the entries of their journals.
pub(crate) fn are_alike(a: &[u16], b: &[u16]) -> bool
    requires { length b.now < 65536 }
    ensures { IsTrue result → plain_of a.now ≡ plain_of b.now }
{
    if a.len() != b.len() {
        return false;
    }
    let Some(log) = journal_of(b) else {
        return false;
    };
    let start = usize::from(log.start);
    agree(a, b, start, start + 2 * usize::from(log.capacity))
}

// Whether words are the same below one place and from another on.
fn agree(a: &[u16], b: &[u16], start: usize, end: usize) -> bool
    requires start_a { start ≤ length a.now }
    requires start_b { start ≤ length b.now }
    requires end_a { end ≤ length a.now }
    requires end_b { end ≤ length b.now }
    ensures { IsTrue result → (take start a.now ≡ take start b.now) × (drop end a.now ≡ drop end b.now) }
{
    if !are_equal(&a[..start], &b[..start]) {
        return false;
    }
    are_equal(&a[end..], &b[end..])
}

/// Whether the words of two images are the same below the top but for the entries of their journals, so that they hold the same heap.
pub(crate) fn hold_one_heap(a: &[u16], b: &[u16]) -> bool
    requires { length b.now < 65536 }
    ensures { IsTrue result → HoldOneHeap a.now b.now }
{
    if a.len() != b.len() {
        return false;
    }
    let Some(log) = journal_of(b) else {
        return false;
    };
    let start = usize::from(log.start);
    let end = start + 2 * usize::from(log.capacity);
    let top = usize::from(b[usize::from(TOP)]);
    agree_in_parts(
        a,
        b,
        front_end(start, top),
        end,
        back_end(end, top, b.len()),
    )
}

// Whether words are the same below one place, and from another one up to a third.
fn agree_in_parts(a: &[u16], b: &[u16], front: usize, from: usize, to: usize) -> bool
    requires front_a { front ≤ length a.now }
    requires front_b { front ≤ length b.now }
    requires order { from ≤ to }
    requires to_a { to ≤ length a.now }
    requires to_b { to ≤ length b.now }
    ensures { IsTrue result → (take front a.now ≡ take front b.now)
        × (take (to - from) (drop from a.now) ≡ take (to - from) (drop from b.now)) }
{
    if !are_equal(&a[..front], &b[..front]) {
        return false;
    }
    are_equal(&a[from..to], &b[from..to])
}

// How many words are compared before the journal: the first ones, and those below the top.
fn front_end(start: usize, top: usize) -> usize
    ensures within { result ≤ start }
    ensures enough { (result ≡ start) ⊎ ((front_length ≤ result) × (top ≤ result)) }
{
    let wanted = if top < FRONT_LENGTH {
        FRONT_LENGTH
    } else {
        top
    };
    if start < wanted { start } else { wanted }
}

// Where the words end that are compared after it: at the top, if there are as many.
fn back_end(end: usize, top: usize, length: usize) -> usize
    requires { end ≤ length }
    ensures from { end ≤ result }
    ensures within { result ≤ length }
    ensures enough { (result ≡ length) ⊎ (top ≤ result) }
{
    if top < end {
        return end;
    }
    if length < top { length } else { top }
}
