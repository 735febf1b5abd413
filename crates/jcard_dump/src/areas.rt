//! The line of the heap's end and of the ends of the areas.
ghost use Rattle.std.specs.Prelude.{◌≡◌, ◌++◌, true, OnOk};
ghost use Rattle.jc_words.specs.Image.{HasSize};
ghost use Rattle.jc_objects.specs.Bounds.{has_bounds};
ghost use Rattle.jcard_dump.specs.InventoryLines.{line_if};
ghost use Rattle.jcard_dump.specs.Areas.{areas_line, areas_text, space_text, taken_text};
ghost use Rattle.jcard_dump.specs.Fault.{Lists};

use crate::fault::ListFault;
use crate::texts::push_labelled;
use jc_heap::layout::{BUFFER_WORD, CELLS_WORD};
use jc_objects::bounds::{has_bounds, heap_end};
use jc_transient::RamSizes;
use jc_words::WordStore;
use jc_words::layout::{DESELECT_END, RESET_END, TOP};
use std::alloc::AllocError;

/// Writes where the heap ends, how many words are free, and how many cells of the two areas are taken, of those that they have.
pub(crate) fn push_areas<S: WordStore>(text: &mut Vec<u8>, store: &S) -> Result<(), ListFault>
    requires { HasSize (S.words store.now) }
    ensures { Lists text.old.items text.new.items (line_if (areas_line (S.words store.now))) result }
{
    if !has_bounds(store) {
        return Err(ListFault::Unreadable);
    }
    push_ends(text, store)?;
    Ok(())
}

// Writes the line.
fn push_ends<S: WordStore>(text: &mut Vec<u8>, store: &S) -> Result<(), AllocError>
    requires size { HasSize (S.words store.now) }
    requires bounds { has_bounds (S.words store.now) ≡ true }
    ensures { OnOk result (text.new.items ≡ text.old.items ++ areas_text (S.words store.now)) }
{
    push_space(text, store)?;
    let sizes = RamSizes::told(store.read(CELLS_WORD), store.read(BUFFER_WORD));
    push_taken(
        text,
        store.read(RESET_END),
        sizes.reset,
        b", deselect area ",
    )?;
    push_taken(text, store.read(DESELECT_END), sizes.deselect, b"\n")
}

// Writes where the heap ends, and how many words are free.
fn push_space<S: WordStore>(text: &mut Vec<u8>, store: &S) -> Result<(), AllocError>
    requires size { HasSize (S.words store.now) }
    requires bounds { has_bounds (S.words store.now) ≡ true }
    ensures { OnOk result (text.new.items ≡ text.old.items ++ space_text (S.words store.now)) }
{
    let top = store.read(TOP);
    push_labelled(text, b"top ", top, b", free ")?;
    push_labelled(text, b"", heap_end(store) - top, b" words, reset area ")
}

// Writes how many cells of an area are taken, of those that it has, and what comes after.
fn push_taken(text: &mut Vec<u8>, taken: u16, size: u16, after: &[u8]) -> Result<(), AllocError>
    ensures { OnOk result (text.new.items ≡ text.old.items ++ taken_text taken size after.now) }
{
    push_labelled(text, b"", taken, b" of ")?;
    push_labelled(text, b"", size, after)
}
