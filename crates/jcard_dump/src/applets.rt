//! The lines of the applets' entries in the registry.
ghost use Rattle.std.specs.Prelude.{◌≡◌, ◌<◌, ◌≤◌, ◌+◌, ◌++◌, length, slice_index, OnOk};
ghost use Rattle.jc_words.specs.Layout.{applets_address, most_applets, text_start};
ghost use Rattle.jcard_dump.specs.Applets.{applet_lines, applet_text};
ghost use Rattle.jcard_dump.specs.Fault.{Lists, each_line};

use crate::fault::ListFault;
use crate::texts::{push_labelled, push_reference};
use jc_heap::registry_layout::{ENTRY_INSTANCE, entry_start};
use jc_words::WordStore;
use jc_words::layout::{APPLETS, MOST_APPLETS, REGISTRY};
use std::alloc::AllocError;

/// Writes the line of each applet's entry, up to the first for which the registry has no place.
pub(crate) fn push_applets<S: WordStore>(text: &mut Vec<u8>, store: &S) -> Result<(), ListFault>
    requires { text_start ≤ length (S.words store.now) }
    ensures { Lists text.old.items text.new.items (each_line (applet_lines (S.words store.now))
        (slice_index (S.words store.now) applets_address)) result }
{
    let count = store.read(APPLETS);
    for i in 0..count {
        push_applet_at(text, store, i)?;
    }
    Ok(())
}

/// Writes the line of the applet after this many others.
pub(crate) fn push_applet_at<S: WordStore>(
    text: &mut Vec<u8>,
    store: &S,
    before: u16,
) -> Result<(), ListFault>
    requires words { text_start ≤ length (S.words store.now) }
    requires number { before < 65535 }
    ensures { Lists text.old.items text.new.items
        (applet_lines (S.words store.now) (before + 1)) result }
{
    if before >= MOST_APPLETS {
        return Err(ListFault::Unreadable);
    }
    push_applet(text, store, before)?;
    Ok(())
}

// Writes where the applet's AID object and its instance stand.
fn push_applet<S: WordStore>(text: &mut Vec<u8>, store: &S, before: u16) -> Result<(), AllocError>
    requires words { text_start ≤ length (S.words store.now) }
    requires number { before < most_applets }
    ensures { OnOk result (text.new.items ≡ text.old.items
        ++ applet_text (S.words store.now) (before + 1)) }
{
    let at = REGISTRY + entry_start(before);
    push_labelled(text, b"applet ", before + 1, b": AID object ")?;
    push_reference(text, store.read(at))?;
    text.extend_from_slice(b", instance ")?;
    push_reference(text, store.read(at + ENTRY_INSTANCE))?;
    text.extend_from_slice(b"\n")?;
    Ok(())
}
