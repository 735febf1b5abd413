//! The lines of packages and of applets by their AIDs.
ghost use Rattle.std.specs.Prelude.{◌≡◌, ◌≤◌, ◌++◌, length, OnOk};
ghost use Rattle.jc_words.specs.Layout.{text_start};
ghost use Rattle.jcard_dump.specs.InventoryLines.{applet_line, applet_text, line_if, name_text, package_line, package_text, version_line};
ghost use Rattle.jcard_dump.specs.Fault.{Lists};

use crate::fault::ListFault;
use crate::texts::{push_hex, push_labelled};
use jc_image::{AppletName, PackageName, applet_at, package_at};
use jc_objects::class_texts::push_number;
use jc_words::WordStore;
use std::alloc::AllocError;

/// Writes the line of the package with this number.
pub(crate) fn push_package_name<S: WordStore>(
    text: &mut Vec<u8>,
    store: &S,
    number: u16,
) -> Result<(), ListFault>
    requires { text_start ≤ length (S.words store.now) }
    ensures { Lists text.old.items text.new.items
        (line_if (package_text (S.words store.now) number)) result }
{
    let Some(named) = package_at(store, number) else {
        return Err(ListFault::Unreadable);
    };
    push_package(text, &named, number)?;
    Ok(())
}

/// Writes the line of the applet with this number.
pub(crate) fn push_applet_name<S: WordStore>(
    text: &mut Vec<u8>,
    store: &S,
    number: u16,
) -> Result<(), ListFault>
    requires { text_start ≤ length (S.words store.now) }
    ensures { Lists text.old.items text.new.items
        (line_if (applet_text (S.words store.now) number)) result }
{
    let Some(named) = applet_at(store, number) else {
        return Err(ListFault::Unreadable);
    };
    push_applet(text, &named, number)?;
    Ok(())
}

// Writes a package's AID and version.
fn push_package(text: &mut Vec<u8>, named: &PackageName, number: u16) -> Result<(), AllocError>
    ensures { OnOk result (text.new.items ≡ text.old.items ++ package_line number named.now) }
{
    push_name(text, b"package ", number, named.aid())?;
    push_version(text, named.major_version(), named.minor_version())
}

// Writes an applet's AID and the number of its package.
fn push_applet(text: &mut Vec<u8>, named: &AppletName, number: u16) -> Result<(), AllocError>
    ensures { OnOk result (text.new.items ≡ text.old.items ++ applet_line number named.now) }
{
    push_name(text, b"applet ", number, named.aid())?;
    push_labelled(text, b"package ", named.package_number(), b"\n")
}

// Writes how a line begins: what it is of, the number, the AID.
fn push_name(text: &mut Vec<u8>, name: &[u8], number: u16, aid: &[u8]) -> Result<(), AllocError>
    ensures { OnOk result (text.new.items ≡ text.old.items ++ name_text name.now number aid.now) }
{
    push_labelled(text, name, number, b" ")?;
    push_hex(text, aid)?;
    text.extend_from_slice(b" ")
}

// Writes a version and a line feed.
fn push_version(text: &mut Vec<u8>, major: u8, minor: u8) -> Result<(), AllocError>
    ensures { OnOk result (text.new.items ≡ text.old.items ++ version_line major minor) }
{
    push_number(text, u16::from(major))?;
    push_labelled(text, b".", u16::from(minor), b"\n")
}
