//! The lines that list an image's packages and applets.
ghost use Rattle.std.specs.Prelude.{◌≡◌, ◌+◌, ◌*◌, ◌≤◌, ◌++◌, codes, length, is_err, MatchResult};
ghost use Rattle.std.specs.Io.KnownBytes.{Appends};
ghost use Rattle.hex.specs.Hex.{encode_upper};
ghost use Rattle.jc_words.specs.Layout.{text_start};
ghost use Rattle.jc_words.specs.Count.{failures_after};
ghost use Rattle.jcard_texts.specs.Texts.{AppendsCut};
ghost use Rattle.jcard_dump.specs.InventoryLines.{Tells, applet_line, applet_text, count_line, is_not_written, line_if, name_text, numbered_lines, package_line};
ghost use Rattle.jcard_dump.specs.InventoryLines.{package_text, version_line};
ghost use Rattle.jcard_dump.specs.declared.inventory_lines.ListingFault.TheVariants.{NotWritten};

use itoa::Buffer;
use jc_image::{AppletName, PackageName, applet_at, package_at};
use jc_words::WordStore;
use jcard_texts::streams::{TextOut, WriteFailed, write_all, write_parts};

/// How many bytes an AID has at most, as a line prints it.
const MOST_AID: usize = 16;

/// Why lines end early.
#[derive(Clone, Copy, Drop)]
pub(crate) enum ListingFault {
    /// The words state no such package or applet.
    Unreadable,
    /// A write failed.
    NotWritten,
}

impl From<WriteFailed> for ListingFault {
    ghost from_gives = { λ e stop. stop ≡ NotWritten };

    fn from(_: WriteFailed) -> Self {
        ListingFault::NotWritten
    }
}

/// Writes the line of each of this many packages, up to the first that cannot be read.
pub(crate) fn write_packages<S: WordStore, W: TextOut>(
    store: &S,
    count: u16,
    out: &mut W,
) -> Result<(), ListingFault>
    requires { text_start ≤ length (S.words store.now) }
    ensures text { Tells (W.contents out.old) (W.contents out.new)
        (numbered_lines (package_text (S.words store.now)) count) result }
    ensures writes { W.failures out.new ≡ failures_after (W.failures out.old)
        (is_not_written result) }
{
    for i in 0..count {
        write_package_at(store, i + 1, out)?;
    }
    Ok(())
}

/// Writes the line of each of this many applets, up to the first that cannot be read.
pub(crate) fn write_applets<S: WordStore, W: TextOut>(
    store: &S,
    count: u16,
    out: &mut W,
) -> Result<(), ListingFault>
    requires { text_start ≤ length (S.words store.now) }
    ensures text { Tells (W.contents out.old) (W.contents out.new)
        (numbered_lines (applet_text (S.words store.now)) count) result }
    ensures writes { W.failures out.new ≡ failures_after (W.failures out.old)
        (is_not_written result) }
{
    for i in 0..count {
        write_applet_at(store, i + 1, out)?;
    }
    Ok(())
}

// Writes the line of the package with this number.
fn write_package_at<S: WordStore, W: TextOut>(
    store: &S,
    number: u16,
    out: &mut W,
) -> Result<(), ListingFault>
    requires { text_start ≤ length (S.words store.now) }
    ensures text { Tells (W.contents out.old) (W.contents out.new)
        (line_if (package_text (S.words store.now) number)) result }
    ensures writes { W.failures out.new ≡ failures_after (W.failures out.old)
        (is_not_written result) }
{
    let Some(named) = package_at(store, number) else {
        return Err(ListingFault::Unreadable);
    };
    write_package(&named, number, out)?;
    Ok(())
}

// Writes the line of the applet with this number.
fn write_applet_at<S: WordStore, W: TextOut>(
    store: &S,
    number: u16,
    out: &mut W,
) -> Result<(), ListingFault>
    requires { text_start ≤ length (S.words store.now) }
    ensures text { Tells (W.contents out.old) (W.contents out.new)
        (line_if (applet_text (S.words store.now) number)) result }
    ensures writes { W.failures out.new ≡ failures_after (W.failures out.old)
        (is_not_written result) }
{
    let Some(named) = applet_at(store, number) else {
        return Err(ListingFault::Unreadable);
    };
    write_applet(&named, number, out)?;
    Ok(())
}

fn write_package<W: TextOut>(
    named: &PackageName,
    number: u16,
    out: &mut W,
) -> Result<(), WriteFailed>
    ensures text { MatchResult result
        (λ _. Appends (W.contents out.old) (W.contents out.new) (package_line number named.now))
        (λ _. AppendsCut (W.contents out.old) (W.contents out.new)
        (package_line number named.now)) }
    ensures count { W.failures out.new ≡ failures_after (W.failures out.old) (is_err result) }
{
    write_name(out, b"package ", number, named.aid())?;
    write_version(out, named.major_version(), named.minor_version())
}

fn write_applet<W: TextOut>(named: &AppletName, number: u16, out: &mut W) -> Result<(), WriteFailed>
    ensures text { MatchResult result
        (λ _. Appends (W.contents out.old) (W.contents out.new) (applet_line number named.now))
        (λ _. AppendsCut (W.contents out.old) (W.contents out.new) (applet_line number named.now)) }
    ensures count { W.failures out.new ≡ failures_after (W.failures out.old) (is_err result) }
{
    write_name(out, b"applet ", number, named.aid())?;
    write_count(out, b"package ", named.package_number())
}

// Writes how a line begins: what it is of, the number, the AID.
fn write_name<W: TextOut>(
    out: &mut W,
    name: &[u8],
    number: u16,
    aid: &[u8],
) -> Result<(), WriteFailed>
    requires { length aid.now ≤ 16 }
    ensures text { MatchResult result
        (λ _. Appends (W.contents out.old) (W.contents out.new) (name_text name.now number aid.now))
        (λ _. AppendsCut (W.contents out.old) (W.contents out.new)
        (name_text name.now number aid.now)) }
    ensures count { W.failures out.new ≡ failures_after (W.failures out.old) (is_err result) }
{
    let mut digits = Buffer::new();
    write_parts(out, name, digits.format(number).as_bytes(), b" ")?;
    write_aid(out, aid)
}

// Writes an AID in hexadecimal, and a space.
fn write_aid<W: TextOut>(out: &mut W, aid: &[u8]) -> Result<(), WriteFailed>
    requires { length aid.now ≤ 16 }
    ensures text { MatchResult result
        (λ _. Appends (W.contents out.old) (W.contents out.new) (encode_upper aid.now ++ codes " "))
        (λ _. AppendsCut (W.contents out.old) (W.contents out.new)
        (encode_upper aid.now ++ codes " ")) }
    ensures count { W.failures out.new ≡ failures_after (W.failures out.old) (is_err result) }
{
    let mut text = [0u8; 2 * MOST_AID + 1];
    let end = 2 * aid.len();
    encode(aid, &mut text[..end]);
    text[end] = b' ';
    write_all(out, &text[..end + 1])
}

// The bytes in hexadecimal, in upper case.
fn encode(bytes: &[u8], text: &mut [u8])
    requires { length text.old ≡ 2 * length bytes.now }
    ensures { text.new ≡ encode_upper bytes.now }
{
    let _ = hex::encode_to_slice(bytes, text);
    text.make_ascii_uppercase();
}

// Writes a version and a line feed.
fn write_version<W: TextOut>(out: &mut W, major: u8, minor: u8) -> Result<(), WriteFailed>
    ensures text { MatchResult result
        (λ _. Appends (W.contents out.old) (W.contents out.new) (version_line major minor))
        (λ _. AppendsCut (W.contents out.old) (W.contents out.new) (version_line major minor)) }
    ensures count { W.failures out.new ≡ failures_after (W.failures out.old) (is_err result) }
{
    let mut digits = Buffer::new();
    write_all(out, digits.format(major).as_bytes())?;
    write_parts(out, b".", digits.format(minor).as_bytes(), b"\n")
}

/// Writes the line of a count.
pub(crate) fn write_count<W: TextOut>(
    out: &mut W,
    name: &[u8],
    count: u16,
) -> Result<(), WriteFailed>
    ensures text { MatchResult result
        (λ _. Appends (W.contents out.old) (W.contents out.new) (count_line name.now count))
        (λ _. AppendsCut (W.contents out.old) (W.contents out.new) (count_line name.now count)) }
    ensures count { W.failures out.new ≡ failures_after (W.failures out.old) (is_err result) }
{
    let mut digits = Buffer::new();
    write_parts(out, name, digits.format(count).as_bytes(), b"\n")
}
