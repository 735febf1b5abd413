//! Lines of two images, compared.
ghost use Rattle.std.specs.Prelude.{◌≡◌, ◌++◌, [], IfOk, OnOk};
ghost use Rattle.std.specs.Str.{bytes_eq};
ghost use Rattle.jcard_dump.specs.InventoryLines.{Lines};
ghost use Rattle.jcard_dump.specs.Fault.{Lists};
ghost use Rattle.jcard_dump.specs.Pairs.{end_lines, lines_of, pair_lines, pair_text, sign, signed, unread_text};

use crate::fault::ListFault;
use crate::listing::Listing;
use std::alloc::AllocError;

/// One of the two images that are compared.
#[derive(Clone, Copy, Drop)]
pub(crate) enum Side {
    One,
    Other,
}

impl Side {
    /// What stands before a line that this image alone has.
    pub(crate) fn sign(self) -> &'static [u8]
        ensures { result.now ≡ sign self }
    {
        match self {
            Side::One => b"- ",
            Side::Other => b"+ ",
        }
    }

    /// That this image cannot be read further.
    pub(crate) fn unread(self) -> &'static [u8]
        ensures { result.now ≡ unread_text self }
    {
        match self {
            Side::One => b"- cannot be read further\n",
            Side::Other => b"+ cannot be read further\n",
        }
    }
}

/// What was listed: a text, and whether all could be read.
pub(crate) fn listing_by(text: Vec<u8>, told: Result<(), ListFault>) -> Result<Listing, AllocError>
    ensures { (l : Lines) → Lists [] text.items l told
        → IfOk result (λ found. lines_of found ≡ l) }
{
    match told {
        Ok(()) => Ok(Listing {
            text,
            readable: true,
        }),
        Err(ListFault::Unreadable) => Ok(Listing {
            text,
            readable: false,
        }),
        Err(ListFault::NoMemory) => Err(AllocError),
    }
}

/// Writes the lines of both that are not the same, up to where one cannot be read.
pub(crate) fn push_pair(text: &mut Vec<u8>, one: &Listing, other: &Listing) -> Result<(), ListFault>
    ensures { Lists text.old.items text.new.items
        (pair_lines (lines_of one.now) (lines_of other.now)) result }
{
    push_both(text, &one.text, &other.text)?;
    push_end(text, one.readable, other.readable)
}

// Writes two lines that are not the same.
fn push_both(text: &mut Vec<u8>, one: &[u8], other: &[u8]) -> Result<(), AllocError>
    ensures { OnOk result (text.new.items ≡ text.old.items ++ pair_text one.now other.now) }
{
    if is_same_text(one, other) {
        return Ok(());
    }
    push_signed(text, Side::One, one)?;
    push_signed(text, Side::Other, other)
}

// Whether two texts are the same.
fn is_same_text(one: &[u8], other: &[u8]) -> bool
    ensures { result ≡ bytes_eq one.now other.now }
{
    one == other
}

// Writes a line that one image alone has, if there is one.
fn push_signed(text: &mut Vec<u8>, side: Side, line: &[u8]) -> Result<(), AllocError>
    ensures { OnOk result (text.new.items ≡ text.old.items ++ signed side line.now) }
{
    if line.len() == 0 {
        return Ok(());
    }
    text.extend_from_slice(side.sign())?;
    text.extend_from_slice(line)
}

/// Writes which image cannot be read further, if one cannot.
pub(crate) fn push_end(text: &mut Vec<u8>, one: bool, other: bool) -> Result<(), ListFault>
    ensures { Lists text.old.items text.new.items (end_lines one other) result }
{
    if !one {
        text.extend_from_slice(Side::One.unread())?;
        return Err(ListFault::Unreadable);
    }
    if !other {
        text.extend_from_slice(Side::Other.unread())?;
        return Err(ListFault::Unreadable);
    }
    Ok(())
}
