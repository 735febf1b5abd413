//! Reading a platform table.

ghost use Rattle.std.specs.Prelude.{◌≡◌, ◌≤◌, length, List, MatchResult, MatchBool, slice_get, slice_index, ℕ, ◌<◌, Some, None, true, false};
ghost use Rattle.jc_platform.specs.PackedEntry.{is_packed};
ghost use Rattle.jc_platform.specs.Table.{IsFirstBad, IsFault, Reads, Spells};
ghost use Rattle.jc_platform.specs.Rows.{above};
ghost use Rattle.jc_platform.specs.Reading.{above_of};
ghost use Rattle.jc_platform.specs.declared.row.Row.{Row};

use crate::entries::split_entry;
use crate::fault::TableFault;
use crate::reading::Reading;
use crate::table::Table;
use crate::words::split_once;

/// The most bytes of a table.
pub const LARGEST_TEXT: usize = 16384;

/// Reads a platform table: the lines of a text, from the first one on, each ended by a line feed; or the entries of a
/// packed table, whose first byte is 0, each of four bytes.
///
/// # Errors
/// `BadTable` with the first bad line or entry, counted from 1; with 0 for a table above 16,384 bytes, and where every
/// line is good and a name is missing.
pub fn read_table(text: &[u8]) -> Result<Table, TableFault>
    ensures { Reads text.now result }
{
    if text.len() > LARGEST_TEXT {
        return Err(TableFault::BadTable(0));
    }
    let reading = read_parts(text)?;
    match reading.finish() {
        Some(table) => Ok(table),
        None => Err(TableFault::BadTable(0)),
    }
}

/// Reads all lines of a text, or all entries of a packed table.
fn read_parts(text: &[u8]) -> Result<Reading, TableFault>
    requires { length text.now ≤ 16384 }
    ensures { MatchResult result (λ reading. (rows : List Row) × Spells text.now rows
        × (above_of reading ≡ above rows)) (λ fault. IsFault fault (IsFirstBad text.now)) }
{
    if is_packed(text) {
        return read_entries(text);
    }
    read_lines(text)
}

/// Whether a table is packed: its first byte is 0, with which no line begins.
pub(crate) fn is_packed(text: &[u8]) -> bool
    ensures { result ≡ is_packed text.now }
{
    match text {
        [first, ..] => *first == 0,
        [] => false,
    }
}

/// Reads all lines of a text.
fn read_lines(text: &[u8]) -> Result<Reading, TableFault>
    requires short { length text.now ≤ 16384 }
    requires form { is_packed text.now ≡ false }
    ensures { MatchResult result (λ reading. (rows : List Row) × Spells text.now rows
        × (above_of reading ≡ above rows)) (λ fault. IsFault fault (IsFirstBad text.now)) }
{
    let mut reading = Reading::new();
    let mut rest = text;
    let mut number: u16 = 0;
    while !rest.is_empty() {
        number += 1;
        let Some((line, more)) = split_once(rest, b'\n') else {
            return Err(TableFault::BadTable(number));
        };
        let Some(row) = reading.row(line) else {
            return Err(TableFault::BadTable(number));
        };
        reading.put(row);
        rest = more;
    }
    Ok(reading)
}

/// Reads all entries of a packed table.
fn read_entries(text: &[u8]) -> Result<Reading, TableFault>
    requires short { length text.now ≤ 16384 }
    requires form { is_packed text.now ≡ true }
    ensures { MatchResult result (λ reading. (rows : List Row) × Spells text.now rows
        × (above_of reading ≡ above rows)) (λ fault. IsFault fault (IsFirstBad text.now)) }
{
    let mut reading = Reading::new();
    let mut rest = text;
    let mut place: u16 = 0;
    while !rest.is_empty() {
        place += 1;
        let Some((entry, more)) = split_entry(rest) else {
            return Err(TableFault::BadTable(place));
        };
        let Some(row) = reading.entry(entry) else {
            return Err(TableFault::BadTable(place));
        };
        reading.put(row);
        rest = more;
    }
    Ok(reading)
}
