//! Packing the text of a platform table.

ghost use Rattle.std.specs.Prelude.{◌≡◌, false, List, ℕ, IfOk, MatchOption, option_map, reverse};
ghost use Rattle.jc_platform.specs.Packing.{IsKept, IsPacking, entries_of};
ghost use Rattle.jc_platform.specs.PackedEntry.{is_packed};
ghost use Rattle.jc_platform.specs.Table.{IsFirstBad, Spells};

use crate::packed_entry::entry_of;
use crate::read::{LARGEST_TEXT, read_table};
use crate::reading::Reading;
use crate::row::Row;
use crate::words::split_once;
use std::alloc::{AllocError, Global};

/// What an image keeps of a platform table: its packed form, if it has one, else the table itself.
pub fn kept(alloc: Global, text: Vec<u8>) -> Result<Vec<u8>, AllocError>
    ensures { IfOk result (λ kept. IsKept text.items kept.items) }
{
    match packed(alloc, &text)? {
        Some(bytes) => Ok(bytes),
        None => Ok(text),
    }
}

/// The packed form of a text, if it has one: if it reads as a table, its first line is `extended`, and none is `random`.
pub fn packed(alloc: Global, text: &[u8]) -> Result<Option<Vec<u8>>, AllocError>
    ensures { IfOk result (λ found. IsPacking text.now (option_map (λ bytes. bytes.items) found)) }
{
    if is_packed(text) {
        return Ok(None);
    }
    match read_table(text) {
        Ok(_) => (),
        Err(_) => return Ok(None),
    }
    let Some(rows) = rows_of(alloc, text)? else {
        return Ok(None);
    };
    let Some(bytes) = entries_of(alloc, &rows)? else {
        return Ok(None);
    };
    if !is_packed(&bytes) {
        return Ok(None);
    }
    if bytes.len() > LARGEST_TEXT {
        return Ok(None);
    }
    Ok(Some(bytes))
}

/// Whether a table is packed: its first byte is 0.
fn is_packed(text: &[u8]) -> bool
    ensures { result ≡ is_packed text.now }
{
    match text {
        [first, ..] => *first == 0,
        [] => false,
    }
}

/// The rows of the lines of a text, from the first one on, if each is one.
fn rows_of(alloc: Global, text: &[u8]) -> Result<Option<Vec<Row>>, AllocError>
    requires { is_packed text.now ≡ false }
    ensures { IfOk result (λ found. MatchOption found ((n : ℕ) × IsFirstBad text.now n)
        (λ rows. Spells text.now (reverse rows.items))) }
{
    let mut reading = Reading::new();
    let mut rows = Vec::new(alloc);
    let mut rest = text;
    while !rest.is_empty() {
        let Some((line, more)) = split_once(rest, b'\n') else {
            return Ok(None);
        };
        let Some(row) = reading.row(line) else {
            return Ok(None);
        };
        rows.push(row)?;
        reading.put(row);
        rest = more;
    }
    Ok(Some(rows))
}

/// The entries of rows, one after another, if each has one.
fn entries_of(alloc: Global, rows: &[Row]) -> Result<Option<Vec<u8>>, AllocError>
    ensures { IfOk result (λ found. option_map (λ bytes. bytes.items) found
        ≡ entries_of (reverse rows.now)) }
{
    let mut bytes = Vec::new(alloc);
    let mut left = rows;
    while let Some((row, more)) = left.split_first() {
        let Some(entry) = entry_of(*row) else {
            return Ok(None);
        };
        bytes.extend_from_slice(&entry)?;
        left = more;
    }
    Ok(Some(bytes))
}
