//! The rows: what faults came to, one row for those of one kind that follow one another and came to the same.
ghost use Rattle.std.specs.Prelude.{◌≡◌, ◌++◌, ◌∷◌, ◌&&◌, List, IfOk, OnOk, Some, map, option_map};
ghost use Rattle.std.specs.Str.{bytes_eq};
ghost use Rattle.jcard_attack.specs.Report.{FaultTold, fault_told, is_alike, longer_row, new_row, open_text, place_text, row_by, row_numbers, row_text, rows_after, rows_text, told_by};

use crate::fault_text::{ToldFault, lent, texts_of};
use crate::outcomes::Struck;
use jcard_outcomes::rows::{is_same, push_ended};
use std::alloc::{AllocError, Global};

/// A row that is not ended yet: its faults are of one kind and came to the same, from the first to the last, and these are the lines of their
/// instructions, where they are reported.
#[derive(Drop)]
pub(crate) struct Row {
    model: Vec<u8>,
    first: Vec<u8>,
    last: Vec<u8>,
    second: Vec<u8>,
    told: Vec<u8>,
    places: Vec<u8>,
}

/// Writes the rows of all faults of a command of whose instructions this is reported.
pub(crate) fn push_rows(
    alloc: Global,
    text: &mut Vec<u8>,
    strikes: &[Struck],
    instructions: &[Vec<u8>],
) -> Result<(), AllocError>
    ensures { OnOk result (text.new.items ≡ text.old.items
        ++ rows_text (map (fault_told (map (λ line. line.items) instructions.now)) strikes.now)) }
{
    let mut row = None;
    for struck in strikes {
        let texts = texts_of(alloc, struck, instructions)?;
        let next = with_fault(alloc, text, row, lent(&texts))?;
        row = Some(next);
    }
    push_open(text, &row)
}

/// Writes the rows of these faults.
pub(crate) fn push_told_rows(
    alloc: Global,
    text: &mut Vec<u8>,
    faults: &[ToldFault],
) -> Result<(), AllocError>
    ensures { OnOk result (text.new.items ≡ text.old.items ++ rows_text (map told_by faults.now)) }
{
    let mut row = None;
    for fault in faults {
        let next = with_fault(alloc, text, row, *fault)?;
        row = Some(next);
    }
    push_open(text, &row)
}

// The open row after a fault: the one before it, or a new one, before which that is written.
fn with_fault(
    alloc: Global,
    text: &mut Vec<u8>,
    row: Option<Row>,
    fault: ToldFault,
) -> Result<Row, AllocError>
    ensures { IfOk result (λ next. (more : List FaultTold)
        → text.new.items ++ rows_after (Some (row_by next)) more
        ≡ text.old.items ++ rows_after (option_map row_by row) (told_by fault.entry ∷ more)) }
{
    let Some(row) = row else {
        return new_row(alloc, fault);
    };
    if is_alike(&row, fault) {
        return longer_row(row, fault);
    }
    push_row(text, &row)?;
    new_row(alloc, fault)
}

// The row of one fault.
fn new_row(alloc: Global, fault: ToldFault) -> Result<Row, AllocError>
    ensures { IfOk result (λ row. row_by row ≡ new_row (told_by fault.entry)) }
{
    let mut places = Vec::new(alloc);
    push_place(&mut places, fault.number, fault.place)?;
    Ok(Row {
        model: Vec::from_slice(alloc, fault.model)?,
        first: Vec::from_slice(alloc, fault.number)?,
        last: Vec::from_slice(alloc, fault.number)?,
        second: Vec::from_slice(alloc, fault.second)?,
        told: Vec::from_slice(alloc, fault.told)?,
        places,
    })
}

// The row with a fault more.
fn longer_row(row: Row, fault: ToldFault) -> Result<Row, AllocError>
    ensures { IfOk result (λ next. row_by next ≡ longer_row (row_by row) (told_by fault.entry)) }
{
    let mut row = row;
    row.last.clear();
    row.last.extend_from_slice(fault.number)?;
    push_place(&mut row.places, fault.number, fault.place)?;
    Ok(row)
}

// Whether a fault belongs to a row.
fn is_alike(row: &Row, fault: ToldFault) -> bool
    ensures { result ≡ is_alike (row_by row.now) (told_by fault.entry) }
{
    is_same(&row.model, fault.model)
        && is_same(&row.second, fault.second)
        && is_same(&row.told, fault.told)
}

// Writes the open row, if there is one.
fn push_open(text: &mut Vec<u8>, row: &Option<Row>) -> Result<(), AllocError>
    ensures { OnOk result (text.new.items ≡ text.old.items
        ++ open_text (option_map row_by row.now)) }
{
    match row {
        Some(row) => push_row(text, row),
        None => Ok(()),
    }
}

// Writes a row, and the lines of its instructions.
fn push_row(text: &mut Vec<u8>, row: &Row) -> Result<(), AllocError>
    ensures { OnOk result (text.new.items ≡ text.old.items ++ row_text (row_by row.now)) }
{
    text.extend_from_slice(&row.model)?;
    text.extend_from_slice(b" ")?;
    push_numbers(text, &row.first, &row.last)?;
    text.extend_from_slice(&row.second)?;
    push_ended(text, &row.told)?;
    text.extend_from_slice(&row.places)
}

// Writes the number of a row's fault, or of its first and its last one.
fn push_numbers(text: &mut Vec<u8>, first: &[u8], last: &[u8]) -> Result<(), AllocError>
    ensures { OnOk result (text.new.items ≡ text.old.items ++ row_numbers first.now last.now) }
{
    text.extend_from_slice(first)?;
    if is_same(first, last) {
        return Ok(());
    }
    text.extend_from_slice(b"..")?;
    text.extend_from_slice(last)
}

// Writes the line of the instruction with this number, if anything is reported of it.
fn push_place(text: &mut Vec<u8>, number: &[u8], place: &[u8]) -> Result<(), AllocError>
    ensures { OnOk result (text.new.items ≡ text.old.items ++ place_text number.now place.now) }
{
    if place.is_empty() {
        return Ok(());
    }
    text.extend_from_slice(b"  ")?;
    text.extend_from_slice(number)?;
    text.extend_from_slice(b" ")?;
    text.extend_from_slice(place)?;
    text.extend_from_slice(b"\n")
}
