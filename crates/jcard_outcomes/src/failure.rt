//! The first row that is not answered as it says.
ghost use Rattle.std.specs.Prelude.{IfOk};
ghost use Rattle.jcard_outcomes.specs.Failure.{IsCompared, IsFailureAt};

use crate::comparison::first_unlike;
use crate::row::Row;
use crate::tested::Failure;
use std::alloc::{AllocError, Global};

/// The failure of the first row that this text does not answer as it says, after this many rows that hold, as far as 64 bits count; none
/// where all are.
pub fn first_failure(
    alloc: Global,
    rows: &[Row],
    text: &[u8],
    passed: usize,
) -> Result<Option<Failure>, AllocError>
    ensures { IfOk result (λ failed. IsCompared rows.now text.now passed failed) }
{
    let Some(unlike) = first_unlike(rows, text) else {
        return Ok(None);
    };
    let passed = passed.saturating_add(unlike.row);
    let failure = failure_of(alloc, &rows[unlike.row], passed, unlike.told)?;
    Ok(Some(failure))
}

// The failure of a row after this many that hold, in whose place this was reported.
fn failure_of(alloc: Global, row: &Row, passed: usize, told: &[u8]) -> Result<Failure, AllocError>
    ensures { IfOk result (λ failure. IsFailureAt row.now passed told.now failure) }
{
    Ok(Failure {
        passed,
        number: row.number,
        command: String::from_str(alloc, row.command.as_str())?,
        wanted: String::from_str(alloc, row.wanted.as_str())?,
        told: Vec::from_slice(alloc, told)?,
    })
}
