//! Remarks on rows that have no form.

use jcard_files::remarks::Remarks;
use jcard_outcomes::tested::{Failure, Outcome, Tested};
use jcard_script::refused_line::{LineFault, refusal_of, told_fault};
use jcard_texts::numbers::push_number;
use std::alloc::{AllocError, Global};

/// Says of each row that failed and has no form why: `jcard: FILE line 3, column 17: 'O' is no hexadecimal digit` and its like.
pub(crate) fn remark_on<M: Remarks>(alloc: Global, tested: &[Tested], remarks: &mut M) {
    for file in tested {
        if let Outcome::Failed(failure) = &file.outcome {
            remark_on_row(alloc, file.name, failure, remarks);
        }
    }
}

fn remark_on_row<M: Remarks>(alloc: Global, name: &str, failure: &Failure, remarks: &mut M) {
    let Some(fault) = refusal_of(failure.command.as_bytes()) else {
        return;
    };
    if let Ok(text) = remark_of(alloc, name, failure.number, fault) {
        remarks.remark(&text);
    }
}

fn remark_of(
    alloc: Global,
    name: &str,
    number: usize,
    fault: LineFault,
) -> Result<Vec<u8>, AllocError> {
    let mut text = Vec::new(alloc);
    text.extend_from_slice(b"jcard: ")?;
    text.extend_from_slice(name.as_bytes())?;
    text.extend_from_slice(b" line ")?;
    push_number(&mut text, number)?;
    told_fault(&mut text, fault)?;
    Ok(text)
}
