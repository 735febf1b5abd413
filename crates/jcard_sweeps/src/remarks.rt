//! Remarks on lines of a script and of a probe that have no form.

use crate::runs::RunFault;
use crate::sweep_fault::TearFault;
use itoa::Buffer;
use jcard_files::remarks::Remarks;
use jcard_script::refused_line::{LineFault, refusal_of, told_fault};
use jcard_script::script::ScriptFault;
use std::alloc::{AllocError, Global};

/// Says of a line of this script why it has no form, where that is the cause: `jcard: line 3, column 17: 'O' is no hexadecimal digit` and its
/// like.
pub(crate) fn remark_on_script<M: Remarks>(
    alloc: Global,
    script: &[u8],
    cause: RunFault,
    remarks: &mut M,
) {
    if let RunFault::Script(ScriptFault::BadLine(number)) = cause {
        remark_on_line(alloc, b"jcard: line ", script, number, remarks);
    }
}

/// The same of a line of a probe: `jcard: probe line 1, column 17: 'O' is no hexadecimal digit` and its like.
pub fn remark_on_probe<M: Remarks>(
    alloc: Global,
    probe: Option<&[u8]>,
    cause: TearFault,
    remarks: &mut M,
) {
    if let TearFault::Probe(ScriptFault::BadLine(number)) = cause {
        remark_on_line(
            alloc,
            b"jcard: probe line ",
            probe.unwrap_or(b""),
            number,
            remarks,
        );
    }
}

fn remark_on_line<M: Remarks>(
    alloc: Global,
    place: &[u8],
    text: &[u8],
    number: u32,
    remarks: &mut M,
) {
    let Some(fault) = refusal_of(line_of(text, number)) else {
        return;
    };
    if let Ok(remark) = remark_of(alloc, place, number, fault) {
        remarks.remark(&remark);
    }
}

// The line of this number, counted from 1, without the bytes that end it.
fn line_of(text: &[u8], number: u32) -> &[u8] {
    let mut count = 0u64;
    for line in text.split(|byte| *byte == b'\n') {
        count = count.saturating_add(1);
        if count == u64::from(number) {
            return line.strip_suffix(b"\r").unwrap_or(line);
        }
    }
    b""
}

fn remark_of(
    alloc: Global,
    place: &[u8],
    number: u32,
    fault: LineFault,
) -> Result<Vec<u8>, AllocError> {
    let mut digits = Buffer::new();
    let mut text = Vec::from_slice(alloc, place)?;
    text.extend_from_slice(digits.format(number).as_bytes())?;
    told_fault(&mut text, fault)?;
    Ok(text)
}
