//! Cuts of the power within calls that write bytes one by one.

use crate::callees::{non_atomic_call, push_platform_method};
use crate::causes::push_phase;
use crate::explanation::Asked;
use crate::places::push_spots;
use crate::text::Text;
use jc_memory::Cause;
use jc_platform::names::PlatformMethod;
use std::alloc::AllocError;

/// Says that the power was cut within a non-atomic call, and where the frames stood; nothing, where it was not.
pub fn told_of_cut(asked: &Asked<'_>) -> Result<Option<Vec<u8>>, AllocError> {
    let Some(method) = call_cut(asked) else {
        return Ok(None);
    };
    let mut text = Text::new(asked.alloc);
    text.push(b"why: line ");
    text.push_number(asked.line);
    text.push(b": the power was cut within ");
    push_platform_method(&mut text, method);
    push_phase(&mut text, asked.note.phase);
    text.push(b"\n");
    push_spots(&mut text, asked);
    Ok(Some(text.into_bytes()?))
}

// The call within which a write was refused, if it is a non-atomic one.
fn call_cut(asked: &Asked<'_>) -> Option<PlatformMethod> {
    let Cause::Nothing = asked.note.cause else {
        return None;
    };
    let spot = asked.note.spots.as_slice().first()?;
    non_atomic_call(*spot, asked.linked)
}
