//! The instructions of a command, as a text.

use crate::callees::push_callee;
use crate::explanation::{Asked, TracedLines};
use crate::places::push_place;
use crate::text::Text;
use jc_memory::{Step, TopCell};
use jc_transient::Ref;

/// Adds the wanted ones of the instructions that a command carried out: a line that begins with `trace:`, and a line for each, with the
/// top of the stack that it found. Of a command that ran no code nothing is reported.
pub(crate) fn push_trace(text: &mut Text, asked: &Asked<'_>, lines: TracedLines) {
    let steps = asked.note.steps.as_slice();
    if steps.is_empty() && asked.note.steps_left_out == 0 {
        return;
    }
    text.push(b"trace: line ");
    text.push_number(asked.line);
    text.push(b"\n");
    match lines {
        TracedLines::First(most) => push_first(text, steps, most, asked),
        TracedLines::Last(most) => push_last(text, steps, most, asked),
    }
}

// The first n, and how many follow.
fn push_first(text: &mut Text, steps: &[Step], most: u32, asked: &Asked<'_>) {
    let told = steps.len().min(most as usize);
    push_steps(text, &steps[..told], asked);
    let untold = u32::try_from(steps.len() - told).unwrap_or(u32::MAX);
    push_left_out(text, asked.note.steps_left_out.saturating_add(untold));
}

// The last n after how many come before them.
fn push_last(text: &mut Text, steps: &[Step], most: u32, asked: &Asked<'_>) {
    let before = steps.len().saturating_sub(most as usize);
    push_before(text, u32::try_from(before).unwrap_or(u32::MAX));
    push_steps(text, &steps[before..], asked);
    push_left_out(text, asked.note.steps_left_out);
}

// How many instructions came before those that are reported.
fn push_before(text: &mut Text, before: u32) {
    if before == 0 {
        return;
    }
    text.push(b"  after ");
    text.push_count(before, b"instruction");
    text.push(b"\n");
}

fn push_steps(text: &mut Text, steps: &[Step], asked: &Asked<'_>) {
    for step in steps {
        push_step(text, *step, asked);
    }
}

// An instruction, what it calls, and the top of the stack that it finds.
fn push_step(text: &mut Text, step: Step, asked: &Asked<'_>) {
    push_place(text, step.spot, asked);
    push_callee(text, step.spot, asked);
    push_top(text, step.top);
    text.push(b"\n");
}

fn push_top(text: &mut Text, top: TopCell) {
    match top {
        TopCell::Empty => text.push(b", the stack is empty"),
        TopCell::Short(value) => {
            text.push(b", top ");
            text.push_signed(value);
        }
        TopCell::Reference(reference) => push_reference(text, reference),
        TopCell::ReturnAddress(place) => {
            text.push(b", top return address ");
            text.push_number(u32::from(place));
        }
    }
}

fn push_reference(text: &mut Text, reference: Ref) {
    if reference.is_null() {
        text.push(b", top null");
        return;
    }
    text.push(b", top object ");
    text.push_number(u32::from(reference.address()));
}

// How many instructions more were carried out.
fn push_left_out(text: &mut Text, left_out: u32) {
    if left_out == 0 {
        return;
    }
    text.push(b"  and ");
    text.push_count(left_out, b"more instruction");
    text.push(b"\n");
}
