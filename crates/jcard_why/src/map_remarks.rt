//! What is wrong with a line of a map, and where.

use crate::maps::{cut_once, is_line_feed, is_space};
use crate::text::Text;
use std::alloc::{AllocError, Global};

// What is wrong with a line: where in it, from 1, and why.
#[derive(Clone, Copy, Drop)]
struct LineFault {
    column: usize,
    why: &'static [u8],
}

/// Says the first line of a map that has no form, where and why: an empty text where each has one. Such a line is passed over.
pub fn remark_on_map(alloc: Global, map: &[u8]) -> Result<Vec<u8>, AllocError> {
    let mut is_inside = false;
    let mut number = 0u32;
    for line in map.split(is_line_feed) {
        number = number.saturating_add(1);
        if let Some(fault) = fault_of(line, is_inside) {
            return remark_of(alloc, number, &fault);
        }
        is_inside = is_inside || line.starts_with(b"package ");
    }
    Ok(Vec::new(alloc))
}

fn remark_of(alloc: Global, number: u32, fault: &LineFault) -> Result<Vec<u8>, AllocError> {
    let mut text = Text::new(alloc);
    text.push(b"jcard: map line ");
    text.push_number(number);
    text.push(b", column ");
    text.push_wide(fault.column as u64);
    text.push(b": ");
    text.push(fault.why);
    text.push(b"; the line is passed over\n");
    text.into_bytes()
}

const fn at(column: usize, why: &'static [u8]) -> Option<LineFault> {
    Some(LineFault { column, why })
}

// What is wrong with a line, after one that names a package or before it.
fn fault_of(line: &[u8], is_inside: bool) -> Option<LineFault> {
    if line.is_empty() {
        return None;
    }
    if let Some(aid) = line.strip_prefix(b"package ".as_slice()) {
        return match aid.iter().position(|byte| !is_digit_of_aid(*byte)) {
            None if aid.len() % 2 == 0 && !aid.is_empty() => None,
            None => at(
                line.len().saturating_add(1),
                b"an AID has an even number of digits",
            ),
            Some(place) => at(
                place.saturating_add(9),
                b"an AID is told in upper case hexadecimal digits",
            ),
        };
    }
    if !is_inside {
        return at(1, b"no package is told above");
    }
    if is_of_another_form(line) {
        return None;
    }
    if line.starts_with(b" ") {
        return fault_of_places(line);
    }
    fault_of_method(line)
}

// A line that states no method: what an entry of the constant pool, a class, a field or a variable is called.
fn is_of_another_form(line: &[u8]) -> bool {
    line.starts_with(b"entry ")
        || line.starts_with(b"class ")
        || line.starts_with(b"field ")
        || line.starts_with(b"static ")
        || line.starts_with(b"local ")
}

// Of a line with a method: an offset, a blank and a name.
fn fault_of_method(line: &[u8]) -> Option<LineFault> {
    match first_other(line) {
        Some(0) => at(
            1,
            b"a line begins by package, entry, class, field, static, local, an offset or a blank",
        ),
        Some(place) if line.get(place).copied() != Some(b' ') => {
            at(
                place.saturating_add(1),
                b"an offset is told in decimal digits",
            )
        }
        Some(place) if place.saturating_add(1) < line.len() => None,
        _ => at(
            line.len().saturating_add(1),
            b"no name stands behind the offset",
        ),
    }
}

// Of a line with the places of instructions: words of digits, perhaps with a colon and more digits.
fn fault_of_places(line: &[u8]) -> Option<LineFault> {
    let mut column = 1usize;
    for word in line.split(is_space) {
        if !is_place(word) {
            return at(
                column,
                b"an instruction's offset, or OFFSET:LINE, is told in decimal digits",
            );
        }
        column = column.saturating_add(word.len()).saturating_add(1);
    }
    None
}

fn is_place(word: &[u8]) -> bool {
    match cut_once(word, b':') {
        None => first_other(word).is_none(),
        Some((offset, line)) => is_number(offset) && is_number(line),
    }
}

fn is_number(digits: &[u8]) -> bool {
    !digits.is_empty() && first_other(digits).is_none()
}

// The place of the first byte that is no digit.
fn first_other(bytes: &[u8]) -> Option<usize> {
    bytes.iter().position(|byte| !byte.is_ascii_digit())
}

fn is_digit_of_aid(byte: u8) -> bool {
    byte.is_ascii_digit() || (b'A'..=b'F').contains(&byte)
}
