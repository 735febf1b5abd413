//! Where code stood.

use crate::callees::push_callee;
use crate::explanation::Asked;
use crate::maps::{java_line, name_at, places_at};
use crate::mnemonics::mnemonic;
use crate::operands::push_operand;
use crate::sources::file_of;
use crate::text::Text;
use itoa::Buffer;
use jc_firewall::subject::Context;
use jc_linker::linked::Linked;
use jc_memory::Spot;
use std::alloc::AllocError;

/// Adds a package's AID.
pub(crate) fn push_package(text: &mut Text, number: u8, linked: &Linked) {
    if number == 0 {
        text.push(b"run code");
        return;
    }
    text.push_hex(linked.aid_at(number));
}

/// Adds the package of a context.
pub(crate) fn push_context(text: &mut Text, context: Context, linked: &Linked) {
    match context {
        Context::Jcre => text.push(b"the runtime environment"),
        Context::Package(number) => push_package(text, number, linked),
    }
}

/// Adds a line for each frame: of the innermost one with what it calls.
pub(crate) fn push_spots(text: &mut Text, asked: &Asked<'_>) {
    let mut is_innermost = true;
    for spot in asked.note.spots.as_slice() {
        push_place(text, *spot, asked);
        if is_innermost {
            push_callee(text, *spot, asked);
        }
        text.push(b"\n");
        is_innermost = false;
    }
}

/// Adds the package of a frame, where its instruction stands, its method with the file and the line of its source, the instruction's
/// mnemonic, and the local or the field that it uses by its name.
pub fn push_place(text: &mut Text, spot: Spot, asked: &Asked<'_>) {
    text.push(b"  at ");
    push_package(text, spot.package_number, asked.linked);
    text.push(b" offset ");
    text.push_number(u32::from(spot.place));
    if spot.package_number != 0 {
        text.push(b" in ");
        push_method_at(text, spot.package_number, spot.method, asked);
        push_source(text, spot, asked);
    }
    push_instruction(text, spot, asked);
    push_operand(text, spot, asked);
}

/// A package's AID as a map has it.
pub fn aid_text(number: u8, asked: &Asked<'_>) -> Result<Vec<u8>, AllocError> {
    let mut aid = Text::new(asked.alloc);
    push_package(&mut aid, number, asked.linked);
    aid.into_bytes()
}

/// Adds a method by the name that the map has of it, or by where it begins.
pub(crate) fn push_method_at(text: &mut Text, package_number: u8, method: u16, asked: &Asked<'_>) {
    let Ok(aid) = aid_text(package_number, asked) else {
        text.give_up();
        return;
    };
    let mut digits = Buffer::new();
    let offset = digits.format(u32::from(method)).as_bytes();
    match name_at(asked.map, &aid, offset) {
        Some(name) => text.push(name),
        None => {
            text.push(b"method ");
            text.push(offset);
        }
    }
}

// The file and the line of the source, as in `(purse/Purse.java:109)`, where the map has them; the line alone, where it names no file.
fn push_source(text: &mut Text, spot: Spot, asked: &Asked<'_>) {
    let Ok(aid) = aid_text(spot.package_number, asked) else {
        text.give_up();
        return;
    };
    let mut digits = Buffer::new();
    let offset = digits.format(u32::from(spot.method)).as_bytes();
    let Some(line) = line_at(asked.map, &aid, offset, u32::from(spot.place)) else {
        return;
    };
    push_line_of(text, file_at(asked.map, &aid, offset), line);
}

// A line of a file, or of a source that the map does not name.
fn push_line_of(text: &mut Text, file: Option<&[u8]>, line: u32) {
    match file {
        Some(file) => {
            text.push(b" (");
            text.push(file);
            text.push(b":");
            text.push_number(line);
            text.push(b")");
        }
        None => {
            text.push(b" line ");
            text.push_number(line);
        }
    }
}

// The file of the method at an offset of a package.
fn file_at<'a>(map: &'a [u8], aid: &[u8], offset: &[u8]) -> Option<&'a [u8]> {
    file_of(map, aid, name_at(map, aid, offset)?)
}

// The line of the source to which the instruction at a place of a method belongs.
fn line_at(map: &[u8], aid: &[u8], offset: &[u8], place: u32) -> Option<u32> {
    java_line(places_at(map, aid, offset)?, place)
}

fn push_instruction(text: &mut Text, spot: Spot, asked: &Asked<'_>) {
    let Some(opcode) = asked.code_at(spot).get(usize::from(spot.place)) else {
        return;
    };
    let Some(name) = mnemonic(*opcode) else {
        return;
    };
    text.push(b": ");
    text.push(name);
}
