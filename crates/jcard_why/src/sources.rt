//! What a map names of the Java source: classes, files, fields and variables.

use crate::maps::{cut_once, is_line_feed, is_of, named_by, number_of};
use jc_platform::lookup::all_classes;

/// The most classes of a map that stand above one another.
const MOST_ABOVE: usize = 64;

/// What a line reports of a class: its number in its package, its name, the name of the class above it, and its file.
#[derive(Clone, Copy, Drop)]
pub(crate) struct ClassLine<'a> {
    number: u32,
    pub(crate) name: &'a [u8],
    above: &'a [u8],
    file: &'a [u8],
}

/// A field or a variable: its type and its name.
#[derive(Clone, Copy, Drop)]
pub struct Named<'a> {
    pub kind: &'a [u8],
    pub name: &'a [u8],
}

/// A field, and the class that declares it.
#[derive(Clone, Copy, Drop)]
pub struct Member<'a> {
    pub class: &'a [u8],
    pub field: Named<'a>,
    /// Where it stands among its like: its cell, or its byte in the static image.
    pub at: u32,
}

/// A method of a package: its AID as the map has it, and the offset of the method in decimal digits.
#[derive(Clone, Copy, Drop)]
pub struct MethodPlace<'a> {
    pub aid: &'a [u8],
    pub offset: &'a [u8],
}

/// The class with this number of a package.
pub(crate) fn class_numbered<'a>(map: &'a [u8], aid: &[u8], number: u32) -> Option<ClassLine<'a>> {
    let mut is_inside = false;
    for line in map.split(is_line_feed) {
        is_inside = is_of(line, is_inside, aid);
        if is_inside {
            if let Some(class) = class_in(line) {
                if class.number == number {
                    return Some(class);
                }
            }
        }
    }
    None
}

/// The file of a method with this name in a package: that of the class of the longest name with which the method's begins.
pub fn file_of<'a>(map: &'a [u8], aid: &[u8], method: &[u8]) -> Option<&'a [u8]> {
    let mut is_inside = false;
    let mut found: Option<ClassLine<'a>> = None;
    for line in map.split(is_line_feed) {
        is_inside = is_of(line, is_inside, aid);
        if is_inside {
            if let Some(class) = class_in(line) {
                if holds(&class, method) && is_longer(&class, found) {
                    found = Some(class);
                }
            }
        }
    }
    Some(found?.file)
}

// Whether a method is one of this class, by the beginning of its name.
fn holds(class: &ClassLine<'_>, method: &[u8]) -> bool {
    match method.strip_prefix(class.name) {
        Some([b'.' | b'(', ..]) => true,
        _ => false,
    }
}

fn is_longer(class: &ClassLine<'_>, than: Option<ClassLine<'_>>) -> bool {
    match than {
        Some(other) => class.name.len() > other.name.len(),
        None => true,
    }
}

/// The field in a cell of the instances of a class.
pub(crate) fn field_at<'a>(
    map: &'a [u8],
    aid: &[u8],
    number: u32,
    cell: u32,
) -> Option<Member<'a>> {
    let mut class = class_numbered(map, aid, number)?;
    for _depth in 0..MOST_ABOVE {
        let base = cells_of(map, class.above)?;
        if cell >= base {
            return own_field(map, class.name, cell - base);
        }
        class = class_named(map, class.above)?;
    }
    None
}

/// The first static field of a package that stands at this byte of its image or after it.
pub fn static_from<'a>(map: &'a [u8], aid: &[u8], from: u32) -> Option<Member<'a>> {
    let mut is_inside = false;
    let mut class: &'a [u8] = b"";
    let mut found: Option<Member<'a>> = None;
    for line in map.split(is_line_feed) {
        is_inside = is_of(line, is_inside, aid);
        if is_inside {
            class = class_after(line, class);
            if let Some((at, field)) = member_in(line, b"static ") {
                if at >= from && is_earlier(at, found) {
                    found = Some(Member { class, field, at });
                }
            }
        }
    }
    found
}

fn is_earlier(at: u32, than: Option<Member<'_>>) -> bool {
    match than {
        Some(other) => at < other.at,
        None => true,
    }
}

/// The variable that a local of a method is at a place.
pub fn variable_at<'a>(
    map: &'a [u8],
    method: MethodPlace<'_>,
    local: u32,
    place: u32,
) -> Option<Named<'a>> {
    let mut is_inside = false;
    let mut is_named = false;
    for line in map.split(is_line_feed) {
        is_inside = is_of(line, is_inside, method.aid);
        is_named = is_inside && is_of_method(line, is_named, method.offset);
        if is_named {
            if let Some(variable) = variable_in(line, local, place) {
                return Some(variable);
            }
        }
    }
    None
}

/// Whether a map has any variable of a method.
pub fn tells_variables(map: &[u8], method: MethodPlace<'_>) -> bool {
    let mut is_inside = false;
    let mut is_named = false;
    for line in map.split(is_line_feed) {
        is_inside = is_of(line, is_inside, method.aid);
        is_named = is_inside && is_of_method(line, is_named, method.offset);
        if is_named && line.starts_with(b"local ") {
            return true;
        }
    }
    false
}

/// Whether a line is of the method at an offset, after a line that is or is not: a line with an offset begins a method, one of a class or a package ends it.
pub(crate) fn is_of_method(line: &[u8], before: bool, offset: &[u8]) -> bool {
    match line {
        [b'0'..=b'9', ..] => named_by(line, offset).is_some(),
        [b' ', ..] => before,
        _ => before && line.starts_with(b"local "),
    }
}

// The class with this name, in any package.
fn class_named<'a>(map: &'a [u8], name: &[u8]) -> Option<ClassLine<'a>> {
    for line in map.split(is_line_feed) {
        if let Some(class) = class_in(line) {
            if class.name == name {
                return Some(class);
            }
        }
    }
    None
}

// How many cells an instance of the class with this name has; none where neither the map nor the platform knows it.
fn cells_of(map: &[u8], name: &[u8]) -> Option<u32> {
    let mut cells = 0u32;
    let mut above = name;
    for _depth in 0..MOST_ABOVE {
        let Some(class) = class_named(map, above) else {
            return Some(cells.saturating_add(platform_cells(above)?));
        };
        cells = cells.saturating_add(own_fields(map, above));
        above = class.above;
    }
    None
}

// How many cells an instance of the platform's class with this name has, which has its Java package before it.
fn platform_cells(name: &[u8]) -> Option<u32> {
    if !name.starts_with(b"java") {
        return None;
    }
    for row in all_classes() {
        if let Some([.., b'.']) = name.strip_suffix(row.name) {
            return Some(u32::from(row.class.cells()));
        }
    }
    None
}

// How many fields the class with this name declares.
fn own_fields(map: &[u8], name: &[u8]) -> u32 {
    let mut class: &[u8] = b"";
    let mut count = 0u32;
    for line in map.split(is_line_feed) {
        class = class_after(line, class);
        if class == name && line.starts_with(b"field ") {
            count = count.saturating_add(1);
        }
    }
    count
}

// The field in the cell of this number among those that the class with this name declares.
fn own_field<'a>(map: &'a [u8], name: &'a [u8], cell: u32) -> Option<Member<'a>> {
    let mut class: &[u8] = b"";
    for line in map.split(is_line_feed) {
        class = class_after(line, class);
        if class == name {
            if let Some((at, field)) = member_in(line, b"field ") {
                if at == cell {
                    return Some(Member {
                        class: name,
                        field,
                        at,
                    });
                }
            }
        }
    }
    None
}

// The name of the class whose lines follow a line, after those of a class with this name: a line `class ..` begins them, and `package ..` ends them.
fn class_after<'a>(line: &'a [u8], before: &'a [u8]) -> &'a [u8] {
    if line.starts_with(b"package ") {
        return b"";
    }
    match class_in(line) {
        Some(class) => class.name,
        None => before,
    }
}

// What a line `class N NAME ABOVE FILE` says.
fn class_in(line: &[u8]) -> Option<ClassLine<'_>> {
    let (number, rest) = number_before(line.strip_prefix(b"class ".as_slice())?)?;
    let (name, rest) = cut_once(rest, b' ')?;
    let (above, file) = cut_once(rest, b' ')?;
    Some(ClassLine {
        number,
        name,
        above,
        file,
    })
}

// What a line `WORD N TYPE NAME` reports of a field: where it stands, its type and its name.
fn member_in<'a>(line: &'a [u8], word: &[u8]) -> Option<(u32, Named<'a>)> {
    let (at, rest) = number_before(line.strip_prefix(word)?)?;
    Some((at, named_in(rest)?))
}

// The variable that a line `local I START END TYPE NAME` says, where it is this local at this place.
fn variable_in(line: &[u8], local: u32, place: u32) -> Option<Named<'_>> {
    let (number, rest) = number_before(line.strip_prefix(b"local ".as_slice())?)?;
    let (start, rest) = number_before(rest)?;
    let (end, rest) = number_before(rest)?;
    if number == local && start <= place && place < end {
        return named_in(rest);
    }
    None
}

// What `TYPE NAME` says.
fn named_in(text: &[u8]) -> Option<Named<'_>> {
    let (kind, name) = cut_once(text, b' ')?;
    Some(Named { kind, name })
}

// The number before the first blank, and what follows that.
fn number_before(text: &[u8]) -> Option<(u32, &[u8])> {
    let (digits, rest) = cut_once(text, b' ')?;
    Some((number_of(digits)?, rest))
}
