//! Maps of methods: lines that name the methods of packages.
ghost use Rattle.std.specs.Prelude.{◌≡◌, ◌<◌, ◌==◌, [], ◌∷◌, length, MatchOption, IfSome, None, Some};
ghost use Rattle.std.specs.List.{slice_split};
ghost use Rattle.jcard_why.specs.Maps.{behind, is_of, name_at, named_by};

/// The name that a map has of the method at an offset of a package's Method component. The package is named by its AID in
/// hexadecimal digits, which a line `package AID` of the map has to spell the same, and the offset in decimal ones.
pub fn name_at<'a>(map: &'a [u8], aid: &[u8], offset: &[u8]) -> Option<&'a [u8]>
    ensures { MatchOption result (name_at map.now aid.now offset.now ≡ None)
        (λ name. name_at map.now aid.now offset.now ≡ Some name.now) }
{
    let mut rest = map;
    let mut is_inside = false;
    while let Some((line, more)) = cut_once(rest, b'\n') {
        if is_inside {
            if let Some(name) = named_by(line, offset) {
                return Some(name);
            }
        }
        is_inside = is_of(line, is_inside, aid);
        rest = more;
    }
    if is_inside {
        return named_by(rest, offset);
    }
    None
}

/// The line that follows the one with the name of a method, where a blank begins it, without that: where its instructions stand.
pub(crate) fn places_at<'a>(map: &'a [u8], aid: &[u8], offset: &[u8]) -> Option<&'a [u8]> {
    let mut rest = map;
    let mut is_inside = false;
    let mut is_named = false;
    while let Some((line, more)) = cut_once(rest, b'\n') {
        if is_named {
            return behind(line, b" ");
        }
        is_named = is_inside && named_by(line, offset).is_some();
        is_inside = is_of(line, is_inside, aid);
        rest = more;
    }
    if is_named { behind(rest, b" ") } else { None }
}

/// What stands after this word with which a line of a map begins; none where lines that begin so differ.
pub(crate) fn entry_name<'a>(map: &'a [u8], head: &[u8]) -> Option<&'a [u8]> {
    let mut found: Option<&'a [u8]> = None;
    for line in map.split(is_line_feed) {
        if let Some(name) = behind(line, head) {
            match found {
                Some(other) if other != name => return None,
                _ => found = Some(name),
            }
        }
    }
    found
}

/// The line of the source to which the instruction at a place belongs, by words `OFFSET` and `OFFSET:LINE` in the order of the offsets:
/// the last line up to it.
pub(crate) fn java_line(places: &[u8], place: u32) -> Option<u32> {
    let mut found = None;
    for word in places.split(is_space) {
        if let Some((offset, line)) = split_place(word) {
            if offset > place {
                return found;
            }
            found = Some(line);
        }
    }
    found
}

/// The offset and the line in a word with both.
pub fn split_place(word: &[u8]) -> Option<(u32, u32)> {
    let (offset, line) = cut_once(word, b':')?;
    Some((number_of(offset)?, number_of(line)?))
}

/// A decimal number below ten million.
pub fn number_of(digits: &[u8]) -> Option<u32> {
    if digits.is_empty() || digits.len() > 7 {
        return None;
    }
    let mut number = 0u32;
    for digit in digits {
        if !digit.is_ascii_digit() {
            return None;
        }
        number = number
            .saturating_mul(10)
            .saturating_add(u32::from(*digit - b'0'));
    }
    Some(number)
}

/// What ends a line.
pub fn is_line_feed(byte: &u8) -> bool
    ensures { result ≡ (byte.now == 10) }
{
    *byte == b'\n'
}

/// What ends a word.
pub fn is_space(byte: &u8) -> bool
    ensures { result ≡ (byte.now == 32) }
{
    *byte == b' '
}

/// What stands before the first such byte, and what follows it; none where there is no such byte.
pub fn cut_once(text: &[u8], separator: u8) -> Option<(&[u8], &[u8])>
    ensures parts { MatchOption result
        (slice_split (λ b. b == separator) text.now ≡ text.now ∷ [])
        (λ r. slice_split (λ b. b == separator) text.now
        ≡ r.0.now ∷ slice_split (λ b. b == separator) r.1.now) }
    ensures shorter { IfSome result (λ r. length r.1.now < length text.now) }
{
    let at = text.iter().position(|byte| *byte == separator)?;
    Some((&text[..at], &text[at + 1..]))
}

// What stands after a word with which a line begins.
fn behind<'a>(line: &'a [u8], word: &[u8]) -> Option<&'a [u8]>
    ensures { MatchOption result (behind word.now line.now ≡ None)
        (λ more. behind word.now line.now ≡ Some more.now) }
{
    line.strip_prefix(word)
}

/// The name in a line `OFFSET NAME`.
pub(crate) fn named_by<'a>(line: &'a [u8], offset: &[u8]) -> Option<&'a [u8]>
    ensures { MatchOption result (named_by offset.now line.now ≡ None)
        (λ name. named_by offset.now line.now ≡ Some name.now) }
{
    let Some(more) = behind(line, offset) else {
        return None;
    };
    behind(more, b" ")
}

/// Whether what follows a line is of the package.
pub(crate) fn is_of(line: &[u8], before: bool, aid: &[u8]) -> bool
    ensures { result ≡ is_of aid.now before line.now }
{
    match behind(line, b"package ") {
        Some(other) => other == aid,
        None => before,
    }
}
