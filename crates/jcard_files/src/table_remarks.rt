//! Why a text is no platform table, and where.

ghost use Rattle.std.specs.Prelude.{◌<◌};

use crate::remarks::Remarks;
use crate::usual_table::USUAL_TABLE;
use jc_platform::example::EXAMPLE;
use jc_platform::fault::TableFault;
use jc_platform::lookup::all_classes;
use jc_platform::read::{LARGEST_TEXT, read_table};
use jcard_texts::numbers::push_number;
use std::alloc::{AllocError, Global};

/// How many words a line has at most, and one more.
const WORDS: usize = 5;

/// How many hexadecimal digits a line `random` has.
const RANDOM_DIGITS: usize = 64;

/// The greatest token of a class or a static method, and that of a virtual or an interface method.
const LARGEST_TOKEN: u32 = 255;

const LARGEST_VIRTUAL_TOKEN: u32 = 127;

/// Says why a text is no platform table, if it is none.
pub fn remark_on_table<M: Remarks>(alloc: Global, text: &Vec<u8>, remarks: &mut M) {
    if let Err(TableFault::BadTable(line)) = read_table(text) {
        remark_on(alloc, text, line, remarks);
    }
}

// Says what is wrong with its first bad line, of this number from 1; or with all of it, where it is 0.
fn remark_on<M: Remarks>(alloc: Global, text: &[u8], line: u16, remarks: &mut M) {
    let told = match line {
        _ if text.first() == Some(&0) => remark_on_packed(alloc, text, line),
        0 => remark_on_all(alloc, text),
        _ => remark_on_line(alloc, u32::from(line), cause_of(text, u32::from(line))),
    };
    if let Ok(told) = told {
        remarks.remark(&told);
    }
}

// Why a line is bad: where in it, from 1, why, and the line that stands against it, or 0.
#[derive(Clone, Copy, Drop)]
struct LineCause {
    column: usize,
    why: &'static [u8],
    other_line: u32,
}

// Any package, and any class.
const ANYWHERE: Above<'static> = Above {
    is_extended: false,
    package: b"",
    class: b"",
};

// What a line says.
#[derive(Clone, Copy, PartialEq, Eq)]
enum Keyword {
    Extended,
    Random,
    Package,
    Class,
    Static,
    Virtual,
    Interface,
}

const KEYWORDS: [Keyword; 7] = [
    Keyword::Extended,
    Keyword::Random,
    Keyword::Package,
    Keyword::Class,
    Keyword::Static,
    Keyword::Virtual,
    Keyword::Interface,
];

// The words of a line, and where they begin, from 1.
#[derive(Clone, Copy, Drop)]
struct Line<'t> {
    words: [&'t [u8]; WORDS],
    columns: [usize; WORDS],
    count: usize,
    length: usize,
}

// What stands above a line: the AID of its package and the name of its class, which are empty where there is none.
#[derive(Clone, Copy, Drop)]
struct Above<'t> {
    is_extended: bool,
    package: &'t [u8],
    class: &'t [u8],
}

impl Keyword {
    fn of(word: &[u8]) -> Option<Keyword> {
        for keyword in &KEYWORDS {
            if keyword.text() == word {
                return Some(*keyword);
            }
        }
        None
    }

    // How many words its line has.
    const fn words(self) -> usize
        ensures { result < 5 }
    {
        match self {
            Keyword::Extended => 1,
            Keyword::Random => 2,
            Keyword::Package => 4,
            _ => 3,
        }
    }

    const fn text(self) -> &'static [u8] {
        match self {
            Keyword::Extended => b"extended",
            Keyword::Random => b"random",
            Keyword::Package => b"package",
            Keyword::Class => b"class",
            Keyword::Static => b"static",
            Keyword::Virtual => b"virtual",
            Keyword::Interface => b"interface",
        }
    }

    const fn is_of_method(self) -> bool {
        matches!(
            self,
            Keyword::Static | Keyword::Virtual | Keyword::Interface
        )
    }

    // The word that names what its line says.
    const fn place_of_name(self) -> usize
        ensures { result < 5 }
    {
        match self {
            Keyword::Extended | Keyword::Random => 0,
            Keyword::Package => 1,
            _ => 2,
        }
    }

    const fn largest_token(self) -> u32 {
        match self {
            Keyword::Virtual | Keyword::Interface => LARGEST_VIRTUAL_TOKEN,
            _ => LARGEST_TOKEN,
        }
    }
}

impl<'t> Line<'t> {
    // Of more words than a line can have the first are kept.
    fn of(line: &'t [u8]) -> Line<'t> {
        let mut found = Line {
            words: [b"".as_slice(); WORDS],
            columns: [1; WORDS],
            count: 0,
            length: line.len(),
        };
        let mut column = 1usize;
        for word in line.split(is_space) {
            if found.count < WORDS {
                found.words[found.count] = word;
                found.columns[found.count] = column;
                found.count += 1;
            }
            column = column.saturating_add(word.len()).saturating_add(1);
        }
        found
    }

    fn keyword(&self) -> Option<Keyword> {
        Keyword::of(self.words[0])
    }
}

// Where what stands above a line is named: the numbers of lines, or 0.
#[derive(Clone, Copy, Drop)]
struct Places {
    is_extended: bool,
    package: u32,
    class: u32,
}

impl Places {
    // With the line of a number more.
    const fn with(self, keyword: Option<Keyword>, number: u32) -> Places {
        match keyword {
            Some(Keyword::Extended) => Places {
                is_extended: true,
                package: self.package,
                class: self.class,
            },
            Some(Keyword::Package) => Places {
                is_extended: self.is_extended,
                package: number,
                class: 0,
            },
            Some(Keyword::Class) => Places {
                is_extended: self.is_extended,
                package: self.package,
                class: number,
            },
            _ => self,
        }
    }
}

// What stands above the line of a table with this number.
fn above_of(table: &[u8], number: u32) -> Above<'_> {
    let places = places_above(table, number);
    Above {
        is_extended: places.is_extended,
        package: word_at(table, places.package, 1),
        class: word_at(table, places.class, 2),
    }
}

fn places_above(table: &[u8], number: u32) -> Places {
    let mut places = Places {
        is_extended: false,
        package: 0,
        class: 0,
    };
    let mut at = 1u32;
    for part in table.split(is_line_feed) {
        if at < number {
            places = places.with(Keyword::of(word_in(part, 0)), at);
        }
        at = at.saturating_add(1);
    }
    places
}

// A word of the line of a table with this number, from 1; no bytes where there is none.
fn word_at(table: &[u8], number: u32, place: usize) -> &[u8] {
    let mut found: Option<&[u8]> = None;
    let mut at = 1u32;
    for part in table.split(is_line_feed) {
        if at == number {
            found = Some(part);
        }
        at = at.saturating_add(1);
    }
    match found {
        Some(line) => word_in(line, place),
        None => b"",
    }
}

// A word of a line, from 0; no bytes where there is none.
fn word_in(line: &[u8], place: usize) -> &[u8] {
    let mut found: Option<&[u8]> = None;
    let mut at = 0usize;
    for word in line.split(is_space) {
        if at == place {
            found = Some(word);
        }
        at = at.saturating_add(1);
    }
    match found {
        Some(word) => word,
        None => b"",
    }
}

// Why the line with this number is bad.
fn cause_of(text: &[u8], number: u32) -> LineCause {
    let mut at = 0u32;
    let mut found: Option<&[u8]> = None;
    for part in text.split(is_line_feed) {
        if let Some(line) = found {
            return cause_in(text, number, line);
        }
        at = at.saturating_add(1);
        if at == number {
            found = Some(part);
        }
    }
    let length = match found {
        Some(line) => line.len(),
        None => 0,
    };
    cause(length.saturating_add(1), b"no line feed ends the last line")
}

const fn cause(column: usize, why: &'static [u8]) -> LineCause {
    LineCause {
        column,
        why,
        other_line: 0,
    }
}

// Why this line is bad, which a line feed ends.
fn cause_in(text: &[u8], number: u32, bytes: &[u8]) -> LineCause {
    let line = Line::of(bytes);
    if bytes.is_empty() {
        return cause(1, b"the line is empty");
    }
    if let Some(cause) = cause_in_spaces(&line, bytes) {
        return cause;
    }
    let Some(keyword) = line.keyword() else {
        return cause(
            1,
            b"a line begins by extended, random, package, class, static, virtual or interface",
        );
    };
    if let Some(cause) = cause_in_words(&line, keyword) {
        return cause;
    }
    cause_in_place(text, number, &line, keyword)
}

// A space or a carriage return that stands where none may.
fn cause_in_spaces(line: &Line<'_>, bytes: &[u8]) -> Option<LineCause> {
    if bytes.ends_with(b"\r") {
        return Some(cause(bytes.len(), b"a carriage return ends the line"));
    }
    for i in 0..line.count.min(WORDS) {
        if line.words[i].is_empty() {
            return Some(cause(
                line.columns[i],
                b"one space stands between words, and none at an end",
            ));
        }
    }
    None
}

// Words that lack or are too many, and numbers.
fn cause_in_words(line: &Line<'_>, keyword: Keyword) -> Option<LineCause> {
    let wanted = keyword.words();
    if line.count < wanted {
        return Some(cause(line.length.saturating_add(1), missing_word(keyword)));
    }
    if line.count > wanted {
        return Some(cause(line.columns[wanted], b"a word too many"));
    }
    match keyword {
        Keyword::Extended => None,
        Keyword::Random => cause_in_digits(line),
        Keyword::Package => match cause_in_number(line, 2, LARGEST_TOKEN) {
            Some(cause) => Some(cause),
            None => cause_in_number(line, 3, LARGEST_TOKEN),
        },
        _ => cause_in_number(line, 1, keyword.largest_token()),
    }
}

const fn missing_word(keyword: Keyword) -> &'static [u8] {
    match keyword {
        Keyword::Package => b"package has an AID and two numbers after it",
        Keyword::Random => b"64 hexadecimal digits follow random",
        _ => b"a token and a name stand after the first word",
    }
}

fn cause_in_number(line: &Line<'_>, place: usize, most: u32) -> Option<LineCause>
    requires place { place < 5 }
{
    match number_of(line.words[place]) {
        Some(number) if number <= most => None,
        _ if most == LARGEST_TOKEN => {
            Some(cause(line.columns[place], b"no number from 0 to 255"))
        }
        _ => Some(cause(line.columns[place], b"no number from 0 to 127")),
    }
}

fn cause_in_digits(line: &Line<'_>) -> Option<LineCause> {
    let digits = line.words[1];
    let is_whole = digits.len() == RANDOM_DIGITS
        && digits.iter().all(|digit| digit.is_ascii_hexdigit());
    if is_whole {
        return None;
    }
    Some(cause(line.columns[1], b"no 64 hexadecimal digits"))
}

// A number in decimal digits; none above 9999.
fn number_of(digits: &[u8]) -> Option<u32> {
    if digits.is_empty() {
        return None;
    }
    let mut number = 0u32;
    for digit in digits {
        if !digit.is_ascii_digit() || number > 999 {
            return None;
        }
        number = number * 10 + u32::from(*digit - b'0');
    }
    Some(number)
}

// Why a line may not stand where it does.
fn cause_in_place(text: &[u8], number: u32, line: &Line<'_>, keyword: Keyword) -> LineCause {
    let above = above_of(text, number);
    match keyword {
        Keyword::Extended => cause(1, b"extended stands once, above all other lines"),
        Keyword::Random if !above.is_extended => cause(
            1,
            b"it stands in a table alone whose first line is extended",
        ),
        Keyword::Random => LineCause {
            column: 1,
            why: b"it stands above already, in line ",
            other_line: line_with(text, number, keyword, keyword.text(), ANYWHERE),
        },
        Keyword::Class if above.package.is_empty() => cause(
            1,
            b"no package stands above the class",
        ),
        _ if keyword.is_of_method() && above.class.is_empty() => {
            cause(1, b"no class stands above the method in its package")
        }
        _ => cause_in_name(text, number, line, keyword, above),
    }
}

fn cause_in_name(
    text: &[u8],
    number: u32,
    line: &Line<'_>,
    keyword: Keyword,
    above: Above<'_>,
) -> LineCause {
    let column = line.columns[keyword.place_of_name()];
    let name = line.words[keyword.place_of_name()];
    let token = line.words[1];
    let usual = USUAL_TABLE.as_bytes();
    let section = if keyword.is_of_method() {
        above
    } else {
        ANYWHERE
    };
    if line_with(usual, u32::MAX, keyword, name, section) == 0 {
        return cause(column, unknown_name(keyword));
    }
    let earlier = line_with(text, number, keyword, name, section);
    if earlier != 0 {
        return LineCause {
            column,
            why: b"it stands above already, in line ",
            other_line: earlier,
        };
    }
    if line_with(EXAMPLE.as_bytes(), u32::MAX, keyword, name, section) == 0 && !above.is_extended {
        return cause(
            column,
            b"it stands in a table alone whose first line is extended",
        );
    }
    if keyword == Keyword::Package {
        return cause(
            column,
            b"this package stands below java.lang and javacard.framework",
        );
    }
    if line_with(usual, u32::MAX, keyword, name, above) == 0 {
        return cause(column, b"it is a class of another package");
    }
    if keyword == Keyword::Class && lacks_superclass(text, number, name) {
        return cause(column, b"its superclass stands nowhere above");
    }
    LineCause {
        column: line.columns[1],
        why: b"the token is taken by line ",
        other_line: line_with_token(text, number, keyword, token, above),
    }
}

// Whether the superclass of a class with this name is none that each table has, and stands nowhere above the line with this number.
fn lacks_superclass(text: &[u8], number: u32, name: &[u8]) -> bool {
    for row in all_classes() {
        if row.name == name {
            if let Some(above) = row.superclass {
                return line_with(
                    EXAMPLE.as_bytes(),
                    u32::MAX,
                    Keyword::Class,
                    above.name(),
                    ANYWHERE,
                ) == 0
                    && line_with(text, number, Keyword::Class, above.name(), ANYWHERE) == 0;
            }
        }
    }
    false
}

const fn unknown_name(keyword: Keyword) -> &'static [u8] {
    match keyword {
        Keyword::Package => b"no package of the platform has this AID, in upper case",
        Keyword::Class => b"no class of the platform has this name",
        _ => b"the class above has no such method",
    }
}

// The line of a table, above one with a number, that has this keyword and this name, a class or a method in the package and the class
// that are named, or in any where that is empty; 0 where none has.
fn line_with(table: &[u8], before: u32, keyword: Keyword, name: &[u8], section: Above<'_>) -> u32 {
    let mut state = Walk::begin(section);
    let mut at = 1u32;
    let mut found = 0u32;
    for part in table.split(is_line_feed) {
        let is_named = word_in(part, keyword.place_of_name()) == name;
        if at < before
            && found == 0
            && is_named
            && state.has(Keyword::of(word_in(part, 0)), keyword)
        {
            found = at;
        }
        state = state.behind(part, section);
        at = at.saturating_add(1);
    }
    found
}

// The line of a table, above one with a number, that has this keyword and this token in the same package or class; 0 where none has.
fn line_with_token(
    table: &[u8],
    before: u32,
    keyword: Keyword,
    token: &[u8],
    section: Above<'_>,
) -> u32 {
    let mut state = Walk::begin(section);
    let mut at = 1u32;
    let mut found = 0u32;
    for part in table.split(is_line_feed) {
        let is_same = number_of(word_in(part, 1)) == number_of(token);
        if at < before
            && found == 0
            && is_same
            && state.has(Keyword::of(word_in(part, 0)), keyword)
        {
            found = at;
        }
        state = state.behind(part, section);
        at = at.saturating_add(1);
    }
    found
}

// Whether a walk over the lines of a table is in the package and in the class that are looked for.
#[derive(Clone, Copy, Drop)]
struct Walk {
    in_package: bool,
    in_class: bool,
}

impl Walk {
    fn begin(section: Above<'_>) -> Walk {
        Walk {
            in_package: section.package.is_empty(),
            in_class: section.class.is_empty(),
        }
    }

    // Whether a line with the first keyword is one with the other that is looked for: of a package anywhere, of a class in its package,
    // and of a method in its class.
    fn has(self, found: Option<Keyword>, keyword: Keyword) -> bool {
        found == Some(keyword)
            && match keyword {
                Keyword::Extended | Keyword::Random | Keyword::Package => true,
                Keyword::Class => self.in_package,
                _ => self.in_class,
            }
    }

    // After one line more.
    fn behind(self, line: &[u8], section: Above<'_>) -> Walk {
        match Keyword::of(word_in(line, 0)) {
            Some(Keyword::Package) => Walk {
                in_package: section.package.is_empty() || section.package == word_in(line, 1),
                in_class: section.class.is_empty(),
            },
            Some(Keyword::Class) => Walk {
                in_package: self.in_package,
                in_class: section.class.is_empty() || section.class == word_in(line, 2),
            },
            _ => self,
        }
    }
}

fn remark_on_line(alloc: Global, line: u32, cause: LineCause) -> Result<Vec<u8>, AllocError> {
    let mut text = Vec::from_slice(alloc, b"jcard: table line ")?;
    push_number(&mut text, line as usize)?;
    text.extend_from_slice(b", column ")?;
    push_number(&mut text, cause.column)?;
    text.extend_from_slice(b": ")?;
    text.extend_from_slice(cause.why)?;
    if cause.other_line > 0 {
        push_number(&mut text, cause.other_line as usize)?;
    }
    text.extend_from_slice(b"\n")?;
    Ok(text)
}

// Why a packed table is none: its first bad entry has this number, or it is 0.
fn remark_on_packed(alloc: Global, table: &[u8], entry: u16) -> Result<Vec<u8>, AllocError> {
    if table.len() > LARGEST_TEXT {
        return remark_on_all(alloc, table);
    }
    if entry == 0 {
        return Vec::from_slice(alloc, b"jcard: the packed table lacks a name\n");
    }
    let mut text = Vec::from_slice(alloc, b"jcard: entry ")?;
    push_number(&mut text, usize::from(entry))?;
    text.extend_from_slice(b" of the packed table is none that can stand there\n")?;
    Ok(text)
}

// Why a text is no table of which no line is bad: it is too long, or lacks the first with these names.
fn remark_on_all(alloc: Global, text: &[u8]) -> Result<Vec<u8>, AllocError> {
    if text.len() > LARGEST_TEXT {
        return Vec::from_slice(alloc, b"jcard: the table has more than 16384 bytes\n");
    }
    let mut missing = 0u32;
    let mut at = 1u32;
    for part in EXAMPLE.as_bytes().split(is_line_feed) {
        if missing == 0 && is_lacking(text, part, at) {
            missing = at;
        }
        at = at.saturating_add(1);
    }
    if missing == 0 {
        return Ok(Vec::new(alloc));
    }
    remark_on_missing(alloc, missing)
}

// Whether a text lacks what this line of the example says, which has this number there.
fn is_lacking(text: &[u8], line: &[u8], number: u32) -> bool {
    let Some(keyword) = Keyword::of(word_in(line, 0)) else {
        return false;
    };
    let above = above_of(EXAMPLE.as_bytes(), number);
    line_with(
        text,
        u32::MAX,
        keyword,
        word_in(line, keyword.place_of_name()),
        above,
    ) == 0
}

// What the line of the example with this number says is lacking.
fn remark_on_missing(alloc: Global, number: u32) -> Result<Vec<u8>, AllocError> {
    let example = EXAMPLE.as_bytes();
    let mut text = Vec::from_slice(alloc, b"jcard: the table lacks ")?;
    let Some(keyword) = Keyword::of(word_at(example, number, 0)) else {
        return Ok(text);
    };
    text.extend_from_slice(keyword.text())?;
    text.extend_from_slice(b" ")?;
    text.extend_from_slice(word_at(example, number, keyword.place_of_name()))?;
    if keyword.is_of_method() {
        text.extend_from_slice(b" of class ")?;
        text.extend_from_slice(above_of(example, number).class)?;
    }
    text.extend_from_slice(b"\n")?;
    Ok(text)
}

fn is_line_feed(byte: &u8) -> bool {
    *byte == b'\n'
}

fn is_space(byte: &u8) -> bool {
    *byte == b' '
}
