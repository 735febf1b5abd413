//! Which name of a map belongs after a word of what is reported of objects.

use crate::maps::{cut_once, number_of};
use crate::records::image_with;
use crate::sources::{Member, class_numbered, field_at, static_from};
use crate::text::Text;
use std::alloc::{AllocError, Global};

// A class of a package that was loaded.
#[derive(Clone, Copy, Drop)]
struct Class<'a> {
    aid: &'a [u8],
    number: u32,
}

// What the words before said.
#[derive(Clone, Copy, Drop)]
enum Place<'a> {
    // A line begins.
    Line,
    // `word`.
    Word,
    // `package`.
    Package,
    // `package N`, after which its AID stands.
    Numbered(u32),
    // `package N:`, after which its record stands.
    Record(u32),
    // The word of a static image with this number, from 0.
    Static(u32, u32),
    // `@R`.
    Object,
    // `@R CLASS`.
    OfClass(Class<'a>),
    // `@R CLASS of ..`, up to its cells.
    Listed(Class<'a>),
    // The cell of an instance with this number.
    Cell(Class<'a>, u32),
    // None of these.
    Other,
}

/// The names of a map, and what was reported so far.
#[derive(Drop)]
pub(crate) struct Names<'a> {
    alloc: Global,
    map: &'a [u8],
    // The words of the image, where they are given.
    words: &'a [u16],
    place: Place<'a>,
    // The AIDs of packages, by their numbers from 1.
    packages: Vec<&'a [u8]>,
}

impl<'a> Names<'a> {
    /// Nothing was reported yet.
    pub(crate) fn new(alloc: Global, map: &'a [u8], words: &'a [u16]) -> Names<'a> {
        Names {
            alloc,
            map,
            words,
            place: Place::Line,
            packages: Vec::new(alloc),
        }
    }

    /// The name that belongs after the next word, which blanks may begin, before the rest of the text; empty where none does.
    pub(crate) fn name_after(
        &mut self,
        word: &'a [u8],
        rest: &[u8],
    ) -> Result<Vec<u8>, AllocError> {
        let mut text = Text::new(self.alloc);
        if word.contains(&b'\n') {
            self.place = Place::Line;
        }
        self.take(bare(word), rest, &mut text)?;
        text.into_bytes()
    }

    fn take(&mut self, word: &'a [u8], rest: &[u8], text: &mut Text) -> Result<(), AllocError> {
        match self.place {
            Place::Cell(class, cell) => {
                self.place = Place::Cell(class, cell.saturating_add(1));
                self.push_field(text, class, cell);
            }
            Place::Static(package, number) => {
                self.place = Place::Static(package, number.saturating_add(1));
                self.push_statics(text, package, number);
            }
            Place::OfClass(class) => self.take_after_class(class, word, text),
            Place::Word => self.take_address(word, text)?,
            Place::Object => self.take_class(word, rest, text),
            place => self.place = self.place_after(place, word)?,
        }
        Ok(())
    }

    // Where the words stand after one that has no name.
    fn place_after(&mut self, place: Place<'a>, word: &'a [u8]) -> Result<Place<'a>, AllocError> {
        if is_object(word) {
            return Ok(Place::Object);
        }
        if word == b"word".as_slice() {
            return Ok(Place::Word);
        }
        if let Place::Numbered(number) = place {
            self.keep(number, word)?;
            return Ok(Place::Other);
        }
        Ok(plain_place_after(place, word))
    }

    // Keeps the AID of the package with a number.
    fn keep(&mut self, number: u32, aid: &'a [u8]) -> Result<(), AllocError> {
        for _package in self.packages.len()..number.min(255) as usize {
            push(&mut self.packages, b"".as_slice())?;
        }
        if let Some(place) = self.packages.get_mut(index_of(number)) {
            *place = aid;
        }
        Ok(())
    }

    // The class of an object; its name stands there, where no cell follows.
    fn take_class(&mut self, word: &'a [u8], rest: &[u8], text: &mut Text) {
        let Some(class) = class_of(word) else {
            self.place = Place::Other;
            return;
        };
        self.place = Place::OfClass(class);
        if rest.starts_with(b" [") {
            return;
        }
        if let Some(found) = class_numbered(self.map, class.aid, class.number) {
            text.push(found.name);
        }
    }

    fn take_after_class(&mut self, class: Class<'a>, word: &'a [u8], text: &mut Text) {
        self.place = Place::Other;
        if let Some(cell) = cell_of(word) {
            self.push_field(text, class, cell);
            return;
        }
        if word == b"of".as_slice() {
            self.place = Place::Listed(class);
        }
    }

    fn push_field(&self, text: &mut Text, class: Class<'a>, cell: u32) {
        if let Some(member) = field_at(self.map, class.aid, class.number, cell) {
            push_member(text, member);
        }
    }

    // The address of a word, which may stand in a static image.
    fn take_address(&mut self, word: &[u8], text: &mut Text) -> Result<(), AllocError> {
        self.place = Place::Other;
        let Some(address) = number_of(word) else {
            return Ok(());
        };
        let address = address as usize;
        if let Some(image) = image_with(self.alloc, self.words, address)? {
            let number = u32::try_from(address.saturating_sub(image.start)).unwrap_or(u32::MAX);
            self.push_word(text, &image.aid, number);
        }
        Ok(())
    }

    fn push_statics(&self, text: &mut Text, package: u32, number: u32) {
        if let Some(aid) = self.packages.get(index_of(package)).copied() {
            self.push_word(text, aid, number);
        }
    }

    // The static fields in a word of the image of a package: one, or two of a byte each.
    fn push_word(&self, text: &mut Text, aid: &[u8], number: u32) {
        let first = number.saturating_mul(2);
        let end = first.saturating_add(2);
        let Some(member) = static_from(self.map, aid, first) else {
            return;
        };
        if member.at >= end {
            return;
        }
        push_member(text, member);
        if let Some(other) = static_from(self.map, aid, member.at.saturating_add(1)) {
            if other.at < end {
                text.push(b", ");
                push_member(text, other);
            }
        }
    }
}

// Where the words stand after one that is neither an object nor `word`, nor kept.
fn plain_place_after<'a>(place: Place<'a>, word: &[u8]) -> Place<'a> {
    match place {
        Place::Line => place_in_line(word),
        Place::Package => numbered(word),
        Place::Record(number) if word == b"image".as_slice() => Place::Static(number, 0),
        Place::Record(number) => Place::Record(number),
        Place::Listed(class) if word.ends_with(b":") => Place::Cell(class, 0),
        Place::Listed(class) => Place::Listed(class),
        _ => Place::Other,
    }
}

// Where they stand after the first word of a line.
fn place_in_line<'a>(word: &[u8]) -> Place<'a> {
    match word {
        b"package" => Place::Package,
        b"+" | b"-" => Place::Line,
        _ => Place::Other,
    }
}

fn push_member(text: &mut Text, member: Member<'_>) {
    text.push(member.class);
    text.push(b".");
    text.push(member.field.name);
}

fn push<T: Copy>(items: &mut Vec<T>, item: T) -> Result<(), AllocError> {
    items.push(item)?;
    Ok(())
}

const fn index_of(number: u32) -> usize {
    number.saturating_sub(1) as usize
}

// A word without the blanks and line feeds before it.
fn bare(word: &[u8]) -> &[u8] {
    match word.iter().position(|byte| *byte != b' ' && *byte != b'\n') {
        Some(at) => &word[at..],
        None => b"",
    }
}

// `N` or `N:`, after `package`.
fn numbered<'a>(word: &[u8]) -> Place<'a> {
    if let Some(digits) = word.strip_suffix(b":".as_slice()) {
        return match number_of(digits) {
            Some(number) => Place::Record(number),
            None => Place::Other,
        };
    }
    match number_of(word) {
        Some(number) => Place::Numbered(number),
        None => Place::Other,
    }
}

// `@R`.
fn is_object(word: &[u8]) -> bool {
    match word.strip_prefix(b"@".as_slice()) {
        Some(digits) => number_of(digits).is_some(),
        None => false,
    }
}

// `AID.N`, the class of record N of a package.
fn class_of(word: &[u8]) -> Option<Class<'_>> {
    let (aid, number) = cut_once(word, b'.')?;
    Some(Class {
        aid,
        number: number_of(number)?,
    })
}

// `[I]`.
fn cell_of(word: &[u8]) -> Option<u32> {
    number_of(
        word.strip_prefix(b"[".as_slice())?
            .strip_suffix(b"]".as_slice())?,
    )
}
