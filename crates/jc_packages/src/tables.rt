//! The platform table of an image.
ghost use Rattle.std.specs.Prelude.{ℕ, ◌≡◌, ◌↔◌, ◌+◌, ◌/◌, ◌<◌, ◌≤◌, IfOk, IsTrue, MatchResult, Ok, length, slice_index};
ghost use Rattle.jc_words.specs.Layout.{text_start};
ghost use Rattle.jc_heap.specs.Image.{table_text, text_byte, text_words};
ghost use Rattle.jc_platform.specs.Table.{Reads};
ghost use Rattle.jc_platform.specs.Tokens.{Tokens};
ghost use Rattle.jc_packages.specs.Tables.{HasTable, HasText, IsNoTable};

use crate::fault::ReadFault;
use jc_image::ImageWords;
use jc_platform::read::{LARGEST_TEXT, read_table};
use jc_platform::table::Table;
use jc_words::layout::{TEXT_LENGTH, TEXT_START};
use std::alloc::{AllocError, Global};

/// The platform table of an image.
pub fn table_of<W: ImageWords>(alloc: Global, image: &W) -> Result<Table, ReadFault>
    ensures { MatchResult result (λ t. HasTable (W.words image.now) t)
        (λ fault. IsNoTable (W.words image.now) fault) }
{
    if !has_text(image) {
        return Err(ReadFault::Damaged);
    }
    if usize::from(image.word(TEXT_LENGTH)) > LARGEST_TEXT {
        return Err(ReadFault::Damaged);
    }
    let text = text_of(alloc, image)?;
    table_in(text.as_slice())
}

/// Whether there are words for a table text as long as the image says.
pub(crate) fn has_text<W: ImageWords>(image: &W) -> bool
    ensures { IsTrue result ↔ HasText (W.words image.now) }
{
    let count = u32::from(image.word_count());
    count >= TEXT_START && TEXT_START + (u32::from(image.word(TEXT_LENGTH)) + 1) / 2 <= count
}

// The platform table of a text. No memory is asked for.
fn table_in(text: &[u8]) -> Result<Table, ReadFault>
    ensures { MatchResult result (λ t. Reads text.now (Ok t)) (λ fault.
        (fault ≡ ReadFault.Damaged) × ((t : Tokens) → Reads text.now (Ok t) → ⊥)) }
{
    match read_table(text) {
        Ok(table) => Ok(table),
        Err(_) => Err(ReadFault::Damaged),
    }
}

// The table text of an image that has its words.
fn text_of<W: ImageWords>(alloc: Global, image: &W) -> Result<Vec<u8>, AllocError>
    requires { HasText (W.words image.now) }
    ensures { IfOk result (λ text. text.items ≡ table_text (W.words image.now)) }
{
    let count = image.word(TEXT_LENGTH);
    let mut text = Vec::with_capacity(alloc, usize::from(count))?;
    for i in 0..count {
        text.push(text_byte(image, i))?;
    }
    Ok(text)
}

/// The words of the table text of an image that has them.
pub(crate) fn text_words_of<W: ImageWords>(alloc: Global, image: &W) -> Result<Vec<u16>, AllocError>
    requires { HasText (W.words image.now) }
    ensures { IfOk result (λ words. words.items ≡ text_words (W.words image.now)) }
{
    let count = text_word_count(image);
    let mut words = Vec::with_capacity(alloc, usize::from(count))?;
    for j in 0..count {
        words.push(text_word(image, j))?;
    }
    Ok(words)
}

/// Whether these are the words of the table text of an image that has them.
pub(crate) fn are_text_words_of<W: ImageWords>(image: &W, words: &[u16]) -> bool
    requires { HasText (W.words image.now) }
    ensures { IsTrue result → words.now ≡ text_words (W.words image.now) }
{
    let count = text_word_count(image);
    if usize::from(count) != words.len() {
        return false;
    }
    agrees_with_text(image, words, count)
}

// Whether the words of the table text are these, of which there are as many.
fn agrees_with_text<W: ImageWords>(image: &W, words: &[u16], count: u16) -> bool
    requires text { HasText (W.words image.now) }
    requires long { length (text_words (W.words image.now)) ≡ count }
    requires many { length words.now ≡ count }
    requires few { count ≤ 32768 }
    ensures { IsTrue result → (j : ℕ) → j < count → slice_index words.now j
        ≡ slice_index (text_words (W.words image.now)) j }
{
    for j in 0..count {
        if text_word(image, j) != words[usize::from(j)] {
            return false;
        }
    }
    true
}

// How many words the table text has.
fn text_word_count<W: ImageWords>(image: &W) -> u16
    requires { HasText (W.words image.now) }
    ensures exact { result ≡ length (text_words (W.words image.now)) }
    ensures few { result ≤ 32768 }
{
    ((u32::from(image.word(TEXT_LENGTH)) + 1) / 2) as u16
}

// A word of the table text.
fn text_word<W: ImageWords>(image: &W, j: u16) -> u16
    requires text { HasText (W.words image.now) }
    requires word { j < length (text_words (W.words image.now)) }
    requires few { j < 32768 }
    ensures { result ≡ slice_index (text_words (W.words image.now)) j }
{
    image.word(TEXT_START as u16 + j)
}

// A byte of the table text.
fn text_byte<W: ImageWords>(image: &W, i: u16) -> u8
    requires { text_start + i / 2 < length (W.words image.now) }
    ensures { result ≡ text_byte (W.words image.now) i }
{
    let word = image.word((TEXT_START + u32::from(i / 2)) as u16);
    if i % 2 == 0 {
        return (word / 256) as u8;
    }
    (word % 256) as u8
}
