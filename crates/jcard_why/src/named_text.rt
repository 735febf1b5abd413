//! The names of a map in what is reported of objects.
ghost use Rattle.std.specs.Prelude.{◌≡◌, ◌++◌, ◌<◌, length, IfOk, IfSome, OnOk};
ghost use Rattle.jcard_why.specs.NamedText.{HasNames, shown};

use crate::naming::Names;
use std::alloc::{AllocError, Global};

/// A text about objects and their cells, with the names that a map has of classes, fields and static fields, each in brackets after
/// what it names. Words of static images are known by the words of the image that is listed, where there are any.
pub fn with_names(
    alloc: Global,
    map: &[u8],
    words: &[u16],
    plain: &[u8],
) -> Result<Vec<u8>, AllocError>
    ensures { IfOk result (λ text. HasNames plain.now text.items) }
{
    let mut text = Vec::new(alloc);
    let mut names = Names::new(alloc, map, words);
    let mut rest = plain;
    while let Some((word, more)) = split_word(rest) {
        let name = names.name_after(word, more)?;
        push_piece(&mut text, word, &name)?;
        rest = more;
    }
    text.extend_from_slice(rest)?;
    Ok(text)
}

// Adds a piece of a text and its name.
fn push_piece(text: &mut Vec<u8>, word: &[u8], name: &[u8]) -> Result<(), AllocError>
    ensures { OnOk result (text.new.items ≡ text.old.items ++ (word.now ++ shown name.now)) }
{
    text.extend_from_slice(word)?;
    if name.is_empty() {
        return Ok(());
    }
    text.extend_from_slice(b" (")?;
    text.extend_from_slice(name)?;
    text.extend_from_slice(b")")
}

// The first word of a text with the blanks and line feeds before it, and what follows; none where no word is left.
fn split_word(text: &[u8]) -> Option<(&[u8], &[u8])>
    ensures parts { IfSome result (λ r. text.now ≡ r.0.now ++ r.1.now) }
    ensures shorter { IfSome result (λ r. length r.1.now < length text.now) }
{
    let first = text.iter().position(|byte| !is_blank(*byte))?;
    let length = text[first..]
        .iter()
        .position(|byte| is_blank(*byte))
        .unwrap_or(text.len() - first);
    let end = first + length;
    if end == 0 || end > text.len() {
        return None;
    }
    Some((&text[..end], &text[end..]))
}

fn is_blank(byte: u8) -> bool {
    byte == b' ' || byte == b'\n'
}
