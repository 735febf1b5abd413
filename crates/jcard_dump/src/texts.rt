//! Numbers, references and bytes after a text.
ghost use Rattle.std.specs.Prelude.{◌≡◌, ◌++◌, ◌/◌, ◌%◌, OnOk};
ghost use Rattle.hex.specs.Hex.{encode_upper};
ghost use Rattle.jcard_dump.specs.Texts.{labelled_text, reference_text, short_text, word_text};

use itoa::Buffer;
use jc_objects::class_texts::push_number;
use std::alloc::AllocError;

/// Writes a short in decimal digits, with its sign.
pub(crate) fn push_short(text: &mut Vec<u8>, word: u16) -> Result<(), AllocError>
    ensures { OnOk result (text.new.items ≡ text.old.items ++ short_text word) }
{
    let mut digits = Buffer::new();
    text.extend_from_slice(digits.format(word.cast_signed()).as_bytes())
}

/// Writes a number between two texts.
pub(crate) fn push_labelled(
    text: &mut Vec<u8>,
    before: &[u8],
    number: u16,
    behind: &[u8],
) -> Result<(), AllocError>
    ensures { OnOk result (text.new.items ≡ text.old.items
        ++ labelled_text before.now number behind.now) }
{
    text.extend_from_slice(before)?;
    push_number(text, number)?;
    text.extend_from_slice(behind)
}

/// Writes bytes in hexadecimal.
pub(crate) fn push_hex(text: &mut Vec<u8>, bytes: &[u8]) -> Result<(), AllocError>
    ensures { OnOk result (text.new.items ≡ text.old.items ++ encode_upper bytes.now) }
{
    let digits = hex::encode_upper(*text.allocator(), bytes)?;
    text.extend_from_slice(digits.as_bytes())
}

/// Writes the two bytes of a word in hexadecimal.
pub(crate) fn push_word(text: &mut Vec<u8>, word: u16) -> Result<(), AllocError>
    ensures { OnOk result (text.new.items ≡ text.old.items ++ word_text word) }
{
    let bytes = [(word / 256) as u8, (word % 256) as u8];
    push_hex(text, &bytes)
}

/// Writes a reference: the address of an object, or null.
pub(crate) fn push_reference(text: &mut Vec<u8>, word: u16) -> Result<(), AllocError>
    ensures { OnOk result (text.new.items ≡ text.old.items ++ reference_text word) }
{
    if word == 0 {
        return text.extend_from_slice(b"null");
    }
    push_labelled(text, b"@", word, b"")
}
