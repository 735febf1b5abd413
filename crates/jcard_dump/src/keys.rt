//! The lines of keys.
ghost use Rattle.std.specs.Prelude.{◌≡◌, ◌++◌, codes, decimal, length, MatchOption, OnOk};
ghost use Rattle.jcard_dump.specs.Image.{IsObjectIn, cells_in};
ghost use Rattle.jcard_dump.specs.Keys.{found_text, is_pair_type, key_text, pair_text, set_text, size_text, type_text};

use crate::image::{Image, PlacedObject};
use crate::texts::{push_labelled, push_reference};
use jc_objects::class_texts::push_number;
use jc_objects::keys::{KeyFacts, key_at};
use jc_words::WordStore;
use std::alloc::AllocError;

/// Writes that the bytes of an array are not shown.
pub(crate) fn push_not_shown(text: &mut Vec<u8>) -> Result<(), AllocError>
    ensures { OnOk result (text.new.items ≡ text.old.items ++ codes ": key bytes, not shown") }
{
    text.extend_from_slice(b": key bytes, not shown")?;
    Ok(())
}

/// Writes the fields of a key.
pub(crate) fn push_key<S: WordStore>(
    text: &mut Vec<u8>,
    image: &Image<'_, S>,
    object: PlacedObject,
) -> Result<(), AllocError>
    requires object { IsObjectIn image.now.words object }
    requires cells { length (cells_in image.now.words object) ≡ 2 }
    ensures { OnOk result (text.new.items ≡ text.old.items
        ++ key_text image.now.words (cells_in image.now.words object)) }
{
    let number = image.cell(object, 0);
    let array = image.cell(object, 1);
    text.extend_from_slice(b": type ")?;
    push_type(text, number)?;
    push_found(text, image, number, array)?;
    text.extend_from_slice(b", key ")?;
    push_reference(text, array)
}

// Writes KeyBuilder's name of a type of keys, or its number.
fn push_type(text: &mut Vec<u8>, number: u16) -> Result<(), AllocError>
    ensures { OnOk result (text.new.items ≡ text.old.items ++ type_text number) }
{
    match type_name(number) {
        Some(name) => text.extend_from_slice(name),
        None => push_number(text, number),
    }
}

// KeyBuilder's name of a type of keys.
fn type_name(number: u16) -> Option<&'static [u8]>
    ensures { MatchOption result (type_text number ≡ decimal number)
        (λ name. type_text number ≡ name.now) }
{
    match number {
        1 => Some(b"DES_TRANSIENT_RESET"),
        2 => Some(b"DES_TRANSIENT_DESELECT"),
        3 => Some(b"DES"),
        13 => Some(b"AES_TRANSIENT_RESET"),
        14 => Some(b"AES_TRANSIENT_DESELECT"),
        15 => Some(b"AES"),
        19 => Some(b"HMAC_TRANSIENT_RESET"),
        20 => Some(b"HMAC_TRANSIENT_DESELECT"),
        21 => Some(b"HMAC"),
        _ => pair_type_name(number),
    }
}

// KeyBuilder's name of a type of keys of pairs.
#[tactic(auto, unfolding(crate::specs::Keys::pair_text))]
fn pair_type_name(number: u16) -> Option<&'static [u8]>
    ensures { MatchOption result (pair_text number ≡ decimal number)
        (λ name. pair_text number ≡ name.now) }
{
    match number {
        4 => Some(b"RSA_PUBLIC"),
        5 => Some(b"RSA_PRIVATE"),
        6 => Some(b"RSA_CRT_PRIVATE"),
        11 => Some(b"EC_FP_PUBLIC"),
        12 => Some(b"EC_FP_PRIVATE"),
        22 => Some(b"RSA_PRIVATE_TRANSIENT_RESET"),
        23 => Some(b"RSA_PRIVATE_TRANSIENT_DESELECT"),
        24 => Some(b"RSA_CRT_PRIVATE_TRANSIENT_RESET"),
        25 => Some(b"RSA_CRT_PRIVATE_TRANSIENT_DESELECT"),
        30 => Some(b"EC_FP_PRIVATE_TRANSIENT_RESET"),
        31 => Some(b"EC_FP_PRIVATE_TRANSIENT_DESELECT"),
        _ => None,
    }
}

// Whether the number of a type is that of keys of pairs.
fn is_pair_type(number: u16) -> bool
    ensures { result ≡ is_pair_type number }
{
    (4 <= number && number <= 6)
        || (11 <= number && number <= 12)
        || (22 <= number && number <= 25)
        || (30 <= number && number <= 31)
}

// Writes how many bits a key of a type has, and whether it is set; nothing of a key of a pair.
fn push_found<S: WordStore>(
    text: &mut Vec<u8>,
    image: &Image<'_, S>,
    number: u16,
    array: u16,
) -> Result<(), AllocError>
    ensures { OnOk result (text.new.items ≡ text.old.items
        ++ found_text image.now.words number array) }
{
    if is_pair_type(number) {
        return Ok(());
    }
    push_size(text, key_at(image.store(), array))
}

// Writes how many bits a key has, and whether it is set.
fn push_size(text: &mut Vec<u8>, found: Option<KeyFacts>) -> Result<(), AllocError>
    ensures { OnOk result (text.new.items ≡ text.old.items ++ size_text found) }
{
    let Some(key) = found else {
        return Ok(());
    };
    push_labelled(text, b", ", key.size, b" bits")?;
    push_set(text, key.is_set)
}

fn push_set(text: &mut Vec<u8>, is_set: bool) -> Result<(), AllocError>
    ensures { OnOk result (text.new.items ≡ text.old.items ++ set_text is_set) }
{
    if is_set {
        return text.extend_from_slice(b", set");
    }
    text.extend_from_slice(b", not set")
}
