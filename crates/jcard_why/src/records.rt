//! Where the static images of packages stand in the words of an image.
ghost use Rattle.std.specs.Prelude.{◌<◌};

use crate::text::Text;
use std::alloc::{AllocError, Global};

/// The word that says how many packages there are, and the first of those with their addresses.
const PACKAGES: usize = 6;

const ADDRESSES: usize = 528;

const MOST_PACKAGES: usize = 32;

/// The most components of a record.
const MOST_COMPONENTS: usize = 12;

/// The tag of the Header component, and where in its info the length of the package's AID stands.
const HEADER: u16 = 1;

const AID_LENGTH: usize = 9;

/// The static image of a package: its AID in hexadecimal digits, and the address of its first word.
#[derive(Drop)]
pub(crate) struct ImagePlace {
    pub(crate) aid: Vec<u8>,
    pub(crate) start: usize,
}

/// The package whose record has a word at this address in its static image, or before it. The record of another package follows it.
pub(crate) fn image_with(
    alloc: Global,
    words: &[u16],
    address: usize,
) -> Result<Option<ImagePlace>, AllocError> {
    for number in 0..MOST_PACKAGES.min(usize::from(word_at(words, PACKAGES))) {
        let base = usize::from(word_at(words, ADDRESSES + number));
        let end = base + usize::from(word_at(words, base));
        if base <= address && address < end {
            return image_of(alloc, words, base, address);
        }
    }
    Ok(None)
}

// The static image of the record at an address, where the word at another one stands in it.
fn image_of(
    alloc: Global,
    words: &[u16],
    base: usize,
    address: usize,
) -> Result<Option<ImagePlace>, AllocError>
    requires small { base < 65536 }
{
    let mut aid = Vec::new(alloc);
    let mut at = base + 1;
    for _component in 0..MOST_COMPONENTS {
        let tag = word_at(words, at);
        if tag == 0 || at > 65_535 {
            break;
        }
        if tag == HEADER {
            aid = aid_at(alloc, words, at + 2)?;
        }
        at += 2 + usize::from(word_at(words, at + 1)).div_ceil(2);
    }
    let start = at.saturating_add(1);
    if start <= address {
        return Ok(Some(ImagePlace { aid, start }));
    }
    Ok(None)
}

// The AID in the info of a Header component that begins at an address.
fn aid_at(alloc: Global, words: &[u16], info: usize) -> Result<Vec<u8>, AllocError>
    requires small { info < 1000000 }
{
    let mut text = Text::new(alloc);
    for number in 0..usize::from(byte_at(words, info, AID_LENGTH)).min(16) {
        text.push_hex(&[byte_at(words, info, AID_LENGTH + 1 + number)]);
    }
    text.into_bytes()
}

// A byte of the words from an address on, two in a word, the high one first.
fn byte_at(words: &[u16], start: usize, number: usize) -> u8
    requires start { start < 1000000 }
    requires number { number < 1000000 }
{
    let [high, low] = word_at(words, start + number / 2).to_be_bytes();
    if number % 2 == 0 { high } else { low }
}

// A word; 0 past the end.
fn word_at(words: &[u16], address: usize) -> u16 {
    words.get(address).copied().unwrap_or(0)
}
