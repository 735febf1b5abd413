//! Static images: where their words stand, and what these hold.
ghost use Rattle.std.specs.Prelude.{◌≡◌, ◌<◌, ◌≤◌, false, length, IfSome};
ghost use Rattle.std.specs.Option.{option_map};
ghost use Rattle.jc_heap.specs.Component.{record_of};
ghost use Rattle.jc_instructions.specs.StaticImages.{record_at, image_word, next_word, place_of, word_value, byte_of, with_byte, image_byte, image_pair};
ghost use Rattle.jc_instructions.specs.StaticImages.{IsImageWord};

use jc_heap::{Heap, Place};
use jc_memory::Memory;
use jc_transient::Ref;
use jc_words::WordStore;

/// A word of a package's static image.
#[derive(Clone, Copy)]
pub struct ImageWord {
    /// The package's record.
    pub owner: Ref,
    /// Where the word stands in it.
    pub offset: u16,
}

// The record of the package with this number.
#[tactic(auto, unfolding(crate::specs::StaticImages::record_at))]
fn record_at<S: WordStore>(memory: &Memory<S>, number: u8) -> Option<Ref>
    requires { memory.now.heap.down ≡ false }
    ensures exact { result ≡ record_at memory.now.heap.now number }
    ensures begun { IfSome result (λ r. 0 < length (record_of memory.now.heap.now r)) }
{
    if number == 0 {
        return None;
    }
    let place = u16::from(number - 1);
    if place >= memory.heap().packages() {
        return None;
    }
    Some(memory.package_address(place))
}

/// The word of a package's static image with this number, from 0.
#[tactic(auto, unfolding(crate::specs::StaticImages::image_word))]
pub(crate) fn image_word<S: WordStore>(
    memory: &Memory<S>,
    package_number: u8,
    number: u16,
) -> Option<ImageWord>
    requires { memory.now.heap.down ≡ false }
    ensures exact { result ≡ image_word memory.now.heap.now package_number number }
    ensures there { IfSome result (IsImageWord memory.now.heap.now) }
{
    let owner = record_at(memory, package_number)?;
    let heap = memory.heap();
    let begin = memory.statics(package_number, owner)?;
    let offset = u32::from(begin) + u32::from(number);
    if offset >= u32::from(heap.record_length(owner)) {
        return None;
    }
    let offset = offset as u16;
    Some(ImageWord { owner, offset })
}

/// What it holds.
pub(crate) fn word_value<S: WordStore>(heap: &Heap<S>, word: &ImageWord) -> u16
    requires up { heap.now.down ≡ false }
    requires there { IsImageWord heap.now.now word.now }
    ensures { result ≡ word_value heap.now.now word.now }
{
    heap.record_word(word.owner, word.offset)
}

/// The word after it; none past the image's end.
#[tactic(auto, using(crate::proofs::Behind::is_static_behind))]
pub(crate) fn next_word<S: WordStore>(heap: &Heap<S>, word: &ImageWord) -> Option<ImageWord>
    requires up { heap.now.down ≡ false }
    requires there { IsImageWord heap.now.now word.now }
    ensures exact { result ≡ next_word heap.now.now word.now }
    ensures there { IfSome result (IsImageWord heap.now.now) }
{
    let owner = word.owner;
    let length = heap.record_length(owner);
    if u32::from(word.offset) + 1 >= u32::from(length) {
        return None;
    }
    let offset = word.offset + 1;
    Some(ImageWord { owner, offset })
}

/// Its place.
pub(crate) fn place_of(word: &ImageWord) -> Place
    ensures { result ≡ place_of word.now }
{
    Place::Static(word.owner, word.offset)
}

// A byte of a word: the high one at an even offset.
fn byte_of(word: u16, offset: u32) -> u8
    ensures { result ≡ byte_of word offset }
{
    if offset % 2 == 0 {
        (word / 256) as u8
    } else {
        (word % 256) as u8
    }
}

/// A word with another byte there.
pub(crate) fn with_byte(word: u16, offset: u32, byte: u8) -> u16
    ensures { result ≡ with_byte word offset byte }
{
    if offset % 2 == 0 {
        256 * u16::from(byte) + word % 256
    } else {
        256 * (word / 256) + u16::from(byte)
    }
}

/// The byte at an offset of a package's static image.
#[tactic(auto, unfolding(crate::specs::StaticImages::image_byte))]
pub(crate) fn image_byte<S: WordStore>(
    memory: &Memory<S>,
    package_number: u8,
    offset: u32,
) -> Option<u8>
    requires up { memory.now.heap.down ≡ false }
    requires offset { offset ≤ 65536 }
    ensures { result ≡ image_byte memory.now.heap.now package_number offset }
{
    let word = image_word(memory, package_number, (offset / 2) as u16)?;
    Some(byte_of(word_value(memory.heap(), &word), offset))
}

// What a word of a package's static image holds, by its number.
fn image_whole<S: WordStore>(memory: &Memory<S>, package_number: u8, number: u16) -> Option<u16>
    requires { memory.now.heap.down ≡ false }
    ensures { result ≡ option_map (word_value memory.now.heap.now)
        (image_word memory.now.heap.now package_number number) }
{
    let word = image_word(memory, package_number, number)?;
    Some(word_value(memory.heap(), &word))
}

// The word whose two bytes stand from an offset on, byte by byte.
#[tactic(auto, unfolding(crate::specs::StaticImages::image_pair))]
#[inline(never)]
fn split_pair<S: WordStore>(memory: &Memory<S>, package_number: u8, offset: u16) -> Option<u16>
    requires { memory.now.heap.down ≡ false }
    ensures { result ≡ image_pair memory.now.heap.now package_number offset }
{
    let high = image_byte(memory, package_number, u32::from(offset))?;
    let low = image_byte(memory, package_number, u32::from(offset) + 1)?;
    Some(u16::from(high) * 256 + u16::from(low))
}

/// The word whose two bytes stand from an offset on: at an even one they are a word of the image.
#[tactic(auto, using(crate::proofs::Pairs::even_pair))]
pub(crate) fn image_pair<S: WordStore>(
    memory: &Memory<S>,
    package_number: u8,
    offset: u16,
) -> Option<u16>
    requires { memory.now.heap.down ≡ false }
    ensures { result ≡ image_pair memory.now.heap.now package_number offset }
{
    if offset % 2 == 0 {
        return image_whole(memory, package_number, offset / 2);
    }
    split_pair(memory, package_number, offset)
}
