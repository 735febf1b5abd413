//! Where the heap of an image lies.
ghost use Rattle.std.specs.Prelude.{◌≡◌, ◌≤◌, length};
ghost use Rattle.jc_words.specs.Image.{HasSize};
ghost use Rattle.jc_words.specs.Layout.{text_start};
ghost use Rattle.jc_commit.specs.Image.{limit_of};
ghost use Rattle.jc_objects.specs.Bounds.{first_record, has_bounds};

use jc_image::ImageWords;
use jc_words::layout::{TEXT_LENGTH, TEXT_START, TOP};
use jc_words::{Log, WordStore};

/// Where a heap ends at the latest: at the end of the words, or where the journal begins.
pub fn heap_end<S: WordStore>(store: &S) -> u16
    requires { HasSize (S.words store.now) }
    ensures { result ≡ limit_of (S.words store.now) }
{
    Log::of(store).heap_end(store.size())
}

/// The first word after the table text.
pub fn first_record<W: ImageWords>(words: &W) -> u32
    requires { text_start ≤ length (W.words words.now) }
    ensures { result ≡ first_record (W.words words.now) }
{
    TEXT_START + (u32::from(words.word(TEXT_LENGTH)) + 1) / 2
}

/// Whether the heap lies between the table text and where a heap ends at the latest.
pub fn has_bounds<S: WordStore>(store: &S) -> bool
    requires { HasSize (S.words store.now) }
    ensures { result ≡ has_bounds (S.words store.now) }
{
    let top = store.read(TOP);
    first_record(store) <= u32::from(top) && top <= heap_end(store)
}
