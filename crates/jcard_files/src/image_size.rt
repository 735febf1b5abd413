//! How large a new image is to be.
ghost use Rattle.std.specs.Prelude.{ℕ, ◌≡◌, List, None, IfSome, MatchResult, option_map};
ghost use Rattle.std.specs.Borrow.{Bor};
ghost use Rattle.jcard_files.specs.ImageSize.{IsBufferLength, IsCellCount, IsExtent, IsJournalCapacity, IsNoExtent, IsNumberAmong, IsWordCount};

use crate::extent::Extent;
use crate::fault::Fault;
use jc_image::ImageRoom;
use jc_transient::{BUFFER_CELLS, MOST_BUFFER, MOST_CELLS, USUAL_CELLS};
use jc_words::layout::{LEAST_CAPACITY, LEAST_SIZE, MOST_CAPACITY};

/// How large a new image is to be, in decimal numbers: its words, the entries of its journal, and the cells for the transient objects
/// of each event and the bytes of the APDU buffer, or as many as are usual.
#[derive(Clone, Copy, Drop)]
pub struct ImageSize<'n> {
    pub words: &'n str,
    pub journal: &'n str,
    pub cells: Option<&'n str>,
    pub buffer: Option<&'n str>,
}

/// The extent of an image of this size; `BadWords`, `BadJournal`, `BadTransient` or `BadApdu` where no image has it, in this order.
pub fn extent_of<'n>(size: ImageSize<'n>) -> Result<Extent, Fault<'n>>
    ensures { MatchResult result
        (λ extent. IsExtent size.entry.words.now size.entry.journal.now
        (option_map (λ (text : Bor (List ℕ)). text.now) size.entry.cells)
        (option_map (λ (text : Bor (List ℕ)). text.now) size.entry.buffer) extent)
        (λ fault. IsNoExtent size.entry.words.now size.entry.journal.now
        (option_map (λ (text : Bor (List ℕ)). text.now) size.entry.cells)
        (option_map (λ (text : Bor (List ℕ)). text.now) size.entry.buffer) fault) }
{
    let Some(count) = word_count(size.words) else {
        return Err(Fault::BadWords);
    };
    let Some(capacity) = journal_capacity(size.journal) else {
        return Err(Fault::BadJournal);
    };
    let Some(cells) = cell_count(size.cells) else {
        return Err(Fault::BadTransient);
    };
    let Some(buffer) = buffer_length(size.buffer) else {
        return Err(Fault::BadApdu);
    };
    let room = ImageRoom {
        capacity,
        cells,
        buffer,
    };
    Ok(Extent { count, room })
}

// The number of words that a text spells, if an image can have this many.
fn word_count(text: &str) -> Option<u16>
    ensures some { IfSome result (λ count. IsWordCount text.now count) }
    ensures none { result ≡ None → (count : ℕ) → IsWordCount text.now count → ⊥ }
{
    number_among(text, LEAST_SIZE, u16::MAX)
}

// The number of entries that a text spells, if a journal can have this many.
fn journal_capacity(text: &str) -> Option<u16>
    ensures some { IfSome result (λ capacity. IsJournalCapacity text.now capacity) }
    ensures none { result ≡ None → (capacity : ℕ) → IsJournalCapacity text.now capacity → ⊥ }
{
    number_among(text, LEAST_CAPACITY, MOST_CAPACITY)
}

// The word that says how many cells the transient objects of each event can have: the number that a text spells, if it may be said, and 0
// where there is no text.
fn cell_count(text: Option<&str>) -> Option<u16>
    ensures some { IfSome result (λ cells. IsCellCount
        (option_map (λ (text : Bor (List ℕ)). text.now) text.entry) cells) }
    ensures none { result ≡ None → (cells : ℕ) → IsCellCount
        (option_map (λ (text : Bor (List ℕ)). text.now) text.entry) cells → ⊥ }
{
    match text {
        Some(text) => number_among(text, USUAL_CELLS, MOST_CELLS),
        None => Some(0),
    }
}

// The word that says how many bytes the APDU buffer has: the number that a text spells, if it may be said, and 0 where there is no text.
fn buffer_length(text: Option<&str>) -> Option<u16>
    ensures some { IfSome result (λ buffer. IsBufferLength
        (option_map (λ (text : Bor (List ℕ)). text.now) text.entry) buffer) }
    ensures none { result ≡ None → (buffer : ℕ) → IsBufferLength
        (option_map (λ (text : Bor (List ℕ)). text.now) text.entry) buffer → ⊥ }
{
    match text {
        Some(text) => number_among(text, BUFFER_CELLS, MOST_BUFFER),
        None => Some(0),
    }
}

// The number that a text of decimal digits spells, if it is neither below the least nor above the most.
fn number_among(text: &str, least: u16, most: u16) -> Option<u16>
    ensures some { IfSome result (λ n. IsNumberAmong least most text.now n) }
    ensures none { result ≡ None → (n : ℕ) → IsNumberAmong least most text.now n → ⊥ }
{
    if text.starts_with('+') {
        return None;
    }
    match text.parse::<u16>() {
        Ok(n) if n >= least && n <= most => Some(n),
        _ => None,
    }
}
