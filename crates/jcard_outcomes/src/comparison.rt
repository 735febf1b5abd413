//! Rows beside the text that a script printed.
ghost use Rattle.std.specs.Prelude.{◌≡◌, ◌<◌, ◌++◌, ◌∷◌, List, ℕ, MatchOption, length, IfSome};
ghost use Rattle.jcard_outcomes.specs.Comparison.{AreAnswered, IsFirstUnlike, IsLine};

use crate::answers::fits;
use crate::row::Row;

/// The first row that is not answered as it says, by its place, and what was reported in place of that.
#[derive(Clone, Copy, Drop)]
pub struct Unlike<'a> {
    pub row: usize,
    pub told: &'a [u8],
}

/// The first row that is not answered as it says by the lines of this text, of which each answers a row.
pub fn first_unlike<'a>(rows: &[Row], text: &'a [u8]) -> Option<Unlike<'a>>
    ensures told { MatchOption result ((rest : List ℕ) × AreAnswered rows.now text.now rest)
        (λ unlike. IsFirstUnlike rows.now text.now unlike.row unlike.told.now) }
    ensures within { IfSome result (λ unlike. unlike.row < length rows.now) }
{
    let mut rest = text;
    for (place, row) in rows.iter().enumerate() {
        let (told, more) = next_line(rest);
        let Some(more) = more else {
            return Some(Unlike { row: place, told });
        };
        if !fits(row.wanted.as_bytes(), told) {
            return Some(Unlike { row: place, told });
        }
        rest = more;
    }
    None
}

// The first line of a text, and what follows its line feed, if it has one.
fn next_line(text: &[u8]) -> (&[u8], Option<&[u8]>)
    ensures line { IsLine result.0.now }
    ensures rest { MatchOption result.1 (text.now ≡ result.0.now)
        (λ rest. text.now ≡ result.0.now ++ 10 ∷ rest.now) }
{
    match text.iter().position(|byte| *byte == b'\n') {
        Some(end) => (&text[..end], Some(&text[end + 1..])),
        None => (text, None),
    }
}
