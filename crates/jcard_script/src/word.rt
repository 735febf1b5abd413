//! The words that a line may be: `reset`, `stop` with a number, and `glitch` with faults.
ghost use Rattle.std.specs.Prelude.{◌≡◌, ◌++◌, ◌∷◌, ℕ, List, [], IfSome, MatchOption};
ghost use Rattle.std.specs.Str.Lines.{strip_carriage_return};
ghost use Rattle.jcard_script.specs.Script.{form_of, plain_form_of};
ghost use Rattle.jcard_script.specs.Line.{AsksFor};
ghost use Rattle.jcard_script.specs.Word.{IsWordOf, next_number};

use crate::glitch::glitch_asked;
use crate::line::LineRequest;
use arrayvec::ArrayVec;

/// How many bytes a line `stop K` has at least.
const STOP: usize = 6;

/// How many bytes stand before the fault in a line `glitch`.
const GLITCH: usize = 7;

/// What is kept of a line for its words.
#[derive(Drop)]
pub(crate) struct Word {
    // The first 39 bytes, one more than a word has.
    head: ArrayVec<u8, 39>,
    // The number that the bytes after the first five are, while they are a decimal one.
    number: Option<u16>,
}

impl Word {
    pub(crate) fn empty() -> Self
        ensures { IsWordOf result [] }
    {
        Word {
            head: ArrayVec::new(),
            number: Some(0),
        }
    }

    pub(crate) fn clear(&mut self)
        ensures { IsWordOf self.new [] }
    {
        self.head.clear();
        self.number = Some(0);
    }

    /// One more byte.
    pub(crate) fn push(&mut self, byte: u8)
        ensures { (line : List ℕ) → IsWordOf self.old line → IsWordOf self.new (line ++ byte ∷ []) }
    {
        let count = self.head.len();
        let _ = self.head.try_push(byte);
        if count + 1 < STOP {
            return;
        }
        self.number = with_digit(self.number, byte);
    }

    // More bytes.
    fn push_all(&mut self, bytes: &[u8])
        ensures { (line : List ℕ) → IsWordOf self.old line → IsWordOf self.new (line ++ bytes.now) }
    {
        for byte in bytes {
            self.push(*byte);
        }
    }

    /// What a line asks for that is a word, or seems to begin one.
    pub(crate) fn asked<'a>(&self) -> Option<LineRequest<'a>>
        ensures { (line : List ℕ) → IsWordOf self.now line
            → MatchOption result (form_of line ≡ plain_form_of line) (λ asked. AsksFor asked line) }
    {
        let head = self.head.as_slice();
        if head == b"reset".as_slice() {
            return Some(LineRequest::Reset);
        }
        if head.starts_with(b"glitch ") {
            return Some(glitch_asked(&head[GLITCH..]));
        }
        if !head.starts_with(b"stop ") {
            return None;
        }
        if head.len() < STOP {
            return Some(LineRequest::Refused);
        }
        match self.number {
            Some(k) => Some(LineRequest::ArmFuse(k)),
            None => Some(LineRequest::Refused),
        }
    }
}

/// What a line asks for that is a word, or seems to begin one, and that no carriage return ends.
pub(crate) fn word_asked<'a>(line: &[u8]) -> Option<LineRequest<'a>>
    ensures { IfSome result (λ asked. AsksFor asked (strip_carriage_return line.now)) }
{
    if line.is_empty() || line[line.len() - 1] == b'\r' {
        return None;
    }
    let mut word = Word::empty();
    word.push_all(line);
    word.asked()
}

// A number with one more digit.
fn with_digit(number: Option<u16>, byte: u8) -> Option<u16>
    ensures { result ≡ next_number number byte }
{
    let Some(number) = number else {
        return None;
    };
    if !byte.is_ascii_digit() {
        return None;
    }
    let next = 10 * u32::from(number) + u32::from(byte - b'0');
    if next > 65_535 {
        return None;
    }
    Some(next as u16)
}
