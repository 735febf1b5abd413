//! Answers that comments of a script expect.
ghost use Rattle.std.specs.Prelude.{◌≡◌};

use arrayvec::ArrayVec;

/// Compares the answers of a script with those that its comments `# = ANSWER` expect of the line before. Spaces and the case of digits
/// do not count, nor do digits after the first 1018.
#[derive(Drop)]
pub struct Expectations {
    // The first digits of the last answer, without its spaces.
    last: ArrayVec<u8, 1018>,
    // Whether a line has been answered.
    is_answered: bool,
    compared: u32,
    differing: Option<u32>,
}

impl Expectations {
    /// Nothing was answered or compared yet.
    pub fn new() -> Self
        ensures { result.compared ≡ 0 }
    {
        Expectations {
            last: ArrayVec::new(),
            is_answered: false,
            compared: 0,
            differing: None,
        }
    }

    /// The line, counted from 1, of the first comment that expects another answer; nothing, where each that came is as expected.
    pub fn first_difference(&self) -> Option<u32> {
        self.differing
    }

    /// How many answers were compared.
    pub fn compared(&self) -> u32 {
        self.compared
    }

    /// A line was answered so.
    pub(crate) fn answer(&mut self, answer: &[u8]) {
        self.last = without_spaces(answer);
        self.is_answered = true;
    }

    /// A comment came, in this line.
    pub(crate) fn comment(&mut self, line: u32, comment: &[u8]) {
        let Some(due) = comment.strip_prefix(b"# =".as_slice()) else {
            return;
        };
        self.compared = self.compared.saturating_add(1);
        if self.differing.is_none() && !self.is_as_expected(due) {
            self.differing = Some(line);
        }
    }

    // Whether the last answer is this.
    fn is_as_expected(&self, due: &[u8]) -> bool {
        let due: ArrayVec<u8, 1018> = without_spaces(due);
        self.is_answered && due.as_slice() == self.last.as_slice()
    }
}

// A text without its spaces, in upper case.
fn without_spaces(text: &[u8]) -> ArrayVec<u8, 1018> {
    let mut kept = ArrayVec::new();
    for byte in text {
        if *byte != b' ' {
            let _ = kept.try_push(byte.to_ascii_uppercase());
        }
    }
    kept
}
