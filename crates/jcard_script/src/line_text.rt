//! What is kept of a line for who is shown it.

use crate::refused_line::{LineFault, is_of_command};
use arrayvec::ArrayVec;

/// How many bytes of a line are kept at most.
const BEGINNING: usize = 1024;

/// What is kept of a line for who is shown it. No answer depends on it.
#[derive(Drop)]
pub(crate) struct LineText {
    // The first bytes.
    beginning: ArrayVec<u8, BEGINNING>,
    // How many bytes came.
    length: usize,
    // The first byte that no command has, and its column.
    stranger: Option<(usize, u8)>,
}

impl LineText {
    pub(crate) fn empty() -> Self {
        LineText {
            beginning: ArrayVec::new(),
            length: 0,
            stranger: None,
        }
    }

    pub(crate) fn clear(&mut self) {
        self.beginning.clear();
        self.length = 0;
        self.stranger = None;
    }

    /// One more byte.
    pub(crate) fn push(&mut self, byte: u8) {
        let _ = self.beginning.try_push(byte);
        self.length = self.length.saturating_add(1);
        if self.stranger.is_none() && !is_of_command(byte) {
            self.stranger = Some((self.length, byte));
        }
    }

    /// The first 1024 bytes at most.
    pub(crate) fn beginning(&self) -> &[u8] {
        self.beginning.as_slice()
    }

    /// Why the line has no form, where it has none.
    pub(crate) fn fault(&self) -> LineFault {
        if self.beginning().starts_with(b"stop ") {
            return LineFault::NoNumber;
        }
        if self.beginning().starts_with(b"glitch ") {
            return LineFault::NoFault;
        }
        let Some((column, byte)) = self.stranger else {
            return LineFault::OddDigits;
        };
        if byte == b'#' {
            return LineFault::CommentBehind { column };
        }
        LineFault::NoDigit { column, byte }
    }
}
