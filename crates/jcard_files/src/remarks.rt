//! What is reported besides the last line: what is wrong, and where.

/// Somebody who is shown, besides the last line, what is wrong and where. No result depends on it.
pub trait Remarks {
    /// Whole lines: what is wrong, and where.
    fn remark(&mut self, text: &[u8]);
}

/// Nobody is shown them.
#[derive(Clone, Copy, Drop)]
pub struct Unremarked;

impl Remarks for Unremarked {
    fn remark(&mut self, _text: &[u8]) {}
}
