//! A text that grows in memory as it is written.
ghost use Rattle.std.specs.Prelude.{◌≡◌, ◌<◌, Some, []};

use jcard_texts::streams::{TextOut, WriteFailed};
use std::alloc::Global;

/// A text that grows as it is written. A write fails where memory is refused.
#[derive(Drop)]
pub struct KeptText {
    bytes: Vec<u8>,
    failures: u64,
}

impl KeptText {
    /// An empty text.
    pub fn new(alloc: Global) -> Self
        ensures bytes { result.bytes.items ≡ [] }
    {
        KeptText {
            bytes: Vec::new(alloc),
            failures: 0,
        }
    }

    /// What was written.
    pub fn into_bytes(self) -> Vec<u8>
        ensures { result ≡ self.bytes }
    {
        self.bytes
    }
}

impl TextOut for KeptText {
    ghost contents = { λ text. Some text.bytes.items };

    ghost failures = { λ text. text.failures };

    fn write(&mut self, bytes: &[u8]) -> Result<usize, WriteFailed> {
        if self.bytes.extend_from_slice(bytes).is_ok() {
            return Ok(bytes.len());
        }
        self.failures = self.failures.saturating_add(1);
        Err(WriteFailed)
    }
}
