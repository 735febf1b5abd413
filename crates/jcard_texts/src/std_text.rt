//! Texts over the standard library's readers and writers.
ghost use Rattle.std.specs.Prelude.{◌≡◌};

use crate::streams::{ReadFailed, TextIn, TextOut, WriteFailed};
use std::io::{ErrorKind, Read, Write};

/// How often a call that was interrupted is made before it counts as failed.
const TRIES: u32 = 1000;

/// A text over a reader or a writer. A call that is interrupted is made again, up to 1000 times
/// in all; a write that takes nothing fails.
#[derive(Drop)]
pub struct StdText<T> {
    inner: T,
    failures: u64,
}

impl<T> StdText<T> {
    /// A text over this reader or writer, of which no call has failed.
    pub fn new(inner: T) -> Self
        ensures inner { result.inner ≡ inner }
        ensures failures { result.failures ≡ 0 }
    {
        StdText { inner, failures: 0 }
    }
}

impl<T: Read> TextIn for StdText<T> {
    ghost remaining = { λ text. T.remaining text.inner };

    ghost failures = { λ text. text.failures };

    fn read(&mut self, buffer: &mut [u8]) -> Result<usize, ReadFailed> {
        for _ in 0..TRIES {
            match self.inner.read(buffer) {
                Ok(count) => return Ok(count),
                Err(error) => {
                    if error.kind() != ErrorKind::Interrupted {
                        break;
                    }
                }
            }
        }
        self.failures = self.failures.saturating_add(1);
        Err(ReadFailed)
    }
}

impl<T: Write> TextOut for StdText<T> {
    ghost contents = { λ text. T.contents text.inner };

    ghost failures = { λ text. text.failures };

    fn write(&mut self, bytes: &[u8]) -> Result<usize, WriteFailed> {
        for _ in 0..TRIES {
            match self.inner.write(bytes) {
                Ok(0) => break,
                Ok(count) => return Ok(count),
                Err(error) => {
                    if error.kind() != ErrorKind::Interrupted {
                        break;
                    }
                }
            }
        }
        self.failures = self.failures.saturating_add(1);
        Err(WriteFailed)
    }
}
