//! A text that is kept as it is printed, and when its lines came.
ghost use Rattle.std.specs.Prelude.{◌≡◌, Some, []};

use crate::timer::Timer;
use jcard_sweeps::kept_text::KeptText;
use jcard_texts::streams::{TextOut, WriteFailed};
use std::alloc::Global;

/// What was printed, and how many microseconds after the one before it each line came. Times for which memory was refused lack.
#[derive(Drop)]
pub(crate) struct Printed {
    pub(crate) text: Vec<u8>,
    pub(crate) times: Vec<u64>,
}

/// A text that grows as it is printed.
#[derive(Drop)]
pub(crate) struct TimedText<'t, T: Timer> {
    text: KeptText,
    times: Vec<u64>,
    last: u64,
    timer: &'t T,
}

impl<'t, T: Timer> TimedText<'t, T> {
    /// An empty text.
    pub(crate) fn new(alloc: Global, timer: &'t T) -> Self
        ensures { result.text.bytes.items ≡ [] }
    {
        TimedText {
            text: KeptText::new(alloc),
            times: Vec::new(alloc),
            last: timer.microseconds(),
            timer,
        }
    }

    /// What was printed.
    pub(crate) fn into_printed(self) -> Printed
        ensures { result.text ≡ self.entry.text.bytes }
    {
        Printed {
            text: self.text.into_bytes(),
            times: self.times,
        }
    }

    // Notes the time of each line that ends in these bytes.
    fn note(&mut self, bytes: &[u8])
        ensures { self.new.text ≡ self.old.text }
    {
        for byte in bytes {
            if *byte == b'\n' {
                self.note_line();
            }
        }
    }

    fn note_line(&mut self)
        ensures { self.new.text ≡ self.old.text }
    {
        let now = self.timer.microseconds();
        let _ = self.times.push(now.saturating_sub(self.last));
        self.last = now;
    }
}

impl<'t, T: Timer> TextOut for TimedText<'t, T> {
    ghost contents = { λ timed. Some timed.text.bytes.items };

    ghost failures = { λ timed. timed.text.failures };

    fn write(&mut self, bytes: &[u8]) -> Result<usize, WriteFailed> {
        let written = self.text.write(bytes)?;
        self.note(bytes);
        Ok(written)
    }
}
