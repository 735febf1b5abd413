//! What is written to standard error: how far a sweep has come, what commands of a run did, and what is wrong.

use crate::listener::Listener;
use jcard_files::remarks::Remarks;
use jcard_sweeps::progress::Progress;
use jcard_test::timer::Timer;
use std::rt::Clock;
use std::time::Instant;

/// Of this many cuts one is reported.
const EACH: u16 = 128;

/// A line on standard error that says how far a sweep has come; nothing where that is no terminal. Remarks are kept until the last line
/// of standard output is written.
#[derive(Drop)]
pub(crate) struct ProgressLine<'a, R> {
    rt: &'a R,
    is_terminal: bool,
    is_told: bool,
    remarks: Vec<u8>,
    start: Option<Instant>,
}

impl<'a, R: Eprint + AllocGlobal + Clock> ProgressLine<'a, R> {
    /// Nothing is reported yet.
    pub(crate) fn new(rt: &'a R, is_terminal: bool) -> Self {
        ProgressLine {
            rt,
            is_terminal,
            is_told: false,
            remarks: Vec::new(rt.alloc()),
            start: Instant::now(rt).ok(),
        }
    }

    /// Clears the line, if there is one.
    pub(crate) fn clear(&self) {
        if self.is_told {
            let _ = eprint!(self.rt; "{}", "            \r");
        }
    }

    /// Writes the remarks.
    pub(crate) fn write_remarks(&self) {
        if let Ok(text) = str::from_utf8(&self.remarks) {
            let _ = eprint!(self.rt; "{text}");
        }
    }
}

impl<'a, R: Eprint> Progress for ProgressLine<'a, R> {
    // The next line that is written begins where this one does.
    fn tell_cut(&mut self, number: u16) {
        if self.is_terminal && number % EACH == EACH - 1 {
            let _ = eprint!(self.rt; "cut {number}\r");
            self.is_told = true;
        }
    }
}

impl<'a, R: Eprint> Listener for ProgressLine<'a, R> {
    // A text that cannot be written is left out.
    fn tell(&mut self, text: &[u8]) {
        if let Ok(text) = str::from_utf8(text) {
            let _ = eprint!(self.rt; "{text}");
        }
    }
}

impl<'a, R: Eprint> Remarks for ProgressLine<'a, R> {
    // What there is no memory for is left out.
    fn remark(&mut self, text: &[u8]) {
        let _ = self.remarks.extend_from_slice(text);
    }
}

impl<'a, R: Clock> Timer for ProgressLine<'a, R> {
    // 0 where the clock cannot be read.
    fn microseconds(&self) -> u64 {
        let Some(start) = &self.start else {
            return 0;
        };
        match start.elapsed(self.rt) {
            Ok(time) => u64::try_from(time.as_micros()).unwrap_or(u64::MAX),
            Err(_) => 0,
        }
    }
}
