//! Texts in memory.
ghost use Rattle.std.specs.Prelude.{◌≡◌, ◌<◌, ◌≤◌, [], Some, length, is_err, IfOk, IsOk, OnErr, vec_len, vec_capacity};
ghost use Rattle.std.specs.Io.{ReadsAtMost};
ghost use Rattle.std.specs.Io.KnownBytes.{ReadConsumes, WriteAppends};
ghost use Rattle.jc_words.specs.Count.{failures_after};

use crate::streams::{ReadFailed, TextIn, TextOut, WriteFailed};
use std::alloc::{AllocError, Global};

/// A text that is read from memory, and room for a text that is written.
#[derive(Drop)]
pub struct MemText<'a> {
    input: &'a [u8],
    output: Vec<u8>,
    failures: u64,
}

impl<'a> MemText<'a> {
    /// Gives these bytes, and has room for this many that are written.
    pub fn new(alloc: Global, input: &'a [u8], room: usize) -> Result<Self, AllocError>
        ensures input { IfOk result (λ text. text.input.now ≡ input.now) }
        ensures output { IfOk result (λ text. text.output.items ≡ []) }
        ensures room { IfOk result (λ text. vec_capacity text.output ≡ room) }
        ensures failures { IfOk result (λ text. text.failures ≡ 0) }
    {
        let output = Vec::with_capacity(alloc, room)?;
        Ok(MemText {
            input,
            output,
            failures: 0,
        })
    }

    /// What was written.
    pub fn written(&self) -> &[u8]
        ensures { result.now ≡ self.now.output.items }
    {
        self.output.as_slice()
    }
}

impl<'a> TextIn for MemText<'a> {
    ghost remaining = { λ text. Some text.input.now };

    ghost failures = { λ text. text.failures };

    fn read(&mut self, buffer: &mut [u8]) -> Result<usize, ReadFailed>
        ensures within { ReadsAtMost result buffer.new }
        ensures bytes { ReadConsumes (Some self.old.input.now)
            (Some self.new.input.now) result buffer.new }
        ensures count { self.new.failures ≡ failures_after self.old.failures (is_err result) }
        ensures never_fails { IsOk result }
    {
        let count = self.input.len().min(buffer.len());
        buffer[..count].copy_from_slice(&self.input[..count]);
        self.input = &self.input[count..];
        Ok(count)
    }
}

impl<'a> TextOut for MemText<'a> {
    ghost contents = { λ text. Some text.output.items };

    ghost failures = { λ text. text.failures };

    fn write(&mut self, bytes: &[u8]) -> Result<usize, WriteFailed>
        requires { 0 < length bytes.now }
        ensures some { IfOk result (λ n. 0 < n) }
        ensures within { IfOk result (λ n. n ≤ length bytes.now) }
        ensures bytes { WriteAppends (Some self.old.output.items)
            (Some self.new.output.items) result bytes.now }
        ensures count { self.new.failures ≡ failures_after self.old.failures (is_err result) }
        ensures full { OnErr result (vec_capacity self.old.output ≤ vec_len self.old.output) }
    {
        let room = self.output.capacity() - self.output.len();
        let count = room.min(bytes.len());
        if count > 0 && self.output.extend_from_slice(&bytes[..count]).is_ok() {
            return Ok(count);
        }
        self.failures = self.failures.saturating_add(1);
        Err(WriteFailed)
    }
}
