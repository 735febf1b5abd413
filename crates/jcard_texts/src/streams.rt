//! Text that comes in and goes out in pieces.
ghost use Rattle.std.specs.Prelude.{◌≡◌, ◌<◌, ◌≤◌, ◌++◌, ℕ, List, Option, length, is_err, MatchResult, IfOk};
ghost use Rattle.std.specs.Io.{ReadsAtMost};
ghost use Rattle.std.specs.Io.KnownBytes.{Appends, ReadConsumes, WriteAppends};
ghost use Rattle.jc_words.specs.Count.{failures_after};
ghost use Rattle.jcard_texts.specs.Texts.{AppendsCut};

use thiserror::Error;

/// A read failed.
#[derive(Clone, Copy, Debug, Error, Drop)]
#[error("a read failed")]
pub struct ReadFailed;

/// A write failed.
#[derive(Clone, Copy, Debug, Error, Drop)]
#[error("a write failed")]
pub struct WriteFailed;

/// Where a text is read from.
pub trait TextIn {
    // the bytes that are left, where they are known
    ghost remaining: { Self → Option (List ℕ) };

    // how many reads failed
    ghost failures: { Self → ℕ };

    /// Puts the next bytes at the front of the buffer, and says how many. None where there is
    /// room for some is the end.
    fn read(&mut self, buffer: &mut [u8]) -> Result<usize, ReadFailed>
        ensures within { ReadsAtMost result buffer.new }
        ensures bytes { ReadConsumes (remaining self.old) (remaining self.new) result buffer.new }
        ensures count { failures self.new ≡ failures_after (failures self.old) (is_err result) };
}

/// Where a text is written to.
pub trait TextOut {
    // the bytes that were written, where they are known
    ghost contents: { Self → Option (List ℕ) };

    // how many writes failed
    ghost failures: { Self → ℕ };

    /// Writes the first of the bytes, one at least, and says how many.
    fn write(&mut self, bytes: &[u8]) -> Result<usize, WriteFailed>
        requires { 0 < length bytes.now }
        ensures some { IfOk result (λ n. 0 < n) }
        ensures within { IfOk result (λ n. n ≤ length bytes.now) }
        ensures bytes { WriteAppends (contents self.old) (contents self.new) result bytes.now }
        ensures count { failures self.new ≡ failures_after (failures self.old) (is_err result) };
}

/// Writes all the bytes, in as many pieces as it takes, and stops at the first write that fails.
pub fn write_all<W: TextOut>(writer: &mut W, bytes: &[u8]) -> Result<(), WriteFailed>
    ensures text { MatchResult result
        (λ _. Appends (W.contents writer.old) (W.contents writer.new) bytes.now)
        (λ _. AppendsCut (W.contents writer.old) (W.contents writer.new) bytes.now) }
    ensures count { W.failures writer.new ≡ failures_after (W.failures writer.old) (is_err result) }
{
    let mut done = 0;
    while done < bytes.len() {
        done += writer.write(&bytes[done..])?;
    }
    Ok(())
}

/// Writes three texts one after another, and stops at the first write that fails.
pub fn write_parts<W: TextOut>(
    writer: &mut W,
    first: &[u8],
    second: &[u8],
    third: &[u8],
) -> Result<(), WriteFailed>
    ensures text { MatchResult result
        (λ _. Appends (W.contents writer.old) (W.contents writer.new)
        (first.now ++ second.now ++ third.now))
        (λ _. AppendsCut (W.contents writer.old) (W.contents writer.new)
        (first.now ++ second.now ++ third.now)) }
    ensures count { W.failures writer.new ≡ failures_after (W.failures writer.old) (is_err result) }
{
    write_all(writer, first)?;
    write_all(writer, second)?;
    write_all(writer, third)
}
