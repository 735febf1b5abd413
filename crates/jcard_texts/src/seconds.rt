//! Times in seconds.
ghost use Rattle.std.specs.Prelude.{◌≡◌, ◌+◌, ◌%◌, ◌++◌, OnOk};
ghost use Rattle.jcard_texts.specs.Seconds.{micro_digits, seconds_text};

use itoa::Buffer;
use std::alloc::AllocError;

/// Writes microseconds as seconds, with six digits after the point.
pub fn push_seconds(text: &mut Vec<u8>, microseconds: u64) -> Result<(), AllocError>
    ensures { OnOk result (text.new.items ≡ text.old.items ++ seconds_text microseconds) }
{
    let mut digits = Buffer::new();
    text.extend_from_slice(digits.format(microseconds / 1_000_000).as_bytes())?;
    text.extend_from_slice(b".")?;
    text.extend_from_slice(&micro_digits(microseconds))
}

// The last six decimal digits of a number.
fn micro_digits(microseconds: u64) -> [u8; 6]
    ensures { result ≡ micro_digits microseconds }
{
    [
        digit_of(microseconds / 100_000),
        digit_of(microseconds / 10_000),
        digit_of(microseconds / 1_000),
        digit_of(microseconds / 100),
        digit_of(microseconds / 10),
        digit_of(microseconds),
    ]
}

// The last decimal digit of a number.
fn digit_of(number: u64) -> u8
    ensures { result ≡ 48 + number % 10 }
{
    b'0' + (number % 10) as u8
}
