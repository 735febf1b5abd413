//! Why a line of a script has no form.
ghost use Rattle.std.specs.Prelude.{◌≡◌, ◌≢◌, ◌<◌, not, length, IfSome, MatchOption};
ghost use Rattle.std.specs.List.{position};
ghost use Rattle.jcard_script.specs.RefusedLine.{fault_at, fault_of, is_of_command};
ghost use Rattle.jcard_script.specs.Script.{Bad, form_of};

use crate::line::{Line, LineRequest};
use arrayvec::ArrayVec;
use jcard_texts::numbers::push_number;
use std::alloc::{AllocError, Global};

/// Why a line has no form.
#[derive(Clone, Copy, Drop)]
pub enum LineFault {
    /// The byte in this column, counted from 1, is no hexadecimal digit.
    NoDigit { column: usize, byte: u8 },
    /// A comment begins in this column, counted from 1, after other bytes.
    CommentBehind { column: usize },
    /// The digits are odd in number.
    OddDigits,
    /// After `stop` stands no number from 0 to 65535.
    NoNumber,
    /// After `glitch` stands no fault.
    NoFault,
}

/// Why a line has no form; nothing, where it has one.
pub fn refusal_of(line: &[u8]) -> Option<LineFault>
    ensures { MatchOption result (form_of line.now ≢ Bad)
        (λ fault. (form_of line.now ≡ Bad) × (fault ≡ fault_of line.now)) }
{
    let mut read = Line::empty();
    let mut room = ArrayVec::new();
    read.push_all(line);
    match read.last(&mut room) {
        LineRequest::Refused => Some(fault_of(line)),
        LineRequest::Nothing => None,
        LineRequest::Exchange(_command) => None,
        LineRequest::Reset => None,
        LineRequest::ArmFuse(_count) => None,
        LineRequest::PlanFault(_fault) => None,
    }
}

/// Why a line has no form, where it has none: the first byte that no command has, else the number of its digits.
pub fn fault_of(line: &[u8]) -> LineFault
    ensures { result ≡ fault_of line.now }
{
    if line.starts_with(b"stop ") {
        return LineFault::NoNumber;
    }
    if line.starts_with(b"glitch ") {
        return LineFault::NoFault;
    }
    fault_at(line, first_other(line))
}

// What is wrong at the first byte that no command has, if there is one.
fn fault_at(line: &[u8], at: Option<usize>) -> LineFault
    requires within { IfSome at (λ i. i < length line.now) }
    ensures { result ≡ fault_at line.now at }
{
    let Some(at) = at else {
        return LineFault::OddDigits;
    };
    let byte = line[at];
    if byte == b'#' {
        return LineFault::CommentBehind { column: at + 1 };
    }
    LineFault::NoDigit {
        column: at + 1,
        byte,
    }
}

// The place of the first byte that no command has.
fn first_other(line: &[u8]) -> Option<usize>
    ensures place { result ≡ position (λ b. not (is_of_command b)) line.now }
    ensures within { IfSome result (λ i. i < length line.now) }
{
    line.iter().position(|byte| !is_of_command(*byte))
}

// A hexadecimal digit or a space.
pub(crate) fn is_of_command(byte: u8) -> bool
    ensures { result ≡ is_of_command byte }
{
    byte == b' ' || byte.is_ascii_hexdigit()
}

/// The text of a remark on a line, counted from 1, that has no form: `jcard: line 3, column 17: 'O' is no hexadecimal digit` and its
/// like, with a line feed.
pub fn remark_of(alloc: Global, line: u32, fault: LineFault) -> Result<Vec<u8>, AllocError> {
    let mut text = Vec::new(alloc);
    text.extend_from_slice(b"jcard: line ")?;
    push_number(&mut text, line as usize)?;
    told_fault(&mut text, fault)?;
    Ok(text)
}

/// Adds what a remark says after the number of the line, with a line feed.
pub fn told_fault(text: &mut Vec<u8>, fault: LineFault) -> Result<(), AllocError> {
    match fault {
        LineFault::NoDigit { column, byte } => {
            push_column(text, column)?;
            push_byte(text, byte)?;
            text.extend_from_slice(b" is no hexadecimal digit\n")
        }
        LineFault::CommentBehind { column } => {
            push_column(text, column)?;
            text.extend_from_slice(b"a comment stands in a line of its own\n")
        }
        LineFault::OddDigits => text.extend_from_slice(b": an odd number of digits\n"),
        LineFault::NoNumber => text.extend_from_slice(b": stop takes a number from 0 to 65535\n"),
        LineFault::NoFault => text.extend_from_slice(
            b": glitch takes a number from 0 to 4294967295 and skip, turn or zero; or none\n",
        ),
    }
}

fn push_column(text: &mut Vec<u8>, column: usize) -> Result<(), AllocError> {
    text.extend_from_slice(b", column ")?;
    push_number(text, column)?;
    text.extend_from_slice(b": ")
}

// A printable byte between quotes, another by its number.
fn push_byte(text: &mut Vec<u8>, byte: u8) -> Result<(), AllocError> {
    if byte > b' ' && byte < 127 {
        return text.extend_from_slice(&[b'\'', byte, b'\'']);
    }
    let digits = [hex_digit(byte / 16), hex_digit(byte % 16)];
    text.extend_from_slice(b"byte ")?;
    text.extend_from_slice(&digits)
}

fn hex_digit(value: u8) -> u8
    requires small { value < 16 }
{
    if value < 10 {
        b'0' + value
    } else {
        b'A' + (value - 10)
    }
}
