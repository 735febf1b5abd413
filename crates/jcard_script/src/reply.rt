//! What is written for a line.
ghost use Rattle.std.specs.Prelude.{◌≡◌, ◌<◌, ◌≤◌, ◌*◌, Some, length, is_err, MatchResult};
ghost use Rattle.std.specs.Io.KnownBytes.{Appends};
ghost use Rattle.hex.specs.Hex.{encode_upper, encode_with};
ghost use Rattle.jc_words.specs.Count.{failures_after};
ghost use Rattle.jcard_texts.specs.Texts.{AppendsCut};
ghost use Rattle.jcard_script.specs.Script.{text_of, armed_text, faults_text, planned_text, second_text};
ghost use Rattle.jcard_script.specs.Reply.{text_for_line};

use crate::glitch::model_word;
use itoa::Buffer;
use jc_card::planned_fault::{PlannedFault, SecondFault};
use jc_card::response::Response;
use jc_interp::attacks::FaultModel;
use jcard_texts::streams::{TextOut, WriteFailed, write_all, write_parts};

/// What is to be written for a line.
#[derive(Clone, Copy, Drop)]
pub(crate) enum Reply {
    /// Nothing.
    Silent,
    /// The card's response.
    Answer,
    /// The card is powered up.
    Ready,
    /// The store is down.
    Down,
    /// The fuse lets this many writes pass.
    Armed(u16),
    /// This fault comes in each command from now on, or none.
    Planned(Option<PlannedFault>),
}

/// The status word of a response.
pub(crate) fn status_of(response: &Response) -> Option<u16> {
    let bytes = response.as_bytes();
    let high = bytes.get(bytes.len().checked_sub(2)?)?;
    Some(u16::from_be_bytes([*high, *bytes.last()?]))
}

/// The most bytes of the text of a reply that are compared.
pub(crate) const MOST_TEXT: usize = 1018;

// How many bytes of a response are written at once.
const AT_ONCE: usize = 258;

// How many bytes the response to most commands has at most.
const FEW: usize = 16;

// The sixteen digits, with upper case letters.
const UPPER_DIGITS: &[u8; 16] = b"0123456789ABCDEF";

/// The text of a reply without its line feed, as much as the room has place for, at its front; nothing for a silent one.
pub(crate) fn reply_text<'a>(
    reply: Reply,
    response: &Response,
    room: &'a mut [u8; 1018],
) -> &'a [u8] {
    match reply {
        Reply::Silent => b"",
        Reply::Answer => {
            let bytes = response.as_bytes();
            let bytes = &bytes[..bytes.len().min(MOST_TEXT / 2)];
            let end = 2 * bytes.len();
            encode(bytes, &mut room[..end]);
            &room[..end]
        }
        Reply::Ready => b"ready",
        Reply::Down => b"down",
        Reply::Armed(k) => armed_bytes(k, room),
        Reply::Planned(None) => b"planned none",
        Reply::Planned(Some(fault)) => planned_bytes(fault, room),
    }
}

// `planned`, and a number and a model of each fault.
fn planned_bytes(fault: PlannedFault, room: &mut [u8; 1018]) -> &[u8] {
    let mut end = put(room, 0, b"planned ");
    end = put_fault(room, end, fault.instruction, fault.model);
    if let Some(second) = fault.second {
        end = put(room, end, b" ");
        end = put_fault(room, end, second.number, second.model);
    }
    &room[..end]
}

// Puts a number and a model into the room from a place on: the place after them.
fn put_fault(room: &mut [u8; 1018], at: usize, number: u32, model: FaultModel) -> usize
    requires { at ≤ 1018 }
    ensures { result ≤ 1018 }
{
    let mut digits = Buffer::new();
    let end = put(room, at, digits.format(number).as_bytes());
    put(room, end, model_word(model))
}

// Puts as much of a text into the room as fits there from a place on: the place after it.
fn put(room: &mut [u8; 1018], at: usize, text: &[u8]) -> usize
    requires { at ≤ 1018 }
    ensures { result ≤ 1018 }
{
    let count = text.len().min(MOST_TEXT - at);
    room[at..at + count].copy_from_slice(&text[..count]);
    at + count
}

// `armed` and a number.
fn armed_bytes(k: u16, room: &mut [u8; 1018]) -> &[u8] {
    let mut digits = Buffer::new();
    let number = digits.format(k).as_bytes();
    room[..6].copy_from_slice(b"armed ");
    let count = number.len().min(5);
    room[6..6 + count].copy_from_slice(&number[..count]);
    &room[..6 + count]
}

/// Writes a reply as its line of text, where the card's last response is this; nothing for a silent one.
#[inline(always)]
pub(crate) fn write_reply<W: TextOut>(
    reply: Reply,
    response: &Response,
    writer: &mut W,
) -> Result<(), WriteFailed>
    ensures text { MatchResult result
        (λ _. Appends (W.contents writer.old) (W.contents writer.new)
        (text_for_line reply response.now))
        (λ _. AppendsCut (W.contents writer.old) (W.contents writer.new)
        (text_for_line reply response.now)) }
    ensures count { W.failures writer.new ≡ failures_after (W.failures writer.old) (is_err result) }
{
    match reply {
        Reply::Silent => Ok(()),
        Reply::Answer => write_response(response, writer),
        Reply::Ready => write_all(writer, b"ready\n"),
        Reply::Down => write_all(writer, b"down\n"),
        Reply::Armed(k) => write_armed(k, writer),
        Reply::Planned(None) => write_all(writer, b"planned none\n"),
        Reply::Planned(Some(fault)) => write_planned(fault, writer),
    }
}

fn write_armed<W: TextOut>(k: u16, writer: &mut W) -> Result<(), WriteFailed>
    ensures text { MatchResult result
        (λ _. Appends (W.contents writer.old) (W.contents writer.new) (armed_text k))
        (λ _. AppendsCut (W.contents writer.old) (W.contents writer.new) (armed_text k)) }
    ensures count { W.failures writer.new ≡ failures_after (W.failures writer.old) (is_err result) }
{
    let mut digits = Buffer::new();
    write_parts(writer, b"armed ", digits.format(k).as_bytes(), b"\n")
}

fn write_planned<W: TextOut>(fault: PlannedFault, writer: &mut W) -> Result<(), WriteFailed>
    ensures text { MatchResult result
        (λ _. Appends (W.contents writer.old) (W.contents writer.new) (planned_text (Some fault)))
        (λ _. AppendsCut (W.contents writer.old) (W.contents writer.new) (planned_text (Some fault))) }
    ensures count { W.failures writer.new ≡ failures_after (W.failures writer.old) (is_err result) }
{
    write_all(writer, b"planned ")?;
    write_faults(fault, writer)?;
    write_all(writer, b"\n")
}

// Writes what a line `glitch` says of faults.
fn write_faults<W: TextOut>(fault: PlannedFault, writer: &mut W) -> Result<(), WriteFailed>
    ensures text { MatchResult result
        (λ _. Appends (W.contents writer.old) (W.contents writer.new) (faults_text fault))
        (λ _. AppendsCut (W.contents writer.old) (W.contents writer.new) (faults_text fault)) }
    ensures count { W.failures writer.new ≡ failures_after (W.failures writer.old) (is_err result) }
{
    let mut digits = Buffer::new();
    write_all(writer, digits.format(fault.instruction).as_bytes())?;
    write_all(writer, model_word(fault.model))?;
    write_second(fault.second, writer)
}

// Writes the same of a second fault, if there is one.
fn write_second<W: TextOut>(second: Option<SecondFault>, writer: &mut W) -> Result<(), WriteFailed>
    ensures text { MatchResult result
        (λ _. Appends (W.contents writer.old) (W.contents writer.new) (second_text second))
        (λ _. AppendsCut (W.contents writer.old) (W.contents writer.new) (second_text second)) }
    ensures count { W.failures writer.new ≡ failures_after (W.failures writer.old) (is_err result) }
{
    let Some(second) = second else {
        return write_all(writer, b"");
    };
    let mut digits = Buffer::new();
    let number = digits.format(second.number).as_bytes();
    write_parts(writer, b" ", number, model_word(second.model))
}

// Writes a response in hexadecimal, and a line feed.
#[inline(always)]
fn write_response<W: TextOut>(response: &Response, writer: &mut W) -> Result<(), WriteFailed>
    ensures text { MatchResult result
        (λ _. Appends (W.contents writer.old) (W.contents writer.new) (text_of response.now))
        (λ _. AppendsCut (W.contents writer.old) (W.contents writer.new) (text_of response.now)) }
    ensures count { W.failures writer.new ≡ failures_after (W.failures writer.old) (is_err result) }
{
    let bytes = response.as_bytes();
    if bytes.len() <= FEW {
        return write_few(bytes, writer);
    }
    write_line(bytes, writer)
}

// Writes bytes in hexadecimal, and a line feed.
fn write_line<W: TextOut>(bytes: &[u8], writer: &mut W) -> Result<(), WriteFailed>
    ensures text { MatchResult result
        (λ _. Appends (W.contents writer.old) (W.contents writer.new) (text_of bytes.now))
        (λ _. AppendsCut (W.contents writer.old) (W.contents writer.new) (text_of bytes.now)) }
    ensures count { W.failures writer.new ≡ failures_after (W.failures writer.old) (is_err result) }
{
    if bytes.len() <= AT_ONCE {
        return write_last(bytes, writer);
    }
    write_digits(&bytes[..AT_ONCE], writer)?;
    write_line(&bytes[AT_ONCE..], writer)
}

// Writes a few bytes in hexadecimal.
fn write_digits<W: TextOut>(bytes: &[u8], writer: &mut W) -> Result<(), WriteFailed>
    requires { length bytes.now ≤ AT_ONCE }
    ensures text { MatchResult result
        (λ _. Appends (W.contents writer.old) (W.contents writer.new) (encode_upper bytes.now))
        (λ _. AppendsCut (W.contents writer.old) (W.contents writer.new) (encode_upper bytes.now)) }
    ensures count { W.failures writer.new ≡ failures_after (W.failures writer.old) (is_err result) }
{
    let mut text = [0u8; 516];
    let end = 2 * bytes.len();
    encode(bytes, &mut text[..end]);
    write_all(writer, &text[..end])
}

// Writes bytes in hexadecimal, and a line feed. There is room for their text.
fn write_in<W: TextOut>(bytes: &[u8], text: &mut [u8], writer: &mut W) -> Result<(), WriteFailed>
    requires { 2 * length bytes.now < length text.old }
    ensures text { MatchResult result
        (λ _. Appends (W.contents writer.old) (W.contents writer.new) (text_of bytes.now))
        (λ _. AppendsCut (W.contents writer.old) (W.contents writer.new) (text_of bytes.now)) }
    ensures count { W.failures writer.new ≡ failures_after (W.failures writer.old) (is_err result) }
{
    let end = 2 * bytes.len();
    encode(bytes, &mut text[..end]);
    text[end] = b'\n';
    write_all(writer, &text[..end + 1])
}

// Writes a few bytes in hexadecimal, and a line feed.
fn write_last<W: TextOut>(bytes: &[u8], writer: &mut W) -> Result<(), WriteFailed>
    requires { length bytes.now ≤ AT_ONCE }
    ensures text { MatchResult result
        (λ _. Appends (W.contents writer.old) (W.contents writer.new) (text_of bytes.now))
        (λ _. AppendsCut (W.contents writer.old) (W.contents writer.new) (text_of bytes.now)) }
    ensures count { W.failures writer.new ≡ failures_after (W.failures writer.old) (is_err result) }
{
    let mut text = [0u8; 517];
    write_in(bytes, &mut text, writer)
}

// The same for so few bytes that their room is soon blank.
fn write_few<W: TextOut>(bytes: &[u8], writer: &mut W) -> Result<(), WriteFailed>
    requires { length bytes.now ≤ FEW }
    ensures text { MatchResult result
        (λ _. Appends (W.contents writer.old) (W.contents writer.new) (text_of bytes.now))
        (λ _. AppendsCut (W.contents writer.old) (W.contents writer.new) (text_of bytes.now)) }
    ensures count { W.failures writer.new ≡ failures_after (W.failures writer.old) (is_err result) }
{
    let mut text = [0u8; 33];
    write_in(bytes, &mut text, writer)
}

// Each byte as two digits of this table, the high four bits first.
#[inline(always)]
fn encode_by(digits: &[u8; 16], bytes: &[u8], text: &mut [u8])
    requires { length text.old ≡ 2 * length bytes.now }
    ensures { text.new ≡ encode_with digits.now bytes.now }
{
    for i in 0..bytes.len() {
        let byte = bytes[i];
        text[2 * i] = digits[(byte >> 4) as usize];
        text[2 * i + 1] = digits[(byte & 0x0f) as usize];
    }
}

// The bytes in hexadecimal, in upper case.
fn encode(bytes: &[u8], text: &mut [u8])
    requires { length text.old ≡ 2 * length bytes.now }
    ensures { text.new ≡ encode_upper bytes.now }
{
    encode_by(UPPER_DIGITS, bytes, text);
}
