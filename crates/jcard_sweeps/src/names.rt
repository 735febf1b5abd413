//! The name of a sweep, by which its parts know one another.
ghost use Rattle.std.specs.Prelude.{◌≡◌, ◌++◌, ◌<◌, flat_map, length, IfOk, OnOk};
ghost use Rattle.byteorder.specs.Endian.{big_bytes};
ghost use Rattle.hex.specs.Hex.{encode_lower};
ghost use Rattle.sha1.specs.Sha1.{sha1};
ghost use Rattle.jcard_sweeps.specs.Names.{commands_name, commands_text, instructions_text, measured, options_text, probe_text, sweep_name, swept_text};
ghost use Rattle.jcard_sweeps.specs.Texts.{text_of};

use crate::command::{Behind, Command};
use itoa::Buffer;
use jc_card::card::USUAL_BUDGET;
use jc_words::put_words;
use jcard_outcomes::sweep_kind::{SweepKind, push_mark};
use sha1::Sha1;
use std::alloc::{AllocError, Global};

/// The name of the sweep of a command over these words in this many parts.
pub fn sweep_name(
    alloc: Global,
    words: &[u16],
    command: Command,
    parts: u16,
) -> Result<Vec<u8>, AllocError>
    requires { length words.now < 65536 }
    ensures { IfOk result (λ name. name.items ≡ sweep_name words.now command.entry parts) }
{
    let swept = swept_text(alloc, words, command, parts)?;
    let mut name = checksum_of(alloc, &swept)?;
    push_mark(&mut name, SweepKind::Cuts(command.behind.depth))?;
    Ok(name)
}

/// The name of the sweep of all commands of a script over these words in this many parts, with these lines of a probe, if any, and this
/// after each cut.
pub fn commands_name(
    alloc: Global,
    words: &[u16],
    script: &[u8],
    probe: Option<&[u8]>,
    behind: Behind,
    parts: u16,
) -> Result<Vec<u8>, AllocError>
    requires { length words.now < 65536 }
    ensures { IfOk result (λ name. name.items ≡ commands_name words.now script.now
        (text_of probe.entry) behind parts) }
{
    let swept = commands_text(alloc, words, script, probe, behind, parts)?;
    let mut name = checksum_of(alloc, &swept)?;
    push_mark(&mut name, SweepKind::Commands)?;
    Ok(name)
}

// The SHA-1 of a text, in hexadecimal.
fn checksum_of(alloc: Global, text: &[u8]) -> Result<Vec<u8>, AllocError>
    ensures { IfOk result (λ digits. digits.items ≡ encode_lower (sha1 text.now)) }
{
    let digits = hex::encode(alloc, &Sha1::digest(text))?;
    Vec::from_slice(alloc, digits.as_bytes())
}

// What is swept, and how, where each command of a script is.
#[tactic(auto, unfolding(crate::specs::Names::commands_text))]
fn commands_text(
    alloc: Global,
    words: &[u16],
    script: &[u8],
    probe: Option<&[u8]>,
    behind: Behind,
    parts: u16,
) -> Result<Vec<u8>, AllocError>
    requires { length words.now < 65536 }
    ensures { IfOk result (λ text. text.items ≡ commands_text words.now script.now
        (text_of probe.entry) behind parts) }
{
    let image = bytes_of(alloc, words)?;
    let mut text = Vec::new(alloc);
    push_measured(&mut text, &image)?;
    push_measured(&mut text, script)?;
    push_probe(&mut text, probe)?;
    push_mark(&mut text, SweepKind::Cuts(behind.depth))?;
    text.extend_from_slice(b" ")?;
    push_options(&mut text, behind, parts)?;
    Ok(text)
}

// Writes the lines of a probe, if any are given.
fn push_probe(text: &mut Vec<u8>, probe: Option<&[u8]>) -> Result<(), AllocError>
    ensures { OnOk result (text.new.items ≡ text.old.items ++ probe_text (text_of probe.entry)) }
{
    match probe {
        Some(lines) => {
            text.extend_from_slice(b"probe ")?;
            push_measured(text, lines)
        }
        None => text.extend_from_slice(b"no probe "),
    }
}

// What is swept, and how.
#[tactic(auto, unfolding(crate::specs::Names::swept_text))]
fn swept_text(
    alloc: Global,
    words: &[u16],
    command: Command,
    parts: u16,
) -> Result<Vec<u8>, AllocError>
    requires { length words.now < 65536 }
    ensures { IfOk result (λ text. text.items ≡ swept_text words.now command.entry parts) }
{
    let image = bytes_of(alloc, words)?;
    let mut text = Vec::new(alloc);
    push_measured(&mut text, &image)?;
    push_measured(&mut text, command.before)?;
    push_measured(&mut text, command.line)?;
    push_measured(&mut text, command.probe)?;
    push_options(&mut text, command.behind, parts)?;
    Ok(text)
}

// The bytes of words.
fn bytes_of(alloc: Global, words: &[u16]) -> Result<Vec<u8>, AllocError>
    requires { length words.now < 65536 }
    ensures { IfOk result (λ bytes. bytes.items ≡ flat_map (big_bytes 2) words.now) }
{
    let mut bytes = vec![in alloc; 0u8; 2 * words.len()]?;
    put_words(words, &mut bytes);
    Ok(bytes)
}

// Writes a text and its length before it.
fn push_measured(text: &mut Vec<u8>, piece: &[u8]) -> Result<(), AllocError>
    ensures { OnOk result (text.new.items ≡ text.old.items ++ measured piece.now) }
{
    let mut digits = Buffer::new();
    text.extend_from_slice(digits.format(piece.len()).as_bytes())?;
    text.extend_from_slice(b" ")?;
    text.extend_from_slice(piece)
}

// Writes whether changes are reported, the most instructions a command, and the number of parts.
fn push_options(text: &mut Vec<u8>, behind: Behind, parts: u16) -> Result<(), AllocError>
    ensures { OnOk result (text.new.items ≡ text.old.items ++ options_text behind parts) }
{
    let mut digits = Buffer::new();
    text.extend_from_slice(if behind.objects { b"objects " } else { b"" })?;
    push_instructions(text, behind.instructions)?;
    text.extend_from_slice(digits.format(parts).as_bytes())
}

// Writes the most instructions a command, where they are not the usual ones.
fn push_instructions(text: &mut Vec<u8>, instructions: u32) -> Result<(), AllocError>
    ensures { OnOk result (text.new.items ≡ text.old.items ++ instructions_text instructions) }
{
    if instructions == USUAL_BUDGET {
        return Ok(());
    }
    let mut digits = Buffer::new();
    text.extend_from_slice(b"instructions ")?;
    text.extend_from_slice(digits.format(instructions).as_bytes())?;
    text.extend_from_slice(b" ")
}
