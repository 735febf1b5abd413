//! The lines of a script, and which of them are commands.
ghost use Rattle.std.specs.Prelude.{◌≡◌, ◌≢◌, ◌⊎◌, ◌+◌, ◌-◌, ◌<◌, ◌≤◌, ◌++◌, ◌∷◌, [], ℕ, map, length, slice_index, IfOk, OnOk};
ghost use Rattle.jcard_sweeps.specs.ScriptLines.{chosen, command_text, commands_of, first_numbered, is_blank, is_command, line_of};

use std::alloc::{AllocError, Global};

/// A line of a script: its number, counted from 1 with all lines, the text before it, and it, with its line feed.
#[derive(Clone, Copy, Drop)]
pub struct ScriptLine<'a> {
    pub number: usize,
    pub before: &'a [u8],
    pub line: &'a [u8],
}

/// The commands of a script.
pub fn commands<'a>(alloc: Global, script: &'a [u8]) -> Result<Vec<ScriptLine<'a>>, AllocError>
    ensures { IfOk result (λ all. map line_of all.items ≡ commands_of script.now) }
{
    let mut found = Vec::new(alloc);
    let mut start = 0;
    let mut number = 0;
    while start < script.len() {
        let end = line_end(script, start);
        let line = &script[start..end];
        number += 1;
        if is_command(line) {
            let command = ScriptLine {
                number,
                before: &script[..start],
                line,
            };
            push_line(&mut found, command)?;
        }
        start = end;
    }
    Ok(found)
}

/// The command in the line of this number; or, without a number, the last.
pub fn chosen<'a>(commands: &[ScriptLine<'a>], number: Option<usize>) -> Option<ScriptLine<'a>>
    ensures { result ≡ chosen number commands.now }
{
    match number {
        Some(number) => with_number(commands, number),
        None => commands.last().copied(),
    }
}

fn with_number<'a>(commands: &[ScriptLine<'a>], number: usize) -> Option<ScriptLine<'a>>
    ensures { result ≡ first_numbered number commands.now }
{
    for command in commands {
        if command.number == number {
            return Some(*command);
        }
    }
    None
}

// Where the line ends that starts here, after its line feed.
fn line_end(script: &[u8], start: usize) -> usize
    requires { start < length script.now }
    ensures after { start < result }
    ensures within { result ≤ length script.now }
    ensures plain { (i : ℕ) → start ≤ i → i + 1 < result → slice_index script.now i ≢ 10 }
    ensures ends { (result ≡ length script.now) ⊎ (slice_index script.now (result - 1) ≡ 10) }
{
    let mut end = start + 1;
    while end < script.len() && script[end - 1] != b'\n' {
        end += 1;
    }
    end
}

// Whether a line is a command: it begins with a digit or a space, as no other line does.
fn is_command(line: &[u8]) -> bool
    ensures { result ≡ is_command line.now }
{
    match line {
        [first, ..] => *first == b' ' || first.is_ascii_hexdigit(),
        [] => false,
    }
}

fn push_line<'a>(found: &mut Vec<ScriptLine<'a>>, line: ScriptLine<'a>) -> Result<(), AllocError>
    ensures { OnOk result (map line_of found.new.items
        ≡ map line_of found.old.items ++ line_of line.entry ∷ []) }
{
    match found.push(line) {
        Ok(()) => Ok(()),
        Err(_) => Err(AllocError),
    }
}

/// The text of a command: its line without spaces, and without the bytes that end it.
pub fn command_text(alloc: Global, line: &[u8]) -> Result<Vec<u8>, AllocError>
    ensures { IfOk result (λ text. text.items ≡ command_text line.now) }
{
    let mut text = Vec::new(alloc);
    for byte in line {
        if !is_blank(*byte) {
            text.push(*byte)?;
        }
    }
    Ok(text)
}

// Whether a byte of a line is a space, or belongs to its end.
fn is_blank(byte: u8) -> bool
    ensures { result ≡ is_blank byte }
{
    byte == b' ' || byte == b'\n' || byte == b'\r'
}
