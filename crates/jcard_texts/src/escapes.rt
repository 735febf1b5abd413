//! Texts within quotes in XML.
ghost use Rattle.std.specs.Prelude.{◌≡◌, ◌<◌, ◌++◌, length, drop, IfOk, MatchResult, OnOk};
ghost use Rattle.jcard_texts.specs.Escapes.{begins_outside, escape, escaped, escaped_behind};

use std::alloc::AllocError;

/// Writes a text within quotes after another: a question mark stands for each character that XML lacks.
pub fn push_escaped(text: &mut Vec<u8>, bytes: &[u8]) -> Result<(), AllocError>
    ensures { OnOk result (text.new.items ≡ text.old.items ++ escaped bytes.now) }
{
    let mut left_out = 0;
    for place in 0..bytes.len() {
        left_out = push_next(text, &bytes[place..], left_out)?;
    }
    Ok(())
}

// Writes the first of these bytes, if it is not left out, and says how many of the next are.
fn push_next(text: &mut Vec<u8>, bytes: &[u8], left_out: u8) -> Result<u8, AllocError>
    requires { 0 < length bytes.now }
    ensures { IfOk result (λ next. text.new.items ++ escaped_behind next (drop 1 bytes.now)
        ≡ text.old.items ++ escaped_behind left_out bytes.now) }
{
    if left_out > 0 {
        return Ok(left_out - 1);
    }
    if begins_outside(bytes) {
        text.extend_from_slice(b"?")?;
        return Ok(2);
    }
    push_byte(text, bytes[0])?;
    Ok(0)
}

// Whether bytes begin with U+FFFE or U+FFFF.
fn begins_outside(bytes: &[u8]) -> bool
    ensures { result ≡ begins_outside bytes.now }
{
    bytes.len() > 2 && bytes[0] == 0xEF && bytes[1] == 0xBF && bytes[2] >= 0xBE
}

fn push_byte(text: &mut Vec<u8>, byte: u8) -> Result<(), AllocError>
    ensures { OnOk result (text.new.items ≡ text.old.items ++ escape byte) }
{
    match byte {
        b'&' => text.extend_from_slice(b"&amp;"),
        b'<' => text.extend_from_slice(b"&lt;"),
        b'>' => text.extend_from_slice(b"&gt;"),
        b'"' => text.extend_from_slice(b"&quot;"),
        ..b' ' => text.extend_from_slice(b"?"),
        _ => text.extend_from_slice(&[byte]),
    }
}
