//! The last line of a text.
ghost use Rattle.jcard_sweeps.specs.LastLine.{IsLastLine};

/// The last line of a text, without its line feed.
pub fn last_line(text: &[u8]) -> &[u8]
    ensures { IsLastLine text.now result.now }
{
    let end = text.len().saturating_sub(1);
    let mut start = end;
    while start > 0 && text[start - 1] != b'\n' {
        start -= 1;
    }
    &text[start..end]
}
