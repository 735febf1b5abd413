//! The lines of a row file.
ghost use Rattle.std.specs.Prelude.{ℕ, List, Option, IfSome, MatchOption};
ghost use Rattle.jcard_test.specs.Lines.{IsDirective, IsLoopLine, IsNoDirective, IsNumberedLoop, IsPartedAt, IsRowLine, Says};

/// What a line says.
#[derive(Drop)]
pub enum Line<'a> {
    /// Nothing: it is empty, or a comment.
    Nothing,
    /// A new subject begins.
    New,
    /// The rows of another file stand here.
    Include(&'a str),
    /// The lines up to `end` stand once for each number from the first to the last, which has this name.
    For(&'a str, u16, u16),
    /// The end of those.
    End,
    /// A command, and its answer where one stands after it.
    Row(&'a str, Option<&'a str>),
}

/// Reads a line. What begins with `#`, or follows a ` #`, is a comment.
pub fn read_line(line: &str) -> Line<'_>
    ensures { Says line.now result }
{
    if line.starts_with('#') {
        return Line::Nothing;
    }
    let text = before(line, " #").trim_end();
    if text.is_empty() {
        return Line::Nothing;
    }
    match read_directive(text) {
        Some(directive) => directive,
        None => read_row(text),
    }
}

/// A directive, where the text is one.
fn read_directive(text: &str) -> Option<Line<'_>>
    ensures { MatchOption result (IsNoDirective text.now) (λ line. IsDirective text.now line) }
{
    if text == "new" {
        return Some(Line::New);
    }
    if text == "end" {
        return Some(Line::End);
    }
    if let Some(name) = text.strip_prefix("include ") {
        return Some(Line::Include(name));
    }
    read_for(text.strip_prefix("for ")?)
}

/// The numbers of a loop, with a name before them, or named `n`.
fn read_for(words: &str) -> Option<Line<'_>>
    ensures { IfSome result (λ line. IsLoopLine words.now line) }
{
    let (word, more) = words.split_once(' ')?;
    if let Some((first, last)) = more.split_once(' ') {
        return read_numbers(word, first, last);
    }
    read_numbers("n", word, more)
}

/// A loop whose number has this name, from one number to another.
fn read_numbers<'a>(name: &'a str, first: &str, last: &str) -> Option<Line<'a>>
    ensures { IfSome result (λ line. IsNumberedLoop name.entry.now first.now last.now line) }
{
    let first = first.parse::<u16>().ok()?;
    let last = last.parse::<u16>().ok()?;
    Some(Line::For(name, first, last))
}

/// A command and what stands after a ` = `.
fn read_row(text: &str) -> Line<'_>
    ensures { IsRowLine text.now result }
{
    match text.split_once(" = ") {
        Some((command, answer)) => Line::Row(command.trim_end(), Some(answer.trim_start())),
        None => Line::Row(text, None),
    }
}

/// What stands before a mark, or all.
fn before<'a>(line: &'a str, mark: &str) -> &'a str
    ensures { (behind : Option (List ℕ)) × IsPartedAt mark.now line.entry.now result.now behind }
{
    match line.split_once(mark) {
        Some((front, _)) => front,
        None => line,
    }
}
