//! The lines of a text of rows, those of loops as often as they stand there.
ghost use Rattle.std.specs.Prelude.{◌≡◌, ◌<◌, ◌+◌, ◌-◌, ◌++◌, ◌∷◌, [], ℕ, List, codes, IfOk, OnOk, map};
ghost use Rattle.std.specs.Borrow.{Bor};
ghost use Rattle.std.specs.Str.Lines.{lines};
ghost use Rattle.std.specs.String.{string_bytes};
ghost use Rattle.jcard_test.specs.Lines.{Says};
ghost use Rattle.jcard_test.specs.TextLines.{AreAllNumbered, AreCopies, AreLinesOf, AreRepeated, AreTaken, IsBeside, IsEnded, IsLineOf, IsOneMore, IsReplaced, IsTakenIn, IsUnrolled, IsHexOf, IsShortened};
ghost use Rattle.jcard_test.specs.declared.line.Line.{Line};
ghost use Rattle.jcard_test.specs.declared.numbered_line.Numbered.{Numbered};

use crate::line::{Line, read_line};
use crate::loops::Loop;
use crate::numbered_line::Numbered;
use std::alloc::{AllocError, Global};
use std::mem;

/// The path of a file that a file of this path names: both stand in one folder.
pub fn beside(alloc: Global, path: &str, name: &str) -> Result<String, AllocError>
    ensures { IfOk result (λ beside. IsBeside path.now name.now (string_bytes beside)) }
{
    let mut beside = String::new(alloc);
    if let Some((folder, _)) = path.rsplit_once('/') {
        beside.push_str(folder)?;
        beside.push_str("/")?;
        beside.push_str(name)?;
        return Ok(beside);
    }
    beside.push_str(name)?;
    Ok(beside)
}

/// The lines of a text, where those between `for` and `end` stand once for each number. In them `{n}`, or the name of the
/// number, is the number in decimal digits, and `{h}` in two hexadecimal ones. In the place of a `for` without an `end`, or of an
/// `end` without a `for`, stands a line that says so, which no card answers.
pub fn unroll(alloc: Global, text: &str) -> Result<Vec<Numbered>, AllocError>
    ensures { IfOk result (λ lines. IsUnrolled text.now lines.items) }
{
    let texts = lines_in(alloc, text)?;
    let mut loops = Vec::new(alloc);
    let mut lines = Vec::new(alloc);
    take_lines(alloc, &texts, &mut loops, &mut lines)?;
    ended(alloc, loops, lines)
}

/// These lines; or, where loops are open, those before the outermost one, and one that says so.
fn ended(
    alloc: Global,
    mut loops: Vec<Loop>,
    lines: Vec<Numbered>,
) -> Result<Vec<Numbered>, AllocError>
    ensures { IfOk result (λ all. IsEnded loops.items lines.items all.items) }
{
    if loops.is_empty() {
        return Ok(lines);
    }
    without_end(alloc, loops.swap_remove(0))
}

/// The lines of a text.
fn lines_in<'a>(alloc: Global, text: &'a str) -> Result<Vec<&'a str>, AllocError>
    ensures { IfOk result (λ all. map (λ (line : Bor (List ℕ)). line.now) all.items
        ≡ lines text.entry.now) }
{
    text.lines().collect(alloc)
}

/// Takes these lines, the first as number 1.
fn take_lines(
    alloc: Global,
    texts: &[&str],
    loops: &mut Vec<Loop>,
    lines: &mut Vec<Numbered>,
) -> Result<(), AllocError>
    requires none_open { loops.old.items ≡ [] }
    requires no_lines { lines.old.items ≡ [] }
    ensures { OnOk result (AreTaken 1 (map (λ (line : Bor (List ℕ)). line.now) texts.now) [] []
        loops.new.items lines.new.items) }
{
    for (index, line) in texts.iter().enumerate() {
        take_line(alloc, index.saturating_add(1), line, loops, lines)?;
    }
    Ok(())
}

/// The lines before a loop without an end, and one that says so.
fn without_end(alloc: Global, unended: Loop) -> Result<Vec<Numbered>, AllocError>
    ensures { IfOk result (λ all. IsOneMore unended.number (codes "for without end")
        unended.before.items all.items) }
{
    let mut lines = unended.before;
    add_line(alloc, unended.number, "for without end", &mut lines)?;
    Ok(lines)
}

/// Takes the next line: it begins a loop, ends the innermost one, or stands after the lines of that.
fn take_line(
    alloc: Global,
    number: usize,
    line: &str,
    loops: &mut Vec<Loop>,
    lines: &mut Vec<Numbered>,
) -> Result<(), AllocError>
    requires { 0 < number }
    ensures { OnOk result ((said : Line) × Says line.now said
        × IsTakenIn number line.now said loops.old.items loops.new.items lines.old.items
        lines.new.items) }
{
    match read_line(line) {
        Line::For(name, first, last) => {
            let before = mem::replace(lines, Vec::new(alloc));
            loops.push(Loop {
                number,
                name: String::from_str(alloc, name)?,
                first,
                last,
                before,
            })?;
            Ok(())
        }
        Line::End => match loops.pop() {
            Some(ended) => end_loop(alloc, ended, lines),
            None => add_line(alloc, number, "end without for", lines),
        },
        _ => add_line(alloc, number, line, lines),
    }
}

/// Adds a line of this number.
fn add_line(
    alloc: Global,
    number: usize,
    text: &str,
    lines: &mut Vec<Numbered>,
) -> Result<(), AllocError>
    requires { 0 < number }
    ensures { OnOk result (IsOneMore number text.now lines.old.items lines.new.items) }
{
    lines.push(line_of(alloc, number, text)?)?;
    Ok(())
}

/// Adds the lines of a text, all with this number.
pub fn add_lines(
    alloc: Global,
    text: &str,
    number: usize,
    lines: &mut Vec<Numbered>,
) -> Result<(), AllocError>
    requires { 0 < number }
    ensures { OnOk result ((added : List Numbered) × AreLinesOf number text.now added
        × (lines.new.items ≡ lines.old.items ++ added)) }
{
    let texts = lines_in(alloc, text)?;
    add_all(alloc, &texts, number, lines)
}

/// Adds these lines so.
fn add_all(
    alloc: Global,
    texts: &[&str],
    number: usize,
    lines: &mut Vec<Numbered>,
) -> Result<(), AllocError>
    requires { 0 < number }
    ensures { OnOk result ((added : List Numbered)
        × AreAllNumbered number (map (λ (line : Bor (List ℕ)). line.now) texts.now) added
        × (lines.new.items ≡ lines.old.items ++ added)) }
{
    for text in texts {
        lines.push(line_of(alloc, number, text)?)?;
    }
    Ok(())
}

/// A line of this number, which counts from 1.
fn line_of(alloc: Global, number: usize, text: &str) -> Result<Numbered, AllocError>
    requires { 0 < number }
    ensures { IfOk result (λ line. IsLineOf number text.now line) }
{
    Ok(Numbered {
        number,
        text: String::from_str(alloc, text)?,
    })
}

/// Ends a loop with these lines: they stand after those before it, once for each of its numbers.
fn end_loop(alloc: Global, ended: Loop, lines: &mut Vec<Numbered>) -> Result<(), AllocError>
    ensures { OnOk result ((all : List Numbered) × AreRepeated (string_bytes ended.name)
        ended.first (ended.last + 1 - ended.first) lines.old.items all
        × (lines.new.items ≡ ended.before.items ++ all)) }
{
    let Loop {
        name,
        first,
        last,
        before,
        ..
    } = ended;
    let body = mem::replace(lines, before);
    add_repeated(alloc, first, last, name.as_str(), &body, lines)
}

/// Adds the lines of a loop for each number from the first to the last.
fn add_repeated(
    alloc: Global,
    first: u16,
    last: u16,
    name: &str,
    body: &[Numbered],
    lines: &mut Vec<Numbered>,
) -> Result<(), AllocError>
    ensures { OnOk result ((all : List Numbered)
        × AreRepeated name.now first (last + 1 - first) body.now all
        × (lines.new.items ≡ lines.old.items ++ all)) }
{
    let count = (u32::from(last) + 1).saturating_sub(u32::from(first));
    for place in 0..count {
        let k = first + place as u16;
        add_for(alloc, k, name, body, lines)?;
    }
    Ok(())
}

/// Adds the lines of a loop for one number.
fn add_for(
    alloc: Global,
    k: u16,
    name: &str,
    body: &[Numbered],
    lines: &mut Vec<Numbered>,
) -> Result<(), AllocError>
    ensures { OnOk result ((copies : List Numbered) × AreCopies name.now k body.now copies
        × (lines.new.items ≡ lines.old.items ++ copies)) }
{
    let mark = format!(in alloc; "{{{name}}}")?;
    let decimal = format!(in alloc; "{k}")?;
    let hexadecimal = hex_digits(alloc, k)?;
    for line in body {
        let copy = copy_for(
            alloc,
            mark.as_str(),
            decimal.as_str(),
            hexadecimal.as_str(),
            line,
        )?;
        lines.push(copy)?;
    }
    Ok(())
}

/// A line of a loop with these digits in place of this mark, and those in place of `{h}`.
fn copy_for(
    alloc: Global,
    mark: &str,
    decimal: &str,
    hexadecimal: &str,
    line: &Numbered,
) -> Result<Numbered, AllocError>
    ensures { IfOk result (λ copy. (copy.number ≡ line.now.number) × (set : List ℕ)
        × IsReplaced mark.now decimal.now (string_bytes line.now.text) set
        × IsReplaced (codes "{h}") hexadecimal.now set (string_bytes copy.text)) }
{
    let text = line.text.as_str().replace(alloc, mark, decimal)?;
    Ok(Numbered {
        number: line.number,
        text: text.as_str().replace(alloc, "{h}", hexadecimal)?,
    })
}

/// The digits of a number in upper case hexadecimal: two, or as many as it has.
fn hex_digits(alloc: Global, k: u16) -> Result<String, AllocError>
    ensures { IfOk result (λ digits. IsHexOf k (string_bytes digits)) }
{
    if k < 256 {
        return hex::encode_upper(alloc, &[k as u8]);
    }
    let digits = hex::encode_upper(alloc, &[(k / 256) as u8, (k % 256) as u8])?;
    shortened(alloc, digits.as_str())
}

/// Digits without a zero in front, where one stands there.
fn shortened(alloc: Global, digits: &str) -> Result<String, AllocError>
    ensures { IfOk result (λ text. IsShortened digits.now (string_bytes text)) }
{
    match digits.strip_prefix("0") {
        Some(rest) => String::from_str(alloc, rest),
        None => String::from_str(alloc, digits),
    }
}
