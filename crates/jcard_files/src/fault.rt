//! Why the program ends early, and how it says that.
ghost use Rattle.std.specs.Prelude.{◌≡◌, ℕ, List, Bool, is_err, MatchResult};
ghost use Rattle.std.specs.Io.KnownBytes.{Appends};
ghost use Rattle.jcard_texts.specs.Texts.{AppendsCut};
ghost use Rattle.jc_words.specs.Count.{failures_after};
ghost use Rattle.jcard_files.specs.Fault.{check_of, ending_of, status_of, line_of, share_number, text_of, unincluded_text, IsLastLine};

use itoa::Buffer;
use jcard_texts::streams::{TextOut, WriteFailed, write_all, write_parts};

/// What is wrong with an image, by the check that refuses it, in their order.
#[derive(Clone, Copy, Drop)]
pub enum Damage {
    /// Its first word is not the magic word.
    Magic,
    /// Its version is not known.
    Version,
    /// Its size is not the one that it states, or none that an image has.
    Size,
    /// Its journal.
    Log,
    /// Its platform table.
    Table,
    /// Its heap or its packages.
    Package,
}

/// What a file is to the command that names it.
#[derive(Clone, Copy, Drop)]
pub enum FileKind {
    /// An image.
    Image,
    /// A script.
    Script,
    /// A file of rows.
    Rows,
    /// A map of names.
    Map,
    /// A platform table.
    Table,
}

/// Why the program ended early.
#[derive(Clone, Copy, Drop)]
pub enum Fault<'a> {
    /// The words are no command line, or ask for help or the version.
    BadCommandLine,
    /// Memory was refused.
    NoMemory,
    /// An image cannot have this many words.
    BadWords,
    /// A journal cannot have this many entries.
    BadJournal,
    /// The transient objects of each event cannot have this many cells.
    BadTransient,
    /// The APDU buffer cannot have this many bytes.
    BadApdu,
    /// This line of the platform table, counted from 1, is bad; or 0.
    BadTable(u16),
    /// The platform table and the objects of the runtime environment don't fit.
    ImageTooSmall,
    /// This file cannot be opened or read.
    CannotRead(&'a str),
    /// This image cannot be opened to write to it.
    CannotOpenToWrite(&'a str),
    /// This file cannot be made or written.
    CannotWrite(&'a str),
    /// This file, which was to be written, is that, and was left as it is.
    NotReplaced(&'a str, FileKind),
    /// Another program has the image open.
    ImageInUse,
    /// The image is damaged.
    BadImage(Damage),
    /// This line of the script, counted from 1, has no form.
    BadCommand(u32),
    /// The script is longer than its bound.
    ScriptTooLong,
    /// This line of the probe, counted from 1, has no form.
    BadProbeCommand(u32),
    /// The probe is longer than a script may be.
    ProbeTooLong,
    /// Standard output cannot be written.
    WriteFailed,
    /// The card is down at the command that is to be cut.
    Down,
    /// The script has no command to cut, or none in the line that was named.
    NoCommand,
    /// The command that is to be cut makes more writes than are counted.
    TooManyCuts,
    /// A cut left neither what was before the command nor what comes after it.
    NotAllOrNothing,
    /// The command that is to be attacked carries out more instructions than are counted.
    TooManyInstructions,
    /// With a fault at one of its instructions a command gets an answer that it may not get.
    FaultAccepted,
    /// The file that the line of this number in this file of rows includes cannot be read.
    CannotInclude(&'a str, usize),
    /// A row is not answered as it says.
    RowsFailed,
    /// This comment of a script, counted in lines from 1, expects another answer.
    OtherAnswer(u32),
    /// No comment of a script expects an answer.
    NothingExpected,
    /// No part is named so.
    BadPart,
    /// No part reports this cut.
    CutMissing(usize),
    /// A part reports this cut twice, or two parts do.
    CutTwice(usize),
    /// What a part reports of this cut has no form.
    BadCut(usize),
    /// A part reports this cut in another sweep.
    OtherSweep(usize),
    /// No part has this share of the commands, counted from 0.
    ShareMissing(usize),
    /// Two parts have it.
    ShareTwice(usize),
    /// What a part reports of it has no form.
    BadShare(usize),
    /// The text of this file is no part of the sweep of which the first file is one.
    OtherPart(&'a str),
}

/// Writes the last line, if there is a fault that has one, and answers the exit status: 0, 2 for
/// a bad command line, 3 where a cut left something else or a fault was accepted, 4 where a row failed or an answer is another one than expected, 1 for every other fault.
pub fn tell<W: TextOut>(ended: Result<(), Fault>, out: &mut W) -> u8
    ensures status { result ≡ status_of ended.entry }
    ensures line { (text : List ℕ) × (failed : Bool)
        × Appends (W.contents out.old) (W.contents out.new) text
        × IsLastLine ended.entry failed text × (W.failures out.new
        ≡ failures_after (W.failures out.old) failed) }
{
    let Err(fault) = ended else {
        return 0;
    };
    let _ = write_line(line_of(fault), out);
    match fault {
        Fault::BadCommandLine => 2,
        Fault::NotAllOrNothing | Fault::FaultAccepted => 3,
        Fault::RowsFailed | Fault::OtherAnswer(_) | Fault::NothingExpected => 4,
        _ => 1,
    }
}

// What the last line says.
#[derive(Clone, Copy, Drop)]
enum LastLine<'a> {
    // This text.
    Fixed(&'static [u8]),
    // A name between these texts.
    Named(&'static [u8], &'a str, &'static [u8]),
    // A number between them.
    Numbered(&'static [u8], usize, &'static [u8]),
    // A file cannot be read that this line of this file includes.
    Unincluded(&'a str, usize),
}

fn line_of(fault: Fault<'_>) -> LastLine<'_>
    ensures { text_of result ≡ line_of fault.entry }
{
    match fault {
        Fault::BadCommandLine => LastLine::Fixed(b"jcard: bad command line\n"),
        Fault::NoMemory => LastLine::Fixed(b"jcard: no memory\n"),
        Fault::BadWords => LastLine::Fixed(b"jcard: words must be 4096 to 65535\n"),
        Fault::BadJournal => LastLine::Fixed(b"jcard: journal must be 16 to 1024\n"),
        Fault::BadTransient => LastLine::Fixed(b"jcard: transient must be 2048 to 16384\n"),
        Fault::BadApdu => LastLine::Fixed(b"jcard: apdu must be 261 to 32767\n"),
        Fault::BadTable(n) => LastLine::Numbered(b"jcard: bad table line ", usize::from(n), b"\n"),
        Fault::ImageTooSmall => LastLine::Fixed(b"jcard: image too small\n"),
        Fault::CannotRead(path) | Fault::CannotOpenToWrite(path) => LastLine::Named(
            b"jcard: cannot read ",
            path,
            b"\n",
        ),
        Fault::CannotWrite(path) => LastLine::Named(b"jcard: cannot write ", path, b"\n"),
        Fault::NotReplaced(path, kind) => LastLine::Named(b"jcard: ", path, ending_of(kind)),
        Fault::ImageInUse => LastLine::Fixed(b"jcard: image in use\n"),
        Fault::BadImage(damage) => LastLine::Numbered(
            b"jcard: bad image ",
            number_of(damage),
            b"\n",
        ),
        Fault::BadCommand(n) => LastLine::Numbered(b"jcard: line ", n as usize, b": bad command\n"),
        Fault::ScriptTooLong => LastLine::Fixed(b"jcard: script too long\n"),
        Fault::BadProbeCommand(n) => LastLine::Numbered(
            b"jcard: probe line ",
            n as usize,
            b": bad command\n",
        ),
        Fault::ProbeTooLong => LastLine::Fixed(b"jcard: probe too long\n"),
        Fault::Down => LastLine::Fixed(b"jcard: the card is down at the command\n"),
        Fault::NoCommand => LastLine::Fixed(b"jcard: no command to cut\n"),
        Fault::TooManyCuts => LastLine::Fixed(b"jcard: more than 65535 cuts\n"),
        Fault::TooManyInstructions => LastLine::Fixed(b"jcard: more than 1000000 instructions\n"),
        Fault::CannotInclude(path, number) => LastLine::Unincluded(path, number),
        Fault::OtherAnswer(n) => LastLine::Numbered(
            b"jcard: line ",
            n as usize,
            b": another answer than expected\n",
        ),
        Fault::NothingExpected => LastLine::Fixed(b"jcard: no answer is expected\n"),
        Fault::BadPart => LastLine::Fixed(b"jcard: part must be 1/N to N/N\n"),
        Fault::CutMissing(k) => LastLine::Numbered(b"jcard: cut ", k, b" is missing\n"),
        Fault::CutTwice(k) => LastLine::Numbered(b"jcard: cut ", k, b" stands twice\n"),
        Fault::BadCut(k) => LastLine::Numbered(b"jcard: cut ", k, b" is told in no known form\n"),
        Fault::OtherSweep(k) => LastLine::Numbered(b"jcard: cut ", k, b" is of another sweep\n"),
        Fault::ShareMissing(k) => LastLine::Numbered(
            b"jcard: part ",
            share_number(k),
            b" is missing\n",
        ),
        Fault::ShareTwice(k) => LastLine::Numbered(
            b"jcard: part ",
            share_number(k),
            b" stands twice\n",
        ),
        Fault::BadShare(k) => LastLine::Numbered(
            b"jcard: part ",
            share_number(k),
            b" is told in no known form\n",
        ),
        Fault::OtherPart(path) => LastLine::Named(b"jcard: ", path, b" is of another sweep\n"),
        Fault::WriteFailed | Fault::NotAllOrNothing | Fault::FaultAccepted | Fault::RowsFailed =>
            LastLine::Fixed(b""),
    }
}

fn write_line<W: TextOut>(line: LastLine, out: &mut W) -> Result<(), WriteFailed>
    ensures text { MatchResult result
        (λ _. Appends (W.contents out.old) (W.contents out.new) (text_of line.entry))
        (λ _. AppendsCut (W.contents out.old) (W.contents out.new) (text_of line.entry)) }
    ensures count { W.failures out.new ≡ failures_after (W.failures out.old) (is_err result) }
{
    match line {
        LastLine::Fixed(text) => write_all(out, text),
        LastLine::Named(start, name, end) => write_parts(out, start, name.as_bytes(), end),
        LastLine::Numbered(start, number, end) => {
            let mut digits = Buffer::new();
            write_parts(out, start, digits.format(number).as_bytes(), end)
        }
        LastLine::Unincluded(path, number) => write_unincluded(path, number, out),
    }
}

// Writes that a file cannot be read that the line of this number in the file with this name includes.
fn write_unincluded<W: TextOut>(path: &str, number: usize, out: &mut W) -> Result<(), WriteFailed>
    ensures text { MatchResult result
        (λ _. Appends (W.contents out.old) (W.contents out.new) (unincluded_text path.now number))
        (λ _. AppendsCut (W.contents out.old) (W.contents out.new)
        (unincluded_text path.now number)) }
    ensures count { W.failures out.new ≡ failures_after (W.failures out.old) (is_err result) }
{
    let mut digits = Buffer::new();
    write_parts(out, b"jcard: ", path.as_bytes(), b": line ")?;
    write_parts(
        out,
        digits.format(number).as_bytes(),
        b": cannot read the file that is included",
        b"\n",
    )
}

// The number of a share, counted from 1.
fn share_number(number: usize) -> usize
    ensures { result ≡ share_number number }
{
    number.saturating_add(1)
}

// The end of the line that says what a file is.
fn ending_of(kind: FileKind) -> &'static [u8]
    ensures { result.now ≡ ending_of kind }
{
    match kind {
        FileKind::Image => b" is an image\n",
        FileKind::Script => b" is a script\n",
        FileKind::Rows => b" is a row file\n",
        FileKind::Map => b" is a map\n",
        FileKind::Table => b" is a platform table\n",
    }
}

// The number of the check that finds a damage.
fn number_of(damage: Damage) -> usize
    ensures { result ≡ check_of damage }
{
    match damage {
        Damage::Magic => 1,
        Damage::Version => 2,
        Damage::Size => 3,
        Damage::Log => 4,
        Damage::Table => 5,
        Damage::Package => 6,
    }
}
