//! The options of the commands that have many.

use jcard_outcomes::models::Models;
use jcard_outcomes::recoveries::Depth;

/// Which instructions of a command are traced.
#[derive(Clone, Copy, Drop)]
pub enum Lines {
    /// At most this number, from the first on.
    First(u32),
    /// At most this number, up to the last.
    Last(u32),
}

/// What a run is asked for besides its answers.
#[derive(Clone, Copy, Drop)]
pub struct RunOptions<'a> {
    /// Why answers are not 9000.
    pub why: bool,
    /// The instructions of each command.
    pub trace: bool,
    /// Whether answers are those that the script's comments expect.
    pub expect: bool,
    /// These instructions of each command are traced.
    pub lines: Option<Lines>,
    /// The file with the map whose names are used.
    pub map: Option<&'a str>,
    /// The places whose arrivals are reported, as `Purse.java:109` or a method, separated by commas.
    pub stops: Option<&'a str>,
    /// The file that how often each instruction was carried out is written to.
    pub cover: Option<&'a str>,
    /// At most this number of instructions of each command is carried out.
    pub instructions: Option<u32>,
}

/// Which commands of a script are cut, and what is done after each cut.
#[derive(Clone, Copy, Drop)]
pub struct TearOptions<'a> {
    /// Each command, and not one alone.
    pub each: bool,
    /// The cells that changed are listed.
    pub objects: bool,
    /// Which instruction makes each word write.
    pub why: bool,
    /// The file with the map whose names are used.
    pub map: Option<&'a str>,
    /// The file with the lines that are answered after a cut.
    pub probe: Option<&'a str>,
    /// The line of the command, a decimal number; else the last command.
    pub line: Option<&'a str>,
    /// How many recoveries are cut, one after the other.
    pub depth: Depth,
    /// The part of the cuts, as 1/4; else all.
    pub part: Option<&'a str>,
    /// At most this number of instructions of each command is carried out.
    pub instructions: Option<u32>,
}

/// Which command of a script is attacked, by which faults, and what is asked after each.
#[derive(Clone, Copy, Drop)]
pub struct AttackOptions<'a> {
    /// Each command, and not one alone.
    pub each: bool,
    /// The models of faults that are tried.
    pub models: Models,
    /// The end of an answer that no fault may get, hexadecimal digits in upper case: a status word, or data before it too.
    pub accepted: &'a str,
    /// Within how many instructions after a fault a second one is tried too; 0 where none is.
    pub within: u32,
    /// The cells that changed are listed.
    pub objects: bool,
    /// The file with the map whose names are used.
    pub map: Option<&'a str>,
    /// The file with the lines that are answered after each fault.
    pub probe: Option<&'a str>,
    /// The line of the command, a decimal number; else the last command.
    pub line: Option<&'a str>,
    /// The part of the faults, or with each command of the commands, as 1/4; else all.
    pub part: Option<&'a str>,
    /// At most this number of instructions of each command is carried out.
    pub instructions: Option<u32>,
}

/// How large a new card is.
#[derive(Clone, Copy, Drop)]
pub struct SizeOptions<'a> {
    /// The words of its image, a decimal number.
    pub words: &'a str,
    /// The entries of its journal, a decimal number.
    pub journal: &'a str,
    /// The cells for the transient objects of each event, a decimal number, or as many as are usual.
    pub cells: Option<&'a str>,
    /// The bytes of its APDU buffer, a decimal number, or as many as are usual.
    pub buffer: Option<&'a str>,
}

/// The cards that answer rows, and the report.
#[derive(Clone, Copy, Drop)]
pub struct TestOptions<'a> {
    /// The file that the report for build servers is written to.
    pub junit: Option<&'a str>,
    /// The file with the platform table.
    pub table: Option<&'a str>,
    /// How large the first card of a file is.
    pub size: SizeOptions<'a>,
    /// At most this number of instructions of each command is carried out.
    pub instructions: Option<u32>,
}
