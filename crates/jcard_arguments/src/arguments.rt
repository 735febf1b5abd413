//! The command line.
ghost use Rattle.std.specs.Prelude.{◌≡◌, ◌⊎◌, [], IfErr, IfOk, map, option_and_then, option_map};
ghost use Rattle.std.specs.String.{string_bytes};
ghost use Rattle.clap.specs.Words.{IsAmong, fault_of, found_of, kind_of, rows_of, subcommand_of, subcommand_rows_of};
ghost use Rattle.jcard_arguments.specs.CommandLine.{IsReadAs, IsTakenAs, IsToldFor, request_of};
ghost use Rattle.jcard_arguments.specs.Grammar.{program_grammar};
ghost use Rattle.jcard_arguments.specs.Arguments.{TakesPlainLines};

use crate::actions::action_of;
use crate::grammar::program;
use crate::options::{AttackOptions, RunOptions, SizeOptions, TearOptions, TestOptions};
use clap::error::ErrorKind;
use clap::{ArgMatches, Error};
use std::alloc::{AllocError, Global};

/// What the words ask for. Numbers that stand as text are decimal.
#[derive(Drop)]
pub enum Action<'a> {
    /// The image of a card of this size is made, with a platform table, or the usual one.
    New {
        image: &'a str,
        size: SizeOptions<'a>,
        table: Option<&'a str>,
    },
    /// The script is carried out, on the card of the image.
    Run {
        image: &'a str,
        script: &'a str,
        options: RunOptions<'a>,
    },
    /// What the image holds is listed.
    Dump {
        image: &'a str,
    },
    /// And its objects, those of the runtime environment too where all are asked for, and the bytes of keys where secrets are; with
    /// what a map names, if there is one.
    DumpObjects {
        image: &'a str,
        all: bool,
        secrets: bool,
        map: Option<&'a str>,
    },
    /// What differs in two images is listed, of objects as above.
    Compare {
        image: &'a str,
        other: &'a str,
        all: bool,
        secrets: bool,
        map: Option<&'a str>,
    },
    /// The script is carried out, on a new card in memory; a command has at most this number of instructions, or the usual one.
    Try {
        script: &'a str,
        size: SizeOptions<'a>,
        table: Option<&'a str>,
        instructions: Option<u32>,
    },
    /// Commands of the script are cut, over copies of the words of the image.
    Tear {
        image: &'a str,
        script: &'a str,
        options: TearOptions<'a>,
    },
    /// A command of the script is attacked, over copies of the words of the image.
    Attack {
        image: &'a str,
        script: &'a str,
        options: AttackOptions<'a>,
    },
    /// What the parts of a sweep have printed is joined.
    Join {
        files: Vec<&'a str>,
    },
    /// The rows of files are answered by new cards in memory.
    Test {
        files: Vec<&'a str>,
        options: TestOptions<'a>,
    },
}

/// Why words ask for no action.
#[derive(Drop)]
pub enum NoAction {
    /// They ask for help, which is this text.
    Help(String),
    /// They do not fit the grammar. This text, of whole lines, says which word does not; it is empty where memory was refused for it.
    Refused(String),
    /// They fit the grammar, but not one another, or a value is none of its option.
    Misused(&'static str),
    /// Memory was refused.
    NoMemory,
}

/// What the words ask for, the program's name among them as the first.
pub fn parse(alloc: Global, words: &[String]) -> Result<Action<'_>, NoAction>
    ensures taken { IsTakenAs (map string_bytes words.now) result }
    ensures plain { TakesPlainLines }
{
    match matches_of(alloc, words) {
        Ok(matches) => action_in(alloc, &matches),
        Err(error) => Err(refusal_by(alloc, &error)),
    }
}

// The words by the grammar.
fn matches_of(alloc: Global, words: &[String]) -> Result<ArgMatches<'_>, Error>
    ensures found { IfOk result (λ m. (fault_of program_grammar (map string_bytes words.now) ≡ [])
        × (subcommand_rows_of m ≡ subcommand_of program_grammar (map string_bytes words.now))) }
    ensures refused { IfErr result (λ e. (kind_of e ≡ ErrorKind.OutOfMemory)
        ⊎ IsAmong (kind_of e) (fault_of program_grammar (map string_bytes words.now))) }
{
    let matches = program(alloc)?.try_get_matches_from(words)?;
    Ok(matches)
}

// What the words by the grammar ask for.
fn action_in<'a>(alloc: Global, matches: &ArgMatches<'a>) -> Result<Action<'a>, NoAction>
    ensures { IsReadAs (option_and_then request_of (subcommand_rows_of matches.now)) result }
{
    match command_in(matches) {
        Some((name, values)) => action_of(alloc, name, values),
        None => Err(NoAction::Misused("no command is named; jcard --help lists them")),
    }
}

// The command that is named, and the values of its operands and options.
fn command_in<'m, 'a>(matches: &'m ArgMatches<'a>) -> Option<(&'a str, &'m ArgMatches<'a>)>
    ensures { option_map (λ p. (p.0.now, rows_of (found_of p.1.now))) result
        ≡ subcommand_rows_of matches.now }
{
    matches.subcommand()
}

// What it means that clap refuses the words.
fn refusal_by(alloc: Global, error: &Error) -> NoAction
    ensures { IsToldFor (kind_of error.now) result }
{
    match error.kind() {
        ErrorKind::OutOfMemory => NoAction::NoMemory,
        ErrorKind::DisplayHelp => match format!(in alloc; "{error}") {
            Ok(text) => NoAction::Help(text),
            Err(_) => NoAction::NoMemory,
        },
        _ => NoAction::Refused(refusal_text(alloc, error).unwrap_or(String::new(alloc))),
    }
}

// What clap says, as the program's own.
fn refusal_text(alloc: Global, error: &Error) -> Result<String, AllocError> {
    let text = format!(in alloc; "{error}")?;
    let why = text.as_str();
    match why.strip_prefix("error: ") {
        Some(why) => format!(in alloc; "jcard: {why}"),
        None => Ok(text),
    }
}
