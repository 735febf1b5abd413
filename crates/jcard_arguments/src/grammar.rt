//! The grammar of the command line: which commands there are, their operands and options, and their help.
ghost use Rattle.std.specs.Prelude.{◌≡◌, false, true, IfOk};
ghost use Rattle.clap.specs.Words.{app_of, new_app, rule_of, with_rule, with_subcommand};
ghost use Rattle.jcard_arguments.specs.Grammar.{flag, grammar_of, grammars_of, operand, operands, program_alone, program_grammar};
ghost use Rattle.jcard_arguments.specs.Grammar.{rule_by, rules_of, value_option, with_commands, with_rules};

use clap::{Arg, ArgAction, Command};
use std::alloc::{AllocError, Global};

/// What an entry of a command is.
#[derive(Clone, Copy, Drop)]
pub(crate) enum Kind {
    /// An operand that must stand there.
    Operand,
    /// One operand or more.
    Operands,
    /// An option with a value.
    Value,
    /// An option with none.
    Flag,
}

/// An operand or an option of a command, and its help.
#[derive(Clone, Copy, Drop)]
pub(crate) struct Entry<'a> {
    kind: Kind,
    name: &'a str,
    help: &'a str,
}

const IMAGE: Entry<'static> = Entry {
    kind: Kind::Operand,
    name: "image",
    help: "The image",
};

const SCRIPT: Entry<'static> = Entry {
    kind: Kind::Operand,
    name: "script",
    help: "The script",
};

const WORDS: Entry<'static> = Entry {
    kind: Kind::Value,
    name: "words",
    help: "Words of the card's image, 4096 to 65535 [default: 8192]",
};

const TABLE: Entry<'static> = Entry {
    kind: Kind::Value,
    name: "table",
    help: "Platform table [default: one with the extended calls]",
};

const JOURNAL: Entry<'static> = Entry {
    kind: Kind::Value,
    name: "journal",
    help: "Entries of the journal, 16 to 1024: the most words that a transaction changes [default: 256]",
};

const TRANSIENT: Entry<'static> = Entry {
    kind: Kind::Value,
    name: "transient",
    help: "Cells for the transient objects of each event, 2048 to 16384 [default: 2048]",
};

const APDU: Entry<'static> = Entry {
    kind: Kind::Value,
    name: "apdu",
    help: "Bytes of the APDU buffer, 261 to 32767: above 261 commands may have extended length [default: 261]",
};

const INSTRUCTIONS: Entry<'static> = Entry {
    kind: Kind::Value,
    name: "instructions",
    help: "The most instructions that a command carries out [default: 100000]",
};

const WHY: Entry<'static> = Entry {
    kind: Kind::Flag,
    name: "why",
    help: "Says on standard error why an answer is not 9000",
};

const TRACE: Entry<'static> = Entry {
    kind: Kind::Flag,
    name: "trace",
    help: "Prints the instructions of each command on standard error",
};

const EXPECT: Entry<'static> = Entry {
    kind: Kind::Flag,
    name: "expect",
    help: "Compares the answers with the script's comments # = ANSWER",
};

const LINES: Entry<'static> = Entry {
    kind: Kind::Value,
    name: "lines",
    help: "With --trace: prints the first N instructions of a command, or by --lines=-N the last N",
};

const MAP: Entry<'static> = Entry {
    kind: Kind::Value,
    name: "map",
    help: "Map whose names stand in what is told",
};

const BREAK: Entry<'static> = Entry {
    kind: Kind::Value,
    name: "break",
    help: "Prints locals, stack and static fields on standard error where Wallet.java:187 or a method is reached",
};

const WRITES: Entry<'static> = Entry {
    kind: Kind::Flag,
    name: "why",
    help: "Says on standard error where each write was made that is cut",
};

const COVER: Entry<'static> = Entry {
    kind: Kind::Value,
    name: "cover",
    help: "Writes how often each instruction was carried out to this file",
};

const OBJECTS: Entry<'static> = Entry {
    kind: Kind::Flag,
    name: "objects",
    help: "Lists the objects too",
};

const AGAINST: Entry<'static> = Entry {
    kind: Kind::Value,
    name: "against",
    help: "Lists what differs in this other image",
};

const ALL: Entry<'static> = Entry {
    kind: Kind::Flag,
    name: "all",
    help: "With --objects or --against: also the objects of the runtime environment",
};

const SECRETS: Entry<'static> = Entry {
    kind: Kind::Flag,
    name: "secrets",
    help: "With --objects or --against: also the bytes of keys",
};

const PARTS: Entry<'static> = Entry {
    kind: Kind::Operands,
    name: "file",
    help: "The image and the script; with --join, what the parts of a sweep have printed",
};

const JOIN: Entry<'static> = Entry {
    kind: Kind::Flag,
    name: "join",
    help: "Prints of the parts of a sweep what one run prints",
};

const EACH: Entry<'static> = Entry {
    kind: Kind::Flag,
    name: "each",
    help: "Cuts each command of the script",
};

const CELLS: Entry<'static> = Entry {
    kind: Kind::Flag,
    name: "objects",
    help: "Lists the cells that changed",
};

const PROBE: Entry<'static> = Entry {
    kind: Kind::Value,
    name: "probe",
    help: "Script that is answered after each cut",
};

const LINE: Entry<'static> = Entry {
    kind: Kind::Value,
    name: "line",
    help: "Cuts the command in this line of the script",
};

const RECOVERY: Entry<'static> = Entry {
    kind: Kind::Value,
    name: "recovery",
    help: "Cuts 1, 2 or 3 recoveries after each cut",
};

const PART: Entry<'static> = Entry {
    kind: Kind::Value,
    name: "part",
    help: "Makes this part of the cuts, as 1/4",
};

const ROWS: Entry<'static> = Entry {
    kind: Kind::Operands,
    name: "file",
    help: "Files of rows",
};

const JUNIT: Entry<'static> = Entry {
    kind: Kind::Value,
    name: "junit",
    help: "Writes a report for build servers to this file",
};

const MODEL: Entry<'static> = Entry {
    kind: Kind::Value,
    name: "model",
    help: "Faults to try: skip, turn and zero, separated by commas [default: all]",
};

const ACCEPT: Entry<'static> = Entry {
    kind: Kind::Value,
    name: "accept",
    help: "End of an answer that no fault may get, as 9000 or 01029000 [default: 9000]",
};

const TWICE: Entry<'static> = Entry {
    kind: Kind::Value,
    name: "twice",
    help: "Tries a second fault too, within this many instructions after the first, 1 to 64",
};

const ASKED: Entry<'static> = Entry {
    kind: Kind::Value,
    name: "probe",
    help: "Script that is answered after each fault, on the same card",
};

const ALL_ATTACKED: Entry<'static> = Entry {
    kind: Kind::Flag,
    name: "each",
    help: "Attacks each command of the script",
};

const ATTACKED: Entry<'static> = Entry {
    kind: Kind::Value,
    name: "line",
    help: "Attacks the command in this line of the script",
};

const SHARE: Entry<'static> = Entry {
    kind: Kind::Value,
    name: "part",
    help: "Tries this part of the faults, as 1/4, or with --each attacks this part of the commands",
};

/// A command: its name, what it does, and its entries.
#[derive(Clone, Copy, Drop)]
pub(crate) struct Usage<'a> {
    name: &'a str,
    about: &'a str,
    entries: &'a [Entry<'a>],
}

const NEW: Usage<'static> = Usage {
    name: "new",
    about: "Makes the image of a new card, in place of any file of that name",
    entries: &[IMAGE, WORDS, TABLE, JOURNAL, TRANSIENT, APDU],
};

const RUN: Usage<'static> = Usage {
    name: "run",
    about: "Powers up the card of an image and carries out a script on it",
    entries: &[
        IMAGE,
        SCRIPT,
        WHY,
        TRACE,
        EXPECT,
        LINES,
        MAP,
        BREAK,
        COVER,
        INSTRUCTIONS,
    ],
};

const DUMP: Usage<'static> = Usage {
    name: "dump",
    about: "Lists what an image holds, or what differs in two images",
    entries: &[IMAGE, OBJECTS, AGAINST, ALL, SECRETS, MAP],
};

const TRY: Usage<'static> = Usage {
    name: "try",
    about: "Carries out a script on a new card in memory",
    entries: &[SCRIPT, WORDS, TABLE, JOURNAL, TRANSIENT, APDU, INSTRUCTIONS],
};

const TEAR: Usage<'static> = Usage {
    name: "tear",
    about: "Cuts the power after each word write of a script's last command, and says what is left",
    entries: &[
        PARTS,
        JOIN,
        EACH,
        CELLS,
        WRITES,
        MAP,
        PROBE,
        LINE,
        RECOVERY,
        PART,
        INSTRUCTIONS,
    ],
};

const ATTACK: Usage<'static> = Usage {
    name: "attack",
    about: "Tries a fault at each instruction of a script's last command, and says what comes of it",
    entries: &[
        PARTS,
        JOIN,
        MODEL,
        ACCEPT,
        TWICE,
        CELLS,
        MAP,
        ASKED,
        ATTACKED,
        ALL_ATTACKED,
        SHARE,
        INSTRUCTIONS,
    ],
};

const TEST: Usage<'static> = Usage {
    name: "test",
    about: "Says which rows of files hold, on new cards in memory",
    entries: &[
        ROWS,
        JUNIT,
        TABLE,
        WORDS,
        JOURNAL,
        TRANSIENT,
        APDU,
        INSTRUCTIONS,
    ],
};

/// The program's commands.
pub(crate) fn program<'a>(alloc: Global) -> Result<Command<'a>, AllocError>
    ensures { IfOk result (λ c. app_of c ≡ program_grammar) }
{
    program_with(alloc, &[NEW, RUN, DUMP, TRY, TEAR, ATTACK, TEST])
}

// The program with these commands.
fn program_with<'a>(alloc: Global, usages: &[Usage<'a>]) -> Result<Command<'a>, AllocError>
    ensures { IfOk result (λ c. app_of c ≡ with_commands program_alone (grammars_of usages.now)) }
{
    with_commands(alloc, program_alone(alloc), usages)
}

// The program with no command.
fn program_alone<'a>(alloc: Global) -> Command<'a>
    ensures { app_of result ≡ program_alone }
{
    plain_command(
        alloc,
        "jcard",
        "A Java Card simulator whose behaviour is proved",
    )
    .disable_help_subcommand(true)
}

// The program with these commands more.
fn with_commands<'a>(
    alloc: Global,
    program: Command<'a>,
    usages: &[Usage<'a>],
) -> Result<Command<'a>, AllocError>
    ensures { IfOk result (λ c. app_of c ≡ with_commands (app_of program.entry)
        (grammars_of usages.now)) }
{
    let Some((usage, others)) = usages.split_first() else {
        return Ok(program);
    };
    let program = with_usage(alloc, program, *usage)?;
    with_commands(alloc, program, others)
}

// The program with one command more.
fn with_usage<'a>(
    alloc: Global,
    program: Command<'a>,
    usage: Usage<'a>,
) -> Result<Command<'a>, AllocError>
    ensures { IfOk result (λ c. app_of c ≡ with_subcommand (app_of program.entry)
        (grammar_of usage.entry).top) }
{
    match command(alloc, usage) {
        Ok(command) => program.subcommand(command),
        Err(fault) => {
            drop(program);
            Err(fault)
        }
    }
}

// A command with its entries.
fn command<'a>(alloc: Global, usage: Usage<'a>) -> Result<Command<'a>, AllocError>
    ensures { IfOk result (λ c. app_of c ≡ grammar_of usage.entry) }
{
    with_entries(
        alloc,
        plain_command(alloc, usage.name, usage.about),
        usage.entries,
    )
}

// The command with these entries more.
fn with_entries<'a>(
    alloc: Global,
    command: Command<'a>,
    entries: &[Entry<'a>],
) -> Result<Command<'a>, AllocError>
    ensures { IfOk result (λ c. app_of c ≡ with_rules (app_of command.entry)
        (rules_of entries.now)) }
{
    let Some((entry, others)) = entries.split_first() else {
        return Ok(command);
    };
    let command = with_entry(alloc, command, *entry)?;
    with_entries(alloc, command, others)
}

// The command with one entry more.
fn with_entry<'a>(
    alloc: Global,
    command: Command<'a>,
    item: Entry<'a>,
) -> Result<Command<'a>, AllocError>
    ensures { IfOk result (λ c. app_of c ≡ with_rule (app_of command.entry)
        (rule_by item.entry.kind item.entry.name.now)) }
{
    command.arg(arg_of(alloc, item))
}

fn arg_of<'a>(alloc: Global, item: Entry<'a>) -> Arg<'a>
    ensures rule { rule_of result ≡ rule_by item.entry.kind item.entry.name.now }
    ensures local { result.global ≡ false }
{
    match item.kind {
        Kind::Operand => operand(alloc, item.name, item.help),
        Kind::Operands => operands(alloc, item.name, item.help),
        Kind::Value => value_option(alloc, item.name, item.help),
        Kind::Flag => flag(alloc, item.name, item.help),
    }
}

// A command with this name and no entry, and what it does.
fn plain_command<'a>(alloc: Global, name: &'a str, about: &'a str) -> Command<'a>
    ensures { app_of result ≡ new_app name.entry.now }
{
    Command::new(alloc, name).about(about)
}

// An operand that must stand there.
fn operand<'a>(alloc: Global, name: &'a str, help: &'a str) -> Arg<'a>
    ensures rule { rule_of result ≡ operand name.entry.now }
    ensures local { result.global ≡ false }
{
    Arg::new(alloc, name)
        .required(true)
        .action(ArgAction::Set)
        .help(help)
}

// One operand or more.
fn operands<'a>(alloc: Global, name: &'a str, help: &'a str) -> Arg<'a>
    ensures rule { rule_of result ≡ operands name.entry.now }
    ensures local { result.global ≡ false }
{
    Arg::new(alloc, name)
        .required(true)
        .action(ArgAction::Append)
        .help(help)
}

// An option with a value.
fn value_option<'a>(alloc: Global, name: &'a str, help: &'a str) -> Arg<'a>
    ensures rule { rule_of result ≡ value_option name.entry.now }
    ensures local { result.global ≡ false }
{
    Arg::new(alloc, name)
        .action(ArgAction::Set)
        .long(name)
        .help(help)
}

fn flag<'a>(alloc: Global, name: &'a str, help: &'a str) -> Arg<'a>
    ensures rule { rule_of result ≡ flag name.entry.now }
    ensures local { result.global ≡ false }
{
    Arg::new(alloc, name)
        .action(ArgAction::SetTrue)
        .long(name)
        .help(help)
}
