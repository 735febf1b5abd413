//! What the values of a command's operands and options ask for.
ghost use Rattle.std.specs.Prelude.{◌≡◌, ℕ, List, codes, IfErr, IfOk, None, Some, option_map};
ghost use Rattle.std.specs.Borrow.{Bor};
ghost use Rattle.clap.specs.Words.{all_of, found_of, rows_of};
ghost use Rattle.jcard_arguments.specs.CommandLine.{IsReadAs, chooses_cuts, depth_of, dump_of, is_bare, join_by, new_of, request_of, run_asked, run_asked_by, run_of, shows_more, size_asked, size_asked_by};
ghost use Rattle.jcard_arguments.specs.CommandLine.{attack_asked, attack_asked_by, attack_of, chooses_attacked, chooses_faults, is_bare_attack};
ghost use Rattle.jcard_arguments.specs.CommandLine.{tear_asked, tear_asked_by, tear_of, test_of, text_of, texts_of, try_of, two_of};

use crate::arguments::{Action, NoAction};
use crate::attacks::{accepted_given, models_given, within_given};
use crate::numbers::{budget_given, lines_given};
use crate::options::{AttackOptions, RunOptions, SizeOptions, TearOptions, TestOptions};
use crate::values::{is_given, value_of, values_of};
use clap::ArgMatches;
use jcard_outcomes::recoveries::Depth;
use std::alloc::Global;

// The words of a card, and the entries of its journal, where none are given.
const USUAL_WORDS: &str = "8192";

const USUAL_JOURNAL: &str = "256";

const NO_OPERAND: &str = "an operand is missing";

const BAD_INSTRUCTIONS: &str = "--instructions takes a number from 1 to 4294967295";

/// What the command with this name asks for, with these values.
pub(crate) fn action_of<'a>(
    alloc: Global,
    name: &str,
    values: &ArgMatches<'a>,
) -> Result<Action<'a>, NoAction>
    ensures { IsReadAs (request_of (name.now, rows_of (found_of values.now))) result }
{
    match name {
        "new" => new_action(values),
        "run" => run_action(values),
        "dump" => dump_action(values),
        "try" => try_action(values),
        "tear" => tear_action(alloc, values),
        "attack" => attack_action(alloc, values),
        "test" => test_action(alloc, values),
        _ => Err(NoAction::Misused("no such command")),
    }
}

fn new_action<'a>(values: &ArgMatches<'a>) -> Result<Action<'a>, NoAction>
    ensures { IsReadAs (new_of (rows_of (found_of values.now))) result }
{
    let Some(image) = value_of(values, "image") else {
        return Err(NoAction::Misused(NO_OPERAND));
    };
    let size = size_options(values);
    let table = value_of(values, "table");
    Ok(Action::New { image, size, table })
}

// How large the card is that is asked for.
fn size_options<'a>(values: &ArgMatches<'a>) -> SizeOptions<'a>
    ensures { size_asked_by result ≡ size_asked (rows_of (found_of values.now)) }
{
    SizeOptions {
        words: value_of(values, "words").unwrap_or(USUAL_WORDS),
        journal: value_of(values, "journal").unwrap_or(USUAL_JOURNAL),
        cells: value_of(values, "transient"),
        buffer: value_of(values, "apdu"),
    }
}

fn run_action<'a>(values: &ArgMatches<'a>) -> Result<Action<'a>, NoAction>
    ensures { IsReadAs (run_of (rows_of (found_of values.now))) result }
{
    let Some(image) = value_of(values, "image") else {
        return Err(NoAction::Misused(NO_OPERAND));
    };
    let Some(script) = value_of(values, "script") else {
        return Err(NoAction::Misused(NO_OPERAND));
    };
    match run_options(values) {
        Ok(options) => Ok(Action::Run {
            image,
            script,
            options,
        }),
        Err(why) => Err(NoAction::Misused(why)),
    }
}

// What a run is asked for besides its answers.
fn run_options<'a>(values: &ArgMatches<'a>) -> Result<RunOptions<'a>, &'static str>
    ensures ok { IfOk result (λ options. run_asked (rows_of (found_of values.now))
        ≡ Some (run_asked_by options)) }
    ensures none { IfErr result (λ _. run_asked (rows_of (found_of values.now)) ≡ None) }
{
    let why = is_given(values, "why");
    let trace = is_given(values, "trace");
    let expect = is_given(values, "expect");
    let lines = value_of(values, "lines");
    let map = value_of(values, "map");
    let stops = value_of(values, "break");
    let cover = value_of(values, "cover");
    let instructions = value_of(values, "instructions");
    if map.is_some() && !why && !trace && stops.is_none() {
        return Err("--map goes with --why, --trace or --break");
    }
    if stops.is_some() && map.is_none() {
        return Err("--break goes with --map");
    }
    if lines.is_some() && !trace {
        return Err("--lines goes with --trace");
    }
    let Some(lines) = lines_given(lines) else {
        return Err("--lines takes N or =-N, a number below 4294967296");
    };
    let Some(instructions) = budget_given(instructions) else {
        return Err(BAD_INSTRUCTIONS);
    };
    Ok(RunOptions {
        why,
        trace,
        expect,
        lines,
        map,
        stops,
        cover,
        instructions,
    })
}

fn dump_action<'a>(values: &ArgMatches<'a>) -> Result<Action<'a>, NoAction>
    ensures { IsReadAs (dump_of (rows_of (found_of values.now))) result }
{
    let Some(image) = value_of(values, "image") else {
        return Err(NoAction::Misused(NO_OPERAND));
    };
    let objects = is_given(values, "objects");
    let against = value_of(values, "against");
    let all = is_given(values, "all");
    let secrets = is_given(values, "secrets");
    let map = value_of(values, "map");
    match (objects, against) {
        (false, None) if !all && !secrets && map.is_none() => Ok(Action::Dump { image }),
        (false, None) => Err(NoAction::Misused(
            "--all, --secrets and --map go with --objects or --against",
        )),
        (true, None) => Ok(Action::DumpObjects {
            image,
            all,
            secrets,
            map,
        }),
        (false, Some(other)) => Ok(Action::Compare {
            image,
            other,
            all,
            secrets,
            map,
        }),
        (true, Some(_)) => Err(NoAction::Misused("--objects does not go with --against")),
    }
}

fn try_action<'a>(values: &ArgMatches<'a>) -> Result<Action<'a>, NoAction>
    ensures { IsReadAs (try_of (rows_of (found_of values.now))) result }
{
    let Some(script) = value_of(values, "script") else {
        return Err(NoAction::Misused(NO_OPERAND));
    };
    let size = size_options(values);
    let table = value_of(values, "table");
    let Some(instructions) = budget_given(value_of(values, "instructions")) else {
        return Err(NoAction::Misused(BAD_INSTRUCTIONS));
    };
    Ok(Action::Try {
        script,
        size,
        table,
        instructions,
    })
}

fn tear_action<'a>(alloc: Global, values: &ArgMatches<'a>) -> Result<Action<'a>, NoAction>
    ensures { IsReadAs (tear_of (rows_of (found_of values.now))) result }
{
    if is_given(values, "join") {
        return join_action(alloc, values, is_bare(values));
    }
    let Some((image, script)) = two_of(values_of(values, "file")) else {
        return Err(NoAction::Misused("tear takes an image and a script"));
    };
    match tear_options(values) {
        Ok(options) => Ok(Action::Tear {
            image,
            script,
            options,
        }),
        Err(why) => Err(NoAction::Misused(why)),
    }
}

// Two texts that are all.
fn two_of<'a>(texts: Option<&[&'a str]>) -> Option<(&'a str, &'a str)>
    ensures { option_map (λ (two : Bor (List ℕ) × Bor (List ℕ)). (two.0.now, two.1.now)) result
        ≡ two_of (option_map (λ (all : Bor (List (Bor (List ℕ)))). texts_of all.now) texts.entry) }
{
    match texts {
        Some(&[first, second]) => Some((first, second)),
        _ => None,
    }
}

// What is done with the files to join, beside which no other option stands.
fn join_action<'a>(
    alloc: Global,
    values: &ArgMatches<'a>,
    is_bare: bool,
) -> Result<Action<'a>, NoAction>
    ensures { IsReadAs (join_by is_bare (all_of (codes "file") (rows_of (found_of values.now)))) result }
{
    if !is_bare {
        return Err(NoAction::Misused("--join goes with no other option"));
    }
    let Some(files) = values_of(values, "file") else {
        return Err(NoAction::Misused(NO_OPERAND));
    };
    match Vec::from_slice(alloc, files) {
        Ok(files) => Ok(Action::Join { files }),
        Err(_) => Err(NoAction::NoMemory),
    }
}

// Whether what a sweep is to show is given.
fn shows_more(values: &ArgMatches<'_>) -> bool
    ensures { result ≡ shows_more (rows_of (found_of values.now)) }
{
    is_given(values, "each")
        || is_given(values, "objects")
        || is_given(values, "why")
        || value_of(values, "map").is_some()
}

// Whether what a sweep is to cut, or its probe, is given.
fn chooses_cuts(values: &ArgMatches<'_>) -> bool
    ensures { result ≡ chooses_cuts (rows_of (found_of values.now)) }
{
    value_of(values, "probe").is_some()
        || value_of(values, "line").is_some()
        || value_of(values, "recovery").is_some()
        || value_of(values, "part").is_some()
        || value_of(values, "instructions").is_some()
}

// Whether no option of a sweep is given.
fn is_bare(values: &ArgMatches<'_>) -> bool
    ensures { result ≡ is_bare (rows_of (found_of values.now)) }
{
    !(shows_more(values) || chooses_cuts(values))
}

// Which commands are cut, and what is done after each cut.
fn tear_options<'a>(values: &ArgMatches<'a>) -> Result<TearOptions<'a>, &'static str>
    ensures ok { IfOk result (λ options. tear_asked (rows_of (found_of values.now))
        ≡ Some (tear_asked_by options)) }
    ensures none { IfErr result (λ _. tear_asked (rows_of (found_of values.now)) ≡ None) }
{
    let each = is_given(values, "each");
    let objects = is_given(values, "objects");
    let why = is_given(values, "why");
    let map = value_of(values, "map");
    let probe = value_of(values, "probe");
    let line = value_of(values, "line");
    let part = value_of(values, "part");
    let recovery = value_of(values, "recovery");
    if each && line.is_some() {
        return Err("--line does not go with --each");
    }
    if map.is_some() && !objects && !why {
        return Err("--map goes with --objects or --why");
    }
    let Some(depth) = depth_of(recovery) else {
        return Err("--recovery takes 1, 2 or 3");
    };
    let Some(instructions) = budget_given(value_of(values, "instructions")) else {
        return Err(BAD_INSTRUCTIONS);
    };
    Ok(TearOptions {
        each,
        objects,
        why,
        map,
        probe,
        line,
        depth,
        part,
        instructions,
    })
}

// How many recoveries are cut: none, or the number that this text spells, 1 to 3.
fn depth_of(text: Option<&str>) -> Option<Depth>
    ensures { result ≡ depth_of (text_of text.entry) }
{
    match text {
        Some(text) => match text {
            "1" => Some(Depth::One),
            "2" => Some(Depth::Two),
            "3" => Some(Depth::Three),
            _ => None,
        },
        None => Some(Depth::Zero),
    }
}

// Whether it is given which faults a sweep tries, or what is reported of them.
fn chooses_faults(values: &ArgMatches<'_>) -> bool
    ensures { result ≡ chooses_faults (rows_of (found_of values.now)) }
{
    value_of(values, "model").is_some()
        || value_of(values, "accept").is_some()
        || value_of(values, "twice").is_some()
        || is_given(values, "objects")
        || value_of(values, "map").is_some()
}

// Whether it is given which commands a sweep attacks, or its probe.
fn chooses_attacked(values: &ArgMatches<'_>) -> bool
    ensures { result ≡ chooses_attacked (rows_of (found_of values.now)) }
{
    value_of(values, "probe").is_some()
        || value_of(values, "line").is_some()
        || is_given(values, "each")
        || value_of(values, "part").is_some()
        || value_of(values, "instructions").is_some()
}

// Whether no option of an attack is given.
fn is_bare_attack(values: &ArgMatches<'_>) -> bool
    ensures { result ≡ is_bare_attack (rows_of (found_of values.now)) }
{
    !(chooses_faults(values) || chooses_attacked(values))
}

fn attack_action<'a>(alloc: Global, values: &ArgMatches<'a>) -> Result<Action<'a>, NoAction>
    ensures { IsReadAs (attack_of (rows_of (found_of values.now))) result }
{
    if is_given(values, "join") {
        return join_action(alloc, values, is_bare_attack(values));
    }
    let Some((image, script)) = two_of(values_of(values, "file")) else {
        return Err(NoAction::Misused("attack takes an image and a script"));
    };
    match attack_options(values) {
        Ok(options) => Ok(Action::Attack {
            image,
            script,
            options,
        }),
        Err(why) => Err(NoAction::Misused(why)),
    }
}

// Which command is attacked, by which faults, and what is asked after each.
fn attack_options<'a>(values: &ArgMatches<'a>) -> Result<AttackOptions<'a>, &'static str>
    ensures ok { IfOk result (λ options. attack_asked (rows_of (found_of values.now))
        ≡ Some (attack_asked_by options)) }
    ensures none { IfErr result (λ _. attack_asked (rows_of (found_of values.now)) ≡ None) }
{
    let each = is_given(values, "each");
    let objects = is_given(values, "objects");
    let map = value_of(values, "map");
    let probe = value_of(values, "probe");
    let line = value_of(values, "line");
    let share = value_of(values, "part");
    if line.is_some() && each {
        return Err("--line does not go with --each");
    }
    let Some(models) = models_given(value_of(values, "model")) else {
        return Err("--model takes skip, turn and zero, separated by commas");
    };
    let Some(accepted) = accepted_given(value_of(values, "accept")) else {
        return Err("--accept takes four hexadecimal digits in upper case, or more, an even number");
    };
    let Some(within) = within_given(value_of(values, "twice")) else {
        return Err("--twice takes a number from 1 to 64");
    };
    let Some(instructions) = budget_given(value_of(values, "instructions")) else {
        return Err(BAD_INSTRUCTIONS);
    };
    Ok(AttackOptions {
        each,
        models,
        accepted,
        within,
        objects,
        map,
        probe,
        line,
        part: share,
        instructions,
    })
}

fn test_action<'a>(alloc: Global, values: &ArgMatches<'a>) -> Result<Action<'a>, NoAction>
    ensures { IsReadAs (test_of (rows_of (found_of values.now))) result }
{
    let Some(files) = values_of(values, "file") else {
        return Err(NoAction::Misused(NO_OPERAND));
    };
    let junit = value_of(values, "junit");
    let table = value_of(values, "table");
    let size = size_options(values);
    let Some(instructions) = budget_given(value_of(values, "instructions")) else {
        return Err(NoAction::Misused(BAD_INSTRUCTIONS));
    };
    let options = TestOptions {
        junit,
        table,
        size,
        instructions,
    };
    match Vec::from_slice(alloc, files) {
        Ok(files) => Ok(Action::Test { files, options }),
        Err(_) => Err(NoAction::NoMemory),
    }
}
