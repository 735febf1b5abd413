//! What a command comes to with a fault, or without one, by a script.
ghost use Rattle.std.specs.Prelude.{◌≡◌, ◌++◌, ◌<◌, decimal, drop, length, IfOk, MatchResult, OnOk};
ghost use Rattle.jcard_attack.specs.Aftermaths.{IsAftermath, IsBegun, IsProbed, IsScriptFor, IsUnfinished, attacked_script, ended_line, glitch_line, in_probe, lines_counted, probed_script, told_run_fault};
ghost use Rattle.jcard_attack.specs.declared.aftermaths.AttackFault.TheVariants.{NoMemory};
ghost use Rattle.jcard_script.specs.Script.{model_word, second_text};

use crate::outcomes::Aftermath;
use itoa::Buffer;
use jc_card::planned_fault::{PlannedFault, SecondFault};
use jc_interp::attacks::FaultModel;
use jcard_outcomes::standing::Left;
use jcard_script::script::ScriptFault;
use jcard_sweeps::last_line::last_line;
use jcard_sweeps::runs::{RunFault, recovered, run_copy};
use std::alloc::{AllocError, Global};

/// A command of a script that is attacked: the text before its line, its line, the lines of the probe, and the most instructions of a
/// command.
#[derive(Clone, Copy, Drop)]
pub struct Attacked<'a> {
    pub before: &'a [u8],
    pub line: &'a [u8],
    pub probe: &'a [u8],
    pub instructions: u32,
}

/// Why a command was not attacked at each of its instructions.
#[derive(Clone, Copy, Drop)]
pub enum AttackFault {
    NoMemory,
    /// The script, up to the command, was not carried out to its end.
    Script(ScriptFault),
    /// Nor was the probe.
    Probe(ScriptFault),
    /// The script cuts the power itself, and the card is down at the command.
    Down,
    /// The command carries out more instructions than are counted.
    TooManyInstructions,
}

/// What a command comes to, over a copy of these words, with this fault or without one.
pub(crate) fn aftermath(
    alloc: Global,
    words: &[u16],
    attacked: Attacked,
    fault: Option<PlannedFault>,
) -> Result<Aftermath, AttackFault>
    requires { length words.now < 65536 }
    ensures { MatchResult result (λ a. IsAftermath words.now attacked.entry fault a)
        (λ cause. IsUnfinished words.now attacked.entry cause) }
{
    let script = attacked_script(alloc, attacked, fault)?;
    let ran = run_copy(alloc, words, &script, attacked.instructions)?;
    let answer = Vec::from_slice(alloc, last_line(&ran.text))?;
    let answers = probed(alloc, words, attacked, script, ran.text.len())?;
    let words = recovered(ran.words)?;
    Ok(Aftermath {
        answer,
        left: Left { words, answers },
    })
}

/// What is left by the lines before a command, with no fault planned.
pub(crate) fn begun(alloc: Global, words: &[u16], attacked: Attacked) -> Result<Left, AttackFault>
    requires { length words.now < 65536 }
    ensures { MatchResult result (λ left. IsBegun words.now attacked.entry left)
        (λ cause. IsUnfinished words.now attacked.entry cause) }
{
    let script = Vec::from_slice(alloc, attacked.before)?;
    let ran = run_copy(alloc, words, &script, attacked.instructions)?;
    let answers = probed(alloc, words, attacked, script, ran.text.len())?;
    let words = recovered(ran.words)?;
    Ok(Left { words, answers })
}

// What the probe is answered after a script, whose own answers have this length.
fn probed(
    alloc: Global,
    words: &[u16],
    attacked: Attacked,
    script: Vec<u8>,
    len: usize,
) -> Result<Vec<u8>, AttackFault>
    requires short { length words.now < 65536 }
    requires script { IsScriptFor attacked script.items }
    ensures { MatchResult result (λ answers. IsProbed words.now attacked.entry script.items len answers.items)
        (λ cause. IsUnfinished words.now attacked.entry cause) }
{
    let mut whole = script;
    whole.extend_from_slice(b"glitch none\n")?;
    let lines = line_count(&whole);
    whole.extend_from_slice(attacked.probe)?;
    match run_copy(alloc, words, &whole, attacked.instructions) {
        Ok(ran) => {
            let answers = text_from(&ran.text, len.saturating_add(PLANNED_NONE));
            Ok(Vec::from_slice(alloc, answers)?)
        }
        Err(RunFault::NoMemory) => Err(AttackFault::NoMemory),
        Err(RunFault::Script(fault)) => Err(AttackFault::Probe(in_probe(lines, fault))),
    }
}

// A text from this place on.
fn text_from(text: &[u8], start: usize) -> &[u8]
    ensures { result.now ≡ drop start text.now }
{
    &text[start.min(text.len())..]
}

/// How many bytes the line `planned none` has.
const PLANNED_NONE: usize = 13;

// How many line feeds a text has; the most that is counted where it has more.
fn line_count(text: &[u8]) -> u32
    ensures { result ≡ lines_counted text.now }
{
    let mut count = 0u32;
    for byte in text {
        if *byte == b'\n' {
            count = count.saturating_add(1);
        }
    }
    count
}

// A fault of a script in its line of the probe, before which this many lines stand.
fn in_probe(lines: u32, fault: ScriptFault) -> ScriptFault
    ensures { result ≡ in_probe lines fault }
{
    match fault {
        ScriptFault::BadLine(number) => ScriptFault::BadLine(number.saturating_sub(lines)),
        other => other,
    }
}

/// The script up to the command, with this fault in it, or with none.
pub(crate) fn attacked_script(
    alloc: Global,
    attacked: Attacked,
    fault: Option<PlannedFault>,
) -> Result<Vec<u8>, AllocError>
    ensures { IfOk result (λ script. script.items ≡ attacked_script attacked.entry fault) }
{
    let mut script = Vec::from_slice(alloc, attacked.before)?;
    push_glitch(&mut script, fault)?;
    push_ended_line(&mut script, attacked.line)?;
    Ok(script)
}

// A line, and a line feed, if it lacks one.
fn push_ended_line(script: &mut Vec<u8>, line: &[u8]) -> Result<(), AllocError>
    ensures { OnOk result (script.new.items ≡ script.old.items ++ ended_line line.now) }
{
    script.extend_from_slice(line)?;
    match line.last() {
        Some(b'\n') => Ok(()),
        _ => script.extend_from_slice(b"\n"),
    }
}

/// Writes the line that plans a fault, or none, with its line feed.
pub(crate) fn push_glitch(
    script: &mut Vec<u8>,
    fault: Option<PlannedFault>,
) -> Result<(), AllocError>
    ensures { OnOk result (script.new.items ≡ script.old.items ++ glitch_line fault) }
{
    let Some(fault) = fault else {
        return script.extend_from_slice(b"glitch none\n");
    };
    script.extend_from_slice(b"glitch ")?;
    push_fault(script, fault.instruction, fault.model)?;
    push_second(script, fault.second)?;
    script.extend_from_slice(b"\n")
}

// Writes the second fault, if there is one.
fn push_second(script: &mut Vec<u8>, second: Option<SecondFault>) -> Result<(), AllocError>
    ensures { OnOk result (script.new.items ≡ script.old.items ++ second_text second) }
{
    let Some(second) = second else {
        return Ok(());
    };
    script.extend_from_slice(b" ")?;
    push_fault(script, second.number, second.model)
}

// Writes the number of an instruction and a model.
fn push_fault(script: &mut Vec<u8>, number: u32, model: FaultModel) -> Result<(), AllocError>
    ensures { OnOk result (script.new.items ≡ script.old.items ++ decimal number ++ model_word model) }
{
    let mut digits = Buffer::new();
    script.extend_from_slice(digits.format(number).as_bytes())?;
    script.extend_from_slice(match model {
        FaultModel::Skip => b" skip",
        FaultModel::Turn => b" turn",
        FaultModel::Zero => b" zero",
    })
}

impl From<AllocError> for AttackFault {
    ghost from_gives = { λ _ fault. fault ≡ NoMemory };

    fn from(_: AllocError) -> Self {
        AttackFault::NoMemory
    }
}

impl From<RunFault> for AttackFault {
    ghost from_gives = { λ cause fault. fault ≡ told_run_fault cause };

    fn from(cause: RunFault) -> Self {
        match cause {
            RunFault::NoMemory => AttackFault::NoMemory,
            RunFault::Script(fault) => AttackFault::Script(fault),
        }
    }
}
