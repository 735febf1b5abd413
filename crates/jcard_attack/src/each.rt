//! The commands of a script, each with a fault at each of its instructions.
ghost use Rattle.std.specs.Prelude.{◌≡◌, ◌<◌, ◌++◌, ◌∷◌, [], length, map, MatchResult, IfOk, OnOk};
ghost use Rattle.jcard_attack.specs.Each.{AreStruck, IsLineStruck, IsLineUnswept, IsOneUnswept, any_line_accepted, is_accepted_in, line_rows_text, line_text, verdicts_text};
ghost use Rattle.jcard_attack.specs.Report.{verdict_text};
ghost use Rattle.jcard_attack.specs.declared.aftermaths.AttackFault.TheVariants.{NoMemory};
ghost use Rattle.jcard_outcomes.specs.Report.{line_answer_text};
ghost use Rattle.jcard_sweeps.specs.ScriptLines.{line_of};

use crate::aftermaths::{AttackFault, Attacked};
use crate::outcomes::AttackSweep;
use crate::report::push_told;
use crate::sweep::{Sought, attack};
use crate::verdict::{is_any_accepted, push_verdict};
use jcard_outcomes::each::{line_head, push_down_line};
use jcard_sweeps::script_lines::{ScriptLine, command_text};
use std::alloc::{AllocError, Global};

/// What becomes of a command of a script.
#[derive(Drop)]
pub enum LineOutcome {
    /// A fault was tried at each of its instructions.
    Struck(AttackSweep),
    /// None was: a `stop` of the script had cut the power, and the card is down at it.
    Down,
}

/// A command of a script: the number of its line, its text, and what became of it.
#[derive(Drop)]
pub struct LineAttack {
    pub number: usize,
    pub command: Vec<u8>,
    pub outcome: LineOutcome,
}

/// The command in a line, after which these lines of a probe come, if there are any.
pub fn attacked_in<'a>(line: ScriptLine<'a>, probe: &'a [u8], instructions: u32) -> Attacked<'a>
    ensures before { result.before.now ≡ line.entry.before.now }
    ensures line { result.line.now ≡ line.entry.line.now }
    ensures probe { result.probe.now ≡ probe.entry.now }
    ensures instructions { result.instructions ≡ instructions }
{
    Attacked {
        before: line.before,
        line: line.line,
        probe,
        instructions,
    }
}

/// Attacks each of these commands, after each fault of which these lines of a probe come, and goes on where the card is down at one.
pub fn attack_each(
    alloc: Global,
    words: &[u16],
    lines: &[ScriptLine],
    probe: &[u8],
    instructions: u32,
    sought: Sought,
) -> Result<Vec<LineAttack>, AttackFault>
    requires { length words.now < 65536 }
    ensures { MatchResult result
        (λ attacks. AreStruck words.now probe.now instructions sought.entry (map line_of lines.now) attacks.items)
        (λ fault. IsOneUnswept words.now probe.now instructions (map line_of lines.now) fault) }
{
    let mut attacks = Vec::new(alloc);
    for line in lines {
        let attacked = attacked_in(*line, probe, instructions);
        let found = line_attack(alloc, words, line.number, attacked, sought)?;
        push_attack(&mut attacks, found)?;
    }
    Ok(attacks)
}

// What becomes of the command in the line with this number.
fn line_attack(
    alloc: Global,
    words: &[u16],
    number: usize,
    attacked: Attacked,
    sought: Sought,
) -> Result<LineAttack, AttackFault>
    requires { length words.now < 65536 }
    ensures { MatchResult result (λ found. IsLineStruck words.now number attacked.entry sought.entry found)
        (λ fault. IsLineUnswept words.now attacked.entry fault) }
{
    let outcome = match attack(alloc, words, attacked, sought, None) {
        Ok(sweep) => LineOutcome::Struck(sweep),
        Err(AttackFault::Down) => LineOutcome::Down,
        Err(fault) => return Err(fault),
    };
    let command = command_text(alloc, attacked.line)?;
    Ok(LineAttack {
        number,
        command,
        outcome,
    })
}

fn push_attack(attacks: &mut Vec<LineAttack>, found: LineAttack) -> Result<(), AttackFault>
    ensures { MatchResult result (λ _. attacks.new.items ≡ attacks.old.items ++ found ∷ [])
        (λ fault. fault ≡ NoMemory) }
{
    match attacks.push(found) {
        Ok(()) => Ok(()),
        Err(_) => Err(AttackFault::NoMemory),
    }
}

/// The text of the verdicts, a line for each command, or the rows of each before its verdict.
pub fn verdicts(alloc: Global, attacks: &[LineAttack], rows: bool) -> Result<Vec<u8>, AllocError>
    ensures { IfOk result (λ text. text.items ≡ verdicts_text rows attacks.now) }
{
    let mut text = Vec::new(alloc);
    for found in attacks {
        push_line(alloc, &mut text, found, rows)?;
    }
    Ok(text)
}

// Writes the verdict over a command.
#[tactic(auto, unfolding(crate::specs::Each::line_text))]
fn push_line(
    alloc: Global,
    text: &mut Vec<u8>,
    found: &LineAttack,
    rows: bool,
) -> Result<(), AllocError>
    ensures { OnOk result (text.new.items ≡ text.old.items ++ line_text rows found.now) }
{
    match &found.outcome {
        LineOutcome::Struck(sweep) => {
            push_struck_line(alloc, text, found.number, &found.command, sweep, rows)
        }
        LineOutcome::Down => push_down_line(text, found.number, &found.command),
    }
}

// Writes a command with its answer, and the verdict over its faults.
fn push_struck_line(
    alloc: Global,
    text: &mut Vec<u8>,
    number: usize,
    command: &[u8],
    sweep: &AttackSweep,
    rows: bool,
) -> Result<(), AllocError>
    ensures { OnOk result (text.new.items ≡ text.old.items ++ (line_rows_text rows sweep.now
        ++ (line_answer_text number command.now sweep.now.undisturbed.answer.items
        ++ verdict_text sweep.now.strikes.items))) }
{
    push_line_rows(alloc, text, sweep, rows)?;
    let head = line_head(alloc, number, command, &sweep.undisturbed.answer)?;
    text.extend_from_slice(&head)?;
    push_verdict(alloc, text, &sweep.strikes)
}

// Writes the rows of a command, where they are asked for.
fn push_line_rows(
    alloc: Global,
    text: &mut Vec<u8>,
    sweep: &AttackSweep,
    rows: bool,
) -> Result<(), AllocError>
    ensures { OnOk result (text.new.items ≡ text.old.items ++ line_rows_text rows sweep.now) }
{
    if rows {
        return push_told(alloc, text, sweep);
    }
    Ok(())
}

/// Whether a fault was accepted in one of these commands.
pub fn is_any_line_accepted(attacks: &[LineAttack]) -> bool
    ensures { result ≡ any_line_accepted attacks.now }
{
    attacks.iter().any(|found| is_accepted_in(&found.outcome))
}

fn is_accepted_in(outcome: &LineOutcome) -> bool
    ensures { result ≡ is_accepted_in outcome.now }
{
    match outcome {
        LineOutcome::Struck(sweep) => is_any_accepted(&sweep.strikes),
        LineOutcome::Down => false,
    }
}
