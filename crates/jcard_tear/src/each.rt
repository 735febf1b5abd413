//! The commands of a script, each cut after each number of its writes.
ghost use Rattle.std.specs.Prelude.{◌≡◌, ◌<◌, ◌++◌, ◌∷◌, [], length, map, MatchResult};
ghost use Rattle.jcard_sweeps.specs.declared.sweep_fault.TearFault.TheVariants.{NoMemory};
ghost use Rattle.jcard_tear.specs.Faults.{IsLineUncut, IsOneUncut};
ghost use Rattle.jcard_sweeps.specs.ScriptLines.{command_text, line_of};
ghost use Rattle.jcard_tear.specs.Sweep.{AreSwept, IsLineOutcome, IsLineSwept, IsLineTold, given_of};

use crate::cuts::FollowUp;
use crate::probes::probe_for;
use crate::sweep::tear;
use jcard_outcomes::each::{LineOutcome, LineSweep};
use jcard_outcomes::report::Sweep;
use jcard_sweeps::command::Command;
use jcard_sweeps::progress::Progress;
use jcard_sweeps::script_lines::{ScriptLine, command_text};
use jcard_sweeps::sweep_fault::TearFault;
use std::alloc::Global;

/// Cuts the command in a line after each number of its writes. After each cut comes what is to follow it.
pub fn tear_line<P: Progress>(
    alloc: Global,
    words: &[u16],
    line: ScriptLine,
    follow_up: FollowUp,
    progress: &mut P,
) -> Result<Sweep, TearFault>
    requires { length words.now < 65536 }
    ensures { MatchResult result
        (IsLineSwept words.now (given_of follow_up.entry) follow_up.entry.behind (line_of line.entry))
        (IsLineUncut words.now (given_of follow_up.entry) follow_up.entry.behind (line_of line.entry) 1) }
{
    let behind = follow_up.behind;
    let probe = probe_for(
        alloc,
        words,
        follow_up.probe,
        line.before,
        behind.instructions,
    )?;
    let command = Command {
        before: line.before,
        line: line.line,
        probe: &probe,
        behind,
    };
    tear(alloc, words, command, progress)
}

/// Cuts each of these commands, and goes on where the card is down at one.
pub fn tear_each<P: Progress>(
    alloc: Global,
    words: &[u16],
    lines: &[ScriptLine],
    follow_up: FollowUp,
    progress: &mut P,
) -> Result<Vec<LineSweep>, TearFault>
    requires { length words.now < 65536 }
    ensures { MatchResult result (λ sweeps. AreSwept words.now
        (given_of follow_up.entry) follow_up.entry.behind (map line_of lines.now) sweeps.items)
        (IsOneUncut words.now (given_of follow_up.entry) follow_up.entry.behind (map line_of lines.now)) }
{
    let mut sweeps = Vec::new(alloc);
    for line in lines {
        let sweep = line_told(alloc, words, *line, follow_up, progress)?;
        push_sweep(&mut sweeps, sweep)?;
    }
    Ok(sweeps)
}

// What is reported of the command in a line.
fn line_told<P: Progress>(
    alloc: Global,
    words: &[u16],
    line: ScriptLine,
    follow_up: FollowUp,
    progress: &mut P,
) -> Result<LineSweep, TearFault>
    requires { length words.now < 65536 }
    ensures { MatchResult result
        (IsLineTold words.now (given_of follow_up.entry) follow_up.entry.behind (line_of line.entry))
        (IsLineUncut words.now (given_of follow_up.entry) follow_up.entry.behind (line_of line.entry) 1) }
{
    let outcome = line_outcome(alloc, words, line, follow_up, progress)?;
    let command = command_text(alloc, line.line)?;
    let number = line.number;
    Ok(LineSweep {
        number,
        command,
        outcome,
    })
}

// Cuts the command in a line, unless the card is down at it.
fn line_outcome<P: Progress>(
    alloc: Global,
    words: &[u16],
    line: ScriptLine,
    follow_up: FollowUp,
    progress: &mut P,
) -> Result<LineOutcome, TearFault>
    requires { length words.now < 65536 }
    ensures { MatchResult result
        (IsLineOutcome words.now (given_of follow_up.entry) follow_up.entry.behind (line_of line.entry))
        (IsLineUncut words.now (given_of follow_up.entry) follow_up.entry.behind (line_of line.entry) 1) }
{
    match tear_line(alloc, words, line, follow_up, progress) {
        Ok(sweep) => Ok(LineOutcome::Swept(sweep)),
        Err(TearFault::Down) => Ok(LineOutcome::Down),
        Err(fault) => Err(fault),
    }
}

fn push_sweep(sweeps: &mut Vec<LineSweep>, sweep: LineSweep) -> Result<(), TearFault>
    ensures { MatchResult result (λ _. sweeps.new.items ≡ sweeps.old.items ++ sweep ∷ [])
        (λ fault. fault ≡ NoMemory) }
{
    match sweeps.push(sweep) {
        Ok(()) => Ok(()),
        Err(_) => Err(TearFault::NoMemory),
    }
}
