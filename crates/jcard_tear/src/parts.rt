//! A part of the cuts of a command, so that several runs share a large sweep.
ghost use Rattle.std.specs.Prelude.{◌<◌, ◌+◌, ◌*◌, length, IfOk, MatchResult};
ghost use Rattle.jcard_tear.specs.Faults.{IsLineUncut, IsUncutFor};
ghost use Rattle.jcard_tear.specs.Parts.{IsLinePart, IsPartSwept};
ghost use Rattle.jcard_sweeps.specs.ScriptLines.{line_of};
ghost use Rattle.jcard_tear.specs.Sweep.{given_of};

use crate::cuts::FollowUp;
use crate::probes::probe_for;
use crate::sweep::tear_share;
use jcard_outcomes::part::{Part, Share};
use jcard_sweeps::command::Command;
use jcard_sweeps::names::sweep_name;
use jcard_sweeps::progress::Progress;
use jcard_sweeps::script_lines::ScriptLine;
use jcard_sweeps::sweep_fault::TearFault;
use std::alloc::Global;

/// Cuts the command in a line after the numbers of writes in a part: `first`, and each `step`-th number after it. After each cut comes what is to
/// follow it.
pub fn tear_line_part<P: Progress>(
    alloc: Global,
    words: &[u16],
    line: ScriptLine,
    follow_up: FollowUp,
    share: Share,
    progress: &mut P,
) -> Result<Part, TearFault>
    requires { length words.now < 65536 }
    ensures swept { MatchResult result (IsLinePart words.now (given_of follow_up.entry)
        follow_up.entry.behind (line_of line.entry) share.first share.step)
        (IsLineUncut words.now (given_of follow_up.entry) follow_up.entry.behind
        (line_of line.entry) share.step) }
    ensures below { IfOk result (λ part. part.first + part.step * length part.sweep.cuts.items < 65536) }
{
    let behind = follow_up.behind;
    let probe = probe_for(
        alloc,
        words,
        follow_up.probe,
        line.before,
        behind.instructions,
    )?;
    let command = Command {
        before: line.before,
        line: line.line,
        probe: &probe,
        behind,
    };
    tear_part(alloc, words, command, share, progress)
}

/// Carries out the script up to the command, and then cuts the command after the numbers of writes in a part: `first`, and each `step`-th number
/// after it.
pub fn tear_part<P: Progress>(
    alloc: Global,
    words: &[u16],
    command: Command,
    share: Share,
    progress: &mut P,
) -> Result<Part, TearFault>
    requires { length words.now < 65536 }
    ensures swept { MatchResult result (IsPartSwept words.now command.entry share.first share.step)
        (IsUncutFor words.now command.entry share.step) }
    ensures below { IfOk result (λ part. part.first + part.step * length part.sweep.cuts.items < 65536) }
{
    let sweep = tear_share(alloc, words, command, share, progress)?;
    let name = sweep_name(alloc, words, command, share.step)?;
    Ok(Part {
        first: usize::from(share.first),
        step: usize::from(share.step),
        name,
        sweep,
    })
}
