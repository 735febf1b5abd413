//! Cutting commands of a script over the words of an image, and what is reported of that.
ghost use Rattle.std.specs.Prelude.{◌≡◌, ◌<◌, ◌++◌, Bool, length, IfOk, MatchResult};
ghost use Rattle.jcard_outcomes.specs.CommandShares.{share_text};
ghost use Rattle.jcard_outcomes.specs.Part.{head_text};
ghost use Rattle.jcard_outcomes.specs.Report.{verdicts_text};
ghost use Rattle.jcard_tear.specs.TargetCuts.{AreAllWhole, IsCut, IsUncut};
ghost use Rattle.jcard_sweeps.specs.Targets.{IsAmong};

use crate::cuts::FollowUp;
use crate::each::{tear_each, tear_line};
use crate::parts::tear_line_part;
use jcard_outcomes::command_shares::share_lines;
use jcard_outcomes::each::{LineSweep, are_all_or_nothing, verdicts};
use jcard_outcomes::part::{Share, part_lines};
use jcard_outcomes::report::report;
use jcard_outcomes::verdict::is_all_or_nothing;
use jcard_sweeps::names::commands_name;
use jcard_sweeps::progress::Progress;
use jcard_sweeps::script_lines::ScriptLine;
use jcard_sweeps::shares::share_in;
use jcard_sweeps::subject::Subject;
use jcard_sweeps::sweep_fault::TearFault;
use jcard_sweeps::targets::Target;
use std::alloc::{AllocError, Global};

/// How commands of a script are cut.
#[derive(Clone, Copy, Drop)]
pub(crate) struct Cutting<'n, 'a> {
    /// Whose commands are cut.
    pub(crate) subject: Subject<'n, 'a>,
    /// What follows each cut.
    pub(crate) follow_up: FollowUp<'a>,
}

/// What is reported of cuts, and whether it ends as whole: each of them was all or nothing, and no recovery made a difference. A part does.
#[derive(Drop)]
pub(crate) struct ToldCuts {
    pub(crate) text: Vec<u8>,
    pub(crate) is_whole: bool,
}

/// Cuts this, each time on a card of a copy of the words.
pub(crate) fn cut<P: Progress>(
    alloc: Global,
    cutting: Cutting,
    target: Target,
    progress: &mut P,
) -> Result<ToldCuts, TearFault>
    requires short { length cutting.subject.words.now < 65536 }
    requires among { IsAmong target }
    ensures { MatchResult result (IsCut cutting.entry target.entry)
        (IsUncut cutting.entry target.entry) }
{
    match target {
        Target::Command(line) => cut_command(alloc, cutting, line, progress),
        Target::CommandPart(line, share) => cut_part(alloc, cutting, line, share, progress),
        Target::Each => cut_each(alloc, cutting, progress),
        Target::EachPart(share) => cut_each_in(alloc, cutting, share, progress),
    }
}

// Cuts a command after each number of its writes.
fn cut_command<P: Progress>(
    alloc: Global,
    cutting: Cutting,
    line: ScriptLine,
    progress: &mut P,
) -> Result<ToldCuts, TearFault>
    requires { length cutting.subject.words.now < 65536 }
    ensures { MatchResult result (IsCut cutting.entry (Target.Command line.entry))
        (IsUncut cutting.entry (Target.Command line.entry)) }
{
    let words = cutting.subject.words;
    let sweep = tear_line(alloc, words, line, cutting.follow_up, progress)?;
    let text = report(alloc, &sweep)?;
    Ok(ToldCuts {
        text,
        is_whole: is_all_or_nothing(&sweep.cuts),
    })
}

// Cuts a command after the numbers of its writes that are in this part.
fn cut_part<P: Progress>(
    alloc: Global,
    cutting: Cutting,
    line: ScriptLine,
    share: Share,
    progress: &mut P,
) -> Result<ToldCuts, TearFault>
    requires { length cutting.subject.words.now < 65536 }
    ensures { MatchResult result (IsCut cutting.entry (Target.CommandPart line.entry share))
        (IsUncut cutting.entry (Target.CommandPart line.entry share)) }
{
    let part = tear_line_part(
        alloc,
        cutting.subject.words,
        line,
        cutting.follow_up,
        share,
        progress,
    )?;
    let text = part_lines(alloc, &part)?;
    Ok(ToldCuts {
        text,
        is_whole: true,
    })
}

// Cuts each command.
fn cut_each<P: Progress>(
    alloc: Global,
    cutting: Cutting,
    progress: &mut P,
) -> Result<ToldCuts, TearFault>
    requires { length cutting.subject.words.now < 65536 }
    ensures { MatchResult result (IsCut cutting.entry Target.Each) (IsUncut cutting.entry Target.Each) }
{
    let Subject {
        words,
        commands,
        ..
    } = cutting.subject;
    let sweeps = tear_each(alloc, words, commands, cutting.follow_up, progress)?;
    let text = verdicts(alloc, &sweeps, cutting.follow_up.behind.objects)?;
    Ok(ToldCuts {
        text,
        is_whole: are_all_or_nothing(&sweeps),
    })
}

// Cuts each command in this part of them.
fn cut_each_in<P: Progress>(
    alloc: Global,
    cutting: Cutting,
    share: Share,
    progress: &mut P,
) -> Result<ToldCuts, TearFault>
    requires short { length cutting.subject.words.now < 65536 }
    requires among { share.first < share.step }
    ensures { MatchResult result (IsCut cutting.entry (Target.EachPart share))
        (IsUncut cutting.entry (Target.EachPart share)) }
{
    let Cutting { subject, follow_up } = cutting;
    let FollowUp { probe, behind } = follow_up;
    let words = subject.words;
    let name = commands_name(alloc, words, subject.script, probe, behind, share.step)?;
    let commands = share_in(subject.commands, share);
    let sweeps = tear_each(alloc, words, commands, follow_up, progress)?;
    let text = share_told(alloc, &name, share, &sweeps, behind.objects)?;
    Ok(ToldCuts {
        text,
        is_whole: true,
    })
}

// The text of this part of the commands, of which this was reported.
fn share_told(
    alloc: Global,
    name: &[u8],
    share: Share,
    sweeps: &[LineSweep],
    objects: bool,
) -> Result<Vec<u8>, AllocError>
    ensures { IfOk result (λ text. (whole : Bool) × AreAllWhole sweeps.now whole × (text.items
        ≡ head_text name.now ++ share_text share.first share.step whole (verdicts_text objects sweeps.now))) }
{
    let verdicts = verdicts(alloc, sweeps, objects)?;
    let is_whole = are_all_or_nothing(sweeps);
    share_lines(alloc, name, share, is_whole, &verdicts)
}
