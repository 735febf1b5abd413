//! Which commands of a script are to be swept, and in which parts.
ghost use Rattle.std.specs.Prelude.{◌≡◌, Err, false, IfErr, MatchResult};
ghost use Rattle.jcard_files.specs.Fault.{is_unwritten};
ghost use Rattle.jcard_sweeps.specs.SweepAsked.{sweep_asked_by};
ghost use Rattle.jcard_sweeps.specs.Targets.{IsLineNumber, IsMeantBy, IsNoShare, IsNoTarget, IsShareNamed, IsTarget};
ghost use Rattle.jcard_sweeps.specs.Texts.{text_of};

use crate::asked::Asked;
use crate::script_lines::{ScriptLine, chosen};
use jcard_files::fault::Fault;
use jcard_outcomes::part::{Share, share_of};

/// What is swept of a script: a command, or a part of its cuts or faults; each command, or those in a part of them.
#[derive(Clone, Copy, Drop)]
pub enum Target<'a> {
    Command(ScriptLine<'a>),
    CommandPart(ScriptLine<'a>, Share),
    Each,
    EachPart(Share),
}

/// What is asked for of these commands.
pub fn target_of<'n, 'a>(commands: &[ScriptLine<'a>], asked: Asked) -> Result<Target<'a>, Fault<'n>>
    ensures found { MatchResult result
        (λ target. IsTarget (sweep_asked_by asked.entry) commands.now target)
        (λ fault. IsNoTarget (sweep_asked_by asked.entry) commands.now fault) }
    ensures unwritten { IfErr result (λ fault. is_unwritten (Err fault) ≡ false) }
{
    let Some(line) = chosen(commands, number_of(asked.line)) else {
        return Err(Fault::NoCommand);
    };
    match share_named(asked.part)? {
        None if asked.each => Ok(Target::Each),
        None => Ok(Target::Command(line)),
        Some(share) if asked.each => Ok(Target::EachPart(share)),
        Some(share) => Ok(Target::CommandPart(line, share)),
    }
}

// The part that is named, if one is.
fn share_named<'n>(part: Option<&str>) -> Result<Option<Share>, Fault<'n>>
    ensures found { MatchResult result (λ share. IsShareNamed (text_of part.entry) share)
        (λ fault. (fault ≡ Fault.BadPart) × IsNoShare (text_of part.entry)) }
    ensures unwritten { IfErr result (λ fault. is_unwritten (Err fault) ≡ false) }
{
    let Some(text) = part else {
        return Ok(None);
    };
    match share_of(text.as_bytes()) {
        Some(share) => Ok(Some(share)),
        None => Err(Fault::BadPart),
    }
}

// The number of the line that is meant, if one is named.
fn number_of(line: Option<&str>) -> Option<usize>
    ensures { IsMeantBy (text_of line.entry) result }
{
    match line {
        Some(text) => Some(line_number(text)),
        None => None,
    }
}

// The number that a text spells; 0, which no line has, where it spells none.
fn line_number(text: &str) -> usize
    ensures { IsLineNumber text.now result }
{
    if text.starts_with('+') {
        return 0;
    }
    match text.parse::<usize>() {
        Ok(number) => number,
        Err(_) => 0,
    }
}
