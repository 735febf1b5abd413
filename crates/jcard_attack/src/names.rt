//! The name of a sweep of faults, by which its parts know one another.
ghost use Rattle.std.specs.Prelude.{◌≡◌, ◌<◌, ◌++◌, length, IfOk, OnOk};
ghost use Rattle.jcard_attack.specs.Names.{attack_name, faults_name, faults_text, is_of_faults, models_text};
ghost use Rattle.jcard_sweeps.specs.ScriptLines.{line_of};

use crate::image_sweep::behind_of;
use crate::sweep::Sought;
use crate::target_attacks::Attacking;
use jcard_outcomes::models::Models;
use jcard_outcomes::rows::is_same;
use jcard_sweeps::names::commands_name;
use jcard_sweeps::script_lines::ScriptLine;
use jcard_texts::numbers::push_number;
use std::alloc::{AllocError, Global};

// How many digits the checksum has with which a name begins.
const CHECKSUM_DIGITS: usize = 40;

/// Whether the parts of the sweep with this name have faults of one command.
pub(crate) fn is_of_faults(name: &[u8]) -> bool
    ensures { result ≡ is_of_faults name.now }
{
    if name.len() < CHECKSUM_DIGITS {
        return false;
    }
    is_same(&name[CHECKSUM_DIGITS..], b" faults")
}

/// The name of the sweep of the command in a line in this many parts: the checksum of the sweep over the script up to it, and that parts have its
/// faults.
pub(crate) fn faults_name(
    alloc: Global,
    attacking: Attacking<'_, '_, '_, '_>,
    line: ScriptLine,
    parts: u16,
) -> Result<Vec<u8>, AllocError>
    requires { length attacking.subject.words.now < 65536 }
    ensures { IfOk result (λ name. name.items
        ≡ faults_name attacking.entry (line_of line.entry) parts) }
{
    let mut script = Vec::from_slice(alloc, line.before)?;
    script.extend_from_slice(line.line)?;
    let mut name = attack_name(alloc, attacking, &script, parts)?;
    name.truncate(CHECKSUM_DIGITS);
    name.extend_from_slice(b" faults")?;
    Ok(name)
}

/// The name of a sweep over this script in this many parts, as of a sweep of cuts whose script says first which faults are tried.
pub(crate) fn attack_name(
    alloc: Global,
    attacking: Attacking<'_, '_, '_, '_>,
    script: &[u8],
    parts: u16,
) -> Result<Vec<u8>, AllocError>
    requires { length attacking.subject.words.now < 65536 }
    ensures { IfOk result (λ name. name.items
        ≡ attack_name attacking.entry script.now parts) }
{
    let Attacking {
        subject,
        probe,
        asked,
    } = attacking;
    let mut swept = Vec::new(alloc);
    push_faults(&mut swept, asked.sought)?;
    swept.extend_from_slice(script)?;
    commands_name(
        alloc,
        subject.words,
        &swept,
        Some(probe),
        behind_of(asked),
        parts,
    )
}

// Writes which faults are tried, and which answer none may get.
fn push_faults(text: &mut Vec<u8>, sought: Sought) -> Result<(), AllocError>
    ensures { OnOk result (text.new.items ≡ text.old.items ++ faults_text sought.entry) }
{
    text.extend_from_slice(b"attack ")?;
    push_models(text, sought.models)?;
    text.extend_from_slice(sought.accepted)?;
    text.extend_from_slice(b" ")?;
    push_number(text, sought.within as usize)?;
    text.extend_from_slice(b"\n")
}

// Writes the models that are tried.
fn push_models(text: &mut Vec<u8>, models: Models) -> Result<(), AllocError>
    ensures { OnOk result (text.new.items ≡ text.old.items ++ models_text models) }
{
    text.extend_from_slice(if models.skip { b"skip " } else { b"" })?;
    text.extend_from_slice(if models.turn { b"turn " } else { b"" })?;
    text.extend_from_slice(if models.zero { b"zero " } else { b"" })
}
