//! The report: rows, the command without a fault, and the verdict.
ghost use Rattle.std.specs.Prelude.{◌≡◌, ◌++◌, IfOk, OnOk};
ghost use Rattle.jcard_attack.specs.Report.{report_text, told_rows, undisturbed_text};

use crate::outcomes::{Aftermath, AttackSweep};
use crate::rows::push_rows;
use crate::verdict::push_verdict;
pub use crate::verdict::{accepted, is_any_accepted};
use jcard_outcomes::rows::push_in_line;
use std::alloc::{AllocError, Global};

/// The text that says what the faults came to.
pub fn report(alloc: Global, sweep: &AttackSweep) -> Result<Vec<u8>, AllocError>
    ensures { IfOk result (λ text. text.items ≡ report_text sweep.now) }
{
    let mut text = Vec::new(alloc);
    push_told(alloc, &mut text, sweep)?;
    push_verdict(alloc, &mut text, &sweep.strikes)?;
    Ok(text)
}

/// Writes the rows of the faults, and that of the command without one.
pub(crate) fn push_told(
    alloc: Global,
    text: &mut Vec<u8>,
    sweep: &AttackSweep,
) -> Result<(), AllocError>
    ensures { OnOk result (text.new.items ≡ text.old.items ++ told_rows sweep.now) }
{
    push_rows(alloc, text, &sweep.strikes, &sweep.instructions)?;
    push_undisturbed(text, &sweep.undisturbed)
}

/// Writes the row of the command without a fault.
pub(crate) fn push_undisturbed(
    text: &mut Vec<u8>,
    undisturbed: &Aftermath,
) -> Result<(), AllocError>
    ensures { OnOk result (text.new.items ≡ text.old.items
        ++ undisturbed_text undisturbed.now.answer.items undisturbed.now.left.answers.items) }
{
    text.extend_from_slice(b"no fault, answer ")?;
    text.extend_from_slice(&undisturbed.answer)?;
    text.extend_from_slice(b": ")?;
    push_in_line(text, &undisturbed.left.answers)?;
    text.extend_from_slice(b"as after\n")
}
