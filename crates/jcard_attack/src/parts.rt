//! A part of the faults of a command, so that several runs share a large sweep.
ghost use Rattle.std.specs.Prelude.{◌≡◌, IfOk};
ghost use Rattle.jcard_attack.specs.PartLines.{part_text};

use crate::outcomes::AttackSweep;
use crate::part_lines::push_lines;
use crate::report::push_undisturbed;
use std::alloc::{AllocError, Global};

/// The lines of a part: one for each of its faults, and one for the command without a fault.
pub fn part_lines(alloc: Global, part: &AttackSweep) -> Result<Vec<u8>, AllocError>
    ensures { IfOk result (λ text. text.items ≡ part_text part.now) }
{
    let mut text = Vec::new(alloc);
    push_lines(alloc, &mut text, &part.strikes, &part.instructions)?;
    push_undisturbed(&mut text, &part.undisturbed)?;
    Ok(text)
}
