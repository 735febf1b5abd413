//! What is reported of what a cut left: the answers of a probe and, where they are asked for, the cells that changed.
ghost use Rattle.std.specs.Prelude.{ℕ, List, ◌≡◌, Some, IfOk, MatchResult};
ghost use Rattle.jc_objects.specs.ImageObjects.{AreObjectsOf};
ghost use Rattle.jcard_sweeps.specs.Faults.{IsImageFault};
ghost use Rattle.jcard_sweeps.specs.Report.{AreObjectsAsked, AreOfImage, IsTold};

use crate::sweep_fault::{DAMAGED, TearFault};
use jc_objects::changes::push_changes;
use jc_objects::image_objects::{ImageObjects, objects_of};
use jc_packages::fault::ReadFault;
use jcard_outcomes::standing::Left;
use std::alloc::{AllocError, Global};

/// The objects that stood before a command, where it is asked which of their cells changed.
pub fn objects_asked(
    alloc: Global,
    asked: bool,
    before: &Left,
) -> Result<Option<ImageObjects>, TearFault>
    ensures asked { MatchResult result (λ objects. AreObjectsAsked asked before.now objects)
        (λ fault. IsImageFault fault) }
    ensures whole { IfOk result AreOfImage }
{
    if !asked {
        return Ok(None);
    }
    match objects_of(alloc, &before.words) {
        Ok(objects) => Ok(Some(objects)),
        Err(ReadFault::NoMemory) => Err(TearFault::NoMemory),
        Err(ReadFault::Damaged) => Err(DAMAGED),
    }
}

/// The answers that are left and, where these objects stood before, after them what changed.
pub fn told(
    alloc: Global,
    objects: &Option<ImageObjects>,
    left: &Left,
) -> Result<Vec<u8>, AllocError>
    requires { AreOfImage objects.now }
    ensures { IfOk result (λ text. IsTold objects.now left.now text.items) }
{
    match objects {
        Some(objects) => told_with_changes(alloc, objects, left),
        None => Vec::from_slice(alloc, &left.answers),
    }
}

fn told_with_changes(
    alloc: Global,
    objects: &ImageObjects,
    left: &Left,
) -> Result<Vec<u8>, AllocError>
    requires { (words : List ℕ) × AreObjectsOf words objects.now }
    ensures { IfOk result (λ text. IsTold (Some objects.now) left.now text.items) }
{
    let mut text = Vec::from_slice(alloc, &left.answers)?;
    push_changes(alloc, &mut text, objects, &left.words)?;
    Ok(text)
}

/// What is left, with what changed after its answers.
pub fn left_told(
    alloc: Global,
    objects: &Option<ImageObjects>,
    left: Left,
) -> Result<Left, AllocError>
    requires { AreOfImage objects.now }
    ensures words { IfOk result (λ told. told.words.items ≡ left.words.items) }
    ensures told { IfOk result (λ told. IsTold objects.now left told.answers.items) }
{
    let answers = told(alloc, objects, &left)?;
    Ok(Left {
        words: left.words,
        answers,
    })
}
