//! What is reported of objects, where it is asked for.
ghost use Rattle.std.specs.Prelude.{◌≡◌, IfOk, MatchResult};
ghost use Rattle.jcard_attack.specs.Objects.{IsAftermathTold, IsObjectsFault};
ghost use Rattle.jcard_sweeps.specs.Faults.{IsImageFault};
ghost use Rattle.jcard_sweeps.specs.Report.{AreObjectsAsked, AreOfImage};

use crate::aftermaths::AttackFault;
use crate::outcomes::Aftermath;
use jc_objects::image_objects::ImageObjects;
use jcard_outcomes::standing::Left;
use jcard_sweeps::report::{left_told, objects_asked};
use jcard_sweeps::sweep_fault::TearFault;
use std::alloc::{AllocError, Global};

/// The objects that stood before a command, where it is asked which of their cells changed.
pub(crate) fn objects_before(
    alloc: Global,
    asked: bool,
    before: &Left,
) -> Result<Option<ImageObjects>, AttackFault>
    ensures asked { MatchResult result (λ objects. AreObjectsAsked asked before.now objects)
        (λ fault. IsObjectsFault fault) }
    ensures whole { IfOk result AreOfImage }
{
    match objects_asked(alloc, asked, before) {
        Ok(objects) => Ok(objects),
        Err(cause) => Err(objects_fault(cause)),
    }
}

// What it means that the objects were not read.
fn objects_fault(cause: TearFault) -> AttackFault
    requires { IsImageFault cause }
    ensures { IsObjectsFault result }
{
    match cause {
        TearFault::Probe(fault) => AttackFault::Probe(fault),
        _ => AttackFault::NoMemory,
    }
}

/// What a command came to, with what changed since these objects stood after the answers of the probe.
pub(crate) fn aftermath_told(
    alloc: Global,
    objects: &Option<ImageObjects>,
    aftermath: Aftermath,
) -> Result<Aftermath, AllocError>
    requires { AreOfImage objects.now }
    ensures { IfOk result (λ told. IsAftermathTold objects.now aftermath told) }
{
    let Aftermath { answer, left } = aftermath;
    let left = left_told(alloc, objects, left)?;
    Ok(Aftermath { answer, left })
}
