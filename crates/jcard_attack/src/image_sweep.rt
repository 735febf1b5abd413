//! `jcard attack`: a fault at each instruction of commands of a script.
ghost use Rattle.std.specs.Prelude.{◌≡◌};
ghost use Rattle.jcard_files.specs.Effects.{Does};
ghost use Rattle.jcard_attack.specs.AttackAsked.{attack_asked_by, behind_of, sweep_of};
ghost use Rattle.jcard_attack.specs.ImageSweep.{IsAttack};
ghost use Rattle.jcard_sweeps.specs.SweepAsked.{sweep_asked_by};

use crate::aftermaths::AttackFault;
use crate::output::write_attack;
use crate::reported_faults::attack_fault;
use crate::sweep::Sought;
use crate::target_attacks::{Attacking, told_by};
use jcard_files::disk::Disk;
use jcard_files::fault::Fault;
use jcard_files::remarks::Remarks;
use jcard_outcomes::recoveries::Depth;
use jcard_sweeps::asked::Asked;
use jcard_sweeps::command::Behind;
use jcard_sweeps::image_sweep::{Sweep, Swept, sweep_image};
use jcard_sweeps::progress::Progress;
use jcard_sweeps::remarks::remark_on_probe;
use jcard_sweeps::sweep_fault::TearFault;
use jcard_texts::streams::TextOut;
use std::alloc::Global;

/// What is attacked of an image: the names of a script and perhaps of a probe, the command in the line of a number, the last one, or each,
/// perhaps a part of the faults of one, or of the commands, which faults are tried and which answer none may get, and the most instructions of a
/// command.
#[derive(Clone, Copy, Drop)]
pub struct AskedAttack<'n, 'a> {
    pub script: &'n str,
    pub probe: Option<&'n str>,
    pub line: Option<&'n str>,
    pub each: bool,
    pub part: Option<&'n str>,
    pub sought: Sought<'a>,
    pub instructions: u32,
}

/// `jcard attack`: carries a command out with a fault at each of its instructions, each time on a card of a copy of the image's words, and says
/// what came of it. The whole script is carried out before, and refused as `jcard run` refuses it. The image is read, and never written. A part of
/// one command has some of its faults, a part of each command some of the commands.
pub fn attack_image<'n, D: Disk, W: TextOut, P: Progress + Remarks>(
    disk: &mut D,
    image: &'n str,
    asked: AskedAttack<'n, '_>,
    out: &mut W,
    progress: &mut P,
) -> Result<(), Fault<'n>>
    ensures { Does D.does W.contents W.failures disk.old disk.new out.old out.new result
        (IsAttack image.now (attack_asked_by asked.entry)) }
{
    sweep_image(disk, image, sweep_of(asked), &asked, out, progress)
}

impl Sweep for AskedAttack<'_, '_> {
    ghost use Rattle.jcard_attack.specs.AttackAsked.{attack_asked_by};
    ghost use Rattle.jcard_attack.specs.ImageSweep.{IsAttacked};

    ghost sweeps = { λ asked swept. IsAttacked (attack_asked_by asked) swept };

    fn sweep<'n, W: TextOut, P: Progress + Remarks>(
        &self,
        alloc: Global,
        swept: Swept<'n, '_>,
        out: &mut W,
        progress: &mut P,
    ) -> Result<(), Fault<'n>> {
        let attacking = Attacking {
            subject: swept.subject,
            probe: swept.probe.unwrap_or(b""),
            asked: *self,
        };
        match told_by(alloc, attacking, swept.target, progress) {
            Ok(told) => write_attack(&told.text, told.is_accepted, out),
            Err(cause) => {
                remark_on(alloc, attacking.probe, cause, progress);
                Err(attack_fault(swept.subject.names, cause))
            }
        }
    }
}

// The same as it is asked of a sweep of cuts.
fn sweep_of<'n>(asked: AskedAttack<'n, '_>) -> Asked<'n>
    ensures { sweep_asked_by result ≡ sweep_of (attack_asked_by asked.entry) }
{
    Asked {
        script: asked.script,
        probe: asked.probe,
        line: asked.line,
        each: asked.each,
        behind: behind_of(asked),
        part: asked.part,
    }
}

/// What comes after each fault, as it is asked of cuts.
pub(crate) fn behind_of(asked: AskedAttack<'_, '_>) -> Behind
    ensures { result ≡ behind_of (attack_asked_by asked.entry) }
{
    Behind {
        depth: Depth::Zero,
        objects: asked.sought.objects,
        instructions: asked.instructions,
    }
}

// Says why lines of the probe were not carried out, if they were not.
fn remark_on<M: Remarks>(alloc: Global, probe: &[u8], cause: AttackFault, remarks: &mut M) {
    if let AttackFault::Probe(fault) = cause {
        remark_on_probe(alloc, Some(probe), TearFault::Probe(fault), remarks);
    }
}
