//! Sweeps over commands of a script: what is read and carried out, and then handed on.
ghost use Rattle.std.specs.Prelude.{◌<◌, [], length};
ghost use Rattle.jcard_files.specs.Effects.{Does, Tells, Writes};
ghost use Rattle.jcard_sweeps.specs.ImageSweep.{SweepsImage, SweepsSubject};
ghost use Rattle.jcard_sweeps.specs.Subject.{CarriedThen, CarriesOver};
ghost use Rattle.jcard_sweeps.specs.SweepAsked.{sweep_asked_by};
ghost use Rattle.jcard_sweeps.specs.Targets.{IsAmong};
ghost use Rattle.jcard_sweeps.specs.declared.image_sweep.Swept.{Swept as SweptValue};

use crate::asked::Asked;
use crate::progress::Progress;
use crate::script_fault::Names;
use crate::script_lines::commands;
use crate::subject::{Subject, carry_through, image_words, lent, probe_of};
use crate::targets::{Target, target_of};
use jcard_files::disk::Disk;
use jcard_files::fault::Fault;
use jcard_files::reading::script_of;
use jcard_files::remarks::Remarks;
use jcard_texts::streams::TextOut;
use std::alloc::Global;

/// What is swept: which commands of which script, and with the lines of which probe after each cut or fault.
#[derive(Clone, Copy, Drop)]
pub struct Swept<'n, 'a> {
    pub subject: Subject<'n, 'a>,
    pub target: Target<'a>,
    pub probe: Option<&'a [u8]>,
}

/// How commands are swept, and what is reported of it.
pub trait Sweep {
    // what is said of the end of a sweep, and of its report
    ghost sweeps: { Self → SweptValue → Tells };

    /// Sweeps these commands, on cards in memory alone, and writes the report.
    fn sweep<'n, W: TextOut, P: Progress + Remarks>(
        &self,
        alloc: Global,
        swept: Swept<'n, '_>,
        out: &mut W,
        progress: &mut P,
    ) -> Result<(), Fault<'n>>
        requires short { length swept.subject.words.now < 65536 }
        requires among { IsAmong swept.target }
        ensures { Writes W.contents W.failures out.old out.new result
            (λ ended text. sweeps self.now swept.entry ended text []) };
}

/// Sweeps the commands that are meant of a script over the words of an image. The whole script is carried out before, and refused as
/// `jcard run` refuses it. The image is read, and never written.
pub fn sweep_image<'n, D: Disk, W: TextOut, P: Progress + Remarks, S: Sweep>(
    disk: &mut D,
    image: &'n str,
    asked: Asked<'n>,
    sweep: &S,
    out: &mut W,
    progress: &mut P,
) -> Result<(), Fault<'n>>
    ensures { Does D.does W.contents W.failures disk.old disk.new out.old out.new result
        (SweepsImage image.now (sweep_asked_by asked.entry) (S.sweeps sweep.now)) }
{
    let words = image_words(disk, image)?;
    let script = script_of(disk, asked.script)?;
    let read = Subject {
        names: Names {
            image,
            script: asked.script,
        },
        words: &words,
        script: &script,
        commands: &[],
    };
    sweep_script(disk, read, asked, sweep, out, progress)
}

// Sweeps the commands that are meant of a script that was read, which are found first. They alone are let go here.
fn sweep_script<'n, D: Disk, W: TextOut, P: Progress + Remarks, S: Sweep>(
    disk: &mut D,
    read: Subject<'n, '_>,
    asked: Asked<'n>,
    sweep: &S,
    out: &mut W,
    progress: &mut P,
) -> Result<(), Fault<'n>>
    requires { length read.words.now < 65536 }
    ensures { Does D.does W.contents W.failures disk.old disk.new out.old out.new result
        (CarriesOver read.entry.names.image.now read.entry.words.now read.entry.script.now asked.entry.behind.instructions
        (SweepsSubject (sweep_asked_by asked.entry) (S.sweeps sweep.now))) }
{
    let Ok(commands) = commands(disk.alloc(), read.script) else {
        return Err(Fault::NoMemory);
    };
    let subject = Subject {
        commands: &commands,
        ..read
    };
    sweep_subject(disk, subject, asked, sweep, out, progress)
}

// Carries the script out, and sweeps what is meant of it, with the lines of the probe. The probe alone is let go here.
fn sweep_subject<'n, D: Disk, W: TextOut, P: Progress + Remarks, S: Sweep>(
    disk: &mut D,
    subject: Subject<'n, '_>,
    asked: Asked<'n>,
    sweep: &S,
    out: &mut W,
    progress: &mut P,
) -> Result<(), Fault<'n>>
    requires { length subject.words.now < 65536 }
    ensures { Does D.does W.contents W.failures disk.old disk.new out.old out.new result
        (CarriedThen asked.entry.behind.instructions
        (SweepsSubject (sweep_asked_by asked.entry) (S.sweeps sweep.now)) subject.entry) }
{
    carry_through(disk.alloc(), subject, asked.behind.instructions, progress)?;
    let target = target_of(subject.commands, asked)?;
    let probe = probe_of(disk, asked.probe)?;
    let swept = Swept {
        subject,
        target,
        probe: lent(&probe),
    };
    sweep.sweep(disk.alloc(), swept, out, progress)
}
