//! `jcard tear`: cutting the power within commands of a script, after each number of their word writes.
ghost use Rattle.jcard_files.specs.Effects.{Does};
ghost use Rattle.jcard_tear.specs.ImageSweep.{IsTear};
ghost use Rattle.jcard_sweeps.specs.SweepAsked.{sweep_asked_by};

use crate::cuts::FollowUp;
use crate::target_cuts::{Cutting, cut};
use jcard_files::disk::Disk;
use jcard_files::fault::Fault;
use jcard_files::remarks::Remarks;
use jcard_sweeps::asked::Asked;
use jcard_sweeps::command::Behind;
use jcard_sweeps::image_sweep::{Sweep, Swept, sweep_image};
use jcard_sweeps::output::write_report;
use jcard_sweeps::progress::Progress;
use jcard_sweeps::remarks::remark_on_probe;
use jcard_sweeps::reported_faults::tear_fault;
use jcard_texts::streams::TextOut;
use std::alloc::Global;

/// `jcard tear`: cuts a command of the script, or each, after each number of its writes, each time on a card of a copy of the image's
/// words, and says what is left. The whole script is carried out before, and refused as `jcard run` refuses it. The image is read, and
/// never written. A part of one command has some of its cuts, a part of each command some of the commands.
pub fn tear_image<'n, D: Disk, W: TextOut, P: Progress + Remarks>(
    disk: &mut D,
    image: &'n str,
    asked: Asked<'n>,
    out: &mut W,
    progress: &mut P,
) -> Result<(), Fault<'n>>
    ensures { Does D.does W.contents W.failures disk.old disk.new out.old out.new result
        (IsTear image.now (sweep_asked_by asked.entry)) }
{
    let tearing = Tearing {
        behind: asked.behind,
    };
    sweep_image(disk, image, asked, &tearing, out, progress)
}

// What comes after each cut.
#[derive(Clone, Copy, Drop)]
struct Tearing {
    behind: Behind,
}

impl Sweep for Tearing {
    ghost use Rattle.jcard_tear.specs.ImageSweep.{IsTorn};

    ghost sweeps = { λ tearing swept. IsTorn tearing.behind swept };

    fn sweep<'n, W: TextOut, P: Progress + Remarks>(
        &self,
        alloc: Global,
        swept: Swept<'n, '_>,
        out: &mut W,
        progress: &mut P,
    ) -> Result<(), Fault<'n>> {
        let cutting = Cutting {
            subject: swept.subject,
            follow_up: FollowUp {
                probe: swept.probe,
                behind: self.behind,
            },
        };
        match cut(alloc, cutting, swept.target, progress) {
            Ok(told) => write_report(&told.text, told.is_whole, out),
            Err(cause) => {
                remark_on_probe(alloc, swept.probe, cause, progress);
                Err(tear_fault(swept.subject.names, cause))
            }
        }
    }
}
