//! Listings and sweeps, of cuts or of faults, with the names of a map in them where one is given.
ghost use Rattle.std.specs.Prelude.{◌≡◌, Some, false};
ghost use Rattle.jcard_arguments.specs.CommandLine.{attack_asked_by as words_ask_by, tear_asked_by, text_of};
ghost use Rattle.jcard_files.specs.Fault.{is_unwritten};
ghost use Rattle.jcard_attack.specs.AttackAsked.{attack_asked_by};
ghost use Rattle.jcard_sweeps.specs.SweepAsked.{sweep_asked_by};
ghost use Rattle.jcard_files.specs.Effects.{Does, Writes};
ghost use Rattle.jcard_commands.specs.Listing.{IsAskedOf, IsListed, IsNamed, IsToldBy, IsWritten, in_memory, sweep_asked};

use crate::listener::Listener;
use crate::script_run::remark_on;
use crate::write_lines::WriteLines;
use jc_card::card::USUAL_BUDGET;
use jcard_arguments::options::{AttackOptions, TearOptions};
use jcard_attack::image_sweep::{AskedAttack, attack_image};
use jcard_attack::sweep::Sought;
use jcard_dump::comparison::compare_images;
use jcard_dump::dump::dump_objects;
use jcard_dump::shown::Shown;
use jcard_files::disk::Disk;
use jcard_files::fault::Fault;
use jcard_files::reading::script_of;
use jcard_files::remarks::Remarks;
use jcard_sweeps::asked::Asked;
use jcard_sweeps::command::Behind;
use jcard_sweeps::kept_text::KeptText;
use jcard_sweeps::progress::Progress;
use jcard_tear::image_sweep::tear_image;
use jcard_texts::streams::{TextOut, write_all};
use jcard_why::named_text::with_names;
use std::alloc::{AllocError, Global};

/// What is listed.
#[derive(Clone, Copy, Drop)]
pub(crate) enum Listed<'n> {
    /// What an image holds, with its objects.
    Objects {
        image: &'n str,
        shown: Shown,
    },
    /// What differs in two images.
    Compared {
        image: &'n str,
        other: &'n str,
        shown: Shown,
    },
    /// What cuts of commands of a script leave.
    Torn {
        image: &'n str,
        script: &'n str,
        options: TearOptions<'n>,
    },
    /// What faults of commands of a script make of them.
    Attacked {
        image: &'n str,
        script: &'n str,
        options: AttackOptions<'n>,
    },
}

/// Lists this, with the names of the map with this name, if there is one.
pub(crate) fn list<'n, D: Disk, W: TextOut, P: Progress + Listener + Remarks>(
    disk: &mut D,
    listed: Listed<'n>,
    map: Option<&'n str>,
    out: &mut W,
    progress: &mut P,
) -> Result<(), Fault<'n>>
    ensures { Does D.does W.contents W.failures disk.old disk.new out.old out.new result
        (IsToldBy (text_of map.entry) (IsListed listed.entry)) }
{
    match map {
        None => {
            let mut words = Vec::new(disk.alloc());
            list_plainly(disk, listed, b"", &mut words, out, progress)
        }
        Some(map) => list_named(disk, listed, map, out, progress),
    }
}

// The same with a map.
fn list_named<'n, D: Disk, W: TextOut, P: Progress + Listener + Remarks>(
    disk: &mut D,
    listed: Listed<'n>,
    map: &'n str,
    out: &mut W,
    progress: &mut P,
) -> Result<(), Fault<'n>>
    ensures { Does D.does W.contents W.failures disk.old disk.new out.old out.new result
        (IsToldBy (Some map.now) (IsListed listed.entry)) }
{
    let names = script_of(disk, map)?;
    remark_on(disk.alloc(), &names, progress);
    let mut words = Vec::new(disk.alloc());
    let mut kept = KeptText::new(disk.alloc());
    let told = list_plainly(disk, listed, &names, &mut words, &mut kept, progress);
    write_named(disk.alloc(), &names, &words, &kept.into_bytes(), told, out)
}

// Lists it without names in the text. The names are for what is reported of word writes and of instructions; of a sweep the words of the image are given
// back.
fn list_plainly<'n, D: Disk, W: TextOut, P: Progress + Listener + Remarks>(
    disk: &mut D,
    listed: Listed<'n>,
    names: &[u8],
    words: &mut Vec<u16>,
    out: &mut W,
    progress: &mut P,
) -> Result<(), Fault<'n>>
    ensures { Does D.does W.contents W.failures disk.old disk.new out.old out.new result
        (IsListed listed.entry) }
{
    match listed {
        Listed::Objects { image, shown } => dump_objects(disk, image, shown, out),
        Listed::Compared {
            image,
            other,
            shown,
        } => compare_images(disk, image, other, shown, out),
        Listed::Torn {
            image,
            script,
            options,
        } => {
            let mut lines = WriteLines::new(disk.alloc(), progress, options.why, names, words);
            tear_image(disk, image, asked_by(script, options), out, &mut lines)
        }
        Listed::Attacked {
            image,
            script,
            options,
        } => {
            let mut lines = WriteLines::new(disk.alloc(), progress, false, names, words);
            attack_image(
                disk,
                image,
                attack_by(script, options, names),
                out,
                &mut lines,
            )
        }
    }
}

// What these options ask of an attack on the script with this name, with the names of a map in what is reported of instructions.
fn attack_by<'n, 'a>(
    script: &'n str,
    options: AttackOptions<'n>,
    names: &'a [u8],
) -> AskedAttack<'n, 'a>
where
    'n: 'a,
    ensures { IsAskedOf script.entry.now (words_ask_by options.entry) (attack_asked_by result) }
{
    AskedAttack {
        script,
        probe: options.probe,
        line: options.line,
        each: options.each,
        part: options.part,
        sought: Sought {
            models: options.models,
            within: options.within,
            accepted: options.accepted.as_bytes(),
            objects: options.objects,
            names,
        },
        instructions: options.instructions.unwrap_or(USUAL_BUDGET),
    }
}

// What these options ask of a sweep over the script with this name.
fn asked_by<'n>(script: &'n str, options: TearOptions<'n>) -> Asked<'n>
    ensures { sweep_asked_by result ≡ sweep_asked script.now (tear_asked_by options.entry) }
{
    let instructions = options.instructions.unwrap_or(USUAL_BUDGET);
    Asked {
        script,
        probe: options.probe,
        line: options.line,
        each: options.each,
        behind: Behind {
            depth: options.depth,
            objects: options.objects,
            instructions,
        },
        part: options.part,
    }
}

// Writes a text that was written to this end, with names in it.
fn write_named<'n, W: TextOut>(
    alloc: Global,
    names: &[u8],
    words: &[u16],
    plain: &[u8],
    told: Result<(), Fault<'n>>,
    out: &mut W,
) -> Result<(), Fault<'n>>
    ensures { Writes W.contents W.failures out.old out.new result (IsNamed plain.now told.entry) }
{
    match with_names(alloc, names, words, plain) {
        Ok(text) => write_told(&text, told, out),
        Err(AllocError) => Err(Fault::NoMemory),
    }
}

// Writes a text, and ends as what was written into memory.
fn write_told<'n, W: TextOut>(
    whole: &[u8],
    told: Result<(), Fault<'n>>,
    out: &mut W,
) -> Result<(), Fault<'n>>
    ensures { Writes W.contents W.failures out.old out.new result (IsWritten whole.now told.entry) }
{
    match write_all(out, whole) {
        Ok(()) => in_memory(told),
        Err(_) => Err(Fault::WriteFailed),
    }
}

// The end of what was written into memory, where a write fails as memory is refused.
fn in_memory<'n>(told: Result<(), Fault<'n>>) -> Result<(), Fault<'n>>
    ensures end { result ≡ in_memory told.entry }
    ensures unwritten { is_unwritten result ≡ false }
{
    match told {
        Err(Fault::WriteFailed) => Err(Fault::NoMemory),
        told => told,
    }
}
