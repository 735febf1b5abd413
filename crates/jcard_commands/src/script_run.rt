//! Carrying out a script on the card of an image.
ghost use Rattle.std.specs.Prelude.{◌≡◌};
ghost use Rattle.jcard_arguments.specs.CommandLine.{run_asked_by};
ghost use Rattle.jcard_files.specs.Effects.{Does};
ghost use Rattle.jcard_files.specs.Fault.{is_unwritten};
ghost use Rattle.jcard_sweeps.specs.ScriptFault.{IsOutcomeOf};
ghost use Rattle.jcard_script.specs.Script.{is_write_failed};
ghost use Rattle.jcard_commands.specs.Commands.{IsRunWith};
ghost use Rattle.jcard_commands.specs.RunOptions.{IsCompared};
ghost use Rattle.jcard_commands.specs.ScriptRun.{IsRun};

use crate::listener::{Listener, Told};
use crate::run_files::{begin_cover, keep_cover, names_of, operands_of};
use jc_card::card::USUAL_BUDGET;
use jc_words::FuseStore;
use jcard_arguments::options::RunOptions;
use jcard_breaks::points::{Point, points_of};
use jcard_files::closed_store::ClosedStore;
use jcard_files::disk::Disk;
use jcard_files::fault::Fault;
use jcard_files::remarks::Remarks;
use jcard_script::expectations::Expectations;
use jcard_script::explainer::Explainer;
use jcard_script::script::{ScriptFault, run_script_explained};
use jcard_sweeps::script_fault::{Names, script_fault};
use jcard_texts::std_text::StdText;
use jcard_texts::streams::TextOut;
use jcard_why::map_remarks::remark_on_map;
use std::alloc::{AllocError, Global};

/// Carries out the script in the file of the second name, on the card of the image of the first, as the options ask.
pub(crate) fn run_with<'n, D: Disk, W: TextOut, L: Listener + Remarks>(
    disk: &mut D,
    image: &'n str,
    script: &'n str,
    options: RunOptions<'n>,
    out: &mut W,
    listener: &mut L,
) -> Result<(), Fault<'n>>
    ensures { Does D.does W.contents W.failures disk.old disk.new out.old out.new result
        (IsRunWith image.now script.now (run_asked_by options.entry)) }
{
    let names = names_of(disk, options.map)?;
    let operands = operands_of(image, script, options.map);
    begin_cover(disk, options.cover, &operands)?;
    remark_on(disk.alloc(), &names, listener);
    let points = points_in(disk.alloc(), &names, options.stops, listener);
    let mut told = Told::new(disk.alloc(), listener, &names, points, &options);
    let budget = options.instructions.unwrap_or(USUAL_BUDGET);
    let ran = run_file(disk, image, script, budget, out, &mut told);
    let compared = compared(options.expect, told.expectations(), ran);
    keep_cover(disk, told.cover(), options.cover, &operands, compared)
}

// The places at which a run is asked to stop; what the map does not have is reported. Without memory for them there are none.
fn points_in<M: Remarks>(
    alloc: Global,
    map: &[u8],
    stops: Option<&str>,
    remarks: &mut M,
) -> Vec<Point> {
    let Some(stops) = stops else {
        return Vec::new(alloc);
    };
    match points_of(alloc, map, stops.as_bytes()) {
        Ok(found) => {
            if !found.remarks.is_empty() {
                remarks.remark(&found.remarks);
            }
            found.points
        }
        Err(AllocError) => Vec::new(alloc),
    }
}

/// Says which line of a map has no form, if one has none. Without memory for it nothing is said.
pub(crate) fn remark_on<M: Remarks>(alloc: Global, map: &[u8], remarks: &mut M) {
    if let Ok(text) = remark_on_map(alloc, map) {
        remarks.remark(&text);
    }
}

// The end of a run whose answers were compared with what its script expects, if that is asked for.
fn compared<'n>(
    expect: bool,
    expectations: &Expectations,
    ran: Result<(), Fault<'n>>,
) -> Result<(), Fault<'n>>
    ensures compared { IsCompared expect ran.entry result }
    ensures unwritten { is_unwritten result ≡ is_unwritten ran.entry }
{
    ran?;
    if !expect {
        return Ok(());
    }
    if let Some(line) = expectations.first_difference() {
        return Err(Fault::OtherAnswer(line));
    }
    if expectations.compared() == 0 {
        return Err(Fault::NothingExpected);
    }
    Ok(())
}

// Carries out the script in the file of the second name, on the card of the image of the first.
fn run_file<'n, D: Disk, W: TextOut, E: Explainer>(
    disk: &mut D,
    image: &'n str,
    script: &'n str,
    budget: u32,
    out: &mut W,
    explainer: &mut E,
) -> Result<(), Fault<'n>>
    ensures { Does D.does W.contents W.failures disk.old disk.new out.old out.new result
        (IsRun budget image.now script.now) }
{
    let store = FuseStore::new(disk.open_image(image)?);
    match disk.open_text(script) {
        Ok(file) => {
            let names = Names { image, script };
            let mut reader = StdText::new(file);
            let (store, carried) = run_script_explained(
                disk.alloc(),
                store,
                budget,
                &mut reader,
                out,
                explainer,
            );
            disk.close_image(image, ClosedStore::new(store.into_store()));
            outcome_of(names, carried)
        }
        Err(fault) => {
            disk.close_image(image, ClosedStore::new(store.into_store()));
            Err(fault)
        }
    }
}

/// What is reported of a script that came to this end, where it and the image have these names.
pub(crate) fn outcome_of<'a>(
    names: Names<'a>,
    carried: Result<(), ScriptFault>,
) -> Result<(), Fault<'a>>
    ensures outcome { IsOutcomeOf names.entry.image.now names.entry.script.now carried result }
    ensures unwritten { is_unwritten result ≡ is_write_failed carried }
{
    match carried {
        Ok(()) => Ok(()),
        Err(cause) => Err(script_fault(names, cause)),
    }
}
