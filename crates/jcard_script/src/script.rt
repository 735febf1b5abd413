//! Carrying out a script.
ghost use Rattle.std.specs.Prelude.{◌≡◌, ℕ, List, Bool};
ghost use Rattle.std.specs.Bool.{OnTrue};
ghost use Rattle.std.specs.Io.KnownBytes.{Appends, Consumes};
ghost use Rattle.jc_words.specs.Count.{failures_after};
ghost use Rattle.jc_words.specs.Refusals.{IsWithinFuse};
ghost use Rattle.jcard_script.specs.Script.{Ends, EndsSelecting, EndsWithin, IsWholeScript, is_read_failed, is_write_failed};

use crate::explainer::{Explainer, Unasked};
use crate::session::Session;
use jc_card::card::USUAL_BUDGET;
use jc_card::power_up::PowerFault;
use jc_environment::Aid;
use jc_memory::Notes;
use jc_words::{FuseStore, WordStore};
use jcard_texts::streams::{TextIn, TextOut};
use jcard_why::explanation::Wanted;
use std::alloc::{AllocError, Global};
use thiserror::Error;

/// The most bytes of a script that are carried out.
pub const BOUND: usize = 16_777_216;

/// Why a script was not carried out to its end.
#[derive(Clone, Copy, Debug, Error, Drop)]
pub enum ScriptFault {
    /// The script could not be read on. The lines that a line feed ended in what was read are
    /// carried out.
    #[error("the script cannot be read")]
    ReadFailed,
    /// An answer could not be written, or only a beginning of it.
    #[error("an answer cannot be written")]
    WriteFailed,
    /// This line, counted from 1, has no form. Those before it are carried out.
    #[error("line {0} has no form")]
    BadLine(u32),
    /// The script has more bytes than the bound. The lines that a line feed ends within the bound
    /// are carried out.
    #[error("the script is too long")]
    TooLong,
    /// The card does not power up, at the beginning or at a reset. The lines before it are carried
    /// out. The fault is not that the store refused a write.
    #[error("the card does not power up")]
    PowerFault(PowerFault),
}

/// Powers a card up over a store with a fuse, with the usual budget of instructions, carries out the lines of a script on it, writes each
/// answer before more of the script is read, and gives the store back.
///
/// A line ends at a line feed, which the last may lack; a carriage return before a line feed
/// belongs to neither line. A line that is empty or begins with '#' is skipped. `reset` brings the
/// power back and powers up; `stop` with a number from 0 to 65,535 arms the fuse; `glitch` with the number of an instruction and `skip`, `turn` or
/// `zero`, once or twice, plans a fault or two for each command up to a reset (of two, the second is counted from the first), `glitch none` none.
/// Any other line is a command in hexadecimal, in either case, with spaces anywhere, and its response is written in
/// upper case, with a line feed. Where the store refuses a write, the session is down until a
/// reset, and a command is answered `down`.
pub fn run_script<S: WordStore + Drop, R: TextIn, W: TextOut>(
    alloc: Global,
    fuse: FuseStore<S>,
    reader: &mut R,
    writer: &mut W,
) -> (FuseStore<S>, Result<(), ScriptFault>)
    ensures script { (script text : List ℕ) × (at_end : Bool)
        × Consumes (R.remaining reader.old) (R.remaining reader.new) script
        × Appends (W.contents writer.old) (W.contents writer.new) text
        × OnTrue at_end (IsWholeScript (R.remaining reader.new) script)
        × Ends result.1 fuse result.0 at_end script text }
    ensures reads { R.failures reader.new ≡ failures_after (R.failures reader.old)
        (is_read_failed result.1) }
    ensures writes { W.failures writer.new ≡ failures_after (W.failures writer.old)
        (is_write_failed result.1) }
    // Its fuse let no more writes pass than it was set to.
    ensures within { IsWithinFuse result.0.passed result.0.refusals.fuse }
{
    run_script_explained(alloc, fuse, USUAL_BUDGET, reader, writer, &mut Unasked)
}

/// The same with any budget of instructions a command; and after each answer of a command the explainer is shown what it wants to
/// know.
pub fn run_script_explained<S: WordStore + Drop, R: TextIn, W: TextOut, E: Explainer>(
    alloc: Global,
    fuse: FuseStore<S>,
    budget: u32,
    reader: &mut R,
    writer: &mut W,
    explainer: &mut E,
) -> (FuseStore<S>, Result<(), ScriptFault>)
    ensures script { (script text : List ℕ) × (at_end : Bool)
        × Consumes (R.remaining reader.old) (R.remaining reader.new) script
        × Appends (W.contents writer.old) (W.contents writer.new) text
        × OnTrue at_end (IsWholeScript (R.remaining reader.new) script)
        × EndsWithin budget result.1 fuse result.0 at_end script text }
    ensures reads { R.failures reader.new ≡ failures_after (R.failures reader.old)
        (is_read_failed result.1) }
    ensures writes { W.failures writer.new ≡ failures_after (W.failures writer.old)
        (is_write_failed result.1) }
    // Its fuse let no more writes pass than it was set to.
    ensures within { IsWithinFuse result.0.passed result.0.refusals.fuse }
{
    let (store, result, _selected) = run_script_selecting(
        alloc, fuse, budget, reader, writer, explainer,
    );
    (store, result)
}

/// The same, with the AID of the applet that is selected at the end; nothing where none is, or the card is down.
pub fn run_script_selecting<S: WordStore + Drop, R: TextIn, W: TextOut, E: Explainer>(
    alloc: Global,
    fuse: FuseStore<S>,
    budget: u32,
    reader: &mut R,
    writer: &mut W,
    explainer: &mut E,
) -> (FuseStore<S>, Result<(), ScriptFault>, Option<Aid>)
    ensures script { (script text : List ℕ) × (at_end : Bool)
        × Consumes (R.remaining reader.old) (R.remaining reader.new) script
        × Appends (W.contents writer.old) (W.contents writer.new) text
        × OnTrue at_end (IsWholeScript (R.remaining reader.new) script)
        × EndsSelecting budget result.1 fuse result.0 at_end script text result.2 }
    ensures reads { R.failures reader.new ≡ failures_after (R.failures reader.old)
        (is_read_failed result.1) }
    ensures writes { W.failures writer.new ≡ failures_after (W.failures writer.old)
        (is_write_failed result.1) }
    // Its fuse let no more writes pass than it was set to.
    ensures within { IsWithinFuse result.0.passed result.0.refusals.fuse }
{
    let notes = notes_for(alloc, explainer.wanted());
    if let Some(watch) = explainer.watch() {
        watch.follow(notes.share());
    }
    let (mut session, started) = Session::start(alloc, fuse, budget, notes);
    if let Err(fault) = started {
        return (
            session.into_store(),
            Err(ScriptFault::PowerFault(fault)),
            None,
        );
    }
    let result = session.run(reader, writer, explainer);
    let selected = session.selected_aid();
    (session.into_store(), result, selected)
}

// Notes that are kept where somebody wants to know of them and there is memory.
fn notes_for(alloc: Global, wanted: Option<Wanted>) -> Notes {
    let Some(wanted) = wanted else {
        return Notes::nowhere();
    };
    match Notes::kept(alloc, Some(wanted.most_noted())) {
        Ok(notes) => notes,
        Err(AllocError) => Notes::nowhere(),
    }
}
