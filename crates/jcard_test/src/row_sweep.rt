//! What is reported of a row that is swept: its power is cut after each of its writes, or it is attacked at each of its instructions.
ghost use Rattle.std.specs.Prelude.{◌≡◌, ◌<◌, ◌++◌, codes, length, IfOk, option_map};
ghost use Rattle.jcard_sweeps.specs.ScriptLines.{line_of};
ghost use Rattle.jcard_test.specs.Cards.{probe_of};
ghost use Rattle.jcard_test.specs.RowSweep.{IsToldOfFaults, IsToldOfLine, IsToldOfSweep, IsToldOfSweptLine, IsUsual};

use jc_words::{MemStore, WordStore};
use jcard_attack::aftermaths::AttackFault;
use jcard_attack::each::attacked_in;
use jcard_attack::report::accepted;
use jcard_attack::sweep::{Sought, attack};
use jcard_outcomes::models::Models;
use jcard_outcomes::row::{Row, line, script};
use jcard_outcomes::verdict::broken;
use jcard_sweeps::command::Behind;
use jcard_sweeps::progress::Nobody;
use jcard_sweeps::script_lines::ScriptLine;
use jcard_sweeps::sweep_fault::TearFault;
use jcard_tear::cuts::FollowUp;
use jcard_tear::each::tear_line;
use std::alloc::{AllocError, Global};

/// What is reported of the sweep of the row after these, on cards of copies of this store: nothing where it is well.
pub(crate) fn told_of_sweep(
    alloc: Global,
    store: &MemStore,
    before: &[Row],
    row: &Row,
    budget: u32,
) -> Result<Option<Vec<u8>>, AllocError>
    ensures { IfOk result (λ found. IsToldOfSweep budget store.now.words before.now row.now
        (option_map (λ told. told.items) found)) }
{
    let _ = store.size(); // so that the proof knows that there are fewer than 65,536 words
    let script = script(alloc, before)?;
    let line = line(alloc, row)?;
    let command = ScriptLine {
        number: row.number,
        before: &script,
        line: &line,
    };
    told_of_swept_line(alloc, store.words(), command, row, budget)
}

// What is reported of a line over these words, which is swept as this row is.
fn told_of_swept_line(
    alloc: Global,
    words: &[u16],
    command: ScriptLine,
    row: &Row,
    budget: u32,
) -> Result<Option<Vec<u8>>, AllocError>
    requires { length words.now < 65536 }
    ensures { IfOk result (λ found. IsToldOfSweptLine budget words.now (line_of command.entry)
        (probe_of row.now) (option_map (λ told. told.items) found)) }
{
    if row.attacked {
        return told_of_faults(alloc, words, command, &row.probe, budget);
    }
    told_of_line(alloc, words, command, budget)
}

// What is reported of the cuts of a line over these words.
fn told_of_line(
    alloc: Global,
    words: &[u16],
    command: ScriptLine,
    budget: u32,
) -> Result<Option<Vec<u8>>, AllocError>
    requires { length words.now < 65536 }
    ensures { IfOk result (λ found. IsToldOfLine budget words.now (line_of command.entry)
        (option_map (λ told. told.items) found)) }
{
    let behind = Behind::nothing_more(budget);
    let follow_up = FollowUp {
        probe: None,
        behind,
    };
    match tear_line(alloc, words, command, follow_up, &mut Nobody) {
        Ok(sweep) => broken(alloc, &sweep.cuts),
        Err(TearFault::NoMemory) => Err(AllocError),
        Err(_) => Ok(Some(Vec::from_slice(alloc, b"not cut")?)),
    }
}

// What is reported of the faults of a line over these words, after each of which the line of this probe comes.
fn told_of_faults(
    alloc: Global,
    words: &[u16],
    command: ScriptLine,
    probe: &[u8],
    budget: u32,
) -> Result<Option<Vec<u8>>, AllocError>
    requires { length words.now < 65536 }
    ensures { IfOk result (λ found. IsToldOfFaults budget words.now (line_of command.entry)
        probe.now (option_map (λ told. told.items) found)) }
{
    let probe = ended(alloc, probe)?;
    let attacked = attacked_in(command, &probe, budget);
    match attack(alloc, words, attacked, usual_faults(), None) {
        Ok(sweep) => accepted(alloc, &sweep.strikes),
        Err(AttackFault::NoMemory) => Err(AllocError),
        Err(_) => Ok(Some(Vec::from_slice(alloc, b"not attacked")?)),
    }
}

// One fault of each model, none of which may get 9000.
fn usual_faults<'a>() -> Sought<'a>
    ensures { IsUsual result }
{
    Sought {
        models: Models::all(),
        within: 0,
        accepted: b"9000",
        objects: false,
        names: b"",
    }
}

// A line with its line feed.
fn ended(alloc: Global, line: &[u8]) -> Result<Vec<u8>, AllocError>
    ensures { IfOk result (λ all. all.items ≡ line.now ++ codes "\n") }
{
    let mut all = Vec::from_slice(alloc, line)?;
    all.extend_from_slice(b"\n")?;
    Ok(all)
}
