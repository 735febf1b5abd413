//! Rows that are answered by new cards in memory.
ghost use Rattle.std.specs.Prelude.{◌≡◌, ◌≤◌, ◌<◌, ◌++◌, length, ℕ, List, Bool, Result, MatchResult, IfOk, IsSomeAnd, option_map, false};
ghost use Rattle.jc_words.specs.Store.{FuseStoreValue};
ghost use Rattle.jcard_script.specs.Script.{EndsWithin};
ghost use Rattle.jcard_script.specs.declared.script.ScriptFault.{ScriptFault};
ghost use Rattle.jcard_outcomes.specs.Failure.{IsCompared};
ghost use Rattle.jcard_outcomes.specs.Row.{script_text};
ghost use Rattle.jcard_files.specs.FileDeeds.{fresh_store};
ghost use Rattle.jcard_files.specs.NewImage.{IsNewImageOf};
ghost use Rattle.jcard_test.specs.Tests.{AreAnsweredOn, AreSwept, EndsOn, IsOutcome, IsPrinted, IsSweptFailure, IsToldOf, IsUnanswered, lacked_memory, wanted_of, with_a_row};

use crate::plan::Plan;
use crate::row_sweep::told_of_sweep;
use crate::timed_text::{Printed, TimedText};
use crate::timer::Timer;
use jc_card::power_up::PowerFault;
use jc_platform::fault::TableFault;
use jc_platform::read::read_table;
use jc_words::{FuseStore, MemStore, WordStore};
use jcard_files::extent::Extent;
use jcard_files::fault::Fault;
use jcard_files::memory_image::new_image;
use jcard_outcomes::card_rows::CardRows;
use jcard_outcomes::failure::first_failure;
use jcard_outcomes::row::{Row, script};
use jcard_outcomes::tested::{Failure, Outcome};
use jcard_script::explainer::Unasked;
use jcard_script::script::{ScriptFault, run_script_explained};
use jcard_texts::mem_text::MemText;
use std::alloc::{AllocError, Global};

/// What comes of the rows of these cards, each of which is new, is as planned, and is given its rows: the first row that is not answered
/// as it says, or, where all are, the first whose sweep is not well; or how many hold. Without a row that is a
/// failure. The time that each took is added to those.
pub(crate) fn outcome_of<'n, T: Timer>(
    alloc: Global,
    plan: &Plan,
    cards: &[CardRows],
    timer: &T,
    times: &mut Vec<u64>,
) -> Result<Outcome, Fault<'n>>
    ensures { MatchResult result (λ outcome. IsOutcome plan.now cards.now outcome)
        (λ fault. IsUnanswered plan.now fault) }
{
    let outcome = rows_outcome(alloc, plan, cards, timer, times)?;
    Ok(with_a_row(outcome))
}

// That no row is there is a failure.
fn with_a_row(outcome: Outcome) -> Outcome
    ensures { result ≡ with_a_row outcome }
{
    match outcome {
        Outcome::Held(rows) => {
            if rows == 0 {
                return Outcome::NoRow;
            }
            Outcome::Held(rows)
        }
        other => other,
    }
}

// What comes of the rows, of which none can be there.
fn rows_outcome<'n, T: Timer>(
    alloc: Global,
    plan: &Plan,
    cards: &[CardRows],
    timer: &T,
    times: &mut Vec<u64>,
) -> Result<Outcome, Fault<'n>>
    ensures { MatchResult result (λ outcome. AreAnsweredOn plan.now cards.now 0 outcome)
        (λ fault. IsUnanswered plan.now fault) }
{
    let mut passed = 0usize;
    for card in cards {
        match first_failure_on(alloc, plan, card, passed, timer, times)? {
            Some(failure) => return Ok(Outcome::Failed(failure)),
            None => passed = passed.saturating_add(card.rows.as_slice().len()),
        }
    }
    Ok(Outcome::Held(passed))
}

// The first row of a card that does not hold, after this many that do.
fn first_failure_on<'n, T: Timer>(
    alloc: Global,
    plan: &Plan,
    card: &CardRows,
    passed: usize,
    timer: &T,
    times: &mut Vec<u64>,
) -> Result<Option<Failure>, Fault<'n>>
    ensures { MatchResult result (λ failure. EndsOn plan.now card.now passed failure)
        (λ fault. IsUnanswered plan.now fault) }
{
    match failure_on(alloc, plan, card, passed, timer, times)? {
        Some(failure) => Ok(Some(failure)),
        None => swept_failure_on(alloc, plan, card.words, &card.rows, passed),
    }
}

// The first row of a card that is not answered as it says, after this many that hold.
fn failure_on<'n, T: Timer>(
    alloc: Global,
    plan: &Plan,
    card: &CardRows,
    passed: usize,
    timer: &T,
    times: &mut Vec<u64>,
) -> Result<Option<Failure>, Fault<'n>>
    ensures { MatchResult result (λ failure. (text : List ℕ)
        × IsPrinted plan.now card.now.words (script_text card.now.rows.items) text
        × IsCompared card.now.rows.items text passed failure) (λ fault. IsUnanswered plan.now fault) }
{
    let Ok(script) = script(alloc, &card.rows) else {
        return Err(Fault::NoMemory);
    };
    let text = answers(alloc, plan, card.words, &script, timer, times)?;
    match first_failure(alloc, &card.rows, &text, passed) {
        Ok(failure) => Ok(failure),
        Err(AllocError) => Err(Fault::NoMemory),
    }
}

// What a script prints on a new card of this many words. When its lines came is added to those times, where there is memory for that.
fn answers<'n, T: Timer>(
    alloc: Global,
    plan: &Plan,
    words: u16,
    script: &[u8],
    timer: &T,
    times: &mut Vec<u64>,
) -> Result<Vec<u8>, Fault<'n>>
    requires { 4096 ≤ words }
    ensures { MatchResult result (λ text. IsPrinted plan.now words script.now text.items)
        (λ fault. IsUnanswered plan.now fault) }
{
    let store = new_card(alloc, plan, words)?;
    let mut printed = printed(alloc, store, script, plan.budget, timer)?;
    let _ = times.append(&mut printed.times);
    Ok(printed.text)
}

// The store of a new card of this many words.
fn new_card<'n>(alloc: Global, plan: &Plan, words: u16) -> Result<MemStore, Fault<'n>>
    requires { 4096 ≤ words }
    ensures { MatchResult result (λ store. IsNewImageOf words plan.now.extent.room
        plan.now.table.items store.words × (store.passed ≡ 0))
        (λ fault. IsUnanswered plan.now fault) }
{
    match read_table(&plan.table) {
        Ok(_) => {
            let extent = Extent {
                count: words,
                room: plan.extent.room,
            };
            new_image(alloc, extent, &plan.table)
        }
        Err(TableFault::BadTable(line)) => Err(Fault::BadTable(line)),
    }
}

// What a script prints on the card of this store, up to its end or to a line that is not carried out.
fn printed<'n, T: Timer>(
    alloc: Global,
    store: MemStore,
    script: &[u8],
    budget: u32,
    timer: &T,
) -> Result<Printed, Fault<'n>>
    requires { store.passed ≡ 0 }
    ensures { MatchResult result (λ printed. (read rest : List ℕ)
        × (carried : Result Unit ScriptFault) × (at_end : Bool) × (after : FuseStoreValue)
        × (script.now ≡ read ++ rest)
        × EndsWithin budget carried (fresh_store store.words) after at_end read printed.text.items
        × (lacked_memory carried ≡ false)) (λ fault. fault ≡ Fault.NoMemory) }
{
    let Ok(mut reader) = MemText::new(alloc, script, 0) else {
        return Err(Fault::NoMemory);
    };
    let mut writer = TimedText::new(alloc, timer);
    let (_store, ended) = run_script_explained(
        alloc,
        FuseStore::new(store),
        budget,
        &mut reader,
        &mut writer,
        &mut Unasked,
    );
    if lacked_memory(ended) {
        return Err(Fault::NoMemory);
    }
    Ok(writer.into_printed())
}

// Whether a script came to this end for want of memory.
fn lacked_memory(ended: Result<(), ScriptFault>) -> bool
    ensures { result ≡ lacked_memory ended }
{
    match ended {
        Err(ScriptFault::WriteFailed) => true,
        Err(ScriptFault::PowerFault(PowerFault::NoMemory)) => true,
        _ => false,
    }
}

// The first of these rows, on a card of this many words, whose sweep is not well, after this many rows that hold.
fn swept_failure_on<'n>(
    alloc: Global,
    plan: &Plan,
    words: u16,
    rows: &[Row],
    passed: usize,
) -> Result<Option<Failure>, Fault<'n>>
    requires { 4096 ≤ words }
    ensures { MatchResult result (λ failure. AreSwept plan.now words rows.now passed failure)
        (λ fault. IsUnanswered plan.now fault) }
{
    for (place, row) in rows.iter().enumerate() {
        if let Some(told) = told_of(alloc, plan, words, &rows[..place], row)? {
            return failure_of(alloc, row, passed.saturating_add(place), told);
        }
    }
    Ok(None)
}

fn failure_of<'n>(
    alloc: Global,
    row: &Row,
    passed: usize,
    told: Vec<u8>,
) -> Result<Option<Failure>, Fault<'n>>
    ensures { MatchResult result (λ failure. IsSomeAnd failure (λ f. IsSweptFailure row.now passed
        told.items f)) (λ fault. fault ≡ Fault.NoMemory) }
{
    match swept_failure(alloc, row, passed, told) {
        Ok(failure) => Ok(Some(failure)),
        Err(AllocError) => Err(Fault::NoMemory),
    }
}

// The failure of a swept row after this many that hold, of whose sweep this is reported.
fn swept_failure(
    alloc: Global,
    row: &Row,
    passed: usize,
    told: Vec<u8>,
) -> Result<Failure, AllocError>
    ensures { IfOk result (λ failure. IsSweptFailure row.now passed told.items failure) }
{
    Ok(Failure {
        passed,
        number: row.number,
        command: String::from_str(alloc, row.command.as_str())?,
        wanted: String::from_str(alloc, wanted_of(row))?,
        told,
    })
}

// What a sweep of a row is to show.
fn wanted_of(row: &Row) -> &'static str
    ensures { result.now ≡ wanted_of row.now }
{
    if row.attacked {
        "none accepted"
    } else {
        "all or nothing"
    }
}

// What is reported of the sweep of the row after these, if it is swept and that is not well.
fn told_of<'n>(
    alloc: Global,
    plan: &Plan,
    words: u16,
    before: &[Row],
    row: &Row,
) -> Result<Option<Vec<u8>>, Fault<'n>>
    requires { 4096 ≤ words }
    ensures { MatchResult result (λ found. IsToldOf plan.now words before.now row.now
        (option_map (λ told. told.items) found)) (λ fault. IsUnanswered plan.now fault) }
{
    if !row.swept {
        return Ok(None);
    }
    let store = new_card(alloc, plan, words)?;
    match told_of_sweep(alloc, &store, before, row, plan.budget) {
        Ok(found) => Ok(found),
        Err(AllocError) => Err(Fault::NoMemory),
    }
}
