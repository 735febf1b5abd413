//! New cards, and the rows that each is given.
ghost use Rattle.std.specs.Prelude.{◌≡◌, ◌≤◌, ℕ, List, Option, codes, IfOk, OnOk, MatchOption, option_map, unwrap_or};
ghost use Rattle.std.specs.Borrow.{Bor};
ghost use Rattle.jcard_test.specs.Cards.{AddsRow, AreCardsOf, IsNewCard, IsRow, IsRowOfLine, IsSweep, IsSwept, IsSweptBehind, IsUnswept, said_sweep, sweep_of};

use crate::line::{Line, read_line};
use crate::numbered_line::Numbered;
use jcard_outcomes::card_rows::CardRows;
use jcard_outcomes::row::Row;
use std::alloc::{AllocError, Global};

/// The fewest words that a card has.
const LEAST: u16 = 4096;

/// The cards that lines make by `card WORDS`, after one of this many words with which they begin, and the rows of each; 9000 is wanted where a
/// row says nothing. The row after a line `tear all-or-nothing` or `attack none-accepted` is swept. A directive that
/// is left is a row too, which no card answers.
pub fn cards_of(alloc: Global, first: u16, lines: &[Numbered]) -> Result<Vec<CardRows>, AllocError>
    requires { 4096 ≤ first }
    ensures { IfOk result (λ cards. AreCardsOf first lines.now cards.items) }
{
    let mut cards = Vec::new(alloc);
    let mut words = first;
    let mut rows = Vec::new(alloc);
    for line in lines {
        let Some(row) = row_of(alloc, line)? else {
            continue;
        };
        match card_size(row.command.as_str()) {
            Some(size) => {
                cards.push(CardRows { words, rows })?;
                words = size;
                rows = Vec::new(alloc);
            }
            None => push_row(alloc, &mut rows, row)?,
        }
    }
    cards.push(CardRows { words, rows })?;
    Ok(cards)
}

// How a row is swept: its power is cut, or it is attacked with this line of a probe.
#[derive(Drop)]
struct Sweep {
    attacked: bool,
    probe: Vec<u8>,
}

// What a line says of that.
#[derive(Clone, Copy, Drop)]
struct SaidSweep<'a> {
    attacked: bool,
    probe: &'a str,
}

// Adds a row, which is swept where the one before it says so, and stands in its place.
fn push_row(alloc: Global, rows: &mut Vec<Row>, row: Row) -> Result<(), AllocError>
    ensures { OnOk result (AddsRow rows.old.items row rows.new.items) }
{
    let Some(sweep) = sweep_before(alloc, rows, row.command.as_str())? else {
        rows.push(row)?;
        return Ok(());
    };
    let _directive = rows.pop();
    rows.push(swept(row, sweep))?;
    Ok(())
}

// How the last row says that one with this command, which says no such thing itself, is swept.
fn sweep_before(alloc: Global, rows: &[Row], command: &str) -> Result<Option<Sweep>, AllocError>
    ensures { IfOk result (λ asked. MatchOption asked (IsUnswept rows.now command.now)
        (λ sweep. IsSweptBehind rows.now command.now (sweep_of sweep))) }
{
    if sweep_in(command).is_some() {
        return Ok(None);
    }
    let Some(last) = rows.last() else {
        return Ok(None);
    };
    let Some(said) = sweep_in(last.command.as_str()) else {
        return Ok(None);
    };
    let probe = Vec::from_slice(alloc, said.probe.as_bytes())?;
    Ok(Some(Sweep {
        attacked: said.attacked,
        probe,
    }))
}

// What a line says of how the row after it is swept.
fn sweep_in(command: &str) -> Option<SaidSweep<'_>>
    ensures { MatchOption result ((probe : Option (List ℕ)) → IsSweep command.now probe → ⊥)
        (λ said. IsSweep command.now (said_sweep said)) }
{
    if command == "tear all-or-nothing" {
        return Some(SaidSweep {
            attacked: false,
            probe: "",
        });
    }
    let Some(probe) = command.strip_prefix("attack none-accepted") else {
        return None;
    };
    Some(SaidSweep {
        attacked: true,
        probe,
    })
}

// The row, swept.
fn swept(row: Row, sweep: Sweep) -> Row
    ensures { IsSwept row (sweep_of sweep) result }
{
    Row {
        number: row.number,
        command: row.command,
        wanted: row.wanted,
        swept: true,
        attacked: sweep.attacked,
        probe: sweep.probe,
    }
}

// The row of a line, if it is one.
fn row_of(alloc: Global, line: &Numbered) -> Result<Option<Row>, AllocError>
    ensures { IfOk result (λ row. IsRowOfLine line.now row) }
{
    match read_line(line.text.as_str()) {
        Line::Nothing => Ok(None),
        Line::Row(command, answer) => {
            let row = new_row(alloc, line.number, command, wanted_of(answer))?;
            Ok(Some(row))
        }
        _ => {
            let row = new_row(alloc, line.number, line.text.as_str(), "9000")?;
            Ok(Some(row))
        }
    }
}

// What is wanted where a row says this after its command, or nothing.
fn wanted_of(answer: Option<&str>) -> &str
    ensures { result.now ≡ unwrap_or (option_map (λ (told : Bor (List ℕ)). told.now) answer.entry)
        (codes "9000") }
{
    match answer {
        Some(told) => told,
        None => "9000",
    }
}

fn new_row(alloc: Global, number: usize, command: &str, wanted: &str) -> Result<Row, AllocError>
    ensures { IfOk result (λ row. IsRow number command.now wanted.now row) }
{
    Ok(Row {
        number,
        command: String::from_str(alloc, command)?,
        wanted: String::from_str(alloc, wanted)?,
        swept: false,
        attacked: false,
        probe: Vec::new(alloc),
    })
}

// How many words the card has that a line makes, where it makes one.
fn card_size(command: &str) -> Option<u16>
    ensures { MatchOption result ((words : ℕ) → IsNewCard command.now words → ⊥)
        (λ words. IsNewCard command.now words) }
{
    let words = command.strip_prefix("card ")?.parse::<u16>().ok()?;
    if words < LEAST { None } else { Some(words) }
}
