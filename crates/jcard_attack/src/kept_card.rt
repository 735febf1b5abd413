//! The card at a command, which is kept for all its faults: the lines before the command are carried out once.
ghost use Rattle.std.specs.Prelude.{◌≡◌, List, [], ℕ, IfOk, IfSome};
ghost use Rattle.hex.specs.Hex.{encode_upper};
ghost use Rattle.jcard_attack.specs.Aftermaths.{IsAftermath, glitch_line};
ghost use Rattle.jcard_attack.specs.KeptCard.{HasStruck, IsKeptFor, Leaves, LeavesHeap};
ghost use Rattle.jcard_attack.specs.declared.aftermaths.Attacked.{Attacked as AnAttacked};

use crate::aftermaths::push_glitch;
use crate::outcomes::Aftermath;
use jc_card::planned_fault::PlannedFault;
use jc_card::response::Response;
use jc_words::MemStore;
use jcard_outcomes::standing::Left;
use jcard_script::begun::BegunScript;
use jcard_sweeps::at_command::AtCommand;
use jcard_sweeps::runs::{probed, recovered, words_of};
use std::alloc::{AllocError, Global};

/// What the command comes to on a copy of the card, with this fault or without one, and what these lines of a probe are answered then.
/// Nothing where memory is refused, where the power is cut within the command or its probe, where the command opens a load, or where the
/// image is of the first version.
pub(crate) fn aftermath_of_copy(
    alloc: Global,
    kept: &AtCommand,
    fault: Option<PlannedFault>,
    probe: &[u8],
) -> Option<Aftermath>
    ensures { IfSome result (λ a. (words : List ℕ) (c : AnAttacked) → IsKeptFor words c kept.now
        → c.probe.now ≡ probe.now → IsAftermath words c fault a) }
{
    let mut response = Response::empty();
    let next = struck_copy(alloc, kept, fault, &mut response)?;
    let left = left_by(alloc, next, probe)?;
    match digits_of(alloc, response.as_bytes()) {
        Ok(answer) => Some(Aftermath { answer, left }),
        Err(AllocError) => None,
    }
}

// A copy of the card that has carried out the command, with this fault or without one, and its response.
fn struck_copy(
    alloc: Global,
    kept: &AtCommand,
    fault: Option<PlannedFault>,
    response: &mut Response,
) -> Option<BegunScript<MemStore>>
    ensures { IfSome result (λ next. (words : List ℕ) (c : AnAttacked) → IsKeptFor words c kept.now
        → HasStruck words c fault response.new next) }
{
    let Ok(line) = glitch_line(alloc, fault) else {
        return None;
    };
    let (_, glitch) = line.split_last()?;
    kept.begun.after(glitch, kept.command.as_slice(), response)
}

// The line that plans a fault, or none, with its line feed.
fn glitch_line(alloc: Global, fault: Option<PlannedFault>) -> Result<Vec<u8>, AllocError>
    ensures { IfOk result (λ line. line.items ≡ glitch_line fault) }
{
    let mut line = Vec::new(alloc);
    push_glitch(&mut line, fault)?;
    Ok(line)
}

// What a card leaves: the words that a recovery finds, and what the lines of a probe are answered.
fn left_by(alloc: Global, card: BegunScript<MemStore>, probe: &[u8]) -> Option<Left>
    ensures { IfSome result (λ left. Leaves card probe.now left) }
{
    if probe.is_empty() {
        return left_alone(alloc, card);
    }
    let words = words_left(&card);
    let answers = probed(alloc, card, probe)?;
    Some(Left {
        words: words?,
        answers,
    })
}

// The words that a recovery finds of what a copy of a card leaves.
fn words_left(card: &BegunScript<MemStore>) -> Option<Vec<u16>>
    ensures { IfSome result (λ words. LeavesHeap card.now words.items) }
{
    let store = card.copied_store()?;
    recovered(words_of(store)).ok()
}

// What it leaves where nothing is asked.
fn left_alone(alloc: Global, card: BegunScript<MemStore>) -> Option<Left>
    ensures { IfSome result (λ left. Leaves card [] left) }
{
    let store = card.into_store();
    match recovered(words_of(store)) {
        Ok(words) => Some(Left {
            words,
            answers: Vec::new(alloc),
        }),
        Err(_) => None,
    }
}

// Bytes in hexadecimal digits, in upper case.
fn digits_of(alloc: Global, bytes: &[u8]) -> Result<Vec<u8>, AllocError>
    ensures { IfOk result (λ digits. digits.items ≡ encode_upper bytes.now) }
{
    let digits = hex::encode_upper(alloc, bytes)?;
    Vec::from_slice(alloc, digits.as_bytes())
}
