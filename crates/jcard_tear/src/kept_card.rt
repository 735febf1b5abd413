//! The card at a command, which is kept for all its cuts: the lines before the command are carried out once.
ghost use Rattle.std.specs.Prelude.{◌≡◌, ◌<◌, ◌++◌, ℕ, List, codes, decimal, length, vec_len, IfOk, IfSome};
ghost use Rattle.jc_commit.specs.Image.{plain_of, recovered_of};
ghost use Rattle.jcard_tear.specs.KeptCard.{IsKeptCut, IsKeptFor, IsShort};
ghost use Rattle.jcard_sweeps.specs.Runs.{IsRecovered};
ghost use Rattle.jcard_sweeps.specs.declared.command.Command.{Command as CommandText};

use crate::recoveries::journal_of;
use itoa::Buffer;
use jc_words::WordStore;
use jcard_outcomes::recoveries::Depth;
use jcard_sweeps::at_command::{AtCommand, at_command};
use jcard_sweeps::command::Command;
use jcard_sweeps::runs::{recovered, words_of};
use std::alloc::{AllocError, Global};

/// What came of a cut of a copy of a card at a command.
#[derive(Drop)]
pub(crate) enum KeptCut {
    /// The command makes no more writes.
    Uncut,
    /// What a recovery then left.
    Left(Vec<u16>),
}

/// The card of a copy of these words at a command. Nothing where its line is no command that a line feed ends, where the lines before it
/// lead to no card that is up, or where recoveries are to be cut.
pub(crate) fn kept_for(alloc: Global, words: &[u16], command: Command) -> Option<AtCommand>
    requires { length words.now < 65536 }
    ensures { IfSome result (λ kept. IsKeptFor words.now command.entry kept) }
{
    let Depth::Zero = command.behind.depth else {
        return None;
    };
    at_command(
        alloc,
        words,
        command.behind.instructions,
        command.before,
        command.line,
    )
}

/// Cuts a copy of the card after this many writes of the command, and recovers what is left. Nothing where memory is refused, or
/// where the image is of the first version.
pub(crate) fn cut_copy(alloc: Global, kept: &AtCommand, number: u16) -> Option<KeptCut>
    ensures cut { IfSome result (λ cut. (words : List ℕ) (c : CommandText)
        → IsKeptFor words c kept.now → IsKeptCut words c number cut) }
    ensures short { IfSome result IsShort }
{
    let Ok(stop) = stop_line(alloc, number) else {
        return None;
    };
    let store = kept.begun.cut(&stop, kept.command.as_slice())?;
    if !store.is_down() {
        return Some(KeptCut::Uncut);
    }
    let found = recovered_alike(words_of(store))?;
    Some(KeptCut::Left(found))
}

// What a recovery of these words leaves; nothing where no journal is found in them, as in an image of the first version.
fn recovered_alike(words: Vec<u16>) -> Option<Vec<u16>>
    requires { vec_len words < 65536 }
    ensures recovered { IfSome result (λ found. IsRecovered found.items) }
    ensures heap { IfSome result (λ found. plain_of found.items ≡ recovered_of words.items) }
    ensures short { IfSome result (λ found. vec_len found < 65536) }
{
    journal_of(&words)?;
    recovered(words).ok()
}

// The line `stop K`, without its line feed.
fn stop_line(alloc: Global, number: u16) -> Result<Vec<u8>, AllocError>
    ensures { IfOk result (λ line. line.items ≡ codes "stop " ++ decimal number) }
{
    let mut digits = Buffer::new();
    let mut line = Vec::from_slice(alloc, b"stop ")?;
    line.extend_from_slice(digits.format(number).as_bytes())?;
    Ok(line)
}
