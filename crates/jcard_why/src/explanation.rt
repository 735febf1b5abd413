//! What a command did, and why it was not answered by 9000, as a text.
ghost use Rattle.std.specs.Prelude.{◌≡◌};
ghost use Rattle.jcard_why.specs.Explanation.{most_noted};

use crate::causes::push_cause;
use crate::places::push_spots;
use crate::refusals::push_refusals;
use crate::text::Text;
use crate::traces::push_trace;
use jc_linker::linked::Linked;
use jc_memory::{Note, Spot};
use std::alloc::{AllocError, Global};

/// The status word of a command that was carried out.
const SUCCESS: u16 = 0x9000;

/// This many instructions of a command are counted at most, since each is noted before.
const MOST_COUNTED: u32 = 10_000_000;

/// What is asked about.
#[derive(Drop)]
pub struct Asked<'a> {
    pub alloc: Global,
    /// What was noted of the command.
    pub note: &'a Note,
    /// Its line in the script.
    pub line: u32,
    /// The status word of its answer.
    pub status: u16,
    /// How many instructions the command had.
    pub budget: u32,
    /// The packages of the card.
    pub linked: &'a Linked,
    /// How many word writes passed in it.
    pub word_writes: u64,
    /// How many words of the heap are free after it.
    pub free_words: u16,
    /// A map of methods; empty where there is none.
    pub map: &'a [u8],
    /// The code that came with the command; empty where none did.
    pub lent_code: &'a [u8],
}

/// Which of the instructions that a command carried out are reported.
#[derive(Clone, Copy, Drop)]
pub enum TracedLines {
    /// This many at most, from the first on.
    First(u32),
    /// This many at most, up to the last.
    Last(u32),
}

impl<'a> Asked<'a> {
    /// The code that the offset of a frame counts in.
    pub fn code_at(&self, spot: Spot) -> &[u8] {
        if spot.package_number == 0 {
            return self.lent_code;
        }
        self.linked.code_at(spot.package_number, 0)
    }

    /// Whether an instruction was carried out.
    pub(crate) fn has_run(&self) -> bool {
        match self.note.left {
            Some(left) => left < self.budget,
            None => false,
        }
    }
}

/// What is asked about a command.
#[derive(Clone, Copy, Drop)]
pub struct Wanted {
    /// Why it was not answered by 9000.
    pub why: bool,
    /// These of the instructions that it carried out.
    pub trace: Option<TracedLines>,
    /// How often each instruction was carried out.
    pub cover: bool,
    /// What stands in the frames as places of the code are reached.
    pub stops: bool,
}

impl Wanted {
    /// How many instructions of a command are noted at most.
    pub fn most_noted(&self) -> u32
        ensures { result ≡ most_noted self.now }
    {
        if self.cover || self.stops {
            return MOST_COUNTED;
        }
        match self.trace {
            None => 0,
            Some(TracedLines::First(most)) => most,
            Some(TracedLines::Last(_)) => MOST_COUNTED,
        }
    }
}

/// Says what is wanted of a command: its instructions; and after them, where it was not answered by 9000, why.
pub fn told(asked: &Asked<'_>, wanted: Wanted) -> Result<Vec<u8>, AllocError> {
    let mut text = Text::new(asked.alloc);
    if let Some(lines) = wanted.trace {
        push_trace(&mut text, asked, lines);
    }
    if wanted.why && asked.status != SUCCESS {
        push_why(&mut text, asked);
    }
    text.into_bytes()
}

// Says why a command was not answered by 9000: a line that begins with `why:`, and lines below it.
fn push_why(text: &mut Text, asked: &Asked<'_>) {
    text.push(b"why: line ");
    text.push_number(asked.line);
    text.push(b": ");
    push_cause(text, asked);
    text.push(b"\n");
    push_refusals(text, asked);
    push_spots(text, asked);
    push_cost(text, asked);
}

// What the command cost, where code ran.
fn push_cost(text: &mut Text, asked: &Asked<'_>) {
    let Some(left) = asked.note.left else {
        return;
    };
    text.push(b"  ");
    text.push_count(asked.budget.saturating_sub(left), b"instruction");
    text.push(b", ");
    text.push_count(
        u32::try_from(asked.word_writes).unwrap_or(u32::MAX),
        b"word write",
    );
    text.push(b", up to ");
    text.push_number(u32::from(asked.note.highest));
    text.push(b" of 512 cells, ");
    text.push_count(u32::from(asked.free_words), b"free word");
    text.push(b"\n");
}
