//! What came of files of rows.

use crate::card_rows::CardRows;

/// What came of a file of rows.
#[derive(Drop)]
pub enum Outcome {
    /// It has no row, which is a failure.
    NoRow,
    /// All its rows hold, of which there are this many.
    Held(usize),
    /// A row is not answered as it says.
    Failed(Failure),
}

/// The first row of a file that is not answered as it says: how many rows before it hold, the number of its line, what it says, and what
/// was reported; nothing where the card did not answer.
#[derive(Drop)]
pub struct Failure {
    pub passed: usize,
    pub number: usize,
    pub command: String,
    pub wanted: String,
    pub told: Vec<u8>,
}

/// A file of rows, by its name: its cards, the microseconds that each of their rows took to be answered, and what came of them.
#[derive(Drop)]
pub struct Tested<'a> {
    pub name: &'a str,
    pub cards: Vec<CardRows>,
    pub times: Vec<u64>,
    pub outcome: Outcome,
}
