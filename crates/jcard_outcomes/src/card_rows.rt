//! A new card, with the rows that it is given.
ghost use Rattle.std.specs.Prelude.{◌≤◌};

use crate::row::Row;

/// A new card of this many words, and the rows that it is given.
#[derive(Drop)]
pub struct CardRows {
    pub words: u16,
    pub rows: Vec<Row>,
    ghost enough: { 4096 ≤ words },
}
