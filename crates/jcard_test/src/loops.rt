//! A loop over lines of a file of rows.
ghost use Rattle.std.specs.Prelude.{◌<◌};

use crate::numbered_line::Numbered;

/// A loop whose end has not come yet: the number of its line, the name of its number, its numbers, and the lines before it.
#[derive(Drop)]
pub(crate) struct Loop {
    pub(crate) number: usize,
    pub(crate) name: String,
    pub(crate) first: u16,
    pub(crate) last: u16,
    pub(crate) before: Vec<Numbered>,
    ghost counted: { 0 < number },
}
