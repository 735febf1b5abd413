//! The line of a file of rows that names its platform table.
ghost use Rattle.std.specs.Prelude.{◌<◌};

use crate::numbered_line::Numbered;

/// The line that names the file of a platform table: its number, the file's name, and the lines after it.
#[derive(Drop)]
pub struct TableLine<'a> {
    pub number: usize,
    pub name: &'a str,
    pub rest: &'a [Numbered],
    ghost counted: { 0 < number },
}
