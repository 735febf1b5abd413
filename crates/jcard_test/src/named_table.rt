//! The platform table that a file of rows names.
ghost use Rattle.std.specs.Prelude.{MatchOption};
ghost use Rattle.jcard_test.specs.NamedTable.{IsNamed, IsUnnamed, Names, NamesNone};

use crate::line::{Line, read_line};
use crate::numbered_line::Numbered;
use crate::table_line::TableLine;

/// The platform table that lines name: the first that says something can be `table FILE`.
pub fn named_table(lines: &[Numbered]) -> Option<TableLine<'_>>
    ensures { MatchOption result (IsUnnamed lines.entry.now) (λ table. IsNamed lines.entry.now table) }
{
    for (place, line) in lines.iter().enumerate() {
        match read_line(line.text.as_str()) {
            Line::Nothing => (),
            said => {
                return match name_in(said) {
                    Some(name) => Some(TableLine {
                        number: line.number,
                        name,
                        rest: &lines[place + 1..],
                    }),
                    None => None,
                };
            }
        }
    }
    None
}

// The name of a table, if this is what a line says.
fn name_in(said: Line<'_>) -> Option<&str>
    ensures { MatchOption result (NamesNone said.entry) (λ name. Names name.now said.entry) }
{
    match said {
        Line::Row(command, None) => command.strip_prefix("table "),
        _ => None,
    }
}
