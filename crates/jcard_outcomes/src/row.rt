//! Rows, and the script of their lines.
ghost use Rattle.std.specs.Prelude.{◌≡◌, ◌++◌, IfOk, OnOk};
ghost use Rattle.jcard_outcomes.specs.Row.{line_text, script_text};

use std::alloc::{AllocError, Global};

/// A row: the number of its line in its file, a line of a script, the answer that is wanted, and whether it is swept: the power is cut after
/// each of its writes, or it is attacked by a fault at each of its instructions, after each of which the line of the probe comes.
#[derive(Drop)]
pub struct Row {
    pub number: usize,
    pub command: String,
    pub wanted: String,
    pub swept: bool,
    pub attacked: bool,
    pub probe: Vec<u8>,
}

/// The script of the lines of rows, each with a line feed.
pub fn script(alloc: Global, rows: &[Row]) -> Result<Vec<u8>, AllocError>
    ensures { IfOk result (λ script. script.items ≡ script_text rows.now) }
{
    let mut script = Vec::new(alloc);
    for row in rows {
        push_line(&mut script, row)?;
    }
    Ok(script)
}

/// The line of a row, with a line feed.
pub fn line(alloc: Global, row: &Row) -> Result<Vec<u8>, AllocError>
    ensures { IfOk result (λ line. line.items ≡ line_text row.now) }
{
    let mut line = Vec::new(alloc);
    push_line(&mut line, row)?;
    Ok(line)
}

// Writes the line of a row after a text.
fn push_line(script: &mut Vec<u8>, row: &Row) -> Result<(), AllocError>
    ensures { OnOk result (script.new.items ≡ script.old.items ++ line_text row.now) }
{
    script.extend_from_slice(row.command.as_bytes())?;
    script.extend_from_slice(b"\n")
}
