//! The files that a command names.
ghost use Rattle.std.specs.Prelude.{◌≡◌, ◌<◌, length, IfSome, MatchOption};
ghost use Rattle.jcard_files.specs.Operand.{IsNoOperand, IsOperand, operand_place};

use crate::fault::FileKind;

/// A file that a command names beside the one that it writes, and what it is to the command.
#[derive(Clone, Copy, Drop)]
pub struct Operand<'a> {
    pub name: &'a str,
    pub kind: FileKind,
}

/// What the file with this name is to a command that names these files, if one of them has this name.
pub fn operand_named(name: &str, operands: &[Operand]) -> Option<FileKind>
    ensures { MatchOption result (IsNoOperand name.now operands.now)
        (λ kind. IsOperand name.now operands.now kind) }
{
    match place_of(name, operands) {
        Some(i) => Some(operands[i].kind),
        None => None,
    }
}

// Where the first of these files stands that has this name.
fn place_of(name: &str, operands: &[Operand]) -> Option<usize>
    ensures place { result ≡ operand_place name.now operands.now }
    ensures within { IfSome result (λ i. i < length operands.now) }
{
    operands.iter().position(|operand| operand.name == name)
}
