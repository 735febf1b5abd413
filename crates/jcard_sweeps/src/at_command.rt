//! A card at a command, which is kept for all cuts or faults of the command: the lines before it are carried out once.
ghost use Rattle.std.specs.Prelude.{◌<◌, length, IfSome};
ghost use Rattle.jcard_sweeps.specs.AtCommand.{IsAtCommand};

use arrayvec::ArrayVec;
use jc_words::{FuseStore, MemStore};
use jcard_script::begun::{BegunScript, begin_script, command_of_line};
use std::alloc::{AllocError, Global};

/// How many bytes are taken once; copies of a card of the largest image take less.
const KEPT_ROOM: usize = 4_194_304;

/// A card that has carried out the lines before a command, and the bytes of the command.
#[derive(Drop)]
pub struct AtCommand {
    pub begun: BegunScript<MemStore>,
    pub command: ArrayVec<u8, 65545>,
}

/// The card of a copy of these words that has carried out the lines before a command, and the command in this line. Nothing where the line is no
/// command that a line feed ends, where the lines before it lead to no card that is up, or where memory is refused.
pub fn at_command(
    alloc: Global,
    words: &[u16],
    instructions: u32,
    before: &[u8],
    line: &[u8],
) -> Option<AtCommand>
    requires { length words.now < 65536 }
    ensures { IfSome result (IsAtCommand words.now instructions before.now line.now) }
{
    let command = command_of_line(line)?;
    // Room is taken once and given back. The allocator of the C library keeps from then on what is given back, up to twice as much, in place of
    // giving it to the system and asking for it again for each copy of the card.
    let room: Result<Vec<u8>, AllocError> = Vec::with_capacity(alloc, KEPT_ROOM);
    drop(room);
    let Ok(copy) = Vec::from_slice(alloc, words) else {
        return None;
    };
    let store = FuseStore::new(MemStore::of(copy));
    let begun = begin_script(alloc, store, instructions, before)?;
    Some(AtCommand { begun, command })
}
