//! What an object's header says, and where; and where the ends of the areas stand.
ghost use Rattle.std.specs.Prelude.{◌≡◌};
ghost use Rattle.jc_heap.specs.Heap.{area_end_address};

use jc_transient::ClearEvent;
use jc_words::layout::{DESELECT_END, RESET_END};

/// How many words an object's header has.
pub const HEADER: u16 = 4;

/// How many words a transient object takes: its header, and the place of its first cell.
pub const TRANSIENT: u16 = HEADER + 1;

/// The word of a header with the number of cells.
pub const LENGTH: u16 = 3;

/// The first word of the header of a persistent array of references.
pub const REFERENCES: u16 = 5;

/// The word with the number of cells that the objects of each event can have; 0 says as many as are usual.
pub const CELLS_WORD: u16 = 13;

/// The word with the number of cells of the APDU buffer; 0 says as many as are usual.
pub const BUFFER_WORD: u16 = 14;

/// The word with the end of an event's area.
pub fn area_word(event: ClearEvent) -> u16
    ensures { result ≡ area_end_address event }
{
    match event {
        ClearEvent::Reset => RESET_END,
        ClearEvent::Deselect => DESELECT_END,
    }
}
