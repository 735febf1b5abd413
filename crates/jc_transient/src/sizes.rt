//! How many cells the two areas have.
ghost use Rattle.std.specs.Prelude.{◌≡◌, ◌↔◌, IsTrue};
ghost use Rattle.jc_transient.specs.State.{AreSizes, buffer_told, cells_told, ram_sizes, size_in};

use crate::cell::ClearEvent;

/// How many cells the objects of each event can have where nothing else is said.
pub const USUAL_CELLS: u16 = 2048;

/// How many cells they can have at most.
pub const MOST_CELLS: u16 = 16384;

/// How many cells the APDU buffer has, one for each byte, where nothing else is said.
pub const BUFFER_CELLS: u16 = 261;

/// How many cells it has at most.
pub const MOST_BUFFER: u16 = 32767;

/// How many cells each of the two areas of a memory has.
#[derive(Clone, Copy)]
pub struct RamSizes {
    /// Those that a reset clears.
    pub reset: u16,
    /// Those that a deselection clears.
    pub deselect: u16,
}

// How many cells the objects of each event can have, by the word that says it.
const fn cells_told(word: u16) -> u16
    ensures { result ≡ cells_told word }
{
    if word == 0 { USUAL_CELLS } else { word }
}

// How many cells the APDU buffer has, by the word that says it.
const fn buffer_told(word: u16) -> u16
    ensures { result ≡ buffer_told word }
{
    if word == 0 { BUFFER_CELLS } else { word }
}

/// Whether such words say how many cells the objects of each event can have, 2048 to 16384, and how many the APDU buffer has, 261 to
/// 32767. 0 says as many as are usual.
pub const fn are_sizes(cells: u16, buffer: u16) -> bool
    ensures { IsTrue result ↔ AreSizes cells buffer }
{
    let (cells, buffer) = (cells_told(cells), buffer_told(buffer));
    USUAL_CELLS <= cells && cells <= MOST_CELLS && BUFFER_CELLS <= buffer && buffer <= MOST_BUFFER
}

impl RamSizes {
    /// The sizes that such words say: each area has the cells of its objects, and the first one also those by which the APDU buffer
    /// is longer than usual; 65535 at most.
    #[tactic(auto, unfolding(crate::specs::State::ram_sizes))]
    pub const fn told(cells: u16, buffer: u16) -> RamSizes
        ensures { result ≡ ram_sizes cells buffer }
    {
        let cells = cells_told(cells);
        let more = buffer_told(buffer).saturating_sub(BUFFER_CELLS);
        RamSizes {
            reset: cells.saturating_add(more),
            deselect: cells,
        }
    }

    /// How many cells an event's area has.
    #[inline(always)]
    pub const fn of(self, event: ClearEvent) -> u16
        ensures { result ≡ size_in self event }
    {
        match event {
            ClearEvent::Reset => self.reset,
            ClearEvent::Deselect => self.deselect,
        }
    }
}
