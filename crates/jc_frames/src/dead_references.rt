//! Dead references.
ghost use Rattle.std.specs.Prelude.{◌≡◌, map};
ghost use Rattle.jc_frames.specs.Cell.{without_dead};
ghost use Rattle.jc_frames.specs.Calls.{frames_without_dead};

use crate::cell::Cell;
use crate::fixed_stack::FixedStack;
use crate::frames::{Frames, MOST_CELLS};

impl Frames {
    /// Makes each reference to an object at or above the top null, in all frames.
    pub fn null_dead(&mut self, top: u16)
        ensures { self.new ≡ frames_without_dead top self.old }
    {
        null_dead_cells(&mut self.cells, top);
    }
}

fn null_dead_cells(cells: &mut FixedStack<Cell, MOST_CELLS>, top: u16)
    ensures { cells.new.items ≡ map (without_dead top) cells.old.items }
{
    for place in 0..cells.len() {
        let cell = cells.as_slice()[place];
        cells.set(place, cell.without_dead(top));
    }
}
