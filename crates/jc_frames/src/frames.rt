//! The frames of a run, and the reads of the frame that runs.
ghost use Rattle.std.specs.Prelude.{◌≡◌, ◌+◌, ◌<◌, ◌≤◌, ◌++◌, [], length, pos, replicate};
ghost use Rattle.jc_frames.specs.declared.cell.Cell.TheVariants.{Short};
ghost use Rattle.jc_frames.specs.Frames.{Frames};
ghost use Rattle.jc_frames.specs.Calls.{empty_frames, first_frame};

use crate::cell::Cell;
use crate::fixed_stack::FixedStack;
use crate::method::{Origin, ReturnPoint};
use std::marker::Model;

/// The most cells of all frames.
pub const MOST_CELLS: usize = 512;

/// How many frames may stand one upon the other.
pub const MOST_FRAMES: usize = 32;

// How many of them may wait for calls.
pub(crate) const MOST_CALLERS: usize = MOST_FRAMES - 1;

/// Where the cells of a frame lie: its locals from `base` on, its stack from `bottom` on and below
/// `ceiling`.
#[derive(Clone, Copy, Default)]
pub(crate) struct Region {
    pub(crate) base: usize,
    pub(crate) bottom: usize,
    pub(crate) ceiling: usize,
    pub(crate) place: u16,
    pub(crate) origin: Origin,
}

/// A frame that waits for a call.
#[derive(Clone, Copy, Default)]
pub(crate) struct SavedFrame {
    pub(crate) region: Region,
    pub(crate) resume: ReturnPoint,
}

/// The frame that runs, and its callers.
#[derive(Drop)]
pub struct Frames {
    pub(crate) cells: FixedStack<Cell, MOST_CELLS>,
    pub(crate) current: Region,
    pub(crate) saved: FixedStack<SavedFrame, MOST_CALLERS>,
}

impl Model for Frames {
    ghost use Rattle.std.specs.Prelude.{◌≤◌, length, reverse};
    ghost use Rattle.jc_frames.specs.Frames.{Frames, frames_of, AreStacked};

    ghost Value = { Frames };

    ghost view = { λ f. frames_of f.cells.items f.current (reverse f.saved.items) };

    ghost invariant = { λ f. (f.current.base ≤ f.current.bottom)
        × (f.current.bottom ≤ length f.cells.items) × (length f.cells.items ≤ f.current.ceiling)
        × (f.current.ceiling ≤ 512)
        × AreStacked f.current.base (reverse f.saved.items) };
}

impl Frames {
    /// Frames in which nothing runs until `begin`.
    pub fn empty() -> Self
        ensures { result ≡ empty_frames }
    {
        Frames {
            cells: FixedStack::new(),
            current: Region::default(),
            saved: FixedStack::new(),
        }
    }

    /// Begins the frame of a method with these arguments, which nothing called. The frames that were
    /// there are gone.
    #[inline(always)]
    pub fn begin(&mut self, arguments: &[Cell], locals: u8, limit: u8, place: u16, origin: Origin)
        requires { length arguments.now + locals + limit ≤ 512 }
        ensures { self.new ≡ record {
          current = first_frame arguments.now locals limit place origin;
          callers = [];
        } }
    {
        self.cells.clear();
        self.saved.clear();
        push_all(&mut self.cells, arguments);
        push_locals(&mut self.cells, u16::from(locals));
        let bottom = self.cells.len();
        self.current = Region {
            base: 0,
            bottom,
            ceiling: bottom + usize::from(limit),
            place,
            origin,
        };
    }

    /// The place of the next instruction.
    #[inline(always)]
    pub fn place(&self) -> u16
        ensures { result ≡ self.now.current.place }
    {
        let Region { place, .. } = self.current;
        place
    }

    /// Moves the next instruction.
    #[inline(always)]
    pub fn set_place(&mut self, place: u16)
        ensures { self.new ≡ record self.old
            { current = record self.old.current { place = place } } }
    {
        self.current.place = place;
    }

    /// The method that runs.
    #[inline(always)]
    pub fn origin(&self) -> Origin
        ensures { result ≡ self.now.current.origin }
    {
        self.current.origin
    }
}

// Puts cells after the others.
#[inline(always)]
fn push_all(cells: &mut FixedStack<Cell, MOST_CELLS>, more: &[Cell])
    requires { length cells.old.items + length more.now ≤ 512 }
    ensures { cells.new.items ≡ cells.old.items ++ more.now }
{
    for cell in more {
        cells.push(*cell);
    }
}

// Puts cells that are short 0 after the others.
#[inline(always)]
pub(crate) fn push_zeros(cells: &mut FixedStack<Cell, MOST_CELLS>, count: u16)
    requires { length cells.old.items + count ≤ 512 }
    ensures { cells.new.items ≡ cells.old.items ++ replicate count (Short (pos 0)) }
{
    for _done in 0..usize::from(count) {
        cells.push(Cell::Short(0));
    }
}

// The same, the first of them without a loop, since most methods have few locals.
#[tactic(auto, using(crate::proofs::Zeros::one_more, crate::proofs::Zeros::no_more))]
#[inline(always)]
fn push_locals(cells: &mut FixedStack<Cell, MOST_CELLS>, count: u16)
    requires { length cells.old.items + count ≤ 512 }
    ensures { cells.new.items ≡ cells.old.items ++ replicate count (Short (pos 0)) }
{
    if count > 0 {
        cells.push(Cell::Short(0));
        push_zeros(cells, count - 1);
    }
}
