//! The stack of the frame that runs.
ghost use Rattle.std.specs.Prelude.{IsTrue, ◌≡◌, ◌+◌, ◌<◌, ◌≤◌, [], ◌∷◌, ◌++◌, ◌-◌, drop, length, option_copied, slice_get, OnOk, OnErr, IfOk};
ghost use Rattle.jc_frames.specs.Table.{can_duplicate_below, can_swap};
ghost use Rattle.jc_frames.specs.Cell.{cell_on, short_on, two_shorts_on, reference_on, storable_on, popped, popped_two};
ghost use Rattle.jc_frames.specs.Calls.{arguments_on};
ghost use Rattle.jc_frames.specs.Frames.{in_frame, with_stack, unless_fault, has_room, push, copy_below, exchange_cells};

use crate::cell::Cell;
use crate::frames::Frames;
use crate::outcome::CodeFault;
use arrayvec::ArrayVec;
use jc_transient::Ref;

impl Frames {
    /// Takes the top cell.
    #[inline(always)]
    pub fn pop(&mut self) -> Result<Cell, CodeFault>
        ensures others { self.new ≡ with_stack self.old self.new.current.stack }
        ensures taken { cell_on self.old.current.stack ≡ popped result self.new.current.stack }
        ensures room { OnOk result (length self.new.current.stack < self.new.current.limit) }
    {
        if self.cells.len() <= self.current.bottom {
            return Err(CodeFault);
        }
        self.cells.pop().ok_or(CodeFault)
    }

    /// Takes a short from the top.
    #[inline(always)]
    pub fn pop_short(&mut self) -> Result<i16, CodeFault>
        ensures others { self.new ≡ with_stack self.old self.new.current.stack }
        ensures taken { short_on self.old.current.stack ≡ popped result self.new.current.stack }
        ensures room { OnOk result (length self.new.current.stack < self.new.current.limit) }
    {
        match self.peek(0) {
            Some(Cell::Short(x)) => {
                self.pop()?;
                Ok(x)
            }
            _ => Err(CodeFault),
        }
    }

    /// Takes a reference from the top.
    #[inline(always)]
    pub fn pop_reference(&mut self) -> Result<Ref, CodeFault>
        ensures others { self.new ≡ with_stack self.old self.new.current.stack }
        ensures taken { reference_on self.old.current.stack ≡ popped result self.new.current.stack }
        ensures room { OnOk result (length self.new.current.stack < self.new.current.limit) }
    {
        match self.peek(0).ok_or(CodeFault)? {
            Cell::Reference(r) => {
                self.pop()?;
                Ok(r)
            }
            _ => Err(CodeFault),
        }
    }

    /// Takes a reference or a return address from the top.
    #[inline(always)]
    pub fn pop_storable(&mut self) -> Result<Cell, CodeFault>
        ensures others { self.new ≡ with_stack self.old self.new.current.stack }
        ensures taken { storable_on self.old.current.stack ≡ popped result self.new.current.stack }
        ensures room { OnOk result (length self.new.current.stack < self.new.current.limit) }
    {
        if let Some(Cell::Short(_)) = self.peek(0) {
            return Err(CodeFault);
        }
        self.pop()
    }

    /// Takes two shorts from the top, and gives the lower one first.
    #[inline(always)]
    pub fn pop_two_shorts(&mut self) -> Result<(i16, i16), CodeFault>
        ensures others { self.new ≡ with_stack self.old self.new.current.stack }
        ensures taken { two_shorts_on self.old.current.stack
            ≡ popped_two result self.new.current.stack }
        ensures room { OnOk result (length self.new.current.stack < self.new.current.limit) }
    {
        let y = self.pop_short()?;
        let x = self.pop_short()?;
        Ok((x, y))
    }

    /// Takes all cells from the stack.
    #[inline]
    pub fn clear_stack(&mut self)
        ensures { self.new ≡ with_stack self.old [] }
    {
        self.cells.truncate(self.current.bottom);
    }

    /// The cell with this many cells above it, if there is one.
    #[inline(always)]
    pub fn peek(&self, depth: u8) -> Option<Cell>
        ensures { result ≡ slice_get self.now.current.stack depth }
    {
        let depth = usize::from(depth);
        // As `pop` compares them, so that its own look is left out after this one.
        if self.cells.len() <= self.current.bottom + depth {
            None
        } else {
            Some(self.cells.as_slice()[self.cells.len() - 1 - depth])
        }
    }

    /// The arguments of a call that has this many, the last of which is on top; `None` where they are not
    /// there.
    pub fn arguments(&self, count: u8) -> Option<&[Cell]>
        ensures { option_copied result ≡ arguments_on count self.entry.now.current.stack }
    {
        let length = self.cells.len();
        let count = usize::from(count);
        if length - self.current.bottom < count {
            return None;
        }
        Some(&self.cells.as_slice()[length - count..])
    }

    /// Takes this many cells from the top.
    pub fn discard(&mut self, count: u8)
        requires { count ≤ length self.old.current.stack }
        ensures { self.new ≡ with_stack self.old (drop count self.old.current.stack) }
    {
        let kept = self.cells.len() - usize::from(count);
        self.cells.truncate(kept);
    }

    /// Whether there is room for one more cell.
    #[inline(always)]
    pub fn has_room(&self) -> bool
        ensures { result ≡ has_room self.now.current }
    {
        self.cells.len() < self.current.ceiling
    }

    /// Puts a cell on top of a stack with room.
    #[inline(always)]
    pub fn push(&mut self, top: Cell)
        requires { length self.old.current.stack < self.old.current.limit }
        ensures { self.new ≡ with_stack self.old (top ∷ self.old.current.stack) }
    {
        self.cells.push(top);
    }

    /// Puts a cell on top, if there is room.
    #[inline(always)]
    pub fn try_push(&mut self, cell: Cell) -> Result<(), CodeFault>
        ensures { unless_fault result self.new ≡ in_frame self.old (push cell self.old.current) }
    {
        if self.cells.len() >= self.current.ceiling {
            return Err(CodeFault);
        }
        self.cells.push(cell);
        Ok(())
    }

    /// Copies the top `count` cells to below the top `depth`.
    pub fn copy(&mut self, count: u8, depth: u8) -> Result<(), CodeFault>
        requires { IsTrue (can_duplicate_below count depth) }
        ensures { unless_fault result self.new ≡ in_frame self.old
            (copy_below count depth self.old.current) }
    {
        let top = self.pop_many(count)?;
        let middle = self.pop_many(depth.saturating_sub(count))?;
        if self.room() < top.len() + middle.len() + top.len() {
            return Err(CodeFault);
        }
        self.push_many(&top);
        self.push_many(&middle);
        self.push_many(&top);
        Ok(())
    }

    /// Exchanges the top `count` cells with the `below` cells below them.
    pub fn exchange(&mut self, count: u8, below: u8) -> Result<(), CodeFault>
        requires { IsTrue (can_swap count below) }
        ensures { unless_fault result self.new ≡ in_frame self.old
            (exchange_cells count below self.old.current) }
    {
        let top = self.pop_many(count)?;
        let lower = self.pop_many(below)?;
        self.push_many(&top);
        self.push_many(&lower);
        Ok(())
    }

    // Takes the top cells, and gives the topmost first.
    fn pop_many(&mut self, count: u8) -> Result<ArrayVec<Cell, 4>, CodeFault>
        requires { count ≤ 4 }
        ensures others { self.new ≡ with_stack self.old self.new.current.stack }
        ensures taken { IfOk result (λ top. (length top.items ≡ count)
            × (top.items ++ self.new.current.stack ≡ self.old.current.stack)) }
        ensures lack { OnErr result (length self.old.current.stack < count) }
        ensures limit { OnOk result (length self.new.current.stack + count
            ≤ self.new.current.limit) }
    {
        let _ = &self.cells; // so that the proof knows what holds of all frames
        let mut top = ArrayVec::new();
        for _done in 0..count {
            top.push(self.pop()?);
        }
        Ok(top)
    }

    // Puts cells on top, the first of them topmost.
    fn push_many(&mut self, cells: &[Cell])
        requires { length self.old.current.stack + length cells.now ≤ self.old.current.limit }
        ensures { self.new ≡ with_stack self.old (cells.now ++ self.old.current.stack) }
    {
        for place in 0..cells.len() {
            self.push(cells[cells.len() - 1 - place]);
        }
    }

    /// How many more cells fit.
    pub fn room(&self) -> usize
        ensures { result + length self.now.current.stack ≡ self.now.current.limit }
    {
        self.current.ceiling - self.cells.len()
    }
}
