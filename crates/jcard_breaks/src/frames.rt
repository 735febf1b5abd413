//! Frames as a trace shows them.

use jc_memory::{Spot, TopCell};
use std::alloc::{AllocError, Global};

/// What a cell holds, as far as it is known.
pub(crate) type Known = Option<TopCell>;

/// The frame of a method.
#[derive(Drop)]
pub(crate) struct Frame {
    alloc: Global,
    /// Where its instruction stands.
    pub(crate) spot: Spot,
    /// The number of the step with which it began.
    pub(crate) begun: usize,
    /// Its locals, the arguments first.
    pub(crate) locals: Vec<Known>,
    /// Which locals hold what they held as it began.
    is_first: Vec<bool>,
    pub(crate) stack: Vec<Known>,
}

impl Frame {
    /// A frame with this number of locals, of which the first are these, and an empty stack.
    pub(crate) fn new(
        alloc: Global,
        spot: Spot,
        begun: usize,
        arguments: &[Known],
        locals: usize,
    ) -> Result<Frame, AllocError> {
        let mut frame = Frame {
            alloc,
            spot,
            begun,
            locals: Vec::new(alloc),
            is_first: Vec::new(alloc),
            stack: Vec::new(alloc),
        };
        for number in 0..locals {
            push(&mut frame.locals, arguments.get(number).copied().flatten())?;
            push(&mut frame.is_first, true)?;
        }
        Ok(frame)
    }

    /// Pushes a cell.
    pub(crate) fn push(&mut self, cell: Known) -> Result<(), AllocError> {
        push(&mut self.stack, cell)
    }

    /// Pops a cell; one that is not known, where there is none.
    pub(crate) fn pop(&mut self) -> Known {
        self.stack.pop().flatten()
    }

    /// Pops this number of cells.
    pub(crate) fn pop_all(&mut self, count: usize) {
        for _ in 0..count {
            let _ = self.stack.pop();
        }
    }

    /// The cells from the top on down to this depth, the deepest first.
    pub(crate) fn top(&self, count: usize) -> &[Known] {
        let from = self.stack.len().saturating_sub(count);
        &self.stack.as_slice()[from..]
    }

    /// The stack holds this cell alone, or none.
    pub(crate) fn reset_stack(&mut self, top: TopCell) -> Result<(), AllocError> {
        self.stack = Vec::new(self.alloc);
        match top {
            TopCell::Empty => Ok(()),
            _ => push(&mut self.stack, Some(top)),
        }
    }

    /// The top of the stack is this, as a step found it.
    pub(crate) fn agree(&mut self, top: TopCell) -> Result<(), AllocError> {
        let told = match self.stack.as_slice().last() {
            None => TopCell::Empty,
            Some(Some(cell)) => *cell,
            Some(None) => top,
        };
        if told == top {
            return Ok(());
        }
        self.reset_stack(top)
    }

    /// Sets a local.
    pub(crate) fn set(&mut self, local: u8, cell: Known) {
        if let Some(place) = self.locals.get_mut(usize::from(local)) {
            *place = cell;
        }
        if let Some(is_first) = self.is_first.get_mut(usize::from(local)) {
            *is_first = false;
        }
    }

    /// A local was read, and held this: whether it held it as the frame began, which nobody knew.
    pub(crate) fn learn(&mut self, local: u8, cell: TopCell) -> bool {
        let number = usize::from(local);
        let is_first = self.is_first.get(number).copied().unwrap_or(false);
        let Some(place) = self.locals.get_mut(number) else {
            return false;
        };
        let is_new = place.is_none();
        *place = Some(cell);
        is_first && is_new
    }

    /// Copies the top cells to below a depth; on top where that is 0.
    pub(crate) fn duplicate(&mut self, count: usize, depth: usize) -> Result<(), AllocError> {
        let cells = self.stack.as_slice();
        let top = cells.len().saturating_sub(count);
        let at = cells.len().saturating_sub(depth);
        let mut changed = Vec::new(self.alloc);
        push_cells(&mut changed, &cells[..at])?;
        push_cells(&mut changed, &cells[top..])?;
        push_cells(&mut changed, &cells[at..])?;
        self.stack = changed;
        Ok(())
    }

    /// The top cells change places with those below them.
    pub(crate) fn swap(&mut self, count: usize, below: usize) -> Result<(), AllocError> {
        let cells = self.stack.as_slice();
        let top = cells.len().saturating_sub(count);
        let at = top.saturating_sub(below);
        let mut changed = Vec::new(self.alloc);
        push_cells(&mut changed, &cells[..at])?;
        push_cells(&mut changed, &cells[top..])?;
        push_cells(&mut changed, &cells[at..top])?;
        self.stack = changed;
        Ok(())
    }
}

fn push_cells(cells: &mut Vec<Known>, more: &[Known]) -> Result<(), AllocError> {
    for cell in more {
        push(cells, *cell)?;
    }
    Ok(())
}

/// Adds an item. It is of any type, since the prover does not yet cover the push of a cell.
pub(crate) fn push<T: Copy>(items: &mut Vec<T>, item: T) -> Result<(), AllocError> {
    items.push(item)?;
    Ok(())
}
