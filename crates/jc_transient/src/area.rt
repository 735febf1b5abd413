//! The cells of one area.
ghost use Rattle.std.specs.Prelude.{◌≡◌, ◌<◌, ◌≤◌, ◌+◌, ℕ, ◌++◌, length, map, replicate, take, drop, pos, IfOk, vec_len, slice_index_or, slice_set};
ghost use Rattle.jc_transient.specs.Cell.{default_value, without_dead, number_of, AreAmong};
ghost use Rattle.jc_transient.specs.State.{with_cells};

use crate::cell::CellValue;
use std::alloc::{AllocError, Global};
use std::marker::Model;

/// Places of cells: those at or after `start` and before `end`.
#[derive(Clone, Copy)]
struct Places {
    start: usize,
    end: usize,
}

impl Places {
    // Some of these, none of which is one from `start` to `end`.
    #[inline(always)]
    fn without(self, start: usize, end: usize) -> Places
        ensures { (k : ℕ) → result.start ≤ k → k < result.end → AreAmong self.start self.end start end k }
    {
        if start < self.end && self.start < end {
            return Places {
                start: end,
                end: self.end,
            };
        }
        self
    }

    // The place from which on all from `start` to `end` are among these, or `end`.
    fn first_of_tail(self, start: usize, end: usize) -> usize
        requires { start ≤ end }
        ensures first { start ≤ result }
        ensures last { result ≤ end }
        ensures among { (k : ℕ) → result ≤ k → k < end → (self.start ≤ k) × (k < self.end) }
    {
        if self.start <= end && end <= self.end {
            return self.start.max(start);
        }
        end
    }
}

/// Cells, all of which from the first `used` on are as a clearing leaves them. They hold numbers alone where none was set to a reference.
/// Those at `zeros` are zero: to fill them with zeros takes no write.
#[derive(Drop)]
pub(crate) struct Area {
    cells: Vec<CellValue>,
    used: usize,
    has_references: bool,
    zeros: Places,
}

impl Model for Area {
    ghost use Rattle.std.specs.Prelude.{List, ◌≡◌, ◌≤◌, false, length};
    ghost use Rattle.jc_transient.specs.declared.cell.CellValue.{CellValue};
    ghost use Rattle.jc_transient.specs.Cell.{AreClearedFrom, AreNumbers, AreZeros};

    ghost Value = { List CellValue };

    ghost view = { λ a. a.cells.items };

    ghost invariant = { λ a. (a.used ≤ length a.cells.items)
        × AreClearedFrom a.used a.cells.items
        × (a.has_references ≡ false → AreNumbers a.cells.items)
        × AreZeros a.zeros.start a.zeros.end a.cells.items };
}

impl Area {
    /// `count` cells, each zero.
    pub(crate) fn new(alloc: Global, count: usize) -> Result<Area, AllocError>
        ensures len { IfOk result (λ area. length area ≡ count) }
        ensures zero { IfOk result (λ area. (k : ℕ) → slice_index_or area k
            (CellValue.Short (pos 0)) ≡ CellValue.Short (pos 0)) }
    {
        Ok(Area {
            cells: zero_cells(alloc, count)?,
            used: 0,
            has_references: false,
            zeros: Places {
                start: 0,
                end: count,
            },
        })
    }

    /// Another area with the same cells.
    pub(crate) fn copy(&self, alloc: Global) -> Result<Area, AllocError>
        ensures { IfOk result (λ copy. copy ≡ self.now) }
    {
        let cells = Vec::from_slice(alloc, &self.cells)?;
        Ok(Area {
            cells,
            used: self.used,
            has_references: self.has_references,
            zeros: self.zeros,
        })
    }

    /// The cell at a place.
    #[inline(always)]
    pub(crate) fn get(&self, place: usize) -> CellValue
        requires { place < length self.now }
        ensures { result ≡ slice_index_or self.now place (CellValue.Short (pos 0)) }
    {
        self.cells[place]
    }

    /// Sets the cell at a place.
    #[inline(always)]
    pub(crate) fn set(&mut self, place: usize, value: CellValue)
        requires { place < length self.old }
        ensures { self.new ≡ slice_set self.old place value }
    {
        self.has_references = value.is_reference() || self.has_references;
        self.cells[place] = value;
        self.used = self.used.max(place + 1);
        self.zeros = self.zeros.without(place, place + 1);
    }

    /// Sets `count` cells from a place on.
    pub(crate) fn fill(&mut self, place: usize, count: usize, value: CellValue)
        requires { place + count ≤ length self.old }
        ensures { self.new ≡ with_cells self.old place (replicate count value) }
    {
        self.has_references = value.is_reference() || self.has_references;
        fill_cells(self.cells.as_mut_slice(), place, count, &value);
        self.used = self.used.max(place + count);
        self.zeros = self.zeros.without(place, place + count);
    }

    /// Sets `count` cells from a place on to zero. Where the last of them are known to be zero, only those before are written.
    #[inline(always)]
    pub(crate) fn fill_zeros(&mut self, place: u16, count: u16)
        requires { place + count ≤ length self.old }
        ensures { self.new ≡ with_cells self.old place (replicate count (CellValue.Short (pos 0))) }
    {
        let place = place as usize;
        let end = place + count as usize;
        let written = self.zeros.first_of_tail(place, end);
        fill_cells(
            self.cells.as_mut_slice(),
            place,
            written - place,
            &CellValue::Short(0),
        );
        self.used = self.used.max(written);
        self.zeros = Places { start: place, end };
    }

    /// Puts bytes, each as a number, into the cells from a place on.
    #[inline(always)]
    pub(crate) fn put_bytes(&mut self, place: usize, bytes: &[u8])
        requires { place + length bytes.now ≤ length self.old }
        ensures { self.new ≡ with_cells self.old place (map number_of bytes.now) }
    {
        write_bytes(self.cells.as_mut_slice(), place, bytes);
        self.used = self.used.max(place + bytes.len());
        self.zeros = self.zeros.without(place, place + bytes.len());
    }

    /// Puts words into the cells, from a place on.
    pub(crate) fn put_words(&mut self, place: usize, words: &[u16])
        requires { place + length words.now ≤ length self.old }
        ensures { self.new ≡ with_cells self.old place (map number_of words.now) }
    {
        write_words(self.cells.as_mut_slice(), place, words);
        self.used = self.used.max(place + words.len());
        self.zeros = self.zeros.without(place, place + words.len());
    }

    /// Clears the cells.
    pub(crate) fn clear(&mut self)
        ensures { self.new ≡ map default_value self.old }
    {
        clear_cells(self.cells.as_mut_slice(), self.used);
        self.used = 0;
    }

    /// Makes each reference null that refers to an object at or above the top.
    pub(crate) fn null_dead(&mut self, top: u16)
        ensures { self.new ≡ map (without_dead top) self.old }
    {
        if self.has_references {
            null_dead_cells(self.cells.as_mut_slice(), self.used, top);
        }
    }
}

// `count` cells, each zero.
fn zero_cells(alloc: Global, count: usize) -> Result<Vec<CellValue>, AllocError>
    ensures len { IfOk result (λ cells. vec_len cells ≡ count) }
    ensures zero { IfOk result (λ cells. (k : ℕ) → slice_index_or cells.items k
        (CellValue.Short (pos 0)) ≡ CellValue.Short (pos 0)) }
    ensures all { IfOk result (λ cells. cells.items ≡ replicate count (CellValue.Short (pos 0))) }
{
    let cells = vec![in alloc; CellValue::Short(0); count]?;
    Ok(cells)
}

fn fill_cells(cells: &mut [CellValue], place: usize, count: usize, value: &CellValue)
    requires { place + count ≤ length cells.old }
    ensures { cells.new ≡ with_cells cells.old place (replicate count value.now) }
{
    for k in 0..count {
        cells[place + k] = *value;
    }
}

// Clears the first `count` cells.
fn clear_cells(cells: &mut [CellValue], count: usize)
    requires { count ≤ length cells.old }
    ensures { cells.new ≡ map default_value (take count cells.old) ++ drop count cells.old }
{
    for k in 0..count {
        cells[k] = cells[k].default_value();
    }
}

// The same for the references of the first `count` cells.
fn null_dead_cells(cells: &mut [CellValue], count: usize, top: u16)
    requires { count ≤ length cells.old }
    ensures { cells.new ≡ map (without_dead top) (take count cells.old) ++ drop count cells.old }
{
    for k in 0..count {
        cells[k] = cells[k].without_dead(top);
    }
}

fn write_bytes(cells: &mut [CellValue], place: usize, bytes: &[u8])
    requires { place + length bytes.now ≤ length cells.old }
    ensures { cells.new ≡ with_cells cells.old place (map number_of bytes.now) }
{
    for (k, byte) in bytes.iter().enumerate() {
        cells[place + k] = CellValue::of_byte(*byte);
    }
}

fn write_words(cells: &mut [CellValue], place: usize, words: &[u16])
    requires { place + length words.now ≤ length cells.old }
    ensures { cells.new ≡ with_cells cells.old place (map number_of words.now) }
{
    for (k, word) in words.iter().enumerate() {
        cells[place + k] = CellValue::of_word(*word);
    }
}
