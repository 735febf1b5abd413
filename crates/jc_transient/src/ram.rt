//! The contents of memory.
ghost use Rattle.std.specs.Prelude.{◌≡◌, ◌<◌, ◌≤◌, ◌+◌, Bool, ℕ, List, false, length, map, replicate, take, drop, ◌++◌, pos, IfOk, vec_len, slice_index_or};
ghost use Rattle.std.specs.Prelude.{slice_set};
ghost use Rattle.jc_transient.specs.Cell.{default_value, without_dead, number_of};
ghost use Rattle.jc_transient.specs.State.{area_size, HasSizes, IsCleared, area, with_area, cell_at, flag_of, with_cells};

use crate::area::Area;
use crate::cell::{CellValue, ClearEvent};
use crate::reference::Ref;
use crate::sizes::RamSizes;
use std::alloc::{AllocError, Global};
use std::marker::Model;

const FLAGS: usize = 65536;

/// What a card keeps in memory: an area of cells for each event that clears transient objects, in
/// one of which the APDU buffer lies, and a flag for each object.
#[derive(Drop)]
pub struct Ram {
    sizes: RamSizes,
    reset_cells: Area,
    deselect_cells: Area,
    flags: Vec<bool>,
}

impl Model for Ram {
    ghost use Rattle.jc_transient.specs.State.{RamState, HasSizes};

    ghost Value = { RamState };

    ghost view = { λ r. record {
      sizes = r.sizes;
      reset_cells = r.reset_cells;
      deselect_cells = r.deselect_cells;
      flags = r.flags.items;
    } };

    ghost invariant = { λ r. HasSizes (record {
      sizes = r.sizes;
      reset_cells = r.reset_cells;
      deselect_cells = r.deselect_cells;
      flags = r.flags.items;
    }) };
}

impl Ram {
    /// Memory of these sizes, in which each cell is zero and each flag is false. Nothing else here takes memory.
    pub fn new(alloc: Global, sizes: RamSizes) -> Result<Ram, AllocError>
        ensures cleared { IfOk result IsCleared }
        ensures sizes { IfOk result (λ ram. ram.sizes ≡ sizes) }
    {
        Ok(Ram {
            sizes,
            reset_cells: Area::new(alloc, sizes.reset as usize)?,
            deselect_cells: Area::new(alloc, sizes.deselect as usize)?,
            flags: false_flags(alloc, FLAGS)?,
        })
    }

    /// Another memory with the same contents. Without memory for it, it answers the error.
    pub fn copy(&self, alloc: Global) -> Result<Ram, AllocError>
        ensures { IfOk result (λ copy. copy ≡ self.now) }
    {
        let reset_cells = self.reset_cells.copy(alloc)?;
        let deselect_cells = self.deselect_cells.copy(alloc)?;
        let flags = Vec::from_slice(alloc, &self.flags)?;
        Ok(Ram {
            sizes: self.sizes,
            reset_cells,
            deselect_cells,
            flags,
        })
    }

    /// The cell at a place of an event's area.
    #[inline(always)]
    pub fn get(&self, event: ClearEvent, place: u16) -> CellValue
        requires { place < area_size self.now event }
        ensures { result ≡ cell_at self.now event place }
    {
        match event {
            ClearEvent::Reset => self.reset_cells.get(place as usize),
            ClearEvent::Deselect => self.deselect_cells.get(place as usize),
        }
    }

    /// Sets the cell at a place of an event's area.
    #[inline(always)]
    pub fn set(&mut self, event: ClearEvent, place: u16, value: CellValue)
        requires { place < area_size self.old event }
        ensures done { self.new ≡ with_area self.old event
            (slice_set (area self.old event) place value) }
        ensures sizes { HasSizes self.new }
        ensures same { self.new.sizes ≡ self.old.sizes }
    {
        match event {
            ClearEvent::Reset => self.reset_cells.set(place as usize, value),
            ClearEvent::Deselect => self.deselect_cells.set(place as usize, value),
        }
    }

    /// Sets `count` cells from a place on, as the maker of a new object does.
    pub fn fill(&mut self, event: ClearEvent, place: u16, count: u16, value: CellValue)
        requires { place + count ≤ area_size self.old event }
        ensures done { self.new ≡ with_area self.old event
            (with_cells (area self.old event) place (replicate count value)) }
        ensures sizes { HasSizes self.new }
        ensures same { self.new.sizes ≡ self.old.sizes }
    {
        let (place, count) = (place as usize, count as usize);
        match event {
            ClearEvent::Reset => self.reset_cells.fill(place, count, value),
            ClearEvent::Deselect => self.deselect_cells.fill(place, count, value),
        }
    }

    /// Sets `count` cells from a place on to zero.
    #[inline(always)]
    pub fn fill_zeros(&mut self, event: ClearEvent, place: u16, count: u16)
        requires { place + count ≤ area_size self.old event }
        ensures done { self.new ≡ with_area self.old event
            (with_cells (area self.old event) place (replicate count (CellValue.Short (pos 0)))) }
        ensures sizes { HasSizes self.new }
        ensures same { self.new.sizes ≡ self.old.sizes }
    {
        match event {
            ClearEvent::Reset => self.reset_cells.fill_zeros(place, count),
            ClearEvent::Deselect => self.deselect_cells.fill_zeros(place, count),
        }
    }

    /// Puts bytes, each as a number, into the cells from a place on.
    #[inline(always)]
    pub fn put_bytes(&mut self, event: ClearEvent, place: u16, bytes: &[u8])
        requires { place + length bytes.now ≤ area_size self.old event }
        ensures done { self.new ≡ with_area self.old event
            (with_cells (area self.old event) place (map number_of bytes.now)) }
        ensures sizes { HasSizes self.new }
        ensures same { self.new.sizes ≡ self.old.sizes }
    {
        match event {
            ClearEvent::Reset => self.reset_cells.put_bytes(place as usize, bytes),
            ClearEvent::Deselect => self.deselect_cells.put_bytes(place as usize, bytes),
        }
    }

    /// Puts words into the cells of an event, from a place on.
    pub fn put_words(&mut self, event: ClearEvent, place: u16, words: &[u16])
        requires { place + length words.now ≤ area_size self.old event }
        ensures done { self.new ≡ with_area self.old event
            (with_cells (area self.old event) place (map number_of words.now)) }
        ensures sizes { HasSizes self.new }
        ensures same { self.new.sizes ≡ self.old.sizes }
    {
        match event {
            ClearEvent::Reset => self.reset_cells.put_words(place as usize, words),
            ClearEvent::Deselect => self.deselect_cells.put_words(place as usize, words),
        }
    }

    /// The flag of an object.
    pub fn flag(&self, object: Ref) -> bool
        ensures { result ≡ flag_of self.now object }
    {
        self.flags[object.address() as usize]
    }

    /// Sets the flag of an object.
    pub fn set_flag(&mut self, object: Ref, value: bool)
        ensures done { self.new ≡ record self.old
            { flags = slice_set self.old.flags object value } }
        ensures set { flag_of self.new object ≡ value }
        ensures sizes { HasSizes self.new }
        ensures same { self.new.sizes ≡ self.old.sizes }
    {
        let address = object.address() as usize;
        self.flags[address] = value;
    }

    /// Clears the cells of an event's area: numbers become zero and references null.
    pub fn clear(&mut self, event: ClearEvent)
        ensures done { self.new ≡ with_area self.old event
            (map default_value (area self.old event)) }
        ensures sizes { HasSizes self.new }
        ensures same { self.new.sizes ≡ self.old.sizes }
    {
        match event {
            ClearEvent::Reset => self.reset_cells.clear(),
            ClearEvent::Deselect => self.deselect_cells.clear(),
        }
    }

    /// Makes each reference null that refers to an object at or above the top. Nothing else changes.
    pub fn null_dead(&mut self, top: u16)
        ensures done { self.new ≡ record self.old {
          reset_cells = map (without_dead top) self.old.reset_cells;
          deselect_cells = map (without_dead top) self.old.deselect_cells;
        } }
        ensures sizes { HasSizes self.new }
        ensures same { self.new.sizes ≡ self.old.sizes }
    {
        self.reset_cells.null_dead(top);
        self.deselect_cells.null_dead(top);
    }
}

// `count` flags, each false.
fn false_flags(alloc: Global, count: usize) -> Result<Vec<bool>, AllocError>
    ensures len { IfOk result (λ flags. vec_len flags ≡ count) }
    ensures unset { IfOk result (λ flags. (k : ℕ) → slice_index_or flags.items k false ≡ false) }
{
    let flags = vec![in alloc; false; count]?;
    Ok(flags)
}
