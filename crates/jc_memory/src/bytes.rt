//! Runs of cells.
ghost use Rattle.std.specs.Prelude.{◌≡◌, ◌+◌, ◌≤◌, ◌<◌, ◌%◌, ◌∷◌, [], false, length, map};
ghost use Rattle.std.specs.List.{range_with_len};
ghost use Rattle.jc_transient.specs.State.{area_size, cell_at};
ghost use Rattle.jc_heap.specs.Heap.{IsObject, facts};
ghost use Rattle.jc_memory.specs.Programs.{Executes};
ghost use Rattle.jc_heap.specs.Completions.{after_change};
ghost use Rattle.jc_memory.specs.Cells.{word_of, bytes_at, words_at, cells_store, MayHaveAll};

use crate::cells::word_of;
use crate::memory::Memory;
use crate::shortages::words_from;
use jc_heap::{ChangeRefusal, Elements};
use jc_transient::{ClearEvent, Ram, Ref};
use jc_words::WordStore;

// The low bytes of an area's cells from a place on.
#[inline(always)]
fn area_bytes(ram: &Ram, event: ClearEvent, place: u16, out: &mut [u8])
    requires within { place + length out.old ≤ area_size ram.now event }
    requires small { place + length out.old < 65536 }
    ensures { out.new ≡ map (λ k. word_of (cell_at ram.now event k) % 256)
        (range_with_len place (length out.old)) }
{
    for at in place..place + out.len() as u16 {
        out[(at - place) as usize] = (word_of(ram.get(event, at)) % 256) as u8;
    }
}

// The words of an area's cells from a place on.
#[inline(always)]
fn area_words(ram: &Ram, event: ClearEvent, place: u16, out: &mut [u16])
    requires within { place + length out.old ≤ area_size ram.now event }
    requires small { place + length out.old < 65536 }
    ensures { out.new ≡ map (λ k. word_of (cell_at ram.now event k))
        (range_with_len place (length out.old)) }
{
    for k in 0..out.len() {
        out[k] = word_of(ram.get(event, place + k as u16));
    }
}

impl<S: WordStore> Memory<S> {
    /// Reads bytes of an object from an index on.
    #[inline(always)]
    pub fn bytes(&self, object: Ref, i: u16, out: &mut [u8])
        requires up { self.now.heap.down ≡ false }
        requires there { IsObject self.now.heap.now object }
        requires cells { i + length out.old ≤ (facts self.now.heap.now object).length }
        ensures { out.new ≡ bytes_at self.now object i (length out.old) }
    {
        let facts = self.facts(object);
        match facts.event {
            None => self.heap.bytes(object, i, out),
            Some(event) => area_bytes(&self.ram, event, facts.place + i, out),
        }
    }

    // Reads the words of an object's cells from an index on, one by one.
    fn words_one_by_one(&self, object: Ref, i: u16, out: &mut [u16])
        requires up { self.now.heap.down ≡ false }
        requires there { IsObject self.now.heap.now object }
        requires cells { i + length out.old ≤ (facts self.now.heap.now object).length }
        ensures { out.new ≡ words_at self.now object i (length out.old) }
    {
        let _header = self.facts(object);
        for k in 0..out.len() {
            out[k] = self.word(object, i + k as u16);
        }
    }

    /// Reads the words of an object's cells from an index on.
    #[inline(always)]
    pub fn words(&self, object: Ref, i: u16, out: &mut [u16])
        requires up { self.now.heap.down ≡ false }
        requires there { IsObject self.now.heap.now object }
        requires cells { i + length out.old ≤ (facts self.now.heap.now object).length }
        ensures { out.new ≡ words_at self.now object i (length out.old) }
    {
        let facts = self.facts(object);
        match facts.event {
            None => self.words_one_by_one(object, i, out),
            Some(event) => area_words(&self.ram, event, facts.place + i, out),
        }
    }

    /// Sets cells of an object to numbers from an index on. A persistent object's are one change:
    /// refused, where the transaction has no room for all of them.
    pub fn set_run(&mut self, object: Ref, i: u16, words: &[u16]) -> Result<(), ChangeRefusal>
        requires up { self.old.heap.down ≡ false }
        requires there { IsObject self.old.heap.now object }
        requires cells { i + length words.now ≤ (facts self.old.heap.now object).length }
        requires values { MayHaveAll self.old object words.now }
        ensures { Executes (cells_store self.old object i words.now) self.old
            (after_change result self.new) }
    {
        let facts = self.facts(object);
        match facts.event {
            None => {
                let done = self.heap.set_run(object, i, Elements::Words(words));
                if let Err(refusal) = done {
                    self.note_refused_change(refusal, words_from(facts, i, words.len()));
                }
                done
            }
            Some(event) => {
                self.ram.put_words(event, facts.place + i, words);
                Ok(())
            }
        }
    }

    /// The same for bytes.
    #[inline(always)]
    pub fn set_bytes(&mut self, object: Ref, i: u16, bytes: &[u8]) -> Result<(), ChangeRefusal>
        requires up { self.old.heap.down ≡ false }
        requires there { IsObject self.old.heap.now object }
        requires cells { i + length bytes.now ≤ (facts self.old.heap.now object).length }
        requires values { MayHaveAll self.old object bytes.now }
        ensures { Executes (cells_store self.old object i bytes.now) self.old
            (after_change result self.new) }
    {
        let facts = self.facts(object);
        match facts.event {
            None => {
                let done = self.heap.set_run(object, i, Elements::Bytes(bytes));
                if let Err(refusal) = done {
                    self.note_refused_change(refusal, words_from(facts, i, bytes.len()));
                }
                done
            }
            Some(event) => {
                self.ram.put_bytes(event, facts.place + i, bytes);
                Ok(())
            }
        }
    }

    // Sets two cells to these bytes likewise, out of line.
    #[inline(never)]
    fn set_pair(&mut self, object: Ref, i: u16, first: u8, second: u8) -> Result<(), ChangeRefusal>
        requires up { self.old.heap.down ≡ false }
        requires there { IsObject self.old.heap.now object }
        requires cells { i + 2 ≤ (facts self.old.heap.now object).length }
        requires values { MayHaveAll self.old object (first ∷ second ∷ []) }
        ensures { Executes (cells_store self.old object i (first ∷ second ∷ [])) self.old
            (after_change result self.new) }
    {
        self.set_bytes(object, i, &[first, second])
    }

    /// Sets two cells of an object to bytes from an index on, likewise. Of a transient one nothing is called out of line.
    #[inline(always)]
    pub fn set_two_bytes(
        &mut self,
        object: Ref,
        i: u16,
        first: u8,
        second: u8,
    ) -> Result<(), ChangeRefusal>
        requires up { self.old.heap.down ≡ false }
        requires there { IsObject self.old.heap.now object }
        requires cells { i + 2 ≤ (facts self.old.heap.now object).length }
        requires values { MayHaveAll self.old object (first ∷ second ∷ []) }
        ensures { Executes (cells_store self.old object i (first ∷ second ∷ [])) self.old
            (after_change result self.new) }
    {
        let facts = self.facts(object);
        match facts.event {
            None => self.set_pair(object, i, first, second),
            Some(event) => {
                self.ram.put_bytes(event, facts.place + i, &[first, second]);
                Ok(())
            }
        }
    }
}
