//! Cells of objects, wherever they are kept.
ghost use Rattle.std.specs.Prelude.{◌≡◌, ◌<◌, false};
ghost use Rattle.jc_heap.specs.Heap.{IsObject, facts};
ghost use Rattle.jc_memory.specs.Programs.{Executes};
ghost use Rattle.jc_heap.specs.Completions.{after_change};
ghost use Rattle.jc_memory.specs.Cells.{word_of, word_at, short_at, byte_at, cell_store, IsHeaderOf, MayHave};

use crate::memory::Memory;
use jc_heap::{ChangeRefusal, Facts};
use jc_transient::{CellValue, Ref};
use jc_words::WordStore;

// A number's 16 bits, or a reference's address.
#[inline(always)]
pub(crate) fn word_of(value: CellValue) -> u16
    ensures { result ≡ word_of value }
{
    match value {
        CellValue::Short(v) => v.cast_unsigned(),
        CellValue::Reference(r) => r.address(),
    }
}

impl<S: WordStore> Memory<S> {
    // The word of a cell.
    #[inline(always)]
    pub(crate) fn word(&self, object: Ref, i: u16) -> u16
        requires up { self.now.heap.down ≡ false }
        requires there { IsObject self.now.heap.now object }
        requires cell { i < (facts self.now.heap.now object).length }
        ensures { result ≡ word_at self.now object i }
    {
        let facts = self.facts(object);
        match facts.event {
            None => self.heap.get(object, i),
            Some(event) => word_of(self.ram.get(event, facts.place + i)),
        }
    }

    /// The number in a cell of an object.
    #[inline(always)]
    pub fn short(&self, object: Ref, i: u16) -> i16
        requires up { self.now.heap.down ≡ false }
        requires there { IsObject self.now.heap.now object }
        requires cell { i < (facts self.now.heap.now object).length }
        ensures { result ≡ short_at self.now object i }
    {
        self.word(object, i).cast_signed()
    }

    /// The byte in a cell of an object.
    #[inline(always)]
    pub fn byte(&self, object: Ref, i: u16) -> u8
        requires up { self.now.heap.down ≡ false }
        requires there { IsObject self.now.heap.now object }
        requires cell { i < (facts self.now.heap.now object).length }
        ensures { result ≡ byte_at self.now object i }
    {
        (self.word(object, i) % 256) as u8
    }

    /// The reference in a cell of an object.
    #[inline(always)]
    pub fn reference(&self, object: Ref, i: u16) -> Ref
        requires up { self.now.heap.down ≡ false }
        requires there { IsObject self.now.heap.now object }
        requires cell { i < (facts self.now.heap.now object).length }
        ensures { result ≡ word_at self.now object i }
    {
        Ref::at(self.word(object, i))
    }

    /// Sets a cell of an object. A persistent one's is a change: refused, where the transaction has no
    /// room for it.
    #[inline(always)]
    pub fn set(&mut self, object: Ref, i: u16, value: CellValue) -> Result<(), ChangeRefusal>
        requires up { self.old.heap.down ≡ false }
        requires there { IsObject self.old.heap.now object }
        requires cell { i < (facts self.old.heap.now object).length }
        requires value { MayHave self.old object value }
        ensures { Executes (cell_store self.old object i value) self.old
            (after_change result self.new) }
    {
        let header = self.facts(object);
        self.set_known(object, header, i, value)
    }

    /// Sets a cell of an object with this header likewise. The header is not read again.
    #[inline(always)]
    pub fn set_known(
        &mut self,
        object: Ref,
        header: Facts,
        i: u16,
        value: CellValue,
    ) -> Result<(), ChangeRefusal>
        requires up { self.old.heap.down ≡ false }
        requires header { IsHeaderOf self.old object header }
        requires cell { i < header.length }
        requires value { MayHave self.old object value }
        ensures { Executes (cell_store self.old object i value) self.old
            (after_change result self.new) }
    {
        match header.event {
            None => {
                let done = self.heap.set_known(object, header, i, word_of(value));
                if let Err(refusal) = done {
                    self.note_refused_change(refusal, 1);
                }
                done
            }
            Some(event) => {
                self.ram.set(event, header.place + i, value);
                Ok(())
            }
        }
    }
}
