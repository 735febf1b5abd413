//! Transactions, and changes of places: for a while, several as one, and for good.
ghost use Rattle.std.specs.Prelude.{◌≡◌, ◌≢◌, ◌<◌, ◌≤◌, ◌+◌, ◌++◌, false, true, length};
ghost use Rattle.jc_words.specs.Layout.{least_capacity, most_capacity};
ghost use Rattle.jc_heap.specs.declared.object.Kind.TheVariants.{Instance, ByteArray};
ghost use Rattle.jc_heap.specs.Heap.{IsObject, cells, facts};
ghost use Rattle.jc_heap.specs.HeapLaws.{IsLegalValue, AreLegalValues};
ghost use Rattle.jc_heap.specs.Place.{HasPlace, MayHold, AreThere, AreApart, ArePlain, places_of, cell_changes, run_changes};
ghost use Rattle.jc_heap.specs.Moves.{Begin};
ghost use Rattle.jc_memory.specs.State.{HeapMove, apply_effect};
ghost use Rattle.jc_memory.specs.Programs.{Executes};
ghost use Rattle.jc_heap.specs.Completions.{after_change, after_step};
ghost use Rattle.jc_memory.specs.Changes.{place_write, places_write, nonatomic_write, nonatomic_writes, nonatomic_store, commit, abort};

use crate::memory::Memory;
use jc_heap::{ByteRun, ChangeRefusal, Elements, Place};
use jc_transient::Ref;
use jc_words::{StoreDown, WordStore};

impl<S: WordStore> Memory<S> {
    /// Begins a transaction: what is changed from here on is taken back unless it is committed.
    #[inline(always)]
    pub fn begin(&mut self)
        requires up { self.old.heap.down ≡ false }
        requires outside { self.old.heap.begun ≡ false }
        ensures { self.new ≡ apply_effect (HeapMove Begin) self.old }
    {
        self.heap.begin();
    }

    /// Ends the transaction, whose changes then stay.
    #[inline(always)]
    pub fn commit(&mut self) -> Result<(), StoreDown>
        requires up { self.old.heap.down ≡ false }
        requires inside { self.old.heap.begun ≡ true }
        ensures { Executes commit self.old (after_step result self.new) }
    {
        self.heap.commit()
    }

    /// Takes the transaction back, and makes each transient reference null whose object was made in it.
    /// Nothing else in memory changes.
    pub fn abort(&mut self) -> Result<(), StoreDown>
        requires up { self.old.heap.down ≡ false }
        requires inside { self.old.heap.begun ≡ true }
        ensures { Executes abort self.old (after_step result self.new) }
    {
        let before = self.heap.top();
        self.heap.abort()?;
        let top = self.heap.top();
        self.marks.forget(top, before);
        self.ram.null_dead(top);
        Ok(())
    }

    /// Writes a place: a word of a static image or of the registry, or a cell of a persistent object.
    #[inline(always)]
    pub fn write(&mut self, place: Place, v: u16) -> Result<(), ChangeRefusal>
        requires up { self.old.heap.down ≡ false }
        requires there { HasPlace self.old.heap.now place }
        requires value { MayHold self.old.heap.now place v }
        requires reference { IsLegalValue self.old.heap.now place v }
        ensures { Executes (place_write self.old place v) self.old (after_change result self.new) }
    {
        let done = self.heap.write(place, v);
        if let Err(refusal) = done {
            self.note_refused_change(refusal, 1);
        }
        done
    }

    /// Writes several places as one change: none, where the transaction has no room for all of them. Each has a word of
    /// its own.
    pub fn write_all(&mut self, changes: &[(Place, u16)]) -> Result<(), ChangeRefusal>
        requires up { self.old.heap.down ≡ false }
        requires there { AreThere self.old.heap.now changes.now }
        requires plain { ArePlain self.old.heap.now (places_of changes.now) }
        requires apart { AreApart (places_of changes.now) }
        requires references { AreLegalValues self.old.heap.now changes.now }
        ensures { Executes (places_write self.old changes.now) self.old
            (after_change result self.new) }
    {
        let done = self.heap.set_all(changes);
        if let Err(refusal) = done {
            self.note_refused_change(refusal, changes.len());
        }
        done
    }

    /// Sets cells of a persistent object to bytes from an index on, and places after them that have words of their own,
    /// as one change: none, where the transaction has no room for all of them.
    pub fn write_bytes_and_places(
        &mut self,
        object: Ref,
        i: u16,
        bytes: &[u8],
        places: &[(Place, u16)],
    ) -> Result<(), ChangeRefusal>
        requires up { self.old.heap.down ≡ false }
        requires cells { i + length bytes.now ≤ length (cells self.old.heap.now object) }
        requires there { AreThere self.old.heap.now places.now }
        requires plain { ArePlain self.old.heap.now (places_of places.now) }
        requires apart { AreApart (places_of (cell_changes object i bytes.now ++ places.now)) }
        requires references { AreLegalValues self.old.heap.now
            (cell_changes object i bytes.now ++ places.now) }
        ensures { Executes (places_write self.old (cell_changes object i bytes.now ++ places.now))
            self.old (after_change result self.new) }
    {
        self.heap
            .set_run_and_places(object, i, Elements::Bytes(bytes), places)
    }

    /// Sets bytes in the cells of one persistent object and in those of another, and places after them that have words of
    /// their own, as one change: none, where the transaction has no room for all of them.
    pub fn write_two_runs(
        &mut self,
        first: ByteRun<'_>,
        second: ByteRun<'_>,
        places: &[(Place, u16)],
    ) -> Result<(), ChangeRefusal>
        requires up { self.old.heap.down ≡ false }
        requires first_cells { first.start + length first.bytes.now
            ≤ length (cells self.old.heap.now first.object) }
        requires second_cells { second.start + length second.bytes.now
            ≤ length (cells self.old.heap.now second.object) }
        requires two_objects { first.object ≢ second.object }
        requires there { AreThere self.old.heap.now places.now }
        requires plain { ArePlain self.old.heap.now (places_of places.now) }
        requires apart { AreApart (places_of
            (run_changes first ++ (run_changes second ++ places.now))) }
        requires references { AreLegalValues self.old.heap.now
            (run_changes first ++ (run_changes second ++ places.now)) }
        ensures { Executes (places_write self.old
            (run_changes first.entry ++ (run_changes second.entry ++ places.now)))
            self.old (after_change result self.new) }
    {
        let (object, start, bytes) = (first.object, first.start, first.bytes);
        let (next, at, more) = (second.object, second.start, second.bytes);
        let words = self.words_of_cells(object, start, bytes.len());
        let others = self.words_of_cells(next, at, more.len());
        let first = ByteRun {
            object,
            start,
            bytes,
        };
        let second = ByteRun {
            object: next,
            start: at,
            bytes: more,
        };
        let done = self.heap.set_two_runs(first, second, places);
        if let Err(refusal) = done {
            let asked = words.saturating_add(others).saturating_add(places.len());
            self.note_refused_change(refusal, asked);
        }
        done
    }

    /// Sets a counter of a persistent instance for good: no abort takes it back, unless an earlier change
    /// of the transaction has touched it.
    pub fn nonatomic_write(&mut self, object: Ref, i: u16, v: u16) -> Result<(), StoreDown>
        requires up { self.old.heap.down ≡ false }
        requires cell { i < length (cells self.old.heap.now object) }
        requires kind { (facts self.old.heap.now object).kind ≡ Instance }
        ensures { Executes (nonatomic_write object i v) self.old (after_step result self.new) }
    {
        self.heap.write_both(Place::Cell(object, i), v)
    }

    // Sets an element of a persistent array of bytes for good, likewise.
    #[inline(always)]
    fn write_byte_nonatomic(&mut self, array: Ref, i: u16, byte: u8) -> Result<(), StoreDown>
        requires up { self.old.heap.down ≡ false }
        requires cell { i < length (cells self.old.heap.now array) }
        requires kind { (facts self.old.heap.now array).kind ≡ ByteArray }
        ensures { Executes (nonatomic_write array i byte) self.old (after_step result self.new) }
    {
        self.heap.write_both(Place::Cell(array, i), u16::from(byte))
    }

    // Sets elements of a persistent array of bytes for good, one after another.
    fn write_bytes_nonatomic(&mut self, array: Ref, i: u16, bytes: &[u8]) -> Result<(), StoreDown>
        requires up { self.old.heap.down ≡ false }
        requires cells { i + length bytes.now ≤ length (cells self.old.heap.now array) }
        requires small { length (cells self.old.heap.now array) < 65536 }
        requires kind { (facts self.old.heap.now array).kind ≡ ByteArray }
        ensures { Executes (nonatomic_writes array i bytes.now) self.old
            (after_step result self.new) }
    {
        for k in 0..bytes.len() {
            self.write_byte_nonatomic(array, i + k as u16, bytes[k])?;
        }
        Ok(())
    }

    /// Sets elements of an array of bytes from an index on, outside the open transaction: each of a persistent array is a
    /// change by itself, in their order, which no abort takes back, unless an earlier change of the transaction has touched
    /// its word. No room is asked for.
    pub fn set_bytes_nonatomic(&mut self, array: Ref, i: u16, bytes: &[u8]) -> Result<(), StoreDown>
        requires up { self.old.heap.down ≡ false }
        requires there { IsObject self.old.heap.now array }
        requires kind { (facts self.old.heap.now array).kind ≡ ByteArray }
        requires cells { i + length bytes.now ≤ (facts self.old.heap.now array).length }
        ensures { Executes (nonatomic_store self.old array i bytes.now) self.old
            (after_step result self.new) }
    {
        let facts = self.facts(array);
        match facts.event {
            None => self.write_bytes_nonatomic(array, i, bytes),
            Some(event) => {
                self.ram.put_bytes(event, facts.place + i, bytes);
                Ok(())
            }
        }
    }

    /// How many words' old values a transaction can keep.
    pub fn commit_capacity(&self) -> u16
        ensures exact { result ≡ self.now.heap.durable.capacity }
        ensures least { least_capacity ≤ result }
        ensures most { result ≤ most_capacity }
    {
        self.heap.commit_capacity()
    }

    /// The address that the next object gets: each object lies below it.
    pub fn top(&self) -> u16
        requires { self.now.heap.down ≡ false }
        ensures { result ≡ self.now.heap.now.top }
    {
        self.heap.top()
    }
}
