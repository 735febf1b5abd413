//! A heap: reading, cells, transactions.
ghost use Rattle.std.specs.Prelude.{ℕ, ◌≡◌, ◌<◌, ◌≤◌, [], ◌∷◌, true, false, length, slice_index, OnOk, ◌+◌, ◌↔◌, IsTrue, None, IfSome, IfOk};
ghost use Rattle.jc_words.specs.Count.{saturating_count};
ghost use Rattle.jc_words.specs.Layout.{least_capacity, most_capacity};
ghost use Rattle.jc_words.specs.Refusals.{with_fuse_at};
ghost use Rattle.jc_heap.specs.Object.{IsElement};
ghost use Rattle.jc_heap.specs.Image.{IsWellFormed};
ghost use Rattle.jc_heap.specs.Heap.{HeapView, heap_view, IsSound, cells, facts, IsObject, HasEnd, next_object, room_left};
ghost use Rattle.jc_heap.specs.Heap.{KeepsBelowTop};
ghost use Rattle.jc_heap.specs.Packed.{low_bytes};
ghost use Rattle.jc_heap.specs.Elements.{elements_of};
ghost use Rattle.jc_heap.specs.Heap.Store.{HoldsHeap, IsAtRest, heap_of_store_at_rest};
ghost use Rattle.jc_heap.specs.declared.object.Kind.TheVariants.{Instance};
ghost use Rattle.jc_heap.specs.declared.place.Place.TheVariants.{Cell};
ghost use Rattle.jc_heap.specs.Moves.{Write, SetCells, Begin, Commit, Abort, PerformsMoves, PerformsMovesUnless, refusal_of_places, refusal_of_cells};
ghost use Rattle.jc_heap.specs.Completions.{Completed, after_change, after_step};

use crate::changes::Elements;
use crate::elements::{
    cell_bytes, cell_value, change_run, known_cell_word, known_word_for, run_for,
};
use crate::lookup::{facts_at, is_persistent_instance, next_behind};
use crate::object::Facts;
use crate::place::Place;
use crate::refusal::ChangeRefusal;
use crate::walk::{begins_package, begins_record};
use jc_commit::Journal;
use jc_transient::Ref;
use jc_words::layout::{TEXT_LENGTH, TEXT_START, TOP};
use jc_words::{CopyStore, FuseStore, StoreDown, WordStore};
use std::alloc::{AllocError, Global};
use std::marker::Model;

/// Objects by reference, with transactions.
///
/// A contract sees two heaps: the heap as it is, and the heap that a completed recovery would leave.
/// After a refused write nothing but a power up may follow.
#[derive(Drop)]
pub struct Heap<S: WordStore> {
    pub(crate) journal: Journal<S>,
    // Where the heap ends.
    pub(crate) size: u16,
}

impl<S: WordStore> Model for Heap<S> {
    ghost use Rattle.jc_heap.specs.Heap.{HeapView, heap_view, IsSound};

    ghost Value = { HeapView };

    ghost view = { λ h. heap_view h.journal h.size };

    ghost invariant = { λ h. IsSound h.journal h.size };
}

impl<S: CopyStore> Heap<S> {
    /// Another heap over a copy of the store. Without memory for it, it answers the error.
    pub fn copy(&self, alloc: Global) -> Result<Heap<S>, AllocError>
        ensures { IfOk result (λ copy. copy ≡ self.now) }
    {
        let journal = self.journal.copy(alloc)?;
        Ok(Heap {
            journal,
            size: self.size,
        })
    }
}

impl<S: WordStore> Heap<FuseStore<S>> {
    /// Arms the fuse of the store, while no transaction is open: `k` further writes pass, and the next is refused.
    pub fn arm(&mut self, k: u64)
        requires up { self.old.down ≡ false }
        requires outside { self.old.begun ≡ false }
        ensures armed { self.new ≡ record self.old {
          refusals = with_fuse_at (saturating_count self.old.passed k) self.old.refusals;
        } }
        ensures settled { self.old.durable ≡ self.old.now }
        ensures none { self.old.touched ≡ [] }
    {
        self.journal.arm(k);
    }
}

impl<S: WordStore> Heap<S> {
    /// A cell of a persistent object.
    #[inline(always)]
    pub fn get(&self, object: Ref, i: u16) -> u16
        requires up { self.now.down ≡ false }
        requires cell { i < length (cells self.now.now object) }
        ensures { result ≡ slice_index (cells self.now.now object) i }
    {
        cell_value(&self.journal, object, i)
    }

    /// The low bytes of a persistent object's cells from an index on, which are the elements of an array of bytes.
    #[inline(always)]
    pub fn bytes(&self, object: Ref, i: u16, out: &mut [u8])
        requires up { self.now.down ≡ false }
        requires cells { i + length out.old ≤ length (cells self.now.now object) }
        ensures { out.new ≡ low_bytes (cells self.now.now object) i (length out.old) }
    {
        cell_bytes(&self.journal, object, i, out);
    }

    /// What an object's header says.
    #[inline(always)]
    pub fn facts(&self, object: Ref) -> Facts
        requires up { self.now.down ≡ false }
        requires there { IsObject self.now.now object }
        ensures facts { result ≡ facts self.now.now object }
        ensures cells { result.event ≡ None → length (cells self.now.now object) ≡ result.length }
    {
        facts_at(&self.journal, object)
    }

    /// Whether an object is persistent and no array.
    #[inline(always)]
    pub fn is_persistent_instance(&self, object: Ref) -> bool
        requires up { self.now.down ≡ false }
        requires there { IsObject self.now.now object }
        ensures { IsTrue result ↔ (((facts self.now.now object).event ≡ None)
            × ((facts self.now.now object).kind ≡ Instance)) }
    {
        is_persistent_instance(&self.journal, object)
    }

    /// The address that the next object gets: each object lies below it.
    pub fn top(&self) -> u16
        requires { self.now.down ≡ false }
        ensures top { result ≡ self.now.now.top }
        ensures some { 0 < result }
        ensures end { HasEnd self.now.now }
    {
        self.journal.read(TOP)
    }

    /// Whether a word is the reference of an object. It takes a walk over the heap.
    #[inline(never)]
    pub fn is_object(&self, word: u16) -> bool
        requires { self.now.down ≡ false }
        ensures { IsTrue result ↔ IsObject self.now.now word }
    {
        let text = u32::from(self.journal.read(TEXT_LENGTH));
        let from = TEXT_START + (text + 1) / 2;
        if !begins_record(&self.journal, from as u16, word) {
            return false;
        }
        !begins_package(&self.journal, word)
    }

    /// The object after another one in the order of addresses, or the first one of all after null.
    pub fn next(&self, object: Ref) -> Option<Ref>
        requires up { self.now.down ≡ false }
        requires there { (object ≡ 0 → ⊥) → IsObject self.now.now object }
        ensures next { result ≡ next_object self.now.now object }
        ensures object { IfSome result (λ q. IsObject self.now.now q) }
    {
        next_behind(&self.journal, object)
    }

    /// Sets a cell of a persistent object.
    #[inline(always)]
    pub fn set(&mut self, object: Ref, i: u16, v: u16) -> Result<(), ChangeRefusal>
        requires up { self.old.down ≡ false }
        requires cell { i < length (cells self.old.now object) }
        requires value { IsElement (facts self.old.now object).kind v }
        ensures { PerformsMovesUnless (refusal_of_places self.old (Cell object i ∷ [])) self.old
            (after_change result self.new) (Write (Cell object i) v ∷ []) tt }
    {
        self.write(Place::Cell(object, i), v)
    }

    /// Sets a cell of a persistent object whose header says this. It is not read again.
    #[inline(always)]
    pub fn set_known(
        &mut self,
        object: Ref,
        header: Facts,
        i: u16,
        v: u16,
    ) -> Result<(), ChangeRefusal>
        requires up { self.old.down ≡ false }
        requires header { header ≡ facts self.old.now object }
        requires cell { i < length (cells self.old.now object) }
        requires value { IsElement (facts self.old.now object).kind v }
        ensures { PerformsMovesUnless (refusal_of_places self.old (Cell object i ∷ [])) self.old
            (after_change result self.new) (Write (Cell object i) v ∷ []) tt }
    {
        let value = known_word_for(&self.journal, header, object, i, v);
        let word = known_cell_word(header, object, i);
        self.journal.write(word, value)?;
        Ok(())
    }

    /// Sets the cells of a persistent object from an index on, as one change. Elements that share a word with one of them
    /// stay.
    pub fn set_run(&mut self, object: Ref, i: u16, values: Elements) -> Result<(), ChangeRefusal>
        requires up { self.old.down ≡ false }
        requires cells { i + length (elements_of values) ≤ length (cells self.old.now object) }
        requires values { (k : ℕ) → k < length (elements_of values)
            → IsElement (facts self.old.now object).kind (slice_index (elements_of values) k) }
        ensures { PerformsMovesUnless (refusal_of_cells self.old object i (elements_of values.entry))
            self.old (after_change result self.new)
            (SetCells object i (elements_of values.entry) ∷ []) tt }
    {
        let run = run_for(&self.journal, object, i, values);
        change_run(&mut self.journal, run)?;
        Ok(())
    }

    /// Whether a transaction is open.
    pub fn is_open(&self) -> bool
        ensures open { result ≡ self.now.begun }
        // Outside a transaction a loss of power leaves the heap as it is.
        ensures settled { self.now.down ≡ false → result ≡ false → self.now.durable ≡ self.now.now }
    {
        self.journal.is_open()
    }

    /// How many places' old values a transaction can keep.
    pub fn commit_capacity(&self) -> u16
        ensures exact { result ≡ self.now.durable.capacity }
        ensures least { least_capacity ≤ result }
        ensures most { result ≤ most_capacity }
    {
        self.journal.capacity()
    }

    /// How many more places' old values the transaction can keep.
    pub fn room(&self) -> u16
        ensures left { result ≡ room_left self.now }
        ensures within { result + length self.now.touched ≡ self.now.durable.capacity }
        ensures most { result ≤ most_capacity }
    {
        self.journal.room()
    }

    /// Begins a transaction. Nothing is written.
    #[inline(always)]
    pub fn begin(&mut self)
        requires up { self.old.down ≡ false }
        requires outside { self.old.begun ≡ false }
        ensures moves { PerformsMoves {A = Unit {0}} self.old (Completed tt self.new)
            (Begin ∷ []) tt }
        ensures settled { self.old.durable ≡ self.old.now }
        ensures none { self.old.touched ≡ [] }
    {
        self.journal.begin();
    }

    /// Ends the transaction, whose changes then stay.
    #[inline(always)]
    pub fn commit(&mut self) -> Result<(), StoreDown>
        requires up { self.old.down ≡ false }
        requires inside { self.old.begun ≡ true }
        ensures { PerformsMoves self.old (after_step result self.new) (Commit ∷ []) tt }
    {
        self.journal.commit()?;
        Ok(())
    }

    /// Takes the transaction back. Of what stood, what stands below the new top is left.
    pub fn abort(&mut self) -> Result<(), StoreDown>
        requires up { self.old.down ≡ false }
        requires inside { self.old.begun ≡ true }
        ensures moves { PerformsMoves self.old (after_step result self.new) (Abort ∷ []) tt }
        ensures names { OnOk result (KeepsBelowTop self.old.now self.new.now) }
    {
        self.journal.abort()?;
        Ok(())
    }

    /// A heap at rest, over a journal whose words are laid and in which nothing is open. Nothing is read
    /// or written.
    pub fn of_journal(journal: Journal<S>, size: u16) -> Heap<S>
        requires size { size ≡ length journal.plain }
        requires settled { journal.recovered ≡ journal.plain }
        requires laid { IsWellFormed journal.plain }
        ensures { result ≡ heap_view journal size }
    {
        Heap { journal, size } // as it was given
    }

    /// The journal, for the layer that keeps whole images.
    pub fn into_journal(self) -> Journal<S>
        ensures view { heap_view result self.size ≡ self }
        ensures sound { IsSound result self.size }
    {
        let Heap { journal, size: _ } = self;
        journal
    }

    /// A heap at rest, over a store as `into_store` gives it while no transaction is open. Nothing is
    /// read or written.
    pub fn resume(store: S) -> Heap<S>
        requires { IsAtRest (S.words store) (S.down store) }
        ensures { result ≡ heap_of_store_at_rest (S.words store) (S.passed store)
            (S.refusals store) }
    {
        let journal = Journal::resume(store);
        let size = journal.limit();
        Heap { journal, size }
    }

    /// The store, for a power up or for `resume`.
    pub fn into_store(self) -> S
        ensures { HoldsHeap (S.words result) (S.down result) (S.passed result)
            (S.refusals result) self }
    {
        let Heap { journal, size: _ } = self;
        journal.into_store()
    }
}
