//! New objects.
ghost use Rattle.std.specs.Prelude.{nat_le, ◌≡◌, [], ◌∷◌, false, IfOk, Some, ◌+◌, ◌-◌};
ghost use Rattle.jc_words.specs.Refusals.{IsWithinFuse};
ghost use Rattle.jc_heap.specs.Object.{AnObject, new_object, object_size, new_transient, header_word};
ghost use Rattle.jc_heap.specs.Heap.{is_allocated, heap_item_at, area_end, area_limit, limit};
ghost use Rattle.jc_heap.specs.Moves.{AddTransient, PerformsMovesUnless, new_move, refusal_of_object, refusal_of_transient};
ghost use Rattle.jc_heap.specs.Completions.{after_making};

use crate::fresh::{write_record, write_run};
use crate::heap::Heap;
use crate::layout::{HEADER, area_word};
use crate::object::{Kind, words_of_cells};
use crate::refusal::HeapRefusal;
use jc_transient::{ClassWord, ClearEvent, OwnerWord, Ref};
use jc_words::WordStore;
use jc_words::layout::TOP;

impl<S: WordStore> Heap<S> {
    /// How many words new objects can still take.
    pub fn free_words(&self) -> u16
        requires { self.now.down ≡ false }
        ensures { result ≡ limit self.now - self.now.now.top }
    {
        self.size.saturating_sub(self.top())
    }

    /// How many word writes the store has let pass. At 2^64 - 1 the count stays.
    pub fn passed_writes(&self) -> u64
        ensures count { result ≡ self.now.passed }
        ensures within { IsWithinFuse self.now.passed self.now.refusals.fuse }
    {
        self.journal.passed_writes()
    }

    /// How many cells of an event's area new objects can still take.
    pub fn free_cells(&self, event: ClearEvent) -> u16
        requires { self.now.down ≡ false }
        ensures { result ≡ area_limit self.now.now event - area_end self.now.now event }
    {
        let end = self.journal.read(area_word(event));
        self.area_limit(event).saturating_sub(end)
    }

    /// Whether there is space for a new persistent object of a kind, with n cells.
    pub fn has_space(&self, kind: Kind, length: u16) -> bool
        requires { self.now.down ≡ false }
        ensures { result ≡ nat_le (self.now.now.top + object_size kind length) (limit self.now) }
    {
        u32::from(self.top()) + object_size(kind, length) <= u32::from(self.size)
    }

    /// Makes a persistent object whose cells are zero. Of arrays of bytes and of booleans two elements stand in a word.
    pub fn new_persistent(
        &mut self,
        kind: Kind,
        class: ClassWord,
        owner: OwnerWord,
        length: u16,
    ) -> Result<Ref, HeapRefusal>
        requires { self.old.down ≡ false }
        ensures moves { PerformsMovesUnless (refusal_of_object self.old kind length) self.old
            (after_making result self.new) (new_move kind class owner length ∷ [])
            self.old.now.top }
        ensures made { IfOk result (λ r. heap_item_at self.new.now r
            ≡ AnObject (new_object kind class owner length)) }
        ensures free { is_allocated self.old.now self.old.now.top ≡ false }
    {
        let top = self.journal.read(TOP);
        let end = u32::from(top) + object_size(kind, length);
        if end > u32::from(self.size) {
            return Err(HeapRefusal::HeapFull);
        }
        if !self.journal.fits(&[TOP]) {
            return Err(HeapRefusal::CommitFull);
        }
        let header = [kind.header_number(), class.0, owner.0, length];
        let zeros = words_of_cells(kind.has_bytes(), length) as u16;
        let Ok(()) = write_record(&mut self.journal, top, &header, zeros) else {
            return Err(HeapRefusal::StoreDown);
        };
        // There is room for the top's old value, so the store alone can refuse.
        let Ok(()) = self.journal.write(TOP, end as u16) else {
            return Err(HeapRefusal::StoreDown);
        };
        Ok(Ref::at(top))
    }

    /// Makes a transient object. Its cells are the first free ones of its event's area; whoever keeps
    /// the area gives them their values.
    pub fn new_transient(
        &mut self,
        kind: Kind,
        event: ClearEvent,
        class: ClassWord,
        owner: OwnerWord,
        length: u16,
    ) -> Result<Ref, HeapRefusal>
        requires { self.old.down ≡ false }
        ensures moves { PerformsMovesUnless (refusal_of_transient self.old event length) self.old
            (after_making result self.new) (AddTransient kind event class owner length ∷ [])
            self.old.now.top }
        ensures made { IfOk result (λ r. heap_item_at self.new.now r
            ≡ AnObject (new_transient kind event class owner length
            (area_end self.old.now event))) }
        ensures free { is_allocated self.old.now self.old.now.top ≡ false }
    {
        let end_word = area_word(event);
        let place = self.journal.read(end_word);
        let area_end = u32::from(place) + u32::from(length);
        if area_end > u32::from(self.area_limit(event)) {
            return Err(HeapRefusal::NoTransientSpace);
        }
        let top = self.journal.read(TOP);
        let end = u32::from(top) + u32::from(HEADER) + 1;
        if end > u32::from(self.size) {
            return Err(HeapRefusal::HeapFull);
        }
        if !self.journal.fits(&[TOP, end_word]) {
            return Err(HeapRefusal::CommitFull);
        }
        let record = [header_of(kind, event), class.0, owner.0, length, place];
        let Ok(()) = write_run(&mut self.journal, top, &record) else {
            return Err(HeapRefusal::StoreDown);
        };
        // There is room for both old values, so the store alone can refuse.
        let changes = [(TOP, end as u16), (end_word, area_end as u16)];
        let Ok(()) = self.journal.write_all(&changes) else {
            return Err(HeapRefusal::StoreDown);
        };
        Ok(Ref::at(top))
    }
}

// How many words a new persistent object of a kind takes, with n cells.
fn object_size(kind: Kind, length: u16) -> u32
    ensures { result ≡ object_size kind length }
{
    u32::from(HEADER) + words_of_cells(kind.has_bytes(), length)
}

// The first word of a transient object's header.
fn header_of(kind: Kind, event: ClearEvent) -> u16
    ensures { result ≡ header_word kind (Some event) }
{
    match event {
        ClearEvent::Reset => kind.number() + 256,
        ClearEvent::Deselect => kind.number() + 512,
    }
}
