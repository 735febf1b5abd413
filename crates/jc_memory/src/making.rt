//! New objects.
ghost use Rattle.std.specs.Prelude.{◌≡◌, false, None, Some};
ghost use Rattle.jc_memory.specs.Programs.{Executes};
ghost use Rattle.jc_heap.specs.Completions.{after_making};
ghost use Rattle.jc_memory.specs.State.{zero_of};
ghost use Rattle.jc_memory.specs.Making.{new_object};

use crate::memory::Memory;
use jc_heap::{HeapRefusal, Kind};
use jc_transient::{CellValue, ClassWord, ClearEvent, Owner, Ref};
use jc_words::WordStore;

/// What a new object is to be.
#[derive(Clone, Copy)]
pub struct NewObject {
    pub kind: Kind,
    /// What is to clear its cells; none, where it is to be persistent.
    pub event: Option<ClearEvent>,
    /// The class of an instance, or that of an array's elements, where they are references.
    pub class: ClassWord,
    pub owner: Owner,
    /// How many cells it is to have.
    pub length: u16,
}

// What the cells of a new object hold.
fn zero_of(kind: Kind) -> CellValue
    ensures { result ≡ zero_of kind }
{
    match kind {
        Kind::ReferenceArray => CellValue::Reference(Ref::null()),
        _ => CellValue::Short(0),
    }
}

impl<S: WordStore> Memory<S> {
    // Makes a persistent object.
    fn make_persistent(&mut self, object: NewObject) -> Result<Ref, HeapRefusal>
        requires up { self.old.heap.down ≡ false }
        requires event { object.event ≡ None }
        ensures { Executes (new_object self.old object) self.old (after_making result self.new) }
    {
        let owner = object.owner.number();
        let r = self
            .heap
            .new_persistent(object.kind, object.class, owner, object.length)?;
        self.ram.set_flag(r, false);
        self.marks.mark(r);
        Ok(r)
    }

    // Makes a transient object.
    #[tactic(auto, using(jc_heap::proofs::Calls::made_there, jc_heap::proofs::Calls::made_facts))]
    fn make_transient(&mut self, event: ClearEvent, object: NewObject) -> Result<Ref, HeapRefusal>
        requires up { self.old.heap.down ≡ false }
        requires event { object.event ≡ Some event }
        ensures { Executes (new_object self.old object) self.old (after_making result self.new) }
    {
        let owner = object.owner.number();
        let (kind, length) = (object.kind, object.length);
        let r = self
            .heap
            .new_transient(kind, event, object.class, owner, length)?;
        let place = self.heap.facts(r).place;
        self.ram.fill(event, place, length, zero_of(kind));
        self.ram.set_flag(r, false);
        self.marks.mark(r);
        Ok(r)
    }

    /// Makes an object, whose cells are zero or null and whose flag is not set. Refused, in this
    /// order: no space in the area of a transient object, no space in the heap, no room in the
    /// transaction.
    pub fn make(&mut self, object: NewObject) -> Result<Ref, HeapRefusal>
        requires up { self.old.heap.down ≡ false }
        ensures { Executes (new_object self.old object) self.old (after_making result self.new) }
    {
        if self.notes.are_kept() {
            self.note_want_of_space(object.event, object.kind, object.length);
        }
        let made = match object.event {
            None => self.make_persistent(object),
            Some(event) => self.make_transient(event, object),
        };
        if let Err(HeapRefusal::CommitFull) = made {
            self.note_full_transaction(1);
        }
        made
    }
}
