//! A memory: its parts, and what headers say.
ghost use Rattle.std.specs.Prelude.{◌≡◌, ◌<◌, [], false, true, IfOk, IfSome, slice_index};
ghost use Rattle.jc_heap.specs.Heap.{IsObject, area_sizes};
ghost use Rattle.jc_heap.specs.WholeHeap.{IsConsistent};
ghost use Rattle.jc_transient.specs.State.{HasSizes};
ghost use Rattle.jc_memory.specs.Registers.{at_reset};
ghost use Rattle.jc_memory.specs.Cells.{IsHeaderOf, header_at};
ghost use Rattle.jc_memory.specs.Marks.{AreObjects};

use crate::images::Images;
use crate::kept::Kept;
use crate::marks::Marks;
use crate::notes::Notes;
use crate::registers::Registers;
use arrayvec::ArrayVec;
use jc_heap::{Facts, Heap};
use jc_transient::{Ram, Ref};
use jc_words::WordStore;
use std::alloc::{AllocError, Global};
use std::marker::Model;

/// How many bytes a command has at most: seven, 65535 bytes of data, and two that say how many are expected.
pub const MOST_COMMAND: usize = 65544;

/// How many bytes are sent in answer to it at most.
pub const MOST_SENT: usize = 32767;

/// With how many objects the heap begins at most.
pub const MOST_FIXED: usize = 32;

/// What running code sees and changes: the heap, the transient contents, for whom code runs, the
/// command that is carried out, and what was sent in answer to it.
///
/// After a refused write nothing but a power up may follow.
#[derive(Drop)]
pub struct Memory<S: WordStore> {
    pub(crate) heap: Heap<S>,
    pub(crate) ram: Ram,
    pub(crate) fixed: ArrayVec<u16, MOST_FIXED>,
    pub(crate) marks: Marks,
    pub(crate) images: Images,
    pub(crate) registers: Registers,
    pub(crate) command: Kept<MOST_COMMAND>,
    pub(crate) sent: Kept<MOST_SENT>,
    // What it says is no part of the value.
    pub(crate) notes: Notes,
}

impl<S: WordStore> Model for Memory<S> {
    ghost use Rattle.jc_memory.specs.State.{MemoryState, IsConsistentMemory};
    ghost use Rattle.jc_memory.specs.Marks.{AreKnown};

    ghost Value = { MemoryState };

    ghost view = { λ m. record {
      heap = m.heap;
      ram = m.ram;
      fixed = m.fixed.items;
      registers = m.registers;
      command = m.command;
      sent = m.sent;
    } };

    ghost invariant = { λ m. IsConsistentMemory m.heap m.ram × AreKnown m.marks m.images m.heap };
}

/// Room for the bytes of a command, and for those that are sent in answer to it.
#[derive(Drop)]
pub struct Rooms {
    pub command: Kept<MOST_COMMAND>,
    pub sent: Kept<MOST_SENT>,
}

impl Rooms {
    /// Both rooms, in which nothing is kept. Without memory for them, it answers the error.
    pub fn new(alloc: Global) -> Result<Rooms, AllocError>
        ensures command { IfOk result (λ rooms. rooms.command ≡ []) }
        ensures sent { IfOk result (λ rooms. rooms.sent ≡ []) }
    {
        Ok(Rooms {
            command: Kept::new(alloc)?,
            sent: Kept::new(alloc)?,
        })
    }
}

impl<S: WordStore> Memory<S> {
    /// A memory over a whole heap at rest, as a reset leaves it; with transient contents of the sizes that the heap's words say, with the
    /// addresses of the objects with which the heap begins, in their order; with marks where objects stand; and with what these rooms keep
    /// as the command and as what was sent.
    pub fn new(
        heap: Heap<S>,
        ram: Ram,
        fixed: ArrayVec<u16, MOST_FIXED>,
        marks: Marks,
        rooms: Rooms,
    ) -> Memory<S>
        requires up { heap.down ≡ false }
        requires rests { heap.begun ≡ false }
        requires whole { IsConsistent heap.now }
        requires sizes { HasSizes ram }
        requires fits { ram.sizes ≡ area_sizes heap.now }
        requires marked { AreObjects marks heap }
        ensures { result ≡ record {
          heap = heap;
          ram = ram;
          fixed = fixed.items;
          registers = at_reset;
          command = rooms.command;
          sent = rooms.sent;
        } }
    {
        // Nothing stands at or above the top, and the durable heap is this one.
        let _ = (heap.top(), heap.is_open());
        let images = Images::of(&heap);
        let Rooms { command, sent } = rooms;
        Memory {
            heap,
            ram,
            fixed,
            marks,
            images,
            registers: Registers::at_reset(),
            command,
            sent,
            notes: Notes::nowhere(),
        }
    }

    /// The parts that outlive a command, the addresses of the objects with which the heap begins, and the rooms.
    pub fn into_parts(self) -> (Heap<S>, Ram, ArrayVec<u16, MOST_FIXED>, Rooms)
        ensures heap { result.0 ≡ self.heap }
        ensures ram { result.1 ≡ self.ram }
        ensures fixed { result.2.items ≡ self.fixed }
        ensures command { result.3.command ≡ self.command }
        ensures sent { result.3.sent ≡ self.sent }
    {
        let Memory {
            heap,
            ram,
            fixed,
            marks: _,
            images: _,
            registers: _,
            command,
            sent,
            notes: _,
        } = self;
        (heap, ram, fixed, Rooms { command, sent })
    }

    /// Where it is noted from now on what keeps code from going on.
    pub fn explain(&mut self, notes: Notes)
        ensures { self.new ≡ self.old }
    {
        self.notes = notes;
    }

    /// Where it is noted what keeps code from going on.
    #[inline(always)]
    pub fn notes(&self) -> &Notes {
        &self.notes
    }

    /// The heap, to be read.
    #[inline(always)]
    pub fn heap(&self) -> &Heap<S>
        ensures { result.now ≡ self.now.heap }
    {
        &self.heap
    }

    /// The object with this number, from 0, among those with which the heap begins; null where there are not as many.
    pub fn fixed(&self, number: usize) -> Ref
        ensures { result ≡ slice_index self.now.fixed number }
    {
        match self.fixed.get(number) {
            Some(address) => Ref::at(*address),
            None => Ref::null(),
        }
    }

    /// What the header of the object that a reference names says; `None` where no object stands there.
    #[inline(always)]
    pub fn header(&self, reference: Ref) -> Option<Facts>
        requires up { self.now.heap.down ≡ false }
        ensures header { result ≡ header_at self.now reference }
        ensures there { IfSome result (λ facts. IsObject self.now.heap.now reference
            × IsHeaderOf self.now reference facts) }
    {
        if self.marks.has(reference) || self.heap.is_object(reference.address()) {
            Some(self.facts(reference))
        } else {
            None
        }
    }

    /// Whether an object is known to stand at an address: it is asked without a walk over the heap. `false` says nothing.
    #[inline(always)]
    pub fn knows(&self, reference: Ref) -> bool
        requires up { self.now.heap.down ≡ false }
        ensures { result ≡ true → IsObject self.now.heap.now reference }
    {
        self.marks.has(reference)
    }

    /// What an object's header says.
    #[inline(always)]
    pub fn facts(&self, object: Ref) -> Facts
        requires up { self.now.heap.down ≡ false }
        requires there { IsObject self.now.heap.now object }
        ensures { IsHeaderOf self.now object result }
    {
        self.heap.facts(object)
    }
}
