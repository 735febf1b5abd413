//! Notes of what was asked for where room was not there.
ghost use Rattle.std.specs.Prelude.{◌≡◌, false};

use crate::memory::Memory;
use crate::notes::{Shortage, Space};
use jc_heap::layout::{HEADER, TRANSIENT};
use jc_heap::{ChangeRefusal, Facts, Kind};
use jc_transient::{ClearEvent, Ref};
use jc_words::WordStore;

// How many words an object of a kind takes, with n cells.
fn words_of(kind: Kind, cells: u16) -> u32 {
    let words = match kind {
        Kind::BooleanArray | Kind::ByteArray => u32::from(cells).div_ceil(2),
        _ => u32::from(cells),
    };
    u32::from(HEADER) + words
}

// How many words n cells stand in, from an index on.
pub(crate) fn words_from(facts: Facts, i: u16, cells: usize) -> usize {
    if facts.packed && cells > 0 {
        let first = usize::from(i % 2);
        return cells.saturating_add(first).div_ceil(2);
    }
    cells
}

// The area that an event clears.
fn space_of(event: ClearEvent) -> Space {
    match event {
        ClearEvent::Reset => Space::ResetArea,
        ClearEvent::Deselect => Space::DeselectArea,
    }
}

impl<S: WordStore> Memory<S> {
    // Notes that the heap has fewer words left than are asked for.
    #[cold]
    fn note_full_heap(&self, asked: u32)
        requires { self.now.heap.down ≡ false }
    {
        if self.notes.are_kept() {
            self.notes.shortage(Shortage {
                space: Space::Heap,
                asked,
                left: u32::from(self.heap.free_words()),
            });
        }
    }

    // Notes that there is no space for a persistent object of a kind, with n cells.
    #[cold]
    pub(crate) fn note_no_space(&self, kind: Kind, cells: u16)
        requires { self.now.heap.down ≡ false }
    {
        self.note_full_heap(words_of(kind, cells));
    }

    // Notes what of a new object there is no space for, if there is not.
    #[cold]
    pub(crate) fn note_want_of_space(&self, event: Option<ClearEvent>, kind: Kind, cells: u16)
        requires { self.now.heap.down ≡ false }
    {
        let Some(event) = event else {
            if !self.heap.has_space(kind, cells) {
                self.note_no_space(kind, cells);
            }
            return;
        };
        let left = u32::from(self.heap.free_cells(event));
        if u32::from(cells) > left {
            self.notes.shortage(Shortage {
                space: space_of(event),
                asked: u32::from(cells),
                left,
            });
        } else if !self.heap.has_space(Kind::Instance, TRANSIENT - HEADER) {
            self.note_full_heap(u32::from(TRANSIENT));
        }
    }

    // Notes that the transaction has fewer places left than are asked for.
    #[cold]
    pub(crate) fn note_full_transaction(&self, asked: usize) {
        self.notes.shortage(Shortage {
            space: Space::Transaction,
            asked: u32::try_from(asked).unwrap_or(u32::MAX),
            left: u32::from(self.heap.room()),
        });
    }

    // How many words n cells of an object stand in, from an index on.
    pub(crate) fn words_of_cells(&self, object: Ref, i: u16, cells: usize) -> usize
        requires { self.now.heap.down ≡ false }
    {
        match self.header(object) {
            Some(facts) => words_from(facts, i, cells),
            None => 0,
        }
    }

    // Notes why changes of this number of words were not made.
    #[cold]
    pub(crate) fn note_refused_change(&self, refusal: ChangeRefusal, asked: usize) {
        if refusal == ChangeRefusal::CommitFull {
            self.note_full_transaction(asked);
        }
    }
}
