//! Which instruction makes each word write of a command, and which words non-atomic calls write.

use crate::callees::{non_atomic_call, push_callee};
use crate::explanation::Asked;
use crate::places::push_place;
use crate::text::Text;
use jc_memory::{Cause, Note, Notes, Spot};
use std::alloc::{AllocError, Global};
use std::cell::RefCell;
use std::mem;
use std::rc::Rc;

// A word that was written, and where the instruction stands that wrote it, if code ran.
#[derive(Clone, Copy)]
struct SpotWrite {
    spot: Option<Spot>,
    address: u16,
}

// What is seen of a command.
#[derive(Drop)]
struct Seen {
    alloc: Global,
    notes: Notes,
    // Where the instruction stands that is carried out, if code runs.
    spot: Option<Spot>,
    // The words that were written since the last command, one after the other.
    writes: Vec<SpotWrite>,
    // Those that non-atomic calls wrote of the last command that came to its end.
    words: Vec<u16>,
    // Whether each write is asked about, and what is reported of those of that command.
    is_telling: bool,
    told: Vec<Vec<u8>>,
    // Whether there was no memory for one of them.
    is_short: bool,
}

/// Watches the word writes of commands. It reads the notes of a session, and takes them, so that nobody else may read them.
#[derive(Drop)]
pub struct Watch {
    seen: Rc<RefCell<Seen>>,
}

impl Watch {
    /// Nothing is seen yet. Each write of a command is reported where that is wanted.
    pub fn new(alloc: Global, is_telling: bool) -> Result<Watch, AllocError> {
        let seen = Rc::new(alloc, RefCell::new(Seen::nothing(alloc, is_telling)))?;
        Ok(Watch { seen })
    }

    /// The same watch, for another who notifies it.
    pub fn share(&self) -> Result<Watch, AllocError> {
        match self.seen.clone() {
            Ok(seen) => Ok(Watch { seen }),
            Err(_) => Err(AllocError),
        }
    }

    /// A session begins, which has these notes.
    pub fn follow(&self, notes: Notes) {
        if let Ok(mut seen) = self.seen.try_borrow_mut() {
            seen.notes = notes;
        }
    }

    /// A word is written.
    pub fn write(&self, address: u16) {
        if let Ok(mut seen) = self.seen.try_borrow_mut() {
            seen.write(address);
        }
    }

    /// A command has ended, which is asked about.
    pub fn end(&self, asked: &Asked<'_>) {
        if let Ok(mut seen) = self.seen.try_borrow_mut() {
            seen.end(asked);
        }
    }

    /// The power was cut or came back: what was seen since the last command counts for none.
    pub fn forget(&self) {
        if let Ok(mut seen) = self.seen.try_borrow_mut() {
            seen.forget();
        }
    }

    /// The words that the non-atomic calls of the last command wrote.
    pub fn words(&self, alloc: Global) -> Result<Vec<u16>, AllocError> {
        match self.seen.try_borrow() {
            Ok(seen) => seen.copied(alloc),
            Err(_) => Err(AllocError),
        }
    }

    /// What is reported of each word write of the last command, one after the other, if it is reported and there was memory for it. It is reported once.
    pub fn told(&self) -> Option<Vec<Vec<u8>>> {
        match self.seen.try_borrow_mut() {
            Ok(mut seen) => Some(seen.take_told()),
            Err(_) => None,
        }
    }
}

impl Seen {
    fn nothing(alloc: Global, is_telling: bool) -> Seen {
        Seen {
            alloc,
            notes: Notes::nowhere(),
            spot: None,
            writes: Vec::new(alloc),
            words: Vec::new(alloc),
            is_telling,
            told: Vec::new(alloc),
            is_short: false,
        }
    }

    fn write(&mut self, address: u16) {
        if let Some(note) = self.notes.take() {
            self.spot = spot_now(&note, self.spot);
        }
        let write = SpotWrite {
            spot: self.spot,
            address,
        };
        if !has_pushed(&mut self.writes, write) {
            self.is_short = true;
        }
    }

    fn end(&mut self, asked: &Asked<'_>) {
        let writes = mem::replace(&mut self.writes, Vec::new(self.alloc));
        self.words = Vec::new(self.alloc);
        for write in writes.as_slice() {
            if is_non_atomic(*write, asked) && !has_pushed(&mut self.words, write.address) {
                self.is_short = true;
            }
        }
        self.told = self.told_of(&writes, asked);
        self.spot = None;
    }

    // What is reported of these writes; nothing where it is not wanted, or where there is no memory for it.
    fn told_of(&self, writes: &[SpotWrite], asked: &Asked<'_>) -> Vec<Vec<u8>> {
        let mut told = Vec::new(self.alloc);
        if !self.is_telling {
            return told;
        }
        for (number, write) in writes.iter().enumerate() {
            let Ok(text) = told_of_write(number, *write, asked) else {
                return Vec::new(self.alloc);
            };
            if told.push(text).is_err() {
                return Vec::new(self.alloc);
            }
        }
        told
    }

    fn take_told(&mut self) -> Vec<Vec<u8>> {
        mem::replace(&mut self.told, Vec::new(self.alloc))
    }

    fn forget(&mut self) {
        self.spot = None;
        self.writes = Vec::new(self.alloc);
    }

    fn copied(&self, alloc: Global) -> Result<Vec<u16>, AllocError> {
        if self.is_short {
            return Err(AllocError);
        }
        Vec::from_slice(alloc, &self.words)
    }
}

// Whether a non-atomic call made a write.
fn is_non_atomic(write: SpotWrite, asked: &Asked<'_>) -> bool {
    match write.spot {
        Some(spot) => non_atomic_call(spot, asked.linked).is_some(),
        None => false,
    }
}

// Says which write of a command is the one that follows this number of them, which a cut after them refuses, and which instruction makes it.
fn told_of_write(
    number: usize,
    write: SpotWrite,
    asked: &Asked<'_>,
) -> Result<Vec<u8>, AllocError> {
    let mut text = Text::new(asked.alloc);
    text.push(b"why: line ");
    text.push_number(asked.line);
    text.push(b", cut after ");
    text.push_wide(number as u64);
    text.push(b": the write of word ");
    text.push_number(u32::from(write.address));
    match write.spot {
        Some(spot) => {
            text.push(b"\n");
            push_place(&mut text, spot, asked);
            push_callee(&mut text, spot, asked);
            text.push(b"\n");
        }
        None => text.push(b", by the runtime environment\n"),
    }
    text.into_bytes()
}

// Where the instruction stands that is carried out, by what was noted since it was last asked; after what kept code from going on, none.
fn spot_now(note: &Note, before: Option<Spot>) -> Option<Spot> {
    let Cause::Nothing = note.cause else {
        return None;
    };
    if note.steps_left_out > 0 {
        return None;
    }
    match note.steps.as_slice().last() {
        Some(step) => Some(step.spot),
        None => before,
    }
}

// Adds an item, if there is memory for it. It is of any type, since the prover does not yet cover the push of a spot.
fn has_pushed<T: Copy>(items: &mut Vec<T>, item: T) -> bool {
    items.push(item).is_ok()
}
