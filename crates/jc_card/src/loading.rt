//! The manager's commands that bring a package in.
ghost use Rattle.std.specs.Prelude.{◌≡◌, false};
ghost use Rattle.jc_memory.specs.Programs.{Executes};
ghost use Rattle.jc_card.specs.Answers.{after_exchange, after_response};
ghost use Rattle.jc_card.specs.Loading.{begin_component, end_component, append_component, link_number, begin_load, end_load, response_to, response_of_end};
ghost use Rattle.jc_card.specs.Loading.{status_of};

use crate::card::Card;
use crate::packages::end_load_of;
use crate::response::StatusResponse;
use crate::status_word::StatusWord;
use jc_linker::fault::LinkFault;
use jc_packages::{LoadRefusal, OpenLoad};
use jc_words::{StoreDown, WordStore};

/// The status words of the faults of components and of linking, which are numbered from 1, each less its number.
const CAP_FAULT: u16 = 0x6400;

const LINK_FAULT: u16 = 0x6420;

// The last digit of the status word 642n for a fault of linking.
fn link_number(fault: LinkFault) -> u8
    ensures { result ≡ link_number fault }
{
    match fault {
        LinkFault::ImportMissing => 1,
        LinkFault::ImportVersion => 2,
        LinkFault::Unresolved(_) => 3,
        LinkFault::NoMemory => 4,
    }
}

// The status word of a refusal.
fn status_of(refusal: LoadRefusal) -> StatusWord
    ensures { result.0 ≡ status_of refusal }
{
    match refusal {
        LoadRefusal::OutOfSequence => StatusWord::CONDITIONS_NOT_SATISFIED,
        LoadRefusal::UnknownTag => StatusWord::WRONG_DATA,
        LoadRefusal::BadComponents(fault) => StatusWord(CAP_FAULT + u16::from(fault.number())),
        LoadRefusal::AidTaken => StatusWord::AID_TAKEN,
        LoadRefusal::Full => StatusWord::FULL,
        LoadRefusal::LinkFailed(fault) => StatusWord(LINK_FAULT + u16::from(link_number(fault))),
        LoadRefusal::HeapFull => StatusWord::NO_SPACE,
    }
}

// The response to a command of a load that ended so.
fn response_to(ended: Result<(), LoadRefusal>) -> StatusResponse
    ensures { result ≡ response_to ended }
{
    match ended {
        Ok(()) => StatusResponse::of_status(StatusWord::NO_ERROR),
        Err(refusal) => StatusResponse::of_status(status_of(refusal)),
    }
}

// What is said of how a load ended.
fn response_of_end(
    ended: Result<Result<(), LoadRefusal>, StoreDown>,
) -> Result<StatusResponse, StoreDown>
    ensures { result ≡ response_of_end ended }
{
    Ok(response_to(ended?))
}

impl<S: WordStore> Card<S> {
    // Notes where the component that ends can no longer be right, if somebody asks why.
    fn note_component(&self) {
        let notes = self.memory.notes();
        if notes.are_kept() {
            if let Some(load) = &self.load {
                load.note_component(self.alloc, notes);
            }
        }
    }

    /// Command 80 B0 begin load: opens a load; one that was open is dropped.
    pub(crate) fn begin_load(&mut self) -> StatusResponse
        requires up { self.old.memory.heap.down ≡ false }
        ensures { Executes (begin_load self.old) self.old.memory (after_response result self.new) }
    {
        self.load = Some(OpenLoad::new());
        response_to(Ok(()))
    }

    /// Command 80 B2 begin component: begins a component.
    pub(crate) fn begin_component(&mut self, tag: u8) -> StatusResponse
        requires up { self.old.memory.heap.down ≡ false }
        ensures { Executes (begin_component tag self.old) self.old.memory
            (after_response result self.new) }
    {
        match &mut self.load {
            Some(load) => response_to(load.begin_component(self.alloc, tag)),
            None => response_to(Err(LoadRefusal::OutOfSequence)),
        }
    }

    /// Command 80 B4 append: takes more bytes of the open component.
    pub(crate) fn append(&mut self, more: &[u8]) -> StatusResponse
        requires up { self.old.memory.heap.down ≡ false }
        ensures { Executes (append_component more.now self.old) self.old.memory
            (after_response result self.new) }
    {
        if more.is_empty() {
            return StatusResponse::of_status(StatusWord::WRONG_LENGTH);
        }
        match &mut self.load {
            Some(load) => response_to(load.append(more)),
            None => response_to(Err(LoadRefusal::OutOfSequence)),
        }
    }

    /// Command 80 BC end component: reads and keeps the open component, or drops it.
    pub(crate) fn end_component(&mut self) -> StatusResponse
        requires up { self.old.memory.heap.down ≡ false }
        ensures { Executes (end_component self.old) self.old.memory
            (after_response result self.new) }
    {
        self.note_component();
        match &mut self.load {
            Some(load) => response_to(load.end_component()),
            None => response_to(Err(LoadRefusal::OutOfSequence)),
        }
    }

    /// Command 80 BA end load: links the package and adds it, or refuses it.
    pub(crate) fn end_load(&mut self) -> Result<StatusResponse, StoreDown>
        requires up { self.old.memory.heap.down ≡ false }
        ensures { Executes (end_load self.old) self.old.memory (after_exchange result self.new) }
    {
        let ended = end_load_of(
            self.alloc,
            &mut self.memory,
            &mut self.linked,
            &mut self.load,
        );
        response_of_end(ended)
    }
}
