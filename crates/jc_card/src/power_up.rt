//! Powering a card up over the words of its image.
ghost use Rattle.std.specs.Prelude.{ℕ, List, ◌≡◌, ◌⊎◌, ◌+◌, ◌↔◌, length, slice_index, [], Ok, Some, IsOk, IfOk, IfErr, IfSome, OnOk, false, MatchResult};
ghost use Rattle.jc_words.specs.Layout.{version, version_address};
ghost use Rattle.jc_transient.specs.State.{IsCleared};
ghost use Rattle.jc_heap.specs.Heap.{area_sizes, heap_of, heap_view};
ghost use Rattle.jc_heap.specs.Image.{IsWellFormed};
ghost use Rattle.jc_heap.specs.Heap.Store.{IsAtRest, heap_of_store_at_rest};
ghost use Rattle.jc_heap.specs.WholeHeap.{IsConsistent};
ghost use Rattle.jc_image.specs.Beginning.{HeapBeginsWith};
ghost use Rattle.jc_commit.specs.Image.{IsGoodLog, count_of, recovered_of};
ghost use Rattle.jc_memory.specs.Marks.{AreNone, mark_count};
ghost use Rattle.jc_platform.specs.Table.{Reads};
ghost use Rattle.jc_platform.specs.Tokens.{Tokens};
ghost use Rattle.jc_packages.specs.Tables.{HasTable};
ghost use Rattle.jc_packages.specs.Objects.{MarksObjects};
ghost use Rattle.jc_packages.specs.Reading.{packages_of};
ghost use Rattle.jc_interp.specs.Attacks.{undisturbed};
ghost use Rattle.jc_environment.specs.Objects.{sized_objects};
ghost use Rattle.jc_card.specs.Fixed.{buffer_cells, fixed_facts};
ghost use Rattle.jc_card.specs.PowerUp.Reset.{ArePartsOf, IsAtReset};
ghost use Rattle.jc_card.specs.PowerUp.{FailsToLink, HasHeap, HasPackages, RecoveredWordsFail, fault_of};
ghost use Rattle.jc_card.specs.PowerUp.Outcome.{PowersUpOver};

use crate::card::Card;
use crate::fixed::{buffer_told, first_objects, fixed_headers};
use crate::lent::LentStore;
use crate::packages::CardPackages;
use arrayvec::ArrayVec;
use jc_commit::OpenRefusal;
use jc_environment::fixed_objects;
use jc_frames::Frames;
use jc_heap::Heap;
use jc_image::OpenImage;
use jc_interp::attacks::Budget;
use jc_memory::{MOST_FIXED, Marks, Memory, Rooms, unset_flags};
use jc_packages::fault::ReadFault;
use jc_packages::known::KnownPackages;
use jc_packages::reading::read_packages;
use jc_packages::sound::is_sound;
use jc_packages::tables::table_of;
use jc_platform::table::Table;
use jc_transient::{MOST_BUFFER, Ram, Ref};
use jc_words::{ImageFault, WordStore, check_image};
use std::alloc::Global;
use thiserror::Error;

/// Why a card doesn't power up, in the order in which it is asked.
#[derive(Clone, Copy, Debug, Error)]
pub enum PowerFault {
    #[error("the image does not begin with its magic word")]
    BadMagic,
    #[error("the image has a version that is not known")]
    BadVersion,
    #[error("the image does not tell its own size, or it is too small")]
    BadSize,
    /// The journal has more entries than it can have, or one names no word that a change may touch.
    #[error("the journal is damaged")]
    BadLog,
    /// The platform table is not there, or its text is none.
    #[error("the platform table is damaged")]
    BadTable,
    /// The words of the heap don't agree with one another; or the heap doesn't begin with the objects
    /// of the runtime environment; or its packages don't link, or it doesn't fit them.
    #[error("the heap is damaged")]
    BadPackage,
    #[error("there is no memory")]
    NoMemory,
    #[error("the store is down")]
    StoreDown,
}

impl From<ImageFault> for PowerFault {
    ghost from_gives = { λ f e. e ≡ fault_of f };

    fn from(fault: ImageFault) -> Self {
        match fault {
            ImageFault::BadMagic => PowerFault::BadMagic,
            ImageFault::BadVersion => PowerFault::BadVersion,
            ImageFault::BadSize => PowerFault::BadSize,
        }
    }
}

/// What is read of an image for a card, beside the marks.
pub(crate) struct CardParts {
    pub(crate) linked: CardPackages,
    pub(crate) ram: Ram,
    pub(crate) fixed: ArrayVec<u16, MOST_FIXED>,
    pub(crate) rooms: Rooms,
}

impl<S: WordStore> Card<S> {
    /// The card of a store, after a reset, with a budget of instructions a command: first takes back what a loss of power left open and makes the
    /// image one of the version that is written, then asks for memory. Where it refuses, it gives the store back.
    pub fn power_up(alloc: Global, store: S, budget: u32) -> Result<Card<S>, (PowerFault, S)>
        ensures { PowersUpOver S.words S.down S.passed S.refusals store budget result }
    {
        if let Err(fault) = check_image(&store) {
            return Err((PowerFault::from(fault), store));
        }
        match OpenImage::open(store) {
            Ok(image) => start(alloc, image.into_store(), budget),
            Err((OpenRefusal::BadLog, store)) => Err((PowerFault::BadLog, store)),
            Err((OpenRefusal::StoreDown, store)) => Err((PowerFault::StoreDown, store)),
        }
    }
}

// The card of a store at rest. Its image is read of words that are lent, so that a fault leaves the store as it is.
fn start<S: WordStore>(alloc: Global, store: S, budget: u32) -> Result<Card<S>, (PowerFault, S)>
    requires up { S.down store ≡ false }
    requires good { IsGoodLog (S.words store) }
    requires current { slice_index (S.words store) version_address ≡ version }
    requires closed { count_of (S.words store) ≡ 0 }
    ensures ok { OnOk result ((t : Tokens) × HasTable (recovered_of (S.words store)) t
        × HasHeap t (recovered_of (S.words store))) }
    ensures heap { IfOk result (λ card. card.memory.heap
        ≡ heap_of_store_at_rest (S.words store) (S.passed store) (S.refusals store)) }
    ensures budget { IfOk result (λ card. card.budget ≡ undisturbed budget) }
    ensures reset { IfOk result (λ card. IsAtReset (heap_of (recovered_of (S.words store))) card) }
    ensures cause { IfErr result (λ e. RecoveredWordsFail e.0 (recovered_of (S.words store))) }
    ensures same { IfErr result (λ e. e.1 ≡ store) }
{
    let Ok(mut marks) = unset_flags(alloc) else {
        return Err((PowerFault::NoMemory, store));
    };
    let image = OpenImage::resume(LentStore::of(&store));
    match read_parts(alloc, image, marks.as_mut_slice(), &None) {
        Ok(parts) => Ok(card_over(alloc, store, parts, Marks::of_flags(marks), budget)),
        Err(fault) => Err((fault, store)),
    }
}

/// What a recovered image says of a card; and marks where its objects stand. Its words are lent. The table that is known is taken where it has its text.
pub(crate) fn read_parts<S: WordStore + Drop>(
    alloc: Global,
    image: OpenImage<S>,
    marks: &mut [bool],
    known: &Option<KnownPackages>,
) -> Result<CardParts, PowerFault>
    requires up { image.down ≡ false }
    requires long { length marks.old ≡ mark_count }
    requires unset { AreNone marks.old }
    ensures long { length marks.new ≡ mark_count }
    ensures marked { OnOk result (MarksObjects marks.new (heap_of image.plain)) }
    ensures ok { OnOk result ((t : Tokens) × HasTable image.plain t × HasHeap t image.plain) }
    ensures parts { IfOk result (ArePartsOf (heap_of image.plain)) }
    ensures cause { IfErr result (λ fault. RecoveredWordsFail fault image.plain) }
{
    if let Some(known) = known {
        if known.has_text_of(&image) {
            return parts_over(alloc, image, marks, known.table(), Some(known));
        }
    }
    let table = platform_of(alloc, &image)?;
    parts_over(alloc, image, marks, &table, None)
}

// The same over its table, which is the one of the packages that are known, if any are.
fn parts_over<S: WordStore + Drop>(
    alloc: Global,
    image: OpenImage<S>,
    marks: &mut [bool],
    table: &Table,
    known: Option<&KnownPackages>,
) -> Result<CardParts, PowerFault>
    requires up { image.down ≡ false }
    requires long { length marks.old ≡ mark_count }
    requires unset { AreNone marks.old }
    requires table { HasTable image.plain table.now }
    requires known { IfSome known (λ k. k.now.tokens ≡ table.now) }
    ensures long { length marks.new ≡ mark_count }
    ensures marked { OnOk result (MarksObjects marks.new (heap_of image.plain)) }
    ensures ok { OnOk result (HasHeap table.now image.plain) }
    ensures parts { IfOk result (ArePartsOf (heap_of image.plain)) }
    ensures cause { IfErr result (λ fault. RecoveredWordsFail fault image.plain) }
{
    let heap = whole_heap(image, table, marks)?;
    let Ok(ram) = Ram::new(alloc, heap.area_sizes()) else {
        return Err(PowerFault::NoMemory);
    };
    let Ok(rooms) = Rooms::new(alloc) else {
        return Err(PowerFault::NoMemory);
    };
    link_packages(alloc, table, &heap, marks, ram, rooms, known)
}

// The heap of a recovered image, where it is whole and begins with the objects of the runtime environment; and marks where
// its objects stand. No memory is asked for.
fn whole_heap<S: WordStore + Drop>(
    image: OpenImage<S>,
    table: &Table,
    marks: &mut [bool],
) -> Result<Heap<S>, PowerFault>
    requires up { image.down ≡ false }
    requires long { length marks.old ≡ mark_count }
    requires unset { AreNone marks.old }
    ensures long { length marks.new ≡ mark_count }
    ensures marked { OnOk result (MarksObjects marks.new (heap_of image.plain)) }
    ensures exact { IsOk result ↔ (IsWellFormed image.plain × IsConsistent (heap_of image.plain)
        × HeapBeginsWith (heap_of image.plain) (fixed_facts table.now 0
        (sized_objects table.now (buffer_cells (heap_of image.plain))))) }
    ensures whole { IfOk result (λ heap. IsConsistent heap.now) }
    ensures heap { IfOk result (λ heap. heap ≡ heap_view image (length image.plain)) }
    ensures fault { IfErr result (λ fault. fault ≡ PowerFault.BadPackage) }
{
    let buffer = buffer_told(image.buffer_word());
    if buffer > MOST_BUFFER {
        return Err(PowerFault::BadPackage);
    }
    match image.check_and_mark(&fixed_headers(table, buffer), marks) {
        Ok(heap) => Ok(heap),
        Err(_) => Err(PowerFault::BadPackage),
    }
}

// The parts of a card over a whole heap: its packages are read and linked, and it has to fit them.
fn link_packages<S: WordStore>(
    alloc: Global,
    table: &Table,
    heap: &Heap<S>,
    marks: &[bool],
    ram: Ram,
    rooms: Rooms,
    known: Option<&KnownPackages>,
) -> Result<CardParts, PowerFault>
    requires up { heap.now.down ≡ false }
    requires long { length marks.now ≡ mark_count }
    requires marked { MarksObjects marks.now heap.now.now }
    requires whole { IsConsistent heap.now.now }
    requires words { (w : List ℕ) × (heap.now.now ≡ heap_of w) }
    requires reads { Reads heap.now.now.text (Ok table.now) }
    requires cleared { IsCleared ram }
    requires sizes { ram.sizes ≡ area_sizes heap.now.now }
    requires command { rooms.command ≡ [] }
    requires sent { rooms.sent ≡ [] }
    requires known { IfSome known (λ k. k.now.tokens ≡ table.now) }
    ensures fit { OnOk result (HasPackages table.now heap.now.now) }
    ensures parts { IfOk result (ArePartsOf heap.now.now) }
    ensures cause { IfErr result (λ fault. FailsToLink fault table.now heap.now.now) }
{
    let linked = packages_of(alloc, table, heap, known)?;
    let (fixed, own) = first_objects(heap, fixed_objects(table).len());
    if !is_sound(heap, marks, linked.get(), own) {
        return Err(PowerFault::BadPackage);
    }
    Ok(CardParts {
        linked,
        ram,
        fixed,
        rooms,
    })
}

// The packages of a whole heap: those that are known, where their records have the same words, or else they are read.
fn packages_of<S: WordStore>(
    alloc: Global,
    table: &Table,
    heap: &Heap<S>,
    known: Option<&KnownPackages>,
) -> Result<CardPackages, PowerFault>
    requires up { heap.now.down ≡ false }
    requires whole { IsConsistent heap.now.now }
    requires known { IfSome known (λ k. k.now.tokens ≡ table.now) }
    ensures linked { IfOk result (λ linked. packages_of table.now heap.now.now ≡ Some linked) }
    ensures cause { IfErr result (λ fault. FailsToLink fault table.now heap.now.now) }
{
    if let Some(known) = known {
        if known.has_records_of(heap) {
            return match known.linked() {
                Ok(linked) => Ok(CardPackages::of_shared(linked)),
                Err(_) => Err(PowerFault::NoMemory),
            };
        }
    }
    match read_packages(alloc, table.platform(), heap) {
        Ok(linked) => Ok(CardPackages::own(linked)),
        Err(fault) => Err(fault_of(fault)),
    }
}

/// The card over a store at rest, of what was read of its words. No memory is asked for.
pub(crate) fn card_over<S: WordStore>(
    alloc: Global,
    store: S,
    parts: CardParts,
    marks: Marks,
    budget: u32,
) -> Card<S>
    requires rests { IsAtRest (S.words store) (S.down store) }
    requires whole { IsConsistent (heap_of (recovered_of (S.words store))) }
    requires marked { MarksObjects marks (heap_of (recovered_of (S.words store))) }
    requires parts { ArePartsOf (heap_of (recovered_of (S.words store))) parts }
    ensures heap { result.memory.heap
        ≡ heap_of_store_at_rest (S.words store) (S.passed store) (S.refusals store) }
    ensures reset { IsAtReset (heap_of (recovered_of (S.words store))) result }
    ensures budget { result.budget ≡ undisturbed budget }
{
    let CardParts {
        linked,
        ram,
        fixed,
        rooms,
    } = parts;
    let heap = Heap::resume(store);
    Card {
        alloc,
        memory: Memory::new(heap, ram, fixed, marks, rooms),
        linked,
        load: None,
        budget: Budget::undisturbed(budget),
        frames: Frames::empty(),
    }
}

// The fault of packages that are not read.
fn fault_of(fault: ReadFault) -> PowerFault
    ensures damaged { result ≡ PowerFault.BadPackage → fault ≡ ReadFault.Damaged }
    ensures memory { result ≡ PowerFault.NoMemory → fault ≡ ReadFault.NoMemory }
    ensures one { (result ≡ PowerFault.BadPackage) ⊎ (result ≡ PowerFault.NoMemory) }
{
    match fault {
        ReadFault::Damaged => PowerFault::BadPackage,
        ReadFault::NoMemory => PowerFault::NoMemory,
    }
}

// The platform table of an image.
fn platform_of<S: WordStore>(alloc: Global, image: &OpenImage<S>) -> Result<Table, PowerFault>
    ensures { MatchResult result (λ t. HasTable image.now.plain t)
        (λ fault. RecoveredWordsFail fault image.now.plain) }
{
    match table_of(alloc, image) {
        Ok(table) => Ok(table),
        Err(ReadFault::Damaged) => Err(PowerFault::BadTable),
        Err(ReadFault::NoMemory) => Err(PowerFault::NoMemory),
    }
}
