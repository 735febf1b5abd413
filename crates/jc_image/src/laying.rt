//! Making an image: its words without objects, and at the end the magic word.
ghost use Rattle.std.specs.Prelude.{◌≡◌, ◌<◌, ◌≤◌, ◌+◌, ◌-◌, ◌*◌, ◌/◌, ◌⊎◌, true, false, length, slice_index, take, is_ok, if◌then◌else◌, OnOk};
ghost use Rattle.std.specs.Prelude.{OnErr, IfOk, IfErr};
ghost use Rattle.jc_words.specs.Count.{saturating_count};
ghost use Rattle.jc_words.specs.Refusals.{refused_once};
ghost use Rattle.jc_words.specs.Layout.{front_length, least_size, magic_address, text_start};
ghost use Rattle.jc_words.specs.Image.{IsCapacity, heap_end};
ghost use Rattle.jc_heap.specs.Heap.Store.{HoldsHeap};
ghost use Rattle.jc_image.specs.Laying.{IsOfBytes, IsPartlyWritten, first_free, image_front, written_image_prefix, unsealed_view, new_image_words, sealed_view};
ghost use Rattle.jc_image.specs.Laying.{first_words_of, heap_after_refused_seal, sealed_heap};

use jc_commit::Journal;
use jc_heap::Heap;
use jc_heap::packed::packed_word;
use jc_words::layout::{FRONT_LENGTH, MAGIC, MAGIC_WORD, TEXT_START, VERSION};
use jc_words::{Log, StoreDown, WordStore};

/// What a new image is to have room for.
#[derive(Clone, Copy)]
pub struct ImageRoom {
    /// How many entries the journal can have, 16 to 1024.
    pub capacity: u16,
    /// How many cells the transient objects of each event can have; 0 says as many as are usual.
    pub cells: u16,
    /// How many cells the APDU buffer has; 0 says as many as are usual.
    pub buffer: u16,
}

/// How many words an image without objects takes, whose table text has n bytes.
pub fn first_free(text: u16) -> u32
    ensures { result ≡ first_free text }
{
    TEXT_START + (u32::from(text) + 1) / 2
}

// The first words of an image without objects, all but the magic word.
fn front_of(size: u16, room: ImageRoom, text: u16) -> [u16; FRONT_LENGTH]
    requires size { least_size ≤ size }
    requires capacity { IsCapacity room.capacity }
    requires text { first_free text < 65536 }
    ensures { result ≡ image_front size room text }
{
    let top = first_free(text) as u16;
    let log = Log::among(size, room.capacity);
    [
        0, // no magic word yet
        VERSION,
        size, // of the store
        0,
        0, // not looked at
        top,
        0,
        0,
        0,
        0,
        text,
        log.capacity,
        log.start,
        room.cells,
        room.buffer,
        0,
    ]
}

// A word of an image of n words without objects.
fn new_image_word(n: u16, room: ImageRoom, text: &[u8], i: u16) -> u16
    requires size { least_size ≤ n }
    requires capacity { IsCapacity room.capacity }
    requires short { length text.now < 65536 }
    requires fits { first_free (length text.now) ≤ n }
    requires low { i < first_free (length text.now) }
    ensures word { result ≡ slice_index (new_image_words n room text.now) i }
    ensures bytes { text_start ≤ i → (slice_index text.now (2 * (i - text_start)) < 256)
        × (slice_index text.now (2 * (i - text_start) + 1) < 256) }
{
    if (i as usize) < FRONT_LENGTH {
        return front_of(n, room, text.len() as u16)[i as usize];
    }
    if u32::from(i) < TEXT_START {
        return 0;
    }
    packed_word(text, i - TEXT_START as u16)
}

// Writes the words of an image without objects, from word 0 on.
fn write_image<S: WordStore>(store: &mut S, text: &[u8], room: ImageRoom) -> Result<(), StoreDown>
    requires enough { least_size ≤ length (S.words store.old) }
    requires capacity { IsCapacity room.capacity }
    requires short { length text.now < 65536 }
    requires fits { first_free (length text.now) ≤ length (S.words store.old) }
    ensures done { OnOk result (S.words store.new ≡ written_image_prefix
        (first_free (length text.now)) (length (S.words store.old)) room text.now (S.words store.old)) }
    ensures part { IsPartlyWritten room text.now (S.words store.old) (S.words store.new) }
    ensures size { length (S.words store.new) ≡ length (S.words store.old) }
    ensures bytes { OnOk result (IsOfBytes text.now) }
    ensures was_up { OnOk result (S.down store.old ≡ false) }
    ensures up { OnOk result (S.down store.new ≡ false) }
    ensures down { OnErr result (S.down store.new ≡ true) }
    ensures passed { OnOk result (S.passed store.new
        ≡ saturating_count (S.passed store.old) (first_free (length text.now))) }
    ensures refusals { S.refusals store.new ≡ (if is_ok result then S.refusals store.old else
        refused_once (S.down store.old) (S.passed store.new) (S.refusals store.old)) }
{
    let n = store.size();
    for i in 0..first_free(text.len() as u16) as u16 {
        store.write(i, new_image_word(n, room, text, i))?;
    }
    Ok(())
}

/// Lays the words of an image without objects over a store, with this table text and this room. The magic word
/// comes last, by `seal`; until then word 0 is 0. Where the store refuses a write it is given back.
pub fn lay<S: WordStore>(mut store: S, text: &[u8], room: ImageRoom) -> Result<Heap<S>, S>
    requires enough { least_size ≤ length (S.words store) }
    requires capacity { IsCapacity room.capacity }
    requires short { length text.now < 65536 }
    requires fits { first_free (length text.now) ≤ heap_end (length (S.words store)) room.capacity }
    ensures done { IfOk result (λ h. h ≡ unsealed_view (length (S.words store)) room text.now
        (saturating_count (S.passed store) (first_free (length text.now))) (S.refusals store)) }
    ensures was_up { OnOk result (S.down store ≡ false) }
    ensures down { IfErr result (λ s. S.down s ≡ true) }
    ensures refused { IfErr result (λ s. S.refusals s
        ≡ refused_once (S.down store) (S.passed s) (S.refusals store)) }
    ensures part { IfErr result (λ s. IsPartlyWritten room text.now (S.words store) (S.words s)) }
    ensures size { IfErr result (λ s. length (S.words s) ≡ length (S.words store)) }
    ensures unmarked { IfErr result (λ s. (S.words s ≡ S.words store)
        ⊎ (slice_index (S.words s) magic_address ≡ 0)) }
{
    let Ok(()) = write_image(&mut store, text, room) else {
        return Err(store);
    };
    match Journal::open(store) {
        Ok(journal) => {
            let size = journal.limit();
            Ok(Heap::of_journal(journal, size))
        }
        Err((_, store)) => Err(store),
    }
}

/// Ends the making of an image: writes the magic word, and gives the store back.
pub fn seal<S: WordStore>(heap: Heap<S>) -> Result<S, S>
    requires up { heap.down ≡ false }
    requires outside { heap.begun ≡ false }
    ensures sealed { IfOk result (λ s. HoldsHeap (S.words s) (S.down s) (S.passed s) (S.refusals s)
        (sealed_view heap)) }
    ensures front { IfOk result (λ s. take front_length (S.words s)
        ≡ first_words_of (sealed_heap heap.now)) }
    ensures stopped { IfErr result (λ s. HoldsHeap (S.words s) (S.down s) (S.passed s) (S.refusals s)
        (heap_after_refused_seal heap)) }
    ensures settled { heap.durable ≡ heap.now }
{
    let mut journal = heap.into_journal();
    match journal.write_both(MAGIC_WORD, MAGIC) {
        Ok(()) => Ok(journal.into_store()),
        Err(StoreDown) => Err(journal.into_store()),
    }
}
