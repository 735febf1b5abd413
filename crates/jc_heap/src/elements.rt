//! The cells of persistent objects in words: one in a word, or two in a word of a packed array.
ghost use Rattle.std.specs.Prelude.{ℕ, ◌≡◌, ◌<◌, ◌≤◌, ◌+◌, ◌↔◌, true, false, length, slice_index, Err, OnOk};
ghost use Rattle.jc_commit.specs.Entries.{addresses_of, AreDistinct, ArePlaces};
ghost use Rattle.jc_commit.specs.Keep.{has_room_for, writes_for};
ghost use Rattle.jc_commit.specs.State.{keeping, Changes, IsTornWrite};
ghost use Rattle.jc_heap.specs.Object.{IsElement, is_packed};
ghost use Rattle.jc_heap.specs.Image.{IsWellFormed};
ghost use Rattle.jc_heap.specs.Heap.{heap_of, cells, facts, cell_address};
ghost use Rattle.jc_heap.specs.Packed.{byte_in, with_byte, low_bytes};
ghost use Rattle.jc_heap.specs.Place.{cell_at, HasPlace, MayHold};
ghost use Rattle.jc_heap.specs.declared.place.Place.TheVariants.{Cell};
ghost use Rattle.jc_heap.specs.Elements.{elements_of, word_for, byte_before, byte_behind, run_for};

use crate::changes::{CellRun, Elements, PackedRun, Packing};
use crate::layout::HEADER;
use crate::object::{Facts, is_packed_header};
use crate::place::Place;
use jc_commit::{Journal, LONGEST_WORD_RUN, WordChanges, WordRun, WriteRefusal};
use jc_transient::Ref;
use jc_words::WordStore;

// How many words a run of bytes has at least for which they are put into a room.
const LEAST_ROOM: usize = 8;

// The byte of an index in its word.
#[inline(always)]
fn byte_in(word: u16, i: u16) -> u8
    ensures { result ≡ byte_in word i }
{
    if i % 2 == 0 {
        return (word / 256) as u8;
    }
    (word % 256) as u8
}

// A word with the byte of an index set: the other one stays.
#[inline(always)]
fn with_byte(word: u16, i: u16, v: u16) -> u16
    requires { v < 256 }
    ensures { result ≡ with_byte word i v }
{
    if i % 2 == 0 {
        return 256 * v + word % 256;
    }
    word / 256 * 256 + v
}

// Whether two elements of the object stand in a word. It has cells.
#[inline(always)]
pub(crate) fn is_packed<S: WordStore>(journal: &Journal<S>, object: Ref) -> bool
    requires laid { IsWellFormed journal.now.plain }
    requires small { length journal.now.plain < 65536 }
    requires some { 0 < length (cells (heap_of journal.now.plain) object) }
    ensures { result ≡ is_packed (facts (heap_of journal.now.plain) object) }
{
    is_packed_header(journal.read(object.address()))
}

// The word of a cell, where its object's cells have words of their own.
#[inline(always)]
#[tactic(auto, unfolding(crate::specs::Heap::cell_address))]
fn word_at(object: Ref, i: u16) -> u16
    requires { cell_address object i < 65536 }
    ensures { result ≡ cell_address object i }
{
    let offset = u32::from(HEADER) + u32::from(i);
    (u32::from(object.address()) + offset) as u16
}

// The same as a place.
#[inline(always)]
#[tactic(auto, unfolding(crate::specs::Heap::cell_address))]
fn place_at(object: Ref, i: u16) -> usize
    ensures { result ≡ cell_address object i }
{
    object.address() as usize + HEADER as usize + i as usize
}

// The word of a cell.
#[inline(always)]
pub(crate) fn cell_word<S: WordStore>(journal: &Journal<S>, object: Ref, i: u16) -> u16
    requires laid { IsWellFormed journal.now.plain }
    requires small { length journal.now.plain < 65536 }
    requires cell { i < length (cells (heap_of journal.now.plain) object) }
    ensures { result ≡ cell_at (facts (heap_of journal.now.plain) object) object i }
{
    if is_packed(journal, object) {
        return word_at(object, i / 2);
    }
    word_at(object, i)
}

// What a cell holds.
#[inline(always)]
pub(crate) fn cell_value<S: WordStore>(journal: &Journal<S>, object: Ref, i: u16) -> u16
    requires laid { IsWellFormed journal.now.plain }
    requires small { length journal.now.plain < 65536 }
    requires cell { i < length (cells (heap_of journal.now.plain) object) }
    ensures { result ≡ slice_index (cells (heap_of journal.now.plain) object) i }
{
    if is_packed(journal, object) {
        return u16::from(byte_in(journal.read_at(place_at(object, i / 2)), i));
    }
    journal.read_at(place_at(object, i))
}

// Bytes of an array of which two elements stand in a word, from an index on.
#[inline(always)]
fn packed_bytes<S: WordStore>(journal: &Journal<S>, object: Ref, i: u16, out: &mut [u8])
    requires laid { IsWellFormed journal.now.plain }
    requires small { length journal.now.plain < 65536 }
    requires some { 0 < length out.old }
    requires cells { i + length out.old ≤ length (cells (heap_of journal.now.plain) object) }
    requires packed { is_packed (facts (heap_of journal.now.plain) object) ≡ true }
    ensures { out.new ≡ low_bytes (cells (heap_of journal.now.plain) object) i (length out.old) }
{
    let odd = i % 2;
    if odd == 1 {
        out[0] = byte_in(journal.read(word_at(object, i / 2)), 1);
    }
    let first = word_at(object, i / 2 + odd);
    let mut k = odd as usize;
    let behind = first + ((out.len() - k) / 2) as u16;
    for address in first..behind {
        let word = journal.read(address);
        out[k] = byte_in(word, 0);
        out[k + 1] = byte_in(word, 1);
        k += 2;
    }
    if k < out.len() {
        out[k] = byte_in(journal.read(behind), 0);
    }
}

// The low bytes of cells that have words of their own, from an index on.
#[inline(always)]
fn single_bytes<S: WordStore>(journal: &Journal<S>, object: Ref, i: u16, out: &mut [u8])
    requires laid { IsWellFormed journal.now.plain }
    requires small { length journal.now.plain < 65536 }
    requires some { 0 < length out.old }
    requires cells { i + length out.old ≤ length (cells (heap_of journal.now.plain) object) }
    requires single { is_packed (facts (heap_of journal.now.plain) object) ≡ false }
    ensures { out.new ≡ low_bytes (cells (heap_of journal.now.plain) object) i (length out.old) }
{
    let first = word_at(object, i);
    for k in 0..out.len() {
        out[k] = (journal.read(first + k as u16) % 256) as u8;
    }
}

// The low bytes of an object's cells from an index on.
#[inline(always)]
pub(crate) fn cell_bytes<S: WordStore>(journal: &Journal<S>, object: Ref, i: u16, out: &mut [u8])
    requires laid { IsWellFormed journal.now.plain }
    requires small { length journal.now.plain < 65536 }
    requires cells { i + length out.old ≤ length (cells (heap_of journal.now.plain) object) }
    ensures { out.new ≡ low_bytes (cells (heap_of journal.now.plain) object) i (length out.old) }
{
    if out.is_empty() {
        return;
    }
    if is_packed(journal, object) {
        packed_bytes(journal, object, i, out);
        return;
    }
    single_bytes(journal, object, i, out);
}

// What a place's word says once the place holds a value: the other element of its word stays.
#[inline(always)]
pub(crate) fn word_for<S: WordStore>(journal: &Journal<S>, place: &Place, v: u16) -> u16
    requires laid { IsWellFormed journal.now.plain }
    requires small { length journal.now.plain < 65536 }
    requires there { HasPlace (heap_of journal.now.plain) place.now }
    requires value { MayHold (heap_of journal.now.plain) place.now v }
    ensures { result ≡ word_for journal.now.plain place.now v }
{
    if let Place::Cell(object, i) = *place {
        if is_packed(journal, object) {
            return with_byte(journal.read(word_at(object, i / 2)), i, v);
        }
    }
    v
}

// The word of a cell of an object with this header.
#[inline(always)]
pub(crate) fn known_cell_word(header: Facts, object: Ref, i: u16) -> u16
    requires { cell_at header object i < 65536 }
    ensures { result ≡ cell_at header object i }
{
    let place = if header.is_packed() { i / 2 } else { i };
    word_at(object, place)
}

// What that word says once the cell holds a value: the other element of its word stays.
#[inline(always)]
pub(crate) fn known_word_for<S: WordStore>(
    journal: &Journal<S>,
    header: Facts,
    object: Ref,
    i: u16,
    v: u16,
) -> u16
    requires small { length journal.now.plain < 65536 }
    requires header { header ≡ facts (heap_of journal.now.plain) object }
    requires cell { i < length (cells (heap_of journal.now.plain) object) }
    requires value { IsElement (facts (heap_of journal.now.plain) object).kind v }
    ensures { result ≡ word_for journal.now.plain (Cell object i) v }
{
    if header.is_packed() {
        return with_byte(journal.read(word_at(object, i / 2)), i, v);
    }
    v
}

// The byte that stays before an index of a packed array, in the same word.
fn byte_before<S: WordStore>(journal: &Journal<S>, object: Ref, i: u16) -> Option<u8>
    requires laid { IsWellFormed journal.now.plain }
    requires small { length journal.now.plain < 65536 }
    requires cell { i < length (cells (heap_of journal.now.plain) object) }
    requires packed { is_packed (facts (heap_of journal.now.plain) object) ≡ true }
    ensures { result ≡ byte_before journal.now.plain object i }
{
    if i % 2 == 0 {
        return None;
    }
    Some(byte_in(journal.read(word_at(object, i / 2)), 0))
}

// The byte that stays after the elements before an index, in the word of the last of them.
fn byte_behind<S: WordStore>(journal: &Journal<S>, object: Ref, end: usize) -> Option<u8>
    requires laid { IsWellFormed journal.now.plain }
    requires small { length journal.now.plain < 65536 }
    requires some { 0 < end }
    requires cell { end ≤ length (cells (heap_of journal.now.plain) object) }
    requires packed { is_packed (facts (heap_of journal.now.plain) object) ≡ true }
    ensures { result ≡ byte_behind journal.now.plain object end }
{
    if end % 2 == 0 {
        return None;
    }
    Some(byte_in(journal.read(word_at(object, (end / 2) as u16)), 1))
}

// The words of a run of cells, once they hold these values.
#[inline(always)]
pub(crate) fn run_for<'a, S: WordStore>(
    journal: &Journal<S>,
    object: Ref,
    i: u16,
    values: Elements<'a>,
) -> CellRun<'a>
    requires laid { IsWellFormed journal.now.plain }
    requires small { length journal.now.plain < 65536 }
    requires cells { i + length (elements_of values)
        ≤ length (cells (heap_of journal.now.plain) object) }
    requires values { (k : ℕ) → k < length (elements_of values)
        → IsElement (facts (heap_of journal.now.plain) object).kind
        (slice_index (elements_of values) k) }
    ensures { result ≡ run_for journal.now.plain object i (elements_of values.entry) }
{
    let count = values.count();
    if count == 0 {
        return CellRun::new(0, values, Packing::Single);
    }
    if !is_packed(journal, object) {
        return CellRun::new(word_at(object, i), values, Packing::Single);
    }
    let packing = Packing::Double {
        before: byte_before(journal, object, i),
        behind: byte_behind(journal, object, usize::from(i) + count),
    };
    CellRun::new(word_at(object, i / 2), values, packing)
}

// The words of cells of an object, once they hold these bytes.
pub(crate) fn byte_run_for<'a, S: WordStore>(
    journal: &Journal<S>,
    object: Ref,
    i: u16,
    bytes: &'a [u8],
) -> CellRun<'a>
    requires laid { IsWellFormed journal.now.plain }
    requires small { length journal.now.plain < 65536 }
    requires cells { i + length bytes.now ≤ length (cells (heap_of journal.now.plain) object) }
    ensures words { result ≡ run_for journal.now.plain object i bytes.now }
    ensures bytes { (k : ℕ) → k < length bytes.now → slice_index bytes.now k < 256 }
{
    run_for(journal, object, i, Elements::Bytes(bytes))
}

// Writes the words of a run of bytes as one change. Those of one that is neither short nor long are put into a room, so that the store
// takes them by one call.
fn change_packed<S: WordStore>(
    journal: &mut Journal<S>,
    packed: &PackedRun<'_>,
) -> Result<(), WriteRefusal>
    requires up { journal.old.down ≡ false }
    requires places { ArePlaces (length journal.old.plain) packed.now }
    requires distinct { AreDistinct (addresses_of packed.now) }
    ensures ok { OnOk result (Changes packed.now journal.old journal.new) }
    ensures full { (result ≡ Err WriteRefusal.Full)
        ↔ (has_room_for (keeping journal.old) (addresses_of packed.now) ≡ false) }
    ensures kept { result ≡ Err WriteRefusal.Full → journal.new ≡ journal.old }
    ensures stopped { result ≡ Err WriteRefusal.StoreDown → IsTornWrite (writes_for (keeping journal.old) (addresses_of packed.now)) journal.old journal.new }
{
    let count = packed.count();
    if count < LEAST_ROOM || LONGEST_WORD_RUN < count {
        return journal.write_all(packed);
    }
    let mut room = [0; LONGEST_WORD_RUN];
    let words = &mut room[..count];
    let first = packed.fill(words);
    journal.write_all(&WordRun::new(first, words))
}

/// Writes the words of a run as one change.
pub(crate) fn change_run<S: WordStore>(
    journal: &mut Journal<S>,
    run: CellRun,
) -> Result<(), WriteRefusal>
    requires up { journal.old.down ≡ false }
    requires places { ArePlaces (length journal.old.plain) run }
    requires distinct { AreDistinct (addresses_of run) }
    ensures ok { OnOk result (Changes run.entry journal.old journal.new) }
    ensures full { (result ≡ Err WriteRefusal.Full)
        ↔ (has_room_for (keeping journal.old) (addresses_of run.entry) ≡ false) }
    ensures kept { result ≡ Err WriteRefusal.Full → journal.new ≡ journal.old }
    ensures stopped { result ≡ Err WriteRefusal.StoreDown → IsTornWrite (writes_for (keeping journal.old) (addresses_of run.entry)) journal.old journal.new }
{
    match run.packed() {
        Ok(packed) => change_packed(journal, &packed),
        Err(cells) => journal.write_all(&cells),
    }
}
