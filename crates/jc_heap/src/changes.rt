//! Changes of several words, made up as they are read.
ghost use Rattle.std.specs.Prelude.{◌≡◌, ◌<◌, ◌≤◌, ◌+◌, ◌-◌, ◌^◌, ◌++◌, ℕ, List, length, drop, slice_index, slice_index_or, IfOk, IfErr, IfSome};
ghost use Rattle.jc_commit.specs.Runs.{run_words};
ghost use Rattle.jc_heap.specs.Place.{place_word, words_of};
ghost use Rattle.jc_heap.specs.Changes.{AreWords};
ghost use Rattle.jc_heap.specs.Elements.{elements_of, byte_or_none, bytes_with, FitPacking, packing_words};

use crate::layout::HEADER;
use crate::place::Place;
use jc_commit::{LONGEST_WORD_RUN, WordChanges, WordRun};
use jc_transient::Ref;
use jc_words::layout::{APPLETS, REGISTRY};
use std::marker::Model;

/// Values for cells, one after another.
#[derive(Clone, Copy)]
pub enum Elements<'a> {
    Bytes(&'a [u8]),
    Words(&'a [u16]),
}

impl<'a> Elements<'a> {
    /// How many there are.
    #[inline(always)]
    pub(crate) fn count(self) -> usize
        ensures { result ≡ length (elements_of self.entry) }
    {
        match self {
            Elements::Bytes(bytes) => bytes.len(),
            Elements::Words(words) => words.len(),
        }
    }

    // One of them.
    #[inline(always)]
    fn element(self, k: usize) -> u16
        requires { k < length (elements_of self) }
        ensures { result ≡ slice_index (elements_of self.entry) k }
    {
        match self {
            Elements::Bytes(bytes) => u16::from(bytes[k]),
            Elements::Words(words) => words[k],
        }
    }
}

/// Bytes for the cells of an object from an index on.
#[derive(Clone, Copy)]
pub struct ByteRun<'a> {
    pub object: Ref,
    pub start: u16,
    pub bytes: &'a [u8],
}

/// How the values of a run stand in words.
#[derive(Clone, Copy)]
pub(crate) enum Packing {
    /// One in a word.
    Single,
    /// Two in a word: the first one after this byte, where there is one, and the last one before that byte.
    Double {
        before: Option<u8>,
        behind: Option<u8>,
    },
}

// A byte, 0 where there is none.
#[inline(always)]
fn optional_byte(byte: Option<u8>) -> u16
    ensures value { result ≡ slice_index (byte_or_none byte) 0 }
    ensures small { result < 256 }
{
    match byte {
        Some(byte) => u16::from(byte),
        None => 0,
    }
}

// The byte of an index among the bytes of a run: those that stay before and after it count.
#[inline(always)]
fn byte_of_run(before: Option<u8>, values: Elements, behind: Option<u8>, j: usize) -> u16
    requires { (k : ℕ) → k < length (elements_of values) → slice_index (elements_of values) k < 256 }
    ensures value { result ≡ slice_index (bytes_with before (elements_of values.entry) behind) j }
    ensures small { result < 256 }
{
    let first = usize::from(before.is_some());
    if j < first {
        return optional_byte(before);
    }
    let k = j - first;
    let count = values.count();
    if k < count {
        return values.element(k);
    }
    if k == count {
        return optional_byte(behind);
    }
    0
}

// The bytes of a run's words after the first one, as far as they stand in the slice.
#[inline(always)]
fn behind_first(before: Option<u8>, bytes: &[u8]) -> &[u8]
    ensures { result.now ≡ drop (2 - length (byte_or_none before)) bytes.now }
{
    let first = 2 - usize::from(before.is_some());
    if first < bytes.len() {
        return &bytes[first..];
    }
    &bytes[bytes.len()..]
}

/// The words of a run of cells from an address on.
#[derive(Drop)]
pub(crate) struct CellRun<'a> {
    at: u16,
    values: Elements<'a>,
    packing: Packing,
}

impl<'a> Model for CellRun<'a> {
    ghost use Rattle.std.specs.Prelude.{List, ℕ, length, ◌+◌, ◌≤◌};
    ghost use Rattle.jc_commit.specs.Runs.{run_words};
    ghost use Rattle.jc_heap.specs.Elements.{elements_of, packing_words, FitPacking};

    ghost Value = { List (ℕ × ℕ) };

    ghost view = { λ r. run_words r.at (packing_words r.packing (elements_of r.values)) };

    ghost invariant = { λ r. (r.at + length (packing_words r.packing (elements_of r.values)) ≤ 65536)
        × FitPacking r.packing (elements_of r.values) };
}

impl<'a> CellRun<'a> {
    pub(crate) fn new(at: u16, values: Elements<'a>, packing: Packing) -> Self
        requires fits { at + length (packing_words packing (elements_of values)) ≤ 65536 }
        requires packing { FitPacking packing (elements_of values) }
        ensures { result ≡ run_words at (packing_words packing (elements_of values.entry)) }
    {
        CellRun {
            at,
            values,
            packing,
        }
    }

    // A word of the run.
    #[inline(always)]
    fn word(&self, k: usize) -> (u16, u16)
        requires { k < length self.now }
        ensures { result ≡ slice_index_or self.now k (0, 0) }
    {
        let value = match self.packing {
            Packing::Single => self.values.element(k),
            Packing::Double { before, behind } => {
                256 * byte_of_run(before, self.values, behind, 2 * k)
                    + byte_of_run(before, self.values, behind, 2 * k + 1)
            }
        };
        (self.address(k), value)
    }

    // The address of a word.
    #[inline(always)]
    fn address(&self, k: usize) -> u16
        requires { k < length self.now }
        ensures { result ≡ (slice_index_or self.now k (0, 0)).0 }
    {
        self.at + k as u16
    }

    // The address of the first word, after which the others stand.
    #[inline(always)]
    fn start(&self) -> u16
        ensures row { (k : ℕ) → k < length self.now
            → (slice_index_or self.now k (0, 0)).0 ≡ result + k }
        ensures within { result + length self.now ≤ 65536 }
    {
        self.at
    }

    // How many words there are.
    #[inline(always)]
    fn length(&self) -> usize
        ensures { result ≡ length self.now }
    {
        let count = self.values.count();
        match self.packing {
            Packing::Single => count,
            Packing::Double { before, behind } => {
                (usize::from(before.is_some()) + count + usize::from(behind.is_some())).div_ceil(2)
            }
        }
    }

    /// The same with its words ready to be read, where two bytes of a slice stand in each.
    #[inline(never)]
    pub(crate) fn packed(self) -> Result<PackedRun<'a>, CellRun<'a>>
        ensures packed { IfOk result (λ run. run ≡ self.entry) }
        ensures as_it_is { IfErr result (λ run. run ≡ self.entry) }
    {
        let count = self.length();
        if count == 0 {
            return Err(self);
        }
        let Elements::Bytes(bytes) = self.values else {
            return Err(self);
        };
        let Packing::Double { before, behind: _ } = self.packing else {
            return Err(self);
        };
        let (_, first) = self.word(0);
        let (_, last) = self.word(count - 1);
        Ok(PackedRun {
            count,
            first,
            middle: behind_first(before, bytes),
            last,
            run: self,
        })
    }
}

impl<'a> WordChanges for CellRun<'a> {
    ghost changes = { λ words. words };

    #[inline(always)]
    fn count(&self) -> usize {
        self.length()
    }

    #[inline(always)]
    fn change(&self, k: usize) -> (u16, u16) {
        self.word(k)
    }

    // Words of which each stands in one of its own.
    #[inline(always)]
    fn as_run(&self) -> Option<WordRun<'_>> {
        let Packing::Single = self.packing else {
            return None;
        };
        let Elements::Words(words) = self.values else {
            return None;
        };
        if words.is_empty() || LONGEST_WORD_RUN < words.len() {
            return None;
        }
        Some(WordRun::new(self.at, words))
    }
}

/// A run of bytes of which two stand in each word. What the first word and the last one say is known, and the bytes of
/// those between stand in a slice, so that one test finds them.
#[derive(Drop)]
pub(crate) struct PackedRun<'a> {
    run: CellRun<'a>,
    count: usize,
    first: u16,
    middle: &'a [u8],
    last: u16,
}

impl<'a> Model for PackedRun<'a> {
    ghost use Rattle.std.specs.Prelude.{List, ℕ, ◌≡◌, length};
    ghost use Rattle.jc_heap.specs.Elements.{AreSaidBy};

    ghost Value = { List (ℕ × ℕ) };

    ghost view = { λ r. r.run };

    ghost invariant = { λ r. (r.count ≡ length r.run)
        × AreSaidBy r.first r.middle.now r.last r.run };
}

impl<'a> PackedRun<'a> {
    // How many words there are.
    #[inline(always)]
    fn length(&self) -> usize
        ensures { result ≡ length self.now }
    {
        self.count
    }

    // What a word says.
    #[inline(always)]
    fn value(&self, k: usize) -> u16
        requires { k < length self.now }
        ensures { result ≡ (slice_index_or self.now k (0, 0)).1 }
    {
        if k == 0 {
            return self.first;
        }
        if k + 1 == self.count {
            return self.last;
        }
        let middle = self.middle;
        let j = 2 * (k - 1);
        256 * u16::from(middle[j]) + u16::from(middle[j + 1])
    }

    /// Puts the words into a room that has as many, and answers the address of the first one.
    #[inline(always)]
    pub(crate) fn fill(&self, room: &mut [u16]) -> u16
        requires { length room.old ≡ length self.now }
        ensures same { run_words result room.new ≡ self.now }
        ensures within { result + length room.new ≤ 65536 }
    {
        let first = self.run.start();
        for k in 0..room.len() {
            room[k] = self.value(k);
        }
        first
    }
}

impl<'a> WordChanges for PackedRun<'a> {
    ghost changes = { λ words. words };

    #[inline(always)]
    fn count(&self) -> usize {
        self.length()
    }

    #[inline(always)]
    fn change(&self, k: usize) -> (u16, u16) {
        (self.run.address(k), self.value(k))
    }
}

// The word of a place that has one of its own.
#[inline(always)]
#[tactic(auto, unfolding(crate::specs::Heap::cell_address))]
pub(crate) fn word_of(place: Place) -> u16
    requires { place_word place < 65536 }
    ensures { result ≡ place_word place }
{
    match place {
        Place::Cell(object, i) => object.address() + (HEADER + i),
        Place::Static(package, j) => package.address() + j,
        Place::Registry(i) => REGISTRY + i,
        Place::AppletCount => APPLETS,
    }
}

/// The words of places that are to be set, and that have words of their own.
#[derive(Drop)]
pub(crate) struct PlaceWords<'a> {
    places: &'a [(Place, u16)],
}

impl<'a> Model for PlaceWords<'a> {
    ghost use Rattle.std.specs.Prelude.{List, ℕ};
    ghost use Rattle.jc_heap.specs.Place.{words_of};
    ghost use Rattle.jc_heap.specs.Changes.{AreWords};

    ghost Value = { List (ℕ × ℕ) };

    ghost view = { λ w. words_of w.places.now };

    ghost invariant = { λ w. AreWords (words_of w.places.now) };
}

impl<'a> PlaceWords<'a> {
    pub(crate) fn new(places: &'a [(Place, u16)]) -> Self
        requires { AreWords (words_of places.now) }
        ensures { result ≡ words_of places.now }
    {
        PlaceWords { places }
    }

    // How many there are.
    pub(crate) fn length(&self) -> usize
        ensures exact { result ≡ length self.now }
        ensures most { result < 2 ^ 63 }
    {
        let places = self.places;
        places.len()
    }
}

impl<'a> WordChanges for PlaceWords<'a> {
    ghost changes = { λ words. words };

    fn count(&self) -> usize {
        self.length()
    }

    fn change(&self, k: usize) -> (u16, u16) {
        let places = self.places;
        let (place, value) = places[k];
        (word_of(place), value)
    }
}

/// The words of a change, and those of another one after them.
#[derive(Drop)]
pub(crate) struct Both<A: WordChanges, B: WordChanges> {
    pub(crate) first: A,
    pub(crate) second: B,
    ghost few: { length (A.changes first) + length (B.changes second) < 2 ^ 64 },
}

impl<A: WordChanges, B: WordChanges> WordChanges for Both<A, B> {
    ghost changes = { λ both. A.changes both.first ++ B.changes both.second };

    fn count(&self) -> usize {
        self.first.count() + self.second.count()
    }

    fn change(&self, k: usize) -> (u16, u16) {
        let first = self.first.count();
        if k < first {
            return self.first.change(k);
        }
        self.second.change(k - first)
    }
}
