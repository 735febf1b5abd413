//! AIDs as AID objects hold them.
ghost use Rattle.std.specs.Prelude.{◌≡◌, ◌<◌, ◌≤◌, ◌/◌, ◌%◌, ◌==◌, false, length, if◌then◌else◌};
ghost use Rattle.jc_heap.specs.Heap.{IsObject, facts};
ghost use Rattle.jc_memory.specs.Cells.{word_at};
ghost use Rattle.jc_environment.specs.Aid.{aid_at, aid_byte, aid_of_cells};
ghost use Rattle.jc_environment.specs.Registry.{is_aid};

use arrayvec::ArrayVec;
use jc_memory::Memory;
use jc_transient::Ref;
use jc_words::WordStore;
use std::marker::Model;

/// How many bytes an AID has at most.
pub const MOST_AID: usize = 16;

/// How many cells an AID object has: the length of its AID, and its bytes, two a cell.
pub const AID_CELLS: u16 = 9;

/// An application identifier (ISO/IEC 7816-5), of at most 16 bytes.
#[derive(Drop)]
pub struct Aid {
    bytes: ArrayVec<u8, MOST_AID>,
}

impl Model for Aid {
    ghost use Rattle.std.specs.Prelude.{List, ℕ};

    ghost Value = { List ℕ };

    ghost view = { λ a. a.bytes.items };
}

impl Aid {
    /// Its bytes.
    pub fn bytes(&self) -> &[u8]
        ensures bytes { result.now ≡ self.now }
        ensures few { length self.now ≤ MOST_AID }
    {
        self.bytes.as_slice()
    }
}

/// The AID that an AID object holds. `None` where no object with an AID's cells stands there, or where
/// its cells hold no AID.
pub fn aid_at<S: WordStore>(memory: &Memory<S>, object: Ref) -> Option<Aid>
    requires up { memory.now.heap.down ≡ false }
    ensures { result ≡ aid_at memory.now object }
{
    let facts = memory.header(object)?;
    if facts.length != AID_CELLS {
        return None;
    }
    let mut cells = [0; AID_CELLS as usize];
    memory.words(object, 0, &mut cells);
    aid_of_cells(&cells)
}

// The AID that such cells hold.
#[tactic(auto, unfolding(crate::specs::Aid::aid_of_cells))]
fn aid_of_cells(cells: &[u16]) -> Option<Aid>
    requires { length cells.now ≡ 9 }
    ensures { result ≡ aid_of_cells cells.now }
{
    let long = cells[0];
    if long > MOST_AID as u16 {
        return None;
    }
    let mut bytes = ArrayVec::new();
    for i in 0..long {
        bytes.push(aid_byte(cells, i));
    }
    Some(Aid { bytes })
}

// A byte of the AID that such cells hold.
fn aid_byte(cells: &[u16], i: u16) -> u8
    requires long { length cells.now ≡ 9 }
    requires few { i < 16 }
    ensures { result ≡ aid_byte cells.now i }
{
    byte_in(cells[1 + i as usize / 2], i)
}

// The byte of an AID at an index, in the cell that holds it.
fn byte_in(word: u16, i: u16) -> u8
    ensures { result ≡ (if i % 2 == 0 then word / 256 else word % 256) }
{
    if i % 2 == 0 {
        (word / 256) as u8
    } else {
        (word % 256) as u8
    }
}

// A cell of an AID object.
fn cell<S: WordStore>(memory: &Memory<S>, object: Ref, i: u16) -> u16
    requires up { memory.now.heap.down ≡ false }
    requires there { IsObject memory.now.heap.now object }
    requires cell { i < (facts memory.now.heap.now object).length }
    ensures { result ≡ word_at memory.now object i }
{
    let mut cells = [0];
    memory.words(object, i, &mut cells);
    cells[0]
}

/// Whether an object may hold this AID: of an object that holds one, its length and its last byte are looked
/// at alone.
pub(crate) fn may_hold<S: WordStore>(memory: &Memory<S>, object: Ref, aid: &[u8]) -> bool
    requires up { memory.now.heap.down ≡ false }
    ensures { result ≡ false → is_aid aid.now (aid_at memory.now object) ≡ false }
{
    let Some(facts) = memory.header(object) else {
        return false;
    };
    if facts.length != AID_CELLS {
        return false;
    }
    let count = aid.len();
    if usize::from(cell(memory, object, 0)) != count {
        return false;
    }
    if count > MOST_AID {
        return false;
    }
    if count == 0 {
        return true;
    }
    let last = count as u16 - 1;
    let word = cell(memory, object, 1 + last / 2);
    byte_in(word, last) == aid[count - 1]
}
