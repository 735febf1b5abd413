//! What an object is.
ghost use Rattle.std.specs.Prelude.{◌≡◌, false};
ghost use Rattle.jc_heap.specs.Object.{kind_number, header_number, kind_of, event_of, is_header, is_packed_header, has_bytes, is_packed, words_of_cells};

use jc_transient::{ClassWord, ClearEvent, OwnerWord};

/// What an object holds.
#[derive(Clone, Copy, Default, PartialEq, Eq)]
pub enum Kind {
    #[default]
    Instance,
    BooleanArray,
    ByteArray,
    ShortArray,
    ReferenceArray,
}

impl Kind {
    // The kind as a number of the image.
    pub(crate) fn number(self) -> u16
        ensures { result ≡ kind_number self }
    {
        match self {
            Kind::Instance => 1,
            Kind::BooleanArray => 2,
            Kind::ByteArray => 3,
            Kind::ShortArray => 4,
            Kind::ReferenceArray => 5,
        }
    }

    // The first word of the header of a persistent object of this kind: of a new one two bytes stand in a word.
    pub(crate) fn header_number(self) -> u16
        ensures { result ≡ header_number self (has_bytes self) }
    {
        if self.has_bytes() {
            return self.number() + 4;
        }
        self.number()
    }

    /// Whether the elements are bytes: those of byte and boolean arrays.
    #[inline(always)]
    pub(crate) fn has_bytes(self) -> bool
        ensures { result ≡ has_bytes self }
    {
        matches!(self, Kind::BooleanArray | Kind::ByteArray)
    }

    // The kind of a number of the image.
    #[inline(always)]
    pub(crate) fn of(number: u16) -> Kind
        ensures { result ≡ kind_of number }
    {
        match number {
            2 | 6 => Kind::BooleanArray,
            3 | 7 => Kind::ByteArray,
            4 => Kind::ShortArray,
            5 => Kind::ReferenceArray,
            _ => Kind::Instance,
        }
    }
}

// The word has a kind and an event, as the first one of a header.
pub(crate) fn begins_header(word: u16) -> bool
    ensures { result ≡ is_header word }
{
    let kind = word % 256;
    is_packed_header(word) || (kind > 0 && kind < 6 && word / 256 < 3)
}

// The word is the first one of the header of an array of which two elements stand in a word.
#[inline(always)]
pub(crate) fn is_packed_header(word: u16) -> bool
    ensures { result ≡ is_packed_header word }
{
    word == 6 || word == 7
}

// How many words hold n cells, where two stand in a word or not.
pub(crate) fn words_of_cells(packed: bool, length: u16) -> u32
    ensures { result ≡ words_of_cells packed length }
{
    if packed {
        return (u32::from(length) + 1) / 2;
    }
    u32::from(length)
}

// The event of a number of the image.
#[inline(always)]
pub(crate) fn event_of_number(number: u16) -> Option<ClearEvent>
    ensures { result ≡ event_of number }
{
    match number {
        0 => None,
        1 => Some(ClearEvent::Reset),
        _ => Some(ClearEvent::Deselect),
    }
}

/// What an object's header says.
#[derive(Clone, Copy, Default)]
pub struct Facts {
    pub kind: Kind,
    /// What clears the object's cells; none, where it is persistent.
    pub event: Option<ClearEvent>,
    // The words of the class and of the owner: code sees them as `class()` and `owner()`, contracts as these words.
    pub(crate) class: u16,
    pub(crate) owner: u16,
    /// The number of cells.
    pub length: u16,
    /// The first cell of a transient object in its area, 0 of a persistent one.
    pub place: u16,
    /// Whether two elements stand in a word: those of persistent arrays of bytes and of booleans, but for the ones of
    /// older images.
    pub packed: bool,
}

impl Facts {
    /// What a header says of an object with this kind, event, class and owner, n cells, its first cell there, and
    /// a word for each cell.
    pub const fn new(
        kind: Kind,
        event: Option<ClearEvent>,
        class: ClassWord,
        owner: OwnerWord,
        length: u16,
        place: u16,
    ) -> Facts
        ensures { result ≡ record {
          kind = kind;
          event = event;
          class = class;
          owner = owner;
          length = length;
          place = place;
          packed = false;
        } }
    {
        Facts {
            kind,
            event,
            class: class.0,
            owner: owner.0,
            length,
            place,
            packed: false,
        }
    }

    /// The class of an instance, or that of an array's elements, where they are references.
    pub const fn class(self) -> ClassWord
        ensures { result ≡ self.class }
    {
        ClassWord(self.class)
    }

    /// The owner.
    pub const fn owner(self) -> OwnerWord
        ensures { result ≡ self.owner }
    {
        OwnerWord(self.owner)
    }

    // Whether two elements stand in a word.
    #[inline(always)]
    pub(crate) fn is_packed(self) -> bool
        ensures { result ≡ is_packed self }
    {
        self.kind.has_bytes() && self.packed
    }
}
