//! Values of cells.
ghost use Rattle.std.specs.Prelude.{◌≡◌};
ghost use Rattle.jc_transient.specs.Cell.{default_value, is_reference, without_dead, number_of, low_byte};

use crate::Ref;

/// What a cell holds. Its kind does not change while it belongs to an object.
#[derive(Clone, Copy)]
pub enum CellValue {
    /// A number. Elements of byte and boolean arrays are 0 to 255.
    Short(i16),
    /// The name of an object, or null.
    Reference(Ref),
}

/// When the cells of a transient object are cleared.
#[derive(Clone, Copy, PartialEq, Eq)]
pub enum ClearEvent {
    /// At a reset.
    Reset,
    /// When the applet is deselected, too.
    Deselect,
}

impl CellValue {
    /// The value of the cell once it is cleared: zero, or null.
    pub const fn default_value(self) -> CellValue
        ensures { result ≡ default_value self }
    {
        match self {
            CellValue::Short(_) => CellValue::Short(0),
            CellValue::Reference(_) => CellValue::Reference(Ref::null()),
        }
    }

    /// The value, or null where it refers to an object at or above the top.
    pub const fn without_dead(self, top: u16) -> CellValue
        ensures { result ≡ without_dead top self }
    {
        match self {
            CellValue::Short(v) => CellValue::Short(v),
            CellValue::Reference(r) => {
                if r.address() < top {
                    CellValue::Reference(r)
                } else {
                    CellValue::Reference(Ref::null())
                }
            }
        }
    }

    /// Whether it is the name of an object, or null.
    #[inline(always)]
    pub(crate) const fn is_reference(&self) -> bool
        ensures { result ≡ is_reference self.now }
    {
        match *self {
            CellValue::Short(_) => false,
            CellValue::Reference(_) => true,
        }
    }

    /// An element of a byte array.
    pub const fn of_byte(byte: u8) -> CellValue
        ensures { result ≡ number_of byte }
    {
        CellValue::Short(byte as i16)
    }

    /// The number whose 16 bits the word is.
    pub const fn of_word(word: u16) -> CellValue
        ensures { result ≡ number_of word }
    {
        CellValue::Short(word.cast_signed())
    }

    /// The low byte of a number; 0 for a reference.
    pub const fn low_byte(self) -> u8
        ensures { result ≡ low_byte self }
    {
        match self {
            CellValue::Short(v) => (v.cast_unsigned() % 256) as u8,
            CellValue::Reference(_) => 0,
        }
    }
}
