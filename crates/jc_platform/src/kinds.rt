//! What rows say of classes and methods.

ghost use Rattle.std.specs.Prelude.{◌≡◌};
ghost use Rattle.jc_platform.specs.RowValues.{kinds_in};

use crate::names::PlatformClass;

/// What a class is.
#[derive(Clone, Copy)]
pub enum ClassForm {
    Interface,
    /// It has static methods alone.
    Static,
    /// It has instances, or the classes below it do.
    Object,
    /// Its instances can be thrown.
    Exception,
}

/// What a cell of an instance holds.
#[derive(Clone, Copy)]
pub enum CellKind {
    Number,
    Reference,
}

/// What the cells of an instance hold.
#[derive(Clone, Copy)]
pub enum InstanceCells {
    Empty,
    /// The reason of an exception.
    Reason,
    /// The length of an AID, and its bytes, two in a cell.
    Aid,
    /// The limit of an `OwnerPIN`, its maximum size, tries, length and value.
    Pin,
    /// The algorithm of an engine and its state, or the type of a key and its data.
    Engine,
    /// The algorithm of a `KeyPair` and its two keys, or of a `KeyAgreement` with its state and its key.
    Pair,
    /// The algorithm of a cipher or a signature, its state, key, mode and vector, two bytes in a cell.
    Cipher,
}

impl InstanceCells {
    /// What each holds.
    #[inline(always)]
    pub(crate) fn kinds(self) -> &'static [CellKind]
        ensures { result.now ≡ kinds_in self }
    {
        use CellKind::{Number, Reference};
        match self {
            InstanceCells::Empty => &[],
            InstanceCells::Reason => &[Number],
            InstanceCells::Aid => &[Number; 9],
            InstanceCells::Pin => &[Number, Number, Number, Number, Reference],
            InstanceCells::Engine => &[Number, Reference],
            InstanceCells::Pair => &[Number, Reference, Reference],
            InstanceCells::Cipher => &[
                Number, Reference, Reference, Number, Number, Number, Number, Number, Number,
                Number, Number, Number,
            ],
        }
    }
}

/// What a parameter takes. Each has one cell.
#[derive(Clone, Copy)]
pub enum ParameterKind {
    Byte,
    Short,
    Boolean,
    /// An array of bytes.
    Bytes,
    /// An array of shorts.
    Shorts,
    /// Any object.
    Anything,
    /// An instance of the class, or of one below it.
    Instance(PlatformClass),
}

/// What a method returns.
#[derive(Clone, Copy)]
pub enum Answer {
    Void,
    Boolean,
    Byte,
    Short,
    Reference,
}

/// What a method does with the object that it is called on.
#[derive(Clone, Copy)]
pub enum Receiver {
    /// It is called on none.
    Absent,
    /// Its cells stay.
    Kept,
    /// It becomes an applet.
    Registered,
    /// Its cells may change.
    Changed,
}
