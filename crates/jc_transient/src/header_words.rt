//! Classes and owners, as the words of an image name them.

use std::marker::Model;

/// A class or an interface, as a word of an object's header names it: the number of its package times 256 and its
/// own number. Packages that were loaded count from 1, those of the platform from 64. In a contract it is that word.
#[derive(Clone, Copy, Default, PartialEq, Eq)]
pub struct ClassWord(pub u16);

impl Model for ClassWord {
    ghost use Rattle.std.specs.Prelude.{ℕ};

    ghost Value = { ℕ };

    ghost view = { λ c. c.0 };

    ghost inverse = { λ n. record { 0 = n } };
}

/// No class: that of an array of booleans, bytes or shorts.
pub const NO_CLASS: ClassWord = ClassWord(0);

/// An owner, as a word of an object's header names it: 0 the runtime environment, 1 to 64 an applet, 256 and more a
/// package. In a contract it is that word.
#[derive(Clone, Copy, Default, PartialEq, Eq)]
pub struct OwnerWord(pub u16);

impl Model for OwnerWord {
    ghost use Rattle.std.specs.Prelude.{ℕ};

    ghost Value = { ℕ };

    ghost view = { λ o. o.0 };

    ghost inverse = { λ n. record { 0 = n } };
}

/// The owner word of the runtime environment.
pub const RUNTIME_ENVIRONMENT: OwnerWord = OwnerWord(0);
