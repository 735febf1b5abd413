//! What holds of every table.

ghost use Rattle.std.specs.Prelude.{List, ℕ, ◌≡◌};
ghost use Rattle.jc_platform.specs.NamePlaces.{AreDistinct, class_word};
ghost use Rattle.jc_platform.specs.Platform.{TellNames};
ghost use Rattle.jc_platform.specs.Table.{Reads};
ghost use Rattle.jc_platform.specs.Tokens.{Tokens};

use crate::fault::TableFault;
use crate::names::PlatformClass;

/// Law: in a table that was read, a token identifies a class among those of its package, and a method among those
/// of its class and kind. It does nothing.
pub fn tokens_are_distinct()
    ensures { (text : List ℕ) (t : Tokens) → Reads text (Ok t) → AreDistinct t }
{}

/// Law: a text has one answer. It is read as a table or refused, never both; two tables that it is read as are
/// one; two faults are one. It does nothing.
pub fn a_text_has_one_answer()
    ensures table_or_fault { (text : List ℕ) (t : Tokens) (f : TableFault) → Reads text (Ok t)
        → Reads text (Err f) → ⊥ }
    ensures one_table { (text : List ℕ) (t u : Tokens) → Reads text (Ok t) → Reads text (Ok u)
        → t ≡ u }
    ensures one_fault { (text : List ℕ) (f g : TableFault) → Reads text (Err f) → Reads text (Err g)
        → f ≡ g }
{}

/// Law: in a table that was read, a package's number, a class's token in its package, and a method's token among those
/// of its class and kind stand for it. It does nothing.
pub fn tokens_tell_names()
    ensures { (text : List ℕ) (t : Tokens) → Reads text (Ok t) → TellNames t }
{}
