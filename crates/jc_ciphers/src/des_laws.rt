//! What holds of the definitions.

ghost use Rattle.jc_ciphers.specs.DesLaws.{DecipheringUndoesEnciphering, EncipheringUndoesDeciphering, TripleDecipheringUndoesEnciphering};

/// Deciphering undoes enciphering, of each block and under each key.
pub fn deciphering_undoes_enciphering()
    ensures { DecipheringUndoesEnciphering }
{}

/// Enciphering undoes deciphering, of each block and under each key.
pub fn enciphering_undoes_deciphering()
    ensures { EncipheringUndoesDeciphering }
{}

/// The same as the first of triple DES.
pub fn triple_deciphering_undoes_enciphering()
    ensures { TripleDecipheringUndoesEnciphering }
{}
