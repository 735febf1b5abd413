//! What holds of the definitions.

ghost use Rattle.jc_ciphers.specs.AesLaws.{DecipheringUndoesEnciphering};

/// Deciphering undoes enciphering, of each block and under each key.
pub fn deciphering_undoes_enciphering()
    ensures { DecipheringUndoesEnciphering }
{}
