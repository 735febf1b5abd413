//! What holds of the definitions.

ghost use Rattle.jc_ciphers.specs.Laws.{ConversionsAreOfTheWhole, CbcIsUndone, EcbIsUndone};
ghost use Rattle.jc_ciphers.specs.Kept.Hmac.{HmacIsOfTheWhole};
ghost use Rattle.jc_ciphers.specs.Kept.Macs.{MacsInPieces};

/// Where a cipher is undone by its inverse, so is ECB.
pub fn ecb_is_undone()
    ensures { EcbIsUndone }
{}

/// Where a cipher is undone by its inverse, so is CBC.
pub fn cbc_is_undone()
    ensures { CbcIsUndone }
{}

/// What is written of the pieces of a message is what the mode makes of the whole message.
pub fn conversions_are_of_the_whole()
    ensures { ConversionsAreOfTheWhole }
{}

/// Where a hash function takes in a message in pieces, the code by HMAC of a message in any pieces is that of the whole.
pub fn hmac_is_of_the_whole()
    ensures { HmacIsOfTheWhole }
{}

/// The code by a block cipher of a message in any pieces is that of the whole.
pub fn macs_are_of_the_whole()
    ensures { MacsInPieces }
{}
