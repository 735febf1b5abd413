//! What holds of messages that come in pieces.
ghost use Rattle.jc_digests.specs.declared.kept.HashAlgorithm.{HashAlgorithm};
ghost use Rattle.jc_api_crypto.specs.MessagesInPieces.{AreOfTheWhole, HmacsAreOfTheWhole};

/// Law: the digest of a message in any pieces is that of the whole. It does nothing.
pub fn digests_are_of_the_whole()
    ensures { (a : HashAlgorithm) → AreOfTheWhole a }
{}

/// Law: the code by HMAC of a message in any pieces is that of the whole, over the standard's hash function. It does nothing.
pub fn hmacs_are_of_the_whole()
    ensures { HmacsAreOfTheWhole }
{}
