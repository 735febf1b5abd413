//! What holds of the definitions.

ghost use Rattle.jc_rsa.specs.Laws.{PublishedExamples, DecodedIsEncoded, ModuliAreWhole};

/// What is encoded is an encoding of its message, and of no other: so decoding gives back the message.
pub fn decoded_is_encoded()
    ensures { DecodedIsEncoded }
{}

/// The definitions of EME-OAEP and EMSA-PSS make the encodings that RSA Laboratories published with PKCS #1 v2.1.
pub fn published_examples_hold()
    ensures { PublishedExamples }
{}

/// The product of the primes of a seed begins with a bit 1: it has 16 times as many bits as a prime has bytes.
pub fn moduli_are_whole()
    ensures { ModuliAreWhole }
{}
