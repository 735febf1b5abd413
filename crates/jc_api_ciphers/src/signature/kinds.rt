//! All signatures, by their numbers.
ghost use Rattle.std.specs.Prelude.{◌≡◌, ◌≤◌};
ghost use Rattle.jc_api_ciphers.specs.Signature.Kinds.{kind_cipher_number, kind_digest_number, kind_named, kind_of_numbers, kind_padding_number, kind_shorts};

use crate::initialized::MOST_SHORTS;
use crate::signature::algorithms::{
    SignatureAlgorithm, hash_number, signature_named, signature_of_numbers,
};
use crate::signature::code::signature_shorts;
use crate::signature::pair_algorithms::{
    PairSignature, ecdsa_of_numbers, pair_named, rsa_of_numbers,
};

/// A signature: a code under a secret key, or a signature under a key of a pair.
#[derive(Clone, Copy)]
pub enum SignatureKind {
    Code(SignatureAlgorithm),
    Pair(PairSignature),
}

/// The signature of a number.
#[tactic(auto, unfolding(crate::specs::Signature::Kinds::kind_named))]
pub(crate) fn kind_named(number: i16) -> Option<SignatureKind>
    ensures { result ≡ kind_named number }
{
    if let Some(algorithm) = signature_named(number) {
        return Some(SignatureKind::Code(algorithm));
    }
    match pair_named(number) {
        Some(algorithm) => Some(SignatureKind::Pair(algorithm)),
        None => None,
    }
}

/// The one number of a signature by those of a hash function, a cipher and a padding.
#[tactic(auto, unfolding(crate::specs::Signature::Kinds::kind_of_numbers))]
pub(crate) fn kind_of_numbers(digest: i16, cipher: i16, padding: i16) -> Option<i16>
    ensures { result ≡ kind_of_numbers digest cipher padding }
{
    if cipher == 3 {
        rsa_of_numbers(digest, padding)
    } else if cipher == 5 {
        ecdsa_of_numbers(digest, padding)
    } else {
        signature_of_numbers(digest, cipher, padding)
    }
}

impl SignatureKind {
    /// The number of its hash function.
    pub(crate) fn digest_number(self) -> i16
        ensures { result ≡ kind_digest_number self }
    {
        match self {
            SignatureKind::Code(algorithm) => algorithm.digest_number(),
            SignatureKind::Pair(algorithm) => hash_number(algorithm.hash()),
        }
    }

    /// The number of its cipher.
    pub(crate) fn cipher_number(self) -> i16
        ensures { result ≡ kind_cipher_number self }
    {
        match self {
            SignatureKind::Code(algorithm) => algorithm.cipher_number(),
            SignatureKind::Pair(algorithm) => algorithm.cipher_number(),
        }
    }

    /// The number of its padding.
    pub(crate) fn padding_number(self) -> i16
        ensures { result ≡ kind_padding_number self }
    {
        match self {
            SignatureKind::Code(algorithm) => algorithm.padding_number(),
            SignatureKind::Pair(algorithm) => algorithm.padding_number(),
        }
    }

    /// How many shorts a state has.
    pub(crate) fn shorts(self) -> u16
        ensures shorts { result ≡ kind_shorts self }
        ensures few { result ≤ MOST_SHORTS }
    {
        match self {
            SignatureKind::Code(algorithm) => signature_shorts(algorithm),
            SignatureKind::Pair(algorithm) => algorithm.shorts(),
        }
    }
}
