//! Signatures under a key of a pair, and their numbers.
ghost use Rattle.std.specs.Prelude.{◌≡◌, ◌≤◌, Some};
ghost use Rattle.jc_api_ciphers.specs.Signature.PairAlgorithms.{ecdsa_named, ecdsa_of_number, ecdsa_of_numbers, encoding_number, hash_of, iso_of_number, kept_shorts, pair_cipher_number, pair_named, pair_padding_number, pair_shorts, pkcs1_named, pkcs1_of_number, pss_named, pss_of_number, pss_or_ecdsa_named, rsa_of_numbers};

use crate::cipher::kinds::RSA_SHORTS;
use crate::initialized::MOST_SHORTS;
use jc_api_keys::digest_states::digest_shorts;
use jc_digests::kept::HashAlgorithm;
use jc_public_keys::rsa_signatures::SignaturePadding;

/// How a signature under a private key comes of a message's digest.
#[derive(Clone, Copy)]
pub enum PairSignature {
    /// RSA of the encoding of a digest by a hash function.
    Rsa(SignaturePadding, HashAlgorithm),
    /// ECDSA of a digest by a hash function.
    Ecdsa(HashAlgorithm),
    /// RSA of the first bytes of a message and its digest by SHA-1 (ISO/IEC 9796-2, scheme 1).
    Iso9796,
}

// RSA with EMSA-PKCS1-v1_5, of a number.
fn pkcs1_named(number: i16) -> Option<PairSignature>
    ensures { result ≡ pkcs1_named number }
{
    let hash = if number == 10 {
        HashAlgorithm::Sha1
    } else if number == 11 {
        HashAlgorithm::Md5
    } else if number == 39 {
        HashAlgorithm::Sha224
    } else if number == 40 {
        HashAlgorithm::Sha256
    } else if number == 41 {
        HashAlgorithm::Sha384
    } else if number == 42 {
        HashAlgorithm::Sha512
    } else {
        return None;
    };
    Some(PairSignature::Rsa(SignaturePadding::Pkcs1, hash))
}

// RSA with EMSA-PSS, of a number.
fn pss_named(number: i16) -> Option<PairSignature>
    ensures { result ≡ pss_named number }
{
    let hash = if number == 21 {
        HashAlgorithm::Sha1
    } else if number == 22 {
        HashAlgorithm::Md5
    } else if number == 43 {
        HashAlgorithm::Sha224
    } else if number == 44 {
        HashAlgorithm::Sha256
    } else if number == 45 {
        HashAlgorithm::Sha384
    } else if number == 46 {
        HashAlgorithm::Sha512
    } else {
        return None;
    };
    Some(PairSignature::Rsa(SignaturePadding::Pss, hash))
}

// ECDSA of a number.
fn ecdsa_named(number: i16) -> Option<PairSignature>
    ensures { result ≡ ecdsa_named number }
{
    if number == 17 {
        Some(PairSignature::Ecdsa(HashAlgorithm::Sha1))
    } else if number == 33 {
        Some(PairSignature::Ecdsa(HashAlgorithm::Sha256))
    } else if number == 34 {
        Some(PairSignature::Ecdsa(HashAlgorithm::Sha384))
    } else if number == 37 {
        Some(PairSignature::Ecdsa(HashAlgorithm::Sha224))
    } else if number == 38 {
        Some(PairSignature::Ecdsa(HashAlgorithm::Sha512))
    } else {
        None
    }
}

// RSA with EMSA-PSS or ECDSA, of a number.
#[tactic(auto, unfolding(crate::specs::Signature::PairAlgorithms::pss_or_ecdsa_named))]
fn pss_or_ecdsa_named(number: i16) -> Option<PairSignature>
    ensures { result ≡ pss_or_ecdsa_named number }
{
    if let Some(algorithm) = pss_named(number) {
        return Some(algorithm);
    }
    ecdsa_named(number)
}

/// The signature of a number.
#[tactic(auto, unfolding(crate::specs::Signature::PairAlgorithms::pair_named))]
pub(crate) fn pair_named(number: i16) -> Option<PairSignature>
    ensures { result ≡ pair_named number }
{
    if number == 9 {
        return Some(PairSignature::Iso9796);
    }
    if let Some(algorithm) = pkcs1_named(number) {
        return Some(algorithm);
    }
    pss_or_ecdsa_named(number)
}

// The one number of RSA with EMSA-PKCS1-v1_5 and a hash function.
fn pkcs1_of_number(digest: i16) -> Option<i16>
    ensures { result ≡ pkcs1_of_number digest }
{
    if digest == 1 {
        Some(10)
    } else if digest == 2 {
        Some(11)
    } else if digest == 4 {
        Some(40)
    } else if digest == 5 {
        Some(41)
    } else if digest == 6 {
        Some(42)
    } else if digest == 7 {
        Some(39)
    } else {
        None
    }
}

// That of RSA with EMSA-PSS.
fn pss_of_number(digest: i16) -> Option<i16>
    ensures { result ≡ pss_of_number digest }
{
    if digest == 1 {
        Some(21)
    } else if digest == 2 {
        Some(22)
    } else if digest == 4 {
        Some(44)
    } else if digest == 5 {
        Some(45)
    } else if digest == 6 {
        Some(46)
    } else if digest == 7 {
        Some(43)
    } else {
        None
    }
}

// That of ECDSA.
fn ecdsa_of_number(digest: i16) -> Option<i16>
    ensures { result ≡ ecdsa_of_number digest }
{
    if digest == 1 {
        Some(17)
    } else if digest == 4 {
        Some(33)
    } else if digest == 5 {
        Some(34)
    } else if digest == 6 {
        Some(38)
    } else if digest == 7 {
        Some(37)
    } else {
        None
    }
}

// That of RSA by ISO/IEC 9796-2.
fn iso_of_number(digest: i16) -> Option<i16>
    ensures { result ≡ iso_of_number digest }
{
    if digest == 1 { Some(9) } else { None }
}

/// The one number of RSA by those of a hash function and a padding.
#[tactic(auto, unfolding(crate::specs::Signature::PairAlgorithms::rsa_of_numbers))]
pub(crate) fn rsa_of_numbers(digest: i16, padding: i16) -> Option<i16>
    ensures { result ≡ rsa_of_numbers digest padding }
{
    if padding == 7 {
        pkcs1_of_number(digest)
    } else if padding == 8 {
        pss_of_number(digest)
    } else if padding == 10 {
        iso_of_number(digest)
    } else {
        None
    }
}

/// The one number of ECDSA by those of a hash function and no padding.
#[tactic(auto, unfolding(crate::specs::Signature::PairAlgorithms::ecdsa_of_numbers))]
pub(crate) fn ecdsa_of_numbers(digest: i16, padding: i16) -> Option<i16>
    ensures { result ≡ ecdsa_of_numbers digest padding }
{
    if padding == 0 {
        ecdsa_of_number(digest)
    } else {
        None
    }
}

// The number of a padding.
fn encoding_number(padding: SignaturePadding) -> i16
    ensures { result ≡ encoding_number padding }
{
    match padding {
        SignaturePadding::Pkcs1 => 7,
        SignaturePadding::Pss => 8,
    }
}

impl PairSignature {
    /// Its hash function.
    pub(crate) fn hash(self) -> HashAlgorithm
        ensures { result ≡ hash_of self }
    {
        match self {
            PairSignature::Rsa(_, hash) => hash,
            PairSignature::Ecdsa(hash) => hash,
            PairSignature::Iso9796 => HashAlgorithm::Sha1,
        }
    }

    /// The number of its cipher.
    pub(crate) fn cipher_number(self) -> i16
        ensures { result ≡ pair_cipher_number self }
    {
        match self {
            PairSignature::Rsa(_, _) | PairSignature::Iso9796 => 3,
            PairSignature::Ecdsa(_) => 5,
        }
    }

    /// The number of its padding.
    pub(crate) fn padding_number(self) -> i16
        ensures { result ≡ pair_padding_number self }
    {
        match self {
            PairSignature::Rsa(padding, _) => encoding_number(padding),
            PairSignature::Ecdsa(_) => 0,
            PairSignature::Iso9796 => 10,
        }
    }

    /// How many shorts hold the first bytes of a message.
    pub(crate) fn kept_shorts(self) -> u16
        ensures { result ≡ kept_shorts self }
    {
        match self {
            PairSignature::Rsa(_, _) | PairSignature::Ecdsa(_) => 0,
            PairSignature::Iso9796 => RSA_SHORTS as u16,
        }
    }

    /// How many shorts a state has.
    pub(crate) fn shorts(self) -> u16
        ensures shorts { result ≡ pair_shorts self }
        ensures few { result ≤ MOST_SHORTS }
    {
        digest_shorts(self.hash()) + self.kept_shorts()
    }
}
