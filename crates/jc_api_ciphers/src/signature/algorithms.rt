//! The signatures, and their numbers.
ghost use Rattle.std.specs.Prelude.{◌≡◌, ◌≤◌, Some};
ghost use Rattle.jc_digests.specs.Kept.{digest_size};
ghost use Rattle.jc_api_ciphers.specs.Signature.Algorithms.{block_number, code_size, des_mac, des_mac_4, des_mac_8, des_mac_named, des_number, digest_number, further_named, hash_number, hmac_of_number, mac_number, mac_of_numbers, mac_padding_number, method_number, method_number_3, one_if, signature_cipher_number, signature_named, signature_of_numbers, signature_padding_number, signature_size};

use jc_ciphers::kept::BlockAlgorithm;
use jc_ciphers::kept::macs::MacAlgorithm;
use jc_ciphers::padding::Padding;
use jc_digests::kept::{HashAlgorithm, MOST_HASH};

/// How many bytes of a code are the signature.
#[derive(Clone, Copy)]
pub enum CodeLength {
    Four,
    /// All.
    Whole,
}

/// How a signature comes of a message.
#[derive(Clone, Copy)]
pub enum SignatureAlgorithm {
    /// The first bytes of a code by a block cipher.
    Mac(MacAlgorithm, CodeLength),
    /// HMAC with a hash function.
    Hmac(HashAlgorithm),
}

// A code by DES in algorithm 1 of ISO 9797-1.
fn des_mac(padding: Padding, length: CodeLength) -> Option<SignatureAlgorithm>
    ensures { result ≡ Some (des_mac padding length) }
{
    let algorithm = MacAlgorithm::Cbc(BlockAlgorithm::Des, padding);
    Some(SignatureAlgorithm::Mac(algorithm, length))
}

// The signature of a number from 1 to 8.
fn des_mac_named(number: i16) -> Option<SignatureAlgorithm>
    ensures { result ≡ des_mac_named number }
{
    if number == 1 {
        des_mac(Padding::NoPadding, CodeLength::Four)
    } else if number == 2 {
        des_mac(Padding::NoPadding, CodeLength::Whole)
    } else if number == 3 {
        des_mac(Padding::Method1, CodeLength::Four)
    } else if number == 4 {
        des_mac(Padding::Method1, CodeLength::Whole)
    } else if number == 5 {
        des_mac(Padding::Method2, CodeLength::Four)
    } else if number == 6 {
        des_mac(Padding::Method2, CodeLength::Whole)
    } else if number == 7 {
        des_mac(Padding::Pkcs5, CodeLength::Four)
    } else if number == 8 {
        des_mac(Padding::Pkcs5, CodeLength::Whole)
    } else {
        None
    }
}

// The signature of a number above.
fn further_named(number: i16) -> Option<SignatureAlgorithm>
    ensures { result ≡ further_named number }
{
    if number == 18 {
        let algorithm = MacAlgorithm::Cbc(BlockAlgorithm::Aes, Padding::NoPadding);
        Some(SignatureAlgorithm::Mac(algorithm, CodeLength::Whole))
    } else if number == 19 {
        let algorithm = MacAlgorithm::Algorithm3(Padding::Method2);
        Some(SignatureAlgorithm::Mac(algorithm, CodeLength::Four))
    } else if number == 20 {
        let algorithm = MacAlgorithm::Algorithm3(Padding::Method2);
        Some(SignatureAlgorithm::Mac(algorithm, CodeLength::Whole))
    } else if number == 24 {
        Some(SignatureAlgorithm::Hmac(HashAlgorithm::Sha1))
    } else if number == 25 {
        Some(SignatureAlgorithm::Hmac(HashAlgorithm::Sha256))
    } else if number == 26 {
        Some(SignatureAlgorithm::Hmac(HashAlgorithm::Sha384))
    } else if number == 27 {
        Some(SignatureAlgorithm::Hmac(HashAlgorithm::Sha512))
    } else if number == 28 {
        Some(SignatureAlgorithm::Hmac(HashAlgorithm::Md5))
    } else if number == 49 {
        Some(SignatureAlgorithm::Mac(MacAlgorithm::Cmac, CodeLength::Whole))
    } else {
        None
    }
}

/// The signature of a number.
#[tactic(auto, unfolding(crate::specs::Signature::Algorithms::signature_named))]
pub(crate) fn signature_named(number: i16) -> Option<SignatureAlgorithm>
    ensures { result ≡ signature_named number }
{
    if number <= 8 {
        des_mac_named(number)
    } else {
        further_named(number)
    }
}

// The one number of a code by DES of 4 bytes.
fn des_mac_4(padding: i16) -> Option<i16>
    ensures { result ≡ des_mac_4 padding }
{
    if padding == 1 {
        Some(1)
    } else if padding == 2 {
        Some(3)
    } else if padding == 3 {
        Some(5)
    } else if padding == 5 {
        Some(19)
    } else if padding == 6 {
        Some(7)
    } else {
        None
    }
}

// That of one of 8 bytes.
fn des_mac_8(padding: i16) -> Option<i16>
    ensures { result ≡ des_mac_8 padding }
{
    if padding == 1 {
        Some(2)
    } else if padding == 2 {
        Some(4)
    } else if padding == 3 {
        Some(6)
    } else if padding == 5 {
        Some(20)
    } else if padding == 6 {
        Some(8)
    } else {
        None
    }
}

// A number that goes with one padding alone.
fn one_if(padding: i16, wanted: i16, number: i16) -> Option<i16>
    ensures { result ≡ one_if padding wanted number }
{
    if padding == wanted {
        Some(number)
    } else {
        None
    }
}

// The one number of a code by a cipher, with a padding.
#[tactic(auto, unfolding(crate::specs::Signature::Algorithms::mac_of_numbers))]
fn mac_of_numbers(cipher: i16, padding: i16) -> Option<i16>
    ensures { result ≡ mac_of_numbers cipher padding }
{
    if cipher == 1 {
        des_mac_4(padding)
    } else if cipher == 2 {
        des_mac_8(padding)
    } else if cipher == 6 {
        one_if(padding, 1, 18)
    } else if cipher == 10 {
        one_if(padding, 3, 49)
    } else {
        None
    }
}

// The one number of HMAC with a hash function.
#[tactic(auto, unfolding(crate::specs::Signature::Algorithms::hmac_of_number))]
fn hmac_of_number(digest: i16) -> Option<i16>
    ensures { result ≡ hmac_of_number digest }
{
    if digest == 1 {
        Some(24)
    } else if digest == 2 {
        Some(28)
    } else if digest == 4 {
        Some(25)
    } else if digest == 5 {
        Some(26)
    } else if digest == 6 {
        Some(27)
    } else {
        None
    }
}

/// The one number of a signature by those of a hash function, a cipher and a padding.
pub(crate) fn signature_of_numbers(digest: i16, cipher: i16, padding: i16) -> Option<i16>
    ensures { result ≡ signature_of_numbers digest cipher padding }
{
    if cipher == 7 {
        if padding == 0 {
            hmac_of_number(digest)
        } else {
            None
        }
    } else if digest == 0 {
        mac_of_numbers(cipher, padding)
    } else {
        None
    }
}

// The number of a hash function.
pub(crate) fn hash_number(algorithm: HashAlgorithm) -> i16
    ensures { result ≡ hash_number algorithm }
{
    match algorithm {
        HashAlgorithm::Md5 => 2,
        HashAlgorithm::Sha1 => 1,
        HashAlgorithm::Sha224 => 7,
        HashAlgorithm::Sha256 => 4,
        HashAlgorithm::Sha384 => 5,
        HashAlgorithm::Sha512 => 6,
    }
}

// The number of DES.
fn des_number(length: CodeLength) -> i16
    ensures { result ≡ des_number length }
{
    match length {
        CodeLength::Four => 1,
        CodeLength::Whole => 2,
    }
}

// The number of a block algorithm.
fn block_number(algorithm: BlockAlgorithm, length: CodeLength) -> i16
    ensures { result ≡ block_number algorithm length }
{
    match algorithm {
        BlockAlgorithm::Aes => 6,
        BlockAlgorithm::Des => des_number(length),
    }
}

// The number of the cipher of a code.
fn mac_number(algorithm: MacAlgorithm, length: CodeLength) -> i16
    ensures { result ≡ mac_number algorithm length }
{
    match algorithm {
        MacAlgorithm::Cbc(cipher, _) => block_number(cipher, length),
        MacAlgorithm::Algorithm3(_) => des_number(length),
        MacAlgorithm::Cmac => 10,
    }
}

// The number of a padding.
fn method_number(padding: Padding) -> i16
    ensures { result ≡ method_number padding }
{
    match padding {
        Padding::NoPadding => 1,
        Padding::Method1 => 2,
        Padding::Method2 => 3,
        Padding::Pkcs5 => 6,
    }
}

// That with algorithm 3.
fn method_number_3(padding: Padding) -> i16
    ensures { result ≡ method_number_3 padding }
{
    match padding {
        Padding::NoPadding => 1,
        Padding::Method1 => 4,
        Padding::Method2 => 5,
        Padding::Pkcs5 => 6,
    }
}

// The number of the padding of a code.
fn mac_padding_number(algorithm: MacAlgorithm) -> i16
    ensures { result ≡ mac_padding_number algorithm }
{
    match algorithm {
        MacAlgorithm::Cbc(_, padding) => method_number(padding),
        MacAlgorithm::Algorithm3(padding) => method_number_3(padding),
        MacAlgorithm::Cmac => 3,
    }
}

// How many bytes of a code are the signature.
fn code_size(algorithm: MacAlgorithm, length: CodeLength) -> usize
    ensures size { result ≡ code_size algorithm length }
    ensures few { result ≤ MOST_HASH }
{
    match length {
        CodeLength::Four => 4,
        CodeLength::Whole => algorithm.cipher().block_size(),
    }
}

// How many bytes a digest has.
fn digest_size(algorithm: HashAlgorithm) -> usize
    ensures size { result ≡ digest_size algorithm }
    ensures few { result ≤ MOST_HASH }
{
    match algorithm {
        HashAlgorithm::Md5 => 16,
        HashAlgorithm::Sha1 => 20,
        HashAlgorithm::Sha224 => 28,
        HashAlgorithm::Sha256 => 32,
        HashAlgorithm::Sha384 => 48,
        HashAlgorithm::Sha512 => 64,
    }
}

impl SignatureAlgorithm {
    /// How many bytes a signature has.
    pub(crate) fn size(self) -> usize
        ensures size { result ≡ signature_size self }
        ensures few { result ≤ MOST_HASH }
    {
        match self {
            SignatureAlgorithm::Mac(algorithm, length) => code_size(algorithm, length),
            SignatureAlgorithm::Hmac(algorithm) => digest_size(algorithm),
        }
    }

    /// The number of its hash function.
    pub(crate) fn digest_number(self) -> i16
        ensures { result ≡ digest_number self }
    {
        match self {
            SignatureAlgorithm::Mac(_, _) => 0,
            SignatureAlgorithm::Hmac(algorithm) => hash_number(algorithm),
        }
    }

    /// The number of its cipher.
    pub(crate) fn cipher_number(self) -> i16
        ensures { result ≡ signature_cipher_number self }
    {
        match self {
            SignatureAlgorithm::Mac(algorithm, length) => mac_number(algorithm, length),
            SignatureAlgorithm::Hmac(_) => 7,
        }
    }

    /// The number of its padding.
    pub(crate) fn padding_number(self) -> i16
        ensures { result ≡ signature_padding_number self }
    {
        match self {
            SignatureAlgorithm::Mac(algorithm, _) => mac_padding_number(algorithm),
            SignatureAlgorithm::Hmac(_) => 0,
        }
    }
}
