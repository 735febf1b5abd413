//! All ciphers, by their numbers.
ghost use Rattle.std.specs.Prelude.{◌≡◌, ◌≤◌};
ghost use Rattle.jc_api_ciphers.specs.Cipher.Kinds.{kind_cipher_number, kind_named, kind_number, kind_of_numbers, kind_padding_number, kind_shorts, rsa_named, rsa_number, rsa_padding_named, rsa_padding_number, rsa_shorts};

use crate::cipher::algorithms::{CipherAlgorithm, cipher_named, cipher_of_numbers};
use crate::cipher::block::cipher_shorts;

/// How many bytes the state of RSA has: how many bytes came, and room for those of the longest modulus.
pub(crate) const RSA_STATE: usize = 514;

/// How many shorts that are.
pub(crate) const RSA_SHORTS: usize = RSA_STATE / 2;

/// How RSA pads a message.
#[derive(Clone, Copy)]
pub enum RsaPadding {
    /// Not at all: it has as many bytes as the modulus.
    NoPadding,
    /// By PKCS #1, version 1.5.
    Pkcs1,
    /// By OAEP, over SHA-1 and with an empty label.
    Oaep,
}

/// A cipher: of blocks, or RSA.
#[derive(Clone, Copy)]
pub enum CipherKind {
    Block(CipherAlgorithm),
    Rsa(RsaPadding),
}

// The padding of RSA of a number.
fn rsa_named(number: i16) -> Option<RsaPadding>
    ensures { result ≡ rsa_named number }
{
    if number == 10 {
        Some(RsaPadding::Pkcs1)
    } else if number == 12 {
        Some(RsaPadding::NoPadding)
    } else if number == 15 {
        Some(RsaPadding::Oaep)
    } else {
        None
    }
}

// The one number of RSA with a padding.
fn rsa_number(padding: RsaPadding) -> i16
    ensures { result ≡ rsa_number padding }
{
    match padding {
        RsaPadding::NoPadding => 12,
        RsaPadding::Pkcs1 => 10,
        RsaPadding::Oaep => 15,
    }
}

// The padding of RSA by the number of a padding.
fn rsa_padding_named(number: i16) -> Option<RsaPadding>
    ensures { result ≡ rsa_padding_named number }
{
    if number == 1 {
        Some(RsaPadding::NoPadding)
    } else if number == 7 {
        Some(RsaPadding::Pkcs1)
    } else if number == 9 {
        Some(RsaPadding::Oaep)
    } else {
        None
    }
}

// The number of a padding of RSA.
fn rsa_padding_number(padding: RsaPadding) -> i16
    ensures { result ≡ rsa_padding_number padding }
{
    match padding {
        RsaPadding::NoPadding => 1,
        RsaPadding::Pkcs1 => 7,
        RsaPadding::Oaep => 9,
    }
}

/// The cipher of a number.
#[tactic(auto, unfolding(crate::specs::Cipher::Kinds::kind_named))]
pub(crate) fn kind_named(number: i16) -> Option<CipherKind>
    ensures { result ≡ kind_named number }
{
    if let Some(algorithm) = cipher_named(number) {
        return Some(CipherKind::Block(algorithm));
    }
    match rsa_named(number) {
        Some(padding) => Some(CipherKind::Rsa(padding)),
        None => None,
    }
}

/// The cipher of two numbers, of a cipher and a padding.
#[tactic(auto, unfolding(crate::specs::Cipher::Kinds::kind_of_numbers))]
pub(crate) fn kind_of_numbers(cipher: i16, padding: i16) -> Option<CipherKind>
    ensures { result ≡ kind_of_numbers cipher padding }
{
    if cipher == 6 {
        return match rsa_padding_named(padding) {
            Some(padding) => Some(CipherKind::Rsa(padding)),
            None => None,
        };
    }
    match cipher_of_numbers(cipher, padding) {
        Some(algorithm) => Some(CipherKind::Block(algorithm)),
        None => None,
    }
}

impl CipherKind {
    /// Its one number.
    pub(crate) fn number(self) -> i16
        ensures { result ≡ kind_number self }
    {
        match self {
            CipherKind::Block(algorithm) => algorithm.number(),
            CipherKind::Rsa(padding) => rsa_number(padding),
        }
    }

    /// The number of its block algorithm and chaining, or of RSA.
    pub(crate) fn cipher_number(self) -> i16
        ensures { result ≡ kind_cipher_number self }
    {
        match self {
            CipherKind::Block(algorithm) => algorithm.cipher_number(),
            CipherKind::Rsa(_) => 6,
        }
    }

    /// The number of its padding.
    pub(crate) fn padding_number(self) -> i16
        ensures { result ≡ kind_padding_number self }
    {
        match self {
            CipherKind::Block(algorithm) => algorithm.padding_number(),
            CipherKind::Rsa(padding) => rsa_padding_number(padding),
        }
    }

    /// How many shorts a state has.
    pub(crate) fn shorts(self) -> u16
        ensures { result ≡ kind_shorts self }
    {
        match self {
            CipherKind::Block(algorithm) => cipher_shorts(algorithm.block),
            CipherKind::Rsa(_) => RSA_SHORTS as u16,
        }
    }
}
