//! The ciphers, and their numbers.
ghost use Rattle.std.specs.Prelude.{◌≡◌, Some};
ghost use Rattle.jc_api_ciphers.specs.Cipher.Algorithms.{aes_named, algorithm_number, cipher_named, cipher_number, cipher_of, cipher_of_numbers, cipher_with, des_named, padding_named, padding_number};

use jc_ciphers::kept::BlockAlgorithm;
use jc_ciphers::kept::conversion::Chaining;
use jc_ciphers::padding::Padding;

/// A cipher: a block algorithm, how its blocks are chained, and a padding.
#[derive(Clone, Copy)]
pub struct CipherAlgorithm {
    pub block: BlockAlgorithm,
    pub chaining: Chaining,
    pub padding: Padding,
}

// A cipher by its three parts.
fn cipher_of(block: BlockAlgorithm, chaining: Chaining, padding: Padding) -> Option<CipherAlgorithm>
    ensures { result ≡ Some (cipher_of block chaining padding) }
{
    Some(CipherAlgorithm {
        block,
        chaining,
        padding,
    })
}

// The cipher of a number from 1 to 8.
fn des_named(number: i16) -> Option<CipherAlgorithm>
    ensures { result ≡ des_named number }
{
    if number == 1 {
        cipher_of(BlockAlgorithm::Des, Chaining::Cbc, Padding::NoPadding)
    } else if number == 2 {
        cipher_of(BlockAlgorithm::Des, Chaining::Cbc, Padding::Method1)
    } else if number == 3 {
        cipher_of(BlockAlgorithm::Des, Chaining::Cbc, Padding::Method2)
    } else if number == 4 {
        cipher_of(BlockAlgorithm::Des, Chaining::Cbc, Padding::Pkcs5)
    } else if number == 5 {
        cipher_of(BlockAlgorithm::Des, Chaining::Ecb, Padding::NoPadding)
    } else if number == 6 {
        cipher_of(BlockAlgorithm::Des, Chaining::Ecb, Padding::Method1)
    } else if number == 7 {
        cipher_of(BlockAlgorithm::Des, Chaining::Ecb, Padding::Method2)
    } else if number == 8 {
        cipher_of(BlockAlgorithm::Des, Chaining::Ecb, Padding::Pkcs5)
    } else {
        None
    }
}

// The cipher of a number above.
fn aes_named(number: i16) -> Option<CipherAlgorithm>
    ensures { result ≡ aes_named number }
{
    if number == 13 {
        cipher_of(BlockAlgorithm::Aes, Chaining::Cbc, Padding::NoPadding)
    } else if number == 14 {
        cipher_of(BlockAlgorithm::Aes, Chaining::Ecb, Padding::NoPadding)
    } else if number == 22 {
        cipher_of(BlockAlgorithm::Aes, Chaining::Cbc, Padding::Method1)
    } else if number == 23 {
        cipher_of(BlockAlgorithm::Aes, Chaining::Cbc, Padding::Method2)
    } else if number == 24 {
        cipher_of(BlockAlgorithm::Aes, Chaining::Cbc, Padding::Pkcs5)
    } else if number == 25 {
        cipher_of(BlockAlgorithm::Aes, Chaining::Ecb, Padding::Method1)
    } else if number == 26 {
        cipher_of(BlockAlgorithm::Aes, Chaining::Ecb, Padding::Method2)
    } else if number == 27 {
        cipher_of(BlockAlgorithm::Aes, Chaining::Ecb, Padding::Pkcs5)
    } else {
        None
    }
}

/// The cipher of a number.
#[tactic(auto, unfolding(crate::specs::Cipher::Algorithms::cipher_named))]
pub(crate) fn cipher_named(number: i16) -> Option<CipherAlgorithm>
    ensures { result ≡ cipher_named number }
{
    if number <= 8 {
        des_named(number)
    } else {
        aes_named(number)
    }
}

// The padding of a number.
fn padding_named(number: i16) -> Option<Padding>
    ensures { result ≡ padding_named number }
{
    if number == 1 {
        Some(Padding::NoPadding)
    } else if number == 2 {
        Some(Padding::Method1)
    } else if number == 3 {
        Some(Padding::Method2)
    } else if number == 6 {
        Some(Padding::Pkcs5)
    } else {
        None
    }
}

// The block algorithm and chaining of a number, with a padding.
fn cipher_with(number: i16, padding: Padding) -> Option<CipherAlgorithm>
    ensures { result ≡ cipher_with number padding }
{
    if number == 1 {
        cipher_of(BlockAlgorithm::Aes, Chaining::Cbc, padding)
    } else if number == 2 {
        cipher_of(BlockAlgorithm::Aes, Chaining::Ecb, padding)
    } else if number == 3 {
        cipher_of(BlockAlgorithm::Des, Chaining::Cbc, padding)
    } else if number == 4 {
        cipher_of(BlockAlgorithm::Des, Chaining::Ecb, padding)
    } else {
        None
    }
}

/// The cipher of two numbers, one of block algorithm and chaining, one of the padding.
#[tactic(auto, unfolding(crate::specs::Cipher::Algorithms::cipher_of_numbers))]
pub(crate) fn cipher_of_numbers(cipher: i16, padding: i16) -> Option<CipherAlgorithm>
    ensures { result ≡ cipher_of_numbers cipher padding }
{
    cipher_with(cipher, padding_named(padding)?)
}

impl CipherAlgorithm {
    /// Its one number.
    pub(crate) fn number(self) -> i16
        ensures { result ≡ algorithm_number self.block self.chaining self.padding }
    {
        match (self.block, self.chaining, self.padding) {
            (BlockAlgorithm::Des, Chaining::Cbc, Padding::NoPadding) => 1,
            (BlockAlgorithm::Des, Chaining::Cbc, Padding::Method1) => 2,
            (BlockAlgorithm::Des, Chaining::Cbc, Padding::Method2) => 3,
            (BlockAlgorithm::Des, Chaining::Cbc, Padding::Pkcs5) => 4,
            (BlockAlgorithm::Des, Chaining::Ecb, Padding::NoPadding) => 5,
            (BlockAlgorithm::Des, Chaining::Ecb, Padding::Method1) => 6,
            (BlockAlgorithm::Des, Chaining::Ecb, Padding::Method2) => 7,
            (BlockAlgorithm::Des, Chaining::Ecb, Padding::Pkcs5) => 8,
            (BlockAlgorithm::Aes, Chaining::Cbc, Padding::NoPadding) => 13,
            (BlockAlgorithm::Aes, Chaining::Ecb, Padding::NoPadding) => 14,
            (BlockAlgorithm::Aes, Chaining::Cbc, Padding::Method1) => 22,
            (BlockAlgorithm::Aes, Chaining::Cbc, Padding::Method2) => 23,
            (BlockAlgorithm::Aes, Chaining::Cbc, Padding::Pkcs5) => 24,
            (BlockAlgorithm::Aes, Chaining::Ecb, Padding::Method1) => 25,
            (BlockAlgorithm::Aes, Chaining::Ecb, Padding::Method2) => 26,
            (BlockAlgorithm::Aes, Chaining::Ecb, Padding::Pkcs5) => 27,
        }
    }

    /// The number of its block algorithm and chaining.
    pub(crate) fn cipher_number(self) -> i16
        ensures { result ≡ cipher_number self.block self.chaining }
    {
        match (self.block, self.chaining) {
            (BlockAlgorithm::Aes, Chaining::Cbc) => 1,
            (BlockAlgorithm::Aes, Chaining::Ecb) => 2,
            (BlockAlgorithm::Des, Chaining::Cbc) => 3,
            (BlockAlgorithm::Des, Chaining::Ecb) => 4,
        }
    }

    /// The number of its padding.
    pub(crate) fn padding_number(self) -> i16
        ensures { result ≡ padding_number self.padding }
    {
        match self.padding {
            Padding::NoPadding => 1,
            Padding::Method1 => 2,
            Padding::Method2 => 3,
            Padding::Pkcs5 => 6,
        }
    }
}
