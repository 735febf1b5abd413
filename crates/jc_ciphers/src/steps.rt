//! The modes ECB and CBC, both ways, as steps from block to block (SP 800-38A).

ghost use Rattle.std.specs.Prelude.{◌≡◌, ◌≤◌, ℕ, List, length};
ghost use Rattle.jc_ciphers.specs.Modes.{xor_first};

use crate::bytes::add;
use crate::cipher::BlockCipher;

/// A mode: from the chaining block and a block of the message to the next chaining block and a block of output.
pub trait Step: Drop {
    // The next chaining block.
    ghost chained: { Self → List ℕ → List ℕ → List ℕ };

    // The output.
    ghost written: { Self → List ℕ → List ℕ → List ℕ };

    // How many bytes a block has.
    ghost size: { ℕ };

    /// Makes a block of the message one of output.
    fn step(&self, chain: &mut [u8], block: &mut [u8])
        requires chain { length chain.old ≡ size }
        requires block { length block.old ≡ size }
        requires fits { size ≤ 16 }
        ensures chained { chain.new ≡ chained self.now chain.old block.old }
        ensures written { block.new ≡ written self.now chain.old block.old };
}

/// Enciphering by ECB.
#[derive(Drop)]
pub struct EcbEncryption<C: BlockCipher> {
    /// The cipher.
    pub cipher: C,
}

impl<C: BlockCipher> Step for EcbEncryption<C> {
    ghost chained = { λ s chain block. chain };

    ghost written = { λ s chain block. C.encrypted s.cipher block };

    ghost size = { C.size };

    fn step(&self, chain: &mut [u8], block: &mut [u8]) {
        let _ = &chain;
        self.cipher.encipher(block);
    }
}

/// Deciphering by ECB.
#[derive(Drop)]
pub struct EcbDecryption<C: BlockCipher> {
    /// The cipher.
    pub cipher: C,
}

impl<C: BlockCipher> Step for EcbDecryption<C> {
    ghost chained = { λ s chain block. chain };

    ghost written = { λ s chain block. C.decrypted s.cipher block };

    ghost size = { C.size };

    fn step(&self, chain: &mut [u8], block: &mut [u8]) {
        let _ = &chain;
        self.cipher.decipher(block);
    }
}

/// Enciphering by CBC. Its last chaining block is the code of MAC algorithm 1 of ISO 9797-1.
#[derive(Drop)]
pub struct CbcEncryption<C: BlockCipher> {
    /// The cipher.
    pub cipher: C,
}

impl<C: BlockCipher> Step for CbcEncryption<C> {
    ghost chained = { λ s chain block. C.encrypted s.cipher (xor_first chain block C.size) };

    ghost written = { λ s chain block. C.encrypted s.cipher (xor_first chain block C.size) };

    ghost size = { C.size };

    fn step(&self, chain: &mut [u8], block: &mut [u8]) {
        add(chain, block);
        self.cipher.encipher(chain);
        block.copy_from_slice(chain);
    }
}

/// Deciphering by CBC.
#[derive(Drop)]
pub struct CbcDecryption<C: BlockCipher> {
    /// The cipher.
    pub cipher: C,
}

impl<C: BlockCipher> Step for CbcDecryption<C> {
    ghost chained = { λ s chain block. block };

    ghost written = { λ s chain block. xor_first (C.decrypted s.cipher block) chain C.size };

    ghost size = { C.size };

    fn step(&self, chain: &mut [u8], block: &mut [u8]) {
        let mut next = [0; 16];
        let next = &mut next[..block.len()];
        next.copy_from_slice(block);
        self.cipher.decipher(block);
        add(block, chain);
        chain.copy_from_slice(next);
    }
}
