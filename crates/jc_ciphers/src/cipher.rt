//! Block ciphers.

ghost use Rattle.std.specs.Prelude.{◌≡◌, ℕ, List, length};
ghost use Rattle.jc_ciphers.specs.Aes as Aes;
ghost use Rattle.jc_ciphers.specs.AesKeys as AesKeys;
ghost use Rattle.jc_ciphers.specs.Des as Des;
ghost use Rattle.jc_ciphers.specs.DesKeys as DesKeys;
ghost use Rattle.jc_ciphers.specs.TripleDes as Triple;

use crate::aes::Aes;
use crate::des::Des;
use crate::triple_des::TripleDes;

/// A block cipher under a key.
pub trait BlockCipher: Drop {
    // The block enciphered.
    ghost encrypted: { Self → List ℕ → List ℕ };

    // The block deciphered.
    ghost decrypted: { Self → List ℕ → List ℕ };

    // How many bytes a block has.
    ghost size: { ℕ };

    /// Enciphers a block.
    fn encipher(&self, block: &mut [u8])
        requires { length block.old ≡ size }
        ensures { block.new ≡ encrypted self.now block.old };

    /// Deciphers a block.
    fn decipher(&self, block: &mut [u8])
        requires { length block.old ≡ size }
        ensures { block.new ≡ decrypted self.now block.old };
}

fn block_16(block: &[u8]) -> [u8; 16]
    requires { length block.now ≡ 16 }
    ensures { result ≡ block.now }
{
    let mut bytes = [0; 16];
    bytes.copy_from_slice(block);
    bytes
}

pub(crate) fn block_8(block: &[u8]) -> [u8; 8]
    requires { length block.now ≡ 8 }
    ensures { result ≡ block.now }
{
    let mut bytes = [0; 8];
    bytes.copy_from_slice(block);
    bytes
}

impl BlockCipher for Aes {
    ghost encrypted = { λ c block. Aes.encrypted (AesKeys.key_of c) block };

    ghost decrypted = { λ c block. Aes.decrypted (AesKeys.key_of c) block };

    ghost size = { 16 };

    fn encipher(&self, block: &mut [u8]) {
        block.copy_from_slice(&self.encrypt(&block_16(block)));
    }

    fn decipher(&self, block: &mut [u8]) {
        block.copy_from_slice(&self.decrypt(&block_16(block)));
    }
}

impl BlockCipher for Des {
    ghost encrypted = { λ c block. Des.encrypted (DesKeys.key_of c) block };

    ghost decrypted = { λ c block. Des.decrypted (DesKeys.key_of c) block };

    ghost size = { 8 };

    fn encipher(&self, block: &mut [u8]) {
        block.copy_from_slice(&self.encrypt(&block_8(block)));
    }

    fn decipher(&self, block: &mut [u8]) {
        block.copy_from_slice(&self.decrypt(&block_8(block)));
    }
}

impl BlockCipher for TripleDes {
    ghost encrypted = { λ c block. Triple.triple_encrypted (DesKeys.keys_of c) block };

    ghost decrypted = { λ c block. Triple.triple_decrypted (DesKeys.keys_of c) block };

    ghost size = { 8 };

    fn encipher(&self, block: &mut [u8]) {
        block.copy_from_slice(&self.encrypt(&block_8(block)));
    }

    fn decipher(&self, block: &mut [u8]) {
        block.copy_from_slice(&self.decrypt(&block_8(block)));
    }
}
