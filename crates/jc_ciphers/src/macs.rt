//! Ends of message authentication codes. The blocks before go through `CbcEncryption`.

ghost use Rattle.std.specs.Prelude.{◌≡◌, ◌≤◌, ◌<◌, length, replicate};
ghost use Rattle.jc_ciphers.specs.Macs.{cmac_end, doubled, finished_3, first_subkey, last_block, reduced_byte};

use crate::bytes::{add, clear_from, end_by_bit};
use crate::cipher::BlockCipher;

/// Makes the last chaining block the code of MAC algorithm 3 of ISO 9797-1, whose blocks went through the first cipher.
pub fn finish_3<C: BlockCipher>(first: &C, second: &C, chain: &mut [u8])
    requires { length chain.old ≡ C.size }
    ensures { chain.new ≡ finished_3 (C.encrypted first.now) (C.decrypted second.now) chain.old }
{
    second.decipher(chain);
    first.encipher(chain);
}

// Byte `i` of a block that is shifted left by a bit, with R.
fn reduced_byte(block: &[u8], i: usize) -> u8
    requires { i < length block.now }
    ensures { result ≡ reduced_byte (length block.now) block.now i }
{
    let size = block.len();
    let carry = if i + 1 < size { block[i + 1] / 128 } else { 0 };
    let doubled = block[i].wrapping_mul(2) + carry;
    let remainder = if i + 1 == size {
        if size == 8 { 0x1b } else { 0x87 }
    } else {
        0
    };
    let added = if 128 <= block[0] { remainder } else { 0 };
    doubled ^ added
}

// A block shifted left by a bit, exclusive-or R if the first bit was 1.
fn double(block: &[u8], to: &mut [u8])
    requires { length to.old ≡ length block.now }
    ensures { to.new ≡ doubled (length block.now) block.now }
{
    'bytes: for i in 0..block.len() {
        to[i] = reduced_byte(block, i);
    }
}

// The first subkey of CMAC.
fn first_subkey<C: BlockCipher>(cipher: &C, to: &mut [u8])
    requires size { length to.old ≡ C.size }
    requires fits { length to.old ≤ 16 }
    ensures { to.new ≡ first_subkey (C.encrypted cipher.now) C.size }
{
    let mut zeros = [0; 16];
    let zeros = &mut zeros[..to.len()];
    clear_from(zeros, 0);
    cipher.encipher(zeros);
    double(zeros, to);
}

// Pads the last block of a message, which has `used` bytes, and adds its subkey.
fn complete<C: BlockCipher>(cipher: &C, block: &mut [u8], used: usize)
    requires size { length block.old ≡ C.size }
    requires fits { length block.old ≤ 16 }
    requires used { used ≤ length block.old }
    ensures { block.new ≡ last_block (C.encrypted cipher.now) C.size block.old used }
{
    let mut subkey = [0; 16];
    let subkey = &mut subkey[..block.len()];
    first_subkey(cipher, subkey);
    if used == block.len() {
        add(block, subkey);
        return;
    }
    let mut second = [0; 16];
    let second = &mut second[..block.len()];
    double(subkey, second);
    end_by_bit(block, used);
    add(block, second);
}

/// Makes the chaining block the code of CMAC (SP 800-38B) of a message: the chaining block is that of all blocks but the last, which has
/// `used` bytes.
pub fn finish_cmac<C: BlockCipher>(cipher: &C, chain: &mut [u8], block: &mut [u8], used: usize)
    requires chain { length chain.old ≡ C.size }
    requires block { length block.old ≡ C.size }
    requires fits { length block.old ≤ 16 }
    requires used { used ≤ length block.old }
    ensures { chain.new ≡ cmac_end (C.encrypted cipher.now) C.size chain.old block.old used }
{
    complete(cipher, block, used);
    add(chain, block);
    cipher.encipher(chain);
}
