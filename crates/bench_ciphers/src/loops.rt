//! Loops of a primitive, each over the result of the one before.

use jc_ciphers::aes::Aes;
use jc_ciphers::des::Des;
use jc_ciphers::triple_des::TripleDes;
use jc_digests::absorbing::Compression;
use jc_digests::checksums::{update_16, update_32};
use jc_digests::md_5::Words128;
use jc_digests::sha_1::Words160;
use jc_digests::sha_256::Words32;
use jc_digests::sha_512::Words64;

const KEY: [u8; 16] = [0, 1, 2, 3, 4, 5, 6, 7, 8, 9, 10, 11, 12, 13, 14, 15];

/// The last eight bytes of a loop.
pub fn timed(name: &str, count: u32) -> [u8; 8] {
    match name {
        "aes-encrypt" => aes(count, true),
        "aes-decrypt" => aes(count, false),
        "aes-key" => aes_key(count),
        "des-encrypt" => des(count, true),
        "des-decrypt" => des(count, false),
        "des-key" => des_key(count),
        "triple-des" => triple_des(count),
        "md5" => md5(count),
        "sha1" => sha1(count),
        "sha256" => sha256(count),
        "sha512" => sha512(count),
        "crc16" => crc16(count),
        "crc32" => crc32(count),
        _ => [0; 8],
    }
}

fn first(block: &[u8; 16]) -> [u8; 8] {
    [
        block[0], block[1], block[2], block[3], block[4], block[5], block[6], block[7],
    ]
}

#[inline(never)]
fn aes(count: u32, encrypt: bool) -> [u8; 8] {
    let cipher = Aes::new(&KEY);
    let mut block = KEY;
    for _block in 0..count {
        block = if encrypt {
            cipher.encrypt(&block)
        } else {
            cipher.decrypt(&block)
        };
    }
    first(&block)
}

#[inline(never)]
fn aes_key(count: u32) -> [u8; 8] {
    let mut block = KEY;
    for _key in 0..count {
        block = Aes::new(&block).encrypt(&KEY);
    }
    first(&block)
}

#[inline(never)]
fn des(count: u32, encrypt: bool) -> [u8; 8] {
    let cipher = Des::new(&first(&KEY));
    let mut block = first(&KEY);
    for _block in 0..count {
        block = if encrypt {
            cipher.encrypt(&block)
        } else {
            cipher.decrypt(&block)
        };
    }
    block
}

#[inline(never)]
fn des_key(count: u32) -> [u8; 8] {
    let mut block = first(&KEY);
    for _key in 0..count {
        block = Des::new(&block).encrypt(&block);
    }
    block
}

#[inline(never)]
fn triple_des(count: u32) -> [u8; 8] {
    let cipher = TripleDes::new(&KEY);
    let mut block = first(&KEY);
    for _block in 0..count {
        block = cipher.encrypt(&block);
    }
    block
}

#[inline(never)]
fn md5(count: u32) -> [u8; 8] {
    let mut hash = Words128 {
        words: [1, 2, 3, 4],
    };
    for _block in 0..count {
        hash.compress(&[7; 64]);
    }
    u64::from(hash.words[0]).to_be_bytes()
}

#[inline(never)]
fn sha1(count: u32) -> [u8; 8] {
    let mut hash = Words160 {
        words: [1, 2, 3, 4, 5],
    };
    for _block in 0..count {
        hash.compress(&[7; 64]);
    }
    u64::from(hash.words[0]).to_be_bytes()
}

#[inline(never)]
fn sha256(count: u32) -> [u8; 8] {
    let mut hash = Words32 {
        words: [1, 2, 3, 4, 5, 6, 7, 8],
    };
    for _block in 0..count {
        hash.compress(&[7; 64]);
    }
    u64::from(hash.words[0]).to_be_bytes()
}

#[inline(never)]
fn sha512(count: u32) -> [u8; 8] {
    let mut hash = Words64 {
        words: [1, 2, 3, 4, 5, 6, 7, 8],
    };
    for _block in 0..count {
        hash.compress(&[7; 128]);
    }
    hash.words[0].to_be_bytes()
}

// A piece whose bytes a compiler does not know.
fn piece_of(count: u32) -> [u8; 64] {
    let bytes = count.to_be_bytes();
    [bytes[3]; 64]
}

#[inline(never)]
fn crc16(count: u32) -> [u8; 8] {
    let piece = piece_of(count);
    let mut register = 0xffff;
    for _block in 0..count {
        register = update_16(register, &piece);
    }
    u64::from(register).to_be_bytes()
}

#[inline(never)]
fn crc32(count: u32) -> [u8; 8] {
    let piece = piece_of(count);
    let mut register = 0xffff_ffff;
    for _block in 0..count {
        register = update_32(register, &piece);
    }
    u64::from(register).to_be_bytes()
}
