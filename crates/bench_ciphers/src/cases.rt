//! The cases, by their first words.

ghost use Rattle.std.specs.Prelude.{◌≤◌};

use crate::curves::curve_case;
use crate::messages::{hmac, mac, mode};
use crate::numbers::{divided, modular};
use crate::rsa::{rsa_crt, rsa_key, rsa_power, rsa_prime};
use crate::words::{bytes, pieces};
use crate::{long_loops, loops};
use jc_ciphers::aes::Aes;
use jc_ciphers::des::Des;
use jc_ciphers::triple_des::TripleDes;
use jc_digests::checksums::{update_16, update_32};
use jc_digests::digest::Digest;
use jc_digests::md_5::Md5;
use jc_digests::sha_1::Sha1;
use jc_digests::sha_256::{Sha224, Sha256};
use jc_digests::sha_512::{Sha384, Sha512};
use std::alloc::{AllocError, Global};

/// The answer of a line, which is empty where the line is no case.
pub fn answer(alloc: Global, line: &str) -> Result<String, AllocError> {
    let words = line.split(' ').collect::<Vec<&str>>(alloc)?;
    answer_of(alloc, words.as_slice())
}

// The cases by the number of their words.
fn answer_of(alloc: Global, words: &[&str]) -> Result<String, AllocError> {
    match words {
        ["curve", rest @ ..] => curve_case(alloc, rest),
        [_, _, _] => case_of_two(alloc, words[0], words[1], words[2]),
        [_, _, _, _] => case_of_three(alloc, words[0], words[1], words[2], words[3]),
        [_, _, _, _, _] => {
            block_or_keyed_digest(alloc, words[0], words[1], words[2], words[3], words[4])
        }
        [_, _, _, _, _, _] => code_of(
            alloc,
            [words[0], words[1], words[2], words[3]],
            words[4],
            words[5],
        ),
        ["rsa-crt", rest @ ..] => rsa_crt(alloc, rest),
        [_, _, _, _, _, _, _, _] => through_mode(
            alloc,
            [words[0], words[1], words[2], words[3], words[4], words[5]],
            words[6],
            words[7],
        ),
        _ => Ok(String::new(alloc)),
    }
}

fn case_of_two(alloc: Global, kind: &str, first: &str, last: &str) -> Result<String, AllocError> {
    match kind {
        "crc16" => crc16(alloc, first, last),
        "crc32" => crc32(alloc, first, last),
        "rsa-prime" => rsa_prime(alloc, first, last),
        "time" => hex::encode(alloc, timed(first, last.parse::<u32>().unwrap_or(0))),
        _ => Ok(String::new(alloc)),
    }
}

// The last eight bytes of a loop.
fn timed(name: &str, count: u32) -> [u8; 8] {
    match name {
        "p256-sign" | "rsa-2048-crt" | "rsa-2048-public" => long_loops::timed(name, count),
        _ => loops::timed(name, count),
    }
}

fn case_of_three(
    alloc: Global,
    kind: &str,
    first: &str,
    second: &str,
    last: &str,
) -> Result<String, AllocError> {
    match kind {
        "digest" => digest(alloc, first, second, last),
        "power" | "product" | "forms" | "inverse" => modular(alloc, kind, first, second, last),
        "divide" | "invert" => divided(alloc, kind, first, last),
        "rsa-power" => rsa_power(alloc, first, second, last),
        "rsa-key" => rsa_key(alloc, first, second, last),
        _ => Ok(String::new(alloc)),
    }
}

fn block_or_keyed_digest(
    alloc: Global,
    kind: &str,
    name: &str,
    second: &str,
    third: &str,
    last: &str,
) -> Result<String, AllocError> {
    match kind {
        "block" => through_block(alloc, name, second, third, last),
        "hmac" => keyed(alloc, name, second, third, last),
        _ => Ok(String::new(alloc)),
    }
}

fn digest(alloc: Global, name: &str, cuts: &str, message: &str) -> Result<String, AllocError> {
    let pieces = pieces(alloc, cuts, message)?;
    digest_by(alloc, name, pieces.as_slice())
}

fn crc16(alloc: Global, cuts: &str, message: &str) -> Result<String, AllocError> {
    let mut register = 0xffffu16;
    for piece in pieces(alloc, cuts, message)?.as_slice() {
        register = update_16(register, piece.as_slice());
    }
    hex::encode(alloc, (!register).to_be_bytes())
}

fn crc32(alloc: Global, cuts: &str, message: &str) -> Result<String, AllocError> {
    let mut register = 0xffff_ffffu32;
    for piece in pieces(alloc, cuts, message)?.as_slice() {
        register = update_32(register, piece.as_slice());
    }
    hex::encode(alloc, (!register).to_be_bytes())
}

fn through_block(
    alloc: Global,
    name: &str,
    way: &str,
    key: &str,
    block: &str,
) -> Result<String, AllocError> {
    let key = bytes(alloc, key)?;
    let block = bytes(alloc, block)?;
    match name {
        "aes" => aes(alloc, way, key.as_slice(), block.as_slice()),
        _ => des(alloc, way, key.as_slice(), block.as_slice()),
    }
}

fn through_mode(
    alloc: Global,
    words: [&str; 6],
    cuts: &str,
    message: &str,
) -> Result<String, AllocError> {
    let ("ecb" | "cbc") = words[0] else {
        return Ok(String::new(alloc));
    };
    let pieces = pieces(alloc, cuts, message)?;
    mode(alloc, words, pieces.as_slice())
}

fn code_of(
    alloc: Global,
    words: [&str; 4],
    cuts: &str,
    message: &str,
) -> Result<String, AllocError> {
    let ("mac1" | "mac3" | "cmac") = words[0] else {
        return Ok(String::new(alloc));
    };
    let pieces = pieces(alloc, cuts, message)?;
    mac(alloc, words, pieces.as_slice())
}

fn keyed(
    alloc: Global,
    name: &str,
    key: &str,
    cuts: &str,
    message: &str,
) -> Result<String, AllocError> {
    let key = bytes(alloc, key)?;
    let pieces = pieces(alloc, cuts, message)?;
    keyed_by(alloc, name, key.as_slice(), pieces.as_slice())
}

fn digest_by(alloc: Global, name: &str, pieces: &[Vec<u8>]) -> Result<String, AllocError> {
    match name {
        "md5" => digest_of::<Md5>(alloc, pieces),
        "sha1" => digest_of::<Sha1>(alloc, pieces),
        "sha224" => digest_of::<Sha224>(alloc, pieces),
        "sha256" => digest_of::<Sha256>(alloc, pieces),
        "sha384" => digest_of::<Sha384>(alloc, pieces),
        _ => digest_of::<Sha512>(alloc, pieces),
    }
}

fn keyed_by(
    alloc: Global,
    name: &str,
    key: &[u8],
    pieces: &[Vec<u8>],
) -> Result<String, AllocError> {
    match name {
        "md5" => hmac::<Md5>(alloc, key, pieces),
        "sha1" => hmac::<Sha1>(alloc, key, pieces),
        "sha224" => hmac::<Sha224>(alloc, key, pieces),
        "sha256" => hmac::<Sha256>(alloc, key, pieces),
        "sha384" => hmac::<Sha384>(alloc, key, pieces),
        _ => hmac::<Sha512>(alloc, key, pieces),
    }
}

fn digest_of<D: Digest>(alloc: Global, pieces: &[Vec<u8>]) -> Result<String, AllocError>
    requires { D.size ≤ 64 }
{
    let mut digest = D::new();
    for piece in pieces {
        digest.update(piece.as_slice());
    }
    let mut bytes = [0; 64];
    let bytes = &mut bytes[..D::size()];
    digest.finish(bytes);
    hex::encode(alloc, &*bytes)
}

fn aes(alloc: Global, way: &str, key: &[u8], block: &[u8]) -> Result<String, AllocError> {
    let Ok(block) = <[u8; 16]>::try_from(block) else {
        return Ok(String::new(alloc));
    };
    if key.len() != 16 && key.len() != 24 && key.len() != 32 {
        return Ok(String::new(alloc));
    }
    let cipher = Aes::new(key);
    hex::encode(
        alloc,
        if way == "encrypt" {
            cipher.encrypt(&block)
        } else {
            cipher.decrypt(&block)
        },
    )
}

// A key of 8 bytes is one of DES, of 16 and 24 one of triple DES.
fn des(alloc: Global, way: &str, key: &[u8], block: &[u8]) -> Result<String, AllocError> {
    let Ok(block) = <[u8; 8]>::try_from(block) else {
        return Ok(String::new(alloc));
    };
    if let Ok(key) = <[u8; 8]>::try_from(key) {
        let cipher = Des::new(&key);
        return hex::encode(
            alloc,
            if way == "encrypt" {
                cipher.encrypt(&block)
            } else {
                cipher.decrypt(&block)
            },
        );
    }
    if key.len() != 16 && key.len() != 24 {
        return Ok(String::new(alloc));
    }
    let cipher = TripleDes::new(key);
    hex::encode(
        alloc,
        if way == "encrypt" {
            cipher.encrypt(&block)
        } else {
            cipher.decrypt(&block)
        },
    )
}
