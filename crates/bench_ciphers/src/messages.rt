//! Messages through modes, and their codes.

ghost use Rattle.std.specs.Prelude.{◌≡◌, ◌≤◌, length, IfOk};

use crate::words::bytes;
use jc_ciphers::aes::Aes;
use jc_ciphers::cipher::BlockCipher;
use jc_ciphers::conversion::{convert, finish};
use jc_ciphers::des::Des;
use jc_ciphers::hmac::Hmac;
use jc_ciphers::macs::{finish_3, finish_cmac};
use jc_ciphers::padding::{Padding, unpadded};
use jc_ciphers::steps::{CbcDecryption, CbcEncryption, EcbDecryption, EcbEncryption, Step};
use jc_ciphers::triple_des::TripleDes;
use jc_digests::digest::Digest;
use std::alloc::{AllocError, Global};

fn padding_of(name: &str) -> Padding {
    match name {
        "m1" => Padding::Method1,
        "m2" => Padding::Method2,
        "pkcs5" => Padding::Pkcs5,
        _ => Padding::NoPadding,
    }
}

// A message in pieces, and the block that its chain begins with; nothing where that is zeros.
#[derive(Clone, Copy, Drop)]
struct Message<'a> {
    first: &'a [u8],
    pieces: &'a [Vec<u8>],
}

// The padding that is put to a message, and the one that is taken off what comes of it.
#[derive(Clone, Copy)]
struct Paddings {
    put: Padding,
    taken: Padding,
}

// What a message has come to: its chaining block, its open block, how many bytes of that are filled, and the output.
#[derive(Drop)]
struct Blocks {
    chain: [u8; 16],
    block: [u8; 16],
    used: usize,
    out: Vec<u8>,
}

// Takes in a piece.
fn take_piece<S: Step>(
    alloc: Global,
    step: &S,
    size: usize,
    blocks: Blocks,
    piece: &[u8],
) -> Result<Blocks, AllocError>
    requires size { S.size ≡ size }
    requires some { 1 ≤ size }
    requires fits { size ≤ 16 }
    requires used { blocks.used ≤ size }
    ensures { IfOk result (λ blocks. blocks.used ≤ size) }
{
    let mut blocks = blocks;
    let mut to = vec![in alloc; 0u8; 16]?;
    to.extend_from_slice(piece)?;
    let chain = &mut blocks.chain[..size];
    let block = &mut blocks.block[..size];
    let progress = convert(step, chain, block, blocks.used, piece, to.as_mut_slice());
    blocks.used = progress.used;
    blocks
        .out
        .extend_from_slice(&to.as_slice()[..progress.written])?;
    Ok(blocks)
}

// What a message has come to when all its pieces are taken in.
fn taken_in<S: Step>(
    alloc: Global,
    step: &S,
    size: usize,
    message: Message<'_>,
) -> Result<Blocks, AllocError>
    requires size { S.size ≡ size }
    requires some { 1 ≤ size }
    requires fits { size ≤ 16 }
    ensures { IfOk result (λ blocks. blocks.used ≤ size) }
{
    let mut blocks = Blocks {
        chain: [0; 16],
        block: [0; 16],
        used: 0,
        out: Vec::new(alloc),
    };
    if message.first.len() == size {
        blocks.chain[..size].copy_from_slice(message.first);
    }
    'pieces: for piece in message.pieces {
        blocks = take_piece(alloc, step, size, blocks, piece.as_slice())?;
    }
    Ok(blocks)
}

// Takes the padding off the last block. It gives whether there was one.
fn strip(padding: Padding, size: usize, out: &mut Vec<u8>) -> bool
    requires some { 1 ≤ size }
    requires fits { size ≤ 16 }
{
    if out.len() < size {
        return matches!(padding, Padding::NoPadding);
    }
    let at = out.len() - size;
    match unpadded(padding, &out.as_slice()[at..]) {
        Some(count) => {
            out.truncate(at + count);
            true
        }
        None => false,
    }
}

// What a mode makes of a message, and `none` where it is no whole blocks or has no padding.
fn converted<S: Step>(
    alloc: Global,
    step: &S,
    size: usize,
    paddings: Paddings,
    message: Message<'_>,
) -> Result<String, AllocError>
    requires size { S.size ≡ size }
    requires some { 1 ≤ size }
    requires fits { size ≤ 16 }
{
    let blocks = taken_in(alloc, step, size, message)?;
    match finish_message(step, size, paddings, blocks)? {
        Some(out) => hex::encode(alloc, out.as_slice()),
        None => String::from_str(alloc, "none"),
    }
}

// What a message comes to at its end, if it is whole blocks and has a padding.
fn finish_message<S: Step>(
    step: &S,
    size: usize,
    paddings: Paddings,
    blocks: Blocks,
) -> Result<Option<Vec<u8>>, AllocError>
    requires size { S.size ≡ size }
    requires some { 1 ≤ size }
    requires fits { size ≤ 16 }
    requires used { blocks.used ≤ size }
{
    let Blocks {
        mut chain,
        mut block,
        used,
        mut out,
    } = blocks;
    let mut to = [0; 32];
    let chain = &mut chain[..size];
    let block = &mut block[..size];
    let Some(count) = finish(step, paddings.put, chain, block, used, &mut to) else {
        return Ok(None);
    };
    out.extend_from_slice(&to[..count.min(32)])?;
    if strip(paddings.taken, size, &mut out) {
        Ok(Some(out))
    } else {
        Ok(None)
    }
}

/// A message through ECB and CBC, both ways.
pub fn mode(alloc: Global, words: [&str; 6], pieces: &[Vec<u8>]) -> Result<String, AllocError> {
    let [mode, name, way, padding, key, first] = words;
    let key = bytes(alloc, key)?;
    let first = bytes(alloc, first)?;
    let message = Message {
        first: first.as_slice(),
        pieces,
    };
    mode_by(
        alloc,
        [mode, name, way],
        padding_of(padding),
        key.as_slice(),
        message,
    )
}

fn mode_by(
    alloc: Global,
    words: [&str; 3],
    padding: Padding,
    key: &[u8],
    message: Message<'_>,
) -> Result<String, AllocError> {
    let [mode, name, way] = words;
    let way = [mode, way];
    match name {
        "aes" => match key.len() {
            16 | 24 | 32 => through(alloc, Aes::new(key), 16, way, padding, message),
            _ => Ok(String::new(alloc)),
        },
        _ => match key.len() {
            16 | 24 => through(alloc, TripleDes::new(key), 8, way, padding, message),
            _ => match <[u8; 8]>::try_from(key) {
                Ok(key) => through(alloc, Des::new(&key), 8, way, padding, message),
                Err(_) => Ok(String::new(alloc)),
            },
        },
    }
}

fn through<C: BlockCipher>(
    alloc: Global,
    cipher: C,
    size: usize,
    way: [&str; 2],
    padding: Padding,
    message: Message<'_>,
) -> Result<String, AllocError>
    requires size { C.size ≡ size }
    requires some { 1 ≤ size }
    requires fits { size ≤ 16 }
{
    let put = Paddings {
        put: padding,
        taken: Padding::NoPadding,
    };
    let taken = Paddings {
        put: Padding::NoPadding,
        taken: padding,
    };
    match way {
        ["ecb", "encrypt"] => converted(alloc, &EcbEncryption { cipher }, size, put, message),
        ["ecb", _] => converted(alloc, &EcbDecryption { cipher }, size, taken, message),
        [_, "encrypt"] => converted(alloc, &CbcEncryption { cipher }, size, put, message),
        [_, _] => converted(alloc, &CbcDecryption { cipher }, size, taken, message),
    }
}

// The code of a message under two keys, of which `mac3` alone takes the second: `mac1` and `mac3` of ISO 9797-1, and `cmac`.
fn code<C: BlockCipher>(
    alloc: Global,
    ciphers: (C, C),
    size: usize,
    name: &str,
    padding: Padding,
    pieces: &[Vec<u8>],
) -> Result<String, AllocError>
    requires size { C.size ≡ size }
    requires some { 1 ≤ size }
    requires fits { size ≤ 16 }
{
    let (cipher, second) = ciphers;
    let step = CbcEncryption { cipher };
    let blocks = taken_in(alloc, &step, size, Message { first: &[], pieces })?;
    match finish_code(&step, &second, size, name, padding, blocks) {
        Some(code) => hex::encode(alloc, &code[..size]),
        None => String::from_str(alloc, "none"),
    }
}

// The code of a message, in the first bytes of what is given, if the message is whole blocks or has a padding.
fn finish_code<C: BlockCipher>(
    step: &CbcEncryption<C>,
    second: &C,
    size: usize,
    name: &str,
    padding: Padding,
    blocks: Blocks,
) -> Option<[u8; 16]>
    requires size { C.size ≡ size }
    requires some { 1 ≤ size }
    requires fits { size ≤ 16 }
    requires used { blocks.used ≤ size }
{
    let Blocks {
        chain: mut code,
        mut block,
        used,
        ..
    } = blocks;
    let chain = &mut code[..size];
    let block = &mut block[..size];
    if name == "cmac" {
        finish_cmac(&step.cipher, chain, block, used);
        return Some(code);
    }
    let mut to = [0; 32];
    finish(step, padding, chain, block, used, &mut to)?;
    if name == "mac3" {
        finish_3(&step.cipher, second, chain);
    }
    Some(code)
}

/// A message's code under a key of AES or DES; algorithm 3 takes two keys of DES.
pub fn mac(alloc: Global, words: [&str; 4], pieces: &[Vec<u8>]) -> Result<String, AllocError> {
    let [name, cipher, padding, key] = words;
    let key = bytes(alloc, key)?;
    mac_by(
        alloc,
        [name, cipher],
        padding_of(padding),
        key.as_slice(),
        pieces,
    )
}

fn mac_by(
    alloc: Global,
    words: [&str; 2],
    padding: Padding,
    key: &[u8],
    pieces: &[Vec<u8>],
) -> Result<String, AllocError> {
    let [name, cipher] = words;
    match cipher {
        "aes" => match key.len() {
            16 | 24 | 32 => {
                code(
                    alloc,
                    (Aes::new(key), Aes::new(key)),
                    16,
                    name,
                    padding,
                    pieces,
                )
            }
            _ => Ok(String::new(alloc)),
        },
        "tdes" => match key.len() {
            16 | 24 => {
                let ciphers = (TripleDes::new(key), TripleDes::new(key));
                code(alloc, ciphers, 8, name, padding, pieces)
            }
            _ => Ok(String::new(alloc)),
        },
        _ => match <[u8; 16]>::try_from(key) {
            Ok(key) => {
                let ciphers = (Des::new(&half(&key, 0)), Des::new(&half(&key, 8)));
                code(alloc, ciphers, 8, name, padding, pieces)
            }
            Err(_) => Ok(String::new(alloc)),
        },
    }
}

fn half(key: &[u8; 16], at: usize) -> [u8; 8]
    requires { at ≤ 8 }
{
    let mut half = [0; 8];
    half.copy_from_slice(&key[at..at + 8]);
    half
}

/// A message's code under a key, of a digest.
pub fn hmac<D: Digest>(alloc: Global, key: &[u8], pieces: &[Vec<u8>]) -> Result<String, AllocError>
    requires block { D.block_size ≤ 128 }
    requires size { D.size ≤ D.block_size }
{
    let mut code = Hmac::<D>::new(key);
    for piece in pieces {
        code.update(piece.as_slice());
    }
    let mut bytes = [0; 128];
    let bytes = &mut bytes[..D::size()];
    code.finish(bytes);
    hex::encode(alloc, &*bytes)
}
