//! Bytes and pieces in words of a line.

use std::alloc::{AllocError, Global};

/// Bytes as hexadecimal digits; other characters are left out.
pub fn bytes(alloc: Global, word: &str) -> Result<Vec<u8>, AllocError> {
    let mut bytes = Vec::new(alloc);
    let mut high = None;
    for digit in word.bytes() {
        let value = match digit {
            b'0'..=b'9' => digit - b'0',
            b'a'..=b'f' => digit - b'a' + 10,
            _ => continue,
        };
        match high {
            None => high = Some(value),
            Some(first) => {
                bytes.push(first << 4 | value)?;
                high = None;
            }
        }
    }
    Ok(bytes)
}

/// The bytes of each word.
pub fn bytes_of_all(alloc: Global, words: &[&str]) -> Result<Vec<Vec<u8>>, AllocError> {
    let mut all = Vec::new(alloc);
    for word in words {
        push_bytes(alloc, &mut all, word)?;
    }
    Ok(all)
}

fn push_bytes(alloc: Global, all: &mut Vec<Vec<u8>>, word: &str) -> Result<(), AllocError> {
    let bytes = bytes(alloc, word)?;
    all.push(bytes)?;
    Ok(())
}

/// A message in pieces of these lengths, with commas between, and the rest as the last.
pub fn pieces(alloc: Global, cuts: &str, message: &str) -> Result<Vec<Vec<u8>>, AllocError> {
    let message = bytes(alloc, message)?;
    pieces_of(alloc, cuts, message.as_slice())
}

fn pieces_of(alloc: Global, cuts: &str, message: &[u8]) -> Result<Vec<Vec<u8>>, AllocError> {
    let mut rest = message;
    let mut pieces = Vec::new(alloc);
    for cut in cuts.split(',') {
        if let Ok(length) = cut.parse::<u16>() {
            let (piece, others) = rest.split_at(rest.len().min(usize::from(length)));
            push_copy(alloc, &mut pieces, piece)?;
            rest = others;
        }
    }
    push_copy(alloc, &mut pieces, rest)?;
    Ok(pieces)
}

fn push_copy(alloc: Global, pieces: &mut Vec<Vec<u8>>, piece: &[u8]) -> Result<(), AllocError> {
    let piece = Vec::from_slice(alloc, piece)?;
    pieces.push(piece)?;
    Ok(())
}
