//! The words of a line.

ghost use Rattle.std.specs.Prelude.{◌≡◌, ◌<◌, [], ◌∷◌, length, MatchOption, IfSome};
ghost use Rattle.jc_platform.specs.Rows.{bytes_of, is_token, kind_of, number_of, parts_at};

use crate::names::MethodKind;
use crate::row::RANDOM_SIZE;
use hex::FromHex;

/// The bytes before the first separator and those after it.
pub fn split_once(bytes: &[u8], separator: u8) -> Option<(&[u8], &[u8])>
    ensures parts { MatchOption result (parts_at separator bytes.now ≡ bytes.now ∷ [])
        (λ r. parts_at separator bytes.now ≡ r.0.now ∷ parts_at separator r.1.now) }
    ensures shorter { IfSome result (λ r. length r.1.now < length bytes.now) }
{
    let at = bytes.iter().position(|byte| *byte == separator)?;
    Some((&bytes[..at], &bytes[at + 1..]))
}

/// The number that the decimal digits of a word write, if it is at most 255.
#[tactic(auto, using(crate::proofs::Digits::number_empty, crate::proofs::Digits::number_plus))]
pub(crate) fn number(word: &[u8]) -> Option<u8>
    ensures { result ≡ number_of word.now }
{
    if word.is_empty() {
        return None;
    }
    if word[0] == b'+' {
        return None;
    }
    match str::from_utf8(word) {
        Ok(text) => text.parse().ok(),
        Err(_) => None,
    }
}

/// The bytes that random data are made from, of 64 hexadecimal digits.
pub(crate) fn random_bytes(digits: &[u8]) -> Option<[u8; RANDOM_SIZE]>
    ensures { result ≡ bytes_of digits.now }
{
    <[u8; RANDOM_SIZE] as FromHex>::from_hex(digits).ok()
}

/// The kind of method that a keyword begins.
pub(crate) fn kind(keyword: &[u8]) -> Option<MethodKind>
    ensures { result ≡ kind_of keyword.now }
{
    if keyword == b"static".as_slice() {
        return Some(MethodKind::Static);
    }
    if keyword == b"virtual".as_slice() {
        return Some(MethodKind::Virtual);
    }
    if keyword == b"interface".as_slice() {
        return Some(MethodKind::Interface);
    }
    None
}

/// The token is there, and it is this one.
pub(crate) fn is_token(found: Option<u8>, token: u8) -> bool
    ensures { result ≡ is_token found token }
{
    match found {
        Some(other) => other == token,
        None => false,
    }
}
