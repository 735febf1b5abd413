//! The data of a key of a pair: its parts, one after another. Each is two bytes, how many bytes the part has, 0 where it is not set, and then
//! room for as many as it may have.
ghost use Rattle.std.specs.Prelude.{◌≡◌, ◌≤◌, IfSome};
ghost use Rattle.jc_api_keys.specs.KeyParts.{data_length, has_part, holder_of, is_crt_part, is_domain_part, is_private_number, is_public_point, is_rsa_part, place_of, room_of, size_from, size_if, size_of};

use crate::key_types::PairKey;
use jc_platform::names::PlatformClass;

/// How many bytes the size of a key of a pair has at most: RSA keys have 4,096 bits at most.
pub const MOST_SIZE: usize = 512;

/// How many bytes the data of a key have at most: those of an RSA key of 4,096 bits by primes.
pub const MOST_DATA: usize = 1290;

/// A part of a key of a pair.
#[derive(Clone, Copy)]
pub enum KeyPart {
    Modulus,
    Exponent,
    P,
    Q,
    Pq,
    Dp1,
    Dq1,
    Field,
    A,
    B,
    G,
    R,
    K,
    W,
    S,
}

/// How many bytes a part of a key of this size has at most.
pub fn room_of(part: KeyPart, size: u16) -> u16
    requires few { size ≤ MOST_SIZE }
    ensures { result ≡ room_of size part }
{
    match part {
        KeyPart::Modulus | KeyPart::Exponent | KeyPart::Field | KeyPart::A | KeyPart::B => size,
        KeyPart::P | KeyPart::Q | KeyPart::Pq | KeyPart::Dp1 | KeyPart::Dq1 => (size + 1) / 2,
        KeyPart::G | KeyPart::W => 2 * size + 1,
        KeyPart::R | KeyPart::S => size + 1,
        KeyPart::K => 2,
    }
}

/// Where a part of a key of this size begins.
#[tactic(auto, unfolding(crate::specs::KeyParts::bytes_of_parts))]
pub fn place_of(part: KeyPart, size: u16) -> u16
    requires few { size ≤ MOST_SIZE }
    ensures { result ≡ place_of size part }
{
    match part {
        KeyPart::Modulus | KeyPart::P | KeyPart::Field => 0,
        KeyPart::Exponent | KeyPart::A => size + 2,
        KeyPart::Q => (size + 1) / 2 + 2,
        KeyPart::Pq => 2 * ((size + 1) / 2 + 2),
        KeyPart::Dp1 => 3 * ((size + 1) / 2 + 2),
        KeyPart::Dq1 => 4 * ((size + 1) / 2 + 2),
        KeyPart::B => 2 * size + 4,
        KeyPart::G => 3 * size + 6,
        KeyPart::R => 5 * size + 9,
        KeyPart::K => 6 * size + 12,
        KeyPart::W | KeyPart::S => 6 * size + 16,
    }
}

/// How many bytes the data of a key of this size have.
#[tactic(auto, unfolding(crate::specs::KeyParts::bytes_of_parts))]
pub fn data_length(key: PairKey, size: u16) -> u16
    requires few { size ≤ MOST_SIZE }
    ensures { result ≡ data_length key size }
{
    match key {
        PairKey::RsaPublic | PairKey::RsaPrivate => 2 * size + 4,
        PairKey::RsaCrtPrivate => 5 * ((size + 1) / 2 + 2),
        PairKey::EcPublic => 8 * size + 19,
        PairKey::EcPrivate => 7 * size + 19,
    }
}

fn is_rsa_part(part: KeyPart) -> bool
    ensures { result ≡ is_rsa_part part }
{
    matches!(part, KeyPart::Modulus | KeyPart::Exponent)
}

fn is_crt_part(part: KeyPart) -> bool
    ensures { result ≡ is_crt_part part }
{
    matches!(
        part,
        KeyPart::P | KeyPart::Q | KeyPart::Pq | KeyPart::Dp1 | KeyPart::Dq1
    )
}

fn is_domain_part(part: KeyPart) -> bool
    ensures { result ≡ is_domain_part part }
{
    matches!(
        part,
        KeyPart::Field | KeyPart::A | KeyPart::B | KeyPart::G | KeyPart::R | KeyPart::K
    )
}

fn is_public_point(part: KeyPart) -> bool
    ensures { result ≡ is_public_point part }
{
    matches!(part, KeyPart::W)
}

fn is_private_number(part: KeyPart) -> bool
    ensures { result ≡ is_private_number part }
{
    matches!(part, KeyPart::S)
}

/// Whether a key has a part.
pub fn has_part(key: PairKey, part: KeyPart) -> bool
    ensures { result ≡ has_part key part }
{
    match key {
        PairKey::RsaPublic | PairKey::RsaPrivate => is_rsa_part(part),
        PairKey::RsaCrtPrivate => is_crt_part(part),
        PairKey::EcPublic => is_domain_part(part) || is_public_point(part),
        PairKey::EcPrivate => is_domain_part(part) || is_private_number(part),
    }
}

// The size of a key whose data have this many bytes, if they are those of a key.
fn size_from(key: PairKey, length: u16) -> u16
    ensures { result ≡ size_from key length }
{
    match key {
        PairKey::RsaPublic | PairKey::RsaPrivate => length.saturating_sub(4) / 2,
        PairKey::RsaCrtPrivate => (length / 5).saturating_sub(2) * 2,
        PairKey::EcPublic => length.saturating_sub(19) / 8,
        PairKey::EcPrivate => length.saturating_sub(19) / 7,
    }
}

/// The size of a key whose data have this many bytes, if those of any key have.
pub fn size_of(key: PairKey, length: u16) -> Option<u16>
    ensures size { result ≡ size_of key length }
    ensures few { IfSome result (λ n. n ≤ MOST_SIZE) }
    ensures all { IfSome result (λ n. data_length key n ≡ length) }
{
    let size = size_from(key, length);
    if size <= MOST_SIZE as u16 && data_length(key, size) == length {
        Some(size)
    } else {
        None
    }
}

/// The class of the keys that have a part.
pub(crate) fn holder_of(part: KeyPart) -> PlatformClass
    ensures { result ≡ holder_of part }
{
    match part {
        KeyPart::Modulus | KeyPart::Exponent => PlatformClass::RsaKeyObject,
        KeyPart::P | KeyPart::Q | KeyPart::Pq | KeyPart::Dp1 | KeyPart::Dq1 =>
            PlatformClass::RsaPrivateCrtKeyObject,
        KeyPart::Field | KeyPart::A | KeyPart::B | KeyPart::G | KeyPart::R | KeyPart::K =>
            PlatformClass::EcKeyObject,
        KeyPart::W => PlatformClass::EcPublicKeyObject,
        KeyPart::S => PlatformClass::EcPrivateKeyObject,
    }
}
