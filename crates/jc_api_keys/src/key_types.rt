//! Types of keys: what their keys are, what clears them, and how long they are (API specification, `KeyBuilder`).
ghost use Rattle.std.specs.Prelude.{◌≡◌, ◌≤◌, IfSome};
ghost use Rattle.jc_api_keys.specs.KeyParts.{most_size};
ghost use Rattle.jc_api_keys.specs.KeyTypes.{bits_of, capacity_named, ec_size_named, hmac_capacity, key_class, key_type_named, keys_for, pair_class, pair_key_named, pair_keys_for};
ghost use Rattle.jc_api_keys.specs.KeyTypes.{pair_type_named, rsa_size_named, secret_class, secret_type_named, size_named};

use crate::key_objects::contents::MOST_KEY;
use crate::key_parts::MOST_SIZE;
use jc_platform::names::PlatformClass;
use jc_transient::ClearEvent;
use jc_world::not_negative;

/// What a secret key is for.
#[derive(Clone, Copy)]
pub enum KeyAlgorithm {
    Des,
    Aes,
    Hmac,
}

/// What a key of a pair is.
#[derive(Clone, Copy)]
pub enum PairKey {
    RsaPublic,
    RsaPrivate,
    RsaCrtPrivate,
    EcPublic,
    EcPrivate,
}

/// What a key is.
#[derive(Clone, Copy)]
pub enum KeyKind {
    Secret(KeyAlgorithm),
    OfPair(PairKey),
}

/// A type of keys.
#[derive(Clone, Copy)]
pub struct KeyType {
    pub kind: KeyKind,
    /// What clears its keys, none of persistent ones.
    pub event: Option<ClearEvent>,
}

// Secret keys for an algorithm, cleared by an event, or persistent.
fn keys_for(algorithm: KeyAlgorithm, event: Option<ClearEvent>) -> Option<KeyType>
    ensures { result ≡ keys_for algorithm event }
{
    Some(KeyType {
        kind: KeyKind::Secret(algorithm),
        event,
    })
}

// Keys of pairs, cleared by an event, or persistent.
fn pair_keys_for(key: PairKey, event: Option<ClearEvent>) -> Option<KeyType>
    ensures { result ≡ pair_keys_for key event }
{
    Some(KeyType {
        kind: KeyKind::OfPair(key),
        event,
    })
}

// The type of secret keys of a number.
#[tactic(auto, unfolding(crate::specs::KeyTypes::secret_type_named))]
fn secret_type_named(number: i16) -> Option<KeyType>
    ensures { result ≡ secret_type_named number }
{
    if number == 1 {
        keys_for(KeyAlgorithm::Des, Some(ClearEvent::Reset))
    } else if number == 2 {
        keys_for(KeyAlgorithm::Des, Some(ClearEvent::Deselect))
    } else if number == 3 {
        keys_for(KeyAlgorithm::Des, None)
    } else if number == 13 {
        keys_for(KeyAlgorithm::Aes, Some(ClearEvent::Reset))
    } else if number == 14 {
        keys_for(KeyAlgorithm::Aes, Some(ClearEvent::Deselect))
    } else if number == 15 {
        keys_for(KeyAlgorithm::Aes, None)
    } else if number == 19 {
        keys_for(KeyAlgorithm::Hmac, Some(ClearEvent::Reset))
    } else if number == 20 {
        keys_for(KeyAlgorithm::Hmac, Some(ClearEvent::Deselect))
    } else if number == 21 {
        keys_for(KeyAlgorithm::Hmac, None)
    } else {
        None
    }
}

// The type of keys of pairs of a number.
#[tactic(auto, unfolding(crate::specs::KeyTypes::pair_type_named))]
fn pair_type_named(number: i16) -> Option<KeyType>
    ensures { result ≡ pair_type_named number }
{
    if number == 4 {
        pair_keys_for(PairKey::RsaPublic, None)
    } else if number == 5 {
        pair_keys_for(PairKey::RsaPrivate, None)
    } else if number == 6 {
        pair_keys_for(PairKey::RsaCrtPrivate, None)
    } else if number == 11 {
        pair_keys_for(PairKey::EcPublic, None)
    } else if number == 12 {
        pair_keys_for(PairKey::EcPrivate, None)
    } else if number == 22 {
        pair_keys_for(PairKey::RsaPrivate, Some(ClearEvent::Reset))
    } else if number == 23 {
        pair_keys_for(PairKey::RsaPrivate, Some(ClearEvent::Deselect))
    } else if number == 24 {
        pair_keys_for(PairKey::RsaCrtPrivate, Some(ClearEvent::Reset))
    } else if number == 25 {
        pair_keys_for(PairKey::RsaCrtPrivate, Some(ClearEvent::Deselect))
    } else if number == 30 {
        pair_keys_for(PairKey::EcPrivate, Some(ClearEvent::Reset))
    } else if number == 31 {
        pair_keys_for(PairKey::EcPrivate, Some(ClearEvent::Deselect))
    } else {
        None
    }
}

/// The type of a number.
#[tactic(auto, unfolding(crate::specs::KeyTypes::key_type_named))]
pub fn key_type_named(number: i16) -> Option<KeyType>
    ensures { result ≡ key_type_named number }
{
    match secret_type_named(number) {
        Some(named) => Some(named),
        None => pair_type_named(number),
    }
}

/// What the keys of the type of a number are, if they are of a pair.
pub fn pair_key_named(number: i16) -> Option<PairKey>
    ensures { result ≡ pair_key_named number }
{
    match key_type_named(number)?.kind {
        KeyKind::Secret(_) => None,
        KeyKind::OfPair(key) => Some(key),
    }
}

// The class of secret keys for an algorithm.
fn secret_class(algorithm: KeyAlgorithm) -> PlatformClass
    ensures { result ≡ secret_class algorithm }
{
    match algorithm {
        KeyAlgorithm::Des => PlatformClass::DesKeyObject,
        KeyAlgorithm::Aes => PlatformClass::AesKeyObject,
        KeyAlgorithm::Hmac => PlatformClass::HmacKeyObject,
    }
}

// The class of keys of pairs.
fn pair_class(key: PairKey) -> PlatformClass
    ensures { result ≡ pair_class key }
{
    match key {
        PairKey::RsaPublic => PlatformClass::RsaPublicKeyObject,
        PairKey::RsaPrivate => PlatformClass::RsaPrivateKeyObject,
        PairKey::RsaCrtPrivate => PlatformClass::RsaPrivateCrtKeyObject,
        PairKey::EcPublic => PlatformClass::EcPublicKeyObject,
        PairKey::EcPrivate => PlatformClass::EcPrivateKeyObject,
    }
}

/// The class of keys.
pub(crate) fn key_class(kind: KeyKind) -> PlatformClass
    ensures { result ≡ key_class kind }
{
    match kind {
        KeyKind::Secret(algorithm) => secret_class(algorithm),
        KeyKind::OfPair(key) => pair_class(key),
    }
}

// How many bytes an HMAC key of a length has at most.
fn hmac_capacity(length: u16) -> Option<u16>
    ensures capacity { result ≡ hmac_capacity length }
    ensures few { IfSome result (λ n. n ≤ MOST_KEY) }
{
    if length == 64 {
        Some(64)
    } else if length == 128 {
        Some(128)
    } else if 128 < length && length <= 1024 && length % 8 == 0 {
        Some(length / 8)
    } else {
        None
    }
}

/// How many bytes a secret key of a length has at most.
pub(crate) fn capacity_named(algorithm: KeyAlgorithm, length: i16) -> Option<u16>
    ensures capacity { result ≡ capacity_named algorithm length }
    ensures few { IfSome result (λ n. n ≤ MOST_KEY) }
{
    match algorithm {
        KeyAlgorithm::Des => match length {
            64 => Some(8),
            128 => Some(16),
            192 => Some(24),
            _ => None,
        },
        KeyAlgorithm::Aes => match length {
            128 => Some(16),
            192 => Some(24),
            256 => Some(32),
            _ => None,
        },
        KeyAlgorithm::Hmac => hmac_capacity(not_negative(length)?),
    }
}

// How many bytes the size of an RSA key of a length has.
fn rsa_size_named(length: i16) -> Option<u16>
    ensures size { result ≡ rsa_size_named length }
    ensures few { IfSome result (λ n. n ≤ MOST_SIZE) }
{
    match length {
        512 => Some(64),
        736 => Some(92),
        768 => Some(96),
        896 => Some(112),
        1024 => Some(128),
        1280 => Some(160),
        1536 => Some(192),
        1984 => Some(248),
        2048 => Some(256),
        3072 => Some(384),
        4096 => Some(512),
        _ => None,
    }
}

// How many bytes the size of a key on an elliptic curve of a length has.
fn ec_size_named(length: i16) -> Option<u16>
    ensures size { result ≡ ec_size_named length }
    ensures few { IfSome result (λ n. n ≤ MOST_SIZE) }
{
    match length {
        112 => Some(14),
        128 => Some(16),
        160 => Some(20),
        192 => Some(24),
        224 => Some(28),
        256 => Some(32),
        384 => Some(48),
        521 => Some(66),
        _ => None,
    }
}

/// How many bytes the size of a key of a pair has, by its length in bits.
pub fn size_named(key: PairKey, length: i16) -> Option<u16>
    ensures size { result ≡ size_named key length }
    ensures few { IfSome result (λ n. n ≤ MOST_SIZE) }
{
    match key {
        PairKey::RsaPublic => rsa_size_named(length),
        PairKey::RsaPrivate => rsa_size_named(length),
        PairKey::RsaCrtPrivate => rsa_size_named(length),
        PairKey::EcPublic => ec_size_named(length),
        PairKey::EcPrivate => ec_size_named(length),
    }
}

/// The length in bits of a key of a pair whose size has this many bytes.
pub(crate) fn bits_of(size: u16) -> u16
    requires few { size ≤ most_size }
    ensures bits { result ≡ bits_of size }
    ensures few { result ≤ 4096 }
{
    if size == 66 { 521 } else { 8 * size }
}
