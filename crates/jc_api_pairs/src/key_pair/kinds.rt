//! What the keys of a pair are.
ghost use Rattle.std.specs.Prelude.{◌≡◌, ◌≤◌, IfSome};
ghost use Rattle.jc_api_keys.specs.KeyTypes.{pair_key_named};
ghost use Rattle.jc_api_pairs.specs.KeyPair.Kinds.{key_size, kind_if, kind_named, kind_of_keys, kind_with, kind_with_curve, kind_with_rsa, private_type, public_type};

use jc_api_keys::key_objects::contents::Key;
use jc_api_keys::key_parts::{MOST_SIZE, size_of};
use jc_api_keys::key_types::{PairKey, pair_key_named};

/// What a private key of RSA has.
#[derive(Clone, Copy)]
pub enum PrivateForm {
    /// The modulus and the private exponent.
    Exponent,
    /// The primes, and what is computed of them.
    Primes,
}

/// A kind of pairs.
#[derive(Clone, Copy)]
pub enum PairKind {
    Rsa(PrivateForm),
    /// Both keys are on a curve.
    Curve,
}

/// The kind of pairs of an algorithm's number.
pub(crate) fn kind_named(number: i16) -> Option<PairKind>
    ensures { result ≡ kind_named number }
{
    if number == 1 {
        Some(PairKind::Rsa(PrivateForm::Exponent))
    } else if number == 2 {
        Some(PairKind::Rsa(PrivateForm::Primes))
    } else if number == 5 {
        Some(PairKind::Curve)
    } else {
        None
    }
}

/// The number of the type of their public keys.
pub(crate) fn public_type(kind: PairKind) -> i16
    ensures { result ≡ public_type kind }
{
    match kind {
        PairKind::Rsa(_) => 4,
        PairKind::Curve => 11,
    }
}

/// The number of the type of their persistent private keys.
pub(crate) fn private_type(kind: PairKind) -> i16
    ensures { result ≡ private_type kind }
{
    match kind {
        PairKind::Rsa(PrivateForm::Exponent) => 5,
        PairKind::Rsa(PrivateForm::Primes) => 6,
        PairKind::Curve => 12,
    }
}

// The kind of a pair with a public key of RSA, by the private one.
fn kind_with_rsa(private: Option<PairKey>) -> Option<PairKind>
    ensures { result ≡ kind_with_rsa private }
{
    match private {
        Some(PairKey::RsaPrivate) => Some(PairKind::Rsa(PrivateForm::Exponent)),
        Some(PairKey::RsaCrtPrivate) => Some(PairKind::Rsa(PrivateForm::Primes)),
        _ => None,
    }
}

// The kind of a pair with a public key on a curve, by the private one.
fn kind_with_curve(private: Option<PairKey>) -> Option<PairKind>
    ensures { result ≡ kind_with_curve private }
{
    match private {
        Some(PairKey::EcPrivate) => Some(PairKind::Curve),
        _ => None,
    }
}

// The kind of a pair by what both keys are.
fn kind_with(public: Option<PairKey>, private: Option<PairKey>) -> Option<PairKind>
    ensures { result ≡ kind_with public private }
{
    match public {
        Some(PairKey::RsaPublic) => kind_with_rsa(private),
        Some(PairKey::EcPublic) => kind_with_curve(private),
        _ => None,
    }
}

/// How many bytes the size of a key of a pair has.
pub(crate) fn key_size(key: &Key) -> Option<u16>
    ensures size { result ≡ key_size key.now }
    ensures few { IfSome result (λ n. n ≤ MOST_SIZE) }
{
    size_of(pair_key_named(key.number)?, key.elements.count)
}

// The kind of a pair, where both keys have a size, and it is the same.
fn kind_if(public: Option<u16>, private: Option<u16>, kind: Option<PairKind>) -> Option<PairKind>
    ensures { result ≡ kind_if public private kind }
{
    match (public, private) {
        (Some(size), Some(other)) if size == other => kind,
        _ => None,
    }
}

/// The kind of pair that a public and a private key of one size are.
pub(crate) fn kind_of_keys(public: &Key, private: &Key) -> Option<PairKind>
    ensures { result ≡ kind_of_keys public.now private.now }
{
    kind_if(
        key_size(public),
        key_size(private),
        kind_with(
            pair_key_named(public.number),
            pair_key_named(private.number),
        ),
    )
}
