//! Elliptic curves with a name: multiples, key agreement, signatures, and their encoding.

ghost use Rattle.std.specs.Prelude.{◌≤◌, length};

use crate::words::{bytes, bytes_of_all};
use jc_curves::agreement::agree;
use jc_curves::curves::{Curve, MOST_BYTES};
use jc_curves::der::{MOST_ENCODING, decode, encode};
use jc_curves::parameters::NamedCurve;
use jc_curves::points::{multiple, public_point};
use jc_curves::signatures::{sign, verify};
use std::alloc::{AllocError, Global};

/// How many bytes a point has at most.
const MOST_POINT: usize = 133;

/// The answer of a case. It is empty where no curve has the name, a number has more than 66 bytes, or the call refuses.
pub fn curve_case(alloc: Global, words: &[&str]) -> Result<String, AllocError> {
    match words {
        ["encode", _, _] => encoded(alloc, words[1], words[2]),
        ["decode", _] => decoded(alloc, words[1]),
        ["public", _, _] => public(alloc, words[1], words[2]),
        ["sign", _, rest @ ..] => signed(alloc, words[1], rest),
        ["verify", _, rest @ ..] => verified(alloc, words[1], rest),
        [_, _, _, _] => of_point(alloc, words[0], words[1], words[2], words[3]),
        _ => Ok(String::new(alloc)),
    }
}

fn named(name: &str) -> Option<NamedCurve> {
    match name {
        "secp192r1" => Some(NamedCurve::Secp192r1),
        "secp224r1" => Some(NamedCurve::Secp224r1),
        "secp256r1" => Some(NamedCurve::Secp256r1),
        "secp384r1" => Some(NamedCurve::Secp384r1),
        "secp521r1" => Some(NamedCurve::Secp521r1),
        "secp256k1" => Some(NamedCurve::Secp256k1),
        "brainpoolP192r1" => Some(NamedCurve::BrainpoolP192r1),
        "brainpoolP224r1" => Some(NamedCurve::BrainpoolP224r1),
        "brainpoolP256r1" => Some(NamedCurve::BrainpoolP256r1),
        "brainpoolP320r1" => Some(NamedCurve::BrainpoolP320r1),
        "brainpoolP384r1" => Some(NamedCurve::BrainpoolP384r1),
        "brainpoolP512r1" => Some(NamedCurve::BrainpoolP512r1),
        _ => None,
    }
}

fn curve(name: &str) -> Option<Curve> {
    match named(name) {
        Some(name) => Curve::new(&name.parameters()).ok(),
        None => None,
    }
}

fn public(alloc: Global, name: &str, private: &str) -> Result<String, AllocError> {
    let private = bytes(alloc, private)?;
    let Some(curve) = curve(name) else {
        return Ok(String::new(alloc));
    };
    if private.len() > MOST_BYTES {
        return Ok(String::new(alloc));
    }
    let mut to = [0; MOST_POINT];
    let to = &mut to[..1 + 2 * curve.field_length()];
    match public_point(&curve, private.as_slice(), to) {
        Ok(()) => hex::encode(alloc, &*to),
        Err(_) => Ok(String::new(alloc)),
    }
}

fn of_point(
    alloc: Global,
    kind: &str,
    name: &str,
    number: &str,
    point: &str,
) -> Result<String, AllocError> {
    let number = bytes(alloc, number)?;
    let point = bytes(alloc, point)?;
    let Some(curve) = curve(name) else {
        return Ok(String::new(alloc));
    };
    if number.len() > MOST_BYTES {
        return Ok(String::new(alloc));
    }
    if kind == "multiple" {
        multiple_of(alloc, &curve, number.as_slice(), point.as_slice())
    } else {
        agreed(alloc, &curve, number.as_slice(), point.as_slice())
    }
}

fn multiple_of(
    alloc: Global,
    curve: &Curve,
    number: &[u8],
    point: &[u8],
) -> Result<String, AllocError>
    requires { length number.now ≤ MOST_BYTES }
{
    let mut to = [0; MOST_POINT];
    let to = &mut to[..1 + 2 * curve.field_length()];
    match multiple(curve, number, point, to) {
        Ok(()) => hex::encode(alloc, &*to),
        Err(_) => Ok(String::new(alloc)),
    }
}

fn agreed(alloc: Global, curve: &Curve, number: &[u8], point: &[u8]) -> Result<String, AllocError>
    requires { length number.now ≤ MOST_BYTES }
{
    let mut to = [0; MOST_BYTES];
    let to = &mut to[..curve.field_length()];
    match agree(curve, number, point, to) {
        Ok(()) => hex::encode(alloc, &*to),
        Err(_) => Ok(String::new(alloc)),
    }
}

fn signed(alloc: Global, name: &str, words: &[&str]) -> Result<String, AllocError> {
    let parts = bytes_of_all(alloc, words)?;
    match curve(name) {
        Some(curve) => signature_of(alloc, &curve, parts.as_slice()),
        None => Ok(String::new(alloc)),
    }
}

// The signature under a private key, of a digest, by a nonce.
fn signature_of(alloc: Global, curve: &Curve, parts: &[Vec<u8>]) -> Result<String, AllocError> {
    if parts.len() != 3 || parts[0].len() > MOST_BYTES || parts[2].len() > MOST_BYTES {
        return Ok(String::new(alloc));
    }
    let size = curve.order_length();
    let mut to = [0; 2 * MOST_BYTES];
    let to = &mut to[..2 * size];
    let (r, s) = to.split_at_mut(size);
    let made = sign(
        curve,
        parts[0].as_slice(),
        parts[1].as_slice(),
        parts[2].as_slice(),
        r,
        s,
    );
    match made {
        Ok(()) => hex::encode(alloc, &*to),
        Err(_) => Ok(String::new(alloc)),
    }
}

fn verified(alloc: Global, name: &str, words: &[&str]) -> Result<String, AllocError> {
    let parts = bytes_of_all(alloc, words)?;
    match curve(name) {
        Some(curve) => is_verified(alloc, &curve, parts.as_slice()),
        None => Ok(String::new(alloc)),
    }
}

// Whether under a public key, of a digest, two numbers are the signature.
fn is_verified(alloc: Global, curve: &Curve, parts: &[Vec<u8>]) -> Result<String, AllocError> {
    if parts.len() != 4 || parts[2].len() > MOST_BYTES || parts[3].len() > MOST_BYTES {
        return Ok(String::new(alloc));
    }
    let holds = verify(
        curve,
        parts[0].as_slice(),
        parts[1].as_slice(),
        parts[2].as_slice(),
        parts[3].as_slice(),
    );
    String::from_str(alloc, if holds { "true" } else { "false" })
}

fn encoded(alloc: Global, r: &str, s: &str) -> Result<String, AllocError> {
    let r = bytes(alloc, r)?;
    let s = bytes(alloc, s)?;
    if r.len() > MOST_BYTES || s.len() > MOST_BYTES {
        return Ok(String::new(alloc));
    }
    let mut to = [0; MOST_ENCODING];
    let size = encode(r.as_slice(), s.as_slice(), &mut to);
    hex::encode(alloc, &to[..size])
}

fn decoded(alloc: Global, encoding: &str) -> Result<String, AllocError> {
    let encoding = bytes(alloc, encoding)?;
    match decode(encoding.as_slice()) {
        Some(numbers) => {
            let mut text = hex::encode(alloc, numbers.r)?;
            text.push_str("-")?;
            text.push_str(hex::encode(alloc, numbers.s)?.as_str())?;
            Ok(text)
        }
        None => Ok(String::new(alloc)),
    }
}
