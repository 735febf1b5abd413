//! Powers with RSA keys, probable primes, and key pairs.

ghost use Rattle.std.specs.Prelude.{◌≡◌, ◌≤◌, length};

use crate::words::{bytes, bytes_of_all};
use jc_public_keys::rsa_keys::{MOST_PARTS, put_rsa_pair};
use jc_rsa::crt::{CrtKey, crt_power};
use jc_rsa::key_pair::{FEWEST_OF_PRIME, MOST_OF_PRIME, SEED};
use jc_rsa::power::{PowerError, power};
use jc_rsa::primes::is_probable_prime;
use std::alloc::{AllocError, Global};

/// A power with a modulus and an exponent, or why there is none.
pub fn rsa_power(
    alloc: Global,
    modulus: &str,
    exponent: &str,
    message: &str,
) -> Result<String, AllocError> {
    let modulus = bytes(alloc, modulus)?;
    let exponent = bytes(alloc, exponent)?;
    let message = bytes(alloc, message)?;
    if modulus.len() > 512 || exponent.len() > 512 || message.len() > 512 {
        return Ok(String::new(alloc));
    }
    let mut to = [0; 512];
    let to = &mut to[..modulus.len()];
    match power(
        modulus.as_slice(),
        exponent.as_slice(),
        message.as_slice(),
        to,
    ) {
        Ok(()) => hex::encode(alloc, &*to),
        Err(error) => name_of(alloc, error),
    }
}

fn name_of(alloc: Global, error: PowerError) -> Result<String, AllocError> {
    match error {
        PowerError::ModulusNotUsable => String::from_str(alloc, "modulus"),
        PowerError::MessageOutOfRange => String::from_str(alloc, "message"),
    }
}

/// What a key of p, q, dP, dQ and qInv makes of a message, in as many bytes as p and q have, or why it makes nothing.
pub fn rsa_crt(alloc: Global, words: &[&str]) -> Result<String, AllocError> {
    let numbers = bytes_of_all(alloc, words)?;
    crt_of(alloc, numbers.as_slice())
}

fn crt_of(alloc: Global, numbers: &[Vec<u8>]) -> Result<String, AllocError> {
    if numbers.len() != 6 {
        return Ok(String::new(alloc));
    }
    let key = CrtKey {
        p: numbers[0].as_slice(),
        q: numbers[1].as_slice(),
        dp: numbers[2].as_slice(),
        dq: numbers[3].as_slice(),
        q_inverse: numbers[4].as_slice(),
    };
    power_of_key(alloc, &key, numbers[5].as_slice())
}

fn power_of_key(alloc: Global, key: &CrtKey<'_>, message: &[u8]) -> Result<String, AllocError> {
    if key.p.len() > 256 || key.q.len() > 256 || key.dp.len() > 512 || key.dq.len() > 512 {
        return Ok(String::new(alloc));
    }
    if key.q_inverse.len() > 512 || message.len() > 512 {
        return Ok(String::new(alloc));
    }
    let mut to = [0; 512];
    let to = &mut to[..key.p.len() + key.q.len()];
    match crt_power(key, message, to) {
        Ok(()) => hex::encode(alloc, &*to),
        Err(error) => name_of(alloc, error),
    }
}

/// Whether a number is probably a prime: `1` or `0`.
pub fn rsa_prime(alloc: Global, candidate: &str, bases: &str) -> Result<String, AllocError> {
    let candidate = bytes(alloc, candidate)?;
    let bases = bytes(alloc, bases)?;
    if candidate.len() > 512 {
        return Ok(String::new(alloc));
    }
    let probable = is_probable_prime(candidate.as_slice(), bases.as_slice());
    String::from_str(alloc, if probable { "1" } else { "0" })
}

/// The parts of a key pair of a seed, with spaces between, where a prime has this many bytes.
pub fn rsa_key(
    alloc: Global,
    seed: &str,
    exponent: &str,
    size: &str,
) -> Result<String, AllocError> {
    let seed = bytes(alloc, seed)?;
    let exponent = bytes(alloc, exponent)?;
    let size = usize::from(size.parse::<u16>().unwrap_or(0));
    let Ok(seed) = <&[u8; SEED]>::try_from(seed.as_slice()) else {
        return Ok(String::new(alloc));
    };
    if exponent.len() > 512 || size < FEWEST_OF_PRIME || size > MOST_OF_PRIME {
        return Ok(String::new(alloc));
    }
    key_of(alloc, seed, exponent.as_slice(), size)
}

fn key_of(
    alloc: Global,
    seed: &[u8; SEED],
    exponent: &[u8],
    size: usize,
) -> Result<String, AllocError>
    requires exponent { length exponent.now ≤ 512 }
    requires some { 32 ≤ size }
    requires few { size ≤ 256 }
{
    let mut room = [0; MOST_PARTS];
    let parts = &mut room[..9 * size];
    if !put_rsa_pair(seed, exponent, size, parts) {
        return String::from_str(alloc, "none");
    }
    let (primes, whole) = parts.split_at(5 * size);
    text_of(
        alloc,
        &[
            &primes[..size],
            &primes[size..2 * size],
            &primes[2 * size..3 * size],
            &primes[3 * size..4 * size],
            &primes[4 * size..],
            &whole[..2 * size],
            &whole[2 * size..],
        ],
    )
}

// Parts with spaces between.
fn text_of(alloc: Global, parts: &[&[u8]]) -> Result<String, AllocError> {
    let mut text = String::new(alloc);
    for part in parts {
        push_part(alloc, &mut text, part)?;
    }
    Ok(text)
}

fn push_part(alloc: Global, text: &mut String, part: &[u8]) -> Result<(), AllocError> {
    if !text.is_empty() {
        text.push(' ')?;
    }
    text.push_str(&hex::encode(alloc, part)?)
}
