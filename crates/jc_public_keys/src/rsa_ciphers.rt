//! Messages as they are encoded to be enciphered by RSA.
ghost use Rattle.std.specs.Prelude.{◌≡◌, ◌≤◌, ◌+◌, ◌-◌, ◌%◌, drop, length, map, if◌then◌else◌, IfSome, Some, None};
ghost use Rattle.std.specs.Option.{option_map};
ghost use Rattle.jc_rsa.specs.EmePkcs1.{AreNonzero, encryption_block};
ghost use Rattle.jc_public_keys.specs.RsaCiphers.{message_of, nonzero_bytes, pkcs1_message, private_representative, public_representative};

use crate::random::{MOST_SEED, put_random};
use jc_rsa::bytes::MOST_ENCODING;
use jc_rsa::{eme_pkcs1, emsa_pkcs1};

/// How a message is encoded.
#[derive(Clone, Copy)]
pub enum CipherPadding {
    /// Not at all: it has as many bytes as the modulus.
    NoPadding,
    /// EME-PKCS1-v1_5, and for a private key the form of EMSA-PKCS1-v1_5.
    Pkcs1,
}

// Makes bytes that are not zero of any.
fn without_zeros(to: &mut [u8])
    ensures bytes { to.new ≡ map (λ b. b % 255 + 1) to.old }
    ensures nonzero { AreNonzero to.new }
{
    'bytes: for i in 0..to.len() {
        to[i] = to[i] % 255 + 1;
    }
}

// Writes random bytes that are not zero.
fn put_nonzero(seed: &[u8], message: &[u8], to: &mut [u8])
    requires seed { length seed.now ≤ MOST_SEED }
    requires message { length message.now ≤ MOST_ENCODING }
    requires few { length to.old ≤ MOST_ENCODING }
    ensures bytes { to.new ≡ nonzero_bytes seed.now message.now (length to.old) }
    ensures nonzero { AreNonzero to.new }
{
    put_random(seed, message, to);
    without_zeros(to);
}

// Writes a message after a padding of random bytes.
fn put_padded(message: &[u8], seed: &[u8], to: &mut [u8])
    requires seed { length seed.now ≤ MOST_SEED }
    requires few { length to.old ≤ MOST_ENCODING }
    requires room { length message.now + 11 ≤ length to.old }
    ensures { to.new ≡ encryption_block (nonzero_bytes seed.now message.now (length to.old - length message.now - 3)) message.now }
{
    let mut buffer = [0; MOST_ENCODING];
    let padding = &mut buffer[..to.len() - message.len() - 3];
    put_nonzero(seed, message, padding);
    eme_pkcs1::encode(message, padding, to);
}

/// Writes the representative of a message for a public key; a padding is random bytes of the seed and the message. It returns false where the
/// message has not as many bytes as it must.
pub fn put_for_public(padding: CipherPadding, message: &[u8], seed: &[u8], to: &mut [u8]) -> bool
    requires seed { length seed.now ≤ MOST_SEED }
    requires few { length to.old ≤ MOST_ENCODING }
    ensures { (if result then Some to.new else None) ≡ public_representative padding message.now seed.now (length to.old) }
{
    match padding {
        CipherPadding::NoPadding => {
            if message.len() != to.len() {
                return false;
            }
            to.copy_from_slice(message);
            true
        }
        CipherPadding::Pkcs1 => {
            if to.len() < eme_pkcs1::LEAST_OVERHEAD
                || to.len() - eme_pkcs1::LEAST_OVERHEAD < message.len()
            {
                return false;
            }
            put_padded(message, seed, to);
            true
        }
    }
}

/// Writes the representative of a message for a private key. It returns false where the message has not as many bytes as it must.
pub fn put_for_private(padding: CipherPadding, message: &[u8], to: &mut [u8]) -> bool
    requires few { length to.old ≤ MOST_ENCODING }
    ensures { (if result then Some to.new else None) ≡ private_representative padding message.now (length to.old) }
{
    match padding {
        CipherPadding::NoPadding => {
            if message.len() != to.len() {
                return false;
            }
            to.copy_from_slice(message);
            true
        }
        CipherPadding::Pkcs1 => {
            if to.len() < emsa_pkcs1::LEAST_OVERHEAD
                || to.len() - emsa_pkcs1::LEAST_OVERHEAD < message.len()
            {
                return false;
            }
            emsa_pkcs1::encode_data(message, to);
            true
        }
    }
}

// The message that EME-PKCS1-v1_5 encodes.
fn pkcs1_message(encoding: &[u8]) -> Option<&[u8]>
    ensures { option_map (λ m. m.now) result ≡ pkcs1_message encoding.now }
{
    eme_pkcs1::decode(encoding)
}

/// The message of a representative under a private key, or nothing where it is the representative of none.
pub fn message_of(padding: CipherPadding, encoding: &[u8]) -> Option<&[u8]>
    ensures { option_map (λ m. m.now) result ≡ message_of padding encoding.now }
{
    match padding {
        CipherPadding::NoPadding => Some(encoding),
        CipherPadding::Pkcs1 => pkcs1_message(encoding),
    }
}
