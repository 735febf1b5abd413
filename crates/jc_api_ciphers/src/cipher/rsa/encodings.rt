//! What RSA as a cipher makes of a message before its power is taken, and the message in a power.
ghost use Rattle.std.specs.Prelude.{◌≡◌, ◌≤◌, length, take, if◌then◌else◌, IfSome, Some, None};
ghost use Rattle.std.specs.Option.{option_map};
ghost use Rattle.jc_public_keys.specs.RsaCiphers.{message_of};
ghost use Rattle.jc_api_ciphers.specs.Cipher.Rsa.Encodings.{message_in, private_form, public_form};

use crate::cipher::kinds::RsaPadding;
use crate::cipher::rsa::oaep::{put_oaep, put_oaep_message};
use jc_public_keys::random::MOST_SEED;
use jc_public_keys::rsa_ciphers::{CipherPadding, message_of, put_for_private, put_for_public};
use jc_rsa::bytes::MOST_ENCODING;

/// Writes the representative of a message for a public key. It returns false where the message has not as many bytes as it must.
pub(crate) fn put_public_form(
    padding: RsaPadding,
    message: &[u8],
    seed: &[u8],
    to: &mut [u8],
) -> bool
    requires seed { length seed.now ≤ MOST_SEED }
    requires few { length to.old ≤ MOST_ENCODING }
    ensures { (if result then Some to.new else None) ≡ public_form padding message.now seed.now (length to.old) }
{
    match padding {
        RsaPadding::NoPadding => put_for_public(CipherPadding::NoPadding, message, seed, to),
        RsaPadding::Pkcs1 => put_for_public(CipherPadding::Pkcs1, message, seed, to),
        RsaPadding::Oaep => put_oaep(message, seed, to),
    }
}

/// The same for a private key. With OAEP there is none.
pub(crate) fn put_private_form(padding: RsaPadding, message: &[u8], to: &mut [u8]) -> bool
    requires { length to.old ≤ MOST_ENCODING }
    ensures { (if result then Some to.new else None) ≡ private_form padding message.now (length to.old) }
{
    match padding {
        RsaPadding::NoPadding => put_for_private(CipherPadding::NoPadding, message, to),
        RsaPadding::Pkcs1 => put_for_private(CipherPadding::Pkcs1, message, to),
        RsaPadding::Oaep => false,
    }
}

// The message of a representative, which has no more bytes.
fn message_within(padding: CipherPadding, encoding: &[u8]) -> Option<&[u8]>
    ensures message { option_map (λ m. m.now) result ≡ message_of padding encoding.now }
    ensures within { IfSome result (λ m. length m.now ≤ length encoding.now) }
{
    message_of(padding, encoding)
}

// Writes the message of a representative, and returns how many bytes it has, if there is one.
fn put_message_of(padding: CipherPadding, encoding: &[u8], to: &mut [u8]) -> Option<usize>
    requires encoding { length encoding.now ≤ MOST_ENCODING }
    requires room { length to.old ≡ MOST_ENCODING }
    ensures message { option_map (λ n. take n to.new) result ≡ message_of padding encoding.now }
    ensures within { IfSome result (λ n. n ≤ MOST_ENCODING) }
{
    let Some(message) = message_within(padding, encoding) else {
        return None;
    };
    to[..message.len()].copy_from_slice(message);
    Some(message.len())
}

/// Writes the message of what is deciphered, and returns how many bytes it has, if there is one.
pub(crate) fn put_message_in(
    padding: RsaPadding,
    encoding: &mut [u8],
    to: &mut [u8],
) -> Option<usize>
    requires encoding { length encoding.old ≤ MOST_ENCODING }
    requires room { length to.old ≡ MOST_ENCODING }
    ensures message { option_map (λ n. take n to.new) result ≡ message_in padding encoding.old }
    ensures within { IfSome result (λ n. n ≤ MOST_ENCODING) }
{
    match padding {
        RsaPadding::NoPadding => put_message_of(CipherPadding::NoPadding, encoding, to),
        RsaPadding::Pkcs1 => put_message_of(CipherPadding::Pkcs1, encoding, to),
        RsaPadding::Oaep => put_oaep_message(encoding, to),
    }
}
