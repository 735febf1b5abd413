//! RSAES-OAEP over SHA-1, with an empty label (RFC 8017, 7.1).
ghost use Rattle.std.specs.Prelude.{◌≡◌, ◌≤◌, drop, length, take, if◌then◌else◌, IfSome, Some, None};
ghost use Rattle.std.specs.Option.{option_map};
ghost use Rattle.jc_api_ciphers.specs.Cipher.Rsa.Oaep.{oaep_message, oaep_representative};

use jc_digests::kept::HashAlgorithm;
use jc_public_keys::random::{MOST_SEED, put_random};
use jc_rsa::bytes::MOST_ENCODING;
use jc_rsa::eme_oaep::{decode, encode};

// How many bytes a seed of an encoding has.
const SEED: usize = 20;

// The fewest bytes of an encoding beside its message.
const LEAST_OVERHEAD: usize = 42;

/// Writes the representative of a message. It returns false where the message is too long.
pub(crate) fn put_oaep(message: &[u8], seed: &[u8], to: &mut [u8]) -> bool
    requires seed { length seed.now ≤ MOST_SEED }
    requires few { length to.old ≤ MOST_ENCODING }
    ensures { (if result then Some to.new else None) ≡ oaep_representative message.now seed.now (length to.old) }
{
    if to.len() < LEAST_OVERHEAD || to.len() - LEAST_OVERHEAD < message.len() {
        return false;
    }
    let mut random = [0; SEED];
    put_random(seed, message, &mut random);
    encode(HashAlgorithm::Sha1, message, &random, to);
    true
}

// Takes the masks off an encoding, and returns the place where its message begins, if it is one.
fn message_place(encoding: &mut [u8]) -> Option<usize>
    requires { length encoding.old ≤ MOST_ENCODING }
    ensures { option_map (λ start. drop start encoding.new) result ≡ oaep_message encoding.old }
{
    decode(HashAlgorithm::Sha1, encoding)
}

/// Writes the message of an encoding, and returns how many bytes it has, if it is one.
pub(crate) fn put_oaep_message(encoding: &mut [u8], to: &mut [u8]) -> Option<usize>
    requires encoding { length encoding.old ≤ MOST_ENCODING }
    requires room { length to.old ≡ MOST_ENCODING }
    ensures message { option_map (λ n. take n to.new) result ≡ oaep_message encoding.old }
    ensures within { IfSome result (λ n. n ≤ MOST_ENCODING) }
{
    let Some(start) = message_place(encoding) else {
        return None;
    };
    let message = &encoding[start.min(encoding.len())..];
    to[..message.len()].copy_from_slice(message);
    Some(message.len())
}
