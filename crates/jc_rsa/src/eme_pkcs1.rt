//! EME-PKCS1-v1_5 (RFC 8017, 7.2).

ghost use Rattle.std.specs.Prelude.{◌≡◌, ◌≤◌, ◌+◌, ℕ, List, MatchOption, length};
ghost use Rattle.jc_rsa.specs.EmePkcs1.{AreNonzero, IsEncryptionBlock, encryption_block};

use crate::bytes::{first_zero, put};

/// The fewest bytes of an encoding beside its message: three that are fixed, and eight of padding.
pub const LEAST_OVERHEAD: usize = 11;

/// Writes the encoding of a message with this padding, which is random bytes: 00 02, the padding, 00, and the message.
pub fn encode(message: &[u8], padding: &[u8], to: &mut [u8])
    requires room { 3 + length padding.now + length message.now ≡ length to.old }
    requires long { 8 ≤ length padding.now }
    requires nonzero { AreNonzero padding.now }
    ensures { to.new ≡ encryption_block padding.now message.now }
{
    let start = put(to, 0, &[0x00, 0x02]);
    let end = put(to, start, padding);
    let after = put(to, end, &[0x00]);
    put(to, after, message);
}

/// Returns the message of an encoding, or nothing where it is no encoding.
pub fn decode(encoding: &[u8]) -> Option<&[u8]>
    ensures { MatchOption result ((message : List ℕ) → ¬ (IsEncryptionBlock message encoding.now))
        (λ message. IsEncryptionBlock message.now encoding.now) }
{
    if encoding.len() < LEAST_OVERHEAD || encoding[0] != 0x00 || encoding[1] != 0x02 {
        return None;
    }
    let Some(end) = first_zero(encoding, 2) else {
        return None;
    };
    if end + 1 < LEAST_OVERHEAD {
        return None;
    }
    Some(&encoding[end + 1..])
}
