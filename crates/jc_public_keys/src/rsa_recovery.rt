//! Messages as they are encoded to be signed by RSA so that their first bytes can be recovered (ISO/IEC 9796-2, scheme 1, with the trailer BC).
ghost use Rattle.std.specs.Prelude.{◌≡◌, ◌≤◌, ◌+◌, length};
ghost use Rattle.jc_public_keys.specs.RsaRecovery.{is_recovery_encoding, recovery_encoding};

use jc_rsa::bytes::MOST_ENCODING;
use jc_rsa::iso_9796::{Trailer, capacity, encode};

/// How many bytes an encoding has beside those that can be recovered and the digest.
pub const LEAST_OVERHEAD: usize = 2;

/// Writes the encoding of a message by its digest and all or at least as many of its first bytes as the encoding has.
pub fn put_recovery_encoding(first: &[u8], digest: &[u8], to: &mut [u8])
    requires room { length digest.now + LEAST_OVERHEAD ≤ length to.old }
    ensures { to.new ≡ recovery_encoding first.now digest.now (length to.old) }
{
    let most = capacity(digest.len(), Trailer::Implicit, to.len());
    let more = first.len() > most;
    let recoverable = &first[..most.min(first.len())];
    encode(more, recoverable, digest, Trailer::Implicit, to);
}

/// Reports whether bytes are that encoding.
pub fn is_recovery_encoding(first: &[u8], digest: &[u8], encoding: &[u8]) -> bool
    requires { length encoding.now ≤ MOST_ENCODING }
    ensures { result ≡ is_recovery_encoding first.now digest.now encoding.now }
{
    if encoding.len() < digest.len() + LEAST_OVERHEAD {
        return false;
    }
    let mut buffer = [0; MOST_ENCODING];
    let expected = &mut buffer[..encoding.len()];
    put_recovery_encoding(first, digest, expected);
    encoding == &*expected
}
