//! What RSA makes of a message representative under a key, as bytes.
ghost use Rattle.std.specs.Prelude.{◌≡◌, ◌≤◌, length, if◌then◌else◌, Some, None};
ghost use Rattle.jc_public_keys.specs.Rsa.{bytes_of_key, crt_power_of, power_of};
ghost use Rattle.jc_rsa.specs.Crt.{HasShortParts};

use jc_rsa::bytes::MOST_ENCODING;
use jc_rsa::crt::{CrtKey, crt_power};
use jc_rsa::power::power;

/// Writes the power of a message by an exponent, in as many bytes as the modulus has. It returns false where the modulus is even or not above
/// 1, or the message not below it.
pub fn put_power(modulus: &[u8], exponent: &[u8], message: &[u8], to: &mut [u8]) -> bool
    requires modulus { length modulus.now ≤ MOST_ENCODING }
    requires exponent { length exponent.now ≤ MOST_ENCODING }
    requires message { length message.now ≤ MOST_ENCODING }
    requires room { length to.old ≡ length modulus.now }
    ensures { (if result then Some to.new else None) ≡ power_of modulus.now exponent.now message.now }
{
    match power(modulus, exponent, message, to) {
        Ok(()) => true,
        Err(_) => false,
    }
}

/// Writes what a private key by its primes makes of a message, in as many bytes as there is room for. It returns false where a prime is even or
/// not above 1, where there is no room for their product, and where the message is not below that.
pub fn put_crt_power(key: &CrtKey, message: &[u8], to: &mut [u8]) -> bool
    requires key { HasShortParts key.now }
    requires message { length message.now ≤ MOST_ENCODING }
    requires room { length to.old ≤ MOST_ENCODING }
    ensures { (if result then Some to.new else None) ≡ crt_power_of (bytes_of_key key.now) message.now (length to.old) }
{
    match crt_power(key, message, to) {
        Ok(()) => true,
        Err(_) => false,
    }
}
