//! RSAEP, RSADP, RSASP1 and RSAVP1 with a modulus and an exponent (RFC 8017, 5.1 and 5.2).

ghost use Rattle.std.specs.Prelude.{◌≡◌, ◌≤◌, length};
ghost use Rattle.jc_rsa.specs.Power.{PowerGives};

use crate::bytes::MOST_ENCODING;
use crate::numbers::{is_below, modulus_of, put_power};
use jc_numbers::bytes::to_bytes;
use jc_numbers::moduli::MOST_LIMBS;

/// Why a message has no power.
#[derive(Clone, Copy)]
pub enum PowerError {
    /// A modulus is even or not above 1, or the product of two does not fit the room.
    ModulusNotUsable,
    /// The message is not below the modulus.
    MessageOutOfRange,
}

/// Writes the power of a message by an exponent modulo a modulus, in as many bytes as the modulus has. All are numbers, the
/// highest byte first. After an error the bytes are as they were.
pub fn power(
    modulus: &[u8],
    exponent: &[u8],
    message: &[u8],
    to: &mut [u8],
) -> Result<(), PowerError>
    requires modulus { length modulus.now ≤ MOST_ENCODING }
    requires exponent { length exponent.now ≤ MOST_ENCODING }
    requires message { length message.now ≤ MOST_ENCODING }
    requires room { length to.old ≡ length modulus.now }
    ensures { PowerGives modulus.now exponent.now message.now to.old to.new result }
{
    let Some(usable) = modulus_of(modulus) else {
        return Err(PowerError::ModulusNotUsable);
    };
    if !is_below(message, usable.limbs()) {
        return Err(PowerError::MessageOutOfRange);
    }
    let mut buffer = [0; MOST_LIMBS];
    let limbs = &mut buffer[..usable.limbs().len()];
    put_power(limbs, &usable, message, exponent);
    to_bytes(to, limbs);
    Ok(())
}
