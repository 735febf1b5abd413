//! Secrets that two parties share by points of an elliptic curve (SEC 1, 3.3), as functions of bytes.
ghost use Rattle.std.specs.Prelude.{◌≡◌, ◌≤◌, None, Some, if◌then◌else◌, length};
ghost use Rattle.jc_curves.specs.Curves.{AreShort};
ghost use Rattle.jc_public_keys.specs.CurveBytes.{bytes_of};
ghost use Rattle.jc_public_keys.specs.SharedSecrets.{secret_x};

use crate::curves::curve_of;
use jc_curves::agreement::agree_by_cofactor;
use jc_curves::curves::Parameters;

/// Writes the x of the multiple of a public key by a private key and the curve's cofactor (SEC 1, 3.3.2; with the cofactor 1 that of 3.3.1), in as
/// many bytes as p is given by. It returns false where there is none.
pub fn put_x(parameters: &Parameters, private: &[u8], public: &[u8], to: &mut [u8]) -> bool
    requires short { AreShort parameters.now }
    requires private { length private.now ≤ 66 }
    requires room { length to.old ≡ length parameters.now.field.now }
    ensures { (if result then Some to.new else None)
        ≡ secret_x (bytes_of parameters.now) private.now parameters.now.cofactor public.now }
{
    let Some(curve) = curve_of(parameters) else {
        return false;
    };
    match agree_by_cofactor(&curve, private, public, to) {
        Ok(()) => true,
        Err(_) => false,
    }
}
