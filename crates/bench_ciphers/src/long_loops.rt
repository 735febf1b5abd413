//! Loops of long numbers, each over the result of the one before.

use jc_curves::curves::Curve;
use jc_curves::parameters::NamedCurve;
use jc_curves::signatures::sign;
use jc_rsa::crt::{CrtKey, crt_power};
use jc_rsa::power::power;

// A number of 1,024 bits, odd, which takes the place of a prime.
const ODD: [u8; 128] = [0xb5; 128];

// Another one.
const OTHER_ODD: [u8; 128] = [0xe9; 128];

// What takes the place of an inverse.
const THREES: [u8; 128] = [3; 128];

/// The last eight bytes of a loop.
pub fn timed(name: &str, count: u32) -> [u8; 8] {
    match name {
        "p256-sign" => p256_sign(count),
        "rsa-2048-crt" => rsa_crt(count),
        "rsa-2048-public" => rsa_public(count),
        _ => [0; 8],
    }
}

#[inline(never)]
fn p256_sign(count: u32) -> [u8; 8] {
    let Ok(curve) = Curve::new(&NamedCurve::Secp256r1.parameters()) else {
        return [0; 8];
    };
    let mut r = [1; 66];
    let mut s = [1; 66];
    let size = curve.order_length();
    for _signature in 0..count {
        let private = [0x11; 32];
        let digest = r;
        let mut nonce = [0x33; 32];
        nonce[31] = s[0];
        let signed = sign(
            &curve,
            &private,
            &digest,
            &nonce,
            &mut r[..size],
            &mut s[..size],
        );
        if signed.is_err() {
            return [0; 8];
        }
    }
    [r[0], r[1], r[2], r[3], s[0], s[1], s[2], s[3]]
}

#[inline(never)]
fn rsa_crt(count: u32) -> [u8; 8] {
    let key = CrtKey {
        p: &ODD,
        q: &OTHER_ODD,
        dp: &OTHER_ODD,
        dq: &ODD,
        q_inverse: &THREES,
    };
    let mut message = [7; 256];
    for _power in 0..count {
        let before = message;
        if crt_power(&key, &before, &mut message).is_err() {
            return [0; 8];
        }
    }
    first(&message)
}

#[inline(never)]
fn rsa_public(count: u32) -> [u8; 8] {
    let modulus = [0xa7; 256];
    let mut message = [7; 256];
    for _power in 0..count {
        let before = message;
        if power(&modulus, &[1, 0, 1], &before, &mut message).is_err() {
            return [0; 8];
        }
    }
    first(&message)
}

fn first(bytes: &[u8; 256]) -> [u8; 8] {
    [
        bytes[0], bytes[1], bytes[2], bytes[3], bytes[4], bytes[5], bytes[6], bytes[7],
    ]
}
