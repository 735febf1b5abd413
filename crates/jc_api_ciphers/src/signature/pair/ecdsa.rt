//! ECDSA by the parts of a key on an elliptic curve.
ghost use Rattle.std.specs.Prelude.{◌≡◌, ◌≤◌, ◌<◌, false, true, length, take, IfSome};
ghost use Rattle.std.specs.Option.{option_map};
ghost use Rattle.jc_world.specs.Arrays.{IsInArray, bytes_in};
ghost use Rattle.jc_public_keys.specs.Ecdsa.{ecdsa_signature, is_ecdsa_signature};
ghost use Rattle.jc_api_ciphers.specs.Signature.Pair.Ecdsa.{IsShortCurve, curve_of, ecdsa_of, is_ecdsa_of, is_short_curve};
ghost use Rattle.jc_api_ciphers.specs.Signature.Pair.Parts.{AreEcParts};

use crate::signature::pair::parts::{EcParts, read_part};
use jc_curves::curves::{MOST_BYTES, Parameters};
use jc_memory::Memory;
use jc_public_keys::ecdsa::{MOST_SIGNATURE, is_signature, put_signature};
use jc_public_keys::random::MOST_SEED;
use jc_rsa::bytes::MOST_ENCODING;
use jc_words::WordStore;
use jc_world::Stretch;

// No number of the curve has more than 66 bytes.
fn is_short_curve(key: &EcParts) -> bool
    ensures short { result ≡ is_short_curve key.now }
    ensures few { result ≡ true → IsShortCurve key.now }
{
    usize::from(key.field.count) <= MOST_BYTES
        && usize::from(key.a.count) <= MOST_BYTES
        && usize::from(key.b.count) <= MOST_BYTES
        && usize::from(key.order.count) <= MOST_BYTES
}

// Writes the signature of a digest where no number is longer.
fn put_short<S: WordStore>(
    key: &EcParts,
    digest: &[u8],
    seed: &[u8],
    memory: &Memory<S>,
    to: &mut [u8],
) -> Option<usize>
    requires up { memory.now.heap.down ≡ false }
    requires key { AreEcParts memory.now key.now }
    requires short { IsShortCurve key.now }
    requires private { key.now.key.count ≤ MOST_BYTES }
    requires digest { length digest.now ≤ MOST_ENCODING }
    requires seed { length seed.now < MOST_SEED }
    requires room { MOST_SIGNATURE ≤ length to.old }
    ensures within { IfSome result (λ n. n ≤ MOST_SIGNATURE) }
    ensures signature { option_map (λ n. take n to.new) result
        ≡ ecdsa_signature (curve_of memory.now key.now) (bytes_in memory.now key.now.key) digest.now seed.now }
{
    let mut field_bytes = [0; MOST_BYTES];
    let field = read_part(key.field, memory, &mut field_bytes);
    let mut a_bytes = [0; MOST_BYTES];
    let a = read_part(key.a, memory, &mut a_bytes);
    let mut b_bytes = [0; MOST_BYTES];
    let b = read_part(key.b, memory, &mut b_bytes);
    let mut generator_bytes = [0; MOST_ENCODING];
    let generator = read_part(key.base, memory, &mut generator_bytes);
    let mut order_bytes = [0; MOST_BYTES];
    let order = read_part(key.order, memory, &mut order_bytes);
    let mut private_bytes = [0; MOST_BYTES];
    let private = read_part(key.key, memory, &mut private_bytes);
    let parameters = Parameters {
        field,
        a,
        b,
        generator,
        order,
        cofactor: 1,
    };
    put_signature(&parameters, private, digest, seed, to)
}

/// Writes the signature of a digest, and returns how many bytes it has, if there is one. The number that it is made with comes from a seed and the digest.
pub(crate) fn put_ecdsa<S: WordStore>(
    key: &EcParts,
    digest: &[u8],
    seed: &[u8],
    memory: &Memory<S>,
    to: &mut [u8],
) -> Option<usize>
    requires up { memory.now.heap.down ≡ false }
    requires key { AreEcParts memory.now key.now }
    requires digest { length digest.now ≤ MOST_ENCODING }
    requires seed { length seed.now < MOST_SEED }
    requires room { MOST_SIGNATURE ≤ length to.old }
    ensures within { IfSome result (λ n. n ≤ MOST_SIGNATURE) }
    ensures signature { option_map (λ n. take n to.new) result
        ≡ ecdsa_of memory.now key.now digest.now seed.now }
{
    if is_short_curve(key) && usize::from(key.key.count) <= MOST_BYTES {
        put_short(key, digest, seed, memory, to)
    } else {
        None
    }
}

// Elements are a signature of a digest where no number is longer.
fn is_short_signature<S: WordStore>(
    key: &EcParts,
    digest: &[u8],
    given: Stretch,
    memory: &Memory<S>,
) -> bool
    requires up { memory.now.heap.down ≡ false }
    requires key { AreEcParts memory.now key.now }
    requires short { IsShortCurve key.now }
    requires given { IsInArray memory.now given }
    requires few { given.count ≤ MOST_SIGNATURE }
    ensures { result
        ≡ is_ecdsa_signature (curve_of memory.now key.now) (bytes_in memory.now key.now.key) digest.now (bytes_in memory.now given) }
{
    let mut field_bytes = [0; MOST_BYTES];
    let field = read_part(key.field, memory, &mut field_bytes);
    let mut a_bytes = [0; MOST_BYTES];
    let a = read_part(key.a, memory, &mut a_bytes);
    let mut b_bytes = [0; MOST_BYTES];
    let b = read_part(key.b, memory, &mut b_bytes);
    let mut generator_bytes = [0; MOST_ENCODING];
    let generator = read_part(key.base, memory, &mut generator_bytes);
    let mut order_bytes = [0; MOST_BYTES];
    let order = read_part(key.order, memory, &mut order_bytes);
    let mut public_bytes = [0; MOST_ENCODING];
    let public = read_part(key.key, memory, &mut public_bytes);
    let mut signature_bytes = [0; MOST_SIGNATURE];
    let signature = read_part(given, memory, &mut signature_bytes);
    let parameters = Parameters {
        field,
        a,
        b,
        generator,
        order,
        cofactor: 1,
    };
    is_signature(&parameters, public, digest, signature)
}

/// Elements are a signature of a digest.
pub(crate) fn is_ecdsa<S: WordStore>(
    key: &EcParts,
    digest: &[u8],
    given: Stretch,
    memory: &Memory<S>,
) -> bool
    requires up { memory.now.heap.down ≡ false }
    requires key { AreEcParts memory.now key.now }
    requires given { IsInArray memory.now given }
    ensures { result ≡ is_ecdsa_of memory.now key.now digest.now given }
{
    if is_short_curve(key) && usize::from(given.count) <= MOST_SIGNATURE {
        is_short_signature(key, digest, given, memory)
    } else {
        false
    }
}
