//! The parts of keys of pairs, as signatures read them.
ghost use Rattle.std.specs.Prelude.{◌≡◌, ◌≤◌, false, length, if◌then◌else◌, Some, None};
ghost use Rattle.jc_world.specs.Arrays.{IsInArray, bytes_in};
ghost use Rattle.jc_api_ciphers.specs.Signature.Pair.Parts.{ArePrimes, AreRsaParts, crt_power, power};

use jc_api_keys::receivers::read;
use jc_memory::Memory;
use jc_public_keys::rsa::{put_crt_power, put_power};
use jc_rsa::bytes::MOST_ENCODING;
use jc_rsa::crt::CrtKey;
use jc_words::WordStore;
use jc_world::Stretch;

/// The modulus and the exponent of an RSA key.
#[derive(Clone, Copy)]
pub struct RsaParts {
    pub modulus: Stretch,
    pub exponent: Stretch,
}

/// The primes of an RSA key, and what goes with them.
#[derive(Clone, Copy)]
pub struct Primes {
    pub p: Stretch,
    pub q: Stretch,
    pub q_inverse: Stretch,
    pub dp: Stretch,
    pub dq: Stretch,
}

/// The domain parameters of a key on an elliptic curve, and the key: a point or a number.
#[derive(Clone, Copy)]
pub struct EcParts {
    pub field: Stretch,
    pub a: Stretch,
    pub b: Stretch,
    pub base: Stretch,
    pub order: Stretch,
    pub key: Stretch,
}

/// The parts of a key.
#[derive(Clone, Copy)]
pub enum Parts {
    Rsa(RsaParts),
    Primes(Primes),
    Ec(EcParts),
}

/// Reads a part into the first of some bytes, and returns these.
pub(crate) fn read_part<'a, S: WordStore>(
    part: Stretch,
    memory: &Memory<S>,
    bytes: &'a mut [u8],
) -> &'a [u8]
    requires up { memory.now.heap.down ≡ false }
    requires there { IsInArray memory.now part }
    requires room { part.count ≤ length bytes.old }
    ensures bytes { result.now ≡ bytes_in memory.now part }
    ensures all { length result.now ≡ part.count }
{
    let first = &mut bytes[..part.count as usize];
    read(part, memory, first);
    first
}

/// Writes the power of a message under an RSA key, in as many bytes as the modulus has. It returns false where there is none.
pub(crate) fn put_power_by<S: WordStore>(
    key: &RsaParts,
    message: &[u8],
    memory: &Memory<S>,
    to: &mut [u8],
) -> bool
    requires up { memory.now.heap.down ≡ false }
    requires key { AreRsaParts memory.now key.now }
    requires message { length message.now ≤ MOST_ENCODING }
    requires room { length to.old ≡ key.now.modulus.count }
    ensures { (if result then Some to.new else None) ≡ power memory.now key.now message.now }
{
    let mut modulus_bytes = [0; MOST_ENCODING];
    let modulus = read_part(key.modulus, memory, &mut modulus_bytes);
    let mut exponent_bytes = [0; MOST_ENCODING];
    let exponent = read_part(key.exponent, memory, &mut exponent_bytes);
    put_power(modulus, exponent, message, to)
}

/// The same under a private key by its primes.
pub(crate) fn put_power_by_primes<S: WordStore>(
    key: &Primes,
    message: &[u8],
    memory: &Memory<S>,
    to: &mut [u8],
) -> bool
    requires up { memory.now.heap.down ≡ false }
    requires key { ArePrimes memory.now key.now }
    requires message { length message.now ≤ MOST_ENCODING }
    requires room { length to.old ≤ MOST_ENCODING }
    ensures { (if result then Some to.new else None) ≡ crt_power memory.now key.now message.now (length to.old) }
{
    let mut p_bytes = [0; MOST_ENCODING];
    let p = read_part(key.p, memory, &mut p_bytes);
    let mut q_bytes = [0; MOST_ENCODING];
    let q = read_part(key.q, memory, &mut q_bytes);
    let mut q_inverse_bytes = [0; MOST_ENCODING];
    let q_inverse = read_part(key.q_inverse, memory, &mut q_inverse_bytes);
    let mut dp_bytes = [0; MOST_ENCODING];
    let dp = read_part(key.dp, memory, &mut dp_bytes);
    let mut dq_bytes = [0; MOST_ENCODING];
    let dq = read_part(key.dq, memory, &mut dq_bytes);
    let parts = CrtKey {
        p,
        q,
        dp,
        dq,
        q_inverse,
    };
    put_crt_power(&parts, message, to)
}
