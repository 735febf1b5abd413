//! The key objects that signatures under a key of a pair take, and their parts.
ghost use Rattle.std.specs.Prelude.{◌≡◌, ◌≤◌, false, true, IfOk, IfSome};
ghost use Rattle.jc_api.specs.Exits.{plainly};
ghost use Rattle.jc_api_keys.specs.KeyObjects.Contents.{IsKey};
ghost use Rattle.jc_api_keys.specs.KeyObjects.Parts.{key_part};
ghost use Rattle.jc_api_ciphers.specs.Signature.Pair.Keys.{ec_parts, ecdsa_takes, kept_pair_key, pair_parts, primes_parts, rsa_parts, rsa_takes, sized_key, takes_key, takes_size, taken_pair_key};
ghost use Rattle.jc_api_ciphers.specs.Signature.Pair.Parts.{IsPart};
ghost use Rattle.jc_api_ciphers.specs.Signature.Pair.Signing.{AreParts, HasSize, IsLongEnough};

use crate::initialized::{KeyedEngine, check};
use crate::signature::pair::parts::{EcParts, Parts, Primes, RsaParts};
use crate::signature::pair_algorithms::PairSignature;
use jc_api_keys::exceptions::ILLEGAL_VALUE;
use jc_api_keys::key_objects::arguments::{key_argument, key_at};
use jc_api_keys::key_objects::contents::Key;
use jc_api_keys::key_objects::parts::key_part;
use jc_api_keys::key_parts::{KeyPart, MOST_SIZE, size_of};
use jc_api_keys::key_types::{PairKey, pair_key_named};
use jc_frames::{Cell, FrameExit, Outcome};
use jc_linker::linked::Linked;
use jc_memory::Memory;
use jc_public_keys::rsa_signatures::least_modulus;
use jc_words::WordStore;
use jc_world::Stretch;

// The fewest bytes of a modulus for an encoding by ISO/IEC 9796-2 of a digest by SHA-1.
const LEAST_ISO_MODULUS: usize = 22;

/// A key object of a pair.
#[derive(Clone, Copy)]
pub struct SizedKey {
    pub key: Key,
    pub kind: PairKey,
    /// How many bytes its size has.
    pub size: u16,
}

/// The key of a pair that a key object is.
pub(crate) fn sized_key(key: Key) -> Option<SizedKey>
    ensures sized { result ≡ sized_key key }
    ensures same { IfSome result (λ s. s.key ≡ key) }
    ensures few { IfSome result (λ s. s.size ≤ MOST_SIZE) }
{
    let kind = pair_key_named(key.number)?;
    let size = size_of(kind, key.elements.count)?;
    Some(SizedKey { key, kind, size })
}

// RSA takes keys of this kind in a mode.
fn rsa_takes(mode: i16, kind: PairKey) -> bool
    ensures { result ≡ rsa_takes mode kind }
{
    match kind {
        PairKey::RsaPublic => mode == 2,
        PairKey::RsaPrivate | PairKey::RsaCrtPrivate => mode == 1,
        PairKey::EcPublic | PairKey::EcPrivate => false,
    }
}

// ECDSA takes keys of this kind in a mode.
fn ecdsa_takes(mode: i16, kind: PairKey) -> bool
    ensures { result ≡ ecdsa_takes mode kind }
{
    match kind {
        PairKey::EcPublic => mode == 2,
        PairKey::EcPrivate => mode == 1,
        PairKey::RsaPublic | PairKey::RsaPrivate | PairKey::RsaCrtPrivate => false,
    }
}

// A signature takes keys of this size.
fn takes_size(algorithm: PairSignature, size: u16) -> bool
    ensures takes { result ≡ takes_size algorithm size }
    ensures long { result ≡ true → IsLongEnough algorithm size }
{
    match algorithm {
        PairSignature::Rsa(padding, hash) => least_modulus(padding, hash) <= usize::from(size),
        PairSignature::Ecdsa(_) => true,
        PairSignature::Iso9796 => LEAST_ISO_MODULUS <= usize::from(size),
    }
}

// A signature takes a key in a mode.
fn takes_key(algorithm: PairSignature, mode: i16, key: &SizedKey) -> bool
    ensures takes { result ≡ takes_key algorithm mode key.now }
    ensures long { result ≡ true → IsLongEnough algorithm key.now.size }
{
    if !takes_size(algorithm, key.size) {
        return false;
    }
    match algorithm {
        PairSignature::Rsa(_, _) | PairSignature::Iso9796 => rsa_takes(mode, key.kind),
        PairSignature::Ecdsa(_) => ecdsa_takes(mode, key.kind),
    }
}

/// The key after the receiver, of a kind and a size that the signature takes in a mode, or ILLEGAL_VALUE is thrown.
#[tactic(auto, unfolding(crate::specs::Signature::Pair::Keys::taken_pair_key))]
pub(crate) fn taken_pair_key<S: WordStore>(
    algorithm: PairSignature,
    mode: i16,
    args: &[Cell],
    memory: &Memory<S>,
    linked: &Linked,
) -> Result<SizedKey, FrameExit>
    requires up { memory.now.heap.down ≡ false }
    ensures key { result ≡ taken_pair_key algorithm mode args.now linked.now memory.now }
    ensures there { IfOk result (λ s. IsKey memory.now s.key) }
    ensures plain { plainly result ≡ result }
{
    let key = key_argument(1, args, memory, linked)?;
    match sized_key(key) {
        Some(sized) if takes_key(algorithm, mode, &sized) => Ok(sized),
        _ => Err(FrameExit::Throw(ILLEGAL_VALUE)),
    }
}

/// The key that an object has kept. One that the signature does not take in its mode is a code fault.
#[tactic(auto, unfolding(crate::specs::Signature::Pair::Keys::kept_pair_key))]
pub(crate) fn kept_pair_key<S: WordStore>(
    algorithm: PairSignature,
    own: &KeyedEngine,
    memory: &Memory<S>,
    linked: &Linked,
) -> Result<SizedKey, FrameExit>
    requires up { memory.now.heap.down ≡ false }
    ensures key { result ≡ kept_pair_key algorithm own.now linked.now memory.now }
    ensures there { IfOk result (λ s. IsKey memory.now s.key) }
    ensures long { IfOk result (λ s. IsLongEnough algorithm s.size) }
    ensures few { IfOk result (λ s. s.size ≤ MOST_SIZE) }
    ensures plain { plainly result ≡ result }
{
    let key = key_at(own.key, memory, linked)?;
    match sized_key(key) {
        Some(sized) if takes_key(algorithm, own.mode, &sized) => Ok(sized),
        _ => Err(FrameExit::End(Outcome::Fault)),
    }
}

// The elements that are a part of a key.
fn part_of<S: WordStore>(
    key: &SizedKey,
    part: KeyPart,
    memory: &Memory<S>,
) -> Result<Stretch, FrameExit>
    requires up { memory.now.heap.down ≡ false }
    requires key { IsKey memory.now key.now.key }
    ensures part { result ≡ key_part memory.now key.now.key part }
    ensures there { IfOk result (IsPart memory.now) }
    ensures plain { plainly result ≡ result }
{
    Ok(key_part(&key.key, part, memory)?)
}

// The parts of an RSA key.
fn rsa_parts<S: WordStore>(key: &SizedKey, memory: &Memory<S>) -> Result<Parts, FrameExit>
    requires up { memory.now.heap.down ≡ false }
    requires key { IsKey memory.now key.now.key }
    ensures parts { result ≡ rsa_parts memory.now key.now }
    ensures there { IfOk result (AreParts memory.now) }
    ensures size { IfOk result (HasSize key.now.size) }
    ensures plain { plainly result ≡ result }
{
    let modulus = part_of(key, KeyPart::Modulus, memory)?;
    let exponent = part_of(key, KeyPart::Exponent, memory)?;
    check(modulus.count == key.size)?;
    Ok(Parts::Rsa(RsaParts { modulus, exponent }))
}

// The parts of an RSA key by its primes.
fn primes_parts<S: WordStore>(key: &SizedKey, memory: &Memory<S>) -> Result<Parts, FrameExit>
    requires up { memory.now.heap.down ≡ false }
    requires key { IsKey memory.now key.now.key }
    ensures parts { result ≡ primes_parts memory.now key.now }
    ensures there { IfOk result (AreParts memory.now) }
    ensures size { IfOk result (HasSize key.now.size) }
    ensures plain { plainly result ≡ result }
{
    let p = part_of(key, KeyPart::P, memory)?;
    let q = part_of(key, KeyPart::Q, memory)?;
    let q_inverse = part_of(key, KeyPart::Pq, memory)?;
    let dp = part_of(key, KeyPart::Dp1, memory)?;
    let dq = part_of(key, KeyPart::Dq1, memory)?;
    Ok(Parts::Primes(Primes {
        p,
        q,
        q_inverse,
        dp,
        dq,
    }))
}

// The domain parameters of a key on an elliptic curve, and the part that is the key.
fn ec_parts<S: WordStore>(
    key: &SizedKey,
    own: KeyPart,
    memory: &Memory<S>,
) -> Result<Parts, FrameExit>
    requires up { memory.now.heap.down ≡ false }
    requires key { IsKey memory.now key.now.key }
    ensures parts { result ≡ ec_parts memory.now key.now own }
    ensures there { IfOk result (AreParts memory.now) }
    ensures size { IfOk result (HasSize key.now.size) }
    ensures plain { plainly result ≡ result }
{
    let field = part_of(key, KeyPart::Field, memory)?;
    let a = part_of(key, KeyPart::A, memory)?;
    let b = part_of(key, KeyPart::B, memory)?;
    let base = part_of(key, KeyPart::G, memory)?;
    let order = part_of(key, KeyPart::R, memory)?;
    let last = part_of(key, own, memory)?;
    Ok(Parts::Ec(EcParts {
        field,
        a,
        b,
        base,
        order,
        key: last,
    }))
}

/// The parts of a key. One that is not set throws UNINITIALIZED_KEY.
#[tactic(auto, unfolding(crate::specs::Signature::Pair::Keys::pair_parts))]
pub(crate) fn pair_parts<S: WordStore>(
    key: &SizedKey,
    memory: &Memory<S>,
) -> Result<Parts, FrameExit>
    requires up { memory.now.heap.down ≡ false }
    requires key { IsKey memory.now key.now.key }
    ensures parts { result ≡ pair_parts memory.now key.now }
    ensures there { IfOk result (AreParts memory.now) }
    ensures size { IfOk result (HasSize key.now.size) }
    ensures plain { plainly result ≡ result }
{
    match key.kind {
        PairKey::RsaPublic | PairKey::RsaPrivate => rsa_parts(key, memory),
        PairKey::RsaCrtPrivate => primes_parts(key, memory),
        PairKey::EcPublic => ec_parts(key, KeyPart::W, memory),
        PairKey::EcPrivate => ec_parts(key, KeyPart::S, memory),
    }
}
