//! Signatures of a message, by its digest and first bytes, under a key of a pair, by what its parts are.
ghost use Rattle.std.specs.Prelude.{◌≡◌, ◌≤◌, false, length, take, if◌then◌else◌, IfSome, Some, None};
ghost use Rattle.std.specs.Option.{option_map};
ghost use Rattle.jc_digests.specs.Kept.{digest_size};
ghost use Rattle.jc_world.specs.Arrays.{IsInArray, bytes_in};
ghost use Rattle.jc_public_keys.specs.RsaSignatures.{least_modulus, signature_encoding};
ghost use Rattle.jc_api_ciphers.specs.Signature.Pair.Parts.{AreRsaParts, power};
ghost use Rattle.jc_api_ciphers.specs.Signature.Pair.Signing.{AreParts, HasSize, IsRunningPair, ecdsa_by_parts, is_ecdsa_by_parts, is_iso_signature, is_rsa_signature, is_signature_of, key_power, power_by_parts, power_under, seed_of, signature_of};

use crate::signature::pair::RunningPair;
use crate::signature::pair::ecdsa::{is_ecdsa, put_ecdsa};
use crate::signature::pair::parts::{Parts, RsaParts, put_power_by, put_power_by_primes};
use crate::signature::pair_algorithms::PairSignature;
use jc_api_keys::receivers::read;
use jc_digests::kept::HashAlgorithm;
use jc_linker::linked::Linked;
use jc_memory::Memory;
use jc_platform::row::RANDOM_SIZE;
use jc_public_keys::rsa_recovery::{is_recovery_encoding, put_recovery_encoding};
use jc_public_keys::rsa_signatures::{SignaturePadding, is_encoding, put_encoding};
use jc_rsa::bytes::MOST_ENCODING;
use jc_transient::Ref;
use jc_words::WordStore;
use jc_world::Stretch;

/// How many bytes the longest signature has.
pub(crate) const MOST_SIGNATURE: usize = MOST_ENCODING;

/// How many bytes a seed has: those of the platform table, and the reference of a key object.
pub(crate) const SEED: usize = RANDOM_SIZE + 2;

/// Writes what random bytes under a key object come from.
pub(crate) fn put_seed(key: Ref, linked: &Linked, to: &mut [u8])
    requires { length to.old ≡ SEED }
    ensures { to.new ≡ seed_of linked.now key }
{
    let (first, rest) = to.split_at_mut(RANDOM_SIZE);
    first.copy_from_slice(linked.platform().table().random());
    rest.copy_from_slice(&key.address().to_be_bytes());
}

/// Writes the power of a representative under a key, in as many bytes. It returns false where there is none.
pub(crate) fn put_key_power<S: WordStore>(
    parts: &Parts,
    message: &[u8],
    memory: &Memory<S>,
    to: &mut [u8],
) -> bool
    requires up { memory.now.heap.down ≡ false }
    requires parts { AreParts memory.now parts.now }
    requires size { HasSize (length message.now) parts.now }
    requires message { length message.now ≤ MOST_ENCODING }
    requires room { length to.old ≡ length message.now }
    ensures { (if result then Some to.new else None) ≡ key_power memory.now parts.now message.now }
{
    match parts {
        Parts::Rsa(key) => put_power_by(key, message, memory, to),
        Parts::Primes(key) => put_power_by_primes(key, message, memory, to),
        Parts::Ec(_) => false,
    }
}

// Writes the encoding of a digest, of which random bytes come from the platform table and a key object.
fn put_rsa_encoding(
    padding: SignaturePadding,
    hash: HashAlgorithm,
    digest: &[u8],
    key: Ref,
    linked: &Linked,
    to: &mut [u8],
)
    requires digest { length digest.now ≡ digest_size hash }
    requires few { length to.old ≤ MOST_ENCODING }
    requires room { least_modulus padding hash ≤ length to.old }
    ensures { to.new ≡ signature_encoding padding hash digest.now (seed_of linked.now key) (length to.old) }
{
    let mut seed = [0; SEED];
    put_seed(key, linked, &mut seed);
    put_encoding(padding, hash, digest, &seed, to);
}

// Writes the signature of an encoding, and returns how many bytes it has, if there is one.
fn put_rsa_signature<S: WordStore>(
    parts: &Parts,
    encoding: &[u8],
    memory: &Memory<S>,
    to: &mut [u8],
) -> Option<usize>
    requires up { memory.now.heap.down ≡ false }
    requires parts { AreParts memory.now parts.now }
    requires size { HasSize (length encoding.now) parts.now }
    requires encoding { length encoding.now ≤ MOST_ENCODING }
    requires room { length to.old ≡ MOST_SIGNATURE }
    ensures signature { option_map (λ n. take n to.new) result ≡ key_power memory.now parts.now encoding.now }
    ensures within { IfSome result (λ n. n ≤ MOST_SIGNATURE) }
{
    let count = encoding.len();
    if put_key_power(parts, encoding, memory, &mut to[..count]) {
        Some(count)
    } else {
        None
    }
}

// Writes the signature of a digest by ECDSA, and returns how many bytes it has, if there is one.
fn put_ecdsa_by_parts<S: WordStore>(
    parts: &Parts,
    digest: &[u8],
    key: Ref,
    memory: &Memory<S>,
    linked: &Linked,
    to: &mut [u8],
) -> Option<usize>
    requires up { memory.now.heap.down ≡ false }
    requires parts { AreParts memory.now parts.now }
    requires digest { length digest.now ≤ MOST_ENCODING }
    requires room { length to.old ≡ MOST_SIGNATURE }
    ensures signature { option_map (λ n. take n to.new) result
        ≡ ecdsa_by_parts memory.now digest.now (seed_of linked.now key) parts.now }
    ensures within { IfSome result (λ n. n ≤ MOST_SIGNATURE) }
{
    match parts {
        Parts::Ec(own) => {
            let mut seed = [0; SEED];
            put_seed(key, linked, &mut seed);
            put_ecdsa(own, digest, &seed, memory, to)
        }
        Parts::Rsa(_) | Parts::Primes(_) => None,
    }
}

/// Writes the signature of the first bytes of a message and its digest, and returns how many bytes it has, if there is one.
pub(crate) fn put_signature<S: WordStore>(
    own: &RunningPair,
    first: &[u8],
    digest: &[u8],
    memory: &Memory<S>,
    linked: &Linked,
    to: &mut [u8],
) -> Option<usize>
    requires up { memory.now.heap.down ≡ false }
    requires own { IsRunningPair memory.now own.now }
    requires digest { length digest.now ≡ digest_size own.now.digest.algorithm }
    requires room { length to.old ≡ MOST_SIGNATURE }
    ensures signature { option_map (λ n. take n to.new) result
        ≡ signature_of linked.now memory.now own.now first.now digest.now }
    ensures within { IfSome result (λ n. n ≤ MOST_SIGNATURE) }
{
    match own.algorithm {
        PairSignature::Rsa(padding, hash) => {
            let mut buffer = [0; MOST_ENCODING];
            let encoding = &mut buffer[..own.size as usize];
            put_rsa_encoding(padding, hash, digest, own.key, linked, encoding);
            put_rsa_signature(&own.parts, encoding, memory, to)
        }
        PairSignature::Ecdsa(_) => {
            put_ecdsa_by_parts(&own.parts, digest, own.key, memory, linked, to)
        }
        PairSignature::Iso9796 => {
            let mut buffer = [0; MOST_ENCODING];
            let encoding = &mut buffer[..own.size as usize];
            put_recovery_encoding(first, digest, encoding);
            put_rsa_signature(&own.parts, encoding, memory, to)
        }
    }
}

// Writes the power of elements under an RSA key. It returns false where there is none.
fn put_power_of<S: WordStore>(
    key: &RsaParts,
    given: Stretch,
    memory: &Memory<S>,
    to: &mut [u8],
) -> bool
    requires up { memory.now.heap.down ≡ false }
    requires key { AreRsaParts memory.now key.now }
    requires given { IsInArray memory.now given }
    requires size { given.count ≡ key.now.modulus.count }
    requires room { length to.old ≡ given.count }
    ensures { (if result then Some to.new else None) ≡ power memory.now key.now (bytes_in memory.now given) }
{
    let mut buffer = [0; MOST_ENCODING];
    let signature = &mut buffer[..given.count as usize];
    read(given, memory, signature);
    put_power_by(key, signature, memory, to)
}

// Writes the power of elements under an RSA key, and returns how many bytes it has. There is none where the modulus has another length.
fn put_power_under<S: WordStore>(
    key: &RsaParts,
    given: Stretch,
    memory: &Memory<S>,
    to: &mut [u8],
) -> Option<usize>
    requires up { memory.now.heap.down ≡ false }
    requires key { AreRsaParts memory.now key.now }
    requires given { IsInArray memory.now given }
    requires room { length to.old ≡ MOST_ENCODING }
    ensures power { option_map (λ n. take n to.new) result ≡ power_under memory.now given key.now }
    ensures within { IfSome result (λ n. n ≤ MOST_ENCODING) }
{
    if given.count != key.modulus.count {
        return None;
    }
    let count = given.count as usize;
    if put_power_of(key, given, memory, &mut to[..count]) {
        Some(count)
    } else {
        None
    }
}

// The same under a key of any algorithm, of which only those of RSA have powers.
fn put_power_by_parts<S: WordStore>(
    parts: &Parts,
    given: Stretch,
    memory: &Memory<S>,
    to: &mut [u8],
) -> Option<usize>
    requires up { memory.now.heap.down ≡ false }
    requires parts { AreParts memory.now parts.now }
    requires given { IsInArray memory.now given }
    requires room { length to.old ≡ MOST_ENCODING }
    ensures power { option_map (λ n. take n to.new) result ≡ power_by_parts memory.now given parts.now }
    ensures within { IfSome result (λ n. n ≤ MOST_ENCODING) }
{
    match parts {
        Parts::Rsa(key) => put_power_under(key, given, memory, to),
        Parts::Primes(_) | Parts::Ec(_) => None,
    }
}

// Elements are an RSA signature.
fn is_rsa_signature<S: WordStore>(
    parts: &Parts,
    padding: SignaturePadding,
    hash: HashAlgorithm,
    digest: &[u8],
    given: Stretch,
    memory: &Memory<S>,
) -> bool
    requires up { memory.now.heap.down ≡ false }
    requires parts { AreParts memory.now parts.now }
    requires digest { length digest.now ≡ digest_size hash }
    requires given { IsInArray memory.now given }
    ensures { result ≡ is_rsa_signature memory.now padding hash digest.now given parts.now }
{
    let mut encoding = [0; MOST_ENCODING];
    match put_power_by_parts(parts, given, memory, &mut encoding) {
        Some(n) => is_encoding(padding, hash, digest, &encoding[..n]),
        None => false,
    }
}

// Elements are a signature by ISO/IEC 9796-2.
fn is_iso_signature<S: WordStore>(
    parts: &Parts,
    first: &[u8],
    digest: &[u8],
    given: Stretch,
    memory: &Memory<S>,
) -> bool
    requires up { memory.now.heap.down ≡ false }
    requires parts { AreParts memory.now parts.now }
    requires given { IsInArray memory.now given }
    ensures { result ≡ is_iso_signature memory.now first.now digest.now given parts.now }
{
    let mut encoding = [0; MOST_ENCODING];
    match put_power_by_parts(parts, given, memory, &mut encoding) {
        Some(n) => is_recovery_encoding(first, digest, &encoding[..n]),
        None => false,
    }
}

// Elements are a signature by ECDSA.
fn is_ecdsa_by_parts<S: WordStore>(
    parts: &Parts,
    digest: &[u8],
    given: Stretch,
    memory: &Memory<S>,
) -> bool
    requires up { memory.now.heap.down ≡ false }
    requires parts { AreParts memory.now parts.now }
    requires given { IsInArray memory.now given }
    ensures { result ≡ is_ecdsa_by_parts memory.now digest.now given parts.now }
{
    match parts {
        Parts::Ec(own) => is_ecdsa(own, digest, given, memory),
        Parts::Rsa(_) | Parts::Primes(_) => false,
    }
}

/// Elements are a signature of the first bytes of a message and its digest.
pub(crate) fn is_signature<S: WordStore>(
    own: &RunningPair,
    first: &[u8],
    digest: &[u8],
    given: Stretch,
    memory: &Memory<S>,
) -> bool
    requires up { memory.now.heap.down ≡ false }
    requires own { IsRunningPair memory.now own.now }
    requires digest { length digest.now ≡ digest_size own.now.digest.algorithm }
    requires given { IsInArray memory.now given }
    ensures { result ≡ is_signature_of memory.now own.now first.now digest.now given }
{
    match own.algorithm {
        PairSignature::Rsa(padding, hash) => {
            is_rsa_signature(&own.parts, padding, hash, digest, given, memory)
        }
        PairSignature::Ecdsa(_) => is_ecdsa_by_parts(&own.parts, digest, given, memory),
        PairSignature::Iso9796 => is_iso_signature(&own.parts, first, digest, given, memory),
    }
}
