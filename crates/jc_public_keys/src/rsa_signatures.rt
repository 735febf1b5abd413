//! Digests as they are encoded to be signed by RSA.
ghost use Rattle.std.specs.Prelude.{◌≡◌, ◌≤◌, ◌+◌, length};
ghost use Rattle.jc_digests.specs.Kept.{digest_size};
ghost use Rattle.jc_rsa.specs.EmsaPkcs1.{digest_info, signature_block};
ghost use Rattle.jc_rsa.specs.EmsaPss.{pss};
ghost use Rattle.jc_public_keys.specs.Random.{random_bytes};
ghost use Rattle.jc_public_keys.specs.RsaSignatures.{is_pkcs1, is_pss, is_signature_encoding, least_modulus, signature_encoding};

use crate::random::{MOST_SEED, put_random};
use jc_digests::kept::{HashAlgorithm, MOST_HASH};
use jc_rsa::bytes::MOST_ENCODING;
use jc_rsa::emsa_pkcs1::{self, digest_info_size};
use jc_rsa::emsa_pss;

// How many bits of an encoding by EMSA-PSS the highest bit of the modulus leaves out.
const SPARE_BITS: u32 = 1;

/// How a digest is encoded to be signed.
#[derive(Clone, Copy)]
pub enum SignaturePadding {
    /// EMSA-PKCS1-v1_5.
    Pkcs1,
    /// EMSA-PSS, with a salt as long as the digest.
    Pss,
}

/// The fewest bytes of a modulus for such encodings.
pub fn least_modulus(padding: SignaturePadding, hash: HashAlgorithm) -> usize
    ensures { result ≡ least_modulus padding hash }
{
    match padding {
        SignaturePadding::Pkcs1 => digest_info_size(hash) + emsa_pkcs1::LEAST_OVERHEAD,
        SignaturePadding::Pss => 2 * hash.digest_size() + 2,
    }
}

// Writes the encoding of a digest by EMSA-PSS, with a salt of random bytes.
fn put_pss(hash: HashAlgorithm, digest: &[u8], seed: &[u8], to: &mut [u8])
    requires digest { length digest.now ≡ digest_size hash }
    requires seed { length seed.now ≤ MOST_SEED }
    requires few { length to.old ≤ MOST_ENCODING }
    requires room { digest_size hash + digest_size hash + 2 ≤ length to.old }
    ensures { to.new ≡ pss hash digest.now (random_bytes seed.now digest.now (digest_size hash)) 1 (length to.old) }
{
    let mut buffer = [0; MOST_HASH];
    let salt = &mut buffer[..hash.digest_size()];
    put_random(seed, digest, salt);
    emsa_pss::encode(hash, digest, salt, SPARE_BITS, to);
}

/// Writes the encoding of a digest; a salt is random bytes of the seed and the digest.
pub fn put_encoding(
    padding: SignaturePadding,
    hash: HashAlgorithm,
    digest: &[u8],
    seed: &[u8],
    to: &mut [u8],
)
    requires digest { length digest.now ≡ digest_size hash }
    requires seed { length seed.now ≤ MOST_SEED }
    requires few { length to.old ≤ MOST_ENCODING }
    requires room { least_modulus padding hash ≤ length to.old }
    ensures { to.new ≡ signature_encoding padding hash digest.now seed.now (length to.old) }
{
    match padding {
        SignaturePadding::Pkcs1 => emsa_pkcs1::encode_digest(hash, digest, to),
        SignaturePadding::Pss => put_pss(hash, digest, seed, to),
    }
}

// Bytes are an encoding of a digest by EMSA-PKCS1-v1_5.
fn is_pkcs1(hash: HashAlgorithm, digest: &[u8], encoding: &[u8]) -> bool
    requires digest { length digest.now ≡ digest_size hash }
    requires few { length encoding.now ≤ MOST_ENCODING }
    ensures { result ≡ is_pkcs1 hash digest.now encoding.now }
{
    emsa_pkcs1::is_encoding_of_digest(hash, digest, encoding)
}

// Bytes are an encoding of a digest by EMSA-PSS.
fn is_pss(hash: HashAlgorithm, digest: &[u8], encoding: &[u8]) -> bool
    requires digest { length digest.now ≡ digest_size hash }
    requires few { length encoding.now ≤ MOST_ENCODING }
    ensures { result ≡ is_pss hash digest.now encoding.now }
{
    emsa_pss::verify(hash, digest, hash.digest_size(), SPARE_BITS, encoding)
}

/// Bytes are an encoding of a digest.
pub fn is_encoding(
    padding: SignaturePadding,
    hash: HashAlgorithm,
    digest: &[u8],
    encoding: &[u8],
) -> bool
    requires digest { length digest.now ≡ digest_size hash }
    requires few { length encoding.now ≤ MOST_ENCODING }
    ensures { result ≡ is_signature_encoding padding hash digest.now encoding.now }
{
    match padding {
        SignaturePadding::Pkcs1 => is_pkcs1(hash, digest, encoding),
        SignaturePadding::Pss => is_pss(hash, digest, encoding),
    }
}
