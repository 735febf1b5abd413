//! EMSA-PKCS1-v1_5 (RFC 8017, 9.2), and the same form of any data.
//!
//! Java Card's `ALG_RSA_MD5_PKCS1`, `ALG_RSA_SHA_PKCS1` and those over SHA-2 encode a `DigestInfo`, which names the hash function
//! with parameters NULL; a `Cipher` of `ALG_RSA_PKCS1` under a private key encodes data as they are.

ghost use Rattle.std.specs.Prelude.{◌≡◌, ◌≤◌, ◌+◌, ◌↔◌, IsTrue, length};
ghost use Rattle.jc_digests.specs.Kept.{digest_size};
ghost use Rattle.jc_rsa.specs.EmsaPkcs1.{IsSignatureBlock, digest_info, digest_info_prefix, digest_info_size, signature_block};

use crate::bytes::{MOST_ENCODING, put, put_repeated, same};
use jc_digests::kept::HashAlgorithm;

/// The fewest bytes of an encoding beside its data: three that are fixed, and eight of padding.
pub const LEAST_OVERHEAD: usize = 11;

// How many bytes the longest DigestInfo has.
const MOST_DIGEST_INFO: usize = 83;

// The DER encoding of a DigestInfo up to the digest (RFC 8017, 9.2, note 1).
fn digest_info_prefix(algorithm: HashAlgorithm) -> &'static [u8]
    ensures { result.now ≡ digest_info_prefix algorithm }
{
    match algorithm {
        HashAlgorithm::Md5 => &[
            0x30, 0x20, 0x30, 0x0c, 0x06, 0x08, 0x2a, 0x86, 0x48, 0x86, 0xf7, 0x0d, 0x02, 0x05,
            0x05, 0x00, 0x04, 0x10,
        ],
        HashAlgorithm::Sha1 => &[
            0x30, 0x21, 0x30, 0x09, 0x06, 0x05, 0x2b, 0x0e, 0x03, 0x02, 0x1a, 0x05, 0x00, 0x04,
            0x14,
        ],
        HashAlgorithm::Sha224 => &[
            0x30, 0x2d, 0x30, 0x0d, 0x06, 0x09, 0x60, 0x86, 0x48, 0x01, 0x65, 0x03, 0x04, 0x02,
            0x04, 0x05, 0x00, 0x04, 0x1c,
        ],
        HashAlgorithm::Sha256 => &[
            0x30, 0x31, 0x30, 0x0d, 0x06, 0x09, 0x60, 0x86, 0x48, 0x01, 0x65, 0x03, 0x04, 0x02,
            0x01, 0x05, 0x00, 0x04, 0x20,
        ],
        HashAlgorithm::Sha384 => &[
            0x30, 0x41, 0x30, 0x0d, 0x06, 0x09, 0x60, 0x86, 0x48, 0x01, 0x65, 0x03, 0x04, 0x02,
            0x02, 0x05, 0x00, 0x04, 0x30,
        ],
        HashAlgorithm::Sha512 => &[
            0x30, 0x51, 0x30, 0x0d, 0x06, 0x09, 0x60, 0x86, 0x48, 0x01, 0x65, 0x03, 0x04, 0x02,
            0x03, 0x05, 0x00, 0x04, 0x40,
        ],
    }
}

// Writes the DigestInfo of a digest.
fn put_digest_info(algorithm: HashAlgorithm, digest: &[u8], to: &mut [u8])
    requires digest { length digest.now ≡ digest_size algorithm }
    requires room { length to.old ≡ digest_info_size algorithm }
    ensures { to.new ≡ digest_info algorithm digest.now }
{
    let end = put(to, 0, digest_info_prefix(algorithm));
    put(to, end, digest);
}

/// How many bytes the DigestInfo of a hash function has.
pub fn digest_info_size(algorithm: HashAlgorithm) -> usize
    ensures { result ≡ digest_info_size algorithm }
{
    match algorithm {
        HashAlgorithm::Md5 => 34,
        HashAlgorithm::Sha1 => 35,
        HashAlgorithm::Sha224 => 47,
        HashAlgorithm::Sha256 => 51,
        HashAlgorithm::Sha384 => 67,
        HashAlgorithm::Sha512 => 83,
    }
}

/// Writes the encoding of data: 00 01 PS 00 and the data, where PS is bytes FF.
pub fn encode_data(contents: &[u8], to: &mut [u8])
    requires { length contents.now + LEAST_OVERHEAD ≤ length to.old }
    ensures { to.new ≡ signature_block contents.now (length to.old) }
{
    let start = put(to, 0, &[0x00, 0x01]);
    let padding = to.len() - contents.len() - 3;
    let end = put_repeated(to, start, padding, 0xff);
    let after = put(to, end, &[0x00]);
    put(to, after, contents);
}

/// Whether an encoding is that of these data.
pub fn is_encoding_of_data(contents: &[u8], encoding: &[u8]) -> bool
    requires { length encoding.now ≤ MOST_ENCODING }
    ensures { IsTrue result ↔ IsSignatureBlock contents.now encoding.now }
{
    if encoding.len() < LEAST_OVERHEAD || encoding.len() - LEAST_OVERHEAD < contents.len() {
        return false;
    }
    let mut buffer = [0; MOST_ENCODING];
    let expected = &mut buffer[..encoding.len()];
    encode_data(contents, expected);
    same(expected, encoding)
}

/// Writes the encoding of a message's digest: that of its DigestInfo.
pub fn encode_digest(algorithm: HashAlgorithm, digest: &[u8], to: &mut [u8])
    requires digest { length digest.now ≡ digest_size algorithm }
    requires room { digest_info_size algorithm + LEAST_OVERHEAD ≤ length to.old }
    ensures { to.new ≡ signature_block (digest_info algorithm digest.now) (length to.old) }
{
    let mut buffer = [0; MOST_DIGEST_INFO];
    let info = &mut buffer[..digest_info_size(algorithm)];
    put_digest_info(algorithm, digest, info);
    encode_data(info, to);
}

/// Whether an encoding is that of this digest.
pub fn is_encoding_of_digest(algorithm: HashAlgorithm, digest: &[u8], encoding: &[u8]) -> bool
    requires digest { length digest.now ≡ digest_size algorithm }
    requires few { length encoding.now ≤ MOST_ENCODING }
    ensures { IsTrue result ↔ IsSignatureBlock (digest_info algorithm digest.now) encoding.now }
{
    let mut buffer = [0; MOST_DIGEST_INFO];
    let info = &mut buffer[..digest_info_size(algorithm)];
    put_digest_info(algorithm, digest, info);
    is_encoding_of_data(info, encoding)
}
