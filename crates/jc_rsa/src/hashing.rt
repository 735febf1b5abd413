//! Digests by the name of their hash function.

ghost use Rattle.std.specs.Prelude.{◌≡◌, ◌++◌, length};
ghost use Rattle.jc_digests.specs.Kept.{digest_size};
ghost use Rattle.jc_rsa.specs.Hashing.{digest_of};

use jc_digests::digest::digest_of_pieces;
use jc_digests::kept::HashAlgorithm;
use jc_digests::md_5::Md5;
use jc_digests::sha_1::Sha1;
use jc_digests::sha_256::{Sha224, Sha256};
use jc_digests::sha_512::{Sha384, Sha512};

// How many bytes the longest digest has.
pub(crate) const MOST_DIGEST: usize = 64;

// Writes the digest of a message that comes in two pieces.
#[tactic(auto, unfolding(crate::specs::Hashing::digest_of))]
pub(crate) fn put_digest(algorithm: HashAlgorithm, first: &[u8], rest: &[u8], to: &mut [u8])
    requires { length to.old ≡ digest_size algorithm }
    ensures { to.new ≡ digest_of algorithm (first.now ++ rest.now) }
{
    match algorithm {
        HashAlgorithm::Md5 => digest_of_pieces::<Md5>(first, rest, to),
        HashAlgorithm::Sha1 => digest_of_pieces::<Sha1>(first, rest, to),
        HashAlgorithm::Sha224 => digest_of_pieces::<Sha224>(first, rest, to),
        HashAlgorithm::Sha256 => digest_of_pieces::<Sha256>(first, rest, to),
        HashAlgorithm::Sha384 => digest_of_pieces::<Sha384>(first, rest, to),
        HashAlgorithm::Sha512 => digest_of_pieces::<Sha512>(first, rest, to),
    }
}
