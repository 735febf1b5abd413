//! Where random bytes come from.
ghost use Rattle.std.specs.Prelude.{◌≡◌, ◌≤◌, ◌+◌, ◌*◌, ◌%◌, ◌^◌, ◌++◌, length};
ghost use Rattle.jc_api_crypto.specs.RandomData.{random_block, random_blocks, random_bytes};

use jc_api::MOST_ELEMENTS;
use jc_api_keys::shorts::put;
use jc_digests::digest::Digest;
use jc_digests::sha_256::Sha256;
use jc_platform::row::RANDOM_SIZE;

/// How many bytes `setSeed` mixes.
pub(crate) const MIXED_SIZE: usize = 32;

// How many bytes of a number there are.
const BLOCK: usize = 32;

/// Where random bytes come from: the platform table, the object, and what `setSeed` mixed.
#[derive(Drop)]
pub struct Source {
    pub seed: [u8; RANDOM_SIZE],
    pub object: u16,
    pub mixed: [u8; MIXED_SIZE],
}

// The digest of four pieces.
fn digest_of_four<D: Digest>(first: &[u8], second: &[u8], third: &[u8], last: &[u8], to: &mut [u8])
    requires { length to.old ≡ D.size }
    ensures { to.new ≡ D.digest (((first.now ++ second.now) ++ third.now) ++ last.now) }
{
    let mut digest = D::new();
    digest.update(first);
    digest.update(second);
    digest.update(third);
    digest.update(last);
    digest.finish(to);
}

// The bytes of a number.
fn random_block(source: &Source, number: u32) -> [u8; BLOCK]
    ensures { result ≡ random_block source.now number }
{
    let mut block = [0; BLOCK];
    digest_of_four::<Sha256>(
        &source.seed,
        &source.object.to_be_bytes(),
        &source.mixed,
        &number.to_be_bytes(),
        &mut block,
    );
    block
}

// The bytes of this many numbers from one on.
fn put_blocks(source: &Source, number: u32, count: usize, to: &mut [u8])
    requires room { length to.old ≡ 32 * count }
    requires few { count ≤ MOST_ELEMENTS }
    ensures { to.new ≡ random_blocks source.now number count }
{
    'blocks: for n in 0..count {
        let block = random_block(source, number.wrapping_add(n as u32));
        put(to, BLOCK * n, &block);
    }
}

/// Random bytes from a number on.
pub(crate) fn put_random(source: &Source, number: u32, to: &mut [u8])
    requires { length to.old ≤ MOST_ELEMENTS }
    ensures { to.new ≡ random_bytes source.now number (length to.old) }
{
    let whole = to.len() / BLOCK;
    let rest = to.len() % BLOCK;
    let last = random_block(source, number.wrapping_add(whole as u32));
    put_blocks(source, number, whole, &mut to[..BLOCK * whole]);
    to[BLOCK * whole..].copy_from_slice(&last[..rest]);
}
