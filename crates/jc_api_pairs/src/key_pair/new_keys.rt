//! What new keys of a pair are made of, and what they are in the data of their key objects.
ghost use Rattle.std.specs.Prelude.{◌≡◌, ◌≤◌, ◌++◌, ◌+◌, false, length, Ok};
ghost use Rattle.jc_memory.specs.Programs.{Executes};
ghost use Rattle.jc_world.specs.NativeCalls.{after_call};
ghost use Rattle.jc_api_keys.specs.KeyObjects.Contents.{IsKey};
ghost use Rattle.jc_api_pairs.specs.KeyPair.Changes.{generating_call};
ghost use Rattle.jc_api_pairs.specs.KeyPair.Keys.{IsPair};
ghost use Rattle.jc_api_pairs.specs.KeyPair.NewKeys.{part_bytes, seed_of, sets_keys_of};

use crate::key_pair::changes::{NewElements, change_pair};
use crate::key_pair::keys::{KeysOfPair, TIMES_CELL};
use jc_api::MOST_ELEMENTS;
use jc_api_keys::key_parts::MOST_DATA;
use jc_api_keys::receivers::read;
use jc_digests::digest::Digest;
use jc_digests::sha_256::Sha256;
use jc_frames::Cell;
use jc_linker::linked::Linked;
use jc_memory::Memory;
use jc_words::WordStore;
use jc_world::{NativeResult, StepExit};

/// How many bytes a seed has.
pub(crate) const SEED: usize = 32;

// The digest of four pieces.
fn digest_of_four<D: Digest>(first: &[u8], second: &[u8], third: &[u8], last: &[u8], to: &mut [u8])
    requires { length to.old ≡ D.size }
    ensures { to.new ≡ D.digest (((first.now ++ second.now) ++ third.now) ++ last.now) }
{
    let mut digest = D::new();
    digest.update(first);
    digest.update(second);
    digest.update(third);
    digest.update(last);
    digest.finish(to);
}

/// Writes the seed of the next keys of a pair: a digest of the platform table's random bytes, the pair, how many times its keys were made, and the
/// data of its private key.
pub(crate) fn put_seed<S: WordStore>(
    pair: &KeysOfPair,
    memory: &Memory<S>,
    linked: &Linked,
    seed: &mut [u8; SEED],
)
    requires up { memory.now.heap.down ≡ false }
    requires own { IsPair memory.now pair.now.own }
    requires private { IsKey memory.now pair.now.private }
    ensures { seed.new ≡ seed_of linked.now memory.now pair.now }
{
    let mut buffer = [0; MOST_DATA];
    let data = &mut buffer[..pair.private.elements.count as usize];
    read(pair.private.elements, memory, data);
    let random = linked.platform().table().random();
    let times = memory.reference(pair.own, TIMES_CELL);
    digest_of_four::<Sha256>(
        random,
        &pair.own.address().to_be_bytes(),
        &times.address().to_be_bytes(),
        data,
        seed,
    );
}

/// Writes a part after its length.
pub(crate) fn put_part(bytes: &[u8], to: &mut [u8])
    requires few { length bytes.now ≤ 1024 }
    requires all { length to.old ≡ 2 + length bytes.now }
    ensures { to.new ≡ part_bytes bytes.now }
{
    let (count, rest) = to.split_at_mut(2);
    count.copy_from_slice(&(bytes.len() as u16).to_be_bytes());
    rest.copy_from_slice(bytes);
}

/// Sets bytes of the data of the public key from a place on, and the first ones of the private key's.
pub(crate) fn change_keys<S: WordStore>(
    pair: &KeysOfPair,
    start: u16,
    public: &[u8],
    private: &[u8],
    args: &[Cell],
    memory: &mut Memory<S>,
    linked: &Linked,
) -> Result<NativeResult, StepExit>
    requires up { memory.old.heap.down ≡ false }
    requires start { start ≤ 32767 }
    requires public { length public.now ≤ MOST_ELEMENTS }
    requires private { length private.now ≤ MOST_ELEMENTS }
    ensures { Executes (generating_call (Ok (sets_keys_of pair.now (record {
      start = start;
      public = public.now;
      private = private.now;
    }))) args.now linked.now memory.old) memory.old
        (after_call result memory.new) }
{
    let public = NewElements {
        array: pair.public.elements.array,
        start,
        bytes: public,
    };
    let private = NewElements {
        array: pair.private.elements.array,
        start: 0,
        bytes: private,
    };
    change_pair(&public, &private, args, memory, linked)
}
