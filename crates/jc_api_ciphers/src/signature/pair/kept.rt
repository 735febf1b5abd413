//! The first bytes of a message, which a signature by ISO/IEC 9796-2 keeps until it ends.
ghost use Rattle.std.specs.Prelude.{◌≡◌, ◌≤◌, false, length, take};
ghost use Rattle.jc_world.specs.Arrays.{IsInArray};
ghost use Rattle.jc_api.specs.Changing.{IsState};
ghost use Rattle.jc_api_ciphers.specs.Cipher.Kinds.{rsa_shorts};
ghost use Rattle.jc_api_ciphers.specs.Signature.Pair.Kept.{first_bytes, kept_with, kept_words, no_more_than};
ghost use Rattle.jc_api_ciphers.specs.Signature.PairAlgorithms.{kept_shorts};
ghost use Rattle.jc_api_ciphers.specs.Signature.Pair.Signing.{IsRunningPair};

use crate::gathered::{put_gathered_words, put_piece, read_gathered};
use crate::signature::pair::RunningPair;
use crate::signature::pair_algorithms::PairSignature;
use jc_memory::Memory;
use jc_rsa::bytes::MOST_ENCODING;
use jc_words::WordStore;
use jc_world::Stretch;

// Elements, no more of them than this.
fn no_more_than(most: usize, e: &Stretch) -> Stretch
    requires few { most ≤ MOST_ENCODING }
    ensures { result ≡ no_more_than most e.now }
{
    Stretch {
        array: e.array,
        start: e.start,
        count: e.count.min(most as u16),
    }
}

// Writes what was kept and elements after it, as many bytes as there is room for, and returns how many that are.
fn put_kept_with<S: WordStore>(
    kept: Stretch,
    piece: &Stretch,
    memory: &Memory<S>,
    to: &mut [u8],
) -> usize
    requires up { memory.now.heap.down ≡ false }
    requires kept { IsState memory.now kept }
    requires all { kept.count ≡ rsa_shorts }
    requires piece { IsInArray memory.now piece.now }
    requires room { length to.old ≡ MOST_ENCODING }
    ensures first { take result to.new ≡ kept_with memory.now kept piece.now }
    ensures few { result ≤ MOST_ENCODING }
{
    let count = read_gathered(kept, memory, to);
    let more = no_more_than(MOST_ENCODING - count, piece);
    let added = more.count as usize;
    put_piece(count, more, memory, to);
    count + added
}

/// Writes the first bytes of the message with elements, of which its signature is made, and returns how many they are.
pub(crate) fn put_first_bytes<S: WordStore>(
    own: &RunningPair,
    piece: &Stretch,
    memory: &Memory<S>,
    to: &mut [u8],
) -> usize
    requires up { memory.now.heap.down ≡ false }
    requires own { IsRunningPair memory.now own.now }
    requires piece { IsInArray memory.now piece.now }
    requires room { length to.old ≡ MOST_ENCODING }
    ensures first { take result to.new ≡ first_bytes own.now.algorithm memory.now own.now piece.now }
    ensures few { result ≤ MOST_ENCODING }
{
    match own.algorithm {
        PairSignature::Iso9796 => put_kept_with(own.kept, piece, memory, to),
        PairSignature::Rsa(_, _) | PairSignature::Ecdsa(_) => 0,
    }
}

/// Writes the shorts that keep them.
pub(crate) fn put_kept_words<S: WordStore>(
    own: &RunningPair,
    piece: &Stretch,
    memory: &Memory<S>,
    to: &mut [u16],
)
    requires up { memory.now.heap.down ≡ false }
    requires own { IsRunningPair memory.now own.now }
    requires piece { IsInArray memory.now piece.now }
    requires room { length to.old ≡ kept_shorts own.now.algorithm }
    ensures { to.new ≡ kept_words own.now.algorithm memory.now own.now piece.now }
{
    match own.algorithm {
        PairSignature::Iso9796 => {
            let mut buffer = [0; MOST_ENCODING];
            let count = put_kept_with(own.kept, piece, memory, &mut buffer);
            put_gathered_words(&buffer[..count], to);
        }
        PairSignature::Rsa(_, _) | PairSignature::Ecdsa(_) => {}
    }
}
