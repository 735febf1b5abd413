//! Messages through a mode of a block cipher and a padding.

ghost use Rattle.std.specs.Prelude.{◌≡◌, ◌≢◌, ◌≤◌, ◌<◌, ◌+◌, ◌*◌, ◌++◌, ◌&&◌, ℕ, List, IfSome, false, length, nat_eq, not, take, true};
ghost use Rattle.std.specs.Option.{option_map};
ghost use Rattle.jc_ciphers.specs.Kept.{IsKeyLength, block_size, chain_in, next_output, next_state, open_in, ready_blocks, state_of, state_size};
ghost use Rattle.jc_ciphers.specs.Kept.Conversion.{chained_by, conversion_after, conversion_end, conversion_output, holds_back, last_size, next_end, padded, released, size_of, unpadded, whole_output, written_by};
ghost use Rattle.jc_ciphers.specs.Modes.{IsUnderWay};

use crate::aes::Aes;
use crate::bytes::{clear_from, put};
use crate::cipher::{BlockCipher, block_8};
use crate::conversion::{Progress, convert, flush, make_room};
use crate::des::Des;
use crate::kept::{BlockAlgorithm, MOST_BLOCK};
use crate::padding::{Padding, pad, unpadded};
use crate::steps::{CbcDecryption, CbcEncryption, EcbDecryption, EcbEncryption, Step};
use crate::triple_des::TripleDes;

/// How blocks are chained.
#[derive(Clone, Copy)]
pub enum Chaining {
    Ecb,
    Cbc,
}

/// Whether a message is enciphered or deciphered.
#[derive(Clone, Copy)]
pub enum Direction {
    Encrypt,
    Decrypt,
}

/// A block cipher in a mode, with a padding.
#[derive(Clone, Copy)]
pub struct Conversion {
    pub algorithm: BlockAlgorithm,
    pub chaining: Chaining,
    pub direction: Direction,
    pub padding: Padding,
}

// Whether the last whole block is held back, since a padding may stand in it.
fn holds_back(direction: Direction, padding: Padding) -> bool
    ensures { result ≡ holds_back direction padding }
{
    match direction {
        Direction::Encrypt => false,
        Direction::Decrypt => match padding {
            Padding::NoPadding => false,
            Padding::Method1 | Padding::Method2 | Padding::Pkcs5 => true,
        },
    }
}

// ---- states, whatever the mode

// Reads a state: the chaining block, the open block, and how many bytes of that came.
fn read_state(vector: &[u8], state: &[u8], chain: &mut [u8], block: &mut [u8]) -> usize
    requires state { length state.now ≡ 2 + 2 * length vector.now }
    requires chain { length chain.old ≡ length vector.now }
    requires block { length block.old ≡ length vector.now }
    ensures chain { chain.new ≡ chain_in (length vector.now) vector.now state.now }
    ensures rest { take result block.new ≡ open_in (length vector.now) state.now }
    ensures used { result ≡ length (open_in (length vector.now) state.now) }
    ensures few { result ≤ length vector.now }
{
    let size = vector.len();
    if state[0] == 0 {
        chain.copy_from_slice(vector);
    } else {
        chain.copy_from_slice(&state[2..2 + size]);
    }
    block.copy_from_slice(&state[2 + size..]);
    usize::from(state[1]).min(size)
}

// Writes the state of a chaining block and of the first bytes of an open block.
fn put_state(chain: &[u8], block: &[u8], used: usize, state: &mut [u8])
    requires chain { length chain.now ≡ length block.now }
    requires state { length state.old ≡ 2 + 2 * length block.now }
    requires used { used ≤ length block.now }
    requires few { length block.now ≤ MOST_BLOCK }
    ensures { state.new ≡ state_of (length block.now) chain.now (take used block.now) }
{
    let size = block.len();
    put(state, 0, &[1, used as u8]);
    put(state, 2, chain);
    put(state, 2 + size, &block[..used]);
    clear_from(state, 2 + size + used);
}

// Converts a piece after the open block, and then the open block, where it is full and not held back.
fn convert_ready<S: Step>(
    step: &S,
    holds: bool,
    chain: &mut [u8],
    block: &mut [u8],
    used: usize,
    piece: &[u8],
    to: &mut [u8],
) -> Progress
    requires chain { length chain.old ≡ S.size }
    requires block { length block.old ≡ S.size }
    requires some { 1 ≤ S.size }
    requires fits { S.size ≤ 16 }
    requires used { used ≤ S.size }
    requires room { used + length piece.now ≤ length to.old }
    ensures converted { IsUnderWay (S.chained step.now) (S.written step.now) S.size chain.old
        (take used block.old ++ piece.now) chain.new block.new result.used
        (take result.written to.new) }
    ensures left { holds ≡ false → result.used < S.size }
    ensures bytes { result.written + result.used ≡ used + length piece.now }
    ensures written { result.written ≡ ready_blocks holds S.size (used + length piece.now) * S.size }
{
    let progress = convert(step, chain, block, used, piece, to);
    if holds {
        return progress;
    }
    make_room(step, chain, block, progress, to)
}

// Takes in a piece.
fn update_by<S: Step>(
    step: &S,
    holds: bool,
    vector: &[u8],
    state: &mut [u8],
    piece: &[u8],
    to: &mut [u8],
) -> usize
    requires vector { length vector.now ≡ S.size }
    requires state { length state.old ≡ 2 + 2 * S.size }
    requires some { 1 ≤ S.size }
    requires fits { S.size ≤ 16 }
    requires room { S.size + length piece.now ≤ length to.old }
    ensures count { result ≡ ready_blocks holds S.size
        (length (open_in S.size state.old ++ piece.now)) * S.size }
    ensures output { take result to.new ≡ next_output (S.chained step.now) (S.written step.now)
        S.size holds vector.now state.old piece.now }
    ensures state { state.new ≡ next_state (S.chained step.now) S.size holds
        vector.now state.old piece.now }
{
    let size = vector.len();
    let mut first = [0; MOST_BLOCK];
    let chain = &mut first[..size];
    let mut open = [0; MOST_BLOCK];
    let block = &mut open[..size];
    let used = read_state(vector, state, chain, block);
    if used + piece.len() == 0 {
        return 0;
    }
    let progress = convert_ready(step, holds, chain, block, used, piece, to);
    put_state(chain, block, progress.used, state);
    progress.written
}

// How many bytes the last block of a message has, of which the first bytes of the open block are the last.
fn last_size(size: usize, came: bool, used: usize) -> usize
    requires { used < size }
    ensures { result ≡ last_size size came used }
{
    if used != 0 {
        used
    } else if came {
        size
    } else {
        0
    }
}

// Pads the open block and converts it. It returns how many bytes are written then, and nothing where the block is not whole.
fn end_padded<S: Step>(
    step: &S,
    padding: Padding,
    came: bool,
    chain: &mut [u8],
    block: &mut [u8],
    progress: Progress,
    to: &mut [u8],
) -> Option<usize>
    requires chain { length chain.old ≡ S.size }
    requires block { length block.old ≡ S.size }
    requires some { 1 ≤ S.size }
    requires fits { S.size ≤ 16 }
    requires used { progress.used < S.size }
    requires room { progress.written + S.size ≤ length to.old }
    ensures ended { (first m : List ℕ)
        → IsUnderWay (S.chained step.now) (S.written step.now) S.size first m chain.old block.old
        progress.used (take progress.written to.old)
        → option_map (λ n. take n to.new) result
        ≡ whole_output (S.chained step.now) (S.written step.now) S.size first
        (padded padding S.size came m) }
    ensures within { IfSome result (λ n. n ≤ length to.new) }
{
    let size = block.len();
    let mut bytes = [0; 16];
    let count = pad(
        padding,
        size,
        last_size(size, came, progress.used),
        &mut bytes,
    );
    if progress.used + count == 0 {
        return Some(progress.written);
    }
    if progress.used + count < size {
        return None;
    }
    put(block, progress.used, &bytes[..count]);
    let progress = flush(step, chain, block, to, progress.written);
    Some(progress.written)
}

// Whether a message has bytes, of which this many are open or come, and whose state begins so.
fn has_bytes(came: u8, count: usize) -> bool
    ensures { result ≡ not (nat_eq came 0 && nat_eq count 0) }
{
    came != 0 || count != 0
}

// Ends a message with its padding.
fn finish_padded<S: Step>(
    step: &S,
    padding: Padding,
    vector: &[u8],
    state: &[u8],
    piece: &[u8],
    to: &mut [u8],
) -> Option<usize>
    requires vector { length vector.now ≡ S.size }
    requires state { length state.now ≡ 2 + 2 * S.size }
    requires some { 1 ≤ S.size }
    requires fits { S.size ≤ 16 }
    requires room { 2 * S.size + length piece.now ≤ length to.old }
    ensures ended { option_map (λ n. take n to.new) result
        ≡ next_end false padding (S.chained step.now) (S.written step.now) S.size
        vector.now state.now piece.now }
    ensures within { IfSome result (λ n. n ≤ length to.new) }
{
    let size = vector.len();
    let mut first = [0; MOST_BLOCK];
    let chain = &mut first[..size];
    let mut open = [0; MOST_BLOCK];
    let block = &mut open[..size];
    let used = read_state(vector, state, chain, block);
    let came = has_bytes(state[0], used + piece.len());
    let progress = convert_ready(step, false, chain, block, used, piece, to);
    end_padded(step, padding, came, chain, block, progress, to)
}

// How many bytes of a message come before its padding, of which these are the last whole blocks. It is nothing of an empty message, and of one
// that ends by no padding.
fn unpadded_count(padding: Padding, size: usize, to: &[u8]) -> Option<usize>
    requires some { 1 ≤ size }
    requires fits { size ≤ 16 }
    requires whole { length to.now ≢ 0 → size ≤ length to.now }
    ensures ended { option_map (λ n. take n to.now) result ≡ unpadded padding size to.now }
    ensures within { IfSome result (λ n. n ≤ length to.now) }
{
    if to.is_empty() {
        return None;
    }
    let last = to.len() - size;
    let count = unpadded(padding, &to[last..])?;
    Some(last + count)
}

// Ends a message and takes its padding off.
fn finish_unpadded<S: Step>(
    step: &S,
    padding: Padding,
    vector: &[u8],
    state: &[u8],
    piece: &[u8],
    to: &mut [u8],
) -> Option<usize>
    requires vector { length vector.now ≡ S.size }
    requires state { length state.now ≡ 2 + 2 * S.size }
    requires some { 1 ≤ S.size }
    requires fits { S.size ≤ 16 }
    requires room { S.size + length piece.now ≤ length to.old }
    ensures ended { option_map (λ n. take n to.new) result
        ≡ next_end true padding (S.chained step.now) (S.written step.now) S.size
        vector.now state.now piece.now }
    ensures within { IfSome result (λ n. n ≤ length to.new) }
{
    let size = vector.len();
    let mut first = [0; MOST_BLOCK];
    let chain = &mut first[..size];
    let mut open = [0; MOST_BLOCK];
    let block = &mut open[..size];
    let used = read_state(vector, state, chain, block);
    let progress = convert_ready(step, false, chain, block, used, piece, to);
    if progress.used != 0 {
        return None;
    }
    unpadded_count(padding, size, &to[..progress.written])
}

// Ends a message, with its padding or taking it off.
fn finish_by<S: Step>(
    step: &S,
    holds: bool,
    padding: Padding,
    vector: &[u8],
    state: &[u8],
    piece: &[u8],
    to: &mut [u8],
) -> Option<usize>
    requires vector { length vector.now ≡ S.size }
    requires state { length state.now ≡ 2 + 2 * S.size }
    requires some { 1 ≤ S.size }
    requires fits { S.size ≤ 16 }
    requires room { 2 * S.size + length piece.now ≤ length to.old }
    ensures ended { option_map (λ n. take n to.new) result
        ≡ next_end holds padding (S.chained step.now) (S.written step.now) S.size
        vector.now state.now piece.now }
    ensures within { IfSome result (λ n. n ≤ length to.new) }
{
    if holds {
        return finish_unpadded(step, padding, vector, state, piece, to);
    }
    finish_padded(step, padding, vector, state, piece, to)
}

// ---- the modes

// Takes in a piece under a cipher.
fn update_with<C: BlockCipher>(
    cipher: C,
    conversion: &Conversion,
    vector: &[u8],
    state: &mut [u8],
    piece: &[u8],
    to: &mut [u8],
) -> usize
    requires vector { length vector.now ≡ C.size }
    requires state { length state.old ≡ 2 + 2 * C.size }
    requires some { 1 ≤ C.size }
    requires fits { C.size ≤ 16 }
    requires room { C.size + length piece.now ≤ length to.old }
    ensures count { result ≡ ready_blocks (holds_back conversion.now.direction conversion.now.padding)
        C.size (length (open_in C.size state.old ++ piece.now)) * C.size }
    ensures output { take result to.new ≡ next_output
        (chained_by conversion.now.chaining conversion.now.direction (C.encrypted cipher) C.size)
        (written_by conversion.now.chaining conversion.now.direction
        (C.encrypted cipher) (C.decrypted cipher) C.size)
        C.size (holds_back conversion.now.direction conversion.now.padding)
        vector.now state.old piece.now }
    ensures state { state.new ≡ next_state
        (chained_by conversion.now.chaining conversion.now.direction (C.encrypted cipher) C.size)
        C.size (holds_back conversion.now.direction conversion.now.padding)
        vector.now state.old piece.now }
{
    let holds = holds_back(conversion.direction, conversion.padding);
    match conversion.chaining {
        Chaining::Ecb => match conversion.direction {
            Direction::Encrypt => update_by(
                &EcbEncryption { cipher },
                holds,
                vector,
                state,
                piece,
                to,
            ),
            Direction::Decrypt => update_by(
                &EcbDecryption { cipher },
                holds,
                vector,
                state,
                piece,
                to,
            ),
        },
        Chaining::Cbc => match conversion.direction {
            Direction::Encrypt => update_by(
                &CbcEncryption { cipher },
                holds,
                vector,
                state,
                piece,
                to,
            ),
            Direction::Decrypt => update_by(
                &CbcDecryption { cipher },
                holds,
                vector,
                state,
                piece,
                to,
            ),
        },
    }
}

// Ends a message under a cipher.
fn finish_with<C: BlockCipher>(
    cipher: C,
    conversion: &Conversion,
    vector: &[u8],
    state: &[u8],
    piece: &[u8],
    to: &mut [u8],
) -> Option<usize>
    requires vector { length vector.now ≡ C.size }
    requires state { length state.now ≡ 2 + 2 * C.size }
    requires some { 1 ≤ C.size }
    requires fits { C.size ≤ 16 }
    requires room { 2 * C.size + length piece.now ≤ length to.old }
    ensures ended { option_map (λ n. take n to.new) result ≡ next_end
        (holds_back conversion.now.direction conversion.now.padding) conversion.now.padding
        (chained_by conversion.now.chaining conversion.now.direction (C.encrypted cipher) C.size)
        (written_by conversion.now.chaining conversion.now.direction
        (C.encrypted cipher) (C.decrypted cipher) C.size)
        C.size vector.now state.now piece.now }
    ensures within { IfSome result (λ n. n ≤ length to.new) }
{
    let holds = holds_back(conversion.direction, conversion.padding);
    let padding = conversion.padding;
    match conversion.chaining {
        Chaining::Ecb => match conversion.direction {
            Direction::Encrypt => finish_by(
                &EcbEncryption { cipher },
                holds,
                padding,
                vector,
                state,
                piece,
                to,
            ),
            Direction::Decrypt => finish_by(
                &EcbDecryption { cipher },
                holds,
                padding,
                vector,
                state,
                piece,
                to,
            ),
        },
        Chaining::Cbc => match conversion.direction {
            Direction::Encrypt => finish_by(
                &CbcEncryption { cipher },
                holds,
                padding,
                vector,
                state,
                piece,
                to,
            ),
            Direction::Decrypt => finish_by(
                &CbcDecryption { cipher },
                holds,
                padding,
                vector,
                state,
                piece,
                to,
            ),
        },
    }
}

// ---- the ciphers

/// Takes a piece of a message into a state, and writes the blocks that are released. It returns how many bytes it wrote, as `released` says.
/// The vector counts in CBC alone.
pub fn update_conversion(
    conversion: &Conversion,
    key: &[u8],
    vector: &[u8],
    state: &mut [u8],
    piece: &[u8],
    to: &mut [u8],
) -> usize
    requires key { IsKeyLength conversion.now.algorithm (length key.now) }
    requires vector { length vector.now ≡ block_size conversion.now.algorithm }
    requires state { length state.old ≡ state_size conversion.now.algorithm }
    requires room { block_size conversion.now.algorithm + length piece.now ≤ length to.old }
    ensures count { result ≡ released conversion.now
        (length (open_in (size_of conversion.now) state.old ++ piece.now)) }
    ensures output { take result to.new
        ≡ conversion_output conversion.now key.now vector.now state.old piece.now }
    ensures state { state.new
        ≡ conversion_after conversion.now key.now vector.now state.old piece.now }
{
    match conversion.algorithm {
        BlockAlgorithm::Aes => update_with(Aes::new(key), conversion, vector, state, piece, to),
        BlockAlgorithm::Des => {
            if key.len() == 8 {
                update_with(
                    Des::new(&block_8(key)),
                    conversion,
                    vector,
                    state,
                    piece,
                    to,
                )
            } else {
                update_with(TripleDes::new(key), conversion, vector, state, piece, to)
            }
        }
    }
}

/// Ends a message with its last piece, and writes what is left of it. It returns how many bytes it wrote, and nothing where a message without
/// padding is no whole blocks, and, in deciphering, where it ends by no padding. The vector counts in CBC alone.
pub fn finish_conversion(
    conversion: &Conversion,
    key: &[u8],
    vector: &[u8],
    state: &[u8],
    piece: &[u8],
    to: &mut [u8],
) -> Option<usize>
    requires key { IsKeyLength conversion.now.algorithm (length key.now) }
    requires vector { length vector.now ≡ block_size conversion.now.algorithm }
    requires state { length state.now ≡ state_size conversion.now.algorithm }
    requires room { 2 * block_size conversion.now.algorithm + length piece.now ≤ length to.old }
    ensures ended { option_map (λ n. take n to.new) result
        ≡ conversion_end conversion.now key.now vector.now state.now piece.now }
    ensures within { IfSome result (λ n. n ≤ length to.new) }
{
    match conversion.algorithm {
        BlockAlgorithm::Aes => finish_with(Aes::new(key), conversion, vector, state, piece, to),
        BlockAlgorithm::Des => {
            if key.len() == 8 {
                finish_with(
                    Des::new(&block_8(key)),
                    conversion,
                    vector,
                    state,
                    piece,
                    to,
                )
            } else {
                finish_with(TripleDes::new(key), conversion, vector, state, piece, to)
            }
        }
    }
}
