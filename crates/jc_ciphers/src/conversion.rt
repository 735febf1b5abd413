//! A message through a mode, in pieces of any lengths.

ghost use Rattle.std.specs.Prelude.{◌≡◌, ◌≤◌, ◌<◌, ◌+◌, ◌*◌, ◌++◌, ℕ, List, length, take, IfNone, IfSome};
ghost use Rattle.jc_ciphers.specs.Padding.{IsWhole, padding_of};
ghost use Rattle.jc_ciphers.specs.Modes.{IsUnderWay};

use crate::bytes::put;
use crate::padding::{Padding, pad};
use crate::steps::Step;

/// How far a message has come.
#[derive(Clone, Copy)]
pub struct Progress {
    /// How many bytes of the open block are filled.
    pub used: usize,

    /// How many bytes were written.
    pub written: usize,
}

/// Converts the open block, which is full, and writes it after the first `written` bytes.
pub fn flush<S: Step>(
    step: &S,
    chain: &mut [u8],
    block: &mut [u8],
    to: &mut [u8],
    written: usize,
) -> Progress
    requires chain { length chain.old ≡ S.size }
    requires block { length block.old ≡ S.size }
    requires fits { S.size ≤ 16 }
    requires room { written + S.size ≤ length to.old }
    ensures converted { (first m out : List ℕ)
        → IsUnderWay (S.chained step.now) (S.written step.now) S.size first m chain.old block.old S.size
        (out ++ take written to.old)
        → IsUnderWay (S.chained step.now) (S.written step.now) S.size first m chain.new block.new result.used
        (out ++ take result.written to.new) }
    ensures used { result.used ≡ 0 }
    ensures written { result.written ≡ written + S.size }
{
    step.step(chain, block);
    put(to, written, block);
    Progress {
        used: 0,
        written: written + block.len(),
    }
}

// Converts the open block if it is full, so that there is room for a byte.
pub(crate) fn make_room<S: Step>(
    step: &S,
    chain: &mut [u8],
    block: &mut [u8],
    progress: Progress,
    to: &mut [u8],
) -> Progress
    requires chain { length chain.old ≡ S.size }
    requires block { length block.old ≡ S.size }
    requires some { 1 ≤ S.size }
    requires fits { S.size ≤ 16 }
    requires used { progress.used ≤ S.size }
    requires room { progress.written + progress.used ≤ length to.old }
    ensures converted { (first m out : List ℕ)
        → IsUnderWay (S.chained step.now) (S.written step.now) S.size first m chain.old block.old progress.used
        (out ++ take progress.written to.old)
        → IsUnderWay (S.chained step.now) (S.written step.now) S.size first m chain.new block.new result.used
        (out ++ take result.written to.new) }
    ensures used { result.used < S.size }
    ensures bytes { result.written + result.used ≡ progress.written + progress.used }
{
    if progress.used < block.len() {
        return progress;
    }
    flush(step, chain, block, to, progress.written)
}

/// Converts a piece, after the `used` bytes of the open block, and writes each block that another one follows. What is written of all
/// pieces, one after the other, is what the mode makes of the message.
pub fn convert<S: Step>(
    step: &S,
    chain: &mut [u8],
    block: &mut [u8],
    used: usize,
    piece: &[u8],
    to: &mut [u8],
) -> Progress
    requires chain { length chain.old ≡ S.size }
    requires block { length block.old ≡ S.size }
    requires some { 1 ≤ S.size }
    requires fits { S.size ≤ 16 }
    requires used { used ≤ S.size }
    requires room { used + length piece.now ≤ length to.old }
    ensures converted { (first m out : List ℕ)
        → IsUnderWay (S.chained step.now) (S.written step.now) S.size first m chain.old block.old used out
        → IsUnderWay (S.chained step.now) (S.written step.now) S.size first (m ++ piece.now) chain.new block.new result.used
        (out ++ take result.written to.new) }
    ensures used { result.used ≤ S.size }
    ensures filled { 1 ≤ used + length piece.now → 1 ≤ result.used }
    ensures bytes { result.written + result.used ≡ used + length piece.now }
{
    let mut progress = Progress { used, written: 0 };
    let mut done = 0;
    'parts: while done < piece.len() {
        progress = make_room(step, chain, block, progress, to);
        let count = (piece.len() - done).min(block.len() - progress.used);
        put(block, progress.used, &piece[done..done + count]);
        progress.used += count;
        done += count;
    }
    progress
}

/// Pads the message and converts its last blocks, which it writes. It returns how many bytes it wrote, and nothing where the message is not
/// whole blocks and has no padding. A block of the message must not have been flushed before.
pub fn finish<S: Step>(
    step: &S,
    padding: Padding,
    chain: &mut [u8],
    block: &mut [u8],
    used: usize,
    to: &mut [u8],
) -> Option<usize>
    requires chain { length chain.old ≡ S.size }
    requires block { length block.old ≡ S.size }
    requires some { 1 ≤ S.size }
    requires size { S.size ≤ 16 }
    requires used { used ≤ S.size }
    requires room { 2 * S.size ≤ length to.old }
    ensures converted { (first m out : List ℕ)
        → IsUnderWay (S.chained step.now) (S.written step.now) S.size first m chain.old block.old used out
        → IfSome result (λ count. IsUnderWay (S.chained step.now) (S.written step.now) S.size first
        (m ++ padding_of padding S.size used) chain.new block.new 0 (out ++ take count to.new)) }
    ensures refused { IfNone result (¬ (IsWhole padding S.size used)) }
{
    let mut bytes = [0; 16];
    let count = pad(padding, block.len(), used, &mut bytes);
    let progress = convert(step, chain, block, used, &bytes[..count], to);
    if progress.used == 0 {
        return Some(progress.written);
    }
    if progress.used < block.len() {
        return None;
    }
    let progress = flush(step, chain, block, to, progress.written);
    Some(progress.written)
}
