//! Codes by block ciphers, whose state stands as bytes between two pieces of a message: that of its blocks through CBC, of which the last
//! stays open. Zeros are the state of no message.

ghost use Rattle.std.specs.Prelude.{◌≡◌, ◌≤◌, ◌<◌, ◌+◌, ◌*◌, ◌/◌, ◌++◌, ℕ, List, Option, Some, None, [], ◌∷◌, length, take, drop, nat_eq, true, false, if◌then◌else◌};
ghost use Rattle.std.specs.Bool.{OnFalse};
ghost use Rattle.std.specs.Option.{option_map};
ghost use Rattle.jc_ciphers.specs.Aes as aes;
ghost use Rattle.jc_ciphers.specs.TripleDes.{IsTripleLength};
ghost use Rattle.jc_ciphers.specs.Kept.{IsKeyLength, block_size, chain_in, encrypted_under, next_state, open_in, ready_blocks, state_of, state_size};
ghost use Rattle.jc_ciphers.specs.Kept.Macs.{IsMacKeyLength, blocks_after, cipher_of, closed_mac, finished_by, is_closed, last_chain, mac_from, mac_of_state, mac_state_after, padded};
ghost use Rattle.jc_ciphers.specs.declared.kept.BlockAlgorithm.TheVariants as ciphers;
ghost use Rattle.jc_ciphers.specs.Macs.{cmac_end};
ghost use Rattle.jc_ciphers.specs.Modes.{IsUnderWay, chain_after};

use crate::aes::Aes;
use crate::bytes::{clear_from, put};
use crate::cipher::block_8;
use crate::conversion::finish;
use crate::des::Des;
use crate::kept::{BlockAlgorithm, MOST_BLOCK, MOST_STATE};
use crate::macs::{finish_3, finish_cmac};
use crate::padding::Padding;
use crate::steps::{CbcEncryption, Step};
use crate::triple_des::TripleDes;

/// How a code comes of a message.
#[derive(Clone, Copy)]
pub enum MacAlgorithm {
    /// Algorithm 1 of ISO 9797-1, over any block cipher.
    Cbc(BlockAlgorithm, Padding),
    /// Algorithm 3 of ISO 9797-1, over DES under a key of two parts or three.
    Algorithm3(Padding),
    /// CMAC (SP 800-38B), over AES.
    Cmac,
}

impl MacAlgorithm {
    /// The block cipher, whose state the message has and whose block the code.
    pub fn cipher(self) -> BlockAlgorithm
        ensures { result ≡ cipher_of self }
    {
        match self {
            MacAlgorithm::Cbc(cipher, _) => cipher,
            MacAlgorithm::Algorithm3(_) => BlockAlgorithm::Des,
            MacAlgorithm::Cmac => BlockAlgorithm::Aes,
        }
    }
}

// ---- states, whatever the mode

// Takes in the open block if it is full; gives how many bytes of it there are then.
fn make_room<S: Step>(step: &S, chain: &mut [u8], block: &mut [u8], used: usize) -> usize
    requires chain { length chain.old ≡ S.size }
    requires block { length block.old ≡ S.size }
    requires some { 1 ≤ S.size }
    requires fits { S.size ≤ 16 }
    requires used { used ≤ S.size }
    ensures under { (first m out : List ℕ)
        → IsUnderWay (S.chained step.now) (S.written step.now) S.size first m chain.old block.old used out
        → (more : List ℕ)
        × IsUnderWay (S.chained step.now) (S.written step.now) S.size first m chain.new block.new result more }
    ensures room { result < S.size }
{
    if used < block.len() {
        return used;
    }
    step.step(chain, block);
    0
}

// Takes in a byte after the first `used` bytes of the open block; gives how many there are then.
fn take_byte<S: Step>(step: &S, chain: &mut [u8], block: &mut [u8], used: usize, byte: u8) -> usize
    requires chain { length chain.old ≡ S.size }
    requires block { length block.old ≡ S.size }
    requires some { 1 ≤ S.size }
    requires fits { S.size ≤ 16 }
    requires used { used ≤ S.size }
    ensures under { (first m out : List ℕ)
        → IsUnderWay (S.chained step.now) (S.written step.now) S.size first m chain.old block.old used out
        → (more : List ℕ)
        × IsUnderWay (S.chained step.now) (S.written step.now) S.size first (m ++ byte ∷ []) chain.new block.new result more }
    ensures some { 1 ≤ result }
    ensures within { result ≤ S.size }
{
    let at = make_room(step, chain, block, used);
    block[at] = byte;
    at + 1
}

// Takes in a piece; gives how many bytes of the open block there are then.
fn take_in<S: Step>(
    step: &S,
    chain: &mut [u8],
    block: &mut [u8],
    used: usize,
    piece: &[u8],
) -> usize
    requires chain { length chain.old ≡ S.size }
    requires block { length block.old ≡ S.size }
    requires some { 1 ≤ S.size }
    requires fits { S.size ≤ 16 }
    requires used { used ≤ S.size }
    ensures chain { chain.new ≡ chain_after (S.chained step.now) S.size chain.old
        (take used block.old ++ piece.now) (ready_blocks true S.size (used + length piece.now)) }
    ensures rest { take result block.new
        ≡ drop (ready_blocks true S.size (used + length piece.now) * S.size)
        (take used block.old ++ piece.now) }
    ensures within { result ≤ S.size }
{
    let mut filled = used;
    'bytes: for i in 0..piece.len() {
        filled = take_byte(step, chain, block, filled, piece[i]);
    }
    filled
}

// The chaining block and the open block that a state says; gives how many bytes of it came.
fn read_state(vector: &[u8], state: &[u8], chain: &mut [u8], block: &mut [u8]) -> usize
    requires vector { length vector.now ≡ length chain.old }
    requires block { length block.old ≡ length chain.old }
    requires state { length state.now ≡ 2 + 2 * length chain.old }
    ensures chain { chain.new ≡ chain_in (length chain.old) vector.now state.now }
    ensures open { take result block.new ≡ open_in (length chain.old) state.now }
    ensures within { result ≤ length chain.old }
{
    let size = chain.len();
    if state[0] == 0 {
        chain.copy_from_slice(vector);
    } else {
        chain.copy_from_slice(&state[2..2 + size]);
    }
    block.copy_from_slice(&state[2 + size..]);
    (state[1] as usize).min(size)
}

// Writes the state of a chaining block and of the bytes of an open block.
fn put_state(chain: &[u8], rest: &[u8], state: &mut [u8])
    requires state { length state.old ≡ 2 + 2 * length chain.now }
    requires few { length chain.now ≤ 16 }
    requires rest { length rest.now ≤ length chain.now }
    ensures { state.new ≡ state_of (length chain.now) chain.now rest.now }
{
    state[0] = 1;
    state[1] = rest.len() as u8;
    put(state, 2, chain);
    put(state, 2 + chain.len(), rest);
    clear_from(state, 2 + chain.len() + rest.len());
}

// Whether nothing is open and nothing comes.
fn is_nothing(used: usize, piece: &[u8]) -> bool
    ensures { result ≡ nat_eq (used + length piece.now) 0 }
{
    used == 0 && piece.is_empty()
}

// Takes in a piece.
fn next_state<S: Step>(step: &S, vector: &[u8], state: &mut [u8], piece: &[u8])
    requires some { 1 ≤ S.size }
    requires fits { S.size ≤ 16 }
    requires vector { length vector.now ≡ S.size }
    requires state { length state.old ≡ 2 + 2 * S.size }
    ensures { state.new
        ≡ next_state (S.chained step.now) S.size true vector.now state.old piece.now }
{
    let size = vector.len();
    let mut buffer = [0; MOST_BLOCK];
    let chain = &mut buffer[..size];
    let mut buffer = [0; MOST_BLOCK];
    let block = &mut buffer[..size];
    let used = read_state(vector, state, chain, block);
    if is_nothing(used, piece) {
        return;
    }
    let filled = take_in(step, chain, block, used, piece);
    put_state(chain, &block[..filled], state);
}

// Whether a padding after the bytes of a last block makes whole blocks, one at least.
fn is_closed(padding: Padding, size: usize, used: usize) -> bool
    ensures { result ≡ is_closed padding size used }
{
    match padding {
        Padding::NoPadding => used == size,
        Padding::Method1 | Padding::Method2 | Padding::Pkcs5 => true,
    }
}

// Pads the last block and takes in what comes of it.
fn close<S: Step>(step: &S, padding: Padding, chain: &mut [u8], block: &mut [u8], used: usize)
    requires chain { length chain.old ≡ S.size }
    requires block { length block.old ≡ S.size }
    requires some { 1 ≤ S.size }
    requires fits { S.size ≤ 16 }
    requires used { used ≤ S.size }
    requires closed { is_closed padding S.size used ≡ true }
    ensures { chain.new ≡ chain_after (S.chained step.now) S.size chain.old
        (padded padding S.size (take used block.old))
        (length (padded padding S.size (take used block.old)) / S.size) }
{
    let mut to = [0; 2 * MOST_BLOCK];
    let _ = finish(step, padding, chain, block, used, &mut to);
}

// ---- the block ciphers

fn update_aes(key: &[u8], vector: &[u8], state: &mut [u8], piece: &[u8])
    requires key { IsKeyLength ciphers.Aes (length key.now) }
    requires vector { length vector.now ≡ 16 }
    requires state { length state.old ≡ state_size ciphers.Aes }
    ensures { state.new ≡ blocks_after ciphers.Aes key.now vector.now state.old piece.now }
{
    let cipher = Aes::new(key);
    next_state(&CbcEncryption { cipher }, vector, state, piece);
}

fn update_des(key: &[u8], vector: &[u8], state: &mut [u8], piece: &[u8])
    requires key { length key.now ≡ 8 }
    requires vector { length vector.now ≡ 8 }
    requires state { length state.old ≡ state_size ciphers.Des }
    ensures { state.new ≡ blocks_after ciphers.Des key.now vector.now state.old piece.now }
{
    let bytes = block_8(key);
    let cipher = Des::new(&bytes);
    next_state(&CbcEncryption { cipher }, vector, state, piece);
}

fn update_triple(key: &[u8], vector: &[u8], state: &mut [u8], piece: &[u8])
    requires key { IsTripleLength (length key.now) }
    requires vector { length vector.now ≡ 8 }
    requires state { length state.old ≡ state_size ciphers.Des }
    ensures { state.new ≡ blocks_after ciphers.Des key.now vector.now state.old piece.now }
{
    let cipher = TripleDes::new(key);
    next_state(&CbcEncryption { cipher }, vector, state, piece);
}

fn close_aes(key: &[u8], padding: Padding, chain: &mut [u8], block: &mut [u8], used: usize)
    requires key { IsKeyLength ciphers.Aes (length key.now) }
    requires chain { length chain.old ≡ 16 }
    requires block { length block.old ≡ 16 }
    requires used { used ≤ 16 }
    requires closed { is_closed padding 16 used ≡ true }
    ensures { chain.new ≡ last_chain padding ciphers.Aes key.now chain.old (take used block.old) }
{
    let cipher = Aes::new(key);
    close(&CbcEncryption { cipher }, padding, chain, block, used);
}

fn close_des(key: &[u8], padding: Padding, chain: &mut [u8], block: &mut [u8], used: usize)
    requires key { length key.now ≡ 8 }
    requires chain { length chain.old ≡ 8 }
    requires block { length block.old ≡ 8 }
    requires used { used ≤ 8 }
    requires closed { is_closed padding 8 used ≡ true }
    ensures { chain.new ≡ last_chain padding ciphers.Des key.now chain.old (take used block.old) }
{
    let bytes = block_8(key);
    let cipher = Des::new(&bytes);
    close(&CbcEncryption { cipher }, padding, chain, block, used);
}

fn close_triple(key: &[u8], padding: Padding, chain: &mut [u8], block: &mut [u8], used: usize)
    requires key { IsTripleLength (length key.now) }
    requires chain { length chain.old ≡ 8 }
    requires block { length block.old ≡ 8 }
    requires used { used ≤ 8 }
    requires closed { is_closed padding 8 used ≡ true }
    ensures { chain.new ≡ last_chain padding ciphers.Des key.now chain.old (take used block.old) }
{
    let cipher = TripleDes::new(key);
    close(&CbcEncryption { cipher }, padding, chain, block, used);
}

// Takes in a piece under the cipher that a key's length says.
#[tactic(auto, using(crate::proofs::KeptCiphers::two_or_three))]
fn update_blocks(
    algorithm: BlockAlgorithm,
    key: &[u8],
    vector: &[u8],
    state: &mut [u8],
    piece: &[u8],
)
    requires key { IsKeyLength algorithm (length key.now) }
    requires vector { length vector.now ≡ block_size algorithm }
    requires state { length state.old ≡ state_size algorithm }
    ensures { state.new ≡ blocks_after algorithm key.now vector.now state.old piece.now }
{
    match algorithm {
        BlockAlgorithm::Aes => update_aes(key, vector, state, piece),
        BlockAlgorithm::Des => {
            if key.len() == 8 {
                update_des(key, vector, state, piece);
            } else {
                update_triple(key, vector, state, piece);
            }
        }
    }
}

// The end of the blocks under that cipher.
#[tactic(auto, using(crate::proofs::KeptCiphers::two_or_three))]
fn close_blocks(
    algorithm: BlockAlgorithm,
    key: &[u8],
    padding: Padding,
    chain: &mut [u8],
    block: &mut [u8],
    used: usize,
)
    requires key { IsKeyLength algorithm (length key.now) }
    requires chain { length chain.old ≡ block_size algorithm }
    requires block { length block.old ≡ block_size algorithm }
    requires used { used ≤ block_size algorithm }
    requires closed { is_closed padding (block_size algorithm) used ≡ true }
    ensures { chain.new ≡ last_chain padding algorithm key.now chain.old (take used block.old) }
{
    match algorithm {
        BlockAlgorithm::Aes => close_aes(key, padding, chain, block, used),
        BlockAlgorithm::Des => {
            if key.len() == 8 {
                close_des(key, padding, chain, block, used);
            } else {
                close_triple(key, padding, chain, block, used);
            }
        }
    }
}

// ---- the algorithms

/// Takes a piece of a message under a key into a state. The vector is the first chaining block, of CMAC zeros.
pub fn update_mac(
    algorithm: MacAlgorithm,
    key: &[u8],
    vector: &[u8],
    state: &mut [u8],
    piece: &[u8],
)
    requires key { IsMacKeyLength algorithm (length key.now) }
    requires vector { length vector.now ≡ block_size (cipher_of algorithm) }
    requires state { length state.old ≡ state_size (cipher_of algorithm) }
    ensures { state.new ≡ mac_state_after algorithm key.now vector.now state.old piece.now }
{
    match algorithm {
        MacAlgorithm::Cbc(cipher, _) => update_blocks(cipher, key, vector, state, piece),
        MacAlgorithm::Algorithm3(_) => update_des(&key[..8], vector, state, piece),
        MacAlgorithm::Cmac => update_aes(key, vector, state, piece),
    }
}

// A part of a key of DES.
fn part(key: &[u8], at: usize) -> [u8; 8]
    requires { at + 8 ≤ length key.now }
    ensures { result ≡ take 8 (drop at key.now) }
{
    let mut part = [0; 8];
    part.copy_from_slice(&key[at..at + 8]);
    part
}

// Makes the chaining block under the first part of a key the code of algorithm 3.
fn finish_by(key: &[u8], chain: &mut [u8])
    requires key { IsTripleLength (length key.now) }
    requires chain { length chain.old ≡ 8 }
    ensures { chain.new ≡ finished_by key.now chain.old }
{
    let third = if key.len() == 16 {
        part(key, 0)
    } else {
        part(key, 16)
    };
    let second = part(key, 8);
    let last = Des::new(&third);
    let middle = Des::new(&second);
    finish_3(&last, &middle, chain);
}

// Makes the chaining block the code of a message by algorithm 1, of whose last block there are `used` bytes.
fn finish_cbc(
    algorithm: BlockAlgorithm,
    key: &[u8],
    padding: Padding,
    chain: &mut [u8],
    block: &mut [u8],
    used: usize,
) -> bool
    requires key { IsKeyLength algorithm (length key.now) }
    requires chain { length chain.old ≡ block_size algorithm }
    requires block { length block.old ≡ block_size algorithm }
    requires used { used ≤ block_size algorithm }
    ensures { (if result then Some chain.new else None)
        ≡ closed_mac padding algorithm key.now chain.old (take used block.old) }
{
    if is_closed(padding, chain.len(), used) {
        close_blocks(algorithm, key, padding, chain, block, used);
        return true;
    }
    false
}

// The same by algorithm 3.
fn finish_retail(
    key: &[u8],
    padding: Padding,
    chain: &mut [u8],
    block: &mut [u8],
    used: usize,
) -> bool
    requires key { IsTripleLength (length key.now) }
    requires chain { length chain.old ≡ 8 }
    requires block { length block.old ≡ 8 }
    requires used { used ≤ 8 }
    ensures { (if result then Some chain.new else None)
        ≡ option_map (finished_by key.now) (closed_mac padding ciphers.Des (take 8 key.now) chain.old (take used block.old)) }
{
    if is_closed(padding, chain.len(), used) {
        close_des(&key[..8], padding, chain, block, used);
        finish_by(key, chain);
        return true;
    }
    false
}

// The same by CMAC.
fn finish_cmac_of(key: &[u8], chain: &mut [u8], block: &mut [u8], used: usize)
    requires key { IsKeyLength ciphers.Aes (length key.now) }
    requires chain { length chain.old ≡ 16 }
    requires block { length block.old ≡ 16 }
    requires used { used ≤ 16 }
    ensures { chain.new ≡ cmac_end (aes.encrypted key.now) 16 chain.old (take used block.old) (length (take used block.old)) }
{
    let cipher = Aes::new(key);
    finish_cmac(&cipher, chain, block, used);
}

// The same by any algorithm.
fn finish_code(
    algorithm: MacAlgorithm,
    key: &[u8],
    chain: &mut [u8],
    block: &mut [u8],
    used: usize,
) -> bool
    requires key { IsMacKeyLength algorithm (length key.now) }
    requires chain { length chain.old ≡ block_size (cipher_of algorithm) }
    requires block { length block.old ≡ block_size (cipher_of algorithm) }
    requires used { used ≤ block_size (cipher_of algorithm) }
    ensures { (if result then Some chain.new else None)
        ≡ mac_from algorithm key.now chain.old (take used block.old) }
{
    match algorithm {
        MacAlgorithm::Cbc(cipher, padding) => {
            finish_cbc(cipher, key, padding, chain, block, used)
        }
        MacAlgorithm::Algorithm3(padding) => finish_retail(key, padding, chain, block, used),
        MacAlgorithm::Cmac => {
            finish_cmac_of(key, chain, block, used);
            true
        }
    }
}

// Writes the code of a message that a state has taken in.
fn put_code(algorithm: MacAlgorithm, key: &[u8], vector: &[u8], state: &[u8], to: &mut [u8]) -> bool
    requires key { IsMacKeyLength algorithm (length key.now) }
    requires vector { length vector.now ≡ block_size (cipher_of algorithm) }
    requires state { length state.now ≡ state_size (cipher_of algorithm) }
    requires code { length to.old ≡ block_size (cipher_of algorithm) }
    ensures code { (if result then Some to.new else None) ≡ mac_from algorithm key.now
        (chain_in (block_size (cipher_of algorithm)) vector.now state.now)
        (open_in (block_size (cipher_of algorithm)) state.now) }
    ensures refused { OnFalse result (to.new ≡ to.old) }
{
    let mut buffer = [0; MOST_BLOCK];
    let chain = &mut buffer[..to.len()];
    let mut buffer = [0; MOST_BLOCK];
    let block = &mut buffer[..to.len()];
    let used = read_state(vector, state, chain, block);
    if finish_code(algorithm, key, chain, block, used) {
        to.copy_from_slice(chain);
        return true;
    }
    false
}

/// Writes the code, under a key, of the message that a state has taken in and that ends by a piece. It writes nothing and returns false
/// where the message is not whole blocks, or is empty, and has no padding.
pub fn put_mac_of(
    algorithm: MacAlgorithm,
    key: &[u8],
    vector: &[u8],
    state: &[u8],
    piece: &[u8],
    to: &mut [u8],
) -> bool
    requires key { IsMacKeyLength algorithm (length key.now) }
    requires vector { length vector.now ≡ block_size (cipher_of algorithm) }
    requires state { length state.now ≡ state_size (cipher_of algorithm) }
    requires code { length to.old ≡ block_size (cipher_of algorithm) }
    ensures code { (if result then Some to.new else None)
        ≡ mac_of_state algorithm key.now vector.now state.now piece.now }
    ensures refused { OnFalse result (to.new ≡ to.old) }
{
    let mut buffer = [0; MOST_STATE];
    let state_after = &mut buffer[..state.len()];
    state_after.copy_from_slice(state);
    update_mac(algorithm, key, vector, state_after, piece);
    put_code(algorithm, key, vector, state_after, to)
}
