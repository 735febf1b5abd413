//! Ciphers of blocks: what their objects require, and their calls.
ghost use Rattle.std.specs.Prelude.{◌≡◌, ◌≤◌, false, true, IfOk};
ghost use Rattle.jc_ciphers.specs.Kept.{IsKeyLength};
ghost use Rattle.jc_memory.specs.Programs.{Executes};
ghost use Rattle.jc_world.specs.Arrays.{IsInArray};
ghost use Rattle.jc_world.specs.Instances.{IsInstanceWith};
ghost use Rattle.jc_world.specs.NativeCalls.{after_call};
ghost use Rattle.jc_api.specs.Changing.{changing_call};
ghost use Rattle.jc_api.specs.Exits.{plainly};
ghost use Rattle.jc_api.specs.Initializing.{initializing_call};
ghost use Rattle.jc_api_ciphers.specs.Cipher.Block.{IsRunning, block_do_final, block_init, block_init_with_vector, block_update, cipher_key, cipher_requirements, cipher_shorts, direction_of, has_key_length, keys_of, running_in, vector_size};
ghost use Rattle.jc_api_ciphers.specs.Initialized.{keyed_cells};

use crate::cipher::algorithms::CipherAlgorithm;
use crate::cipher::state::{end, go_on};
use crate::initialized::{
    KeyedEngine, MOST_SHORTS, MOST_VECTOR, Requirements, check, init, init_with_vector, kept_key,
};
use jc_api::{counted_of, state_at};
use jc_api_keys::exceptions::INVALID_INIT;
use jc_api_keys::key_types::KeyAlgorithm;
use jc_ciphers::kept::BlockAlgorithm;
use jc_ciphers::kept::conversion::{Chaining, Conversion, Direction};
use jc_frames::{Cell, FrameExit};
use jc_linker::linked::Linked;
use jc_memory::Memory;
use jc_platform::names::PlatformClass;
use jc_transient::Ref;
use jc_words::WordStore;
use jc_world::{NativeResult, StepExit, Stretch};

/// A message under a cipher.
#[derive(Clone, Copy)]
pub struct RunningCipher {
    /// The object, whose cells have the vector.
    pub own: Ref,
    pub conversion: Conversion,
    /// The elements that are its key.
    pub key: Stretch,
    /// The cells of its state.
    pub state: Stretch,
}

// How many shorts a state has.
pub(crate) fn cipher_shorts(block: BlockAlgorithm) -> u16
    ensures { result ≡ cipher_shorts block }
{
    (block.state_size() / 2) as u16
}

// Whose keys a block algorithm takes.
pub(crate) fn keys_of(block: BlockAlgorithm) -> KeyAlgorithm
    ensures { result ≡ keys_of block }
{
    match block {
        BlockAlgorithm::Aes => KeyAlgorithm::Aes,
        BlockAlgorithm::Des => KeyAlgorithm::Des,
    }
}

// Keys of a block algorithm may have this many bytes.
pub(crate) fn has_key_length(block: BlockAlgorithm, count: u16) -> bool
    ensures has { result ≡ has_key_length block count }
    ensures length { result ≡ true → IsKeyLength block count }
{
    match block {
        BlockAlgorithm::Aes => count == 16 || count == 24 || count == 32,
        BlockAlgorithm::Des => count == 8 || count == 16 || count == 24,
    }
}

// How many bytes a vector has.
fn vector_size(block: BlockAlgorithm, chaining: Chaining) -> u16
    ensures { result ≡ vector_size block chaining }
{
    match chaining {
        Chaining::Cbc => block.block_size() as u16,
        Chaining::Ecb => 0,
    }
}

// What a cipher requires.
fn cipher_requirements(algorithm: CipherAlgorithm) -> Requirements
    ensures needs { result ≡ cipher_requirements algorithm }
    ensures vector { result.vector ≤ MOST_VECTOR }
    ensures state { result.state ≤ MOST_SHORTS }
{
    Requirements {
        keys: keys_of(algorithm.block),
        vector: vector_size(algorithm.block, algorithm.chaining),
        state: cipher_shorts(algorithm.block),
    }
}

// The direction of a mode; INVALID_INIT before one is set.
fn direction_of(mode: i16) -> Result<Direction, FrameExit>
    ensures direction { result ≡ direction_of mode }
    ensures plain { plainly result ≡ result }
{
    if mode == 1 {
        Ok(Direction::Decrypt)
    } else if mode == 2 {
        Ok(Direction::Encrypt)
    } else {
        Err(FrameExit::Throw(INVALID_INIT))
    }
}

// The key that an object has kept, of a length of its block algorithm.
#[tactic(auto, unfolding(crate::specs::Cipher::Block::cipher_key))]
fn cipher_key<S: WordStore>(
    algorithm: CipherAlgorithm,
    own: &KeyedEngine,
    memory: &Memory<S>,
    linked: &Linked,
) -> Result<Stretch, FrameExit>
    requires up { memory.now.heap.down ≡ false }
    ensures key { result ≡ cipher_key algorithm own.now linked.now memory.now }
    ensures there { IfOk result (IsInArray memory.now) }
    ensures long { IfOk result (λ e. IsKeyLength algorithm.block e.count) }
    ensures plain { plainly result ≡ result }
{
    let key = kept_key(cipher_requirements(algorithm), own, memory, linked)?;
    check(has_key_length(algorithm.block, key.count))?;
    Ok(key)
}

// The message under an object with a cipher.
#[tactic(auto, unfolding(crate::specs::Cipher::Block::running_in))]
fn running_in<S: WordStore>(
    own: &KeyedEngine,
    algorithm: CipherAlgorithm,
    memory: &Memory<S>,
    linked: &Linked,
) -> Result<RunningCipher, FrameExit>
    requires up { memory.now.heap.down ≡ false }
    requires there { IsInstanceWith memory.now own.now.own keyed_cells }
    ensures running { result ≡ running_in own.now linked.now memory.now algorithm }
    ensures there { IfOk result (IsRunning memory.now) }
    ensures plain { plainly result ≡ result }
{
    let state = state_at(own.array, 0, cipher_shorts(algorithm.block), memory, linked)?;
    let direction = direction_of(own.mode)?;
    let key = cipher_key(algorithm, own, memory, linked)?;
    Ok(RunningCipher {
        own: own.own,
        conversion: Conversion {
            algorithm: algorithm.block,
            chaining: algorithm.chaining,
            direction,
            padding: algorithm.padding,
        },
        key,
        state,
    })
}

/// `init` by a key and a mode: sets them, and a vector of zeros; nothing came.
#[tactic(auto, unfolding(crate::specs::Cipher::Block::block_init))]
pub(crate) fn init_block<S: WordStore>(
    algorithm: CipherAlgorithm,
    own: &KeyedEngine,
    args: &[Cell],
    memory: &mut Memory<S>,
    linked: &Linked,
) -> Result<NativeResult, StepExit>
    requires up { memory.old.heap.down ≡ false }
    ensures { Executes (initializing_call (block_init algorithm own.now args.now linked.now memory.old) args.now
        linked.now memory.old) memory.old (after_call result memory.new) }
{
    let needs = cipher_requirements(algorithm);
    init(PlatformClass::Cipher, needs, own, args, memory, linked)
}

/// `init` with a vector, of one block: sets it with key and mode; nothing came.
#[tactic(auto, unfolding(crate::specs::Cipher::Block::block_init_with_vector))]
pub(crate) fn init_block_with_vector<S: WordStore>(
    algorithm: CipherAlgorithm,
    own: &KeyedEngine,
    args: &[Cell],
    memory: &mut Memory<S>,
    linked: &Linked,
) -> Result<NativeResult, StepExit>
    requires up { memory.old.heap.down ≡ false }
    ensures { Executes (initializing_call (block_init_with_vector algorithm own.now args.now linked.now memory.old) args.now
        linked.now memory.old) memory.old (after_call result memory.new) }
{
    let needs = cipher_requirements(algorithm);
    init_with_vector(PlatformClass::Cipher, needs, own, args, memory, linked)
}

/// `update`: the bytes follow the message; puts what is converted then, and returns how many bytes that is.
#[tactic(auto, unfolding(crate::specs::Cipher::Block::block_update))]
pub(crate) fn update_block<S: WordStore>(
    algorithm: CipherAlgorithm,
    own: &KeyedEngine,
    args: &[Cell],
    memory: &mut Memory<S>,
    linked: &Linked,
) -> Result<NativeResult, StepExit>
    requires up { memory.old.heap.down ≡ false }
    requires there { IsInstanceWith memory.old own.now.own keyed_cells }
    ensures { Executes (changing_call (block_update algorithm own.now args.now linked.now memory.old)
        linked.now memory.old) memory.old (after_call result memory.new) }
{
    let run = running_in(own, algorithm, memory, linked)?;
    let piece = counted_of(1, args, memory, linked)?;
    go_on(&run, piece, args, memory, linked)
}

/// `doFinal`: the message ends with these bytes; puts what is left, and returns how many bytes that is. Where the message cannot end so
/// it throws ILLEGAL_USE.
#[tactic(auto, unfolding(crate::specs::Cipher::Block::block_do_final))]
pub(crate) fn end_block<S: WordStore>(
    algorithm: CipherAlgorithm,
    own: &KeyedEngine,
    args: &[Cell],
    memory: &mut Memory<S>,
    linked: &Linked,
) -> Result<NativeResult, StepExit>
    requires up { memory.old.heap.down ≡ false }
    requires there { IsInstanceWith memory.old own.now.own keyed_cells }
    ensures { Executes (changing_call (block_do_final algorithm own.now args.now linked.now memory.old)
        linked.now memory.old) memory.old (after_call result memory.new) }
{
    let run = running_in(own, algorithm, memory, linked)?;
    let piece = counted_of(1, args, memory, linked)?;
    end(&run, piece, args, memory, linked)
}
