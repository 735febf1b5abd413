//! Signatures that are codes under a secret key: what their objects require, and their calls.
ghost use Rattle.std.specs.Prelude.{◌≡◌, ◌≤◌, ◌*◌, ◌/◌, false, true, IfOk};
ghost use Rattle.jc_memory.specs.Programs.{Executes};
ghost use Rattle.jc_world.specs.Arrays.{IsInArray};
ghost use Rattle.jc_world.specs.Instances.{IsInstanceWith};
ghost use Rattle.jc_world.specs.NativeCalls.{after_call};
ghost use Rattle.jc_api.specs.Changing.{changing_call};
ghost use Rattle.jc_api.specs.Exits.{plainly};
ghost use Rattle.jc_api.specs.Forms.{reading_call};
ghost use Rattle.jc_api.specs.Initializing.{initializing_call};
ghost use Rattle.jc_api_ciphers.specs.Initialized.{keyed_cells};
ghost use Rattle.jc_api_keys.specs.KeyObjects.Contents.{most_key};
ghost use Rattle.jc_api_ciphers.specs.Signature.Codes.{FitsKey, IsRunning, code_get_length, code_init, code_init_with_vector, code_sign, code_update, code_verify, key_of_length, mac_takes_length, mac_vector, running_in, signature_key, signature_keys, signature_requirements, signature_shorts, taken_vector_size, takes_length, vector_size};
ghost use Rattle.jc_ciphers.specs.Kept.Macs.{IsMacKeyLength};

use crate::cipher::block::{cipher_shorts, has_key_length, keys_of};
use crate::initialized::{
    KeyedEngine, MOST_VECTOR, Requirements, check, init, init_with_vector, kept_key,
};
use crate::signature::algorithms::SignatureAlgorithm;
use crate::signature::purpose::{Purpose, initialized_for};
use crate::signature::state::{sign, update, verify};
use jc_api::{counted_of, state_at};
use jc_api_keys::digest_states::{MOST_SHORTS, digest_shorts};
use jc_api_keys::exceptions::ILLEGAL_VALUE;
use jc_api_keys::key_objects::arguments::key_argument;
use jc_api_keys::key_types::KeyAlgorithm;
use jc_api_keys::receivers::output_of;
use jc_ciphers::kept::BlockAlgorithm;
use jc_ciphers::kept::macs::MacAlgorithm;
use jc_frames::{Cell, FrameExit};
use jc_linker::linked::Linked;
use jc_memory::Memory;
use jc_platform::names::PlatformClass;
use jc_transient::Ref;
use jc_words::WordStore;
use jc_world::{NativeResult, StepExit, Stretch, short};

/// A message that is to be signed.
#[derive(Clone, Copy)]
pub struct RunningSignature {
    /// The object, whose cells have the vector.
    pub own: Ref,
    pub algorithm: SignatureAlgorithm,
    /// The elements that are its key.
    pub key: Stretch,
    /// The cells of its state.
    pub state: Stretch,
}

// How many shorts a state has.
pub(crate) fn signature_shorts(algorithm: SignatureAlgorithm) -> u16
    ensures shorts { result ≡ signature_shorts algorithm }
    ensures few { result ≤ MOST_SHORTS }
{
    match algorithm {
        SignatureAlgorithm::Mac(algorithm, _) => cipher_shorts(algorithm.cipher()),
        SignatureAlgorithm::Hmac(algorithm) => digest_shorts(algorithm),
    }
}

// Whose keys it takes.
fn signature_keys(algorithm: SignatureAlgorithm) -> KeyAlgorithm
    ensures { result ≡ signature_keys algorithm }
{
    match algorithm {
        SignatureAlgorithm::Mac(algorithm, _) => keys_of(algorithm.cipher()),
        SignatureAlgorithm::Hmac(_) => KeyAlgorithm::Hmac,
    }
}

// How many bytes the vector has that the init of a code by a cipher takes.
fn mac_vector(algorithm: MacAlgorithm) -> u16
    ensures size { result ≡ mac_vector algorithm }
    ensures few { result ≤ MOST_VECTOR }
{
    match algorithm {
        MacAlgorithm::Cbc(cipher, _) => cipher.block_size() as u16,
        MacAlgorithm::Algorithm3(_) => 8,
        MacAlgorithm::Cmac => 0,
    }
}

// The same of any signature.
fn taken_vector_size(algorithm: SignatureAlgorithm) -> u16
    ensures size { result ≡ taken_vector_size algorithm }
    ensures few { result ≤ MOST_VECTOR }
{
    match algorithm {
        SignatureAlgorithm::Mac(algorithm, _) => mac_vector(algorithm),
        SignatureAlgorithm::Hmac(_) => 0,
    }
}

// How many bytes of the vector stand before the first block.
pub(crate) fn vector_size(algorithm: SignatureAlgorithm) -> usize
    ensures size { result ≡ vector_size algorithm }
    ensures few { result ≤ MOST_VECTOR }
    ensures even { result ≡ 2 * (result / 2) }
{
    match algorithm {
        SignatureAlgorithm::Mac(algorithm, _) => match algorithm.cipher() {
            BlockAlgorithm::Aes => 16,
            BlockAlgorithm::Des => 8,
        },
        SignatureAlgorithm::Hmac(_) => 0,
    }
}

// What a signature requires.
fn signature_requirements(algorithm: SignatureAlgorithm) -> Requirements
    ensures needs { result ≡ signature_requirements algorithm }
    ensures vector { result.vector ≤ MOST_VECTOR }
    ensures state { result.state ≤ MOST_SHORTS }
{
    Requirements {
        keys: signature_keys(algorithm),
        vector: taken_vector_size(algorithm),
        state: signature_shorts(algorithm),
    }
}

// A key of a code by a cipher may have this many bytes.
fn mac_takes_length(algorithm: MacAlgorithm, count: u16) -> bool
    ensures takes { result ≡ mac_takes_length algorithm count }
    ensures length { result ≡ true → IsMacKeyLength algorithm count }
{
    match algorithm {
        MacAlgorithm::Cbc(cipher, _) => has_key_length(cipher, count),
        MacAlgorithm::Algorithm3(_) => count == 16 || count == 24,
        MacAlgorithm::Cmac => has_key_length(BlockAlgorithm::Aes, count),
    }
}

// A key may have this many bytes.
fn takes_length(algorithm: SignatureAlgorithm, count: u16) -> bool
    ensures takes { result ≡ takes_length algorithm count }
    ensures length { result ≡ true → FitsKey algorithm count }
{
    match algorithm {
        SignatureAlgorithm::Mac(algorithm, _) => mac_takes_length(algorithm, count),
        SignatureAlgorithm::Hmac(_) => true,
    }
}

// The key after the receiver has a length that the algorithm takes, or ILLEGAL_VALUE is thrown.
#[tactic(auto, unfolding(crate::specs::Signature::Codes::key_of_length))]
fn key_of_length<S: WordStore>(
    algorithm: SignatureAlgorithm,
    args: &[Cell],
    memory: &Memory<S>,
    linked: &Linked,
) -> Result<(), FrameExit>
    requires up { memory.now.heap.down ≡ false }
    ensures key { result ≡ key_of_length algorithm args.now linked.now memory.now }
    ensures plain { plainly result ≡ result }
{
    let key = key_argument(1, args, memory, linked)?;
    if takes_length(algorithm, key.capacity()) {
        Ok(())
    } else {
        Err(FrameExit::Throw(ILLEGAL_VALUE))
    }
}

// The key that an object has kept, of a length that the algorithm takes.
#[tactic(auto, unfolding(crate::specs::Signature::Codes::signature_key))]
fn signature_key<S: WordStore>(
    algorithm: SignatureAlgorithm,
    own: &KeyedEngine,
    memory: &Memory<S>,
    linked: &Linked,
) -> Result<Stretch, FrameExit>
    requires up { memory.now.heap.down ≡ false }
    ensures key { result ≡ signature_key algorithm own.now linked.now memory.now }
    ensures there { IfOk result (IsInArray memory.now) }
    ensures few { IfOk result (λ e. e.count ≤ most_key) }
    ensures long { IfOk result (λ e. FitsKey algorithm e.count) }
    ensures plain { plainly result ≡ result }
{
    let key = kept_key(signature_requirements(algorithm), own, memory, linked)?;
    check(takes_length(algorithm, key.count))?;
    Ok(key)
}

// The message under an object with a signature.
#[tactic(auto, unfolding(crate::specs::Signature::Codes::running_in))]
fn running_in<S: WordStore>(
    purpose: Purpose,
    own: &KeyedEngine,
    algorithm: SignatureAlgorithm,
    memory: &Memory<S>,
    linked: &Linked,
) -> Result<RunningSignature, FrameExit>
    requires up { memory.now.heap.down ≡ false }
    requires there { IsInstanceWith memory.now own.now.own keyed_cells }
    ensures running { result ≡ running_in purpose own.now linked.now memory.now algorithm }
    ensures there { IfOk result (IsRunning memory.now) }
    ensures plain { plainly result ≡ result }
{
    let state = state_at(own.array, 0, signature_shorts(algorithm), memory, linked)?;
    initialized_for(purpose, own.mode)?;
    let key = signature_key(algorithm, own, memory, linked)?;
    Ok(RunningSignature {
        own: own.own,
        algorithm,
        key,
        state,
    })
}

/// `init` by a key and a mode: sets them, and a vector of zeros; nothing came.
#[tactic(auto, unfolding(crate::specs::Signature::Codes::code_init))]
pub(crate) fn init_code<S: WordStore>(
    algorithm: SignatureAlgorithm,
    own: &KeyedEngine,
    args: &[Cell],
    memory: &mut Memory<S>,
    linked: &Linked,
) -> Result<NativeResult, StepExit>
    requires up { memory.old.heap.down ≡ false }
    ensures { Executes (initializing_call (code_init algorithm own.now args.now linked.now memory.old)
        args.now linked.now memory.old) memory.old (after_call result memory.new) }
{
    key_of_length(algorithm, args, memory, linked)?;
    let needs = signature_requirements(algorithm);
    init(PlatformClass::Signature, needs, own, args, memory, linked)
}

/// `init` with a vector, of one block: sets it with key and mode; nothing came. CMAC and HMAC take none.
#[tactic(auto, unfolding(crate::specs::Signature::Codes::code_init_with_vector))]
pub(crate) fn init_code_with_vector<S: WordStore>(
    algorithm: SignatureAlgorithm,
    own: &KeyedEngine,
    args: &[Cell],
    memory: &mut Memory<S>,
    linked: &Linked,
) -> Result<NativeResult, StepExit>
    requires up { memory.old.heap.down ≡ false }
    ensures { Executes (initializing_call
        (code_init_with_vector algorithm own.now args.now linked.now memory.old) args.now linked.now memory.old)
        memory.old (after_call result memory.new) }
{
    key_of_length(algorithm, args, memory, linked)?;
    let needs = signature_requirements(algorithm);
    init_with_vector(PlatformClass::Signature, needs, own, args, memory, linked)
}

/// `getLength`: returns how many bytes a signature has.
#[tactic(auto, unfolding(crate::specs::Signature::Codes::code_get_length))]
pub(crate) fn get_length_of_code<S: WordStore>(
    algorithm: SignatureAlgorithm,
    own: &KeyedEngine,
    memory: &Memory<S>,
    linked: &Linked,
) -> Result<NativeResult, StepExit>
    requires up { memory.now.heap.down ≡ false }
    requires there { IsInstanceWith memory.now own.now.own keyed_cells }
    ensures { Executes (reading_call (code_get_length algorithm own.now linked.now memory.now)
        linked.now memory.now) memory.now (after_call result memory.now) }
{
    let run = running_in(Purpose::Either, own, algorithm, memory, linked)?;
    Ok(short(run.algorithm.size() as i16))
}

/// `update`: the bytes follow the message.
#[tactic(auto, unfolding(crate::specs::Signature::Codes::code_update))]
pub(crate) fn update_code<S: WordStore>(
    algorithm: SignatureAlgorithm,
    own: &KeyedEngine,
    args: &[Cell],
    memory: &mut Memory<S>,
    linked: &Linked,
) -> Result<NativeResult, StepExit>
    requires up { memory.old.heap.down ≡ false }
    requires there { IsInstanceWith memory.old own.now.own keyed_cells }
    ensures { Executes (changing_call (code_update algorithm own.now args.now linked.now memory.old)
        linked.now memory.old) memory.old (after_call result memory.new) }
{
    let run = running_in(Purpose::Either, own, algorithm, memory, linked)?;
    let piece = counted_of(1, args, memory, linked)?;
    update(&run, piece, memory, linked)
}

/// `sign`: the message ends with these bytes; puts its signature, and returns its length. Where the message cannot end so it throws
/// ILLEGAL_USE.
#[tactic(auto, unfolding(crate::specs::Signature::Codes::code_sign))]
pub(crate) fn sign_code<S: WordStore>(
    algorithm: SignatureAlgorithm,
    own: &KeyedEngine,
    args: &[Cell],
    memory: &mut Memory<S>,
    linked: &Linked,
) -> Result<NativeResult, StepExit>
    requires up { memory.old.heap.down ≡ false }
    requires there { IsInstanceWith memory.old own.now.own keyed_cells }
    ensures { Executes (changing_call (code_sign algorithm own.now args.now linked.now memory.old)
        linked.now memory.old) memory.old (after_call result memory.new) }
{
    let run = running_in(Purpose::Signing, own, algorithm, memory, linked)?;
    let piece = counted_of(1, args, memory, linked)?;
    let to = output_of(4, run.algorithm.size() as u8, args, memory, linked)?;
    sign(&run, piece, to, memory, linked)
}

/// `verify`: the message ends with these bytes; returns whether others are its signature. Where the message cannot end so it throws
/// ILLEGAL_USE.
#[tactic(auto, unfolding(crate::specs::Signature::Codes::code_verify))]
pub(crate) fn verify_code<S: WordStore>(
    algorithm: SignatureAlgorithm,
    own: &KeyedEngine,
    args: &[Cell],
    memory: &mut Memory<S>,
    linked: &Linked,
) -> Result<NativeResult, StepExit>
    requires up { memory.old.heap.down ≡ false }
    requires there { IsInstanceWith memory.old own.now.own keyed_cells }
    ensures { Executes (changing_call (code_verify algorithm own.now args.now linked.now memory.old)
        linked.now memory.old) memory.old (after_call result memory.new) }
{
    let run = running_in(Purpose::Verifying, own, algorithm, memory, linked)?;
    let piece = counted_of(1, args, memory, linked)?;
    let given = counted_of(4, args, memory, linked)?;
    verify(&run, piece, given, memory, linked)
}
