//! RSA as a cipher: its calls.

mod encodings;
mod messages;
mod oaep;

ghost use Rattle.std.specs.Prelude.{◌≡◌, ◌≤◌, false, IfOk, IfSome};
ghost use Rattle.jc_memory.specs.Programs.{Executes};
ghost use Rattle.jc_world.specs.NativeCalls.{after_call};
ghost use Rattle.jc_api.specs.Changing.{changing_call};
ghost use Rattle.jc_api.specs.Exits.{plainly};
ghost use Rattle.jc_api.specs.Initializing.{initializing_call};
ghost use Rattle.jc_api_keys.specs.KeyObjects.Contents.{IsKey};
ghost use Rattle.jc_api_ciphers.specs.Cipher.Rsa.{IsRunningRsa, kept_rsa_key, rsa_do_final, rsa_init, rsa_init_with_vector, rsa_key_of, rsa_update, running_rsa, taken_rsa_key, way_of, way_of_private, way_to_encipher};

use crate::cipher::kinds::{RSA_SHORTS, RsaPadding};
use crate::cipher::rsa::messages::{end, gather};
use crate::initialized::{KeyedEngine, Setup, set_up, taken_mode};
use crate::signature::pair::keys::{SizedKey, pair_parts, sized_key};
use crate::signature::pair::parts::Parts;
use crate::signature::purpose::{Purpose, initialized_for};
use jc_api::{counted_of, state_at};
use jc_api_keys::exceptions::ILLEGAL_VALUE;
use jc_api_keys::key_objects::arguments::{key_argument, key_at};
use jc_api_keys::key_objects::contents::Key;
use jc_api_keys::key_parts::MOST_SIZE;
use jc_api_keys::key_types::PairKey;
use jc_frames::{Cell, FrameExit, Outcome};
use jc_linker::linked::Linked;
use jc_memory::Memory;
use jc_platform::names::PlatformClass;
use jc_transient::Ref;
use jc_words::WordStore;
use jc_world::{NativeResult, StepExit, Stretch};

/// What becomes of a message.
#[derive(Clone, Copy)]
pub enum Way {
    /// It is enciphered under a public key.
    ForPublic,
    /// It is enciphered under a private key.
    ForPrivate,
    /// It is deciphered, under a private key.
    Decipher,
}

/// A key, and what becomes of a message under it.
#[derive(Clone, Copy)]
pub struct RsaKey {
    pub key: SizedKey,
    pub way: Way,
}

/// A message under RSA.
#[derive(Clone, Copy)]
pub struct RunningRsa {
    pub padding: RsaPadding,
    pub way: Way,
    /// The cells of its state.
    pub state: Stretch,
    /// The key object.
    pub key: Ref,
    /// How many bytes the size of the key has.
    pub size: u16,
    pub parts: Parts,
}

// What becomes of a message that is enciphered under a private key. OAEP enciphers none.
fn way_to_encipher(padding: RsaPadding) -> Option<Way>
    ensures { result ≡ way_to_encipher padding }
{
    match padding {
        RsaPadding::NoPadding | RsaPadding::Pkcs1 => Some(Way::ForPrivate),
        RsaPadding::Oaep => None,
    }
}

// What becomes of a message in a mode, under a private key.
fn way_of_private(padding: RsaPadding, mode: i16) -> Option<Way>
    ensures { result ≡ way_of_private padding mode }
{
    if mode == 1 {
        Some(Way::Decipher)
    } else if mode == 2 {
        way_to_encipher(padding)
    } else {
        None
    }
}

// What becomes of a message in a mode, under a key of this kind.
fn way_of(padding: RsaPadding, mode: i16, kind: PairKey) -> Option<Way>
    ensures { result ≡ way_of padding mode kind }
{
    match kind {
        PairKey::RsaPublic => {
            if mode == 2 {
                Some(Way::ForPublic)
            } else {
                None
            }
        }
        PairKey::RsaPrivate | PairKey::RsaCrtPrivate => way_of_private(padding, mode),
        PairKey::EcPublic | PairKey::EcPrivate => None,
    }
}

// A key that is taken in a mode, and what becomes of a message under it.
fn rsa_key_of(padding: RsaPadding, mode: i16, key: Key) -> Option<RsaKey>
    ensures taken { result ≡ rsa_key_of padding mode key }
    ensures same { IfSome result (λ k. k.key.key ≡ key) }
    ensures few { IfSome result (λ k. k.key.size ≤ MOST_SIZE) }
{
    let sized = sized_key(key)?;
    let way = way_of(padding, mode, sized.kind)?;
    Some(RsaKey { key: sized, way })
}

// The key after the receiver, of a kind that is taken in a mode, or ILLEGAL_VALUE is thrown.
#[tactic(auto, unfolding(crate::specs::Cipher::Rsa::taken_rsa_key))]
fn taken_rsa_key<S: WordStore>(
    padding: RsaPadding,
    mode: i16,
    args: &[Cell],
    memory: &Memory<S>,
    linked: &Linked,
) -> Result<RsaKey, FrameExit>
    requires up { memory.now.heap.down ≡ false }
    ensures key { result ≡ taken_rsa_key padding mode args.now linked.now memory.now }
    ensures there { IfOk result (λ k. IsKey memory.now k.key.key) }
    ensures plain { plainly result ≡ result }
{
    let key = key_argument(1, args, memory, linked)?;
    match rsa_key_of(padding, mode, key) {
        Some(taken) => Ok(taken),
        None => Err(FrameExit::Throw(ILLEGAL_VALUE)),
    }
}

// The key that an object has kept. One that is not taken in its mode is a code fault.
#[tactic(auto, unfolding(crate::specs::Cipher::Rsa::kept_rsa_key))]
fn kept_rsa_key<S: WordStore>(
    padding: RsaPadding,
    own: &KeyedEngine,
    memory: &Memory<S>,
    linked: &Linked,
) -> Result<RsaKey, FrameExit>
    requires up { memory.now.heap.down ≡ false }
    ensures key { result ≡ kept_rsa_key padding own.now linked.now memory.now }
    ensures there { IfOk result (λ k. IsKey memory.now k.key.key) }
    ensures few { IfOk result (λ k. k.key.size ≤ MOST_SIZE) }
    ensures plain { plainly result ≡ result }
{
    let key = key_at(own.key, memory, linked)?;
    match rsa_key_of(padding, own.mode, key) {
        Some(kept) => Ok(kept),
        None => Err(FrameExit::End(Outcome::Fault)),
    }
}

/// `init` by a key and a mode: sets them; nothing came.
#[tactic(auto, unfolding(crate::specs::Cipher::Rsa::rsa_init))]
pub(crate) fn init_rsa<S: WordStore>(
    padding: RsaPadding,
    own: &KeyedEngine,
    args: &[Cell],
    memory: &mut Memory<S>,
    linked: &Linked,
) -> Result<NativeResult, StepExit>
    requires up { memory.old.heap.down ≡ false }
    ensures { Executes (initializing_call (rsa_init padding own.now args.now linked.now memory.old)
        args.now linked.now memory.old) memory.old (after_call result memory.new) }
{
    let mode = taken_mode(args)?;
    let key = taken_rsa_key(padding, mode, args, memory, linked)?;
    let _parts = pair_parts(&key.key, memory)?;
    let setup = Setup {
        class: PlatformClass::Cipher,
        shorts: RSA_SHORTS as u16,
        vector: &[],
    };
    set_up(own, mode, setup, args, memory, linked)
}

/// `init` with a vector, which RSA does not take: it throws ILLEGAL_VALUE after the key, the mode and the vector's elements.
#[tactic(auto, unfolding(crate::specs::Cipher::Rsa::rsa_init_with_vector))]
pub(crate) fn init_rsa_with_vector<S: WordStore>(
    padding: RsaPadding,
    args: &[Cell],
    memory: &mut Memory<S>,
    linked: &Linked,
) -> Result<NativeResult, StepExit>
    requires up { memory.old.heap.down ≡ false }
    ensures { Executes (initializing_call (rsa_init_with_vector padding args.now linked.now memory.old)
        args.now linked.now memory.old) memory.old (after_call result memory.new) }
{
    let mode = taken_mode(args)?;
    let _key = taken_rsa_key(padding, mode, args, memory, linked)?;
    let _vector = counted_of(3, args, memory, linked)?;
    Err(StepExit::Throw(ILLEGAL_VALUE))
}

// The message under an object with RSA.
#[tactic(auto, unfolding(crate::specs::Cipher::Rsa::running_rsa))]
fn running_rsa<S: WordStore>(
    padding: RsaPadding,
    own: &KeyedEngine,
    memory: &Memory<S>,
    linked: &Linked,
) -> Result<RunningRsa, FrameExit>
    requires up { memory.now.heap.down ≡ false }
    ensures running { result ≡ running_rsa padding own.now linked.now memory.now }
    ensures there { IfOk result (IsRunningRsa memory.now) }
    ensures plain { plainly result ≡ result }
{
    let state = state_at(own.array, 0, RSA_SHORTS as u16, memory, linked)?;
    initialized_for(Purpose::Either, own.mode)?;
    let key = kept_rsa_key(padding, own, memory, linked)?;
    let parts = pair_parts(&key.key, memory)?;
    Ok(RunningRsa {
        padding,
        way: key.way,
        state,
        key: key.key.key.own,
        size: key.key.size,
        parts,
    })
}

/// `update`: the bytes follow the message; puts nothing, and returns 0. More than a modulus has throw ILLEGAL_USE.
#[tactic(auto, unfolding(crate::specs::Cipher::Rsa::rsa_update))]
pub(crate) fn update_rsa<S: WordStore>(
    padding: RsaPadding,
    own: &KeyedEngine,
    args: &[Cell],
    memory: &mut Memory<S>,
    linked: &Linked,
) -> Result<NativeResult, StepExit>
    requires up { memory.old.heap.down ≡ false }
    ensures { Executes (changing_call (rsa_update padding own.now args.now linked.now memory.old)
        linked.now memory.old) memory.old (after_call result memory.new) }
{
    let run = running_rsa(padding, own, memory, linked)?;
    let piece = counted_of(1, args, memory, linked)?;
    gather(&run, piece, args, memory, linked)
}

/// `doFinal`: the message ends with these bytes; puts what becomes of it, and returns how many bytes that is. Where nothing does it throws
/// ILLEGAL_USE.
#[tactic(auto, unfolding(crate::specs::Cipher::Rsa::rsa_do_final))]
pub(crate) fn end_rsa<S: WordStore>(
    padding: RsaPadding,
    own: &KeyedEngine,
    args: &[Cell],
    memory: &mut Memory<S>,
    linked: &Linked,
) -> Result<NativeResult, StepExit>
    requires up { memory.old.heap.down ≡ false }
    ensures { Executes (changing_call (rsa_do_final padding own.now args.now linked.now memory.old)
        linked.now memory.old) memory.old (after_call result memory.new) }
{
    let run = running_rsa(padding, own, memory, linked)?;
    let piece = counted_of(1, args, memory, linked)?;
    end(&run, piece, args, memory, linked)
}
