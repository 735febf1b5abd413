//! `MessageDigest` (API specification).

pub(crate) mod state;

ghost use Rattle.std.specs.Prelude.{◌≡◌, false, IfOk, pos};
ghost use Rattle.jc_digests.specs.Kept.{digest_size};
ghost use Rattle.jc_memory.specs.Programs.{Executes};
ghost use Rattle.jc_world.specs.NativeCalls.{after_call};
ghost use Rattle.jc_platform.specs.declared.names.PlatformClass.TheVariants as class;
ghost use Rattle.jc_api.specs.Changing.{changing_call};
ghost use Rattle.jc_api.specs.Exits.{plainly};
ghost use Rattle.jc_api.specs.Factory.{factory_call};
ghost use Rattle.jc_api.specs.Forms.{reading_call};
ghost use Rattle.jc_api_crypto.specs.MessageDigest.{hash_named, message_digest_do_final, message_digest_get_algorithm, message_digest_get_initialized_message_digest_instance, message_digest_get_instance, message_digest_get_length, message_digest_reset, message_digest_update, new_digest, running_digest};
ghost use Rattle.jc_api_keys.specs.DigestStates.{IsRunning, digest_shorts};

use crate::message_digest::state::{finish, forget, update};
use jc_api::{NewEngine, StateKind, counted_of, make_engine, state_at};
use jc_api_keys::digest_states::{RunningDigest, digest_shorts};
use jc_api_keys::exceptions::NO_SUCH_ALGORITHM;
use jc_api_keys::receivers::{output_of, receiver_of};
use jc_digests::kept::HashAlgorithm;
use jc_frames::{Cell, FrameExit, Outcome};
use jc_linker::linked::Linked;
use jc_memory::Memory;
use jc_platform::names::PlatformClass;
use jc_transient::ClearEvent;
use jc_words::WordStore;
use jc_world::arguments::short_argument;
use jc_world::{NativeResult, StepExit, short};

// The hash function of a number.
fn hash_named(number: i16) -> Option<HashAlgorithm>
    ensures { result ≡ hash_named number }
{
    if number == 1 {
        Some(HashAlgorithm::Sha1)
    } else if number == 2 {
        Some(HashAlgorithm::Md5)
    } else if number == 4 {
        Some(HashAlgorithm::Sha256)
    } else if number == 5 {
        Some(HashAlgorithm::Sha384)
    } else if number == 6 {
        Some(HashAlgorithm::Sha512)
    } else if number == 7 {
        Some(HashAlgorithm::Sha224)
    } else {
        None
    }
}

// How many bytes a digest has, as calls return it.
pub(crate) fn digest_length(algorithm: HashAlgorithm) -> i16
    ensures { result ≡ pos (digest_size algorithm) }
{
    algorithm.digest_size() as i16
}

/// The hash function of a receiver of this class, and the cells of its state.
#[tactic(auto, unfolding(crate::specs::MessageDigest::running_digest))]
pub(crate) fn running_digest<S: WordStore>(
    class: PlatformClass,
    args: &[Cell],
    memory: &Memory<S>,
    linked: &Linked,
) -> Result<RunningDigest, FrameExit>
    requires up { memory.now.heap.down ≡ false }
    ensures running { result ≡ running_digest class args.now linked.now memory.now }
    ensures there { IfOk result (IsRunning memory.now) }
    ensures plain { plainly result ≡ result }
{
    let own = receiver_of(class, args, memory, linked)?;
    let Some(algorithm) = hash_named(own.number) else {
        return Err(FrameExit::End(Outcome::Fault));
    };
    let state = state_at(own.array, 0, digest_shorts(algorithm), memory, linked)?;
    Ok(RunningDigest { algorithm, state })
}

// The new object of a class that is asked for.
#[tactic(auto, unfolding(crate::specs::MessageDigest::new_digest))]
fn new_digest(class: PlatformClass, args: &[Cell]) -> Result<NewEngine, FrameExit>
    ensures new { result ≡ new_digest class args.now }
    ensures plain { plainly result ≡ result }
{
    let number = short_argument(args, 0)?;
    let _external = short_argument(args, 1)?;
    let Some(algorithm) = hash_named(number) else {
        return Err(FrameExit::Throw(NO_SUCH_ALGORITHM));
    };
    Ok(NewEngine {
        class,
        number,
        elements: StateKind::Shorts,
        event: Some(ClearEvent::Reset),
        state: digest_shorts(algorithm),
    })
}

/// `MessageDigest.getInstance`: makes an object with the hash function of a number.
pub(crate) fn message_digest_get_instance<S: WordStore>(
    args: &[Cell],
    memory: &mut Memory<S>,
    linked: &Linked,
) -> Result<NativeResult, StepExit>
    requires up { memory.old.heap.down ≡ false }
    ensures { Executes (factory_call (message_digest_get_instance args.now) linked.now memory.old)
        memory.old (after_call result memory.new) }
{
    let engine = new_digest(PlatformClass::MessageDigest, args)?;
    make_engine(engine, memory, linked)
}

/// `MessageDigest.getInitializedMessageDigestInstance`: makes an object with the hash function of a number, whose first hash value can be
/// set.
pub(crate) fn message_digest_get_initialized_message_digest_instance<S: WordStore>(
    args: &[Cell],
    memory: &mut Memory<S>,
    linked: &Linked,
) -> Result<NativeResult, StepExit>
    requires up { memory.old.heap.down ≡ false }
    ensures { Executes (factory_call (message_digest_get_initialized_message_digest_instance args.now)
        linked.now memory.old) memory.old (after_call result memory.new) }
{
    let engine = new_digest(PlatformClass::InitializedMessageDigest, args)?;
    make_engine(engine, memory, linked)
}

/// `MessageDigest.getAlgorithm`: returns the number of the hash function.
#[tactic(auto, unfolding(crate::specs::MessageDigest::message_digest_get_algorithm))]
pub(crate) fn message_digest_get_algorithm<S: WordStore>(
    args: &[Cell],
    memory: &Memory<S>,
    linked: &Linked,
) -> Result<NativeResult, StepExit>
    requires up { memory.now.heap.down ≡ false }
    ensures { Executes (reading_call (message_digest_get_algorithm args.now linked.now memory.now)
        linked.now memory.now) memory.now (after_call result memory.now) }
{
    let own = receiver_of(PlatformClass::MessageDigest, args, memory, linked)?;
    Ok(short(own.number))
}

/// `MessageDigest.getLength`: returns how many bytes a digest has.
#[tactic(auto, unfolding(crate::specs::MessageDigest::message_digest_get_length))]
pub(crate) fn message_digest_get_length<S: WordStore>(
    args: &[Cell],
    memory: &Memory<S>,
    linked: &Linked,
) -> Result<NativeResult, StepExit>
    requires up { memory.now.heap.down ≡ false }
    ensures { Executes (reading_call (message_digest_get_length args.now linked.now memory.now)
        linked.now memory.now) memory.now (after_call result memory.now) }
{
    let own = receiver_of(PlatformClass::MessageDigest, args, memory, linked)?;
    let Some(algorithm) = hash_named(own.number) else {
        return Err(StepExit::End(Outcome::Fault));
    };
    Ok(short(digest_length(algorithm)))
}

/// `MessageDigest.update`: the bytes follow the message.
#[tactic(auto, unfolding(crate::specs::MessageDigest::message_digest_update))]
pub(crate) fn message_digest_update<S: WordStore>(
    args: &[Cell],
    memory: &mut Memory<S>,
    linked: &Linked,
) -> Result<NativeResult, StepExit>
    requires up { memory.old.heap.down ≡ false }
    ensures { Executes (changing_call (message_digest_update args.now linked.now memory.old)
        linked.now memory.old) memory.old (after_call result memory.new) }
{
    let own = running_digest(PlatformClass::MessageDigest, args, memory, linked)?;
    let piece = counted_of(1, args, memory, linked)?;
    update(&own, piece, memory, linked)
}

/// `MessageDigest.doFinal`: puts the digest of the message with these bytes, and forgets what came; returns the length of the digest.
#[tactic(auto, unfolding(crate::specs::MessageDigest::message_digest_do_final))]
pub(crate) fn message_digest_do_final<S: WordStore>(
    args: &[Cell],
    memory: &mut Memory<S>,
    linked: &Linked,
) -> Result<NativeResult, StepExit>
    requires up { memory.old.heap.down ≡ false }
    ensures { Executes (changing_call (message_digest_do_final args.now linked.now memory.old)
        linked.now memory.old) memory.old (after_call result memory.new) }
{
    let own = running_digest(PlatformClass::MessageDigest, args, memory, linked)?;
    let piece = counted_of(1, args, memory, linked)?;
    let to = output_of(4, own.algorithm.digest_size() as u8, args, memory, linked)?;
    finish(&own, piece, to, memory, linked)
}

/// `MessageDigest.reset`: forgets what came.
#[tactic(auto, unfolding(crate::specs::MessageDigest::message_digest_reset))]
pub(crate) fn message_digest_reset<S: WordStore>(
    args: &[Cell],
    memory: &mut Memory<S>,
    linked: &Linked,
) -> Result<NativeResult, StepExit>
    requires up { memory.old.heap.down ≡ false }
    ensures { Executes (changing_call (message_digest_reset args.now linked.now memory.old)
        linked.now memory.old) memory.old (after_call result memory.new) }
{
    let own = running_digest(PlatformClass::MessageDigest, args, memory, linked)?;
    forget(&own, memory, linked)
}
