//! `Signature` (API specification, `javacard.security`).

pub mod algorithms;
pub mod code;
mod codes;
pub mod kinds;
pub mod pair;
pub mod pair_algorithms;
pub mod purpose;
mod state;

ghost use Rattle.std.specs.Prelude.{◌≡◌, false, IfOk};
ghost use Rattle.jc_memory.specs.Programs.{Executes};
ghost use Rattle.jc_world.specs.Instances.{IsInstanceWith};
ghost use Rattle.jc_world.specs.NativeCalls.{after_call};
ghost use Rattle.jc_api.specs.Changing.{changing_call};
ghost use Rattle.jc_api.specs.Exits.{plainly};
ghost use Rattle.jc_api.specs.Factory.{factory_call};
ghost use Rattle.jc_api.specs.Forms.{reading_call};
ghost use Rattle.jc_api.specs.Initializing.{initializing_call};
ghost use Rattle.jc_api_ciphers.specs.Initialized.{keyed_cells};
ghost use Rattle.jc_api_ciphers.specs.Signature.{new_signature, own_signature, signature_get_algorithm, signature_get_cipher_algorithm, signature_get_instance, signature_get_instance_of_digest_cipher_and_padding, signature_get_length, signature_get_message_digest_algorithm, signature_get_padding_algorithm, signature_init, signature_init_with_vector, signature_of_one, signature_sign, signature_update, signature_verify};

use crate::initialized::{KeyedEngine, engine_of};
use crate::signature::code::{
    get_length_of_code, init_code, init_code_with_vector, sign_code, update_code, verify_code,
};
use crate::signature::kinds::{SignatureKind, kind_named, kind_of_numbers};
use crate::signature::pair::{
    get_length_of_pair, init_pair, init_pair_with_vector, sign_by_pair, update_by_pair,
    verify_by_pair,
};
use jc_api::{NewEngine, StateKind, make_engine};
use jc_api_keys::exceptions::NO_SUCH_ALGORITHM;
use jc_frames::{Cell, FrameExit, Outcome};
use jc_linker::linked::Linked;
use jc_memory::Memory;
use jc_platform::names::PlatformClass;
use jc_transient::ClearEvent;
use jc_words::WordStore;
use jc_world::arguments::short_argument;
use jc_world::{NativeResult, StepExit, short};

/// An object with a signature.
#[derive(Clone, Copy)]
pub struct OwnSignature {
    /// What its cells say.
    pub engine: KeyedEngine,
    /// What its number names.
    pub kind: SignatureKind,
}

// A new object with a signature of this number.
fn new_signature(number: i16, kind: SignatureKind) -> NewEngine
    ensures { result ≡ new_signature number kind }
{
    NewEngine {
        class: PlatformClass::Signature,
        number,
        elements: StateKind::Shorts,
        event: Some(ClearEvent::Reset),
        state: kind.shorts(),
    }
}

// The new object of one number.
fn signature_of_one(number: i16) -> Result<NewEngine, FrameExit>
    ensures new { result ≡ signature_of_one number }
    ensures plain { plainly result ≡ result }
{
    let Some(kind) = kind_named(number) else {
        return Err(FrameExit::Throw(NO_SUCH_ALGORITHM));
    };
    Ok(new_signature(number, kind))
}

// The new object that one number asks for.
#[tactic(auto, unfolding(crate::specs::Signature::signature_get_instance))]
fn new_by_number(args: &[Cell]) -> Result<NewEngine, FrameExit>
    ensures new { result ≡ signature_get_instance args.now }
    ensures plain { plainly result ≡ result }
{
    let number = short_argument(args, 0)?;
    let _external = short_argument(args, 1)?;
    signature_of_one(number)
}

// The new object that three numbers ask for.
#[tactic(auto, unfolding(crate::specs::Signature::signature_get_instance_of_digest_cipher_and_padding))]
fn new_by_three_numbers(args: &[Cell]) -> Result<NewEngine, FrameExit>
    ensures new { result ≡ signature_get_instance_of_digest_cipher_and_padding args.now }
    ensures plain { plainly result ≡ result }
{
    let digest = short_argument(args, 0)?;
    let cipher = short_argument(args, 1)?;
    let padding = short_argument(args, 2)?;
    let _external = short_argument(args, 3)?;
    let Some(number) = kind_of_numbers(digest, cipher, padding) else {
        return Err(FrameExit::Throw(NO_SUCH_ALGORITHM));
    };
    signature_of_one(number)
}

/// `Signature.getInstance` by one number: makes an object with a signature.
pub(crate) fn signature_get_instance<S: WordStore>(
    args: &[Cell],
    memory: &mut Memory<S>,
    linked: &Linked,
) -> Result<NativeResult, StepExit>
    requires up { memory.old.heap.down ≡ false }
    ensures { Executes (factory_call (signature_get_instance args.now) linked.now memory.old)
        memory.old (after_call result memory.new) }
{
    let engine = new_by_number(args)?;
    make_engine(engine, memory, linked)
}

/// `Signature.getInstance` by three numbers: makes an object with the signature of a hash function, a cipher and a padding.
pub(crate) fn signature_get_instance_of_digest_cipher_and_padding<S: WordStore>(
    args: &[Cell],
    memory: &mut Memory<S>,
    linked: &Linked,
) -> Result<NativeResult, StepExit>
    requires up { memory.old.heap.down ≡ false }
    ensures { Executes (factory_call (signature_get_instance_of_digest_cipher_and_padding args.now)
        linked.now memory.old) memory.old (after_call result memory.new) }
{
    let engine = new_by_three_numbers(args)?;
    make_engine(engine, memory, linked)
}

// The receiver of a call.
#[tactic(auto, unfolding(crate::specs::Signature::own_signature))]
fn own_signature<S: WordStore>(
    args: &[Cell],
    memory: &Memory<S>,
    linked: &Linked,
) -> Result<OwnSignature, FrameExit>
    requires up { memory.now.heap.down ≡ false }
    ensures own { result ≡ own_signature args.now linked.now memory.now }
    ensures there { IfOk result (λ own. IsInstanceWith memory.now own.engine.own keyed_cells) }
    ensures plain { plainly result ≡ result }
{
    let engine = engine_of(PlatformClass::Signature, args, memory, linked)?;
    let Some(kind) = kind_named(engine.number) else {
        return Err(FrameExit::End(Outcome::Fault));
    };
    Ok(OwnSignature { engine, kind })
}

/// `Signature.getAlgorithm`: returns the one number of the signature.
#[tactic(auto, unfolding(crate::specs::Signature::signature_get_algorithm))]
pub(crate) fn signature_get_algorithm<S: WordStore>(
    args: &[Cell],
    memory: &Memory<S>,
    linked: &Linked,
) -> Result<NativeResult, StepExit>
    requires up { memory.now.heap.down ≡ false }
    ensures { Executes (reading_call (signature_get_algorithm args.now linked.now memory.now)
        linked.now memory.now) memory.now (after_call result memory.now) }
{
    let own = engine_of(PlatformClass::Signature, args, memory, linked)?;
    Ok(short(own.number))
}

/// `Signature.getMessageDigestAlgorithm`: returns the number of its hash function.
#[tactic(auto, unfolding(crate::specs::Signature::signature_get_message_digest_algorithm))]
pub(crate) fn signature_get_message_digest_algorithm<S: WordStore>(
    args: &[Cell],
    memory: &Memory<S>,
    linked: &Linked,
) -> Result<NativeResult, StepExit>
    requires up { memory.now.heap.down ≡ false }
    ensures { Executes (reading_call
        (signature_get_message_digest_algorithm args.now linked.now memory.now)
        linked.now memory.now) memory.now (after_call result memory.now) }
{
    let own = own_signature(args, memory, linked)?;
    Ok(short(own.kind.digest_number()))
}

/// `Signature.getCipherAlgorithm`: returns the number of its cipher.
#[tactic(auto, unfolding(crate::specs::Signature::signature_get_cipher_algorithm))]
pub(crate) fn signature_get_cipher_algorithm<S: WordStore>(
    args: &[Cell],
    memory: &Memory<S>,
    linked: &Linked,
) -> Result<NativeResult, StepExit>
    requires up { memory.now.heap.down ≡ false }
    ensures { Executes (reading_call (signature_get_cipher_algorithm args.now linked.now memory.now)
        linked.now memory.now) memory.now (after_call result memory.now) }
{
    let own = own_signature(args, memory, linked)?;
    Ok(short(own.kind.cipher_number()))
}

/// `Signature.getPaddingAlgorithm`: returns the number of its padding.
#[tactic(auto, unfolding(crate::specs::Signature::signature_get_padding_algorithm))]
pub(crate) fn signature_get_padding_algorithm<S: WordStore>(
    args: &[Cell],
    memory: &Memory<S>,
    linked: &Linked,
) -> Result<NativeResult, StepExit>
    requires up { memory.now.heap.down ≡ false }
    ensures { Executes (reading_call
        (signature_get_padding_algorithm args.now linked.now memory.now)
        linked.now memory.now) memory.now (after_call result memory.now) }
{
    let own = own_signature(args, memory, linked)?;
    Ok(short(own.kind.padding_number()))
}

/// `Signature.init` by a key and a mode: sets them, and a vector of zeros; nothing came.
#[tactic(auto, unfolding(crate::specs::Signature::signature_init))]
pub(crate) fn signature_init<S: WordStore>(
    args: &[Cell],
    memory: &mut Memory<S>,
    linked: &Linked,
) -> Result<NativeResult, StepExit>
    requires up { memory.old.heap.down ≡ false }
    ensures { Executes (initializing_call (signature_init args.now linked.now memory.old) args.now
        linked.now memory.old) memory.old (after_call result memory.new) }
{
    let own = own_signature(args, memory, linked)?;
    match own.kind {
        SignatureKind::Code(algorithm) => init_code(algorithm, &own.engine, args, memory, linked),
        SignatureKind::Pair(algorithm) => init_pair(algorithm, &own.engine, args, memory, linked),
    }
}

/// `Signature.init` with a vector, of one block: sets it with key and mode; nothing came. CMAC, HMAC and signatures under a key of a pair take none.
#[tactic(auto, unfolding(crate::specs::Signature::signature_init_with_vector))]
pub(crate) fn signature_init_with_vector<S: WordStore>(
    args: &[Cell],
    memory: &mut Memory<S>,
    linked: &Linked,
) -> Result<NativeResult, StepExit>
    requires up { memory.old.heap.down ≡ false }
    ensures { Executes (initializing_call
        (signature_init_with_vector args.now linked.now memory.old) args.now linked.now memory.old)
        memory.old (after_call result memory.new) }
{
    let own = own_signature(args, memory, linked)?;
    match own.kind {
        SignatureKind::Code(algorithm) => init_code_with_vector(
            algorithm,
            &own.engine,
            args,
            memory,
            linked,
        ),
        SignatureKind::Pair(algorithm) => init_pair_with_vector(algorithm, args, memory, linked),
    }
}

/// `Signature.getLength`: returns how many bytes a signature has, at most where they differ.
#[tactic(auto, unfolding(crate::specs::Signature::signature_get_length))]
pub(crate) fn signature_get_length<S: WordStore>(
    args: &[Cell],
    memory: &Memory<S>,
    linked: &Linked,
) -> Result<NativeResult, StepExit>
    requires up { memory.now.heap.down ≡ false }
    ensures { Executes (reading_call (signature_get_length args.now linked.now memory.now)
        linked.now memory.now) memory.now (after_call result memory.now) }
{
    let own = own_signature(args, memory, linked)?;
    match own.kind {
        SignatureKind::Code(algorithm) => get_length_of_code(
            algorithm,
            &own.engine,
            memory,
            linked,
        ),
        SignatureKind::Pair(algorithm) => get_length_of_pair(
            algorithm,
            &own.engine,
            memory,
            linked,
        ),
    }
}

/// `Signature.update`: the bytes follow the message.
#[tactic(auto, unfolding(crate::specs::Signature::signature_update))]
pub(crate) fn signature_update<S: WordStore>(
    args: &[Cell],
    memory: &mut Memory<S>,
    linked: &Linked,
) -> Result<NativeResult, StepExit>
    requires up { memory.old.heap.down ≡ false }
    ensures { Executes (changing_call (signature_update args.now linked.now memory.old)
        linked.now memory.old) memory.old (after_call result memory.new) }
{
    let own = own_signature(args, memory, linked)?;
    match own.kind {
        SignatureKind::Code(algorithm) => update_code(algorithm, &own.engine, args, memory, linked),
        SignatureKind::Pair(algorithm) => update_by_pair(
            algorithm,
            &own.engine,
            args,
            memory,
            linked,
        ),
    }
}

/// `Signature.sign`: the message ends with these bytes; puts its signature, and returns its length. Where the message cannot end so it throws
/// ILLEGAL_USE, and where a key of a pair makes no signature ILLEGAL_VALUE.
#[tactic(auto, unfolding(crate::specs::Signature::signature_sign))]
pub(crate) fn signature_sign<S: WordStore>(
    args: &[Cell],
    memory: &mut Memory<S>,
    linked: &Linked,
) -> Result<NativeResult, StepExit>
    requires up { memory.old.heap.down ≡ false }
    ensures { Executes (changing_call (signature_sign args.now linked.now memory.old)
        linked.now memory.old) memory.old (after_call result memory.new) }
{
    let own = own_signature(args, memory, linked)?;
    match own.kind {
        SignatureKind::Code(algorithm) => sign_code(algorithm, &own.engine, args, memory, linked),
        SignatureKind::Pair(algorithm) => sign_by_pair(
            algorithm,
            &own.engine,
            args,
            memory,
            linked,
        ),
    }
}

/// `Signature.verify`: the message ends with these bytes; returns whether others are its signature. Where the message cannot end so it throws
/// ILLEGAL_USE.
#[tactic(auto, unfolding(crate::specs::Signature::signature_verify))]
pub(crate) fn signature_verify<S: WordStore>(
    args: &[Cell],
    memory: &mut Memory<S>,
    linked: &Linked,
) -> Result<NativeResult, StepExit>
    requires up { memory.old.heap.down ≡ false }
    ensures { Executes (changing_call (signature_verify args.now linked.now memory.old)
        linked.now memory.old) memory.old (after_call result memory.new) }
{
    let own = own_signature(args, memory, linked)?;
    match own.kind {
        SignatureKind::Code(algorithm) => verify_code(algorithm, &own.engine, args, memory, linked),
        SignatureKind::Pair(algorithm) => verify_by_pair(
            algorithm,
            &own.engine,
            args,
            memory,
            linked,
        ),
    }
}
