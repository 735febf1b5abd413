//! `Cipher` (API specification, `javacardx.crypto`).

pub mod algorithms;
pub mod block;
pub mod kinds;
pub mod rsa;
pub(crate) mod state;

ghost use Rattle.std.specs.Prelude.{◌≡◌, false, IfOk};
ghost use Rattle.jc_memory.specs.Programs.{Executes};
ghost use Rattle.jc_world.specs.Instances.{IsInstanceWith};
ghost use Rattle.jc_world.specs.NativeCalls.{after_call};
ghost use Rattle.jc_api.specs.Changing.{changing_call};
ghost use Rattle.jc_api.specs.Exits.{plainly};
ghost use Rattle.jc_api.specs.Factory.{factory_call};
ghost use Rattle.jc_api.specs.Forms.{reading_call};
ghost use Rattle.jc_api.specs.Initializing.{initializing_call};
ghost use Rattle.jc_api_ciphers.specs.Initialized.{keyed_cells};
ghost use Rattle.jc_api_ciphers.specs.Cipher.{cipher_do_final, cipher_get_algorithm, cipher_get_cipher_algorithm, cipher_get_instance, cipher_get_instance_of_cipher_and_padding, cipher_get_padding_algorithm, cipher_init, cipher_init_with_vector, cipher_update, new_cipher, own_cipher};

use crate::cipher::block::{end_block, init_block, init_block_with_vector, update_block};
use crate::cipher::kinds::{CipherKind, kind_named, kind_of_numbers};
use crate::cipher::rsa::{end_rsa, init_rsa, init_rsa_with_vector, update_rsa};
use crate::initialized::{KeyedEngine, engine_of};
use jc_api::{NewEngine, StateKind, make_engine};
use jc_api_keys::exceptions::NO_SUCH_ALGORITHM;
use jc_frames::{Cell, FrameExit, Outcome};
use jc_linker::linked::Linked;
use jc_memory::Memory;
use jc_platform::names::PlatformClass;
use jc_transient::ClearEvent;
use jc_words::WordStore;
use jc_world::arguments::short_argument;
use jc_world::{NativeResult, StepExit, short};

/// An object with a cipher.
#[derive(Clone, Copy)]
pub struct OwnCipher {
    /// What its cells say.
    pub engine: KeyedEngine,
    /// What its number names.
    pub kind: CipherKind,
}

// A new object with a cipher of this number.
fn new_cipher(number: i16, kind: CipherKind) -> NewEngine
    ensures { result ≡ new_cipher number kind }
{
    NewEngine {
        class: PlatformClass::Cipher,
        number,
        elements: StateKind::Shorts,
        event: Some(ClearEvent::Reset),
        state: kind.shorts(),
    }
}

// The new object that one number asks for.
#[tactic(auto, unfolding(crate::specs::Cipher::cipher_get_instance))]
fn new_by_number(args: &[Cell]) -> Result<NewEngine, FrameExit>
    ensures new { result ≡ cipher_get_instance args.now }
    ensures plain { plainly result ≡ result }
{
    let number = short_argument(args, 0)?;
    let _external = short_argument(args, 1)?;
    let Some(kind) = kind_named(number) else {
        return Err(FrameExit::Throw(NO_SUCH_ALGORITHM));
    };
    Ok(new_cipher(number, kind))
}

// The new object that two numbers ask for.
#[tactic(auto, unfolding(crate::specs::Cipher::cipher_get_instance_of_cipher_and_padding))]
fn new_by_two_numbers(args: &[Cell]) -> Result<NewEngine, FrameExit>
    ensures new { result ≡ cipher_get_instance_of_cipher_and_padding args.now }
    ensures plain { plainly result ≡ result }
{
    let cipher = short_argument(args, 0)?;
    let padding = short_argument(args, 1)?;
    let _external = short_argument(args, 2)?;
    let Some(kind) = kind_of_numbers(cipher, padding) else {
        return Err(FrameExit::Throw(NO_SUCH_ALGORITHM));
    };
    Ok(new_cipher(kind.number(), kind))
}

/// `Cipher.getInstance` by one number: makes an object with a cipher.
pub(crate) fn cipher_get_instance<S: WordStore>(
    args: &[Cell],
    memory: &mut Memory<S>,
    linked: &Linked,
) -> Result<NativeResult, StepExit>
    requires up { memory.old.heap.down ≡ false }
    ensures { Executes (factory_call (cipher_get_instance args.now) linked.now memory.old)
        memory.old (after_call result memory.new) }
{
    let engine = new_by_number(args)?;
    make_engine(engine, memory, linked)
}

/// `Cipher.getInstance` by two numbers: makes an object with the cipher of a block algorithm with its chaining, and of a padding.
pub(crate) fn cipher_get_instance_of_cipher_and_padding<S: WordStore>(
    args: &[Cell],
    memory: &mut Memory<S>,
    linked: &Linked,
) -> Result<NativeResult, StepExit>
    requires up { memory.old.heap.down ≡ false }
    ensures { Executes (factory_call (cipher_get_instance_of_cipher_and_padding args.now)
        linked.now memory.old) memory.old (after_call result memory.new) }
{
    let engine = new_by_two_numbers(args)?;
    make_engine(engine, memory, linked)
}

// The receiver of a call.
#[tactic(auto, unfolding(crate::specs::Cipher::own_cipher))]
fn own_cipher<S: WordStore>(
    args: &[Cell],
    memory: &Memory<S>,
    linked: &Linked,
) -> Result<OwnCipher, FrameExit>
    requires up { memory.now.heap.down ≡ false }
    ensures own { result ≡ own_cipher args.now linked.now memory.now }
    ensures there { IfOk result (λ own. IsInstanceWith memory.now own.engine.own keyed_cells) }
    ensures plain { plainly result ≡ result }
{
    let engine = engine_of(PlatformClass::Cipher, args, memory, linked)?;
    let Some(kind) = kind_named(engine.number) else {
        return Err(FrameExit::End(Outcome::Fault));
    };
    Ok(OwnCipher { engine, kind })
}

/// `Cipher.getAlgorithm`: returns the one number of the cipher.
#[tactic(auto, unfolding(crate::specs::Cipher::cipher_get_algorithm))]
pub(crate) fn cipher_get_algorithm<S: WordStore>(
    args: &[Cell],
    memory: &Memory<S>,
    linked: &Linked,
) -> Result<NativeResult, StepExit>
    requires up { memory.now.heap.down ≡ false }
    ensures { Executes (reading_call (cipher_get_algorithm args.now linked.now memory.now)
        linked.now memory.now) memory.now (after_call result memory.now) }
{
    let own = engine_of(PlatformClass::Cipher, args, memory, linked)?;
    Ok(short(own.number))
}

/// `Cipher.getCipherAlgorithm`: returns the number of its block algorithm and chaining, or of RSA.
#[tactic(auto, unfolding(crate::specs::Cipher::cipher_get_cipher_algorithm))]
pub(crate) fn cipher_get_cipher_algorithm<S: WordStore>(
    args: &[Cell],
    memory: &Memory<S>,
    linked: &Linked,
) -> Result<NativeResult, StepExit>
    requires up { memory.now.heap.down ≡ false }
    ensures { Executes (reading_call (cipher_get_cipher_algorithm args.now linked.now memory.now)
        linked.now memory.now) memory.now (after_call result memory.now) }
{
    let own = own_cipher(args, memory, linked)?;
    Ok(short(own.kind.cipher_number()))
}

/// `Cipher.getPaddingAlgorithm`: returns the number of its padding.
#[tactic(auto, unfolding(crate::specs::Cipher::cipher_get_padding_algorithm))]
pub(crate) fn cipher_get_padding_algorithm<S: WordStore>(
    args: &[Cell],
    memory: &Memory<S>,
    linked: &Linked,
) -> Result<NativeResult, StepExit>
    requires up { memory.now.heap.down ≡ false }
    ensures { Executes (reading_call (cipher_get_padding_algorithm args.now linked.now memory.now)
        linked.now memory.now) memory.now (after_call result memory.now) }
{
    let own = own_cipher(args, memory, linked)?;
    Ok(short(own.kind.padding_number()))
}

/// `Cipher.init` by a key and a mode: sets them, and a vector of zeros; nothing came.
#[tactic(auto, unfolding(crate::specs::Cipher::cipher_init))]
pub(crate) fn cipher_init<S: WordStore>(
    args: &[Cell],
    memory: &mut Memory<S>,
    linked: &Linked,
) -> Result<NativeResult, StepExit>
    requires up { memory.old.heap.down ≡ false }
    ensures { Executes (initializing_call (cipher_init args.now linked.now memory.old) args.now
        linked.now memory.old) memory.old (after_call result memory.new) }
{
    let own = own_cipher(args, memory, linked)?;
    match own.kind {
        CipherKind::Block(algorithm) => init_block(algorithm, &own.engine, args, memory, linked),
        CipherKind::Rsa(padding) => init_rsa(padding, &own.engine, args, memory, linked),
    }
}

/// `Cipher.init` with a vector, of one block: sets it with key and mode; nothing came. RSA takes none.
#[tactic(auto, unfolding(crate::specs::Cipher::cipher_init_with_vector))]
pub(crate) fn cipher_init_with_vector<S: WordStore>(
    args: &[Cell],
    memory: &mut Memory<S>,
    linked: &Linked,
) -> Result<NativeResult, StepExit>
    requires up { memory.old.heap.down ≡ false }
    ensures { Executes (initializing_call (cipher_init_with_vector args.now linked.now memory.old) args.now
        linked.now memory.old) memory.old (after_call result memory.new) }
{
    let own = own_cipher(args, memory, linked)?;
    match own.kind {
        CipherKind::Block(algorithm) => init_block_with_vector(
            algorithm,
            &own.engine,
            args,
            memory,
            linked,
        ),
        CipherKind::Rsa(padding) => init_rsa_with_vector(padding, args, memory, linked),
    }
}

/// `Cipher.update`: the bytes follow the message; puts what is converted then, and returns how many bytes that is.
#[tactic(auto, unfolding(crate::specs::Cipher::cipher_update))]
pub(crate) fn cipher_update<S: WordStore>(
    args: &[Cell],
    memory: &mut Memory<S>,
    linked: &Linked,
) -> Result<NativeResult, StepExit>
    requires up { memory.old.heap.down ≡ false }
    ensures { Executes (changing_call (cipher_update args.now linked.now memory.old)
        linked.now memory.old) memory.old (after_call result memory.new) }
{
    let own = own_cipher(args, memory, linked)?;
    match own.kind {
        CipherKind::Block(algorithm) => update_block(algorithm, &own.engine, args, memory, linked),
        CipherKind::Rsa(padding) => update_rsa(padding, &own.engine, args, memory, linked),
    }
}

/// `Cipher.doFinal`: the message ends with these bytes; puts what is left, and returns how many bytes that is. Where the message cannot end so
/// it throws ILLEGAL_USE.
#[tactic(auto, unfolding(crate::specs::Cipher::cipher_do_final))]
pub(crate) fn cipher_do_final<S: WordStore>(
    args: &[Cell],
    memory: &mut Memory<S>,
    linked: &Linked,
) -> Result<NativeResult, StepExit>
    requires up { memory.old.heap.down ≡ false }
    ensures { Executes (changing_call (cipher_do_final args.now linked.now memory.old)
        linked.now memory.old) memory.old (after_call result memory.new) }
{
    let own = own_cipher(args, memory, linked)?;
    match own.kind {
        CipherKind::Block(algorithm) => end_block(algorithm, &own.engine, args, memory, linked),
        CipherKind::Rsa(padding) => end_rsa(padding, &own.engine, args, memory, linked),
    }
}
