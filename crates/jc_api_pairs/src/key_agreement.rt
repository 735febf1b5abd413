//! `KeyAgreement` (API specification).

pub mod algorithms;
pub mod keys;
pub(crate) mod secrets;

ghost use Rattle.std.specs.Prelude.{◌≡◌, ◌≤◌, false, IfOk};
ghost use Rattle.jc_memory.specs.Programs.{Executes};
ghost use Rattle.jc_world.specs.Instances.{IsInstanceWith, instance_at};
ghost use Rattle.jc_world.specs.NativeCalls.{after_call};
ghost use Rattle.jc_api.specs.Exits.{plainly};
ghost use Rattle.jc_api.specs.Factory.{factory_call};
ghost use Rattle.jc_api.specs.Forms.{reading_call};
ghost use Rattle.jc_world.specs.Arrays.{IsInArray};
ghost use Rattle.jc_api.specs.Initializing.{initializing_call};
ghost use Rattle.jc_api_pairs.specs.KeyAgreement.{agreement_cells, agreement_of, key_agreement_generate_secret, key_agreement_get_algorithm, key_agreement_get_instance, key_agreement_init, new_agreement};
ghost use Rattle.jc_api_pairs.specs.KeyAgreement.Keys.{ArePartsThere};
ghost use Rattle.jc_api_pairs.specs.KeyAgreement.Secrets.{puts_shared};

use crate::curve_parts::MOST_NUMBER;
use crate::key_agreement::algorithms::{Secret, agreement_named};
use crate::key_agreement::keys::{PrivateParts, factor_of, kept_key, key_given, private_parts};
use crate::key_agreement::secrets::{are_short, put_of, put_shared_x};
use jc_api::{FieldValue, Fields, NewEngine, StateKind, counted_of, initialize, make_engine};
use jc_api_keys::exceptions::{ILLEGAL_VALUE, NO_SUCH_ALGORITHM};
use jc_frames::{Cell, FrameExit, Outcome};
use jc_heap::Facts;
use jc_linker::linked::Linked;
use jc_memory::Memory;
use jc_platform::names::PlatformClass;
use jc_transient::{ClearEvent, Ref};
use jc_words::WordStore;
use jc_world::arguments::{reference_argument, short_argument};
use jc_world::objects::is_instance_of;
use jc_world::{NativeResult, StepExit, Stretch, instance, short};

// How many cells such an object has.
const AGREEMENT_CELLS: u16 = 3;

const KEY_CELL: u16 = 2;

/// What the cells of an object with an algorithm of key agreement say.
#[derive(Clone, Copy)]
pub struct Agreement {
    pub own: Ref,
    /// The number of its algorithm.
    pub number: i16,
    /// The array of its state.
    pub array: Ref,
    /// Its private key, null before it is initialized.
    pub key: Ref,
}

// The header of an instance with as many cells. Null throws, and anything else is a code fault.
fn agreement_instance<S: WordStore>(own: Ref, memory: &Memory<S>) -> Result<Facts, FrameExit>
    requires up { memory.now.heap.down ≡ false }
    ensures header { result ≡ instance_at memory.now own agreement_cells }
    ensures there { IfOk result (λ facts. IsInstanceWith memory.now own agreement_cells) }
    ensures plain { plainly result ≡ result }
{
    instance(own, AGREEMENT_CELLS, memory)
}

// The receiver of a call. Null throws, and anything but an instance of the class is a code fault.
#[tactic(auto, unfolding(crate::specs::KeyAgreement::agreement_of))]
fn agreement_of<S: WordStore>(
    args: &[Cell],
    memory: &Memory<S>,
    linked: &Linked,
) -> Result<Agreement, FrameExit>
    requires up { memory.now.heap.down ≡ false }
    ensures agreement { result ≡ agreement_of args.now linked.now memory.now }
    ensures plain { plainly result ≡ result }
{
    let own = reference_argument(args, 0)?;
    let facts = agreement_instance(own, memory)?;
    let class = linked.platform().class_word(PlatformClass::KeyAgreement);
    if !is_instance_of(facts, class, linked) {
        return Err(FrameExit::End(Outcome::Fault));
    }
    Ok(Agreement {
        own,
        number: memory.short(own, 0),
        array: memory.reference(own, 1),
        key: memory.reference(own, KEY_CELL),
    })
}

// A new object with the algorithm of this number. Nothing has to stand in its state.
fn new_agreement(number: i16) -> NewEngine
    ensures { result ≡ new_agreement number }
{
    NewEngine {
        class: PlatformClass::KeyAgreement,
        number,
        elements: StateKind::Shorts,
        event: Some(ClearEvent::Reset),
        state: 0,
    }
}

// The new object that a call asks for.
#[tactic(auto, unfolding(crate::specs::KeyAgreement::key_agreement_get_instance))]
fn new_by_number(args: &[Cell]) -> Result<NewEngine, FrameExit>
    ensures new { result ≡ key_agreement_get_instance args.now }
    ensures plain { plainly result ≡ result }
{
    let number = short_argument(args, 0)?;
    let _external = short_argument(args, 1)?;
    if agreement_named(number).is_none() {
        return Err(FrameExit::Throw(NO_SUCH_ALGORITHM));
    }
    Ok(new_agreement(number))
}

/// `KeyAgreement.getInstance`: makes an object with an algorithm.
pub(crate) fn key_agreement_get_instance<S: WordStore>(
    args: &[Cell],
    memory: &mut Memory<S>,
    linked: &Linked,
) -> Result<NativeResult, StepExit>
    requires up { memory.old.heap.down ≡ false }
    ensures { Executes (factory_call (key_agreement_get_instance args.now) linked.now memory.old)
        memory.old (after_call result memory.new) }
{
    let engine = new_by_number(args)?;
    make_engine(engine, memory, linked)
}

/// `KeyAgreement.getAlgorithm`: returns the number of its algorithm.
#[tactic(auto, unfolding(crate::specs::KeyAgreement::key_agreement_get_algorithm))]
pub(crate) fn key_agreement_get_algorithm<S: WordStore>(
    args: &[Cell],
    memory: &Memory<S>,
    linked: &Linked,
) -> Result<NativeResult, StepExit>
    requires up { memory.now.heap.down ≡ false }
    ensures { Executes (reading_call (key_agreement_get_algorithm args.now linked.now memory.now)
        linked.now memory.now) memory.now (after_call result memory.now) }
{
    let own = agreement_of(args, memory, linked)?;
    Ok(short(own.number))
}

/// `KeyAgreement.init`: sets the private key. What is no private key on a curve throws ILLEGAL_VALUE, one that is not set UNINITIALIZED_KEY.
#[tactic(auto, unfolding(crate::specs::KeyAgreement::key_agreement_init))]
pub(crate) fn key_agreement_init<S: WordStore>(
    args: &[Cell],
    memory: &mut Memory<S>,
    linked: &Linked,
) -> Result<NativeResult, StepExit>
    requires up { memory.old.heap.down ≡ false }
    ensures { Executes (initializing_call (key_agreement_init args.now linked.now memory.old) args.now
        linked.now memory.old) memory.old (after_call result memory.new) }
{
    let own = agreement_of(args, memory, linked)?;
    let Some(algorithm) = agreement_named(own.number) else {
        return Err(StepExit::End(Outcome::Fault));
    };
    key_given(algorithm, args, memory, linked)?;
    let fields = Fields {
        class: PlatformClass::KeyAgreement,
        start: KEY_CELL,
        values: &[FieldValue::Argument(1)],
        array: own.array,
        words: &[],
    };
    initialize(fields, args, memory, linked)
}

// Puts what is made of the x that a key shares with the holder of a public one; where there is none it throws ILLEGAL_VALUE.
fn put_shared<S: WordStore>(
    secret: Secret,
    parts: &PrivateParts,
    factor: u16,
    public: Stretch,
    args: &[Cell],
    memory: &mut Memory<S>,
    linked: &Linked,
) -> Result<NativeResult, StepExit>
    requires up { memory.old.heap.down ≡ false }
    requires there { ArePartsThere memory.old parts.now }
    requires public { IsInArray memory.old public }
    ensures { Executes (reading_call (puts_shared secret parts.now factor public args.now linked.now memory.old)
        linked.now memory.old) memory.old (after_call result memory.new) }
{
    if !are_short(parts, public.count) {
        return Err(StepExit::Throw(ILLEGAL_VALUE));
    }
    let size = parts.curve.field.count as usize;
    let mut buffer = [0; MOST_NUMBER];
    let x = &mut buffer[..size];
    if !put_shared_x(parts, factor, public, memory, x) {
        return Err(StepExit::Throw(ILLEGAL_VALUE));
    }
    put_of(secret, x, args, memory, linked)
}

/// `KeyAgreement.generateSecret`: puts the secret that the private key shares with the holder of this public key, an uncompressed point of its
/// curve, and returns how many bytes it has. INVALID_INIT before init; what is no such point throws ILLEGAL_VALUE.
#[tactic(auto, unfolding(crate::specs::KeyAgreement::key_agreement_generate_secret))]
pub(crate) fn key_agreement_generate_secret<S: WordStore>(
    args: &[Cell],
    memory: &mut Memory<S>,
    linked: &Linked,
) -> Result<NativeResult, StepExit>
    requires up { memory.old.heap.down ≡ false }
    ensures { Executes (reading_call (key_agreement_generate_secret args.now linked.now memory.old)
        linked.now memory.old) memory.old (after_call result memory.new) }
{
    let own = agreement_of(args, memory, linked)?;
    let Some(algorithm) = agreement_named(own.number) else {
        return Err(StepExit::End(Outcome::Fault));
    };
    let key = kept_key(&own, memory, linked)?;
    let parts = private_parts(&key, memory)?;
    let factor = factor_of(algorithm, &key, memory)?;
    let public = counted_of(1, args, memory, linked)?;
    put_shared(
        algorithm.secret,
        &parts,
        factor,
        public,
        args,
        memory,
        linked,
    )
}
