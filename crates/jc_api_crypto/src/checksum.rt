//! `Checksum` (API specification).

pub(crate) mod state;

ghost use Rattle.std.specs.Prelude.{◌≡◌, ◌≤◌, false, IfOk};
ghost use Rattle.jc_memory.specs.Programs.{Executes};
ghost use Rattle.jc_world.specs.NativeCalls.{after_call};
ghost use Rattle.jc_api.specs.Changing.{changing_call};
ghost use Rattle.jc_api.specs.Exits.{plainly};
ghost use Rattle.jc_api.specs.Factory.{factory_call};
ghost use Rattle.jc_api.specs.Forms.{reading_call};
ghost use Rattle.jc_api_crypto.specs.Checksum.{IsRunning, checksum_do_final, checksum_get_algorithm, checksum_get_instance, checksum_init, checksum_named, checksum_shorts, checksum_update, running_checksum};

use crate::checksum::state::{begin, finish, update};
use jc_api::{NewEngine, StateKind, counted_of, make_engine, state_at};
use jc_api_keys::exceptions::NO_SUCH_ALGORITHM;
use jc_api_keys::receivers::{output_of, receiver_of};
use jc_frames::{Cell, FrameExit, Outcome};
use jc_linker::linked::Linked;
use jc_memory::Memory;
use jc_platform::names::PlatformClass;
use jc_transient::ClearEvent;
use jc_words::WordStore;
use jc_world::arguments::short_argument;
use jc_world::{NativeResult, StepExit, Stretch, short};

/// The checksums of ISO 3309.
#[derive(Clone, Copy)]
pub enum ChecksumAlgorithm {
    Crc16,
    Crc32,
}

/// A message under a checksum: the cells of its state.
#[derive(Clone, Copy)]
pub struct RunningChecksum {
    pub algorithm: ChecksumAlgorithm,
    pub state: Stretch,
}

// The checksum of a number.
fn checksum_named(number: i16) -> Option<ChecksumAlgorithm>
    ensures { result ≡ checksum_named number }
{
    if number == 1 {
        Some(ChecksumAlgorithm::Crc16)
    } else if number == 2 {
        Some(ChecksumAlgorithm::Crc32)
    } else {
        None
    }
}

// How many shorts a checksum has.
pub(crate) fn checksum_shorts(algorithm: ChecksumAlgorithm) -> u8
    ensures shorts { result ≡ checksum_shorts algorithm }
    ensures few { result ≤ 2 }
{
    match algorithm {
        ChecksumAlgorithm::Crc16 => 1,
        ChecksumAlgorithm::Crc32 => 2,
    }
}

// The checksum of the receiver, and the cells of its state.
#[tactic(auto, unfolding(crate::specs::Checksum::running_checksum))]
fn running_checksum<S: WordStore>(
    args: &[Cell],
    memory: &Memory<S>,
    linked: &Linked,
) -> Result<RunningChecksum, FrameExit>
    requires up { memory.now.heap.down ≡ false }
    ensures running { result ≡ running_checksum args.now linked.now memory.now }
    ensures there { IfOk result (IsRunning memory.now) }
    ensures plain { plainly result ≡ result }
{
    let own = receiver_of(PlatformClass::Checksum, args, memory, linked)?;
    let Some(algorithm) = checksum_named(own.number) else {
        return Err(FrameExit::End(Outcome::Fault));
    };
    let state = state_at(
        own.array,
        0,
        u16::from(checksum_shorts(algorithm)),
        memory,
        linked,
    )?;
    Ok(RunningChecksum { algorithm, state })
}

// The new object that is asked for.
#[tactic(auto, unfolding(crate::specs::Checksum::checksum_get_instance))]
fn new_checksum(args: &[Cell]) -> Result<NewEngine, FrameExit>
    ensures new { result ≡ checksum_get_instance args.now }
    ensures plain { plainly result ≡ result }
{
    let number = short_argument(args, 0)?;
    let _external = short_argument(args, 1)?;
    let Some(algorithm) = checksum_named(number) else {
        return Err(FrameExit::Throw(NO_SUCH_ALGORITHM));
    };
    Ok(NewEngine {
        class: PlatformClass::Checksum,
        number,
        elements: StateKind::Shorts,
        event: Some(ClearEvent::Reset),
        state: u16::from(checksum_shorts(algorithm)),
    })
}

/// `Checksum.getInstance`: makes an object with the checksum of a number.
pub(crate) fn checksum_get_instance<S: WordStore>(
    args: &[Cell],
    memory: &mut Memory<S>,
    linked: &Linked,
) -> Result<NativeResult, StepExit>
    requires up { memory.old.heap.down ≡ false }
    ensures { Executes (factory_call (checksum_get_instance args.now) linked.now memory.old)
        memory.old (after_call result memory.new) }
{
    let engine = new_checksum(args)?;
    make_engine(engine, memory, linked)
}

/// `Checksum.getAlgorithm`: returns the number of the checksum.
#[tactic(auto, unfolding(crate::specs::Checksum::checksum_get_algorithm))]
pub(crate) fn checksum_get_algorithm<S: WordStore>(
    args: &[Cell],
    memory: &Memory<S>,
    linked: &Linked,
) -> Result<NativeResult, StepExit>
    requires up { memory.now.heap.down ≡ false }
    ensures { Executes (reading_call (checksum_get_algorithm args.now linked.now memory.now)
        linked.now memory.now) memory.now (after_call result memory.now) }
{
    let own = receiver_of(PlatformClass::Checksum, args, memory, linked)?;
    Ok(short(own.number))
}

/// `Checksum.init`: the checksum is given.
#[tactic(auto, unfolding(crate::specs::Checksum::checksum_init))]
pub(crate) fn checksum_init<S: WordStore>(
    args: &[Cell],
    memory: &mut Memory<S>,
    linked: &Linked,
) -> Result<NativeResult, StepExit>
    requires up { memory.old.heap.down ≡ false }
    ensures { Executes (changing_call (checksum_init args.now linked.now memory.old)
        linked.now memory.old) memory.old (after_call result memory.new) }
{
    let own = running_checksum(args, memory, linked)?;
    let e = counted_of(1, args, memory, linked)?;
    begin(&own, e, memory, linked)
}

/// `Checksum.update`: the bytes follow.
#[tactic(auto, unfolding(crate::specs::Checksum::checksum_update))]
pub(crate) fn checksum_update<S: WordStore>(
    args: &[Cell],
    memory: &mut Memory<S>,
    linked: &Linked,
) -> Result<NativeResult, StepExit>
    requires up { memory.old.heap.down ≡ false }
    ensures { Executes (changing_call (checksum_update args.now linked.now memory.old)
        linked.now memory.old) memory.old (after_call result memory.new) }
{
    let own = running_checksum(args, memory, linked)?;
    let piece = counted_of(1, args, memory, linked)?;
    update(&own, piece, memory, linked)
}

/// `Checksum.doFinal`: puts the checksum once these bytes follow, and begins again with 0; returns how many bytes it has.
#[tactic(auto, unfolding(crate::specs::Checksum::checksum_do_final))]
pub(crate) fn checksum_do_final<S: WordStore>(
    args: &[Cell],
    memory: &mut Memory<S>,
    linked: &Linked,
) -> Result<NativeResult, StepExit>
    requires up { memory.old.heap.down ≡ false }
    ensures { Executes (changing_call (checksum_do_final args.now linked.now memory.old)
        linked.now memory.old) memory.old (after_call result memory.new) }
{
    let own = running_checksum(args, memory, linked)?;
    let piece = counted_of(1, args, memory, linked)?;
    let to = output_of(4, 2 * checksum_shorts(own.algorithm), args, memory, linked)?;
    finish(&own, piece, to, memory, linked)
}
