//! Form 5 of calls: the receiver names two objects, each an argument or a new one.
ghost use Rattle.std.specs.Prelude.{◌≡◌, false, Ok};
ghost use Rattle.jc_memory.specs.Programs.{Executes};
ghost use Rattle.jc_world.specs.NativeCalls.{after_call};
ghost use Rattle.jc_api.specs.Exits.{plainly};
ghost use Rattle.jc_api.specs.Pairing.{HasStateIfNew, named_in, named_object, names_both, names_second, pairing_call};

use crate::factory::{NewEngine, make_engine};
use crate::initializing::instance_called;
use jc_frames::{Cell, FrameExit, Outcome};
use jc_linker::linked::Linked;
use jc_memory::Memory;
use jc_platform::names::PlatformClass;
use jc_transient::Ref;
use jc_words::WordStore;
use jc_world::arguments::reference_argument;
use jc_world::{NativeResult, StepExit};

/// An object that is to be named.
#[derive(Clone, Copy)]
pub enum NamedObject {
    /// The one that the argument at a place names, the receiver at 0.
    Argument(u8),
    /// A new one with a state.
    New(NewEngine),
}

/// What the receiver of a call is to be: its first cells are a number and two references.
#[derive(Clone, Copy)]
pub struct NewPair {
    pub class: PlatformClass,
    pub number: i16,
    pub first: NamedObject,
    pub second: NamedObject,
}

// How many cells of the receiver are set.
const PAIR_CELLS: u16 = 3;

// Returns the reference to an object that is to be named.
fn named_object<S: WordStore>(
    object: NamedObject,
    args: &[Cell],
    memory: &mut Memory<S>,
    linked: &Linked,
) -> Result<NativeResult, StepExit>
    requires up { memory.old.heap.down ≡ false }
    requires state { HasStateIfNew object }
    ensures { Executes (named_object object args.now linked.now memory.old) memory.old
        (after_call result memory.new) }
{
    match object {
        NamedObject::Argument(place) => {
            let reference = reference_argument(args, usize::from(place))?;
            Ok(NativeResult::ReturnValue(Cell::Reference(reference)))
        }
        NamedObject::New(engine) => make_engine(engine, memory, linked),
    }
}

// The reference that was returned.
fn named_in(made: NativeResult) -> Result<Ref, FrameExit>
    ensures { result ≡ named_in made }
{
    match made {
        NativeResult::ReturnValue(cell) => Ok(reference_argument(&[cell], 0)?),
        _ => Err(FrameExit::End(Outcome::Fault)),
    }
}

// The receiver names both.
fn names_both<S: WordStore>(
    pair: &NewPair,
    first: Ref,
    second: Ref,
    args: &[Cell],
    memory: &mut Memory<S>,
    linked: &Linked,
) -> Result<NativeResult, StepExit>
    requires up { memory.old.heap.down ≡ false }
    ensures { Executes (names_both pair.now first second args.now linked.now memory.old) memory.old
        (after_call result memory.new) }
{
    let own = instance_called(pair.class, PAIR_CELLS, args, memory, linked)?;
    let words = [
        pair.number.cast_unsigned(),
        first.address(),
        second.address(),
    ];
    memory.set_run(own, 0, &words)?;
    Ok(NativeResult::ReturnVoid)
}

// The second is made, if it is new, and named beside the first.
fn names_second<S: WordStore>(
    pair: &NewPair,
    first: Ref,
    args: &[Cell],
    memory: &mut Memory<S>,
    linked: &Linked,
) -> Result<NativeResult, StepExit>
    requires up { memory.old.heap.down ≡ false }
    requires state { HasStateIfNew pair.now.second }
    ensures { Executes (names_second pair.now first args.now linked.now memory.old) memory.old
        (after_call result memory.new) }
{
    let made = named_object(pair.second, args, memory, linked)?;
    let second = named_in(made)?;
    names_both(pair, first, second, args, memory, linked)
}

/// Makes the receiver of a call, an instance of the class, name two objects: each is an argument, or is made as `make_engine` makes it, one
/// after the other, with its refusals. Where the second is refused nothing names the first. Number and references are set as one change;
/// where the transaction has no room for them it throws, and the receiver stays as it was.
pub fn make_pair<S: WordStore>(
    pair: &NewPair,
    args: &[Cell],
    memory: &mut Memory<S>,
    linked: &Linked,
) -> Result<NativeResult, StepExit>
    requires up { memory.old.heap.down ≡ false }
    requires first { HasStateIfNew pair.now.first }
    requires second { HasStateIfNew pair.now.second }
    ensures { Executes (pairing_call (Ok pair.now) args.now linked.now memory.old) memory.old
        (after_call result memory.new) }
{
    let _own = instance_called(pair.class, PAIR_CELLS, args, memory, linked)?;
    let made = named_object(pair.first, args, memory, linked)?;
    let first = named_in(made)?;
    names_second(pair, first, args, memory, linked)
}
