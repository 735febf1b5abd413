//! Objects of the platform with a state, as their calls find them.
ghost use Rattle.std.specs.Prelude.{◌≡◌, ◌+◌, ◌*◌, ◌≤◌, false, length, IfOk};
ghost use Rattle.jc_world.specs.Arrays.{IsInArray, bytes_in};
ghost use Rattle.jc_world.specs.Instances.{IsInstanceWith, instance_at};
ghost use Rattle.jc_api.specs.Arguments.{AreAsked};
ghost use Rattle.jc_api.specs.Changing.{IsState};
ghost use Rattle.jc_api.specs.Exits.{plainly};
ghost use Rattle.jc_api_keys.specs.Receivers.{bytes_of_state, output_for, output_of, receiver_of};

use crate::shorts::put_bytes_of;
use jc_api::{MOST_ELEMENTS, elements_at};
use jc_frames::{Cell, FrameExit, Outcome};
use jc_heap::Facts;
use jc_linker::linked::Linked;
use jc_memory::Memory;
use jc_platform::names::PlatformClass;
use jc_transient::Ref;
use jc_words::WordStore;
use jc_world::arguments::{reference_argument, short_argument};
use jc_world::objects::is_instance_of;
use jc_world::{Stretch, instance};

/// What the cells of an object with a state say.
#[derive(Clone, Copy)]
pub struct Receiver {
    pub own: Ref,
    /// The number of its algorithm.
    pub number: i16,
    /// The array of its state.
    pub array: Ref,
}

/// The header of an instance with two cells. Null throws, and anything else is a code fault.
pub(crate) fn instance_of_two<S: WordStore>(
    own: Ref,
    memory: &Memory<S>,
) -> Result<Facts, FrameExit>
    requires up { memory.now.heap.down ≡ false }
    ensures header { result ≡ instance_at memory.now own 2 }
    ensures there { IfOk result (λ facts. IsInstanceWith memory.now own 2) }
    ensures plain { plainly result ≡ result }
{
    instance(own, 2, memory)
}

/// The receiver of a call. Null throws, and anything but an instance of the class is a code fault.
#[tactic(auto, unfolding(crate::specs::Receivers::receiver_of))]
pub fn receiver_of<S: WordStore>(
    class: PlatformClass,
    args: &[Cell],
    memory: &Memory<S>,
    linked: &Linked,
) -> Result<Receiver, FrameExit>
    requires up { memory.now.heap.down ≡ false }
    ensures receiver { result ≡ receiver_of class args.now linked.now memory.now }
    ensures plain { plainly result ≡ result }
{
    let own = reference_argument(args, 0)?;
    let facts = instance_of_two(own, memory)?;
    let class = linked.platform().class_word(class);
    if !is_instance_of(facts, class, linked) {
        return Err(FrameExit::End(Outcome::Fault));
    }
    Ok(Receiver {
        own,
        number: memory.short(own, 0),
        array: memory.reference(own, 1),
    })
}

/// This many elements of an array of bytes with an offset, from a place among the arguments on.
#[tactic(auto, unfolding(crate::specs::Receivers::output_of))]
pub fn output_of<S: WordStore>(
    place: u8,
    count: u8,
    args: &[Cell],
    memory: &Memory<S>,
    linked: &Linked,
) -> Result<Stretch, FrameExit>
    requires up { memory.now.heap.down ≡ false }
    ensures output { result ≡ output_of place count args.now linked.now memory.now }
    ensures there { IfOk result (IsInArray memory.now) }
    ensures asked { IfOk result (AreAsked linked.now memory.now) }
    ensures plain { plainly result ≡ result }
    ensures count { IfOk result (λ e. e.count ≡ count) }
{
    let place = usize::from(place);
    let array = reference_argument(args, place)?;
    let start = short_argument(args, place + 1)?;
    elements_at(array, start, i16::from(count), memory, linked)
}

/// The same for a number of elements that may be more than an array has.
#[tactic(auto, unfolding(crate::specs::Receivers::output_for))]
pub fn output_for<S: WordStore>(
    place: u8,
    count: u16,
    args: &[Cell],
    memory: &Memory<S>,
    linked: &Linked,
) -> Result<Stretch, FrameExit>
    requires up { memory.now.heap.down ≡ false }
    ensures output { result ≡ output_for place count args.now linked.now memory.now }
    ensures there { IfOk result (IsInArray memory.now) }
    ensures asked { IfOk result (AreAsked linked.now memory.now) }
    ensures plain { plainly result ≡ result }
    ensures count { IfOk result (λ e. e.count ≡ count) }
    ensures few { IfOk result (λ e. e.count ≤ MOST_ELEMENTS) }
{
    let place = usize::from(place);
    let array = reference_argument(args, place)?;
    let start = short_argument(args, place + 1)?;
    elements_at(array, start, count.cast_signed(), memory, linked)
}

/// Reads the bytes of a state, by way of its shorts.
pub fn read_state<S: WordStore>(
    state: Stretch,
    memory: &Memory<S>,
    words: &mut [u16],
    bytes: &mut [u8],
)
    requires up { memory.now.heap.down ≡ false }
    requires there { IsState memory.now state }
    requires words { length words.old ≡ state.count }
    requires bytes { length bytes.old ≡ 2 * state.count }
    ensures { bytes.new ≡ bytes_of_state memory.now state }
{
    memory.words(state.array, state.start, words);
    put_bytes_of(words, bytes);
}

/// Reads elements of an array.
pub fn read<S: WordStore>(e: Stretch, memory: &Memory<S>, bytes: &mut [u8])
    requires up { memory.now.heap.down ≡ false }
    requires there { IsInArray memory.now e }
    requires all { length bytes.old ≡ e.count }
    ensures { bytes.new ≡ bytes_in memory.now e }
{
    memory.bytes(e.array, e.start, bytes);
}
