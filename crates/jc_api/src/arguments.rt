//! Arrays of bytes as arguments: each with an offset, and with a length of its own, of both arrays, or of the method.
ghost use Rattle.std.specs.Prelude.{◌≡◌, ◌≤◌, false, IfOk, Ok, pos};
ghost use Rattle.jc_world.specs.Arrays.{IsBytesArgument, IsInArray, bytes_argument, elements_of};
ghost use Rattle.jc_api.specs.Arguments.{AreAsked, argument_bytes, array_arguments, counted_of, elements_at, pair_arguments, pair_of, two_of};
ghost use Rattle.jc_api.specs.Exits.{plainly};

use jc_frames::{Cell, FrameExit};
use jc_heap::Facts;
use jc_linker::linked::Linked;
use jc_memory::Memory;
use jc_transient::Ref;
use jc_words::WordStore;
use jc_world::arguments::{reference_argument, short_argument};
use jc_world::{Stretch, bytes_argument, elements};

/// How many elements a call names at most, since their number is a short.
pub const MOST_ELEMENTS: usize = i16::MAX as usize;

/// How many bytes a piece of an array has at most that is worked on in a small room: a command in the short form has no more.
pub const SMALL_PIECE: usize = 261;

/// An array of bytes with its header, none for null; an offset and a length.
#[derive(Clone, Copy)]
pub struct ArrayArguments {
    pub array: Ref,
    pub header: Option<Facts>,
    pub start: i16,
    pub count: i16,
}

/// The arguments of a method of two arrays, each with an offset, and a length.
#[derive(Clone, Copy)]
pub struct PairArguments {
    pub source: Ref,
    pub source_start: i16,
    pub destination: Ref,
    pub destination_start: i16,
    pub count: i16,
}

/// The elements of two arrays, as many of the one as of the other.
#[derive(Clone, Copy)]
pub struct Pair {
    pub from: Stretch,
    pub to: Stretch,
}

// The header of the array of bytes that a reference names, and none for null.
#[inline(always)]
fn header_of<S: WordStore>(array: Ref, memory: &Memory<S>) -> Result<Option<Facts>, FrameExit>
    requires up { memory.now.heap.down ≡ false }
    ensures header { result ≡ bytes_argument memory.now array }
    ensures there { IfOk result (IsBytesArgument memory.now array) }
    ensures plain { plainly result ≡ result }
{
    bytes_argument(array, memory)
}

// A number of elements of an array of bytes with this header, from an offset on.
#[inline(always)]
fn elements_from<S: WordStore>(
    array: Ref,
    header: Option<Facts>,
    start: i16,
    count: i16,
    memory: &Memory<S>,
    linked: &Linked,
) -> Result<Stretch, FrameExit>
    requires up { memory.now.heap.down ≡ false }
    requires there { IsBytesArgument memory.now array header }
    requires header { bytes_argument memory.now array ≡ Ok header }
    ensures elements { result ≡ elements_of linked.now memory.now array header start count }
    ensures there { IfOk result (IsInArray memory.now) }
    ensures count { IfOk result (λ e. pos e.count ≡ count) }
    ensures asked { IfOk result (AreAsked linked.now memory.now) }
    ensures plain { plainly result ≡ result }
{
    elements(array, header, start, count, memory, linked)
}

/// An array of bytes, an offset and a length, from a place among the arguments on.
#[inline(always)]
pub fn array_arguments<S: WordStore>(
    place: u8,
    args: &[Cell],
    memory: &Memory<S>,
) -> Result<ArrayArguments, FrameExit>
    requires up { memory.now.heap.down ≡ false }
    ensures given { result ≡ array_arguments place args.now memory.now }
    ensures there { IfOk result (λ g. IsBytesArgument memory.now g.array g.header) }
    ensures header { IfOk result (λ g. bytes_argument memory.now g.array ≡ Ok g.header) }
    ensures plain { plainly result ≡ result }
{
    let place = usize::from(place);
    let array = reference_argument(args, place)?;
    let start = short_argument(args, place + 1)?;
    let count = short_argument(args, place + 2)?;
    let header = header_of(array, memory)?;
    Ok(ArrayArguments {
        array,
        header,
        start,
        count,
    })
}

/// The elements that they name: null throws, then the firewall, then elements outside the array.
#[inline(always)]
pub fn argument_bytes<S: WordStore>(
    given: &ArrayArguments,
    memory: &Memory<S>,
    linked: &Linked,
) -> Result<Stretch, FrameExit>
    requires up { memory.now.heap.down ≡ false }
    requires there { IsBytesArgument memory.now given.now.array given.now.header }
    requires header { bytes_argument memory.now given.now.array ≡ Ok given.now.header }
    ensures named { result ≡ argument_bytes given.now linked.now memory.now }
    ensures there { IfOk result (IsInArray memory.now) }
    ensures asked { IfOk result (AreAsked linked.now memory.now) }
    ensures plain { plainly result ≡ result }
    ensures few { IfOk result (λ e. e.count ≤ MOST_ELEMENTS) }
{
    elements_from(
        given.array,
        given.header,
        given.start,
        given.count,
        memory,
        linked,
    )
}

/// A number of elements of the array of bytes that a reference names, from an offset on: its kind, null, the firewall, the bounds.
#[inline(always)]
#[tactic(auto, unfolding(crate::specs::Arguments::elements_at))]
pub fn elements_at<S: WordStore>(
    array: Ref,
    start: i16,
    count: i16,
    memory: &Memory<S>,
    linked: &Linked,
) -> Result<Stretch, FrameExit>
    requires up { memory.now.heap.down ≡ false }
    ensures elements { result ≡ elements_at linked.now memory.now array start count }
    ensures there { IfOk result (IsInArray memory.now) }
    ensures count { IfOk result (λ e. pos e.count ≡ count) }
    ensures asked { IfOk result (AreAsked linked.now memory.now) }
    ensures plain { plainly result ≡ result }
{
    let header = header_of(array, memory)?;
    elements_from(array, header, start, count, memory, linked)
}

/// A number of elements of an array of bytes that is given, from its offset on.
#[inline(always)]
#[tactic(auto, unfolding(crate::specs::Arguments::elements_at))]
pub fn given_elements<S: WordStore>(
    given: &ArrayArguments,
    wanted: i16,
    memory: &Memory<S>,
    linked: &Linked,
) -> Result<Stretch, FrameExit>
    requires up { memory.now.heap.down ≡ false }
    requires there { IsBytesArgument memory.now given.now.array given.now.header }
    requires header { bytes_argument memory.now given.now.array ≡ Ok given.now.header }
    ensures elements { result ≡ elements_at linked.now memory.now given.now.array given.now.start
        wanted }
    ensures there { IfOk result (IsInArray memory.now) }
    ensures count { IfOk result (λ e. pos e.count ≡ wanted) }
    ensures plain { plainly result ≡ result }
{
    elements_from(
        given.array,
        given.header,
        given.start,
        wanted,
        memory,
        linked,
    )
}

/// The elements of an array of bytes by an offset and a length, from a place among the arguments on.
#[inline(always)]
pub fn counted_of<S: WordStore>(
    place: u8,
    args: &[Cell],
    memory: &Memory<S>,
    linked: &Linked,
) -> Result<Stretch, FrameExit>
    requires up { memory.now.heap.down ≡ false }
    ensures counted { result ≡ counted_of place args.now linked.now memory.now }
    ensures there { IfOk result (IsInArray memory.now) }
    ensures asked { IfOk result (AreAsked linked.now memory.now) }
    ensures plain { plainly result ≡ result }
    ensures few { IfOk result (λ e. e.count ≤ MOST_ELEMENTS) }
{
    let given = array_arguments(place, args, memory)?;
    argument_bytes(&given, memory, linked)
}

/// The two elements of an array of bytes by an offset, the first arguments.
#[inline(always)]
pub fn two_of<S: WordStore>(
    args: &[Cell],
    memory: &Memory<S>,
    linked: &Linked,
) -> Result<Stretch, FrameExit>
    requires up { memory.now.heap.down ≡ false }
    ensures two { result ≡ two_of args.now linked.now memory.now }
    ensures there { IfOk result (IsInArray memory.now) }
    ensures asked { IfOk result (AreAsked linked.now memory.now) }
    ensures plain { plainly result ≡ result }
    ensures count { IfOk result (λ e. e.count ≡ 2) }
{
    let array = reference_argument(args, 0)?;
    let start = short_argument(args, 1)?;
    elements_at(array, start, 2, memory, linked)
}

/// The arguments of a method of two arrays, the first ones.
#[inline(always)]
pub fn pair_arguments(args: &[Cell]) -> Result<PairArguments, FrameExit>
    ensures named { result ≡ pair_arguments args.now }
    ensures plain { plainly result ≡ result }
{
    let source = reference_argument(args, 0)?;
    let source_start = short_argument(args, 1)?;
    let destination = reference_argument(args, 2)?;
    let destination_start = short_argument(args, 3)?;
    let count = short_argument(args, 4)?;
    Ok(PairArguments {
        source,
        source_start,
        destination,
        destination_start,
        count,
    })
}

/// The elements of both arrays: first whether both are arrays of bytes, then the first one's, then the second one's.
#[inline(always)]
pub fn pair_of<S: WordStore>(
    named: PairArguments,
    memory: &Memory<S>,
    linked: &Linked,
) -> Result<Pair, FrameExit>
    requires up { memory.now.heap.down ≡ false }
    ensures pair { result ≡ pair_of linked.now memory.now named }
    ensures from { IfOk result (λ a. IsInArray memory.now a.from) }
    ensures to { IfOk result (λ a. IsInArray memory.now a.to) }
    ensures count { IfOk result (λ a. a.from.count ≡ a.to.count) }
    ensures few { IfOk result (λ a. a.from.count ≤ MOST_ELEMENTS) }
    ensures asked { IfOk result (λ a. AreAsked linked.now memory.now a.to) }
    ensures plain { plainly result ≡ result }
{
    let source = header_of(named.source, memory)?;
    let destination = header_of(named.destination, memory)?;
    let from = elements_from(
        named.source,
        source,
        named.source_start,
        named.count,
        memory,
        linked,
    )?;
    let to = elements_from(
        named.destination,
        destination,
        named.destination_start,
        named.count,
        memory,
        linked,
    )?;
    Ok(Pair { from, to })
}
