//! `AID` (API specification).

pub mod cells;
pub mod law;

ghost use Rattle.std.specs.Prelude.{◌≡◌, ◌≤◌, false, length, pos, Ok};
ghost use Rattle.std.specs.Option.{option_copied};
ghost use Rattle.jc_world.specs.Numbers.{not_negative};
ghost use Rattle.jc_memory.specs.Programs.{Executes};
ghost use Rattle.jc_world.specs.NativeCalls.{after_call};
ghost use Rattle.jc_world.specs.Answers.{returns_short};
ghost use Rattle.jc_world.specs.Arrays.{IsBytesArgument, IsInArray, bytes_argument, bytes_in};
ghost use Rattle.jc_api.specs.Forms.{put_then, puts_at, reading_call};
ghost use Rattle.jc_api_framework.specs.Constructing.{constructing_call};
ghost use Rattle.jc_api_framework.specs.Aid.{agree, agrees_with_bytes, cells_of_elements, aid_call, aid_get_bytes, aid_get_partial_bytes, aid_init, aid_of_object};
ghost use Rattle.jc_api_framework.specs.Aid.{begins_with, compared_with_bytes, compared_with_object, part_answer, part_within, rid_of};

use crate::aid::cells::{cells_of_aid, is_aid_length};
use crate::constructing::{construct, new_instance};
use jc_api::{ArrayArguments, argument_bytes, array_arguments, elements_at, given_elements};
use jc_environment::{Aid, MOST_AID, aid_at};
use jc_frames::reasons::ILLEGAL_VALUE;
use jc_frames::{Cell, Exception, Outcome};
use jc_linker::linked::Linked;
use jc_memory::Memory;
use jc_platform::names::{AidsMethod, PlatformClass};
use jc_transient::Ref;
use jc_words::WordStore;
use jc_world::arguments::{reference_argument, short_argument};
use jc_world::objects::is_instance_of;
use jc_world::{NativeResult, StepExit, Stretch, boolean, put, short};

// The AID of an instance of `AID`.
fn aid_of_object<S: WordStore>(object: Ref, memory: &Memory<S>, linked: &Linked) -> Option<Aid>
    requires up { memory.now.heap.down ≡ false }
    ensures { result ≡ aid_of_object linked.now memory.now object }
{
    if object.is_null() {
        return None;
    }
    let facts = memory.header(object)?;
    let class = linked.platform().class_word(PlatformClass::Aid);
    if is_instance_of(facts, class, linked) {
        aid_at(memory, object)
    } else {
        None
    }
}

// Sets the cells of an AID object to those of elements of an array, if an AID has as many bytes.
fn set_aid<S: WordStore>(
    e: Stretch,
    args: &[Cell],
    memory: &mut Memory<S>,
) -> Result<NativeResult, StepExit>
    requires up { memory.old.heap.down ≡ false }
    requires there { IsInArray memory.old e }
    ensures { Executes (constructing_call (cells_of_elements memory.old e) args.now memory.old)
        memory.old (after_call result memory.new) }
{
    if !is_aid_length(e.count) {
        return Err(StepExit::Throw(ILLEGAL_VALUE));
    }
    let mut bytes = [0; MOST_AID];
    let aid = &mut bytes[..e.count as usize];
    memory.bytes(e.array, e.start, aid);
    let cells = cells_of_aid(aid);
    construct(&cells, args, memory)
}

// `AID.<init>`: sets the cells of an AID, as one change.
#[tactic(auto, unfolding(crate::specs::Aid::aid_init))]
fn aid_init<S: WordStore>(
    args: &[Cell],
    memory: &mut Memory<S>,
    linked: &Linked,
) -> Result<NativeResult, StepExit>
    requires up { memory.old.heap.down ≡ false }
    ensures { Executes (constructing_call (aid_init args.now linked.now memory.old) args.now
        memory.old) memory.old (after_call result memory.new) }
{
    let own = reference_argument(args, 0)?;
    let given = array_arguments(1, args, memory)?;
    let _facts = new_instance(own, 9, memory)?;
    let e = argument_bytes(&given, memory, linked)?;
    set_aid(e, args, memory)
}

/// How much of an AID is compared.
#[derive(Clone, Copy, PartialEq, Eq)]
pub(crate) enum Extent {
    /// All bytes.
    Whole,
    /// The provider's part; beside bytes, as many as they are.
    Beginning,
}

// How many bytes of an AID name its provider.
const RID: usize = 5;

// The provider's part of an AID.
fn provider(aid: &[u8]) -> &[u8]
    ensures { result.now ≡ rid_of aid.now }
{
    if aid.len() > RID { &aid[..RID] } else { aid }
}

// Whether two AIDs have all bytes in common, or those of their provider.
fn agree(extent: Extent, aid: &[u8], other: &[u8]) -> bool
    ensures { result ≡ agree extent aid.now other.now }
{
    match extent {
        Extent::Whole => other == aid,
        Extent::Beginning => provider(aid) == provider(other),
    }
}

// `AID.equals` and `AID.RIDEquals`: whether the other is an AID of the same bytes, or of the same provider; false for null.
fn compare_with_object<S: WordStore>(
    extent: Extent,
    args: &[Cell],
    memory: &Memory<S>,
    linked: &Linked,
) -> Result<NativeResult, StepExit>
    requires up { memory.now.heap.down ≡ false }
    ensures { Executes (reading_call (compared_with_object extent args.now linked.now memory.now) linked.now
        memory.now) memory.now (after_call result memory.now) }
{
    let own = reference_argument(args, 0)?;
    let other = reference_argument(args, 1)?;
    let Some(aid) = aid_at(memory, own) else {
        return Err(StepExit::End(Outcome::Fault));
    };
    match aid_of_object(other, memory, linked) {
        Some(held) => Ok(boolean(agree(extent, aid.bytes(), held.bytes()))),
        None => Ok(boolean(false)),
    }
}

// Whether an AID begins with these bytes.
fn is_beginning(held: &[u8], aid: &[u8]) -> bool
    ensures { result ≡ begins_with aid.now held.now }
{
    if held.len() > aid.len() {
        return false;
    }
    held == &aid[..held.len()]
}

// Whether these are the bytes of an AID, or those with which it begins.
fn agrees_with_bytes(extent: Extent, aid: &[u8], held: &[u8]) -> bool
    ensures { result ≡ agrees_with_bytes extent aid.now held.now }
{
    match extent {
        Extent::Whole => held == aid,
        Extent::Beginning => is_beginning(held, aid),
    }
}

// The same of elements of an array.
fn agrees_with<S: WordStore>(extent: Extent, aid: &[u8], e: Stretch, memory: &Memory<S>) -> bool
    requires up { memory.now.heap.down ≡ false }
    requires there { IsInArray memory.now e }
    requires few { length aid.now ≤ MOST_AID }
    ensures { result ≡ agrees_with_bytes extent aid.now (bytes_in memory.now e) }
{
    let count = e.count as usize;
    if count > aid.len() {
        return false;
    }
    let mut bytes = [0; MOST_AID];
    let held = &mut bytes[..count];
    memory.bytes(e.array, e.start, held);
    agrees_with_bytes(extent, aid, held)
}

// `AID.equals(byte[], short, byte)` and `AID.partialEquals`: whether these bytes are the AID's, or those with which it begins;
// false for null.
fn compare_with_bytes<S: WordStore>(
    extent: Extent,
    args: &[Cell],
    memory: &Memory<S>,
    linked: &Linked,
) -> Result<NativeResult, StepExit>
    requires up { memory.now.heap.down ≡ false }
    ensures { Executes (reading_call (compared_with_bytes extent args.now linked.now memory.now) linked.now
        memory.now) memory.now (after_call result memory.now) }
{
    let own = reference_argument(args, 0)?;
    let given = array_arguments(1, args, memory)?;
    let Some(aid) = aid_at(memory, own) else {
        return Err(StepExit::End(Outcome::Fault));
    };
    if given.array.is_null() {
        return Ok(boolean(false));
    }
    let e = argument_bytes(&given, memory, linked)?;
    Ok(boolean(agrees_with(extent, aid.bytes(), e, memory)))
}

// Puts bytes into as many elements, which were asked for, as one change; returns their number.
fn put_asked<S: WordStore>(
    e: Stretch,
    bytes: &[u8],
    memory: &mut Memory<S>,
) -> Result<NativeResult, StepExit>
    requires up { memory.old.heap.down ≡ false }
    requires there { IsInArray memory.old e }
    requires all { length bytes.now ≡ e.count }
    requires few { length bytes.now ≤ MOST_AID }
    ensures { Executes (put_then false bytes.now memory.old e (returns_short (pos
        (length bytes.now)))) memory.old (after_call result memory.new) }
{
    put(memory, e, bytes)?;
    Ok(short(bytes.len() as i16))
}

// Puts bytes into as many elements of an array, from one on.
fn put_at<S: WordStore>(
    array: Ref,
    start: i16,
    bytes: &[u8],
    memory: &mut Memory<S>,
    linked: &Linked,
) -> Result<NativeResult, StepExit>
    requires up { memory.old.heap.down ≡ false }
    requires few { length bytes.now ≤ MOST_AID }
    ensures { Executes (reading_call (Ok (puts_at array start bytes.now (pos (length bytes.now))))
        linked.now memory.old) memory.old (after_call result memory.new) }
{
    let e = elements_at(array, start, bytes.len() as i16, memory, linked)?;
    put_asked(e, bytes, memory)
}

// `AID.getBytes`: copies the bytes, as one change; returns their number.
#[tactic(auto, unfolding(crate::specs::Aid::aid_get_bytes))]
fn aid_get_bytes<S: WordStore>(
    args: &[Cell],
    memory: &mut Memory<S>,
    linked: &Linked,
) -> Result<NativeResult, StepExit>
    requires up { memory.old.heap.down ≡ false }
    ensures { Executes (reading_call (aid_get_bytes args.now memory.old) linked.now memory.old) memory.old
        (after_call result memory.new) }
{
    let own = reference_argument(args, 0)?;
    let array = reference_argument(args, 1)?;
    let start = short_argument(args, 2)?;
    match aid_at(memory, own) {
        Some(aid) => put_at(array, start, aid.bytes(), memory, linked),
        None => Err(StepExit::End(Outcome::Fault)),
    }
}

// This many bytes of an AID from one on, all the rest where none are asked for.
fn part_within(aid: &[u8], start: i16, count: i16) -> Option<&[u8]>
    ensures { option_copied result ≡ part_within aid.now (not_negative start)
        (not_negative count) }
{
    let start = usize::try_from(start).ok()?;
    let count = usize::try_from(count).ok()?;
    if start + count > aid.len() {
        return None;
    }
    if count == 0 {
        return Some(&aid[start..]);
    }
    Some(&aid[start..start + count])
}

// Copies a part of an AID, as one change; returns how many bytes it has.
fn copy_part<S: WordStore>(
    aid: &[u8],
    from: i16,
    given: &ArrayArguments,
    memory: &mut Memory<S>,
    linked: &Linked,
) -> Result<NativeResult, StepExit>
    requires up { memory.old.heap.down ≡ false }
    requires few { length aid.now ≤ MOST_AID }
    requires there { IsBytesArgument memory.old given.now.array given.now.header }
    requires header { bytes_argument memory.old given.now.array ≡ Ok given.now.header }
    ensures { Executes (reading_call (part_answer aid.now from given.now) linked.now memory.old)
        memory.old (after_call result memory.new) }
{
    let Some(part) = part_within(aid, from, given.count) else {
        return Err(StepExit::Throw(Exception::ArrayIndexOutOfBoundsException));
    };
    let e = given_elements(given, part.len() as i16, memory, linked)?;
    put_asked(e, part, memory)
}

// `AID.getPartialBytes`: copies a part of the bytes, as one change; returns their number.
#[tactic(auto, unfolding(crate::specs::Aid::aid_get_partial_bytes))]
fn aid_get_partial_bytes<S: WordStore>(
    args: &[Cell],
    memory: &mut Memory<S>,
    linked: &Linked,
) -> Result<NativeResult, StepExit>
    requires up { memory.old.heap.down ≡ false }
    ensures { Executes (reading_call (aid_get_partial_bytes args.now memory.old) linked.now memory.old) memory.old
        (after_call result memory.new) }
{
    let own = reference_argument(args, 0)?;
    let from = short_argument(args, 1)?;
    let given = array_arguments(2, args, memory)?;
    match aid_at(memory, own) {
        Some(aid) => copy_part(aid.bytes(), from, &given, memory, linked),
        None => Err(StepExit::End(Outcome::Fault)),
    }
}

/// A call of a method of `AID`.
#[tactic(auto, unfolding(crate::specs::Aid::aid_call, crate::specs::Aid::aid_equals, crate::specs::Aid::aid_equals_bytes, crate::specs::Aid::aid_partial_equals, crate::specs::Aid::aid_rid_equals))]
#[inline(never)]
pub fn call_aid<S: WordStore>(
    method: AidsMethod,
    args: &[Cell],
    memory: &mut Memory<S>,
    linked: &Linked,
) -> Result<NativeResult, StepExit>
    requires up { memory.old.heap.down ≡ false }
    ensures { Executes (aid_call method args.now linked.now memory.old) memory.old
        (after_call result memory.new) }
{
    match method {
        AidsMethod::AidInit => aid_init(args, memory, linked),
        AidsMethod::AidEquals => compare_with_object(Extent::Whole, args, memory, linked),
        AidsMethod::AidEqualsBytes => compare_with_bytes(Extent::Whole, args, memory, linked),
        AidsMethod::AidGetBytes => aid_get_bytes(args, memory, linked),
        AidsMethod::AidRidEquals => compare_with_object(Extent::Beginning, args, memory, linked),
        AidsMethod::AidPartialEquals => compare_with_bytes(Extent::Beginning, args, memory, linked),
        AidsMethod::AidGetPartialBytes => aid_get_partial_bytes(args, memory, linked),
    }
}
