//! `Util` (API specification).

pub(crate) mod copying;
pub(crate) mod filling;
pub mod law;
pub(crate) mod pair;
pub(crate) mod storing;

ghost use Rattle.std.specs.Prelude.{◌≡◌, ◌+◌, ◌<◌, false, true, IfSome, Ok};
ghost use Rattle.jc_heap.specs.declared.object.Kind.TheVariants.{ByteArray};
ghost use Rattle.jc_memory.specs.Programs.{Executes};
ghost use Rattle.jc_linker.specs.Values.{Packages};
ghost use Rattle.jc_world.specs.NativeCalls.{after_call};
ghost use Rattle.jc_api.specs.Forms.{reading_call, tells};
ghost use Rattle.jc_api_framework.specs.Util.{array_copy, array_fill, end_of, short_of, sign_of, util_array_compare, util_call};
ghost use Rattle.jc_api_framework.specs.Util.{util_get_short, util_make_short, util_set_short};
ghost use Rattle.std.specs.Ordering.{nat_cmp};
ghost use Rattle.std.specs.Cmp.Lexicographic.{slice_cmp};
ghost use Rattle.jc_world.specs.Arrays.{IsInArray, bytes_in};

use crate::util::copying::copy;
use crate::util::filling::fill;
use crate::util::pair::named_pair;
use crate::util::storing::store;
use jc_api::{counted_of, two_of};
use jc_frames::Cell;
use jc_heap::{Facts, Kind};
use jc_linker::linked::Linked;
use jc_memory::Memory;
use jc_platform::names::UtilitiesMethod;
use jc_words::WordStore;
use jc_world::arguments::{reference_argument, short_argument};
use jc_world::contexts::is_own;
use jc_world::{NativeResult, StepExit, Stretch, short};
use std::cmp::Ordering;

// The index after the last of some elements of an array.
pub(crate) fn end_of(elements: &Stretch) -> i16
    requires { elements.now.start + elements.now.count < 65536 }
    ensures { result ≡ end_of elements.now }
{
    (elements.start + elements.count).cast_signed()
}

// The number of two bytes, the high one first.
fn short_of(high: u8, low: u8) -> i16
    ensures { result ≡ short_of high low }
{
    (u16::from(high) * 256 + u16::from(low)).cast_signed()
}

// The object is an array of bytes.
#[inline(always)]
const fn is_byte_array(facts: Facts) -> bool
    ensures { result ≡ true → facts.kind ≡ ByteArray }
{
    match facts.kind {
        Kind::ByteArray => true,
        _ => false,
    }
}

// `Util.arrayCopy` and `Util.arrayCopyNonAtomic`: copies bytes, as if through a copy; as one change, or those of a persistent
// array one after another, each for good; returns the index after the last byte written.
#[inline(never)]
fn array_copy<S: WordStore>(
    lasting: bool,
    args: &[Cell],
    memory: &mut Memory<S>,
    linked: &Linked,
) -> Result<NativeResult, StepExit>
    requires up { memory.old.heap.down ≡ false }
    ensures { Executes (reading_call (array_copy lasting args.now linked.now memory.old) linked.now
        memory.old) memory.old
        (after_call result memory.new) }
{
    let pair = named_pair(args, memory, linked)?;
    copy(memory, pair.from, pair.to, lasting)
}

// `Util.arrayFill` and `Util.arrayFillNonAtomic`: sets elements to the low byte of a number, likewise; returns the index after
// the last one written.
#[inline(never)]
fn array_fill<S: WordStore>(
    lasting: bool,
    args: &[Cell],
    memory: &mut Memory<S>,
    linked: &Linked,
) -> Result<NativeResult, StepExit>
    requires up { memory.old.heap.down ≡ false }
    ensures { Executes (reading_call (array_fill lasting args.now linked.now memory.old) linked.now
        memory.old) memory.old
        (after_call result memory.new) }
{
    let value = (short_argument(args, 3)?.cast_unsigned() % 256) as u8;
    let to = counted_of(0, args, memory, linked)?;
    fill(memory, to, value, lasting)
}

/// `Util.setShort`: sets two bytes as one change; returns the index after them.
#[tactic(auto, unfolding(crate::specs::Util::util_set_short))]
#[inline(never)]
pub fn util_set_short<S: WordStore>(
    args: &[Cell],
    memory: &mut Memory<S>,
    linked: &Linked,
) -> Result<NativeResult, StepExit>
    requires up { memory.old.heap.down ≡ false }
    ensures { Executes (reading_call (util_set_short args.now linked.now memory.old) linked.now
        memory.old) memory.old
        (after_call result memory.new) }
{
    let word = short_argument(args, 2)?.cast_unsigned();
    let to = two_of(args, memory, linked)?;
    memory.set_two_bytes(to.array, to.start, (word / 256) as u8, (word % 256) as u8)?;
    Ok(short(end_of(&to)))
}

/// What `Util.getShort` returns of an array that belongs to the owner for whom code runs and has both bytes. `None` says nothing of the call.
#[tactic(auto, unfolding(crate::specs::Util::util_get_short, jc_api::specs::Arguments::elements_at, jc_world::specs::Arrays::bytes_argument, jc_world::specs::Arrays::elements_of))]
#[inline(always)]
pub fn short_at_once<S: WordStore>(args: &[Cell], memory: &Memory<S>) -> Option<i16>
    requires up { memory.now.heap.down ≡ false }
    ensures { IfSome result (λ value. (p : Packages) → util_get_short args.now p memory.now
        ≡ Ok (tells value)) }
{
    let array = reference_argument(args, 0).ok()?;
    let start = short_argument(args, 1).ok()?;
    if start < 0 || array.is_null() || !memory.knows(array) {
        return None;
    }
    let facts = memory.facts(array);
    if !is_byte_array(facts) || !is_own(facts, memory) {
        return None;
    }
    let start = start.cast_unsigned();
    if start + 2 > facts.length {
        return None;
    }
    let high = memory.byte(array, start);
    let low = memory.byte(array, start + 1);
    Some(short_of(high, low))
}

/// `Util.getShort`: returns the short of two bytes.
#[tactic(auto, unfolding(crate::specs::Util::util_get_short))]
#[inline(never)]
pub fn util_get_short<S: WordStore>(
    args: &[Cell],
    memory: &Memory<S>,
    linked: &Linked,
) -> Result<NativeResult, StepExit>
    requires up { memory.now.heap.down ≡ false }
    ensures { Executes (reading_call (util_get_short args.now linked.now memory.now) linked.now
        memory.now) memory.now
        (after_call result memory.now) }
{
    let two = two_of(args, memory, linked)?;
    let high = memory.byte(two.array, two.start);
    let low = memory.byte(two.array, two.start + 1);
    Ok(short(short_of(high, low)))
}

// `Util.makeShort`: returns the short of two low bytes.
#[tactic(auto, unfolding(crate::specs::Util::util_make_short))]
fn util_make_short<S: WordStore>(
    args: &[Cell],
    memory: &Memory<S>,
) -> Result<NativeResult, StepExit>
    ensures { (p : Packages) → Executes (reading_call (util_make_short args.now) p memory.now)
        memory.now (after_call result memory.now) }
{
    let high = (short_argument(args, 0)?.cast_unsigned() % 256) as u8;
    let low = (short_argument(args, 1)?.cast_unsigned() % 256) as u8;
    Ok(short(short_of(high, low)))
}

// Which comes first, by the first byte that differs.
fn sign_of(order: Ordering) -> i16
    ensures { result ≡ sign_of order }
{
    match order {
        Ordering::Less => -1,
        Ordering::Equal => 0,
        Ordering::Greater => 1,
    }
}

// Which comes first of as many bytes of two arrays.
fn order_of<S: WordStore>(memory: &Memory<S>, from: Stretch, to: Stretch) -> Ordering
    requires up { memory.now.heap.down ≡ false }
    requires from { IsInArray memory.now from }
    requires to { IsInArray memory.now to }
    requires all { from.count ≡ to.count }
    ensures { result ≡ slice_cmp nat_cmp (bytes_in memory.now from) (bytes_in memory.now to) }
{
    for k in 0..from.count {
        let first = memory.byte(from.array, from.start + k);
        let second = memory.byte(to.array, to.start + k);
        if first < second {
            return Ordering::Less;
        }
        if second < first {
            return Ordering::Greater;
        }
    }
    Ordering::Equal
}

// `Util.arrayCompare`: returns -1, 0 or 1, by the first byte that differs, as a number from 0 to 255.
#[tactic(auto, unfolding(crate::specs::Util::util_array_compare))]
#[inline(never)]
fn util_array_compare<S: WordStore>(
    args: &[Cell],
    memory: &Memory<S>,
    linked: &Linked,
) -> Result<NativeResult, StepExit>
    requires up { memory.now.heap.down ≡ false }
    ensures { Executes (reading_call (util_array_compare args.now linked.now memory.now) linked.now
        memory.now) memory.now
        (after_call result memory.now) }
{
    let pair = named_pair(args, memory, linked)?;
    let order = order_of(memory, pair.from, pair.to);
    Ok(short(sign_of(order)))
}

/// A call of a method of `Util`.
#[tactic(auto, unfolding(crate::specs::Util::util_call, crate::specs::Util::util_answer, crate::specs::Util::util_array_copy, crate::specs::Util::util_array_copy_non_atomic, crate::specs::Util::util_array_fill, crate::specs::Util::util_array_fill_non_atomic))]
#[inline(never)]
pub fn call_util<S: WordStore>(
    method: UtilitiesMethod,
    args: &[Cell],
    memory: &mut Memory<S>,
    linked: &Linked,
) -> Result<NativeResult, StepExit>
    requires up { memory.old.heap.down ≡ false }
    ensures { Executes (util_call method args.now linked.now memory.old) memory.old
        (after_call result memory.new) }
{
    match method {
        UtilitiesMethod::UtilArrayCompare => util_array_compare(args, memory, linked),
        UtilitiesMethod::UtilArrayCopy => array_copy(false, args, memory, linked),
        UtilitiesMethod::UtilArrayCopyNonAtomic => array_copy(true, args, memory, linked),
        UtilitiesMethod::UtilArrayFill => array_fill(false, args, memory, linked),
        UtilitiesMethod::UtilArrayFillNonAtomic => array_fill(true, args, memory, linked),
        UtilitiesMethod::UtilGetShort => util_get_short(args, memory, linked),
        UtilitiesMethod::UtilMakeShort => util_make_short(args, memory),
        UtilitiesMethod::UtilSetShort => util_set_short(args, memory, linked),
    }
}
