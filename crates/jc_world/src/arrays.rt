//! Arrays of bytes as arguments, and their elements.
ghost use Rattle.std.specs.Prelude.{◌≡◌, false, length, IfOk, pos};
ghost use Rattle.jc_memory.specs.Programs.{Executes};
ghost use Rattle.jc_heap.specs.Completions.{after_change};
ghost use Rattle.jc_memory.specs.Cells.{cells_store};
ghost use Rattle.jc_world.specs.Numbers.{not_negative};
ghost use Rattle.jc_world.specs.Arrays.{bytes_argument, elements_of, within, IsBytesArgument, IsInArray};

use crate::contexts::allow;
use crate::numbers::not_negative;
use jc_firewall::access::Access;
use jc_frames::{Exception, FrameExit, Outcome};
use jc_heap::{ChangeRefusal, Facts, Kind};
use jc_linker::linked::Linked;
use jc_memory::{FaultKind, Memory};
use jc_transient::Ref;
use jc_words::WordStore;

/// Elements of an array, from one on.
#[derive(Clone, Copy)]
pub struct Stretch {
    pub array: Ref,
    pub start: u16,
    pub count: u16,
}

/// The header of the array of bytes that a reference argument names, and none for null. Any other
/// reference is a code fault.
#[inline(always)]
#[tactic(auto, unfolding(crate::specs::Arrays::bytes_argument))]
pub fn bytes_argument<S: WordStore>(
    reference: Ref,
    memory: &Memory<S>,
) -> Result<Option<Facts>, FrameExit>
    requires up { memory.now.heap.down ≡ false }
    ensures header { result ≡ bytes_argument memory.now reference }
    ensures there { IfOk result (IsBytesArgument memory.now reference) }
{
    if reference.is_null() {
        return Ok(None);
    }
    let Some(facts) = memory.header(reference) else {
        memory.notes().fault(FaultKind::NoObject);
        return Err(FrameExit::End(Outcome::Fault));
    };
    match facts.kind {
        Kind::ByteArray => Ok(Some(facts)),
        _ => {
            memory.notes().fault(FaultKind::WrongClass);
            Err(FrameExit::End(Outcome::Fault))
        }
    }
}

// What elements outside an array throw.
const OUTSIDE: FrameExit = FrameExit::Throw(Exception::ArrayIndexOutOfBoundsException);

// This many elements of an array of this length, from one on.
#[inline(always)]
fn within(array: Ref, length: u16, start: i16, count: i16) -> Result<Stretch, FrameExit>
    ensures elements { result ≡ within array length (not_negative start) (not_negative count) }
    ensures count { IfOk result (λ e. pos e.count ≡ count) }
{
    let Some(start) = not_negative(start) else {
        return Err(OUTSIDE);
    };
    let Some(count) = not_negative(count) else {
        return Err(OUTSIDE);
    };
    if u32::from(start) + u32::from(count) <= u32::from(length) {
        Ok(Stretch {
            array,
            start,
            count,
        })
    } else {
        Err(OUTSIDE)
    }
}

/// This many elements of the array of bytes that an argument names, from one on. Null throws, then the
/// firewall, then elements outside the array.
#[inline(always)]
#[tactic(auto, unfolding(crate::specs::Arrays::elements_of))]
pub fn elements<S: WordStore>(
    array: Ref,
    argument: Option<Facts>,
    start: i16,
    count: i16,
    memory: &Memory<S>,
    linked: &Linked,
) -> Result<Stretch, FrameExit>
    requires up { memory.now.heap.down ≡ false }
    requires there { IsBytesArgument memory.now array argument }
    ensures stretch { result ≡ elements_of linked.now memory.now array argument start count }
    ensures there { IfOk result (IsInArray memory.now) }
    ensures count { IfOk result (λ e. pos e.count ≡ count) }
{
    let Some(facts) = argument else {
        return Err(FrameExit::Throw(Exception::NullPointerException));
    };
    allow(Access::ArrayElement, facts, memory, linked)?;
    within(array, facts.length, start, count)
}

/// Sets elements of an array of bytes, as one change: refused, where the transaction has no room for it.
#[inline(never)]
pub fn put<S: WordStore>(
    memory: &mut Memory<S>,
    to: Stretch,
    bytes: &[u8],
) -> Result<(), ChangeRefusal>
    requires up { memory.old.heap.down ≡ false }
    requires there { IsInArray memory.old to }
    requires all { length bytes.now ≡ to.count }
    ensures { Executes (cells_store memory.old to.array to.start bytes.now) memory.old
        (after_change result memory.new) }
{
    memory.set_bytes(to.array, to.start, bytes)
}
