//! Form 2 of calls: the state of an object of the platform is set, and bytes are put into an array of the caller.
ghost use Rattle.std.specs.Prelude.{◌≡◌, ◌<◌, false, length, map, IfOk, Ok};
ghost use Rattle.jc_transient.specs.Cell.{number_of};
ghost use Rattle.jc_memory.specs.Programs.{Executes};
ghost use Rattle.jc_memory.specs.State.{SetTransient, apply_effect};
ghost use Rattle.jc_world.specs.Arrays.{IsInArray};
ghost use Rattle.jc_world.specs.NativeCalls.{after_call};
ghost use Rattle.jc_api.specs.Arguments.{AreAsked};
ghost use Rattle.jc_api.specs.Changing.{IsState, changes, changes_and_puts, changing_call, holds_state, state_at};
ghost use Rattle.jc_api.specs.Exits.{plainly};
ghost use Rattle.jc_api.specs.Forms.{result_value};

use jc_firewall::access::Access;
use jc_frames::{FrameExit, Outcome};
use jc_heap::{Facts, Kind};
use jc_linker::linked::Linked;
use jc_memory::Memory;
use jc_transient::Ref;
use jc_words::WordStore;
use jc_world::contexts::allow;
use jc_world::{NativeResult, StepExit, Stretch, put, short};

/// Words for cells of the transient array of shorts in which an object of the platform keeps its state.
#[derive(Clone, Copy)]
pub struct StateWords<'a> {
    pub array: Ref,
    /// The first cell.
    pub start: u16,
    pub words: &'a [u16],
}

// A header is that of a transient array of shorts with this many cells, which the code that runs may use.
#[inline(always)]
fn holds_state<S: WordStore>(end: u32, facts: Facts, memory: &Memory<S>, linked: &Linked) -> bool
    requires up { memory.now.heap.down ≡ false }
    ensures { result ≡ holds_state linked.now memory.now end facts }
{
    facts.kind == Kind::ShortArray
        && facts.event.is_some()
        && allow(Access::ArrayElement, facts, memory, linked).is_ok()
        && end <= u32::from(facts.length)
}

/// A number of cells of the transient array of shorts in which an object of the platform keeps its state, from one on. Another object, one
/// that the code that runs may not use, or too short a one is a code fault.
#[inline(always)]
#[tactic(auto, unfolding(crate::specs::Changing::state_at))]
pub fn state_at<S: WordStore>(
    array: Ref,
    start: u16,
    count: u16,
    memory: &Memory<S>,
    linked: &Linked,
) -> Result<Stretch, FrameExit>
    requires up { memory.now.heap.down ≡ false }
    ensures state { result ≡ state_at linked.now memory.now array start count }
    ensures there { IfOk result (IsState memory.now) }
    ensures named { IfOk result (λ e. (e.array ≡ array) × (e.start ≡ start) × (e.count ≡ count)) }
    ensures plain { plainly result ≡ result }
{
    let Some(facts) = memory.header(array) else {
        return Err(FrameExit::End(Outcome::Fault));
    };
    if holds_state(u32::from(start) + u32::from(count), facts, memory, linked) {
        Ok(Stretch {
            array,
            start,
            count,
        })
    } else {
        Err(FrameExit::End(Outcome::Fault))
    }
}

// Sets cells of a state.
#[inline(always)]
pub(crate) fn set_state<S: WordStore>(memory: &mut Memory<S>, state: Stretch, words: &[u16])
    requires up { memory.old.heap.down ≡ false }
    requires there { IsState memory.old state }
    requires all { length words.now ≡ state.count }
    ensures { memory.new
        ≡ apply_effect (SetTransient state.array state.start (map number_of words.now)) memory.old }
{
    // Cells of a transient array need no room.
    let _ = memory.set_run(state.array, state.start, words);
}

// What a call returns: a number, or nothing.
#[inline(always)]
fn result_value(number: Option<i16>) -> NativeResult
    ensures { result ≡ result_value number }
{
    match number {
        Some(number) => short(number),
        None => NativeResult::ReturnVoid,
    }
}

/// Sets cells of a state, and returns a number or nothing.
#[inline(always)]
pub fn change_state<S: WordStore>(
    state: StateWords<'_>,
    number: Option<i16>,
    memory: &mut Memory<S>,
    linked: &Linked,
) -> Result<NativeResult, StepExit>
    requires up { memory.old.heap.down ≡ false }
    requires few { length state.words.now < 65536 }
    ensures { Executes (changing_call (Ok (changes state.entry.array state.entry.start
        state.entry.words.now number)) linked.now memory.old)
        memory.old (after_call result memory.new) }
{
    let StateWords {
        array,
        start,
        words,
    } = state;
    let state = state_at(array, start, words.len() as u16, memory, linked)?;
    set_state(memory, state, words);
    Ok(result_value(number))
}

/// Puts bytes into elements of an array of the caller, which were asked for, as one change; then sets cells of a state, and returns a number or
/// nothing. Where the transaction has no room for the bytes it throws, and the state stays.
#[inline(always)]
pub fn change_state_and_put<S: WordStore>(
    state: StateWords<'_>,
    to: Stretch,
    bytes: &[u8],
    number: Option<i16>,
    memory: &mut Memory<S>,
    linked: &Linked,
) -> Result<NativeResult, StepExit>
    requires up { memory.old.heap.down ≡ false }
    requires few { length state.words.now < 65536 }
    requires asked { AreAsked linked.now memory.old to }
    requires there { IsInArray memory.old to }
    requires all { length bytes.now ≡ to.count }
    ensures { Executes (changing_call (Ok (changes_and_puts state.entry.array state.entry.start
        state.entry.words.now to bytes.now number)) linked.now memory.old)
        memory.old (after_call result memory.new) }
{
    let StateWords {
        array,
        start,
        words,
    } = state;
    let state = state_at(array, start, words.len() as u16, memory, linked)?;
    put(memory, to, bytes)?;
    set_state(memory, state, words);
    Ok(result_value(number))
}
