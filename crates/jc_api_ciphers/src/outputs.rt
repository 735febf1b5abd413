//! Bytes that a call puts, with the state that it sets.
ghost use Rattle.std.specs.Prelude.{◌≡◌, ◌≤◌, ◌<◌, false, length, pos, Some};
ghost use Rattle.jc_memory.specs.Programs.{Executes};
ghost use Rattle.jc_world.specs.NativeCalls.{after_call};
ghost use Rattle.jc_api.specs.Changing.{changing_call};
ghost use Rattle.jc_api_ciphers.specs.Outputs.{puts_output};

use jc_api::{MOST_ELEMENTS, StateWords, change_state_and_put};
use jc_api_keys::receivers::output_for;
use jc_frames::Cell;
use jc_linker::linked::Linked;
use jc_memory::Memory;
use jc_transient::Ref;
use jc_words::WordStore;
use jc_world::{NativeResult, StepExit};

// What a call that puts this many bytes returns.
fn count_of(bytes: &[u8]) -> Option<i16>
    requires { length bytes.now ≤ MOST_ELEMENTS }
    ensures { result ≡ Some (pos (length bytes.now)) }
{
    Some(bytes.len() as i16)
}

/// Puts bytes into as many elements of an array and an offset that are the fifth and the sixth argument, as one change, and sets words of a state, from
/// the first on; returns the number of the bytes.
pub(crate) fn put_output<S: WordStore>(
    state: Ref,
    words: &[u16],
    bytes: &[u8],
    args: &[Cell],
    memory: &mut Memory<S>,
    linked: &Linked,
) -> Result<NativeResult, StepExit>
    requires up { memory.old.heap.down ≡ false }
    requires words { length words.now < 65536 }
    requires few { length bytes.now < 65536 }
    ensures { Executes (changing_call (puts_output state words.now bytes.now args.now linked.now memory.old)
        linked.now memory.old) memory.old (after_call result memory.new) }
{
    let to = output_for(4, bytes.len() as u16, args, memory, linked)?;
    let answer = count_of(bytes);
    let state = StateWords {
        array: state,
        start: 0,
        words,
    };
    change_state_and_put(state, to, bytes, answer, memory, linked)
}
