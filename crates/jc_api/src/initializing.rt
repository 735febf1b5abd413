//! Form 4 of calls: cells of the receiver are set, and then its state.
ghost use Rattle.std.specs.Prelude.{◌≡◌, ◌+◌, ◌≤◌, ◌<◌, false, length, IfOk, Ok};
ghost use Rattle.jc_memory.specs.Programs.{Executes};
ghost use Rattle.jc_world.specs.Instances.{IsInstanceWith};
ghost use Rattle.jc_world.specs.NativeCalls.{after_call};
ghost use Rattle.jc_api.specs.Exits.{plainly};
ghost use Rattle.jc_api.specs.Initializing.{initializing_call, instance_called, sets_fields, word_given, words_given};

use crate::changing::{set_state, state_at};
use jc_frames::{Cell, FrameExit, Outcome};
use jc_linker::linked::Linked;
use jc_memory::Memory;
use jc_platform::names::PlatformClass;
use jc_transient::Ref;
use jc_words::WordStore;
use jc_world::arguments::reference_argument;
use jc_world::objects::is_instance_of;
use jc_world::{NativeResult, StepExit, instance};

/// A value for a cell of the receiver.
#[derive(Clone, Copy)]
pub enum FieldValue {
    Word(u16),
    /// The reference that is the argument at a place, the receiver at 0; null, where it is none.
    Argument(u8),
}

/// What such a call sets: cells of the receiver, and then the first cells of its state.
#[derive(Clone, Copy)]
pub struct Fields<'a> {
    /// The class of the receiver.
    pub class: PlatformClass,
    /// The first of its cells that is set.
    pub start: u16,
    pub values: &'a [FieldValue],
    /// The array of its state.
    pub array: Ref,
    pub words: &'a [u16],
}

/// How many cells such a call sets at most.
pub const MOST_FIELDS: usize = 10;

// The word of a value.
fn word_given(value: FieldValue, args: &[Cell]) -> u16
    ensures { result ≡ word_given args.now value }
{
    match value {
        FieldValue::Word(word) => word,
        FieldValue::Argument(place) => match reference_argument(args, usize::from(place)) {
            Ok(reference) => reference.address(),
            Err(_) => 0,
        },
    }
}

// Writes the words of values.
fn put_words(values: &[FieldValue], args: &[Cell], words: &mut [u16])
    requires { length words.old ≡ length values.now }
    ensures { words.new ≡ words_given args.now values.now }
{
    'values: for i in 0..values.len() {
        words[i] = word_given(values[i], args);
    }
}

// The receiver of a call, an instance of the class with this many cells. Null throws, and anything else is a code fault.
#[tactic(auto, unfolding(crate::specs::Initializing::instance_called))]
pub(crate) fn instance_called<S: WordStore>(
    class: PlatformClass,
    cells: u16,
    args: &[Cell],
    memory: &Memory<S>,
    linked: &Linked,
) -> Result<Ref, FrameExit>
    requires up { memory.now.heap.down ≡ false }
    ensures receiver { result ≡ instance_called class cells args.now linked.now memory.now }
    ensures there { IfOk result (λ own. IsInstanceWith memory.now own cells) }
{
    let own = reference_argument(args, 0)?;
    let facts = instance(own, cells, memory)?;
    let class = linked.platform().class_word(class);
    if is_instance_of(facts, class, linked) {
        Ok(own)
    } else {
        Err(FrameExit::End(Outcome::Fault))
    }
}

/// Sets cells of the receiver of a call as one change; then the first cells of a state. Null throws; a receiver that is no
/// instance of the class with such cells, and a state that is none, are code faults. Where the transaction has no room for the cells it
/// throws, and nothing is done.
pub fn initialize<S: WordStore>(
    fields: Fields<'_>,
    args: &[Cell],
    memory: &mut Memory<S>,
    linked: &Linked,
) -> Result<NativeResult, StepExit>
    requires up { memory.old.heap.down ≡ false }
    requires few { length fields.values.now ≤ MOST_FIELDS }
    requires end { fields.start + length fields.values.now < 65536 }
    requires words { length fields.words.now < 65536 }
    ensures { Executes (initializing_call (Ok (sets_fields fields.entry.class fields.entry.start
        fields.entry.values.now fields.entry.array fields.entry.words.now))
        args.now linked.now memory.old) memory.old (after_call result memory.new) }
{
    let Fields {
        class,
        start,
        values,
        array,
        words,
    } = fields;
    let own = instance_called(class, start + values.len() as u16, args, memory, linked)?;
    let state = state_at(array, 0, words.len() as u16, memory, linked)?;
    let mut cells = [0; MOST_FIELDS];
    let cells = &mut cells[..values.len()];
    put_words(values, args, cells);
    memory.set_run(own, start, cells)?;
    set_state(memory, state, words);
    Ok(NativeResult::ReturnVoid)
}
