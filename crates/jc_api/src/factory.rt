//! Form 3 of calls: an object of the platform with a state is made.
ghost use Rattle.std.specs.Prelude.{◌≡◌, ◌≤◌, ◌<◌, false, true, None, List, [], ◌∷◌, Ok, OnOk};
ghost use Rattle.jc_heap.specs.Completions.{after_making, after_step};
ghost use Rattle.jc_heap.specs.Heap.{IsObject, facts};
ghost use Rattle.jc_heap.specs.declared.object.Kind.TheVariants.{Instance};
ghost use Rattle.jc_heap.specs.declared.place.Place.TheVariants as place;
ghost use Rattle.jc_heap.specs.declared.touch.Touch.{Touch};
ghost use Rattle.jc_heap.specs.declared.touch.Touch.TheVariants as touch;
ghost use Rattle.jc_memory.specs.Cells.{MayHave, word_of};
ghost use Rattle.jc_memory.specs.Making.{new_object};
ghost use Rattle.jc_memory.specs.Programs.{Executes};
ghost use Rattle.jc_memory.specs.CommitCapacity.{has_space, lacks_capacity};
ghost use Rattle.jc_platform.specs.Hierarchy.{cells_of};
ghost use Rattle.jc_world.specs.NativeCalls.{after_call};
ghost use Rattle.jc_api.specs.Factory.{HasState, array_words, cell_update, cells_set, engine_object, factory_call, has_space_for_both, instance_creation, is_in_table, keeps_no_cells, kind_of_state, state_array};

use jc_frames::reasons::{BUFFER_FULL, NO_RESOURCE};
use jc_frames::{Cell, Outcome};
use jc_heap::layout::{HEADER, TRANSIENT};
use jc_heap::{HeapRefusal, Kind, Touch};
use jc_linker::linked::Linked;
use jc_memory::{Memory, NewObject, has_space, make_within_capacity};
use jc_platform::names::PlatformClass;
use jc_transient::{CellValue, ClearEvent, NO_CLASS, Ref};
use jc_words::{StoreDown, WordStore};
use jc_world::{NativeResult, StepExit};

/// What the elements of a state are.
#[derive(Clone, Copy)]
pub enum StateKind {
    Shorts,
    Bytes,
}

impl StateKind {
    // The kind of the array of a state.
    fn kind(self) -> Kind
        ensures { result ≡ kind_of_state self }
    {
        match self {
            StateKind::Shorts => Kind::ShortArray,
            StateKind::Bytes => Kind::ByteArray,
        }
    }
}

/// What an object of the platform with a state is to be.
#[derive(Clone, Copy)]
pub struct NewEngine {
    /// Its class, whose instances have a number in their first cell and the array of their state in the second.
    pub class: PlatformClass,
    /// The number in its first cell.
    pub number: i16,
    /// What the elements of its state are.
    pub elements: StateKind,
    /// What is to clear its state; none, where it is to be persistent.
    pub event: Option<ClearEvent>,
    /// How many elements its state has.
    pub state: u16,
}

// The platform table has the class.
fn is_in_table(class: PlatformClass, linked: &Linked) -> bool
    ensures { result ≡ is_in_table class linked.now }
{
    linked.platform().table().token_of_class(class).is_some()
}

// How many words of the heap the array of a state takes: of a transient one only its header stands there.
fn array_words(engine: NewEngine) -> u32
    ensures { result ≡ array_words engine }
{
    if engine.event.is_some() {
        return u32::from(TRANSIENT);
    }
    let length = u32::from(engine.state);
    let words = match engine.elements {
        StateKind::Shorts => length,
        StateKind::Bytes => (length + 1) / 2,
    };
    u32::from(HEADER) + words
}

// The heap has space for the array and the instance.
fn has_space_for_both<S: WordStore>(engine: NewEngine, memory: &Memory<S>) -> bool
    requires up { memory.now.heap.down ≡ false }
    ensures { result ≡ has_space_for_both engine memory.now }
{
    let _ = memory.heap().free_words(); // so that the proof knows: the heap has fewer than 65,536 words free
    match u16::try_from(array_words(engine) + u32::from(engine.class.cells())) {
        Ok(cells) => has_space(memory, Kind::Instance, cells),
        Err(_) => false,
    }
}

// The words of the instance's first two cells, which stand after the array, need no room in the open transaction.
fn keeps_no_cells<S: WordStore>(engine: NewEngine, memory: &Memory<S>) -> bool
    requires up { memory.now.heap.down ≡ false }
    requires cells { 2 ≤ cells_of engine.class }
    requires space { has_space_for_both engine memory.now ≡ true }
    ensures { result ≡ keeps_no_cells engine memory.now }
{
    let _ = memory.heap().free_words(); // so that the proof knows: the heap has fewer than 65,536 words free
    let first = array_words(engine) as u16;
    memory
        .heap()
        .cost(&[Touch::NewCell(first), Touch::NewCell(first + 1)])
        == 0
}

// Makes the array of a state.
fn make_state<S: WordStore>(engine: NewEngine, memory: &mut Memory<S>) -> Result<Ref, HeapRefusal>
    requires up { memory.old.heap.down ≡ false }
    ensures { Executes (new_object memory.old (state_array engine memory.old)) memory.old
        (after_making result memory.new) }
{
    let owner = memory.registers().active;
    memory.make(NewObject {
        kind: engine.elements.kind(),
        event: engine.event,
        class: NO_CLASS,
        owner,
        length: engine.state,
    })
}

// Sets a cell of an instance, for which there is room.
fn set_cell<S: WordStore>(
    memory: &mut Memory<S>,
    instance: Ref,
    i: u16,
    value: CellValue,
) -> Result<(), StoreDown>
    requires up { memory.old.heap.down ≡ false }
    requires there { IsObject memory.old.heap.now instance }
    requires kind { (facts memory.old.heap.now instance).kind ≡ Instance }
    requires persistent { (facts memory.old.heap.now instance).event ≡ None }
    requires cell { i < (facts memory.old.heap.now instance).length }
    requires room { lacks_capacity memory.old (touch.Place (place.Cell instance i) ∷ []) ≡ false }
    ensures made { Executes (cell_update instance i (word_of value)) memory.old
        (after_step result memory.new) }
    ensures left { OnOk result ((more : List Touch)
        → lacks_capacity memory.old (touch.Place (place.Cell instance i) ∷ more) ≡ false
        → lacks_capacity memory.new more ≡ false) }
    ensures there { OnOk result (IsObject memory.new.heap.now instance) }
    ensures header { OnOk result (facts memory.new.heap.now instance
        ≡ facts memory.old.heap.now instance) }
{
    let _ = memory.commit_capacity(); // so that the proof knows: a transaction can keep as many as the least
    match memory.set(instance, i, value) {
        Ok(()) => Ok(()),
        Err(_) => Err(StoreDown),
    }
}

// Sets the cells of a new instance.
#[tactic(auto, using(jc_memory::proofs::ProgramLemmas::in_two_steps))]
fn set_cells<S: WordStore>(
    memory: &mut Memory<S>,
    instance: Ref,
    number: i16,
    array: Ref,
) -> Result<(), StoreDown>
    requires up { memory.old.heap.down ≡ false }
    requires there { IsObject memory.old.heap.now instance }
    requires kind { (facts memory.old.heap.now instance).kind ≡ Instance }
    requires persistent { (facts memory.old.heap.now instance).event ≡ None }
    requires cells { 2 ≤ (facts memory.old.heap.now instance).length }
    requires room { lacks_capacity memory.old
        (touch.Place (place.Cell instance 0) ∷ touch.Place (place.Cell instance 1) ∷ []) ≡ false }
    ensures { Executes (cells_set instance number array memory.old) memory.old
        (after_step result memory.new) }
{
    set_cell(memory, instance, 0, CellValue::Short(number))?;
    set_cell(memory, instance, 1, CellValue::Reference(array))
}

// Makes the instance, and sets its cells.
fn make_instance<S: WordStore>(
    engine: NewEngine,
    array: Ref,
    memory: &mut Memory<S>,
    linked: &Linked,
) -> Result<Ref, StoreDown>
    requires up { memory.old.heap.down ≡ false }
    requires cells { 2 ≤ cells_of engine.class }
    requires space { has_space memory.old Instance (cells_of engine.class) ≡ true }
    requires room { lacks_capacity memory.old
        (touch.HeapEnd ∷ touch.NewCell 0 ∷ touch.NewCell 1 ∷ []) ≡ false }
    ensures { Executes (instance_creation engine array linked.now memory.old) memory.old
        (after_step result memory.new) }
{
    let object = NewObject {
        kind: Kind::Instance,
        event: None,
        class: linked.platform().class_word(engine.class),
        owner: memory.registers().active,
        length: u16::from(engine.class.cells()),
    };
    let instance = make_within_capacity(memory, object)?;
    set_cells(memory, instance, engine.number, array)?;
    Ok(instance)
}

/// Makes an object of the platform with a state, of whom the code runs for, and returns it. A class that the platform table lacks is a
/// code fault. All space and room is asked for before: that of the heap for array and instance, then what the array asks for; where there is
/// none it throws, and nothing is done.
pub fn make_engine<S: WordStore>(
    engine: NewEngine,
    memory: &mut Memory<S>,
    linked: &Linked,
) -> Result<NativeResult, StepExit>
    requires up { memory.old.heap.down ≡ false }
    requires state { HasState engine.class }
    ensures { Executes (factory_call (Ok engine) linked.now memory.old) memory.old
        (after_call result memory.new) }
{
    if !is_in_table(engine.class, linked) {
        return Err(StepExit::End(Outcome::Fault));
    }
    if !has_space_for_both(engine, memory) {
        return Err(StepExit::Throw(NO_RESOURCE));
    }
    if !keeps_no_cells(engine, memory) {
        return Err(StepExit::Throw(BUFFER_FULL));
    }
    let array = make_state(engine, memory)?;
    match make_instance(engine, array, memory, linked) {
        Ok(instance) => Ok(NativeResult::ReturnValue(Cell::Reference(instance))),
        Err(StoreDown) => Err(StepExit::Down),
    }
}
