//! The kinds of parameters, which the rows of the platform's methods list.
ghost use Rattle.std.specs.Prelude.{◌≡◌, false, true};
ghost use Rattle.jc_memory.specs.State.{MemoryState};
ghost use Rattle.jc_linker.specs.Values.{Packages};
ghost use Rattle.jc_api.specs.Kinds.{have_kinds, is_number, is_object_of, is_of_kind, refers_to};

use jc_frames::Cell;
use jc_heap::{Facts, Kind};
use jc_linker::linked::Linked;
use jc_memory::Memory;
use jc_platform::kinds::ParameterKind;
use jc_transient::Ref;
use jc_words::WordStore;
use jc_world::objects::is_instance_of;

// Numbers of all kinds are shorts.
fn is_number(kind: ParameterKind) -> bool
    ensures { result ≡ is_number kind }
{
    match kind {
        ParameterKind::Byte | ParameterKind::Short | ParameterKind::Boolean => true,
        ParameterKind::Bytes
        | ParameterKind::Shorts
        | ParameterKind::Anything
        | ParameterKind::Instance(_) => false,
    }
}

// An object is what a kind asks for.
fn is_object_of(kind: ParameterKind, facts: Facts, linked: &Linked) -> bool
    ensures { result ≡ is_object_of kind linked.now facts }
{
    match kind {
        ParameterKind::Byte | ParameterKind::Short | ParameterKind::Boolean => false,
        ParameterKind::Bytes => facts.kind == Kind::ByteArray,
        ParameterKind::Shorts => facts.kind == Kind::ShortArray,
        ParameterKind::Anything => true,
        ParameterKind::Instance(class) => {
            is_instance_of(facts, linked.platform().class_word(class), linked)
        }
    }
}

// Null, or a reference to what a kind asks for. It stands out of line, so that no number asks for memory of its own.
#[inline(never)]
fn refers_to<S: WordStore>(
    kind: ParameterKind,
    reference: Ref,
    memory: &Memory<S>,
    linked: &Linked,
) -> bool
    requires up { memory.now.heap.down ≡ false }
    ensures { result ≡ refers_to kind linked.now memory.now reference }
{
    if is_number(kind) {
        return false;
    }
    if reference.is_null() {
        return true;
    }
    match memory.header(reference) {
        Some(facts) => is_object_of(kind, facts, linked),
        None => false,
    }
}

// An argument is of a kind.
fn is_of_kind<S: WordStore>(
    kind: ParameterKind,
    argument: Cell,
    memory: &Memory<S>,
    linked: &Linked,
) -> bool
    requires up { memory.now.heap.down ≡ false }
    ensures { result ≡ is_of_kind kind linked.now memory.now argument }
{
    match argument {
        Cell::Short(_) => is_number(kind),
        Cell::Reference(reference) => refers_to(kind, reference, memory, linked),
        Cell::ReturnAddress(_) => false,
    }
}

// The arguments are shorts, and these kinds are those of numbers: nothing of the memory is asked.
fn are_numbers(kinds: &[ParameterKind], args: &[Cell]) -> bool
    ensures { (p : Packages) (m : MemoryState) → result ≡ true
        → have_kinds kinds.now p m args.now ≡ true }
{
    let Some((kind, kinds)) = kinds.split_first() else {
        return true;
    };
    match args.split_first() {
        Some((Cell::Short(_), args)) => is_number(*kind) && are_numbers(kinds, args),
        _ => false,
    }
}

/// The arguments are of these kinds, one after the other: numbers, or null and references to what the kind asks for.
pub fn have_kinds<S: WordStore>(
    kinds: &[ParameterKind],
    args: &[Cell],
    memory: &Memory<S>,
    linked: &Linked,
) -> bool
    requires up { memory.now.heap.down ≡ false }
    ensures { result ≡ have_kinds kinds.now linked.now memory.now args.now }
{
    are_numbers(kinds, args) || are_of_kinds(kinds, args, memory, linked)
}

// The same, out of line, where one of them may be no number.
#[inline(never)]
fn are_of_kinds<S: WordStore>(
    kinds: &[ParameterKind],
    args: &[Cell],
    memory: &Memory<S>,
    linked: &Linked,
) -> bool
    requires up { memory.now.heap.down ≡ false }
    ensures { result ≡ have_kinds kinds.now linked.now memory.now args.now }
{
    let Some((kind, kinds)) = kinds.split_first() else {
        return true;
    };
    let Some((argument, args)) = args.split_first() else {
        return false;
    };
    is_of_kind(*kind, *argument, memory, linked) && are_of_kinds(kinds, args, memory, linked)
}
