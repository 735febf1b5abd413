//! Why an instruction that uses a field, an array, an object or a method is a code fault.
ghost use Rattle.std.specs.Prelude.{◌≡◌, false};

use crate::explain::stack_fault;
use jc_frames::instr::{ArrayOp, FieldOp, Instr, InvokeOp, ObjectOp, TestedType, ValueType};
use jc_frames::{Cell, Frames, header_at};
use jc_heap::{Facts, Kind};
use jc_instructions::invoke::{SelectedCall, select_method};
use jc_instructions::method_component::method_component_of;
use jc_linker::linked::Linked;
use jc_linker::target::{Method, Target};
use jc_memory::{FaultKind, Memory};
use jc_platform::names::PlatformClass;
use jc_transient::{ClassWord, Ref};
use jc_words::WordStore;

// What an entry of the pool names to the method that runs.
fn target_of<'a>(index: u16, frames: &Frames, linked: &'a Linked) -> Option<&'a Target> {
    linked.target_at(frames.origin().package_number, index)
}

// The entry names a field of instances that holds values of this type.
fn names_field(of_type: ValueType, target: Option<&Target>) -> bool {
    match target {
        Some(Target::InstanceField { is_reference, .. }) => {
            *is_reference == (of_type == ValueType::Reference)
        }
        _ => false,
    }
}

// The entry names a static field that holds values of this type.
fn names_static(of_type: ValueType, target: Option<&Target>, linked: &Linked) -> bool {
    let Some(
        Target::StaticField {
            package_number,
            offset,
        },
    ) = target
    else {
        return false;
    };
    let (size, references) = linked.statics_at(*package_number);
    let offset = *offset;
    let behind_references = 2 * u32::from(references) <= u32::from(offset);
    match of_type {
        ValueType::Reference => offset % 2 == 0 && offset / 2 < references,
        ValueType::Byte => behind_references && offset < size,
        ValueType::Short => behind_references && u32::from(offset) + 1 < u32::from(size),
    }
}

// The entry names a class.
fn names_class(target: Option<&Target>) -> bool {
    matches!(target, Some(Target::Class(_)))
}

// The entry names a class that has instances.
fn names_instantiable(target: Option<&Target>, linked: &Linked) -> bool {
    match target {
        Some(Target::Class(class)) => linked.is_instantiable_class(*class),
        _ => false,
    }
}

// The tested type is there.
fn names_type(tested: TestedType, frames: &Frames, linked: &Linked) -> bool {
    match tested {
        TestedType::OfClass(index) | TestedType::OfReferences(index) => {
            names_class(target_of(index, frames, linked))
        }
        TestedType::OfPrimitives(_) => true,
    }
}

// The entry of an instruction on a field, an array or an object names what the instruction wants.
fn names_member(instr: Instr, frames: &Frames, linked: &Linked) -> bool {
    match instr {
        Instr::Field(FieldOp::GetStatic(of_type, index) | FieldOp::PutStatic(of_type, index)) => {
            names_static(of_type, target_of(index, frames, linked), linked)
        }
        Instr::Field(
            FieldOp::GetField(of_type, index)
            | FieldOp::PutField(of_type, index)
            | FieldOp::GetFieldThis(of_type, index)
            | FieldOp::PutFieldThis(of_type, index),
        ) => names_field(of_type, target_of(index, frames, linked)),
        Instr::Array(ArrayOp::ANewArray(index)) => names_class(target_of(index, frames, linked)),
        Instr::Object(ObjectOp::New(index)) => {
            names_instantiable(target_of(index, frames, linked), linked)
        }
        Instr::Object(ObjectOp::CheckCast(tested) | ObjectOp::InstanceOf(tested)) => {
            names_type(tested, frames, linked)
        }
        _ => true,
    }
}

/// A use of a field, an array or an object.
pub(crate) fn use_fault(instr: Instr, frames: &Frames, linked: &Linked) -> FaultKind {
    if !names_member(instr, frames, linked) {
        return FaultKind::NoMember;
    }
    match instr {
        Instr::Field(FieldOp::GetStatic(..) | FieldOp::GetFieldThis(..))
        | Instr::Object(ObjectOp::New(_))
            if !frames.has_room() => { FaultKind::FullStack }
        Instr::Field(FieldOp::GetFieldThis(..) | FieldOp::PutFieldThis(..)) => {
            match frames.local(0) {
                None => FaultKind::NoLocal,
                Some(Cell::Reference(_)) => stack_fault(frames),
                Some(_) => FaultKind::WrongKind,
            }
        }
        Instr::Field(FieldOp::GetStatic(..)) | Instr::Object(ObjectOp::New(_)) => FaultKind::Other,
        _ => stack_fault(frames),
    }
}

// How many cells the arguments of a method have.
fn arguments_of(method: Method, linked: &Linked) -> Option<u8> {
    match method {
        Method::Code {
            package_number,
            offset,
        } => Some(header_at(method_component_of(package_number, linked), offset)?.arguments),
        Method::Native(method) => Some(method.argument_cells()),
    }
}

// What a call wants of its receiver: how many arguments there are with it, and of which class it is.
#[derive(Clone, Copy)]
struct Wanted {
    arguments: u8,
    class: Option<ClassWord>,
}

// What a method wants, if its header is not cut.
fn wanted_of(
    class: Option<ClassWord>,
    method: Method,
    linked: &Linked,
) -> Result<Wanted, FaultKind> {
    match arguments_of(method, linked) {
        Some(arguments) => Ok(Wanted { arguments, class }),
        None => Err(FaultKind::NoMethod),
    }
}

// What the entry of a call by the receiver's class names.
fn wanted_by_virtual(target: Option<&Target>, linked: &Linked) -> Result<Wanted, FaultKind> {
    match target {
        Some(Target::VirtualMethod { class, method, .. }) => {
            wanted_of(Some(*class), *method, linked)
        }
        _ => Err(FaultKind::NoMember),
    }
}

// What the entry of a call of a constructor, a private method or a method of a superclass names.
fn wanted_by_special(target: Option<&Target>, linked: &Linked) -> Result<Wanted, FaultKind> {
    match target {
        Some(Target::StaticMethod { class, method }) => wanted_of(*class, *method, linked),
        Some(Target::SuperMethod { class, method }) => wanted_of(Some(*class), *method, linked),
        _ => Err(FaultKind::NoMember),
    }
}

// Why a static call has no method.
fn static_fault(target: Option<&Target>) -> FaultKind {
    match target {
        Some(Target::StaticMethod { .. }) => FaultKind::NoMethod,
        _ => FaultKind::NoMember,
    }
}

// What the entry of a call of an interface names.
fn wanted_by_interface(arguments: u8, target: Option<&Target>) -> Result<Wanted, FaultKind> {
    match target {
        Some(Target::Class(class)) => Ok(Wanted {
            arguments,
            class: Some(*class),
        }),
        _ => Err(FaultKind::NoMember),
    }
}

// What the entry of a call names; else why it names nothing.
fn wanted_by(call: InvokeOp, frames: &Frames, linked: &Linked) -> Result<Wanted, FaultKind> {
    match call {
        InvokeOp::Virtual(index) => wanted_by_virtual(target_of(index, frames, linked), linked),
        InvokeOp::Special(index) => wanted_by_special(target_of(index, frames, linked), linked),
        InvokeOp::Static(index) => Err(static_fault(target_of(index, frames, linked))),
        InvokeOp::Interface {
            arguments,
            index,
            ..
        } => wanted_by_interface(arguments, target_of(index, frames, linked)),
    }
}

// Whether an object is of a class. Arrays are instances of `Object`.
fn is_of(facts: Facts, class: ClassWord, linked: &Linked) -> bool {
    let own = match facts.kind {
        Kind::Instance => facts.class(),
        _ => linked.platform().class_word(PlatformClass::Object),
    };
    own == class || linked.is_below(own, class)
}

// The class is that of the object that a reference names, or there is none; else why it cannot be called.
fn receiver_fault<S: WordStore>(
    receiver: Ref,
    class: Option<ClassWord>,
    memory: &Memory<S>,
    linked: &Linked,
) -> FaultKind
    requires up { memory.now.heap.down ≡ false }
{
    if receiver.is_null() {
        return FaultKind::WrongArguments;
    }
    let Some(facts) = memory.header(receiver) else {
        return FaultKind::NoObject;
    };
    let Some(class) = class else {
        return FaultKind::WrongArguments;
    };
    if is_of(facts, class, linked) {
        FaultKind::WrongArguments
    } else {
        FaultKind::WrongClass
    }
}

// Why no method was found for a call that wants this receiver.
fn selection_fault<S: WordStore>(
    wanted: Wanted,
    frames: &Frames,
    memory: &Memory<S>,
    linked: &Linked,
) -> FaultKind
    requires up { memory.now.heap.down ≡ false }
{
    let Wanted { arguments, class } = wanted;
    if arguments == 0 {
        return FaultKind::NoMethod;
    }
    let Some(cell) = frames.peek(arguments - 1) else {
        return FaultKind::EmptyStack;
    };
    match cell {
        Cell::Reference(receiver) => receiver_fault(receiver, class, memory, linked),
        _ => FaultKind::WrongKind,
    }
}

// Why a method that was found was not begun, or not carried out.
fn entry_fault(selected: &SelectedCall, frames: &Frames) -> FaultKind {
    let arguments = selected.call.arguments;
    if arguments > 0 && frames.peek(arguments - 1).is_none() {
        return FaultKind::EmptyStack;
    }
    match (selected.call.method, selected.header) {
        (Method::Native(_), _) if !frames.has_room() => FaultKind::FullStack,
        (Method::Native(_), _) => FaultKind::WrongArguments,
        (Method::Code { .. }, Some(header))
            if !header.is_abstract && header.arguments == arguments => {
            if frames.call_site(30).is_some() {
                FaultKind::TooManyFrames
            } else {
                FaultKind::TooManyCells
            }
        }
        (Method::Code { .. }, _) => FaultKind::NoMethod,
    }
}

/// A call.
pub(crate) fn call_fault<S: WordStore>(
    call: InvokeOp,
    frames: &Frames,
    memory: &Memory<S>,
    linked: &Linked,
) -> FaultKind
    requires up { memory.now.heap.down ≡ false }
{
    if let Ok(selected) = select_method::<FaultKind, S>(call, frames, memory, linked) {
        return entry_fault(&selected, frames);
    }
    match wanted_by(call, frames, linked) {
        Ok(wanted) => selection_fault(wanted, frames, memory, linked),
        Err(kind) => kind,
    }
}
