//! What a call calls.
ghost use Rattle.std.specs.Prelude.{◌<◌};

use crate::causes::push_class;
use crate::explanation::Asked;
use crate::places::{push_method_at, push_package};
use crate::text::Text;
use jc_linker::linked::Linked;
use jc_linker::target::{Method, Target};
use jc_memory::Spot;
use jc_platform::names::{MethodKind, PlatformMethod};
use jc_transient::ClassWord;

const INVOKEVIRTUAL: u8 = 139;

const INVOKESPECIAL: u8 = 140;

const INVOKESTATIC: u8 = 141;

const INVOKEINTERFACE: u8 = 142;

/// What a call names.
#[derive(Clone, Copy)]
pub enum Callee {
    /// A method; of a virtual call the one that the receiver's class may override.
    Method(Method),
    /// The method of an interface with this token.
    OfInterface(ClassWord, u8),
}

/// What the instruction at a spot calls; nothing, where it is no call or its entry names no method.
pub fn callee_at(spot: Spot, asked: &Asked<'_>) -> Option<Callee> {
    callee_in(spot, asked.code_at(spot), asked.linked)
}

fn callee_in(spot: Spot, code: &[u8], linked: &Linked) -> Option<Callee> {
    let place = usize::from(spot.place);
    let opcode = *code.get(place)?;
    if opcode == INVOKEINTERFACE {
        let interface = target_at(spot, code, place + 2, linked)?;
        let token = *code.get(place + 4)?;
        return match interface {
            Target::Class(class) => Some(Callee::OfInterface(class, token)),
            _ => None,
        };
    }
    let target = target_at(spot, code, place + 1, linked)?;
    Some(Callee::Method(method_of(opcode, target)?))
}

// The method that an instruction calls whose entry resolves to this; none, where it is no such call.
fn method_of(opcode: u8, target: Target) -> Option<Method> {
    let (method, is_called) = match target {
        Target::VirtualMethod { method, .. } => (method, opcode == INVOKEVIRTUAL),
        Target::SuperMethod { method, .. } => (method, opcode == INVOKESPECIAL),
        Target::StaticMethod { method, .. } => {
            (method, opcode == INVOKESPECIAL || opcode == INVOKESTATIC)
        }
        _ => return None,
    };
    if is_called { Some(method) } else { None }
}

/// The method of the platform that is called at a spot, if one is.
pub(crate) fn platform_callee(spot: Spot, asked: &Asked<'_>) -> Option<PlatformMethod> {
    platform_callee_in(spot, asked.code_at(spot), asked.linked)
}

fn platform_callee_in(spot: Spot, code: &[u8], linked: &Linked) -> Option<PlatformMethod> {
    let Callee::Method(method) = callee_in(spot, code, linked)? else {
        return None;
    };
    match method {
        Method::Native(named) => Some(named),
        Method::Code { .. } => None,
    }
}

/// Whether the instruction at a spot calls a constructor, a private method or a method of a superclass.
pub(crate) fn is_special_call(spot: Spot, asked: &Asked<'_>) -> bool {
    match asked.code_at(spot).get(usize::from(spot.place)) {
        Some(opcode) => *opcode == INVOKESPECIAL,
        None => false,
    }
}

/// The method that the instruction at a spot calls, if it calls one that writes bytes one by one, each for good.
pub(crate) fn non_atomic_call(spot: Spot, linked: &Linked) -> Option<PlatformMethod> {
    let code = linked.code_at(spot.package_number, 0);
    let named = platform_callee_in(spot, code, linked)?;
    if is_non_atomic(named) {
        return Some(named);
    }
    None
}

// The standard names such methods so.
fn is_non_atomic(method: PlatformMethod) -> bool {
    let name = method.name();
    match name.get(name.len().saturating_sub(9)..) {
        Some(end) => end == b"NonAtomic".as_slice(),
        None => false,
    }
}

// What the entry resolves to whose index stands in the code.
fn target_at(spot: Spot, code: &[u8], at: usize, linked: &Linked) -> Option<Target>
    requires small { at < 100000 }
{
    let high = *code.get(at)?;
    let low = *code.get(at + 1)?;
    let index = u16::from_be_bytes([high, low]);
    linked.target_at(spot.package_number, index).copied()
}

/// Adds what the instruction at a spot calls, if it is a call.
pub fn push_callee(text: &mut Text, spot: Spot, asked: &Asked<'_>) {
    let Some(callee) = callee_at(spot, asked) else {
        return;
    };
    text.push(b" ");
    match callee {
        Callee::Method(method) => push_method(text, spot, method, asked),
        Callee::OfInterface(class, token) => push_interface_method(text, class, token, asked),
    }
}

fn push_method(text: &mut Text, spot: Spot, method: Method, asked: &Asked<'_>) {
    match method {
        Method::Native(named) => push_platform_method(text, named),
        Method::Code {
            package_number,
            offset,
        } => push_code(text, spot, package_number, offset, asked),
    }
}

/// Adds a method of the platform.
pub(crate) fn push_platform_method(text: &mut Text, method: PlatformMethod) {
    text.push(method.class().name());
    text.push(b".");
    text.push(method.name());
}

// A method in bytecode, with its package where that is another one.
fn push_code(text: &mut Text, spot: Spot, package_number: u8, offset: u16, asked: &Asked<'_>) {
    if package_number != spot.package_number {
        push_package(text, package_number, asked.linked);
        text.push(b" ");
    }
    push_method_at(text, package_number, offset, asked);
}

fn push_interface_method(text: &mut Text, class: ClassWord, token: u8, asked: &Asked<'_>) {
    let platform = asked.linked.platform();
    let named = platform.class_by_word(class);
    push_class(text, class, named, asked.linked);
    if let Some(interface) = named {
        if let Some(method) = platform.method_by_token(interface, MethodKind::Interface, token) {
            text.push(b".");
            text.push(method.name());
            return;
        }
    }
    text.push(b" token ");
    text.push_number(u32::from(token));
}
