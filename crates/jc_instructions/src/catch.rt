//! Which handler of a method catches what is thrown.
ghost use Rattle.std.specs.Prelude.{◌≡◌, ◌<◌, ◌^◌, Some, option_copied};
ghost use Rattle.jc_instructions.specs.Catch.{catch_in_component, catch_by_class, catch_by_handler, catch_in_method, handler_target, catch_by_entry};
ghost use Rattle.jc_frames.specs.Handlers.{handler_in};

use crate::invoke::is_below;
use crate::method_component::method_component_of;
use jc_frames::Origin;
use jc_frames::handlers::{HANDLER_SIZE, Handler, handler_at};
use jc_frames::operands::u1_at;
use jc_linker::linked::Linked;
use jc_linker::target::Target;
use jc_transient::ClassWord;

/// What the handlers of a method do with an exception.
#[derive(Clone, Copy)]
pub enum HandlerResult {
    /// One catches it, and goes on at this place.
    Caught(u16),
    /// None does: it is thrown in the caller.
    NotCaught,
    /// A code fault: a handler that is cut, that names no class, or that goes on outside the method.
    CodeFault,
}

// A handler goes on within the method, which begins at a place.
fn handler_target(method: u16, text: &[u8], target: u16) -> HandlerResult
    ensures { result ≡ handler_target method text.now target }
{
    if method <= target && usize::from(target) < text.len() {
        HandlerResult::Caught(target)
    } else {
        HandlerResult::CodeFault
    }
}

// A handler of the class that an entry of the constant pool names.
fn catch_by_class(
    thrown: ClassWord,
    entry: Option<&Target>,
    caught: HandlerResult,
    linked: &Linked,
) -> HandlerResult
    ensures { result ≡ catch_by_class linked.now thrown (option_copied entry.entry) caught }
{
    match entry {
        Some(Target::Class(class)) => {
            if is_below(thrown, *class, linked) {
                caught
            } else {
                HandlerResult::NotCaught
            }
        }
        _ => HandlerResult::CodeFault,
    }
}

// What a handler does with an exception of this class that is thrown at a place.
fn catch_by_handler(
    thrown: ClassWord,
    origin: &Origin,
    place: u16,
    text: &[u8],
    handler: Handler,
    linked: &Linked,
) -> HandlerResult
    ensures { result ≡ catch_by_handler linked.now thrown origin.now place text.now handler }
{
    if !handler.watches(place) {
        return HandlerResult::NotCaught;
    }
    let caught = handler_target(origin.method, text, handler.target);
    if handler.catch_type == 0 {
        return caught;
    }
    let entry = linked.target_at(origin.package_number, handler.catch_type);
    catch_by_class(thrown, entry, caught, linked)
}

// The same for the handler that begins at a place of the component.
#[tactic(auto, unfolding(crate::specs::Catch::catch_by_entry))]
#[inline(always)]
fn try_at(
    thrown: ClassWord,
    origin: &Origin,
    place: u16,
    text: &[u8],
    at: usize,
    linked: &Linked,
) -> HandlerResult
    requires { at < 2 ^ 16 }
    ensures { result ≡ catch_by_entry linked.now thrown origin.now place text.now
        (handler_in text.now at) }
{
    match handler_at(text, at) {
        Some(handler) => catch_by_handler(thrown, origin, place, text, handler, linked),
        None => HandlerResult::CodeFault,
    }
}

// What the handlers of a component do with it, the first that catches it before all others.
#[tactic(auto, using(crate::proofs::Handlers::more))]
#[inline(always)]
fn catch_in_component(
    thrown: ClassWord,
    origin: &Origin,
    place: u16,
    text: &[u8],
    linked: &Linked,
) -> HandlerResult
    ensures { result ≡ catch_in_component linked.now thrown origin.now place text.now }
{
    let count = u1_at(text, 0).unwrap_or(0);
    let mut at = 1;
    for _handler in 0..count {
        match try_at(thrown, origin, place, text, at, linked) {
            HandlerResult::NotCaught => {}
            caught => return caught,
        }
        at += HANDLER_SIZE;
    }
    HandlerResult::NotCaught
}

/// What the handlers of a method do with an exception of this class that is thrown by the instruction at
/// this place. They are tried in their order.
#[tactic(auto, unfolding(crate::specs::Catch::catch_in_method))]
#[inline(always)]
pub fn catch_in_method(
    thrown: ClassWord,
    origin: &Origin,
    place: u16,
    linked: &Linked,
) -> HandlerResult
    ensures { result ≡ catch_in_method linked.now thrown origin.now place }
{
    let text = method_component_of(origin.package_number, linked);
    catch_in_component(thrown, origin, place, text, linked)
}
