//! The arguments that the methods of the platform take after their receivers.
ghost use Rattle.std.specs.Prelude.{◌≡◌, ◌<◌, false, length};
ghost use Rattle.jc_instructions.specs.Parameters.{fits, kinds_fit, native_fits};

use jc_api::have_kinds;
use jc_frames::Frames;
use jc_linker::linked::Linked;
use jc_linker::target::Method;
use jc_memory::Memory;
use jc_platform::kinds::ParameterKind;
use jc_platform::names::PlatformMethod;
use jc_words::WordStore;

// The cells on the top of the stack are of these kinds, of which there are few.
#[inline(never)]
fn kinds_fit<S: WordStore>(
    kinds: &[ParameterKind],
    frames: &Frames,
    memory: &Memory<S>,
    linked: &Linked,
) -> bool
    requires up { memory.now.heap.down ≡ false }
    requires few { length kinds.now < 255 }
    ensures { result ≡ kinds_fit kinds.now linked.now memory.now frames.now.current.stack }
{
    match frames.arguments(kinds.len() as u8) {
        Some(arguments) => have_kinds(kinds, arguments, memory, linked),
        None => false,
    }
}

// The cells on the top of the stack are of the kinds of a method's parameters.
#[inline(always)]
pub(crate) fn native_fits<S: WordStore>(
    method: PlatformMethod,
    frames: &Frames,
    memory: &Memory<S>,
    linked: &Linked,
) -> bool
    requires up { memory.now.heap.down ≡ false }
    ensures { result ≡ native_fits method linked.now memory.now frames.now.current.stack }
{
    let kinds = method.parameters();
    kinds.is_empty() || kinds_fit(kinds, frames, memory, linked)
}

/// Whether the arguments on the stack after the receiver have the kinds that a method of the platform
/// wants. Methods in bytecode look at what they are given as they use it.
#[tactic(auto, unfolding(crate::specs::Parameters::fits))]
#[inline(always)]
pub fn fits<S: WordStore>(
    method: Method,
    frames: &Frames,
    memory: &Memory<S>,
    linked: &Linked,
) -> bool
    requires up { memory.now.heap.down ≡ false }
    ensures { result ≡ fits method linked.now memory.now frames.now.current.stack }
{
    match method {
        Method::Code { .. } => true,
        Method::Native(method) => native_fits(method, frames, memory, linked),
    }
}
