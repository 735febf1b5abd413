//! Calls of methods of the platform that only read, carried out at once where no rule refuses them and nothing is thrown. What is not carried out so
//! is called in the usual way, with the same answer.
ghost use Rattle.std.specs.Prelude.{◌≡◌, ℕ, Some, false};
ghost use Rattle.jc_instructions.specs.AtOnce.{IsDoneAtOnce};
ghost use Rattle.jc_instructions.specs.Invoke.{Names};
ghost use Rattle.jc_linker.specs.declared.target.Method.TheVariants.{Native};
ghost use Rattle.jc_linker.specs.Lookups.{target_at};
ghost use Rattle.jc_linker.specs.Values.{Packages};
ghost use Rattle.jc_platform.specs.declared.names.PlatformMethod.TheVariants.{Apdus, Applets, Utilities};
ghost use Rattle.jc_platform.specs.declared.names.ApdusMethod.TheVariants.{ApduGetBuffer};
ghost use Rattle.jc_platform.specs.declared.names.AppletsMethod.TheVariants.{AppletSelectingApplet};
ghost use Rattle.jc_platform.specs.declared.names.UtilitiesMethod.TheVariants.{UtilGetShort};
ghost use Rattle.jc_frames.specs.declared.instr.InvokeOp.TheVariants.{Virtual};
ghost use Rattle.jc_interp.specs.Calling.{invoke_instruction, static_invoke};

use jc_api_framework::{buffer, short_at_once};
use jc_frames::{Cell, Frames};
use jc_instructions::known_calls::named_arguments;
use jc_linker::linked::Linked;
use jc_linker::target::Target;
use jc_memory::Memory;
use jc_platform::names::{ApdusMethod, AppletsMethod, PlatformMethod, UtilitiesMethod};
use jc_words::WordStore;
use jc_world::{NativeResult, boolean};

// Carries out `Util.getShort`, if what it returns is known at once; says whether it did.
#[inline(never)]
fn get_short_at_once<S: WordStore>(frames: &mut Frames, memory: &Memory<S>) -> bool
    requires up { memory.now.heap.down ≡ false }
    ensures { (p : Packages) (place : ℕ) → IsDoneAtOnce result (static_invoke
        (Native (Utilities UtilGetShort)) place p frames.old memory.now) frames.old frames.new }
{
    let Some(arguments) = frames.arguments(2) else {
        return false;
    };
    let Some(value) = short_at_once(arguments, memory) else {
        return false;
    };
    let _ = frames.room(); // so that the proof knows how high the stack may be
    frames.discard(2);
    frames.push(Cell::Short(value));
    true
}

// Carries out `Applet.selectingApplet`, if the method that the entry names runs; says whether it did.
#[inline(never)]
fn selecting_applet_at_once<S: WordStore>(
    entry: &Target,
    frames: &mut Frames,
    memory: &Memory<S>,
    linked: &Linked,
) -> bool
    requires up { memory.now.heap.down ≡ false }
    requires named { Names (Applets AppletSelectingApplet) entry.now }
    ensures { (index place : ℕ) → Some entry.now
        ≡ target_at linked.now frames.old.current.origin.package_number index → IsDoneAtOnce result
        (invoke_instruction (Virtual index) place linked.now frames.old memory.now) frames.old
        frames.new }
{
    let method = PlatformMethod::Applets(AppletsMethod::AppletSelectingApplet);
    let Some((cells, _arguments)) = named_arguments(method, entry, frames, memory, linked) else {
        return false;
    };
    let NativeResult::ReturnValue(selecting) = boolean(memory.registers().selecting) else {
        return false;
    };
    let _ = frames.room();
    frames.discard(cells);
    frames.push(selecting);
    true
}

// The same of `APDU.getBuffer`.
#[inline(never)]
fn get_buffer_at_once<S: WordStore>(
    entry: &Target,
    frames: &mut Frames,
    memory: &Memory<S>,
    linked: &Linked,
) -> bool
    requires up { memory.now.heap.down ≡ false }
    requires named { Names (Apdus ApduGetBuffer) entry.now }
    ensures { (index place : ℕ) → Some entry.now
        ≡ target_at linked.now frames.old.current.origin.package_number index → IsDoneAtOnce result
        (invoke_instruction (Virtual index) place linked.now frames.old memory.now) frames.old
        frames.new }
{
    let Ok(buffer) = buffer(memory) else {
        return false;
    };
    let method = PlatformMethod::Apdus(ApdusMethod::ApduGetBuffer);
    let Some((cells, _arguments)) = named_arguments(method, entry, frames, memory, linked) else {
        return false;
    };
    let _ = frames.room();
    frames.discard(cells);
    frames.push(Cell::Reference(buffer));
    true
}

// Carries out a call of a method of `Util` by the instruction at a place, likewise.
#[inline(always)]
fn utility_at_once<S: WordStore>(
    method: UtilitiesMethod,
    place: u16,
    frames: &mut Frames,
    memory: &Memory<S>,
    linked: &Linked,
) -> bool
    requires up { memory.now.heap.down ≡ false }
    ensures { IsDoneAtOnce result (static_invoke (Native (Utilities method)) place linked.now
        frames.old memory.now) frames.old frames.new }
{
    match method {
        UtilitiesMethod::UtilGetShort => get_short_at_once(frames, memory),
        _ => false,
    }
}

/// Carries out a static call of a method of the platform by the instruction at a place at once, or does nothing; says whether it did.
#[inline(always)]
pub(crate) fn static_at_once<S: WordStore>(
    method: PlatformMethod,
    place: u16,
    frames: &mut Frames,
    memory: &Memory<S>,
    linked: &Linked,
) -> bool
    requires up { memory.now.heap.down ≡ false }
    ensures { IsDoneAtOnce result (static_invoke (Native method) place linked.now frames.old
        memory.now) frames.old frames.new }
{
    match method {
        PlatformMethod::Utilities(method) => {
            utility_at_once(method, place, frames, memory, linked)
        }
        _ => false,
    }
}

/// Carries out a virtual call by the instruction at a place, whose entry names this method, at once, or does nothing; says whether it did.
#[inline(always)]
pub(crate) fn virtual_at_once<S: WordStore>(
    method: PlatformMethod,
    entry: &Target,
    frames: &mut Frames,
    memory: &Memory<S>,
    linked: &Linked,
) -> bool
    requires up { memory.now.heap.down ≡ false }
    requires named { Names method entry.now }
    ensures { (index place : ℕ) → Some entry.now
        ≡ target_at linked.now frames.old.current.origin.package_number index → IsDoneAtOnce result
        (invoke_instruction (Virtual index) place linked.now frames.old memory.now) frames.old
        frames.new }
{
    match method {
        PlatformMethod::Applets(AppletsMethod::AppletSelectingApplet) => {
            selecting_applet_at_once(entry, frames, memory, linked)
        }
        PlatformMethod::Apdus(ApdusMethod::ApduGetBuffer) => {
            get_buffer_at_once(entry, frames, memory, linked)
        }
        _ => false,
    }
}
