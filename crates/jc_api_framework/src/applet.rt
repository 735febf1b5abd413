//! `Applet` (API specification).

pub(crate) mod register;
pub(crate) mod register_checks;

ghost use Rattle.std.specs.Prelude.{◌≡◌, ◌≤◌, false};
ghost use Rattle.std.specs.Option.{option_copied};
ghost use Rattle.jc_memory.specs.Programs.{Executes};
ghost use Rattle.jc_world.specs.NativeCalls.{after_call};
ghost use Rattle.jc_world.specs.Arrays.{bytes_in, IsInArray};
ghost use Rattle.jc_api_framework.specs.Applet.{applet_call, applet_register_bytes, install_aid, applet_register, register_with};
ghost use Rattle.jc_api_framework.specs.Applet.Register.{registration};

use crate::aid::cells::is_aid_length;
use crate::applet::register::register;
use jc_api::counted_of;
use jc_environment::MOST_AID;
use jc_frames::reasons::{ILLEGAL_AID, ILLEGAL_VALUE};
use jc_frames::{Cell, Outcome};
use jc_linker::linked::Linked;
use jc_memory::{Installation, Memory};
use jc_platform::names::AppletsMethod;
use jc_transient::Ref;
use jc_words::WordStore;
use jc_world::arguments::reference_argument;
use jc_world::{NativeResult, StepExit, Stretch, boolean};

// The AID of the entry in the Applet component whose `install` runs.
fn installed_aid(installation: Installation, linked: &Linked) -> Option<&[u8]>
    ensures { option_copied result ≡ install_aid linked.entry.now installation }
{
    match installation {
        Installation::Open(package, entry) => linked.applet_aid(package.0, entry),
        _ => None,
    }
}

// `register`, with the AID of the entry, if there is one.
fn register_as<S: WordStore>(
    instance: Ref,
    aid: Option<&[u8]>,
    memory: &mut Memory<S>,
    linked: &Linked,
) -> Result<NativeResult, StepExit>
    requires up { memory.old.heap.down ≡ false }
    ensures { Executes (register_with instance linked.now memory.old (option_copied aid.entry))
        memory.old (after_call result memory.new) }
{
    match aid {
        Some(aid) if aid.len() <= MOST_AID => register(aid, instance, memory, linked),
        _ => Err(StepExit::Throw(ILLEGAL_AID)),
    }
}

// `Applet.register`: registers the instance with the AID of its entry in the Applet component.
#[tactic(auto, unfolding(crate::specs::Applet::applet_register))]
#[inline(never)]
fn applet_register<S: WordStore>(
    args: &[Cell],
    memory: &mut Memory<S>,
    linked: &Linked,
) -> Result<NativeResult, StepExit>
    requires up { memory.old.heap.down ≡ false }
    ensures { Executes (applet_register args.now linked.now memory.old) memory.old
        (after_call result memory.new) }
{
    let instance = reference_argument(args, 0)?;
    let aid = installed_aid(memory.registers().installation, linked);
    register_as(instance, aid, memory, linked)
}

// Registers an instance with an AID that stands in an array.
fn register_bytes<S: WordStore>(
    bytes: Stretch,
    instance: Ref,
    memory: &mut Memory<S>,
    linked: &Linked,
) -> Result<NativeResult, StepExit>
    requires up { memory.old.heap.down ≡ false }
    requires there { IsInArray memory.old bytes }
    requires few { bytes.count ≤ 16 }
    ensures { Executes (registration (bytes_in memory.old bytes) instance linked.now memory.old)
        memory.old (after_call result memory.new) }
{
    let mut aid = [0; MOST_AID];
    let aid = &mut aid[..bytes.count as usize];
    memory.bytes(bytes.array, bytes.start, aid);
    register(aid, instance, memory, linked)
}

// `Applet.register(byte[], short, byte)`: registers the instance with the AID that is given.
#[tactic(auto, unfolding(crate::specs::Applet::applet_register_bytes))]
#[inline(never)]
fn applet_register_bytes<S: WordStore>(
    args: &[Cell],
    memory: &mut Memory<S>,
    linked: &Linked,
) -> Result<NativeResult, StepExit>
    requires up { memory.old.heap.down ≡ false }
    ensures { Executes (applet_register_bytes args.now linked.now memory.old) memory.old
        (after_call result memory.new) }
{
    let instance = reference_argument(args, 0)?;
    let bytes = counted_of(1, args, memory, linked)?;
    if !is_aid_length(bytes.count) {
        return Err(StepExit::Throw(ILLEGAL_VALUE));
    }
    register_bytes(bytes, instance, memory, linked)
}

/// A call of a method of `Applet`: what the class does itself, where no class below overrides it. `process`, which is abstract, is a
/// code fault.
#[tactic(auto, unfolding(crate::specs::Applet::applet_call))]
#[inline(always)]
pub fn call_applet<S: WordStore>(
    method: AppletsMethod,
    args: &[Cell],
    memory: &mut Memory<S>,
    linked: &Linked,
) -> Result<NativeResult, StepExit>
    requires up { memory.old.heap.down ≡ false }
    ensures { Executes (applet_call method args.now linked.now memory.old) memory.old
        (after_call result memory.new) }
{
    match method {
        AppletsMethod::AppletInit => Ok(NativeResult::ReturnVoid),
        AppletsMethod::AppletSelect => Ok(boolean(true)),
        AppletsMethod::AppletDeselect => Ok(NativeResult::ReturnVoid),
        AppletsMethod::AppletGetShareableInterfaceObject => {
            Ok(NativeResult::ReturnValue(Cell::Reference(Ref::null())))
        }
        AppletsMethod::AppletSelectingApplet => Ok(boolean(memory.registers().selecting)),
        AppletsMethod::AppletReSelectingApplet => Ok(boolean(memory.registers().reselecting)),
        AppletsMethod::AppletRegister => applet_register(args, memory, linked),
        AppletsMethod::AppletRegisterBytes => applet_register_bytes(args, memory, linked),
        AppletsMethod::AppletProcess => Err(StepExit::End(Outcome::Fault)),
    }
}
