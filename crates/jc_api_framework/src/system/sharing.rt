//! AIDs of applets, and sharing.
ghost use Rattle.std.specs.Prelude.{◌≡◌, false};
ghost use Rattle.std.specs.Option.{option_and_then};
ghost use Rattle.jc_frames.specs.declared.cell.Cell.TheVariants.{Reference};
ghost use Rattle.jc_memory.specs.Programs.{Executes};
ghost use Rattle.jc_world.specs.declared.native_result.NativeResult.TheVariants.{ReturnValue};
ghost use Rattle.jc_environment.specs.Aid.{aid_at};
ghost use Rattle.jc_environment.specs.Registry.{applet_with_aid};
ghost use Rattle.jc_world.specs.NativeCalls.{after_call};
ghost use Rattle.jc_world.specs.Arrays.{IsInArray};
ghost use Rattle.jc_api_framework.specs.System.Sharing.{aid_or_null, applet_of, jc_system_get_aid, jc_system_get_previous_context_aid, aid_of_elements};
ghost use Rattle.jc_api_framework.specs.System.Sharing.{jc_system_lookup_aid, server_call_if_known, jc_system_get_applet_shareable_interface_object};
ghost use Rattle.jc_api_framework.specs.System.Sharing.{are_one, jc_system_is_applet_active};

use crate::aid::cells::is_aid_length;
use jc_api::counted_of;
use jc_environment::{MOST_AID, aid_at, aid_of_applet, applet_with_aid, instance_of_applet};
use jc_frames::{Cell, Outcome};
use jc_linker::linked::Linked;
use jc_memory::Memory;
use jc_platform::names::PlatformClass;
use jc_transient::{AppletNumber, Owner, Ref};
use jc_words::WordStore;
use jc_world::arguments::{reference_argument, short_argument};
use jc_world::objects::is_instance_of;
use jc_world::{NativeResult, ServerCall, StepExit, Stretch, boolean};

// A reference, as a method returns it.
fn reference(value: Ref) -> NativeResult
    ensures { result ≡ ReturnValue (Reference value) }
{
    NativeResult::ReturnValue(Cell::Reference(value))
}

// The AID object of an applet, or null.
fn aid_or_null<S: WordStore>(applet: Option<AppletNumber>, memory: &Memory<S>) -> Ref
    requires up { memory.now.heap.down ≡ false }
    ensures { result ≡ aid_or_null memory.now.heap.now applet }
{
    let Some(number) = applet else {
        return Ref::null();
    };
    match aid_of_applet(memory, number) {
        Some(aid) => aid,
        None => Ref::null(),
    }
}

// The applet among the owners.
fn applet_of(owner: Owner) -> Option<AppletNumber>
    ensures { result ≡ applet_of owner }
{
    match owner {
        Owner::Applet(number) => Some(number),
        _ => None,
    }
}

/// `JCSystem.getAID`: returns the AID object of the applet for which code runs, or null.
pub(crate) fn jc_system_get_aid<S: WordStore>(memory: &Memory<S>) -> Ref
    requires up { memory.now.heap.down ≡ false }
    ensures { result ≡ jc_system_get_aid memory.now }
{
    aid_or_null(applet_of(memory.registers().active), memory)
}

/// `JCSystem.getPreviousContextAID`: returns the AID object of the applet for which code ran before the last
/// context switch, or null.
pub(crate) fn jc_system_get_previous_context_aid<S: WordStore>(memory: &Memory<S>) -> Ref
    requires up { memory.now.heap.down ≡ false }
    ensures { result ≡ jc_system_get_previous_context_aid memory.now }
{
    aid_or_null(applet_of(memory.registers().previous), memory)
}

// The AID object of the applet whose AID some elements are, or null.
fn aid_of_elements<S: WordStore>(e: Stretch, memory: &Memory<S>) -> Ref
    requires up { memory.now.heap.down ≡ false }
    requires there { IsInArray memory.now e }
    ensures { result ≡ aid_of_elements memory.now e }
{
    if !is_aid_length(e.count) {
        return Ref::null();
    }
    let mut bytes = [0; MOST_AID];
    let aid = &mut bytes[..e.count as usize];
    memory.bytes(e.array, e.start, aid);
    let applet = applet_with_aid(memory, aid);
    aid_or_null(applet, memory)
}

/// `JCSystem.lookupAID`: returns the AID object with these bytes, or null.
#[tactic(auto, unfolding(crate::specs::System::Sharing::jc_system_lookup_aid))]
pub(crate) fn jc_system_lookup_aid<S: WordStore>(
    args: &[Cell],
    memory: &Memory<S>,
    linked: &Linked,
) -> Result<NativeResult, StepExit>
    requires up { memory.now.heap.down ≡ false }
    ensures { Executes (jc_system_lookup_aid args.now linked.now memory.now) memory.now
        (after_call result memory.now) }
{
    let e = counted_of(0, args, memory, linked)?;
    Ok(reference(aid_of_elements(e, memory)))
}

// The server with this number is asked; null where there is none.
fn server_call_if_known<S: WordStore>(
    applet: Option<AppletNumber>,
    parameter: i16,
    memory: &Memory<S>,
) -> Result<NativeResult, StepExit>
    requires up { memory.now.heap.down ≡ false }
    ensures { Executes (server_call_if_known memory.now parameter applet) memory.now
        (after_call result memory.now) }
{
    let Some(owner) = applet else {
        return Ok(reference(Ref::null()));
    };
    let Some(server) = instance_of_applet(memory, owner) else {
        return Ok(reference(Ref::null()));
    };
    Ok(NativeResult::CallServer(ServerCall {
        server,
        owner,
        client: jc_system_get_aid(memory),
        parameter,
    }))
}

// The applet with the AID that an AID object holds.
fn applet_by<S: WordStore>(aid: Ref, memory: &Memory<S>) -> Option<AppletNumber>
    requires up { memory.now.heap.down ≡ false }
    ensures { result ≡ option_and_then (λ bytes. applet_with_aid memory.now bytes)
        (aid_at memory.now aid) }
{
    let held = aid_at(memory, aid)?;
    applet_with_aid(memory, held.bytes())
}

/// `JCSystem.getAppletShareableInterfaceObject`: calls the `getShareableInterfaceObject` of the server with
/// this AID; returns null where there is none.
#[tactic(auto, unfolding(crate::specs::System::Sharing::jc_system_get_applet_shareable_interface_object))]
pub(crate) fn jc_system_get_applet_shareable_interface_object<S: WordStore>(
    args: &[Cell],
    memory: &Memory<S>,
    linked: &Linked,
) -> Result<NativeResult, StepExit>
    requires up { memory.now.heap.down ≡ false }
    ensures { Executes (jc_system_get_applet_shareable_interface_object args.now linked.now
        memory.now) memory.now (after_call result memory.now) }
{
    let aid = reference_argument(args, 0)?;
    let parameter = short_argument(args, 1)?;
    if aid.is_null() {
        return Ok(reference(Ref::null()));
    }
    let Some(facts) = memory.header(aid) else {
        return Err(StepExit::End(Outcome::Fault));
    };
    let class = linked.platform().class_word(PlatformClass::Aid);
    if !is_instance_of(facts, class, linked) {
        return Err(StepExit::End(Outcome::Fault));
    }
    server_call_if_known(applet_by(aid, memory), parameter, memory)
}

// Whether there is such an applet, and it is the other one.
fn are_one(applet: Option<AppletNumber>, other: Option<AppletNumber>) -> bool
    ensures { result ≡ are_one applet other }
{
    match (applet, other) {
        (Some(a), Some(b)) => a.0 == b.0,
        _ => false,
    }
}

/// `JCSystem.isAppletActive`: whether the selected applet has this AID; false for null.
#[tactic(auto, unfolding(crate::specs::System::Sharing::jc_system_is_applet_active))]
pub(crate) fn jc_system_is_applet_active<S: WordStore>(
    args: &[Cell],
    memory: &Memory<S>,
    linked: &Linked,
) -> Result<NativeResult, StepExit>
    requires up { memory.now.heap.down ≡ false }
    ensures { Executes (jc_system_is_applet_active args.now linked.now memory.now) memory.now
        (after_call result memory.now) }
{
    let aid = reference_argument(args, 0)?;
    if aid.is_null() {
        return Ok(boolean(false));
    }
    let Some(facts) = memory.header(aid) else {
        return Err(StepExit::End(Outcome::Fault));
    };
    let class = linked.platform().class_word(PlatformClass::Aid);
    if !is_instance_of(facts, class, linked) {
        return Err(StepExit::End(Outcome::Fault));
    }
    let selected = memory.registers().selected;
    Ok(boolean(are_one(applet_by(aid, memory), selected)))
}
