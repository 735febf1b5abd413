//! A method of an applet runs at the runtime environment's call.
ghost use Rattle.std.specs.Prelude.{◌≡◌, false};
ghost use Rattle.jc_memory.specs.Programs.{Executes};
ghost use Rattle.jc_heap.specs.Completions.{after_step};
ghost use Rattle.jc_dispatch.specs.Phase.{applet_method_call, default_of, instance_of, method_named, registers_idle, method_run, registers_for};

use jc_cap::pool::VirtualToken;
use jc_environment::instance_of_applet;
use jc_frames::{Cell, Frames, Outcome};
use jc_interp::attacks::Budget;
use jc_interp::begin;
use jc_interp::run::run_methods;
use jc_linker::linked::Linked;
use jc_linker::target::Method;
use jc_memory::{Memory, Notes, Phase};
use jc_platform::names::{AppletsMethod, PlatformMethod};
use jc_transient::{AppletNumber, Owner, Ref};
use jc_words::{StoreDown, WordStore};

/// Code that the runtime environment calls: its place in a package, its arguments, and for whom it runs.
#[derive(Clone, Copy)]
pub(crate) struct CodeCall<'a> {
    pub(crate) package_number: u8,
    pub(crate) offset: u16,
    pub(crate) arguments: &'a [Cell],
    pub(crate) owner: Owner,
}

/// A method of an applet that it calls: its name, the applet's instance, its arguments, and for whom it runs.
#[derive(Clone, Copy)]
pub(crate) struct AppletCall<'a> {
    pub(crate) name: PlatformMethod,
    pub(crate) instance: Ref,
    pub(crate) arguments: &'a [Cell],
    pub(crate) owner: Owner,
}

/// Runs a method for an owner, in frames that may be those of an earlier run. The answer is what is left of the command's instructions, and
/// how the method ended.
#[tactic(auto, unfolding(crate::specs::Phase::method_run), using(jc_memory::proofs::ProgramLemmas::in_two_steps))]
#[inline(always)]
pub(crate) fn run_for<S: WordStore>(
    budget: &Budget,
    call: CodeCall<'_>,
    frames: &mut Frames,
    memory: &mut Memory<S>,
    linked: &Linked,
) -> Result<(u32, Outcome), StoreDown>
    requires up { memory.old.heap.down ≡ false }
    ensures { Executes (method_run budget.now linked.now call.entry.package_number call.entry.offset
        call.entry.arguments.now call.entry.owner memory.old) memory.old
        (after_step result memory.new) }
{
    let CodeCall {
        package_number,
        offset,
        arguments,
        owner,
    } = call;
    let begun = begin(linked, package_number, offset, arguments, frames);
    let Ok(()) = begun else {
        return Ok((budget.left, Outcome::Fault));
    };
    memory.set_owners(owner, Owner::Runtime);
    let end = run_methods(budget, frames, memory, linked)?;
    memory.set_owners(Owner::Runtime, Owner::Runtime);
    Ok(end)
}

/// The instance of an applet; null where no applet has the number.
pub(crate) fn instance_of<S: WordStore>(applet: AppletNumber, memory: &Memory<S>) -> Ref
    requires up { memory.now.heap.down ≡ false }
    ensures { result ≡ instance_of memory.now applet.0 }
{
    match instance_of_applet(memory, applet) {
        Some(instance) => instance,
        None => Ref::null(),
    }
}

// The method that an applet's class has under a name of the platform's class Applet.
#[tactic(auto, unfolding(crate::specs::Phase::method_named))]
#[inline(always)]
fn method_named<S: WordStore>(
    name: PlatformMethod,
    applet: Ref,
    memory: &Memory<S>,
    linked: &Linked,
) -> Option<Method>
    requires up { memory.now.heap.down ≡ false }
    ensures { result ≡ method_named linked.now memory.now applet name }
{
    let facts = memory.header(applet)?;
    let token = linked.platform().method_token(name);
    linked.method_at(facts.class(), 0, VirtualToken::Public(token))
}

// Notes which method of an applet begins, where notes are kept. Of the one before nothing is said any more.
#[inline(always)]
fn note_phase(name: PlatformMethod, notes: &Notes) {
    if notes.are_kept() {
        note_kept_phase(name, notes);
    }
}

#[cold]
#[inline(never)]
fn note_kept_phase(name: PlatformMethod, notes: &Notes) {
    notes.forget();
    match name {
        PlatformMethod::Applets(AppletsMethod::AppletSelect) => notes.phase(Phase::Select),
        PlatformMethod::Applets(AppletsMethod::AppletDeselect) => notes.phase(Phase::Deselect),
        PlatformMethod::Applets(AppletsMethod::AppletProcess) => notes.phase(Phase::Process),
        _ => {}
    }
}

// What the platform's class Applet does itself.
fn default_of(name: PlatformMethod) -> Outcome
    ensures { result ≡ default_of name }
{
    match name {
        PlatformMethod::Applets(AppletsMethod::AppletSelect) => Outcome::Short(1),
        PlatformMethod::Applets(AppletsMethod::AppletDeselect) => Outcome::Void,
        _ => Outcome::Fault,
    }
}

/// Calls a method of an applet by its name, in frames that may be those of an earlier run.
#[tactic(auto, unfolding(crate::specs::Phase::applet_method_call))]
#[inline(always)]
pub(crate) fn call_applet_method<S: WordStore>(
    budget: &Budget,
    call: AppletCall<'_>,
    frames: &mut Frames,
    memory: &mut Memory<S>,
    linked: &Linked,
) -> Result<(u32, Outcome), StoreDown>
    requires up { memory.old.heap.down ≡ false }
    ensures { Executes (applet_method_call budget.now linked.now call.entry.name call.entry.instance
        call.entry.arguments.now call.entry.owner memory.old) memory.old
        (after_step result memory.new) }
{
    let AppletCall {
        name,
        instance,
        arguments,
        owner,
    } = call;
    note_phase(name, memory.notes());
    match method_named(name, instance, memory, linked) {
        None => Ok((budget.left, Outcome::Fault)),
        Some(Method::Native(native)) => Ok((budget.left, default_of(native))),
        Some(
            Method::Code {
                package_number,
                offset,
            },
        ) => {
            let call = CodeCall {
                package_number,
                offset,
                arguments,
                owner,
            };
            run_for(budget, call, frames, memory, linked)
        }
    }
}
