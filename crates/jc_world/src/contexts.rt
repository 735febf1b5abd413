//! Contexts: to whom objects belong, for whom code runs, and what the firewall answers.
ghost use Rattle.std.specs.Prelude.{◌≡◌, ◌↔◌, IsTrue, false, true};
ghost use Rattle.jc_firewall.specs.Situation.{is_live_transient};
ghost use Rattle.jc_firewall.specs.declared.access.Access.{Access};
ghost use Rattle.jc_firewall.specs.declared.access.Access.TheVariants.{ArrayElement};
ghost use Rattle.jc_firewall.specs.declared.decide.Decision.TheVariants.{Allow, Switch};
ghost use Rattle.jc_firewall.specs.declared.subject.Context.TheVariants.{Jcre};
ghost use Rattle.jc_world.specs.Objects.{is_instance};
ghost use Rattle.jc_transient.specs.Owners.{owner_number, owner_of};
ghost use Rattle.jc_memory.specs.State.{MemoryState};
ghost use Rattle.jc_linker.specs.Values.{Packages};
ghost use Rattle.jc_world.specs.Contexts.{firewall_check, context_of, firewall_decision, needs_shareable, designation_of, installed_package};
ghost use Rattle.jc_world.specs.Contexts.{IsOwn, SelectedRuns, has_deselect_event, package_of_applet, selected_context, is_shareable_instance, situation_of, subject_of};

use crate::objects::is_instance;
use jc_firewall::access::Access;
use jc_firewall::decide::{Decision, decide};
use jc_firewall::subject::{Context, Designation, Subject};
use jc_frames::{Exception, FrameExit};
use jc_heap::registry_layout::{ENTRY_PACKAGE, entry_start};
use jc_heap::{Facts, Kind};
use jc_linker::linked::Linked;
use jc_memory::{Denial, Installation, Memory, Registers};
use jc_platform::names::PlatformClass;
use jc_transient::{ClassWord, ClearEvent, Owner, OwnerWord, RUNTIME_ENVIRONMENT};
use jc_words::WordStore;
use jc_words::layout::MOST_APPLETS;

// The package of the applet that is being installed; 0, where none is.
fn installed_package(installation: Installation) -> u16
    ensures { result ≡ installed_package installation }
{
    match installation {
        Installation::Idle => 0,
        Installation::Open(package, _) => u16::from(package.0),
        Installation::Registered(package) => u16::from(package.0),
    }
}

/// The package of an applet instance: the registry says it, and of the applet that is not registered
/// yet its installation.
#[tactic(auto, unfolding(crate::specs::Contexts::package_of_applet))]
pub fn package_of_applet<S: WordStore>(applet: u8, memory: &Memory<S>) -> u16
    requires up { memory.now.heap.down ≡ false }
    ensures { result ≡ package_of_applet memory.now applet }
{
    let heap = memory.heap();
    let number = u16::from(applet);
    if number != 0 && number <= MOST_APPLETS && number <= heap.applets() {
        heap.registry(entry_start(number - 1) + ENTRY_PACKAGE)
    } else {
        installed_package(memory.registers().installation)
    }
}

/// The context of an owner: that of its package, or the runtime environment's.
pub fn context_of<S: WordStore>(owner: Owner, memory: &Memory<S>) -> Context
    requires up { memory.now.heap.down ≡ false }
    ensures { result ≡ context_of memory.now owner }
{
    match owner {
        Owner::Runtime => Context::Jcre,
        Owner::Applet(applet) => {
            Context::Package((package_of_applet(applet.0, memory) % 256) as u8)
        }
        Owner::Package(package) => Context::Package(package.0),
    }
}

/// The context of the selected applet; the applet that is being installed counts as selected.
pub fn selected_context<S: WordStore>(memory: &Memory<S>) -> Context
    requires up { memory.now.heap.down ≡ false }
    ensures { result ≡ selected_context memory.now }
{
    let registers = memory.registers();
    match registers.installation {
        Installation::Idle => match registers.selected {
            None => Context::Jcre,
            Some(applet) => context_of(Owner::Applet(applet), memory),
        },
        Installation::Open(package, _) => Context::Package(package.0),
        Installation::Registered(package) => Context::Package(package.0),
    }
}

fn designation_of(facts: Facts, linked: &Linked) -> Designation
    ensures { result ≡ designation_of linked.now facts }
{
    if facts.owner() != RUNTIME_ENVIRONMENT {
        return Designation::Ordinary;
    }
    match facts.kind {
        Kind::Instance => {
            if facts.class() == linked.platform().class_word(PlatformClass::Aid) {
                Designation::PermanentEntryPoint
            } else {
                Designation::TemporaryEntryPoint
            }
        }
        _ => Designation::GlobalArray,
    }
}

fn is_shareable_instance(facts: Facts, linked: &Linked) -> bool
    ensures { result ≡ is_shareable_instance linked.now facts.kind facts.class }
{
    match facts.kind {
        Kind::Instance => linked.is_shareable(facts.class()),
        _ => false,
    }
}

#[inline(always)]
const fn has_deselect_event(event: Option<ClearEvent>) -> bool
    ensures { result ≡ has_deselect_event event }
{
    match event {
        None => false,
        Some(ClearEvent::Reset) => false,
        Some(ClearEvent::Deselect) => true,
    }
}

// Whether the rules on an access ask for the object's shareable interfaces.
const fn needs_shareable(access: Access) -> bool
    ensures { result ≡ needs_shareable access }
{
    match access {
        Access::ShareableInterfaceCall => true,
        Access::CastToShareableInterface => true,
        _ => false,
    }
}

// What the firewall sees of an object with this header, but for its shareable interfaces.
#[tactic(auto, unfolding(crate::specs::Contexts::subject_of))]
fn subject_with<S: WordStore>(
    shared: bool,
    facts: Facts,
    memory: &Memory<S>,
    linked: &Linked,
) -> Subject
    requires up { memory.now.heap.down ≡ false }
    ensures { result ≡ record (subject_of linked.now memory.now facts)
        { has_shareable_interface = shared } }
{
    Subject {
        owner: context_of(Owner::of(facts.owner()), memory),
        designation: designation_of(facts, linked),
        has_shareable_interface: shared,
        is_clear_on_deselect: has_deselect_event(facts.event),
    }
}

/// What the firewall sees of an object with this header.
#[tactic(auto, unfolding(crate::specs::Contexts::subject_of))]
pub fn subject_of<S: WordStore>(facts: Facts, memory: &Memory<S>, linked: &Linked) -> Subject
    requires up { memory.now.heap.down ≡ false }
    ensures { result ≡ subject_of linked.now memory.now facts }
{
    subject_with(is_shareable_instance(facts, linked), facts, memory, linked)
}

// The word in a header names this owner.
#[inline(always)]
const fn is_owner(owner: Owner, word: OwnerWord) -> bool
    ensures { IsTrue result ↔ ((word ≡ owner_number owner) × (owner_of word ≡ owner)) }
{
    match owner {
        Owner::Runtime => word.0 == 0,
        Owner::Applet(applet) => word.0 != 0 && word.0 == applet.0 as u16,
        Owner::Package(package) => word.0 == 256 + package.0 as u16,
    }
}

// It is the runtime environment.
#[inline(always)]
const fn is_runtime(owner: Owner) -> bool
    ensures { result ≡ false → owner ≡ Owner.Runtime → ⊥ }
{
    match owner {
        Owner::Runtime => true,
        _ => false,
    }
}

// Code of the selected applet runs.
#[inline(always)]
const fn is_selected(registers: Registers) -> bool
    ensures both { IsTrue result ↔ SelectedRuns registers }
    ensures context { (m : MemoryState) → m.registers ≡ registers → result ≡ true
        → selected_context m ≡ context_of m registers.active }
{
    let Installation::Idle = registers.installation else {
        return false;
    };
    match (registers.active, registers.selected) {
        (Owner::Applet(active), Some(selected)) => active.0 == selected.0,
        _ => false,
    }
}

// The object is not cleared at a deselection, or code of the selected applet runs.
#[inline(always)]
#[tactic(auto, using(crate::proofs::Free::same), unfolding(crate::specs::Contexts::situation_of, crate::specs::Contexts::subject_of))]
const fn has_time(facts: Facts, registers: Registers) -> bool
    ensures both { IsTrue result ↔ (has_deselect_event facts.event ≡ true → SelectedRuns registers) }
    ensures live { (p : Packages) (m : MemoryState) → m.registers ≡ registers → result ≡ true
        → is_live_transient (situation_of p m facts) ≡ true }
{
    !has_deselect_event(facts.event) || is_selected(registers)
}

// It is an access to elements of a global array.
#[inline(always)]
const fn is_shared(access: Access, facts: Facts) -> bool
    ensures { result ≡ true → (access ≡ ArrayElement) × (facts.owner ≡ 0)
        × (is_instance facts.kind ≡ false) }
{
    match access {
        Access::ArrayElement => facts.owner().0 == 0 && !is_instance(facts.kind),
        _ => false,
    }
}

// No rule refuses the access: the object belongs to the owner for whom code runs, or it is to an element of a global
// array.
#[inline(always)]
#[tactic(auto, using(crate::proofs::Free::own_free, crate::proofs::Free::global_free))]
const fn is_free(access: Access, facts: Facts, registers: Registers) -> bool
    ensures { (p : Packages) (m : MemoryState) → m.registers ≡ registers → result ≡ true
        → firewall_decision access p m facts ≡ Allow }
{
    has_time(facts, registers)
        && (is_owner(registers.active, facts.owner()) || is_shared(access, facts))
}

// It is a virtual call of an applet's code on an object of the runtime environment, which no deselection clears.
#[inline(always)]
#[tactic(auto, using(crate::proofs::Services::switched))]
const fn is_service_call(access: Access, facts: Facts, registers: Registers) -> bool
    ensures { (p : Packages) (m : MemoryState) → m.registers ≡ registers → result ≡ true
        → firewall_decision access p m facts ≡ Switch Jcre }
{
    let Access::VirtualCall = access else {
        return false;
    };
    !is_runtime(registers.active) && facts.owner().0 == 0 && !has_deselect_event(facts.event)
}

// What the rules answer to an access to an object with this kind, event, class and owner.
#[inline(never)]
#[tactic(auto, using(crate::proofs::Unasked::unasked), unfolding(crate::specs::Contexts::firewall_decision, crate::specs::Contexts::situation_of))]
fn judgement<S: WordStore>(
    access: Access,
    kind: Kind,
    event: Option<ClearEvent>,
    class: ClassWord,
    owner: OwnerWord,
    memory: &Memory<S>,
    linked: &Linked,
) -> Decision
    requires up { memory.now.heap.down ≡ false }
    ensures { result ≡ firewall_decision access linked.now memory.now
        (record {
          kind = kind;
          event = event;
          class = class;
          owner = owner;
          length = 0;
          place = 0;
          packed = false;
        }) }
{
    let facts = Facts::new(kind, event, class, owner, 0, 0);
    let active = context_of(memory.registers().active, memory);
    let selected = selected_context(memory);
    if !needs_shareable(access) {
        let object = subject_with(false, facts, memory, linked);
        let decision = decide(access, active, selected, object);
        return noted(decision, access, active, object.owner, memory);
    }
    let object = subject_of(facts, memory, linked);
    let decision = decide(access, active, selected, object);
    noted(decision, access, active, object.owner, memory)
}

// The decision; a refusal is noted.
fn noted<S: WordStore>(
    decision: Decision,
    access: Access,
    active: Context,
    owner: Context,
    memory: &Memory<S>,
) -> Decision
    ensures { result ≡ decision }
{
    if let Decision::Deny(rule) = decision {
        memory.notes().denial(Denial {
            access,
            rule,
            active,
            owner,
        });
    }
    decision
}

/// Whether the object belongs to the owner for whom code runs, and may be reached now: no rule refuses any access to it.
#[inline(always)]
#[tactic(auto, using(crate::proofs::Free::own_free))]
pub fn is_own<S: WordStore>(facts: Facts, memory: &Memory<S>) -> bool
    ensures both { IsTrue result ↔ IsOwn memory.now.registers facts }
    ensures free { (access : Access) (p : Packages) → result ≡ true
        → firewall_decision access p memory.now facts ≡ Allow }
{
    let registers = memory.registers();
    has_time(facts, registers) && is_owner(registers.active, facts.owner())
}

/// What the firewall answers to an access of the code that runs to an object with this header.
#[inline(always)]
#[tactic(auto, unfolding(crate::specs::Contexts::firewall_decision, crate::specs::Contexts::situation_of, crate::specs::Contexts::subject_of))]
pub fn firewall_decision<S: WordStore>(
    access: Access,
    facts: Facts,
    memory: &Memory<S>,
    linked: &Linked,
) -> Decision
    requires up { memory.now.heap.down ≡ false }
    ensures { result ≡ firewall_decision access linked.now memory.now facts }
{
    if is_free(access, facts, memory.registers()) {
        return Decision::Allow;
    }
    if is_service_call(access, facts, memory.registers()) {
        return Decision::Switch(Context::Jcre);
    }
    judgement(
        access,
        facts.kind,
        facts.event,
        facts.class(),
        facts.owner(),
        memory,
        linked,
    )
}

/// Whether an access is allowed; a refused one throws.
#[inline(always)]
pub fn allow<S: WordStore>(
    access: Access,
    facts: Facts,
    memory: &Memory<S>,
    linked: &Linked,
) -> Result<(), FrameExit>
    requires up { memory.now.heap.down ≡ false }
    ensures { result ≡ firewall_check access linked.now memory.now facts }
{
    match firewall_decision(access, facts, memory, linked) {
        Decision::Allow => Ok(()),
        Decision::Switch(_) => Ok(()),
        Decision::Deny(_) => Err(FrameExit::Throw(Exception::SecurityException)),
    }
}
