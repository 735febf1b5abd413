//! Whether an applet may be registered.
ghost use Rattle.std.specs.Prelude.{◌≡◌, ◌<◌, false, true, IfOk};
ghost use Rattle.jc_words.specs.Layout.{most_applets};
ghost use Rattle.jc_memory.specs.Cells.{header_at};
ghost use Rattle.jc_heap.specs.declared.object.Kind.TheVariants.{Instance};
ghost use Rattle.jc_memory.specs.CommitCapacity.{has_space, lacks_capacity};
ghost use Rattle.jc_api_framework.specs.Applet.Register.{installation_in_transaction, is_inside, is_owned, may_be_added, open_installation, registration_package};
ghost use Rattle.jc_api_framework.specs.Applet.Register.{touched_by_registration, unless_full};

use jc_environment::{AID_CELLS, applet_with_aid};
use jc_frames::FrameExit;
use jc_frames::reasons::{BUFFER_FULL, ILLEGAL_AID, IN_PROGRESS, NO_RESOURCE};
use jc_heap::registry_layout::{ENTRY_INSTANCE, ENTRY_PACKAGE, entry_start};
use jc_heap::{Kind, Place, Touch};
use jc_memory::{Depth, Installation, Memory, has_space, lacks_capacity};
use jc_transient::{OwnerWord, PackageNumber, Ref};
use jc_words::WordStore;
use jc_words::layout::MOST_APPLETS;

// The package of the applet that is being installed, while its `install` has not registered an instance yet.
fn open_installation(installation: Installation) -> Option<PackageNumber>
    ensures { result ≡ open_installation installation }
{
    match installation {
        Installation::Open(package, _) => Some(package),
        _ => None,
    }
}

// The same, in the transaction of its installation.
fn installation_in_transaction<S: WordStore>(memory: &Memory<S>) -> Option<PackageNumber>
    ensures { result ≡ installation_in_transaction memory.now }
{
    if memory.heap().is_open() {
        open_installation(memory.registers().installation)
    } else {
        None
    }
}

// Whether the applet with this number owns the instance.
fn is_owned<S: WordStore>(number: OwnerWord, instance: Ref, memory: &Memory<S>) -> bool
    requires up { memory.now.heap.down ≡ false }
    ensures { result ≡ is_owned number (header_at memory.now instance) }
{
    match memory.header(instance) {
        Some(facts) => facts.owner() == number,
        None => false,
    }
}

// Whether there is no applet with this AID, a place for one more, and the instance is its own.
fn may_be_added<S: WordStore>(aid: &[u8], instance: Ref, memory: &Memory<S>) -> bool
    requires up { memory.now.heap.down ≡ false }
    ensures { result ≡ may_be_added memory.now aid.now instance }
{
    if applet_with_aid(memory, aid).is_some() {
        return false;
    }
    let applets = memory.heap().applets();
    applets < MOST_APPLETS && is_owned(OwnerWord(applets + 1), instance, memory)
}

// Whether the applet has begun a transaction of its own.
fn is_inside(depth: Depth) -> bool
    ensures { result ≡ is_inside depth }
{
    match depth {
        Depth::Outside => false,
        Depth::Inside => true,
    }
}

// The words that a registration changes, where this many applets are there before: the heap's end, the cells of the new
// AID, and the entry of the registry with the number of applets.
fn touched_by_registration(applets: u16) -> [Touch; 14]
    requires { applets < most_applets }
    ensures { result ≡ touched_by_registration applets }
{
    let first = entry_start(applets);
    [
        Touch::HeapEnd,
        Touch::NewCell(0),
        Touch::NewCell(1),
        Touch::NewCell(2),
        Touch::NewCell(3),
        Touch::NewCell(4),
        Touch::NewCell(5),
        Touch::NewCell(6),
        Touch::NewCell(7),
        Touch::NewCell(8),
        Touch::Place(Place::Registry(first)),
        Touch::Place(Place::Registry(first + ENTRY_PACKAGE)),
        Touch::Place(Place::Registry(first + ENTRY_INSTANCE)),
        Touch::Place(Place::AppletCount),
    ]
}

// There is space and room for all that is written.
#[tactic(auto, unfolding(jc_heap::specs::Heap::cell_address))]
fn unless_full<S: WordStore>(
    package_number: PackageNumber,
    memory: &Memory<S>,
) -> Result<PackageNumber, FrameExit>
    requires up { memory.now.heap.down ≡ false }
    requires few { memory.now.heap.now.counts.1 < most_applets }
    ensures asked { result ≡ unless_full memory.now package_number }
    ensures space { IfOk result (λ p. has_space memory.now Instance 9 ≡ true) }
    ensures room { IfOk result (λ p. lacks_capacity memory.now
        (touched_by_registration memory.now.heap.now.counts.1) ≡ false) }
{
    if !has_space(memory, Kind::Instance, AID_CELLS) {
        return Err(FrameExit::Throw(NO_RESOURCE));
    }
    let touches = touched_by_registration(memory.heap().applets());
    if lacks_capacity(memory, &touches) {
        return Err(FrameExit::Throw(BUFFER_FULL));
    }
    Ok(package_number)
}

/// The package in which an applet with this AID and this instance may be registered; else what throws.
#[tactic(auto, unfolding(crate::specs::Applet::Register::registration_package))]
pub(crate) fn registration_package<S: WordStore>(
    aid: &[u8],
    instance: Ref,
    memory: &Memory<S>,
) -> Result<PackageNumber, FrameExit>
    requires up { memory.now.heap.down ≡ false }
    ensures asked { result ≡ registration_package memory.now aid.now instance }
    ensures open { IfOk result (λ p. memory.now.heap.begun ≡ true) }
    ensures few { IfOk result (λ p. memory.now.heap.now.counts.1 < most_applets) }
    ensures space { IfOk result (λ p. has_space memory.now Instance 9 ≡ true) }
    ensures room { IfOk result (λ p. lacks_capacity memory.now
        (touched_by_registration memory.now.heap.now.counts.1) ≡ false) }
{
    let Some(package) = installation_in_transaction(memory) else {
        return Err(FrameExit::Throw(ILLEGAL_AID));
    };
    if !may_be_added(aid, instance, memory) {
        return Err(FrameExit::Throw(ILLEGAL_AID));
    }
    if is_inside(memory.registers().depth) {
        return Err(FrameExit::Throw(IN_PROGRESS));
    }
    unless_full(package, memory)
}
