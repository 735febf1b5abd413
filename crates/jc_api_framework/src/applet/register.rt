//! An applet is registered.
ghost use Rattle.std.specs.Prelude.{◌≡◌, ◌<◌, ◌≤◌, false, true, None, List, ◌++◌, length, OnOk};
ghost use Rattle.jc_words.specs.Layout.{most_applets};
ghost use Rattle.jc_heap.specs.declared.object.Kind.TheVariants.{Instance};
ghost use Rattle.jc_heap.specs.Heap.{facts, IsObject};
ghost use Rattle.jc_memory.specs.Programs.{Executes};
ghost use Rattle.jc_heap.specs.Completions.{after_step};
ghost use Rattle.jc_memory.specs.CommitCapacity.{has_space, lacks_capacity, cells_update, KeepsRest};
ghost use Rattle.jc_world.specs.NativeCalls.{after_call};
ghost use Rattle.jc_api_framework.specs.Aid.Cells.{cells_of_aid};
ghost use Rattle.jc_heap.specs.declared.touch.Touch.{Touch};
ghost use Rattle.jc_heap.specs.Touch.{touched_cells};
ghost use Rattle.jc_api_framework.specs.Applet.Register.{aid_object_creation, registry_entry, registration, touched_by_entry, touched_by_registration};

use crate::applet::register_checks::registration_package;
use crate::cells_of_aid;
use jc_environment::AID_CELLS;
use jc_heap::{AppletEntry, Kind};
use jc_linker::linked::Linked;
use jc_memory::{
    Installation, Memory, NewObject, Registers, make_within_capacity, register_within_capacity,
    set_within_capacity,
};
use jc_platform::names::PlatformClass;
use jc_transient::{Owner, PackageNumber, Ref};
use jc_words::{StoreDown, WordStore};
use jc_world::{NativeResult, StepExit};

// Sets the cells of a new AID object.
fn fill_aid<S: WordStore>(memory: &mut Memory<S>, object: Ref, aid: &[u8]) -> Result<(), StoreDown>
    requires up { memory.old.heap.down ≡ false }
    requires there { IsObject memory.old.heap.now object }
    requires kind { (facts memory.old.heap.now object).kind ≡ Instance }
    requires persistent { (facts memory.old.heap.now object).event ≡ None }
    requires cells { (facts memory.old.heap.now object).length ≡ 9 }
    requires few { length aid.now ≤ 16 }
    requires room { lacks_capacity memory.old (touched_cells object 0 9) ≡ false }
    ensures made { Executes (cells_update object 0 (cells_of_aid aid.now)) memory.old
        (after_step result memory.new) }
    ensures left { OnOk result ((more : List Touch)
        → lacks_capacity memory.old (touched_cells object 0 9 ++ more) ≡ false
        → lacks_capacity memory.new more ≡ false) }
    ensures rest { OnOk result (KeepsRest memory.old memory.new) }
{
    set_within_capacity(memory, object, 0, &cells_of_aid(aid))
}

// Makes an AID object of the runtime environment.
#[tactic(auto, unfolding(crate::specs::Applet::Register::aid_object_creation))]
fn make_aid<S: WordStore>(
    memory: &mut Memory<S>,
    linked: &Linked,
    aid: &[u8],
) -> Result<Ref, StoreDown>
    requires up { memory.old.heap.down ≡ false }
    requires few { length aid.now ≤ 16 }
    requires space { has_space memory.old Instance 9 ≡ true }
    requires room { lacks_capacity memory.old
        (touched_by_registration memory.old.heap.now.counts.1) ≡ false }
    ensures made { Executes (aid_object_creation linked.now aid.now memory.old) memory.old
        (after_step result memory.new) }
    ensures left { OnOk result (lacks_capacity memory.new
        (touched_by_entry memory.old.heap.now.counts.1) ≡ false) }
    ensures rest { OnOk result (KeepsRest memory.old memory.new) }
{
    let object = NewObject {
        kind: Kind::Instance,
        event: None,
        class: linked.platform().class_word(PlatformClass::Aid),
        owner: Owner::Runtime,
        length: AID_CELLS,
    };
    let made = make_within_capacity(memory, object)?;
    fill_aid(memory, made, aid)?;
    Ok(made)
}

// Enters an applet into the registry, which ends the transaction of its installation.
#[tactic(auto, unfolding(crate::specs::Applet::Register::registry_entry), using(jc_memory::proofs::ProgramLemmas::in_two_steps))]
fn enter<S: WordStore>(
    memory: &mut Memory<S>,
    entry: AppletEntry,
    package_number: PackageNumber,
) -> Result<(), StoreDown>
    requires up { memory.old.heap.down ≡ false }
    requires few { memory.old.heap.now.counts.1 < most_applets }
    requires open { memory.old.heap.begun ≡ true }
    requires room { lacks_capacity memory.old
        (touched_by_entry memory.old.heap.now.counts.1) ≡ false }
    ensures { Executes (registry_entry entry package_number memory.old) memory.old
        (after_step result memory.new) }
{
    register_within_capacity(memory, entry)?;
    let registers = memory.registers();
    memory.commit()?;
    memory.set_registers(Registers {
        installation: Installation::Registered(package_number),
        ..registers
    });
    Ok(())
}

/// Registers the instance with this AID, if this is allowed: makes the AID object, and enters the applet.
#[tactic(auto, unfolding(crate::specs::Applet::Register::registration))]
pub(crate) fn register<S: WordStore>(
    aid: &[u8],
    instance: Ref,
    memory: &mut Memory<S>,
    linked: &Linked,
) -> Result<NativeResult, StepExit>
    requires up { memory.old.heap.down ≡ false }
    requires few { length aid.now ≤ 16 }
    ensures { Executes (registration aid.now instance linked.now memory.old) memory.old
        (after_call result memory.new) }
{
    let package = registration_package(aid, instance, memory)?;
    let made = make_aid(memory, linked, aid)?;
    let entry = AppletEntry {
        aid: made,
        package: u16::from(package.0),
        instance,
    };
    enter(memory, entry, package)?;
    Ok(NativeResult::ReturnVoid)
}
