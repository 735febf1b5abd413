//! Selecting an applet or the manager.
ghost use Rattle.std.specs.Prelude.{OnOk, ◌≡◌, false};
ghost use Rattle.jc_memory.specs.Programs.{Executes};
ghost use Rattle.jc_heap.specs.Completions.{after_step};
ghost use Rattle.jc_dispatch.specs.Select.{applet_left, deselection, is_same_applet, manager_selection, applet_selection, with_next};

use crate::applet_result::{AppletResult, is_select_accepted};
use crate::closing::close;
use crate::phase::{AppletCall, call_applet_method, instance_of};
use crate::process::{AppletCommand, process_apart};
use jc_frames::{Cell, Frames};
use jc_interp::attacks::Budget;
use jc_linker::linked::Linked;
use jc_memory::{Memory, Registers};
use jc_platform::names::{AppletsMethod, PlatformMethod};
use jc_transient::{AppletNumber, ClearEvent, Owner};
use jc_words::{StoreDown, WordStore};

fn is_same_applet(next: Option<AppletNumber>, selected: Option<AppletNumber>) -> bool
    ensures { result ≡ is_same_applet next selected }
{
    match (next, selected) {
        (Some(next), Some(selected)) => next.0 == selected.0,
        _ => false,
    }
}

fn with_next(next: Option<AppletNumber>, registers: Registers) -> Registers
    ensures { result ≡ with_next next registers }
{
    Registers {
        reselecting: is_same_applet(next, registers.selected),
        ..registers
    }
}

// An applet is left: its `deselect` runs, and what is cleared at a deselection is. The answer is what is left of the
// command's instructions.
#[tactic(auto, unfolding(crate::specs::Select::applet_left), using(jc_memory::proofs::ProgramLemmas::in_two_steps))]
fn leave_applet<S: WordStore>(
    budget: Budget,
    applet: Option<AppletNumber>,
    frames: &mut Frames,
    memory: &mut Memory<S>,
    linked: &Linked,
) -> Result<u32, StoreDown>
    requires up { memory.old.heap.down ≡ false }
    requires outside { memory.old.heap.begun ≡ false }
    ensures does { Executes (applet_left budget linked.now applet memory.old) memory.old
        (after_step result memory.new) }
    ensures outside { OnOk result (memory.new.heap.begun ≡ false) }
{
    let Some(applet) = applet else {
        memory.clear(ClearEvent::Deselect);
        return Ok(budget.left);
    };
    let instance = instance_of(applet, memory);
    let call = AppletCall {
        name: PlatformMethod::Applets(AppletsMethod::AppletDeselect),
        instance,
        arguments: &[Cell::Reference(instance)],
        owner: Owner::Applet(applet),
    };
    let (rest, _) = call_applet_method(&budget, call, frames, memory, linked)?;
    close(memory)?;
    memory.clear(ClearEvent::Deselect);
    Ok(rest)
}

// The selected applet is left for the next one, or for the manager. The answer is what is left of the command's
// instructions.
#[tactic(auto, unfolding(crate::specs::Select::deselection))]
fn leave<S: WordStore>(
    budget: Budget,
    next: Option<AppletNumber>,
    frames: &mut Frames,
    memory: &mut Memory<S>,
    linked: &Linked,
) -> Result<u32, StoreDown>
    requires up { memory.old.heap.down ≡ false }
    requires outside { memory.old.heap.begun ≡ false }
    ensures does { Executes (deselection budget linked.now next memory.old) memory.old
        (after_step result memory.new) }
    ensures outside { OnOk result (memory.new.heap.begun ≡ false) }
{
    let registers = with_next(next, memory.registers());
    memory.set_registers(registers);
    leave_applet(budget, registers.selected, frames, memory, linked)
}

/// SELECT of an applet by a command that expects this many bytes: the selected one is deselected, the new one's
/// `select` runs, and where it accepts, it answers the command.
#[tactic(auto, unfolding(crate::specs::Select::applet_selection), using(jc_memory::proofs::ProgramLemmas::in_two_steps))]
pub fn select<S: WordStore>(
    budget: Budget,
    applet: AppletNumber,
    expected: u16,
    frames: &mut Frames,
    memory: &mut Memory<S>,
    linked: &Linked,
) -> Result<AppletResult, StoreDown>
    requires up { memory.old.heap.down ≡ false }
    requires outside { memory.old.heap.begun ≡ false }
    ensures does { Executes (applet_selection budget linked.now applet expected memory.old)
        memory.old (after_step result memory.new) }
    ensures outside { OnOk result (memory.new.heap.begun ≡ false) }
{
    let rest = leave(budget, Some(applet), frames, memory, linked)?;
    let registers = memory.registers();
    memory.set_registers(Registers {
        selected: Some(applet),
        ..registers
    });
    let instance = instance_of(applet, memory);
    let call = AppletCall {
        name: PlatformMethod::Applets(AppletsMethod::AppletSelect),
        instance,
        arguments: &[Cell::Reference(instance)],
        owner: Owner::Applet(applet),
    };
    let budget = budget.with_left(rest);
    let (rest, outcome) = call_applet_method(&budget, call, frames, memory, linked)?;
    close(memory)?;
    if is_select_accepted(outcome) {
        let command = AppletCommand {
            applet,
            selecting: true,
            expected,
        };
        return process_apart(&budget.with_left(rest), command, frames, memory, linked);
    }
    let registers = memory.registers();
    memory.set_registers(Registers {
        selected: None,
        ..registers
    });
    Ok(AppletResult::NotSelected)
}

/// Selects the manager: the selected applet is left, and none is selected.
#[tactic(auto, unfolding(crate::specs::Select::manager_selection), using(jc_memory::proofs::ProgramLemmas::in_two_steps))]
pub fn select_manager<S: WordStore>(
    budget: Budget,
    frames: &mut Frames,
    memory: &mut Memory<S>,
    linked: &Linked,
) -> Result<AppletResult, StoreDown>
    requires up { memory.old.heap.down ≡ false }
    requires outside { memory.old.heap.begun ≡ false }
    ensures does { Executes (manager_selection budget linked.now memory.old) memory.old
        (after_step result memory.new) }
    ensures outside { OnOk result (memory.new.heap.begun ≡ false) }
{
    leave(budget, None, frames, memory, linked)?;
    let registers = memory.registers();
    memory.set_registers(Registers {
        selected: None,
        ..registers
    });
    Ok(AppletResult::Done)
}
