//! The commands that an applet answers.
ghost use Rattle.std.specs.Prelude.{OnOk, ◌≡◌, false};
ghost use Rattle.jc_memory.specs.Programs.{Executes};
ghost use Rattle.jc_heap.specs.Completions.{after_step};
ghost use Rattle.jc_dispatch.specs.Select.{process_command, with_command};

use crate::applet_result::{AppletResult, result_of_run};
use crate::buffer::{apdu_object, fill_header};
use crate::closing::close;
use crate::phase::{AppletCall, call_applet_method, instance_of};
use jc_frames::{Cell, Frames};
use jc_interp::attacks::Budget;
use jc_linker::linked::Linked;
use jc_memory::{ApduPhase, ApduState, Memory, Registers};
use jc_platform::names::{AppletsMethod, PlatformMethod};
use jc_transient::{AppletNumber, Owner};
use jc_words::{StoreDown, WordStore};

/// A command for an applet, which begins to answer it.
#[derive(Clone, Copy)]
pub struct AppletCommand {
    pub applet: AppletNumber,
    /// Whether it is the command that selected the applet.
    pub selecting: bool,
    /// How many bytes it expects.
    pub expected: u16,
}

fn with_command(expected: u16, selecting: bool, registers: Registers) -> Registers
    ensures { result ≡ with_command expected selecting registers }
{
    Registers {
        selecting,
        reselecting: selecting && registers.reselecting,
        apdu: ApduState {
            expected,
            phase: ApduPhase::Waiting,
        },
        ..registers
    }
}

/// An applet answers the command that was begun, in frames that may be those of an earlier run.
#[tactic(auto, unfolding(crate::specs::Select::process_command), using(jc_memory::proofs::ProgramLemmas::in_two_steps))]
#[inline(always)]
pub fn process<S: WordStore>(
    budget: &Budget,
    command: AppletCommand,
    frames: &mut Frames,
    memory: &mut Memory<S>,
    linked: &Linked,
) -> Result<AppletResult, StoreDown>
    requires up { memory.old.heap.down ≡ false }
    ensures does { Executes (process_command budget.now linked.now command.applet command.selecting
        command.expected memory.old) memory.old (after_step result memory.new) }
    ensures outside { OnOk result (memory.new.heap.begun ≡ false) }
{
    let AppletCommand {
        applet,
        selecting,
        expected,
    } = command;
    let registers = memory.registers();
    memory.set_registers(with_command(expected, selecting, registers));
    fill_header(memory);
    let instance = instance_of(applet, memory);
    let arguments = [
        Cell::Reference(instance),
        Cell::Reference(apdu_object(memory)),
    ];
    let call = AppletCall {
        name: PlatformMethod::Applets(AppletsMethod::AppletProcess),
        instance,
        arguments: &arguments,
        owner: Owner::Applet(applet),
    };
    let (_, outcome) = call_applet_method(budget, call, frames, memory, linked)?;
    let ending = result_of_run(outcome, memory, linked);
    close(memory)?;
    Ok(ending)
}

/// The same out of line, for commands that come seldom.
#[inline(never)]
pub fn process_apart<S: WordStore>(
    budget: &Budget,
    command: AppletCommand,
    frames: &mut Frames,
    memory: &mut Memory<S>,
    linked: &Linked,
) -> Result<AppletResult, StoreDown>
    requires up { memory.old.heap.down ≡ false }
    ensures does { Executes (process_command budget.now linked.now command.applet command.selecting
        command.expected memory.old) memory.old (after_step result memory.new) }
    ensures outside { OnOk result (memory.new.heap.begun ≡ false) }
{
    process(budget, command, frames, memory, linked)
}
