//! Installing an applet.
ghost use Rattle.std.specs.Prelude.{OnOk, ◌≡◌, ◌≤◌, ◌<◌, false, length};
ghost use Rattle.jc_words.specs.Layout.{most_applets};
ghost use Rattle.jc_memory.specs.Programs.{Executes};
ghost use Rattle.jc_heap.specs.Completions.{after_step};
ghost use Rattle.jc_dispatch.specs.Install.{applet_installation, installation_end, next_applet, with_installation};

use crate::applet_result::{AppletResult, result_of_run};
use crate::buffer::{apdu_buffer, fill};
use crate::closing::close;
use crate::phase::{CodeCall, run_for};
use jc_frames::{Cell, Frames, Outcome};
use jc_interp::attacks::Budget;
use jc_linker::linked::Linked;
use jc_memory::{ApduPhase, ApduState, Depth, Installation, Memory, Phase, Registers};
use jc_transient::{AppletNumber, ClearEvent, Owner, PackageNumber};
use jc_words::{StoreDown, WordStore};

/// An applet that is to be installed.
#[derive(Clone, Copy)]
pub struct NewApplet<'a> {
    /// Its package.
    pub home: PackageNumber,
    /// The number of its entry in the package's Applet component.
    pub entry: u8,
    /// The place of its `install` method.
    pub offset: u16,
    /// What that method gets, from the first byte of the buffer on.
    pub parameters: &'a [u8],
}

fn with_installation(installation: Installation, registers: Registers) -> Registers
    ensures { result ≡ with_installation installation registers }
{
    Registers {
        installation,
        depth: Depth::Outside,
        selecting: false,
        reselecting: false,
        apdu: ApduState {
            expected: 0,
            phase: ApduPhase::Waiting,
        },
        ..registers
    }
}

// The number that the next applet gets.
fn next_applet<S: WordStore>(memory: &Memory<S>) -> AppletNumber
    requires up { memory.now.heap.down ≡ false }
    requires few { memory.now.heap.now.counts.1 < most_applets }
    ensures { result ≡ next_applet memory.now }
{
    AppletNumber(memory.heap().applets() as u8 + 1)
}

// How an installation ended.
fn installed_by<S: WordStore>(
    installation: Installation,
    outcome: Outcome,
    memory: &Memory<S>,
    linked: &Linked,
) -> AppletResult
    requires up { memory.now.heap.down ≡ false }
    ensures { result ≡ installation_end linked.now memory.now installation outcome }
{
    match installation {
        Installation::Registered(_) => AppletResult::Done,
        Installation::Open(_, _) => match outcome {
            Outcome::Void => AppletResult::NotRegistered,
            other => result_of_run(other, memory, linked),
        },
        Installation::Idle => result_of_run(outcome, memory, linked),
    }
}

/// Installs an applet of a package.
#[tactic(auto, unfolding(crate::specs::Install::applet_installation), using(jc_memory::proofs::ProgramLemmas::in_two_steps))]
pub fn install<S: WordStore>(
    budget: Budget,
    applet: NewApplet<'_>,
    memory: &mut Memory<S>,
    linked: &Linked,
) -> Result<AppletResult, StoreDown>
    requires up { memory.old.heap.down ≡ false }
    requires outside { memory.old.heap.begun ≡ false }
    requires few { memory.old.heap.now.counts.1 < most_applets }
    requires short { length applet.parameters.now ≤ 127 }
    ensures does { Executes (applet_installation budget linked.now applet.entry.home applet.entry.entry
        applet.entry.offset applet.entry.parameters.now memory.old) memory.old
        (after_step result memory.new) }
    ensures outside { OnOk result (memory.new.heap.begun ≡ false) }
{
    let NewApplet {
        home,
        entry,
        offset,
        parameters,
    } = applet;
    memory.notes().phase(Phase::Install);
    let owner = Owner::Applet(next_applet(memory));
    memory.begin();
    let registers = memory.registers();
    memory.set_registers(with_installation(Installation::Open(home, entry), registers));
    fill(parameters, memory);
    let arguments = [
        Cell::Reference(apdu_buffer(memory)),
        Cell::Short(0),
        Cell::Short(parameters.len() as i16),
    ];
    let mut frames = Frames::empty();
    let call = CodeCall {
        package_number: home.0,
        offset,
        arguments: &arguments,
        owner,
    };
    let (_, outcome) = run_for(&budget, call, &mut frames, memory, linked)?;
    let installation = memory.registers().installation;
    let ending = installed_by(installation, outcome, memory, linked);
    close(memory)?;
    memory.clear(ClearEvent::Deselect);
    let registers = memory.registers();
    memory.set_registers(with_installation(Installation::Idle, registers));
    Ok(ending)
}
