//! The runtime environment asks a server for its shareable interface object.
ghost use Rattle.std.specs.Prelude.{◌≡◌, false};
ghost use Rattle.jc_frames.specs.Calls.{call_or_fault};
ghost use Rattle.jc_frames.specs.Frames.{unless_fault};
ghost use Rattle.jc_memory.specs.Programs.{Executes};
ghost use Rattle.jc_world.specs.Instructions.{after_instruction};
ghost use Rattle.jc_instructions.specs.ServerCall.{server_call_by, server_entry, server_call, sharing_method, takes_server_arguments, with_server_arguments};

use crate::enter::{CallSite, Callee, entry_of, registers_in_callee, takes};
use crate::method_component::method_component_of;
use jc_cap::pool::VirtualToken;
use jc_frames::{CallKind, Cell, CodeFault, Entry, Frames, Header, Outcome, header_at};
use jc_linker::linked::Linked;
use jc_linker::target::Method;
use jc_memory::{Memory, Registers};
use jc_platform::names::{AppletsMethod, PlatformMethod};
use jc_transient::{ClassWord, Owner, Ref};
use jc_words::WordStore;
use jc_world::{ServerCall, StepExit};

// `getShareableInterfaceObject`, as the server's class has it.
fn sharing_method(class: ClassWord, linked: &Linked) -> Option<Method>
    ensures { result ≡ sharing_method linked.now class }
{
    let token = linked.platform().method_token(PlatformMethod::Applets(
        AppletsMethod::AppletGetShareableInterfaceObject,
    ));
    linked.method_at(class, 0, VirtualToken::Public(token))
}

// A method that takes three cells.
const fn takes_server_arguments(header: Header) -> bool
    ensures { result ≡ takes_server_arguments header }
{
    takes(3, header)
}

fn server_entry(header: Header, callee: Callee, place: u16, registers: Registers) -> Entry
    ensures { result ≡ server_entry header callee place registers }
{
    let site = CallSite {
        place,
        kind: CallKind::ShareableRequest,
    };
    let entry = entry_of(header, callee, site, registers);
    Entry {
        arguments: 0,
        locals: u16::from(header.locals) + 3,
        ..entry
    }
}

// Begins the frame of the method that is asked.
fn enter_server(asked: &ServerCall, entry: Entry, frames: &mut Frames) -> Result<(), CodeFault>
    ensures { unless_fault result frames.new ≡ with_server_arguments asked.now
        (call_or_fault entry frames.old) }
{
    frames.enter(entry)?;
    frames.store(0, Cell::Reference(asked.server))?;
    frames.store(1, Cell::Reference(asked.client))?;
    frames.store(2, Cell::Short(asked.parameter))
}

// The method in bytecode answers, or the one of the platform, which answers null.
fn call_server_by<S: WordStore>(
    method: Option<Method>,
    asked: &ServerCall,
    place: u16,
    frames: &mut Frames,
    memory: &mut Memory<S>,
    linked: &Linked,
) -> Result<(), StepExit>
    ensures { Executes (server_call_by method asked.now place linked.now frames.old memory.old)
        memory.old (after_instruction result frames.new memory.new) }
{
    let Some(method) = method else {
        return Err(StepExit::End(Outcome::Fault));
    };
    match method {
        Method::Native(_) => {
            frames.try_push(Cell::Reference(Ref::null()))?;
            Ok(())
        }
        Method::Code {
            package_number,
            offset,
        } => {
            let text = method_component_of(package_number, linked);
            let Some(header) = header_at(text, offset) else {
                return Err(StepExit::End(Outcome::Fault));
            };
            if !takes_server_arguments(header) {
                return Err(StepExit::End(Outcome::Fault));
            }
            let owner = Some(Owner::Applet(asked.owner));
            let callee = Callee {
                package_number,
                offset,
                arguments: 3,
                switches_to: owner,
            };
            let registers = memory.registers();
            enter_server(
                asked,
                server_entry(header, callee, place, registers),
                frames,
            )?;
            memory.set_registers(registers_in_callee(owner, registers));
            Ok(())
        }
    }
}

/// Asks a server for its shareable interface object, by the instruction at a place: its method gets a
/// frame, and its return is that of the call. A code fault where the method is abstract or takes another
/// number of cells, or where frames or cells are too many.
#[tactic(auto, unfolding(crate::specs::ServerCall::server_call))]
pub fn call_server<S: WordStore>(
    asked: &ServerCall,
    place: u16,
    frames: &mut Frames,
    memory: &mut Memory<S>,
    linked: &Linked,
) -> Result<(), StepExit>
    requires up { memory.old.heap.down ≡ false }
    ensures { Executes (server_call asked.now place linked.now frames.old memory.old) memory.old
        (after_instruction result frames.new memory.new) }
{
    match memory.header(asked.server) {
        Some(facts) => {
            let method = sharing_method(facts.class(), linked);
            call_server_by(method, asked, place, frames, memory, linked)
        }
        None => Err(StepExit::End(Outcome::Fault)),
    }
}
