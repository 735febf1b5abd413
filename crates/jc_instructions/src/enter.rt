//! How the frame of a method in bytecode begins.
ghost use Rattle.std.specs.Prelude.{OnErr, ◌≡◌};
ghost use Rattle.std.specs.Option.{option_map};
ghost use Rattle.std.specs.Result.{result_ok};
ghost use Rattle.jc_memory.specs.Programs.{Executes};
ghost use Rattle.jc_world.specs.Instructions.{after_instruction};
ghost use Rattle.jc_instructions.specs.Enter.{first_frames_of, method_entry_with, entry_of, origin_of, registers_in_callee, takes};

use crate::method_component::method_component_of;
use jc_frames::{
    CallKind, Cell, CodeFault, Entry, Frames, Header, MOST_CELLS, Origin, Outcome, ReturnPoint,
    header_at,
};
use jc_linker::linked::Linked;
use jc_memory::{Memory, Registers};
use jc_transient::Owner;
use jc_words::WordStore;
use jc_world::StepExit;

/// A method in bytecode that is called.
#[derive(Clone, Copy)]
pub struct Callee {
    pub package_number: u8,
    /// Where its header begins in the package's Method component.
    pub offset: u16,
    /// How many cells its arguments have.
    pub arguments: u8,
    /// The owner that is active while it runs, where that is another one than the caller's.
    pub switches_to: Option<Owner>,
}

/// Where a call comes from.
#[derive(Clone, Copy)]
pub struct CallSite {
    /// Where the instruction stands that calls.
    pub place: u16,
    pub kind: CallKind,
}

// The registers while a method runs for another owner.
#[inline(always)]
pub(crate) fn registers_in_callee(owner: Option<Owner>, registers: Registers) -> Registers
    ensures { result ≡ registers_in_callee owner registers }
{
    match owner {
        None => registers,
        Some(owner) => Registers {
            active: owner,
            previous: registers.active,
            ..registers
        },
    }
}

// A method that is not abstract and takes this many cells.
#[inline(always)]
pub(crate) const fn takes(arguments: usize, header: Header) -> bool
    ensures { result ≡ takes arguments header }
{
    !header.is_abstract && header.arguments as usize == arguments
}

// The method.
#[inline(always)]
const fn origin_of(callee: Callee) -> Origin
    ensures { result ≡ origin_of callee }
{
    Origin {
        package_number: callee.package_number,
        method: callee.offset,
    }
}

#[inline(always)]
pub(crate) fn entry_of(
    header: Header,
    callee: Callee,
    site: CallSite,
    registers: Registers,
) -> Entry
    ensures { result ≡ entry_of header callee site registers }
{
    Entry {
        arguments: header.arguments,
        locals: u16::from(header.locals),
        limit: header.limit,
        place: header.place,
        origin: origin_of(callee),
        resume: ReturnPoint {
            active: registers.active,
            previous: registers.previous,
            place: site.place,
            call: site.kind,
        },
    }
}

/// Begins the frame of a method with this header that is called, for the owner that is active while it runs. A code
/// fault where its header is cut, where it is abstract or takes another number of cells, where the arguments are
/// not there, or where frames or cells are too many.
#[inline(always)]
pub fn enter<S: WordStore>(
    header: Option<Header>,
    callee: Callee,
    site: CallSite,
    frames: &mut Frames,
    memory: &mut Memory<S>,
) -> Result<(), StepExit>
    ensures { Executes (method_entry_with header callee site frames.old memory.old) memory.old
        (after_instruction result frames.new memory.new) }
{
    let Some(header) = header else {
        return Err(StepExit::End(Outcome::Fault));
    };
    if !takes(usize::from(callee.arguments), header) {
        return Err(StepExit::End(Outcome::Fault));
    }
    frames.enter(entry_of(header, callee, site, memory.registers()))?;
    if let Some(owner) = callee.switches_to {
        memory.set_registers(registers_in_callee(Some(owner), memory.registers()));
    }
    Ok(())
}

/// Begins the frame of a method that nothing called, in place of the frames that are there. A code fault, and
/// nothing changes, where its header is cut, where it is abstract or takes another number of cells, or where
/// its cells are too many.
#[tactic(auto, unfolding(crate::specs::Enter::first_frames_of))]
#[inline(always)]
pub fn begin(
    linked: &Linked,
    package_number: u8,
    offset: u16,
    arguments: &[Cell],
    frames: &mut Frames,
) -> Result<(), CodeFault>
    ensures begun { option_map (λ _. frames.new) (result_ok result)
        ≡ first_frames_of linked.now package_number offset arguments.now }
    ensures same { OnErr result (frames.new ≡ frames.old) }
{
    let component = method_component_of(package_number, linked);
    let header = header_at(component, offset).ok_or(CodeFault)?;
    let cells = arguments.len() + usize::from(header.locals) + usize::from(header.limit);
    if !takes(arguments.len(), header) || cells > MOST_CELLS {
        return Err(CodeFault);
    }
    let origin = Origin {
        package_number,
        method: offset,
    };
    frames.begin(arguments, header.locals, header.limit, header.place, origin);
    Ok(())
}
