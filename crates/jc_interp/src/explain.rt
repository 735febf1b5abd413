//! Why a run ended by a code fault, found from the instruction at which it ended.
ghost use Rattle.std.specs.Prelude.{◌≡◌, false};

use crate::explain_members::{call_fault, use_fault};
use crate::frames_only::is_plain;
use jc_frames::decode::decode;
use jc_frames::instr::{BranchOp, Instr, LocalOp, ReturnOp, StackOp};
use jc_frames::{Cell, Frames, Outcome};
use jc_instructions::notes::{note_frames, spot_of};
use jc_linker::linked::Linked;
use jc_memory::{Cause, FaultKind, Memory, Notes, Step, TopCell};
use jc_words::WordStore;

// A cell as it is noted.
fn top_cell(cell: Cell) -> TopCell {
    match cell {
        Cell::Short(value) => TopCell::Short(value),
        Cell::Reference(reference) => TopCell::Reference(reference),
        Cell::ReturnAddress(place) => TopCell::ReturnAddress(place),
    }
}

/// Notes that the instruction at the frame's place is carried out, and what it finds on top of the stack.
#[cold]
#[inline(never)]
pub(crate) fn note_step(frames: &Frames, notes: &Notes) {
    let top = match frames.peek(0) {
        None => TopCell::Empty,
        Some(cell) => top_cell(cell),
    };
    let spot = spot_of(frames.origin(), frames.place());
    let cells = u16::try_from(frames.counted_cells()).unwrap_or(u16::MAX);
    notes.step(Step { spot, top }, cells);
}

/// Notes how the run ended at the instruction at a place, if one stands there, and how many instructions are left; of a code
/// fault why, and where the frames stand.
#[cold]
#[inline(never)]
pub(crate) fn note_end<S: WordStore>(
    outcome: &Outcome,
    left: u32,
    code: &[u8],
    place: u16,
    frames: &Frames,
    memory: &Memory<S>,
    linked: &Linked,
)
    requires up { memory.now.heap.down ≡ false }
{
    let notes = memory.notes();
    notes.left(left);
    if matches!(outcome, Outcome::Fault) {
        if !notes.has_fault() {
            notes.fault(fault_of(code, place, frames, memory, linked));
        }
        note_frames(place, frames, notes);
    }
}

/// Notes where the frames stand as a write is refused, by the instruction at a place.
#[cold]
#[inline(never)]
pub(crate) fn note_cut<S: WordStore>(place: u16, frames: &Frames, memory: &Memory<S>) {
    let notes = memory.notes();
    if notes.are_kept() {
        notes.cause(Cause::Nothing);
        note_frames(place, frames, notes);
    }
}

/// Notes that the command's instructions are used up, and where the frames stand.
#[cold]
#[inline(never)]
pub(crate) fn note_budget<S: WordStore>(frames: &Frames, memory: &Memory<S>) {
    let notes = memory.notes();
    if notes.are_kept() {
        notes.left(0);
        notes.cause(Cause::Fault(FaultKind::TooManyInstructions));
        note_frames(frames.place(), frames, notes);
    }
}

// What is met in an object or an argument is noted by its own code already.
fn fault_of<S: WordStore>(
    code: &[u8],
    place: u16,
    frames: &Frames,
    memory: &Memory<S>,
    linked: &Linked,
) -> FaultKind
    requires up { memory.now.heap.down ≡ false }
{
    let Some((instr, _)) = decode::<FaultKind>(code, usize::from(place)) else {
        return FaultKind::NoInstruction;
    };
    if !is_plain(instr) && frames.origin().package_number == 0 {
        return FaultKind::NotLent;
    }
    match instr {
        Instr::Nop => FaultKind::Other,
        Instr::Constant(_) => FaultKind::FullStack,
        Instr::Local(local) => local_fault(local, frames),
        Instr::Stack(operation) => order_fault(operation, frames),
        Instr::Arithmetic(_) => stack_fault(frames),
        Instr::Branch(branch) => branch_fault(branch, code, place, frames),
        Instr::Return(ReturnOp::Return) => FaultKind::Other,
        // Where its frame was left the next instruction is the caller's. Its own is the byte after it.
        Instr::Return(_)
            if u32::from(frames.place()) != u32::from(place) + 1 && !frames.has_room() => {
            FaultKind::FullStack
        }
        Instr::Return(_) => stack_fault(frames),
        Instr::Field(_) | Instr::Array(_) | Instr::Object(_) => use_fault(instr, frames, linked),
        Instr::Invoke(call) => call_fault(call, frames, memory, linked),
    }
}

// A cell was asked for that is not there, or has the wrong kind.
pub(crate) fn stack_fault(frames: &Frames) -> FaultKind {
    match frames.peek(0) {
        None => FaultKind::EmptyStack,
        Some(_) => FaultKind::WrongKind,
    }
}

// A use of a local.
fn local_fault(operation: LocalOp, frames: &Frames) -> FaultKind {
    match operation {
        LocalOp::Aload(n) => match frames.local(n) {
            None => FaultKind::NoLocal,
            Some(Cell::Reference(_)) => FaultKind::FullStack,
            Some(_) => FaultKind::WrongKind,
        },
        LocalOp::Sload(n) => match frames.local(n) {
            None => FaultKind::NoLocal,
            Some(Cell::Short(_)) => FaultKind::FullStack,
            Some(_) => FaultKind::WrongKind,
        },
        LocalOp::Astore(n) | LocalOp::Sstore(n) => match frames.local(n) {
            None => FaultKind::NoLocal,
            Some(_) => stack_fault(frames),
        },
        LocalOp::Sinc(n, _) => match frames.local(n) {
            None => FaultKind::NoLocal,
            Some(_) => FaultKind::WrongKind,
        },
    }
}

// A change of the stack's order: cells are missing, or there is no room for the copies.
fn order_fault(operation: StackOp, frames: &Frames) -> FaultKind {
    match operation {
        StackOp::Pop | StackOp::Pop2 | StackOp::SwapX { .. } => FaultKind::EmptyStack,
        StackOp::Dup => copy_fault(1, 0, frames),
        StackOp::Dup2 => copy_fault(2, 0, frames),
        StackOp::DupX { count, depth } => copy_fault(count, depth, frames),
    }
}

// Cells were taken from the stack, to be put back with copies of the top ones.
fn copy_fault(count: u8, depth: u8, frames: &Frames) -> FaultKind {
    let taken = usize::from(count.max(depth));
    let fits = taken + usize::from(count) <= frames.room();
    match frames.peek(0) {
        None if fits => FaultKind::EmptyStack,
        _ => FaultKind::FullStack,
    }
}

// A jump leaves the method, or what decides it is not on the stack.
fn branch_fault(branch: BranchOp, code: &[u8], place: u16, frames: &Frames) -> FaultKind {
    match branch {
        BranchOp::Goto(_) => FaultKind::JumpOutside,
        BranchOp::If(_, offset) => jump_fault(code, place, offset, stack_fault(frames), frames),
        BranchOp::Table { otherwise, .. } => {
            jump_fault(code, place, otherwise, stack_fault(frames), frames)
        }
        BranchOp::Lookup { otherwise, .. } => {
            jump_fault(code, place, otherwise, stack_fault(frames), frames)
        }
        BranchOp::Jsr(offset) => jump_fault(code, place, offset, FaultKind::FullStack, frames),
        BranchOp::Ret(n) => match frames.local(n) {
            None => FaultKind::NoLocal,
            Some(Cell::ReturnAddress(_)) => FaultKind::JumpOutside,
            Some(_) => FaultKind::WrongKind,
        },
    }
}

// The jump at a place leaves the method; else what it met before it.
fn jump_fault(
    code: &[u8],
    place: u16,
    offset: i16,
    other: FaultKind,
    frames: &Frames,
) -> FaultKind {
    if leaves(code, place, offset, frames) {
        FaultKind::JumpOutside
    } else {
        other
    }
}

// The jump at a place leaves the method.
fn leaves(code: &[u8], place: u16, offset: i16, frames: &Frames) -> bool {
    let target = i32::from(place) + i32::from(offset);
    let end = i32::try_from(code.len()).unwrap_or(i32::MAX);
    target < i32::from(frames.origin().method) || target >= end
}
