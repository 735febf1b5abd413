//! Notes of what kept code from going on, for whoever asks why. They are no part of what a memory is: no clause speaks of what
//! they say, and nothing that code does depends on them.

use arrayvec::ArrayVec;
use jc_firewall::access::{Access, Rule};
use jc_firewall::subject::Context;
use jc_transient::{ClassWord, Ref};
use std::alloc::{AllocError, Global};
use std::cell::RefCell;
use std::rc::Rc;

/// How many frames are noted at most.
pub const MOST_SPOTS: usize = 32;

/// How many bytes an AID has at most.
pub const MOST_AID: usize = 16;

/// What the runtime environment had begun.
#[derive(Clone, Copy)]
pub enum Phase {
    /// A package's method `install`.
    Install,
    /// An applet's method `select`.
    Select,
    /// An applet's method `deselect`.
    Deselect,
    /// An applet's method `process`.
    Process,
    /// Code that came with a command.
    RunCode,
}

/// Where a frame stands.
#[derive(Clone, Copy, PartialEq, Eq, Default)]
pub struct Spot {
    /// The number of the package that its method belongs to; 0 for code that was lent.
    pub package_number: u8,
    /// Where the method begins in its package's Method component.
    pub method: u16,
    /// Where its instruction stands.
    pub place: u16,
}

/// Why code ended by a fault.
#[derive(Clone, Copy)]
pub enum FaultKind {
    /// No instruction stands there, or it is cut.
    NoInstruction,
    /// The instruction is none of code that is lent.
    NotLent,
    /// A cell is taken from the empty stack.
    EmptyStack,
    /// The stack is full.
    FullStack,
    /// A cell has the wrong kind.
    WrongKind,
    /// There is no such local.
    NoLocal,
    /// A jump leaves the method.
    JumpOutside,
    /// A reference names no object.
    NoObject,
    /// The entry of the constant pool names no such field, method or class.
    NoMember,
    /// The object is not of the class or kind that the instruction wants.
    WrongClass,
    /// The arguments are not those that the method takes.
    WrongArguments,
    /// The method is abstract or cut, or there is none for the object's class.
    NoMethod,
    /// It would be the 33rd frame.
    TooManyFrames,
    /// More than 512 cells would be in use.
    TooManyCells,
    /// The command has used up its instructions.
    TooManyInstructions,
    /// None of these is known.
    Other,
}

/// What kept code from going on.
#[derive(Clone, Copy)]
pub enum Cause {
    /// Nothing is noted.
    Nothing,
    /// An exception of this class was thrown, with this reason if its class has one.
    Exception(ClassWord, Option<i16>),
    /// A code fault.
    Fault(FaultKind),
}

/// An access that the firewall refused.
#[derive(Clone, Copy)]
pub struct Denial {
    pub access: Access,
    pub rule: Rule,
    /// The context for which code ran.
    pub active: Context,
    /// The context of the object's owner.
    pub owner: Context,
}

/// Where room was asked for and was not there.
#[derive(Clone, Copy)]
pub enum Space {
    /// Words of the heap.
    Heap,
    /// Words of the area that a reset clears.
    ResetArea,
    /// Words of the area that a deselection clears.
    DeselectArea,
    /// Places of the transaction.
    Transaction,
}

/// What was asked for, and what was left.
#[derive(Clone, Copy)]
pub struct Shortage {
    pub space: Space,
    pub asked: u32,
    /// Of the heap, where no object fits any more, at most so much.
    pub left: u32,
}

/// The kinds of what an entry of a constant pool names of a class.
#[derive(Clone, Copy)]
pub enum MemberKind {
    /// A static field, or a field of the class's instances.
    Field,
    /// A static method, or a constructor.
    StaticMethod,
    /// A method that is called on an instance of the class.
    VirtualMethod,
    /// A method that is called on an instance, and is visible only in the package.
    PackageVisibleMethod,
}

/// A field or a method of a class.
#[derive(Clone, Copy)]
pub struct Member {
    pub kind: MemberKind,
    /// Its token among the members of this kind.
    pub token: u8,
}

/// Why a package was not loaded.
#[derive(Drop)]
pub enum RefusedLoad {
    /// A component is the first that is wrong: the first byte with which it can no longer be right.
    Component {
        tag: u8,
        offset: u16,
    },
    /// An entry of the constant pool names what is not there: the package by its AID, the class by its token and the member, as
    /// far as the entry has them. 65535: no entry, but what a class of the package names.
    Entry {
        entry: u16,
        package: ArrayVec<u8, MOST_AID>,
        class: Option<u8>,
        member: Option<Member>,
    },
}

impl RefusedLoad {
    /// An entry that names what is not there. Of a package's AID 16 bytes are kept at most.
    pub fn of_entry(
        entry: u16,
        package: &[u8],
        class: Option<u8>,
        member: Option<Member>,
    ) -> RefusedLoad {
        let mut kept = ArrayVec::new();
        let _ = kept.try_extend_from_slice(&package[..package.len().min(MOST_AID)]);
        RefusedLoad::Entry {
            entry,
            package: kept,
            class,
            member,
        }
    }
}

/// The cell on top of a stack.
#[derive(Clone, Copy, PartialEq, Eq)]
pub enum TopCell {
    Empty,
    Short(i16),
    Reference(Ref),
    ReturnAddress(u16),
}

/// An instruction that is carried out, and the stack as it found it.
#[derive(Clone, Copy)]
pub struct Step {
    pub spot: Spot,
    pub top: TopCell,
}

/// What is noted of a command.
#[derive(Drop)]
pub struct Note {
    /// The line of the script.
    pub line: u32,
    pub cause: Cause,
    /// What the runtime environment had begun last.
    pub phase: Option<Phase>,
    /// Why the package was not loaded, where one was refused.
    pub refused_load: Option<RefusedLoad>,
    /// What the firewall refused last.
    pub denial: Option<Denial>,
    /// What was not there last.
    pub shortage: Option<Shortage>,
    /// The frames as the cause arose, the one that ran first.
    pub spots: ArrayVec<Spot, MOST_SPOTS>,
    /// How many of the command's instructions were left as its last method ended.
    pub left: Option<u32>,
    /// How many cells the frames counted at most, where steps are kept.
    pub highest: u16,
    /// The instructions that were carried out, where they are kept; and how many more there were.
    pub steps: Vec<Step>,
    pub steps_left_out: u32,
}

impl Note {
    // What is noted of a command in a line at first.
    fn of_line(alloc: Global, line: u32) -> Note {
        Note {
            line,
            cause: Cause::Nothing,
            phase: None,
            refused_load: None,
            denial: None,
            shortage: None,
            spots: ArrayVec::new(),
            left: None,
            highest: 0,
            steps: Vec::new(alloc),
            steps_left_out: 0,
        }
    }

    // One more instruction is not kept.
    fn leave_out(&mut self) {
        self.steps_left_out = self.steps_left_out.saturating_add(1);
    }

    // An instruction is carried out.
    fn step(&mut self, step: Step, cells: u16, most_steps: u32) {
        self.highest = self.highest.max(cells);
        if self.steps.len() >= most_steps as usize {
            self.leave_out();
            return;
        }
        if !has_pushed(&mut self.steps, step) {
            self.leave_out();
        }
    }
}

// Adds an item, if there is memory for it. It is of any type, since the prover does not yet cover the push of a step.
fn has_pushed<T: Copy>(items: &mut Vec<T>, item: T) -> bool {
    items.push(item).is_ok()
}

// Notes that are kept, and how.
#[derive(Drop)]
struct Kept {
    note: Rc<RefCell<Note>>,
    alloc: Global,
    // How many steps of a command are kept at most; none, where nobody asks for steps.
    most_steps: Option<u32>,
}

/// Where notes are kept, by all who share it; or nowhere.
#[derive(Drop)]
pub struct Notes {
    kept: Option<Kept>,
}

impl Notes {
    /// Notes that nobody asks for: none is kept.
    pub fn nowhere() -> Notes {
        Notes { kept: None }
    }

    /// Notes that are kept; with `most_steps`, at most that number of instructions of each command with them.
    pub fn kept(alloc: Global, most_steps: Option<u32>) -> Result<Notes, AllocError> {
        let note = Rc::new(alloc, RefCell::new(Note::of_line(alloc, 0)))?;
        Ok(Notes {
            kept: Some(Kept {
                note,
                alloc,
                most_steps,
            }),
        })
    }

    /// The same notes, for another who writes or reads them.
    pub fn share(&self) -> Notes {
        let Some(kept) = &self.kept else {
            return Notes::nowhere();
        };
        let Ok(note) = kept.note.clone() else {
            return Notes::nowhere();
        };
        Notes {
            kept: Some(Kept {
                note,
                alloc: kept.alloc,
                most_steps: kept.most_steps,
            }),
        }
    }

    /// Whether notes are kept.
    #[inline]
    pub fn are_kept(&self) -> bool {
        self.kept.is_some()
    }

    /// Whether the instructions of each command are kept too.
    #[inline]
    pub fn keep_steps(&self) -> bool {
        match &self.kept {
            Some(kept) => kept.most_steps.is_some(),
            None => false,
        }
    }

    /// A command begins, in a line of a script.
    pub fn begin(&self, line: u32) {
        if let Some(kept) = &self.kept {
            let _ = kept.note.try_replace(Note::of_line(kept.alloc, line));
        }
    }

    /// The runtime environment begins this. Of what it had begun before nothing is said any more.
    pub fn phase(&self, phase: Phase) {
        if let Some(kept) = &self.kept {
            if let Ok(mut note) = kept.note.try_borrow_mut() {
                note.phase = Some(phase);
                note.cause = Cause::Nothing;
            }
        }
    }

    /// A package was not loaded.
    pub fn refused_load(&self, refused: RefusedLoad) {
        if let Some(kept) = &self.kept {
            if let Ok(mut note) = kept.note.try_borrow_mut() {
                note.refused_load = Some(refused);
            }
        }
    }

    /// This kept code from going on; its frames follow.
    pub fn cause(&self, cause: Cause) {
        if let Some(kept) = &self.kept {
            if let Ok(mut note) = kept.note.try_borrow_mut() {
                note.cause = cause;
                note.spots.clear();
            }
        }
    }

    /// Code ends by this fault; its frames follow.
    #[cold]
    #[inline(never)]
    pub fn fault(&self, kind: FaultKind) {
        self.cause(Cause::Fault(kind));
    }

    /// Whether a fault is noted.
    pub fn has_fault(&self) -> bool {
        let Some(kept) = &self.kept else {
            return false;
        };
        match kept.note.try_borrow() {
            Ok(note) => matches!(note.cause, Cause::Fault(_)),
            Err(_) => false,
        }
    }

    /// Code went on: what was thrown was caught.
    pub fn forget(&self) {
        if let Some(kept) = &self.kept {
            if let Ok(mut note) = kept.note.try_borrow_mut() {
                note.cause = Cause::Nothing;
                note.denial = None;
                note.shortage = None;
                note.spots.clear();
            }
        }
    }

    /// The next frame of those that stood there, the one that ran first.
    pub fn spot(&self, spot: Spot) {
        if let Some(kept) = &self.kept {
            if let Ok(mut note) = kept.note.try_borrow_mut() {
                let _ = note.spots.try_push(spot);
            }
        }
    }

    /// The firewall refused an access.
    pub fn denial(&self, denial: Denial) {
        if let Some(kept) = &self.kept {
            if let Ok(mut note) = kept.note.try_borrow_mut() {
                note.denial = Some(denial);
            }
        }
    }

    /// Room was not there.
    pub fn shortage(&self, shortage: Shortage) {
        if let Some(kept) = &self.kept {
            if let Ok(mut note) = kept.note.try_borrow_mut() {
                note.shortage = Some(shortage);
            }
        }
    }

    /// A method ended, and this number of the command's instructions was left.
    pub fn left(&self, left: u32) {
        if let Some(kept) = &self.kept {
            if let Ok(mut note) = kept.note.try_borrow_mut() {
                note.left = Some(left);
            }
        }
    }

    /// An instruction is carried out, and the frames count this number of cells.
    pub fn step(&self, step: Step, cells: u16) {
        if let Some(kept) = &self.kept {
            let most_steps = kept.most_steps.unwrap_or(0);
            if let Ok(mut note) = kept.note.try_borrow_mut() {
                note.step(step, cells, most_steps);
            }
        }
    }

    /// What is noted; it is noted no longer.
    pub fn take(&self) -> Option<Note> {
        let kept = self.kept.as_ref()?;
        kept.note.try_replace(Note::of_line(kept.alloc, 0)).ok()
    }
}
