//! Which method a frame runs, and what it comes back to.

use jc_transient::Owner;

/// Which method a frame runs.
#[derive(Clone, Copy, Default)]
pub struct Origin {
    /// The number of the package that the method belongs to.
    pub package_number: u8,
    /// Where the method begins in its package's Method component.
    pub method: u16,
}

/// Who called a method: an instruction, or the runtime environment as it asks a server.
#[derive(Clone, Copy, Default)]
pub enum CallKind {
    /// An instruction.
    #[default]
    Instruction,
    /// The runtime environment, which asks a server for its shareable interface object.
    ShareableRequest,
}

/// What a return comes back to.
#[derive(Clone, Copy, Default)]
pub struct ReturnPoint {
    /// The owner that was active before the call.
    pub active: Owner,
    /// The owner that was active before the last switch, as it was then.
    pub previous: Owner,
    /// Where the instruction stands that called.
    pub place: u16,
    /// Who called.
    pub call: CallKind,
}

/// A method as it is called.
#[derive(Clone, Copy)]
pub struct Entry {
    /// How many cells its arguments have, which lie on the caller's stack.
    pub arguments: u8,
    /// How many locals it has besides its arguments.
    pub locals: u16,
    /// How many cells its stack holds at most.
    pub limit: u8,
    /// The place of its first instruction.
    pub place: u16,
    /// The method.
    pub origin: Origin,
    /// What its return comes back to.
    pub resume: ReturnPoint,
}
