//! Instructions decoded, methods as a run enters them, and the frames of running methods, with the instructions that need nothing but frames.
#![tactic(auto)]

pub mod arithmetic_ops;
pub mod branch_ops;
pub mod call_law;
mod call_sites;
mod calls;
pub mod cell;
pub mod constant_ops;
mod dead_references;
pub mod decode;
pub mod exceptions;
mod fixed_stack;
pub mod frames;
pub mod handlers;
pub mod header;
pub mod instr;
pub mod local_ops;
mod locals;
pub mod method;
pub mod operands;
pub mod outcome;
pub mod reasons;
pub mod short;
mod stack;
pub mod stack_ops;

pub use call_sites::CallSite;
pub use cell::Cell;
pub use exceptions::Exception;
pub use frames::{Frames, MOST_CELLS, MOST_FRAMES};
pub use handlers::{Handler, handler_at};
pub use header::{Header, header_at};
pub use method::{CallKind, Entry, Origin, ReturnPoint};
pub use outcome::{CodeFault, FrameExit, Outcome};
