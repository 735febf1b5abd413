//! What stands in the frames as a run reaches places of the code: locals, stack and static fields, by the trace of a command.
#![tactic(auto)]

pub mod arrivals;
mod effects;
mod frames;
mod machine;
pub mod points;
mod remarks;
mod statics;
