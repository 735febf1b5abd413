//! Texts that say what a command did, and why it was not answered by 9000.
#![tactic(auto)]

pub mod callees;
mod causes;
pub mod covers;
pub mod cuts;
pub mod explanation;
pub mod map_remarks;
pub mod maps;
pub mod mnemonics;
pub mod named_text;
mod naming;
mod operands;
pub mod places;
mod reasons;
mod records;
mod refusals;
pub mod sources;
mod statuses;
pub mod text;
mod traces;
pub mod watches;
