//! What the sweeps `tear` and `attack` share: scripts on cards in memory, what is swept, its parts and what is reported.
#![tactic(auto)]

pub mod asked;
pub mod at_command;
pub mod command;
pub mod image_sweep;
pub mod join;
pub mod kept_text;
pub mod last_line;
pub mod names;
pub mod output;
pub mod part_texts;
pub mod progress;
pub mod remarks;
pub mod report;
pub mod reported_faults;
pub mod runs;
pub mod script_fault;
pub mod script_lines;
pub mod shares;
pub mod subject;
pub mod sweep_fault;
pub mod targets;
mod watched_store;
