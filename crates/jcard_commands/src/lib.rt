//! What the program does for the words of a command line.
#![tactic(auto)]

pub mod listener;
mod listing;
pub mod program;
mod progress_line;
pub mod run;
mod run_files;
mod script_run;
pub mod trial;
mod write_lines;
