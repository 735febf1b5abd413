//! Rows of files: lines of scripts with the answers that are wanted, given to new cards in memory, and what is reported of them.
#![tactic(auto)]

mod answering;
pub mod cards;
mod files_read;
mod junit_file;
pub mod line;
pub mod lines;
mod loops;
pub mod named_table;
pub mod numbered_line;
mod plan;
mod planning;
mod remarks;
pub mod request;
mod row_sweep;
mod rows_file;
mod sources;
pub mod sparing_law;
pub mod table_line;
pub mod testing;
mod timed_text;
pub mod timer;
