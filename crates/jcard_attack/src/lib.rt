//! The command `attack`: commands of a script, each with a fault at each of its instructions, on cards in memory.
#![tactic(auto)]

pub mod aftermaths;
pub mod each;
mod fault_text;
pub mod image_sweep;
pub mod join;
mod judgement;
mod kept_card;
mod models;
mod names;
mod objects;
pub mod outcomes;
mod output;
pub mod part_files;
mod part_lines;
pub mod parts;
pub mod report;
mod reported_faults;
mod rows;
pub mod sweep;
mod target_attacks;
mod trace;
mod verdict;
