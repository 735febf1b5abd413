//! The command `tear`: commands of a script, each with the power cut after each number of its word writes, on cards in memory.
#![tactic(auto)]

mod alike;
mod answers;
pub mod cuts;
pub mod each;
pub mod image_sweep;
mod kept_card;
mod last_cut;
mod moved_image;
pub mod parts;
mod probes;
mod recoveries;
pub mod sweep;
mod target_cuts;
