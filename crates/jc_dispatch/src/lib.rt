//! The dispatcher: selecting and installing applets, and the commands that they answer.
#![tactic(auto)]

pub mod ad_hoc_code;
pub mod applet_result;
mod buffer;
mod closing;
pub mod create;
pub mod extended_length;
pub mod install;
mod phase;
pub mod process;
pub mod select;
