//! The command `dump`: what an image holds in numbers, object by object, and what is not the same on two.
#![tactic(auto)]

mod applets;
mod areas;
mod compared;
pub mod comparison;
pub mod differences;
pub mod dump;
mod entries;
pub mod fault;
mod image;
pub mod inventory;
mod inventory_lines;
mod keys;
pub mod listing;
mod names;
mod objects;
mod packages;
mod pairs;
mod parts;
pub mod shown;
mod table;
mod texts;
