//! The platform's packages, classes and methods, the tokens that a table gives them, and the packed form in which images keep a table's text.
#![tactic(auto)]

mod entries;
pub mod example;
pub mod fault;
pub mod hierarchy;
pub mod key_methods;
pub mod kinds;
pub mod laws;
pub mod lookup;
pub mod names;
mod packed_entry;
pub mod packing;
pub mod packing_laws;
pub mod platform;
pub mod read;
pub mod reading;
pub mod row;
pub mod rows;
pub mod signatures;
pub mod table;
pub mod words;
