//! The components of a CAP file: what each says, both ways, and why one is refused; a whole package is put together of them.
#![tactic(auto)]

pub mod applets;
pub mod assembling;
pub mod class_component;
pub mod class_lists;
pub mod class_reading;
pub mod class_records;
pub mod class_refs;
pub mod classes;
pub mod component;
pub mod contents;
pub mod counted;
pub mod customs;
pub mod directory;
pub mod envelope;
pub mod exports;
pub mod fault;
pub mod fields;
mod fitting;
pub mod formats;
pub mod grammar;
pub mod handlers;
pub mod header;
pub mod imports;
pub mod lists;
pub mod methods;
pub mod packages;
pub mod parts;
pub mod pool;
mod sizes;
pub mod static_arrays;
pub mod static_component;
pub mod statics;
pub mod tables;
pub mod tags;
pub mod texts;
