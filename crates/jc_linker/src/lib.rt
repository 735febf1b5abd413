//! Linked packages, as a run reads them: loaded packages as values, and the classes, methods and entries that they resolve to.
#![tactic(auto)]

pub mod class;
mod classes;
mod classes_linked;
mod clones;
mod completeness;
pub mod copies;
pub mod fault;
mod imports;
mod lineage;
pub mod link;
pub mod linked;
mod lookups;
mod methods;
pub mod package;
mod resolve;
mod scope;
pub mod search;
pub mod target;
