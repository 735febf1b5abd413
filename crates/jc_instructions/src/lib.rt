//! The instructions on fields, arrays and objects, and those that call, return and throw.
#![tactic(auto)]

mod array_access;
mod array_creation;
mod array_elements;
pub mod at_once;
pub mod catch;
pub mod enter;
mod field_names;
mod field_ops;
mod fields;
pub mod invoke;
pub mod known_calls;
mod known_values;
pub mod method_component;
pub mod method_return;
pub mod notes;
mod object_creation;
mod object_types;
mod open_cells;
pub mod parameters;
pub mod server_call;
mod static_fields;
mod static_images;
pub mod throw;
mod type_checks;

pub use array_access::{array_load, array_store, arraylength};
pub use array_creation::{anewarray, newarray};
pub use field_ops::field_instruction;
pub use object_creation::new_instance;
pub use type_checks::{checkcast, instanceof};
