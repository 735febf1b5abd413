//! Packages between their components, the linker and the heap: loaded, put together and linked, kept as records and read from them, and
//! compared with the heap.
#![tactic(auto)]

mod entries;
pub mod fault;
mod incoming;
mod infos;
pub mod known;
mod linking;
mod load;
mod load_end;
mod load_refusal;
mod marked_heap;
mod objects;
pub mod reading;
pub mod record_contents;
mod refusals;
pub mod sound;
mod statics;
pub mod tables;
mod values;

pub use incoming::IncomingComponent;
pub use load::OpenLoad;
pub use load_end::end_package;
pub use load_refusal::LoadRefusal;
