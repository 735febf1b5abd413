//! Objects by reference over the words of a journal, which a card keeps without power, and the laws of such a heap.
#![tactic(auto)]

mod adding;
mod changes;
mod component;
mod elements;
mod fresh;
mod heap;
mod heap_laws;
pub mod layout;
pub mod lookup;
mod making;
mod object;
mod package;
pub mod packed;
mod place;
mod record;
mod refusal;
mod registered;
pub mod registry_layout;
pub mod sizes;
mod statics;
mod touch;
pub mod walk;

pub use changes::{ByteRun, Elements};
pub use component::Span;
pub use heap::Heap;
pub use heap_laws::{
    changes_keep_a_heap_whole, components_are_read_back, losses_leave_what_is_complete,
    migrations_keep_heaps, places_have_words_of_their_own, transactions_keep_what_is_durable,
    transient_objects_own_their_cells,
};
pub use object::{Facts, Kind};
pub use package::{RecordComponent, StaticArray};
pub use place::{AppletEntry, Place};
pub use refusal::{ChangeRefusal, HeapRefusal};
pub use touch::Touch;
