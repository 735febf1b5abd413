//! Arguments of the platform's methods, read by the kinds of their parameters, and the forms of their calls.
#![tactic(auto)]

pub mod arguments;
pub mod changing;
pub mod factory;
pub mod initializing;
pub mod keeping;
pub mod kinds;
pub mod pairing;
pub mod short_arrays;
pub mod transient_events;

pub use arguments::{
    ArrayArguments, MOST_ELEMENTS, Pair, PairArguments, SMALL_PIECE, argument_bytes,
    array_arguments, counted_of, elements_at, given_elements, pair_arguments, pair_of, two_of,
};
pub use changing::{StateWords, change_state, change_state_and_put, state_at};
pub use factory::{NewEngine, StateKind, make_engine};
pub use initializing::{FieldValue, Fields, MOST_FIELDS, initialize};
pub use keeping::{kept_reference, persistent_called};
pub use kinds::have_kinds;
pub use pairing::{NamedObject, NewPair, make_pair};
pub use short_arrays::two_shorts_of;
pub use transient_events::allow_making;
