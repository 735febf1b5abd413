//! The calls of `java.lang` and `javacard.framework` (API specification), a folder a class, with their arguments read by the rows of their
//! methods.
#![tactic(auto)]

pub mod aid;
mod apdu;
mod applet;
mod constructing;
pub mod events;
pub mod exceptions;
pub mod objects;
mod owner_pin;
pub mod row_laws;
pub mod system;
pub mod util;

pub use aid::call_aid;
pub use aid::cells::cells_of_aid;
pub use apdu::buffer::buffer;
pub use apdu::send::apdu_set_outgoing_and_send;
pub use apdu::{apdu_get_buffer, call_apdu};
pub use applet::call_applet;
pub use events::call_event;
pub use exceptions::call_exception;
pub use objects::call_object;
pub use owner_pin::call_pin;
pub use row_laws::arguments_are_read_by_rows;
pub use system::call_system;
pub use system::transactions::{jc_system_begin_transaction, jc_system_commit_transaction};
pub use util::{call_util, short_at_once, util_get_short, util_set_short};
