//! PINs with a limited number of tries, as `OwnerPIN` keeps them: a record of five cells, an array with the value,
//! and a flag that tells whether the value was given.

mod checks;
mod pin;
mod pin_init;
mod resets;
mod try_counter;
mod updates;

pub use checks::check;
pub use pin::{PinRecord, is_pin, is_validated, record, tries};
pub use pin_init::init;
pub use resets::{reset, reset_and_unblock};
pub use updates::{PinRefusal, update};
