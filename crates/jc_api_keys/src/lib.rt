//! Keys of `javacard.security` (API specification): `KeyBuilder`, and key objects of all its types; and what calls of all objects of the package share.
#![tactic(auto)]

pub mod digest_states;
pub mod ec_keys;
pub mod exceptions;
pub mod key_builder;
pub mod key_objects;
pub mod key_parts;
pub mod key_types;
pub mod keys;
pub mod receivers;
pub mod rsa_keys;
pub mod shorts;

pub use ec_keys::call_ec_key;
pub use keys::call_key;
pub use rsa_keys::call_rsa_key;
