//! The calls of `KeyPair` and `KeyAgreement` of `javacard.security` (API specification).
#![tactic(auto)]

pub mod curve_parts;
pub mod key_agreement;
pub mod key_pair;
pub mod pairs;

pub use pairs::call_pair;
