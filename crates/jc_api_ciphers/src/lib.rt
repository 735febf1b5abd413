//! The calls of `Cipher` of `javacardx.crypto` and of `Signature` of `javacard.security` (API specification), a room a class.
#![tactic(auto)]

pub mod cipher;
pub mod ciphers;
mod gathered;
pub mod initialized;
mod outputs;
pub mod signature;

pub use ciphers::call_cipher;
