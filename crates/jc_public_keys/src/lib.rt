//! What public-key algorithms make of digests and messages, as bytes: signatures, ciphers and key pairs of RSA, signatures, shared secrets and key pairs
//! on elliptic curves, over keys that are bytes too.
#![tactic(auto)]

pub mod curve_keys;
mod curves;
pub mod ecdsa;
pub mod random;
mod random_numbers;
pub mod rsa;
pub mod rsa_ciphers;
pub mod rsa_keys;
pub mod rsa_recovery;
pub mod rsa_signatures;
pub mod shared_secrets;
