//! RSA (RFC 8017): encodings of messages, also those of ISO/IEC 9796-2, powers with a key, and key pairs.
#![tactic(auto)]

pub mod bytes;
pub mod crt;
pub mod eme_oaep;
pub mod eme_pkcs1;
pub mod emsa_pkcs1;
pub mod emsa_pss;
mod hashing;
pub mod iso_9796;
pub mod key_pair;
pub mod laws;
pub mod mgf1;
mod numbers;
pub mod power;
pub mod primes;
