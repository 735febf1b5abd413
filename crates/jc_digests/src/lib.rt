//! Digests over a state that the caller keeps as words (MD5 of RFC 1321, SHA-1 and SHA-2 of FIPS 180-4), and the checksums CRC-16 and CRC-32.
#![tactic(auto)]

pub mod absorbing;
pub mod checksums;
mod constants;
pub mod digest;
pub mod kept;
pub mod md_5;
pub mod sha_1;
pub mod sha_256;
pub mod sha_512;
