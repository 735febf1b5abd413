//! The block ciphers AES (FIPS 197), DES (FIPS 46-3) and triple DES, and modes, paddings and message authentication codes over any block cipher
//! and digest.
#![tactic(auto)]

pub mod aes;
mod aes_field;
pub mod aes_laws;
mod aes_place;
mod aes_rounds;
mod bytes;
pub mod cipher;
pub mod conversion;
pub mod des;
mod des_bits;
pub mod des_laws;
mod des_schedule;
mod des_tables;
pub mod hmac;
pub mod kept;
pub mod laws;
pub mod macs;
pub mod padding;
pub mod steps;
pub mod triple_des;
