//! The calls of `javacard.security` (API specification) on objects with an algorithm and no key, a room a class: `MessageDigest`,
//! `InitializedMessageDigest`, `Checksum` and `RandomData`.
#![tactic(auto)]

pub mod checksum;
pub mod engines;
pub mod initialized_message_digest;
pub mod message_digest;
pub mod messages_in_pieces;
pub mod random_data;

pub use engines::call_engine;
