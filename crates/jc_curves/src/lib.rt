//! Elliptic curves over a prime field (SEC 1): multiples of points, ECDSA and ECDH over byte slices, without a request for memory.
#![tactic(auto)]

pub mod agreement;
pub mod curves;
pub mod der;
mod elements;
mod encodings;
mod jacobian;
mod multiples;
pub mod parameters;
pub mod points;
mod residues;
pub mod signatures;
