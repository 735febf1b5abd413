//! Texts that come in and go out in pieces, over any reader and writer; numbers, times and texts within quotes.
#![tactic(auto)]

pub mod escapes;
pub mod mem_text;
pub mod numbers;
pub mod seconds;
pub mod std_text;
pub mod streams;
