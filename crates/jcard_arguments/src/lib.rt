//! What the words of a command line ask for, by one grammar.
#![tactic(auto)]

mod actions;
pub mod arguments;
mod attacks;
mod grammar;
pub mod joined_words;
mod numbers;
pub mod options;
mod values;
