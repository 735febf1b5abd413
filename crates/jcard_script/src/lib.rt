//! Scripts: lines that are carried out on a card, over any reader and writer.
#![tactic(auto)]

pub mod begun;
pub mod expectations;
pub mod explainer;
mod glitch;
mod held_card;
mod line;
mod line_text;
pub mod refused_line;
mod reply;
pub mod script;
mod session;
pub mod static_image;
mod word;
