//! What comes to a card, and what it answers.
use crate::response::Response;

/// What comes to a card.
#[derive(Drop)]
pub enum Event {
    /// A command of these bytes.
    Command(Vec<u8>),
    /// The power goes and comes back.
    Reset,
}

/// The answer to an event: a response, or whether the card is up after a reset.
#[derive(Drop)]
pub enum Answer {
    /// To a command: the card's response.
    Response(Response),
    /// To a reset: the card is up.
    Ready,
    /// The store refused a write, and the card is down until a reset; or it was down.
    Down,
}
