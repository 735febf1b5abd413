//! A text that grows.

use itoa::Buffer;
use std::alloc::{AllocError, Global};

/// A text that grows. Where memory is refused for a part of it, the whole text is given up.
#[derive(Drop)]
pub struct Text {
    alloc: Global,
    bytes: Vec<u8>,
    is_given_up: bool,
}

impl Text {
    /// An empty text.
    pub fn new(alloc: Global) -> Text {
        Text {
            alloc,
            bytes: Vec::new(alloc),
            is_given_up: false,
        }
    }

    /// Its bytes; an error where it was given up.
    pub fn into_bytes(self) -> Result<Vec<u8>, AllocError> {
        if self.is_given_up {
            return Err(AllocError);
        }
        Ok(self.bytes)
    }

    /// Gives the text up: memory was refused for a part of it.
    pub fn give_up(&mut self) {
        self.is_given_up = true;
    }

    /// Adds words.
    pub fn push(&mut self, words: &[u8]) {
        if self.bytes.extend_from_slice(words).is_err() {
            self.give_up();
        }
    }

    /// Adds a number in decimal digits.
    pub fn push_number(&mut self, number: u32) {
        let mut digits = Buffer::new();
        self.push(digits.format(number).as_bytes());
    }

    /// Adds a number of 64 bits in decimal digits.
    pub fn push_wide(&mut self, number: u64) {
        let mut digits = Buffer::new();
        self.push(digits.format(number).as_bytes());
    }

    /// Adds a number with its sign in decimal digits.
    pub fn push_signed(&mut self, number: i16) {
        let mut digits = Buffer::new();
        self.push(digits.format(number).as_bytes());
    }

    /// Adds a number of things, of which one is named so: after another number than 1 it ends by s.
    pub fn push_count(&mut self, number: u32, thing: &[u8]) {
        self.push_number(number);
        self.push(b" ");
        self.push(thing);
        if number != 1 {
            self.push(b"s");
        }
    }

    /// Adds bytes in upper case hexadecimal digits.
    pub fn push_hex(&mut self, bytes: &[u8]) {
        match hex::encode_upper(self.alloc, bytes) {
            Ok(digits) => self.push(digits.as_bytes()),
            Err(_) => self.give_up(),
        }
    }
}
