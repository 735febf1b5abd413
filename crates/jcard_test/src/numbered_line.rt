//! A line of a file of rows, with its number.
ghost use Rattle.std.specs.Prelude.{◌<◌};

/// A line of a file, by its number, which counts from 1.
#[derive(Drop)]
pub struct Numbered {
    pub number: usize,
    pub text: String,
    ghost counted: { 0 < number },
}
