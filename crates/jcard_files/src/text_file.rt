//! The texts of a disk in memory.

/// A text, by its name.
#[derive(Clone, Copy, Drop)]
pub struct TextFile<'a> {
    pub name: &'a str,
    pub bytes: &'a [u8],
}

/// A text that was written.
#[derive(Drop)]
pub struct WrittenText {
    pub name: String,
    pub bytes: Vec<u8>,
}
