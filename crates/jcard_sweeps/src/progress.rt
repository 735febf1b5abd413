//! How far a sweep has come.

/// Somebody who is shown how far a sweep has come. No result depends on it.
pub trait Progress {
    /// A command is cut now after this many of its word writes.
    fn tell_cut(&mut self, number: u16);

    /// The map whose names are used, perhaps an empty one, where it wants to know which instruction makes each word write.
    fn names(&self) -> Option<&[u8]> {
        None
    }

    /// The words of the image before the command that is cut next.
    fn tell_image(&mut self, _words: &[u16]) {}

    /// The texts about the word writes of the command that is cut next, one after the other, where it wants to know.
    fn tell_writes(&mut self, _writes: Vec<Vec<u8>>) {}
}

/// Nobody.
#[derive(Clone, Copy, Drop)]
pub struct Nobody;

impl Progress for Nobody {
    fn tell_cut(&mut self, _number: u16) {}
}
