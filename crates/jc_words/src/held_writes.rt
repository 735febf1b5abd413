//! Writes that a store over a file holds back.

/// Two words that were written one after the other and that the file has not been handed: the mark first, as which a journal has its
/// count of entries, and then another. If the mark goes back with the next write to what it was, the file is handed the other alone.
#[derive(Clone, Copy, Drop)]
pub struct HeldWrites {
    /// The place of the mark.
    pub mark: u16,
    /// What the file has there.
    pub mark_before: u16,
    /// The place of the other word.
    pub place: u16,
    /// What the file has there.
    pub place_before: u16,
}
