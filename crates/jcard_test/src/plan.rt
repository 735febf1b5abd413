//! What the cards are that rows are given to.

use jcard_files::extent::Extent;

/// What the cards are that rows are given to: the platform table, how large a file's first is (the others differ in their words alone), and how
/// many instructions a command can have.
#[derive(Drop)]
pub(crate) struct Plan {
    pub(crate) table: Vec<u8>,
    pub(crate) extent: Extent,
    pub(crate) budget: u32,
}
