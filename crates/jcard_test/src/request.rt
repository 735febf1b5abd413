//! What the words of `jcard test` ask for.

use jcard_files::image_size::ImageSize;

/// What the words of `jcard test` ask for besides its files: the file of a report for build servers, that of a platform table, how large a
/// card is, and how many instructions a command can have.
#[derive(Clone, Copy, Drop)]
pub struct Asked<'n> {
    pub junit: Option<&'n str>,
    pub table: Option<&'n str>,
    pub size: ImageSize<'n>,
    pub budget: u32,
}
