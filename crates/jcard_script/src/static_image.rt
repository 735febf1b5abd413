//! Static images before a command.

/// The static image of a package: its bytes.
#[derive(Drop)]
pub struct StaticImage {
    pub package_number: u8,
    pub bytes: Vec<u8>,
}
