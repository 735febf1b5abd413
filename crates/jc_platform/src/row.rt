//! What a line of the platform table says.

use crate::names::{PlatformClass, PlatformMethod, PlatformPackage};

/// The major and minor version of a package.
#[derive(Clone, Copy)]
pub struct Version {
    pub major: u8,
    pub minor: u8,
}

/// How many bytes random data are made from.
pub const RANDOM_SIZE: usize = 32;

/// A line that says where a name of the platform stands.
#[derive(Clone, Copy)]
pub enum Row {
    /// The first line of a table that may have names of the second list.
    Extended,
    /// The bytes that random data are made from.
    Random([u8; RANDOM_SIZE]),
    /// A package with its version.
    Package(PlatformPackage, Version),
    /// A class with its token.
    Class(PlatformClass, u8),
    /// A method with its token.
    Method(PlatformMethod, u8),
}
