//! The formats of CAP files that are read.

/// A format, by its major and minor version. A package's Header component states it, and its Directory and Class components
/// are read by it.
#[derive(Clone, Copy, Drop, PartialEq, Eq)]
pub enum Format {
    /// Version 2.1.
    V2_1,
    /// Version 2.2: the Header has a name, the Directory a twelfth size, the Class component a signature pool.
    V2_2,
}
