//! Why a text is no platform table.

use thiserror::Error;

/// Why a text is no platform table.
#[derive(Clone, Copy, Debug, Error)]
pub enum TableFault {
    /// The first bad line, counted from 1; or 0 for a text above 16,384 bytes, and for one whose lines are
    /// all good while a name is missing.
    #[error("bad table line {0}")]
    BadTable(u16),
}
