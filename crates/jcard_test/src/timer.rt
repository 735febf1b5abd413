//! What knows the time.

/// What knows the time. No result depends on it but the times that a report has.
pub trait Timer {
    /// The microseconds since some moment that stays the same.
    fn microseconds(&self) -> u64;
}

/// Knows no time.
#[derive(Clone, Copy, Drop)]
pub struct NoTimer;

impl Timer for NoTimer {
    fn microseconds(&self) -> u64 {
        0
    }
}
