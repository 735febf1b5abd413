//! What a listing shows besides what each one does.

/// What a listing shows besides.
#[derive(Clone, Copy, Drop)]
pub struct Shown {
    /// The objects of the runtime environment.
    pub all: bool,
    /// The bytes of keys.
    pub secrets: bool,
}
