//! What a class says while a method is looked up from a class upwards.

/// What one class says of what is looked up.
#[derive(Clone, Copy)]
pub enum Search<T> {
    /// It is this.
    Found(T),
    /// The superclass is asked.
    Above,
    /// There is none, whatever stands above.
    Nowhere,
}
