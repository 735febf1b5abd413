//! A store that is closed.
ghost use Rattle.std.specs.Prelude.{◌≡◌};

/// A store that is closed: it is read, and nobody writes to it any more.
#[derive(Drop)]
pub struct ClosedStore<S> {
    store: S,
}

impl<S> ClosedStore<S> {
    /// Closes a store, as it is.
    pub fn new(store: S) -> ClosedStore<S>
        ensures { result.store ≡ store }
    {
        ClosedStore { store }
    }

    /// The store, to read it.
    pub fn store(&self) -> &S
        ensures { result.now ≡ self.now.store }
    {
        &self.store
    }
}
