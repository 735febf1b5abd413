//! The models of faults that a sweep tries.
ghost use Rattle.std.specs.Prelude.{◌≡◌};
ghost use Rattle.jcard_outcomes.specs.Models.{all_models, no_models};

/// Which models of faults are tried.
#[derive(Clone, Copy, Drop)]
pub struct Models {
    /// An instruction is skipped.
    pub skip: bool,
    /// A conditional branch goes the other way.
    pub turn: bool,
    /// A value that an instruction leaves is 0, a reference null.
    pub zero: bool,
}

impl Models {
    /// All of them.
    pub const fn all() -> Self
        ensures { result ≡ all_models }
    {
        Models {
            skip: true,
            turn: true,
            zero: true,
        }
    }

    /// None of them.
    pub const fn none() -> Self
        ensures { result ≡ no_models }
    {
        Models {
            skip: false,
            turn: false,
            zero: false,
        }
    }
}
