//! How instructions and runs end.
ghost use Rattle.std.specs.Prelude.{◌≡◌};
ghost use Rattle.jc_frames.specs.Calls.{outcome_of};

use crate::cell::Cell;
use crate::exceptions::Exception;
use jc_transient::Ref;

/// How a run ended.
#[derive(Clone, Copy)]
pub enum Outcome {
    /// By `return`.
    Void,
    /// By `sreturn`, with this short.
    Short(i16),
    /// By `areturn`, with this reference.
    Reference(Ref),
    /// By this exception, which nothing caught.
    Thrown(Ref),
    /// By a code fault, which no code can catch.
    Fault,
}

impl Outcome {
    /// How a run ends whose outermost method hands this over.
    #[inline]
    pub fn of_value(value: Option<Cell>) -> Outcome
        ensures { result ≡ outcome_of value }
    {
        let Some(cell) = value else {
            return Outcome::Void;
        };
        match cell {
            Cell::Short(v) => Outcome::Short(v),
            Cell::Reference(r) => Outcome::Reference(r),
            Cell::ReturnAddress(_) => Outcome::Fault,
        }
    }
}

/// A code fault: a stack over or under its limits, a cell of the wrong kind, a jump outside the method,
/// an instruction that is not one or is cut, too many frames or cells.
#[derive(Clone, Copy)]
pub struct CodeFault;

/// Why a method does not go on with its next instruction.
#[derive(Clone, Copy)]
pub enum FrameExit {
    /// The runtime environment throws.
    Throw(Exception),
    /// The run ends.
    End(Outcome),
}

impl From<CodeFault> for FrameExit {
    ghost use Rattle.std.specs.Prelude.{◌≡◌};
    ghost use Rattle.jc_frames.specs.declared.outcome.FrameExit.TheVariants.{End};
    ghost use Rattle.jc_frames.specs.declared.outcome.Outcome.TheVariants.{Fault};

    ghost from_gives = { λ _ stop. stop ≡ End Fault };

    fn from(_: CodeFault) -> Self {
        FrameExit::End(Outcome::Fault)
    }
}
