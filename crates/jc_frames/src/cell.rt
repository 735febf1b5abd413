//! What methods compute with.
ghost use Rattle.std.specs.Prelude.{◌≡◌};
ghost use Rattle.jc_frames.specs.Cell.{without_dead};

use jc_transient::Ref;

/// What a local or a place of the operand stack holds, with its kind.
#[derive(Clone, Copy)]
pub enum Cell {
    /// A short; bytes and booleans are shorts here.
    Short(i16),
    /// The name of an object, or null.
    Reference(Ref),
    /// An address in the method, which `jsr` pushes and `ret` takes.
    ReturnAddress(u16),
}

impl Default for Cell {
    ghost use Rattle.std.specs.Prelude.{◌≡◌, pos};
    ghost use Rattle.jc_frames.specs.declared.cell.Cell.TheVariants.{Short};

    ghost is_default = { λ cell. cell ≡ Short (pos 0) };

    /// What a local holds as a method begins.
    fn default() -> Self {
        Cell::Short(0)
    }
}

impl Cell {
    /// The cell, or null where it refers to an object at or above the top.
    pub const fn without_dead(self, top: u16) -> Cell
        ensures { result ≡ without_dead top self }
    {
        match self {
            Cell::Reference(r) => {
                if r.address() < top {
                    Cell::Reference(r)
                } else {
                    Cell::Reference(Ref::null())
                }
            }
            other => other,
        }
    }
}
