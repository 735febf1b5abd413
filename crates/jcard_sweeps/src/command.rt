//! A command of a script that is swept, and what comes after each cut of it.
ghost use Rattle.std.specs.Prelude.{◌≡◌};
ghost use Rattle.jcard_sweeps.specs.Command.{nothing_more};

use jcard_outcomes::recoveries::Depth;

/// What comes after each cut of a command: how many recoveries are cut, whether the cells that changed are reported, and with how many
/// instructions a command may run.
#[derive(Clone, Copy, Drop)]
pub struct Behind {
    pub depth: Depth,
    pub objects: bool,
    /// The most instructions of a command, those of the script and of the probe too.
    pub instructions: u32,
}

impl Behind {
    /// What comes after a cut where only the answers of the probe are asked for.
    pub fn nothing_more(instructions: u32) -> Behind
        ensures { result ≡ nothing_more instructions }
    {
        Behind {
            depth: Depth::Zero,
            objects: false,
            instructions,
        }
    }
}

/// A command of a script: the text before its line, its line, what is asked after a reset, and what else comes after each of its
/// cuts.
#[derive(Clone, Copy, Drop)]
pub struct Command<'a> {
    pub before: &'a [u8],
    pub line: &'a [u8],
    pub probe: &'a [u8],
    pub behind: Behind,
}
