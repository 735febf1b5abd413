//! For whom code runs, and how far a command has come.
ghost use Rattle.std.specs.Prelude.{◌≡◌};
ghost use Rattle.jc_memory.specs.Registers.{at_reset};

use jc_transient::{AppletNumber, Owner, PackageNumber};

/// Whether the applet has begun a transaction: the nesting level 1 or 0.
#[derive(Clone, Copy)]
pub enum Depth {
    Outside,
    Inside,
}

/// Whether an applet is being installed.
#[derive(Clone, Copy)]
pub enum Installation {
    /// None is.
    Idle,
    /// Its `install` runs and has not registered an instance yet: the package, and the entry of its
    /// Applet component.
    Open(PackageNumber, u8),
    /// Its `install` has registered an instance, which is of this package.
    Registered(PackageNumber),
}

/// How far an APDU has come.
#[derive(Clone, Copy)]
pub enum ApduPhase {
    /// Nothing but the header has been received.
    Waiting,
    /// This number of bytes of the data has been received.
    Received(u16),
    /// It turned to sending; how much is not said yet, this number of bytes at most.
    Outgoing(u16),
    /// This number of bytes is left to be sent.
    Sending(u16),
}

/// The APDU that is carried out.
#[derive(Clone, Copy)]
pub struct ApduState {
    /// How many bytes the command expects, 0 to 65535. 0 where it says 0 or nothing.
    pub expected: u16,
    pub phase: ApduPhase,
}

/// What is known of running code besides objects.
#[derive(Clone, Copy)]
pub struct Registers {
    /// For whom code runs.
    pub active: Owner,
    /// For whom it ran before the last switch.
    pub previous: Owner,
    /// The selected applet; none, where the manager answers.
    pub selected: Option<AppletNumber>,
    /// The command is the one that selected the applet.
    pub selecting: bool,
    /// The command selects the applet that was selected before it.
    pub reselecting: bool,
    pub depth: Depth,
    pub installation: Installation,
    pub apdu: ApduState,
}

impl Registers {
    /// After a reset: the runtime environment runs, and no applet is selected.
    pub const fn at_reset() -> Registers
        ensures { result ≡ at_reset }
    {
        Registers {
            active: Owner::Runtime,
            previous: Owner::Runtime,
            selected: None,
            selecting: false,
            reselecting: false,
            depth: Depth::Outside,
            installation: Installation::Idle,
            apdu: ApduState {
                expected: 0,
                phase: ApduPhase::Waiting,
            },
        }
    }
}
