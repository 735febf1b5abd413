//! What is reported where a script was not carried out to its end.
ghost use Rattle.jcard_sweeps.specs.ScriptFault.{IsScriptFault, IsUnpowered};

use jc_card::power_up::PowerFault;
use jcard_files::fault::{Damage, Fault};
use jcard_script::script::ScriptFault;

/// The names of an image and of a script.
#[derive(Clone, Copy, Drop)]
pub struct Names<'a> {
    pub image: &'a str,
    pub script: &'a str,
}

/// What it means that the script was not carried out to its end.
pub fn script_fault<'a>(names: Names<'a>, cause: ScriptFault) -> Fault<'a>
    ensures { IsScriptFault names.entry.image.now names.entry.script.now cause result }
{
    match cause {
        ScriptFault::ReadFailed => Fault::CannotRead(names.script),
        ScriptFault::WriteFailed => Fault::WriteFailed,
        ScriptFault::BadLine(n) => Fault::BadCommand(n),
        ScriptFault::TooLong => Fault::ScriptTooLong,
        ScriptFault::PowerFault(cause) => power_up_fault(names.image, cause),
    }
}

/// What it means that the card of the image with this name does not power up.
pub fn power_up_fault(image: &str, cause: PowerFault) -> Fault<'_>
    ensures { IsUnpowered image.now cause result }
{
    match cause {
        PowerFault::BadMagic => Fault::BadImage(Damage::Magic),
        PowerFault::BadVersion => Fault::BadImage(Damage::Version),
        PowerFault::BadSize => Fault::BadImage(Damage::Size),
        PowerFault::BadLog => Fault::BadImage(Damage::Log),
        PowerFault::BadTable => Fault::BadImage(Damage::Table),
        PowerFault::BadPackage => Fault::BadImage(Damage::Package),
        PowerFault::NoMemory => Fault::NoMemory,
        PowerFault::StoreDown => Fault::CannotWrite(image),
    }
}
