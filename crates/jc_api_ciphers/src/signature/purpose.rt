//! What a call of `Signature` asks of the mode.
ghost use Rattle.std.specs.Prelude.{◌≡◌};
ghost use Rattle.jc_api.specs.Exits.{plainly};
ghost use Rattle.jc_api_ciphers.specs.Signature.Purpose.{allows, initialized_for};

use crate::initialized::is_mode;
use jc_api_keys::exceptions::INVALID_INIT;
use jc_frames::FrameExit;

/// What a call asks of the mode.
#[derive(Clone, Copy)]
pub enum Purpose {
    Either,
    Signing,
    Verifying,
}

// A call for a purpose is allowed in a mode.
fn allows(purpose: Purpose, mode: i16) -> bool
    ensures { result ≡ allows purpose mode }
{
    match purpose {
        Purpose::Either => is_mode(mode),
        Purpose::Signing => mode == 1,
        Purpose::Verifying => mode == 2,
    }
}

/// The same, or INVALID_INIT is thrown.
pub(crate) fn initialized_for(purpose: Purpose, mode: i16) -> Result<(), FrameExit>
    ensures allowed { result ≡ initialized_for purpose mode }
    ensures plain { plainly result ≡ result }
{
    if allows(purpose, mode) {
        Ok(())
    } else {
        Err(FrameExit::Throw(INVALID_INIT))
    }
}
