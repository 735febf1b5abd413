//! How far a command has come.
ghost use Rattle.std.specs.Prelude.{◌≡◌};
ghost use Rattle.jc_memory.specs.State.{SetRegisters, apply_effect};
ghost use Rattle.jc_api_framework.specs.Apdu.{with_phase};

use jc_memory::{ApduPhase, Memory};
use jc_words::WordStore;

/// The command has come so far.
pub(crate) fn set_phase<S: WordStore>(memory: &mut Memory<S>, phase: ApduPhase)
    ensures { memory.new ≡ apply_effect (SetRegisters (with_phase memory.old phase)) memory.old }
{
    memory.set_phase(phase);
}
