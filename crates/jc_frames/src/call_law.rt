//! Laws of calls and returns.
ghost use Rattle.jc_frames.specs.CallLaw.{ReturnsToCaller};

/// A call and its return leave the caller, and all below it, as they were, but for the arguments,
/// whatever the called method did in its own frame; and they come back to what the call said.
pub fn calls_return_to_their_caller()
    ensures { ReturnsToCaller }
{}
