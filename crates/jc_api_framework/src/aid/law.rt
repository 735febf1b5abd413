//! What holds of AID objects.
ghost use Rattle.jc_api_framework.specs.Aid.Cells.{AreReadBack};

/// Law: an AID object holds the AID that was put into it. It does nothing.
pub fn aids_are_read_back()
    ensures { AreReadBack }
{}
