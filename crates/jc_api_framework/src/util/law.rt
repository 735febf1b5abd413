//! What holds of the calls of `Util`.
ghost use Rattle.jc_api_framework.specs.Util.{AreReadByKinds};

/// Law: each call reads its arguments by the kinds that its row lists. It does nothing.
pub fn util_reads_by_kinds()
    ensures { AreReadByKinds }
{}
