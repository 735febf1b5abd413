//! What holds of every packed form.

ghost use Rattle.jc_platform.specs.Packing.{ReadsAlike};

/// Law: what an image keeps of a platform table reads as the table itself: as the same table, or with the same fault. It
/// does nothing.
pub fn what_is_kept_reads_alike()
    ensures { ReadsAlike }
{}
