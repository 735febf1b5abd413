//! What the layers above a journal rest on.
ghost use Rattle.jc_commit.specs.Keep.{KeepsOldValues};

/// What a change keeps of the words that it writes, for every state of a transaction: what goes back goes
/// on going back, and costs nothing; what a change touches goes back from then on, and nothing else does;
/// room for two changes is room for the one and after it for the other; and no old value is kept twice.
pub fn what_changes_keep()
    ensures { KeepsOldValues }
{}
