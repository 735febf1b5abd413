//! Laws of the definitions, for answers of any types.
ghost use Rattle.jc_memory.specs.ProgramLaws.{NullsDeadReferences, IsSequence, IsByEffects, IsFresh};

/// Two in a row are done where the first and then the second is; a loss of power within them falls within the
/// first, or within the second after the first was done.
pub fn calls_follow_one_another<A, B>()
    ensures { IsSequence A B }
{}

/// What was done was done by its effects in turn, and a loss of power within it leaves the durable heap before
/// one of its moves.
pub fn losses_fall_before_a_move<A>()
    ensures { IsByEffects A }
{}

/// A new reference is not null, and names nothing that stood.
pub fn new_references_are_fresh()
    ensures { IsFresh }
{}

/// A reference that named an object before an abort is null after it where the object is no longer there, and else as
/// it was. That the references in frames and in transient cells are null or name an object is a premise here.
pub fn aborts_null_dead_references()
    ensures { NullsDeadReferences }
{}
