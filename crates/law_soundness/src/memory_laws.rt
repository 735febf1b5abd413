//! Laws of the definitions.
ghost use Rattle.law_soundness.specs.MemoryLaws.Environment.{KeepsEnvironment};
ghost use Rattle.law_soundness.specs.MemoryLaws.Fit.{KeepsSound};
ghost use Rattle.law_soundness.specs.MemoryLaws.State.{OutlastsLosses};

/// An effect that fits the packages leaves a memory that fits them so, the heap as it is and the one that a
/// loss of power leaves.
pub fn fit_effects_keep_memories_sound()
    ensures { KeepsSound }
{}

/// What a loss of power leaves of a memory that fits the packages is found sound as a card powers up over it,
/// and the memory of that card fits them again.
pub fn sound_memories_outlast_losses()
    ensures { OutlastsLosses }
{}

/// An effect that fits the packages leaves the runtime environment's objects its own, and its instances those
/// of classes of the platform.
pub fn fit_effects_keep_the_environments_objects()
    ensures { KeepsEnvironment }
{}
