//! Laws of the definitions: the first law of atomicity, and what keeps a heap whole.
ghost use Rattle.jc_heap.specs.HeapLaws.{MigrationsKeepHeaps, KeepsConsistent, LeaveWhatIsComplete};
ghost use Rattle.jc_heap.specs.Component.{ReadsBack};
ghost use Rattle.jc_heap.specs.Heap.{HeapState};
ghost use Rattle.jc_heap.specs.Moves.{KeepsDurable};
ghost use Rattle.jc_heap.specs.Place.{HaveOwnWords};
ghost use Rattle.jc_heap.specs.WholeHeap.{IsConsistent, OwnsCells};

/// While a transaction is open, what a loss of power leaves is the heap as the transaction found it, but for
/// the places that were set for good and that no earlier change of it had touched.
pub fn transactions_keep_what_is_durable()
    ensures { KeepsDurable }
{}

/// A loss of power within moves, when n writes have passed, leaves exactly the heap after those moves that are
/// complete by then. So what is complete stays, wherever a later move is cut.
pub fn losses_leave_what_is_complete()
    ensures { LeaveWhatIsComplete }
{}

/// A heap in which nothing stands is whole, and whatever moves follow leave it whole, now and after a loss of
/// power within them, where arrays of references get references and what is added finds its place.
pub fn changes_keep_a_heap_whole()
    ensures { KeepsConsistent }
{}

/// In a whole heap each transient object has cells of its own.
pub fn transient_objects_own_their_cells()
    ensures { (h : HeapState) → IsConsistent h → OwnsCells h }
{}

/// No two places of a heap have one word, so a change of one is no change of another.
pub fn places_have_words_of_their_own()
    ensures { HaveOwnWords }
{}

/// From the record that `add_package` writes each component is read as it was given, byte by byte, and no other
/// one.
pub fn components_are_read_back()
    ensures { ReadsBack }
{}

/// However many writes of an image's migration pass, its words stand for the heap that they stood for.
pub fn migrations_keep_heaps()
    ensures { MigrationsKeepHeaps }
{}
