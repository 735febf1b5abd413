//! Laws of sessions.
ghost use Rattle.jc_card.specs.SessionLaws.{AreWholeSessions, DownTellsRefusals, ManagerUnselects, ResetsBeginAnew};

/// A session over a store that refuses no write is that of a card that keeps whole copies of its heap. Its
/// replies are responses, ready and armed, and its heap is that card's.
pub fn sessions_are_those_of_whole_copies()
    ensures { AreWholeSessions }
{}

/// A reset leaves nothing of what died with the power.
pub fn a_reset_begins_anew()
    ensures { ResetsBeginAnew }
{}

/// After SELECT of the manager nothing is selected.
pub fn selecting_the_manager_unselects()
    ensures { ManagerUnselects }
{}

/// Down is answered exactly where the card is off then, since the store has refused one more write, or since it
/// was off when the command came.
pub fn down_is_answered_for_a_refused_write()
    ensures { DownTellsRefusals }
{}
