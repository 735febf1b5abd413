//! Laws of the definitions.
ghost use Rattle.law_theorems.specs.CardLaws.{SessionsEndWell};

/// A session over the store of a new image, or over one that sessions left of it, leaves such a store, which
/// powers up again; neither its first power up nor a reset in it finds a fault but want of memory.
pub fn sessions_leave_images_that_power_up_again()
    ensures { SessionsEndWell }
{}
