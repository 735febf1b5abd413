//! Guesses at a PIN in a transaction.
ghost use Rattle.law_code.specs.PinUpdateLaws.{TakeATry};

/// A wrong guess at a PIN takes a try for good, also in a transaction, as long as that has not changed the PIN
/// itself: neither an abort nor a loss of power gives it back.
pub fn wrong_guesses_take_a_try_for_good()
    ensures { TakeATry }
{}
