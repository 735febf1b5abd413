//! A law of attacks.
ghost use Rattle.jc_interp.specs.Attacks.{OppositesDiffer};

/// A conditional branch that is turned goes on exactly where it would not, with the cells below those that it takes.
pub fn opposite_conditions_hold_where_others_do_not()
    ensures { OppositesDiffer }
{}
