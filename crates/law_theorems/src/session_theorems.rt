//! Laws of whole sessions.
ghost use Rattle.law_theorems.specs.Outcomes.{StoresCome};
ghost use Rattle.law_theorems.specs.SessionTheorems.Commands.{CommandsRunCode};
ghost use Rattle.law_theorems.specs.SessionTheorems.Cuts.{KeepWhatWasDone, LeaveTheChangesBeforeThem};
ghost use Rattle.law_theorems.specs.SessionTheorems.Eventful.{HaveEventfulWitness};
ghost use Rattle.law_theorems.specs.SessionTheorems.Fuse.{FusesCut};
ghost use Rattle.law_theorems.specs.SessionTheorems.Images.{PowerUpAgain};
ghost use Rattle.law_theorems.specs.SessionTheorems.Isolation.{StayApart};
ghost use Rattle.law_theorems.specs.SessionTheorems.References.{ReferencesNameObjects};
ghost use Rattle.law_theorems.specs.SessionTheorems.Refusals.{DownTells};
ghost use Rattle.law_theorems.specs.SessionTheorems.TakenBack.{IsTakenBack};
ghost use Rattle.law_theorems.specs.SessionTheorems.Tears.{CutsAreNamed};
ghost use Rattle.law_theorems.specs.SessionTheorems.TryChanges.{TriesChangeByPinCalls};
ghost use Rattle.law_theorems.specs.SessionTheorems.WholeCopies.{AreOfWholeCopies};
ghost use Rattle.law_theorems.specs.SessionTheorems.Witness.{HaveWitnesses, NewStoresServe};

/// While no write is refused, a session answers exactly as a card does that keeps two whole copies of its heap,
/// the present one and the one of the last commit, and leaves the same heap.
pub fn sessions_without_refused_writes_are_of_whole_copies()
    ensures { AreOfWholeCopies }
{}

/// Down is answered exactly where the store refused a write during the command or the reset, or where a command
/// came to a card without power; and with any other answer no write was refused.
pub fn down_tells_of_refused_writes()
    ensures { DownTells }
{}

/// What is not committed is taken back: by an abort, by the end of the command, and by a loss of power at any
/// write, followed by any number of resets that are cut as well. The heap is then as the transaction found it, but
/// for the tries of its OwnerPINs: those that were counted before the transaction first updated the PIN or ran its
/// constructor stay counted, and no others; and but for elements of persistent arrays of bytes, which stay as they were set
/// for good before the transaction first changed their words. Where no transaction is open, all changes before the loss stay.
pub fn sessions_take_back_what_is_not_committed()
    ensures { IsTakenBack }
{}

/// A cut leaves the changes before it: where the power is cut in a command when exactly k of its writes have passed, the
/// next reset that completes, after any number of cut ones, finds the heap after those changes that are complete by
/// then, and no other. With a fuse of K writes k is K. So what was committed before the cut stays; and so does a try of an
/// OwnerPIN that was counted, until something else sets its tries, unless the open transaction had changed the PIN before.
pub fn a_cut_leaves_the_changes_before_it()
    ensures cut { LeaveTheChangesBeforeThem }
    ensures stays { KeepWhatWasDone }
{}

/// What `jcard tear` reports of a cut is what `a_cut_leaves_the_changes_before_it` names: over an image of the product's own,
/// the heap after the cut after k writes is the one after those changes of the command that are complete by then.
pub fn cuts_that_are_told_are_those_that_the_law_names()
    ensures { CutsAreNamed }
{}

/// At whatever moment of whatever command of a session, the tries of an OwnerPIN change only as they are counted, by an
/// update of that PIN or its constructor, or as an abort takes changes back.
pub fn sessions_change_tries_by_pin_calls_alone()
    ensures { TriesChangeByPinCalls }
{}

/// After `stop K`, until the fuse is armed again, and while the store below refuses no write by itself, no write is
/// refused, at most K more pass, and the fuse stands K writes ahead of those that had passed; or exactly one is, when K
/// more have passed, and burns the fuse out. A reset in between changes nothing of that, and its own writes count. That
/// the store lets no more writes pass than its fuse does is a premise that each store meets (`WordStore::passed_writes`),
/// and that `run_script` and `session` report of the one that they give back.
pub fn fuses_cut_where_they_were_set()
    ensures { FusesCut }
{}

/// Each effect of a command of a session is one of the runtime environment's, which commits nothing and sets no object but
/// the APDU buffer, or one of a step of code that began within the command, from where a method may begin. So no commit
/// stands in it that code did not ask for, and what code left open is taken back.
pub fn commands_are_the_environments_and_runs_of_code()
    ensures { CommandsRunCode }
{}

/// Between two switches of context, at whatever moment of whatever command of a session, code leaves each object
/// outside its reach as it is, header, cells and flag, and outside its reach, as long as nothing aborts. A step switches
/// only as it calls a method on an object in another context, which the firewall answers so, asks a server, or ends a
/// method, by a return or an exception.
pub fn sessions_keep_contexts_apart()
    ensures { StayApart }
{}

/// At whatever moment of whatever command of a session, each reference in arrays, transient ones too, in fields and in
/// static fields is null or names an object that is there; and so is each in locals and on stacks, however many steps
/// code takes, whatever it is, and what its run returns or throws uncaught. So code faults on no reference that names
/// nothing.
pub fn references_name_what_is_there()
    ensures { ReferencesNameObjects }
{}

/// A new image powers up, and so does each that sessions and scripts leave of one, however they end and wherever the
/// power was cut: only memory that is refused, or a refused write, stops it.
pub fn images_power_up_again()
    ensures { PowerUpAgain }
{}

/// The premises of these laws can be met, each by what is named beside it, over any table that reads: by a new image, the card
/// after its first reset, also a cut one, a command of it, and code that begins within the command; by a session over each
/// store of a new image; and each session over a store that commands left is one of which they tell. And by a session in which
/// much happens: two packages come in, and an applet of each with an OwnerPIN; the first counts a try, writes a field, updates
/// its PIN in a transaction that it commits and in one that it aborts, or that is cut, while the other's PIN is out of its reach.
pub fn premises_can_be_met()
    ensures witnesses { HaveWitnesses }
    ensures new_stores { NewStoresServe }
    ensures stores { StoresCome }
    ensures eventful { HaveEventfulWitness }
{}
