//! Laws of the definitions of classes.
ghost use Rattle.law_code.specs.ClassLaws.{HaveAids, HaveCells, HaveClasses, HaveFields, HaveReceivers};

/// Among packages that were linked, each onto those before it, an instance of a class of the platform, or of
/// one below it, has that class's cells first, which hold references or numbers as there.
pub fn instances_have_the_cells_of_the_platform()
    ensures { HaveCells }
{}

/// Among packages that were linked, each onto those before it, a field that an entry names is, in instances of
/// its class and of those below, a cell of the kind that the entry says, and none that a class of the platform
/// has.
pub fn fields_are_cells_of_their_kind()
    ensures { HaveFields }
{}

/// Among packages that were linked, each onto those before it, a method of the platform is reached by instances
/// of its class alone: by token, and by an entry that names it as a static one.
pub fn methods_of_the_platform_are_reached_by_their_classes()
    ensures { HaveReceivers }
{}

/// Among packages that were linked, each onto those before it, all this is so, and a class or an interface that
/// an entry names is there.
pub fn linked_packages_know_their_classes()
    ensures { HaveClasses }
{}

/// Among packages that were linked, each onto those before it, whose applets are those of Applet components,
/// the AID of each applet is one: 5 to 16 bytes.
pub fn applets_of_linked_packages_have_aids()
    ensures { HaveAids }
{}
