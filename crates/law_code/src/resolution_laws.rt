//! Laws of the definitions of linking.
ghost use Rattle.law_code.specs.ResolutionLaws.{HideFields, AllResolve, AddingKeeps};

/// Where one more package comes after packages that were linked, each onto those before it, all look-ups stay
/// as they were in each package and each class but those of the new one's number: what entries resolve to,
/// classes, methods and the cells of instances.
pub fn look_ups_stay_with_one_more_package()
    ensures { AddingKeeps }
{}

/// Among packages that were linked, each onto those before it, every entry of every constant pool resolves, and
/// is looked up by its index as what it resolves to.
pub fn all_entries_resolve()
    ensures { AllResolve }
{}

/// Among packages that were linked, each onto those before it, no entry names a field of an instance of one of
/// the platform's classes itself.
pub fn fields_of_the_platform_have_no_names()
    ensures { HideFields }
{}
