//! Laws of the definitions of methods, and of the platform's tokens.
ghost use Rattle.law_code.specs.MethodLaws.{HaveBytes, HaveMethods, HaveNoCode, RunTheirMethods, ArePlain};

/// Among packages that were linked, each onto those before it, what a call by token, one by interface and one
/// of a superclass's method find of the platform is a method of the receiver's class, by the first two no
/// static one; what an entry for virtual calls names of the platform is a method of each class below its own; above Object is no
/// class; and there are no more packages than a card can have.
pub fn linked_packages_know_their_methods()
    ensures { HaveMethods }
{}

/// Among packages that were linked, each onto those before it, a virtual call on an instance of a class finds the method that
/// the instance's class has by the call's token, though it begins with the one that linking found for the class that its entry names.
pub fn virtual_calls_run_the_method_of_their_receiver()
    ensures { RunTheirMethods }
{}

/// Among packages that were linked, each onto those before it, a call on an instance of one of the platform's
/// classes, by token, by interface or by an entry, finds no method in bytecode.
pub fn classes_of_the_platform_have_no_code()
    ensures { HaveNoCode }
{}

/// Where reading a text answers a platform table, the token of each class is one byte.
pub fn platform_tokens_are_bytes()
    ensures { HaveBytes }
{}

/// Where a text without the line `extended` is read as a platform table, the table has no name but those that each
/// table has: no class and no method of the second list, nor another package. Random data are made from zeros.
pub fn tables_without_the_line_have_no_further_names()
    ensures { ArePlain }
{}
