//! Laws of the definitions: what is read is what stands in the bytes.
ghost use Rattle.jc_cap.specs.Reading.{aid_at};
ghost use Rattle.jc_cap.specs.Grammar.{IsAid, IsPackageInfo, IsClassRef, ReadsEncodings, ReadsListEncodings, ReadsWholeEncodings};
ghost use Rattle.jc_cap.specs.ClassRefs.{class_ref_at};
ghost use Rattle.jc_cap.specs.Packages.{package_at};

/// An AID that is read stands at the front of the bytes, and one that stands there is read.
pub fn aids_are_told()
    ensures { ReadsEncodings aid_at IsAid }
{}

/// The same of package names.
pub fn packages_are_told()
    ensures { ReadsEncodings package_at IsPackageInfo }
{}

/// The same of class references.
pub fn class_references_are_told()
    ensures { ReadsEncodings class_ref_at IsClassRef }
{}

/// The same of counted lists of them. The proof is one for lists of any values.
pub fn lists_are_told()
    ensures { ReadsListEncodings class_ref_at IsClassRef }
{}

/// A whole info is read exactly where it is a text. The proof is one for any values.
pub fn wholes_are_told()
    ensures { ReadsWholeEncodings class_ref_at IsClassRef }
{}
