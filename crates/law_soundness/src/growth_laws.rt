//! Laws of packages that are read.
ghost use Rattle.law_soundness.specs.GrowthLaws.{ImagesHaveWords, RecordsAreRead};

/// The packages that a heap's records are read as, after a platform of which a table was read with tokens of
/// one byte each, were linked, each onto those before it, from class records that are those of a Class
/// component and applets that are those of an Applet component; and the platform's tokens stand for its names.
pub fn packages_that_were_read_are_linked()
    ensures { RecordsAreRead }
{}

/// The records of packages in an image of 16-bit words are of such words.
pub fn package_records_are_of_words()
    ensures { ImagesHaveWords }
{}
