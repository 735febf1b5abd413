//! Which packages a package imports.
ghost use Rattle.std.specs.Prelude.{◌≡◌, Err};
ghost use Rattle.jc_cap.specs.FieldViews.{package_info};
ghost use Rattle.jc_linker.specs.Answers.{Answers, Tells};
ghost use Rattle.jc_linker.specs.Imports.{AreFound, import_number, import_numbers, version_of};

use crate::copies::bytes;
use crate::fault::LinkFault;
use crate::linked::Linked;
use arrayvec::ArrayVec;
use jc_cap::imports::Imports;
use jc_cap::packages::PackageInfo;
use jc_platform::row::Version;
use std::alloc::Global;

impl Linked {
    /// The version of the package with this number.
    #[tactic(auto, unfolding(crate::specs::Imports::version_of))]
    fn version_of(&self, number: u8) -> Option<Version>
        ensures { result ≡ version_of self.now number }
    {
        if let Some(package) = self.package(number) {
            return Some(Version {
                major: package.name.major_version,
                minor: package.name.minor_version,
            });
        }
        let named = self.platform.package(number)?;
        self.platform.version(named)
    }

    /// The number of the package that is imported, if its version fits.
    #[tactic(auto, unfolding(crate::specs::Imports::import_number))]
    fn import_number(&self, import: PackageInfo<'_>) -> Result<u8, LinkFault>
        ensures { result ≡ import_number self.now (package_info import.entry) }
    {
        let Some(number) = self.package_with_aid(import.aid) else {
            return Err(LinkFault::ImportMissing);
        };
        match self.version_of(number) {
            Some(version)
                if import.major_version == version.major && import.minor_version <= version.minor =>
                { Ok(number) }
            _ => Err(LinkFault::ImportVersion),
        }
    }

    /// The numbers of all packages that are imported, or the fault of the first that fails. No memory is asked for.
    fn numbers_found(&self, imports: &Imports<'_>) -> Result<ArrayVec<u8, 255>, LinkFault>
        ensures { Tells (λ v. v.items) result (import_numbers self.now imports.now) }
    {
        let mut numbers: ArrayVec<u8, 255> = ArrayVec::new();
        for token in 0..imports.count() {
            let number = self.import_number(imports.get(token))?;
            numbers.push(number);
        }
        Ok(numbers)
    }

    /// The same. Memory is asked for once all are found.
    pub(crate) fn import_numbers(
        &self,
        alloc: Global,
        imports: &Imports<'_>,
    ) -> Result<Vec<u8>, LinkFault>
        ensures answer { Answers (λ v. v.items) result (import_numbers self.now imports.now) }
        ensures found { result ≡ Err LinkFault.NoMemory → AreFound self.now imports.now }
    {
        let numbers = self.numbers_found(imports)?;
        let copy = bytes(alloc, numbers.as_slice())?;
        Ok(copy)
    }
}
