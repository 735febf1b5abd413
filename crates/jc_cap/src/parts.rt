//! The parts of which several components have counted lists.
ghost use Rattle.jc_cap.specs.Reading.{ParsesAs, rest_after};

use crate::class_refs::class_ref;
use crate::counted::Part;
use crate::fault::CapFault;
use crate::fields::u2;
use crate::packages::package_info;

/// Two bytes.
pub struct U2;

impl Part for U2 {
    ghost use Rattle.std.specs.Prelude.{ℕ};
    ghost use Rattle.jc_cap.specs.Reading.{u2_at};

    ghost Said = { ℕ };

    ghost at = { u2_at };

    fn skip(bytes: &[u8]) -> Result<&[u8], CapFault> {
        let (_, rest) = u2(bytes)?;
        Ok(rest)
    }
}

/// A reference to a class.
pub struct ClassRefPart;

impl Part for ClassRefPart {
    ghost use Rattle.jc_cap.specs.declared.class_refs.ClassRef.{ClassRef};
    ghost use Rattle.jc_cap.specs.ClassRefs.{class_ref_at};

    ghost Said = { ClassRef };

    ghost at = { class_ref_at };

    fn skip(bytes: &[u8]) -> Result<&[u8], CapFault> {
        let (_, rest) = class_ref(bytes)?;
        Ok(rest)
    }
}

/// The name of a package.
pub struct PackagePart;

impl Part for PackagePart {
    ghost use Rattle.jc_cap.specs.Packages.{NamedPackage, package_at};

    ghost Said = { NamedPackage };

    ghost at = { package_at };

    fn skip(bytes: &[u8]) -> Result<&[u8], CapFault> {
        let (_, rest) = package_info(bytes)?;
        Ok(rest)
    }
}
