//! Packages by name.
ghost use Rattle.std.specs.Prelude.{◌≡◌};
ghost use Rattle.jc_cap.specs.Reading.{ParsesAs};
ghost use Rattle.jc_cap.specs.Packages.{package_at};
ghost use Rattle.jc_cap.specs.FieldViews.{package_info};

use crate::fault::CapFault;
use crate::fields::{aid, u1};

/// The version and the AID of a package (`package_info` of the Java Card CAP format).
#[derive(Clone, Copy, Drop)]
pub struct PackageInfo<'a> {
    pub minor_version: u8,
    pub major_version: u8,
    /// 5 to 16 bytes.
    pub aid: &'a [u8],
}

/// A minor and a major version, and an AID after its length.
#[tactic(auto, unfolding(crate::specs::Packages::package_at))]
pub fn package_info(bytes: &[u8]) -> Result<(PackageInfo<'_>, &[u8]), CapFault>
    ensures { ParsesAs (λ x. (package_info x.0, x.1.now)) result (package_at bytes.now) }
{
    let (minor_version, rest) = u1(bytes)?;
    let (major_version, rest) = u1(rest)?;
    let (aid, rest) = aid(rest)?;
    let info = PackageInfo {
        minor_version,
        major_version,
        aid,
    };
    Ok((info, rest))
}
