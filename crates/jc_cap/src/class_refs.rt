//! References to classes and interfaces.
ghost use Rattle.std.specs.Prelude.{◌≡◌};
ghost use Rattle.jc_cap.specs.Reading.{ParsesAs};
ghost use Rattle.jc_cap.specs.ClassRefs.{class_ref_at};

use crate::fault::CapFault;
use crate::fields::u1;

/// A class or an interface (`class_ref` of the Java Card CAP format).
#[derive(Clone, Copy, Drop)]
pub enum ClassRef {
    /// In this package: the offset of its record in the Class component's info, below 32768.
    Internal(u16),
    /// In an imported package: the token of the package, 0 to 127, and the token of the class.
    External { package_token: u8, class_token: u8 },
}

/// A class reference: two bytes, of which the high bit says that it is external.
#[tactic(auto, unfolding(crate::specs::ClassRefs::class_ref_at))]
pub fn class_ref(bytes: &[u8]) -> Result<(ClassRef, &[u8]), CapFault>
    ensures { ParsesAs (λ x. (x.0, x.1.now)) result (class_ref_at bytes.now) }
{
    let (high, rest) = u1(bytes)?;
    let (low, rest) = u1(rest)?;
    if high < 128 {
        return Ok((ClassRef::Internal(high as u16 * 256 + low as u16), rest));
    }
    let external = ClassRef::External {
        package_token: high - 128,
        class_token: low,
    };
    Ok((external, rest))
}
