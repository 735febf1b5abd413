//! The tag and the size that stand before each component's info.
ghost use Rattle.std.specs.Prelude.{◌≡◌, ◌<◌, ◌^◌, length, Ok, IfOk};
ghost use Rattle.jc_cap.specs.Reading.{ParsesAs, IsReadable};
ghost use Rattle.jc_cap.specs.Envelope.{info_at};

use crate::fault::CapFault;
use crate::fields::u2;

/// The info of the component with this tag: Missing where the bytes do not begin with the tag, Truncated or Trailing
/// where they are fewer or more than the size says.
#[tactic(auto, unfolding(crate::specs::Envelope::info_at))]
pub fn info_of(tag: u8, bytes: &[u8]) -> Result<&[u8], CapFault>
    ensures exact { ParsesAs (λ x. x.now) result (info_at tag bytes.now) }
    ensures small { IfOk result (λ x. length x.now < 2 ^ 16) }
{
    match bytes {
        [] => Err(CapFault::Missing(tag)),
        [first, rest @ ..] => {
            if *first != tag {
                return Err(CapFault::Missing(tag));
            }
            let (size, info) = u2(rest)?;
            let size = size as usize;
            if info.len() < size {
                return Err(CapFault::Truncated);
            }
            if size < info.len() {
                return Err(CapFault::Trailing);
            }
            Ok(info)
        }
    }
}

/// The info of a component that was read before.
pub fn info_found_in(tag: u8, bytes: &[u8]) -> &[u8]
    requires { IsReadable (info_at tag bytes.now) }
    ensures found { info_at tag bytes.now ≡ Ok result.now }
    ensures small { length result.now < 2 ^ 16 }
{
    match info_of(tag, bytes) {
        Ok(info) => info,
        Err(_) => unreachable!(),
    }
}
