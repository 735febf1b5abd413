//! Which instructions called the frame that runs.
ghost use Rattle.std.specs.Prelude.{◌≡◌};
ghost use Rattle.jc_frames.specs.CallSites.{call_site_at};

use crate::frames::Frames;
use crate::method::Origin;

/// Where a caller waits.
#[derive(Clone, Copy)]
pub struct CallSite {
    /// The method that called.
    pub origin: Origin,
    /// Where the instruction stands that called.
    pub place: u16,
}

impl Frames {
    /// Where the caller with this number waits, from 0 for the nearest. `None` where there are not this many.
    #[tactic(auto, using(crate::proofs::CallSites::site_of_saved, crate::proofs::CallSites::site_past))]
    pub fn call_site(&self, number: usize) -> Option<CallSite>
        ensures { result ≡ call_site_at number self.now.callers }
    {
        let saved = self.saved.as_slice();
        if number >= saved.len() {
            return None;
        }
        let caller = saved[saved.len() - 1 - number];
        Some(CallSite {
            origin: caller.region.origin,
            place: caller.resume.place,
        })
    }
}
