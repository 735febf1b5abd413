//! A StaticField component that came and was read.
ghost use Rattle.std.specs.Prelude.{◌≡◌, Ok};
ghost use Rattle.jc_cap.specs.Reading.{ParsesAs};
ghost use Rattle.jc_cap.specs.StaticViews.{counts_or_none, static_parts};
ghost use Rattle.jc_cap.specs.ComponentReading.{statics_in};
ghost use Rattle.jc_cap.specs.KeptComponents.{Keeps};

use crate::envelope::{info_found_in, info_of};
use crate::fault::CapFault;
use crate::statics::{StaticCounts, StaticFields, read_static_field};
use crate::tags;
use std::marker::Model;

// The numbers that the component states.
fn counts_in(bytes: &[u8]) -> Result<StaticCounts, CapFault>
    ensures { ParsesAs (λ x. x) result (counts_or_none (statics_in bytes.now)) }
{
    let info = info_of(tags::STATIC_FIELD, bytes)?;
    let statics = read_static_field(info)?;
    Ok(statics.counts())
}

/// A StaticField component that was read, and the numbers that it states.
#[derive(Drop)]
pub struct StaticFieldComponent {
    bytes: Vec<u8>,
    counts: StaticCounts,
}

impl Model for StaticFieldComponent {
    ghost use Rattle.std.specs.Prelude.{ℕ, List};
    ghost use Rattle.jc_cap.specs.StaticViews.{TellsCounts};
    ghost use Rattle.jc_cap.specs.ComponentReading.{statics_in};

    ghost Value = { List ℕ };

    ghost view = { λ a. a.bytes.items };

    ghost invariant = { λ a. TellsCounts a.counts (statics_in a.bytes.items) };
}

impl StaticFieldComponent {
    /// Reads the component that the bytes are, and keeps them. No memory is taken.
    #[tactic(auto, using(crate::proofs::ReadAgain::counts_told, crate::proofs::ReadAgain::counts_fault))]
    pub fn read(bytes: Vec<u8>) -> Result<StaticFieldComponent, CapFault>
        ensures { Keeps bytes.items (statics_in bytes.items) result }
    {
        let counts = counts_in(bytes.as_slice())?;
        Ok(StaticFieldComponent { bytes, counts })
    }

    /// The component's bytes, with its tag and its size.
    pub fn bytes(&self) -> &[u8]
        ensures { result.now ≡ self.now }
    {
        let StaticFieldComponent { bytes, .. } = self;
        bytes.as_slice()
    }

    /// The package's static fields. They are found again in the bytes, without a fault.
    #[tactic(auto, using(crate::proofs::ReadAgain::counts_of_info))]
    pub fn statics(&self) -> StaticFields<'_>
        ensures { statics_in self.now ≡ Ok (static_parts result) }
    {
        let info = info_found_in(tags::STATIC_FIELD, self.bytes.as_slice());
        StaticFields::found_in(self.counts, info)
    }
}
