//! A Class component that came and was read.
ghost use Rattle.std.specs.Prelude.{◌≡◌};
ghost use Rattle.jc_cap.specs.Reading.{ParsesAs};
ghost use Rattle.jc_cap.specs.ClassReading.{record_offsets_or_none};
ghost use Rattle.jc_cap.specs.ComponentReading.{classes_in};
ghost use Rattle.jc_cap.specs.KeptComponents.{Keeps};

use crate::classes::{Classes, read_class};
use crate::envelope::{info_found_in, info_of};
use crate::fault::CapFault;
use crate::formats::Format;
use crate::tags;
use arrayvec::ArrayVec;
use std::marker::Model;

fn classes_in(format: Format, bytes: &[u8]) -> Result<Classes<'_>, CapFault>
    ensures { ParsesAs (λ x. x) result (classes_in format bytes.now) }
{
    let info = info_of(tags::CLASS, bytes)?;
    read_class(format, info)
}

// Where the records begin.
fn offsets_in(format: Format, bytes: &[u8]) -> Result<ArrayVec<u16, 256>, CapFault>
    ensures { ParsesAs (λ o. o.items) result (record_offsets_or_none (classes_in format bytes.now)) }
{
    let classes = classes_in(format, bytes)?;
    Ok(classes.into_offsets())
}

/// A Class component that was read in a format, and where its records begin.
#[derive(Drop)]
pub struct ClassComponent {
    format: Format,
    bytes: Vec<u8>,
    offsets: ArrayVec<u16, 256>,
}

impl Model for ClassComponent {
    ghost use Rattle.std.specs.Prelude.{◌≡◌, ℕ, List};
    ghost use Rattle.jc_cap.specs.Reading.{IsReadable};
    ghost use Rattle.jc_cap.specs.ClassValues.{offsets_of};
    ghost use Rattle.jc_cap.specs.ClassReading.{records_or_none};
    ghost use Rattle.jc_cap.specs.ComponentReading.{classes_in};

    ghost Value = { List ℕ };

    ghost view = { λ a. a.bytes.items };

    ghost invariant = { λ a. IsReadable (classes_in a.format a.bytes.items)
        × (a.offsets.items ≡ offsets_of (records_or_none (classes_in a.format a.bytes.items))) };
}

impl ClassComponent {
    /// Reads the component that the bytes are in this format, and keeps them. No memory is taken.
    pub fn read(format: Format, bytes: Vec<u8>) -> Result<ClassComponent, CapFault>
        ensures { Keeps bytes.items (classes_in format bytes.items) result }
    {
        let offsets = offsets_in(format, bytes.as_slice())?;
        Ok(ClassComponent {
            format,
            bytes,
            offsets,
        })
    }

    /// The component's bytes, with its tag and its size.
    pub fn bytes(&self) -> &[u8]
        ensures { result.now ≡ self.now }
    {
        let ClassComponent { bytes, .. } = self;
        bytes.as_slice()
    }

    /// The package's classes and interfaces in this format. In the one that they were read in they are found again, without
    /// a fault; in another one they are read, which no load asks for.
    pub fn classes(&self, format: Format) -> Result<Classes<'_>, CapFault>
        ensures { ParsesAs (λ x. x) result (classes_in format self.now) }
    {
        if self.format != format {
            return classes_in(format, self.bytes.as_slice());
        }
        let info = info_found_in(tags::CLASS, self.bytes.as_slice());
        Ok(Classes::found_in(format, info, &self.offsets))
    }
}
