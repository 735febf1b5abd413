//! The StaticField component.
ghost use Rattle.std.specs.Prelude.{◌≡◌, Ok, IfOk};
ghost use Rattle.jc_cap.specs.Reading.{ParsesAs, value_of_whole};
ghost use Rattle.jc_cap.specs.StaticValues.{StaticParts};
ghost use Rattle.jc_cap.specs.StaticReading.{value_counts_at, statics_at};
ghost use Rattle.jc_cap.specs.Statics.{AreStatics};
ghost use Rattle.jc_cap.specs.StaticViews.{TellsCounts, static_counts, static_parts};

use crate::fault::CapFault;
use crate::fields::{run, u2};
use crate::static_arrays::{ArrayInits, read_arrays};

/// The static fields of a package. They are lent from the component.
///
/// The static field image begins with the references, two bytes each, those to the initialised arrays first of all. The
/// zeros of the fields with default values follow, and then the other values.
#[derive(Drop)]
pub struct StaticFields<'a> {
    /// The size of the image in bytes.
    pub image_size: u16,
    pub reference_count: u16,
    pub arrays: ArrayInits<'a>,
    /// How many bytes of zeros there are.
    pub default_value_count: u16,
    pub non_default_values: &'a [u8],
}

#[tactic(auto, unfolding(crate::specs::StaticReading::value_counts_at))]
fn read_value_counts(
    image_size: u16,
    references: u16,
    bytes: &[u8],
) -> Result<((u16, u16), &[u8]), CapFault>
    ensures { ParsesAs (λ x. (x.0, x.1.now)) result (value_counts_at image_size references
        bytes.now) }
{
    let (zeros, rest) = u2(bytes)?;
    let (others, rest) = u2(rest)?;
    if image_size as u32 != 2 * references as u32 + zeros as u32 + others as u32 {
        return Err(CapFault::SizesDisagree);
    }
    Ok(((zeros, others), rest))
}

#[tactic(auto, unfolding(crate::specs::StaticReading::statics_at))]
fn read_static_fields(bytes: &[u8]) -> Result<(StaticFields<'_>, &[u8]), CapFault>
    ensures { ParsesAs (λ x. (static_parts x.0, x.1.now)) result (statics_at bytes.now) }
{
    let (image_size, rest) = u2(bytes)?;
    let (reference_count, rest) = u2(rest)?;
    let (arrays, rest) = read_arrays(reference_count, rest)?;
    let ((default_value_count, others), rest) = read_value_counts(
        image_size,
        reference_count,
        rest,
    )?;
    let (non_default_values, rest) = run(others as usize, rest)?;
    let fields = StaticFields {
        image_size,
        reference_count,
        arrays,
        default_value_count,
        non_default_values,
    };
    Ok((fields, rest))
}

fn read_whole(info: &[u8]) -> Result<StaticFields<'_>, CapFault>
    ensures { ParsesAs static_parts result (value_of_whole (statics_at info.now)) }
{
    let (fields, rest) = read_static_fields(info)?;
    if !rest.is_empty() {
        return Err(CapFault::Trailing);
    }
    Ok(fields)
}

/// Reads the info of a StaticField component.
///
/// The faults, from the left: BadOffset for more arrays than references, for an array of another type than boolean, byte
/// or short, and for half a short at an array's end; SizesDisagree where the image's size is not that of its parts;
/// Truncated; Trailing.
pub fn read_static_field(info: &[u8]) -> Result<StaticFields<'_>, CapFault>
    // What is read stands in the info.
    ensures found { IfOk result (λ s. AreStatics (static_parts s) info.now) }
    // An info that is a StaticField component is read.
    ensures only { (s : StaticParts) → AreStatics s info.now → ParsesAs static_parts result (Ok s) }
    // Otherwise the fault is the first one from the left.
    ensures exact { ParsesAs static_parts result (value_of_whole (statics_at info.now)) }
{
    read_whole(info)
}

/// The numbers that a StaticField component states. Where they are kept once it was read, it is not read a second time.
#[derive(Clone, Copy, Drop)]
pub struct StaticCounts {
    pub image_size: u16,
    pub reference_count: u16,
    pub array_count: u16,
    pub default_value_count: u16,
    pub non_default_count: usize,
}

impl<'a> StaticFields<'a> {
    /// The numbers that the component states.
    pub fn counts(&self) -> StaticCounts
        ensures { result ≡ static_counts (static_parts self.now) }
    {
        StaticCounts {
            image_size: self.image_size,
            reference_count: self.reference_count,
            array_count: self.arrays.count(),
            default_value_count: self.default_value_count,
            non_default_count: self.non_default_values.len(),
        }
    }

    /// The static fields in an info which was read before, and which states these numbers. Nothing is read a second time.
    pub fn found_in(counts: StaticCounts, info: &'a [u8]) -> StaticFields<'a>
        requires { TellsCounts counts (value_of_whole (statics_at info.now)) }
        ensures { value_of_whole (statics_at info.now) ≡ Ok (static_parts result) }
    {
        let (_, arrays) = info.split_at(6);
        let (_, values) = info.split_at(info.len() - counts.non_default_count);
        StaticFields {
            image_size: counts.image_size,
            reference_count: counts.reference_count,
            arrays: ArrayInits::found_in(counts.array_count, arrays),
            default_value_count: counts.default_value_count,
            non_default_values: values,
        }
    }
}
