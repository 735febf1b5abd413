//! The Class component.
ghost use Rattle.std.specs.Prelude.{◌≡◌, ◌<◌, ◌^◌, List, length, false, Some, Ok, IfOk, MatchOption, slice_get, take};
ghost use Rattle.jc_cap.specs.Reading.{ParsesAs, IsReadable};
ghost use Rattle.jc_cap.specs.ClassValues.{RecordAt, offsets_of, contents_of};
ghost use Rattle.jc_cap.specs.ClassReading.{is_among, records_start, classes_of, record_offsets_or_none, records_or_none};
ghost use Rattle.jc_cap.specs.Classes.{LooksBack, AreClasses};

use crate::class_reading::{Known, is_among, read_record};
use crate::class_records::ClassRecord;
use crate::fault::CapFault;
use crate::fields::{run, u2};
use crate::formats::Format;
use arrayvec::ArrayVec;
use std::marker::Model;

/// The bytes after what stands in front of the records: in format 2.2 the signature pool.
#[tactic(auto, unfolding(crate::specs::ClassReading::records_start))]
fn records_start(format: Format, info: &[u8]) -> Result<&[u8], CapFault>
    ensures { ParsesAs (λ x. x.now) result (records_start format info.now) }
{
    match format {
        Format::V2_1 => Ok(info),
        Format::V2_2 => {
            let (count, rest) = u2(info)?;
            let (_, records) = run(count as usize, rest)?;
            Ok(records)
        }
    }
}

/// The same offsets.
fn copy_of(offsets: &ArrayVec<u16, 256>) -> ArrayVec<u16, 256>
    ensures { result.items ≡ offsets.now.items }
{
    let mut copy: ArrayVec<u16, 256> = ArrayVec::new();
    match copy.try_extend_from_slice(offsets.as_slice()) {
        Ok(()) => copy,
        Err(_) => unreachable!(),
    }
}

/// The offsets of all records.
fn record_offsets(format: Format, info: &[u8]) -> Result<ArrayVec<u16, 256>, CapFault>
    requires { length info.now < 2 ^ 16 }
    ensures { ParsesAs (λ o. o.items) result (record_offsets_or_none (classes_of format info.now)) }
{
    let mut before: ArrayVec<u16, 256> = ArrayVec::new();
    let mut rest = records_start(format, info)?;
    while !rest.is_empty() {
        if before.len() == 256 {
            return Err(CapFault::BadOffset);
        }
        let (_, next) = read_record(Known::Earlier(before.as_slice()), rest)?;
        before.push((info.len() - rest.len()) as u16);
        rest = next;
    }
    Ok(before)
}

fn offset_at(offsets: &[u16], number: usize) -> u16
    requires { number < length offsets.now }
    ensures { slice_get offsets.now number ≡ Some result }
{
    offsets[number]
}

/// The first place of the offset in the list.
fn index_of(offset: u16, offsets: &[u16]) -> Option<usize>
    ensures { MatchOption result (is_among offset offsets.now ≡ false)
        (λ i. (slice_get offsets.now i ≡ Some offset) ×
        (is_among offset (take i offsets.now) ≡ false)) }
{
    for i in 0..offsets.len() {
        let here = offset_at(offsets, i);
        if here == offset {
            return Some(i);
        }
    }
    None
}

/// The classes and interfaces of a package, in the order of their records. They are lent from the component.
///
/// A class's number is its place among the records, of which there are 256 at most. Offsets count from the info's first
/// byte, in format 2.2 too, so that none of a record lies in the signature pool.
#[derive(Drop)]
pub struct Classes<'a> {
    format: Format,
    info: &'a [u8],
    offsets: ArrayVec<u16, 256>,
}

impl<'a> Model for Classes<'a> {
    ghost use Rattle.std.specs.Prelude.{◌≡◌, List, Ok};
    ghost use Rattle.jc_cap.specs.ClassValues.{RecordAt, offsets_of};
    ghost use Rattle.jc_cap.specs.ClassReading.{classes_of, records_or_none};

    ghost Value = { List RecordAt };

    ghost view = { λ a. records_or_none (classes_of a.format a.info.now) };

    ghost invariant = { λ a. (classes_of a.format a.info.now
        ≡ Ok (records_or_none (classes_of a.format a.info.now)))
        × (a.offsets.items ≡ offsets_of (records_or_none (classes_of a.format a.info.now))) };
}

fn read_classes(format: Format, info: &[u8]) -> Result<Classes<'_>, CapFault>
    requires { length info.now < 2 ^ 16 }
    ensures { ParsesAs (λ x. x) result (classes_of format info.now) }
{
    let offsets = record_offsets(format, info)?;
    let classes = Classes {
        format,
        info,
        offsets,
    };
    Ok(classes)
}

/// Reads the info of a Class component.
///
/// The faults, first that of a signature pool that is cut, and then record after record from the left: BadOffset for a 257th record; Remote for a remote interface; BadOffset
/// for a reserved flag, for a superclass or superinterface of this package that is no earlier record, and where the
/// fields that hold references don't lie among the declared ones; Truncated.
pub fn read_class(format: Format, info: &[u8]) -> Result<Classes<'_>, CapFault>
    requires { length info.now < 2 ^ 16 }
    // What is read stands in the info.
    ensures found { IfOk result (λ x. AreClasses format x info.now) }
    // An info that is a Class component is read.
    ensures only { (rs : List RecordAt) → AreClasses format rs info.now
        → ParsesAs (λ x. x) result (Ok rs) }
    // Otherwise the fault is the first one from the left.
    ensures exact { ParsesAs (λ x. x) result (classes_of format info.now) }
{
    read_classes(format, info)
}

impl<'a> Classes<'a> {
    /// The classes in an info which was read before in this format, and whose records begin at these offsets. They are
    /// found again without reading them.
    pub fn found_in(format: Format, info: &'a [u8], offsets: &ArrayVec<u16, 256>) -> Classes<'a>
        requires readable { IsReadable (classes_of format info.now) }
        requires offsets { offsets.now.items ≡ offsets_of (records_or_none
            (classes_of format info.now)) }
        ensures { classes_of format info.now ≡ Ok result }
    {
        Classes {
            format,
            info,
            offsets: copy_of(offsets),
        }
    }

    /// Where the records begin.
    pub fn into_offsets(self) -> ArrayVec<u16, 256>
        ensures { result.items ≡ offsets_of self.entry }
    {
        let Classes { offsets, .. } = self;
        offsets
    }

    /// How many there are, 256 at most.
    pub fn count(&self) -> usize
        ensures { result ≡ length self.now }
    {
        self.offsets.len()
    }

    /// The offset, in the info, of the record with this number.
    pub fn offset(&self, number: usize) -> u16
        requires { number < length self.now }
        ensures { slice_get (offsets_of self.now) number ≡ Some result }
    {
        offset_at(self.offsets.as_slice(), number)
    }

    /// Whether a record begins at this offset.
    pub fn begins_record(&self, offset: u16) -> bool
        ensures { result ≡ is_among offset (offsets_of self.now) }
    {
        is_among(offset, self.offsets.as_slice())
    }

    /// The number of the record that begins at this offset, if one does.
    pub fn number_of(&self, offset: u16) -> Option<usize>
        ensures { MatchOption result (is_among offset (offsets_of self.now) ≡ false)
            (λ i. (slice_get (offsets_of self.now) i ≡ Some offset)
            × (is_among offset (take i (offsets_of self.now)) ≡ false)) }
    {
        index_of(offset, self.offsets.as_slice())
    }

    /// The record with this number.
    pub fn get(&self, number: usize) -> ClassRecord<'a>
        requires { number < length self.now }
        ensures found { slice_get (contents_of self.now) number ≡ Some result }
        // Its superclass and its superinterfaces are earlier records, or stand in other packages.
        ensures earlier { LooksBack (take number (offsets_of self.now)) result }
    {
        let at = offset_at(self.offsets.as_slice(), number);
        let (_, bytes) = self.info.split_at(at as usize);
        match read_record(Known::Any, bytes) {
            Ok((record, _)) => record,
            Err(_) => unreachable!(),
        }
    }
}
